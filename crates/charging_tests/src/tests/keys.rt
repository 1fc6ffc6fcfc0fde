//! The keys of kept answers, and the numbers of store faults.

use crate::tests::lines::account;
use identifiers::{Reference, SessionId};
use keepers::{Key, StoreFault};
use std::alloc::Global;
use std::process::Abort;
use wire::read_content;

/// The key of a request of session `s1`.
fn request_key(rt: &impl Abort, alloc: Global, number: u32) -> Key {
    let session = SessionId::new(alloc, "s1").expect(rt, "memory");
    let session = session.expect(rt, "a session");
    Key::Request { session, number }
}

/// The key of a credit under this reference.
fn credit_key(rt: &impl Abort, alloc: Global, credit: &str) -> Key {
    let account = account(rt, alloc, "49151");
    let content = read_content(alloc, account, credit.as_bytes()).expect(rt, "a credit");
    Key::of(&content).expect(rt, "memory")
}

fn reference_key(rt: &impl Abort, alloc: Global, word: &str) -> Key {
    let reference = Reference::new(alloc, word).expect(rt, "memory");
    Key::Reference(reference.expect(rt, "a reference"))
}

/// Asserts that two keys are one, or two.
fn assert_one(rt: &impl Abort, key: &Key, other: &Key, one: bool) {
    assert_eq!(rt; key == other, one);
}

// rule: database-writes.rows-written, database-reads
#[test]
fn keys(rt: HostRuntime) {
    let first = request_key(&rt, rt.alloc(), 0);
    let again = first.clone().expect(&rt, "memory");
    let second = request_key(&rt, rt.alloc(), 1);
    let credit = credit_key(&rt, rt.alloc(), r#"{"Amount":150000,"Reference":"v1"}"#);
    let reference = reference_key(&rt, rt.alloc(), "v1");
    assert_one(&rt, &first, &again, true);
    assert_one(&rt, &first, &second, false);
    assert_one(&rt, &credit, &reference, true);
    assert_one(&rt, &credit, &first, false);
}

// rule: store-faults.cause
#[test]
fn numbers_of_store_faults(rt: HostRuntime) {
    assert_eq!(rt; StoreFault::Memory.number(), 1);
    assert_eq!(rt; StoreFault::Store.number(), 2);
}
