//! Tests of `identifiers`: each text is made and written, and what is no address is refused.

use crate::tests::tables::{Teller, Words, try_table};
use crate::tests::values::session_id;
use identifiers::{AccountNumber, RedirectAddress, Reference, VoucherCode};
use std::alloc::Global;
use std::process::Abort;

/// Tells of a kind of name and a text the text that its value has.
#[derive(Clone, Copy)]
struct Names;

impl Teller for Names {
    fn tell<R: Abort>(&mut self, rt: &R, alloc: Global, case: &str) -> String {
        let mut words = Words::of(case);
        let (kind, text) = (words.word(), words.rest());
        match kind {
            "session" => session(rt, alloc, text),
            "account" => account(rt, alloc, text),
            "reference" => reference(rt, alloc, text),
            "code" => code(rt, alloc, text),
            "address" => address(rt, alloc, text),
            _ => addresses(rt, alloc, text),
        }
    }
}

fn told(rt: &impl Abort, alloc: Global, text: &str) -> String {
    String::from_str(alloc, text).expect(rt, "memory")
}

/// A Session-Id, and whether its copy is equal to it.
fn session(rt: &impl Abort, alloc: Global, text: &str) -> String {
    let id = session_id(rt, alloc, text);
    let copy: Result<_, _> = id.clone();
    let is_equal = copy.expect(rt, "memory") == id;
    format!(in alloc; "{} {is_equal}", id.as_str()).expect(rt, "memory")
}

fn account(rt: &impl Abort, alloc: Global, text: &str) -> String {
    let number = AccountNumber::new(alloc, text).expect(rt, "memory");
    told(rt, alloc, number.expect(rt, "an account").as_str())
}

fn reference(rt: &impl Abort, alloc: Global, text: &str) -> String {
    let reference = Reference::new(alloc, text).expect(rt, "memory");
    told(rt, alloc, reference.expect(rt, "a reference").as_str())
}

fn code(rt: &impl Abort, alloc: Global, text: &str) -> String {
    let code = VoucherCode::new(alloc, text).expect(rt, "memory");
    told(rt, alloc, code.expect(rt, "a code").as_str())
}

/// A redirect address; `none` where the text is none.
fn address(rt: &impl Abort, alloc: Global, text: &str) -> String {
    match RedirectAddress::new(alloc, text).expect(rt, "memory") {
        Some(address) => told(rt, alloc, address.as_str()),
        None => told(rt, alloc, "none"),
    }
}

/// Whether two redirect addresses are equal.
fn addresses(rt: &impl Abort, alloc: Global, text: &str) -> String {
    let (first, second) = text.split_once(" ").expect(rt, "two addresses");
    let first = RedirectAddress::new(alloc, first).expect(rt, "memory");
    let second = RedirectAddress::new(alloc, second).expect(rt, "memory");
    let is_equal = first.expect(rt, "an address") == second.expect(rt, "an address");
    format!(in alloc; "{is_equal}").expect(rt, "memory")
}

const NAMES: &str = "\
session gw01.example;1876543210;523 => gw01.example;1876543210;523 true
account 491511234567890 => 491511234567890
reference v1 => v1
code 000000000001 => 000000000001
address a b => none
address http://topup.example/ => http://topup.example/
addresses http://topup.example/ http://topup.example => false";

// rule: names
#[test]
fn texts_that_name_things(rt: HostRuntime) {
    try_table(&rt, rt.alloc(), &mut Names, NAMES);
}
