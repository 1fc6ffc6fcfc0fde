//! Values by their words. A word that isn't what is wanted ends the test.

use identifiers::{AccountNumber, Reference, SessionId, VoucherCode};
use std::alloc::Global;
use std::process::Abort;
use units::{Moment, Money};

pub(crate) fn account(rt: &impl Abort, alloc: Global, word: &str) -> AccountNumber {
    let number = AccountNumber::new(alloc, word).expect(rt, "room");
    number.expect(rt, "an account")
}

pub(crate) fn session_id(rt: &impl Abort, alloc: Global, word: &str) -> SessionId {
    let id = SessionId::new(alloc, word).expect(rt, "room");
    id.expect(rt, "a session")
}

pub(crate) fn reference(rt: &impl Abort, alloc: Global, word: &str) -> Reference {
    let reference = Reference::new(alloc, word).expect(rt, "room");
    reference.expect(rt, "a reference")
}

pub(crate) fn code(rt: &impl Abort, alloc: Global, word: &str) -> VoucherCode {
    let code = VoucherCode::new(alloc, word).expect(rt, "room");
    code.expect(rt, "a code")
}

pub(crate) fn moment(rt: &impl Abort, seconds: u64) -> Moment {
    Moment::new(seconds).expect(rt, "a moment")
}

pub(crate) fn money(rt: &impl Abort, micros: u64) -> Money {
    Money::new(micros).expect(rt, "an amount")
}

pub(crate) fn small(rt: &impl Abort, word: &str) -> u32 {
    word.parse::<u32>().expect(rt, word)
}

pub(crate) fn large(rt: &impl Abort, word: &str) -> u64 {
    word.parse::<u64>().expect(rt, word)
}

/// The moment of a word.
pub(crate) fn at(rt: &impl Abort, word: &str) -> Moment {
    moment(rt, large(rt, word))
}

/// A number, or `-` for none.
pub(crate) fn perhaps(rt: &impl Abort, word: &str) -> Option<u32> {
    if word == "-" {
        None
    } else {
        Some(small(rt, word))
    }
}

/// The parts of a text between spaces.
pub(crate) fn words_of<'a>(rt: &impl Abort, alloc: Global, text: &'a str) -> Vec<&'a str> {
    let mut words = Vec::new(alloc);
    for word in text.split(" ") {
        words.push(word).expect(rt, "room");
    }
    words
}
