//! Scenarios of an account over a tariff book: what each call gives, and the account's buckets
//! after it. They are reckoned by hand from the book's prices: seconds in blocks of 60 at 100000
//! micro-units on weekdays from 08:00 to 20:00, else at 50000; octets in blocks of 1048576, of
//! which the first 100 of a month are free and the others cost 10000; events at 90000. 1767607200
//! is 10:00 of a Monday.
//!
//! A line is a moment, a call with its words, what it gives, and the buckets, each as what was
//! credited and what of it is available, reserved, charged and expired: micro-units of money, or
//! blocks of an allowance.

use crate::tests::account::calls::{Call, outcome};
use crate::tests::account::rows::buckets_text;
use crate::tests::tables::{Teller, try_table};
use crate::tests::values::{account, shelf};
use reserving::Account;
use shelves::TariffShelf;
use std::alloc::Global;
use std::process::Abort;

/// Tries scenarios over the book of a document, each on an account that begins empty.
pub(crate) fn play_all(rt: &impl Abort, alloc: Global, document: &str, scenarios: &[&str]) {
    let shelf = shelf(rt, alloc, document);
    for lines in scenarios {
        play(rt, alloc, &shelf, lines);
    }
}

/// The buckets of the account's copy.
fn copied_buckets(rt: &impl Abort, alloc: Global, account: &Account) -> String {
    let copy = account.copy().expect(rt, "memory");
    buckets_text(rt, alloc, copy.purse().buckets())
}

/// Tells what a line's call gives, and the buckets of the account's copy after it.
#[derive(Drop)]
struct Player<'b> {
    account: Account<'b>,
}

impl Teller for Player<'_> {
    fn tell<R: Abort>(&mut self, rt: &R, alloc: Global, case: &str) -> String {
        let outcome = outcome(rt, alloc, &mut self.account, &Call::of(rt, case));
        let buckets = copied_buckets(rt, alloc, &self.account);
        format!(in alloc; "{outcome}{buckets}").expect(rt, "memory")
    }
}

/// Tries the lines of a scenario on an account that begins empty.
pub(crate) fn play(rt: &impl Abort, alloc: Global, shelf: &TariffShelf, lines: &str) {
    let account = account(alloc, shelf);
    try_table(rt, alloc, &mut Player { account }, lines);
}
