//! Vouchers that are added, redeemed, and added and redeemed again.

use crate::tests::tables::{Teller, Words, try_table};
use crate::tests::voucher::office::{Office, days_of, optional, terms};
use std::alloc::Global;
use std::process::Abort;

/// Tries the lines of a scenario over a code under which nothing is, in UTC.
fn play(rt: &impl Abort, alloc: Global, lines: &str) {
    let mut office = Office::new(days_of(rt, alloc, 0));
    try_table(rt, alloc, &mut office, lines);
}

/// 30 days from 2026-01-05 10:00 on: they end with 2026-02-04.
const WITH_DAYS: &str = "\
redeem 49151 1767607200 => there is no such voucher
add 5000000 30 - => new
add 5000000 30 - => present
add 5000000 31 - => conflicting
add 5000000 - - => conflicting
add 5000001 30 - => conflicting
add 5000000 30 20 => conflicting
redeem 49151 4099852800 => the bucket would end past the last moment
redeem 49151 1767607200 => 5000000 1767607200 1770249600 - by 49151
redeem 49151 1767607200 => the voucher is spent
redeem 49152 1767607200 => the voucher is spent
redeem 49152 4099852800 => the voucher is spent
add 5000000 30 - => present
add 5000000 31 - => conflicting
redeem 49152 1767607201 => the voucher is spent";

/// A voucher without days can be redeemed at the last moment of commands.
const WITHOUT_DAYS: &str = "\
add 1000000000000000 - 4294967295 => new
redeem 49 4102444799 => 1000000000000000 4102444799 4102444800 4294967295 by 49
redeem 49151 4102444799 => the voucher is spent";

// rule: voucher-add, redeem, redeemed-once.stands-for-good
#[test]
fn vouchers(rt: HostRuntime) {
    play(&rt, rt.alloc(), WITH_DAYS);
    play(&rt, rt.alloc(), WITHOUT_DAYS);
}

/// Tells whether an amount, days and a scope are terms of a voucher.
#[derive(Clone, Copy)]
struct Ranges;

impl Teller for Ranges {
    fn tell<R: Abort>(&mut self, rt: &R, alloc: Global, case: &str) -> String {
        let mut words = Words::of(case);
        let amount = words.number(rt);
        let (days, scope) = (optional(rt, words.word()), optional(rt, words.word()));
        let are_terms = terms(rt, amount, days, scope).is_some();
        format!(in alloc; "{are_terms}").expect(rt, "memory")
    }
}

const RANGES: &str = "\
1 1 0 => true
5 1 - => true
1000000000000000 3650 4294967295 => true
1 - - => true
0 1 0 => false
0 - - => false
1 0 0 => false
1 3651 0 => false
1 4294967295 - => false";

// rule: voucher-terms
#[test]
fn ranges_of_terms(rt: HostRuntime) {
    try_table(&rt, rt.alloc(), &mut Ranges, RANGES);
}
