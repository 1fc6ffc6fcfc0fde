//! A voucher that is added, redeemed by a change, and added once more.

use crate::tests::new_keepers::{Trial, change_of, new_trial};
use crate::tests::row_writers::{push, push_voucher};
use crate::tests::values::{account, code, moment, money};
use keepers::Redeemed;
use reserving::Account;
use shelves::TariffShelf;
use std::process::Abort;
use voucher_rules::{Voucher, VoucherTerms};

/// Monday, 2026-01-05, 10:00.
const ADDED: u64 = 1_767_607_200;

/// An hour later.
const REDEEMED: u64 = 1_767_610_800;

/// And an hour more.
const ADDED_AGAIN: u64 = 1_767_614_400;

/// 5 units for 30 days of the rating group 10.
fn terms(rt: &impl Abort) -> VoucherTerms {
    VoucherTerms::new(money(rt, 5_000_000), Some(30), Some(10)).expect(rt, "terms")
}

/// A micro-unit without an end, for all groups.
fn other_terms(rt: &impl Abort) -> VoucherTerms {
    VoucherTerms::new(money(rt, 1), None, None).expect(rt, "terms")
}

/// What is under a code.
fn tell_voucher(rt: &impl Abort, trial: &mut Trial, digits: &str) {
    let code = code(rt, trial.alloc, digits);
    let found = trial.keeper.find_voucher(&code).expect(rt, "a look");
    match &found {
        Some(voucher) => push_voucher(rt, &mut trial.told, voucher),
        None => push(rt, &mut trial.told, "no voucher\n"),
    }
}

/// What is under two codes, and the moment of the last change.
fn tell_vouchers(rt: &impl Abort, trial: &mut Trial) {
    tell_voucher(rt, trial, "000000000001");
    tell_voucher(rt, trial, "000000000002");
    trial.tell_last(rt);
}

/// Adds the first voucher.
fn add(rt: &impl Abort, trial: &mut Trial, terms: VoucherTerms, at: u64) {
    let code = code(rt, trial.alloc, "000000000001");
    let added = trial.keeper.add_voucher(code, terms, moment(rt, at));
    added.expect(rt, "an addition");
}

/// An account redeems the first voucher.
fn redeem(rt: &impl Abort, trial: &mut Trial, shelf: &TariffShelf) {
    let alloc = trial.alloc;
    let before = Account::new(alloc, shelf).into_stored();
    let after = Account::new(alloc, shelf).into_stored();
    let mut change = change_of(rt, alloc, moment(rt, REDEEMED), "49151", (before, after));
    change.redeemed = Some(Redeemed {
        code: code(rt, alloc, "000000000001"),
        voucher: Voucher {
            terms: terms(rt),
            redeemer: Some(account(rt, alloc, "49151")),
        },
    });
    trial.keeper.commit(change).expect(rt, "a commit");
}

/// What is there before the voucher is added, after it is, after it is redeemed, and after
/// another is added in its place.
const VOUCHERS: &str = "no voucher
no voucher
last 0
voucher 5000000 30 10 unspent
no voucher
last 1767607200
voucher 5000000 30 10 spent by 49151
no voucher
last 1767610800
voucher 1 - - unspent
no voucher
last 1767614400
";

fn try_vouchers(rt: &impl Abort, trial: &mut Trial, shelf: &TariffShelf) {
    tell_vouchers(rt, trial);
    add(rt, trial, terms(rt), ADDED);
    tell_vouchers(rt, trial);
    redeem(rt, trial, shelf);
    tell_vouchers(rt, trial);
    add(rt, trial, other_terms(rt), ADDED_AGAIN);
    tell_vouchers(rt, trial);
}

// rule: voucher-add.with-voucher, database-reads.find-answer, answer-rows
#[test]
fn a_voucher_is_added_and_redeemed(rt: HostRuntime) {
    let (mut trial, shelf) = new_trial(&rt, rt.alloc());
    try_vouchers(&rt, &mut trial, &shelf);
    assert_eq!(rt; trial.told.as_str(), VOUCHERS);
}
