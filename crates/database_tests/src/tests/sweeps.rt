//! Two accounts that are swept together, and seen again by a keeper that is opened.

use crate::tests::new_keepers::{Trial, new_trial, opened_again};
use crate::tests::row_readers::stored;
use crate::tests::row_writers::push;
use crate::tests::values::moment;
use reserving::Account;
use shelves::TariffShelf;
use std::process::Abort;

/// Monday, 2026-01-05, 10:00.
const BEGIN: u64 = 1_767_607_200;

/// Two validity times later.
const SWEEP: u64 = 1_767_614_400;

/// 1,000,000 micro-units from midnight on that are held for a session.
const HOLDING: &str = "bucket 1 1767571200 4102444800 - 1000000 0 1000000 0 0
session s13 0 1767607200 open
group s13 10 0 1 1 1 1000000";

/// 90,000 micro-units from midnight until 10:10.
const ENDING: &str = "bucket 1 1767571200 1767607800 - 90000 90000 0 0 0";

/// Writes an account of these rows.
fn write(rt: &impl Abort, trial: &mut Trial, shelf: &TariffShelf, number: &str, rows: &str) {
    let before = Account::new(trial.alloc, shelf).into_stored();
    let after = stored(rt, trial.alloc, moment(rt, BEGIN), rows);
    trial.commit(rt, number, BEGIN, (before, after));
}

/// The account's dead buckets, and what is viewed of it at the moment of the sweep.
fn tell_account(rt: &impl Abort, trial: &mut Trial, shelf: &TariffShelf, number: &str) {
    write!(trial.told, "{number}\n").expect(rt, "room");
    trial.tell_dead(rt, number);
    trial.tell_view(rt, shelf, number, SWEEP);
}

/// What is seen of both accounts, and the last moment.
fn tell_both(rt: &impl Abort, trial: &mut Trial, shelf: &TariffShelf) {
    tell_account(rt, trial, shelf, "49151");
    tell_account(rt, trial, shelf, "49152");
    trial.tell_last(rt);
}

/// What is seen after two accounts are written, and after a sweep.
fn try_sweep(rt: &impl Abort, trial: &mut Trial, shelf: &TariffShelf) {
    write(rt, trial, shelf, "49151", HOLDING);
    write(rt, trial, shelf, "49152", ENDING);
    tell_both(rt, trial, shelf);
    let swept = trial.keeper.sweep(shelf, moment(rt, SWEEP));
    let count = swept.expect(rt, "a sweep");
    write!(trial.told, "swept {count}\n").expect(rt, "room");
    tell_both(rt, trial, shelf);
}

const WRITTEN: &str = "49151
account as of 1767607200, next charge 1
bucket 1 1767571200 4102444800 - 1000000 0 1000000 0 0
session s13 0 1767607200 open
group s13 10 0 1 1 1 1000000
49152
account as of 1767607200, next charge 1
bucket 1 1767571200 1767607800 - 90000 90000 0 0 0
last 1767607200
";

/// At the sweep the session is over, and so is the time of the second account's bucket.
const SWEPT: &str = "49151
account as of 1767614400, next charge 1
bucket 1 1767571200 4102444800 - 1000000 1000000 0 0 0
49152
bucket 1 1767571200 1767607800 - 90000 0 0 0 90000
account as of 1767614400, next charge 1
last 1767614400
";

// rule: sweep.brought-to, database-sweep, database-opened.left
#[test]
fn a_sweep_is_found_by_a_keeper_that_is_opened(rt: HostRuntime) {
    let (mut trial, shelf) = new_trial(&rt, rt.alloc());
    try_sweep(&rt, &mut trial, &shelf);
    let (mut trial, shelf) = opened_again(&rt, trial);
    push(&rt, &mut trial.told, "opened\n");
    tell_both(&rt, &mut trial, &shelf);
    // What was seen after the sweep is seen again.
    let parts = [WRITTEN, "swept 2\n", SWEPT, "opened\n", SWEPT];
    let wanted = parts.concat(rt.alloc()).expect(&rt, "room");
    assert_eq!(rt; trial.told.as_str(), wanted.as_str());
}
