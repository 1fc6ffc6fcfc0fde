//! What is loaded of an account that was written, and which of its rows a change writes.

use crate::tests::new_keepers::{Trial, change_of, new_trial};
use crate::tests::row_readers::stored;
use crate::tests::row_writers::push;
use crate::tests::values::moment;
use keepers::StoreFault;
use reserving::{Account, StoredAccount};
use shelves::TariffShelf;
use std::alloc::Global;
use std::process::Abort;

/// Monday, 2026-01-05, 10:00: the month has number 684.
const AT: u64 = 1_767_607_200;

/// The account that is written.
const OURS: &str = "49151";

/// A dead bucket.
const FIRST: &str = "bucket 1 1767607200 1767700000 - 10 0 0 10 0";

/// A bucket that has 7.
const SEVEN: &str = "bucket 2 1767607200 1767700000 - 10 7 3 0 0";

/// The same once 2 more were charged.
const FIVE: &str = "bucket 2 1767607200 1767700000 - 10 5 3 2 0";

/// Counters of two months, two sessions, one of them over, and what they have of a rating group.
const OTHERS: &str = "counter 10 0 2
counter 20 683 9
counter 20 684 4
session open 1 1767607200 open
session over 1 1767607200 ended
group open 10 60 1 0 2 3
group over 10 120";

/// The same with the open session ended, and what it has of the rating group as it was.
const ENDED: &str = "counter 10 0 2
counter 20 683 9
counter 20 684 4
session open 2 1767607200 ended
session over 1 1767607200 ended
group open 10 60 1 0 2 3
group over 10 120";

/// An account whose second bucket is this.
fn account_with(rt: &impl Abort, alloc: Global, bucket: &str) -> StoredAccount {
    let rows = format!(in alloc; "{FIRST}\n{bucket}\n{OTHERS}").expect(rt, "room");
    stored(rt, alloc, moment(rt, AT), rows.as_str())
}

/// An account as the last of these changes leaves it, with its open session ended beside the
/// reservation: no account of a list of commands has such rows.
fn account_ended(rt: &impl Abort, alloc: Global) -> StoredAccount {
    let rows = format!(in alloc; "{FIRST}\n{FIVE}\n{ENDED}").expect(rt, "room");
    stored(rt, alloc, moment(rt, AT), rows.as_str())
}

/// Commits a change that ends a session and leaves its reservation, and says what is answered.
fn tell_ended(rt: &impl Abort, trial: &mut Trial) {
    let alloc = trial.alloc;
    let rows = (account_with(rt, alloc, FIVE), account_ended(rt, alloc));
    let change = change_of(rt, alloc, moment(rt, AT), OURS, rows);
    let told = match trial.keeper.commit(change) {
        Ok(()) => "a change\n",
        Err(StoreFault::Store) => "a store fault\n",
        Err(StoreFault::Memory) => "no memory\n",
    };
    push(rt, &mut trial.told, told);
}

/// Commits a change of the account's second bucket, and says what is viewed after it.
fn tell_changed(rt: &impl Abort, trial: &mut Trial, shelf: &TariffShelf, old: &str, new: &str) {
    let alloc = trial.alloc;
    let rows = (account_with(rt, alloc, old), account_with(rt, alloc, new));
    trial.commit(rt, OURS, AT, rows);
    trial.tell_view(rt, shelf, OURS, AT);
}

/// What is viewed before the account is written, and after; after a change by which its second
/// bucket has 5 before and after; after one by which it has 7 and then 5; and after one that may
/// not be made.
fn views(rt: &impl Abort, trial: &mut Trial, shelf: &TariffShelf) {
    trial.tell_view(rt, shelf, OURS, AT);
    let new = Account::new(trial.alloc, shelf).into_stored();
    let rows = (new, account_with(rt, trial.alloc, SEVEN));
    trial.commit(rt, OURS, AT, rows);
    trial.tell_view(rt, shelf, OURS, AT);
    tell_changed(rt, trial, shelf, FIVE, FIVE);
    tell_changed(rt, trial, shelf, SEVEN, FIVE);
    tell_ended(rt, trial);
    trial.tell_view(rt, shelf, OURS, AT);
}

/// What may still change of the account whose second bucket has 7.
const WITH_SEVEN: &str = "account as of 1767607200, next charge 1
bucket 2 1767607200 1767700000 - 10 7 3 0 0
counter 10 0 2
counter 20 684 4
session open 1 1767607200 open
group open 10 60 1 0 2 3
";

/// The same where it has 5.
const WITH_FIVE: &str = "account as of 1767607200, next charge 1
bucket 2 1767607200 1767700000 - 10 5 3 2 0
counter 10 0 2
counter 20 684 4
session open 1 1767607200 open
group open 10 60 1 0 2 3
";

// rule: grant-units.passes-in, database-loads, database-loads.joined, database-loads.loaded-from,
//   database-loads.live-groups, database-loads.told-groups, database-loads.live-account,
//   database-loads.load, database-loads.keeps, database-loads.load-step, database-writes.changed,
//   database-reads.tables-of
#[test]
fn what_may_still_change_is_loaded_and_what_differs_written(rt: HostRuntime) {
    let (mut trial, shelf) = new_trial(&rt, rt.alloc());
    views(&rt, &mut trial, &shelf);
    // A row that is the same before and after isn't named, whatever is there; one that differs is. A
    // session isn't ended beside a reservation.
    let parts = [
        "no account\n",
        WITH_SEVEN,
        WITH_SEVEN,
        WITH_FIVE,
        "a store fault\n",
        WITH_FIVE,
    ];
    let wanted = parts.concat(rt.alloc()).expect(&rt, "room");
    assert_eq!(rt; trial.told.as_str(), wanted.as_str());
}
