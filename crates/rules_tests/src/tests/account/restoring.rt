//! An account is made of rows, taken apart and made again; rows that aren't those of an account are
//! refused.

use crate::tests::account::rows::holds_text;
use crate::tests::tables::{Teller, try_table, try_told};
use crate::tests::values::{TEN, moment, money, session_id};
use buckets::{Bucket, HeldAmount, Holds, Purse};
use calendar::Period;
use ledger::Terms;
use rating::Periods;
use reserving::{
    Counter, GivenRows, Reservation, Session, SessionGroup, SessionState, StoredAccount,
};
use std::alloc::{AllocError, Global};
use std::process::Abort;
use units::{Amount, Moment};

fn session(rt: &impl Abort, alloc: Global) -> Session {
    Session {
        id: session_id(rt, alloc, "s1"),
        last_number: 4,
        touched: moment(rt, TEN),
        state: SessionState::Open,
    }
}

/// A bucket of 100 for all, and one of 30 for a rating group that ends before.
fn purse(rt: &impl Abort, alloc: Global) -> Purse {
    let mut purse = Purse::new(alloc);
    let (first, ten, until) = (moment(rt, 0), moment(rt, 10), moment(rt, 500));
    let credit = purse.credit(1, first, Moment::no_end(), None, money(rt, 100));
    credit.expect(rt, "the first bucket");
    let credit = purse.credit(2, ten, until, Some(10), money(rt, 30));
    credit.expect(rt, "the second bucket");
    purse
}

fn group(rt: &impl Abort, alloc: Global, holds: Holds) -> SessionGroup {
    let periods = Periods {
        before: Period(0),
        after: Period(1),
    };
    let terms = Terms { book: 1, periods };
    SessionGroup {
        session: session_id(rt, alloc, "s1"),
        group: 10,
        used: 60,
        reservation: Some(Reservation { terms, holds }),
    }
}

/// A list of one.
fn only<T: Drop>(rt: &impl Abort, alloc: Global, item: T) -> Vec<T> {
    let mut list = Vec::new(alloc);
    list.push(item).expect(rt, "memory");
    list
}

/// An account whose reservation of 40 holds all of the second bucket and 10 of the first.
fn rows(rt: &impl Abort, alloc: Global) -> GivenRows {
    let mut purse = purse(rt, alloc);
    let holds = purse
        .hold(10, moment(rt, 20), Amount(40))
        .expect(rt, "holds");
    let counter = Counter {
        group: 10,
        cycle: 3,
        blocks: 7,
    };
    GivenRows {
        as_of: moment(rt, TEN),
        barred: true,
        purse,
        counters: only(rt, alloc, counter),
        sessions: only(rt, alloc, session(rt, alloc)),
        groups: only(rt, alloc, group(rt, alloc, holds)),
        next_bucket: 3,
        next_charge: 9,
    }
}

// ---- rows as text

fn push_buckets(rt: &impl Abort, alloc: Global, rows: &[Bucket], text: &mut String) {
    for row in rows {
        let (number, available, reserved) = (row.number(), row.available(), row.reserved());
        let piece = format!(in alloc; "{number} {available} {reserved}; ").expect(rt, "memory");
        text.push_str(piece.as_str()).expect(rt, "memory");
    }
}

fn push_counters(rt: &impl Abort, alloc: Global, rows: &[Counter], text: &mut String) {
    for row in rows {
        let piece = format!(in alloc; "{} {} {}; ", row.group, row.cycle, row.blocks);
        let piece = piece.expect(rt, "memory");
        text.push_str(piece.as_str()).expect(rt, "memory");
    }
}

fn push_sessions(rt: &impl Abort, alloc: Global, rows: &[Session], text: &mut String) {
    for row in rows {
        let piece = format!(in alloc; "{} {:?}; ", row.id.as_str(), row.state);
        let piece = piece.expect(rt, "memory");
        text.push_str(piece.as_str()).expect(rt, "memory");
    }
}

fn push_group(rt: &impl Abort, alloc: Global, row: &SessionGroup, text: &mut String) {
    let piece = format!(in alloc; "{} {} {}", row.session.as_str(), row.group, row.used);
    let piece = piece.expect(rt, "memory");
    text.push_str(piece.as_str()).expect(rt, "memory");
    if let Some(reservation) = &row.reservation {
        let holds = holds_text(rt, alloc, reservation.holds.as_slice());
        text.push_str(holds.as_str()).expect(rt, "memory");
    }
    text.push_str("; ").expect(rt, "memory");
}

/// Its moment, whether it is barred and its next numbers; then its rows.
fn told(rt: &impl Abort, alloc: Global, account: &StoredAccount) -> String {
    let (at, barred) = (account.as_of().seconds(), account.is_barred());
    let (bucket, charge) = (account.next_bucket(), account.next_charge());
    let mut text = format!(in alloc; "{at} {barred} {bucket} {charge}; ").expect(rt, "memory");
    push_buckets(rt, alloc, account.purse().buckets(), &mut text);
    push_counters(rt, alloc, account.counters(), &mut text);
    push_sessions(rt, alloc, account.sessions(), &mut text);
    for row in account.groups() {
        push_group(rt, alloc, row, &mut text);
    }
    text
}

// ---- an account, taken apart

fn copy_of_sessions(alloc: Global, rows: &[Session]) -> Result<Vec<Session>, AllocError> {
    let mut copies = Vec::new(alloc);
    for row in rows {
        copies.push(row.clone()?)?;
    }
    Ok(copies)
}

fn copy_of_groups(alloc: Global, rows: &[SessionGroup]) -> Result<Vec<SessionGroup>, AllocError> {
    let mut copies = Vec::new(alloc);
    for row in rows {
        copies.push(row.clone()?)?;
    }
    Ok(copies)
}

/// A copy of each of its rows.
fn parts(rt: &impl Abort, alloc: Global, account: &StoredAccount) -> GivenRows {
    let buckets = account.purse().to_vec().expect(rt, "memory");
    GivenRows {
        as_of: account.as_of(),
        barred: account.is_barred(),
        purse: Purse::from_buckets(alloc, buckets)
            .expect(rt, "memory")
            .expect(rt, "a purse"),
        counters: Vec::from_slice(alloc, account.counters()).expect(rt, "memory"),
        sessions: copy_of_sessions(alloc, account.sessions()).expect(rt, "memory"),
        groups: copy_of_groups(alloc, account.groups()).expect(rt, "memory"),
        next_bucket: account.next_bucket(),
        next_charge: account.next_charge(),
    }
}

const ROWS: &str = "1767607200 true 3 9; 2 0 30; 1 90 10; 10 3 7; s1 Open; s1 10 60 2:30 1:10; ";

fn account_of(rt: &impl Abort, alloc: Global, rows: GivenRows) -> StoredAccount {
    StoredAccount::from_rows(alloc, rows).expect(rt, "an account")
}

fn try_account(rt: &impl Abort, alloc: Global, account: &StoredAccount) {
    let told = told(rt, alloc, account);
    try_told(rt, "an account", told.as_str(), ROWS);
}

/// The account of the rows, and that of its own rows.
#[test]
fn an_account_of_rows(rt: HostRuntime) {
    let alloc = rt.alloc();
    let first = account_of(&rt, alloc, rows(&rt, alloc));
    try_account(&rt, alloc, &first);
    let second = account_of(&rt, alloc, parts(&rt, alloc, &first));
    try_account(&rt, alloc, &second);
}

// ---- what is refused

fn turn_keys(rt: &impl Abort, alloc: Global, word: &str, rows: &mut GivenRows) {
    match word {
        "session" => rows.sessions.push(session(rt, alloc)).expect(rt, "memory"),
        "group" => {
            let group = group(rt, alloc, Holds::none(alloc));
            rows.groups.push(group).expect(rt, "memory")
        }
        "counter" => {
            let counter = Counter {
                group: 10,
                cycle: 3,
                blocks: 0,
            };
            rows.counters.push(counter).expect(rt, "memory")
        }
        _ => {}
    }
}

fn turn_numbers(word: &str, rows: &mut GivenRows) {
    match word {
        "bucket" => rows.next_bucket = 2,
        "next bucket" => rows.next_bucket = 4_294_967_297,
        "next charge" => rows.next_charge = 4_294_967_297,
        _ => {}
    }
}

fn turn_limits(word: &str, rows: &mut GivenRows) {
    match word {
        "blocks" => {
            if let Some(row) = rows.counters.get_mut(0) {
                row.blocks = 4_000_000_000_000_000_001;
            }
        }
        "use" => {
            if let Some(row) = rows.groups.get_mut(0) {
                row.used = 1_000_000_000_000_000_001;
            }
        }
        _ => {}
    }
}

fn turn_holds(rt: &impl Abort, alloc: Global, word: &str, rows: &mut GivenRows) {
    let (first, second) = match word {
        "order" => ((1, 10), (2, 30)),
        "less" => ((2, 30), (1, 9)),
        "more" => ((2, 30), (1, 11)),
        "other" => ((2, 30), (3, 10)),
        _ => return,
    };
    let holds = [first, second].map(|(bucket, amount)| HeldAmount { bucket, amount });
    let holds = holds.to_vec(alloc).expect(rt, "memory");
    let holds = Holds::from_items(holds).expect(rt, "holds");
    rows.groups = only(rt, alloc, group(rt, alloc, holds));
}

/// One thing of the rows is turned.
fn turn(rt: &impl Abort, alloc: Global, word: &str, rows: &mut GivenRows) {
    turn_keys(rt, alloc, word, rows);
    turn_numbers(word, rows);
    turn_limits(word, rows);
    turn_holds(rt, alloc, word, rows);
    if word == "nobody" {
        rows.groups.clear();
    }
}

/// Tells whether the rows are those of an account once one thing of them is turned.
#[derive(Clone, Copy)]
struct Turned;

impl Teller for Turned {
    fn tell<R: Abort>(&mut self, rt: &R, alloc: Global, case: &str) -> String {
        let mut rows = rows(rt, alloc);
        turn(rt, alloc, case, &mut rows);
        let is_made = StoredAccount::from_rows(alloc, rows).is_some();
        format!(in alloc; "{is_made}").expect(rt, "memory")
    }
}

/// Two rows of one key, a number out of its range, and what is reserved without a hold of it, with
/// one of another amount or bucket, or with holds in another order.
const TURNED: &str = "\
none => true
session => false
group => false
counter => false
bucket => false
next bucket => false
next charge => false
blocks => false
use => false
order => false
less => false
more => false
other => false
nobody => false";

// rule: bucket-columns, holds.held-unended, grant-terms, database-loads.of-open-sessions,
//   database-loads.go-on
#[test]
fn rows_of_no_account(rt: HostRuntime) {
    try_table(&rt, rt.alloc(), &mut Turned, TURNED);
}
