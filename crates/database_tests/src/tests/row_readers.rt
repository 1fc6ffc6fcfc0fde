//! Rows by their words: a row is a line, its kind and then its columns.

use crate::tests::values::{at, large, perhaps, session_id, small, words_of};
use buckets::{Bucket, BucketKind, Columns, HeldAmount, Holds, Purse};
use calendar::Period;
use ledger::{ChargeRow, Terms};
use rating::Periods;
use reserving::{
    Counter, GivenRows, Reservation, Session, SessionGroup, SessionState, StoredAccount,
};
use sql_rows::HeadColumns;
use std::alloc::Global;
use std::process::Abort;
use units::{Amount, Blocks, Moment};

/// The rows of an account, and charges.
#[derive(Drop)]
pub(crate) struct Given {
    pub(crate) buckets: Vec<Bucket>,
    pub(crate) counters: Vec<Counter>,
    pub(crate) sessions: Vec<Session>,
    pub(crate) groups: Vec<SessionGroup>,
    pub(crate) charges: Vec<ChargeRow>,
}

/// `NUMBER FROM UNTIL SCOPE CREDITED AVAILABLE RESERVED CHARGED EXPIRED`.
fn bucket(rt: &impl Abort, words: &[&str]) -> Bucket {
    let [number, from, until, scope, amounts @ ..] = words else {
        panic!(rt; "a bucket")
    };
    let [credited, available, reserved, charged, expired] = amounts else {
        panic!(rt; "five amounts")
    };
    let columns = Columns {
        number: small(rt, number),
        kind: BucketKind::Money,
        from: at(rt, from),
        until: at(rt, until),
        scope: perhaps(rt, scope),
        credited: large(rt, credited),
        available: large(rt, available),
        reserved: large(rt, reserved),
        charged: large(rt, charged),
        expired: large(rt, expired),
    };
    Bucket::from_columns(&columns).expect(rt, "a bucket")
}

/// `GROUP CYCLE BLOCKS`.
fn counter(rt: &impl Abort, words: &[&str]) -> Counter {
    let [group, cycle, blocks] = words else {
        panic!(rt; "a counter")
    };
    Counter {
        group: small(rt, group),
        cycle: small(rt, cycle),
        blocks: large(rt, blocks),
    }
}

fn state(rt: &impl Abort, word: &str) -> SessionState {
    match word {
        "open" => SessionState::Open,
        "ended" => SessionState::Ended,
        "never" => SessionState::NeverOpened,
        _ => panic!(rt; "a state"),
    }
}

/// `NAME LAST-NUMBER TOUCHED STATE`.
fn session(rt: &impl Abort, alloc: Global, words: &[&str]) -> Session {
    let [name, last_number, touched, word] = words else {
        panic!(rt; "a session")
    };
    Session {
        id: session_id(rt, alloc, name),
        last_number: small(rt, last_number),
        touched: at(rt, touched),
        state: state(rt, word),
    }
}

/// `BUCKET AMOUNT` again and again.
fn holds(rt: &impl Abort, alloc: Global, words: &[&str]) -> Holds {
    let mut items = Vec::new(alloc);
    for pair in words.chunks(2) {
        let [bucket, amount] = pair else {
            panic!(rt; "a hold")
        };
        let (bucket, amount) = (small(rt, bucket), large(rt, amount));
        items.push(HeldAmount { bucket, amount }).expect(rt, "room");
    }
    Holds::from_items(items).expect(rt, "holds")
}

/// The places of two periods, the first one behind `NUMBER:` where it isn't of the first book.
fn terms(rt: &impl Abort, before: &str, after: &str) -> Terms {
    let (number, before) = match before.split_once(":") {
        Some(both) => both,
        None => ("1", before),
    };
    let book = number.parse::<u8>().expect(rt, "a book's number");
    let before = Period(before.parse::<u8>().expect(rt, "a period"));
    let after = Period(after.parse::<u8>().expect(rt, "a period"));
    let periods = Periods { before, after };
    Terms { book, periods }
}

/// The places of two periods and then holds, or nothing.
fn reservation(rt: &impl Abort, alloc: Global, words: &[&str]) -> Option<Reservation> {
    let [before, after, held @ ..] = words else {
        return None;
    };
    Some(Reservation {
        terms: terms(rt, before, after),
        holds: holds(rt, alloc, held),
    })
}

/// `SESSION GROUP USED`, perhaps with a reservation.
fn group(rt: &impl Abort, alloc: Global, words: &[&str]) -> SessionGroup {
    let [name, number, used, reserved @ ..] = words else {
        panic!(rt; "a group")
    };
    SessionGroup {
        session: session_id(rt, alloc, name),
        group: small(rt, number),
        used: large(rt, used),
        reservation: reservation(rt, alloc, reserved),
    }
}

/// `NUMBER MOMENT SESSION GROUP BLOCKS RATED COLLECTED UNCOLLECTED`.
fn charge(rt: &impl Abort, alloc: Global, words: &[&str]) -> ChargeRow {
    let [number, moment, name, of_group, blocks, amounts @ ..] = words else {
        panic!(rt; "a charge")
    };
    let [rated, collected, uncollected] = amounts else {
        panic!(rt; "three amounts")
    };
    let collected = large(rt, collected) as u128;
    let uncollected = large(rt, uncollected) as u128;
    assert_eq!(rt; collected + uncollected, large(rt, rated) as u128);
    ChargeRow {
        number: small(rt, number),
        moment: at(rt, moment),
        session: session_id(rt, alloc, name),
        group: small(rt, of_group),
        blocks: Blocks(large(rt, blocks)),
        covered: Blocks(0),
        rated: Amount(collected + uncollected),
        collected: Amount(collected),
        uncollected: Amount(uncollected),
    }
}

impl Given {
    fn none(alloc: Global) -> Given {
        Given {
            buckets: Vec::new(alloc),
            counters: Vec::new(alloc),
            sessions: Vec::new(alloc),
            groups: Vec::new(alloc),
            charges: Vec::new(alloc),
        }
    }

    fn push(&mut self, rt: &impl Abort, alloc: Global, words: &[&str]) {
        let [kind, columns @ ..] = words else {
            panic!(rt; "a row")
        };
        let is_pushed = match *kind {
            "bucket" => self.buckets.push(bucket(rt, columns)).is_ok(),
            "counter" => self.counters.push(counter(rt, columns)).is_ok(),
            "session" => self.sessions.push(session(rt, alloc, columns)).is_ok(),
            "group" => self.groups.push(group(rt, alloc, columns)).is_ok(),
            "charge" => self.charges.push(charge(rt, alloc, columns)).is_ok(),
            _ => false,
        };
        assert!(rt; is_pushed);
    }

    /// The rows of a text, a line each.
    pub(crate) fn of(rt: &impl Abort, alloc: Global, text: &str) -> Given {
        let mut given = Given::none(alloc);
        for line in text.lines() {
            given.push(rt, alloc, &words_of(rt, alloc, line));
        }
        given
    }
}

/// `BARRED AS-OF NEXT-BUCKET NEXT-CHARGE`.
pub(crate) fn head(rt: &impl Abort, alloc: Global, text: &str) -> HeadColumns {
    let words = words_of(rt, alloc, text);
    let [barred, as_of, next_bucket, next_charge] = words.as_slice() else {
        panic!(rt; "a head")
    };
    HeadColumns {
        barred: *barred == "barred",
        as_of: at(rt, as_of),
        next_bucket: large(rt, next_bucket),
        next_charge: large(rt, next_charge),
    }
}

/// An account of these rows, and the charges among them.
pub(crate) fn stored_rows(
    rt: &impl Abort,
    alloc: Global,
    head: &HeadColumns,
    text: &str,
) -> (StoredAccount, Vec<ChargeRow>) {
    let Given {
        buckets,
        counters,
        sessions,
        groups,
        charges,
    } = Given::of(rt, alloc, text);
    let rows = GivenRows {
        as_of: head.as_of,
        barred: head.barred,
        purse: Purse::from_buckets(alloc, buckets)
            .expect(rt, "memory")
            .expect(rt, "a purse"),
        counters,
        sessions,
        groups,
        next_bucket: head.next_bucket,
        next_charge: head.next_charge,
    };
    let account = StoredAccount::from_rows(alloc, rows).expect(rt, "an account");
    (account, charges)
}

/// An account that isn't barred, of these rows as of a moment; its next bucket is the third.
pub(crate) fn stored(rt: &impl Abort, alloc: Global, as_of: Moment, text: &str) -> StoredAccount {
    let head = HeadColumns {
        barred: false,
        as_of,
        next_bucket: 3,
        next_charge: 1,
    };
    let (account, _charges) = stored_rows(rt, alloc, &head, text);
    account
}
