//! Buckets, counters, sessions and charges of an account.

ghost use Rattle.database_tests.specs.Ready.{IsReady};
ghost use Rattle.sqlite.specs.Held.{state};

use crate::tests::row_readers::Given;
use crate::tests::row_writers::{
    push, push_charges, push_columns, push_counters, push_session, push_sessions,
};
use crate::tests::values::session_id;
use buckets::{Bucket, Columns};
use identifiers::AccountNumber;
use ledger::ChargeRow;
use reserving::{Counter, Session};
use sql_rows::{
    CycleNumbers, LiveBucket, add_sessions, put_bucket, put_buckets, put_charge, put_charges,
    put_counter, put_counters, put_session, read_buckets_all, read_buckets_dead, read_buckets_live,
    read_charges_within, read_counter, read_head_cycles, read_session, read_sessions_open,
};
use sqlite::{Alter, Connection};
use std::alloc::Global;
use std::process::Abort;

/// Puts all rows, by the statements of many; the sessions are new.
pub(crate) fn keep_rows<S: Alter>(
    rt: &impl Abort,
    conn: &mut Connection<S>,
    account: &AccountNumber,
    given: &Given,
)
    requires ready { IsReady (state S.Store conn.old) }
    ensures ready { IsReady (state S.Store conn.new) }
{
    let mut tx = conn.transaction();
    put_buckets(&mut tx, account, &given.buckets).expect(rt, "buckets");
    put_counters(&mut tx, account, &given.counters).expect(rt, "counters");
    add_sessions(&mut tx, account, &given.sessions).expect(rt, "sessions");
    put_charges(&mut tx, account, &given.charges).expect(rt, "charges");
    tx.commit().expect(rt, "a commit");
}

/// A row of each kind.
#[derive(Clone, Copy)]
struct Each<'a> {
    bucket: &'a Bucket,
    counter: &'a Counter,
    session: &'a Session,
    charge: &'a ChargeRow,
}

/// Puts a row of each kind, by the statements of one.
fn keep_one<S: Alter>(
    rt: &impl Abort,
    conn: &mut Connection<S>,
    account: &AccountNumber,
    rows: &Each,
)
    requires ready { IsReady (state S.Store conn.old) }
    ensures ready { IsReady (state S.Store conn.new) }
{
    let mut tx = conn.transaction();
    put_bucket(&mut tx, account, rows.bucket).expect(rt, "a bucket");
    put_counter(&mut tx, account, rows.counter).expect(rt, "a counter");
    put_session(&mut tx, account, rows.session).expect(rt, "a session");
    put_charge(&mut tx, account, rows.charge).expect(rt, "a charge");
    tx.commit().expect(rt, "a commit");
}

/// The rows at a place.
fn each_at<'a>(rt: &impl Abort, given: &'a Given, place: usize) -> Each<'a> {
    Each {
        bucket: given.buckets.get(place).expect(rt, "a bucket"),
        counter: given.counters.get(place).expect(rt, "a counter"),
        session: given.sessions.get(place).expect(rt, "a session"),
        charge: given.charges.get(place).expect(rt, "a charge"),
    }
}

/// Puts the first two rows of each kind, one by one.
pub(crate) fn keep_each<S: Alter>(
    rt: &impl Abort,
    conn: &mut Connection<S>,
    account: &AccountNumber,
    given: &Given,
)
    requires ready { IsReady (state S.Store conn.old) }
    ensures ready { IsReady (state S.Store conn.new) }
{
    keep_one(rt, conn, account, &each_at(rt, given, 0));
    keep_one(rt, conn, account, &each_at(rt, given, 1));
}

fn push_all_columns(rt: &impl Abort, text: &mut String, title: &str, rows: &[Columns]) {
    push(rt, text, title);
    for row in rows {
        push_columns(rt, text, row);
    }
}

fn push_live(rt: &impl Abort, text: &mut String, rows: &[LiveBucket]) {
    push(rt, text, "live\n");
    for row in rows {
        push_columns(rt, text, &row.columns);
    }
}

/// The live buckets, the dead ones, and all.
fn tell_buckets<S: Alter>(
    rt: &impl Abort,
    alloc: Global,
    conn: &mut Connection<S>,
    account: &AccountNumber,
    text: &mut String,
)
    requires ready { IsReady (state S.Store conn.old) }
    ensures ready { IsReady (state S.Store conn.new) }
{
    let live = read_buckets_live(conn, alloc, account).expect(rt, "a reading");
    push_live(rt, text, &live);
    let dead = read_buckets_dead(conn, alloc, account).expect(rt, "a reading");
    push_all_columns(rt, text, "dead\n", &dead);
    let all = read_buckets_all(conn, alloc, account).expect(rt, "a reading");
    push_all_columns(rt, text, "all\n", &all);
}

fn push_counter(rt: &impl Abort, text: &mut String, row: Option<Counter>) {
    match row {
        Some(row) => push_counters(rt, text, &[row]),
        None => push(rt, text, "no counter\n"),
    }
}

/// The counters of the cycles 2 to 4 of the rating group 10, and all of the cycles 3 and 5.
fn tell_counters<S: Alter>(
    rt: &impl Abort,
    alloc: Global,
    conn: &mut Connection<S>,
    account: &AccountNumber,
    text: &mut String,
)
    requires ready { IsReady (state S.Store conn.old) }
    ensures ready { IsReady (state S.Store conn.new) }
{
    push_counter(
        rt,
        text,
        read_counter(conn, account, 10, 2).expect(rt, "a reading"),
    );
    push_counter(
        rt,
        text,
        read_counter(conn, account, 10, 3).expect(rt, "a reading"),
    );
    push_counter(
        rt,
        text,
        read_counter(conn, account, 10, 4).expect(rt, "a reading"),
    );
    let cycles = CycleNumbers {
        never: 3,
        day: 5,
        month: 5,
    };
    let read = read_head_cycles(conn, alloc, account, cycles).expect(rt, "a reading");
    push(rt, text, "of cycle 3\n");
    push_counters(rt, text, &read.never);
    push(rt, text, "of cycle 5\n");
    push_counters(rt, text, &read.daily);
}

fn tell_session<S: Alter>(
    rt: &impl Abort,
    alloc: Global,
    conn: &mut Connection<S>,
    account: &AccountNumber,
    name: &str,
    text: &mut String,
)
    requires ready { IsReady (state S.Store conn.old) }
    ensures ready { IsReady (state S.Store conn.new) }
{
    let id = session_id(rt, alloc, name);
    let row = read_session(conn, alloc, account, &id).expect(rt, "a reading");
    match &row {
        Some(row) => push_session(rt, text, row),
        None => push(rt, text, "no session\n"),
    }
}

/// Three sessions by their names, and all that are open.
fn tell_sessions<S: Alter>(
    rt: &impl Abort,
    alloc: Global,
    conn: &mut Connection<S>,
    account: &AccountNumber,
    text: &mut String,
)
    requires ready { IsReady (state S.Store conn.old) }
    ensures ready { IsReady (state S.Store conn.new) }
{
    tell_session(rt, alloc, conn, account, "s1", text);
    tell_session(rt, alloc, conn, account, "s2", text);
    tell_session(rt, alloc, conn, account, "s3", text);
    push(rt, text, "open\n");
    let open = read_sessions_open(conn, alloc, account).expect(rt, "a reading");
    push_sessions(rt, text, &open);
}

/// All charges, those up to the first, and those up to the second after it.
fn tell_charges<S: Alter>(
    rt: &impl Abort,
    alloc: Global,
    conn: &mut Connection<S>,
    account: &AccountNumber,
    text: &mut String,
)
    requires ready { IsReady (state S.Store conn.old) }
    ensures ready { IsReady (state S.Store conn.new) }
{
    push(rt, text, "charges\n");
    let all = read_charges_within(conn, alloc, account, 0, 4_294_967_295).expect(rt, "a reading");
    push_charges(rt, text, &all);
    push(rt, text, "up to 1\n");
    let first = read_charges_within(conn, alloc, account, 0, 1).expect(rt, "a reading");
    push_charges(rt, text, &first);
    push(rt, text, "from 2 to 2\n");
    let second = read_charges_within(conn, alloc, account, 1, 2).expect(rt, "a reading");
    push_charges(rt, text, &second);
}

/// All that is read of these rows.
pub(crate) fn tell_rows<S: Alter>(
    rt: &impl Abort,
    alloc: Global,
    conn: &mut Connection<S>,
    account: &AccountNumber,
    text: &mut String,
)
    requires ready { IsReady (state S.Store conn.old) }
    ensures ready { IsReady (state S.Store conn.new) }
{
    tell_buckets(rt, alloc, conn, account, text);
    tell_counters(rt, alloc, conn, account, text);
    tell_sessions(rt, alloc, conn, account, text);
    tell_charges(rt, alloc, conn, account, text);
}
