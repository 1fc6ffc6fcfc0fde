//! What sessions have of rating groups, and what they hold.

ghost use Rattle.database_tests.specs.Ready.{IsReady};
ghost use Rattle.sqlite.specs.Held.{state};

use crate::tests::row_writers::push;
use buckets::HeldAmount;
use identifiers::{AccountNumber, SessionId};
use sql_rows::{
    GroupColumns, HeldColumns, PutNames, add_group, put_group, put_hold, put_holds, read_groups,
    read_holds, remove_holds,
};
use sqlite::{Alter, Connection};
use std::alloc::Global;
use std::process::Abort;

/// A reservation of a new rating group: 5 of the first bucket; and of the second 7, and then 9 in
/// its place.
pub(crate) fn keep_reserved<S: Alter>(
    rt: &impl Abort,
    conn: &mut Connection<S>,
    account: &AccountNumber,
    session: &SessionId,
    group: u32,
)
    requires ready { IsReady (state S.Store conn.old) }
    ensures ready { IsReady (state S.Store conn.new) }
{
    let (bucket, amount) = (1, 5);
    let first = HeldAmount { bucket, amount };
    let second = HeldAmount {
        bucket: 2,
        amount: 7,
    };
    let again = HeldAmount {
        bucket: 2,
        amount: 9,
    };
    let mut tx = conn.transaction();
    let names = PutNames {
        before: "day",
        after: "night",
    };
    add_group(&mut tx, account, session, group, 60, Some(names)).expect(rt, "a row");
    put_holds(&mut tx, account, session, group, &[first, second]).expect(rt, "holds");
    put_hold(&mut tx, account, session, group, &again).expect(rt, "a hold");
    tx.commit().expect(rt, "a commit");
}

/// The reservation ends, and with it what it holds.
pub(crate) fn keep_free<S: Alter>(
    rt: &impl Abort,
    conn: &mut Connection<S>,
    account: &AccountNumber,
    session: &SessionId,
    group: u32,
)
    requires ready { IsReady (state S.Store conn.old) }
    ensures ready { IsReady (state S.Store conn.new) }
{
    let mut tx = conn.transaction();
    put_group(&mut tx, account, session, group, 75, None).expect(rt, "a row");
    remove_holds(&mut tx, account, session, group).expect(rt, "a removal");
    tx.commit().expect(rt, "a commit");
}

/// Each group's number and use, and the periods of its reservation.
fn push_group_columns(rt: &impl Abort, text: &mut String, rows: &[GroupColumns]) {
    for row in rows {
        let (group, used) = (row.group, row.used);
        write!(text, "group {group} {used}").expect(rt, "room");
        if let Some(names) = &row.periods {
            let (before, after) = (names.before.as_str(), names.after.as_str());
            write!(text, " {before} {after}").expect(rt, "room");
        }
        push(rt, text, "\n");
    }
}

/// Each hold's rating group, bucket and amount.
fn push_held_columns(rt: &impl Abort, text: &mut String, rows: &[HeldColumns]) {
    for row in rows {
        let (group, bucket, amount) = (row.group, row.bucket, row.amount);
        write!(text, "hold {group} {bucket} {amount}\n").expect(rt, "room");
    }
}

/// The groups of a session, and what they hold.
pub(crate) fn tell_groups<S: Alter>(
    rt: &impl Abort,
    alloc: Global,
    conn: &mut Connection<S>,
    account: &AccountNumber,
    session: &SessionId,
    text: &mut String,
)
    requires ready { IsReady (state S.Store conn.old) }
    ensures ready { IsReady (state S.Store conn.new) }
{
    let groups = read_groups(conn, alloc, account, session).expect(rt, "a reading");
    push_group_columns(rt, text, &groups);
    let holds = read_holds(conn, alloc, account, session).expect(rt, "a reading");
    push_held_columns(rt, text, &holds);
}
