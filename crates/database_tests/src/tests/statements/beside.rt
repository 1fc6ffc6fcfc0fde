//! What is beside rows in tables of its own: the books of reservations, which buckets count
//! blocks, and the covered blocks of charges; and the books after the first.

ghost use Rattle.database_tests.specs.Ready.{IsReady};
ghost use Rattle.sqlite.specs.Held.{state};

use crate::tests::row_writers::push;
use crate::tests::values::moment;
use identifiers::{AccountNumber, SessionId};
use sql_rows::{
    BookColumns, CoveredColumns, GrantBook, LiveBucket, put_allowance, put_book, put_covered,
    put_grant_book, read_allowances, read_books, read_buckets_live, read_covered_within,
    read_grant_books, remove_allowance, remove_covered, remove_grant_book,
};
use sqlite::{Alter, Connection};
use std::alloc::Global;
use std::process::Abort;
use units::Blocks;

/// The reservation of group 20 goes by the second book. The row is put twice.
fn keep_grant_book<S: Alter>(
    rt: &impl Abort,
    conn: &mut Connection<S>,
    account: &AccountNumber,
    session: &SessionId,
)
    requires ready { IsReady (state S.Store conn.old) }
    ensures ready { IsReady (state S.Store conn.new) }
{
    let mut tx = conn.transaction();
    put_grant_book(&mut tx, account, session, 20, 1).expect(rt, "a row");
    put_grant_book(&mut tx, account, session, 20, 2).expect(rt, "a row");
    tx.commit().expect(rt, "a commit");
}

/// The second bucket, which is spent, and the third, which is reserved as a whole, count blocks.
/// The row of the second is put twice.
fn keep_allowances<S: Alter>(rt: &impl Abort, conn: &mut Connection<S>, account: &AccountNumber)
    requires ready { IsReady (state S.Store conn.old) }
    ensures ready { IsReady (state S.Store conn.new) }
{
    let mut tx = conn.transaction();
    put_allowance(&mut tx, account, 2).expect(rt, "a row");
    put_allowance(&mut tx, account, 2).expect(rt, "a row");
    put_allowance(&mut tx, account, 3).expect(rt, "a row");
    tx.commit().expect(rt, "a commit");
}

/// Blocks of both charges are covered, of the first by a row that is put twice.
fn keep_covered<S: Alter>(rt: &impl Abort, conn: &mut Connection<S>, account: &AccountNumber)
    requires ready { IsReady (state S.Store conn.old) }
    ensures ready { IsReady (state S.Store conn.new) }
{
    let mut tx = conn.transaction();
    put_covered(&mut tx, account, 1, Blocks(3)).expect(rt, "a row");
    put_covered(&mut tx, account, 1, Blocks(2)).expect(rt, "a row");
    put_covered(&mut tx, account, 2, Blocks(5)).expect(rt, "a row");
    tx.commit().expect(rt, "a commit");
}

/// A reservation's book, the kind of two buckets and the covered blocks of charges.
pub(crate) fn keep_beside<S: Alter>(
    rt: &impl Abort,
    conn: &mut Connection<S>,
    account: &AccountNumber,
    session: &SessionId,
)
    requires ready { IsReady (state S.Store conn.old) }
    ensures ready { IsReady (state S.Store conn.new) }
{
    keep_grant_book(rt, conn, account, session);
    keep_allowances(rt, conn, account);
    keep_covered(rt, conn, account);
}

/// The reservation's book, the third bucket's kind and the covered blocks of the first charge end.
pub(crate) fn end_beside<S: Alter>(
    rt: &impl Abort,
    conn: &mut Connection<S>,
    account: &AccountNumber,
    session: &SessionId,
)
    requires ready { IsReady (state S.Store conn.old) }
    ensures ready { IsReady (state S.Store conn.new) }
{
    let mut tx = conn.transaction();
    remove_grant_book(&mut tx, account, session, 20).expect(rt, "a removal");
    remove_allowance(&mut tx, account, 3).expect(rt, "a removal");
    remove_covered(&mut tx, account, 1).expect(rt, "a removal");
    tx.commit().expect(rt, "a commit");
}

/// Two books after the first, of which the second is put twice.
pub(crate) fn keep_books<S: Alter>(rt: &impl Abort, conn: &mut Connection<S>)
    requires ready { IsReady (state S.Store conn.old) }
    ensures ready { IsReady (state S.Store conn.new) }
{
    let mut tx = conn.transaction();
    put_book(&mut tx, 3, moment(rt, 300), "a third").expect(rt, "a row");
    put_book(&mut tx, 2, moment(rt, 100), "another").expect(rt, "a row");
    put_book(&mut tx, 2, moment(rt, 200), "a second").expect(rt, "a row");
    tx.commit().expect(rt, "a commit");
}

fn push_grant_books(rt: &impl Abort, text: &mut String, rows: &[GrantBook]) {
    for row in rows {
        let (group, book) = (row.group, row.book);
        write!(text, "book of {group}: {book}\n").expect(rt, "room");
    }
}

fn push_covered(rt: &impl Abort, text: &mut String, rows: &[CoveredColumns]) {
    for row in rows {
        let (number, blocks) = (row.number, row.blocks);
        write!(text, "covered {number} {blocks}\n").expect(rt, "room");
    }
}

fn push_kinds(rt: &impl Abort, text: &mut String, rows: &[LiveBucket]) {
    push(rt, text, "live:");
    for row in rows {
        let (number, counts_blocks) = (row.columns.number, row.counts_blocks);
        write!(text, " {number} {counts_blocks}").expect(rt, "room");
    }
    push(rt, text, "\n");
}

/// Whether each live bucket counts blocks, and the numbers of all buckets that do.
fn tell_allowances<S: Alter>(
    rt: &impl Abort,
    alloc: Global,
    conn: &mut Connection<S>,
    account: &AccountNumber,
    text: &mut String,
)
    requires ready { IsReady (state S.Store conn.old) }
    ensures ready { IsReady (state S.Store conn.new) }
{
    let live = read_buckets_live(conn, alloc, account).expect(rt, "a reading");
    push_kinds(rt, text, &live);
    push(rt, text, "allowances:");
    let numbers = read_allowances(conn, alloc, account).expect(rt, "a reading");
    for number in numbers.as_slice() {
        write!(text, " {number}").expect(rt, "room");
    }
    push(rt, text, "\n");
}

/// What is beside the rows of an account and a session.
pub(crate) fn tell_beside<S: Alter>(
    rt: &impl Abort,
    alloc: Global,
    conn: &mut Connection<S>,
    account: &AccountNumber,
    session: &SessionId,
    text: &mut String,
)
    requires ready { IsReady (state S.Store conn.old) }
    ensures ready { IsReady (state S.Store conn.new) }
{
    let books = read_grant_books(conn, alloc, account, session).expect(rt, "a reading");
    push_grant_books(rt, text, &books);
    tell_allowances(rt, alloc, conn, account, text);
    let all = read_covered_within(conn, alloc, account, 0, 9).expect(rt, "a reading");
    push_covered(rt, text, &all);
    push(rt, text, "from 2 to 2\n");
    let second = read_covered_within(conn, alloc, account, 1, 2).expect(rt, "a reading");
    push_covered(rt, text, &second);
}

fn push_books(rt: &impl Abort, text: &mut String, rows: &[BookColumns]) {
    for row in rows {
        let (number, starts) = (row.number, row.starts.seconds());
        let content = row.content.as_str();
        write!(text, "book {number} {starts} {content}\n").expect(rt, "room");
    }
}

/// The books after the first.
pub(crate) fn tell_books<S: Alter>(
    rt: &impl Abort,
    alloc: Global,
    conn: &mut Connection<S>,
    text: &mut String,
)
    requires ready { IsReady (state S.Store conn.old) }
    ensures ready { IsReady (state S.Store conn.new) }
{
    let books = read_books(conn, alloc).expect(rt, "a reading");
    push_books(rt, text, &books);
}
