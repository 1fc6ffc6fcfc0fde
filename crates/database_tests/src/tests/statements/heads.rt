//! What is kept once, and accounts.

ghost use Rattle.database_tests.specs.Ready.{IsReady};
ghost use Rattle.sqlite.specs.Held.{state};

use crate::tests::row_writers::push;
use identifiers::AccountNumber;
use sql_rows::{HeadColumns, put_account, put_meta, read_account, read_meta};
use sqlite::{Alter, Connection};
use std::process::Abort;
use units::Moment;

pub(crate) fn keep_meta<S: Alter>(
    rt: &impl Abort,
    conn: &mut Connection<S>,
    version: u32,
    book: &str,
    last: Moment,
)
    requires ready { IsReady (state S.Store conn.old) }
    ensures ready { IsReady (state S.Store conn.new) }
{
    let mut tx = conn.transaction();
    put_meta(&mut tx, version, book, last).expect(rt, "a row");
    tx.commit().expect(rt, "a commit");
}

pub(crate) fn tell_meta<S: Alter>(
    rt: &impl Abort,
    conn: &mut Connection<S>,
    version: u32,
    text: &mut String,
)
    requires ready { IsReady (state S.Store conn.old) }
    ensures ready { IsReady (state S.Store conn.new) }
{
    let Ok(meta) = read_meta(conn, version) else {
        return push(rt, text, "no meta\n");
    };
    let Some(meta) = &meta else {
        return push(rt, text, "another version\n");
    };
    let (version, book, last) = (meta.version, meta.book.as_str(), meta.last.seconds());
    write!(text, "meta {version} {book} {last}\n").expect(rt, "room");
}

pub(crate) fn keep_account<S: Alter>(
    rt: &impl Abort,
    conn: &mut Connection<S>,
    account: &AccountNumber,
    head: &HeadColumns,
)
    requires ready { IsReady (state S.Store conn.old) }
    ensures ready { IsReady (state S.Store conn.new) }
{
    let mut tx = conn.transaction();
    put_account(&mut tx, account, head).expect(rt, "a row");
    tx.commit().expect(rt, "a commit");
}

fn push_head(rt: &impl Abort, text: &mut String, head: &Option<HeadColumns>) {
    let Some(head) = head else {
        return push(rt, text, "none");
    };
    let (barred, at) = (head.barred, head.as_of.seconds());
    write!(text, "{barred} {at}").expect(rt, "room");
    let (bucket, charge) = (head.next_bucket, head.next_charge);
    write!(text, " {bucket} {charge}").expect(rt, "room");
}

/// Both accounts.
pub(crate) fn tell_accounts<S: Alter>(
    rt: &impl Abort,
    conn: &mut Connection<S>,
    numbers: (&AccountNumber, &AccountNumber),
    text: &mut String,
)
    requires ready { IsReady (state S.Store conn.old) }
    ensures ready { IsReady (state S.Store conn.new) }
{
    let first = read_account(conn, numbers.0).expect(rt, "a reading");
    push_head(rt, text, &first);
    push(rt, text, ", ");
    let second = read_account(conn, numbers.1).expect(rt, "a reading");
    push_head(rt, text, &second);
    push(rt, text, "\n");
}
