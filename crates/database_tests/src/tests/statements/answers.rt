//! Kept answers, and vouchers.

ghost use Rattle.database_tests.specs.Ready.{IsReady};
ghost use Rattle.sqlite.specs.Held.{state};

use crate::tests::row_writers::{push, push_perhaps};
use crate::tests::values::money;
use identifiers::{AccountNumber, Reference, SessionId};
use sql_rows::{KeptTexts, VoucherColumns, put_answer, put_voucher, read_answer, read_voucher};
use sqlite::{Alter, Connection};
use std::alloc::Global;
use std::process::Abort;

/// The names of a request and of an operator's command.
#[derive(Clone, Copy)]
pub(crate) struct Names<'a> {
    pub(crate) account: &'a AccountNumber,
    pub(crate) session: &'a SessionId,
    pub(crate) reference: &'a Reference,
}

fn kept_texts(rt: &impl Abort, alloc: Global, content: &str, answer: &str) -> KeptTexts {
    KeptTexts {
        content: String::from_str(alloc, content).expect(rt, "memory"),
        answer: String::from_str(alloc, answer).expect(rt, "memory"),
    }
}

pub(crate) fn keep_answers<S: Alter>(
    rt: &impl Abort,
    alloc: Global,
    conn: &mut Connection<S>,
    names: &Names,
    answer: &str,
)
    requires ready { IsReady (state S.Store conn.old) }
    ensures ready { IsReady (state S.Store conn.new) }
{
    let (account, session, reference) = (names.account, names.session, names.reference);
    let mut tx = conn.transaction();
    let (session, reference) = (session.as_str(), reference.as_str());
    let request = kept_texts(rt, alloc, "a request", answer);
    put_answer(&mut tx, account, 1, session, 0, &request).expect(rt, "a row");
    let credit = kept_texts(rt, alloc, "a credit", answer);
    put_answer(&mut tx, account, 2, reference, 0, &credit).expect(rt, "a row");
    tx.commit().expect(rt, "a commit");
}

fn push_kept(rt: &impl Abort, text: &mut String, kept: &Option<KeptTexts>) {
    let Some(kept) = kept else {
        return push(rt, text, "no answer\n");
    };
    let (content, answer) = (kept.content.as_str(), kept.answer.as_str());
    write!(text, "{content}: {answer}\n").expect(rt, "room");
}

/// What is kept of the request, of one of another number, and of the operator's command.
pub(crate) fn tell_answers<S: Alter>(
    rt: &impl Abort,
    conn: &mut Connection<S>,
    names: &Names,
    text: &mut String,
)
    requires ready { IsReady (state S.Store conn.old) }
    ensures ready { IsReady (state S.Store conn.new) }
{
    let (account, session, reference) = (names.account, names.session, names.reference);
    let (session, reference) = (session.as_str(), reference.as_str());
    let first = read_answer(conn, account, 1, session, 0).expect(rt, "a reading");
    push_kept(rt, text, &first);
    let second = read_answer(conn, account, 1, session, 1).expect(rt, "a reading");
    push_kept(rt, text, &second);
    let credit = read_answer(conn, account, 2, reference, 0).expect(rt, "a reading");
    push_kept(rt, text, &credit);
}

/// Puts a voucher, and one that is put again as it was redeemed.
pub(crate) fn keep_vouchers<S: Alter>(
    rt: &impl Abort,
    conn: &mut Connection<S>,
    account: &AccountNumber,
)
    requires ready { IsReady (state S.Store conn.old) }
    ensures ready { IsReady (state S.Store conn.new) }
{
    let (amount, by) = (money(rt, 500), Some(account));
    let mut tx = conn.transaction();
    put_voucher(&mut tx, "000000000001", amount, Some(30), None, None).expect(rt, "a row");
    put_voucher(&mut tx, "000000000002", amount, Some(30), None, None).expect(rt, "a row");
    put_voucher(&mut tx, "000000000002", amount, None, Some(10), by).expect(rt, "a row");
    tx.commit().expect(rt, "a commit");
}

/// A voucher's amount, days, rating group, and the account that redeemed it.
fn push_voucher_columns(rt: &impl Abort, text: &mut String, row: &Option<VoucherColumns>) {
    let Some(row) = row else {
        return push(rt, text, "no voucher\n");
    };
    let amount = row.amount;
    write!(text, "voucher {amount}").expect(rt, "room");
    push_perhaps(rt, text, row.days);
    push_perhaps(rt, text, row.scope);
    match &row.account {
        Some(account) => write!(text, " spent by {}\n", account.as_str()).expect(rt, "room"),
        None => push(rt, text, " unspent\n"),
    }
}

fn tell_voucher<S: Alter>(
    rt: &impl Abort,
    alloc: Global,
    conn: &mut Connection<S>,
    code: &str,
    text: &mut String,
)
    requires ready { IsReady (state S.Store conn.old) }
    ensures ready { IsReady (state S.Store conn.new) }
{
    let row = read_voucher(conn, alloc, code).expect(rt, "a reading");
    push_voucher_columns(rt, text, &row);
}

/// What is under three codes.
pub(crate) fn tell_vouchers<S: Alter>(
    rt: &impl Abort,
    alloc: Global,
    conn: &mut Connection<S>,
    text: &mut String,
)
    requires ready { IsReady (state S.Store conn.old) }
    ensures ready { IsReady (state S.Store conn.new) }
{
    tell_voucher(rt, alloc, conn, "000000000001", text);
    tell_voucher(rt, alloc, conn, "000000000002", text);
    tell_voucher(rt, alloc, conn, "000000000003", text);
}
