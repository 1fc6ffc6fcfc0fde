//! The statements over the tables: rows of each kind are put, read, put again with other
//! values, and removed. What is wanted was reckoned by hand.

ghost use Rattle.database_tests.specs.Ready.{IsReady};
ghost use Rattle.sqlite.specs.Held.{state};

mod answers;
mod beside;
mod groups;
mod heads;
mod rows;
mod tables;

use crate::tests::row_readers::{Given, head};
use crate::tests::statements::answers::{
    Names, keep_answers, keep_vouchers, tell_answers, tell_vouchers,
};
use crate::tests::statements::beside::{
    end_beside, keep_beside, keep_books, tell_beside, tell_books,
};
use crate::tests::statements::groups::{keep_free, keep_reserved, tell_groups};
use crate::tests::statements::heads::{keep_account, keep_meta, tell_accounts, tell_meta};
use crate::tests::statements::rows::{keep_each, keep_rows, tell_rows};
use crate::tests::statements::tables::new_tables;
use crate::tests::values::{account, reference, session_id};
use identifiers::AccountNumber;
use sqlite::{Alter, Connection};
use std::alloc::Global;
use std::process::Abort;
use units::Moment;

/// What is kept once, and accounts.
fn try_heads<S: Alter>(
    rt: &impl Abort,
    alloc: Global,
    conn: &mut Connection<S>,
    numbers: (&AccountNumber, &AccountNumber),
    text: &mut String,
)
    requires ready { IsReady (state S.Store conn.old) }
    ensures ready { IsReady (state S.Store conn.new) }
{
    let first = head(rt, alloc, "open 100 3 1");
    let again = head(rt, alloc, "barred 200 4 7");
    tell_meta(rt, conn, 1, text);
    keep_meta(rt, conn, 1, "a book", Moment::first());
    tell_meta(rt, conn, 1, text);
    tell_meta(rt, conn, 2, text);
    keep_meta(rt, conn, 4_294_967_295, "", Moment::no_end());
    tell_meta(rt, conn, 4_294_967_295, text);
    tell_accounts(rt, conn, numbers, text);
    keep_account(rt, conn, numbers.0, &first);
    tell_accounts(rt, conn, numbers, text);
    keep_account(rt, conn, numbers.0, &again);
    tell_accounts(rt, conn, numbers, text);
    keep_account(rt, conn, numbers.1, &first);
    tell_accounts(rt, conn, numbers, text);
}

/// The first account and the second.
const HEADS: &str = "no meta
meta 1 a book 0
another version
meta 4294967295  4102444800
none, none
false 100 3 1, none
true 200 4 7, none
true 200 4 7, false 100 3 1
";

/// The second bucket ends before the first, and the third before both. The third and the fourth
/// are reserved as a whole, and the fifth is spent.
const FIRST: &str = "bucket 1 0 4102444800 - 100 100 0 0 0
bucket 2 10 500 10 30 30 0 0 0
bucket 3 10 400 10 30 0 30 0 0
bucket 4 0 4102444800 - 50 0 20 30 0
bucket 5 10 300 10 30 0 0 30 0
counter 10 3 7
counter 10 4 8
session s1 4 1767607200 open
session s2 2 1767607200 ended
session s3 0 1767607200 never
charge 2 1767607200 s1 10 3 60 50 10
charge 1 1767607200 s1 10 3 60 60 0";

/// A debit of 40 took all of the second bucket and 10 of the first; a grant holds 5 of the first.
/// The open session is ended. The counter has all the blocks that it may.
const AGAIN: &str = "bucket 1 0 4102444800 - 100 85 5 10 0
bucket 2 10 500 10 30 0 0 30 0
counter 10 3 4000000000000000000
counter 10 4 8
session s1 5 1767607200 ended
session s2 2 1767607200 ended
charge 1 1767607200 s1 10 3 75 0 75
charge 2 1767607200 s1 10 3 60 50 10";

/// The other account has a counter of its own.
const OTHER: &str = "counter 10 5 1";

/// Buckets, counters, sessions and charges.
fn try_rows<S: Alter>(
    rt: &impl Abort,
    alloc: Global,
    conn: &mut Connection<S>,
    numbers: (&AccountNumber, &AccountNumber),
    text: &mut String,
)
    requires ready { IsReady (state S.Store conn.old) }
    ensures ready { IsReady (state S.Store conn.new) }
{
    keep_rows(rt, conn, numbers.1, &Given::of(rt, alloc, OTHER));
    tell_rows(rt, alloc, conn, numbers.0, text);
    keep_rows(rt, conn, numbers.0, &Given::of(rt, alloc, FIRST));
    tell_rows(rt, alloc, conn, numbers.0, text);
    keep_each(rt, conn, numbers.0, &Given::of(rt, alloc, AGAIN));
    tell_rows(rt, alloc, conn, numbers.0, text);
}

/// What is read of them where none are there.
const NO_ROWS: &str = "live
dead
all
no counter
no counter
no counter
of cycle 3
of cycle 5
no session
no session
no session
open
charges
up to 1
from 2 to 2
";

/// Live buckets are in the order of their ends, dead ones and all by number, charges by number.
const ROWS: &str = "live
bucket 3 10 400 10 30 0 30 0 0
bucket 2 10 500 10 30 30 0 0 0
bucket 1 0 4102444800 - 100 100 0 0 0
bucket 4 0 4102444800 - 50 0 20 30 0
dead
bucket 5 10 300 10 30 0 0 30 0
all
bucket 1 0 4102444800 - 100 100 0 0 0
bucket 2 10 500 10 30 30 0 0 0
bucket 3 10 400 10 30 0 30 0 0
bucket 4 0 4102444800 - 50 0 20 30 0
bucket 5 10 300 10 30 0 0 30 0
no counter
counter 10 3 7
counter 10 4 8
of cycle 3
counter 10 3 7
of cycle 5
session s1 4 1767607200 open
session s2 2 1767607200 ended
session s3 0 1767607200 never
open
session s1 4 1767607200 open
charges
charge 1 1767607200 s1 10 3 60 60 0
charge 2 1767607200 s1 10 3 60 50 10
up to 1
charge 1 1767607200 s1 10 3 60 60 0
from 2 to 2
charge 2 1767607200 s1 10 3 60 50 10
live
bucket 3 10 400 10 30 0 30 0 0
bucket 1 0 4102444800 - 100 85 5 10 0
bucket 4 0 4102444800 - 50 0 20 30 0
dead
bucket 2 10 500 10 30 0 0 30 0
bucket 5 10 300 10 30 0 0 30 0
all
bucket 1 0 4102444800 - 100 85 5 10 0
bucket 2 10 500 10 30 0 0 30 0
bucket 3 10 400 10 30 0 30 0 0
bucket 4 0 4102444800 - 50 0 20 30 0
bucket 5 10 300 10 30 0 0 30 0
no counter
counter 10 3 4000000000000000000
counter 10 4 8
of cycle 3
counter 10 3 4000000000000000000
of cycle 5
session s1 5 1767607200 ended
session s2 2 1767607200 ended
session s3 0 1767607200 never
open
charges
charge 1 1767607200 s1 10 3 75 0 75
charge 2 1767607200 s1 10 3 60 50 10
up to 1
charge 1 1767607200 s1 10 3 75 0 75
from 2 to 2
charge 2 1767607200 s1 10 3 60 50 10
";

/// What two rating groups hold, of which one ends.
fn try_groups<S: Alter>(
    rt: &impl Abort,
    alloc: Global,
    conn: &mut Connection<S>,
    account: &AccountNumber,
    text: &mut String,
)
    requires ready { IsReady (state S.Store conn.old) }
    ensures ready { IsReady (state S.Store conn.new) }
{
    let session = session_id(rt, alloc, "s1");
    keep_reserved(rt, conn, account, &session, 10);
    keep_reserved(rt, conn, account, &session, 20);
    tell_groups(rt, alloc, conn, account, &session, text);
    keep_free(rt, conn, account, &session, 10);
    tell_groups(rt, alloc, conn, account, &session, text);
}

const GROUPS: &str = "group 10 60 day night
group 20 60 day night
hold 10 1 5
hold 10 2 9
hold 20 1 5
hold 20 2 9
group 10 75
group 20 60 day night
hold 20 1 5
hold 20 2 9
";

/// What is beside the rows of the groups, the buckets and the charges that are there; and the
/// books after the first.
fn try_beside<S: Alter>(
    rt: &impl Abort,
    alloc: Global,
    conn: &mut Connection<S>,
    account: &AccountNumber,
    text: &mut String,
)
    requires ready { IsReady (state S.Store conn.old) }
    ensures ready { IsReady (state S.Store conn.new) }
{
    let session = session_id(rt, alloc, "s1");
    tell_beside(rt, alloc, conn, account, &session, text);
    keep_beside(rt, conn, account, &session);
    tell_beside(rt, alloc, conn, account, &session, text);
    end_beside(rt, conn, account, &session);
    tell_beside(rt, alloc, conn, account, &session, text);
    tell_books(rt, alloc, conn, text);
    keep_books(rt, conn);
    tell_books(rt, alloc, conn, text);
}

/// Where nothing is, where all is, and where some of it ended; and books in the order of their
/// numbers.
const BESIDE: &str = "live: 3 false 1 false 4 false
allowances:
from 2 to 2
book of 20: 2
live: 3 true 1 false 4 false
allowances: 2 3
covered 1 2
covered 2 5
from 2 to 2
covered 2 5
live: 3 false 1 false 4 false
allowances: 2
covered 2 5
from 2 to 2
covered 2 5
book 2 200 a second
book 3 300 a third
";

/// A request and an operator's command of the same name; and vouchers.
fn try_answers<S: Alter>(
    rt: &impl Abort,
    alloc: Global,
    conn: &mut Connection<S>,
    names: &Names,
    text: &mut String,
)
    requires ready { IsReady (state S.Store conn.old) }
    ensures ready { IsReady (state S.Store conn.new) }
{
    tell_answers(rt, conn, names, text);
    keep_answers(rt, alloc, conn, names, "first");
    tell_answers(rt, conn, names, text);
    keep_answers(rt, alloc, conn, names, "second");
    tell_answers(rt, conn, names, text);
    keep_vouchers(rt, conn, names.account);
    tell_vouchers(rt, alloc, conn, text);
}

/// What is kept of the request, of one of another number, and of the operator's command, where
/// nothing is.
const NO_ANSWERS: &str = "no answer
no answer
no answer
";

/// What is kept of the request, of one of another number, and of the operator's command; and what
/// is under three codes.
const ANSWERS: &str = "a request: first
no answer
a credit: first
a request: second
no answer
a credit: second
voucher 500 30 - unspent
voucher 500 - 10 spent by 49151
no voucher
";

/// Where no account is there, and then in turn.
fn try_all<S: Alter>(
    rt: &impl Abort,
    alloc: Global,
    conn: &mut Connection<S>,
    names: &Names,
    other: &AccountNumber,
    text: &mut String,
)
    requires ready { IsReady (state S.Store conn.old) }
{
    tell_rows(rt, alloc, conn, names.account, text);
    tell_answers(rt, conn, names, text);
    try_heads(rt, alloc, conn, (names.account, other), text);
    try_rows(rt, alloc, conn, (names.account, other), text);
    try_groups(rt, alloc, conn, names.account, text);
    try_beside(rt, alloc, conn, names.account, text);
    try_answers(rt, alloc, conn, names, text);
}

// rule: statements-of-tables, statements-of-tables.tables-content,
//   statements-of-tables.with-session-row, book-rows
#[test]
fn rows_are_put_and_read(rt: HostRuntime) {
    let alloc = rt.alloc();
    let (ours, other) = (account(&rt, alloc, "49151"), account(&rt, alloc, "49152"));
    let (session, reference) = (session_id(&rt, alloc, "x"), reference(&rt, alloc, "x"));
    let names = Names {
        account: &ours,
        session: &session,
        reference: &reference,
    };
    let mut text = String::new(alloc);
    let mut conn = new_tables(&rt, alloc);
    try_all(&rt, alloc, &mut conn, &names, &other, &mut text);
    let parts = [
        NO_ROWS, NO_ANSWERS, HEADS, NO_ROWS, ROWS, GROUPS, BESIDE, NO_ANSWERS, ANSWERS,
    ];
    let wanted = parts.concat(alloc).expect(&rt, "room");
    assert_eq!(rt; text.as_str(), wanted.as_str());
}
