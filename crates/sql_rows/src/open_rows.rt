//! What open sessions have of rating groups, with what is held for sessions and the books of their
//! reservations, found by one selection.

ghost use Rattle.std.specs.Prelude.{◌≡◌, ◌≤◌, length, IfOk};
ghost use Rattle.sql_rows.specs.Content.{rows_in};
ghost use Rattle.sql_rows.specs.Texts.{AreOpenRows, DoOpenRowsRise, open_cells};
ghost use Rattle.sql_tables.specs.Statements.{HasTables, HasIdleTables, HasRules, Reads};
ghost use Rattle.sql_tables.specs.Statements.{ReadsWithin};
ghost use Rattle.sqlite.specs.Held.{state};

use crate::decoding::is_of_part;
use crate::open_group_rows::{OpenGroup, open_groups_from};
use crate::session_book_rows::{SessionBook, session_books_from};
use crate::session_hold_rows::{SessionHold, session_holds_from};
use identifiers::AccountNumber;
use sql_tables::{ReadFault, read, read_within, text};
use sqlite::{Alter, Connection, Row, Transaction};
use std::alloc::Global;

/// What the open sessions of an account have of rating groups, with what is held for its sessions
/// and the books of their reservations.
#[derive(Drop)]
pub struct OpenRows {
    /// What open sessions have of rating groups (Rating-Group, RFC 8506 section 8.29), in the order
    /// of the sessions and of each one's groups.
    pub groups: Vec<OpenGroup>,
    /// What is held for sessions, in the order of the sessions, of each one's rating groups, and of
    /// each one's buckets.
    pub holds: Vec<SessionHold>,
    /// The books of reservations, in the order of the sessions and of each one's rating groups.
    pub books: Vec<SessionBook>,
}

/// What the open sessions of an account have of rating groups, all that is held for its sessions,
/// and the books of all their reservations, each once: one selection of three parts, however many
/// sessions are open. It passes no group of a session that is over.
///
/// # Errors
/// `Store` where the store failed, `Rules` where a row is out of its rules or the keys don't rise,
/// `Memory` where a growth was refused. Nothing is changed then either.
// rule: statements-of-tables.open-rows
pub fn read_open_rows<S: Alter>(
    conn: &mut Connection<S>,
    alloc: Global,
    account: &AccountNumber,
) -> Result<OpenRows, ReadFault>
    requires idle { HasIdleTables (state S.Store conn.old) }
    ensures reads { Reads (λ trees x. AreOpenRows (rows_in trees account.now) x)
        (state S.Store conn.old) (state S.Store conn.new) result }
    ensures order { IfOk result (λ x. DoOpenRowsRise x) }
{
    let rows = read(
        conn,
        "SELECT 0, session_groups.session, rating_group, period_before, period_after, used, \
         reserved FROM sessions, session_groups WHERE sessions.account = ?1 AND state = 1 \
         AND session_groups.account = sessions.account \
         AND session_groups.session = sessions.session \
         UNION ALL SELECT 1, session, rating_group, bucket, amount, NULL, NULL \
         FROM holds WHERE account = ?1 \
         UNION ALL SELECT 2, session, rating_group, book, NULL, NULL, NULL \
         FROM grant_books WHERE account = ?1 ORDER BY 1, 2, 3, 4",
        &[text(account.as_str())],
    )?;
    open_rows_from(alloc, &rows)
}

/// What `read_open_rows` reads, within a transaction.
///
/// # Errors
/// As of `read_open_rows`. Then nothing is committed.
// rule: statements-of-tables.reads-within
pub fn read_open_rows_within<S: Alter>(
    tx: &mut Transaction<'_, S>,
    alloc: Global,
    account: &AccountNumber,
) -> Result<OpenRows, ReadFault>
    requires tables { HasTables (state S.Store tx.old.conn.now) }
    requires rules { HasRules (state S.Store tx.old.conn.now) }
    ensures same_reference { tx.new.conn.ghost_name ≡ tx.old.conn.ghost_name }
    ensures reads { ReadsWithin (λ trees x. AreOpenRows (rows_in trees account.now) x)
        (state S.Store tx.old.conn.now) (state S.Store tx.new.conn.now) result }
    ensures order { IfOk result (λ x. DoOpenRowsRise x) }
{
    let rows = read_within(
        tx,
        "SELECT 0, session_groups.session, rating_group, period_before, period_after, used, \
         reserved FROM sessions, session_groups WHERE sessions.account = ?1 \
         AND state = 1 AND session_groups.account = sessions.account AND session_groups.session \
         = sessions.session \
         UNION ALL SELECT 1, session, rating_group, bucket, amount, NULL, \
         NULL FROM holds WHERE account = ?1 \
         UNION ALL SELECT 2, session, rating_group, book, NULL, NULL, \
         NULL FROM grant_books WHERE account = ?1 ORDER BY 1, 2, 3, 4",
        &[text(account.as_str())],
    )?;
    open_rows_from(alloc, &rows)
}

/// What the rows of the three parts say, which follow one another.
fn open_rows_from(alloc: Global, rows: &[Row]) -> Result<OpenRows, ReadFault>
    ensures cells { IfOk result (λ x. open_cells x ≡ rows.now) }
    ensures order { IfOk result (λ x. DoOpenRowsRise x) }
{
    let (of_groups, rest) = rows.split_at(end_of_part(rows, 0));
    let (of_holds, of_books) = rest.split_at(end_of_part(rest, 1));
    let groups = open_groups_from(alloc, of_groups)?;
    let holds = session_holds_from(alloc, of_holds)?;
    let books = session_books_from(alloc, of_books)?;
    Ok(OpenRows {
        groups,
        holds,
        books,
    })
}

/// How many rows stand before the first that isn't of the part of this number.
fn end_of_part(rows: &[Row], part: u64) -> usize
    ensures { result ≤ length rows.now }
{
    rows.iter()
        .position(|row| is_of_part(row, part).is_err())
        .unwrap_or(rows.len())
}
