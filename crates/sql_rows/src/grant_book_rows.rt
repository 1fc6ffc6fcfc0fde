//! Rows of the books of reservations.

ghost use Rattle.std.specs.Prelude.{◌≡◌, map, List, IfErr, IfOk, MatchResult};
ghost use Rattle.std.specs.List.{AllByRecursion};
ghost use Rattle.sql_rows.specs.Content.{rows_in, with_grant_book, with_rows, without_grant_book};
ghost use Rattle.sql_rows.specs.Lists.{AreGrantBooks, Ascends, grant_book_before, grant_book_cells};
ghost use Rattle.sql_rows.specs.Makes.{Makes};
ghost use Rattle.sql_rows.specs.Ruled.{AreRuledGrantBooks, IsRuledGrantBook};
ghost use Rattle.sql_tables.specs.Statements.{HasTables, HasIdleTables, Reads, AttemptsOver};
ghost use Rattle.sqlite.specs.Held.{state};
ghost use Rattle.sqlite.specs.State.{HasCleanDisk};

use crate::ascending::{InOrder, do_ascend};
use crate::running::run;
use identifiers::{AccountNumber, SessionId};
use sql_tables::{ReadFault, has_columns, read, small_at, text, whole};
use sqlite::{Alter, Connection, Error, Row, Transaction};
use std::alloc::Global;

/// The book that a reservation goes by.
#[derive(Clone, Copy)]
pub struct GrantBook {
    /// Rating-Group (RFC 8506 section 8.29).
    pub group: u32,
    /// The book's number on the shelf.
    pub book: u32,
}

/// Puts the number of the book that a session's reservation in a rating group goes by.
///
/// # Errors
/// An error of the store. Then nothing is committed.
// rule: book-rows
pub fn put_grant_book<S: Alter>(
    tx: &mut Transaction<'_, S>,
    account: &AccountNumber,
    session: &SessionId,
    group: u32,
    book: u32,
) -> Result<(), Error>
    requires tables { HasTables (state S.Store tx.old.conn.now) }
    ensures { AttemptsOver S.Store
        (Makes (with_rows account.now (with_grant_book session.now group book)))
        tx.old.conn tx.new.conn result }
{
    let of_account = text(account.as_str());
    let of_session = text(session.as_str());
    let of_group = whole(group);
    let number = whole(book);
    run(
        tx,
        "INSERT INTO grant_books VALUES (?1, ?2, ?3, ?4) \
         ON CONFLICT (account, session, rating_group) DO UPDATE SET \
         account = excluded.account, session = excluded.session, \
         rating_group = excluded.rating_group, book = excluded.book",
        &[of_account, of_session, of_group, number],
    )
}

/// Removes the book of a session's reservation in a rating group.
///
/// # Errors
/// An error of the store. Then nothing is committed.
pub fn remove_grant_book<S: Alter>(
    tx: &mut Transaction<'_, S>,
    account: &AccountNumber,
    session: &SessionId,
    group: u32,
) -> Result<(), Error>
    requires tables { HasTables (state S.Store tx.old.conn.now) }
    ensures { AttemptsOver S.Store
        (Makes (with_rows account.now (without_grant_book session.now group)))
        tx.old.conn tx.new.conn result }
{
    let of_account = text(account.as_str());
    let of_session = text(session.as_str());
    let of_group = whole(group);
    run(
        tx,
        "DELETE FROM grant_books WHERE account = ?1 AND session = ?2 AND rating_group = ?3",
        &[of_account, of_session, of_group],
    )
}

impl InOrder for GrantBook {
    ghost before = { grant_book_before };

    fn is_before(&self, other: &GrantBook) -> bool {
        self.group < other.group
    }
}

/// The books of a session's reservations, in the order of their rating groups, each once.
///
/// # Errors
/// `Store` where the store failed, `Rules` only where a row is out of its rules, `Memory` where a
/// growth was refused. Nothing is changed then either.
// rule: book-rows
pub fn read_grant_books<S: Alter>(
    conn: &mut Connection<S>,
    alloc: Global,
    account: &AccountNumber,
    session: &SessionId,
) -> Result<Vec<GrantBook>, ReadFault>
    requires idle { HasIdleTables (state S.Store conn.old) }
    ensures reads { Reads (λ trees xs.
        AreGrantBooks (rows_in trees account.now) session.now xs.items)
        (state S.Store conn.old) (state S.Store conn.new) result }
    ensures order { IfOk result (λ xs. Ascends grant_book_before xs.items) }
    // Rows that are in the rules are answered.
    ensures refused { HasCleanDisk (state S.Store conn.new) → IfErr result (λ e.
        e ≡ ReadFault.Rules → ¬ AreRuledGrantBooks
        (rows_in (state S.Store conn.old).now.trees account.now) session.now) }
{
    let rows = read(
        conn,
        "SELECT rating_group, book FROM grant_books WHERE account = ?1 AND session = ?2 \
         ORDER BY rating_group",
        &[text(account.as_str()), text(session.as_str())],
    )?;
    grant_books_from(alloc, &rows)
}

fn grant_books_from(alloc: Global, rows: &[Row]) -> Result<Vec<GrantBook>, ReadFault>
    ensures cells { IfOk result (λ xs. map grant_book_cells xs.items ≡ rows.now) }
    ensures order { IfOk result (λ xs. Ascends grant_book_before xs.items) }
    ensures refused { IfErr result (λ e. e ≡ ReadFault.Rules → (xs : List GrantBook) →
        rows.now ≡ map grant_book_cells xs → Ascends grant_book_before xs →
        ¬ AllByRecursion IsRuledGrantBook xs) }
{
    let mut books = Vec::new(alloc);
    'rows: for row in rows {
        let book = grant_book_from(row)?;
        books.push(book)?;
    }
    if !do_ascend(&books) {
        return Err(ReadFault::Rules);
    }
    Ok(books)
}

// rule: statements-of-tables.refused
fn grant_book_from(row: &Row) -> Result<GrantBook, ReadFault>
    ensures { MatchResult result (λ x. row.now ≡ grant_book_cells x)
        (λ e. e ≡ ReadFault.Rules → (x : GrantBook) → row.now ≡ grant_book_cells x →
        ¬ IsRuledGrantBook x) }
{
    has_columns(row, 2)?;
    let group = small_at(row, 0)?;
    let book = small_at(row, 1)?;
    Ok(GrantBook { group, book })
}
