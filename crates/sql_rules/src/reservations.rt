//! Whether each reservation has its book, and periods of that book.

ghost use Rattle.std.specs.Prelude.{◌≡◌, ◌≤◌, [], ◌∷◌, ◌++◌, List, IfOk, IfSome, OnOk, nat_lt};
ghost use Rattle.std.specs.Prelude.{option_copied};
ghost use Rattle.std.specs.List.{list_all};
ghost use Rattle.shelves.specs.Shelves.{book_numbered};
ghost use Rattle.sqlite_value.specs.Order.{Row as Values};
ghost use Rattle.sqlite.specs.Given.{IsPlain};
ghost use Rattle.sqlite.specs.Held.{Held, state};
ghost use Rattle.sqlite.specs.Listing.{understood};
ghost use Rattle.sqlite.specs.State.{HasCleanDisk, IsUnchanged, Shown, Survives};
ghost use Rattle.tariffs.specs.Books.{IsBook};
ghost use Rattle.sql_tables.specs.Opens.{IsVersion};
ghost use Rattle.sql_tables.specs.Schema.{schema_at};
ghost use Rattle.sql_tables.specs.Statements.{Spares};
ghost use Rattle.sql_rules.specs.GrantRows.{HaveBooks, is_granted_row, is_period_of};
ghost use Rattle.sql_rules.specs.Tables.{Tells};

use crate::columns::{number_at, text_at};
use crate::periods::is_named;
use crate::walking::fault_of;
use shelves::TariffShelf;
use sql_tables::OpenFault;
use sqlite::{Alter, Connection, Error, ErrorCode, Row};
use tariffs::TariffBook;

// ---- one reservation

/// The book of a number, which may be any.
fn book_of(shelf: &TariffShelf, number: u64) -> Option<&TariffBook>
    ensures value { option_copied result ≡ book_numbered shelf.now number }
    ensures book { IfSome result (λ b. IsBook b.now) }
{
    if number > u64::from(shelf.count()) {
        return None;
    }
    shelf.book(number as u8)
}

/// Whether the book of a number has a period of this name.
fn is_period_of(shelf: &TariffShelf, number: u64, name: &[u8]) -> bool
    ensures { result ≡ is_period_of shelf.now number name.now }
{
    match book_of(shelf, number) {
        Some(book) => is_named(book, name),
        None => false,
    }
}

/// Whether a row has the number of a book, and two names of periods of it.
// rule: rows-ruled.granted
fn is_granted(shelf: &TariffShelf, row: &Row) -> bool
    ensures { result ≡ is_granted_row shelf.now row.now }
{
    let number = number_at(row, 0);
    is_period_of(shelf, number, text_at(row, 1)) && is_period_of(shelf, number, text_at(row, 2))
}

/// Whether one more row is granted, where those before it are or aren't.
fn still_granted(are_granted: bool, shelf: &TariffShelf, row: &Row) -> bool
    ensures { (given : List Values) → are_granted ≡ list_all (is_granted_row shelf.now) given
        → result ≡ list_all (is_granted_row shelf.now) (given ++ row.now ∷ []) }
{
    are_granted && is_granted(shelf, row)
}

// ---- all of them

/// Whether each row of a selection has the number of a book, and two names of periods of it. Each
/// row is read, also after one that hasn't.
fn are_granted<S: Alter>(
    conn: &mut Connection<S>,
    shelf: &TariffShelf,
    sql: &str,
) -> Result<bool, Error>
    requires plain { HasCleanDisk (state S.Store conn.old) →
        IsPlain (understood conn.old.schema sql.now) }
    ensures walk { HasCleanDisk (state S.Store conn.new) →
        IfOk result (λ granted. (was : Held S) × (rows : List Values)
        × IsUnchanged (state S.Store conn.old) (state S.Store was)
        × Shown sql.now [] (state S.Store was) (state S.Store conn.new) rows
        × (granted ≡ list_all (is_granted_row shelf.now) rows)) }
    ensures same { HasCleanDisk (state S.Store conn.new) →
        OnOk result (IsUnchanged (state S.Store conn.old) (state S.Store conn.new)) }
    ensures spares { HasCleanDisk (state S.Store conn.new) →
        Spares (state S.Store conn.old) (state S.Store conn.new) }
    ensures crash { Survives (state S.Store conn.old) (state S.Store conn.new) (λ _. ⊥) }
{
    let mut granted = true;
    let mut rows = conn.query(sql, &[])?;
    'rows: for _ in 0..u64::MAX {
        let Some(row) = rows.next()? else {
            return Ok(granted);
        };
        granted = still_granted(granted, shelf, &row);
    }
    Err(Error::SqliteFailure(ErrorCode::TooBig))
}

/// Whether reservations of a version have no numbers of books: they are of the first one.
pub(crate) fn has_no_grant_books(version: u32) -> bool
    ensures { result ≡ nat_lt version 2 }
{
    version < 2
}

/// Tests that each reservation has a row of `grant_books`, and periods of the book that it names.
/// It looks at each row of `session_groups` once, and at the row of the book of each that has a
/// reservation.
// rule: rows-ruled.granted
pub(crate) fn grants_pass<S: Alter>(
    conn: &mut Connection<S>,
    version: u32,
    shelf: &TariffShelf,
) -> Result<(), OpenFault>
    requires known { IsVersion version }
    requires late { 2 ≤ version }
    requires ours { HasCleanDisk (state S.Store conn.old) → conn.old.schema ≡ schema_at version }
    ensures { Tells (HaveBooks shelf.now) (state S.Store conn.old) (state S.Store conn.new) result }
{
    // For the prover alone: the version whose schema the text is read over.
    let _version = version;
    match are_granted(
        conn,
        shelf,
        "SELECT grant_books.book, session_groups.period_before, session_groups.period_after \
         FROM session_groups LEFT JOIN grant_books \
         ON grant_books.account = session_groups.account \
         AND grant_books.session = session_groups.session \
         AND grant_books.rating_group = session_groups.rating_group \
         WHERE session_groups.reserved = 1",
    ) {
        Ok(true) => Ok(()),
        Ok(false) => Err(OpenFault::Rules),
        Err(error) => Err(fault_of(error)),
    }
}
