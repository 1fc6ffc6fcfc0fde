//! Rows of tariff books after the first.

ghost use Rattle.std.specs.Prelude.{◌≡◌, List, map, IfErr, MatchResult};
ghost use Rattle.std.specs.List.{AllByRecursion};
ghost use Rattle.sql_rows.specs.Content.{tables_content, with_book_row};
ghost use Rattle.sql_rows.specs.Lists.{AreBooks, BookAt, book_at_cells};
ghost use Rattle.sql_rows.specs.Ruled.{AreRuledBooks, IsRuledBook};
ghost use Rattle.sql_rows.specs.Texts.{book_at};
ghost use Rattle.sql_rows.specs.Makes.{Makes};
ghost use Rattle.sql_tables.specs.Statements.{HasTables, HasIdleTables, HasRules, Reads};
ghost use Rattle.sql_tables.specs.Statements.{AttemptsOver};
ghost use Rattle.sql_tables.specs.Statements.{ReadsWithin};
ghost use Rattle.sqlite.specs.Held.{state};
ghost use Rattle.sqlite.specs.State.{HasCleanDisk};

use crate::decoding::moment_at;
use crate::running::run;
use sql_tables::{
    ReadFault, has_columns, large, read, read_within, small_at, text, text_at, whole,
};
use sqlite::{Alter, Connection, Error, Row, Transaction};
use std::alloc::Global;
use units::Moment;

/// A tariff book after the first, as it is: no rule of its text is tested yet.
pub struct BookColumns {
    /// Its number on the shelf.
    pub number: u32,
    /// The first moment at which it holds.
    pub starts: Moment,
    /// Its text.
    pub content: String,
}

// It is written out, so that a caller doesn't prove again how each part is dropped.
impl Drop for BookColumns {
    fn drop(self) {
        let BookColumns {
            number: _,
            starts: _,
            content: _,
        } = self;
    }
}

/// Puts a tariff book after the first: the first moment at which it holds, and its text.
///
/// # Errors
/// An error of the store. Then nothing is committed.
// rule: book-rows
pub fn put_book<S: Alter>(
    tx: &mut Transaction<'_, S>,
    number: u32,
    starts: Moment,
    content: &str,
) -> Result<(), Error>
    requires tables { HasTables (state S.Store tx.old.conn.now) }
    ensures { AttemptsOver S.Store
        (Makes (with_book_row number (record { starts = starts; content = content.now })))
        tx.old.conn tx.new.conn result }
{
    let of_number = whole(number);
    let moment = large(starts.seconds());
    let of_content = text(content);
    run(
        tx,
        "INSERT INTO books VALUES (?1, ?2, ?3) \
         ON CONFLICT (number) DO UPDATE SET \
         number = excluded.number, starts = excluded.starts, content = excluded.content",
        &[of_number, moment, of_content],
    )
}

/// The tariff books after the first, by their numbers.
///
/// # Errors
/// `Store` where the store failed, `Rules` only where a row is out of its rules, `Memory` where a
/// growth was refused. Nothing is changed then either.
pub fn read_books<S: Alter>(
    conn: &mut Connection<S>,
    alloc: Global,
) -> Result<Vec<BookColumns>, ReadFault>
    requires idle { HasIdleTables (state S.Store conn.old) }
    ensures reads { Reads (λ trees xs. AreBooks (tables_content trees) (map book_at xs.items))
        (state S.Store conn.old) (state S.Store conn.new) result }
    // Rows that are in the rules are answered.
    ensures refused { HasCleanDisk (state S.Store conn.new) →
        IfErr result (λ e. e ≡ ReadFault.Rules →
        ¬ AreRuledBooks (tables_content (state S.Store conn.old).now.trees).books) }
{
    let rows = read(
        conn,
        "SELECT number, starts, content FROM books ORDER BY number",
        &[],
    )?;
    books_from(alloc, &rows)
}

/// The tariff books after the first, by their numbers, within a transaction.
///
/// # Errors
/// As of `read_books`. Then nothing is committed.
pub fn read_books_within<S: Alter>(
    tx: &mut Transaction<'_, S>,
    alloc: Global,
) -> Result<Vec<BookColumns>, ReadFault>
    requires tables { HasTables (state S.Store tx.old.conn.now) }
    requires rules { HasRules (state S.Store tx.old.conn.now) }
    ensures same_reference { tx.new.conn.ghost_name ≡ tx.old.conn.ghost_name }
    ensures reads { ReadsWithin (λ trees xs. AreBooks (tables_content trees) (map book_at xs.items))
        (state S.Store tx.old.conn.now) (state S.Store tx.new.conn.now) result }
    // Rows that are in the rules are answered.
    ensures refused { HasCleanDisk (state S.Store tx.new.conn.now) →
        IfErr result (λ e. e ≡ ReadFault.Rules →
        ¬ AreRuledBooks (tables_content (state S.Store tx.old.conn.now).now.trees).books) }
{
    let rows = read_within(
        tx,
        "SELECT number, starts, content FROM books ORDER BY number",
        &[],
    )?;
    books_from(alloc, &rows)
}

fn books_from(alloc: Global, rows: &[Row]) -> Result<Vec<BookColumns>, ReadFault>
    ensures { MatchResult result (λ xs. map book_at_cells (map book_at xs.items) ≡ rows.now)
        (λ e. e ≡ ReadFault.Rules → (xs : List BookAt) → rows.now ≡ map book_at_cells xs →
        ¬ AllByRecursion IsRuledBook xs) }
{
    let mut books = Vec::new(alloc);
    'rows: for row in rows {
        let book = book_from(row)?;
        let Ok(()) = books.push(book) else {
            return Err(ReadFault::Memory);
        };
    }
    Ok(books)
}

// rule: book-rows
fn book_from(row: &Row) -> Result<BookColumns, ReadFault>
    ensures { MatchResult result (λ b. row.now ≡ book_at_cells (book_at b))
        (λ e. e ≡ ReadFault.Rules → (x : BookAt) → row.now ≡ book_at_cells x → ¬ IsRuledBook x) }
{
    has_columns(row, 3)?;
    let number = small_at(row, 0)?;
    let starts = moment_at(row, 1)?;
    let content = text_at(row, 2)?;
    Ok(BookColumns {
        number,
        starts,
        content,
    })
}
