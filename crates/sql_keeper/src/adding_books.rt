//! A book that is added behind those of the shelf, in one transaction: all of it or nothing, also
//! over a stop.

ghost use Rattle.std.specs.Prelude.{◌≡◌, ◌≤◌, ◌<◌, ℕ, length, false, None, Some, IfErr, IfOk};
ghost use Rattle.std.specs.Prelude.{IsTrue, OnErr, OnOk, ◌↔◌};
ghost use Rattle.units.specs.Words.{no_end};
ghost use Rattle.tariffs.specs.Books.{Book};
ghost use Rattle.shelves.specs.Shelves.{Shelf, count, with_book};
ghost use Rattle.shelves.specs.Succession.{shelf_fault};
ghost use Rattle.sql_tables.specs.Statements.{HasIdleTables};
ghost use Rattle.sql_keeper.specs.AddsBook.{AddsBook, AddsToAll, AreTakenBack, BecomesDated};
ghost use Rattle.sql_keeper.specs.AddsBook.{IsBehind, IsOnBoth, IsTextFault, add_told, last_at};
ghost use Rattle.sql_keeper.specs.AddsBook.{with_dated};
ghost use Rattle.sql_keeper.specs.Books.{IsBookOf};
ghost use Rattle.sql_keeper.specs.Commits.{CommitsWhole, Transacts};
ghost use Rattle.sqlite.specs.Held.{state};
ghost use Rattle.sqlite.specs.State.{HasCleanDisk};

use crate::add_fault::AddFault;
use crate::books::read_text;
use crate::faults::counted;
use crate::keeper::SqlKeeper;
use crate::still_open::still_open;
use keepers::StoreFault;
use shelves::{ShelfFault, TariffShelf};
use sql_rows::put_book;
use sql_tables::ReadFault;
use sqlite::{Alter, Connection, Error};
use std::alloc::Global;
use tariffs::TariffBook;
use units::{Moment, NO_END};

/// Writes a book's row in one transaction.
fn write_book<S: Alter>(
    conn: &mut Connection<S>,
    number: u32,
    from: Moment,
    text: &str,
) -> Result<(), Error>
    requires plain { conn.old.in_transaction ≡ false }
    requires idle { HasIdleTables (state S.Store conn.old) }
    ensures plain { conn.new.in_transaction ≡ false }
    ensures transacts { Transacts (with_dated number from text.now)
        (state S.Store conn.old) (state S.Store conn.new) result }
{
    let mut tx = conn.transaction();
    put_book(&mut tx, number, from, text)?;
    tx.commit()
}

/// Adds a book's row, in one transaction: the tables become those with it, or at a fault they are
/// as before. Whatever a stop leaves is one of the two.
fn make_book<S: Alter>(
    conn: &mut Connection<S>,
    number: u32,
    from: Moment,
    text: &str,
) -> Result<(), ReadFault>
    requires plain { conn.old.in_transaction ≡ false }
    requires idle { HasIdleTables (state S.Store conn.old) }
    ensures plain { conn.new.in_transaction ≡ false }
    ensures commits { CommitsWhole (BecomesDated number from text.now)
        (state S.Store conn.old) (state S.Store conn.new) result }
{
    write_book(conn, number, from, text)?;
    Ok(())
}

/// A book twice: for who holds the shelf, and for the keeper.
#[derive(Drop)]
struct TwoBooks {
    given: TariffBook,
    own: TariffBook,
}

/// Reads the book of a text twice; each reading gives the same.
fn read_twice(alloc: Global, text: &str) -> Result<TwoBooks, AddFault>
    ensures read { IfOk result (λ b. IsBookOf text.now b.own) }
    ensures same { IfOk result (λ b. b.given ≡ b.own) }
    ensures fault { IfErr result (IsTextFault text.now) }
{
    let given = read_text(alloc, text).map_err(AddFault::Book)?;
    let own = read_text(alloc, text).map_err(AddFault::Book)?;
    Ok(TwoBooks { given, own })
}

/// Adds a book to a shelf, behind those of it.
///
/// # Errors
/// Why the book may not follow them. The shelf is unchanged.
fn add_behind(
    shelf: &mut TariffShelf,
    from: Moment,
    book: TariffBook,
    last: Moment,
) -> Result<(), ShelfFault>
    ensures added { OnOk result (IsBehind from book last shelf.old shelf.new) }
    ensures kept { OnErr result (shelf.new ≡ shelf.old) }
    ensures told { IfErr result (λ fault. ¬ (fault ≡ ShelfFault.Memory) →
        shelf_fault shelf.old from book last ≡ Some fault) }
{
    let added = shelf.add(from, book, last);
    // For the prover alone: looking at the value makes known here what its type keeps.
    let _first = shelf.first();
    added
}

/// Takes the book back that was added to both shelves.
fn take_both_back(shelf: &mut TariffShelf, own: &mut TariffShelf)
    requires shelf { 1 ≤ length shelf.old.later }
    requires own { 1 ≤ length own.old.later }
    ensures shelf { (s : Shelf) (from : ℕ) (b : Book) → shelf.old ≡ with_book s from b →
        shelf.new ≡ s }
    ensures own { (s : Shelf) (from : ℕ) (b : Book) → own.old ≡ with_book s from b →
        own.new ≡ s }
{
    shelf.take_back();
    own.take_back();
}

/// Whether a book may begin at a moment: at one before the end of all moments.
fn may_begin(from: Moment) -> bool
    ensures { IsTrue result ↔ (from < no_end) }
{
    from.seconds() < NO_END
}

/// Adds a book to the shelf that was handed over and to the keeper's, which has as many; to both or
/// to none. Whether it was added: not where the shelf isn't the keeper's, nor from the end of all
/// moments on.
///
/// # Errors
/// Why the book may not follow those of the shelf.
fn shelve(
    shelf: &mut TariffShelf,
    own: &mut TariffShelf,
    from: Moment,
    books: TwoBooks,
    last: Moment,
) -> Result<bool, ShelfFault>
    requires same { books.given ≡ books.own }
    ensures added { IfOk result (λ is. IsTrue is →
        IsOnBoth from books.own shelf.old shelf.new own.old own.new) }
    ensures free { IfOk result (λ is. IsTrue is →
        shelf_fault shelf.old from books.own last ≡ None) }
    ensures not_added { IfOk result (λ is. is ≡ false →
        (shelf.new ≡ shelf.old) × (own.new ≡ own.old)) }
    ensures kept { OnErr result ((shelf.new ≡ shelf.old) × (own.new ≡ own.old)) }
    ensures told { IfErr result (λ fault. ¬ (fault ≡ ShelfFault.Memory) →
        shelf_fault shelf.old from books.own last ≡ Some fault) }
{
    let TwoBooks { given, own: second } = books;
    if own.count() != shelf.count() {
        return Ok(false);
    }
    if !may_begin(from) {
        return Ok(false);
    }
    add_behind(shelf, from, given, last)?;
    match add_behind(own, from, second, last) {
        Ok(()) => Ok(true),
        Err(ShelfFault::Memory) => {
            shelf.take_back();
            Err(ShelfFault::Memory)
        }
        Err(_) => {
            shelf.take_back();
            Ok(false)
        }
    }
}

/// Writes the row of the last book of both shelves; at a fault the book is taken back from both.
fn write_last<S: Alter>(
    conn: &mut Connection<S>,
    shelf: &mut TariffShelf,
    own: &mut TariffShelf,
    from: Moment,
    text: &str,
) -> Result<(), ReadFault>
    requires plain { conn.old.in_transaction ≡ false }
    requires idle { HasIdleTables (state S.Store conn.old) }
    requires shelf { 1 ≤ length shelf.old.later }
    requires own { 1 ≤ length own.old.later }
    ensures plain { conn.new.in_transaction ≡ false }
    ensures commits { CommitsWhole (BecomesDated (count shelf.old) from text.now)
        (state S.Store conn.old) (state S.Store conn.new) result }
    ensures kept { OnOk result ((shelf.new ≡ shelf.old) × (own.new ≡ own.old)) }
    ensures taken { OnErr result (AreTakenBack shelf.old shelf.new own.old own.new) }
{
    match make_book(conn, u32::from(shelf.count()), from, text) {
        Ok(()) => Ok(()),
        Err(fault) => {
            take_both_back(shelf, own);
            Err(fault)
        }
    }
}

/// Adds a book to the shelf that was handed over, to the keeper's and to the tables, or to none of
/// them; within is why it may not follow those of the shelf.
///
/// # Errors
/// A fault of the store; `Rules` where the shelf isn't the keeper's.
// rule: book-added
fn add_to_all<S: Alter>(
    conn: &mut Connection<S>,
    shelf: &mut TariffShelf,
    own: &mut TariffShelf,
    from: Moment,
    last: Moment,
    text: &str,
    books: TwoBooks,
) -> Result<Result<(), ShelfFault>, ReadFault>
    requires plain { conn.old.in_transaction ≡ false }
    requires idle { HasIdleTables (state S.Store conn.old) }
    requires last { HasCleanDisk (state S.Store conn.old) →
        IsTrue (state S.Store conn.old).is_open → last ≡ last_at (state S.Store conn.old) }
    requires same { books.given ≡ books.own }
    ensures plain { conn.new.in_transaction ≡ false }
    ensures adds { AddsToAll from text.now books.own (state S.Store conn.old)
        (state S.Store conn.new) shelf.old shelf.new own.old own.new result }
{
    still_open(conn)?;
    let is_added = match shelve(shelf, own, from, books, last) {
        Ok(is_added) => is_added,
        Err(fault) => return Ok(Err(fault)),
    };
    if !is_added {
        return Err(ReadFault::Rules);
    }
    write_last(conn, shelf, own, from, text)?;
    Ok(Ok(()))
}

/// Why no book was added, if none was.
fn told(added: Result<Result<(), ShelfFault>, StoreFault>) -> Result<(), AddFault>
    ensures { result ≡ add_told added }
{
    match added {
        Ok(Ok(())) => Ok(()),
        Ok(Err(fault)) => Err(AddFault::Shelf(fault)),
        Err(fault) => Err(AddFault::Store(fault)),
    }
}

impl<S: Alter> SqlKeeper<S> {
    /// Adds the book of a text behind those of the shelf that was answered with this keeper, from a
    /// moment on, later than that of the last accepted command: to the shelf, and to the tables in
    /// one transaction. At a fault shelf and tables are as they were, and whatever a stop leaves is
    /// the tables before or with the book.
    ///
    /// # Errors
    /// - `Book`, why the text is no book;
    /// - `Shelf`, why the book may not follow those of the shelf;
    /// - `Store`, lack of memory or a fault of the store, which is counted. So is a shelf that
    ///   isn't this keeper's, and a moment from the end of all moments on. Where the store can't be
    ///   asked any more, it comes before `Shelf`.
    // rule: book-added
    pub fn add_book(
        &mut self,
        shelf: &mut TariffShelf,
        from: Moment,
        text: &str,
    ) -> Result<(), AddFault>
        ensures { AddsBook S.Store text.now from self.old self.new shelf.old shelf.new result }
    {
        let books = read_twice(self.alloc, text)?;
        let (own, last) = (&mut self.shelf, self.last);
        let added = add_to_all(&mut self.connection, shelf, own, from, last, text, books);
        self.seen = None;
        self.kept = None;
        told(counted(&mut self.failures, added))
    }
}
