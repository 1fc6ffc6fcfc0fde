//! The book of a text, and the shelf of several, read for who makes a keeper, and for the keeper
//! itself.

ghost use Rattle.std.specs.Prelude.{◌≡◌, ◌&&◌, ◌==◌, nat_le, map, option_map, IfErr, IfOk, OnOk};
ghost use Rattle.std.specs.List.{find, list_all};
ghost use Rattle.std.specs.String.{string_bytes};
ghost use Rattle.tariffs.specs.Books.{Book};
ghost use Rattle.shelves.specs.Shelves.{one_book};
ghost use Rattle.sql_rows.specs.Texts.{book_at};
ghost use Rattle.sql_tables.specs.declared.fault.OpenFault.TheVariants.{Rules};
ghost use Rattle.sql_keeper.specs.Books.{IsBookFault, IsBookOf};
ghost use Rattle.sql_keeper.specs.Shelves.{AreShelved, IsAlone, IsNoShelf, IsNoneBehind};
ghost use Rattle.sql_keeper.specs.Shelves.{IsRefusedRow, IsShelfRead, IsShelved};

use shelves::{ShelfFault, TariffShelf};
use sql_rows::BookColumns;
use sql_tables::OpenFault;
use std::alloc::Global;
use tariffs::{BookFault, TariffBook};
use units::Moment;

/// A shelf twice, the text that its first book was read from, and the last moment that is kept.
#[derive(Drop)]
pub(crate) struct ReadBooks {
    /// For who makes the keeper.
    pub given: TariffShelf,
    /// For the keeper, which looks names of periods up.
    pub own: TariffShelf,
    /// The text that the first book of both was read from.
    pub text: String,
    /// The moment of the last accepted command.
    pub last: Moment,
}

/// Reads the book of a text; each reading gives the same.
pub(crate) fn read_text(alloc: Global, text: &str) -> Result<TariffBook, BookFault>
    ensures read { IfOk result (IsBookOf text.now) }
    ensures same { (b : Book) → IsBookOf text.now b → IfOk result (λ x. x ≡ b) }
    ensures fault { IfErr result (IsBookFault text.now) }
{
    TariffBook::read(alloc, text.as_bytes())
}

/// The shelf on which the book of a text is alone.
fn read_shelf(alloc: Global, text: &str) -> Result<TariffShelf, BookFault>
    ensures read { IfOk result (λ s. IsBookOf text.now s.first) }
    ensures alone { IfOk result (λ s. s ≡ one_book s.first) }
    ensures same { (b : Book) → IsBookOf text.now b → IfOk result (λ s. s ≡ one_book b) }
    ensures fault { IfErr result (IsBookFault text.now) }
{
    let book = read_text(alloc, text)?;
    TariffShelf::new(alloc, book).map_err(|_| BookFault::Memory)
}

/// A copy of the text of a book.
fn kept_text(alloc: Global, text: &str) -> Result<String, BookFault>
    ensures same { IfOk result (λ s. string_bytes s ≡ text.now) }
    ensures fault { IfErr result (IsBookFault text.now) }
{
    Ok(String::from_str(alloc, text)?)
}

/// Reads the book of a text, which is alone on both shelves.
pub(crate) fn read_book(alloc: Global, text: &str, last: Moment) -> Result<ReadBooks, BookFault>
    ensures alone { IfOk result (λ r. IsAlone text.now r.own) }
    ensures only { (b : Book) → IsBookOf text.now b → IfOk result (λ r. r.own.first ≡ b) }
    ensures given { IfOk result (λ r. r.given ≡ r.own) }
    ensures text { IfOk result (λ r. string_bytes r.text ≡ text.now) }
    ensures last { IfOk result (λ r. r.last ≡ last) }
    ensures fault { IfErr result (IsBookFault text.now) }
{
    let own = read_shelf(alloc, text)?;
    let given = read_shelf(alloc, text)?;
    let kept = kept_text(alloc, text)?;
    // For the prover alone: looking at the value makes known here what its type keeps.
    let _first = own.first();
    Ok(ReadBooks {
        given,
        own,
        text: kept,
        last,
    })
}

/// The fault of a text that is no book.
pub(crate) fn book_fault(fault: BookFault) -> OpenFault
    ensures rules { result ≡ Rules → ¬ (fault ≡ BookFault.Memory) }
    ensures either { ¬ (result ≡ Rules) → result ≡ OpenFault.Memory }
{
    match fault {
        BookFault::Memory => OpenFault::Memory,
        _ => OpenFault::Rules,
    }
}

/// The fault of a book that may not follow those of a shelf.
fn shelf_fault(fault: ShelfFault) -> OpenFault
    ensures rules { result ≡ Rules → ¬ (fault ≡ ShelfFault.Memory) }
    ensures either { ¬ (result ≡ Rules) → result ≡ OpenFault.Memory }
{
    match fault {
        ShelfFault::Memory => OpenFault::Memory,
        _ => OpenFault::Rules,
    }
}

/// Adds the book of a row behind those of a shelf.
///
/// # Errors
/// `Rules` where the row has no text of a book, or of one that may not follow the others, and only
/// then; `Memory`.
fn add_row(alloc: Global, shelf: &mut TariffShelf, row: &BookColumns) -> Result<(), OpenFault>
    ensures added { OnOk result (IsShelved (book_at row.now).row shelf.old shelf.new) }
    ensures refused { IfErr result
        (λ fault. fault ≡ Rules → IsRefusedRow (book_at row.now).row shelf.old) }
    ensures either { IfErr result (λ fault. ¬ (fault ≡ Rules) → fault ≡ OpenFault.Memory) }
{
    // For the prover alone: looking at the value makes known here what its type keeps.
    let _moment = row.starts.seconds();
    let book = match read_text(alloc, row.content.as_str()) {
        Ok(book) => book,
        Err(fault) => return Err(book_fault(fault)),
    };
    match shelf.add(row.starts, book, Moment::first()) {
        Ok(()) => Ok(()),
        Err(fault) => Err(shelf_fault(fault)),
    }
}

/// The row of a number.
fn row_numbered(rows: &[BookColumns], number: u32) -> Option<&BookColumns>
    ensures { option_map (λ row. (book_at row.now).row) result
        ≡ option_map (λ row. (book_at row).row) (find (λ row. row.number == number) rows.now) }
{
    rows.iter().find(|row| row.number == number)
}

/// Whether each row has a number from 2 on, up to this one.
fn are_up_to(rows: &[BookColumns], last: u32) -> bool
    ensures { result
        ≡ list_all (λ row. nat_le 2 row.number && nat_le row.number last) rows.now }
{
    rows.iter().all(|row| 2 <= row.number && row.number <= last)
}

/// Adds the books of the rows behind the first, by their numbers, to both shelves.
///
/// # Errors
/// `Rules` where there is no shelf of them, and only then; `Memory`.
fn add_rows(alloc: Global, read: &mut ReadBooks, rows: &[BookColumns]) -> Result<(), OpenFault>
    requires alone { read.old.own ≡ one_book read.old.own.first }
    requires given { read.old.given ≡ read.old.own }
    ensures shelved { OnOk result
        (AreShelved read.old.own.first (map book_at rows.now) read.new.own) }
    ensures given { OnOk result (read.new.given ≡ read.new.own) }
    ensures text { read.new.text ≡ read.old.text }
    ensures last { read.new.last ≡ read.old.last }
    ensures refused { IfErr result
        (λ fault. fault ≡ Rules → IsNoneBehind read.old.own.first (map book_at rows.now)) }
    ensures either { IfErr result (λ fault. ¬ (fault ≡ Rules) → fault ≡ OpenFault.Memory) }
{
    'numbers: for number in 2..17 {
        let Some(row) = row_numbered(rows, number) else {
            return Ok(());
        };
        add_row(alloc, &mut read.own, row)?;
        add_row(alloc, &mut read.given, row)?;
    }
    Ok(())
}

/// Reads the shelf of a text and of the rows of the books after the first.
///
/// # Errors
/// `Rules` where there is no shelf of them, and only then: a text is no book's, a book may not
/// follow those before it, or numbers aren't those from 2 on; `Memory`.
pub(crate) fn read_shelves(
    alloc: Global,
    text: &str,
    last: Moment,
    rows: &[BookColumns],
) -> Result<ReadBooks, OpenFault>
    ensures read { IfOk result (λ r. IsShelfRead text.now (map book_at rows.now) r.own) }
    ensures given { IfOk result (λ r. r.given ≡ r.own) }
    ensures text { IfOk result (λ r. string_bytes r.text ≡ text.now) }
    ensures last { IfOk result (λ r. r.last ≡ last) }
    ensures rules { IfErr result
        (λ fault. fault ≡ Rules → IsNoShelf text.now (map book_at rows.now)) }
    ensures either { IfErr result
        (λ fault. ¬ (fault ≡ Rules) → fault ≡ OpenFault.Memory) }
{
    let mut read = match read_book(alloc, text, last) {
        Ok(read) => read,
        Err(fault) => return Err(book_fault(fault)),
    };
    add_rows(alloc, &mut read, rows)?;
    // For the prover alone: looking at the value makes known here what its type keeps.
    let _first = read.own.first();
    if !are_up_to(rows, u32::from(read.own.count())) {
        return Err(OpenFault::Rules);
    }
    Ok(read)
}
