//! A tariff book that is added to a database.

ghost use Rattle.std.specs.Prelude.{IfErr, IfOk};
ghost use Rattle.sqlite.specs.Files.{file_state};
ghost use Rattle.sqlite_wal.specs.Files.{image_at};
ghost use Rattle.sql_keeper.specs.AddsBook.{AddsBook};
ghost use Rattle.sql_keeper.specs.Inside.{IsClean};
ghost use Rattle.service.specs.Adding.{IsAddingFault, IsAdditionFault, IsOfAdding};
ghost use Rattle.service.specs.Over.{EndsWith, EndsWithSome, IsAddedIn};

use crate::database_files::DatabaseFiles;
use crate::fault::{DatabaseFault, adding_fault};
use crate::files::read_file;
use crate::making::book_text;
use crate::opening::{Office, open_office};
use operator::BookWords;
use shelves::TariffShelf;
use sql_keeper::SqlKeeper;
use sqlite::Alter;
use sqlite_disk::{Start, Wary};
use units::Moment;

/// Adds the tariff book of a file to the database of the words, from their moment on, and answers
/// its office.
///
/// # Errors
/// In this order: `File` or `Memory` where the book's file can't be read; then as `add_over`.
// rule: database-words
pub fn add_book(
    rt: &HostRuntime,
    words: &BookWords,
) -> Result<Office<DatabaseFiles<Wary>>, DatabaseFault>
    ensures behind { IfOk result (λ office. EndsWithSome words.now.from office.keeper.shelf) }
    ensures fault { IfErr result IsAdditionFault }
{
    let bytes = read_file(rt, words.file.as_str())?;
    add_over(rt, words, &bytes, Wary)
}

/// Adds a tariff book to the database of the words as `add_book` does of a file's bytes, whatever
/// the database's files held (`start`).
///
/// # Errors
/// In this order: `File`, `Open` or `Memory`, as `open_office`; then as `add_text`, `Book` also
/// where the bytes are no text: the database is as it was.
// rule: database-words
pub fn add_over<S: Start>(
    rt: &HostRuntime,
    words: &BookWords,
    bytes: &[u8],
    start: S,
) -> Result<Office<DatabaseFiles<S>>, DatabaseFault>
    ensures behind { IfOk result
        (λ office. EndsWith bytes.now words.now.from office.keeper.shelf) }
    ensures added { IfOk result (λ office. IsClean (file_state office.keeper.connection) →
        IsAddedIn (image_at S.Start) bytes.now words.now.from office.keeper office.shelf) }
    ensures fault { IfErr result IsAdditionFault }
{
    let Office {
        mut keeper,
        mut shelf,
    } = open_office(rt, &words.database, start)?;
    let text = book_text(rt.alloc(), bytes)?;
    add_text(&mut keeper, &mut shelf, words.from, text)?;
    Ok(Office { keeper, shelf })
}

/// Adds the book of a text behind those of an office, from a moment on: to its shelf and to its
/// tables, or to neither. A stop leaves the tables as they were, or with the book.
///
/// # Errors
/// `Book`, why the text is none; `Shelf`, why the book may not follow; `Office` where the store
/// failed, or memory was refused.
// rule: database-words
pub fn add_text<S: Alter>(
    keeper: &mut SqlKeeper<S>,
    shelf: &mut TariffShelf,
    from: Moment,
    text: &str,
) -> Result<(), DatabaseFault>
    ensures added { IsOfAdding (AddsBook S.Store text.now from keeper.old keeper.new
        shelf.old shelf.new) result }
    ensures fault { IfErr result IsAddingFault }
{
    keeper.add_book(shelf, from, text).map_err(adding_fault)
}
