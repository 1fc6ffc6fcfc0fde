//! A database that is made for a tariff book.

ghost use Rattle.std.specs.Prelude.{◌≡◌, IfErr, IfOk, OnOk};
ghost use Rattle.sql_keeper.specs.Books.{IsBookText};
ghost use Rattle.sql_keeper.specs.Opened.{IsCreated, IsFresh, IsNotCreated};
ghost use Rattle.sqlite.specs.Files.{file_state};
ghost use Rattle.sqlite.specs.State.{HasCleanDisk};
ghost use Rattle.sqlite_wal.specs.Files.{image_at};
ghost use Rattle.service.specs.Making.{IsInitFault, IsNotMade, IsBookTextFault};
ghost use Rattle.service.specs.Over.{IsMadeIn};

use crate::database_files::DatabaseFiles;
use crate::fault::{DatabaseFault, making_fault};
use crate::files::{connect, read_file};
use crate::opening::{Office, fault_alone};
use operator::{FilePath, InitWords};
use sql_keeper::SqlKeeper;
use sqlite::{Alter, Connection};
use sqlite_disk::{Start, Wary};
use std::alloc::Global;
use tariffs::{BookFault, TariffBook};

/// Makes the database of a tariff book's file, in a file that is made where there is none, and
/// answers its office. The book is read first, so a text that is none leaves no file.
///
/// # Errors
/// `File` or `Memory` where the book's file can't be read; then as `book_text`; `File` or `Memory`
/// where the database can't be opened as one; then as `make_tables`: what was there is as it was.
pub fn make_database(
    rt: &HostRuntime,
    words: &InitWords,
) -> Result<Office<DatabaseFiles<Wary>>, DatabaseFault>
    ensures fresh { IfOk result (λ office. IsFresh office.keeper office.shelf) }
    ensures fault { IfErr result IsInitFault }
{
    let bytes = read_file(rt, words.book.as_str())?;
    make_over(rt, &words.database, &bytes, Wary)
}

/// Makes the database of a tariff book at a path as `make_database` does of a file's bytes,
/// whatever the database's files held (`start`).
///
/// # Errors
/// In this order: as `book_text`; `File` or `Memory` where the database can't be opened as one;
/// then as `make_tables`.
// rule: database-words.opened-in
pub fn make_over<S: Start>(
    rt: &HostRuntime,
    path: &FilePath,
    bytes: &[u8],
    start: S,
) -> Result<Office<DatabaseFiles<S>>, DatabaseFault>
    ensures fresh { IfOk result (λ office. IsFresh office.keeper office.shelf) }
    ensures made { IfOk result (λ office. HasCleanDisk (file_state office.keeper.connection) →
        IsMadeIn (image_at S.Start) bytes.now office.keeper) }
    ensures fault { IfErr result IsInitFault }
{
    let text = book_text(rt.alloc(), bytes)?;
    let connection = connect(rt, path.as_str(), start)?;
    make_tables(rt.alloc(), connection, text).map_err(fault_alone)
}

/// The text of a tariff book.
///
/// # Errors
/// `Book`, why it is none: also where it isn't UTF-8, so no TOML.
pub fn book_text(alloc: Global, bytes: &[u8]) -> Result<&str, DatabaseFault>
    ensures same { IfOk result (λ text. text.now ≡ bytes.now) }
    ensures tables { OnOk result (IsBookText bytes.now) }
    ensures told { IfErr result (IsBookTextFault bytes.now) }
{
    let Ok(text) = str::from_utf8(bytes) else {
        return Err(DatabaseFault::Book(BookFault::NotToml));
    };
    TariffBook::read(alloc, bytes).map_err(DatabaseFault::Book)?;
    Ok(text)
}

/// Makes the tables of a tariff book's text in a database that has none, and answers its office.
///
/// # Errors
/// The connection is given back, and nothing is changed. `Book`, why the text is none of a book;
/// `Open`, a table is there already (`Foreign`), the store failed, or memory was refused.
// rule: database-words
pub fn make_tables<S: Alter + Drop>(
    alloc: Global,
    connection: Connection<S>,
    text: &str,
) -> Result<Office<S>, (DatabaseFault, Connection<S>)>
    ensures made { IfOk result
        (λ office. IsCreated S.Store text.now connection office.keeper office.shelf) }
    ensures refused { IfErr result
        (λ left. IsNotMade (IsNotCreated S.Store text.now connection left.1) left.0) }
{
    match SqlKeeper::create(alloc, connection, text) {
        Ok((keeper, shelf)) => Ok(Office { keeper, shelf }),
        Err((fault, left)) => Err((making_fault(fault), left)),
    }
}
