//! A database that is opened.

ghost use Rattle.std.specs.Prelude.{◌≡◌, IfErr, IfOk};
ghost use Rattle.sqlite_wal.specs.Files.{image_at};
ghost use Rattle.sql_keeper.specs.Opened.{IsNotOpened, IsOpened};
ghost use Rattle.service.specs.Opening.{IsNotFound, IsUnopened};
ghost use Rattle.service.specs.Over.{IsOpenedIn};

use crate::database_files::DatabaseFiles;
use crate::fault::DatabaseFault;
use crate::files::connect_there;
use operator::FilePath;
use shelves::TariffShelf;
use sql_keeper::SqlKeeper;
use sqlite::{Alter, Connection};
use sqlite_disk::Start;
use std::alloc::Global;

/// An office: what keeps its accounts, and the shelf of tariff books that it goes by.
#[derive(Drop)]
pub struct Office<S: Alter + Drop> {
    /// What keeps the office's accounts, in a database.
    pub keeper: SqlKeeper<S>,
    /// The tariff books that the office goes by.
    pub shelf: TariffShelf,
}

/// Opens the office of the database at a path, whatever its files held (`start`). No file is made,
/// and an empty one is left empty.
///
/// # Errors
/// `File` or `Memory` where it can't be opened as a database; `Open`, there is no file or an empty
/// one (`Foreign`), or as `open_tables`.
// rule: database-words.opened-in
pub fn open_office<S: Start>(
    rt: &HostRuntime,
    path: &FilePath,
    start: S,
) -> Result<Office<DatabaseFiles<S>>, DatabaseFault>
    ensures opened { IfOk result
        (λ office. IsOpenedIn (image_at S.Start) office.keeper office.shelf) }
    ensures told { IfErr result IsUnopened }
{
    let connection = connect_there(rt, path.as_str(), start)?;
    open_tables(rt.alloc(), connection).map_err(fault_alone)
}

/// A fault alone: the connection that is given back beside it is dropped.
pub(crate) fn fault_alone<S: Alter + Drop>(left: (DatabaseFault, Connection<S>)) -> DatabaseFault
    ensures { result ≡ left.0 }
{
    left.0
}

/// Opens the office of a connection, after each row of its tables was read once. It writes nothing.
///
/// # Errors
/// The connection is given back. `Open`: the tables aren't this system's, their version isn't
/// known, a rowid comes twice or a row is out of the rules of its table, the store failed, or
/// memory was refused.
// rule: database-words
pub fn open_tables<S: Alter + Drop>(
    alloc: Global,
    connection: Connection<S>,
) -> Result<Office<S>, (DatabaseFault, Connection<S>)>
    ensures opened { IfOk result
        (λ office. IsOpened S.Store connection office.keeper office.shelf) }
    ensures refused { IfErr result
        (λ left. IsNotFound (IsNotOpened S.Store connection left.1) left.0) }
{
    match SqlKeeper::open(alloc, connection) {
        Ok((keeper, shelf)) => Ok(Office { keeper, shelf }),
        Err((fault, left)) => Err((DatabaseFault::Open(fault), left)),
    }
}
