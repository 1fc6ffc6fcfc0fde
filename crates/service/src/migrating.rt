//! A database of an older version, brought to the latest.

ghost use Rattle.std.specs.Prelude.{IfErr, IfOk};
ghost use Rattle.sql_keeper.specs.Migrates.{IsMigrated, IsNotMigrated};
ghost use Rattle.sql_keeper.specs.Opened.{IsFresh};
ghost use Rattle.sqlite.specs.Files.{file_state};
ghost use Rattle.sqlite.specs.State.{HasCleanDisk};
ghost use Rattle.sqlite_wal.specs.Files.{image_at};
ghost use Rattle.service.specs.Opening.{IsNotFound, IsUnopened};
ghost use Rattle.service.specs.Over.{IsMigratedIn};

use crate::database_files::DatabaseFiles;
use crate::fault::DatabaseFault;
use crate::files::connect_there;
use crate::opening::{Office, fault_alone};
use operator::MigrateWords;
use sql_keeper::SqlKeeper;
use sqlite::{Alter, Connection};
use sqlite_disk::{Start, Wary};
use std::alloc::Global;

/// Brings the database of the words to the latest version, and answers its office. One of that
/// version is left as it is. No file is made, and an empty one is left empty.
///
/// # Errors
/// As `open_office`, but that the tables may be those of an older version: then what was there is
/// as it was.
// rule: database-words
pub fn migrate_database(
    rt: &HostRuntime,
    words: &MigrateWords,
) -> Result<Office<DatabaseFiles<Wary>>, DatabaseFault>
    ensures fresh { IfOk result (λ office. IsFresh office.keeper office.shelf) }
    ensures told { IfErr result IsUnopened }
{
    migrate_over(rt, words, Wary)
}

/// Brings the database of the words to the latest version as `migrate_database`, whatever its files
/// held (`start`).
///
/// # Errors
/// As `migrate_database`.
// rule: database-words.opened-in
pub fn migrate_over<S: Start>(
    rt: &HostRuntime,
    words: &MigrateWords,
    start: S,
) -> Result<Office<DatabaseFiles<S>>, DatabaseFault>
    ensures fresh { IfOk result (λ office. IsFresh office.keeper office.shelf) }
    ensures migrated { IfOk result (λ office. HasCleanDisk (file_state office.keeper.connection) →
        IsMigratedIn (image_at S.Start) office.keeper office.shelf) }
    ensures told { IfErr result IsUnopened }
{
    let connection = connect_there(rt, words.database.as_str(), start)?;
    migrate_tables(rt.alloc(), connection).map_err(fault_alone)
}

/// Brings the tables of a connection to the latest version in one transaction, and answers their
/// office: a stop leaves them as they were, or the whole migration.
///
/// # Errors
/// The connection is given back, and nothing is changed. `Open`: the tables aren't this system's,
/// their version isn't known, a rowid comes twice or a row that is read is out of its rules, the
/// store failed, or memory was refused.
// rule: database-words
pub fn migrate_tables<S: Alter + Drop>(
    alloc: Global,
    connection: Connection<S>,
) -> Result<Office<S>, (DatabaseFault, Connection<S>)>
    ensures migrated { IfOk result
        (λ office. IsMigrated S.Store connection office.keeper office.shelf) }
    ensures refused { IfErr result
        (λ left. IsNotFound (IsNotMigrated S.Store connection left.1) left.0) }
{
    match SqlKeeper::migrate(alloc, connection) {
        Ok((keeper, shelf)) => Ok(Office { keeper, shelf }),
        Err((fault, left)) => Err((DatabaseFault::Open(fault), left)),
    }
}
