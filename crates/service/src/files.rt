//! Files that the words name.

ghost use Rattle.std.specs.Prelude.{IfErr, IfOk};
ghost use Rattle.sqlite.specs.Files.{IsOpened, file_state};
ghost use Rattle.sqlite.specs.Start.{FindsIn};
ghost use Rattle.sqlite.specs.State.{HasCleanDisk};
ghost use Rattle.sqlite_wal.specs.Files.{image_at};
ghost use Rattle.service.specs.Opening.{IsUnopened};

use crate::database_files::{DatabaseFiles, open_database};
use crate::fault::{DatabaseFault, file_fault, opening_fault};
use sql_tables::OpenFault;
use sqlite::Connection;
use sqlite_disk::Start;
use std::fs::{self, Files};
use std::io::ErrorKind;
use std::path::Path;

/// The file at a path, to be read.
///
/// # Errors
/// `File`, also where there is none; `Memory`.
pub fn open_file<F: Files>(files: &F, path: &str) -> Result<F::File, DatabaseFault>
    ensures { IfErr result IsUnopened }
{
    fs::open(files, path).map_err(file_fault)
}

/// The bytes of the file at a path.
///
/// # Errors
/// `File`, also where there is none; `Memory`.
pub(crate) fn read_file(rt: &HostRuntime, path: &str) -> Result<Vec<u8>, DatabaseFault>
    ensures { IfErr result IsUnopened }
{
    fs::read(rt, path).map_err(file_fault)
}

/// A connection to the database at a path, whose file is made where there is none. `start` says
/// what its files held, and what is supposed of a write that was torn: `Wary` supposes nothing.
pub(crate) fn connect<S: Start>(
    rt: &HostRuntime,
    path: &str,
    start: S,
) -> Result<Connection<DatabaseFiles<S>>, DatabaseFault>
    ensures opened { IfOk result (λ c. HasCleanDisk (file_state c) → IsOpened c) }
    ensures found { IfOk result
        (λ c. HasCleanDisk (file_state c) → FindsIn (image_at S.Start) (file_state c)) }
    ensures told { IfErr result IsUnopened }
{
    open_database(rt, path, start).map_err(opening_fault)
}

/// Whether there is something at a path that isn't an empty file, nor one of a single byte, which is
/// what a stop may leave of a file that is being made.
///
/// # Errors
/// `File`, also where its folder isn't there; `Memory`.
fn is_filled(rt: &HostRuntime, path: &str) -> Result<bool, DatabaseFault>
    ensures { IfErr result IsUnopened }
{
    match fs::metadata(rt, path) {
        Ok(found) => Ok(!found.is_file() || found.len() > 1),
        Err(error) if error.kind() == ErrorKind::NotFound && has_folder(rt, path) => Ok(false),
        Err(error) => Err(file_fault(error)),
    }
}

/// Whether the folder is there in which a path is.
fn has_folder(rt: &HostRuntime, path: &str) -> bool {
    let folder = Path::new(path).parent();
    folder.is_none_or(|folder| folder.as_str().is_empty() || folder.exists(rt))
}

/// A connection to the database at a path, where there is a file of more than one byte: none is
/// made, and one that is shorter is left as it is.
///
/// # Errors
/// `Open`, there is none or it is shorter (`Foreign`, as of a database without tables); else as
/// `connect`.
pub(crate) fn connect_there<S: Start>(
    rt: &HostRuntime,
    path: &str,
    start: S,
) -> Result<Connection<DatabaseFiles<S>>, DatabaseFault>
    ensures opened { IfOk result (λ c. HasCleanDisk (file_state c) → IsOpened c) }
    ensures found { IfOk result
        (λ c. HasCleanDisk (file_state c) → FindsIn (image_at S.Start) (file_state c)) }
    ensures told { IfErr result IsUnopened }
{
    if !is_filled(rt, path)? {
        return Err(DatabaseFault::Open(OpenFault::Foreign));
    }
    connect(rt, path, start)
}
