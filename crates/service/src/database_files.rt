//! A connection to the files at a path, with the office's choice of options.

ghost use Rattle.std.specs.Prelude.{codes, ◌≡◌, true, false, IsTrue, IfOk, IfErr, OnOk};
ghost use Rattle.sqlite_wal.specs.Files.{image_at, seen_image};
ghost use Rattle.sqlite_wal.specs.Reads.{AreClean, OnlyReads};
ghost use Rattle.sqlite_std_file.specs.File.{file_is_usable, IsFresh};
ghost use Rattle.sqlite.specs.Opening.{is_open_error};
ghost use Rattle.wal_check.specs.Sound.{IsSoundImage};
ghost use Rattle.service.specs.Connecting.{ConnectsTo};
ghost use Rattle.service.specs.Unruled.{IsRefusedBy, ListsOurs};
ghost use Rattle.service.specs.declared.database_files.ConnectFault.TheVariants.{Unruled};

use crate::file_header::is_other_file;
use crate::first_page::first_page;
use crate::unruled::lists_ours;
use sqlite::{Connection, Error, ErrorCode, Leftover};
use sqlite_disk::{Disk, Files, Start};
use sqlite_pager::Options;
use sqlite_std_file::{FileFrom, OpenError};
use sqlite_store::FileStore;
use sqlite_wal::Error as LogError;
use std::alloc::{AllocError, Global};
use std::fs::{self, File, Metadata, OpenOptions};
use std::hash::{BuildHasher, RandomState};
use std::io::{self, ErrorKind};
use std::os::unix::fs::{FileExt, MetadataExt, OpenOptionsExt};
use thiserror::Error as Explained;
use wal_check::is_sound;

/// The file and the log of a database, which held what `S` says.
pub type DatabaseFiles<S> = FileStore<FileFrom<S>>;

/// How many pages that were read are kept, and how many may change in a transaction before some are
/// written to the log: 8 MB of memory each, over pages of `PAGE_SIZE`. The memory of those that are
/// kept is taken as a database is opened, so more of them make each opening slower.
const PAGES: usize = 4000;

/// After how many pages the log is written back into the file. A longer log makes the mean command
/// faster; the one that writes it back and a start, which reads it, become slower.
const CHECKPOINT_FRAMES: usize = 16_000;

/// The rights of a file that is made: its owner reads and writes it, nobody else does.
const OWNER_ALONE: u32 = 0o600;

const NO_MEMORY: Error = Error::SqliteFailure(ErrorCode::OutOfMemory);

const CANNOT_OPEN: Error = Error::SqliteFailure(ErrorCode::CannotOpen);

/// Why files aren't opened as a database.
#[derive(Clone, Copy, Debug, Drop, Explained)]
pub enum ConnectFault {
    /// The system or the engine refused them.
    #[error("the files are not opened")]
    Refused(Error),
    /// A row of this system's tables, or an index of them, doesn't obey their schema.
    #[error("a row does not obey its schema")]
    Unruled,
}

impl From<Error> for ConnectFault {
    ghost use Rattle.service.specs.declared.database_files.ConnectFault.TheVariants.{Refused};

    ghost from_gives = { λ error e. e ≡ Refused error };

    fn from(error: Error) -> ConnectFault {
        ConnectFault::Refused(error)
    }
}

/// The file at the path and its log, each made where it isn't there. A name that SQLite takes for
/// something else than a file, `:memory:` or one that begins with `file:`, can't be opened, and
/// beside a file that is no database's no log is made.
fn files_at<S: Start>(rt: &HostRuntime, path: &str, start: S) -> Result<Files<FileFrom<S>>, Error>
    ensures memory { path.now ≡ codes ":memory:" →
        result ≡ Err (Error.SqliteFailure ErrorCode.CannotOpen) }
    ensures named { IfErr result (λ e. IsTrue (is_open_error e)) }
    ensures usable { IfOk result (λ files. IsTrue (file_is_usable S.Start files.log)
        × IsTrue (file_is_usable S.Start files.db)) }
    ensures fresh { IfOk result (λ files. IsFresh true files.log × IsFresh false files.db) }
{
    if path == ":memory:" || path.starts_with("file:") {
        return Err(CANNOT_OPEN);
    }
    match is_other_file(rt, path) {
        Ok(false) => open_pair(rt, path, start),
        Ok(true) => Err(CANNOT_OPEN),
        Err(_) => Err(NO_MEMORY),
    }
}

/// Makes the file of a database where there is none, for its owner alone. It holds a first page, or
/// nothing where that can't be laid down: then the engine chooses how large the pages are. The log
/// gets the rights of its file. A draft that a stop left as a second name of the file goes.
fn make_private(rt: &HostRuntime, path: &str) -> io::Result<()> {
    let draft = format!(in rt.alloc(); "{path}-new")?;
    if let Ok(file) = fs::symlink_metadata(rt, path) {
        return drop_draft(rt, &file, draft.as_str());
    }
    match lay_page(rt, draft.as_str(), path) {
        Err(error) if error.kind() == ErrorKind::OutOfMemory => return Err(error),
        _ => {}
    }
    match make_file(rt, path) {
        Err(error) if error.kind() != ErrorKind::AlreadyExists => Err(error),
        _ => Ok(()),
    }
}

/// Removes the draft where it is a second name of the file, as a stop leaves it that comes between
/// naming the file and removing the draft: the engine opens no file with two names.
fn drop_draft(rt: &HostRuntime, file: &Metadata, draft: &str) -> io::Result<()> {
    let Ok(other) = fs::symlink_metadata(rt, draft) else {
        return Ok(());
    };
    if other.dev() != file.dev() || other.ino() != file.ino() {
        return Ok(());
    }
    fs::remove_file(rt, draft)
}

/// Makes an empty file, for its owner alone.
fn make_file(rt: &HostRuntime, path: &str) -> io::Result<File> {
    OpenOptions::new()
        .write(true)
        .create_new(true)
        .mode(OWNER_ALONE)
        .open(rt, path)
}

/// Makes the file with the first page of a database, whole or not at all, whatever stops it: the
/// page is written and synced in a draft, which then gets the name of the file.
fn lay_page(rt: &HostRuntime, draft: &str, path: &str) -> io::Result<()> {
    let file = make_file(rt, draft)?;
    let named = name_page(rt, &file, draft, path);
    fs::remove_file(rt, draft).and(named)
}

/// Writes the first page of a database into the draft, and gives it the name of the file.
fn name_page(rt: &HostRuntime, file: &File, draft: &str, path: &str) -> io::Result<()> {
    file.write_all_at(&first_page(), 0)?;
    file.sync_all()?;
    fs::hard_link(rt, draft, path)?;
    file.sync_all()
}

/// The same, of a path that may be a database's.
fn open_pair<S: Start>(rt: &HostRuntime, path: &str, start: S) -> Result<Files<FileFrom<S>>, Error>
    ensures named { IfErr result (λ e. IsTrue (is_open_error e)) }
    ensures usable { IfOk result (λ files. IsTrue (file_is_usable S.Start files.log)
        × IsTrue (file_is_usable S.Start files.db)) }
    ensures fresh { IfOk result (λ files. IsFresh true files.log × IsFresh false files.db) }
{
    if let Err(error) = make_private(rt, path) {
        return Err(fault_of(error));
    }
    match sqlite_std_file::open(rt, path, start) {
        Ok(files) => Ok(files),
        Err(OpenError::OutOfMemory) => Err(NO_MEMORY),
        Err(OpenError::Busy) => Err(Error::SqliteFailure(ErrorCode::DatabaseBusy)),
        Err(OpenError::Io(error)) => Err(fault_of(error)),
        Err(OpenError::HotJournal) => Err(CANNOT_OPEN),
    }
}

/// The fault of a call of the system.
fn fault_of(error: io::Error) -> Error
    ensures { IsTrue (is_open_error result) }
{
    if error.kind() == ErrorKind::OutOfMemory {
        NO_MEMORY
    } else {
        CANNOT_OPEN
    }
}

/// The options, with a salt of the log drawn from the machine's random numbers, so that frames of
/// an old log aren't taken for new ones.
fn options(rt: &HostRuntime) -> Result<Options, Error>
    ensures { IfErr result (λ e. e ≡ Error.SqliteFailure ErrorCode.CannotOpen) }
{
    let seed = RandomState::new(rt)
        .map_err(|_| CANNOT_OPEN)?
        .hash_one(&0u8);
    Ok(Options {
        cache_pages: PAGES,
        spill_pages: PAGES,
        checkpoint_frames: CHECKPOINT_FRAMES,
        seed,
    })
}

/// Nothing, if a stop of the machine can have left the two files so. Nothing is written.
///
/// # Errors
/// `CannotOpen`, their log is damaged or can't be read; `OutOfMemory`.
// rule: stop-log
fn check_log<D: Disk>(alloc: Global, files: &mut Files<D>) -> Result<(), Error>
    requires log_usable { IsTrue (D.Disk.is_usable files.old.log) }
    requires db_usable { IsTrue (D.Disk.is_usable files.old.db) }
    ensures sound { OnOk result (AreClean D.Disk files.new.log files.new.db → IsSoundImage (seen_image D.Disk files.old.log files.old.db)) }
    ensures named { IfErr result (λ e. IsTrue (is_open_error e)) }
    ensures log { OnlyReads D.Disk files.old.log files.new.log }
    ensures db { OnlyReads D.Disk files.old.db files.new.db }
{
    match is_sound(alloc, files) {
        Ok(true) => Ok(()),
        Ok(false) => Err(CANNOT_OPEN),
        Err(LogError::OutOfMemory) => Err(NO_MEMORY),
        Err(_) => Err(CANNOT_OPEN),
    }
}

/// Opens the database at the path, which is made where there is none. What it holds is what an
/// earlier process committed, whole, whatever stopped it. `start` says what may have become of a
/// write that was torn: `Wary` supposes nothing.
///
/// # Errors
/// - `Refused`: `CannotOpen` where the path is `:memory:`, or the log is one that no stop can have
///   left: then nothing is written. Else the file or its log can't be opened or made, another
///   process has it, it isn't a database, or memory is refused.
/// - `Unruled`, a row doesn't obey its schema.
// rule: stop-log
pub fn open_database<S: Start>(
    rt: &HostRuntime,
    path: &str,
    start: S,
) -> Result<Connection<DatabaseFiles<S>>, ConnectFault>
    ensures { ConnectsTo (image_at S.Start) path.now result }
{
    let mut files = files_at(rt, path, start)?;
    check_log(rt.alloc(), &mut files)?;
    let options = options(rt)?;
    match Connection::open_files(rt.alloc(), files, options) {
        Ok(connection) => Ok(connection),
        Err((error, left)) => {
            let fault = refusal(rt.alloc(), error, &left);
            drop(left);
            Err(fault)
        }
    }
}

/// Why the engine didn't open files, of which it left this.
// rule: rows-ruled.of-schema
fn refusal<D: Disk>(alloc: Global, error: Error, left: &Leftover<D>) -> ConnectFault
    requires named { IsTrue (is_open_error error) }
    ensures refused { IsRefusedBy error result }
    ensures unruled { result ≡ Unruled → ListsOurs left.now }
{
    if error != Error::SqliteFailure(ErrorCode::NotADatabase) {
        return ConnectFault::Refused(error);
    }
    match lists_ours(alloc, left) {
        Ok(true) => ConnectFault::Unruled,
        Ok(false) => ConnectFault::Refused(error),
        Err(AllocError) => ConnectFault::Refused(NO_MEMORY),
    }
}
