//! A file of vouchers over a database.

ghost use Rattle.std.specs.Prelude.{◌≡◌, IfErr, IfOk, IfSome, OnOk};
ghost use Rattle.operations.specs.Counts.{PrintsCounts};
ghost use Rattle.service.specs.Importing.{IsFileFault};
ghost use Rattle.service.specs.Importing.{ImportsFile, ImportsOffice};
ghost use Rattle.service.specs.Importing.{IsUntold};
ghost use Rattle.sql_keeper.specs.Inside.{clean_in, tables_in};
ghost use Rattle.sql_keeper.specs.Stops.{honest_in};
ghost use Rattle.service.specs.Over.{IsImportDone, IsMomentOf, ImportsOver};
ghost use Rattle.sqlite_wal.specs.Files.{image_at};

use crate::clock::command_moment;
use crate::database_files::DatabaseFiles;
use crate::fault::DatabaseFault;
use crate::files::open_file;
use crate::opening::{Office, open_office};
use keepers::Keeper;
use operations::{OfficeFault, serve_import};
use operator::ImportWords;
use shelves::TariffShelf;
use sql_keeper::SqlKeeper;
use sqlite::Alter;
use sqlite_disk::{Start, Wary};
use std::alloc::Global;
use std::io::{Read, Write};
use thiserror::Error;
use units::Moment;
use vouchers::{VoucherFault, read_vouchers};

/// Why the vouchers of a file weren't all added and counted on the output.
#[derive(Clone, Copy, Debug, Drop, Error)]
pub enum ImportFault {
    /// The file has a fault, or wasn't read to its end: nothing has changed.
    #[error("voucher fault {} at record {}", .0.kind.number(), .0.record_number)]
    Vouchers(VoucherFault),
    /// A command over the database wasn't carried out, or what became of the vouchers not written.
    #[error("{0}")]
    Database(DatabaseFault),
}

impl From<DatabaseFault> for ImportFault {
    ghost use Rattle.std.specs.Prelude.{◌≡◌};
    ghost use Rattle.service.specs.declared.importing.ImportFault.TheVariants.{Database};

    ghost from_gives = { λ fault e. e ≡ Database fault };

    fn from(fault: DatabaseFault) -> ImportFault {
        ImportFault::Database(fault)
    }
}

impl From<VoucherFault> for ImportFault {
    ghost use Rattle.std.specs.Prelude.{◌≡◌};
    ghost use Rattle.service.specs.declared.importing.ImportFault.TheVariants.{Vouchers};

    ghost from_gives = { λ fault e. e ≡ Vouchers fault };

    fn from(fault: VoucherFault) -> ImportFault {
        ImportFault::Vouchers(fault)
    }
}

impl From<OfficeFault> for ImportFault {
    ghost use Rattle.std.specs.Prelude.{◌≡◌};
    ghost use Rattle.service.specs.declared.fault.DatabaseFault.TheVariants.{Office};
    ghost use Rattle.service.specs.declared.importing.ImportFault.TheVariants.{Database};

    ghost from_gives = { λ fault e. e ≡ Database (Office fault) };

    fn from(fault: OfficeFault) -> ImportFault {
        ImportFault::Database(DatabaseFault::Office(fault))
    }
}

/// Adds the vouchers of the file of the words to their database, and writes what became of them as
/// a line. The file is opened before the database, and read after it.
///
/// # Errors
/// In this order: `Database` where the file can't be opened (`File` or `Memory`), `Clock`, and
/// `File`, `Open` or `Memory`, as `open_office`; then as `import_file`.
pub fn import_office<O: Write>(
    rt: &HostRuntime,
    words: ImportWords,
    output: &mut O,
) -> Result<(), ImportFault>
    ensures { ImportsOffice O.contents words.at output.old output.new result }
{
    let reader = open_file(rt, words.file.as_str())?;
    import_over(rt, &words, reader, output, Wary)?;
    Ok(())
}

/// Adds the vouchers of a reader to the database of the words as `import_office` does those of
/// their file, whatever the database's files held (`start`), and answers its keeper.
///
/// # Errors
/// In this order: `Database` where the clock has no moment (`Clock`), and `File`, `Open` or
/// `Memory`, as `open_office`; then as `import_file`.
// rule: database-words.opened-in
pub fn import_over<S: Start, R: Read + Drop, O: Write>(
    rt: &HostRuntime,
    words: &ImportWords,
    reader: R,
    output: &mut O,
    start: S,
) -> Result<SqlKeeper<DatabaseFiles<S>>, ImportFault>
    ensures { ImportsOver (image_at S.Start) O.contents words.now (R.remaining reader) output.old
        output.new result }
{
    let moment = command_moment(rt, words.at)?;
    let office = open_office(rt, &words.database, start)?;
    add_over(rt.alloc(), office, words, reader, moment, output)
}

/// Adds the vouchers of a reader over an office, and answers its keeper.
fn add_over<S: Alter + Drop, R: Read + Drop, O: Write>(
    alloc: Global,
    office: Office<S>,
    words: &ImportWords,
    reader: R,
    moment: Moment,
    output: &mut O,
) -> Result<SqlKeeper<S>, ImportFault>
    requires { IsMomentOf words.now.at moment }
    ensures done { IfOk result (λ keeper. clean_in S.Store office.keeper →
        honest_in S.Store keeper → IfSome (R.remaining reader) (λ text.
        IsImportDone words.now text (O.contents output.old) (O.contents output.new) office.shelf
        (tables_in S.Store office.keeper) (tables_in S.Store keeper))) }
    ensures honesty { IfOk result (λ keeper. honest_in S.Store keeper →
        honest_in S.Store office.keeper) }
    ensures printed { OnOk result (PrintsCounts (O.contents output.old) (O.contents output.new)) }
    ensures unwritten { IfErr result (λ fault. IsUntold fault → output.new ≡ output.old) }
    ensures told { IfErr result IsFileFault }
{
    let Office { mut keeper, shelf } = office;
    import_file(alloc, &mut keeper, &shelf, reader, moment, output)?;
    Ok(keeper)
}

/// Adds the vouchers of a file over a keeper, in their order, and writes what became of them as
/// `serve_import` does.
///
/// # Errors
/// `Vouchers`, the first fault of the file, or why it wasn't read to its end: then nothing has
/// changed. `Database` where the store failed, then a beginning of the vouchers was added; or where
/// the output failed, then all were.
// rule: import
pub fn import_file<K: Keeper, R: Read + Drop, O: Write>(
    alloc: Global,
    keeper: &mut K,
    shelf: &TariffShelf,
    reader: R,
    moment: Moment,
    output: &mut O,
) -> Result<(), ImportFault>
    ensures { ImportsFile O.contents shelf.now (R.remaining reader) moment
        (K.seen keeper.old) (K.seen keeper.new) output.old output.new result }
{
    let rows = read_vouchers(alloc, reader)?;
    serve_import(alloc, keeper, shelf, rows, moment, output)?;
    Ok(())
}
