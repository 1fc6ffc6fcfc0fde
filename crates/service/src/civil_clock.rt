//! The clock of the books of a database.

ghost use Rattle.std.specs.Prelude.{◌≡◌, IfErr, IfOk, OnErr, OnOk};
ghost use Rattle.std.specs.Io.KnownBytes.{Appends};
ghost use Rattle.sqlite_wal.specs.Files.{image_at};
ghost use Rattle.operations.specs.CivilClock.{clock_text};
ghost use Rattle.operations.specs.Written.{WritesBeginning};
ghost use Rattle.service.specs.CivilClock.{IsClockFault, IsUnwritten, ShowsClock, ShowsClockOver};
ghost use Rattle.service.specs.Opening.{IsUnasked};

use crate::database_files::DatabaseFiles;
use crate::fault::DatabaseFault;
use crate::opening::{Office, open_office};
use operations::{OfficeFault, serve_clock};
use operator::ClockWords;
use shelves::TariffShelf;
use sql_keeper::SqlKeeper;
use sqlite::Alter;
use sqlite_disk::{Start, Wary};
use std::alloc::Global;
use std::io::Write;

/// Writes what the clock of the books of a database shows at the moments of the words, a line a
/// moment. The database is read alone.
///
/// # Errors
/// In this order: `File`, `Open` or `Memory`, as `open_office`: then nothing is written; `Office`
/// where memory ran out for the lines or the output failed: then a beginning of them is written.
// rule: civil-clock
pub fn clock_office<O: Write>(
    rt: &HostRuntime,
    words: &ClockWords,
    output: &mut O,
) -> Result<(), DatabaseFault>
    ensures { ShowsClock O.contents words.now output.old output.new result }
{
    clock_over(rt, words, output, Wary)?;
    Ok(())
}

/// Writes the lines of the words as `clock_office`, whatever the files held (`start`), and answers
/// the keeper that was opened.
///
/// # Errors
/// As `clock_office`.
// rule: civil-clock, database-words.opened-in
pub fn clock_over<S: Start, O: Write>(
    rt: &HostRuntime,
    words: &ClockWords,
    output: &mut O,
    start: S,
) -> Result<SqlKeeper<DatabaseFiles<S>>, DatabaseFault>
    ensures { ShowsClockOver (image_at S.Start) O.contents words.now output.old output.new result }
{
    let office = open_office(rt, &words.database, start)?;
    show_clock(rt.alloc(), office, words, output)
}

/// Writes the lines of the words by the books of an office, and answers its keeper as it is.
fn show_clock<S: Alter + Drop, O: Write>(
    alloc: Global,
    office: Office<S>,
    words: &ClockWords,
    output: &mut O,
) -> Result<SqlKeeper<S>, DatabaseFault>
    ensures same { IfOk result (λ keeper. keeper ≡ office.keeper) }
    ensures shown { OnOk result (Appends (O.contents output.old) (O.contents output.new)
        (clock_text office.shelf words.now.moments)) }
    ensures begun { OnErr result (WritesBeginning (O.contents output.old) (O.contents output.new)
        (clock_text office.shelf words.now.moments)) }
    ensures fault { IfErr result IsClockFault }
    ensures unwritten { IfErr result (λ fault. IsUnasked fault → output.new ≡ output.old) }
{
    let Office { keeper, shelf } = office;
    write_clock(alloc, &shelf, words, output)?;
    Ok(keeper)
}

/// Writes the lines of the words by the books of a shelf.
fn write_clock<O: Write>(
    alloc: Global,
    shelf: &TariffShelf,
    words: &ClockWords,
    output: &mut O,
) -> Result<(), OfficeFault>
    ensures shown { OnOk result (Appends (O.contents output.old) (O.contents output.new)
        (clock_text shelf.now words.now.moments)) }
    ensures begun { OnErr result (WritesBeginning (O.contents output.old) (O.contents output.new)
        (clock_text shelf.now words.now.moments)) }
    ensures fault { IfErr result IsUnwritten }
{
    let moments = words.moments.as_slice();
    Ok(serve_clock(alloc, shelf, moments, output)?)
}
