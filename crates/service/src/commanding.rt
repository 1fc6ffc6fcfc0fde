//! An operator's command over a database.

ghost use Rattle.std.specs.Prelude.{◌≡◌, IfErr, IfOk};
ghost use Rattle.operations.specs.Printed.{PrintsAnswer};
ghost use Rattle.sqlite_wal.specs.Files.{image_at};
ghost use Rattle.service.specs.Opening.{IsOfficeFault, IsUnanswered};
ghost use Rattle.sql_keeper.specs.Inside.{tables_in};
ghost use Rattle.sql_keeper.specs.Stops.{honest_in};
ghost use Rattle.service.specs.Over.{IsCommandDone, IsMomentOf};
ghost use Rattle.service.specs.Over.{CommandsOffice, CommandsOver};

use crate::clock::command_moment;
use crate::database_files::DatabaseFiles;
use crate::fault::DatabaseFault;
use crate::opening::{Office, open_office};
use operations::{Status, serve_office};
use operator::OfficeWords;
use sql_keeper::SqlKeeper;
use sqlite::Alter;
use sqlite_disk::{Start, Wary};
use std::alloc::Global;
use std::io::Write;
use units::Moment;

/// Carries out an operator's command over the database of the words, and writes its answer as a
/// line. The status is `Failed` at a refusal, which changes nothing. Nothing is supposed of a write
/// that was torn.
///
/// # Errors
/// In this order: `Clock`; `File`, `Open` or `Memory`, as `open_office`; `Office` where the command
/// wasn't carried out, or its answer not written.
pub fn command_office<O: Write>(
    rt: &HostRuntime,
    words: OfficeWords,
    output: &mut O,
) -> Result<Status, DatabaseFault>
    ensures { CommandsOffice O.contents words.at output.old output.new result }
{
    let (status, _keeper) = command_over(rt, words, output, Wary)?;
    Ok(status)
}

/// Carries out an operator's command as `command_office`, whatever the files held (`start`), and
/// answers its keeper too.
///
/// # Errors
/// As `command_office`.
// rule: database-words.opened-in
pub fn command_over<S: Start, O: Write>(
    rt: &HostRuntime,
    words: OfficeWords,
    output: &mut O,
    start: S,
) -> Result<(Status, SqlKeeper<DatabaseFiles<S>>), DatabaseFault>
    ensures { CommandsOver (image_at S.Start) O.contents words output.old output.new result }
{
    let moment = command_moment(rt, words.at)?;
    let office = open_office(rt, &words.database, start)?;
    carry_over(rt.alloc(), office, words, moment, output)
}

/// Carries out the command of words over an office, and answers its keeper too.
fn carry_over<S: Alter + Drop, O: Write>(
    alloc: Global,
    office: Office<S>,
    words: OfficeWords,
    moment: Moment,
    output: &mut O,
) -> Result<(Status, SqlKeeper<S>), DatabaseFault>
    requires { IsMomentOf words.at moment }
    ensures done { IfOk result (λ r. honest_in S.Store r.1 →
        IsCommandDone words (O.contents output.old) (O.contents output.new) r.0 office.shelf
        (tables_in S.Store office.keeper) (tables_in S.Store r.1)) }
    ensures honesty { IfOk result (λ r. honest_in S.Store r.1 → honest_in S.Store office.keeper) }
    ensures printed { IfOk result (λ r.
        PrintsAnswer r.0 (O.contents output.old) (O.contents output.new)) }
    ensures unwritten { IfErr result (λ fault. IsUnanswered fault → output.new ≡ output.old) }
    ensures fault { IfErr result IsOfficeFault }
{
    let Office { mut keeper, shelf } = office;
    let status = serve_office(alloc, &mut keeper, &shelf, words.command, moment, output)?;
    Ok((status, keeper))
}
