//! An account's month over a database.

ghost use Rattle.std.specs.Prelude.{◌≡◌, IfErr, IfOk, OnErr};
ghost use Rattle.std.specs.Io.KnownBytes.{Appends};
ghost use Rattle.operations.specs.Months.{unknown_line};
ghost use Rattle.operations.specs.Printed.{IsEnded};
ghost use Rattle.service.specs.Opening.{IsOfficeFault, IsUnasked};
ghost use Rattle.sqlite_wal.specs.Files.{image_at};
ghost use Rattle.sql_keeper.specs.Inside.{tables_in};
ghost use Rattle.sql_keeper.specs.Stops.{honest_in};
ghost use Rattle.service.specs.Over.{IsMomentOf, IsMonthDone, query_of};
ghost use Rattle.service.specs.Stating.{BeginsMonthOf, PrintsMonthOf};
ghost use Rattle.service.specs.Stating.{StatesOffice, StatesOver};

use crate::clock::command_moment;
use crate::database_files::DatabaseFiles;
use crate::fault::DatabaseFault;
use crate::opening::{Office, open_office};
use operations::{MonthQuery, Status, serve_statement};
use operator::StatementWords;
use sql_keeper::SqlKeeper;
use sqlite::Alter;
use sqlite_disk::{Start, Wary};
use std::alloc::Global;
use std::io::Write;
use units::Moment;

/// Writes the month of an account over the database of the words, as a statement or as CSV. The
/// status is `Failed` where there is no such account.
///
/// # Errors
/// In this order: `Clock`; `File`, `Open` or `Memory`, as `open_office`: then nothing is written;
/// `Office` where the store or the output failed: then a beginning of the text is written.
// rule: statement.month-told
pub fn state_office<O: Write>(
    rt: &HostRuntime,
    words: StatementWords,
    output: &mut O,
) -> Result<Status, DatabaseFault>
    ensures { StatesOffice O.contents words output.old output.new result }
{
    let (status, _keeper) = state_over(rt, words, output, Wary)?;
    Ok(status)
}

/// Writes the month of an account as `state_office`, whatever the files held (`start`), and answers
/// its keeper too.
///
/// # Errors
/// As `state_office`.
// rule: database-words.opened-in
pub fn state_over<S: Start, O: Write>(
    rt: &HostRuntime,
    words: StatementWords,
    output: &mut O,
    start: S,
) -> Result<(Status, SqlKeeper<DatabaseFiles<S>>), DatabaseFault>
    ensures { StatesOver (image_at S.Start) O.contents words output.old output.new result }
{
    let moment = command_moment(rt, words.at)?;
    let office = open_office(rt, &words.database, start)?;
    tell_over(rt.alloc(), office, words, moment, output)
}

/// Writes the month of words over an office, and answers its keeper too.
fn tell_over<S: Alter + Drop, O: Write>(
    alloc: Global,
    office: Office<S>,
    words: StatementWords,
    moment: Moment,
    output: &mut O,
) -> Result<(Status, SqlKeeper<S>), DatabaseFault>
    requires { IsMomentOf words.at moment }
    ensures done { IfOk result (λ r. honest_in S.Store r.1 →
        IsMonthDone words (O.contents output.old) (O.contents output.new) r.0 office.shelf
        (tables_in S.Store office.keeper) (tables_in S.Store r.1)) }
    ensures honesty { IfOk result (λ r. honest_in S.Store r.1 → honest_in S.Store office.keeper) }
    ensures printed { IfOk result (λ r.
        PrintsMonthOf words (O.contents output.old) (O.contents output.new) r.0) }
    ensures begun { OnErr result
        (BeginsMonthOf words (O.contents output.old) (O.contents output.new)) }
    ensures ended { IfOk result (λ r. IsEnded
        (Appends (O.contents output.old) (O.contents output.new) unknown_line) r.0) }
    ensures unwritten { IfErr result (λ fault. IsUnasked fault → output.new ≡ output.old) }
    ensures fault { IfErr result IsOfficeFault }
{
    let Office { mut keeper, shelf } = office;
    let query = query_of(words);
    let status = serve_statement(alloc, &mut keeper, &shelf, &query, moment, output)?;
    Ok((status, keeper))
}

/// The month that words ask for.
fn query_of(words: StatementWords) -> MonthQuery
    ensures { result ≡ query_of words }
{
    let StatementWords {
        database: _,
        account,
        month,
        csv,
        at: _,
    } = words;
    MonthQuery {
        account,
        month,
        csv,
    }
}
