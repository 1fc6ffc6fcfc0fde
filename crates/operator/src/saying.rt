//! What the words of each command say.

ghost use Rattle.std.specs.Prelude.{IfOk};
ghost use Rattle.clap.specs.Words.{found_of, rows_of};
ghost use Rattle.texts.specs.Steps.{GivesUnless, Says};
ghost use Rattle.operator.specs.Read.{IsBookInRange, IsClockInRange, IsImportInRange};
ghost use Rattle.operator.specs.Read.{IsOfficeInRange};
ghost use Rattle.operator.specs.Read.{IsOnceInRange, IsServeInRange, IsStatementInRange};
ghost use Rattle.operator.specs.Said.{book_said, clock_said, import_said, init_said, migrate_said};
ghost use Rattle.operator.specs.Said.{office_said, once_said, replay_said, serve_said};
ghost use Rattle.operator.specs.Said.{statement_said};
ghost use Rattle.operator.specs.declared.fault.ValueFault.TheVariants.{Memory};

use crate::argument_names::Argument;
use crate::fault::ValueFault;
use crate::office::{OfficeName, office_command};
use crate::parsed::{
    BookWords, ClockWords, ImportWords, InitWords, MigrateWords, OfficeWords, OnceWords,
    ReplayWords, ServeWords, StatementWords,
};
use crate::values::{
    account, amount_at, at, database, first_moment, has_flag, moments, month, number_at, path_at,
};
use clap::ArgMatches;
use std::alloc::Global;
use units::{GREATEST_PRICE, MOST_GRANTED};

/// The words of `once`.
#[tactic(auto, unfolding(crate::specs::Said::once_said))]
pub(crate) fn once_said(matches: &ArgMatches<'_>) -> Result<OnceWords, ValueFault>
    ensures value { Says (λ w. w) result (once_said (rows_of (found_of matches.now))) }
    ensures in_range { IfOk result IsOnceInRange }
{
    let credit = amount_at(matches, Argument::Credit)?;
    let price = number_at(matches, 0, GREATEST_PRICE, Argument::Price)?;
    let block = number_at(matches, 1, MOST_GRANTED, Argument::Block)?;
    Ok(OnceWords {
        credit,
        price,
        block,
    })
}

/// The words of `init`.
#[tactic(auto, unfolding(crate::specs::Said::init_said))]
pub(crate) fn init_words(alloc: Global, matches: &ArgMatches<'_>) -> Result<InitWords, ValueFault>
    ensures { GivesUnless Memory (λ w. w) result (init_said (rows_of (found_of matches.now))) }
{
    let database = database(alloc, matches)?;
    let book = path_at(alloc, matches, Argument::Book)?;
    Ok(InitWords { database, book })
}

/// The words of `migrate`.
#[tactic(auto, unfolding(crate::specs::Said::migrate_said))]
pub(crate) fn migrate_words(
    alloc: Global,
    matches: &ArgMatches<'_>,
) -> Result<MigrateWords, ValueFault>
    ensures { GivesUnless Memory (λ w. w) result (migrate_said (rows_of (found_of matches.now))) }
{
    let database = database(alloc, matches)?;
    Ok(MigrateWords { database })
}

/// The words of `book`.
#[tactic(auto, unfolding(crate::specs::Said::book_said))]
pub(crate) fn book_words(alloc: Global, matches: &ArgMatches<'_>) -> Result<BookWords, ValueFault>
    ensures value { GivesUnless Memory (λ w. w) result
        (book_said (rows_of (found_of matches.now))) }
    ensures in_range { IfOk result IsBookInRange }
{
    let database = database(alloc, matches)?;
    let file = path_at(alloc, matches, Argument::File)?;
    let from = first_moment(matches)?;
    Ok(BookWords {
        database,
        file,
        from,
    })
}

/// The words of `serve`.
#[tactic(auto, unfolding(crate::specs::Said::serve_said))]
pub(crate) fn serve_words(alloc: Global, matches: &ArgMatches<'_>) -> Result<ServeWords, ValueFault>
    ensures value { GivesUnless Memory (λ w. w) result
        (serve_said (rows_of (found_of matches.now))) }
    ensures in_range { IfOk result IsServeInRange }
{
    let database = database(alloc, matches)?;
    let port = number_at(matches, 1, 65_535, Argument::Port)?;
    let connections = number_at(matches, 1, 1_000_000, Argument::Connections)?;
    let at = at(matches)?;
    Ok(ServeWords {
        database,
        port: port as u16,
        connections: connections as u32,
        at,
    })
}

/// The words of `import`.
#[tactic(auto, unfolding(crate::specs::Said::import_said))]
pub(crate) fn import_words(
    alloc: Global,
    matches: &ArgMatches<'_>,
) -> Result<ImportWords, ValueFault>
    ensures value { GivesUnless Memory (λ w. w) result
        (import_said (rows_of (found_of matches.now))) }
    ensures in_range { IfOk result IsImportInRange }
{
    let database = database(alloc, matches)?;
    let file = path_at(alloc, matches, Argument::File)?;
    let at = at(matches)?;
    Ok(ImportWords { database, file, at })
}

/// The words of an operator's command.
#[tactic(auto, unfolding(crate::specs::Said::office_said))]
pub(crate) fn office_words(
    alloc: Global,
    name: OfficeName,
    matches: &ArgMatches<'_>,
) -> Result<OfficeWords, ValueFault>
    ensures value { GivesUnless Memory (λ w. w) result
        (office_said name (rows_of (found_of matches.now))) }
    ensures in_range { IfOk result IsOfficeInRange }
{
    let database = database(alloc, matches)?;
    let command = office_command(alloc, name, matches)?;
    let at = at(matches)?;
    Ok(OfficeWords {
        database,
        command,
        at,
    })
}

/// The words of `statement`.
#[tactic(auto, unfolding(crate::specs::Said::statement_said))]
pub(crate) fn statement_words(
    alloc: Global,
    matches: &ArgMatches<'_>,
) -> Result<StatementWords, ValueFault>
    ensures value { GivesUnless Memory (λ w. w) result
        (statement_said (rows_of (found_of matches.now))) }
    ensures in_range { IfOk result IsStatementInRange }
{
    let database = database(alloc, matches)?;
    let account = account(alloc, matches)?;
    let month = month(matches)?;
    let at = at(matches)?;
    Ok(StatementWords {
        database,
        account,
        month,
        csv: has_flag(matches, "csv"),
        at,
    })
}

/// The words of `clock`.
#[tactic(auto, unfolding(crate::specs::Said::clock_said))]
pub(crate) fn clock_words(alloc: Global, matches: &ArgMatches<'_>) -> Result<ClockWords, ValueFault>
    ensures value { GivesUnless Memory (λ w. w) result
        (clock_said (rows_of (found_of matches.now))) }
    ensures in_range { IfOk result IsClockInRange }
{
    let database = database(alloc, matches)?;
    let moments = moments(alloc, matches)?;
    Ok(ClockWords { database, moments })
}

/// The words of `replay`.
#[tactic(auto, unfolding(crate::specs::Said::replay_said))]
pub(crate) fn replay_words(
    alloc: Global,
    matches: &ArgMatches<'_>,
) -> Result<ReplayWords, ValueFault>
    ensures { GivesUnless Memory (λ w. w) result (replay_said (rows_of (found_of matches.now))) }
{
    let database = database(alloc, matches)?;
    let file = path_at(alloc, matches, Argument::File)?;
    Ok(ReplayWords { database, file })
}
