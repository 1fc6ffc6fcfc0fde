//! The program's words, read.

ghost use Rattle.std.specs.Prelude.{◌≡◌, [], IfErr, IfOk, option_map};
ghost use Rattle.clap.specs.Words.{FailsBy, fault_of, found_of, rows_of, subcommand_of};
ghost use Rattle.clap.specs.Words.{subcommand_rows_of};
ghost use Rattle.texts.specs.Steps.{GivesUnless};
ghost use Rattle.operator.specs.Program.{program_app};
ghost use Rattle.operator.specs.Read.{IsInRange, IsFaultOfError, IsRefused, IsSaid, IsUnread};
ghost use Rattle.operator.specs.Read.{texts_of};
ghost use Rattle.operator.specs.Said.{command_said, said_by};
ghost use Rattle.operator.specs.declared.fault.ValueFault.TheVariants.{Memory};

use crate::argument_names::Argument;
use crate::fault::{ValueFault, WordsFault};
use crate::parsed::ProgramWords;
use crate::program::{CommandName, program};
use crate::saying::{
    book_words, clock_words, import_words, init_words, migrate_words, office_words, once_said,
    replay_words, serve_words, statement_words,
};
use clap::error::ErrorKind;
use clap::{ArgMatches, Error};
use std::alloc::Global;

/// Reads all words of the program, of which the first is its name, by `clap`. Numbers are 1 to 16
/// digits without a sign (profile).
///
/// # Errors
/// `Unread` where `clap` doesn't take the words, with its error, also where they ask for the help
/// or the version. `Invalid` where it takes them and one isn't what its place takes, with the first
/// such place. `Memory` where memory was refused.
// rule: words, exit-status
#[tactic(auto, using(crate::proofs::ProgramLemmas::is_said_from, crate::proofs::ProgramLemmas::is_invalid_from, crate::proofs::ProgramLemmas::refused_unread))]
pub fn program_words<'a>(alloc: Global, words: &'a [&'a str]) -> Result<ProgramWords, WordsFault>
    // rule: words
    ensures read { IfOk result (IsSaid (texts_of words.entry.now)) }
    // rule: words
    ensures unread { IfErr result (IsUnread (texts_of words.entry.now)) }
    // rule: words
    ensures in_range { IfOk result IsInRange }
{
    // A `match` in place of `?`: the prover has no proof for `?` on a result whose value holds a
    // `&str` beside a struct with a model.
    let matches = match found_in(alloc, words) {
        Ok(matches) => matches,
        Err(fault) => return Err(fault),
    };
    match said_in(alloc, &matches) {
        Ok(said) => Ok(said),
        Err(ValueFault::Invalid(argument)) => Err(WordsFault::Invalid(argument)),
        Err(ValueFault::Memory) => Err(WordsFault::Memory),
    }
}

/// What `clap` finds in the words.
#[tactic(auto, using(crate::proofs::ProgramLemmas::refused_from))]
fn found_in<'a>(alloc: Global, words: &'a [&'a str]) -> Result<ArgMatches<'a>, WordsFault>
    ensures taken { IfOk result (λ _. fault_of program_app (texts_of words.entry.now) ≡ []) }
    ensures rows { IfOk result
        (λ m. subcommand_rows_of m ≡ subcommand_of program_app (texts_of words.entry.now)) }
    ensures refused { IfErr result
        (IsRefused (fault_of program_app (texts_of words.entry.now))) }
{
    matches_in(alloc, words).map_err(refusal)
}

fn matches_in<'a>(alloc: Global, words: &'a [&'a str]) -> Result<ArgMatches<'a>, Error>
    ensures rows { IfOk result
        (λ m. subcommand_rows_of m ≡ subcommand_of program_app (texts_of words.entry.now)) }
    ensures kinds { FailsBy (fault_of program_app (texts_of words.entry.now)) result }
{
    let program = program(alloc)?;
    program.try_get_matches_from(words)
}

/// The fault of an error of `clap`.
fn refusal(error: Error) -> WordsFault
    ensures { IsFaultOfError error result }
{
    match error.kind() {
        ErrorKind::OutOfMemory => WordsFault::Memory,
        _ => WordsFault::Unread(error),
    }
}

/// What the words say, by the command that they name.
fn said_in(alloc: Global, matches: &ArgMatches<'_>) -> Result<ProgramWords, ValueFault>
    ensures value { GivesUnless Memory (λ w. w) result (said_by (subcommand_rows_of matches.now)) }
    ensures in_range { IfOk result IsInRange }
{
    let Some((name, inner)) = entered(matches) else {
        return Err(ValueFault::Invalid(Argument::Command));
    };
    let command = CommandName::named(name).ok_or(ValueFault::Invalid(Argument::Command))?;
    said_of(alloc, command, inner)
}

/// The command that the words name, with what it finds.
fn entered<'m, 'a>(matches: &'m ArgMatches<'a>) -> Option<(&'a str, &'m ArgMatches<'a>)>
    ensures { option_map (λ p. (p.0.now, rows_of (found_of p.1.now))) result
        ≡ subcommand_rows_of matches.now }
{
    matches.subcommand()
}

/// What the words of a command say.
fn said_of(
    alloc: Global,
    command: CommandName,
    matches: &ArgMatches<'_>,
) -> Result<ProgramWords, ValueFault>
    ensures value { GivesUnless Memory (λ w. w) result
        (command_said command (rows_of (found_of matches.now))) }
    ensures in_range { IfOk result IsInRange }
{
    match command {
        CommandName::Once => Ok(ProgramWords::Once(once_said(matches)?)),
        CommandName::Init => Ok(ProgramWords::Init(init_words(alloc, matches)?)),
        CommandName::Migrate => Ok(ProgramWords::Migrate(migrate_words(alloc, matches)?)),
        CommandName::Book => Ok(ProgramWords::Book(book_words(alloc, matches)?)),
        CommandName::Serve => Ok(ProgramWords::Serve(serve_words(alloc, matches)?)),
        CommandName::Import => Ok(ProgramWords::Import(import_words(alloc, matches)?)),
        CommandName::Office(name) => {
            Ok(ProgramWords::Office(office_words(alloc, name, matches)?))
        }
        CommandName::Statement => Ok(ProgramWords::Statement(statement_words(alloc, matches)?)),
        CommandName::Clock => Ok(ProgramWords::Clock(clock_words(alloc, matches)?)),
        CommandName::Replay => Ok(ProgramWords::Replay(replay_words(alloc, matches)?)),
    }
}
