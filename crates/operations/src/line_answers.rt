//! Lines that are read, run and answered.

ghost use Rattle.std.specs.Prelude.{◌≡◌, ◌≤◌, ◌+◌, ◌++◌, Err, IfNone};
ghost use Rattle.std.specs.Prelude.{Some, length, min};
ghost use Rattle.texts.specs.declared.streams.StreamFault.{StreamFault};
ghost use Rattle.charging.specs.Continued.{ForEachList};
ghost use Rattle.charging.specs.Runs.{RunsOver};
ghost use Rattle.keepers.specs.Faults.{max_failures};
ghost use Rattle.keepers.specs.declared.fault.StoreFault.TheVariants.{Store as StoreFailed};
ghost use Rattle.keepers.specs.Tables.{Tables};
ghost use Rattle.operations.specs.Imports.{HoldsBeginning};
ghost use Rattle.operations.specs.declared.lines_fault.LinesFault.TheVariants.{Read, Write};
ghost use Rattle.operations.specs.LinesFaults.{ended_as};
ghost use Rattle.operations.specs.LinesServed.{IsRunOpened};
ghost use Rattle.operations.specs.LinesAnswering.{LinesOver};

use crate::first_account::open_first;
use crate::line_input::{Input, read_input};
use crate::line_output::write_output;
use crate::lines_fault::LinesFault;
use charging::{DatedCommand, Run, run};
use keepers::{Keeper, StoreFault};
use shelves::TariffShelf;
use std::alloc::Global;
use std::io::{Read, Write};
use texts::StreamFault;
use units::Money;

/// Answers lines `MOMENT JSON` of requests for credit control, a line each. All lines are read
/// first; then the requests are run, and what each line is answered is written: a request's answer,
/// or the fault of a line that isn't read as one. Where an opening amount in micro-units is handed
/// in, the first request's account is opened before it with one bucket of this amount, from the
/// beginning and without end (profile; the requests: RFC 8506 sections 5.2 to 5.4 and 6).
///
/// # Errors
/// `Read` where memory ran out before the requests were run, or the reader failed: then nothing has
/// changed. `Store` where the keeper failed: a beginning of the requests is accepted, and the
/// answers before that are written. `Both` where writing those failed too: then a beginning of them
/// is written. `Write` where all requests were run, and memory ran out for an answer's text or the
/// writer failed: then a beginning of the answers is written.
// rule: request-lines
pub fn lines<K: Keeper, R: Read, W: Write>(
    alloc: Global,
    keeper: &mut K,
    shelf: &TariffShelf,
    opening: Option<Money>,
    reader: &mut R,
    writer: &mut W,
) -> Result<(), LinesFault>
    ensures { LinesOver K.seen W.contents shelf.now opening
        (R.remaining reader.old) keeper.old keeper.new writer.old writer.new result }
{
    let input = read_input(alloc, reader)?;
    let Input { lines, requests } = input;
    let opening = open_first(alloc, opening, &requests)?;
    let Run { answers, fault } = run_opened(alloc, keeper, shelf, opening, requests);
    let written = write_output(alloc, writer, &lines, &answers);
    ended_as(fault, written)
}

/// What answering ends with: the keeper's fault, whatever became of writing the answers.
fn ended_as(fault: Option<StoreFault>, written: Result<(), StreamFault>) -> Result<(), LinesFault>
    ensures { result ≡ ended_as fault written }
{
    match (fault, written) {
        (None, Ok(())) => Ok(()),
        (None, Err(fault)) => Err(LinesFault::Write(fault)),
        (Some(fault), Ok(())) => Err(LinesFault::Store(fault)),
        (Some(fault), Err(_)) => Err(LinesFault::Both(fault)),
    }
}

/// Runs what opens an account, and then requests; the answers are those to the requests.
fn run_opened<K: Keeper>(
    alloc: Global,
    keeper: &mut K,
    shelf: &TariffShelf,
    opening: Vec<DatedCommand>,
    requests: Vec<DatedCommand>,
) -> Run
    ensures runs { (K.seen keeper.new).clean → ForEachList shelf.now (K.seen keeper.old).tables
        (IsRunOpened shelf.now opening.items requests.items
        (K.seen keeper.new).tables result.answers.items result.fault) }
    ensures whole { IfNone result.fault
        (length result.answers.items ≡ length requests.items) }
    ensures cleanness { (K.seen keeper.new).clean → (K.seen keeper.old).clean }
    ensures honesty { (K.seen keeper.new).honest → (K.seen keeper.old).honest }
    ensures stands { (K.seen keeper.new).honest → (K.seen keeper.old).clean →
        IfNone result.fault (K.seen keeper.new).clean }
    ensures held { (K.seen keeper.new).honest → (K.seen keeper.old).clean → (t : Tables) →
        (K.seen keeper.new).left t →
        HoldsBeginning shelf.now (opening.items ++ requests.items) (K.seen keeper.old).tables t }
    ensures failures { (K.seen keeper.old).failed ≤ (K.seen keeper.new).failed }
    ensures cause { result.fault ≡ Some StoreFailed →
        min ((K.seen keeper.old).failed + 1) max_failures ≤ (K.seen keeper.new).failed }
{
    let Run { answers: _, fault } = run_each(alloc, keeper, shelf, opening);
    if fault.is_some() {
        let answers = Vec::new(alloc);
        return Run { answers, fault };
    }
    run_each(alloc, keeper, shelf, requests)
}

/// Runs commands. What it leaves is said of each list of accepted commands whose tables the keeper
/// held.
fn run_each<K: Keeper>(
    alloc: Global,
    keeper: &mut K,
    shelf: &TariffShelf,
    commands: Vec<DatedCommand>,
) -> Run
    ensures { RunsOver shelf.now commands.items (K.seen keeper.old) (K.seen keeper.new) result }
{
    // For the prover alone: looking at the value makes known here what its type keeps.
    let _ranges = shelf.first();
    run(alloc, keeper, shelf, commands)
}
