//! A run of commands.

ghost use Rattle.std.specs.Prelude.{◌<◌, Some, None};
ghost use Rattle.charging.specs.Promise.{RunsOver};
ghost use Rattle.charging.specs.Runs as relation;

use crate::answers::Run;
use crate::stepping::step;
use commands::Command;
use keepers::{Keeper, StoreFault};
use shelves::TariffShelf;
use std::alloc::Global;
use units::Moment;

/// A command with the moment at which it was handed in.
#[derive(Drop)]
pub struct DatedCommand {
    /// The moment, in seconds since 1970.
    pub moment: Moment,
    /// The command.
    pub command: Command,
}

/// Answers commands one after another, up to the first store fault, and commits those that are
/// accepted. The answers are those of the definitions, each by the histories that the commands
/// before it left; each account's buckets and charges are then the sums of its ledger.
///
/// At a store fault the answers before it are given, and what was accepted is that of a beginning
/// of the commands: fault 1 where a growth was refused, also for an answer's text, which is made
/// before its command is accepted, 2 where the store failed. Where none is answered nothing has
/// changed.
///
/// After a stop, and where the store can't be asked any more, each command that was answered is
/// found again, and at most one more.
// rule: ledger.runs-over, store-faults, stop-run
pub fn run<K: Keeper>(
    alloc: Global,
    keeper: &mut K,
    shelf: &TariffShelf,
    commands: Vec<DatedCommand>,
) -> Run
    ensures { RunsOver shelf.now commands.items (K.seen keeper.old) (K.seen keeper.new) result }
{
    // For the prover alone: looking at the value makes known here what its type keeps.
    let _ranges = shelf.first();
    answer_each(alloc, keeper, shelf, commands)
}

/// Answers commands one after another, up to the first store fault. What it leaves is said of each
/// list of accepted commands whose tables the keeper held.
fn answer_each<K: Keeper>(
    alloc: Global,
    keeper: &mut K,
    shelf: &TariffShelf,
    commands: Vec<DatedCommand>,
) -> Run
    ensures { relation.RunsOver shelf.now commands.items
        (K.seen keeper.old) (K.seen keeper.new) result }
{
    let mut answers = Vec::new(alloc);
    for dated in commands {
        if answers.reserve(1).is_err() {
            return Run {
                answers,
                fault: Some(StoreFault::Memory),
            };
        }
        match step(alloc, keeper, shelf, dated.command, dated.moment) {
            Ok(answer) => answers.push_reserved(answer),
            Err(fault) => {
                return Run {
                    answers,
                    fault: Some(fault),
                };
            }
        }
    }
    Run {
        answers,
        fault: None,
    }
}
