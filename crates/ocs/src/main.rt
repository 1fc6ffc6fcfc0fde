//! `ocs`: online charging for prepaid subscribers, from lines of requests to lines of answers.
#![tactic(auto)]

mod doing;
mod fault;
mod making;
mod replaying;
mod serving;
mod storing;
mod telling;
mod terminal;

ghost use Rattle.std.specs.Prelude.{◌≡◌};
ghost use Rattle.operator.specs.Read.{IsInRange, texts_of};
ghost use Rattle.ocs.specs.Ends.{IfOnce, IsEndBy};
ghost use Rattle.ocs.specs.Told.{IsToldBy};
ghost use Rattle.ocs.specs.Runs.{PrintsSaid, RunsProgram};

use crate::doing::do_said;
use crate::telling::{tell_fault, tell_start, tell_unread};
use crate::terminal::tell_long_work;
use operations::Status;
use operator::{ProgramWords, program_words};
use std::alloc::{AllocError, Global};
use std::fs::Files;
use std::io::{BufReader, Read, Write};
use std::process::ExitCode;
use std::{env, io};

/// The C library gives free memory back to the machine beyond twice the largest block that was
/// freed. So that it keeps what the text of a long book takes at each command, a block of so many
/// bytes is taken and freed at first; nothing of it is touched.
const KEPT_BYTES: usize = 1 << 24;

fn main(rt: HostRuntime) -> ExitCode {
    keep_freed(rt.alloc());
    let status = match run_own_words(&rt) {
        Ok(status) => status,
        Err(error) => tell_start(&mut rt.stderr(), error.kind()),
    };
    ExitCode::from(status.number())
}

/// Has the C library keep memory that is freed. Where it refuses the block, nothing changes.
fn keep_freed(alloc: Global) {
    let _block: Result<Vec<u8>, AllocError> = Vec::with_capacity(alloc, KEPT_BYTES);
}

/// Runs the words that the program is started with, over its standard streams.
fn run_own_words(rt: &HostRuntime) -> io::Result<Status> {
    let alloc = rt.alloc();
    let owned: Vec<String> = env::args(rt)?.collect(alloc)?;
    let words: Vec<&str> = owned.iter().map(|word| word.as_str()).collect(alloc)?;
    let mut reader = BufReader::new(alloc, rt.reader())?;
    let mut writer = io::writer(rt);
    let mut errors = rt.stderr();
    Ok(run_words(
        rt,
        rt,
        words.as_slice(),
        &mut reader,
        &mut writer,
        &mut errors,
    ))
}

/// Runs the program's words; the lines of a file are read of `files`. `Done` where what they say
/// was done, or a text that they ask for was written: the help or the version; of connections that
/// were served, each one's fault is one line on `errors`. `Failed` where an operator's command or a
/// statement is refused, and at a fault, which is one line on `errors`. `Unread` where they aren't
/// words of the program: then `output` gets nothing, and `errors` a text that says why.
// rule: once, exit-status
pub fn run_words<'a, F: Files, I: Read, O: Write, E: Write>(
    rt: &HostRuntime,
    files: &F,
    words: &'a [&'a str],
    input: &mut I,
    output: &mut O,
    errors: &mut E,
) -> Status
    ensures { RunsProgram F.File.remaining I.remaining O.contents E.contents
        (texts_of words.entry.now) input.old input.new output.old output.new errors.old errors.new result }
{
    match program_words(rt.alloc(), words) {
        Ok(said) => run_said(rt, files, said, input, output, errors),
        Err(fault) => tell_unread(rt.alloc(), fault, output, errors),
    }
}

/// Does what the words say, and reports a fault.
#[tactic(auto, using(crate::proofs::EndLemmas::ended_told, crate::proofs::EndLemmas::ended_end, crate::proofs::EndLemmas::fault_end))]
fn run_said<F: Files, I: Read, O: Write, E: Write>(
    rt: &HostRuntime,
    files: &F,
    said: ProgramWords,
    input: &mut I,
    output: &mut O,
    errors: &mut E,
) -> Status
    requires { IsInRange said }
    ensures end { IsEndBy result }
    ensures told { IsToldBy said (O.contents output.old) (O.contents output.new) result
        (E.contents errors.old) (E.contents errors.new) }
    ensures prints { PrintsSaid F.File.remaining said (I.remaining input.old)
        (O.contents output.old) (O.contents output.new) result }
    ensures unread { IfOnce said (λ _. ⊥) → input.new ≡ input.old }
{
    tell_long_work(rt, &said);
    match do_said(rt, files, said, input, output, errors) {
        Ok(status) => status,
        Err(fault) => tell_fault(errors, fault),
    }
}
