//! What a terminal gets before words that take long: which file they work on, and its size.

ghost use Rattle.std.specs.Prelude.{◌≡◌, IfOk, option_map, string_bytes};
ghost use Rattle.operations.specs.Written.{WritesBeginning};
ghost use Rattle.ocs.specs.Terminal.{database_work, input_work, over_lines, over_rows};
ghost use Rattle.ocs.specs.Terminal.{line_text, work_line, work_of};

use operations::tell_line;
use operator::{FilePath, ProgramWords};
use std::alloc::{AllocError, Global};
use std::fs;
use std::io::{IsTerminal, Write};

/// The bytes of a database of some 100,000 rows, which take a second to read.
const LONG_DATABASE: u64 = 25_000_000;

/// The bytes of some thousands of requests or vouchers, which take a second or more to carry out.
const LONG_INPUT: u64 = 1_000_000;

/// A file that may take long.
#[derive(Clone, Copy)]
pub(crate) struct LongFile<'a> {
    /// What is done with it.
    doing: &'a str,
    /// Where it is.
    path: &'a FilePath,
    /// From how many bytes on it takes long.
    least: u64,
}

/// Says on standard error which large files the words work on, where that is a terminal. To
/// anything else nothing is written.
pub(crate) fn tell_long_work(rt: &HostRuntime, said: &ProgramWords) {
    let mut errors = rt.stderr();
    if !errors.is_terminal() {
        return;
    }
    tell_file(rt, &mut errors, database_file(said));
    tell_file(rt, &mut errors, input_file(said));
}

/// Says it of a file, where there is one whose size can be read.
fn tell_file<E: Write>(rt: &HostRuntime, errors: &mut E, file: Option<LongFile<'_>>) {
    let Some(file) = file else {
        return;
    };
    let Ok(found) = fs::metadata(rt, file.path.as_str()) else {
        return;
    };
    tell_size(rt.alloc(), errors, file, found.len());
}

/// Says it of a file of so many bytes, if it takes long, as far as it can be written.
#[tactic(auto, using(operations::proofs::Beginnings::nothing_written))]
fn tell_size<E: Write>(alloc: Global, errors: &mut E, file: LongFile<'_>, size: u64)
    ensures { WritesBeginning (E.contents errors.old) (E.contents errors.new)
        (line_text (work_line (work_of file.entry) size)) }
{
    match work_line(alloc, file, size) {
        Ok(Some(line)) => tell_line(errors, line.as_str()),
        Ok(None) => {}
        Err(_) => {}
    }
}

/// The line of a file of so many bytes; None if it doesn't take long.
// rule: terminal
fn work_line(alloc: Global, file: LongFile<'_>, size: u64) -> Result<Option<String>, AllocError>
    ensures { IfOk result (λ line.
        option_map string_bytes line ≡ work_line (work_of file.entry) size) }
{
    if size < file.least {
        return Ok(None);
    }
    let doing = file.doing;
    let path = file.path.as_str();
    let megabytes = size / 1_000_000;
    let line = format!(in alloc; "ocs: {doing} {path}, {megabytes} MB")?;
    Ok(Some(line))
}

/// The database that words open, or bring to the latest version.
// rule: terminal.long-files
fn database_file(said: &ProgramWords) -> Option<LongFile<'_>>
    ensures { option_map work_of result ≡ database_work said.now }
{
    match said {
        ProgramWords::Once(_) => None,
        ProgramWords::Init(_) => None,
        ProgramWords::Migrate(migrate) => Some(over_rows("migrating", &migrate.database)),
        ProgramWords::Book(book) => Some(over_rows("opening", &book.database)),
        ProgramWords::Serve(serve) => Some(over_rows("opening", &serve.database)),
        ProgramWords::Import(import) => Some(over_rows("opening", &import.database)),
        ProgramWords::Office(office) => Some(over_rows("opening", &office.database)),
        ProgramWords::Statement(statement) => Some(over_rows("opening", &statement.database)),
        ProgramWords::Clock(clock) => Some(over_rows("opening", &clock.database)),
        ProgramWords::Replay(replay) => Some(over_rows("opening", &replay.database)),
    }
}

/// The file whose lines words carry out.
// rule: terminal.long-files
fn input_file(said: &ProgramWords) -> Option<LongFile<'_>>
    ensures { option_map work_of result ≡ input_work said.now }
{
    match said {
        ProgramWords::Import(import) => Some(over_lines("importing", &import.file)),
        ProgramWords::Replay(replay) => Some(over_lines("replaying", &replay.file)),
        _ => None,
    }
}

/// A database each of whose rows is read.
fn over_rows<'a>(doing: &'a str, path: &'a FilePath) -> LongFile<'a>
    ensures { work_of result ≡ over_rows doing.entry.now path.entry.now }
{
    LongFile {
        doing,
        path,
        least: LONG_DATABASE,
    }
}

/// A file each of whose lines is a command.
fn over_lines<'a>(doing: &'a str, path: &'a FilePath) -> LongFile<'a>
    ensures { work_of result ≡ over_lines doing.entry.now path.entry.now }
{
    LongFile {
        doing,
        path,
        least: LONG_INPUT,
    }
}
