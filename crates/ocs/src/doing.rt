//! What the words ask for, done.

ghost use Rattle.std.specs.Prelude.{◌≡◌, IfErr, IfOk, IfSome, OnOk, OnErr};
ghost use Rattle.std.specs.Io.KnownBytes.{Appends};
ghost use Rattle.operations.specs.Printed.{IsEnded};
ghost use Rattle.operations.specs.Written.{WritesBeginning};
ghost use Rattle.tariffs.specs.OnceBook.{once_book};
ghost use Rattle.operator.specs.Read.{IsInRange, IsOnceInRange};
ghost use Rattle.ocs.specs.Ends.{HasBegun, HasPrinted, IfOnce, PrintsRefusal};
ghost use Rattle.ocs.specs.Faults.{IsFaultOf, IsOnceFault};
ghost use Rattle.ocs.specs.Told.{IfLines, IsSilent, IsToldAtEnd, done_line};
ghost use Rattle.operations.specs.LinesFaults.{AreUnread};
ghost use Rattle.operations.specs.Once.{BeginsOnce, WritesOnce};

use crate::fault::ProgramFault;
use crate::making::{answer_book, answer_init, answer_migrate};
use crate::replaying::answer_replay;
use crate::serving::answer_serve;
use crate::storing::{answer_clock, answer_import, answer_office, answer_statement};
use operations::{Status, once_lines};
use operator::{OnceWords, ProgramWords};
use std::alloc::Global;
use std::fs::Files;
use std::io::{Read, Write};

/// Does what the words say; the lines of a file are read of `files`. The status is `Failed` where
/// an operator's command or a statement is refused.
///
/// # Errors
/// Each word has its own:
/// - `once` one of lines over memory;
/// - `init`, `migrate` and `book` one of the database or of the writer;
/// - `serve` one before the first connection;
/// - `import` one of the file or of its command;
/// - an operator's command and a statement their command's;
/// - `clock` one of the database or of writing its lines;
/// - `replay` one of a file, of the database or of the lines.
pub(crate) fn do_said<F: Files, I: Read, O: Write, E: Write>(
    rt: &HostRuntime,
    files: &F,
    said: ProgramWords,
    input: &mut I,
    output: &mut O,
    errors: &mut E,
) -> Result<Status, ProgramFault>
    requires { IsInRange said }
    ensures ended { IfOk result (IsEnded
        (PrintsRefusal said (O.contents output.old) (O.contents output.new))) }
    ensures answered { IfOk result
        (HasPrinted F.File.remaining said (O.contents output.old) (O.contents output.new)) }
    ensures started { OnErr result
        (HasBegun F.File.remaining said (O.contents output.old) (O.contents output.new)) }
    ensures reached { IfErr result (IsFaultOf said) }
    ensures told { OnOk result (IsToldAtEnd said (E.contents errors.old) (E.contents errors.new)) }
    ensures untold { OnErr result (errors.new ≡ errors.old) }
    ensures silent { IfErr result (λ fault. IsSilent said fault → output.new ≡ output.old) }
    ensures printed { IfSome (done_line said) (λ line. OnOk result
        (Appends (O.contents output.old) (O.contents output.new) line)) }
    ensures begun { IfSome (done_line said) (λ line. OnErr result
        (WritesBeginning (O.contents output.old) (O.contents output.new) line)) }
    ensures unread { IfOnce said (λ _. ⊥) → input.new ≡ input.old }
    ensures done { IfOnce said (λ once. OnOk result (WritesOnce (once_book once.price once.block)
        once.credit (I.remaining input.old) (O.contents output.old) (O.contents output.new))) }
    ensures fault { IfOnce said (λ once. OnErr result (BeginsOnce (once_book once.price once.block)
        once.credit (I.remaining input.old) (O.contents output.old) (O.contents output.new))) }
{
    match said {
        ProgramWords::Once(once) => answer_once(rt.alloc(), once, input, output),
        ProgramWords::Init(init) => answer_init(rt, &init, output),
        ProgramWords::Migrate(migrate) => answer_migrate(rt, &migrate, output),
        ProgramWords::Book(book) => answer_book(rt, &book, output),
        ProgramWords::Serve(serve) => answer_serve(rt, &serve, output, errors),
        ProgramWords::Import(import) => answer_import(rt, import, output),
        ProgramWords::Office(office) => answer_office(rt, office, output),
        ProgramWords::Statement(statement) => answer_statement(rt, statement, output),
        ProgramWords::Clock(clock) => answer_clock(rt, &clock, output),
        ProgramWords::Replay(replay) => answer_replay(rt, files, &replay, output),
    }
}

/// Answers the lines of the input, priced by the book of the words.
fn answer_once<I: Read, O: Write>(
    alloc: Global,
    once: OnceWords,
    input: &mut I,
    output: &mut O,
) -> Result<Status, ProgramFault>
    requires { IsOnceInRange once }
    ensures ended { IfOk result (IsEnded ⊥) }
    ensures reached { IfErr result IsOnceFault }
    ensures unwritten { IfErr result (λ fault. IfLines fault AreUnread → output.new ≡ output.old) }
    ensures done { OnOk result (WritesOnce (once_book once.price once.block) once.credit
        (I.remaining input.old) (O.contents output.old) (O.contents output.new)) }
    ensures fault { OnErr result (BeginsOnce (once_book once.price once.block) once.credit
        (I.remaining input.old) (O.contents output.old) (O.contents output.new)) }
{
    once_lines(alloc, once.credit, once.price, once.block, input, output)?;
    Ok(Status::Done)
}
