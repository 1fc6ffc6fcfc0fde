//! The lines of faults on standard error.

ghost use Rattle.std.specs.Prelude.{◌≡◌, ◌++◌, ◌∷◌, []};
ghost use Rattle.clap.specs.Words.{kind_of};
ghost use Rattle.operations.specs.Written.{WritesBeginning};
ghost use Rattle.operations.specs.declared.status.Status.TheVariants.{Failed, Unread};
ghost use Rattle.ocs.specs.Ends.{IsEndOf, IsEndOfKind, IsMemory, is_text};
ghost use Rattle.operator.specs.Arguments.{argument_line};
ghost use Rattle.ocs.specs.Told.{IsTextTold, IsToldOf, fault_line};
ghost use Rattle.ocs.specs.declared.fault.ProgramFault.TheVariants.{Stream};

use crate::fault::ProgramFault;
use clap::Error;
use clap::error::ErrorKind;
use operations::{Status, tell_line};
use operator::{Argument, WordsFault};
use std::alloc::Global;
use std::io::{self, Write};
use texts::{StreamFault, write_whole};

/// Reports that a word isn't what this operand or option takes, as far as it can be written.
// rule: exit-status
fn tell_invalid<E: Write>(errors: &mut E, argument: Argument) -> Status
    ensures status { result ≡ Unread }
    ensures told { WritesBeginning (E.contents errors.old) (E.contents errors.new)
        (argument_line argument ++ 10 ∷ []) }
{
    tell_line(errors, argument.line());
    Status::Unread
}

/// Reports a fault by its line, as far as it can be written.
pub(crate) fn tell_fault<E: Write>(errors: &mut E, fault: ProgramFault) -> Status
    ensures status { result ≡ Failed }
    ensures told { WritesBeginning (E.contents errors.old) (E.contents errors.new)
        (fault_line fault ++ 10 ∷ []) }
{
    operations::tell_fault(errors, fault.line(), fault.number(), fault.place());
    Status::Failed
}

/// Reports a fault of a stream, or lack of memory.
fn tell_stream<E: Write>(errors: &mut E, fault: StreamFault) -> Status
    ensures status { result ≡ Failed }
    ensures told { WritesBeginning (E.contents errors.old) (E.contents errors.new)
        (fault_line (Stream fault) ++ 10 ∷ []) }
{
    tell_fault(errors, ProgramFault::Stream(fault))
}

/// Whether an error of this kind is a text that the words ask for.
fn is_text(kind: ErrorKind) -> bool
    ensures { result ≡ is_text kind }
{
    matches!(kind, ErrorKind::DisplayHelp | ErrorKind::DisplayVersion)
}

/// Reports an error of `clap` by its text: the help and the version on the output, any other on the
/// errors.
fn tell_error<O: Write, E: Write>(
    alloc: Global,
    error: &Error,
    output: &mut O,
    errors: &mut E,
) -> Status
    ensures end { IsEndOfKind (kind_of error.now) result }
    ensures told { IsTextTold result (E.contents errors.old) (E.contents errors.new) }
    ensures unwritten { result ≡ Unread → output.new ≡ output.old }
{
    let Ok(text) = format!(in alloc; "{error}") else {
        return tell_stream(errors, StreamFault::Memory);
    };
    if !is_text(error.kind()) {
        let _ = write_whole(errors, text.as_bytes());
        return Status::Unread;
    }
    let written = write_whole(output, text.as_bytes());
    match written {
        Ok(()) => Status::Done,
        Err(fault) => tell_stream(errors, fault),
    }
}

/// Reports why words weren't read.
pub(crate) fn tell_unread<O: Write, E: Write>(
    alloc: Global,
    fault: WordsFault,
    output: &mut O,
    errors: &mut E,
) -> Status
    ensures end { IsEndOf fault result }
    ensures told { IsToldOf fault result (E.contents errors.old) (E.contents errors.new) }
    ensures unwritten { result ≡ Unread → output.new ≡ output.old }
    ensures memory { IsMemory fault → output.new ≡ output.old }
{
    match fault {
        WordsFault::Unread(error) => tell_error(alloc, &error, output, errors),
        WordsFault::Invalid(argument) => tell_invalid(errors, argument),
        WordsFault::Memory => tell_stream(errors, StreamFault::Memory),
    }
}

/// Reports why the words that the program is started with weren't handed over: one isn't text, or
/// memory was refused.
pub(crate) fn tell_start<E: Write>(errors: &mut E, kind: io::ErrorKind) -> Status {
    if kind == io::ErrorKind::InvalidData {
        tell_line(errors, "ocs: a word is not UTF-8");
        return Status::Unread;
    }
    tell_stream(errors, StreamFault::Memory)
}
