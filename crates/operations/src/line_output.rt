//! What lines are answered, written.

ghost use Rattle.std.specs.Prelude.{◌≡◌, ◌≢◌, map, option_map, string_bytes, IfErr, IfOk, OnErr};
ghost use Rattle.std.specs.Prelude.{OnOk};
ghost use Rattle.std.specs.Io.KnownBytes.{Appends};
ghost use Rattle.texts.specs.declared.streams.StreamFault.TheVariants.{Read as ReadFailed};
ghost use Rattle.operations.specs.LinesServed.{answer_texts};
ghost use Rattle.operations.specs.LineInput.{kept_fault};
ghost use Rattle.operations.specs.LineOutput.{answered_line};
ghost use Rattle.operations.specs.Written.{WritesBeginning};

use crate::line_input::Line;
use crate::writing::write_line;
use std::alloc::{AllocError, Global};
use std::io::Write;
use texts::StreamFault;
use wire::{WrittenAnswer, write_fault};

/// Writes what each line is answered: its fault, or the next answer. It ends at the first request
/// that has no answer.
pub(crate) fn write_output<W: Write>(
    alloc: Global,
    writer: &mut W,
    lines: &[Line],
    answers: &[WrittenAnswer],
) -> Result<(), StreamFault>
    ensures written { OnOk result (Appends (W.contents writer.old) (W.contents writer.new)
        (answer_texts (map kept_fault lines.now) answers.now)) }
    ensures err { OnErr result (WritesBeginning (W.contents writer.old) (W.contents writer.new)
        (answer_texts (map kept_fault lines.now) answers.now)) }
    ensures fault { IfErr result (λ fault. fault ≢ ReadFailed) }
{
    let mut next = 0;
    for line in lines {
        let Some(text) = line_text(alloc, *line, answers.get(next))? else {
            return Ok(());
        };
        write_line(writer, text)?;
        if line.is_request() {
            next += 1;
        }
    }
    Ok(())
}

/// What a line is answered: its fault, or the answer, where there is one.
fn line_text(
    alloc: Global,
    line: Line,
    answer: Option<&WrittenAnswer>,
) -> Result<Option<String>, AllocError>
    ensures { IfOk result (λ text. option_map string_bytes text
        ≡ answered_line (kept_fault line) (option_map (λ a. a.now) answer.entry)) }
{
    match (line, answer) {
        (Line::Fault(fault), _) => Ok(Some(write_fault(alloc, fault.into())?)),
        (Line::Request, Some(answer)) => Ok(Some(answer.to_text()?)),
        (Line::Request, None) => Ok(None),
    }
}
