//! Lines of answers.

ghost use Rattle.std.specs.Prelude.{◌++◌, ◌∷◌, [], string_bytes};
ghost use Rattle.operations.specs.Told.{answer_line};
ghost use Rattle.operations.specs.Written.{PrintsText};

use std::io::Write;
use texts::{StreamFault, write_whole};
use wire::WrittenAnswer;

/// Writes a text and a line feed.
///
/// # Errors
/// `Memory` where memory was refused, `Write` where the writer failed: then a beginning of the line
/// is written.
pub fn write_line<W: Write>(writer: &mut W, text: String) -> Result<(), StreamFault>
    ensures { PrintsText (string_bytes text ++ 10 ∷ []) (W.contents writer.old)
        (W.contents writer.new) result }
{
    let mut line = text;
    line.push('\n')?;
    write_whole(writer, line.as_bytes())?;
    Ok(())
}

/// Writes an answer as a line, its text as it is; this takes no memory.
///
/// # Errors
/// `Write` where the writer failed: then a beginning of the line is written.
pub(crate) fn write_answer_line<W: Write>(
    writer: &mut W,
    answer: &WrittenAnswer,
) -> Result<(), StreamFault>
    ensures { PrintsText (answer_line answer.now) (W.contents writer.old) (W.contents writer.new)
        result }
{
    write_whole(writer, answer.text().as_bytes())?;
    write_whole(writer, b"\n")?;
    Ok(())
}
