//! Texts that are written together.

ghost use Rattle.std.specs.Prelude.{◌≡◌, ◌≤◌, ◌++◌, [], true, false, length, Err, OnOk, OnErr};
ghost use Rattle.std.specs.Io.KnownBytes.{Appends, append_known};
ghost use Rattle.http_messages.specs.Texts.{AppendsBeginning};
ghost use Rattle.http_api.specs.Words.{most_waiting};

use http_messages::write_text;
use std::io::Write;
use texts::StreamFault;

/// The most bytes that wait to be written together (profile).
pub const MAX_WAITING: usize = 8192;

/// Adds a text to what waits, and answers whether it was added: not where more than 8,192 bytes
/// would wait, or where the growth is refused.
fn adds(waiting: &mut Vec<u8>, text: &[u8]) -> bool
    ensures added { result ≡ true → waiting.new.items ≡ waiting.old.items ++ text.now }
    ensures other { result ≡ false → waiting.new.items ≡ waiting.old.items }
    ensures bounded { length waiting.old.items ≤ most_waiting
        → length waiting.new.items ≤ most_waiting }
{
    if text.len() > MAX_WAITING.saturating_sub(waiting.len()) {
        return false;
    }
    waiting.extend_from_slice(text).is_ok()
}

/// Writes what waits. Then nothing waits, also where the writer failed.
///
/// # Errors
/// `Write` where the writer failed. Then a beginning of what waits is written.
// rule: http-end
pub(crate) fn write_waiting<W: Write>(
    writer: &mut W,
    waiting: &mut Vec<u8>,
) -> Result<(), StreamFault>
    ensures ok { OnOk result
        (Appends (W.contents writer.old) (W.contents writer.new) waiting.old.items) }
    ensures err { OnErr result
        (AppendsBeginning (W.contents writer.old) (W.contents writer.new) waiting.old.items) }
    ensures none { waiting.new.items ≡ [] }
    ensures fault { OnErr result (result ≡ Err StreamFault.Write) }
{
    let written = write_text(writer, waiting.as_slice());
    waiting.clear();
    written
}

/// Writes what waits, and then a text.
fn write_after<W: Write>(
    writer: &mut W,
    waiting: &mut Vec<u8>,
    text: &[u8],
) -> Result<(), StreamFault>
    ensures ok { OnOk result (Appends (W.contents writer.old) (W.contents writer.new)
        (waiting.old.items ++ text.now)) }
    ensures err { OnErr result (AppendsBeginning (W.contents writer.old) (W.contents writer.new)
        (waiting.old.items ++ text.now)) }
    ensures none { waiting.new.items ≡ [] }
    ensures fault { OnErr result (result ≡ Err StreamFault.Write) }
{
    write_waiting(writer, waiting)?;
    write_text(writer, text)
}

/// Adds a text to what waits to be written; where it finds no room there, both are written. So what
/// is written and what waits, together, grow by the text.
///
/// # Errors
/// `Write` where the writer failed. Then a beginning of both is written, and nothing waits.
// rule: http-end
pub(crate) fn join<W: Write>(
    writer: &mut W,
    waiting: &mut Vec<u8>,
    text: &[u8],
) -> Result<(), StreamFault>
    ensures ok { OnOk result (Appends (append_known (W.contents writer.old) waiting.old.items)
        (append_known (W.contents writer.new) waiting.new.items) text.now) }
    ensures err { OnErr result (AppendsBeginning (W.contents writer.old) (W.contents writer.new)
        (waiting.old.items ++ text.now)) }
    ensures bounded { length waiting.old.items ≤ most_waiting
        → length waiting.new.items ≤ most_waiting }
    ensures fault { OnErr result (result ≡ Err StreamFault.Write) }
{
    if adds(waiting, text) {
        return Ok(());
    }
    write_after(writer, waiting, text)
}
