//! Answers, written. They leave as soon as no more requests have come.

ghost use Rattle.std.specs.Prelude.{◌≡◌, Err, OnErr};
ghost use Rattle.std.specs.Io.KnownBytes.{Keeps};
ghost use Rattle.wire.specs.Spelled.{answer_text};
ghost use Rattle.http_messages.specs.Refusals.{refusal_status};
ghost use Rattle.http_messages.specs.Statuses.{ok, service_unavailable};
ghost use Rattle.http_messages.specs.Texts.{response, no_members, unable, AnswersFault};
ghost use Rattle.http_messages.specs.Texts.{AnswersText};
ghost use Rattle.http_messages.specs.Texts.{WritesText, WritesTold};

use http::StatusCode;
use http_messages::{HttpRefusal, tell_json};
use json_fields::WireFault;
use std::alloc::Global;
use std::io::Write;
use texts::StreamFault;
use wire::WrittenAnswer;

/// What comes after an answer.
#[derive(Clone, Copy)]
pub(crate) struct Following {
    /// Whether the connection ends after it.
    pub(crate) closes: bool,
    /// Whether more bytes have come already.
    pub(crate) more: bool,
}

/// Lets an answer leave, unless more bytes have come: then it may leave with the next one.
///
/// # Errors
/// `Write` where the writer failed.
// rule: http-leave
fn leave<W: Write>(writer: &mut W, following: Following) -> Result<(), StreamFault>
    ensures kept { Keeps (W.contents writer.old) (W.contents writer.new) }
    ensures fault { OnErr result (result ≡ Err StreamFault.Write) }
{
    if following.more {
        return Ok(());
    }
    writer.flush().map_err(|_| StreamFault::Write)
}

/// Writes that a request is refused; this takes no memory.
///
/// # Errors
/// `Write` where the writer failed. Then a beginning of it is written.
pub(crate) fn tell_refusal<W: Write>(
    writer: &mut W,
    refusal: HttpRefusal,
    following: Following,
) -> Result<(), StreamFault>
    ensures { WritesText (response (refusal_status refusal) following.closes no_members)
        (W.contents writer.old) (W.contents writer.new) result }
{
    http_messages::tell_refusal(writer, refusal, following.closes)?;
    leave(writer, following)
}

/// Writes that there is no memory, no store or no clock; this takes no memory.
///
/// # Errors
/// `Write` where the writer failed. Then a beginning of it is written.
pub(crate) fn tell_unable<W: Write>(writer: &mut W, following: Following) -> Result<(), StreamFault>
    ensures { WritesText (response service_unavailable following.closes unable)
        (W.contents writer.old) (W.contents writer.new) result }
{
    http_messages::tell_unable(writer, following.closes)?;
    leave(writer, following)
}

/// Writes the answer to a request that isn't read, or that there is no memory.
///
/// # Errors
/// `Write` where the writer failed. Then a beginning of it is written.
pub(crate) fn tell_fault<W: Write>(
    alloc: Global,
    writer: &mut W,
    fault: WireFault,
    following: Following,
) -> Result<(), StreamFault>
    ensures { WritesTold (AnswersFault following.closes fault) (W.contents writer.old)
        (W.contents writer.new) result }
{
    http_messages::tell_fault(alloc, writer, fault, following.closes)?;
    leave(writer, following)
}

/// Writes an answer 200 whose body is a text, or that there is no memory.
///
/// # Errors
/// `Write` where the writer failed. Then a beginning of it is written.
// rule: http-leave
pub(crate) fn tell_text<W: Write>(
    alloc: Global,
    writer: &mut W,
    body: &[u8],
    following: Following,
) -> Result<(), StreamFault>
    ensures { WritesTold (AnswersText following.closes ok body.now) (W.contents writer.old)
        (W.contents writer.new) result }
{
    http_messages::tell_text(alloc, writer, StatusCode::OK, following.closes, body)?;
    leave(writer, following)
}

/// Writes the answer to a command, whose text was made before anything was committed: this takes no
/// memory.
///
/// # Errors
/// `Write` where the writer failed. Then a beginning of the answer is written.
// rule: http-leave, http-unanswered
pub(crate) fn tell_answer<W: Write>(
    writer: &mut W,
    answer: &WrittenAnswer,
    following: Following,
) -> Result<(), StreamFault>
    ensures { WritesText (response ok following.closes (answer_text answer.now))
        (W.contents writer.old) (W.contents writer.new) result }
{
    tell_json(writer, following.closes, answer.text().as_bytes())?;
    leave(writer, following)
}
