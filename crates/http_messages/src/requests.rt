//! A request with its body, taken off a stream.

ghost use Rattle.std.specs.Prelude.{◌≤◌, length, IfOk, IsErrOf, IfSome};
ghost use Rattle.httparse.specs.Grammar.{RequestHead};
ghost use Rattle.http_messages.specs.Parts.{Part, whole, first_part, IsHeadPart, IsShortHead};
ghost use Rattle.http_messages.specs.Requests.{after_head};
ghost use Rattle.http_messages.specs.RequestsGiven.{TellsNext, IsHeadOf, IsNextTaken, SaysStatus};
ghost use Rattle.http_messages.specs.Words.{most_head};

use crate::buffers::Buffers;
use crate::head::{HttpHead, read_head};
use crate::head_part::{HeadPart, next_head_part};
use http::{Method, StatusCode};
use std::alloc::Global;
use std::io::BufRead;
use texts::{StreamFault, next_bytes};

/// A request of HTTP that was read whole: what its head part says of it, and its body.
#[derive(Debug, Drop)]
pub struct HttpRequest {
    /// The method.
    pub method: Method,
    /// The target, byte by byte as it was sent.
    pub target: String,
    /// Whether the connection ends after it.
    pub closes: bool,
    /// The body; empty where there is none.
    pub body: Vec<u8>,
}

/// What comes next in a stream.
#[derive(Drop)]
pub enum Taken {
    /// The next request, with its body.
    Request(HttpRequest),
    /// A refusal, after which nothing more is read.
    Refused(StatusCode),
    /// The stream ends before a request does.
    Ended,
}

/// Takes the next request off a stream, into the memory of `buffers`: its head part, and the body
/// that the head speaks of.
///
/// # Errors
/// `Memory` where a growth was refused, `Read` where the reader failed.
// rule: http-head, http-length, http-answer.answer-status
pub fn next_request<R: BufRead>(
    alloc: Global,
    reader: &mut R,
    buffers: &mut Buffers,
) -> Result<Taken, StreamFault>
    ensures next { IfOk result (λ taken. IfSome (R.remaining reader.old)
        (λ stream. TellsNext (first_part stream) taken (R.remaining reader.new))) }
    ensures status { IfOk result SaysStatus }
    ensures fault { IsErrOf result StreamFault.Write → ⊥ }
{
    let part = next_head_part(reader, buffers.lend_part(alloc))?;
    after_part(alloc, reader, part, buffers)
}

/// The request that begins with what a stream begins with.
fn after_part<R: BufRead>(
    alloc: Global,
    reader: &mut R,
    part: HeadPart,
    buffers: &mut Buffers,
) -> Result<Taken, StreamFault>
    requires short { IsShortHead part }
    ensures next { IfOk result (λ taken. (begun : Part) → IsHeadPart begun part
        (R.remaining reader.old) → TellsNext begun taken (R.remaining reader.new)) }
    ensures status { IfOk result SaysStatus }
    ensures fault { IsErrOf result StreamFault.Write → ⊥ }
{
    match part {
        HeadPart::Whole(part) => {
            let taken = after_bytes(alloc, reader, part.as_slice(), buffers);
            buffers.keep_part(part);
            taken
        }
        HeadPart::TooLong => Ok(Taken::Refused(StatusCode::REQUEST_HEADER_FIELDS_TOO_LARGE)),
        HeadPart::Ended => Ok(Taken::Ended),
    }
}

/// The request that begins with a head part.
fn after_bytes<R: BufRead>(
    alloc: Global,
    reader: &mut R,
    part: &[u8],
    buffers: &mut Buffers,
) -> Result<Taken, StreamFault>
    requires short { length part.now ≤ most_head }
    ensures next { IfOk result (λ taken. IfSome (R.remaining reader.old)
        (λ rest. TellsNext (whole part.now rest) taken (R.remaining reader.new))) }
    ensures status { IfOk result SaysStatus }
    ensures fault { IsErrOf result StreamFault.Write → ⊥ }
{
    let target = buffers.lend_target(alloc);
    let head = read_head(alloc, part, buffers.fields(), target)?;
    match head {
        None => Ok(Taken::Refused(StatusCode::BAD_REQUEST)),
        Some(head) => with_body(alloc, reader, head),
    }
}

/// The request of a head, with its body.
// rule: http-body
fn with_body<R: BufRead>(
    alloc: Global,
    reader: &mut R,
    head: HttpHead,
) -> Result<Taken, StreamFault>
    ensures tells { IfOk result (λ taken. IfSome (R.remaining reader.old)
        (λ rest. (said : RequestHead) → IsHeadOf said head →
        IsNextTaken (after_head said rest) taken (R.remaining reader.new))) }
    ensures status { IfOk result (λ taken. (said : RequestHead) → IsHeadOf said head →
        SaysStatus taken) }
    ensures fault { IsErrOf result StreamFault.Write → ⊥ }
{
    let length = match head.length {
        Ok(length) => length,
        Err(status) => return Ok(Taken::Refused(status)),
    };
    match next_bytes(alloc, reader, length)? {
        None => Ok(Taken::Ended),
        Some(body) => Ok(Taken::Request(HttpRequest {
            method: head.method,
            target: head.target,
            closes: head.closes,
            body,
        })),
    }
}
