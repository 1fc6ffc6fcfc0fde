//! What a head says.

ghost use Rattle.std.specs.Prelude.{◌≡◌, ◌≤◌, ◌*◌, length, IfOk, IfSome, IfNone};
ghost use Rattle.std.specs.Prelude.{string_bytes};
ghost use Rattle.http.specs.Token.{IsToken};
ghost use Rattle.httparse.specs.Grammar.{RequestHead};
ghost use Rattle.httparse.specs.Spans.{IsRequestAt, IsRequestWithin};
ghost use Rattle.http_messages.specs.MessageParts.{IsHead};
ghost use Rattle.http_messages.specs.RequestsGiven.{IsHeadIn};

use crate::fields::{body_length, count_closing};
use http::method::MethodError;
use http::{Method, StatusCode};
use httparse::Status as ParseStatus;
use httparse::spans::{HeaderSpan, RequestSpans, parse_request};
use std::alloc::{AllocError, Global};

/// What a head says.
#[derive(Drop)]
pub struct HttpHead {
    /// The method.
    pub method: Method,
    /// The target, byte by byte as it was sent.
    pub target: String,
    /// The length of the body in bytes, or why the request is refused.
    pub length: Result<usize, StatusCode>,
    /// Whether the connection ends after the request.
    pub closes: bool,
}

/// The head that a head part is as a whole, if it is one.
fn whole_head(part: &[u8], room: &mut [HeaderSpan]) -> Option<RequestSpans>
    requires room { length part.now ≤ 3 * length room.old }
    ensures within { IfSome result (IsRequestWithin part.now room.new) }
    ensures head { IfSome result (λ spans. (head : RequestHead) × IsHead part.now head
        × IsRequestAt part.now room.new spans head) }
    ensures none { IfNone result ((head : RequestHead) → ¬ (IsHead part.now head)) }
{
    match parse_request(part, room) {
        Ok(ParseStatus::Complete(spans)) => {
            if spans.len == part.len() {
                Some(spans)
            } else {
                None
            }
        }
        Ok(ParseStatus::Partial) => None,
        Err(_) => None,
    }
}

/// The method of these bytes; none where they are no token.
///
/// # Errors
/// A growth was refused.
fn method_of(alloc: Global, bytes: &[u8]) -> Result<Option<Method>, AllocError>
    ensures some { IfOk result (λ found. IfSome found (λ method. method ≡ bytes.now)) }
    ensures none { IfOk result (λ found. IfNone found (¬ (IsToken bytes.now))) }
{
    match Method::from_bytes(alloc, bytes) {
        Ok(method) => Ok(Some(method)),
        Err(MethodError::Invalid) => Ok(None),
        Err(MethodError::OutOfMemory) => Err(AllocError),
    }
}

/// A text, in the memory of another.
///
/// # Errors
/// A growth was refused.
fn written_over(memory: String, text: &str) -> Result<String, AllocError>
    ensures { IfOk result (λ written. string_bytes written ≡ text.now) }
{
    let mut written = memory;
    written.clear();
    written.push_str(text)?;
    Ok(written)
}

/// What a head part says as a whole; none where it is no head (RFC 9112 sections 3 and 5). Its
/// target is put into `memory`.
///
/// # Errors
/// A growth was refused.
pub(crate) fn read_head(
    alloc: Global,
    part: &[u8],
    room: &mut [HeaderSpan],
    memory: String,
) -> Result<Option<HttpHead>, AllocError>
    requires room { length part.now ≤ 3 * length room.old }
    ensures { IfOk result (IsHeadIn part.now) }
{
    let Some(spans) = whole_head(part, room) else {
        return Ok(None);
    };
    let Ok(target) = str::from_utf8(spans.path.of(part)) else {
        return Ok(None);
    };
    let target = written_over(memory, target)?;
    let Some(method) = method_of(alloc, spans.method.of(part))? else {
        return Ok(None);
    };
    let fields = &room[..spans.headers];
    let length = body_length(&method, part, fields);
    let closes = spans.version == 0 || count_closing(part, fields) > 0;
    Ok(Some(HttpHead {
        method,
        target,
        length,
        closes,
    }))
}
