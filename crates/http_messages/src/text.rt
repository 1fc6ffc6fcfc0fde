//! The bytes of an answer of HTTP.

ghost use Rattle.std.specs.Prelude.{◌≡◌, ◌++◌, IfOk, OnOk, OnErr, IfSome, None, true, false};
ghost use Rattle.std.specs.Prelude.{string_bytes, codes, Err};
ghost use Rattle.std.specs.Fmt.{decimal};
ghost use Rattle.json_fields.specs.declared.fault.WireFault.TheVariants.{Memory, NotRequest};
ghost use Rattle.std.specs.Io.KnownBytes.{Appends};
ghost use Rattle.http_messages.specs.Statuses.{bad_request, ok, service_unavailable};
ghost use Rattle.wire.specs.Spelled.{fault_text};
ghost use Rattle.http_messages.specs.declared.text.Media.TheVariants.{Text};
ghost use Rattle.http_messages.specs.Texts.{phrase, closing_line, response};
ghost use Rattle.http_messages.specs.MessageParts.{type_and_length};
ghost use Rattle.http_messages.specs.Texts.{unable, AppendsBeginning, AnswersText, AnswersFault};
ghost use Rattle.http_messages.specs.MessageParts.{text_head};
ghost use Rattle.http_messages.specs.Texts.{WritesText, WritesTold};

use http::StatusCode;
use std::alloc::{AllocError, Global};
use std::io::Write;
use texts::{StreamFault, write_whole};
use wire::{WireFault, write_fault};

/// What the body of an answer is.
#[derive(Clone, Copy)]
pub enum Media {
    /// `application/json`.
    Json,
    /// `text/plain`.
    Text,
}

/// The answer where there is no memory, no store or no clock.
const UNABLE: &[u8] =
    b"HTTP/1.1 503 Service Unavailable\r\nContent-Type: application/json\r\nContent-Length: 20\r\n\r\n{\"Result-Code\":5012}";

/// The answer where there is no memory, no store or no clock, before the connection ends.
const UNABLE_AT_LAST: &[u8] =
    b"HTTP/1.1 503 Service Unavailable\r\nContent-Type: application/json\r\nContent-Length: 20\r\nConnection: close\r\n\r\n{\"Result-Code\":5012}";

/// The answer to a request that is no JSON object.
const NOT_REQUEST: &[u8] =
    b"HTTP/1.1 400 Bad Request\r\nContent-Type: application/json\r\nContent-Length: 20\r\n\r\n{\"Result-Code\":5012}";

/// The answer to a request that is no JSON object, before the connection ends.
const NOT_REQUEST_AT_LAST: &[u8] =
    b"HTTP/1.1 400 Bad Request\r\nContent-Type: application/json\r\nContent-Length: 20\r\nConnection: close\r\n\r\n{\"Result-Code\":5012}";

/// The head of an answer 200 whose body is JSON, up to its length.
const OK_AND_LENGTH: &[u8] =
    b"HTTP/1.1 200 OK\r\nContent-Type: application/json\r\nContent-Length: ";

/// The most bytes of an answer's head.
const MOST_OF_HEAD: usize = 136;

/// The phrase of a status; empty where it has none.
fn phrase(status: StatusCode) -> &'static str
    ensures { result.now ≡ phrase status }
{
    status.canonical_reason().unwrap_or("")
}

/// The line that says that the connection ends.
fn closing_line(closes: bool) -> &'static str
    ensures { result.now ≡ closing_line closes }
{
    if closes { "Connection: close\r\n" } else { "" }
}

/// The bytes of an answer.
///
/// # Errors
/// The growth of its text was refused.
// rule: http-answer, http-answer.answer-status
pub fn response(
    alloc: Global,
    status: StatusCode,
    closes: bool,
    body: &str,
) -> Result<String, AllocError>
    ensures { IfOk result (λ s. string_bytes s ≡ response status closes body.now) }
{
    let code = status.as_u16();
    let phrase = phrase(status);
    let closing = closing_line(closes);
    let length = body.len();
    let mut text = String::with_capacity(alloc, MOST_OF_HEAD + length)?;
    write!(
        text,
        "HTTP/1.1 {code} {phrase}\r\nContent-Type: application/json\r\nContent-Length: {length}\r\n{closing}\r\n{body}"
    )?;
    Ok(text)
}

/// The head of an answer 200 whose body is JSON, up to its length.
fn ok_and_length() -> &'static [u8]
    ensures { result.now ≡ codes "HTTP/1.1 " ++ (decimal ok ++ (codes " " ++ (phrase ok
        ++ type_and_length))) }
{
    OK_AND_LENGTH
}

/// What is between the length of an answer and its body.
fn after_length(closes: bool) -> &'static [u8]
    ensures { result.now ≡ codes "\r\n" ++ (closing_line closes ++ codes "\r\n") }
{
    if closes {
        b"\r\nConnection: close\r\n\r\n"
    } else {
        b"\r\n\r\n"
    }
}

/// Writes the answer 200 whose body is this JSON, its head and then its body; this takes no memory.
///
/// # Errors
/// `Write` where the writer failed. Then a beginning of it is written.
// rule: http-unanswered
pub fn tell_json<W: Write>(writer: &mut W, closes: bool, body: &[u8]) -> Result<(), StreamFault>
    ensures ok { OnOk result (Appends (W.contents writer.old) (W.contents writer.new)
        (response ok closes body.now)) }
    ensures err { OnErr result (AppendsBeginning (W.contents writer.old) (W.contents writer.new)
        (response ok closes body.now)) }
    ensures fault { OnErr result (result ≡ Err StreamFault.Write) }
{
    let mut digits = itoa::Buffer::new();
    let length = digits.format(body.len());
    write_both(writer, ok_and_length(), length.as_bytes())?;
    write_both(writer, after_length(closes), body)
}

/// The bytes of an answer where there is no memory, no store or no clock.
fn unable() -> &'static [u8]
    ensures { result.now ≡ response service_unavailable false unable }
{
    UNABLE
}

/// The answer where there is no memory, no store or no clock, before the connection ends.
fn unable_at_last() -> &'static [u8]
    ensures { result.now ≡ response service_unavailable true unable }
{
    UNABLE_AT_LAST
}

/// Writes all of a text.
///
/// # Errors
/// `Write` where the writer failed. Then a beginning of it is written.
pub fn write_text<W: Write>(writer: &mut W, text: &[u8]) -> Result<(), StreamFault>
    ensures { WritesText text.now (W.contents writer.old) (W.contents writer.new) result }
{
    write_whole(writer, text)
}

/// The head of an answer whose body is a text of so many bytes.
fn text_head(
    alloc: Global,
    status: StatusCode,
    closes: bool,
    length: usize,
) -> Result<String, AllocError>
    ensures { IfOk result (λ s. string_bytes s ≡ text_head status closes length) }
{
    let code = status.as_u16();
    let phrase = phrase(status);
    let closing = closing_line(closes);
    let mut text = String::with_capacity(alloc, MOST_OF_HEAD)?;
    write!(
        text,
        "HTTP/1.1 {code} {phrase}\r\nContent-Type: text/plain\r\nContent-Length: {length}\r\n{closing}\r\n"
    )?;
    Ok(text)
}

/// Writes an answer whose body is a text, its head and then its body; where the growth of its head
/// is refused, that there is no memory.
///
/// # Errors
/// `Write` where the writer failed. Then a beginning of it is written.
pub fn tell_text<W: Write>(
    alloc: Global,
    writer: &mut W,
    status: StatusCode,
    closes: bool,
    body: &[u8],
) -> Result<(), StreamFault>
    ensures { WritesTold (AnswersText closes status body.now) (W.contents writer.old)
        (W.contents writer.new) result }
{
    match text_head(alloc, status, closes, body.len()) {
        Ok(head) => write_both(writer, head.as_bytes(), body),
        Err(_) => tell_unable(writer, closes),
    }
}

/// Writes a text and then another.
fn write_both<W: Write>(writer: &mut W, first: &[u8], second: &[u8]) -> Result<(), StreamFault>
    ensures { WritesText (first.now ++ second.now) (W.contents writer.old)
        (W.contents writer.new) result }
{
    write_text(writer, first)?;
    write_text(writer, second)
}

/// Writes that there is no memory, no store or no clock; this takes no memory.
///
/// # Errors
/// `Write` where the writer failed. Then a beginning of it is written.
pub fn tell_unable<W: Write>(writer: &mut W, closes: bool) -> Result<(), StreamFault>
    ensures { WritesText (response service_unavailable closes unable) (W.contents writer.old)
        (W.contents writer.new) result }
{
    if closes {
        write_text(writer, unable_at_last())
    } else {
        write_text(writer, unable())
    }
}

/// The answer to a request that isn't read; None where memory ran out.
fn fault_response(alloc: Global, fault: WireFault, closes: bool) -> Option<String>
    ensures text { IfSome result
        (λ s. string_bytes s ≡ response bad_request closes (fault_text fault)) }
    ensures memory { fault ≡ Memory → result ≡ None }
{
    match fault {
        WireFault::Memory => None,
        _ => {
            let body = write_fault(alloc, fault).ok()?;
            response(alloc, StatusCode::BAD_REQUEST, closes, body.as_str()).ok()
        }
    }
}

/// The bytes of the answer to a request that is no JSON object.
fn not_request() -> &'static [u8]
    ensures { result.now ≡ response bad_request false (fault_text NotRequest) }
{
    NOT_REQUEST
}

/// The answer to a request that is no JSON object, before the connection ends.
fn not_request_at_last() -> &'static [u8]
    ensures { result.now ≡ response bad_request true (fault_text NotRequest) }
{
    NOT_REQUEST_AT_LAST
}

/// Writes that a request is no JSON object; this takes no memory.
fn tell_not_request<W: Write>(writer: &mut W, closes: bool) -> Result<(), StreamFault>
    ensures { WritesText (response bad_request closes (fault_text NotRequest))
        (W.contents writer.old) (W.contents writer.new) result }
{
    if closes {
        write_text(writer, not_request_at_last())
    } else {
        write_text(writer, not_request())
    }
}

/// Writes the answer to a request that isn't read; where the growth of its text is refused, or
/// memory ran out before, that there is no memory. What is no JSON object is answered without any.
///
/// # Errors
/// `Write` where the writer failed. Then a beginning of it is written.
// rule: http-answer, http-refusals
pub fn tell_fault<W: Write>(
    alloc: Global,
    writer: &mut W,
    fault: WireFault,
    closes: bool,
) -> Result<(), StreamFault>
    ensures { WritesTold (AnswersFault closes fault) (W.contents writer.old)
        (W.contents writer.new) result }
{
    match fault {
        WireFault::NotRequest => tell_not_request(writer, closes),
        _ => tell_member_fault(alloc, writer, fault, closes),
    }
}

/// Writes the answer to a request with a fault of a member, or that there is no memory.
fn tell_member_fault<W: Write>(
    alloc: Global,
    writer: &mut W,
    fault: WireFault,
    closes: bool,
) -> Result<(), StreamFault>
    requires { fault ≡ NotRequest → ⊥ }
    ensures { WritesTold (AnswersFault closes fault) (W.contents writer.old)
        (W.contents writer.new) result }
{
    match fault_response(alloc, fault, closes) {
        Some(text) => write_text(writer, text.as_bytes()),
        None => tell_unable(writer, closes),
    }
}
