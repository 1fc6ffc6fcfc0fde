//! Requests that are refused, and the bytes that say so: constants, so that no memory is asked
//! for.

ghost use Rattle.std.specs.Prelude.{◌≡◌, true, false};
ghost use Rattle.http_messages.specs.Refusals.{refusal_status, refusal_of};
ghost use Rattle.http_messages.specs.Texts.{response, no_members, WritesText};

use crate::text::write_text;
use http::StatusCode;
use std::io::Write;
use texts::StreamFault;

/// Why a request is refused, by its status (RFC 9110 sections 15.5 and 15.6; 431: RFC 6585
/// section 5).
#[derive(Clone, Copy)]
pub enum HttpRefusal {
    /// 400: it has no head, more than one length, or a length that is no number.
    BadRequest,
    /// 404: there is no such path.
    NotFound,
    /// 405: the path has another method.
    MethodNotAllowed,
    /// 411: a POST or a PUT says no length.
    LengthRequired,
    /// 413: the body has more than 65,536 bytes.
    PayloadTooLarge,
    /// 431: the head part doesn't end within 8,192 bytes.
    FieldsTooLarge,
    /// 501: the body has a Transfer-Encoding.
    NotImplemented,
}

const BAD_REQUEST: &[u8] =
    b"HTTP/1.1 400 Bad Request\r\nContent-Type: application/json\r\nContent-Length: 2\r\n\r\n{}";

const NOT_FOUND: &[u8] =
    b"HTTP/1.1 404 Not Found\r\nContent-Type: application/json\r\nContent-Length: 2\r\n\r\n{}";

const METHOD_NOT_ALLOWED: &[u8] =
    b"HTTP/1.1 405 Method Not Allowed\r\nContent-Type: application/json\r\nContent-Length: 2\r\n\r\n{}";

const LENGTH_REQUIRED: &[u8] =
    b"HTTP/1.1 411 Length Required\r\nContent-Type: application/json\r\nContent-Length: 2\r\n\r\n{}";

const PAYLOAD_TOO_LARGE: &[u8] =
    b"HTTP/1.1 413 Payload Too Large\r\nContent-Type: application/json\r\nContent-Length: 2\r\n\r\n{}";

const FIELDS_TOO_LARGE: &[u8] =
    b"HTTP/1.1 431 Request Header Fields Too Large\r\nContent-Type: application/json\r\nContent-Length: 2\r\n\r\n{}";

const NOT_IMPLEMENTED: &[u8] =
    b"HTTP/1.1 501 Not Implemented\r\nContent-Type: application/json\r\nContent-Length: 2\r\n\r\n{}";

const BAD_REQUEST_AT_LAST: &[u8] =
    b"HTTP/1.1 400 Bad Request\r\nContent-Type: application/json\r\nContent-Length: 2\r\nConnection: close\r\n\r\n{}";

const NOT_FOUND_AT_LAST: &[u8] =
    b"HTTP/1.1 404 Not Found\r\nContent-Type: application/json\r\nContent-Length: 2\r\nConnection: close\r\n\r\n{}";

const METHOD_NOT_ALLOWED_AT_LAST: &[u8] =
    b"HTTP/1.1 405 Method Not Allowed\r\nContent-Type: application/json\r\nContent-Length: 2\r\nConnection: close\r\n\r\n{}";

const LENGTH_REQUIRED_AT_LAST: &[u8] =
    b"HTTP/1.1 411 Length Required\r\nContent-Type: application/json\r\nContent-Length: 2\r\nConnection: close\r\n\r\n{}";

const PAYLOAD_TOO_LARGE_AT_LAST: &[u8] =
    b"HTTP/1.1 413 Payload Too Large\r\nContent-Type: application/json\r\nContent-Length: 2\r\nConnection: close\r\n\r\n{}";

const FIELDS_TOO_LARGE_AT_LAST: &[u8] =
    b"HTTP/1.1 431 Request Header Fields Too Large\r\nContent-Type: application/json\r\nContent-Length: 2\r\nConnection: close\r\n\r\n{}";

const NOT_IMPLEMENTED_AT_LAST: &[u8] =
    b"HTTP/1.1 501 Not Implemented\r\nContent-Type: application/json\r\nContent-Length: 2\r\nConnection: close\r\n\r\n{}";

impl HttpRefusal {
    /// The refusal of a head or of a body's length that has this status: 411, 413, 431, 501; of any
    /// other it is 400.
    // rule: http-refusals
    pub fn of_head(status: StatusCode) -> HttpRefusal
        ensures { result ≡ refusal_of status }
    {
        match status.as_u16() {
            411 => HttpRefusal::LengthRequired,
            413 => HttpRefusal::PayloadTooLarge,
            431 => HttpRefusal::FieldsTooLarge,
            501 => HttpRefusal::NotImplemented,
            _ => HttpRefusal::BadRequest,
        }
    }

    /// The bytes that say it, where the connection goes on.
    fn text(self) -> &'static [u8]
        ensures { result.now ≡ response (refusal_status self) false no_members }
    {
        match self {
            HttpRefusal::BadRequest => BAD_REQUEST,
            HttpRefusal::NotFound => NOT_FOUND,
            HttpRefusal::MethodNotAllowed => METHOD_NOT_ALLOWED,
            HttpRefusal::LengthRequired => LENGTH_REQUIRED,
            HttpRefusal::PayloadTooLarge => PAYLOAD_TOO_LARGE,
            HttpRefusal::FieldsTooLarge => FIELDS_TOO_LARGE,
            HttpRefusal::NotImplemented => NOT_IMPLEMENTED,
        }
    }

    /// The bytes that say it before the connection ends.
    fn text_at_last(self) -> &'static [u8]
        ensures { result.now ≡ response (refusal_status self) true no_members }
    {
        match self {
            HttpRefusal::BadRequest => BAD_REQUEST_AT_LAST,
            HttpRefusal::NotFound => NOT_FOUND_AT_LAST,
            HttpRefusal::MethodNotAllowed => METHOD_NOT_ALLOWED_AT_LAST,
            HttpRefusal::LengthRequired => LENGTH_REQUIRED_AT_LAST,
            HttpRefusal::PayloadTooLarge => PAYLOAD_TOO_LARGE_AT_LAST,
            HttpRefusal::FieldsTooLarge => FIELDS_TOO_LARGE_AT_LAST,
            HttpRefusal::NotImplemented => NOT_IMPLEMENTED_AT_LAST,
        }
    }
}

/// Writes that a request is refused; this takes no memory.
///
/// # Errors
/// `Write` where the writer failed. Then a beginning of it is written.
// rule: http-refusals
pub fn tell_refusal<W: Write>(
    writer: &mut W,
    refusal: HttpRefusal,
    closes: bool,
) -> Result<(), StreamFault>
    ensures { WritesText (response (refusal_status refusal) closes no_members)
        (W.contents writer.old)
        (W.contents writer.new) result }
{
    if closes {
        write_text(writer, refusal.text_at_last())
    } else {
        write_text(writer, refusal.text())
    }
}
