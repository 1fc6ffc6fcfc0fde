//! The fields of a head, and the length of a body.

ghost use Rattle.std.specs.Prelude.{◌≡◌, ◌<◌, ◌≤◌, ◌++◌, ◌∷◌, [], List, ℕ, true, length, map, All};
ghost use Rattle.std.specs.Prelude.{Some, count_by};
ghost use Rattle.std.specs.List.{list_all};
ghost use Rattle.std.specs.Char.{is_ascii_digit};
ghost use Rattle.std.specs.Str.Parse.{digits_value};
ghost use Rattle.httparse.specs.Spans.{IsHeaderWithin, header_bytes};
ghost use Rattle.http_messages.specs.Fields.{same_field_name, values_of};
ghost use Rattle.http_messages.specs.MessageParts.{said_number, said_length};
ghost use Rattle.http_messages.specs.Fields.{body_length};
ghost use Rattle.http_messages.specs.MessageParts.{length_without, length_by, says_close};
ghost use Rattle.http_messages.specs.Found.{AreValuesFound, FoundWithin};

use http::{Method, StatusCode};
use httparse::spans::{HeaderSpan, Span};

/// The most digits of a Content-Length.
const MOST_DIGITS: usize = 18;

/// The longest body, in bytes.
const MAX_BODY: u64 = 65_536;

/// The fields of a name: none, one with its value, or more.
#[derive(Clone, Copy)]
pub(crate) enum Found {
    None,
    One(Span),
    Many,
}

/// Whether two names are the same without regard to ASCII case.
fn same_name(a: &[u8], b: &[u8]) -> bool
    ensures { result ≡ same_field_name a.now b.now }
{
    a.eq_ignore_ascii_case(b)
}

/// The fields of a name among those before and one more.
fn with_field(found: Found, part: &[u8], field: &HeaderSpan, name: &str) -> Found
    requires { IsHeaderWithin (length part.now) field.now }
    ensures within { FoundWithin (length part.now) found → FoundWithin (length part.now) result }
    ensures found { (values : List (List ℕ)) → AreValuesFound part.now values found
        → AreValuesFound part.now
        (values ++ values_of name.now (header_bytes part.now field.now ∷ [])) result }
{
    if !same_name(field.name.of(part), name.as_bytes()) {
        return found;
    }
    match found {
        Found::None => Found::One(field.value),
        Found::One(_) => Found::Many,
        Found::Many => Found::Many,
    }
}

/// The fields of a name.
fn find_field(part: &[u8], fields: &[HeaderSpan], name: &str) -> Found
    requires { All (IsHeaderWithin (length part.now)) fields.now }
    ensures within { FoundWithin (length part.now) result }
    ensures found { AreValuesFound part.now
        (values_of name.now (map (header_bytes part.now) fields.now)) result }
{
    let mut found = Found::None;
    for field in fields {
        found = with_field(found, part, field, name);
    }
    found
}

/// The number that so many digits say.
fn number_of(digits: &[u8]) -> Option<u64>
    requires some { 0 < length digits.now }
    requires few { length digits.now ≤ 18 }
    requires all { list_all is_ascii_digit digits.now ≡ true }
    ensures { result ≡ Some (digits_value 10 digits.now) }
{
    let text = str::from_utf8(digits).ok()?;
    text.parse::<u64>().ok()
}

/// The number that 1 to 18 digits say.
fn said_number(value: &[u8]) -> Option<u64>
    ensures { result ≡ said_number value.now }
{
    if value.is_empty() || value.len() > MOST_DIGITS || !is_digits(value) {
        return None;
    }
    number_of(value)
}

/// The length that a Content-Length says.
fn said_length(value: &[u8]) -> Result<usize, StatusCode>
    ensures { result ≡ said_length value.now }
{
    match said_number(value) {
        None => Err(StatusCode::BAD_REQUEST),
        Some(length) => {
            if length <= MAX_BODY {
                Ok(length as usize)
            } else {
                Err(StatusCode::PAYLOAD_TOO_LARGE)
            }
        }
    }
}

/// Whether all bytes are digits.
fn is_digits(bytes: &[u8]) -> bool
    ensures { result ≡ list_all is_ascii_digit bytes.now }
{
    bytes.iter().all(|b| b.is_ascii_digit())
}

/// The length of a request that says none.
fn length_without(method: &Method) -> Result<usize, StatusCode>
    ensures { result ≡ length_without method.now }
{
    if *method == Method::POST || *method == Method::PUT {
        Err(StatusCode::LENGTH_REQUIRED)
    } else {
        Ok(0)
    }
}

/// The length by the values of Content-Length.
fn length_by(method: &Method, part: &[u8], found: Found) -> Result<usize, StatusCode>
    requires { FoundWithin (length part.now) found }
    ensures { (values : List (List ℕ)) → AreValuesFound part.now values found →
        result ≡ length_by method.now values }
{
    match found {
        Found::None => length_without(method),
        Found::One(value) => said_length(value.of(part)),
        Found::Many => Err(StatusCode::BAD_REQUEST),
    }
}

/// The length of a request's body by the fields of its head: 0 where they say none (RFC 9112
/// section 6.3).
///
/// # Errors
/// 501 at a Transfer-Encoding; 400 at more than one Content-Length or one that isn't 1 to 18
/// digits; 413 above 65,536; 411 at a POST or a PUT without one.
// rule: http-coding
pub(crate) fn body_length(
    method: &Method,
    part: &[u8],
    fields: &[HeaderSpan],
) -> Result<usize, StatusCode>
    requires { All (IsHeaderWithin (length part.now)) fields.now }
    ensures { result ≡ body_length method.now (map (header_bytes part.now) fields.now) }
{
    match find_field(part, fields, "Transfer-Encoding") {
        Found::None => {
            let found = find_field(part, fields, "Content-Length");
            length_by(method, part, found)
        }
        Found::One(_) => Err(StatusCode::NOT_IMPLEMENTED),
        Found::Many => Err(StatusCode::NOT_IMPLEMENTED),
    }
}

/// Whether a field is a Connection that says `close` in any case.
fn says_close(part: &[u8], field: &HeaderSpan) -> bool
    requires { IsHeaderWithin (length part.now) field.now }
    ensures { result ≡ says_close (header_bytes part.now field.now) }
{
    same_name(field.name.of(part), b"Connection".as_slice())
        && same_name(field.value.of(part), b"close".as_slice())
}

/// How many fields say `close`.
pub(crate) fn count_closing(part: &[u8], fields: &[HeaderSpan]) -> usize
    requires { All (IsHeaderWithin (length part.now)) fields.now }
    ensures { result ≡ count_by says_close (map (header_bytes part.now) fields.now) }
{
    let mut count = 0usize;
    for field in fields {
        if says_close(part, field) {
            count += 1;
        }
    }
    count
}
