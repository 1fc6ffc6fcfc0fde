//! Numbers of JSON, read from their texts.

ghost use Rattle.std.specs.Prelude.{◌≡◌, ◌<◌, ◌==◌, length, slice_index, IsTrue, IfSome, Some};
ghost use Rattle.std.specs.Prelude.{option_map, option_and_then, is_some, true, false};
ghost use Rattle.json.specs.Value.{value_view, items_view, members_view};
ghost use Rattle.serde_json.specs.Data.{unsigned};
ghost use Rattle.serde_json.specs.Find.{as_u64};
ghost use Rattle.serde_json.specs.Read.{number_of, number_from, float_of};
ghost use Rattle.serde_json.specs.View.{number_view};
ghost use Rattle.json_fields.specs.View.{is_in_range, are_in_range, members_in_range};

use crate::scratch::{Items, Tree};
use bumpalo::Bump;
use fast_float::Numeral;
use json::Value;
use serde_json::Number;

/// The most digits that are read one by one: what they write fits 64 bits.
const MOST_DIGITS: usize = 18;

fn has_minus(bytes: &[u8]) -> bool
    ensures value { result ≡ (slice_index bytes.now 0 == 45) }
    ensures len { IsTrue result → 0 < length bytes.now }
{
    !bytes.is_empty() && bytes[0] == b'-'
}

fn nearest(negative: bool, numeral: &Numeral<'_>) -> Option<Number>
    ensures { option_map number_view result ≡ float_of negative numeral.now }
{
    Number::from_f64(numeral.to_float::<f64>(negative))
}

fn unsigned(numeral: &Numeral<'_>) -> Option<Number>
    ensures { option_map number_view result ≡ number_from false numeral.now }
{
    match numeral.to_u64() {
        Some(n) => Number::from_u128(n as u128),
        None => nearest(false, numeral),
    }
}

fn negative(numeral: &Numeral<'_>) -> Option<Number>
    ensures { option_map number_view result ≡ number_from true numeral.now }
{
    if let Some(n) = numeral.to_i64(true) {
        if n < 0 {
            return Number::from_i128(n as i128);
        }
    }
    nearest(true, numeral)
}

/// The number that a text of JSON's grammar writes, where it is in range: a whole number of 64
/// bits, or a finite float.
// rule: json-members
pub(crate) fn number(text: &str) -> Option<Number>
    ensures { option_map number_view result ≡ number_of text.now }
{
    let bytes = text.as_bytes();
    if has_minus(bytes) {
        negative(&Numeral::scan(&bytes[1..]))
    } else {
        unsigned(&Numeral::scan(bytes))
    }
}

/// The number that 1 to 18 digits write. Most numbers are read so, without a look for a point or
/// an exponent.
fn digits(text: &str) -> Option<u64>
    ensures { IfSome result (λ n. number_of text.now ≡ Some (unsigned n)) }
{
    let bytes = text.as_bytes();
    if bytes.is_empty() || bytes.len() > MOST_DIGITS {
        return None;
    }
    let mut value = 0;
    for byte in bytes {
        if !byte.is_ascii_digit() {
            return None;
        }
        value = value * 10 + (*byte - b'0') as u64;
    }
    Some(value)
}

/// Whether the number that a text of JSON's grammar writes is in range.
fn has_number(text: &str) -> bool
    ensures { result ≡ is_some (number_of text.now) }
{
    digits(text).is_some() || number(text).is_some()
}

/// The number that a text of JSON's grammar writes, where it is a whole one from 0 on that fits.
// rule: json-members
pub(crate) fn whole_number(text: &str) -> Option<u64>
    ensures { result ≡ option_and_then as_u64 (number_of text.now) }
{
    match digits(text) {
        Some(n) => Some(n),
        None => number(text)?.as_u64(),
    }
}

/// Whether each number of a value is in range.
#[cycle(ranges)]
pub(crate) fn is_in_range(value: &Tree<'_>) -> bool
    ensures { result ≡ is_in_range (value_view value.now) }
{
    match value {
        Value::Null => true,
        Value::Bool(_) => true,
        Value::Number(text) => has_number(text),
        Value::String(_) => true,
        Value::Array(items) => are_in_range(items),
        Value::Object(members) => members_in_range(members),
    }
}

#[cycle(ranges)]
#[inline(never)]
fn are_in_range<'a>(items: &Items<'a>) -> bool
    ensures { result ≡ are_in_range (items_view items.now.items) }
{
    for item in items {
        if !is_in_range(item) {
            return false;
        }
    }
    true
}

#[cycle(ranges)]
#[inline(never)]
fn members_in_range<'a>(members: &Vec<(&'a str, Tree<'a>), &'a Bump>) -> bool
    ensures { result ≡ members_in_range (members_view members.now.items) }
{
    for member in members {
        if !is_in_range(&member.1) {
            return false;
        }
    }
    true
}
