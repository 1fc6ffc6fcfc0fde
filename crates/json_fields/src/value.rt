//! Values of JSON with texts that are borrowed from the bytes.

ghost use Rattle.std.specs.Prelude.{◌≡◌, is_some, option_map, option_and_then};
ghost use Rattle.json.specs.Value.{value_view};
ghost use Rattle.serde_json.specs.Find.{get, as_bool, as_str, as_array, as_object, as_number};
ghost use Rattle.serde_json.specs.Find.{as_u64, as_i64};
ghost use Rattle.serde_json.specs.Read.{read as read_text};
ghost use Rattle.json_fields.specs.Gives.{Gives, or_fault};
ghost use Rattle.json_fields.specs.View.{view, items_view, tree_of};

use crate::fault::WireFault;
use crate::numbers::{is_in_range, number, whole_number};
use crate::scratch::{Items, Scratch, Tree};
use bumpalo::Bump;
use json::{Error, Reader, Value};

/// How deep arrays and objects may nest.
const MAX_DEPTH: usize = 127;

fn tree<'a>(text: &'a str, scratch: &'a mut Scratch) -> Result<Tree<'a>, WireFault>
    ensures { Gives value_view result (or_fault WireFault.NotRequest (tree_of text.now)) }
{
    // Where a tree was forgotten the arena stays as it is, and grows.
    let _ = scratch.arena.reset();
    let mut reader = Reader::new(text, &mut scratch.texts)?;
    let value = match Value::read(&scratch.arena, &mut reader, MAX_DEPTH) {
        Ok(value) => value,
        Err(Error::Invalid) => return Err(WireFault::NotRequest),
        Err(_) => return Err(WireFault::Memory),
    };
    if reader.next().is_some() {
        return Err(WireFault::NotRequest);
    }
    Ok(value)
}

/// The value that the text is. Its texts are borrowed: those with escapes from `scratch`, all
/// others from `text`.
// rule: no-object
#[tactic(auto, using(crate::proofs::Ranges::in_range, crate::proofs::Ranges::out_of_range, crate::proofs::Ranges::no_tree))]
pub(crate) fn value_of<'a>(text: &'a str, scratch: &'a mut Scratch) -> Result<Tree<'a>, WireFault>
    ensures { Gives view result (or_fault WireFault.NotRequest (read_text text.now)) }
{
    let value = tree(text, scratch)?;
    if is_in_range(&value) {
        Ok(value)
    } else {
        Err(WireFault::NotRequest)
    }
}

/// The member of this name, where the value is an object that has it; of two the later one.
// rule: json-members
pub fn get<'v, 'a>(value: &'v Tree<'a>, name: &str) -> Option<&'v Tree<'a>>
    ensures { option_map (λ v. view v.now) result ≡ get name.now (view value.now) }
{
    value.get(name)
}

/// Whether the value is an object. Text and arena are lent for lifetimes of their own, so that a
/// closure may ask.
pub fn is_object(value: &Value<'_, &Bump>) -> bool
    ensures { result ≡ is_some (as_object (view value.now)) }
{
    match value {
        Value::Null => false,
        Value::Bool(_) => false,
        Value::Number(_) => false,
        Value::String(_) => false,
        Value::Array(_) => false,
        Value::Object(_) => true,
    }
}

/// The items, where the value is an array.
pub fn as_array<'v, 'a>(value: &'v Tree<'a>) -> Option<&'v Items<'a>>
    ensures { option_map (λ v. items_view v.now.items) result ≡ as_array (view value.now) }
{
    match value {
        Value::Null => None,
        Value::Bool(_) => None,
        Value::Number(_) => None,
        Value::String(_) => None,
        Value::Array(items) => Some(items),
        Value::Object(_) => None,
    }
}

/// The text, where the value is one.
// rule: json-members
#[tactic(auto, using(crate::proofs::Seen::text_seen))]
pub fn as_str<'a>(value: &Tree<'a>) -> Option<&'a str>
    ensures { option_map (λ s. s.now) result ≡ as_str (view value.now) }
{
    value.as_str()
}

/// What the value says, where it is true or false.
#[tactic(auto, using(crate::proofs::Seen::bool_seen))]
pub fn as_bool(value: &Tree<'_>) -> Option<bool>
    ensures { result ≡ as_bool (view value.now) }
{
    value.as_bool()
}

/// The number, where the value is a whole one from 0 on that fits.
// rule: json-members
pub fn as_u64(value: &Tree<'_>) -> Option<u64>
    ensures { result ≡ option_and_then as_u64 (as_number (view value.now)) }
{
    whole_number(value.as_number()?)
}

/// The number, where the value is a whole one that fits.
pub fn as_i64(value: &Tree<'_>) -> Option<i64>
    ensures { result ≡ option_and_then as_i64 (as_number (view value.now)) }
{
    number(value.as_number()?)?.as_i64()
}
