//! Members of a JSON object, each with its kind and range.

ghost use Rattle.std.specs.Prelude.{◌≡◌, ◌≤◌, ◌↔◌, List, [], Result, IfOk, IfSome, IsTrue};
ghost use Rattle.units.specs.Words.{latest_moment};
ghost use Rattle.serde_json.specs.Data.{Data};
ghost use Rattle.json_fields.specs.Gives.{Gives, Says, or_fault, read_each, IsReadBy};
ghost use Rattle.json_fields.specs.Fields.{json_of, document_at, member_at, whole_in, number_at};
ghost use Rattle.json_fields.specs.Fields.{optional_in, optional_at, text_at, object_at, array_of};
ghost use Rattle.json_fields.specs.View.{view, items_view};

use crate::fault::WireFault;
use crate::scratch::{Items, Scratch, Tree};
use crate::value::{as_array, as_str, as_u64, get, is_object, value_of};
use commands::Avp;
use std::alloc::Global;
use units::Moment;

#[tactic(auto, using(crate::proofs::Documents::text_read, crate::proofs::Documents::no_text))]
fn parsed<'a>(bytes: &'a [u8], scratch: &'a mut Scratch) -> Result<Tree<'a>, WireFault>
    ensures { Gives view result (or_fault WireFault.NotRequest (json_of bytes.now)) }
{
    match simdutf8::basic::from_utf8(bytes) {
        Ok(text) => value_of(text, scratch),
        Err(_) => Err(WireFault::NotRequest),
    }
}

/// The object that the bytes are. Its texts are borrowed: those with escapes from `scratch`, all
/// others from the bytes.
///
/// # Errors
/// `NotRequest` where the bytes are no JSON object, `Memory` where memory ran out.
// rule: no-object
#[tactic(auto, unfolding(crate::specs::Fields::document_at))]
pub fn document<'a>(bytes: &'a [u8], scratch: &'a mut Scratch) -> Result<Tree<'a>, WireFault>
    ensures { Gives view result (document_at bytes.now) }
{
    let value = parsed(bytes, scratch)?;
    if is_object(&value) {
        Ok(value)
    } else {
        Err(WireFault::NotRequest)
    }
}

/// The member of this name.
///
/// # Errors
/// `Missing`, with the name, where it isn't there.
// rule: first-fault, json-members
#[tactic(auto, unfolding(crate::specs::Fields::member_at))]
pub fn member<'v, 'a>(parent: &'v Tree<'a>, name: Avp) -> Result<&'v Tree<'a>, WireFault>
    ensures { Says (λ v. view v.now) result (member_at name (view parent.now)) }
{
    get(parent, name.name()).ok_or(WireFault::Missing(name))
}

/// The whole number that a value is, from `low` to `high`.
///
/// # Errors
/// `fault` where the value is no such number.
pub fn whole_in(value: &Tree<'_>, fault: WireFault, low: u64, high: u64) -> Result<u64, WireFault>
    ensures reads { Says (λ n. n) result (whole_in fault low high (view value.now)) }
    ensures within { IfOk result (λ n. (low ≤ n) × (n ≤ high)) }
{
    let n = as_u64(value).ok_or(fault)?;
    if !(low..=high).contains(&n) {
        return Err(fault);
    }
    Ok(n)
}

/// The member of this name, a whole number from `low` to `high`.
///
/// # Errors
/// `Missing` where it isn't there, `Invalid` where it is no such number, both with the name.
// rule: first-fault
#[tactic(auto, unfolding(crate::specs::Fields::number_at))]
pub fn number(parent: &Tree<'_>, name: Avp, low: u64, high: u64) -> Result<u64, WireFault>
    ensures reads { Says (λ n. n) result (number_at name low high (view parent.now)) }
    ensures within { IfOk result (λ n. (low ≤ n) × (n ≤ high)) }
{
    whole_in(member(parent, name)?, WireFault::Invalid(name), low, high)
}

/// The member of this name, a whole number from `low` to `high`, where it is there.
///
/// # Errors
/// `Invalid`, with the name, where it is there and is no such number.
pub fn optional_number(
    parent: &Tree<'_>,
    name: Avp,
    low: u64,
    high: u64,
) -> Result<Option<u64>, WireFault>
    ensures reads { Says (λ n. n) result (optional_at name low high (view parent.now)) }
    ensures within { IfOk result (λ o. IfSome o (λ n. (low ≤ n) × (n ≤ high))) }
{
    optional_in(parent, name.name(), WireFault::Invalid(name), low, high)
}

/// The member of this name, a whole number from `low` to `high`, where it is there.
///
/// # Errors
/// `fault` where it is there and is no such number.
// rule: json-members
#[tactic(auto, unfolding(crate::specs::Fields::optional_in))]
pub fn optional_in(
    parent: &Tree<'_>,
    name: &str,
    fault: WireFault,
    low: u64,
    high: u64,
) -> Result<Option<u64>, WireFault>
    ensures reads { Says (λ n. n) result (optional_in name.now fault low high (view parent.now)) }
    ensures within { IfOk result (λ o. IfSome o (λ n. (low ≤ n) × (n ≤ high))) }
{
    match get(parent, name) {
        None => Ok(None),
        Some(value) => Ok(Some(whole_in(value, fault, low, high)?)),
    }
}

/// The member of this name, a moment from `low` to `high`, where it is there.
///
/// # Errors
/// `fault` where it is there and is no such number of seconds since 1970.
pub fn optional_moment(
    parent: &Tree<'_>,
    name: &str,
    fault: WireFault,
    low: u64,
    high: u64,
) -> Result<Option<Moment>, WireFault>
    requires { high ≤ latest_moment }
    ensures reads { Says (λ m. m) result (optional_in name.now fault low high (view parent.now)) }
    ensures within { IfOk result (λ o. IfSome o (λ m. (low ≤ m) × (m ≤ high))) }
{
    let seconds = optional_in(parent, name, fault, low, high)?;
    Ok(moment(seconds))
}

fn moment(seconds: Option<u64>) -> Option<Moment>
    requires { IfSome seconds (λ n. n ≤ latest_moment) }
    ensures { result ≡ seconds }
{
    match seconds {
        None => None,
        Some(seconds) => Moment::new(seconds),
    }
}

/// The member of this name, a text.
///
/// # Errors
/// `Missing` where it isn't there, `Invalid` where it is no text, both with the name.
// rule: json-members
#[tactic(auto, unfolding(crate::specs::Fields::text_at))]
pub fn text<'a>(parent: &Tree<'a>, name: Avp) -> Result<&'a str, WireFault>
    ensures { Says (λ s. s.now) result (text_at name (view parent.now)) }
{
    as_str(member(parent, name)?).ok_or(WireFault::Invalid(name))
}

/// The member of this name, an object.
///
/// # Errors
/// `Missing` where it isn't there, `Invalid` where it is no object, both with the name.
// rule: json-members
#[tactic(auto, unfolding(crate::specs::Fields::object_at))]
pub fn object<'v, 'a>(parent: &'v Tree<'a>, name: Avp) -> Result<&'v Tree<'a>, WireFault>
    ensures { Says (λ v. view v.now) result (object_at name (view parent.now)) }
{
    let value = member(parent, name)?;
    if !is_object(value) {
        return Err(WireFault::Invalid(name));
    }
    Ok(value)
}

/// The items of the array that a value is.
///
/// # Errors
/// `Invalid`, with the name `told`, where the value is no array.
// rule: json-members
#[tactic(auto, unfolding(crate::specs::Fields::array_of))]
pub fn array<'v, 'a>(value: &'v Tree<'a>, told: Avp) -> Result<&'v Items<'a>, WireFault>
    ensures { Says (λ v. items_view v.now.items) result (array_of told (view value.now)) }
{
    as_array(value).ok_or(WireFault::Invalid(told))
}

/// What the items of an array say, one after another, each read beside those before it.
///
/// # Errors
/// The first fault of `read`, which ends it; `Memory` where memory ran out.
// rule: json-members
pub fn read_each<'a, T: Drop, F: Fn(&[T], &Tree<'a>) -> Result<T, WireFault>>(
    alloc: Global,
    list: &Items<'a>,
    read: F,
) -> Result<Vec<T>, WireFault>
    requires { F.IsAlwaysCallable read }
    ensures { (says : List T → Data → Result T WireFault) → IsReadBy (F.post read) says →
        Gives (λ v. v.items) result (read_each says [] (items_view list.now.items)) }
{
    let mut done = Vec::with_capacity(alloc, list.len())?;
    for value in list {
        done.push(read(&done, value)?)?;
    }
    Ok(done)
}

/// Whether the bytes are those of the text.
pub fn is_text(text: &str, bytes: &[u8]) -> bool
    ensures { IsTrue result ↔ (text.now ≡ bytes.now) }
{
    text.as_bytes() == bytes
}
