//! Members of an answer.

ghost use Rattle.std.specs.Prelude.{◌≤◌, IfOk, IfSome};
ghost use Rattle.json_fields.specs.Gives.{Says};
ghost use Rattle.json_fields.specs.Fields.{optional_in};
ghost use Rattle.json_fields.specs.View.{view};
ghost use Rattle.wire.specs.Members.{member_in, number_in, text_in, object_in};

use json_fields::{Tree, WireFault, as_str, get, is_object, optional_in, whole_in};

/// The member of this name.
pub(crate) fn member<'v, 'a>(parent: &'v Tree<'a>, name: &str) -> Result<&'v Tree<'a>, WireFault>
    ensures { Says (λ v. view v.now) result (member_in name.now (view parent.now)) }
{
    get(parent, name).ok_or(WireFault::NotRequest)
}

/// The member of this name, a whole number from `low` to `high`.
#[tactic(auto, unfolding(crate::specs::Members::number_in))]
pub(crate) fn number(parent: &Tree<'_>, name: &str, low: u64, high: u64) -> Result<u64, WireFault>
    ensures reads { Says (λ n. n) result (number_in name.now low high (view parent.now)) }
    ensures within { IfOk result (λ n. (low ≤ n) × (n ≤ high)) }
{
    whole_in(member(parent, name)?, WireFault::NotRequest, low, high)
}

/// The member of this name, a text.
#[tactic(auto, unfolding(crate::specs::Members::text_in))]
pub(crate) fn text<'a>(parent: &Tree<'a>, name: &str) -> Result<&'a str, WireFault>
    ensures { Says (λ s. s.now) result (text_in name.now (view parent.now)) }
{
    as_str(member(parent, name)?).ok_or(WireFault::NotRequest)
}

/// The member of this name, an object.
#[tactic(auto, unfolding(crate::specs::Members::object_in))]
pub(crate) fn object<'v, 'a>(parent: &'v Tree<'a>, name: &str) -> Result<&'v Tree<'a>, WireFault>
    ensures { Says (λ v. view v.now) result (object_in name.now (view parent.now)) }
{
    let value = member(parent, name)?;
    if !is_object(value) {
        return Err(WireFault::NotRequest);
    }
    Ok(value)
}

/// The member of this name, a whole number from `low` to `high`, where it is there.
pub(crate) fn optional(
    parent: &Tree<'_>,
    name: &str,
    low: u64,
    high: u64,
) -> Result<Option<u64>, WireFault>
    ensures reads { Says (λ n. n) result
        (optional_in name.now WireFault.NotRequest low high (view parent.now)) }
    ensures within { IfOk result (λ o. IfSome o (λ n. (low ≤ n) × (n ≤ high))) }
{
    optional_in(parent, name, WireFault::NotRequest, low, high)
}
