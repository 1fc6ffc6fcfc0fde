//! The members that count units.

ghost use Rattle.std.specs.Prelude.{◌≡◌, ◌≤◌, ◌&&◌, IfOk};
ghost use Rattle.commands.specs.Quantities.{most_units};
ghost use Rattle.json_fields.specs.Gives.{Says};
ghost use Rattle.json_fields.specs.View.{view};
ghost use Rattle.json_fields.specs.Unit.{name_of_unit, has_unit, lacks_others, kind_told, units_at};

use crate::fault::WireFault;
use crate::reading::whole_in;
use crate::scratch::Tree;
use crate::value::get;
use units::{MOST_SECONDS, MOST_USED, UnitKind};

/// The name of the member that counts units of this kind.
pub fn unit_name(kind: UnitKind) -> &'static str
    ensures { result.now ≡ name_of_unit kind }
{
    match kind {
        UnitKind::Time => "CC-Time",
        UnitKind::TotalOctets => "CC-Total-Octets",
        UnitKind::ServiceSpecific => "CC-Service-Specific-Units",
    }
}

fn has_unit(value: &Tree<'_>, kind: UnitKind) -> bool
    ensures { result ≡ has_unit kind (view value.now) }
{
    get(value, unit_name(kind)).is_some()
}

/// The kind of the first unit member that is there.
// rule: used-parts
#[tactic(auto, unfolding(crate::specs::Unit::kind_told))]
pub fn unit_told(value: &Tree<'_>) -> Option<UnitKind>
    ensures { result ≡ kind_told (view value.now) }
{
    if has_unit(value, UnitKind::Time) {
        Some(UnitKind::Time)
    } else if has_unit(value, UnitKind::TotalOctets) {
        Some(UnitKind::TotalOctets)
    } else if has_unit(value, UnitKind::ServiceSpecific) {
        Some(UnitKind::ServiceSpecific)
    } else {
        None
    }
}

fn most_units(kind: UnitKind) -> u64
    ensures { result ≡ most_units kind }
{
    match kind {
        UnitKind::Time => MOST_SECONDS,
        UnitKind::TotalOctets | UnitKind::ServiceSpecific => MOST_USED,
    }
}

fn lacks_others(value: &Tree<'_>, kind: UnitKind) -> bool
    ensures { result ≡ lacks_others kind (view value.now) }
{
    match kind {
        UnitKind::Time => !has_unit(value, UnitKind::TotalOctets)
            && !has_unit(value, UnitKind::ServiceSpecific),
        UnitKind::TotalOctets => !has_unit(value, UnitKind::Time)
            && !has_unit(value, UnitKind::ServiceSpecific),
        UnitKind::ServiceSpecific => !has_unit(value, UnitKind::Time)
            && !has_unit(value, UnitKind::TotalOctets),
    }
}

/// The units of this kind in `value`, alone.
///
/// # Errors
/// `fault`, where they aren't there alone, or are below `low` or above the most of the kind.
// rule: used-parts
#[tactic(auto, unfolding(crate::specs::Unit::units_at))]
pub fn units_in(
    value: &Tree<'_>,
    fault: WireFault,
    low: u64,
    kind: UnitKind,
) -> Result<u64, WireFault>
    ensures reads { Says (λ n. n) result (units_at fault low kind (view value.now)) }
    ensures within { IfOk result (λ n. (low ≤ n) × (n ≤ most_units kind)) }
{
    let units = get(value, unit_name(kind)).ok_or(fault)?;
    let n = whole_in(units, fault, low, most_units(kind))?;
    if lacks_others(value, kind) {
        Ok(n)
    } else {
        Err(fault)
    }
}
