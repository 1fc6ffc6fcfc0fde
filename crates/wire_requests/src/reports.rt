//! What a service asks for and reports, read.

ghost use Rattle.std.specs.Prelude.{◌≡◌, []};
ghost use Rattle.json_fields.specs.Gives.{Gives, Says};
ghost use Rattle.json_fields.specs.View.{view, items_view};
ghost use Rattle.wire_requests.specs.Reports.{wanted_in, requested_of, required_at, usage_at};
ghost use Rattle.wire_requests.specs.Reports.{tag_is_taken, part_at, kind_of_first, parts_from};
ghost use Rattle.wire_requests.specs.Reports.{used_of};

use commands::names::TARIFF_CHANGE_USAGE;
use commands::{Avp, Quantity, Requested, UsedParts, usage_numbered};
use json_fields::{
    Items, Tree, WireFault, array, as_u64, get, is_object, member, read_each, unit_told, units_in,
};
use std::alloc::Global;
use units::{TariffChangeUsage, UnitKind, Units, UsedPart};

/// The most parts that a report has.
const MOST_PARTS: usize = 4;

#[tactic(auto, unfolding(crate::specs::Reports::wanted_in))]
fn wanted_in(told: Option<UnitKind>, value: &Tree<'_>) -> Result<Requested, WireFault>
    ensures { Says (λ r. r) result (wanted_in told (view value.now)) }
{
    let Some(kind) = told else {
        return Ok(Requested::Slice);
    };
    let units = units_in(value, WireFault::Invalid(Avp::RequestedUnit), 1, kind)?;
    Ok(Requested::Units(Quantity::new(kind, units)))
}

#[tactic(auto, unfolding(crate::specs::Reports::requested_of))]
pub(crate) fn requested_in(value: &Tree<'_>) -> Result<Requested, WireFault>
    ensures { Says (λ r. r) result (requested_of (view value.now)) }
{
    if !is_object(value) {
        return Err(WireFault::Invalid(Avp::RequestedUnit));
    }
    if get(value, Avp::Money.name()).is_some() {
        return Err(WireFault::Invalid(Avp::RequestedUnit));
    }
    wanted_in(unit_told(value), value)
}

#[tactic(auto, unfolding(crate::specs::Reports::required_at))]
pub(crate) fn required(parent: &Tree<'_>) -> Result<Requested, WireFault>
    ensures { Says (λ r. r) result (required_at (view parent.now)) }
{
    requested_in(member(parent, Avp::RequestedUnit)?)
}

#[tactic(auto, unfolding(crate::specs::Reports::usage_at))]
fn usage(parent: &Tree<'_>) -> Result<Option<TariffChangeUsage>, WireFault>
    ensures { Says (λ u. u) result (usage_at (view parent.now)) }
{
    let Some(value) = get(parent, TARIFF_CHANGE_USAGE) else {
        return Ok(None);
    };
    let number = as_u64(value).ok_or(WireFault::Invalid(Avp::UsedUnit))?;
    Ok(Some(usage_numbered(number).ok_or(WireFault::Invalid(Avp::UsedUnit))?))
}

fn is_taken(done: &[UsedPart], tag: Option<TariffChangeUsage>) -> bool
    ensures { result ≡ tag_is_taken done.now tag }
{
    done.iter().any(|p| p.change == tag)
}

#[tactic(auto, unfolding(crate::specs::Reports::part_at))]
fn part(kind: UnitKind, done: &[UsedPart], value: &Tree<'_>) -> Result<UsedPart, WireFault>
    ensures { Says (λ p. p) result (part_at kind done.now (view value.now)) }
{
    if !is_object(value) {
        return Err(WireFault::Invalid(Avp::UsedUnit));
    }
    let units = units_in(value, WireFault::Invalid(Avp::UsedUnit), 0, kind)?;
    let tag = usage(value)?;
    if is_taken(done, tag) {
        return Err(WireFault::Invalid(Avp::UsedUnit));
    }
    Ok(UsedPart {
        units: Units(units),
        change: tag,
    })
}

#[tactic(auto, unfolding(crate::specs::Reports::kind_of_first))]
fn kind_of_first(list: &Items<'_>) -> UnitKind
    ensures { result ≡ kind_of_first (items_view list.now.items) }
{
    match list.first() {
        Some(value) => unit_told(value).unwrap_or(UnitKind::ServiceSpecific),
        None => UnitKind::ServiceSpecific,
    }
}

fn parts_in(alloc: Global, kind: UnitKind, list: &Items<'_>) -> Result<Vec<UsedPart>, WireFault>
    ensures { Gives (λ v. v.items) result (parts_from kind (items_view list.now.items)) }
{
    read_each(alloc, list, |done, value| part(kind, done, value))
}

// rule: used-parts
#[tactic(auto, using(json_fields::proofs::Counts::counts, crate::proofs::Kept::report), unfolding(crate::specs::Reports::used_of))]
pub(crate) fn used_in(alloc: Global, value: &Tree<'_>) -> Result<UsedParts, WireFault>
    ensures { Gives (λ u. u) result (used_of (view value.now)) }
{
    let list = array(value, Avp::UsedUnit)?;
    if !(1 <= list.len() && list.len() <= MOST_PARTS) {
        return Err(WireFault::Invalid(Avp::UsedUnit));
    }
    let kind = kind_of_first(list);
    let parts = parts_in(alloc, kind, list)?;
    Ok(UsedParts::new(kind, parts))
}
