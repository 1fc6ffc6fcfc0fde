//! The services of a request, read.

ghost use Rattle.std.specs.Prelude.{◌≡◌, ◌&&◌, nat_le, is_some};
ghost use Rattle.std.specs.List.{list_all};
ghost use Rattle.serde_json.specs.Find.{as_object};
ghost use Rattle.json_fields.specs.Gives.{Gives, Says};
ghost use Rattle.json_fields.specs.View.{view, items_view};
ghost use Rattle.wire_requests.specs.Phases.{requested_at, used_at, group_is_taken, service_at};
ghost use Rattle.wire_requests.specs.Phases.{are_objects, services_from, fewest, services_of};
ghost use Rattle.wire_requests.specs.Phases.{services_at};

use crate::phase::Phase;
use crate::reports::{requested_in, required, used_in};
use commands::{Avp, Requested, Service, UsedParts};
use json_fields::{Items, Tree, WireFault, array, get, is_object, number, read_each};
use std::alloc::Global;
use units::GREATEST_NUMBER;

/// The most services that a request has.
const MOST_SERVICES: usize = 16;

#[tactic(auto, unfolding(crate::specs::Phases::requested_at))]
fn requested(phase: Phase, parent: &Tree<'_>) -> Result<Option<Requested>, WireFault>
    ensures { Says (λ r. r) result (requested_at phase (view parent.now)) }
{
    if phase == Phase::Initial {
        return Ok(Some(required(parent)?));
    }
    match (phase, get(parent, Avp::RequestedUnit.name())) {
        (_, None) => Ok(None),
        (Phase::Termination, Some(_)) => Err(WireFault::Invalid(Avp::RequestedUnit)),
        (_, Some(value)) => Ok(Some(requested_in(value)?)),
    }
}

#[tactic(auto, unfolding(crate::specs::Phases::used_at))]
fn used(alloc: Global, phase: Phase, parent: &Tree<'_>) -> Result<Option<UsedParts>, WireFault>
    ensures { Gives (λ u. u) result (used_at phase (view parent.now)) }
{
    let Some(value) = get(parent, Avp::UsedUnit.name()) else {
        return Ok(None);
    };
    match phase {
        Phase::Initial => Err(WireFault::Invalid(Avp::UsedUnit)),
        Phase::Update | Phase::Termination => Ok(Some(used_in(alloc, value)?)),
    }
}

fn is_taken(done: &[Service], group: u32) -> bool
    ensures { result ≡ group_is_taken done.now group }
{
    done.iter().any(|s| s.group == group)
}

#[tactic(auto, unfolding(crate::specs::Phases::service_at))]
fn service(
    alloc: Global,
    phase: Phase,
    done: &[Service],
    value: &Tree<'_>,
) -> Result<Service, WireFault>
    ensures { Gives (λ s. s) result (service_at phase done.now (view value.now)) }
{
    let group = number(value, Avp::RatingGroup, 0, GREATEST_NUMBER)? as u32;
    if is_taken(done, group) {
        return Err(WireFault::Invalid(Avp::RatingGroup));
    }
    let requested = requested(phase, value)?;
    let used = used(alloc, phase, value)?;
    Ok(Service {
        group,
        requested,
        used,
    })
}

fn services_in(alloc: Global, phase: Phase, list: &Items<'_>) -> Result<Vec<Service>, WireFault>
    ensures { Gives (λ v. v.items) result (services_from phase (items_view list.now.items)) }
{
    read_each(
        alloc,
        list,
        |done, value| service(alloc, phase, done, value),
    )
}

fn are_objects(list: &Items<'_>) -> bool
    ensures { result ≡ list_all (λ v. is_some (as_object (view v))) list.now.items }
{
    list.iter().all(|value| is_object(value))
}

fn count_fits(phase: Phase, count: usize) -> bool
    ensures { result ≡ (nat_le (fewest phase) count && nat_le count 16) }
{
    match phase {
        Phase::Termination => count <= MOST_SERVICES,
        Phase::Initial | Phase::Update => (1..=MOST_SERVICES).contains(&count),
    }
}

#[tactic(auto, using(json_fields::proofs::Counts::counts, crate::proofs::Objects::objects_are), unfolding(crate::specs::Phases::services_of))]
fn services_of(alloc: Global, phase: Phase, value: &Tree<'_>) -> Result<Vec<Service>, WireFault>
    ensures { Gives (λ v. v.items) result (services_of phase (view value.now)) }
{
    let list = array(value, Avp::Services)?;
    if !count_fits(phase, list.len()) {
        return Err(WireFault::Invalid(Avp::Services));
    }
    if !are_objects(list) {
        return Err(WireFault::Invalid(Avp::Services));
    }
    services_in(alloc, phase, list)
}

/// The services of a session's request.
#[tactic(auto, unfolding(crate::specs::Phases::services_at))]
pub(crate) fn services(
    alloc: Global,
    phase: Phase,
    parent: &Tree<'_>,
) -> Result<Vec<Service>, WireFault>
    ensures { Gives (λ v. v.items) result (services_at phase (view parent.now)) }
{
    match (phase, get(parent, Avp::Services.name())) {
        (Phase::Termination, None) => Ok(Vec::new(alloc)),
        (_, None) => Err(WireFault::Missing(Avp::Services)),
        (_, Some(value)) => services_of(alloc, phase, value),
    }
}
