//! The services of an answer, read.

ghost use Rattle.serde_json.specs.Find.{get};
ghost use Rattle.commands.specs.Names.{granted_unit};
ghost use Rattle.json_fields.specs.Gives.{Gives, Says};
ghost use Rattle.json_fields.specs.View.{view, items_view};
ghost use Rattle.wire.specs.ReadingAnswers.{redirect_at, final_told, final_in, final_at};
ghost use Rattle.wire.specs.ReadingAnswers.{quantity_in, switch_at, session_grant_in};
ghost use Rattle.wire.specs.ReadingAnswers.{granted_in, success_when, service_told};
ghost use Rattle.wire.specs.ReadingAnswers.{service_answer_at, services_from, services_in};

use crate::members;
use commands::names::{
    FINAL_UNIT, FINAL_UNIT_ACTION, GRANTED_UNIT, REDIRECT_SERVER, REDIRECT_SERVER_ADDRESS,
    RESULT_CODE, TARIFF_TIME_CHANGE, VALIDITY_TIME,
};
use commands::{
    Avp, FinalUnit, GrantedServiceUnit, Quantity, ServiceAnswer, ServiceAnswers, ServiceFailure,
    ServiceOutcome,
};
use identifiers::RedirectAddress;
use json_fields::{
    Items, Tree, WireFault, array, get, number, optional_moment, read_each, unit_told, units_in,
};
use std::alloc::Global;
use units::{GREATEST_NUMBER, LATEST_MOMENT, MOST_SECONDS, Moment};

#[tactic(auto, unfolding(crate::specs::ReadingAnswers::redirect_at))]
fn redirect(alloc: Global, parent: &Tree<'_>) -> Result<RedirectAddress, WireFault>
    ensures { Gives (λ a. a) result (redirect_at (view parent.now)) }
{
    let server = members::object(parent, REDIRECT_SERVER)?;
    let text = members::text(server, REDIRECT_SERVER_ADDRESS)?;
    RedirectAddress::new(alloc, text)?.ok_or(WireFault::NotRequest)
}

#[tactic(auto, unfolding(crate::specs::ReadingAnswers::final_told))]
fn final_told(alloc: Global, action: u64, value: &Tree<'_>) -> Result<FinalUnit, WireFault>
    ensures { Gives (λ f. f) result (final_told action (view value.now)) }
{
    if action == 0 {
        Ok(FinalUnit::Terminate)
    } else {
        Ok(FinalUnit::Redirect(redirect(alloc, value)?))
    }
}

#[tactic(auto, unfolding(crate::specs::ReadingAnswers::final_in))]
fn final_in(alloc: Global, value: &Tree<'_>) -> Result<FinalUnit, WireFault>
    ensures { Gives (λ f. f) result (final_in (view value.now)) }
{
    final_told(
        alloc,
        members::number(value, FINAL_UNIT_ACTION, 0, 1)?,
        value,
    )
}

#[tactic(auto, unfolding(crate::specs::ReadingAnswers::final_at))]
fn final_unit(alloc: Global, parent: &Tree<'_>) -> Result<Option<FinalUnit>, WireFault>
    ensures { Gives (λ f. f) result (final_at (view parent.now)) }
{
    match get(parent, FINAL_UNIT) {
        None => Ok(None),
        Some(value) => Ok(Some(final_in(alloc, value)?)),
    }
}

#[tactic(auto, unfolding(crate::specs::ReadingAnswers::quantity_in))]
fn quantity(value: &Tree<'_>) -> Result<Quantity, WireFault>
    ensures { Says (λ q. q) result (quantity_in (view value.now)) }
{
    let kind = unit_told(value).ok_or(WireFault::NotRequest)?;
    let units = units_in(value, WireFault::NotRequest, 1, kind)?;
    Ok(Quantity::new(kind, units))
}

/// When the price of a grant changes, where it does.
fn switch(value: &Tree<'_>) -> Result<Option<Moment>, WireFault>
    ensures { Says (λ m. m) result (switch_at (view value.now)) }
{
    optional_moment(
        value,
        TARIFF_TIME_CHANGE,
        WireFault::NotRequest,
        0,
        LATEST_MOMENT,
    )
}

#[tactic(auto, unfolding(crate::specs::ReadingAnswers::session_grant_in))]
fn session_grant(
    alloc: Global,
    quantity: Quantity,
    validity: u32,
    parent: &Tree<'_>,
    value: &Tree<'_>,
) -> Result<ServiceOutcome, WireFault>
    ensures { Gives (λ o. o) result
        (session_grant_in quantity validity (view parent.now) (view value.now)) }
{
    let switch = switch(value)?;
    let last = final_unit(alloc, parent)?;
    Ok(ServiceOutcome::Granted(GrantedServiceUnit {
        quantity,
        switch,
        validity,
        last,
    }))
}

#[tactic(auto, unfolding(crate::specs::ReadingAnswers::granted_in))]
fn granted_in(
    alloc: Global,
    parent: &Tree<'_>,
    value: &Tree<'_>,
) -> Result<ServiceOutcome, WireFault>
    ensures { Gives (λ o. o) result (granted_in (view parent.now) (view value.now)) }
{
    let quantity = quantity(value)?;
    let Some(validity) = members::optional(parent, VALIDITY_TIME, 0, MOST_SECONDS)? else {
        return Ok(ServiceOutcome::Debited(quantity));
    };
    session_grant(alloc, quantity, validity as u32, parent, value)
}

fn success(alloc: Global, parent: &Tree<'_>) -> Result<ServiceOutcome, WireFault>
    ensures { Gives (λ o. o) result
        (success_when (view parent.now) (get granted_unit (view parent.now))) }
{
    match get(parent, GRANTED_UNIT) {
        None => Ok(ServiceOutcome::Settled),
        Some(value) => granted_in(alloc, parent, value),
    }
}

#[tactic(auto, unfolding(crate::specs::ReadingAnswers::service_told))]
fn service_told(alloc: Global, code: u64, parent: &Tree<'_>) -> Result<ServiceOutcome, WireFault>
    ensures { Gives (λ o. o) result (service_told code (view parent.now)) }
{
    if code == 2001 {
        success(alloc, parent)
    } else {
        let failure = ServiceFailure::numbered(code).ok_or(WireFault::NotRequest)?;
        Ok(ServiceOutcome::Failed(failure))
    }
}

#[tactic(auto, unfolding(crate::specs::ReadingAnswers::service_answer_at))]
fn service_answer(alloc: Global, value: &Tree<'_>) -> Result<ServiceAnswer, WireFault>
    ensures { Gives (λ s. s) result (service_answer_at (view value.now)) }
{
    let group = number(value, Avp::RatingGroup, 0, GREATEST_NUMBER)? as u32;
    let code = members::number(value, RESULT_CODE, 0, 9999)?;
    let outcome = service_told(alloc, code, value)?;
    Ok(ServiceAnswer { group, outcome })
}

fn services_from(alloc: Global, list: &Items<'_>) -> Result<Vec<ServiceAnswer>, WireFault>
    ensures { Gives (λ v. v.items) result (services_from (items_view list.now.items)) }
{
    read_each(alloc, list, |_, value| service_answer(alloc, value))
}

/// The answers to the services of a request.
#[tactic(auto, unfolding(crate::specs::ReadingAnswers::services_in))]
pub(crate) fn services_in(alloc: Global, value: &Tree<'_>) -> Result<ServiceAnswers, WireFault>
    ensures { Gives (λ s. s) result (services_in (view value.now)) }
{
    let list = array(value, Avp::Services)?;
    Ok(ServiceAnswers::new(services_from(alloc, list)?))
}
