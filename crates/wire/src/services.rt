//! The services of an answer, written.

ghost use Rattle.std.specs.Prelude.{◌≡◌, ◌++◌, ◌≤◌, IfSome, OnOk, option_map, true};
ghost use Rattle.std.specs.List.{AllByRecursion};
ghost use Rattle.units.specs.Words.{latest_moment, most_seconds};
ghost use Rattle.identifiers.specs.Texts.{is_redirect_address};
ghost use Rattle.commands.specs.Quantities.{is_quantity};
ghost use Rattle.json_fields.specs.Tokens.{Adds, tokens_of, member_tokens, perhaps_tokens};
ghost use Rattle.json_fields.specs.Tokens.{item_tokens};
ghost use Rattle.wire.specs.Spelled.{granted_data, server_data, final_data, final_of};
ghost use Rattle.wire.specs.Spelled.{granted_of, validity_of, service_code, service_data};
ghost use Rattle.wire.specs.Spelled.{service_items};
ghost use Rattle.commands.specs.Names.{final_unit, granted_unit};
ghost use Rattle.wire.specs.Rules.{IsFinal, IsGrant, IsServiceOutcome, IsServiceAnswer};

use commands::names::{
    FINAL_UNIT, FINAL_UNIT_ACTION, GRANTED_UNIT, REDIRECT_ADDRESS_TYPE, REDIRECT_SERVER,
    REDIRECT_SERVER_ADDRESS, RESULT_CODE, TARIFF_TIME_CHANGE, VALIDITY_TIME,
};
use commands::{Avp, FinalUnit, GrantedServiceUnit, Quantity, ServiceAnswer, ServiceOutcome};
use identifiers::RedirectAddress;
use json::Writer;
use json_fields::{put_moment, put_number, put_perhaps, put_text, unit_name};
use std::alloc::AllocError;
use units::Moment;

#[tactic(auto, using(json_fields::proofs::Tokens::perhaps_front), unfolding(crate::specs::Spelled::granted_data))]
fn put_granted(
    out: &mut Writer,
    quantity: Quantity,
    switch: Option<Moment>,
) -> Result<(), AllocError>
    ensures adds { Adds result out.old out.new (tokens_of (granted_data quantity switch)) }
    ensures rule { OnOk result (is_quantity quantity.kind quantity.units ≡ true) }
    ensures switch { OnOk result (IfSome switch (λ m. m ≤ latest_moment)) }
{
    out.begin_object()?;
    put_number(out, unit_name(quantity.kind()), quantity.units())?;
    put_moment(out, TARIFF_TIME_CHANGE, switch)?;
    out.end_object()?;
    Ok(())
}

#[tactic(auto, unfolding(crate::specs::Spelled::server_data))]
fn put_server(out: &mut Writer, address: &RedirectAddress) -> Result<(), AllocError>
    ensures adds { Adds result out.old out.new (tokens_of (server_data address.now)) }
    ensures rule { OnOk result (is_redirect_address address.now ≡ true) }
{
    out.begin_object()?;
    put_number(out, REDIRECT_ADDRESS_TYPE, 2)?;
    put_text(out, REDIRECT_SERVER_ADDRESS, address.as_str())?;
    out.end_object()?;
    Ok(())
}

fn put_redirect(out: &mut Writer, address: &RedirectAddress) -> Result<(), AllocError>
    ensures adds { Adds result out.old out.new
        (tokens_of (final_data (FinalUnit.Redirect address.now))) }
    ensures rule { OnOk result (is_redirect_address address.now ≡ true) }
{
    out.begin_object()?;
    put_number(out, FINAL_UNIT_ACTION, 1)?;
    out.key(REDIRECT_SERVER)?;
    put_server(out, address)?;
    out.end_object()?;
    Ok(())
}

fn put_terminate(out: &mut Writer) -> Result<(), AllocError>
    ensures { Adds result out.old out.new (tokens_of (final_data FinalUnit.Terminate)) }
{
    out.begin_object()?;
    put_number(out, FINAL_UNIT_ACTION, 0)?;
    out.end_object()?;
    Ok(())
}

fn put_final(out: &mut Writer, last: &FinalUnit) -> Result<(), AllocError>
    ensures adds { Adds result out.old out.new (tokens_of (final_data last.now)) }
    ensures rule { OnOk result (IsFinal last.now) }
{
    match last {
        FinalUnit::Terminate => put_terminate(out),
        FinalUnit::Redirect(address) => put_redirect(out, address),
    }
}

fn put_last(out: &mut Writer, last: &Option<FinalUnit>) -> Result<(), AllocError>
    ensures adds { Adds result out.old out.new
        (perhaps_tokens final_unit (option_map final_data last.now)) }
    ensures rule { OnOk result (IfSome last.now IsFinal) }
{
    match last {
        None => Ok(()),
        Some(last) => {
            out.key(FINAL_UNIT)?;
            put_final(out, last)?;
            Ok(())
        }
    }
}

fn put_units(out: &mut Writer, quantity: Quantity, switch: Option<Moment>) -> Result<(), AllocError>
    ensures adds { Adds result out.old out.new
        (member_tokens granted_unit (granted_data quantity switch)) }
    ensures rule { OnOk result (is_quantity quantity.kind quantity.units ≡ true) }
    ensures switch { OnOk result (IfSome switch (λ m. m ≤ latest_moment)) }
{
    out.key(GRANTED_UNIT)?;
    put_granted(out, quantity, switch)?;
    Ok(())
}

fn put_session_grant(out: &mut Writer, granted: &GrantedServiceUnit) -> Result<(), AllocError>
    ensures adds { Adds result out.old out.new
        (perhaps_tokens final_unit (option_map final_data granted.now.last)
        ++ member_tokens granted_unit (granted_data granted.now.quantity granted.now.switch)) }
    ensures rule { OnOk result (IsGrant granted.now) }
{
    put_last(out, &granted.last)?;
    put_units(out, granted.quantity, granted.switch)?;
    Ok(())
}

/// The members that are before the rating group.
fn put_grant(out: &mut Writer, outcome: &ServiceOutcome) -> Result<(), AllocError>
    ensures adds { Adds result out.old out.new
        (perhaps_tokens final_unit (final_of outcome.now)
        ++ perhaps_tokens granted_unit (granted_of outcome.now)) }
    ensures rule { OnOk result (IsServiceOutcome outcome.now) }
{
    match outcome {
        ServiceOutcome::Settled | ServiceOutcome::Failed(_) => Ok(()),
        ServiceOutcome::Debited(quantity) => put_units(out, *quantity, None),
        ServiceOutcome::Granted(granted) => put_session_grant(out, granted),
    }
}

fn validity_of(outcome: &ServiceOutcome) -> Option<u64>
    ensures value { result ≡ validity_of outcome.now }
    ensures within { IfSome result (λ n. n ≤ most_seconds) }
{
    match outcome {
        ServiceOutcome::Granted(granted) => Some(granted.validity as u64),
        _ => None,
    }
}

fn service_code(outcome: &ServiceOutcome) -> u64
    ensures { result ≡ service_code outcome.now }
{
    match outcome {
        ServiceOutcome::Failed(failure) => failure.number(),
        _ => 2001,
    }
}

#[tactic(auto, using(json_fields::proofs::Tokens::perhaps_front), unfolding(crate::specs::Spelled::service_data))]
fn put_service(out: &mut Writer, service: &ServiceAnswer) -> Result<(), AllocError>
    ensures adds { Adds result out.old out.new (tokens_of (service_data service.now)) }
    ensures rule { OnOk result (IsServiceAnswer service.now) }
{
    out.begin_object()?;
    put_grant(out, &service.outcome)?;
    put_number(out, Avp::RatingGroup.name(), service.group as u64)?;
    put_number(out, RESULT_CODE, service_code(&service.outcome))?;
    put_perhaps(out, VALIDITY_TIME, validity_of(&service.outcome))?;
    out.end_object()?;
    Ok(())
}

/// The answers to the services, between the brackets of their array.
pub(crate) fn put_services(out: &mut Writer, services: &[ServiceAnswer]) -> Result<(), AllocError>
    ensures adds { Adds result out.old out.new (item_tokens (service_items services.now)) }
    ensures rule { OnOk result (AllByRecursion IsServiceAnswer services.now) }
{
    for service in services {
        put_service(out, service)?;
    }
    Ok(())
}
