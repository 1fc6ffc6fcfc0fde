//! A request, written.

ghost use Rattle.std.specs.Prelude.{◌≡◌, IfOk, OnOk, string_bytes, Ok, true};
ghost use Rattle.serde_json.specs.Data.{array, no_items, item};
ghost use Rattle.json_fields.specs.Tokens.{Adds, tokens_of, member_tokens, named_tokens};
ghost use Rattle.wire_requests.specs.Reading.{request_of};
ghost use Rattle.wire_requests.specs.Spelled.{ask_named, event_data, refund_data};
ghost use Rattle.wire_requests.specs.Spelled.{subscription_data, request_data, request_text};
ghost use Rattle.wire_requests.specs.Rules.{IsEvent, IsAsk, IsRequest, RequestsReadAgain};
ghost use Rattle.wire_requests.specs.Rules.{RequestsAreInOrder};
ghost use Rattle.commands.specs.Refunds.{is_refund};
ghost use Rattle.commands.specs.Names.{name_of};
ghost use Rattle.identifiers.specs.Texts.{is_account_number};

use crate::written_services::{put_service, put_services};
use commands::{Ask, Avp, Event, Refund, Request};
use identifiers::AccountNumber;
use json::Writer;
use json_fields::{put_money, put_number, put_text, text_of};
use std::alloc::{AllocError, Global};

fn put_event_service(out: &mut Writer, event: &Event) -> Result<(), AllocError>
    ensures adds { Adds result out.old out.new
        (member_tokens (name_of Avp.Services) (array (item (event_data event.now) no_items))) }
    ensures rule { OnOk result (IsEvent event.now) }
{
    out.key(Avp::Services.name())?;
    out.begin_array()?;
    put_service(out, event.group, Some(event.requested), &None)?;
    out.end_array()?;
    Ok(())
}

fn put_event(out: &mut Writer, event: &Event) -> Result<(), AllocError>
    ensures adds { Adds result out.old out.new (named_tokens (ask_named (Ask.Event event.now))) }
    ensures rule { OnOk result (IsEvent event.now) }
{
    put_event_service(out, event)?;
    put_number(out, Avp::RequestedAction.name(), event.action.number())?;
    Ok(())
}

#[tactic(auto, unfolding(crate::specs::Spelled::refund_data))]
fn put_refund_money(out: &mut Writer, refund: Refund) -> Result<(), AllocError>
    ensures adds { Adds result out.old out.new (tokens_of (refund_data refund)) }
    ensures rule { OnOk result (is_refund refund.micros refund.currency ≡ true) }
{
    out.begin_object()?;
    out.key(Avp::Money.name())?;
    put_money(out, refund.money().micros(), refund.currency())?;
    out.end_object()?;
    Ok(())
}

fn put_refund(out: &mut Writer, refund: Refund) -> Result<(), AllocError>
    ensures adds { Adds result out.old out.new (named_tokens (ask_named (Ask.Refund refund))) }
    ensures rule { OnOk result (is_refund refund.micros refund.currency ≡ true) }
{
    put_number(out, Avp::RequestedAction.name(), 1)?;
    out.key(Avp::RequestedUnit.name())?;
    put_refund_money(out, refund)?;
    Ok(())
}

#[tactic(auto, using(json_fields::proofs::Tokens::one_named))]
fn put_ask(out: &mut Writer, ask: &Ask) -> Result<(), AllocError>
    ensures adds { Adds result out.old out.new (named_tokens (ask_named ask.now)) }
    ensures rule { OnOk result (IsAsk ask.now) }
{
    match ask {
        Ask::Initial(services) => put_services(out, services.as_slice()),
        Ask::Update(services) => put_services(out, services.as_slice()),
        Ask::Termination(services) => put_services(out, services.as_slice()),
        Ask::Event(event) => put_event(out, event),
        Ask::Refund(refund) => put_refund(out, *refund),
    }
}

#[tactic(auto, unfolding(crate::specs::Spelled::subscription_data))]
fn put_subscription(out: &mut Writer, account: &AccountNumber) -> Result<(), AllocError>
    ensures adds { Adds result out.old out.new (tokens_of (subscription_data account.now)) }
    ensures rule { OnOk result (is_account_number account.now ≡ true) }
{
    out.begin_object()?;
    put_text(out, Avp::SubscriptionIdData.name(), account.as_str())?;
    put_number(out, Avp::SubscriptionIdType.name(), 0)?;
    out.end_object()?;
    Ok(())
}

#[tactic(auto, using(json_fields::proofs::Tokens::named_front), unfolding(crate::specs::Spelled::request_data))]
fn put_request(out: &mut Writer, request: &Request) -> Result<(), AllocError>
    ensures adds { Adds result out.old out.new (tokens_of (request_data request.now)) }
    ensures rule { OnOk result (IsRequest request.now) }
{
    out.begin_object()?;
    put_number(out, Avp::RequestNumber.name(), request.number as u64)?;
    put_number(out, Avp::RequestType.name(), request.kind().number())?;
    put_ask(out, &request.ask)?;
    put_text(out, Avp::SessionId.name(), request.session.as_str())?;
    out.key(Avp::SubscriptionId.name())?;
    put_subscription(out, &request.account)?;
    out.end_object()?;
    Ok(())
}

/// Room for most requests, in bytes, so that their text doesn't grow step by step.
const ROOM: usize = 512;

#[tactic(auto, unfolding(crate::specs::Spelled::request_text))]
fn compact(alloc: Global, request: &Request) -> Result<String, AllocError>
    ensures text { IfOk result (λ s. string_bytes s ≡ request_text request.now) }
    ensures rule { IfOk result (λ s. IsRequest request.now) }
{
    let mut out = Writer::new(Vec::with_capacity(alloc, ROOM)?);
    put_request(&mut out, request)?;
    Ok(text_of(out))
}

/// The text of a request as it is kept: compact JSON, with the members in the byte order of their
/// names. It is read again as the same request.
///
/// # Errors
/// Out of memory.
pub fn write_request(alloc: Global, request: &Request) -> Result<String, AllocError>
    ensures text { IfOk result (λ s. string_bytes s ≡ request_text request.now) }
    ensures read_again { IfOk result (λ s. request_of (string_bytes s) ≡ Ok request.now) }
{
    let text = compact(alloc, request)?;
    Ok(text)
}

/// A request that is written is read again as the same request.
// rule: request-written
#[tactic(auto, using(crate::proofs::RequestsAgain::requests_again))]
pub fn request_again()
    ensures { RequestsReadAgain request_text }
{}

/// The members of a request as it is kept, and of each object in it, are in the byte order of
/// their names.
// rule: request-written.in-byte-order
#[tactic(auto, using(crate::proofs::RequestsAgain::requests_in_order))]
pub fn request_in_order()
    ensures { RequestsAreInOrder request_data }
{}
