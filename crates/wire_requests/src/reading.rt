//! A request, read.

ghost use Rattle.json_fields.specs.Gives.{Gives, Says, or_fault};
ghost use Rattle.json_fields.specs.View.{view, items_view};
ghost use Rattle.wire_requests.specs.Reading.{session_at, kind_at, account_at, only_item, event_of};
ghost use Rattle.wire_requests.specs.Reading.{event_at, action_at, ask_at, request_in, request_of};
ghost use Rattle.wire_requests.specs.Said.{ReadsWhatIsSaid};
ghost use Rattle.wire_requests.specs.Told.{FaultsAreTold};
ghost use Rattle.wire_requests.specs.Free.{ReadsAllThatIsSaid, ReadsOnlyWhatIsFree};

use crate::phase::Phase;
use crate::refund::refund;
use crate::reports::required;
use crate::services::services;
use commands::{
    Ask, Avp, Event, EventAction, InitialServices, Request, RequestKind, TerminationServices,
    UpdateServices,
};
use identifiers::{AccountNumber, SessionId};
use json_fields::{
    Items, Scratch, Tree, WireFault, array, document, get, is_object, member, number, object, text,
};
use std::alloc::Global;
use units::GREATEST_NUMBER;

/// The Requested-Action that is no event's (RFC 8506 section 8.41).
const REFUND_ACCOUNT: u64 = 1;

/// The Session-Id of a request or an answer.
///
/// # Errors
/// Of Session-Id: `Missing` where it isn't there, `Invalid` where it isn't the name of a session;
/// `Memory` where memory ran out.
#[tactic(auto, unfolding(crate::specs::Reading::session_at))]
pub fn session_id(alloc: Global, parent: &Tree<'_>) -> Result<SessionId, WireFault>
    ensures { Gives (λ s. s) result (session_at (view parent.now)) }
{
    let text = text(parent, Avp::SessionId)?;
    SessionId::new(alloc, text)?.ok_or(WireFault::Invalid(Avp::SessionId))
}

/// The CC-Request-Type of a request or an answer.
///
/// # Errors
/// Of CC-Request-Type: `Missing` where it isn't there, `Invalid` where it isn't a number from 1 to
/// 4.
#[tactic(auto, unfolding(crate::specs::Reading::kind_at))]
pub fn request_kind(parent: &Tree<'_>) -> Result<RequestKind, WireFault>
    ensures { Says (λ k. k) result (kind_at (view parent.now)) }
{
    let number = number(parent, Avp::RequestType, 1, 4)?;
    RequestKind::numbered(number).ok_or(WireFault::Invalid(Avp::RequestType))
}

/// The account that the Subscription-Id of a request names.
///
/// # Errors
/// The first fault in this order: Subscription-Id is `Missing`, or `Invalid` where it is no object;
/// in it Subscription-Id-Type is `Missing`, or `Invalid` where it isn't 0; Subscription-Id-Data is
/// `Missing`, or `Invalid` where it isn't the number of an account. `Memory` where memory ran out.
#[tactic(auto, unfolding(crate::specs::Reading::account_at))]
pub fn account_number(alloc: Global, parent: &Tree<'_>) -> Result<AccountNumber, WireFault>
    ensures { Gives (λ n. n) result (account_at (view parent.now)) }
{
    let subscription = object(parent, Avp::SubscriptionId)?;
    number(subscription, Avp::SubscriptionIdType, 0, 0)?;
    let text = text(subscription, Avp::SubscriptionIdData)?;
    AccountNumber::new(alloc, text)?.ok_or(WireFault::Invalid(Avp::SubscriptionIdData))
}

#[tactic(auto, using(crate::proofs::Objects::not_one))]
fn only_item<'v, 'a>(list: &'v Items<'a>) -> Result<&'v Tree<'a>, WireFault>
    ensures { Says (λ v. view v.now) result
        (or_fault (WireFault.Invalid Avp.Services) (only_item (items_view list.now.items))) }
{
    if list.len() == 1 {
        Ok(&list[0])
    } else {
        Err(WireFault::Invalid(Avp::Services))
    }
}

#[tactic(auto, unfolding(crate::specs::Reading::event_of))]
fn event_of(action: EventAction, value: &Tree<'_>) -> Result<Event, WireFault>
    ensures { Says (λ e. e) result (event_of action (view value.now)) }
{
    let list = array(value, Avp::Services)?;
    let service = only_item(list)?;
    if !is_object(service) {
        return Err(WireFault::Invalid(Avp::Services));
    }
    let group = number(service, Avp::RatingGroup, 0, GREATEST_NUMBER)? as u32;
    let requested = required(service)?;
    if get(service, Avp::UsedUnit.name()).is_some() {
        return Err(WireFault::Invalid(Avp::UsedUnit));
    }
    Ok(Event {
        action,
        group,
        requested,
    })
}

#[tactic(auto, unfolding(crate::specs::Reading::event_at))]
fn event(action: EventAction, parent: &Tree<'_>) -> Result<Ask, WireFault>
    ensures { Says (λ a. a) result (event_at action (view parent.now)) }
{
    let value = member(parent, Avp::Services)?;
    Ok(Ask::Event(event_of(action, value)?))
}

#[tactic(auto, unfolding(crate::specs::Reading::action_at))]
fn action(number: u64, parent: &Tree<'_>) -> Result<Ask, WireFault>
    ensures { Says (λ a. a) result (action_at number (view parent.now)) }
{
    if number == REFUND_ACCOUNT {
        return Ok(Ask::Refund(refund(parent)?));
    }
    let action = EventAction::numbered(number).ok_or(WireFault::Invalid(Avp::RequestedAction))?;
    event(action, parent)
}

#[tactic(auto, using(crate::proofs::Kept::initial, crate::proofs::Kept::update, crate::proofs::Kept::termination), unfolding(crate::specs::Reading::ask_at))]
fn ask(alloc: Global, kind: RequestKind, parent: &Tree<'_>) -> Result<Ask, WireFault>
    ensures { Gives (λ a. a) result (ask_at kind (view parent.now)) }
{
    match kind {
        RequestKind::Initial => {
            let list = services(alloc, Phase::Initial, parent)?;
            Ok(Ask::Initial(InitialServices::new(list)))
        }
        RequestKind::Update => {
            let list = services(alloc, Phase::Update, parent)?;
            Ok(Ask::Update(UpdateServices::new(list)))
        }
        RequestKind::Termination => {
            let list = services(alloc, Phase::Termination, parent)?;
            Ok(Ask::Termination(TerminationServices::new(list)))
        }
        RequestKind::Event => action(number(parent, Avp::RequestedAction, 0, 3)?, parent),
    }
}

/// The request that an object is, or the first fault in the order of the fields: Session-Id,
/// CC-Request-Type, CC-Request-Number, Subscription-Id with its type and data, Requested-Action of
/// an event, the money of a refund, and else the services, each with its Rating-Group,
/// Requested-Service-Unit and Used-Service-Unit. Other members are ignored.
///
/// # Errors
/// `Missing` and `Invalid` as the fields say; `Memory` where memory ran out.
#[tactic(auto, unfolding(crate::specs::Reading::request_in))]
pub fn request(alloc: Global, parent: &Tree<'_>) -> Result<Request, WireFault>
    ensures { Gives (λ r. r) result (request_in (view parent.now)) }
{
    let session = session_id(alloc, parent)?;
    let kind = request_kind(parent)?;
    let number = number(parent, Avp::RequestNumber, 0, GREATEST_NUMBER)? as u32;
    let account = account_number(alloc, parent)?;
    let ask = ask(alloc, kind, parent)?;
    Ok(Request {
        session,
        number,
        account,
        ask,
    })
}

/// The request that the bytes are, or the first fault.
///
/// # Errors
/// `NotRequest` where the bytes are no JSON object, `Missing` and `Invalid` as `request` says;
/// `Memory` where memory ran out.
// rule: request-fields
#[tactic(auto, unfolding(crate::specs::Reading::request_of))]
pub fn read_request(
    alloc: Global,
    bytes: &[u8],
    scratch: &mut Scratch,
) -> Result<Request, WireFault>
    ensures { Gives (λ r. r) result (request_of bytes.now) }
{
    let parent = document(bytes, scratch)?;
    request(alloc, &parent)
}

/// What is read of a request is said by its members, whatever their order: its session, its type,
/// its number and its account, and each service, the event or the refund that it asks.
// rule: request-fields.reads-what-is-said
pub fn request_is_said()
    ensures { ReadsWhatIsSaid }
{}

/// What is said of a request is read, whatever the order of its members and whatever else it has,
/// where nothing is in its way: a Requested-Service-Unit of a service is an object without
/// CC-Money, and the Exponent of a refund is from -6 to 0 (RFC 8506 sections 8.9 and 8.18). So it
/// is of each that is read.
// rule: request-fields.free
pub fn request_is_read()
    ensures read { ReadsAllThatIsSaid }
    ensures free { ReadsOnlyWhatIsFree }
{}

/// A fault of a request is reported of a member: missing only where the object that has to hold it
/// has none of that name, invalid only where it has one.
// rule: request-faults
pub fn request_fault_is_told()
    ensures { FaultsAreTold }
{}
