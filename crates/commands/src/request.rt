//! A request for credit control.

ghost use Rattle.std.specs.Prelude.{◌≡◌, ◌==◌, ◌↔◌, IsTrue};
ghost use Rattle.std.specs.List.{find};
ghost use Rattle.commands.specs.Codes.{kind_number, kind_numbered, kind_of_ask, action_number};
ghost use Rattle.commands.specs.Codes.{action_numbered};
ghost use Rattle.commands.specs.Refunds.{is_refund};

use crate::service::{InitialServices, Requested, TerminationServices, UpdateServices};
use identifiers::{AccountNumber, SessionId};
use std::marker::Model;
use units::Money;

/// CC-Request-Type (RFC 8506 section 8.3).
#[derive(Clone, Copy, Debug)]
pub enum RequestKind {
    /// INITIAL_REQUEST
    Initial,
    /// UPDATE_REQUEST
    Update,
    /// TERMINATION_REQUEST
    Termination,
    /// EVENT_REQUEST
    Event,
}

const KINDS: [RequestKind; 4] = [
    RequestKind::Initial,
    RequestKind::Update,
    RequestKind::Termination,
    RequestKind::Event,
];

fn kind_numbered(all: &[RequestKind], number: u64) -> Option<RequestKind>
    ensures { result ≡ find (λ x. kind_number x == number) all.now }
{
    all.iter().copied().find(|one| one.number() == number)
}

impl RequestKind {
    /// The number of the type in the text, 1 to 4.
    pub fn number(self) -> u64
        ensures { result ≡ kind_number self }
    {
        match self {
            RequestKind::Initial => 1,
            RequestKind::Update => 2,
            RequestKind::Termination => 3,
            RequestKind::Event => 4,
        }
    }

    /// The type whose number in the text this is; None for any other number.
    pub fn numbered(number: u64) -> Option<RequestKind>
        ensures { result ≡ kind_numbered number }
    {
        kind_numbered(&KINDS, number)
    }
}

/// What an event asks for (Requested-Action, RFC 8506 section 8.41); a refund is `Ask::Refund`.
#[derive(Clone, Copy, Debug, PartialEq, Eq)]
pub enum EventAction {
    /// DIRECT_DEBITING: the units are charged at once.
    DirectDebiting,
    /// CHECK_BALANCE: whether the account could pay for the units.
    CheckBalance,
    /// PRICE_ENQUIRY: what the units would cost.
    PriceEnquiry,
}

const ACTIONS: [EventAction; 3] = [
    EventAction::DirectDebiting,
    EventAction::CheckBalance,
    EventAction::PriceEnquiry,
];

fn action_numbered(all: &[EventAction], number: u64) -> Option<EventAction>
    ensures { result ≡ find (λ x. action_number x == number) all.now }
{
    all.iter().copied().find(|one| one.number() == number)
}

impl EventAction {
    /// The number of the action in the text.
    pub fn number(self) -> u64
        ensures { result ≡ action_number self }
    {
        match self {
            EventAction::DirectDebiting => 0,
            EventAction::CheckBalance => 2,
            EventAction::PriceEnquiry => 3,
        }
    }

    /// The action whose number in the text this is; None for any other number.
    pub fn numbered(number: u64) -> Option<EventAction>
        ensures { result ≡ action_numbered number }
    {
        action_numbered(&ACTIONS, number)
    }
}

/// An event of one service (Immediate Event Charging, 3GPP TS 32.299 clause 6.3).
#[derive(Clone, Copy, Debug, PartialEq, Eq)]
pub struct Event {
    /// What the event asks for (Requested-Action, RFC 8506 section 8.41).
    pub action: EventAction,
    /// Rating-Group (RFC 8506 section 8.29).
    pub group: u32,
    /// The units that the event asks for (Requested-Service-Unit, RFC 8506 section 8.18).
    pub requested: Requested,
}

/// Money that is paid back: 1 to 10^15 micro-units of a currency, by its number from 0 to 999
/// (CC-Money, RFC 8506 section 8.22; ISO 4217).
///
/// Contracts see a record of the micro-units and the currency.
#[derive(Clone, Copy, Debug, PartialEq, Eq)]
pub struct Refund {
    money: Money,
    currency: u16,
}

impl Model for Refund {
    ghost use Rattle.std.specs.Prelude.{IsTrue};
    ghost use Rattle.commands.specs.Refunds.{Refunded, is_refund};

    ghost Value = { Refunded };

    ghost view = { λ r. record { micros = r.money; currency = r.currency } };

    ghost invariant = { λ r. IsTrue (is_refund r.money r.currency) };

    ghost inverse = { λ r. record { money = r.micros; currency = r.currency } };
}

impl Refund {
    /// The refund of this money.
    pub fn new(money: Money, currency: u16) -> Refund
        requires { IsTrue (is_refund money currency) }
        ensures money { result.micros ≡ money }
        ensures currency { result.currency ≡ currency }
    {
        Refund { money, currency }
    }

    /// How much is paid back.
    pub fn money(self) -> Money
        ensures value { result ≡ self.micros }
        ensures in_range { IsTrue (is_refund self.micros self.currency) }
    {
        self.money
    }

    /// The number of its currency.
    pub fn currency(self) -> u16
        ensures { result ≡ self.currency }
    {
        self.currency
    }
}

/// What a request asks for, by its type.
#[derive(Clone, Debug, PartialEq, Eq)]
pub enum Ask {
    /// A session begins and asks for units.
    Initial(InitialServices),
    /// A session reports and asks for more.
    Update(UpdateServices),
    /// A session reports and ends.
    Termination(TerminationServices),
    /// An event of one service.
    Event(Event),
    /// An event that pays money back (REFUND_ACCOUNT).
    Refund(Refund),
}

// It is written out, so that a caller doesn't prove again how each part is dropped.
impl Drop for Ask {
    fn drop(self) {
        match self {
            Ask::Initial(_) => {}
            Ask::Update(_) => {}
            Ask::Termination(_) => {}
            Ask::Event(_) => {}
            Ask::Refund(_) => {}
        }
    }
}

/// A request for credit control (CCR, RFC 8506 section 3.1). A repeat of it has an equal value.
#[derive(Clone, Debug, PartialEq, Eq)]
pub struct Request {
    /// Session-Id (RFC 6733 section 8.8).
    pub session: SessionId,
    /// CC-Request-Number (RFC 8506 section 8.2).
    pub number: u32,
    /// Subscription-Id (RFC 8506 section 8.46).
    pub account: AccountNumber,
    /// What the request asks for.
    pub ask: Ask,
}

// It is written out, so that a caller doesn't prove again how each part is dropped.
impl Drop for Request {
    fn drop(self) {
        let Request {
            session: _,
            number: _,
            account: _,
            ask: _,
        } = self;
    }
}

impl Request {
    /// Its CC-Request-Type.
    pub fn kind(&self) -> RequestKind
        ensures { result ≡ kind_of_ask self.now.ask }
    {
        match &self.ask {
            Ask::Initial(_) => RequestKind::Initial,
            Ask::Update(_) => RequestKind::Update,
            Ask::Termination(_) => RequestKind::Termination,
            Ask::Event(_) | Ask::Refund(_) => RequestKind::Event,
        }
    }
}

/// Whether two requests are the same: a request that comes again with the same content is a repeat
/// (profile).
// rule: equal-content
#[tactic(auto, using(crate::proofs::Exact::request_exact))]
pub fn same_request(a: &Request, b: &Request) -> bool
    ensures { IsTrue result ↔ (a.now ≡ b.now) }
{
    a == b
}
