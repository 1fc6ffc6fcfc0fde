//! Answers to requests and to operators.

ghost use Rattle.std.specs.Prelude.{◌≡◌, ◌==◌, nat_eq};
ghost use Rattle.std.specs.List.{find};
ghost use Rattle.std.specs.Cmp.Lexicographic.{pointwise};
ghost use Rattle.commands.specs.Codes.{failure_number, service_failure_number};
ghost use Rattle.commands.specs.Codes.{service_failure_numbered, refusal_name, refusal_named};
ghost use Rattle.commands.specs.Codes.{balance_number, balance_numbered};

use crate::avp::Avp;
use crate::balance::AccountBalance;
use crate::quantity::Quantity;
use crate::request::RequestKind;
use identifiers::{RedirectAddress, SessionId};
use std::marker::Model;
use units::Moment;

/// What happens when the granted units are used up (Final-Unit-Indication, RFC 8506 section 8.34).
#[derive(Clone, Debug)]
pub enum FinalUnit {
    /// TERMINATE: the service ends.
    Terminate,
    /// REDIRECT: the user is sent to this URL.
    Redirect(RedirectAddress),
}

// It is written out, so that a caller doesn't prove again how each part is dropped.
impl Drop for FinalUnit {
    fn drop(self) {
        match self {
            FinalUnit::Terminate => {}
            FinalUnit::Redirect(_) => {}
        }
    }
}

/// Units granted to a service of a session (Granted-Service-Unit, RFC 8506 section 8.17).
#[derive(Clone, Debug)]
pub struct GrantedServiceUnit {
    /// How much is granted: CC-Time, CC-Total-Octets or CC-Service-Specific-Units.
    pub quantity: Quantity,
    /// Tariff-Time-Change (RFC 8506 section 8.20): when the price changes, where it does.
    pub switch: Option<Moment>,
    /// Validity-Time (RFC 8506 section 8.33), in seconds.
    pub validity: u32,
    /// Final-Unit-Indication, where fewer units are granted than wanted.
    pub last: Option<FinalUnit>,
}

// It is written out, so that a caller doesn't prove again how each part is dropped.
impl Drop for GrantedServiceUnit {
    fn drop(self) {
        let GrantedServiceUnit {
            quantity: _,
            switch: _,
            validity: _,
            last: _,
        } = self;
    }
}

/// Why a service isn't granted units (RFC 8506 sections 9.1 and 9.2).
#[derive(Clone, Copy, Debug)]
pub enum ServiceFailure {
    /// 4010, DIAMETER_END_USER_SERVICE_DENIED: the account is barred.
    EndUserServiceDenied,
    /// 4012, DIAMETER_CREDIT_LIMIT_REACHED: the account doesn't cover one unit of a grant,
    /// or the price of a direct debit.
    CreditLimitReached,
    /// 5031, DIAMETER_RATING_FAILED: the rating group is unknown.
    RatingFailed,
}

const SERVICE_FAILURES: [ServiceFailure; 3] = [
    ServiceFailure::EndUserServiceDenied,
    ServiceFailure::CreditLimitReached,
    ServiceFailure::RatingFailed,
];

fn service_failure_numbered(all: &[ServiceFailure], number: u64) -> Option<ServiceFailure>
    ensures { result ≡ find (λ x. service_failure_number x == number) all.now }
{
    all.iter().copied().find(|one| one.number() == number)
}

impl ServiceFailure {
    /// Its Result-Code (RFC 8506 section 9).
    pub fn number(self) -> u64
        ensures { result ≡ service_failure_number self }
    {
        match self {
            ServiceFailure::EndUserServiceDenied => 4010,
            ServiceFailure::CreditLimitReached => 4012,
            ServiceFailure::RatingFailed => 5031,
        }
    }

    /// The failure whose Result-Code this number is; None for any other number.
    pub fn numbered(number: u64) -> Option<ServiceFailure>
        ensures { result ≡ service_failure_numbered number }
    {
        service_failure_numbered(&SERVICE_FAILURES, number)
    }
}

/// What a service is answered; the first three are 2001, DIAMETER_SUCCESS.
#[derive(Clone, Debug)]
pub enum ServiceOutcome {
    /// Nothing was asked for.
    Settled,
    /// Units are granted until the validity time is over.
    Granted(GrantedServiceUnit),
    /// The units of an event were charged.
    Debited(Quantity),
    /// Units were asked for and not granted, or the rating group is unknown.
    Failed(ServiceFailure),
}

// It is written out, so that a caller doesn't prove again how each part is dropped.
impl Drop for ServiceOutcome {
    fn drop(self) {
        match self {
            ServiceOutcome::Settled => {}
            ServiceOutcome::Granted(_) => {}
            ServiceOutcome::Debited(_) => {}
            ServiceOutcome::Failed(_) => {}
        }
    }
}

/// The answer to a service of a request.
#[derive(Clone, Debug)]
pub struct ServiceAnswer {
    /// Rating-Group (RFC 8506 section 8.29).
    pub group: u32,
    /// What the service is answered.
    pub outcome: ServiceOutcome,
}

// It is written out, so that a caller doesn't prove again how each part is dropped.
impl Drop for ServiceAnswer {
    fn drop(self) {
        let ServiceAnswer {
            group: _,
            outcome: _,
        } = self;
    }
}

/// The answers to the services of a request, in its order.
///
/// Contracts see the list.
#[derive(Clone, Debug)]
pub struct ServiceAnswers {
    list: Vec<ServiceAnswer>,
}

// It is written out, so that a caller doesn't prove again how each part is dropped.
impl Drop for ServiceAnswers {
    fn drop(self) {
        let ServiceAnswers { list: _ } = self;
    }
}

impl Model for ServiceAnswers {
    ghost use Rattle.std.specs.Prelude.{List};
    ghost use Rattle.commands.specs.declared.answer.ServiceAnswer.{ServiceAnswer};

    ghost Value = { List ServiceAnswer };

    ghost view = { λ s. s.list.items };
}

impl ServiceAnswers {
    /// These answers.
    pub fn new(list: Vec<ServiceAnswer>) -> ServiceAnswers
        ensures { result ≡ list.items }
    {
        ServiceAnswers { list }
    }

    /// The answers, in the order of the request's services.
    pub fn as_slice(&self) -> &[ServiceAnswer]
        ensures { result.now ≡ self.now }
    {
        self.list.as_slice()
    }
}

/// Whether an account can pay (Check-Balance-Result, RFC 8506 section 8.6).
#[derive(Clone, Copy, Debug)]
pub enum Balance {
    /// ENOUGH_CREDIT
    EnoughCredit,
    /// NO_CREDIT
    NoCredit,
}

const BALANCES: [Balance; 2] = [Balance::EnoughCredit, Balance::NoCredit];

fn balance_numbered(all: &[Balance], number: u64) -> Option<Balance>
    ensures { result ≡ find (λ x. balance_number x == number) all.now }
{
    all.iter().copied().find(|one| one.number() == number)
}

impl Balance {
    /// The number in the text.
    pub fn number(self) -> u64
        ensures { result ≡ balance_number self }
    {
        match self {
            Balance::EnoughCredit => 0,
            Balance::NoCredit => 1,
        }
    }

    /// The balance whose number in the text this is; None for any other number.
    pub fn numbered(number: u64) -> Option<Balance>
        ensures { result ≡ balance_numbered number }
    {
        balance_numbered(&BALANCES, number)
    }
}

/// What units would cost (Cost-Information, RFC 8506 section 8.7).
#[derive(Clone, Copy, Debug)]
pub struct Cost {
    /// Micro-units of the currency.
    pub micros: u64,
    /// The currency's number in ISO 4217.
    pub currency: u16,
}

/// Why a request isn't answered 2001 (RFC 8506 section 9, RFC 6733 section 7.1.5).
#[derive(Clone, Copy, Debug)]
pub enum Failure {
    /// 4010, 4012 or 5031: nothing is granted or charged. The request is accepted, unless it is a
    /// read.
    Denied(ServiceFailure),
    /// 5002, DIAMETER_UNKNOWN_SESSION_ID: the session isn't open.
    UnknownSessionId,
    /// 5004, DIAMETER_INVALID_AVP_VALUE, with the AVP that is at fault.
    InvalidAvpValue(Avp),
    /// 5012, DIAMETER_UNABLE_TO_COMPLY: a stored number would pass its limit.
    UnableToComply,
    /// 5030, DIAMETER_USER_UNKNOWN: there is no such account.
    UserUnknown,
}

impl Failure {
    /// Its Result-Code (RFC 8506 section 9, RFC 6733 section 7.1).
    pub fn number(self) -> u64
        ensures { result ≡ failure_number self }
    {
        match self {
            Failure::Denied(failure) => failure.number(),
            Failure::UnknownSessionId => 5002,
            Failure::InvalidAvpValue(_) => 5004,
            Failure::UnableToComply => 5012,
            Failure::UserUnknown => 5030,
        }
    }
}

/// What a request is answered; all but the last are 2001, DIAMETER_SUCCESS.
#[derive(Clone, Debug)]
pub enum Outcome {
    /// A session's request or a debit, with an answer for each service.
    Services(ServiceAnswers),
    /// Money was paid back.
    Refunded,
    /// Whether the account could pay.
    Checked(Balance),
    /// What the units would cost.
    Priced(Cost),
    /// Any other Result-Code.
    Failed(Failure),
}

// It is written out, so that a caller doesn't prove again how each part is dropped.
impl Drop for Outcome {
    fn drop(self) {
        match self {
            Outcome::Services(_) => {}
            Outcome::Refunded => {}
            Outcome::Checked(_) => {}
            Outcome::Priced(_) => {}
            Outcome::Failed(_) => {}
        }
    }
}

/// The answer to a request (CCA, RFC 8506 section 3.2).
#[derive(Clone, Debug)]
pub struct RequestAnswer {
    /// Session-Id of the request (RFC 6733 section 8.8).
    pub session: SessionId,
    /// CC-Request-Type of the request (RFC 8506 section 8.3).
    pub kind: RequestKind,
    /// CC-Request-Number (RFC 8506 section 8.2).
    pub number: u32,
    /// What the request is answered.
    pub outcome: Outcome,
}

// It is written out, so that a caller doesn't prove again how each part is dropped.
impl Drop for RequestAnswer {
    fn drop(self) {
        let RequestAnswer {
            session: _,
            kind: _,
            number: _,
            outcome: _,
        } = self;
    }
}

/// Why an operator's command is refused (profile).
#[derive(Clone, Copy, Debug)]
pub enum Refusal {
    /// `O1`: the account exists already.
    AccountExists,
    /// `O2`: there is no such account.
    AccountUnknown,
    /// `O3`: there is no such voucher.
    VoucherUnknown,
    /// `O4`: the voucher is spent.
    VoucherSpent,
    /// `O5`: the reference was used with other content, or the voucher is there with other content.
    ContentDiffers,
    /// `O6`: a value is out of range.
    OutOfRange,
    /// `O7`: the scope is no rating group of the book.
    ScopeUnknown,
}

const REFUSALS: [Refusal; 7] = [
    Refusal::AccountExists,
    Refusal::AccountUnknown,
    Refusal::VoucherUnknown,
    Refusal::VoucherSpent,
    Refusal::ContentDiffers,
    Refusal::OutOfRange,
    Refusal::ScopeUnknown,
];

fn refusal_named(all: &[Refusal], name: &str) -> Option<Refusal>
    ensures { result ≡ find (λ r. pointwise nat_eq (refusal_name r) name.now) all.now }
{
    all.iter().copied().find(|refusal| refusal.name() == name)
}

impl Refusal {
    /// The name in the text, `O1` to `O7`.
    pub fn name(self) -> &'static str
        ensures { result.now ≡ refusal_name self }
    {
        match self {
            Refusal::AccountExists => "O1",
            Refusal::AccountUnknown => "O2",
            Refusal::VoucherUnknown => "O3",
            Refusal::VoucherSpent => "O4",
            Refusal::ContentDiffers => "O5",
            Refusal::OutOfRange => "O6",
            Refusal::ScopeUnknown => "O7",
        }
    }

    /// The refusal whose name in the text this is; None for any other name.
    pub fn named(name: &str) -> Option<Refusal>
        ensures { result ≡ refusal_named name.now }
    {
        refusal_named(&REFUSALS, name)
    }
}

/// The answer to a command.
#[derive(Clone, Debug)]
pub enum Answer {
    /// To a request.
    Request(RequestAnswer),
    /// To an account that was opened, barred or unbarred, and to a voucher that was added.
    Done,
    /// To a credit or a redemption: the number of the new bucket.
    Bucket(u32),
    /// To a sweep: the number of accounts.
    Swept(u64),
    /// To a balance.
    Balance(AccountBalance),
    /// To an operator's command that is refused.
    Refused(Refusal),
}

// It is written out, so that a caller doesn't prove again how each part is dropped.
impl Drop for Answer {
    fn drop(self) {
        match self {
            Answer::Request(_) => {}
            Answer::Done => {}
            Answer::Bucket(_) => {}
            Answer::Swept(_) => {}
            Answer::Balance(_) => {}
            Answer::Refused(_) => {}
        }
    }
}
