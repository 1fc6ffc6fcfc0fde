//! An answer, read.

ghost use Rattle.std.specs.Prelude.{◌≡◌, ◌⊎◌, IfOk, Ok};
ghost use Rattle.serde_json.specs.Find.{get};
ghost use Rattle.commands.specs.Names.{name_of, account, cost_information, refusal};
ghost use Rattle.json_fields.specs.Gives.{Gives, Says};
ghost use Rattle.json_fields.specs.View.{view};
ghost use Rattle.wire.specs.Spelled.{answer_data, answer_text};
ghost use Rattle.wire.specs.ReadingAnswers.{failed_at, failure_told, cost_in, priced_when};
ghost use Rattle.wire.specs.ReadingAnswers.{checked_when, unserved_in, served_when};
ghost use Rattle.wire.specs.ReadingAnswers.{outcome_told, request_answer_at, refusal_at};
ghost use Rattle.wire.specs.ReadingAnswers.{done_at, answer_when, balance_when};
ghost use Rattle.wire.specs.ReadingAnswers.{refused_when, answer_of, AnswersReadAgain};
ghost use Rattle.wire.specs.ReadingAnswers.{ReadsTexts, ReadsWritten, AnswersAreInOrder};

use crate::members;
use crate::reading_balances::balance;
use crate::reading_services::services_in;
use crate::writing::write_answer;
use commands::names::{
    ACCOUNT, ACCOUNTS, BUCKET, CHECK_BALANCE_RESULT, COST_INFORMATION, FAILED_AVP, REFUSAL,
    RESULT_CODE,
};
use commands::{
    Answer, Avp, Balance, Cost, Failure, Outcome, Refusal, RequestAnswer, ServiceFailure,
};
use json_fields::{Scratch, Tree, WireFault, document, get, is_text, number, object};
use std::alloc::Global;
use units::GREATEST_NUMBER;
use wire_requests::{request_kind, session_id};

#[tactic(auto, unfolding(crate::specs::ReadingAnswers::failed_at))]
fn failed(parent: &Tree<'_>) -> Result<Failure, WireFault>
    ensures { Says (λ f. f) result (failed_at (view parent.now)) }
{
    let name = members::text(parent, FAILED_AVP)?;
    let avp = Avp::named(name).ok_or(WireFault::NotRequest)?;
    Ok(Failure::InvalidAvpValue(avp))
}

#[tactic(auto, unfolding(crate::specs::ReadingAnswers::failure_told))]
fn failure(code: u64, parent: &Tree<'_>) -> Result<Failure, WireFault>
    ensures { Says (λ f. f) result (failure_told code (view parent.now)) }
{
    match code {
        5002 => Ok(Failure::UnknownSessionId),
        5004 => failed(parent),
        5012 => Ok(Failure::UnableToComply),
        5030 => Ok(Failure::UserUnknown),
        _ => {
            let failure = ServiceFailure::numbered(code).ok_or(WireFault::NotRequest)?;
            Ok(Failure::Denied(failure))
        }
    }
}

#[tactic(auto, unfolding(crate::specs::ReadingAnswers::cost_in))]
fn cost(value: &Tree<'_>) -> Result<Cost, WireFault>
    ensures { Says (λ c. c) result (cost_in (view value.now)) }
{
    let unit_value = object(value, Avp::UnitValue)?;
    let micros = number(unit_value, Avp::ValueDigits, 0, u64::MAX)?;
    let currency = number(value, Avp::CurrencyCode, 0, 65_535)? as u16;
    Ok(Cost { micros, currency })
}

fn priced(parent: &Tree<'_>) -> Result<Outcome, WireFault>
    ensures { Says (λ o. o) result (priced_when (get cost_information (view parent.now))) }
{
    match get(parent, COST_INFORMATION) {
        None => Ok(Outcome::Refunded),
        Some(value) => Ok(Outcome::Priced(cost(value)?)),
    }
}

fn checked(told: Option<u64>, parent: &Tree<'_>) -> Result<Outcome, WireFault>
    ensures { Says (λ o. o) result (checked_when (view parent.now) told) }
{
    match told {
        Some(number) => {
            let balance = Balance::numbered(number).ok_or(WireFault::NotRequest)?;
            Ok(Outcome::Checked(balance))
        }
        None => priced(parent),
    }
}

#[tactic(auto, unfolding(crate::specs::ReadingAnswers::unserved_in))]
fn unserved(parent: &Tree<'_>) -> Result<Outcome, WireFault>
    ensures { Says (λ o. o) result (unserved_in (view parent.now)) }
{
    let balance = members::optional(parent, CHECK_BALANCE_RESULT, 0, 1)?;
    checked(balance, parent)
}

fn served(alloc: Global, parent: &Tree<'_>) -> Result<Outcome, WireFault>
    ensures { Gives (λ o. o) result
        (served_when (view parent.now) (get (name_of Avp.Services) (view parent.now))) }
{
    match get(parent, Avp::Services.name()) {
        Some(value) => Ok(Outcome::Services(services_in(alloc, value)?)),
        None => unserved(parent),
    }
}

#[tactic(auto, unfolding(crate::specs::ReadingAnswers::outcome_told))]
fn outcome(alloc: Global, code: u64, parent: &Tree<'_>) -> Result<Outcome, WireFault>
    ensures { Gives (λ o. o) result (outcome_told code (view parent.now)) }
{
    if code == 2001 {
        served(alloc, parent)
    } else {
        Ok(Outcome::Failed(failure(code, parent)?))
    }
}

#[tactic(auto, unfolding(crate::specs::ReadingAnswers::request_answer_at))]
fn request_answer(alloc: Global, parent: &Tree<'_>) -> Result<RequestAnswer, WireFault>
    ensures { Gives (λ a. a) result (request_answer_at (view parent.now)) }
{
    let session = session_id(alloc, parent)?;
    let kind = request_kind(parent)?;
    let number_told = number(parent, Avp::RequestNumber, 0, GREATEST_NUMBER)? as u32;
    let code = members::number(parent, RESULT_CODE, 0, 9999)?;
    let outcome = outcome(alloc, code, parent)?;
    Ok(RequestAnswer {
        session,
        kind,
        number: number_told,
        outcome,
    })
}

#[tactic(auto, unfolding(crate::specs::ReadingAnswers::refusal_at))]
fn refusal(parent: &Tree<'_>) -> Result<Answer, WireFault>
    ensures { Says (λ a. a) result (refusal_at (view parent.now)) }
{
    let name = members::text(parent, REFUSAL)?;
    let refusal = Refusal::named(name).ok_or(WireFault::NotRequest)?;
    Ok(Answer::Refused(refusal))
}

#[tactic(auto, unfolding(crate::specs::ReadingAnswers::done_at))]
fn done(parent: &Tree<'_>) -> Result<Answer, WireFault>
    ensures { Says (λ a. a) result (done_at (view parent.now)) }
{
    members::number(parent, RESULT_CODE, 2001, 2001)?;
    if let Some(bucket) = members::optional(parent, BUCKET, 0, GREATEST_NUMBER)? {
        return Ok(Answer::Bucket(bucket as u32));
    }
    match members::optional(parent, ACCOUNTS, 0, u64::MAX)? {
        None => Ok(Answer::Done),
        Some(accounts) => Ok(Answer::Swept(accounts)),
    }
}

fn balance_told(alloc: Global, parent: &Tree<'_>) -> Result<Answer, WireFault>
    ensures { Gives (λ a. a) result
        (balance_when (view parent.now) (get account (view parent.now))) }
{
    match get(parent, ACCOUNT) {
        None => done(parent),
        Some(_) => Ok(Answer::Balance(balance(alloc, parent)?)),
    }
}

fn refused(alloc: Global, parent: &Tree<'_>) -> Result<Answer, WireFault>
    ensures { Gives (λ a. a) result
        (refused_when (view parent.now) (get refusal (view parent.now))) }
{
    match get(parent, REFUSAL) {
        None => balance_told(alloc, parent),
        Some(_) => refusal(parent),
    }
}

fn answered(alloc: Global, parent: &Tree<'_>) -> Result<Answer, WireFault>
    ensures { Gives (λ a. a) result
        (answer_when (view parent.now) (get (name_of Avp.SessionId) (view parent.now))) }
{
    match get(parent, Avp::SessionId.name()) {
        Some(_) => Ok(Answer::Request(request_answer(alloc, parent)?)),
        None => refused(alloc, parent),
    }
}

#[tactic(auto, unfolding(crate::specs::ReadingAnswers::answer_of))]
fn answer(alloc: Global, bytes: &[u8], scratch: &mut Scratch) -> Result<Answer, WireFault>
    ensures { Gives (λ a. a) result (answer_of bytes.now) }
{
    let parent = document(bytes, scratch)?;
    answered(alloc, &parent)
}

/// Lack of memory is reported, and no other fault of a text.
fn told(fault: WireFault) -> WireFault
    ensures memory { fault ≡ WireFault.Memory → result ≡ WireFault.Memory }
    ensures other { (result ≡ WireFault.Memory) ⊎ (result ≡ WireFault.NotRequest) }
{
    match fault {
        WireFault::Memory => WireFault::Memory,
        _ => WireFault::NotRequest,
    }
}

/// The answer whose text the bytes are, as `write_answer` writes it.
///
/// # Errors
/// `NotRequest` where the bytes are no answer's text, `Memory` where memory ran out.
// rule: answers.reads-written
pub fn read_answer(alloc: Global, bytes: &[u8]) -> Result<Answer, WireFault>
    // rule: answers.reads-written
    ensures text { IfOk result (λ a. answer_text a ≡ bytes.now) }
    ensures said { IfOk result (λ a. answer_of bytes.now ≡ Ok a) }
    // rule: answers.reads-written
    ensures written { ReadsWritten bytes.now result }
    ensures texts { ReadsTexts bytes.now result }
{
    let mut scratch = Scratch::new(alloc);
    read_answer_with(alloc, bytes, &mut scratch)
}

/// What `read_answer` gives, read with memory that is lent, as `read_content_with` does.
///
/// # Errors
/// Those of `read_answer`.
// rule: answers.reads-written
pub fn read_answer_with(
    alloc: Global,
    bytes: &[u8],
    scratch: &mut Scratch,
) -> Result<Answer, WireFault>
    // rule: answers.reads-written
    ensures text { IfOk result (λ a. answer_text a ≡ bytes.now) }
    ensures said { IfOk result (λ a. answer_of bytes.now ≡ Ok a) }
    // rule: answers.reads-written
    ensures written { ReadsWritten bytes.now result }
    ensures texts { ReadsTexts bytes.now result }
{
    let answer = match answer(alloc, bytes, scratch) {
        Ok(answer) => answer,
        Err(fault) => return Err(told(fault)),
    };
    let text = write_answer(alloc, &answer)?;
    if is_text(&text, bytes) {
        Ok(answer)
    } else {
        Err(WireFault::NotRequest)
    }
}

/// An answer that is written is read again as the same answer.
// rule: answers.answers-read-again
#[tactic(auto, using(crate::proofs::AnswersAgain::answers_again))]
pub fn answer_again()
    ensures { AnswersReadAgain answer_text }
{}

/// The members of an answer, and of each object in it, are in the byte order of their names.
// rule: answers.in-byte-order
#[tactic(auto, using(crate::proofs::AnswersAgain::answers_in_order))]
pub fn answer_in_order()
    ensures { AnswersAreInOrder answer_data }
{}
