//! An answer, written.

ghost use Rattle.std.specs.Prelude.{◌≡◌, IfOk, OnOk, Ok, string_bytes};
ghost use Rattle.std.specs.List.{AllByRecursion};
ghost use Rattle.serde_json.specs.Data.{string, object, array, member, no_members};
ghost use Rattle.commands.specs.Names.{name_of, cost_information, failed_avp, refusal};
ghost use Rattle.json_fields.specs.Spelling.{whole, money_data};
ghost use Rattle.json_fields.specs.Tokens.{Adds, tokens_of, member_tokens, named_tokens};
ghost use Rattle.wire.specs.Spelled.{service_items, failure_named, outcome_named};
ghost use Rattle.wire.specs.Spelled.{outcome_code, code_member, request_answer_data};
ghost use Rattle.wire.specs.Spelled.{answer_data, answer_text, fault_data, fault_text};
ghost use Rattle.wire.specs.Rules.{IsServiceAnswer, IsCost, IsOutcome, IsRequestAnswer, IsAnswer};
ghost use Rattle.wire.specs.ReadingAnswers.{answer_of};

use crate::balances::put_balance;
use crate::services::put_services;
use commands::names::{
    ACCOUNTS, BUCKET, CHECK_BALANCE_RESULT, COST_INFORMATION, FAILED_AVP, REFUSAL, RESULT_CODE,
};
use commands::{Answer, Avp, Cost, Failure, Outcome, RequestAnswer, ServiceAnswers};
use json::Writer;
use json_fields::{WireFault, put_money, put_number, put_text, text_of};
use std::alloc::{AllocError, Global};

fn put_array(out: &mut Writer, services: &ServiceAnswers) -> Result<(), AllocError>
    ensures adds { Adds result out.old out.new
        (member_tokens (name_of Avp.Services) (array (service_items services.now))) }
    ensures rule { OnOk result (AllByRecursion IsServiceAnswer services.now) }
{
    out.key(Avp::Services.name())?;
    out.begin_array()?;
    put_services(out, services.as_slice())?;
    out.end_array()?;
    Ok(())
}

#[tactic(auto, using(json_fields::proofs::Tokens::one_named))]
fn put_failure(out: &mut Writer, failure: Failure) -> Result<(), AllocError>
    ensures { Adds result out.old out.new (named_tokens (failure_named failure)) }
{
    match failure {
        Failure::InvalidAvpValue(avp) => put_text(out, FAILED_AVP, avp.name()),
        _ => Ok(()),
    }
}

fn put_cost(out: &mut Writer, cost: Cost) -> Result<(), AllocError>
    ensures adds { Adds result out.old out.new
        (member_tokens cost_information (money_data cost.micros cost.currency)) }
    ensures rule { OnOk result (IsCost cost) }
{
    out.key(COST_INFORMATION)?;
    put_money(out, cost.micros, cost.currency)?;
    Ok(())
}

#[tactic(auto, using(json_fields::proofs::Tokens::one_named))]
fn put_outcome(out: &mut Writer, outcome: &Outcome) -> Result<(), AllocError>
    ensures adds { Adds result out.old out.new (named_tokens (outcome_named outcome.now)) }
    ensures rule { OnOk result (IsOutcome outcome.now) }
{
    match outcome {
        Outcome::Services(services) => put_array(out, services),
        Outcome::Refunded => Ok(()),
        Outcome::Checked(balance) => put_number(out, CHECK_BALANCE_RESULT, balance.number()),
        Outcome::Priced(cost) => put_cost(out, *cost),
        Outcome::Failed(failure) => put_failure(out, *failure),
    }
}

fn outcome_code(outcome: &Outcome) -> u64
    ensures { result ≡ outcome_code outcome.now }
{
    match outcome {
        Outcome::Failed(failure) => failure.number(),
        _ => 2001,
    }
}

#[tactic(auto, using(json_fields::proofs::Tokens::named_front), unfolding(crate::specs::Spelled::request_answer_data))]
fn put_request_answer(out: &mut Writer, answer: &RequestAnswer) -> Result<(), AllocError>
    ensures adds { Adds result out.old out.new (tokens_of (request_answer_data answer.now)) }
    ensures rule { OnOk result (IsRequestAnswer answer.now) }
{
    out.begin_object()?;
    put_number(out, Avp::RequestNumber.name(), answer.number as u64)?;
    put_number(out, Avp::RequestType.name(), answer.kind.number())?;
    put_outcome(out, &answer.outcome)?;
    put_number(out, RESULT_CODE, outcome_code(&answer.outcome))?;
    put_text(out, Avp::SessionId.name(), answer.session.as_str())?;
    out.end_object()?;
    Ok(())
}

fn put_counted(out: &mut Writer, name: &str, n: u64) -> Result<(), AllocError>
    ensures { Adds result out.old out.new
        (tokens_of (object (member name.now (whole n) (code_member 2001)))) }
{
    out.begin_object()?;
    put_number(out, name, n)?;
    put_number(out, RESULT_CODE, 2001)?;
    out.end_object()?;
    Ok(())
}

fn put_code(out: &mut Writer, code: u64) -> Result<(), AllocError>
    ensures { Adds result out.old out.new (tokens_of (object (code_member code))) }
{
    out.begin_object()?;
    put_number(out, RESULT_CODE, code)?;
    out.end_object()?;
    Ok(())
}

fn put_refusal(out: &mut Writer, name: &str) -> Result<(), AllocError>
    ensures { Adds result out.old out.new
        (tokens_of (object (member refusal (string name.now) no_members))) }
{
    out.begin_object()?;
    put_text(out, REFUSAL, name)?;
    out.end_object()?;
    Ok(())
}

#[tactic(auto, unfolding(crate::specs::Spelled::answer_data))]
fn put_answer(out: &mut Writer, answer: &Answer) -> Result<(), AllocError>
    ensures adds { Adds result out.old out.new (tokens_of (answer_data answer.now)) }
    ensures rule { OnOk result (IsAnswer answer.now) }
{
    match answer {
        Answer::Request(answer) => put_request_answer(out, answer),
        Answer::Done => put_code(out, 2001),
        Answer::Bucket(number) => put_counted(out, BUCKET, *number as u64),
        Answer::Swept(accounts) => put_counted(out, ACCOUNTS, *accounts),
        Answer::Balance(balance) => put_balance(out, balance),
        Answer::Refused(refusal) => put_refusal(out, refusal.name()),
    }
}

/// Room for most answers, in bytes, so that their text doesn't grow step by step.
const ROOM: usize = 256;

#[tactic(auto, unfolding(crate::specs::Spelled::answer_text))]
fn compact(alloc: Global, answer: &Answer) -> Result<String, AllocError>
    ensures text { IfOk result (λ s. string_bytes s ≡ answer_text answer.now) }
    ensures rule { IfOk result (λ s. IsAnswer answer.now) }
{
    let mut out = Writer::new(Vec::with_capacity(alloc, ROOM)?);
    put_answer(&mut out, answer)?;
    Ok(text_of(out))
}

/// The text of an answer: compact JSON, with the members in the byte order of their names. It is
/// read again as the same answer.
///
/// # Errors
/// Out of memory.
// rule: answers
pub fn write_answer(alloc: Global, answer: &Answer) -> Result<String, AllocError>
    ensures text { IfOk result (λ s. string_bytes s ≡ answer_text answer.now) }
    ensures read_again { IfOk result (λ s. answer_of (string_bytes s) ≡ Ok answer.now) }
{
    let text = compact(alloc, answer)?;
    Ok(text)
}

fn put_failed(out: &mut Writer, avp: Avp, code: u64) -> Result<(), AllocError>
    ensures { Adds result out.old out.new
        (tokens_of (object (member failed_avp (string (name_of avp)) (code_member code)))) }
{
    out.begin_object()?;
    put_text(out, FAILED_AVP, avp.name())?;
    put_number(out, RESULT_CODE, code)?;
    out.end_object()?;
    Ok(())
}

#[tactic(auto, unfolding(crate::specs::Spelled::fault_data))]
fn put_fault(out: &mut Writer, fault: WireFault) -> Result<(), AllocError>
    ensures { Adds result out.old out.new (tokens_of (fault_data fault)) }
{
    match fault {
        WireFault::NotRequest => put_code(out, 5012),
        WireFault::Memory => put_code(out, 5012),
        WireFault::Missing(avp) => put_failed(out, avp, 5005),
        WireFault::Invalid(avp) => put_failed(out, avp, 5004),
    }
}

/// The answer to a text that isn't read, as compact JSON.
///
/// # Errors
/// Out of memory.
// rule: answers, fault-answers
#[tactic(auto, unfolding(crate::specs::Spelled::fault_text))]
pub fn write_fault(alloc: Global, fault: WireFault) -> Result<String, AllocError>
    ensures { IfOk result (λ s. string_bytes s ≡ fault_text fault) }
{
    let mut out = Writer::new(Vec::with_capacity(alloc, ROOM)?);
    put_fault(&mut out, fault)?;
    Ok(text_of(out))
}
