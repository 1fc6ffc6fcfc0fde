//! The body of a credit.

ghost use Rattle.std.specs.Prelude.{◌≡◌, ◌≤◌, IfOk, IfSome, OnOk, string_bytes};
ghost use Rattle.units.specs.Words.{no_end, latest_command, latest_moment, greatest_number};
ghost use Rattle.units.specs.Words.{most_money};
ghost use Rattle.json_fields.specs.Gives.{Gives, Says};
ghost use Rattle.json_fields.specs.Fields.{number_at, optional_at};
ghost use Rattle.json_fields.specs.Tokens.{Adds, tokens_of};
ghost use Rattle.json_fields.specs.View.{view};
ghost use Rattle.wire.specs.Credits.{reference_at, credit_at, credit_of, credit_data, credit_text};
ghost use Rattle.wire.specs.Credits.{IsCredit};

use commands::{Avp, Credit, CreditEnd, CreditStart, KeptCredit};
use identifiers::{AccountNumber, Reference};
use json::Writer;
use json_fields::{
    Scratch, Tree, WireFault, document, number, optional_moment, optional_number, put_moment,
    put_number, put_perhaps, put_text, text, text_of,
};
use std::alloc::{AllocError, Global};
use units::{GREATEST_NUMBER, LATEST_COMMAND, MOST_MONEY, Moment, Money, NO_END};

#[tactic(auto, unfolding(crate::specs::Credits::reference_at))]
pub(crate) fn reference(alloc: Global, parent: &Tree<'_>) -> Result<Reference, WireFault>
    ensures { Gives (λ r. r) result (reference_at (view parent.now)) }
{
    let text = text(parent, Avp::Reference)?;
    Reference::new(alloc, text)?.ok_or(WireFault::Invalid(Avp::Reference))
}

/// A number of the type u32, where it is there.
fn scope(group: Option<u64>) -> Option<u32>
    requires { IfSome group (λ n. n ≤ greatest_number) }
    ensures { result ≡ group }
{
    match group {
        None => None,
        Some(group) => Some(group as u32),
    }
}

fn amount(parent: &Tree<'_>) -> Result<Money, WireFault>
    ensures { Says (λ m. m) result
        (number_at Avp.Amount 1 most_money (view parent.now)) }
{
    let micros = number(parent, Avp::Amount, 1, MOST_MONEY)?;
    Money::new(micros).ok_or(WireFault::Invalid(Avp::Amount))
}

fn moment_at(parent: &Tree<'_>, name: Avp, low: u64, high: u64) -> Result<Option<Moment>, WireFault>
    requires { high ≤ latest_moment }
    ensures reads { Says (λ m. m) result (optional_at name low high (view parent.now)) }
    ensures within { IfOk result (λ o. IfSome o (λ m. (low ≤ m) × (m ≤ high))) }
{
    optional_moment(parent, name.name(), WireFault::Invalid(name), low, high)
}

fn start_of(moment: Option<Moment>) -> Option<CreditStart>
    requires { IfSome moment (λ m. (0 ≤ m) × (m ≤ latest_command)) }
    ensures { result ≡ moment }
{
    match moment {
        None => None,
        Some(moment) => CreditStart::new(moment),
    }
}

fn end_of(moment: Option<Moment>) -> Option<CreditEnd>
    requires { IfSome moment (λ m. (1 ≤ m) × (m ≤ no_end)) }
    ensures { result ≡ moment }
{
    match moment {
        None => None,
        Some(moment) => CreditEnd::new(moment),
    }
}

pub(crate) fn start(parent: &Tree<'_>) -> Result<Option<CreditStart>, WireFault>
    ensures { Says (λ s. s) result (optional_at Avp.From 0 latest_command (view parent.now)) }
{
    let moment = moment_at(parent, Avp::From, 0, LATEST_COMMAND)?;
    Ok(start_of(moment))
}

pub(crate) fn end(parent: &Tree<'_>) -> Result<Option<CreditEnd>, WireFault>
    ensures { Says (λ e. e) result (optional_at Avp.Until 1 no_end (view parent.now)) }
{
    let moment = moment_at(parent, Avp::Until, 1, NO_END)?;
    Ok(end_of(moment))
}

/// The credit of this account that an object is, or the first fault in the order of its members.
#[tactic(auto, unfolding(crate::specs::Credits::credit_at))]
pub(crate) fn credit_in(
    alloc: Global,
    account: AccountNumber,
    parent: &Tree<'_>,
) -> Result<Credit, WireFault>
    ensures { Gives (λ c. c) result (credit_at account (view parent.now)) }
{
    let amount = amount(parent)?;
    let from = start(parent)?;
    let until = end(parent)?;
    let scope = scope(optional_number(parent, Avp::Scope, 0, GREATEST_NUMBER)?);
    let reference = reference(alloc, parent)?;
    Ok(Credit {
        account,
        amount,
        from,
        until,
        scope,
        reference,
    })
}

/// The credit of this account that the body of an operator's request is, or the first fault in the
/// order of its members: Amount (1 to 10^15 micro-units), From, Until (seconds since 1970, up to
/// "no end"), Scope, Reference.
///
/// # Errors
/// `NotRequest`, `Missing` and `Invalid` as the members say; `Memory` where memory ran out.
// rule: credit-body
#[tactic(auto, unfolding(crate::specs::Credits::credit_of))]
pub fn read_credit(
    alloc: Global,
    account: AccountNumber,
    bytes: &[u8],
    scratch: &mut Scratch,
) -> Result<Credit, WireFault>
    ensures { Gives (λ c. c) result (credit_of account bytes.now) }
{
    let parent = document(bytes, scratch)?;
    credit_in(alloc, account, &parent)
}

fn group_of(scope: Option<u32>) -> Option<u64>
    ensures value { result ≡ scope }
    ensures within { IfSome scope (λ g. g ≤ greatest_number) }
{
    match scope {
        None => None,
        Some(group) => Some(group as u64),
    }
}

pub(crate) fn started(start: Option<CreditStart>) -> Option<Moment>
    ensures value { result ≡ start }
    ensures within { IfSome start (λ m. m ≤ latest_command) }
{
    match start {
        None => None,
        Some(start) => Some(start.moment()),
    }
}

pub(crate) fn ended(end: Option<CreditEnd>) -> Option<Moment>
    ensures value { result ≡ end }
    ensures within { IfSome end (λ m. (1 ≤ m) × (m ≤ no_end)) }
{
    match end {
        None => None,
        Some(end) => Some(end.moment()),
    }
}

#[tactic(auto, using(json_fields::proofs::Tokens::perhaps_front), unfolding(crate::specs::Credits::credit_data))]
fn put_credit(out: &mut Writer, kept: &KeptCredit) -> Result<(), AllocError>
    ensures adds { Adds result out.old out.new (tokens_of (credit_data kept.now)) }
    ensures rule { OnOk result (IsCredit kept.now) }
{
    let credit = kept.credit();
    out.begin_object()?;
    put_number(out, Avp::Amount.name(), credit.amount.micros())?;
    put_moment(out, Avp::From.name(), started(credit.from))?;
    put_text(out, Avp::Reference.name(), credit.reference.as_str())?;
    put_perhaps(out, Avp::Scope.name(), group_of(credit.scope))?;
    put_moment(out, Avp::Until.name(), ended(credit.until))?;
    out.end_object()?;
    Ok(())
}

/// The text of a credit as it is kept.
#[tactic(auto, unfolding(crate::specs::Credits::credit_text))]
pub(crate) fn credit_written(alloc: Global, credit: &KeptCredit) -> Result<String, AllocError>
    ensures text { IfOk result (λ s. string_bytes s ≡ credit_text credit.now) }
    ensures rule { IfOk result (λ s. IsCredit credit.now) }
{
    let mut out = Writer::new(Vec::new(alloc));
    put_credit(&mut out, credit)?;
    Ok(text_of(out))
}
