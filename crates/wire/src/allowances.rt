//! The body of an allowance.

ghost use Rattle.std.specs.Prelude.{◌≡◌, ◌≤◌, IfOk, OnOk, string_bytes};
ghost use Rattle.units.specs.Words.{greatest_number, most_blocks};
ghost use Rattle.json_fields.specs.Gives.{Gives, Says};
ghost use Rattle.json_fields.specs.Fields.{number_at};
ghost use Rattle.json_fields.specs.Tokens.{Adds, tokens_of};
ghost use Rattle.json_fields.specs.View.{view};
ghost use Rattle.wire.specs.Allowances.{allowance_at, allowance_of, allowance_data};
ghost use Rattle.wire.specs.Allowances.{allowance_text, IsAllowance};

use crate::credits::{end, ended, reference, start, started};
use commands::{Allowance, AllowanceBlocks, Avp};
use identifiers::AccountNumber;
use json::Writer;
use json_fields::{
    Scratch, Tree, WireFault, document, number, put_moment, put_number, put_text, text_of,
};
use std::alloc::{AllocError, Global};
use units::{Blocks, GREATEST_NUMBER, MOST_BLOCKS};

fn blocks(parent: &Tree<'_>) -> Result<AllowanceBlocks, WireFault>
    ensures { Says (λ b. b) result (number_at Avp.Blocks 1 most_blocks (view parent.now)) }
{
    let number = number(parent, Avp::Blocks, 1, MOST_BLOCKS)?;
    AllowanceBlocks::new(Blocks(number)).ok_or(WireFault::Invalid(Avp::Blocks))
}

/// The allowance of this account that an object is, or the first fault in the order of its members.
#[tactic(auto, unfolding(crate::specs::Allowances::allowance_at))]
pub(crate) fn allowance_in(
    alloc: Global,
    account: AccountNumber,
    parent: &Tree<'_>,
) -> Result<Allowance, WireFault>
    ensures { Gives (λ a. a) result (allowance_at account (view parent.now)) }
{
    let blocks = blocks(parent)?;
    let from = start(parent)?;
    let until = end(parent)?;
    let scope = number(parent, Avp::Scope, 0, GREATEST_NUMBER)? as u32;
    let reference = reference(alloc, parent)?;
    Ok(Allowance {
        account,
        blocks,
        from,
        until,
        scope,
        reference,
    })
}

/// The allowance of this account that the body of an operator's request is, or the first fault in
/// the order of its members: Blocks (1 to 10^9), From, Until (seconds since 1970, up to "no end"),
/// Scope (the rating group), Reference.
///
/// # Errors
/// `NotRequest`, `Missing` and `Invalid` as the members say; `Memory` where memory ran out.
// rule: allowance-body
#[tactic(auto, unfolding(crate::specs::Allowances::allowance_of))]
pub fn read_allow(
    alloc: Global,
    account: AccountNumber,
    bytes: &[u8],
    scratch: &mut Scratch,
) -> Result<Allowance, WireFault>
    ensures { Gives (λ a. a) result (allowance_of account bytes.now) }
{
    let parent = document(bytes, scratch)?;
    allowance_in(alloc, account, &parent)
}

fn number_of(blocks: AllowanceBlocks) -> u64
    ensures value { result ≡ blocks }
    ensures within { (1 ≤ result) × (result ≤ most_blocks) }
{
    blocks.blocks().0
}

fn group_of(scope: u32) -> u64
    ensures value { result ≡ scope }
    ensures within { result ≤ greatest_number }
{
    scope as u64
}

#[tactic(auto, using(json_fields::proofs::Tokens::perhaps_front), unfolding(crate::specs::Allowances::allowance_data))]
fn put_allowance(out: &mut Writer, allowance: &Allowance) -> Result<(), AllocError>
    ensures adds { Adds result out.old out.new (tokens_of (allowance_data allowance.now)) }
    ensures rule { OnOk result (IsAllowance allowance.now) }
{
    out.begin_object()?;
    put_number(out, Avp::Blocks.name(), number_of(allowance.blocks))?;
    put_moment(out, Avp::From.name(), started(allowance.from))?;
    put_text(out, Avp::Reference.name(), allowance.reference.as_str())?;
    put_number(out, Avp::Scope.name(), group_of(allowance.scope))?;
    put_moment(out, Avp::Until.name(), ended(allowance.until))?;
    out.end_object()?;
    Ok(())
}

/// The text of an allowance as it is kept.
#[tactic(auto, unfolding(crate::specs::Allowances::allowance_text))]
pub(crate) fn allowance_written(alloc: Global, allowance: &Allowance) -> Result<String, AllocError>
    ensures text { IfOk result (λ s. string_bytes s ≡ allowance_text allowance.now) }
    ensures rule { IfOk result (λ s. IsAllowance allowance.now) }
{
    let mut out = Writer::new(Vec::new(alloc));
    put_allowance(&mut out, allowance)?;
    Ok(text_of(out))
}
