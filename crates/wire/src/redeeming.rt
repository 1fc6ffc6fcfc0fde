//! The body of a redemption.

ghost use Rattle.std.specs.Prelude.{◌≡◌, IfOk, OnOk, string_bytes};
ghost use Rattle.json_fields.specs.Gives.{Gives};
ghost use Rattle.json_fields.specs.Tokens.{Adds, tokens_of};
ghost use Rattle.json_fields.specs.View.{view};
ghost use Rattle.wire.specs.Redeemed.{account_at, code_at, redemption_at, redemption_of};
ghost use Rattle.wire.specs.Redeemed.{kept_redemption_at, redemption_data, redemption_text};
ghost use Rattle.wire.specs.Redeemed.{IsRedemption};

use crate::credits::reference;
use commands::{Avp, VoucherRedemption};
use identifiers::{AccountNumber, VoucherCode};
use json::Writer;
use json_fields::{Scratch, Tree, WireFault, document, put_text, text, text_of};
use std::alloc::{AllocError, Global};

/// The account that a redemption is for.
#[tactic(auto, unfolding(crate::specs::Redeemed::account_at))]
fn account(alloc: Global, parent: &Tree<'_>) -> Result<AccountNumber, WireFault>
    ensures { Gives (λ a. a) result (account_at (view parent.now)) }
{
    let text = text(parent, Avp::SubscriptionIdData)?;
    AccountNumber::new(alloc, text)?.ok_or(WireFault::Invalid(Avp::SubscriptionIdData))
}

/// The voucher that a redemption as it is kept names.
#[tactic(auto, unfolding(crate::specs::Redeemed::code_at))]
fn code(alloc: Global, parent: &Tree<'_>) -> Result<VoucherCode, WireFault>
    ensures { Gives (λ c. c) result (code_at (view parent.now)) }
{
    let text = text(parent, Avp::VoucherCode)?;
    VoucherCode::new(alloc, text)?.ok_or(WireFault::Invalid(Avp::VoucherCode))
}

/// The redemption of this voucher that an object is, or the first fault in the order of its
/// members.
// rule: redemption-body
#[tactic(auto, unfolding(crate::specs::Redeemed::redemption_at))]
fn redemption_in(
    alloc: Global,
    code: VoucherCode,
    parent: &Tree<'_>,
) -> Result<VoucherRedemption, WireFault>
    ensures { Gives (λ r. r) result (redemption_at code (view parent.now)) }
{
    let account = account(alloc, parent)?;
    let reference = reference(alloc, parent)?;
    Ok(VoucherRedemption {
        code,
        account,
        reference,
    })
}

/// The redemption of this voucher that the body of an operator's request is, or the first fault in
/// the order of its members: Subscription-Id-Data (the account, 1 to 15 digits), Reference.
///
/// # Errors
/// `NotRequest`, `Missing` and `Invalid` as the members say; `Memory` where memory ran out.
#[tactic(auto, unfolding(crate::specs::Redeemed::redemption_of))]
pub fn read_redeem(
    alloc: Global,
    code: VoucherCode,
    bytes: &[u8],
    scratch: &mut Scratch,
) -> Result<VoucherRedemption, WireFault>
    ensures { Gives (λ r. r) result (redemption_of code bytes.now) }
{
    let parent = document(bytes, scratch)?;
    redemption_in(alloc, code, &parent)
}

/// The redemption that an object says as it is kept.
#[tactic(auto, unfolding(crate::specs::Redeemed::kept_redemption_at))]
pub(crate) fn kept_redemption_in(
    alloc: Global,
    parent: &Tree<'_>,
) -> Result<VoucherRedemption, WireFault>
    ensures { Gives (λ r. r) result (kept_redemption_at (view parent.now)) }
{
    let code = code(alloc, parent)?;
    redemption_in(alloc, code, parent)
}

#[tactic(auto, unfolding(crate::specs::Redeemed::redemption_data))]
fn put_redemption(out: &mut Writer, redemption: &VoucherRedemption) -> Result<(), AllocError>
    ensures adds { Adds result out.old out.new (tokens_of (redemption_data redemption.now)) }
    ensures rule { OnOk result (IsRedemption redemption.now) }
{
    out.begin_object()?;
    put_text(out, Avp::Reference.name(), redemption.reference.as_str())?;
    put_text(
        out,
        Avp::SubscriptionIdData.name(),
        redemption.account.as_str(),
    )?;
    put_text(out, Avp::VoucherCode.name(), redemption.code.as_str())?;
    out.end_object()?;
    Ok(())
}

/// The text of a redemption as it is kept.
#[tactic(auto, unfolding(crate::specs::Redeemed::redemption_text))]
pub(crate) fn redemption_written(
    alloc: Global,
    redemption: &VoucherRedemption,
) -> Result<String, AllocError>
    ensures text { IfOk result (λ s. string_bytes s ≡ redemption_text redemption.now) }
    ensures rule { IfOk result (λ s. IsRedemption redemption.now) }
{
    let mut out = Writer::new(Vec::new(alloc));
    put_redemption(&mut out, redemption)?;
    Ok(text_of(out))
}
