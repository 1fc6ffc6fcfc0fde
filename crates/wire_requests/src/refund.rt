//! The money of a refund, read.

ghost use Rattle.std.specs.Prelude.{◌≤◌, ◌≤ℤ◌, ℤ, pos, negsuc, IfOk};
ghost use Rattle.json_fields.specs.Gives.{Says};
ghost use Rattle.json_fields.specs.View.{view};
ghost use Rattle.wire_requests.specs.Refunds.{exponent_at, money_at, refund_at};

use commands::{Avp, Refund};
use json_fields::{Tree, WireFault, as_i64, get, number, object};
use units::{GREATEST_CURRENCY, Money};

#[tactic(auto, unfolding(crate::specs::Refunds::exponent_at))]
fn exponent(parent: &Tree<'_>) -> Result<i32, WireFault>
    ensures reads { Says (λ z. z) result (exponent_at (view parent.now)) }
    ensures within { IfOk result (λ z. (negsuc 5 ≤ℤ z) × (z ≤ℤ pos 0)) }
{
    let Some(value) = get(parent, Avp::Exponent.name()) else {
        return Ok(0);
    };
    let exponent = as_i64(value).ok_or(WireFault::Invalid(Avp::Exponent))?;
    if !(-6..=0).contains(&exponent) {
        return Err(WireFault::Invalid(Avp::Exponent));
    }
    Ok(exponent as i32)
}

#[tactic(auto, using(crate::proofs::Micros::too_many), unfolding(crate::specs::Refunds::money_at))]
fn money(parent: &Tree<'_>) -> Result<Money, WireFault>
    ensures { Says (λ m. m) result (money_at (view parent.now)) }
{
    let digits = number(parent, Avp::ValueDigits, 1, u64::MAX)?;
    let exponent = exponent(parent)?;
    let Ok(digits) = i64::try_from(digits) else {
        return Err(WireFault::Invalid(Avp::ValueDigits));
    };
    match Money::from_digits(digits, exponent) {
        Ok(money) => Ok(money),
        Err(_) => Err(WireFault::Invalid(Avp::ValueDigits)),
    }
}

/// The money of a refund.
#[tactic(auto, using(crate::proofs::Micros::refund_fits), unfolding(crate::specs::Refunds::refund_at))]
pub(crate) fn refund(parent: &Tree<'_>) -> Result<Refund, WireFault>
    ensures { Says (λ r. r) result (refund_at (view parent.now)) }
{
    let requested = object(parent, Avp::RequestedUnit)?;
    let money_told = object(requested, Avp::Money)?;
    let value = object(money_told, Avp::UnitValue)?;
    let money = money(value)?;
    let currency = number(money_told, Avp::CurrencyCode, 0, GREATEST_CURRENCY)? as u16;
    Ok(Refund::new(money, currency))
}
