//! A voucher that is redeemed.

ghost use Rattle.voucher_rules.specs.Redeeming.{Redeems};

use crate::civil_days::CivilDays;
use crate::voucher::Voucher;
use identifiers::AccountNumber;
use thiserror::Error;
use units::{Moment, Money};

/// Why a voucher isn't redeemed, in the order in which it is looked for (profile).
#[derive(Clone, Copy, Debug, Drop, Error)]
pub enum RedeemRefusal {
    /// `O3`: there is no such voucher.
    #[error("there is no such voucher")]
    VoucherUnknown,
    /// `O4`: an account has redeemed it, be it the same one.
    #[error("the voucher is spent")]
    VoucherSpent,
    /// `O6`: the bucket would end past the last moment.
    #[error("the bucket would end past the last moment")]
    EndOutOfRange,
}

/// What a redemption comes to: the terms of the credit, and what is under the code afterwards.
#[derive(Drop)]
pub struct Redemption {
    /// The amount that the account is credited.
    pub amount: Money,
    /// From when it can be used: the moment of the redemption.
    pub from: Moment,
    /// Until when it can be used; 4,102,444,800 is "no end".
    pub until: Moment,
    /// The rating group that it pays for; None: all.
    pub scope: Option<u32>,
    /// The voucher, spent by the account.
    pub voucher: Voucher,
}

/// Redeems a voucher for an account at a moment, over what is under its code: the voucher, or
/// nothing. Its days are those of this calendar.
///
/// The credit can still be refused where the account has no number left for a bucket (`O6` too):
/// then nothing changes, and the voucher isn't spent.
///
/// # Errors
/// The first refusal in the order of `RedeemRefusal`.
// rule: redeem
pub fn redeem<C: CivilDays>(
    found: Option<Voucher>,
    account: AccountNumber,
    moment: Moment,
    calendar: &C,
) -> Result<Redemption, RedeemRefusal>
    ensures { Redeems (C.day_end calendar.now) found account moment result }
{
    let voucher = found.ok_or(RedeemRefusal::VoucherUnknown)?;
    if voucher.redeemer.is_some() {
        return Err(RedeemRefusal::VoucherSpent);
    }
    let terms = voucher.terms;
    let until = terms
        .bucket_end(moment, calendar)
        .ok_or(RedeemRefusal::EndOutOfRange)?;
    Ok(Redemption {
        amount: terms.amount(),
        from: moment,
        until,
        scope: terms.scope(),
        voucher: Voucher {
            terms,
            redeemer: Some(account),
        },
    })
}
