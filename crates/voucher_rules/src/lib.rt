//! Vouchers under their codes: what adding one and redeeming one come to, apart from accounts.
//!
//! That the account is known, and that a redemption under its reference was answered before, is
//! decided by the layers above, before anything here is asked.
#![tactic(auto)]

mod adding;
mod civil_days;
mod laws;
mod redeeming;
mod terms;
mod voucher;

pub use crate::adding::{Addition, add};
pub use crate::civil_days::CivilDays;
pub use crate::laws::{codes_apart, redeemed_once, spent_for_good, standing_for_good};
pub use crate::redeeming::{RedeemRefusal, Redemption, redeem};
pub use crate::terms::VoucherTerms;
pub use crate::voucher::Voucher;
