//! The voucher of a code, spent or not.

use crate::terms::VoucherTerms;
use identifiers::AccountNumber;

/// What is under the code of a voucher that was added.
#[derive(Clone)]
pub struct Voucher {
    /// What it says.
    pub terms: VoucherTerms,
    /// The account that redeemed it; None: no account has, it isn't spent.
    pub redeemer: Option<AccountNumber>,
}

// It is written out, so that a caller doesn't prove again how each part is dropped.
impl Drop for Voucher {
    fn drop(self) {
        let Voucher {
            terms: _,
            redeemer: _,
        } = self;
    }
}
