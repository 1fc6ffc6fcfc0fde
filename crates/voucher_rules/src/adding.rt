//! A voucher that is added.

ghost use Rattle.std.specs.Prelude.{◌≡◌, ◌↔◌, IfSome, IsTrue};
ghost use Rattle.voucher_rules.specs.Adding.{addition, same_terms};

use crate::terms::VoucherTerms;
use crate::voucher::Voucher;

/// What adding a voucher comes to, over what is under its code.
#[derive(Drop)]
pub enum Addition {
    /// Nothing stood there: this voucher does, from now on.
    New(Voucher),
    /// A voucher of the same terms is there, spent or not: nothing changes.
    Present,
    /// A voucher of other terms is there (`O5`): nothing changes.
    Conflicting,
}

/// Whether two vouchers say the same.
#[tactic(auto, using(crate::proofs::Exact::terms_exact))]
fn same_terms(one: VoucherTerms, other: VoucherTerms) -> bool
    ensures value { result ≡ same_terms one other }
    ensures exact { IsTrue result ↔ (one ≡ other) }
{
    one == other
}

/// Adds a voucher of these terms, over what is under its code: a voucher, or nothing.
// rule: voucher-add
pub fn add(found: &Option<Voucher>, terms: VoucherTerms) -> Addition
    ensures value { result ≡ addition found.now terms }
    // rule: voucher-add
    ensures present { IfSome found.now
        (λ voucher. (result ≡ Addition.Present) ↔ (voucher.terms ≡ terms)) }
{
    match found {
        None => Addition::New(Voucher {
            terms,
            redeemer: None,
        }),
        Some(voucher) => {
            if same_terms(voucher.terms, terms) {
                Addition::Present
            } else {
                Addition::Conflicting
            }
        }
    }
}
