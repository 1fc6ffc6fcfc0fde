//! The code of a voucher.

ghost use Rattle.std.specs.Prelude.{◌≡◌, IfOk, Some, None, IsTrue, if◌then◌else◌};
ghost use Rattle.identifiers.specs.Texts.{is_voucher_code};

use crate::texts::all_digits;
use std::alloc::{AllocError, Global};
use std::hash::{Hash, Hasher};
use std::marker::Model;

/// The code of a voucher: 12 digits (profile).
///
/// Contracts see the list of its bytes.
#[derive(Clone, Debug)]
pub struct VoucherCode {
    text: String,
}

// It is written out, so that a caller doesn't prove again how each part is dropped.
impl Drop for VoucherCode {
    fn drop(self) {
        let VoucherCode { text: _ } = self;
    }
}

impl Model for VoucherCode {
    ghost use Rattle.std.specs.Prelude.{List, ℕ, string_bytes, IsTrue};
    ghost use Rattle.identifiers.specs.Texts.{is_voucher_code};

    ghost Value = { List ℕ };

    ghost view = { λ s. string_bytes s.text };

    ghost invariant = { λ s. IsTrue (is_voucher_code (string_bytes s.text)) };
}

impl VoucherCode {
    /// The code of a voucher that the text is; None where it is none.
    ///
    /// # Errors
    /// Out of memory.
    pub fn new(alloc: Global, text: &str) -> Result<Option<VoucherCode>, AllocError>
        ensures { IfOk result (λ o. o ≡ if is_voucher_code text.now then Some text.now else None) }
    {
        if text.len() == 12 && all_digits(text) {
            let text = String::from_str(alloc, text)?;
            Ok(Some(VoucherCode { text }))
        } else {
            Ok(None)
        }
    }

    /// The code as a text.
    pub fn as_str(&self) -> &str
        ensures value { result.now ≡ self.now }
        ensures rule { IsTrue (is_voucher_code self.now) }
    {
        self.text.as_str()
    }
}

impl PartialEq for VoucherCode {
    ghost use Rattle.std.specs.Prelude.{nat_eq};
    ghost use Rattle.std.specs.Cmp.Lexicographic.{pointwise, nat_list_eq_equiv};
    ghost use Rattle.std.specs.Cmp.{partial_equiv_from_equiv};

    ghost eq = { λ a b. pointwise nat_eq a b };

    ghost laws = { partial_equiv_from_equiv nat_list_eq_equiv };

    fn eq(&self, other: &VoucherCode) -> bool {
        self.text == other.text
    }
}

impl Eq for VoucherCode {
    ghost use Rattle.std.specs.Cmp.Lexicographic.{nat_list_eq_equiv};

    ghost laws = { nat_list_eq_equiv };
}

impl Hash for VoucherCode {
    ghost use Rattle.std.specs.Cmp.Lexicographic.{bytes_decides};
    ghost use Rattle.std.specs.Hash as fed;

    ghost hash_input = { fed.str };

    ghost respects_eq = { λ x y. (fed.same_Alike fed.str bytes_decides).fed x y };

    fn hash<H: Hasher>(&self, state: &mut H) {
        self.text.hash(state);
    }
}
