//! The number of an account.

ghost use Rattle.std.specs.Prelude.{◌≡◌, IfOk, Some, None, IsTrue, if◌then◌else◌};
ghost use Rattle.identifiers.specs.Texts.{is_account_number};

use crate::texts::all_digits;
use std::alloc::{AllocError, Global};
use std::hash::{Hash, Hasher};
use std::marker::Model;

/// The number of an account: 1 to 15 digits, an international E.164 number without its `+`
/// (Subscription-Id-Data of type END_USER_E164, RFC 8506 section 8.48).
///
/// Contracts see the list of its bytes.
#[derive(Clone, Debug)]
pub struct AccountNumber {
    text: String,
}

// It is written out, so that a caller doesn't prove again how each part is dropped.
impl Drop for AccountNumber {
    fn drop(self) {
        let AccountNumber { text: _ } = self;
    }
}

impl Model for AccountNumber {
    ghost use Rattle.std.specs.Prelude.{List, ℕ, string_bytes, IsTrue};
    ghost use Rattle.identifiers.specs.Texts.{is_account_number};

    ghost Value = { List ℕ };

    ghost view = { λ s. string_bytes s.text };

    ghost invariant = { λ s. IsTrue (is_account_number (string_bytes s.text)) };
}

impl AccountNumber {
    /// The number of an account that the text is; None where it is none.
    ///
    /// # Errors
    /// Out of memory.
    // rule: names
    pub fn new(alloc: Global, text: &str) -> Result<Option<AccountNumber>, AllocError>
        ensures { IfOk result
            (λ o. o ≡ if is_account_number text.now then Some text.now else None) }
    {
        if 1 <= text.len() && text.len() <= 15 && all_digits(text) {
            let text = String::from_str(alloc, text)?;
            Ok(Some(AccountNumber { text }))
        } else {
            Ok(None)
        }
    }

    /// The number of the account as a text.
    pub fn as_str(&self) -> &str
        ensures value { result.now ≡ self.now }
        ensures rule { IsTrue (is_account_number self.now) }
    {
        self.text.as_str()
    }
}

impl PartialEq for AccountNumber {
    ghost use Rattle.std.specs.Prelude.{nat_eq};
    ghost use Rattle.std.specs.Cmp.Lexicographic.{pointwise, nat_list_eq_equiv};
    ghost use Rattle.std.specs.Cmp.{partial_equiv_from_equiv};

    ghost eq = { λ a b. pointwise nat_eq a b };

    ghost laws = { partial_equiv_from_equiv nat_list_eq_equiv };

    fn eq(&self, other: &AccountNumber) -> bool {
        self.text == other.text
    }
}

impl Eq for AccountNumber {
    ghost use Rattle.std.specs.Cmp.Lexicographic.{nat_list_eq_equiv};

    ghost laws = { nat_list_eq_equiv };
}

impl Hash for AccountNumber {
    ghost use Rattle.std.specs.Cmp.Lexicographic.{bytes_decides};
    ghost use Rattle.std.specs.Hash as fed;

    ghost hash_input = { fed.str };

    ghost respects_eq = { λ x y. (fed.same_Alike fed.str bytes_decides).fed x y };

    fn hash<H: Hasher>(&self, state: &mut H) {
        self.text.hash(state);
    }
}
