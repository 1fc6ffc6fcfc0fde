//! The address to which a user is sent.

ghost use Rattle.std.specs.Prelude.{◌≡◌, IfOk, Some, None, IsTrue, if◌then◌else◌};
ghost use Rattle.identifiers.specs.Texts.{is_redirect_address};

use crate::texts::all_visible;
use std::alloc::{AllocError, Global};
use std::marker::Model;

/// The URL to which a user is sent when the granted units are used up: 1 to 200 bytes from 0x21 to
/// 0x7E (Redirect-Server-Address, RFC 8506 section 8.39; length and bytes: profile).
///
/// Contracts see the list of its bytes.
#[derive(Clone, Debug)]
pub struct RedirectAddress {
    text: String,
}

// It is written out, so that a caller doesn't prove again how each part is dropped.
impl Drop for RedirectAddress {
    fn drop(self) {
        let RedirectAddress { text: _ } = self;
    }
}

impl Model for RedirectAddress {
    ghost use Rattle.std.specs.Prelude.{List, ℕ, string_bytes, IsTrue};
    ghost use Rattle.identifiers.specs.Texts.{is_redirect_address};

    ghost Value = { List ℕ };

    ghost view = { λ s. string_bytes s.text };

    ghost invariant = { λ s. IsTrue (is_redirect_address (string_bytes s.text)) };
}

impl RedirectAddress {
    /// The address that the text is; None where it is none.
    ///
    /// # Errors
    /// Out of memory.
    pub fn new(alloc: Global, text: &str) -> Result<Option<RedirectAddress>, AllocError>
        ensures { IfOk result
            (λ o. o ≡ if is_redirect_address text.now then Some text.now else None) }
    {
        if 1 <= text.len() && text.len() <= 200 && all_visible(text) {
            let text = String::from_str(alloc, text)?;
            Ok(Some(RedirectAddress { text }))
        } else {
            Ok(None)
        }
    }

    /// The URL as a text.
    pub fn as_str(&self) -> &str
        ensures value { result.now ≡ self.now }
        ensures rule { IsTrue (is_redirect_address self.now) }
    {
        self.text.as_str()
    }
}

impl PartialEq for RedirectAddress {
    ghost use Rattle.std.specs.Prelude.{nat_eq};
    ghost use Rattle.std.specs.Cmp.Lexicographic.{pointwise, nat_list_eq_equiv};
    ghost use Rattle.std.specs.Cmp.{partial_equiv_from_equiv};

    ghost eq = { λ a b. pointwise nat_eq a b };

    ghost laws = { partial_equiv_from_equiv nat_list_eq_equiv };

    fn eq(&self, other: &RedirectAddress) -> bool {
        self.text == other.text
    }
}

impl Eq for RedirectAddress {
    ghost use Rattle.std.specs.Cmp.Lexicographic.{nat_list_eq_equiv};

    ghost laws = { nat_list_eq_equiv };
}
