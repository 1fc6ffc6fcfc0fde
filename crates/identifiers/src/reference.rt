//! An operator's name for a command.

ghost use Rattle.std.specs.Prelude.{◌≡◌, IfOk, Some, None, IsTrue, if◌then◌else◌};
ghost use Rattle.identifiers.specs.Texts.{is_reference};

use crate::texts::all_visible;
use std::alloc::{AllocError, Global};
use std::hash::{Hash, Hasher};
use std::marker::Model;

/// The reference that an operator gives a credit or a redemption, so that it can be repeated: 1 to
/// 64 bytes from 0x21 to 0x7E (profile).
///
/// Contracts see the list of its bytes.
#[derive(Clone, Debug)]
pub struct Reference {
    text: String,
}

// It is written out, so that a caller doesn't prove again how each part is dropped.
impl Drop for Reference {
    fn drop(self) {
        let Reference { text: _ } = self;
    }
}

impl Model for Reference {
    ghost use Rattle.std.specs.Prelude.{List, ℕ, string_bytes, IsTrue};
    ghost use Rattle.identifiers.specs.Texts.{is_reference};

    ghost Value = { List ℕ };

    ghost view = { λ s. string_bytes s.text };

    ghost invariant = { λ s. IsTrue (is_reference (string_bytes s.text)) };
}

impl Reference {
    /// The reference that the text is; None where it is none.
    ///
    /// # Errors
    /// Out of memory.
    // rule: names
    pub fn new(alloc: Global, text: &str) -> Result<Option<Reference>, AllocError>
        ensures { IfOk result (λ o. o ≡ if is_reference text.now then Some text.now else None) }
    {
        if 1 <= text.len() && text.len() <= 64 && all_visible(text) {
            let text = String::from_str(alloc, text)?;
            Ok(Some(Reference { text }))
        } else {
            Ok(None)
        }
    }

    /// The reference as a text.
    pub fn as_str(&self) -> &str
        ensures value { result.now ≡ self.now }
        ensures rule { IsTrue (is_reference self.now) }
    {
        self.text.as_str()
    }
}

impl PartialEq for Reference {
    ghost use Rattle.std.specs.Prelude.{nat_eq};
    ghost use Rattle.std.specs.Cmp.Lexicographic.{pointwise, nat_list_eq_equiv};
    ghost use Rattle.std.specs.Cmp.{partial_equiv_from_equiv};

    ghost eq = { λ a b. pointwise nat_eq a b };

    ghost laws = { partial_equiv_from_equiv nat_list_eq_equiv };

    fn eq(&self, other: &Reference) -> bool {
        self.text == other.text
    }
}

impl Eq for Reference {
    ghost use Rattle.std.specs.Cmp.Lexicographic.{nat_list_eq_equiv};

    ghost laws = { nat_list_eq_equiv };
}

impl Hash for Reference {
    ghost use Rattle.std.specs.Cmp.Lexicographic.{bytes_decides};
    ghost use Rattle.std.specs.Hash as fed;

    ghost hash_input = { fed.str };

    ghost respects_eq = { λ x y. (fed.same_Alike fed.str bytes_decides).fed x y };

    fn hash<H: Hasher>(&self, state: &mut H) {
        self.text.hash(state);
    }
}
