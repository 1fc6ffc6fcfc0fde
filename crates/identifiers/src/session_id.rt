//! The name of a session.

ghost use Rattle.std.specs.Prelude.{◌≡◌, IfOk, Some, None, IsTrue, if◌then◌else◌};
ghost use Rattle.identifiers.specs.Texts.{is_session_id};

use crate::texts::all_visible;
use std::alloc::{AllocError, Global};
use std::cmp::Ordering;
use std::hash::{Hash, Hasher};
use std::marker::Model;
use std::rc::RcStr;

/// The name of a session: 1 to 128 bytes from 0x21 to 0x7E (Session-Id, RFC 6733 section 8.8;
/// length and bytes: profile).
///
/// Contracts see the list of its bytes. Copies share the text: many rows have one name.
#[derive(Clone, Debug)]
pub struct SessionId {
    text: RcStr,
}

// It is written out, so that a caller doesn't prove again how each part is dropped.
impl Drop for SessionId {
    fn drop(self) {
        let SessionId { text: _ } = self;
    }
}

impl Model for SessionId {
    ghost use Rattle.std.specs.Prelude.{List, ℕ, IsTrue};
    ghost use Rattle.std.specs.Rc.{rc_str_bytes};
    ghost use Rattle.identifiers.specs.Texts.{is_session_id};

    ghost Value = { List ℕ };

    ghost view = { λ s. rc_str_bytes s.text };

    ghost invariant = { λ s. IsTrue (is_session_id (rc_str_bytes s.text)) };
}

impl SessionId {
    /// The name of a session that the text is; None where it is none.
    ///
    /// # Errors
    /// Out of memory.
    // rule: names
    pub fn new(alloc: Global, text: &str) -> Result<Option<SessionId>, AllocError>
        ensures { IfOk result (λ o. o ≡ if is_session_id text.now then Some text.now else None) }
    {
        if 1 <= text.len() && text.len() <= 128 && all_visible(text) {
            let text = RcStr::from_str(alloc, text)?;
            Ok(Some(SessionId { text }))
        } else {
            Ok(None)
        }
    }

    /// The name of the session as a text.
    pub fn as_str(&self) -> &str
        ensures value { result.now ≡ self.now }
        ensures rule { IsTrue (is_session_id self.now) }
    {
        self.text.as_str()
    }
}

impl PartialEq for SessionId {
    ghost use Rattle.std.specs.Prelude.{nat_eq};
    ghost use Rattle.std.specs.Cmp.Lexicographic.{pointwise, nat_list_eq_equiv};
    ghost use Rattle.std.specs.Cmp.{partial_equiv_from_equiv};

    ghost eq = { λ a b. pointwise nat_eq a b };

    ghost laws = { partial_equiv_from_equiv nat_list_eq_equiv };

    fn eq(&self, other: &SessionId) -> bool {
        self.text == other.text
    }
}

impl Eq for SessionId {
    ghost use Rattle.std.specs.Cmp.Lexicographic.{nat_list_eq_equiv};

    ghost laws = { nat_list_eq_equiv };
}

impl PartialOrd for SessionId {
    ghost use Rattle.std.specs.Prelude.{Some};
    ghost use Rattle.std.specs.Ordering.{nat_cmp};
    ghost use Rattle.std.specs.Cmp.Lexicographic.{slice_cmp, texts_po};

    ghost partial_cmp = { λ a b. Some (slice_cmp nat_cmp a b) };

    ghost laws = { texts_po };

    fn partial_cmp(&self, other: &SessionId) -> Option<Ordering> {
        Some(self.cmp(other))
    }
}

impl Ord for SessionId {
    ghost use Rattle.std.specs.Prelude.{refl};
    ghost use Rattle.std.specs.Ordering.{nat_cmp};
    ghost use Rattle.std.specs.Cmp.Lexicographic.{slice_cmp, nat_list_cmp_total, texts_ties};

    ghost cmp = { slice_cmp nat_cmp };

    ghost total = { nat_list_cmp_total };

    ghost matches_partial_cmp = { λ a b. refl };

    ghost matches_eq = { texts_ties };

    fn cmp(&self, other: &SessionId) -> Ordering {
        self.text.cmp(&other.text)
    }
}

impl Hash for SessionId {
    ghost use Rattle.std.specs.Cmp.Lexicographic.{bytes_decides};
    ghost use Rattle.std.specs.Hash as fed;

    ghost hash_input = { fed.str };

    ghost respects_eq = { λ x y. (fed.same_Alike fed.str bytes_decides).fed x y };

    fn hash<H: Hasher>(&self, state: &mut H) {
        self.text.hash(state);
    }
}
