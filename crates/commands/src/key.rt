//! The keys under which the answers of commands are kept.

ghost use Rattle.std.specs.Prelude.{◌≡◌, IfOk};
ghost use Rattle.commands.specs.Keys.{same_key, key_of};

use crate::command::Content;
use identifiers::{Reference, SessionId};
use std::alloc::AllocError;
use std::hash::{Hash, Hasher};

/// The key of a kept answer within its account: an accepted command with the same key is its
/// repeat, or at fault.
#[derive(Clone)]
pub enum Key {
    /// Of a request: its session and its number in it (RFC 8506 section 8.2).
    Request { session: SessionId, number: u32 },
    /// Of an operator's command: its reference (profile).
    Reference(Reference),
}

// It is written out, so that a caller doesn't prove again how each part is dropped.
impl Drop for Key {
    fn drop(self) {
        match self {
            Key::Request {
                session: _,
                number: _,
            } => {}
            Key::Reference(_) => {}
        }
    }
}

/// A key as what is kept of a command has it, which is borrowed.
#[derive(Clone, Copy)]
pub enum KeyRef<'a> {
    /// Of a request: its session and its number in it (RFC 8506 section 8.2).
    Request { session: &'a SessionId, number: u32 },
    /// Of an operator's command: its reference (profile).
    Reference(&'a Reference),
}

impl Key {
    /// The key of a command with this content.
    ///
    /// # Errors
    /// Out of memory.
    // rule: database-reads
    pub fn of(content: &Content) -> Result<Key, AllocError>
        ensures { IfOk result (λ key. key ≡ key_of content.now) }
    {
        match content.key() {
            KeyRef::Request { session, number } => {
                let session = session.clone()?;
                Ok(Key::Request { session, number })
            }
            KeyRef::Reference(reference) => Ok(Key::Reference(reference.clone()?)),
        }
    }
}

impl PartialEq for Key {
    ghost use Rattle.std.specs.Cmp.{decided, partial_equiv_from_equiv};
    ghost use Rattle.commands.specs.Keys.{same_key, key_decides};

    // rule: database-reads
    ghost eq = { same_key };

    ghost laws = { partial_equiv_from_equiv (decided same_key key_decides) };

    fn eq(&self, other: &Key) -> bool {
        match (self, other) {
            (
                Key::Request { session, number },
                Key::Request {
                    session: other,
                    number: n,
                },
            ) => session == other && number == n,
            (Key::Reference(reference), Key::Reference(other)) => reference == other,
            _ => false,
        }
    }
}

impl Eq for Key {
    ghost use Rattle.std.specs.Cmp.{decided};
    ghost use Rattle.commands.specs.Keys.{same_key, key_decides};

    ghost laws = { decided same_key key_decides };
}

impl Hash for Key {
    ghost use Rattle.std.specs.Hash.{same_Alike};
    ghost use Rattle.commands.specs.Keys.{same_key, key_decides, key_writes};

    ghost hash_input = { key_writes };

    ghost respects_eq = { λ x y. (same_Alike key_writes key_decides).fed x y };

    fn hash<H: Hasher>(&self, state: &mut H) {
        match self {
            Key::Request { session, number } => {
                session.hash(state);
                number.hash(state);
            }
            Key::Reference(reference) => reference.hash(state),
        }
    }
}
