//! The memory that reading needs.

use bumpalo::Bump;
use json::Value;
use std::alloc::Global;

/// A value of JSON (RFC 8259). Its texts are borrowed, its arrays and objects are in the arena of
/// a `Scratch`.
pub type Tree<'a> = Value<'a, &'a Bump>;

/// The items of an array of JSON.
pub type Items<'a> = Vec<Tree<'a>, &'a Bump>;

/// The memory that reading needs. One is kept and lent to each read, which uses what the read
/// before it left.
#[derive(Drop)]
pub struct Scratch {
    pub(crate) texts: json::Scratch,
    pub(crate) arena: Bump,
}

impl Scratch {
    /// Memory for texts whose arrays and objects are few. It grows as they do.
    pub fn new(alloc: Global) -> Scratch {
        Scratch {
            texts: json::Scratch::new(alloc),
            arena: Bump::new(alloc),
        }
    }
}
