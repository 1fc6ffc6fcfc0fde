//! The memory that the requests of a connection are taken into.

ghost use Rattle.std.specs.Prelude.{◌≤◌, ◌*◌, length};
ghost use Rattle.http_messages.specs.Words.{most_head};

use crate::requests::HttpRequest;
use httparse::spans::{EMPTY_HEADER_SPAN, HeaderSpan};
use std::alloc::{AllocError, Global};
use std::mem;

/// How many fields a head part has room for: each takes at least 3 bytes.
const MAX_FIELDS: usize = 2731;

/// The memory that the requests of a connection are taken into, one after another: the places of a
/// head's fields, a head part and a target. A request is lent what the one before it gave
/// back.
#[derive(Drop)]
pub struct Buffers {
    fields: Vec<HeaderSpan>,
    part: Vec<u8>,
    target: String,
    ghost wide: { most_head ≤ 3 * length fields.items },
}

impl Buffers {
    /// Memory for the fields of a head; that of texts grows with the first request.
    ///
    /// # Errors
    /// Out of memory.
    pub fn empty(alloc: Global) -> Result<Buffers, AllocError> {
        let fields = Vec::from_elem(alloc, EMPTY_HEADER_SPAN, MAX_FIELDS)?;
        Ok(Buffers {
            fields,
            part: Vec::new(alloc),
            target: String::new(alloc),
        })
    }

    /// The places of a head's fields.
    pub(crate) fn fields(&mut self) -> &mut [HeaderSpan]
        ensures { most_head ≤ 3 * length result.now }
    {
        self.fields.as_mut_slice()
    }

    /// Lends the memory of a head part.
    pub(crate) fn lend_part(&mut self, alloc: Global) -> Vec<u8> {
        mem::replace(&mut self.part, Vec::new(alloc))
    }

    /// Takes the memory of a head part back.
    pub(crate) fn keep_part(&mut self, part: Vec<u8>) {
        self.part = part;
    }

    /// Lends the memory of a target.
    pub(crate) fn lend_target(&mut self, alloc: Global) -> String {
        mem::replace(&mut self.target, String::new(alloc))
    }

    /// Takes back the memory that a request was lent.
    pub fn keep(&mut self, request: HttpRequest) {
        self.target = request.target;
    }
}
