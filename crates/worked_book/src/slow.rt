//! A writer that fails.

ghost use Rattle.std.specs.Prelude.{◌≡◌, []};

use std::alloc::Global;
use std::io::{self, ErrorKind, Write};

/// Takes single bytes, and fails after so many calls.
#[derive(Drop)]
pub struct Slow {
    /// The bytes that it has taken.
    // rule: http-answer.taken: the writer of the tests, which takes single bytes and fails after
    //   so many
    pub taken: Vec<u8>,
    /// How many calls are left before it fails.
    // rule: http-answer.taken
    pub calls: usize,
}

impl Slow {
    /// A writer that has taken nothing, and fails after so many calls.
    // rule: http-answer.taken
    pub fn new(alloc: Global, calls: usize) -> Slow
        ensures taken { result.taken.items ≡ [] }
        ensures calls { result.calls ≡ calls }
    {
        Slow {
            taken: Vec::new(alloc),
            calls,
        }
    }
}

impl Write for Slow {
    fn write(&mut self, buf: &[u8]) -> io::Result<usize> {
        if self.calls == 0 {
            return Err(io::Error::from(ErrorKind::BrokenPipe));
        }
        self.calls -= 1;
        match buf.first() {
            Some(byte) => {
                self.taken.push(*byte)?;
                Ok(1)
            }
            None => Ok(0),
        }
    }

    fn flush(&mut self) -> io::Result<()> {
        Ok(())
    }
}
