//! What is kept of accepted commands.

ghost use Rattle.std.specs.Prelude.{◌≡◌, IfOk};

use commands::Content;
use std::alloc::AllocError;
use wire::WrittenAnswer;

/// What is kept of an accepted command, so that its repeat is answered as it was.
#[derive(Drop)]
pub struct KeptAnswer {
    /// The command. It says the key.
    pub content: Content,
    /// Its first answer, with the text that was written of it.
    pub answer: WrittenAnswer,
}

impl KeptAnswer {
    /// A copy of the kept answer.
    ///
    /// # Errors
    /// Out of memory.
    pub fn copy(&self) -> Result<KeptAnswer, AllocError>
        ensures { IfOk result (λ copy. copy ≡ self.now) }
    {
        Ok(KeptAnswer {
            content: self.content.copy()?,
            answer: self.answer.copy()?,
        })
    }
}
