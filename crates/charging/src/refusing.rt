//! Refusals, with their texts.

ghost use Rattle.std.specs.Prelude.{◌≡◌, IfOk};
ghost use Rattle.commands.specs.declared.answer.Answer.TheVariants.{Refused};

use commands::{Answer, Refusal};
use std::alloc::{AllocError, Global};
use wire::WrittenAnswer;

/// The answer to an operator's command that is refused.
///
/// # Errors
/// The growth of its text was refused.
pub(crate) fn refuse(alloc: Global, refusal: Refusal) -> Result<WrittenAnswer, AllocError>
    ensures { IfOk result (λ given. given ≡ Refused refusal) }
{
    WrittenAnswer::new(alloc, Answer::Refused(refusal))
}
