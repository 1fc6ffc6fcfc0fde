//! The answers of a run.

use keepers::StoreFault;
use wire::WrittenAnswer;

/// The answers to a list of commands, in its order, and the store fault at which it stopped.
#[derive(Drop)]
pub struct Run {
    /// The answers, as far as the run went.
    pub answers: Vec<WrittenAnswer>,
    /// Why it stopped, where it did.
    pub fault: Option<StoreFault>,
}
