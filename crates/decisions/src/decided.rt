//! What a request comes to.

ghost use Rattle.std.specs.Prelude.{◌≡◌, true};
ghost use Rattle.decisions.specs.Decisions.{may_be_accepted};

use commands::RequestAnswer;
use identifiers::SessionId;
use ledger::ChargeRow;

/// What a request comes to. The type keeps that the answer of an accepted one is none of a read,
/// and no failure but a denial.
#[derive(Drop)]
pub struct Decided {
    /// What it is answered.
    pub answer: RequestAnswer,
    /// Whether it is accepted: then the account has changed and the answer is to be kept.
    pub accepted: bool,
    /// The charges that it made, in order.
    pub charges: Vec<ChargeRow>,
    /// The request's session, where nothing of the account ends at the moment: then no row of
    /// another session has changed.
    pub own: Option<SessionId>,
    pub ghost told: { accepted ≡ true → may_be_accepted answer.outcome ≡ true },
}
