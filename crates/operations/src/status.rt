//! The exit status.

ghost use Rattle.std.specs.Prelude.{◌≡◌};
ghost use Rattle.operations.specs.Told.{status_number, status_of};

use wire::WrittenAnswer;

/// How the program ends.
#[derive(Clone, Copy)]
pub enum Status {
    /// What the words say was done.
    Done,
    /// It was refused, or ended in a fault.
    Failed,
    /// The words weren't read.
    Unread,
}

impl Status {
    /// The exit status: 0, 1 or 2.
    pub fn number(self) -> u8
        ensures { result ≡ status_number self }
    {
        match self {
            Status::Done => 0,
            Status::Failed => 1,
            Status::Unread => 2,
        }
    }
}

/// How a command ends that is given this answer: a refusal is no success.
pub(crate) fn ends_as(answer: &WrittenAnswer) -> Status
    ensures { result ≡ status_of answer.now }
{
    if answer.is_refused() {
        Status::Failed
    } else {
        Status::Done
    }
}
