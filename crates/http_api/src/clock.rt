//! What gives the time of requests.

ghost use Rattle.std.specs.Prelude.{◌≡◌, ℕ, Option, Some};

use units::Moment;

/// What gives the time.
pub trait Clock {
    /// A call gives this moment, in seconds since 1970, or none, and leaves the clock like this. A
    /// clock that says nothing of its moments holds of all.
    ghost gives: { Self → Option ℕ → Self → Type 0 };

    /// The moment now; None where the clock doesn't answer.
    fn now(&mut self) -> Option<Moment>
        ensures { gives self.old result self.new };
}

/// A clock that doesn't move.
#[derive(Clone, Copy)]
pub struct FixedClock {
    /// The moment that the clock gives, at each call.
    pub moment: Moment,
}

impl Clock for FixedClock {
    ghost gives = { λ old given new. (given ≡ Some old.moment) × (new ≡ old) };

    fn now(&mut self) -> Option<Moment> {
        Some(self.moment)
    }
}
