//! Moments.

ghost use Rattle.std.specs.Prelude.{◌≡◌, ℕ, ◌≤◌, ◌<◌, ◌↔◌, IsSome, IfSome};
ghost use Rattle.units.specs.Words.{no_end, latest_moment};

use crate::limits::{LATEST_MOMENT, NO_END};
use std::marker::Model;

/// A moment: whole seconds since 1970.
///
/// Commands have the moments 0 to 4,102,444,799, and 4,102,444,800 means "no end". A tariff
/// switch or the end of a validity time may lie up to 43,200 seconds later.
// rule: moments: moments, and those of commands
#[derive(Clone, Copy, Debug, PartialEq, Eq, PartialOrd, Ord)]
pub struct Moment {
    seconds: u64,
}

impl Model for Moment {
    ghost Value = { ℕ };

    ghost view = { λ m. m.seconds };

    ghost invariant = { λ m. m.seconds ≤ latest_moment };

    ghost inverse = { λ n. record { seconds = n } };
}

impl Moment {
    /// The moment this many seconds after the beginning of 1970; None above 4,102,488,000.
    // rule: moments
    pub fn new(seconds: u64) -> Option<Moment>
        ensures in_range { IsSome result ↔ (seconds ≤ latest_moment) }
        ensures value { IfSome result (λ m. m ≡ seconds) }
    {
        if seconds <= LATEST_MOMENT {
            Some(Moment { seconds })
        } else {
            None
        }
    }

    /// The moment of a command: 0 to 4,102,444,799 seconds; None above.
    // rule: moments
    pub fn of_command(seconds: u64) -> Option<Moment>
        ensures in_range { IsSome result ↔ (seconds < no_end) }
        ensures value { IfSome result (λ m. m ≡ seconds) }
    {
        if seconds < NO_END {
            Some(Moment { seconds })
        } else {
            None
        }
    }

    /// The beginning of 1970.
    pub fn first() -> Moment
        ensures { result ≡ 0 }
    {
        Moment { seconds: 0 }
    }

    /// The end of what has no end.
    // rule: moments
    pub fn no_end() -> Moment
        ensures { result ≡ no_end }
    {
        Moment { seconds: NO_END }
    }

    /// Its seconds since 1970.
    pub fn seconds(self) -> u64
        ensures value { result ≡ self }
        ensures in_range { result ≤ latest_moment }
    {
        self.seconds
    }
}
