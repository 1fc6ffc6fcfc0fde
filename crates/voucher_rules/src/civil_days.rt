//! What knows where civil days end.

ghost use Rattle.std.specs.Prelude.{◌≡◌, ℕ, Option};

use units::Moment;

/// What knows where civil days end, in its zone: a calendar, or a tariff book by its calendar.
pub trait CivilDays {
    /// Where the day so many days after that of a moment ends.
    ghost day_end: { Self → ℕ → ℕ → Option ℕ };

    /// Where the day so many days after that of the moment ends: 00:00 of the day after it; None
    /// past the last moment of commands.
    fn day_end(&self, moment: Moment, days: u32) -> Option<Moment>
        ensures { result ≡ day_end self.now moment days };
}
