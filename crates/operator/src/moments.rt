//! The moments of words.

ghost use Rattle.std.specs.Prelude.{◌≡◌, ◌≤◌, All};
ghost use Rattle.units.specs.Words.{latest_command};

use std::marker::Model;
use units::Moment;

/// Moments of commands, in the order of the words that say them (profile).
///
/// Contracts see the list of them.
#[derive(Drop)]
pub struct MomentList {
    moments: Vec<Moment>,
}

impl Model for MomentList {
    ghost use Rattle.std.specs.Prelude.{List, ◌≤◌, All};
    ghost use Rattle.units.specs.Words.{Moment, latest_command};

    ghost Value = { List Moment };

    ghost view = { λ l. l.moments.items };

    ghost invariant = { λ l. All (λ t. t ≤ latest_command) l.moments.items };
}

impl MomentList {
    /// The list of these moments.
    pub(crate) fn new(moments: Vec<Moment>) -> MomentList
        requires { All (λ t. t ≤ latest_command) moments.items }
        ensures { result ≡ moments.items }
    {
        MomentList { moments }
    }

    /// The moments, each of which is one of a command.
    pub fn as_slice(&self) -> &[Moment]
        ensures value { result.now ≡ self.now }
        ensures commands { All (λ t. t ≤ latest_command) self.now }
    {
        self.moments.as_slice()
    }
}
