//! Counted steps.

ghost use Rattle.std.specs.Prelude.{◌≡◌, ℕ, ◌+◌, ◌<◌, ◌^◌};

use std::marker::Model;

/// How many steps a walk has taken, for calls whose contracts bound their steps: `tick` alone adds
/// one.
///
/// A call that counts takes `&mut Steps` last and requires at most 10^9 steps before it.
#[derive(Drop)]
pub struct Steps {
    taken: u64,
}

impl Model for Steps {
    ghost Value = { ℕ };

    ghost view = { λ s. s.taken };
}

impl Steps {
    /// No step.
    pub fn new() -> Steps
        ensures { result ≡ 0 }
    {
        Steps { taken: 0 }
    }

    /// How many steps were taken.
    pub fn count(&self) -> u64
        ensures { result ≡ self.now }
    {
        self.taken
    }

    /// One step more.
    // rule: rating-steps
    pub fn tick(&mut self)
        requires { self.old + 1 < 2 ^ 64 }
        ensures { self.new ≡ self.old + 1 }
    {
        self.taken += 1;
    }
}
