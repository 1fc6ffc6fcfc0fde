//! The moments of requests: that of the words, or the machine's.

ghost use Rattle.std.specs.Prelude.{◌≡◌};

use crate::clock::machine_moment;
use http_api::Clock;
use units::Moment;

/// The clock of an office: it stays at the moment that the words say, or is the machine's.
#[derive(Clone, Copy)]
pub struct OfficeClock {
    rt: HostRuntime,
    at: Option<Moment>,
}

impl OfficeClock {
    /// The clock that stays at a moment; the machine's where there is none.
    pub fn new(rt: &HostRuntime, at: Option<Moment>) -> OfficeClock
        ensures { result.at ≡ at }
    {
        OfficeClock { rt: *rt, at }
    }
}

impl Clock for OfficeClock {
    ghost use Rattle.std.specs.Prelude.{◌≡◌};
    ghost use Rattle.service.specs.Clocks.{GivesAt};

    ghost gives = { λ old given new. (new ≡ old) × GivesAt old.at given };

    fn now(&mut self) -> Option<Moment> {
        match self.at {
            Some(at) => Some(at),
            None => machine_moment(&self.rt),
        }
    }
}
