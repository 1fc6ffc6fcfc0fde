//! When the clock is asked, and a clock that doesn't answer.

ghost use Rattle.std.specs.Prelude.{◌≡◌};

use crate::tests::accounts::{TEN, clock, shelf};
use crate::tests::connections::told_by;
use crate::tests::requests::{
    EMPTY_BODY, EXISTS, NO_REQUEST, NOT_FOUND, OPEN, OPENED, UNABLE, UNKNOWN,
};
use http_api::{Clock, FixedClock};
use keepers::MemoryKeeper;
use std::alloc::Global;
use std::process::Abort;
use units::Moment;

/// A clock that counts how often it is asked, and doesn't answer so many times first.
#[derive(Drop)]
struct Counting {
    clock: FixedClock,
    asked: u32,
    silent: u32,
}

impl Clock for Counting {
    ghost gives = { λ old given new. old ≡ old };

    fn now(&mut self) -> Option<Moment> {
        self.asked = self.asked.saturating_add(1);
        if self.asked <= self.silent {
            None
        } else {
            self.clock.now()
        }
    }
}

/// What is written for these requests by a clock that doesn't answer so many times first, and how
/// often it is asked.
fn told_by_counting(rt: &impl Abort, alloc: Global, stream: &str, silent: u32) -> String {
    let shelf = shelf(rt, alloc);
    let mut counting = Counting {
        clock: clock(rt, TEN),
        asked: 0,
        silent,
    };
    let mut bytes = stream.as_bytes();
    let mut keeper = MemoryKeeper::new(alloc);
    let told = told_by(rt, alloc, &shelf, &mut bytes, &mut keeper, &mut counting);
    format!(in alloc; "{}, asked {}", told.as_str(), counting.asked).expect(rt, "memory")
}

/// A request that names no path and one whose body has a fault don't ask it, two commands do.
// rule: http-read
#[test]
fn is_asked_for_commands_alone(rt: HostRuntime) {
    let alloc = rt.alloc();
    let stream = format!(in alloc; "{UNKNOWN}{OPEN}{EMPTY_BODY}{OPEN}").expect(&rt, "memory");
    let told = told_by_counting(&rt, alloc, stream.as_str(), 0);
    let expected = format!(in alloc;
        "{NOT_FOUND}{OPENED}{NO_REQUEST}{EXISTS}\nserved 4, asked 2"
    ).expect(&rt, "memory");
    assert_eq!(rt; told.as_str(), expected.as_str());
}

/// A command that the clock has no moment for isn't served, nor accepted: the next one opens the
/// account.
// rule: http-503, clock
#[test]
fn without_a_moment(rt: HostRuntime) {
    let alloc = rt.alloc();
    let stream = OPEN.repeat(alloc, 3).expect(&rt, "memory");
    let told = told_by_counting(&rt, alloc, stream.as_str(), 1);
    let expected = format!(in alloc; "{UNABLE}{OPENED}{EXISTS}\nserved 3, asked 3").expect(
        &rt, "memory",
    );
    assert_eq!(rt; told.as_str(), expected.as_str());
}
