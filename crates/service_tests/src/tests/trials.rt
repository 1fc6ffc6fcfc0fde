//! What is tried at each of some numbers, by one loop.

use std::alloc::Global;
use std::process::Abort;

/// What is tried at a number.
pub(crate) trait Trial {
    /// What comes of it.
    fn told<R: Abort>(&mut self, rt: &R, alloc: Global, at: usize) -> String;

    /// What is expected of it.
    fn expected<R: Abort>(&mut self, rt: &R, alloc: Global, at: usize) -> String;
}

/// Tries it at each number below an end.
pub(crate) fn try_below<R: Abort, T: Trial>(rt: &R, alloc: Global, trial: &mut T, end: usize) {
    for at in 0..end {
        let told = trial.told(rt, alloc, at);
        let expected = trial.expected(rt, alloc, at);
        try_told(rt, told.as_str(), expected.as_str(), at);
    }
}

fn try_told(rt: &impl Abort, told: &str, expected: &str, at: usize) {
    assert_eq!(rt; told, expected, "{at}");
}

/// A text and a line behind it.
pub(crate) fn with_line(rt: &impl Abort, alloc: Global, text: &str, line: &str) -> String {
    format!(in alloc; "{text}\n{line}").expect(rt, "memory")
}
