//! Numbers and lines of operators.

use crate::tests::tables::{Told, try_told, word};
use operator::{dated_line, number};
use std::alloc::Global;
use std::process::Abort;

/// The number that digits are.
pub(crate) fn numbered(rt: &impl Abort, alloc: Global, digits: &str) -> String {
    format!(in alloc; "{:?}", number(digits)).expect(rt, "memory")
}

/// A number has 16 digits at most.
const NUMBERS: &str = "250000 -> Some(250000)
0000000000000060 -> Some(60)
00000000000000060 -> None
+60 -> None
 -> None";

/// The moment and the body of a line.
pub(crate) fn dated(rt: &impl Abort, alloc: Global, line: &str) -> String {
    let Some(line) = dated_line(line) else {
        return word(rt, alloc, "none");
    };
    let seconds = line.moment.seconds();
    format!(in alloc; "{seconds} and {}", line.body).expect(rt, "memory")
}

/// A line has a moment and a body.
const LINES: &str = "4102444799 {} {} -> 4102444799 and {} {}
4102444800 {} -> none
01767607200 {} -> none
1767607200{} -> none";

// rule: moments, written-numbers, dated-lines
#[test]
fn numbers_and_lines(rt: HostRuntime) {
    try_told(&rt, rt.alloc(), Told::Number, NUMBERS);
    try_told(&rt, rt.alloc(), Told::Line, LINES);
}
