//! Tables of cases: a case is a line of a constant text.

use crate::tests::{answers, contents, faults, files, lines, members, requests, words};
use std::alloc::Global;
use std::process::Abort;

/// What a case says of its text.
#[derive(Clone, Copy)]
pub(crate) enum Told {
    /// What is said of the members of a body.
    Members,
    /// The fault of a body that isn't read as a request, and the text that answers it.
    Fault,
    /// The text of the request that a body is.
    Request,
    /// What is kept of that request.
    KeptRequest,
    /// The value of that request.
    RequestShown,
    /// Whether two bodies of requests are the same content.
    Requests,
    /// What is kept of the credit that a body is.
    KeptCredit,
    /// What is kept of the allowance that a body is, or its fault.
    KeptAllowance,
    /// What is kept of the redemption that a body is.
    KeptRedemption,
    /// Whether a credit can begin and end at a moment.
    Bounds,
    /// The value of a kept text.
    ContentShown,
    /// Whether two bodies of credits or allowances are the same content.
    Given,
    /// The value of the answer that a text is, which writes the same text.
    Answer,
    /// The vouchers of a file, or its fault.
    File,
    /// The same of the file of this name, which is no text.
    Bytes,
    /// The number and the text of the fault of this name.
    VoucherFault,
    /// The number that digits are.
    Number,
    /// The moment and the body of a line.
    Line,
    /// What a line of the program's words says.
    Words,
}

fn tell(rt: &impl Abort, alloc: Global, what: Told, text: &str) -> String {
    match what {
        Told::Members => members::said(rt, alloc, text),
        Told::Fault => faults::told(rt, alloc, text),
        Told::Request => requests::written(rt, alloc, text),
        Told::KeptRequest => requests::kept(rt, alloc, text),
        Told::RequestShown => requests::shown(rt, alloc, text),
        Told::Requests => requests::compared(rt, alloc, text),
        Told::KeptCredit => contents::kept_credit(rt, alloc, text),
        Told::KeptAllowance => contents::kept_allowance(rt, alloc, text),
        Told::KeptRedemption => contents::kept_redemption(rt, alloc, text),
        Told::Bounds => contents::bounds(rt, alloc, text),
        Told::ContentShown => contents::shown(rt, alloc, text),
        Told::Given => contents::compared(rt, alloc, text),
        Told::Answer => answers::shown(rt, alloc, text),
        Told::File => files::told(rt, alloc, text),
        Told::Bytes => files::no_text_told(rt, alloc, text),
        Told::VoucherFault => files::fault_told(rt, alloc, text),
        Told::Number => lines::numbered(rt, alloc, text),
        Told::Line => lines::dated(rt, alloc, text),
        Told::Words => words::told(rt, alloc, text),
    }
}

/// Tries the case `TEXT -> WHAT IS TOLD`.
fn try_case(rt: &impl Abort, alloc: Global, what: Told, line: &str) {
    let (text, expected) = line.split_once(" -> ").expect(rt, "a case");
    let found = tell(rt, alloc, what, text);
    assert_eq!(rt; found.as_str(), expected, "{text}");
}

/// The text on fewer lines: one that begins with two spaces goes on with the one before it.
pub(crate) fn joined(rt: &impl Abort, alloc: Global, text: &str) -> String {
    text.replace(alloc, "\n  ", "").expect(rt, "memory")
}

/// Tries the cases `TEXT -> WHAT IS TOLD`.
pub(crate) fn try_told(rt: &impl Abort, alloc: Global, what: Told, cases: &str) {
    let cases = joined(rt, alloc, cases);
    for line in cases.as_str().lines() {
        try_case(rt, alloc, what, line);
    }
}

/// A word as a text of its own.
pub(crate) fn word(rt: &impl Abort, alloc: Global, word: &str) -> String {
    String::from_str(alloc, word).expect(rt, "memory")
}

/// Whether two values are the same, in a word.
pub(crate) fn same(rt: &impl Abort, alloc: Global, are_same: bool) -> String {
    word(rt, alloc, if are_same { "same" } else { "other" })
}
