//! Tables of cases: a case is a line of a constant text, `CASE => WHAT IS FOUND OF IT`, and a line
//! that begins with two spaces goes on with the one before it. All tables have one loop.

use std::alloc::Global;
use std::fmt::Debug;
use std::process::Abort;
use std::str::FromStr;

/// What says what is found of a table's cases.
pub(crate) trait Teller {
    /// What is found of a case.
    fn tell<R: Abort>(&mut self, rt: &R, alloc: Global, case: &str) -> String;
}

/// Tries the cases of a table.
pub(crate) fn try_table<R: Abort, T: Teller>(rt: &R, alloc: Global, teller: &mut T, cases: &str) {
    let lines = cases.replace(alloc, "\n  ", "").expect(rt, "memory");
    for line in lines.as_str().lines() {
        try_line(rt, alloc, teller, line);
    }
}

fn try_line<R: Abort, T: Teller>(rt: &R, alloc: Global, teller: &mut T, line: &str) {
    let (case, expected) = line.split_once(" => ").expect(rt, "a case");
    let told = teller.tell(rt, alloc, case);
    try_told(rt, case, told.as_str(), expected);
}

/// Tries what is found of a case.
pub(crate) fn try_told(rt: &impl Abort, case: &str, told: &str, expected: &str) {
    assert_eq!(rt; told, expected, "{case}");
}

/// The words of a case, read one after another.
#[derive(Clone, Copy)]
pub(crate) struct Words<'a> {
    rest: &'a str,
}

impl<'a> Words<'a> {
    /// The words of a text, of which none is read yet.
    pub(crate) fn of(text: &'a str) -> Words<'a> {
        Words { rest: text }
    }

    /// The next word; empty where none is left.
    pub(crate) fn word(&mut self) -> &'a str {
        match self.rest.split_once(" ") {
            Some((word, rest)) => {
                self.rest = rest;
                word
            }
            None => self.rest(),
        }
    }

    /// The next word as a number.
    pub(crate) fn number<N: FromStr>(&mut self, rt: &impl Abort) -> N
    where
        N::Err: Debug,
    {
        self.word().parse::<N>().expect(rt, "a number")
    }

    /// All words that are left.
    pub(crate) fn rest(&mut self) -> &'a str {
        let rest = self.rest;
        self.rest = "";
        rest
    }
}
