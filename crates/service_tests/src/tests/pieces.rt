//! An account is opened twice: the bytes come in pieces, end early, or come from a reader that
//! fails at a call.

use crate::tests::accounts::shelf;
use crate::tests::connections::{then_opening, told};
use crate::tests::requests::{
    EXISTS, FIRST_BUCKET, OPEN, OPEN_TWICE, OPENED, OPENED_THEN_EXISTS, request,
};
use crate::tests::trials::{Trial, try_below};
use keepers::MemoryKeeper;
use shelves::TariffShelf;
use std::alloc::Global;
use std::io;
use std::io::{ErrorKind, Read};
use std::process::Abort;

/// The bytes of a request.
const LENGTH: usize = 51;

/// Gives a piece of at most so many bytes, then each of at most so many others, and fails after so
/// many calls.
#[derive(Drop)]
pub(crate) struct Pieces<'a> {
    rest: &'a [u8],
    next: usize,
    after: usize,
    calls: usize,
}

impl<'a> Pieces<'a> {
    /// Gives these bytes in a first piece and in others, and doesn't fail within 1,000 calls.
    pub(crate) fn new(stream: &'a str, next: usize, after: usize) -> Pieces<'a> {
        Pieces {
            rest: stream.as_bytes(),
            next,
            after,
            calls: 1000,
        }
    }
}

impl<'a> Read for Pieces<'a> {
    fn read(&mut self, buf: &mut [u8]) -> io::Result<usize> {
        if self.calls == 0 {
            return Err(io::Error::from(ErrorKind::ConnectionReset));
        }
        self.calls -= 1;
        let most = self.next.min(buf.len()).min(self.rest.len());
        let (piece, rest) = self.rest.split_at(most);
        let (place, _) = buf.split_at_mut(most);
        place.copy_from_slice(piece);
        self.rest = rest;
        self.next = self.after;
        Ok(most)
    }
}

/// A stream of which the first piece has one byte more than the number, and the others at most so
/// many, or as many as the first.
#[derive(Drop)]
struct InPieces<'a> {
    shelf: &'a TariffShelf,
    stream: &'a str,
    after: Option<usize>,
    answers: &'a str,
}

impl<'a> Trial for InPieces<'a> {
    fn told<R: Abort>(&mut self, rt: &R, alloc: Global, at: usize) -> String {
        let next = at.saturating_add(1);
        let mut reader = Pieces::new(self.stream, next, self.after.unwrap_or(next));
        told(
            rt,
            alloc,
            self.shelf,
            &mut reader,
            &mut MemoryKeeper::new(alloc),
        )
    }

    fn expected<R: Abort>(&mut self, rt: &R, alloc: Global, _at: usize) -> String {
        format!(in alloc; "{}\nserved 2", self.answers).expect(rt, "memory")
    }
}

/// Two openings, in two pieces that are cut at each byte.
#[test]
fn two_pieces_cut_at_each_byte(rt: HostRuntime) {
    let alloc = rt.alloc();
    let shelf = shelf(&rt, alloc);
    let mut opened_twice = InPieces {
        shelf: &shelf,
        stream: OPEN_TWICE,
        after: Some(200),
        answers: OPENED_THEN_EXISTS,
    };
    try_below(&rt, alloc, &mut opened_twice, 101);
}

/// Two openings, in pieces of each length, from single bytes on.
// rule: http-head.next-is-one
#[test]
fn pieces_of_each_length(rt: HostRuntime) {
    let alloc = rt.alloc();
    let shelf = shelf(&rt, alloc);
    let mut opened_twice = InPieces {
        shelf: &shelf,
        stream: OPEN_TWICE,
        after: None,
        answers: OPENED_THEN_EXISTS,
    };
    try_below(&rt, alloc, &mut opened_twice, 103);
}

/// A body is read in pieces of each length, from single bytes on.
#[test]
fn a_body_in_pieces_of_each_length(rt: HostRuntime) {
    let alloc = rt.alloc();
    let credit = r#"POST /accounts/49151/credits {"Amount":1000000,"Reference":"c1"}"#;
    let credit = request(&rt, alloc, credit);
    let stream = format!(in alloc; "{OPEN}{}", credit.as_str()).expect(&rt, "memory");
    let answers = format!(in alloc; "{OPENED}{FIRST_BUCKET}").expect(&rt, "memory");
    let shelf = shelf(&rt, alloc);
    let mut credited = InPieces {
        shelf: &shelf,
        stream: stream.as_str(),
        after: None,
        answers: answers.as_str(),
    };
    try_below(&rt, alloc, &mut credited, 159);
}

/// What is expected where so many requests came whole, and the account is opened once more: each of
/// them is answered, and of the others nothing is left.
fn expected_of(rt: &impl Abort, alloc: Global, answered: usize, ending: &str) -> String {
    let (answers, again) = match answered {
        0 => ("", OPENED),
        1 => (OPENED, EXISTS),
        _ => (OPENED_THEN_EXISTS, EXISTS),
    };
    format!(in alloc; "{answers}\n{ending}\n{again}\nserved 1").expect(rt, "memory")
}

/// How a connection ends on which so many requests were answered.
fn ending_of(answered: usize) -> &'static str {
    match answered {
        0 => "served 0",
        1 => "served 1",
        _ => "served 2",
    }
}

/// So many bytes come, and then the end.
#[derive(Drop)]
struct Ended<'a> {
    shelf: &'a TariffShelf,
}

impl<'a> Trial for Ended<'a> {
    fn told<R: Abort>(&mut self, rt: &R, alloc: Global, at: usize) -> String {
        let (mut beginning, _) = OPEN_TWICE
            .as_bytes()
            .split_at_checked(at)
            .expect(rt, "bytes");
        let mut keeper = MemoryKeeper::new(alloc);
        let first = told(rt, alloc, self.shelf, &mut beginning, &mut keeper);
        then_opening(rt, alloc, self.shelf, &mut keeper, first.as_str())
    }

    fn expected<R: Abort>(&mut self, rt: &R, alloc: Global, at: usize) -> String {
        let answered = at / LENGTH;
        expected_of(rt, alloc, answered, ending_of(answered))
    }
}

#[test]
fn ends_at_each_byte(rt: HostRuntime) {
    let alloc = rt.alloc();
    let shelf = shelf(&rt, alloc);
    try_below(&rt, alloc, &mut Ended { shelf: &shelf }, 103);
}

/// A reader gives single bytes and fails after so many calls. The 103rd call says that this is the
/// end.
#[derive(Drop)]
struct Unread<'a> {
    shelf: &'a TariffShelf,
}

impl<'a> Trial for Unread<'a> {
    fn told<R: Abort>(&mut self, rt: &R, alloc: Global, at: usize) -> String {
        let mut reader = Pieces {
            rest: OPEN_TWICE.as_bytes(),
            next: 1,
            after: 1,
            calls: at,
        };
        let mut keeper = MemoryKeeper::new(alloc);
        let first = told(rt, alloc, self.shelf, &mut reader, &mut keeper);
        then_opening(rt, alloc, self.shelf, &mut keeper, first.as_str())
    }

    fn expected<R: Abort>(&mut self, rt: &R, alloc: Global, at: usize) -> String {
        let ending = if at < 103 { "fault 2" } else { "served 2" };
        expected_of(rt, alloc, at / LENGTH, ending)
    }
}

#[test]
fn fails_at_each_read(rt: HostRuntime) {
    let alloc = rt.alloc();
    let shelf = shelf(&rt, alloc);
    try_below(&rt, alloc, &mut Unread { shelf: &shelf }, 104);
}
