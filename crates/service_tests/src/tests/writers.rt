//! A writer that fails at a call.

use crate::tests::accounts::{TEN, clock, shelf};
use crate::tests::connections::{then_opening, with_ending};
use crate::tests::requests::{EXISTS, OPEN_TWICE, OPENED_THEN_EXISTS};
use crate::tests::trials::{Trial, try_below};
use http_api::serve;
use keepers::MemoryKeeper;
use shelves::TariffShelf;
use std::alloc::Global;
use std::process::Abort;
use worked_book::Slow;

/// An account is opened twice, and the writer fails after so many bytes; then the account is opened
/// once more, over the same keeper.
#[derive(Drop)]
struct Unwritten<'a> {
    shelf: &'a TariffShelf,
}

impl<'a> Trial for Unwritten<'a> {
    fn told<R: Abort>(&mut self, rt: &R, alloc: Global, at: usize) -> String {
        let mut keeper = MemoryKeeper::new(alloc);
        let mut bytes = OPEN_TWICE.as_bytes();
        let mut writer = Slow::new(alloc, at);
        let mut clock = clock(rt, TEN);
        let served = serve(
            alloc,
            &mut bytes,
            &mut writer,
            &mut keeper,
            self.shelf,
            &mut clock,
        );
        let first = with_ending(rt, alloc, writer.taken.as_slice(), served);
        then_opening(rt, alloc, self.shelf, &mut keeper, first.as_str())
    }

    fn expected<R: Abort>(&mut self, rt: &R, alloc: Global, at: usize) -> String {
        let (written, rest) = OPENED_THEN_EXISTS.split_at_checked(at).expect(rt, "bytes");
        let ending = if rest.is_empty() {
            "served 2"
        } else {
            "fault 3"
        };
        format!(in alloc; "{written}\n{ending}\n{EXISTS}\nserved 1").expect(rt, "memory")
    }
}

/// A beginning of the answers, of 91 and 87 bytes, is written, and what was accepted stays so.
// rule: http-answer, http-answer.taken
#[test]
fn fails_at_each_write(rt: HostRuntime) {
    let alloc = rt.alloc();
    let shelf = shelf(&rt, alloc);
    try_below(&rt, alloc, &mut Unwritten { shelf: &shelf }, 179);
}
