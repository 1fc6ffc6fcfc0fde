//! Which answers leave together.

use crate::tests::accounts::{TEN, clock, shelf};
use crate::tests::connections::with_ending;
use crate::tests::pieces::Pieces;
use crate::tests::requests::{EXISTS, OPEN_TWICE, OPENED};
use crate::tests::trials::{Trial, try_below};
use http_api::serve;
use keepers::MemoryKeeper;
use shelves::TariffShelf;
use std::alloc::Global;
use std::io;
use std::io::Write;
use std::process::Abort;

/// Keeps what it is given, and an end of line behind what has left.
#[derive(Drop)]
struct Marked {
    taken: Vec<u8>,
}

impl Write for Marked {
    fn write(&mut self, buf: &[u8]) -> io::Result<usize> {
        self.taken.extend_from_slice(buf)?;
        Ok(buf.len())
    }

    fn flush(&mut self) -> io::Result<()> {
        self.taken.push(b'\n')?;
        Ok(())
    }
}

/// An account is opened twice, in two pieces that are cut behind a byte.
#[derive(Drop)]
struct Cut<'a> {
    shelf: &'a TariffShelf,
}

impl<'a> Trial for Cut<'a> {
    fn told<R: Abort>(&mut self, rt: &R, alloc: Global, at: usize) -> String {
        let mut reader = Pieces::new(OPEN_TWICE, at.saturating_add(1), 200);
        let mut writer = Marked {
            taken: Vec::new(alloc),
        };
        let mut keeper = MemoryKeeper::new(alloc);
        let mut clock = clock(rt, TEN);
        let served = serve(
            alloc,
            &mut reader,
            &mut writer,
            &mut keeper,
            self.shelf,
            &mut clock,
        );
        with_ending(rt, alloc, writer.taken.as_slice(), served)
    }

    fn expected<R: Abort>(&mut self, rt: &R, alloc: Global, at: usize) -> String {
        let between = if at == 50 { "\n" } else { "" };
        format!(in alloc; "{OPENED}{between}{EXISTS}\n\nserved 2").expect(rt, "memory")
    }
}

/// The answer to the first of two requests leaves alone where no byte of the second has come with
/// it, and else with the second answer.
// rule: http-leave
#[test]
fn an_answer_leaves_where_no_more_has_come(rt: HostRuntime) {
    let alloc = rt.alloc();
    let shelf = shelf(&rt, alloc);
    try_below(&rt, alloc, &mut Cut { shelf: &shelf }, 101);
}
