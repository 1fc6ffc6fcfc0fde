//! What a connection writes, and how it ends.

use crate::tests::accounts::{TEN, clock};
use crate::tests::requests::OPEN;
use crate::tests::trials::with_line;
use http_api::{Clock, ServeFault, Served, serve};
use keepers::ChargeSource;
use shelves::TariffShelf;
use std::alloc::Global;
use std::io::Read;
use std::process::Abort;

/// What was written, and in a last line how many requests were answered, or the number of the
/// fault.
pub(crate) fn with_ending(
    rt: &impl Abort,
    alloc: Global,
    written: &[u8],
    served: Result<Served, ServeFault>,
) -> String {
    let text = str::from_utf8(written).expect(rt, "a text");
    let told = match served {
        Ok(served) => format!(in alloc; "{text}\nserved {}", served.requests),
        Err(fault) => format!(in alloc; "{text}\nfault {}", fault.number()),
    };
    told.expect(rt, "memory")
}

/// What a connection writes by this clock, and in a last line how it ends.
pub(crate) fn told_by<S: Read, K: ChargeSource, C: Clock>(
    rt: &impl Abort,
    alloc: Global,
    shelf: &TariffShelf,
    reader: &mut S,
    keeper: &mut K,
    clock: &mut C,
) -> String {
    let mut written = Vec::new(alloc);
    let served = serve(alloc, reader, &mut written, keeper, shelf, clock);
    with_ending(rt, alloc, written.as_slice(), served)
}

/// What a connection writes at ten, and in a last line how it ends.
pub(crate) fn told<S: Read, K: ChargeSource>(
    rt: &impl Abort,
    alloc: Global,
    shelf: &TariffShelf,
    reader: &mut S,
    keeper: &mut K,
) -> String {
    told_by(rt, alloc, shelf, reader, keeper, &mut clock(rt, TEN))
}

/// What was answered, and behind it what a connection is answered that opens the account.
pub(crate) fn then_opening<K: ChargeSource>(
    rt: &impl Abort,
    alloc: Global,
    shelf: &TariffShelf,
    keeper: &mut K,
    first: &str,
) -> String {
    let mut again = OPEN.as_bytes();
    let second = told(rt, alloc, shelf, &mut again, keeper);
    with_line(rt, alloc, first, second.as_str())
}
