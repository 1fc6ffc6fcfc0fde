//! Files of vouchers whose reader gives one byte a call and fails at a call, and memory that is
//! refused.

use crate::tests::files::outcome;
use std::alloc::Global;
use std::io;
use std::io::{ErrorKind, Read};
use std::process::Abort;
use vouchers::{FaultKind, read_vouchers};

/// Gives one byte at a time, and fails once it was called so often.
#[derive(Drop)]
struct Failing<'a> {
    rest: &'a [u8],
    calls: u32,
}

impl<'a> Read for Failing<'a> {
    fn read(&mut self, buf: &mut [u8]) -> io::Result<usize> {
        if self.calls == 0 {
            return Err(io::Error::from(ErrorKind::Other));
        }
        self.calls -= 1;
        let (Some((first, rest)), Some(place)) = (self.rest.split_first(), buf.first_mut()) else {
            return Ok(0);
        };
        *place = *first;
        self.rest = rest;
        Ok(1)
    }
}

/// Tries what is read of a file whose reader fails after so many calls.
fn try_after(rt: &impl Abort, alloc: Global, file: &str, calls: u32, expected: &str) {
    let rest = file.as_bytes();
    let found = outcome(rt, alloc, Failing { rest, calls });
    assert_eq!(rt; found.as_str(), expected, "{calls}");
}

/// A header of 23 bytes, a voucher of 18, and one of 18 without its line feed.
const TWO: &str = "code,amount,days,scope\n000000000001,5,1,\n000000000002,70,,3";

/// What is read of them.
const READ: &str = "000000000001 5 1 -; 000000000002 70 - 3";

/// Tries the same of the two vouchers, after each number of calls from the first to the last.
fn try_each(rt: &impl Abort, alloc: Global, first: u32, last: u32, expected: &str) {
    for calls in first..=last {
        try_after(rt, alloc, TWO, calls, expected);
    }
}

/// The end is asked for twice: once for the last voucher, which has no line feed, and once for the
/// record after it.
#[test]
fn readers_that_fail(rt: HostRuntime) {
    let alloc = rt.alloc();
    try_each(&rt, alloc, 0, 22, "7 at 1");
    try_each(&rt, alloc, 23, 40, "7 at 2");
    try_each(&rt, alloc, 41, 59, "7 at 3");
    try_each(&rt, alloc, 60, 60, "7 at 4");
    try_each(&rt, alloc, 61, 70, READ);
    let file = "code,amount,days,scope\n00000000001,5,1,\n000000000002,7";
    try_after(&rt, alloc, file, 39, "7 at 2");
    try_after(&rt, alloc, file, 40, "3 at 2");
    try_after(&rt, alloc, "code\n", 5, "1 at 1");
}

/// Where an allocation is refused, that is what is reported. A run that refuses each in turn shows
/// it.
#[test]
fn memory_that_is_refused(rt: HostRuntime) {
    match read_vouchers(rt.alloc(), TWO.as_bytes()) {
        Ok(rows) => assert_eq!(rt; rows.len(), 2),
        Err(fault) => assert_eq!(rt; fault.kind, FaultKind::Memory),
    }
}
