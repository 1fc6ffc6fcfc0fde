//! Lines of requests where the store, the reader or the writer fails.

use keepers::{Failing, MemoryKeeper, StoreFault};
use operations::{LinesFault, lines};
use shelves::TariffShelf;
use std::alloc::Global;
use std::io::{self, ErrorKind, Read, Write};
use std::process::Abort;
use tariffs::once_book;
use texts::StreamFault;
use units::Money;

/// The text on fewer lines: one that begins with two spaces goes on with the one before it.
fn joined(rt: &impl Abort, alloc: Global, text: &str) -> String {
    text.replace(alloc, "\n  ", "").expect(rt, "memory")
}

/// A shelf of a book of one price alone: 100,000 micro-units a minute.
fn minutes(rt: &impl Abort, alloc: Global) -> TariffShelf {
    let book = once_book(alloc, 100_000, 60).expect(rt, "memory");
    TariffShelf::new(alloc, book).expect(rt, "a shelf")
}

/// Fails where answering ended otherwise, or where other bytes are written.
fn expect_told(
    rt: &impl Abort,
    ended: Result<(), LinesFault>,
    wanted: Result<(), LinesFault>,
    written: &[u8],
    text: &[u8],
) {
    assert_eq!(rt; ended, wanted);
    assert_eq!(rt; written, text);
}

/// Fails where answering ended otherwise, or where no beginning of the text is written.
fn expect_begun(
    rt: &impl Abort,
    ended: Result<(), LinesFault>,
    wanted: LinesFault,
    written: &[u8],
    text: &[u8],
) {
    assert_eq!(rt; ended, Err(wanted));
    assert!(rt; text.starts_with(written));
    assert!(rt; written.len() < text.len());
}

// ---- a store that fails

/// Two debits of a minute.
const DEBITS: &str = r#"1767607200 {"Session-Id":"d8","CC-Request-Type":4,"CC-Request-Number":0,
  "Subscription-Id":{"Subscription-Id-Type":0,"Subscription-Id-Data":"49151"},
  "Requested-Action":0,"Multiple-Services-Credit-Control":[{"Rating-Group":10,
  "Requested-Service-Unit":{"CC-Time":60}}]}
1767607200 {"Session-Id":"d8b","CC-Request-Type":4,"CC-Request-Number":0,
  "Subscription-Id":{"Subscription-Id-Type":0,"Subscription-Id-Data":"49151"},
  "Requested-Action":0,"Multiple-Services-Credit-Control":[{"Rating-Group":10,
  "Requested-Service-Unit":{"CC-Time":60}}]}
"#;

/// The answer to the first.
const DEBITED: &str = r#"{"CC-Request-Number":0,"CC-Request-Type":4,
  "Multiple-Services-Credit-Control":[{"Granted-Service-Unit":{"CC-Time":60},"Rating-Group":10,
  "Result-Code":2001}],"Result-Code":2001,"Session-Id":"d8"}
"#;

/// Its first 16 bytes, which a writer takes in two calls.
const DEBIT_BEGUN: &[u8] = b"{\"CC-Request-Num";

/// The calls of a keeper by which an account is opened and credited, and one debit is charged.
const CALLS_OF_ONE_DEBIT: u64 = 12;

/// Answers these lines over a keeper that fails after the first debit.
fn answer_to_a_fault<W: Write>(
    alloc: Global,
    shelf: &TariffShelf,
    asked: &str,
    writer: &mut W,
) -> Result<(), LinesFault> {
    let credit = Money::new(100_000);
    let mut reader = asked.as_bytes();
    let mut keeper = Failing::new(MemoryKeeper::new(alloc), CALLS_OF_ONE_DEBIT);
    lines(alloc, &mut keeper, shelf, credit, &mut reader, writer)
}

/// Answers the debits over that keeper.
fn debit_to_a_fault<W: Write>(
    rt: &impl Abort,
    alloc: Global,
    writer: &mut W,
) -> Result<(), LinesFault> {
    let asked = joined(rt, alloc, DEBITS);
    let shelf = minutes(rt, alloc);
    answer_to_a_fault(alloc, &shelf, asked.as_str(), writer)
}

/// At a store fault after the first debit, the answers before it are written.
// rule: dated-lines.line-request, request-lines
#[test]
fn a_store_fault(rt: HostRuntime) {
    let alloc = rt.alloc();
    let wanted = joined(&rt, alloc, DEBITED);
    let mut written = Vec::new(alloc);
    let ended = debit_to_a_fault(&rt, alloc, &mut written);
    let fault = LinesFault::Store(StoreFault::Store);
    expect_told(&rt, ended, Err(fault), &written, wanted.as_bytes());
}

/// Where writing the answers fails too, the store's fault is reported, and that they weren't
/// written.
#[test]
fn a_store_fault_and_a_writer_that_fails(rt: HostRuntime) {
    let alloc = rt.alloc();
    let mut writer = failing_writer(alloc, 2);
    let ended = debit_to_a_fault(&rt, alloc, &mut writer);
    let fault = LinesFault::Both(StoreFault::Store);
    expect_told(&rt, ended, Err(fault), &writer.taken, DEBIT_BEGUN);
}

// ---- readers and writers that fail

/// A reader that fails at the call after this many.
#[derive(Drop)]
struct FailingReader<'a> {
    bytes: &'a [u8],
    left: usize,
}

impl<'a> Read for FailingReader<'a> {
    fn read(&mut self, buffer: &mut [u8]) -> io::Result<usize> {
        if self.left == 0 {
            return Err(io::Error::from(ErrorKind::BrokenPipe));
        }
        self.left -= 1;
        self.bytes.read(buffer)
    }
}

/// A writer that takes up to 8 bytes a call, and fails at the call after this many.
#[derive(Drop)]
struct FailingWriter {
    taken: Vec<u8>,
    left: usize,
}

/// A writer that has taken nothing.
fn failing_writer(alloc: Global, left: usize) -> FailingWriter {
    FailingWriter {
        taken: Vec::new(alloc),
        left,
    }
}

impl Write for FailingWriter {
    fn write(&mut self, bytes: &[u8]) -> io::Result<usize> {
        if self.left == 0 {
            return Err(io::Error::from(ErrorKind::BrokenPipe));
        }
        self.left -= 1;
        let count = bytes.len().min(8);
        self.taken.write(&bytes[..count])
    }

    fn flush(&mut self) -> io::Result<()> {
        Ok(())
    }
}

/// Two lines that are no requests.
const UNREAD: &[u8] = b"0 {}\n{}\n";

/// What they are answered: 47 bytes and 21, which the writer takes in 6 calls and 3.
const FAULTS: &[u8] =
    b"{\"Failed-AVP\":\"Session-Id\",\"Result-Code\":5005}\n{\"Result-Code\":5012}\n";

/// Answers lines that open no account.
fn answer<R: Read, W: Write>(
    alloc: Global,
    shelf: &TariffShelf,
    reader: &mut R,
    writer: &mut W,
) -> Result<(), LinesFault> {
    let mut keeper = MemoryKeeper::new(alloc);
    lines(alloc, &mut keeper, shelf, None, reader, writer)
}

/// How answering those lines ends over a reader that fails after so many calls, and what is
/// written.
fn read_to_a_fault(
    alloc: Global,
    shelf: &TariffShelf,
    left: usize,
    written: &mut Vec<u8>,
) -> Result<(), LinesFault> {
    let mut reader = FailingReader {
        bytes: UNREAD,
        left,
    };
    answer(alloc, shelf, &mut reader, written)
}

/// A reader that fails at this call is reported as such; nothing is written.
fn fail_to_read(rt: &impl Abort, alloc: Global, shelf: &TariffShelf, left: usize) {
    let mut written = Vec::new(alloc);
    let ended = read_to_a_fault(alloc, shelf, left, &mut written);
    let fault = LinesFault::Read(StreamFault::Read);
    expect_told(rt, ended, Err(fault), &written, b"");
}

/// A reader that fails at no call.
fn read_to_the_end(rt: &impl Abort, alloc: Global, shelf: &TariffShelf, left: usize) {
    let mut written = Vec::new(alloc);
    let ended = read_to_a_fault(alloc, shelf, left, &mut written);
    expect_told(rt, ended, Ok(()), &written, FAULTS);
}

/// A reader that fails at any of its calls, one a byte and one for the end.
#[test]
fn a_reader_that_fails(rt: HostRuntime) {
    let alloc = rt.alloc();
    let shelf = minutes(&rt, alloc);
    for left in 0..9 {
        fail_to_read(&rt, alloc, &shelf, left);
    }
    read_to_the_end(&rt, alloc, &shelf, 9);
}

/// A writer that fails at this call is reported as such; a beginning of the answers is written.
fn fail_to_write(rt: &impl Abort, alloc: Global, shelf: &TariffShelf, left: usize) {
    let mut reader = UNREAD;
    let mut writer = failing_writer(alloc, left);
    let ended = answer(alloc, shelf, &mut reader, &mut writer);
    let fault = LinesFault::Write(StreamFault::Write);
    expect_begun(rt, ended, fault, &writer.taken, FAULTS);
}

/// A writer that fails at no call.
fn write_to_the_end(rt: &impl Abort, alloc: Global, shelf: &TariffShelf, left: usize) {
    let mut reader = UNREAD;
    let mut writer = failing_writer(alloc, left);
    let ended = answer(alloc, shelf, &mut reader, &mut writer);
    expect_told(rt, ended, Ok(()), &writer.taken, FAULTS);
}

/// A writer that fails at any of its calls.
#[test]
fn a_writer_that_fails(rt: HostRuntime) {
    let alloc = rt.alloc();
    let shelf = minutes(&rt, alloc);
    for left in 0..9 {
        fail_to_write(&rt, alloc, &shelf, left);
    }
    write_to_the_end(&rt, alloc, &shelf, 9);
}
