//! The book, clocks, and keepers in memory after requests. A line of requests is `SECONDS METHOD
//! PATH BODY`, a connection of its own at its moment.

use crate::tests::connections::told_by;
use crate::tests::requests::request;
use http_api::FixedClock;
use keepers::MemoryKeeper;
use shelves::TariffShelf;
use std::alloc::Global;
use std::process::Abort;
use tariffs::TariffBook;
use units::Moment;

/// Monday 2026-01-05, 10:00.
pub(crate) const TEN: u64 = 1_767_607_200;

/// At midnight an account is opened and credited; at ten a session begins, and five minutes later
/// it ends with more than it was granted: 300 seconds, of which the account pays half.
pub(crate) const HALF_PAID: &str = r#"1767571200 PUT /accounts/49151 
1767571200 POST /accounts/49151/credits {"Amount":250000,"Reference":"r1"}
1767607200 POST /ccr {"Session-Id":"s3","CC-Request-Type":1,"CC-Request-Number":0,"Subscription-Id":{"Subscription-Id-Type":0,"Subscription-Id-Data":"49151"},"Multiple-Services-Credit-Control":[{"Rating-Group":10,"Requested-Service-Unit":{"CC-Time":600}}]}
1767607500 POST /ccr {"Session-Id":"s3","CC-Request-Type":3,"CC-Request-Number":1,"Subscription-Id":{"Subscription-Id-Type":0,"Subscription-Id-Data":"49151"},"Multiple-Services-Credit-Control":[{"Rating-Group":10,"Used-Service-Unit":[{"CC-Time":300}]}]}"#;

/// An account is opened and credited, and a session of events begins.
pub(crate) const FIRST_EVENT: &str = r#"1767571200 PUT /accounts/49151 
1767571200 POST /accounts/49151/credits {"Amount":90000,"Reference":"r1"}
1767607200 POST /ccr {"Session-Id":"s16","CC-Request-Type":1,"CC-Request-Number":0,"Subscription-Id":{"Subscription-Id-Type":0,"Subscription-Id-Data":"49151"},"Multiple-Services-Credit-Control":[{"Rating-Group":30,"Requested-Service-Unit":{"CC-Service-Specific-Units":1}}]}"#;

/// The line of an update of that session, which reports a thousand million events.
pub(crate) fn many_events(rt: &impl Abort, alloc: Global, number: u64) -> String {
    format!(in alloc; "{EVENTS_TO_NUMBER}{number}{EVENTS_FROM_NUMBER}").expect(rt, "memory")
}

const EVENTS_TO_NUMBER: &str =
    r#"1767607200 POST /ccr {"Session-Id":"s16","CC-Request-Type":2,"CC-Request-Number":"#;

const EVENTS_FROM_NUMBER: &str =
    r#","Subscription-Id":{"Subscription-Id-Type":0,"Subscription-Id-Data":"49151"},"Multiple-Services-Credit-Control":[{"Rating-Group":30,"Used-Service-Unit":[{"CC-Service-Specific-Units":1000000000}]}]}"#;

/// A shelf of the worked book alone.
pub(crate) fn shelf(rt: &impl Abort, alloc: Global) -> TariffShelf {
    let book = TariffBook::read(alloc, worked_book::BOOK.as_bytes()).expect(rt, "a book");
    TariffShelf::new(alloc, book).expect(rt, "a shelf")
}

/// A moment of commands.
pub(crate) fn moment(rt: &impl Abort, seconds: u64) -> Moment {
    Moment::of_command(seconds).expect(rt, "a moment")
}

/// A clock that doesn't move.
pub(crate) fn clock(rt: &impl Abort, seconds: u64) -> FixedClock {
    FixedClock {
        moment: moment(rt, seconds),
    }
}

/// Serves each line.
pub(crate) fn ask_all<R: Abort>(
    rt: &R,
    alloc: Global,
    shelf: &TariffShelf,
    keeper: &mut MemoryKeeper,
    lines: &str,
) {
    for line in lines.lines() {
        ask(rt, alloc, shelf, keeper, line);
    }
}

/// Serves a line. Its answer is one of 200.
fn ask<R: Abort>(
    rt: &R,
    alloc: Global,
    shelf: &TariffShelf,
    keeper: &mut MemoryKeeper,
    line: &str,
) {
    let (seconds, line) = line.split_once(" ").expect(rt, "a moment");
    let mut clock = clock(rt, seconds.parse::<u64>().expect(rt, "seconds"));
    let request = request(rt, alloc, line);
    let mut bytes = request.as_bytes();
    let told = told_by(rt, alloc, shelf, &mut bytes, keeper, &mut clock);
    is_done(rt, told.as_str());
}

fn is_done(rt: &impl Abort, told: &str) {
    assert!(rt; told.starts_with("HTTP/1.1 200 OK"), "{told}");
}
