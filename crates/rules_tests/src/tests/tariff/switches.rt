//! Switches and validity times beside a search over each minute, and those of a book as Python's
//! `datetime` has them.

use crate::tests::tables::{Teller, Words, try_table};
use crate::tests::tariff::documents::{sliced, whole_week};
use crate::tests::values::{book, book_in_zone, moment};
use calendar::Window;
use std::alloc::Global;
use std::process::Abort;
use tariffs::TariffBook;
use units::Moment;
use worked_book::BOOK;

/// The first whole minute of another period, by a look at each minute.
fn searched(book: &TariffBook, moment: Moment, seconds: u32) -> Option<u64> {
    let start = moment.seconds();
    let here = book.period_at(moment);
    for step in 1..1 + seconds / 60 + 1 {
        let at = 60 * (start / 60 + u64::from(step));
        if start + u64::from(seconds) <= at {
            return None;
        }
        let there = Moment::new(at)?;
        if book.period_at(there) != here {
            return Some(at);
        }
    }
    None
}

/// The validity of so many seconds, cut at the second change by a search.
fn cut(book: &TariffBook, moment: Moment, seconds: u32) -> Option<u64> {
    let start = moment.seconds();
    let Some(switch) = searched(book, moment, seconds) else {
        return Some(u64::from(seconds));
    };
    let left = (start + u64::from(seconds)).checked_sub(switch)?;
    let left = u32::try_from(left).ok()?;
    match searched(book, Moment::new(switch)?, left) {
        Some(next) => next.checked_sub(start),
        None => Some(u64::from(seconds)),
    }
}

/// Whether the book gives the switch and the validity that a search finds.
fn agrees(book: &TariffBook, start: u64, seconds: u32) -> Option<bool> {
    if seconds > 43_200 {
        return None;
    }
    let moment = Moment::of_command(start)?;
    let switch = book.next_switch(moment, seconds).map(Moment::seconds);
    let window = book.window_from(moment, seconds);
    let found = searched(book, moment, seconds);
    let validity = cut(book, moment, seconds)?;
    Some(switch == found && window.switch == found && u64::from(window.validity) == validity)
}

/// From a Friday's and a Sunday's last hours on, over midnight: 2026-01-02 and 2026-01-04; and near
/// the last moment.
const STARTS: [u64; 6] = [
    1_767_394_740,
    1_767_398_399,
    1_767_527_941,
    1_767_571_140,
    4_102_401_600,
    4_102_444_740,
];

fn try_length(rt: &impl Abort, book: &TariffBook, at: u64, seconds: u32) {
    let agreed = agrees(book, at, seconds);
    assert!(rt; agreed == Some(true), "{at} {seconds}");
}

fn try_start(rt: &impl Abort, book: &TariffBook, start: u64) {
    for later in [0, 1, 59] {
        let at = start.checked_add(later).expect(rt, "a moment");
        for seconds in [0, 1, 60, 3_600, 43_200] {
            try_length(rt, book, at, seconds);
        }
    }
}

fn try_starts(rt: &impl Abort, book: &TariffBook) {
    for start in STARTS {
        try_start(rt, book, start);
    }
}

fn try_book(rt: &impl Abort, alloc: Global, text: &str) {
    let book = book(rt, alloc, text);
    try_starts(rt, &book);
}

#[test]
fn one_entry(rt: HostRuntime) {
    try_book(
        &rt,
        rt.alloc(),
        whole_week(&rt, rt.alloc(), "+14:00").as_str(),
    );
}

#[test]
fn two_entries(rt: HostRuntime) {
    try_book(
        &rt,
        rt.alloc(),
        sliced(&rt, rt.alloc(), "+00:00", 1, 1).as_str(),
    );
}

// rule: switch, switch.switch-first
#[test]
fn forty_entries(rt: HostRuntime) {
    try_book(
        &rt,
        rt.alloc(),
        sliced(&rt, rt.alloc(), "-14:00", 16, 24).as_str(),
    );
}

// rule: switch-steps
#[test]
fn sixty_four_entries(rt: HostRuntime) {
    try_book(
        &rt,
        rt.alloc(),
        sliced(&rt, rt.alloc(), "+05:45", 32, 32).as_str(),
    );
}

/// Tells of a document in a zone the switch within so many seconds of a moment, and these seconds
/// cut at the change after it.
#[derive(Clone, Copy)]
struct Windows<'a> {
    document: &'a str,
}

impl Teller for Windows<'_> {
    fn tell<R: Abort>(&mut self, rt: &R, alloc: Global, case: &str) -> String {
        let mut words = Words::of(case);
        let zone = words.word();
        let (at, seconds) = (moment(rt, words.number(rt)), words.number(rt));
        let book = book_in_zone(rt, alloc, self.document, zone);
        told_of_window(rt, alloc, book.window_from(at, seconds))
    }
}

fn told_of_window(rt: &impl Abort, alloc: Global, window: Window) -> String {
    format!(in alloc; "{:?} {}", window.switch, window.validity).expect(rt, "memory")
}

/// A Friday's evening and its last second before 20:00, a Saturday's noon, a Sunday's last second,
/// other zones' Sunday to Monday, and the last moment of commands.
const WINDOWS: &str = "\
+00:00 1767985200 0 => None 0
+00:00 1767985200 1 => None 1
+00:00 1767985200 3600 => None 3600
+00:00 1767985200 3601 => Some(1767988800) 3601
+00:00 1767985200 43200 => Some(1767988800) 18000
+00:00 1767988799 0 => None 0
+00:00 1767988799 1 => None 1
+00:00 1767988799 2 => Some(1767988800) 2
+00:00 1767988799 60 => Some(1767988800) 60
+00:00 1768046400 60 => None 60
+00:00 1768046400 3600 => None 3600
+00:00 1768046400 43200 => None 43200
+00:00 1768175999 0 => None 0
+00:00 1768175999 1 => None 1
+00:00 1768175999 2 => Some(1768176000) 2
+00:00 1768175999 28801 => Some(1768176000) 28801
+00:00 1768175999 28802 => Some(1768176000) 28801
+00:00 1768175999 43200 => Some(1768176000) 28801
+05:45 1768153500 1800 => None 1800
+05:45 1768153500 1801 => Some(1768155300) 1801
+05:45 1768153500 43200 => Some(1768155300) 30600
-14:00 1768183200 43200 => None 43200
+00:00 4102444799 0 => None 0
+00:00 4102444799 1 => None 1
+00:00 4102444799 60 => None 60
+00:00 4102444799 28801 => None 28801
+00:00 4102444799 28802 => Some(4102473600) 28802
+00:00 4102444799 43200 => Some(4102473600) 43200
+14:00 4102444799 60 => None 60
+14:00 4102444799 43200 => Some(4102466400) 36001";

/// The book is the worked one with weekends of the weekdays' dear period, so that it changes at two
/// midnights of a week.
#[test]
fn windows_over_weekends(rt: HostRuntime) {
    let text = BOOK.replace(
        rt.alloc(),
        "\"off\"\ndays = [6, 7]",
        "\"peak\"\ndays = [6, 7]",
    );
    let text = text.expect(&rt, "memory");
    let document = text.as_str();
    try_table(&rt, rt.alloc(), &mut Windows { document }, WINDOWS);
}
