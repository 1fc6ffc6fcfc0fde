//! The values of the tests, each made in one place.

ghost use Rattle.std.specs.Prelude.{◌<◌};
ghost use Rattle.units.specs.Words.{no_end};

use calendar::{Calendar, Entry, Zone};
use identifiers::SessionId;
use reserving::Account;
use shelves::TariffShelf;
use std::alloc::Global;
use std::process::Abort;
use tariffs::TariffBook;
use units::{Moment, Money};

/// 10:00 of 2026-01-05, a Monday, in UTC.
pub(crate) const TEN: u64 = 1_767_607_200;

/// A moment of commands.
pub(crate) fn moment(rt: &impl Abort, seconds: u64) -> Moment
    ensures { result < no_end }
{
    Moment::of_command(seconds).expect(rt, "a moment of commands")
}

/// A moment at which something may end.
pub(crate) fn end(rt: &impl Abort, seconds: u64) -> Moment {
    Moment::new(seconds).expect(rt, "an end")
}

pub(crate) fn money(rt: &impl Abort, micros: u64) -> Money {
    Money::new(micros).expect(rt, "an amount of money")
}

pub(crate) fn session_id(rt: &impl Abort, alloc: Global, text: &str) -> SessionId {
    let id = SessionId::new(alloc, text).expect(rt, "memory");
    id.expect(rt, "a Session-Id")
}

/// The zone that is so many minutes ahead of UTC; None where there is no such zone.
pub(crate) fn zone(alloc: Global, minutes: i16) -> Option<Zone> {
    Zone::fixed(alloc, minutes)
}

/// The calendar of a zone that is so many minutes ahead of UTC; None where the entries are no week.
pub(crate) fn calendar(
    rt: &impl Abort,
    alloc: Global,
    minutes: i16,
    entries: Vec<Entry>,
) -> Option<Calendar> {
    let zone = zone(alloc, minutes).expect(rt, "a zone");
    Calendar::new(zone, entries)
}

/// The book that a text is read as.
pub(crate) fn book(rt: &impl Abort, alloc: Global, text: &str) -> TariffBook {
    TariffBook::read(alloc, text.as_bytes()).expect(rt, "a book")
}

/// The book of a document in another zone than UTC.
pub(crate) fn book_in_zone(rt: &impl Abort, alloc: Global, text: &str, zone: &str) -> TariffBook {
    let text = text.replace(alloc, "+00:00", zone).expect(rt, "memory");
    book(rt, alloc, text.as_str())
}

/// The shelf with the book that a text is read as, and no other.
pub(crate) fn shelf(rt: &impl Abort, alloc: Global, text: &str) -> TariffShelf {
    let book = book(rt, alloc, text);
    TariffShelf::new(alloc, book).expect(rt, "a shelf")
}

/// An account without rows.
pub(crate) fn account(alloc: Global, shelf: &TariffShelf) -> Account<'_> {
    Account::new(alloc, shelf)
}
