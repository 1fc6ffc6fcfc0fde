//! What the look-ups say of the book of three groups. Expected values are the document's, and for
//! moments those of Python's `datetime` with a fixed offset: the weekday and hour, the date's
//! ordinal, its year and month, the timestamp of a midnight, and a search over each minute of the
//! next hour.

ghost use Rattle.std.specs.Prelude.{◌<◌, ◌≤◌};
ghost use Rattle.units.specs.Words.{no_end, longest_validity};

use crate::tests::tables::{Teller, Words, try_table};
use crate::tests::tariff::documents::SMALL;
use crate::tests::values::{book, book_in_zone, moment};
use calendar::{Cycle, Period};
use std::alloc::Global;
use std::process::Abort;
use tariffs::{Tariff, TariffBook};
use units::Moment;
use worked_book::BOOK;

/// What a tariff says of itself, but for its prices.
fn described(rt: &impl Abort, alloc: Global, tariff: &Tariff) -> String {
    let text = format!(in alloc;
        "{} {} {} {} {:?} {:?} {:?}",
        tariff.group(),
        tariff.block(),
        tariff.slice(),
        tariff.max_grant(),
        tariff.unit(),
        tariff.cycle(),
        tariff.final_action()
    );
    text.expect(rt, "memory")
}

/// The bounds and prices of its tiers in a period.
fn tiers(rt: &impl Abort, alloc: Global, tariff: &Tariff, period: u8) -> String {
    let mut text = String::new(alloc);
    for tier in tariff.tiers(Period(period)) {
        let line = format!(in alloc; " / {:?} {}", tier.upto, tier.price).expect(rt, "memory");
        text.push_str(line.as_str()).expect(rt, "memory");
    }
    text
}

/// A group of a book: what it says, and its tiers in a period.
pub(crate) fn told_of_group(
    rt: &impl Abort,
    alloc: Global,
    book: &TariffBook,
    group: u32,
    period: u8,
) -> String {
    match book.tariff(group) {
        Some(tariff) => {
            let described = described(rt, alloc, tariff);
            let tiers = tiers(rt, alloc, tariff, period);
            format!(in alloc; "{described}{tiers}").expect(rt, "memory")
        }
        None => String::from_str(alloc, "none").expect(rt, "memory"),
    }
}

/// Tells what a book says of a group in a period.
#[derive(Clone, Copy)]
struct Groups<'b> {
    book: &'b TariffBook,
}

impl Teller for Groups<'_> {
    fn tell<R: Abort>(&mut self, rt: &R, alloc: Global, case: &str) -> String {
        let mut words = Words::of(case);
        let (group, period) = (words.number(rt), words.number(rt));
        told_of_group(rt, alloc, self.book, group, period)
    }
}

const GROUPS: &str = "\
10 0 => 10 60 600 3600 Time None Terminate / None 50000
10 1 => 10 60 600 3600 Time None Terminate / None 100000
10 2 => 10 60 600 3600 Time None Terminate
20 0 => 20 1048576 10485760 1048576000 TotalOctets Month
   Redirect(RedirectAddress { text: \"http://topup.example/\" }) / Some(100) 0 / None 10000
30 1 => 30 1 1 100 ServiceSpecific None Terminate / None 90000
99 0 => none";

// rule: tiers
#[test]
fn groups_of_the_book(rt: HostRuntime) {
    let book = book(&rt, rt.alloc(), BOOK);
    try_table(&rt, rt.alloc(), &mut Groups { book: &book }, GROUPS);
}

/// The period at a moment, the switch within so many seconds of it, and the validity from it.
pub(crate) fn told_of_period(
    rt: &impl Abort,
    alloc: Global,
    book: &TariffBook,
    at: Moment,
    seconds: u32,
) -> String
    requires at { at < no_end }
    requires seconds { seconds ≤ longest_validity }
{
    let Period(period) = book.period_at(at);
    let switch = book.next_switch(at, seconds).map(Moment::seconds);
    let validity = book.validity_from(at);
    format!(in alloc; "{period} {switch:?} {validity}").expect(rt, "memory")
}

/// The numbers of a moment's cycles, and the end of its day and of the 30th day after it.
fn told_of_days(rt: &impl Abort, alloc: Global, book: &TariffBook, at: Moment) -> String {
    let none = book.cycle_of(Cycle::None, at);
    let day = book.cycle_of(Cycle::Day, at);
    let month = book.cycle_of(Cycle::Month, at);
    let today = book.day_end(at, 0).map(Moment::seconds);
    let later = book.day_end(at, 30).map(Moment::seconds);
    format!(in alloc; "{none} {day} {month} {today:?} {later:?}").expect(rt, "memory")
}

/// Tells what the book of a document says, in another zone, of a moment.
#[derive(Clone, Copy)]
struct Moments<'a> {
    document: &'a str,
}

impl Teller for Moments<'_> {
    fn tell<R: Abort>(&mut self, rt: &R, alloc: Global, case: &str) -> String {
        let mut words = Words::of(case);
        let zone = words.word();
        let at = moment(rt, words.number(rt));
        let book = book_in_zone(rt, alloc, self.document, zone);
        told_of_moment(rt, alloc, &book, at)
    }
}

fn told_of_moment(rt: &impl Abort, alloc: Global, book: &TariffBook, at: Moment) -> String
    requires { at < no_end }
{
    let period = told_of_period(rt, alloc, book, at, 3600);
    let days = told_of_days(rt, alloc, book, at);
    format!(in alloc; "{period} {days}").expect(rt, "memory")
}

/// The edges of minutes, days, months and years in four zones.
const MOMENTS: &str = "\
+00:00 1767598200 => 0 Some(1767600000) 3600 0 20459 684 Some(1767657600) Some(1770249600)
-14:00 1767275999 => 0 None 3600 0 20454 683 Some(1767276000) Some(1769868000)
-14:00 1767276000 => 0 None 3600 0 20455 684 Some(1767362400) Some(1769954400)
-14:00 1709301599 => 0 None 3600 0 19783 661 Some(1709301600) Some(1711893600)
-14:00 1709301600 => 0 None 3600 0 19784 662 Some(1709388000) Some(1711980000)
-14:00 1767650399 => 0 Some(1767650400) 3600 0 20459 684 Some(1767708000) Some(1770300000)
-14:00 1767650400 => 1 None 3600 0 20459 684 Some(1767708000) Some(1770300000)
-14:00 1768039140 => 1 Some(1768039200) 3600 0 20463 684 Some(1768053600) Some(1770645600)
-14:00 1768039200 => 0 None 3600 0 20463 684 Some(1768053600) Some(1770645600)
+00:00 1767225599 => 0 None 3600 0 20454 683 Some(1767225600) Some(1769817600)
+00:00 1767225600 => 0 None 3600 0 20455 684 Some(1767312000) Some(1769904000)
+00:00 1709251199 => 0 None 3600 0 19783 661 Some(1709251200) Some(1711843200)
+00:00 1709251200 => 0 None 3600 0 19784 662 Some(1709337600) Some(1711929600)
+00:00 1767599999 => 0 Some(1767600000) 3600 0 20459 684 Some(1767657600) Some(1770249600)
+00:00 1767600000 => 1 None 3600 0 20459 684 Some(1767657600) Some(1770249600)
+00:00 1767988740 => 1 Some(1767988800) 3600 0 20463 684 Some(1768003200) Some(1770595200)
+00:00 1767988800 => 0 None 3600 0 20463 684 Some(1768003200) Some(1770595200)
+05:45 1767204899 => 0 None 3600 0 20454 683 Some(1767204900) Some(1769796900)
+05:45 1767204900 => 0 None 3600 0 20455 684 Some(1767291300) Some(1769883300)
+05:45 1709230499 => 0 None 3600 0 19783 661 Some(1709230500) Some(1711822500)
+05:45 1709230500 => 0 None 3600 0 19784 662 Some(1709316900) Some(1711908900)
+05:45 1767579299 => 0 Some(1767579300) 3600 0 20459 684 Some(1767636900) Some(1770228900)
+05:45 1767579300 => 1 None 3600 0 20459 684 Some(1767636900) Some(1770228900)
+05:45 1767968040 => 1 Some(1767968100) 3600 0 20463 684 Some(1767982500) Some(1770574500)
+05:45 1767968100 => 0 None 3600 0 20463 684 Some(1767982500) Some(1770574500)
+14:00 1767175199 => 0 None 3600 0 20454 683 Some(1767175200) Some(1769767200)
+14:00 1767175200 => 0 None 3600 0 20455 684 Some(1767261600) Some(1769853600)
+14:00 1709200799 => 0 None 3600 0 19783 661 Some(1709200800) Some(1711792800)
+14:00 1709200800 => 0 None 3600 0 19784 662 Some(1709287200) Some(1711879200)
+14:00 1767549599 => 0 Some(1767549600) 3600 0 20459 684 Some(1767607200) Some(1770199200)
+14:00 1767549600 => 1 None 3600 0 20459 684 Some(1767607200) Some(1770199200)
+14:00 1767938340 => 1 Some(1767938400) 3600 0 20463 684 Some(1767952800) Some(1770544800)
+14:00 1767938400 => 0 None 3600 0 20463 684 Some(1767952800) Some(1770544800)";

/// Berlin, Sydney, Lord Howe, New York and Havana near their changes of 2026, and the days, months
/// and parts of the week about them; from tables of the time zone database.
const MOMENTS_OF_SUMMER: &str = "\
CET-1CEST,M3.5.0,M10.5.0/3 1774594799 => 0 Some(1774594800) 3600 0 20540 686 Some(1774652400) Some(1777240800)
CET-1CEST,M3.5.0,M10.5.0/3 1774738799 => 0 None 3600 0 20541 686 Some(1774738800) Some(1777327200)
CET-1CEST,M3.5.0,M10.5.0/3 1774738800 => 0 None 3600 0 20542 686 Some(1774821600) Some(1777413600)
CET-1CEST,M3.5.0,M10.5.0/3 1774745999 => 0 None 3600 0 20542 686 Some(1774821600) Some(1777413600)
CET-1CEST,M3.5.0,M10.5.0/3 1774746000 => 0 None 3600 0 20542 686 Some(1774821600) Some(1777413600)
CET-1CEST,M3.5.0,M10.5.0/3 1774821599 => 0 None 3600 0 20542 686 Some(1774821600) Some(1777413600)
CET-1CEST,M3.5.0,M10.5.0/3 1774821600 => 0 None 3600 0 20543 686 Some(1774908000) Some(1777500000)
CET-1CEST,M3.5.0,M10.5.0/3 1774850340 => 0 Some(1774850400) 3600 0 20543 686 Some(1774908000) Some(1777500000)
CET-1CEST,M3.5.0,M10.5.0/3 1774994399 => 0 None 3600 0 20544 686 Some(1774994400) Some(1777586400)
CET-1CEST,M3.5.0,M10.5.0/3 1774994400 => 0 None 3600 0 20545 687 Some(1775080800) Some(1777672800)
CET-1CEST,M3.5.0,M10.5.0/3 1792889999 => 0 None 3600 0 20752 693 Some(1792969200) Some(1795561200)
CET-1CEST,M3.5.0,M10.5.0/3 1792890000 => 0 None 3600 0 20752 693 Some(1792969200) Some(1795561200)
CET-1CEST,M3.5.0,M10.5.0/3 1792969199 => 0 None 3600 0 20752 693 Some(1792969200) Some(1795561200)
CET-1CEST,M3.5.0,M10.5.0/3 1792996200 => 0 Some(1792998000) 3600 0 20753 693 Some(1793055600) Some(1795647600)
AEST-10AEDT,M10.1.0,M4.1.0/3 1775314740 => 0 None 3600 0 20549 687 Some(1775397600) Some(1777989600)
AEST-10AEDT,M10.1.0,M4.1.0/3 1775316600 => 0 None 3600 0 20549 687 Some(1775397600) Some(1777989600)
AEST-10AEDT,M10.1.0,M4.1.0/3 1775320200 => 0 None 3600 0 20549 687 Some(1775397600) Some(1777989600)
AEST-10AEDT,M10.1.0,M4.1.0/3 1775426399 => 0 Some(1775426400) 3600 0 20550 687 Some(1775484000) Some(1778076000)
AEST-10AEDT,M10.1.0,M4.1.0/3 1791043199 => 0 None 3600 0 20731 693 Some(1791118800) Some(1793710800)
AEST-10AEDT,M10.1.0,M4.1.0/3 1791043200 => 0 None 3600 0 20731 693 Some(1791118800) Some(1793710800)
AEST-10AEDT,M10.1.0,M4.1.0/3 1798721999 => 0 None 3600 0 20819 695 Some(1798722000) Some(1801314000)
AEST-10AEDT,M10.1.0,M4.1.0/3 1798722000 => 0 None 3600 0 20820 696 Some(1798808400) Some(1801400400)
LHST-10:30LHDT-11,M10.1.0,M4.1.0 1775313900 => 0 None 3600 0 20549 687 Some(1775395800) Some(1777987800)
LHST-10:30LHDT-11,M10.1.0,M4.1.0 1775315700 => 0 None 3600 0 20549 687 Some(1775395800) Some(1777987800)
LHST-10:30LHDT-11,M10.1.0,M4.1.0 1791041399 => 0 None 3600 0 20731 693 Some(1791118800) Some(1793710800)
LHST-10:30LHDT-11,M10.1.0,M4.1.0 1791041400 => 0 None 3600 0 20731 693 Some(1791118800) Some(1793710800)
EST5EDT,M3.2.0,M11.1.0 1772953199 => 0 None 3600 0 20521 686 Some(1773028800) Some(1775620800)
EST5EDT,M3.2.0,M11.1.0 1772953200 => 0 None 3600 0 20521 686 Some(1773028800) Some(1775620800)
EST5EDT,M3.2.0,M11.1.0 1793511000 => 0 None 3600 0 20759 694 Some(1793595600) Some(1796187600)
EST5EDT,M3.2.0,M11.1.0 1793514600 => 0 None 3600 0 20759 694 Some(1793595600) Some(1796187600)
CST5CDT,M3.2.0/0,M11.1.0/1 1772902800 => 0 None 3600 0 20520 686 Some(1772946000) Some(1775534400)
CST5CDT,M3.2.0/0,M11.1.0/1 1772945999 => 0 None 3600 0 20520 686 Some(1772946000) Some(1775534400)
CST5CDT,M3.2.0/0,M11.1.0/1 1772946000 => 0 None 3600 0 20521 686 Some(1773028800) Some(1775620800)
CST5CDT,M3.2.0/0,M11.1.0/1 1793462400 => 0 None 3600 0 20758 693 Some(1793505600) Some(1796101200)
CST5CDT,M3.2.0/0,M11.1.0/1 1793507400 => 0 None 3600 0 20759 694 Some(1793595600) Some(1796187600)
CST5CDT,M3.2.0/0,M11.1.0/1 1793511000 => 0 None 3600 0 20759 694 Some(1793595600) Some(1796187600)";

/// Nights that are halved at 02:30, in a book whose validity is 43,200 seconds: a period may begin
/// twice, or not at all.
const HALVED: &str = "\
CET-1CEST,M3.5.0,M10.5.0/3 1774744200 => 0 Some(1774746000) 43200 0 20542 686 Some(1774821600) Some(1777413600)
CET-1CEST,M3.5.0,M10.5.0/3 1774746000 => 1 None 43200 0 20542 686 Some(1774821600) Some(1777413600)
CET-1CEST,M3.5.0,M10.5.0/3 1774746060 => 1 None 43200 0 20542 686 Some(1774821600) Some(1777413600)
CET-1CEST,M3.5.0,M10.5.0/3 1774821599 => 1 Some(1774821600) 9001 0 20542 686 Some(1774821600) Some(1777413600)
CET-1CEST,M3.5.0,M10.5.0/3 1792887300 => 0 Some(1792888200) 2700 0 20752 693 Some(1792969200) Some(1795561200)
CET-1CEST,M3.5.0,M10.5.0/3 1792888200 => 1 Some(1792890000) 3600 0 20752 693 Some(1792969200) Some(1795561200)
CET-1CEST,M3.5.0,M10.5.0/3 1792889999 => 1 Some(1792890000) 1801 0 20752 693 Some(1792969200) Some(1795561200)
CET-1CEST,M3.5.0,M10.5.0/3 1792890000 => 0 Some(1792891800) 43200 0 20752 693 Some(1792969200) Some(1795561200)
CET-1CEST,M3.5.0,M10.5.0/3 1792891799 => 0 Some(1792891800) 43200 0 20752 693 Some(1792969200) Some(1795561200)
CET-1CEST,M3.5.0,M10.5.0/3 1792891800 => 1 None 43200 0 20752 693 Some(1792969200) Some(1795561200)
LHST-10:30LHDT-11,M10.1.0,M4.1.0 1775313900 => 0 None 43200 0 20549 687 Some(1775395800) Some(1777987800)
LHST-10:30LHDT-11,M10.1.0,M4.1.0 1775316599 => 0 Some(1775318400) 43200 0 20549 687 Some(1775395800) Some(1777987800)
LHST-10:30LHDT-11,M10.1.0,M4.1.0 1791041399 => 0 Some(1791041400) 43200 0 20731 693 Some(1791118800) Some(1793710800)
AEST-10AEDT,M10.1.0,M4.1.0/3 1775315700 => 0 Some(1775316600) 2700 0 20549 687 Some(1775397600) Some(1777989600)
AEST-10AEDT,M10.1.0,M4.1.0/3 1791041400 => 0 Some(1791043200) 43200 0 20731 693 Some(1791118800) Some(1793710800)";

/// The same nights with a validity of 3,600 seconds.
const HALVED_HOUR: &str = "\
CET-1CEST,M3.5.0,M10.5.0/3 1774744200 => 0 Some(1774746000) 3600 0 20542 686 Some(1774821600)
   Some(1777413600)
CET-1CEST,M3.5.0,M10.5.0/3 1792887300 => 0 Some(1792888200) 2700 0 20752 693 Some(1792969200)
   Some(1795561200)";

/// From 07:50 the period changes at 08:00 and 08:20: the validity ends at the second change.
const CUT: &str = "\
+00:00 1767599400 => 0 Some(1767600000) 1800 0 20459 684 Some(1767657600) Some(1770249600)";

// rule: period, period.weekday-of-date, validity
#[test]
fn moments_of_the_book(rt: HostRuntime) {
    try_table(&rt, rt.alloc(), &mut Moments { document: BOOK }, MOMENTS);
    let text = BOOK
        .replace(rt.alloc(), "20:00", "08:20")
        .expect(&rt, "memory");
    let document = text.as_str();
    try_table(&rt, rt.alloc(), &mut Moments { document }, CUT);
}

fn try_halved(rt: &impl Abort, alloc: Global, validity: &str, cases: &str) {
    let text = SMALL.replace(alloc, "08:30", "02:30").expect(rt, "memory");
    let text = text.as_str().replace(alloc, "3600", validity);
    let text = text.expect(rt, "memory");
    try_table(
        rt,
        alloc,
        &mut Moments {
            document: text.as_str(),
        },
        cases,
    );
}

#[test]
fn moments_of_summer_time(rt: HostRuntime) {
    let document = BOOK;
    try_table(
        &rt,
        rt.alloc(),
        &mut Moments { document },
        MOMENTS_OF_SUMMER,
    );
    try_halved(&rt, rt.alloc(), "43200", HALVED);
    try_halved(&rt, rt.alloc(), "3600", HALVED_HOUR);
}

/// Tells the name of a period, the period of a name, or the book's currency and validity.
#[derive(Clone, Copy)]
struct Names<'b> {
    book: &'b TariffBook,
}

impl Teller for Names<'_> {
    fn tell<R: Abort>(&mut self, rt: &R, alloc: Global, case: &str) -> String {
        let mut words = Words::of(case);
        match words.word() {
            "period" => name_of(rt, alloc, self.book, words.number(rt)),
            "name" => period_of(rt, alloc, self.book, words.word()),
            _ => head_of(rt, alloc, self.book),
        }
    }
}

fn name_of(rt: &impl Abort, alloc: Global, book: &TariffBook, period: u8) -> String {
    format!(in alloc; "{:?}", book.period_name(Period(period))).expect(rt, "memory")
}

fn period_of(rt: &impl Abort, alloc: Global, book: &TariffBook, name: &str) -> String {
    format!(in alloc; "{:?}", book.period_named(name)).expect(rt, "memory")
}

pub(crate) fn head_of(rt: &impl Abort, alloc: Global, book: &TariffBook) -> String {
    format!(in alloc; "{} {}", book.currency(), book.validity()).expect(rt, "memory")
}

const NAMES: &str = "\
period 0 => Some(\"off\")
period 1 => Some(\"peak\")
period 2 => None
name off => Some(Period(0))
name peak => Some(Period(1))
name night => None
head => 978 3600";

// rule: period.period-of-entry
#[test]
fn names_of_the_book(rt: HostRuntime) {
    let book = book(&rt, rt.alloc(), BOOK);
    try_table(&rt, rt.alloc(), &mut Names { book: &book }, NAMES);
}
