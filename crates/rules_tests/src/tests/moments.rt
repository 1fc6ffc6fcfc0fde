//! Moments at the edges of minutes, days, months and years. The expected values are those of
//! Python's `datetime`
//! with a fixed offset: the date's ordinal, its year and month, its weekday and hour, and the
//! timestamp of a midnight;
//! switches and validity times are those of a search over each second.

use crate::tests::tables::{Teller, Words, try_table};
use crate::tests::values::{calendar, moment, zone};
use calendar::{Calendar, Cycle, Entry, Period};
use std::alloc::{AllocError, Global};
use std::process::Abort;
use units::Moment;

const WORKDAYS: [bool; 7] = [true, true, true, true, true, false, false];

const WEEKEND: [bool; 7] = [false, false, false, false, false, true, true];

const ALL_DAYS: [bool; 7] = [true; 7];

/// An entry of a period in some days, from a minute of theirs to another.
fn entry(period: u8, days: [bool; 7], from: u16, to: u16) -> Entry {
    Entry {
        period: Period(period),
        days,
        from,
        to,
    }
}

/// Period 1 on workdays from 08:00 to 20:00, and period 0 else.
fn office_hours(alloc: Global) -> Result<Vec<Entry>, AllocError> {
    [
        entry(1, WORKDAYS, 480, 1200),
        entry(0, WORKDAYS, 0, 480),
        entry(0, WORKDAYS, 1200, 1440),
        entry(0, WEEKEND, 0, 1440),
    ]
    .to_vec(alloc)
}

/// Tells of a moment the period, the day, the month and the end of the next day there.
#[derive(Drop)]
struct Days {
    calendar: Calendar,
}

impl Teller for Days {
    fn tell<R: Abort>(&mut self, rt: &R, alloc: Global, case: &str) -> String {
        let at = moment(rt, Words::of(case).number(rt));
        let Period(period) = self.calendar.period_at(at);
        let day = self.calendar.cycle_of(Cycle::Day, at);
        let month = self.calendar.cycle_of(Cycle::Month, at);
        let end = self.calendar.day_end(at, 1).map(Moment::seconds);
        format!(in alloc; "{period} {day} {month} {end:?}").expect(rt, "memory")
    }
}

fn try_days(rt: &impl Abort, alloc: Global, minutes: i16, cases: &str) {
    let week = office_hours(alloc).expect(rt, "memory");
    let calendar = calendar(rt, alloc, minutes, week).expect(rt, "a week");
    try_table(rt, alloc, &mut Days { calendar }, cases);
}

const FOURTEEN_HOURS_BEHIND: &str = "\
1709301599 => 0 19783 661 Some(1709388000)
1709301600 => 0 19784 662 Some(1709474400)
1767275999 => 0 20454 683 Some(1767362400)
1767276000 => 0 20455 684 Some(1767448800)
1767650399 => 0 20459 684 Some(1767794400)
1767650400 => 1 20459 684 Some(1767794400)
1768039199 => 1 20463 684 Some(1768140000)
1768039200 => 0 20463 684 Some(1768140000)
0 => 1 0 11 Some(136800)
4102444799 => 1 47482 1571 None";

const UTC: &str = "\
1709251199 => 0 19783 661 Some(1709337600)
1709251200 => 0 19784 662 Some(1709424000)
1767225599 => 0 20454 683 Some(1767312000)
1767225600 => 0 20455 684 Some(1767398400)
1767599999 => 0 20459 684 Some(1767744000)
1767600000 => 1 20459 684 Some(1767744000)
1767988799 => 1 20463 684 Some(1768089600)
1767988800 => 0 20463 684 Some(1768089600)
0 => 0 1 12 Some(172800)
4102444799 => 0 47482 1571 None";

const NEPAL: &str = "\
1709230499 => 0 19783 661 Some(1709316900)
1709230500 => 0 19784 662 Some(1709403300)
1767204899 => 0 20454 683 Some(1767291300)
1767204900 => 0 20455 684 Some(1767377700)
1767579299 => 0 20459 684 Some(1767723300)
1767579300 => 1 20459 684 Some(1767723300)
1767968099 => 1 20463 684 Some(1768068900)
1767968100 => 0 20463 684 Some(1768068900)
0 => 0 1 12 Some(152100)
4102444799 => 0 47483 1572 None";

const FOURTEEN_HOURS_AHEAD: &str = "\
1709200799 => 0 19783 661 Some(1709287200)
1709200800 => 0 19784 662 Some(1709373600)
1767175199 => 0 20454 683 Some(1767261600)
1767175200 => 0 20455 684 Some(1767348000)
1767549599 => 0 20459 684 Some(1767693600)
1767549600 => 1 20459 684 Some(1767693600)
1767938399 => 1 20463 684 Some(1768039200)
1767938400 => 0 20463 684 Some(1768039200)
0 => 1 1 12 Some(122400)
4102444799 => 1 47483 1572 None";

#[test]
fn days_and_months(rt: HostRuntime) {
    try_days(&rt, rt.alloc(), -840, FOURTEEN_HOURS_BEHIND);
    try_days(&rt, rt.alloc(), 0, UTC);
    try_days(&rt, rt.alloc(), 345, NEPAL);
    try_days(&rt, rt.alloc(), 840, FOURTEEN_HOURS_AHEAD);
}

/// Period 1 each day from 08:00 to 08:30, and period 0 else.
fn half_hour(alloc: Global) -> Result<Vec<Entry>, AllocError> {
    [
        entry(0, ALL_DAYS, 0, 480),
        entry(1, ALL_DAYS, 480, 510),
        entry(0, ALL_DAYS, 510, 1440),
    ]
    .to_vec(alloc)
}

/// Tells of a moment the switch within an hour, and the validity of an hour from it.
#[derive(Drop)]
struct Switches {
    calendar: Calendar,
}

impl Teller for Switches {
    fn tell<R: Abort>(&mut self, rt: &R, alloc: Global, case: &str) -> String {
        let at = moment(rt, Words::of(case).number(rt));
        let switch = self.calendar.next_switch(at, 3600).map(Moment::seconds);
        let validity = self.calendar.validity_from(at, 3600);
        format!(in alloc; "{switch:?} {validity}").expect(rt, "memory")
    }
}

/// 2026-01-05, a Monday, begins at 1767571200 in UTC.
const SWITCHES: &str = "\
1767596400 => None 3600
1767596401 => Some(1767600000) 3600
1767598200 => Some(1767600000) 3600
1767598201 => Some(1767600000) 3599
1767599100 => Some(1767600000) 2700
1767600000 => Some(1767601800) 3600
1767601799 => Some(1767601800) 3600";

#[test]
fn switches_of_a_day(rt: HostRuntime) {
    let week = half_hour(rt.alloc()).expect(&rt, "memory");
    let calendar = calendar(&rt, rt.alloc(), 0, week).expect(&rt, "a week");
    try_table(&rt, rt.alloc(), &mut Switches { calendar }, SWITCHES);
}

// rule: week
#[test]
fn weeks_and_zones(rt: HostRuntime) {
    assert!(rt; zone(rt.alloc(), 841).is_none());
    assert!(rt; zone(rt.alloc(), -841).is_none());
    let mut gap = office_hours(rt.alloc()).expect(&rt, "memory");
    gap.pop();
    assert!(rt; calendar(&rt, rt.alloc(), -840, gap).is_none());
}

/// Each minute of the week is in one entry, and each day's minutes in so many, of equal length
/// but for the last.
fn minutes(alloc: Global, count: u16, to: u16) -> Result<Vec<Entry>, AllocError> {
    let mut entries = Vec::new(alloc);
    for minute in 0..count {
        let last = minute + 1 == count;
        entries.push(entry(0, ALL_DAYS, minute, if last { to } else { minute + 1 }))?;
    }
    Ok(entries)
}

/// Tells whether so many entries, the last of which ends at a minute, are a week.
#[derive(Clone, Copy)]
struct Limits;

impl Teller for Limits {
    fn tell<R: Abort>(&mut self, rt: &R, alloc: Global, case: &str) -> String {
        let mut words = Words::of(case);
        let (count, to) = (words.number(rt), words.number(rt));
        let week = minutes(alloc, count, to).expect(rt, "memory");
        let is_week = calendar(rt, alloc, 0, week).is_some();
        format!(in alloc; "{is_week}").expect(rt, "memory")
    }
}

/// At most 64 entries, each within its day.
const LIMITS: &str = "\
1 1440 => true
1 1439 => false
1 1441 => false
64 1440 => true
65 1440 => false";

#[test]
fn limits_of_a_week(rt: HostRuntime) {
    try_table(&rt, rt.alloc(), &mut Limits, LIMITS);
}
