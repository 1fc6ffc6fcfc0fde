//! Zones: what a clock shows at a moment, and which moment a clock means.

ghost use Rattle.std.specs.Prelude.{◌≡◌, ◌↔◌, ◌≤◌, ◌<◌, ◌^◌, ◌+◌, ◌*◌, ◌-◌, IsSome, IfSome, IfOk};
ghost use Rattle.std.specs.Prelude.{ℤ, length, nat_le, pos, ◌+ℤ◌, ◌*ℤ◌};
ghost use Rattle.jiff.specs.Words.{epoch_day, IsWithin};
ghost use Rattle.jiff.specs.Types.{Date};
ghost use Rattle.std.specs.List.{prefix_len};
ghost use Rattle.units.specs.Words.{latest_moment, widest_offset};
ghost use Rattle.calendar.specs.Clock.{IsZone, IsLead, AreApart, minutes_ahead, lead};
ghost use Rattle.calendar.specs.Clock.{lead_after, next_after, next_change, clock, day};
ghost use Rattle.calendar.specs.Months.{month};
ghost use Rattle.calendar.specs.Summer.{IsSummerTime, zone_of_rule};
ghost use Rattle.calendar.specs.Timetable.{day_end, in_time, moment_shown};

use crate::summer;
use crate::summer::SummerTime;
use jiff::civil::Date;
use jiff_core::civil::Date as PlainDate;
use std::alloc::{AllocError, Global};
use std::marker::Model;
use units::Moment;

/// The seconds from 1968-12-31 00:00 UTC to 1970-01-01 00:00 UTC.
const BEFORE_1970: u64 = 31_622_400;

/// The moment of a change that doesn't come: it is past all moments.
const NO_CHANGE: u64 = 60_000_000_000;

/// No clock shows so late a time, in seconds since 1968-12-31 00:00, at a moment of a command.
const LATEST_SHOWN: u64 = 4_102_600_000;

/// How far a clock may be from UTC, in minutes: fourteen hours.
const WIDEST_OFFSET: i16 = 840;

/// A change of a zone's offset (a transition, RFC 9636 section 3.2).
#[derive(Clone, Copy)]
pub struct ZoneChange {
    /// Its moment, in seconds since 1968-12-31 00:00 UTC.
    pub at: u64,
    /// The lead of the clock from then on: 86,400 seconds and those by which it is ahead of UTC.
    pub lead: u64,
}

/// The zone of a tariff book: the lead of its clock, 10 to 38 hours, since a clock is at most 14
/// hours from UTC either way, and when that changes.
pub struct Zone {
    before: u64,
    changes: Vec<ZoneChange>,
}

// It is written out, so that a caller doesn't prove again how each part is dropped.
impl Drop for Zone {
    fn drop(self) {
        let Zone {
            before: _,
            changes: _,
        } = self;
    }
}

impl Model for Zone {
    ghost use Rattle.calendar.specs.Clock.{ZoneRule, IsZone};

    ghost Value = { ZoneRule };

    ghost view = { λ z. record { before = z.before; changes = z.changes.items } };

    ghost invariant = { λ z. IsZone (record { before = z.before; changes = z.changes.items }) };
}

/// The time around a moment in which the lead stays.
#[derive(Clone, Copy)]
pub(crate) struct Stretch {
    /// The lead of the clock.
    pub(crate) lead: u64,
    /// The moment of the next change; a number past all moments where there is none.
    pub(crate) until: u64,
}

/// How many changes are at or before a moment in seconds since 1968-12-31 00:00 UTC, by halves.
fn come(changes: &[ZoneChange], at: u64) -> usize
    requires { AreApart changes.now }
    ensures value { result ≡ prefix_len (λ c. nat_le c.at at) changes.now }
    ensures few { result ≤ length changes.now }
{
    changes.partition_point(
        |change: &ZoneChange| -> bool
            ensures { result ≡ nat_le change.now.at at }
        { change.at <= at },
    )
}

/// The lead after so many changes.
fn lead_after(before: u64, changes: &[ZoneChange], at: u64, place: usize) -> u64
    requires place { place ≡ prefix_len (λ c. nat_le c.at at) changes.now }
    requires few { place ≤ length changes.now }
    ensures { result ≡ lead_after before changes.now at }
{
    if place == 0 {
        before
    } else {
        changes[place - 1].lead
    }
}

/// The moment of the change after so many; without one a number past all moments.
fn next_after(changes: &[ZoneChange], at: u64, place: usize) -> u64
    requires place { place ≡ prefix_len (λ c. nat_le c.at at) changes.now }
    requires few { place ≤ length changes.now }
    ensures { result ≡ next_after changes.now at }
{
    if place < changes.len() {
        changes[place].at
    } else {
        NO_CHANGE
    }
}

/// The stretch of a moment in seconds since 1968-12-31 00:00 UTC, its end in the same.
fn stretch_of(before: u64, changes: &[ZoneChange], at: u64) -> Stretch
    requires { AreApart changes.now }
    ensures lead { result.lead ≡ lead_after before changes.now at }
    ensures until { result.until ≡ next_after changes.now at }
{
    let place = come(changes, at);
    Stretch {
        lead: lead_after(before, changes, at, place),
        until: next_after(changes, at, place),
    }
}

impl Zone {
    /// The zone whose clock is always this many minutes ahead of UTC; None beyond 14 hours either
    /// way. It takes no memory.
    pub fn fixed(alloc: Global, minutes: i16) -> Option<Zone>
        ensures in_range { IsSome result ↔ IsWithin widest_offset minutes }
        ensures value { IfSome result (λ z. z ≡ minutes_ahead minutes) }
    {
        if minutes < -WIDEST_OFFSET || WIDEST_OFFSET < minutes {
            return None;
        }
        Some(Zone {
            before: (86_400 + i32::from(minutes) * 60) as u64,
            changes: Vec::new(alloc),
        })
    }

    /// The zone of a clock that is put ahead each year for some months: its changes of the years
    /// 1969 to 2100, 16 bytes each, so that each moment of commands has those around it (POSIX,
    /// Base Definitions 8.3, TZ; RFC 9636 section 3.3.1).
    ///
    /// # Errors
    /// Out of memory.
    // rule: zone-changes.zone-of-rule
    pub fn with_summer(alloc: Global, rule: &SummerTime) -> Result<Zone, AllocError>
        requires { IsSummerTime rule.now }
        ensures { IfOk result (λ z. z ≡ zone_of_rule rule.now) }
    {
        let changes = summer::changes(alloc, rule)?;
        Ok(Zone {
            before: summer::first_lead(rule),
            changes,
        })
    }

    /// The stretch of time around a moment in which the lead stays.
    // rule: zone-changes.lead
    pub(crate) fn stretch_at(&self, moment: u64) -> Stretch
        requires { moment < 2 ^ 34 }
        ensures lead { result.lead ≡ lead self.now moment }
        ensures until { result.until ≡ next_change self.now moment }
        ensures kept { IsLead result.lead }
        ensures later { moment < result.until }
        ensures zone { IsZone self.now }
    {
        let stretch = stretch_of(self.before, &self.changes, moment + BEFORE_1970);
        Stretch {
            lead: stretch.lead,
            until: stretch.until - BEFORE_1970,
        }
    }

    /// What its clock shows at a moment, in seconds since 1969-12-31 00:00 on that clock.
    // rule: zone-changes.lead
    pub(crate) fn clock_at(&self, moment: u64) -> u64
        requires { moment < 2 ^ 34 }
        ensures value { result ≡ clock self.now moment }
        ensures most { result < 2 ^ 35 }
        ensures zone { IsZone self.now }
    {
        moment + self.stretch_at(moment).lead
    }

    /// The civil day at a moment, in days since 1969-12-31.
    pub(crate) fn day_at(&self, moment: u64) -> u32
        requires { moment ≤ latest_moment }
        ensures value { result ≡ day self.now moment }
        ensures bound { result ≤ 50_000 }
        ensures zone { IsZone self.now }
    {
        (self.clock_at(moment) / 86_400) as u32
    }

    /// The civil date at a moment.
    fn date_at(&self, moment: u64) -> Date
        requires { moment ≤ latest_moment }
        ensures day { epoch_day result +ℤ pos 1 ≡ pos (day self.now moment) }
        ensures bound { day self.now moment ≤ 50_000 }
    {
        match PlainDate::from_unix_epoch_day(i64::from(self.day_at(moment)) - 1) {
            Ok(date) => Date::from_plain(date),
            Err(_) => unreachable!(),
        }
    }

    /// The civil month at a moment, in months since January 1969.
    pub(crate) fn month_at(&self, moment: u64) -> u32
        requires { moment ≤ latest_moment }
        ensures value { result ≡ month self.now moment }
        ensures date { (d : Date) → epoch_day d +ℤ pos 1 ≡ pos (day self.now moment) →
            pos (result + 1 + 12 * 1969) ≡ pos 12 *ℤ d.year +ℤ pos d.month }
    {
        let date = self.date_at(moment);
        let year = date.year();
        let years = (year - 1969) as u32;
        let month = date.month() as u32;
        12 * years + month - 1
    }

    /// What a clock shows, in seconds since 1969-12-31 00:00, read as a moment.
    // rule: day-end
    fn read_clock(&self, shown: u64) -> u64
        requires { shown < 2 ^ 33 }
        ensures { in_time result ≡ moment_shown self.now shown }
    {
        let start = shown.saturating_sub(136_800);
        let first = self.stretch_at(start);
        let before = start + shown.saturating_sub(start + first.lead);
        if before < first.until {
            return before;
        }
        let after = self.clock_at(first.until);
        if after <= shown {
            first.until + (shown - after)
        } else {
            before
        }
    }

    /// Where the day so many days after that of a moment ends.
    // rule: day-end
    pub(crate) fn day_end(&self, moment: u64, days: u32) -> Option<Moment>
        requires { moment ≤ latest_moment }
        ensures { result ≡ day_end self.now moment days }
    {
        let shown = (u64::from(self.day_at(moment)) + u64::from(days) + 1) * 86_400;
        if shown > LATEST_SHOWN {
            return None;
        }
        Moment::of_command(self.read_clock(shown))
    }
}
