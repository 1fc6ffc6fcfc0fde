//! Summer time by a rule: the changes of each year.

ghost use Rattle.std.specs.Prelude.{◌≡◌, ◌≤◌, ◌<◌, ◌+◌, ◌-◌, ◌*◌, ◌++◌, pos, ◌+ℤ◌, ◌≤ℤ◌, IfOk, min};
ghost use Rattle.jiff_core.specs.Calendar.{days_from_civil, days_in_month};
ghost use Rattle.jiff_core.specs.Date.{epoch_day};
ghost use Rattle.jiff_tz.specs.PosixRule.{sunday_number};
ghost use Rattle.calendar.specs.Clock.{IsLead};
ghost use Rattle.calendar.specs.Summer.{day_in, moment_in, beginning_in, end_in, is_northern};
ghost use Rattle.calendar.specs.Summer.{changes_in, changes_from, zone_of_rule, IsYearly};
ghost use Rattle.calendar.specs.Summer.{IsSummerTime};

use crate::zone::ZoneChange;
use jiff_core::civil::Date;
use std::alloc::{AllocError, Global};

/// The days from the first `Date` that there is, of the year -9999, to 1968-12-31.
const DAYS_BEFORE_1968: u32 = 4_371_221;

/// When a clock is changed each year: `Mm.w.d/time` (POSIX, Base Definitions 8.3, TZ).
#[derive(Clone, Copy)]
pub struct YearlyChange {
    /// The month, 1 to 12.
    pub month: u8,
    /// Which of the weekdays of the month, 1 to 4, or 5 for the last.
    pub week: u8,
    /// The weekday, from 0 for Sunday to 6.
    pub weekday: u8,
    /// The seconds after 00:00 of that day, on the clock that holds before the change: whole
    /// minutes, less than a day.
    pub seconds: u32,
}

/// A clock that is put ahead each year for some months (POSIX, Base Definitions 8.3, TZ).
#[derive(Clone, Copy)]
pub struct SummerTime {
    /// The lead of standard time: 86,400 seconds and those by which its clock is ahead of UTC.
    pub standard: u64,
    /// The lead of summer time, at most two hours more.
    pub summer: u64,
    /// When summer time begins.
    pub begins: YearlyChange,
    /// When it ends.
    pub ends: YearlyChange,
}

/// A day of a month, or the last of the month where it is shorter.
fn date(year: u16, month: u8, day: u8) -> Date
    requires year { (1969 ≤ year) × (year ≤ 2100) }
    requires month { (1 ≤ month) × (month ≤ 12) }
    requires day { 1 ≤ day }
    ensures { epoch_day result
        ≡ days_from_civil (pos year) month (min day (days_in_month (pos year) month)) }
{
    Date::constrain(year as i16, month, day)
}

/// The number of a day, in days since 1968-12-31.
fn since_1968(date: Date) -> u32
    requires { pos 0 ≤ℤ (epoch_day date +ℤ pos 366) }
    ensures { pos result ≡ epoch_day date +ℤ pos 366 }
{
    date.days_since_min() - DAYS_BEFORE_1968
}

/// The weekday, from 0 for Sunday.
fn sunday_zero(date: Date) -> u8
    ensures value { result ≡ sunday_number (epoch_day date) }
    ensures bound { result < 7 }
{
    (date.weekday().index() + 1) % 7
}

/// The number of a change's day in a year, in days since 1968-12-31.
// rule: zone-changes
fn day_in(change: YearlyChange, year: u16) -> u32
    requires change { IsYearly change }
    requires year { (1969 ≤ year) × (year ≤ 2100) }
    ensures value { result ≡ day_in change year }
    ensures most { result ≤ 100_000 }
    ensures least { 1 ≤ result }
{
    if change.week == 5 {
        let last = date(year, change.month, 31);
        since_1968(last) - u32::from((sunday_zero(last) + 7 - change.weekday) % 7)
    } else {
        let first = date(year, change.month, 1);
        let ahead = u32::from((change.weekday + 7 - sunday_zero(first)) % 7);
        since_1968(first) + ahead + 7 * (u32::from(change.week) - 1)
    }
}

/// The moment of a change in a year, in seconds since 1968-12-31 00:00 UTC.
fn moment_in(change: YearlyChange, before: u64, year: u16) -> u64
    requires change { IsYearly change }
    requires before { IsLead before }
    requires year { (1969 ≤ year) × (year ≤ 2100) }
    ensures { result ≡ moment_in change before year }
{
    u64::from(day_in(change, year)) * 86_400 + u64::from(change.seconds) + 86_400 - before
}

/// The change to summer time in a year.
fn beginning_in(rule: &SummerTime, year: u16) -> ZoneChange
    requires rule { IsSummerTime rule.now }
    requires year { (1969 ≤ year) × (year ≤ 2100) }
    ensures { result ≡ beginning_in rule.now year }
{
    ZoneChange {
        at: moment_in(rule.begins, rule.standard, year),
        lead: rule.summer,
    }
}

/// The change back to standard time in a year.
fn end_in(rule: &SummerTime, year: u16) -> ZoneChange
    requires rule { IsSummerTime rule.now }
    requires year { (1969 ≤ year) × (year ≤ 2100) }
    ensures { result ≡ end_in rule.now year }
{
    ZoneChange {
        at: moment_in(rule.ends, rule.summer, year),
        lead: rule.standard,
    }
}

/// Whether summer time begins and ends within one civil year.
fn is_northern(rule: &SummerTime) -> bool
    ensures { result ≡ is_northern rule.now }
{
    rule.begins.month < rule.ends.month
}

/// The lead before the first change of a year.
pub(crate) fn first_lead(rule: &SummerTime) -> u64
    ensures { result ≡ (zone_of_rule rule.now).before }
{
    if is_northern(rule) {
        rule.standard
    } else {
        rule.summer
    }
}

/// Puts both changes of a year behind those before.
fn add_year(rule: &SummerTime, year: u16, changes: &mut Vec<ZoneChange>) -> Result<(), AllocError>
    requires rule { IsSummerTime rule.now }
    requires year { (1969 ≤ year) × (year ≤ 2100) }
    ensures { IfOk result (λ _. changes.new.items ≡ changes.old.items ++ changes_in rule.now year) }
{
    if is_northern(rule) {
        changes.push(beginning_in(rule, year))?;
        changes.push(end_in(rule, year))?;
    } else {
        changes.push(end_in(rule, year))?;
        changes.push(beginning_in(rule, year))?;
    }
    Ok(())
}

/// The changes of all years of moments.
// rule: zone-changes
pub(crate) fn changes(alloc: Global, rule: &SummerTime) -> Result<Vec<ZoneChange>, AllocError>
    requires { IsSummerTime rule.now }
    ensures { IfOk result (λ v. v.items ≡ changes_from rule.now 1969 132) }
{
    let mut changes = Vec::new(alloc);
    for year in 1969..2101 {
        add_year(rule, year, &mut changes)?;
    }
    Ok(changes)
}
