//! The grammar of POSIX's TZ (Base Definitions 8.3), as far as books have it. Each `read_` function
//! reads the front of a text, and gives the value and the text after it.

ghost use Rattle.std.specs.Prelude.{◌≡◌, ◌<◌, ◌≤◌, ◌%◌, IfSome, length, not};
ghost use Rattle.std.specs.Char.{is_ascii_alphabetic};
ghost use Rattle.std.specs.List.{position_from};
ghost use Rattle.calendar.specs.Summer.{IsYearly, IsSummerTime};
ghost use Rattle.jiff_tz.specs.PosixReader.{read_whole};
ghost use Rattle.zone_texts.specs.ZoneText as text;

use calendar::{SummerTime, YearlyChange};
use jiff::tz::TimeZone;

/// One digit.
#[tactic(auto, unfolding(crate::specs::ZoneText::read_digit))]
fn read_digit(s: &[u8]) -> Option<(u8, &[u8])>
    ensures value { text.read_view result ≡ text.read_digit s.now }
    ensures bound { IfSome result (λ p. p.0 < 10) }
{
    match s {
        [digit, rest @ ..] if digit.is_ascii_digit() => Some((*digit - b'0', rest)),
        _ => None,
    }
}

/// Whether a digit begins the text.
fn begins_digit(s: &[u8]) -> bool
    ensures { result ≡ text.begins_digit s.now }
{
    match s {
        [b, ..] => b.is_ascii_digit(),
        _ => false,
    }
}

/// Whether this byte begins the text.
fn begins(byte: u8, s: &[u8]) -> bool
    ensures { result ≡ text.begins byte s.now }
{
    match s {
        [b, ..] => *b == byte,
        _ => false,
    }
}

/// This byte: the text after it.
#[tactic(auto, unfolding(crate::specs::ZoneText::read_byte))]
fn read_byte(byte: u8, s: &[u8]) -> Option<&[u8]>
    ensures { text.rest_view result ≡ text.read_byte byte s.now }
{
    match s {
        [b, rest @ ..] if *b == byte => Some(rest),
        _ => None,
    }
}

/// One or two digits, as many as there are, of a number in a range.
#[tactic(auto, unfolding(crate::specs::ZoneText::read_number))]
fn read_number(least: u8, most: u8, s: &[u8]) -> Option<(u8, &[u8])>
    ensures value { text.read_view result ≡ text.read_number least most s.now }
    ensures least { IfSome result (λ p. least ≤ p.0) }
    ensures most { IfSome result (λ p. p.0 ≤ most) }
{
    let (first, s) = read_digit(s)?;
    let (number, s) = if begins_digit(s) {
        let (second, s) = read_digit(s)?;
        (first * 10 + second, s)
    } else {
        (first, s)
    };
    if least <= number && number <= most {
        Some((number, s))
    } else {
        None
    }
}

/// One digit of a number in a range.
#[tactic(auto, unfolding(crate::specs::ZoneText::read_one))]
fn read_one(least: u8, most: u8, s: &[u8]) -> Option<(u8, &[u8])>
    ensures value { text.read_view result ≡ text.read_one least most s.now }
    ensures least { IfSome result (λ p. least ≤ p.0) }
    ensures most { IfSome result (λ p. p.0 ≤ most) }
{
    let (digit, s) = read_digit(s)?;
    if least <= digit && digit <= most {
        Some((digit, s))
    } else {
        None
    }
}

/// Two digits below 60.
#[tactic(auto, unfolding(crate::specs::ZoneText::read_sixty))]
fn read_sixty(s: &[u8]) -> Option<(u8, &[u8])>
    ensures value { text.read_view result ≡ text.read_sixty s.now }
    ensures bound { IfSome result (λ p. p.0 < 60) }
{
    let (tens, s) = read_digit(s)?;
    let (ones, s) = read_digit(s)?;
    let number = tens * 10 + ones;
    if number < 60 { Some((number, s)) } else { None }
}

/// `hh`, up to a limit, and perhaps `:mm`, in minutes.
#[tactic(auto, unfolding(crate::specs::ZoneText::read_minutes))]
fn read_minutes(most: u8, s: &[u8]) -> Option<(u32, &[u8])>
    requires { most < 24 }
    ensures value { text.read_view result ≡ text.read_minutes most s.now }
    ensures bound { IfSome result (λ p. p.0 < 1440) }
{
    let (hour, s) = read_number(0, most, s)?;
    let hours = u32::from(hour) * 60;
    if begins(b':', s) {
        let s = read_byte(b':', s)?;
        let (minute, s) = read_sixty(s)?;
        Some((hours + u32::from(minute), s))
    } else {
        Some((hours, s))
    }
}

/// A sign that may be left out: whether it is a minus, which says east of UTC.
#[tactic(auto, unfolding(crate::specs::ZoneText::read_sign))]
fn read_sign(s: &[u8]) -> (bool, &[u8])
    ensures { (result.0, result.1.now) ≡ text.read_sign s.now }
{
    match s {
        [b'-', rest @ ..] => (true, rest),
        [b'+', rest @ ..] => (false, rest),
        _ => (false, s),
    }
}

/// The lead of a clock that is so many minutes east of UTC, or west.
fn lead_by(east: bool, minutes: u32) -> u64
    requires { minutes < 1440 }
    ensures value { result ≡ text.lead_by east minutes }
    ensures whole { result % 60 ≡ 0 }
    ensures most { result < 172_800 }
{
    let seconds = 60 * u64::from(minutes);
    if east {
        86_400 + seconds
    } else {
        86_400 - seconds
    }
}

/// An offset, as the lead of its clock, in seconds.
#[tactic(auto, unfolding(crate::specs::ZoneText::read_lead))]
fn read_lead(s: &[u8]) -> Option<(u64, &[u8])>
    ensures value { text.read_view result ≡ text.read_lead s.now }
    ensures whole { IfSome result (λ p. p.0 % 60 ≡ 0) }
    ensures most { IfSome result (λ p. p.0 < 172_800) }
{
    let (east, s) = read_sign(s);
    let (minutes, s) = read_minutes(14, s)?;
    Some((lead_by(east, minutes), s))
}

/// The place of the first byte that is no ASCII letter.
fn first_non_letter(s: &[u8]) -> Option<usize>
    ensures { result ≡ position_from (λ b. not (is_ascii_alphabetic b)) 0 s.now }
{
    s.iter().position(|b| !b.is_ascii_alphabetic())
}

/// How many ASCII letters begin the text.
fn letters_len(s: &[u8]) -> usize
    ensures value { result ≡ text.letters_len s.now }
    ensures fits { result ≤ length s.now }
{
    first_non_letter(s).unwrap_or(s.len())
}

/// A name of 3 to 6 letters: the text after it.
#[tactic(auto, unfolding(crate::specs::ZoneText::read_name))]
fn read_name(s: &[u8]) -> Option<&[u8]>
    ensures { text.rest_view result ≡ text.read_name s.now }
{
    let len = letters_len(s);
    if 3 <= len && len <= 6 {
        Some(&s[len..])
    } else {
        None
    }
}

/// `/hh` and perhaps `:mm`, in seconds; 02:00 where it is left out.
#[tactic(auto, unfolding(crate::specs::ZoneText::read_time))]
fn read_time(s: &[u8]) -> Option<(u32, &[u8])>
    ensures value { text.read_view result ≡ text.read_time s.now }
    ensures whole { IfSome result (λ p. p.0 % 60 ≡ 0) }
    ensures bound { IfSome result (λ p. p.0 < 86_400) }
{
    if begins(b'/', s) {
        let s = read_byte(b'/', s)?;
        let (minutes, s) = read_minutes(23, s)?;
        Some((60 * minutes, s))
    } else {
        Some((7200, s))
    }
}

/// `,Mm.w.d` and perhaps its time.
#[tactic(auto, unfolding(crate::specs::ZoneText::read_yearly))]
fn read_yearly(s: &[u8]) -> Option<(YearlyChange, &[u8])>
    ensures value { text.read_view result ≡ text.read_yearly s.now }
    ensures range { IfSome result (λ p. IsYearly p.0) }
{
    let s = read_byte(b',', s)?;
    let s = read_byte(b'M', s)?;
    let (month, s) = read_number(1, 12, s)?;
    let s = read_byte(b'.', s)?;
    let (week, s) = read_one(1, 5, s)?;
    let s = read_byte(b'.', s)?;
    let (weekday, s) = read_one(0, 6, s)?;
    let (seconds, s) = read_time(s)?;
    Some((
        YearlyChange {
            month,
            week,
            weekday,
            seconds,
        },
        s,
    ))
}

/// The lead of summer time; an hour more than that of standard time where it is left out.
#[tactic(auto, unfolding(crate::specs::ZoneText::read_summer_lead))]
fn read_summer_lead(standard: u64, s: &[u8]) -> Option<(u64, &[u8])>
    requires whole { standard % 60 ≡ 0 }
    requires most { standard < 172_800 }
    ensures value { text.read_view result ≡ text.read_summer_lead standard s.now }
    ensures whole { IfSome result (λ p. p.0 % 60 ≡ 0) }
    ensures most { IfSome result (λ p. p.0 < 200_000) }
{
    if begins(b',', s) {
        Some((standard + 3600, s))
    } else {
        read_lead(s)
    }
}

/// Whether two months are at least two apart, round the year too.
fn are_months_apart(month: u8, later: u8) -> bool
    requires { month ≤ 12 }
    ensures { result ≡ text.are_months_apart month later }
{
    month + 2 <= later && later <= month + 10
}

/// Whether both clocks are within 14 hours of UTC, summer time is 1 to 120 minutes ahead of
/// standard time, and the months of the changes are apart.
fn is_in_range(rule: &SummerTime) -> bool
    requires most { rule.now.standard < 172_800 }
    requires begins { rule.now.begins.month ≤ 12 }
    requires ends { rule.now.ends.month ≤ 12 }
    ensures { result ≡ text.is_in_range rule.now }
{
    36_000 <= rule.standard
        && rule.standard < rule.summer
        && rule.summer <= rule.standard + 7200
        && rule.summer <= 136_800
        && (are_months_apart(rule.begins.month, rule.ends.month)
            || are_months_apart(rule.ends.month, rule.begins.month))
}

/// What the text says before its ranges are looked at.
#[tactic(auto, unfolding(crate::specs::ZoneText::read_parts))]
fn read_parts(s: &[u8]) -> Option<(SummerTime, &[u8])>
    ensures value { text.read_view result ≡ text.read_parts s.now }
    ensures begins { IfSome result (λ p. IsYearly p.0.begins) }
    ensures ends { IfSome result (λ p. IsYearly p.0.ends) }
    ensures standard { IfSome result (λ p. p.0.standard % 60 ≡ 0) }
    ensures most { IfSome result (λ p. p.0.standard < 172_800) }
    ensures summer { IfSome result (λ p. p.0.summer % 60 ≡ 0) }
{
    let s = read_name(s)?;
    let (standard, s) = read_lead(s)?;
    let s = read_name(s)?;
    let (summer, s) = read_summer_lead(standard, s)?;
    let (begins, s) = read_yearly(s)?;
    let (ends, s) = read_yearly(s)?;
    Some((
        SummerTime {
            standard,
            summer,
            begins,
            ends,
        },
        s,
    ))
}

/// The whole text.
#[tactic(auto, unfolding(crate::specs::ZoneText::read_summer_time))]
fn read_summer_time(s: &[u8]) -> Option<SummerTime>
    ensures value { result ≡ text.read_summer_time s.now }
    ensures range { IfSome result IsSummerTime }
{
    let (rule, s) = read_parts(s)?;
    if s.is_empty() && is_in_range(&rule) {
        Some(rule)
    } else {
        None
    }
}

/// Whether jiff reads the text as a rule.
fn is_posix(zone: &str) -> bool
    ensures { result ≡ text.is_there (read_whole zone.now) }
{
    TimeZone::posix(zone).is_ok()
}

/// The rule of the text of a zone with summer time, as `CET-1CEST,M3.5.0,M10.5.0/3` (POSIX, Base
/// Definitions 8.3, TZ): a name and an offset, a name and perhaps an offset, and the days and times
/// of both changes. None where the text isn't one, or where jiff doesn't read it.
///
/// A name has 3 to 6 ASCII letters. An offset is `hh` or `hh:mm` behind a sign that may be left
/// out, and counts west of UTC, as POSIX does; one that is left out is an hour ahead of standard
/// time. A change is `Mm.w.d`: month 1 to 12, week 1 to 5, 5 the last, weekday 0 (Sunday) to 6. Its
/// time is `/hh` or `/hh:mm`, 00:00 to 23:59, and 02:00 where it is left out. Both clocks are
/// within 14:00 of UTC, summer time is 1 to 120 minutes ahead of standard time, and the months of
/// the changes are at least two apart, round the year too.
// rule: zone-text.summer-time-of
#[tactic(auto, unfolding(crate::specs::ZoneText::summer_time_of))]
pub fn summer_time(zone: &str) -> Option<SummerTime>
    ensures value { result ≡ text.summer_time_of zone.now }
    ensures range { IfSome result IsSummerTime }
{
    let rule = read_summer_time(zone.as_bytes())?;
    if is_posix(zone) { Some(rule) } else { None }
}
