//! The zone and the week of a book, read from its keys.

ghost use Rattle.std.specs.Prelude.{◌≡◌, ◌<◌, ◌≤◌, [], IfOk, IfSome, All, false, replicate, length};
ghost use Rattle.std.specs.Prelude.{string_bytes, codes};
ghost use Rattle.jiff.specs.Words.{IsWithin};
ghost use Rattle.toml.specs.View.{view, table_view, items_view};
ghost use Rattle.tariffs.specs.Faults.{Gives};
ghost use Rattle.tariffs.specs.Fields.{text_of, each, collected};
ghost use Rattle.tariffs.specs.WeekFields.{minutes_of, zone_minutes, zone_in};
ghost use Rattle.tariffs.specs.WeekFields.{zone_of, day_of, with_day, days_of, minute_of, entry_of};
ghost use Rattle.tariffs.specs.WeekFields.{entries_of};
ghost use Rattle.units.specs.Words.{widest_offset};

use crate::book_fields;
use crate::fault::BookFault;
use crate::names::PeriodNames;
use calendar::{Entry, Zone};
use std::alloc::{AllocError, Global};
use toml::{Table, Value};

#[tactic(auto, unfolding(crate::specs::WeekFields::minutes_of))]
fn minutes(text: &[u8]) -> Option<u16>
    ensures { result ≡ minutes_of text.now }
{
    match text {
        [a, b, b':', d, e]
            if a.is_ascii_digit()
                && b.is_ascii_digit()
                && d.is_ascii_digit()
                && e.is_ascii_digit() => {
            let hours = u16::from(*a - b'0') * 10 + u16::from(*b - b'0');
            let minutes = u16::from(*d - b'0') * 10 + u16::from(*e - b'0');
            if minutes < 60 {
                Some(hours * 60 + minutes)
            } else {
                None
            }
        }
        _ => None,
    }
}

#[tactic(auto, unfolding(crate::specs::WeekFields::zone_minutes))]
fn zone_minutes(text: &[u8]) -> Option<i16>
    ensures value { result ≡ zone_minutes text.now }
    ensures in_range { IfSome result (λ m. IsWithin widest_offset m) }
{
    let (sign, text) = text.split_first()?;
    let minutes = minutes(text)?;
    if minutes > 840 {
        return None;
    }
    match sign {
        b'+' => Some(minutes as i16),
        b'-' => Some(-(minutes as i16)),
        _ => None,
    }
}

/// The zone of a text: an offset from UTC, or the text of a zone with summer time.
fn zone_in(alloc: Global, text: &str) -> Result<Option<Zone>, AllocError>
    ensures { IfOk result (λ z. z ≡ zone_in text.now) }
{
    match zone_minutes(text.as_bytes()) {
        Some(minutes) => Ok(Zone::fixed(alloc, minutes)),
        None => match zone_texts::summer_time(text) {
            Some(rule) => Ok(Some(Zone::with_summer(alloc, &rule)?)),
            None => Ok(None),
        },
    }
}

/// Reads `zone`: an offset, or the text of a zone with summer time.
// rule: zone-text
#[tactic(auto, unfolding(crate::specs::WeekFields::zone_of))]
pub(crate) fn zone(alloc: Global, table: &Table) -> Result<Zone, BookFault>
    ensures { Gives (λ z. z) result (zone_of (table_view table.now)) }
{
    let text = book_fields::text(table, "zone")?;
    zone_in(alloc, text)?.ok_or(BookFault::OutOfRange)
}

/// Reads `zone` as it is written.
pub(crate) fn zone_text(alloc: Global, table: &Table) -> Result<String, BookFault>
    ensures { Gives (λ s. string_bytes s) result (text_of (codes "zone") (table_view table.now)) }
{
    let text = book_fields::text(table, "zone")?;
    Ok(String::from_str(alloc, text)?)
}

#[tactic(auto, unfolding(crate::specs::WeekFields::day_of))]
fn day(before: &[bool; 7], value: &Value) -> Result<usize, BookFault>
    ensures value { Gives (λ d. d) result (day_of before.now (view value.now)) }
    ensures in_range { IfOk result (λ d. d < 7) }
{
    let number = value.as_integer().ok_or(BookFault::WrongKind)?;
    if number < 1 || 7 < number {
        return Err(BookFault::OutOfRange);
    }
    let day = number as usize - 1;
    if before[day] {
        return Err(BookFault::OutOfRange);
    }
    Ok(day)
}

fn week_days(values: &[Value]) -> Result<[bool; 7], BookFault>
    ensures { Gives (λ d. d) result (each with_day (replicate 7 false) (items_view values.now)) }
{
    let mut days = [false; 7];
    for value in values {
        let day = day(&days, value)?;
        days[day] = true;
    }
    Ok(days)
}

#[tactic(auto, unfolding(crate::specs::WeekFields::days_of))]
fn days(table: &Table) -> Result<[bool; 7], BookFault>
    ensures { Gives (λ d. d) result (days_of (table_view table.now)) }
{
    let values = book_fields::filled_array(table, "days", 7)?;
    week_days(values)
}

#[tactic(auto, unfolding(crate::specs::WeekFields::minute_of))]
fn minute(table: &Table, key: &str) -> Result<u16, BookFault>
    ensures value { Gives (λ m. m) result (minute_of key.now (table_view table.now)) }
    ensures in_range { IfOk result (λ m. m ≤ 1440) }
{
    let text = book_fields::text(table, key)?;
    let minute = minutes(text.as_bytes()).ok_or(BookFault::OutOfRange)?;
    if minute <= 1440 {
        Ok(minute)
    } else {
        Err(BookFault::OutOfRange)
    }
}

#[tactic(auto, unfolding(crate::specs::WeekFields::entry_of))]
fn entry(names: &PeriodNames, value: &Value) -> Result<Entry, BookFault>
    ensures value { Gives (λ e. e) result (entry_of names.now (view value.now)) }
    ensures ends { IfOk result (λ e. e.to ≤ 1440) }
    ensures in_range { IfOk result (λ e. e.period.0 < length names.now) }
{
    let table = book_fields::entry_table(value)?;
    let period = names.period(table)?;
    let days = days(table)?;
    let from = minute(table, "from")?;
    let to = minute(table, "to")?;
    if from < to {
        Ok(Entry {
            period,
            days,
            from,
            to,
        })
    } else {
        Err(BookFault::OutOfRange)
    }
}

fn week_entries(
    alloc: Global,
    names: &PeriodNames,
    values: &[Value],
) -> Result<Vec<Entry>, BookFault>
    ensures value { Gives (λ v. v.items) result
        (collected (λ before. entry_of names.now) [] (items_view values.now)) }
    ensures count { IfOk result (λ v. length v.items ≡ length values.now) }
    ensures ends { IfOk result (λ v. All (λ e. e.to ≤ 1440) v.items) }
    ensures in_range { IfOk result (λ v. All (λ e. e.period.0 < length names.now) v.items) }
{
    let mut entries = Vec::new(alloc);
    for value in values {
        let entry = entry(names, value)?;
        entries.push(entry)?;
    }
    Ok(entries)
}

/// Reads `week`.
#[tactic(auto, unfolding(crate::specs::WeekFields::entries_of))]
pub(crate) fn entries(
    alloc: Global,
    names: &PeriodNames,
    table: &Table,
) -> Result<Vec<Entry>, BookFault>
    ensures value { Gives (λ v. v.items) result (entries_of names.now (table_view table.now)) }
    ensures few { IfOk result (λ v. length v.items ≤ 64) }
    ensures ends { IfOk result (λ v. All (λ e. e.to ≤ 1440) v.items) }
    ensures in_range { IfOk result (λ v. All (λ e. e.period.0 < length names.now) v.items) }
{
    let values = book_fields::filled_array(table, "week", 64)?;
    week_entries(alloc, names, values)
}
