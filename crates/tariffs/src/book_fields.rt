//! Members of a TOML table, each with its kind and range.

ghost use Rattle.std.specs.Prelude.{◌≤◌, ◌<◌, ◌^◌, IfOk, length};
ghost use Rattle.toml.specs.View.{view, table_view, items_view};
ghost use Rattle.tariffs.specs.Faults.{Says};
ghost use Rattle.tariffs.specs.Fields.{member_of, text_of, number_in, array_of};
ghost use Rattle.tariffs.specs.Fields.{filled_array_of, text_at, table_at};

use crate::fault::BookFault;
use toml::{Table, Value};

/// The value under a key.
fn member<'a>(table: &'a Table, key: &str) -> Result<&'a Value, BookFault>
    ensures { Says (λ v. view v.now) result (member_of key.now (table_view table.now)) }
{
    match table.get(key) {
        Some(value) => Ok(value),
        None => Err(BookFault::Missing),
    }
}

/// The text under a key.
///
/// # Errors
/// `Missing`, then `WrongKind`.
// rule: first-fault
#[tactic(auto, unfolding(crate::specs::Fields::text_of))]
pub fn text<'a>(table: &'a Table, key: &str) -> Result<&'a str, BookFault>
    ensures { Says (λ s. s.now) result (text_of key.now (table_view table.now)) }
{
    member(table, key)?.as_str().ok_or(BookFault::WrongKind)
}

/// The whole number under a key, from `low` to `high`.
///
/// # Errors
/// `Missing`, then `WrongKind`, then `OutOfRange`.
// rule: first-fault
#[tactic(auto, unfolding(crate::specs::Fields::number_in))]
pub fn number(table: &Table, key: &str, low: u64, high: u64) -> Result<u64, BookFault>
    requires low { low < 2 ^ 62 }
    requires high { high < 2 ^ 62 }
    ensures value { Says (λ n. n) result (number_in key.now low high (table_view table.now)) }
    ensures in_range { IfOk result (λ n. (low ≤ n) × (n ≤ high)) }
{
    let number = member(table, key)?
        .as_integer()
        .ok_or(BookFault::WrongKind)?;
    if low as i64 <= number && number <= high as i64 {
        Ok(number as u64)
    } else {
        Err(BookFault::OutOfRange)
    }
}

/// The array under a key, of at most `most` entries.
///
/// # Errors
/// `Missing`, then `WrongKind`, then `TooMany`.
#[tactic(auto, using(crate::proofs::Entries::item_count_view), unfolding(crate::specs::Fields::array_of))]
pub fn array<'a>(table: &'a Table, key: &str, most: usize) -> Result<&'a [Value], BookFault>
    ensures value { Says (λ v. items_view v.now) result
        (array_of key.now most (table_view table.now)) }
    ensures few { IfOk result (λ v. length v.now ≤ most) }
{
    let array = member(table, key)?.as_array().ok_or(BookFault::WrongKind)?;
    if array.len() <= most {
        Ok(array.as_slice())
    } else {
        Err(BookFault::TooMany)
    }
}

/// The array under a key, of 1 to `most` entries.
///
/// # Errors
/// Those of `array`, then `OutOfRange` where there is no entry.
#[tactic(auto, using(crate::proofs::Entries::item_count_view), unfolding(crate::specs::Fields::filled_array_of))]
pub fn filled_array<'a>(table: &'a Table, key: &str, most: usize) -> Result<&'a [Value], BookFault>
    ensures value { Says (λ v. items_view v.now) result
        (filled_array_of key.now most (table_view table.now)) }
    ensures few { IfOk result (λ v. length v.now ≤ most) }
    ensures some { IfOk result (λ v. 1 ≤ length v.now) }
{
    let entries = array(table, key, most)?;
    if entries.is_empty() {
        return Err(BookFault::OutOfRange);
    }
    Ok(entries)
}

/// An entry of an array of texts.
///
/// # Errors
/// `WrongKind`.
pub fn entry_text(entry: &Value) -> Result<&str, BookFault>
    ensures { Says (λ s. s.now) result (text_at (view entry.now)) }
{
    entry.as_str().ok_or(BookFault::WrongKind)
}

/// An entry of an array of tables.
///
/// # Errors
/// `WrongKind`.
pub fn entry_table(entry: &Value) -> Result<&Table, BookFault>
    ensures { Says (λ t. table_view t.now) result (table_at (view entry.now)) }
{
    entry.as_table().ok_or(BookFault::WrongKind)
}
