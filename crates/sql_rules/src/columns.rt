//! The values of a row, each as what its column holds. What isn't of the kind reads as nothing.

ghost use Rattle.std.specs.Prelude.{◌≡◌};
ghost use Rattle.sqlite_sql.specs.Ops.{is_null};
ghost use Rattle.sqlite_value.specs.Order.{column};
ghost use Rattle.sqlite_value.specs.declared.value.Value.TheVariants.{Int};
ghost use Rattle.sql_rows.specs.Values.{nat_in};
ghost use Rattle.sql_rules.specs.Columns.{is_optional_within, is_in_bounds, number_at, text_at};

use sqlite::Row;
use sqlite::types::ValueRef;

/// The most that one use costs: the most blocks that it may start, at the greatest price.
pub const MOST_RATED: u64 = 1_000_000_000_000_000_000;

/// The number, if it isn't below 0.
fn natural(number: i64) -> u64
    ensures { result ≡ nat_in (Int number) }
{
    if number >= 0 { number as u64 } else { 0 }
}

/// The number in a column.
#[tactic(auto, using(crate::proofs::Ends::past_end))]
pub(crate) fn number_at(row: &Row, at: usize) -> u64
    ensures { result ≡ number_at row.now at }
{
    match row.get_ref(at) {
        Ok(ValueRef::Int(number)) => natural(number),
        Ok(ValueRef::Null) => 0,
        Ok(ValueRef::Real(_)) => 0,
        Ok(ValueRef::Text(_)) => 0,
        Ok(ValueRef::Blob(_)) => 0,
        Err(_) => 0,
    }
}

/// The bytes of the text in a column.
#[tactic(auto, using(crate::proofs::Ends::past_end))]
pub(crate) fn text_at(row: &Row, at: usize) -> &[u8]
    ensures { result.now ≡ text_at row.now at }
{
    match row.get_ref(at) {
        Ok(ValueRef::Text(text)) => text,
        Ok(ValueRef::Null) => &[],
        Ok(ValueRef::Int(_)) => &[],
        Ok(ValueRef::Real(_)) => &[],
        Ok(ValueRef::Blob(_)) => &[],
        Err(_) => &[],
    }
}

/// Whether a column is NULL.
#[tactic(auto, using(crate::proofs::Ends::past_end))]
pub(crate) fn is_null_at(row: &Row, at: usize) -> bool
    ensures { result ≡ is_null (column row.now at) }
{
    match row.get_ref(at) {
        Ok(ValueRef::Null) => true,
        Ok(ValueRef::Int(_)) => false,
        Ok(ValueRef::Real(_)) => false,
        Ok(ValueRef::Text(_)) => false,
        Ok(ValueRef::Blob(_)) => false,
        Err(_) => true,
    }
}

/// Whether a number is from the one to the other.
pub(crate) fn is_within(number: u64, low: u64, high: u64) -> bool
    ensures { result ≡ is_in_bounds low high number }
{
    low <= number && number <= high
}

/// Whether a column is NULL or a number from the one to the other.
pub(crate) fn is_optional_within(row: &Row, at: usize, low: u64, high: u64) -> bool
    ensures { result ≡ is_optional_within low high (column row.now at) }
{
    is_null_at(row, at) || is_within(number_at(row, at), low, high)
}
