//! A selection, and the columns of its rows.

ghost use Rattle.std.specs.Prelude.{◌≡◌, ◌<◌, ◌^◌, ℕ, List, Option, IfSome};
ghost use Rattle.std.specs.Prelude.{MatchResult, pos, length, option_map};
ghost use Rattle.sql_tables.specs.Schema.{our_schema};
ghost use Rattle.sql_tables.specs.Selects.{one_or_none};
ghost use Rattle.sql_tables.specs.Statements.{HasTables, HasIdleTables, HasRules};
ghost use Rattle.sqlite.specs.Given.{IsPlain};
ghost use Rattle.sqlite.specs.Held.{state};
ghost use Rattle.sqlite.specs.Listing.{understood};
ghost use Rattle.sqlite.specs.Values.{bound, or_null};
ghost use Rattle.sqlite_value.specs.Order.{Row as Values, column};
ghost use Rattle.sqlite_value.specs.declared.value.Value.TheVariants.{Int, Null, Text};
ghost use Rattle.std.specs.Str.{IsUtf8};
ghost use Rattle.std.specs.String.{string_bytes};
ghost use Rattle.sql_tables.specs.Selecting.{SelectsRows, SelectsRowsWithin};

use sqlite::types::ValueRef;
use sqlite::{Alter, Connection, Error, ErrorCode, Row, Transaction};
use std::alloc::{AllocError, AllocFailed};

/// Why rows weren't read.
#[derive(Clone, Copy, Debug)]
pub enum ReadFault {
    /// A growth was refused.
    Memory,
    /// The store failed.
    Store(Error),
    /// A row is out of its rules.
    Rules,
}

impl From<Error> for ReadFault {
    ghost use Rattle.std.specs.Prelude.{◌≡◌};
    ghost use Rattle.sql_tables.specs.declared.reading.ReadFault.TheVariants.{Store};

    ghost from_gives = { λ error fault. fault ≡ Store error };

    fn from(error: Error) -> Self {
        ReadFault::Store(error)
    }
}

impl From<AllocError> for ReadFault {
    ghost use Rattle.std.specs.Prelude.{◌≡◌};
    ghost use Rattle.sql_tables.specs.declared.reading.ReadFault.TheVariants.{Memory};

    ghost from_gives = { λ _ fault. fault ≡ Memory };

    fn from(_: AllocError) -> Self {
        ReadFault::Memory
    }
}

impl<T: Drop> From<AllocFailed<T>> for ReadFault {
    ghost use Rattle.std.specs.Prelude.{◌≡◌};
    ghost use Rattle.sql_tables.specs.declared.reading.ReadFault.TheVariants.{Memory};

    ghost from_gives = { λ _ fault. fault ≡ Memory };

    fn from(_: AllocFailed<T>) -> Self {
        ReadFault::Memory
    }
}

/// The rows that a selection answers. It changes nothing.
///
/// # Errors
/// `Store` where the store failed, and never `Rules`.
// rule: statements-of-tables
pub fn read<S: Alter>(
    conn: &mut Connection<S>,
    sql: &str,
    params: &[ValueRef<'_>],
) -> Result<Vec<Row>, ReadFault>
    requires plain { IsPlain (understood our_schema sql.now) }
    requires idle { HasIdleTables (state S.Store conn.old) }
    ensures { SelectsRows S.Store sql.now (bound params.now) conn.old conn.new result }
{
    // For the prover alone: looking at the value makes known here what its type keeps.
    let _ours = conn.schema();
    Ok(conn.query_all(sql, params)?)
}

/// The rows that a selection answers, within a transaction. It changes nothing.
///
/// # Errors
/// `Store` where the store failed, and never `Rules`. Then nothing is committed.
pub fn read_within<S: Alter>(
    tx: &mut Transaction<'_, S>,
    sql: &str,
    params: &[ValueRef<'_>],
) -> Result<Vec<Row>, ReadFault>
    requires plain { IsPlain (understood our_schema sql.now) }
    requires tables { HasTables (state S.Store tx.old.conn.now) }
    requires rules { HasRules (state S.Store tx.old.conn.now) }
    ensures { SelectsRowsWithin S.Store sql.now (bound params.now) tx.old.conn tx.new.conn result }
{
    Ok(tx.query_all(sql, params)?)
}

/// The row, if there is one.
///
/// # Errors
/// `Rules` where there are more.
// rule: statements-of-tables
pub fn one_of(rows: &[Row]) -> Result<Option<&Row>, ReadFault>
    ensures { MatchResult result (λ o. rows.now ≡ one_or_none (option_map (λ r. r.now) o))
        (λ _. (o : Option Values) → ¬ (rows.now ≡ one_or_none o)) }
{
    match rows {
        [] => Ok(None),
        [row] => Ok(Some(row)),
        _ => Err(ReadFault::Rules),
    }
}

/// Tests that a row has this many columns.
///
/// # Errors
/// `Rules` where it has more or fewer.
pub fn has_columns(row: &Row, count: usize) -> Result<(), ReadFault>
    ensures { MatchResult result (λ _. length row.now ≡ count) (λ _. ¬ (length row.now ≡ count)) }
{
    if row.column_count() == count {
        Ok(())
    } else {
        Err(ReadFault::Rules)
    }
}

/// The number in a column.
///
/// # Errors
/// `Rules` only where the column holds no integer from 0 on, `Memory` where memory was refused.
// rule: statements-of-tables
pub fn number_at(row: &Row, at: usize) -> Result<u64, ReadFault>
    ensures { MatchResult result (λ n. column row.now at ≡ Int (pos n))
        (λ e. e ≡ ReadFault.Rules → (n : ℕ) → ¬ (column row.now at ≡ Int (pos n))) }
{
    row.get::<u64>(at).map_err(fault_of)
}

/// The number below 2^32 in a column.
///
/// # Errors
/// `Rules` only where the column holds no integer from 0 to 4,294,967,295, `Memory` where memory
/// was refused.
pub fn small_at(row: &Row, at: usize) -> Result<u32, ReadFault>
    ensures { MatchResult result (λ n. column row.now at ≡ Int (pos n))
        (λ e. e ≡ ReadFault.Rules → (n : ℕ) → n < 2 ^ 32 → ¬ (column row.now at ≡ Int (pos n))) }
{
    row.get::<u32>(at).map_err(fault_of)
}

/// The number in a column, none where it is NULL.
///
/// # Errors
/// `Rules` only where the row hasn't the column, or it holds neither NULL nor an integer from 0 to
/// 4,294,967,295; `Memory` where memory was refused.
pub fn optional_at(row: &Row, at: usize) -> Result<Option<u32>, ReadFault>
    ensures { MatchResult result (λ o. column row.now at ≡ or_null (λ n. Int (pos n)) o)
        (λ e. e ≡ ReadFault.Rules → at < length row.now → (o : Option ℕ) →
        IfSome o (λ n. n < 2 ^ 32) →
        ¬ (column row.now at ≡ or_null (λ n. Int (pos n)) o)) }
{
    row.get::<Option<u32>>(at).map_err(fault_of)
}

/// Tests that a column is NULL.
///
/// # Errors
/// `Rules` only where the row hasn't the column, or it isn't NULL; `Memory` where memory was
/// refused.
pub fn null_at(row: &Row, at: usize) -> Result<(), ReadFault>
    ensures { MatchResult result (λ _. column row.now at ≡ Null)
        (λ e. e ≡ ReadFault.Rules → at < length row.now → ¬ (column row.now at ≡ Null)) }
{
    match row.get::<Option<i64>>(at) {
        Ok(None) => Ok(()),
        Ok(Some(_)) => Err(ReadFault::Rules),
        Err(error) => Err(fault_of(error)),
    }
}

/// The text in a column.
///
/// # Errors
/// `Rules` only where the column holds no text of UTF-8, `Memory` where memory was refused.
pub fn text_at(row: &Row, at: usize) -> Result<String, ReadFault>
    ensures { MatchResult result (λ s. column row.now at ≡ Text (string_bytes s))
        (λ e. e ≡ ReadFault.Rules → (t : List ℕ) → IsUtf8 t → ¬ (column row.now at ≡ Text t)) }
{
    row.get::<String>(at).map_err(fault_of)
}

/// The fault of a value that wasn't read.
fn fault_of(error: Error) -> ReadFault
    ensures { result ≡ ReadFault.Rules → ¬ (error ≡ Error.SqliteFailure ErrorCode.OutOfMemory) }
{
    match error {
        Error::SqliteFailure(ErrorCode::OutOfMemory) => ReadFault::Memory,
        _ => ReadFault::Rules,
    }
}
