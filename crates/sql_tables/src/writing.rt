//! A statement that writes.

ghost use Rattle.std.specs.Prelude.{◌≡◌};
ghost use Rattle.sql_tables.specs.Statements.{Attempts};
ghost use Rattle.sqlite.specs.Held.{state};
ghost use Rattle.sqlite.specs.State.{ExecutesInside};
ghost use Rattle.sqlite.specs.Values.{bound};

use sqlite::types::ValueRef;
use sqlite::{Alter, Error, Transaction};

/// Runs a statement that writes; it answers the number of rows.
///
/// # Errors
/// An error of the store. Then nothing is committed.
// rule: statements-of-tables
pub fn write<S: Alter>(
    tx: &mut Transaction<'_, S>,
    sql: &str,
    params: &[ValueRef<'_>],
) -> Result<usize, Error>
    ensures same_reference { tx.new.conn.ghost_name ≡ tx.old.conn.ghost_name }
    ensures runs { Attempts (λ old new. ExecutesInside 0 sql.now (bound params.now) old new result)
        (state S.Store tx.old.conn.now) (state S.Store tx.new.conn.now) result }
{
    tx.execute(sql, params)
}
