//! A statement that writes, of which no one asks how many rows it wrote.

ghost use Rattle.sql_rows.specs.Makes.{HasRun};
ghost use Rattle.sql_tables.specs.Statements.{AttemptsOver};
ghost use Rattle.sqlite.specs.Values.{bound};

use sql_tables::write;
use sqlite::types::ValueRef;
use sqlite::{Alter, Error, Transaction};

/// Runs a statement that writes.
///
/// # Errors
/// An error of the store. Then nothing is committed.
pub(crate) fn run<S: Alter>(
    tx: &mut Transaction<'_, S>,
    sql: &str,
    params: &[ValueRef<'_>],
) -> Result<(), Error>
    ensures { AttemptsOver S.Store (HasRun sql.now (bound params.now)) tx.old.conn tx.new.conn
        result }
{
    write(tx, sql, params)?;
    Ok(())
}
