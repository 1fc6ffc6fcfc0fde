//! Whether a connection can still be asked.

ghost use Rattle.sql_keeper.specs.Asks.{IsStillOpen};
ghost use Rattle.sql_tables.specs.Statements.{HasIdleTables};
ghost use Rattle.sqlite.specs.Held.{state};

use sql_tables::ReadFault;
use sqlite::{Alter, Connection};

/// Tests that the connection can still be asked, before anything is asked of it: a failure of the
/// disk shuts it, and nothing else does.
///
/// # Errors
/// `Store` where it is shut; lack of memory.
// rule: stop-commit
pub(crate) fn still_open<S: Alter>(conn: &mut Connection<S>) -> Result<(), ReadFault>
    requires idle { HasIdleTables (state S.Store conn.old) }
    ensures { IsStillOpen (state S.Store conn.old) (state S.Store conn.new) result }
{
    let _plan = conn.prepare("SELECT 1")?;
    Ok(())
}
