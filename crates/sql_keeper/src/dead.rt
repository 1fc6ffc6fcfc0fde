//! The buckets of an account that can't be used any more.

ghost use Rattle.keepers.specs.Change.{AreDeadOf};
ghost use Rattle.sql_keeper.specs.Asks.{Asks};
ghost use Rattle.sql_keeper.specs.Dead.{AreDead};
ghost use Rattle.sql_keeper.specs.Content.{told_buckets};
ghost use Rattle.sql_keeper.specs.LiveGroups.{Gathers};
ghost use Rattle.sql_rows.specs.Content.{rows_in};
ghost use Rattle.sql_tables.specs.Statements.{HasIdleTables};
ghost use Rattle.sqlite.specs.Held.{state};
ghost use Rattle.sql_keeper.specs.Calls.{AsksTables};

use crate::faults::counted;
use crate::keeper::SqlKeeper;
use crate::rebuilding::buckets_of;
use crate::still_open::still_open;
use buckets::Bucket;
use identifiers::AccountNumber;
use keepers::StoreFault;
use sql_rows::{read_allowances, read_buckets_dead};
use sql_tables::ReadFault;
use sqlite::{Alter, Connection};
use std::alloc::Global;

fn dead_of<S: Alter>(
    conn: &mut Connection<S>,
    alloc: Global,
    account: &AccountNumber,
) -> Result<Vec<Bucket>, ReadFault>
    requires idle { HasIdleTables (state S.Store conn.old) }
    ensures { Gathers
        (λ trees found. AreDead (told_buckets (rows_in trees account.now)) found.items)
        (state S.Store conn.old) (state S.Store conn.new) result }
{
    let rows = read_buckets_dead(conn, alloc, account)?;
    let allowances = read_allowances(conn, alloc, account)?;
    buckets_of(alloc, &rows, &allowances)
}

fn ask_for_dead<S: Alter>(
    conn: &mut Connection<S>,
    alloc: Global,
    account: &AccountNumber,
) -> Result<Vec<Bucket>, ReadFault>
    requires idle { HasIdleTables (state S.Store conn.old) }
    ensures { Asks
        (λ trees found. AreDead (told_buckets (rows_in trees account.now)) found.items)
        (state S.Store conn.old) (state S.Store conn.new) result }
{
    still_open(conn)?;
    dead_of(conn, alloc, account)
}

impl<S: Alter> SqlKeeper<S> {
    /// The buckets of an account that have nothing available and nothing reserved (TS 32.296,
    /// account balance management function), in the order of their numbers; none where there is no
    /// account. It reads all of the account's.
    ///
    /// # Errors
    /// A fault of the store, which is counted, as is a row out of its rules; lack of memory.
    // rule: database-reads.find-answer
    pub fn dead_buckets(&mut self, account: &AccountNumber) -> Result<Vec<Bucket>, StoreFault>
        ensures { AsksTables S.Store (λ t found. AreDeadOf (t.rows account.now) found.items)
            self.old self.new result }
    {
        let read = ask_for_dead(&mut self.connection, self.alloc, account);
        counted(&mut self.failures, read)
    }
}
