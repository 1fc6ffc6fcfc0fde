//! Questions to a keeper over a database, each of one row.

ghost use Rattle.std.specs.Prelude.{◌≡◌, is_some};
ghost use Rattle.sql_keeper.specs.Asks.{Asks};
ghost use Rattle.sql_keeper.specs.Seen.{IsKnown};
ghost use Rattle.sql_rows.specs.Content.{rows_in};
ghost use Rattle.sql_tables.specs.Statements.{HasIdleTables, Reads};
ghost use Rattle.sqlite.specs.Held.{state};
ghost use Rattle.sql_keeper.specs.Calls.{AsksTables};

use crate::faults::counted;
use crate::keeper::SqlKeeper;
use crate::seen::seen_with;
use crate::still_open::still_open;
use identifiers::{AccountNumber, SessionId};
use keepers::StoreFault;
use sql_rows::{read_account, read_session};
use sql_tables::ReadFault;
use sqlite::{Alter, Connection};
use std::alloc::Global;
use units::Moment;

/// The last moment, which the keeper knows, if the connection can still be asked.
fn ask_for_last<S: Alter>(conn: &mut Connection<S>, last: Moment) -> Result<Moment, ReadFault>
    requires idle { HasIdleTables (state S.Store conn.old) }
    ensures { Asks (λ _ t. t ≡ last) (state S.Store conn.old) (state S.Store conn.new) result }
{
    still_open(conn)?;
    Ok(last)
}

fn is_opened<S: Alter>(conn: &mut Connection<S>, account: &AccountNumber) -> Result<bool, ReadFault>
    requires idle { HasIdleTables (state S.Store conn.old) }
    ensures { Reads (λ trees there. there ≡ is_some (rows_in trees account.now).head)
        (state S.Store conn.old) (state S.Store conn.new) result }
{
    let head = read_account(conn, account)?;
    Ok(head.is_some())
}

fn ask_for_account<S: Alter>(
    conn: &mut Connection<S>,
    account: &AccountNumber,
) -> Result<bool, ReadFault>
    requires idle { HasIdleTables (state S.Store conn.old) }
    ensures { Asks (λ trees there. there ≡ is_some (rows_in trees account.now).head)
        (state S.Store conn.old) (state S.Store conn.new) result }
{
    still_open(conn)?;
    is_opened(conn, account)
}

fn is_known<S: Alter>(
    conn: &mut Connection<S>,
    alloc: Global,
    account: &AccountNumber,
    session: &SessionId,
) -> Result<bool, ReadFault>
    requires idle { HasIdleTables (state S.Store conn.old) }
    ensures { Reads (λ trees known. IsKnown (rows_in trees account.now) session.now known)
        (state S.Store conn.old) (state S.Store conn.new) result }
{
    let row = read_session(conn, alloc, account, session)?;
    Ok(row.is_some())
}

fn ask_for_session<S: Alter>(
    conn: &mut Connection<S>,
    alloc: Global,
    account: &AccountNumber,
    session: &SessionId,
) -> Result<bool, ReadFault>
    requires idle { HasIdleTables (state S.Store conn.old) }
    ensures { Asks (λ trees known. IsKnown (rows_in trees account.now) session.now known)
        (state S.Store conn.old) (state S.Store conn.new) result }
{
    still_open(conn)?;
    is_known(conn, alloc, account, session)
}

impl<S: Alter> SqlKeeper<S> {
    /// The moment of the last accepted command; the first moment where there was none. The keeper
    /// knows it, so that nothing is read.
    ///
    /// # Errors
    /// A fault of the store, which is counted, or lack of memory.
    // rule: database-reads.tables-of
    pub fn last(&mut self) -> Result<Moment, StoreFault>
        ensures { AsksTables S.Store (λ t moment. moment ≡ t.last) self.old self.new result }
    {
        let read = ask_for_last(&mut self.connection, self.last);
        counted(&mut self.failures, read)
    }

    /// Whether there is an account of this number.
    ///
    /// # Errors
    /// A fault of the store, which is counted, or lack of memory.
    // rule: database-reads.tables-of
    pub fn has_account(&mut self, account: &AccountNumber) -> Result<bool, StoreFault>
        ensures { AsksTables S.Store (λ t there. there ≡ is_some (t.rows account.now).head)
            self.old self.new result }
    {
        let read = ask_for_account(&mut self.connection, account);
        counted(&mut self.failures, read)
    }

    /// Whether an account has a row of this session, which may be over.
    ///
    /// # Errors
    /// A fault of the store, which is counted, or lack of memory.
    // rule: database-reads.tables-of
    pub fn knows_session(
        &mut self,
        account: &AccountNumber,
        session: &SessionId,
    ) -> Result<bool, StoreFault>
        ensures { AsksTables S.Store
            (λ t known. known ≡ is_some ((t.rows account.now).sessions session.now))
            self.old self.new result }
    {
        let read = ask_for_session(&mut self.connection, self.alloc, account, session);
        let seen = self.seen.take();
        self.seen = seen_with(seen, account, session, &read);
        counted(&mut self.failures, read)
    }
}
