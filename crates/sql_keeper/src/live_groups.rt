//! What open sessions have of rating groups, with what is held there, read from the tables.

ghost use Rattle.std.specs.Prelude.{◌≡◌, ◌==◌, length};
ghost use Rattle.sql_keeper.specs.Content.{shelf_names};
ghost use Rattle.sql_keeper.specs.LiveGroups.{AreLiveGroups, AreOpenSessions, Gathers};
ghost use Rattle.sql_rows.specs.Content.{rows_in};
ghost use Rattle.sql_tables.specs.Statements.{HasIdleTables};
ghost use Rattle.sqlite.specs.Held.{state};

use crate::rebuilding_groups::groups_of;
use buckets::Purse;
use identifiers::AccountNumber;
use reserving::{Session, SessionGroup};
use shelves::TariffShelf;
use sql_rows::{read_open_rows, read_sessions_open};
use sql_tables::ReadFault;
use sqlite::{Alter, Connection};
use std::alloc::Global;

/// The open sessions of an account, with what they have of rating groups.
#[derive(Drop)]
pub(crate) struct OpenSessions {
    /// The sessions.
    pub sessions: Vec<Session>,
    /// What they have of rating groups.
    pub groups: Vec<SessionGroup>,
}

/// What the open sessions of an account have of rating groups, with what their reservations hold in
/// the order of the purse: one selection, however many sessions are open.
fn read_live_groups<S: Alter>(
    conn: &mut Connection<S>,
    alloc: Global,
    account: &AccountNumber,
    books: &TariffShelf,
    purse: &Purse,
) -> Result<Vec<SessionGroup>, ReadFault>
    requires idle { HasIdleTables (state S.Store conn.old) }
    ensures { Gathers
        (λ trees xs. AreLiveGroups (shelf_names books.now) (rows_in trees account.now) xs.items)
        (state S.Store conn.old) (state S.Store conn.new) result }
{
    let rows = read_open_rows(conn, alloc, account)?;
    groups_of(alloc, books, purse.buckets(), &rows)
}

/// Whether there are no sessions.
pub(crate) fn is_none(sessions: &[Session]) -> bool
    ensures { result ≡ (length sessions.now == 0) }
{
    sessions.is_empty()
}

/// The open sessions of an account, with what they have of rating groups, and what their
/// reservations hold in the order of the purse. Where no session is open, nothing more is asked.
///
/// # Errors
/// `Rules` where a reservation has no book on the shelf, or its period isn't one of that book's.
/// `Rules` too where it holds nothing of a bucket, or holds of one that isn't in the purse. Else a
/// fault of the store, or lack of memory.
// rule: database-loads.live-groups
pub(crate) fn read_open_sessions<S: Alter>(
    conn: &mut Connection<S>,
    alloc: Global,
    account: &AccountNumber,
    books: &TariffShelf,
    purse: &Purse,
) -> Result<OpenSessions, ReadFault>
    requires idle { HasIdleTables (state S.Store conn.old) }
    ensures { Gathers (λ trees x. AreOpenSessions (shelf_names books.now)
        (rows_in trees account.now) x.sessions.items x.groups.items)
        (state S.Store conn.old) (state S.Store conn.new) result }
{
    let sessions = read_sessions_open(conn, alloc, account)?;
    if is_none(&sessions) {
        return Ok(OpenSessions {
            sessions,
            groups: Vec::new(alloc),
        });
    }
    let groups = read_live_groups(conn, alloc, account, books, purse)?;
    Ok(OpenSessions { sessions, groups })
}
