//! Whether a change may be made of what is stored: what of its account it has to name.

ghost use Rattle.std.specs.Prelude.{◌≡◌, ◌&&◌, Err, Ok, false, if◌then◌else◌, is_some, not};
ghost use Rattle.std.specs.List.{list_all};
ghost use Rattle.reserving.specs.Sessions.{is_open};
ghost use Rattle.sql_keeper.specs.Content.{shelf_names};
ghost use Rattle.sql_keeper.specs.LiveGroups.{Gathers};
ghost use Rattle.sql_keeper.specs.Seen.{AreSeen, IsStanding, standing_of, stands_open};
ghost use Rattle.sql_keeper.specs.Tests.{AreFound, IsChangeFound, IsFound, IsTested, are_among};
ghost use Rattle.sql_keeper.specs.Tests.{is_as, is_beside};
ghost use Rattle.sql_rows.specs.Content.{rows_in};
ghost use Rattle.sql_rows.specs.Texts.{group_at};
ghost use Rattle.sql_tables.specs.Statements.{HasIdleTables};
ghost use Rattle.sql_tables.specs.declared.reading.ReadFault.TheVariants.{Rules};
ghost use Rattle.sqlite.specs.Held.{state};

use crate::among::{has_group, has_session};
use crate::bucket_numbers::test_bucket_numbers;
use crate::seen::{
    SeenAccount, Standing, head_seen, is_open, is_unknown, standing_seen, stands_open,
};
use crate::testing::may_be_written;
use identifiers::{AccountNumber, SessionId};
use keepers::Change;
use reserving::{Session, SessionGroup};
use shelves::TariffShelf;
use sql_rows::{GroupColumns, HeadColumns, read_account, read_groups, read_session};
use sql_tables::ReadFault;
use sqlite::{Alter, Connection};
use std::alloc::Global;

/// Whether a session is neither opened nor ended by its row over the one that is stored.
fn stays(before: Standing, session: &Session) -> bool
    ensures { result ≡ is_as session.now (stands_open before) }
{
    if is_open(session.state) {
        stands_open(before)
    } else {
        !stands_open(before)
    }
}

/// What is known of a session by its row.
fn standing_of(row: &Option<Session>) -> Standing
    ensures { result ≡ standing_of row.now }
{
    match row {
        None => Standing::Unknown,
        Some(row) => {
            if is_open(row.state) {
                Standing::Open
            } else {
                Standing::Over
            }
        }
    }
}

/// What is known of a session in the tables, as it is read.
fn read_standing<S: Alter>(
    conn: &mut Connection<S>,
    alloc: Global,
    account: &AccountNumber,
    session: &SessionId,
) -> Result<Standing, ReadFault>
    requires idle { HasIdleTables (state S.Store conn.old) }
    ensures { Gathers (λ trees x. IsStanding (rows_in trees account.now) session.now x)
        (state S.Store conn.old) (state S.Store conn.new) result }
{
    let row = read_session(conn, alloc, account, session)?;
    Ok(standing_of(&row))
}

/// What is known of a session in the tables: as it was seen, or as it is read.
fn find_standing<S: Alter>(
    conn: &mut Connection<S>,
    alloc: Global,
    account: &AccountNumber,
    seen: &Option<SeenAccount>,
    session: &SessionId,
) -> Result<Standing, ReadFault>
    requires idle { HasIdleTables (state S.Store conn.old) }
    requires seen { AreSeen seen.now (state S.Store conn.old) }
    ensures { Gathers (λ trees x. IsStanding (rows_in trees account.now) session.now x)
        (state S.Store conn.old) (state S.Store conn.new) result }
{
    match standing_seen(seen, account, session) {
        Some(standing) => Ok(standing),
        None => read_standing(conn, alloc, account, session),
    }
}

/// What is kept of an account once, as it is read.
fn read_head<S: Alter>(
    conn: &mut Connection<S>,
    account: &AccountNumber,
) -> Result<Option<HeadColumns>, ReadFault>
    requires idle { HasIdleTables (state S.Store conn.old) }
    ensures { Gathers (λ trees o. o ≡ (rows_in trees account.now).head)
        (state S.Store conn.old) (state S.Store conn.new) result }
{
    Ok(read_account(conn, account)?)
}

/// What is kept of an account once: as it was seen, or as it is read.
pub(crate) fn find_head<S: Alter>(
    conn: &mut Connection<S>,
    seen: &Option<SeenAccount>,
    account: &AccountNumber,
) -> Result<Option<HeadColumns>, ReadFault>
    requires idle { HasIdleTables (state S.Store conn.old) }
    requires seen { AreSeen seen.now (state S.Store conn.old) }
    ensures { Gathers (λ trees o. o ≡ (rows_in trees account.now).head)
        (state S.Store conn.old) (state S.Store conn.new) result }
{
    match head_seen(seen, account) {
        Some(head) => Ok(Some(head)),
        None => read_head(conn, account),
    }
}

/// Whether a stored group has no reservation.
fn is_free(row: &GroupColumns) -> bool
    ensures { result ≡ not (is_some (group_at row.now).row.periods) }
{
    row.periods.is_none()
}

/// Whether a stored group of a session is named, or has no reservation.
fn is_beside(groups: &[SessionGroup], session: &SessionId, row: &GroupColumns) -> bool
    ensures { result ≡ is_beside groups.now session.now (group_at row.now) }
{
    has_group(groups, session, row.group) || is_free(row)
}

/// Whether each stored group of the session is named or free.
fn are_beside(groups: &[SessionGroup], session: &SessionId, rows: &[GroupColumns]) -> bool
    ensures { result ≡ list_all (λ r. is_beside groups.now session.now (group_at r)) rows.now }
{
    rows.iter().all(|row| is_beside(groups, session, row))
}

/// What is found of sessions that a change names.
#[derive(Clone, Copy)]
pub(crate) struct NamedSessions {
    /// None that is opened or ended leaves a group beside those that are named that has a
    /// reservation.
    pub are_settled: bool,
    /// No row of them was there, nor of their groups.
    pub are_new: bool,
}

/// What is found where a change may not be made.
fn unsettled() -> NamedSessions
    ensures { result ≡ record { are_settled = false; are_new = false } }
{
    NamedSessions {
        are_settled: false,
        are_new: false,
    }
}

/// Whether it is found that a change may be made.
fn is_settled(found: NamedSessions) -> bool
    ensures { result ≡ found.are_settled }
{
    found.are_settled
}

/// Whether these are new, and those that are found.
fn both_new(are_new: bool, found: NamedSessions) -> bool
    ensures { result ≡ (are_new && found.are_new) }
{
    are_new && found.are_new
}

/// Looks whether a session is opened or ended by its row, and leaves a group beside those that are
/// named that has a reservation. One that wasn't there has no groups.
fn find_session<S: Alter>(
    conn: &mut Connection<S>,
    alloc: Global,
    account: &AccountNumber,
    seen: &Option<SeenAccount>,
    groups: &[SessionGroup],
    session: &Session,
) -> Result<NamedSessions, ReadFault>
    requires idle { HasIdleTables (state S.Store conn.old) }
    requires seen { AreSeen seen.now (state S.Store conn.old) }
    ensures { Gathers (λ trees x. IsFound groups.now (rows_in trees account.now) session.now x)
        (state S.Store conn.old) (state S.Store conn.new) result }
{
    let before = find_standing(conn, alloc, account, seen, &session.id)?;
    if is_unknown(before) {
        return Ok(NamedSessions {
            are_settled: true,
            are_new: true,
        });
    }
    if stays(before, session) {
        return Ok(NamedSessions {
            are_settled: true,
            are_new: false,
        });
    }
    let rows = read_groups(conn, alloc, account, &session.id)?;
    Ok(NamedSessions {
        are_settled: are_beside(groups, &session.id, &rows),
        are_new: false,
    })
}

/// What is found of each session that the change names.
fn find_sessions<S: Alter>(
    conn: &mut Connection<S>,
    alloc: Global,
    account: &AccountNumber,
    seen: &Option<SeenAccount>,
    groups: &[SessionGroup],
    sessions: &[Session],
) -> Result<NamedSessions, ReadFault>
    requires idle { HasIdleTables (state S.Store conn.old) }
    requires seen { AreSeen seen.now (state S.Store conn.old) }
    ensures { Gathers
        (λ trees x. AreFound sessions.now groups.now (rows_in trees account.now) x)
        (state S.Store conn.old) (state S.Store conn.new) result }
{
    let mut are_new = true;
    'sessions: for session in sessions {
        let found = find_session(conn, alloc, account, seen, groups, session)?;
        if !is_settled(found) {
            return Ok(unsettled());
        }
        are_new = both_new(are_new, found);
    }
    Ok(NamedSessions {
        are_settled: true,
        are_new,
    })
}

/// Whether each group is of one of the sessions.
fn are_among(sessions: &[Session], groups: &[SessionGroup]) -> bool
    ensures { result ≡ are_among sessions.now groups.now }
{
    groups.iter().all(|row| has_session(sessions, &row.session))
}

/// What is found of sessions, and of whether each group is of one of them.
fn found_with(found: NamedSessions, sessions: &[Session], groups: &[SessionGroup]) -> NamedSessions
    ensures { result ≡ record {
      are_settled = found.are_settled;
      are_new = are_among sessions.now groups.now && found.are_new;
    } }
{
    NamedSessions {
        are_settled: found.are_settled,
        are_new: both_new(are_among(sessions, groups), found),
    }
}

/// Looks whether a change may be made: what is written reads as the change, and as nothing else;
/// and whether nothing is there of its sessions and groups.
fn find_change<S: Alter>(
    conn: &mut Connection<S>,
    alloc: Global,
    books: &TariffShelf,
    seen: &Option<SeenAccount>,
    change: &Change,
) -> Result<NamedSessions, ReadFault>
    requires idle { HasIdleTables (state S.Store conn.old) }
    requires seen { AreSeen seen.now (state S.Store conn.old) }
    ensures { Gathers (λ trees x.
        IsChangeFound (shelf_names books.now) change.now (rows_in trees change.now.number) x)
        (state S.Store conn.old) (state S.Store conn.new) result }
{
    let head = find_head(conn, seen, &change.number)?;
    if !may_be_written(books, &head, change) {
        return Ok(unsettled());
    }
    let sessions = change.rows.sessions();
    let groups = change.rows.groups();
    let found = find_sessions(conn, alloc, &change.number, seen, groups, sessions)?;
    Ok(found_with(found, sessions, groups))
}

/// What is said of a change that may be made: whether its sessions and groups are new. It is out of
/// the rules exactly where it may not be made.
fn told(found: NamedSessions) -> Result<bool, ReadFault>
    ensures { result ≡ (if found.are_settled then Ok found.are_new else Err Rules) }
{
    if is_settled(found) {
        Ok(found.are_new)
    } else {
        Err(ReadFault::Rules)
    }
}

/// Tests a change; whether nothing is there of its sessions and groups. It is out of the rules
/// where it may not be made, and where a bucket that is new has the number of one that is there.
// rule: database-writes.writable
pub(crate) fn test_change<S: Alter>(
    conn: &mut Connection<S>,
    alloc: Global,
    books: &TariffShelf,
    seen: &Option<SeenAccount>,
    change: &Change,
) -> Result<bool, ReadFault>
    requires idle { HasIdleTables (state S.Store conn.old) }
    requires seen { AreSeen seen.now (state S.Store conn.old) }
    ensures { Gathers (λ trees new.
        IsTested (shelf_names books.now) change.now (rows_in trees change.now.number) new)
        (state S.Store conn.old) (state S.Store conn.new) result }
{
    // For the prover alone: looking at the value makes known here what its type keeps.
    let _ours = conn.schema();
    test_bucket_numbers(conn, seen, &change.number, change.rows.buckets())?;
    let found = find_change(conn, alloc, books, seen, change)?;
    told(found)
}
