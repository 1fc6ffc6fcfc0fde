//! The sessions' rows of a change that can't change any more: where the live rows have none of
//! these sessions, they go straight to the rows that were left.

ghost use Rattle.std.specs.Prelude.{◌≡◌, []};
ghost use Rattle.std.specs.List.{list_all};
ghost use Rattle.reserving.specs.Restored.{given};
ghost use Rattle.keepers.specs.Parts.{leaves_session};
ghost use Rattle.keepers.specs.Recorded.{is_past_group, are_past, rest_of};

use crate::left_rows::{LeftStore, leaves_session};
use crate::places::has_group;
use reserving::{GivenRows, Session, SessionGroup, StoredAccount};
use std::alloc::Global;
use std::mem;
use units::MOST_USED;

/// Whether a group's row can be left at once: it holds nothing, its use is in its range, and the
/// live rows have neither its session nor this group of it.
fn is_past_group(live: &StoredAccount, row: &SessionGroup) -> bool
    ensures { result ≡ is_past_group live.now row.now }
{
    (row.reservation.is_none() && row.used <= MOST_USED)
        && (!live.has_session(&row.session)
            && !has_group(live.groups_of(&row.session), &row.session, row.group))
}

fn are_groups_past(live: &StoredAccount, rows: &[SessionGroup]) -> bool
    ensures { result ≡ list_all (is_past_group live.now) rows.now }
{
    rows.iter().all(|row| is_past_group(live, row))
}

fn are_sessions_past(live: &StoredAccount, rows: &[Session]) -> bool
    ensures { result ≡ list_all (leaves_session live.now) rows.now }
{
    rows.iter().all(|row| leaves_session(live, row))
}

/// Whether no row of a session may change any more, and the live rows have none of these sessions.
// rule: database-writes.past
pub(crate) fn are_past(live: &StoredAccount, rows: &GivenRows) -> bool
    ensures { result ≡ are_past (given rows.now) live.now }
{
    are_sessions_past(live, &rows.sessions) && are_groups_past(live, &rows.groups)
}

/// Takes the rows of sessions.
// rule: database-writes.past
pub(crate) fn take_past(alloc: Global, rows: &mut GivenRows) -> LeftStore
    ensures rest { given rows.new ≡ rest_of (given rows.old) }
    ensures buckets { result.buckets.items ≡ [] }
    ensures counters { result.counters.items ≡ [] }
    ensures sessions { result.sessions.items ≡ rows.old.sessions.items }
    ensures groups { result.groups.items ≡ rows.old.groups.items }
{
    LeftStore {
        buckets: Vec::new(alloc),
        counters: Vec::new(alloc),
        sessions: mem::replace(&mut rows.sessions, Vec::new(alloc)),
        groups: mem::replace(&mut rows.groups, Vec::new(alloc)),
    }
}

/// Puts the rows of sessions back.
pub(crate) fn put_back(mut rows: GivenRows, past: LeftStore) -> GivenRows
    ensures { given result ≡ record (given rows) {
      sessions = past.sessions.items;
      groups = past.groups.items;
    } }
{
    rows.sessions = past.sessions;
    rows.groups = past.groups;
    rows
}
