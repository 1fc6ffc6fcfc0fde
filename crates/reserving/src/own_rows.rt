//! The rows of one session among those of all, found by halves.

ghost use Rattle.std.specs.Prelude.{◌≡◌, ◌+◌, ◌≤◌, true, false, not, length, take, drop};
ghost use Rattle.std.specs.List.Sorted.{IsPartitionPoint};
ghost use Rattle.reserving.specs.Sessions.{group_before, is_session, session_before};
ghost use Rattle.reserving.specs.Rows.{AreApart, AreAscending};
ghost use Rattle.reserving.specs.Others.{own_groups, own_sessions, is_earlier, is_later};

use crate::searching::seek_session;
use crate::session::{Session, SessionGroup};
use identifiers::SessionId;

/// How many groups are of earlier sessions.
fn count_earlier(groups: &[SessionGroup], session: &SessionId) -> usize
    requires { AreAscending group_before groups.now }
    ensures within { result ≤ length groups.now }
    ensures parted { IsPartitionPoint (λ r. is_earlier session.now r ≡ true)
        (λ r. is_earlier session.now r ≡ false) groups.now result }
{
    groups.partition_point(
        |row: &SessionGroup| -> bool
            ensures { result ≡ is_earlier session.entry.now row.now }
        { row.session.cmp(session).is_lt() },
    )
}

/// How many groups aren't of later sessions.
fn count_unlater(groups: &[SessionGroup], session: &SessionId) -> usize
    requires { AreAscending group_before groups.now }
    ensures within { result ≤ length groups.now }
    ensures parted { IsPartitionPoint (λ r. not (is_later session.now r) ≡ true)
        (λ r. not (is_later session.now r) ≡ false) groups.now result }
{
    groups.partition_point(
        |row: &SessionGroup| -> bool
            ensures { result ≡ not (is_later session.entry.now row.now) }
        { !row.session.cmp(session).is_gt() },
    )
}

/// Where what a session has of rating groups begins, and how many rows it is.
fn own_range(groups: &[SessionGroup], session: &SessionId) -> (usize, usize)
    requires { AreAscending group_before groups.now }
    ensures within { result.0 + result.1 ≤ length groups.now }
    ensures own { take result.1 (drop result.0 groups.now) ≡ own_groups session.now groups.now }
{
    let first = count_earlier(groups, session);
    let count = count_unlater(&groups[first..], session);
    (first, count)
}

/// What a session has of rating groups.
pub(crate) fn own_groups<'a>(groups: &'a [SessionGroup], session: &SessionId) -> &'a [SessionGroup]
    requires { AreAscending group_before groups.now }
    ensures { result.now ≡ own_groups session.now groups.now }
{
    let (first, count) = own_range(groups, session);
    &groups[first..first + count]
}

/// Keeps of some rows so many from a place on: they are swapped to the front, so that no other row
/// is moved for it.
fn keep_from<T: Drop>(rows: &mut Vec<T>, first: usize, count: usize)
    requires { first + count ≤ length rows.old.items }
    ensures { rows.new.items ≡ take count (drop first rows.old.items) }
{
    for place in 0..count {
        rows.swap(place, first + place);
    }
    rows.truncate(count);
}

/// Keeps of sessions the row of one alone.
pub(crate) fn keep_own_session(sessions: &mut Vec<Session>, session: &SessionId)
    requires order { AreAscending session_before sessions.old.items }
    requires apart { AreApart (λ x y. is_session x.id y) sessions.old.items }
    ensures { sessions.new.items ≡ own_sessions session.now sessions.old.items }
{
    match seek_session(sessions, session) {
        Ok(place) => keep_from(sessions, place, 1),
        Err(_) => sessions.clear(),
    }
}

/// Keeps of groups what one session has of them.
pub(crate) fn keep_own_groups(groups: &mut Vec<SessionGroup>, session: &SessionId)
    requires { AreAscending group_before groups.old.items }
    ensures { groups.new.items ≡ own_groups session.now groups.old.items }
{
    let (first, count) = own_range(groups, session);
    keep_from(groups, first, count);
}
