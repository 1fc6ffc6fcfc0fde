//! Where the rows of an account are, looked for by their keys.

ghost use Rattle.std.specs.Prelude.{◌≡◌, true, ◌==◌, is_some, position};
ghost use Rattle.reserving.specs.Sessions.{session_in, group_in, counter_in, is_session, is_of};
ghost use Rattle.reserving.specs.Sessions.{is_counter};
ghost use Rattle.reserving.specs.Left.{bucket_in};
ghost use Rattle.ledger.specs.Ledger.{is_same};

use buckets::Bucket;
use identifiers::SessionId;
use reserving::{Counter, Session, SessionGroup};

fn session_place(rows: &[Session], session: &SessionId) -> Option<usize>
    ensures { result ≡ position (is_session session.now) rows.now }
{
    rows.iter().position(|row| row.id == *session)
}

pub(crate) fn has_session(rows: &[Session], session: &SessionId) -> bool
    ensures { result ≡ is_some (session_in session.now rows.now) }
{
    session_place(rows, session).is_some()
}

/// Whether two names end alike.
fn end_alike(a: &SessionId, b: &SessionId) -> bool {
    match (a.as_str().as_bytes().last(), b.as_str().as_bytes().last()) {
        (Some(x), Some(y)) => *x == *y,
        _ => true,
    }
}

/// Whether two names are one. Such as are side by side mostly differ at their ends, so that these
/// are looked at first.
fn is_one_name(a: &SessionId, b: &SessionId) -> bool
    ensures { result ≡ true → is_same a.now b.now ≡ true }
{
    end_alike(a, b) && *a == *b
}

/// Whether the row of a session is at a place.
fn stands_at(rows: &[Session], place: usize, session: &SessionId) -> bool
    ensures { result ≡ true → is_some (session_in session.now rows.now) ≡ true }
{
    place < rows.len() && is_one_name(&rows[place].id, session)
}

/// Whether there is a row of this session, for a walk that asks for sessions in their order: the
/// row is mostly at the place of the last one or at the next one, and is searched for only
/// where it isn't there. The place is then that of the row.
pub(crate) fn has_session_near(rows: &[Session], place: &mut usize, session: &SessionId) -> bool
    ensures { result ≡ is_some (session_in session.now rows.now) }
{
    if stands_at(rows, *place, session) {
        return true;
    }
    let next = place.wrapping_add(1);
    if stands_at(rows, next, session) {
        *place = next;
        return true;
    }
    let Some(found) = session_place(rows, session) else {
        return false;
    };
    *place = found;
    true
}

pub(crate) fn has_bucket(rows: &[Bucket], number: u32) -> bool
    ensures { result ≡ is_some (bucket_in number rows.now) }
{
    bucket_place(rows, number).is_some()
}

fn bucket_place(rows: &[Bucket], number: u32) -> Option<usize>
    ensures { result ≡ position (λ b. b.number == number) rows.now }
{
    rows.iter().position(|row| row.number() == number)
}

pub(crate) fn has_group(rows: &[SessionGroup], session: &SessionId, group: u32) -> bool
    ensures { result ≡ is_some (group_in session.now group rows.now) }
{
    group_place(rows, session, group).is_some()
}

fn group_place(rows: &[SessionGroup], session: &SessionId, group: u32) -> Option<usize>
    ensures { result ≡ position (is_of session.now group) rows.now }
{
    rows.iter()
        .position(|row| row.session == *session && row.group == group)
}

pub(crate) fn has_counter(rows: &[Counter], group: u32, cycle: u32) -> bool
    ensures { result ≡ is_some (counter_in group cycle rows.now) }
{
    counter_place(rows, group, cycle).is_some()
}

fn counter_place(rows: &[Counter], group: u32, cycle: u32) -> Option<usize>
    ensures { result ≡ position (is_counter group cycle) rows.now }
{
    rows.iter()
        .position(|row| row.group == group && row.cycle == cycle)
}
