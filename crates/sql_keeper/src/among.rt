//! Rows that are looked for among others by their keys.

ghost use Rattle.std.specs.Prelude.{◌≡◌, is_some, option_copied};
ghost use Rattle.reserving.specs.Left.{bucket_in};
ghost use Rattle.reserving.specs.Sessions.{counter_in, group_in, session_in};

use buckets::Bucket;
use identifiers::SessionId;
use reserving::{Counter, Session, SessionGroup};

/// The bucket of a number among these.
pub(crate) fn bucket_among(rows: &[Bucket], number: u32) -> Option<&Bucket>
    ensures { option_copied result ≡ bucket_in number rows.now }
{
    rows.iter().find(|row| row.number() == number)
}

/// The row of a session among these.
pub(crate) fn session_among<'a>(rows: &'a [Session], id: &SessionId) -> Option<&'a Session>
    ensures { option_copied result ≡ session_in id.now rows.now }
{
    rows.iter().find(|row| row.id == *id)
}

/// What a session has of a rating group among these.
pub(crate) fn group_among<'a>(
    rows: &'a [SessionGroup],
    session: &SessionId,
    group: u32,
) -> Option<&'a SessionGroup>
    ensures { option_copied result ≡ group_in session.now group rows.now }
{
    rows.iter()
        .find(|row| row.session == *session && row.group == group)
}

/// The counter of a rating group and a cycle among these.
fn counter_among(rows: &[Counter], group: u32, cycle: u32) -> Option<&Counter>
    ensures { option_copied result ≡ counter_in group cycle rows.now }
{
    rows.iter()
        .find(|row| row.group == group && row.cycle == cycle)
}

/// Whether a bucket of this number is among these.
pub(crate) fn has_bucket(rows: &[Bucket], number: u32) -> bool
    ensures { result ≡ is_some (bucket_in number rows.now) }
{
    bucket_among(rows, number).is_some()
}

/// Whether a session's row is among these.
pub(crate) fn has_session(rows: &[Session], id: &SessionId) -> bool
    ensures { result ≡ is_some (session_in id.now rows.now) }
{
    session_among(rows, id).is_some()
}

/// Whether what a session has of a rating group is among these.
pub(crate) fn has_group(rows: &[SessionGroup], session: &SessionId, group: u32) -> bool
    ensures { result ≡ is_some (group_in session.now group rows.now) }
{
    group_among(rows, session, group).is_some()
}

/// Whether a counter of a rating group and a cycle is among these.
pub(crate) fn has_counter(rows: &[Counter], group: u32, cycle: u32) -> bool
    ensures { result ≡ is_some (counter_in group cycle rows.now) }
{
    counter_among(rows, group, cycle).is_some()
}
