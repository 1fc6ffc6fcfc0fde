//! Whether nothing of an account ends at a moment: it is looked for at a load.

ghost use Rattle.std.specs.Prelude.{◌≡◌, ◌+◌, ◌*◌, ◌&&◌, true, IfSome};
ghost use Rattle.reserving.specs.Sessions.{session_before};
ghost use Rattle.reserving.specs.Rows.{AreAscending};
ghost use Rattle.reserving.specs.Calm.{are_sessions_quiet, are_groups_quiet, are_buckets_quiet};
ghost use Rattle.reserving.specs.Calm.{is_session_quiet, is_group_quiet, is_bucket_quiet};
ghost use Rattle.ledger.specs.Pricing.{validity_of};

use crate::kept_rows::KeptRows;
use crate::live::is_open;
use crate::session::{Session, SessionGroup, SessionState};
use buckets::Bucket;
use shelves::TariffShelf;
use units::Moment;

/// The moment, where it is said that nothing ends at it.
pub(crate) fn quiet_if(quiet: bool, moment: Moment) -> Option<Moment>
    ensures { IfSome result (λ t. (t ≡ moment) × (quiet ≡ true)) }
{
    if quiet { Some(moment) } else { None }
}

/// Whether nothing ends at the moment: no session's supervision time is over, each reservation is
/// of an open session, which may be marked, and of a bucket that has ended nothing is available.
pub(crate) fn is_quiet(rows: &KeptRows, shelf: &TariffShelf, at: Moment, bound: bool) -> bool
    requires order { AreAscending session_before rows.now.sessions.items }
    requires bound { bound ≡ true →
        are_groups_quiet rows.now.sessions.items rows.now.groups.items ≡ true }
    ensures { result
        ≡ (are_sessions_quiet (validity_of shelf.now) at rows.now.sessions.items
        && are_groups_quiet rows.now.sessions.items rows.now.groups.items
        && are_buckets_quiet at rows.now.purse) }
{
    are_sessions_quiet(&rows.sessions, shelf, at)
        && are_groups_bound(&rows.groups, &rows.sessions, bound)
        && are_buckets_quiet(rows.purse.buckets(), at)
}

/// Whether a session isn't open, or its supervision time isn't over.
fn is_session_quiet(row: &Session, shelf: &TariffShelf, at: Moment) -> bool
    ensures { result ≡ is_session_quiet (validity_of shelf.now) at row.now }
{
    row.state != SessionState::Open || at.seconds() < end_of(row, shelf)
}

/// The end of a session's supervision time, in seconds.
fn end_of(row: &Session, shelf: &TariffShelf) -> u64
    ensures { result ≡ row.now.touched + 2 * validity_of shelf.now row.now.touched }
{
    row.touched.seconds() + 2 * u64::from(shelf.validity_at(row.touched))
}

fn are_sessions_quiet(rows: &[Session], shelf: &TariffShelf, at: Moment) -> bool
    ensures { result ≡ are_sessions_quiet (validity_of shelf.now) at rows.now }
{
    for row in rows {
        if !is_session_quiet(row, shelf, at) {
            return false;
        }
    }
    true
}

/// Whether a group has no reservation, or its session is open. The session's row is looked for from
/// this place on.
fn is_group_quiet(row: &SessionGroup, sessions: &[Session], place: &mut usize) -> bool
    requires { AreAscending session_before sessions.now }
    ensures { result ≡ is_group_quiet sessions.now row.now }
{
    row.reservation.is_none() || is_open(sessions, place, &row.session)
}

fn are_groups_quiet(rows: &[SessionGroup], sessions: &[Session]) -> bool
    requires { AreAscending session_before sessions.now }
    ensures { result ≡ are_groups_quiet sessions.now rows.now }
{
    let mut place = 0;
    for row in rows {
        if !is_group_quiet(row, sessions, &mut place) {
            return false;
        }
    }
    true
}

/// Whether a bucket hasn't ended, or nothing of it is available.
fn is_bucket_quiet(bucket: &Bucket, at: Moment) -> bool
    ensures { result ≡ is_bucket_quiet at bucket.now }
{
    at.seconds() < bucket.until().seconds() || bucket.available() == 0
}

fn are_buckets_quiet(buckets: &[Bucket], at: Moment) -> bool
    ensures { result ≡ are_buckets_quiet at buckets.now }
{
    buckets.iter().all(|bucket| is_bucket_quiet(bucket, at))
}

/// The same, where it may be marked that it is so.
pub(crate) fn are_groups_bound(rows: &[SessionGroup], sessions: &[Session], bound: bool) -> bool
    requires order { AreAscending session_before sessions.now }
    requires bound { bound ≡ true → are_groups_quiet sessions.now rows.now ≡ true }
    ensures { result ≡ are_groups_quiet sessions.now rows.now }
{
    if bound {
        return true;
    }
    are_groups_quiet(rows, sessions)
}
