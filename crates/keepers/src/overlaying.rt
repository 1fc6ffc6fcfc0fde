//! The rows of a change over an account's live rows: what is live after it.

ghost use Rattle.std.specs.Prelude.{◌≡◌, ◌++◌, ◌&&◌, ◌||◌, ◌==◌, List, filter, is_some, IfOk, OnOk};
ghost use Rattle.std.specs.List.{list_any};
ghost use Rattle.std.specs.List.Sorted.{IsPermutation};
ghost use Rattle.reserving.specs.Restored.{given};
ghost use Rattle.keepers.specs.Overlaying.{stays_bucket, stays_counter, stays_session};
ghost use Rattle.buckets.specs.Row.{BucketRow};
ghost use Rattle.keepers.specs.Overlaying.{stays_group, rows_over, IsAccountOf, IsGivenOver};

use crate::named_rows::{NamedRows, copy_of_group};
use crate::places::{has_bucket, has_group, has_session, has_session_near};
use crate::row_copies::sessions_of;
use buckets::{Bucket, Purse};
use reserving::{Counter, GivenRows, Session, SessionGroup, SessionState, StoredAccount};
use std::alloc::{AllocError, Global};

/// Sorts buckets by the order of their use: by end, and those of one end by number.
fn sort_by_use(buckets: &mut Vec<Bucket>)
    ensures { IsPermutation buckets.old.items buckets.new.items }
{
    buckets.sort_unstable_by(|a, b| {
        a.until().cmp(&b.until()).then(a.number().cmp(&b.number()))
    });
}

/// The purse of these buckets.
fn purse_of(alloc: Global, buckets: Vec<Bucket>) -> Result<Purse, AllocError>
    ensures { IfOk result (λ purse. IsPermutation buckets.items purse) }
{
    let mut buckets = buckets;
    sort_by_use(&mut buckets);
    Purse::from_buckets(alloc, buckets)?.ok_or(AllocError)
}

/// The account of these rows, which are refused as if there were no room for them where they are
/// none of an account. The order in which sessions and groups come changes nothing.
fn account_of(alloc: Global, rows: GivenRows) -> Result<StoredAccount, AllocError>
    ensures account { IfOk result (IsAccountOf (given rows)) }
    ensures reordered { IfOk result (λ v. (sessions : List Session) (groups : List SessionGroup) →
        IsPermutation sessions rows.sessions.items → IsPermutation groups rows.groups.items →
        IsAccountOf (record (given rows) { groups = groups; sessions = sessions }) v) }
{
    let Some(account) = StoredAccount::from_rows(alloc, rows) else {
        return Err(AllocError);
    };
    Ok(account)
}

/// A new account of the rows of a change.
pub(crate) fn rows_alone(alloc: Global, named: NamedRows) -> Result<StoredAccount, AllocError>
    ensures { IfOk result (IsAccountOf named) }
{
    let NamedRows {
        as_of,
        barred,
        next_bucket,
        next_charge,
        buckets,
        counters,
        sessions,
        groups,
    } = named;
    let rows = GivenRows {
        as_of,
        barred,
        purse: purse_of(alloc, buckets)?,
        counters,
        sessions,
        groups,
        next_bucket,
        next_charge,
    };
    account_of(alloc, rows)
}

/// The rows of a change, and in the place of its buckets all that are live after it.
pub(crate) fn given_over(
    alloc: Global,
    named: NamedRows,
    live: &Purse,
) -> Result<GivenRows, AllocError>
    ensures { IfOk result (IsGivenOver named live.now) }
{
    let NamedRows {
        as_of,
        barred,
        next_bucket,
        next_charge,
        buckets,
        counters,
        sessions,
        groups,
    } = named;
    Ok(GivenRows {
        as_of,
        barred,
        purse: purse_of(alloc, buckets_over(buckets, live)?)?,
        counters,
        sessions,
        groups,
        next_bucket,
        next_charge,
    })
}

/// The rows of a change, with those that stay beside them of the groups that were left and of the
/// live rows. The buckets are all there.
pub(crate) fn rows_over(
    alloc: Global,
    rows: GivenRows,
    back: &[SessionGroup],
    live: &StoredAccount,
) -> Result<StoredAccount, AllocError>
    ensures { IfOk result (λ v. (buckets : List BucketRow) →
        IsPermutation (filter (stays_bucket buckets) live.now.buckets ++ buckets) rows.purse →
        IsAccountOf (rows_over (record (given rows) { buckets = buckets }) back.now live.now) v) }
{
    let GivenRows {
        as_of,
        barred,
        purse,
        counters,
        sessions,
        groups,
        next_bucket,
        next_charge,
    } = rows;
    let counts = (sessions.len(), groups.len());
    let mut sessions = sessions_over(alloc, sessions, live.sessions())?;
    let mut groups = groups_over(alloc, groups, &sessions, back, live.groups())?;
    place_sessions(&mut sessions, counts.0)?;
    place_groups(&mut groups, counts.1)?;
    let rows = GivenRows {
        as_of,
        barred,
        purse,
        counters: counters_over(alloc, counters, live.counters())?,
        sessions,
        groups,
        next_bucket,
        next_charge,
    };
    account_of(alloc, rows)
}

/// Whether a bucket stays beside those that are named: it isn't dead, and isn't named.
fn stays_bucket(named: &[Bucket], row: &Bucket) -> bool
    ensures { result ≡ stays_bucket named.now row.now }
{
    !row.is_dead() && !has_bucket(named, row.number())
}

fn any_stays(named: &[Bucket], live: &[Bucket]) -> bool
    ensures { result ≡ list_any (stays_bucket named.now) live.now }
{
    live.iter().any(|row| stays_bucket(named, row))
}

/// Those of the buckets that stay, and the ones that are named. Where none stays, nothing is
/// copied.
fn buckets_over(mut named: Vec<Bucket>, live: &Purse) -> Result<Vec<Bucket>, AllocError>
    ensures { IfOk result (λ rows. rows.items ≡
        filter (stays_bucket named.items) live.now ++ named.items) }
{
    if !any_stays(&named, live.buckets()) {
        return Ok(named);
    }
    let mut rows = live.to_vec()?;
    rows.retain(|row| stays_bucket(&named, row));
    rows.append(&mut named)?;
    Ok(rows)
}

/// Whether a counter of the group is among these.
fn counts_group(counters: &[Counter], group: u32) -> bool
    ensures { result ≡ list_any (λ x. x.group == group) counters.now }
{
    counters.iter().any(|counter| counter.group == group)
}

/// The counters of groups of which none is named, and the ones that are named.
fn counters_over(
    alloc: Global,
    mut named: Vec<Counter>,
    live: &[Counter],
) -> Result<Vec<Counter>, AllocError>
    ensures { IfOk result (λ rows. rows.items ≡
        filter (stays_counter named.items) live.now ++ named.items) }
{
    let mut rows = Vec::from_slice(alloc, live)?;
    rows.retain(|row| !counts_group(&named, row.group));
    rows.append(&mut named)?;
    Ok(rows)
}

/// Those of the sessions that are open and aren't named, and the ones that are named.
fn sessions_over(
    alloc: Global,
    mut named: Vec<Session>,
    live: &[Session],
) -> Result<Vec<Session>, AllocError>
    ensures { IfOk result (λ rows. rows.items ≡
        filter (stays_session named.items) live.now ++ named.items) }
{
    let mut rows = sessions_of(alloc, live)?;
    rows.retain(|row| row.state == SessionState::Open && !has_session(&named, &row.id));
    rows.append(&mut named)?;
    Ok(rows)
}

/// Whether a group's row stays beside those that are named: it isn't named, and has a reservation
/// or is of one of these sessions. The session's row is looked for from this place on.
fn stays_group(
    named: &[SessionGroup],
    sessions: &[Session],
    place: &mut usize,
    row: &SessionGroup,
) -> bool
    ensures { result ≡ stays_group named.now sessions.now row.now }
{
    !has_group(named, &row.session, row.group)
        && (row.reservation.is_some() || has_session_near(sessions, place, &row.session))
}

/// Those of the groups that stay.
fn staying(
    alloc: Global,
    named: &[SessionGroup],
    sessions: &[Session],
    groups: &[SessionGroup],
) -> Result<Vec<SessionGroup>, AllocError>
    ensures { IfOk result (λ rows. rows.items ≡
        filter (stays_group named.now sessions.now) groups.now) }
{
    let mut rows = Vec::with_capacity(alloc, groups.len())?;
    let mut place = 0;
    for row in groups {
        if stays_group(named, sessions, &mut place, row) {
            rows.push(copy_of_group(row)?)?;
        }
    }
    Ok(rows)
}

/// Those of the groups that stay, of the ones that were left and of the live ones, and the ones
/// that are named.
fn groups_over(
    alloc: Global,
    mut named: Vec<SessionGroup>,
    sessions: &[Session],
    back: &[SessionGroup],
    live: &[SessionGroup],
) -> Result<Vec<SessionGroup>, AllocError>
    ensures { IfOk result (λ rows. rows.items ≡
        (filter (stays_group named.items sessions.now) back.now
        ++ filter (stays_group named.items sessions.now) live.now) ++ named.items) }
{
    let mut rows = staying(alloc, &named, sessions, back)?;
    let mut others = staying(alloc, &named, sessions, live)?;
    rows.append(&mut others)?;
    rows.append(&mut named)?;
    Ok(rows)
}

/// The most rows that are put in their places one by one: each moves those behind it.
const FEW: usize = 16;

/// Moves the last row to a place among the others.
fn move_last<T: Drop>(rows: &mut Vec<T>, place: usize) -> Result<(), AllocError>
    ensures { OnOk result (IsPermutation rows.old.items rows.new.items) }
{
    let Some(row) = rows.pop() else {
        return Ok(());
    };
    let place = place.min(rows.len());
    rows.insert(place, row)?;
    Ok(())
}

/// Where the last session would be among the first ones, which are in order.
fn session_place(rows: &[Session], first: usize) -> usize {
    let Some(row) = rows.last() else {
        return 0;
    };
    let first = first.min(rows.len());
    match rows[..first].binary_search_by(|other| other.id.cmp(&row.id)) {
        Ok(place) | Err(place) => place,
    }
}

/// Moves a few sessions that are behind others in order each to its place.
fn place_sessions(rows: &mut Vec<Session>, count: usize) -> Result<(), AllocError>
    ensures { OnOk result (IsPermutation rows.old.items rows.new.items) }
{
    if FEW < count {
        return Ok(());
    }
    let first = rows.len().saturating_sub(count);
    for turn in 0..count {
        let place = session_place(rows, first.saturating_add(turn));
        move_last(rows, place)?;
    }
    Ok(())
}

/// Where the last group would be among the first ones, which are in order.
fn group_place(rows: &[SessionGroup], first: usize) -> usize {
    let Some(row) = rows.last() else {
        return 0;
    };
    let first = first.min(rows.len());
    match rows[..first].binary_search_by(|other| {
        other
            .session
            .cmp(&row.session)
            .then(other.group.cmp(&row.group))
    }) {
        Ok(place) | Err(place) => place,
    }
}

/// Moves a few groups that are behind others in order each to its place.
fn place_groups(rows: &mut Vec<SessionGroup>, count: usize) -> Result<(), AllocError>
    ensures { OnOk result (IsPermutation rows.old.items rows.new.items) }
{
    if FEW < count {
        return Ok(());
    }
    let first = rows.len().saturating_sub(count);
    for turn in 0..count {
        let place = group_place(rows, first.saturating_add(turn));
        move_last(rows, place)?;
    }
    Ok(())
}
