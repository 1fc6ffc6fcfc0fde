//! The rows of a change over those that a keeper keeps.

ghost use Rattle.std.specs.Prelude.{◌≡◌, ◌∷◌, [], filter, is_some, map, not, IfOk};
ghost use Rattle.std.specs.Prelude.{OnOk};
ghost use Rattle.std.specs.List.{list_all};
ghost use Rattle.reserving.specs.Left.{is_dead};
ghost use Rattle.reserving.specs.Sessions.{is_open, session_in};
ghost use Rattle.sql_keeper.specs.KeptRows.{AreReplaced, AreWithBuckets, AreWithGroups};
ghost use Rattle.sql_keeper.specs.KeptRows.{AreWithSessions, IsPutIn, bucket_over, buckets_over};
ghost use Rattle.sql_keeper.specs.KeptRows.{group_over, groups_over, is_known, is_new_bucket};
ghost use Rattle.sql_keeper.specs.KeptRows.{is_new_group, is_new_session, is_unknown_in};
ghost use Rattle.sql_keeper.specs.KeptRows.{session_over, sessions_over, stays_bucket};
ghost use Rattle.sql_keeper.specs.KeptRows.{stays_session};

use crate::among::{bucket_among, group_among, has_bucket, has_group, has_session, session_among};
use crate::live_rows::{LiveRows, purse_of};
use crate::seen::{SeenAccount, is_open, is_unknown_in};
use buckets::{Bucket, Purse};
use identifiers::{AccountNumber, SessionId};
use keepers::{Change, NamedRows};
use reserving::{Session, SessionGroup};
use sql_tables::ReadFault;
use std::alloc::{AllocError, Global};

// ---- what stays

/// Whether a bucket stays: it isn't named, or isn't dead as it is named.
fn stays_bucket(named: &[Bucket], row: &Bucket) -> bool
    ensures { result ≡ stays_bucket named.now row.now }
{
    match bucket_among(named, row.number()) {
        None => true,
        Some(new) => !new.is_dead(),
    }
}

/// Whether a session stays: it isn't named, or is open as it is named.
fn stays_session(named: &[Session], id: &SessionId) -> bool
    ensures { result ≡ stays_session named.now id.now }
{
    match session_among(named, id) {
        None => true,
        Some(new) => is_open(new.state),
    }
}

/// Takes out the buckets that don't stay.
fn keep_buckets(rows: &mut Vec<Bucket>, named: &[Bucket])
    ensures { rows.new.items ≡ filter (stays_bucket named.now) rows.old.items }
{
    rows.retain(|row| stays_bucket(named, row));
}

/// Takes out the sessions that don't stay.
fn keep_sessions(rows: &mut Vec<Session>, named: &[Session])
    ensures { rows.new.items ≡ filter (λ x. stays_session named.now x.id) rows.old.items }
{
    rows.retain(|row| stays_session(named, &row.id));
}

/// Takes out what sessions that don't stay have of rating groups.
fn keep_groups(rows: &mut Vec<SessionGroup>, named: &[Session])
    ensures { rows.new.items ≡ filter (λ x. stays_session named.now x.session) rows.old.items }
{
    rows.retain(|row| stays_session(named, &row.session));
}

// ---- in the places

fn copy_of_group(row: &SessionGroup) -> Result<SessionGroup, AllocError>
    ensures { IfOk result (λ copy. copy ≡ row.now) }
{
    row.clone()
}

/// Puts the bucket that is named under its number in the place of one.
fn put_bucket(row: &mut Bucket, named: &[Bucket]) -> Result<(), AllocError>
    ensures { OnOk result (row.new ≡ bucket_over named.now row.old) }
{
    if let Some(new) = bucket_among(named, row.number()) {
        *row = new.clone()?;
    }
    Ok(())
}

/// Puts the row that is named of a session in the place of one.
fn put_session(row: &mut Session, named: &[Session]) -> Result<(), AllocError>
    ensures { OnOk result (row.new ≡ session_over named.now row.old) }
{
    if let Some(new) = session_among(named, &row.id) {
        *row = new.clone()?;
    }
    Ok(())
}

/// Puts what is named of a session's rating group in the place of what it has.
fn put_group(row: &mut SessionGroup, named: &[SessionGroup]) -> Result<(), AllocError>
    ensures { OnOk result (row.new ≡ group_over named.now row.old) }
{
    if let Some(new) = group_among(named, &row.session, row.group) {
        *row = copy_of_group(new)?;
    }
    Ok(())
}

fn put_buckets(rows: &mut Vec<Bucket>, named: &[Bucket]) -> Result<(), AllocError>
    ensures { OnOk result (rows.new.items ≡ map (bucket_over named.now) rows.old.items) }
{
    for row in rows.iter_mut() {
        put_bucket(row, named)?;
    }
    Ok(())
}

fn put_sessions(rows: &mut Vec<Session>, named: &[Session]) -> Result<(), AllocError>
    ensures { OnOk result (rows.new.items ≡ map (session_over named.now) rows.old.items) }
{
    for row in rows.iter_mut() {
        put_session(row, named)?;
    }
    Ok(())
}

fn put_groups(rows: &mut Vec<SessionGroup>, named: &[SessionGroup]) -> Result<(), AllocError>
    ensures { OnOk result (rows.new.items ≡ map (group_over named.now) rows.old.items) }
{
    for row in rows.iter_mut() {
        put_group(row, named)?;
    }
    Ok(())
}

// ---- new rows

/// Puts a row in at a place, or behind all others where there are fewer.
fn insert_at<T: Drop>(rows: &mut Vec<T>, place: usize, row: T) -> Result<(), AllocError>
    ensures { OnOk result (IsPutIn row rows.old.items rows.new.items) }
{
    let place = place.min(rows.len());
    rows.insert(place, row)?;
    Ok(())
}

/// Where a bucket would be among others in the order of their use.
fn place_in_use(rows: &[Bucket], row: &Bucket) -> usize {
    match rows.binary_search_by(|other| {
        other
            .until()
            .cmp(&row.until())
            .then(other.number().cmp(&row.number()))
    }) {
        Ok(place) | Err(place) => place,
    }
}

/// Where a session would be among others in the order of their names.
fn place_of_session(rows: &[Session], row: &Session) -> usize {
    match rows.binary_search_by(|other| other.id.cmp(&row.id)) {
        Ok(place) | Err(place) => place,
    }
}

/// Where what a session has of a rating group would be among others in order.
fn place_of_group(rows: &[SessionGroup], row: &SessionGroup) -> usize {
    match rows.binary_search_by(|other| {
        other
            .session
            .cmp(&row.session)
            .then(other.group.cmp(&row.group))
    }) {
        Ok(place) | Err(place) => place,
    }
}

/// Whether a bucket that is named isn't dead, and is none of these.
fn is_new_bucket(rows: &Vec<Bucket>, row: &Bucket) -> bool
    ensures { result ≡ is_new_bucket rows.now.items row.now }
{
    !row.is_dead() && !has_bucket(rows, row.number())
}

/// Whether a session that is named is open, and is none of these.
fn is_new_session(rows: &Vec<Session>, row: &Session) -> bool
    ensures { result ≡ is_new_session rows.now.items row.now }
{
    is_open(row.state) && !has_session(rows, &row.id)
}

/// Whether what is named of a rating group is of one of these sessions, and none of these.
fn is_new_group(sessions: &Vec<Session>, rows: &Vec<SessionGroup>, row: &SessionGroup) -> bool
    ensures { result ≡ is_new_group sessions.now.items rows.now.items row.now }
{
    has_session(sessions, &row.session) && !has_group(rows, &row.session, row.group)
}

/// Puts a bucket in, if it is new.
fn add_bucket(rows: &mut Vec<Bucket>, row: &Bucket) -> Result<(), AllocError>
    ensures { OnOk result (AreWithBuckets rows.old.items
        (filter (λ b. not (is_dead b)) (row.now ∷ [])) rows.new.items) }
{
    if !is_new_bucket(rows, row) {
        return Ok(());
    }
    let place = place_in_use(rows, row);
    let copy = row.clone()?;
    insert_at(rows, place, copy)?;
    Ok(())
}

/// Puts a session in, if it is new.
fn add_session(rows: &mut Vec<Session>, row: &Session) -> Result<(), AllocError>
    ensures { OnOk result (AreWithSessions rows.old.items
        (filter (λ x. is_open x.state) (row.now ∷ [])) rows.new.items) }
{
    if !is_new_session(rows, row) {
        return Ok(());
    }
    let place = place_of_session(rows, row);
    let copy = row.clone()?;
    insert_at(rows, place, copy)?;
    Ok(())
}

/// Puts in what a session has of a rating group, if it is new and of one of these sessions.
fn add_group(
    rows: &mut Vec<SessionGroup>,
    sessions: &Vec<Session>,
    row: &SessionGroup,
) -> Result<(), AllocError>
    ensures { OnOk result (AreWithGroups rows.old.items
        (filter (λ x. is_some (session_in x.session sessions.now.items)) (row.now ∷ []))
        rows.new.items) }
{
    if !is_new_group(sessions, rows, row) {
        return Ok(());
    }
    let place = place_of_group(rows, row);
    let copy = copy_of_group(row)?;
    insert_at(rows, place, copy)?;
    Ok(())
}

/// Puts the buckets in that are new.
fn add_buckets(rows: &mut Vec<Bucket>, named: &[Bucket]) -> Result<(), AllocError>
    ensures { OnOk result (AreWithBuckets rows.old.items
        (filter (λ b. not (is_dead b)) named.now) rows.new.items) }
{
    for row in named {
        add_bucket(rows, row)?;
    }
    Ok(())
}

/// Puts the sessions in that are new.
fn add_sessions(rows: &mut Vec<Session>, named: &[Session]) -> Result<(), AllocError>
    ensures { OnOk result (AreWithSessions rows.old.items
        (filter (λ x. is_open x.state) named.now) rows.new.items) }
{
    for row in named {
        add_session(rows, row)?;
    }
    Ok(())
}

/// Puts in what these sessions have of rating groups that are new.
fn add_groups(
    rows: &mut Vec<SessionGroup>,
    sessions: &Vec<Session>,
    named: &[SessionGroup],
) -> Result<(), AllocError>
    ensures { OnOk result (AreWithGroups rows.old.items
        (filter (λ x. is_some (session_in x.session sessions.now.items)) named.now)
        rows.new.items) }
{
    for row in named {
        add_group(rows, sessions, row)?;
    }
    Ok(())
}

// ---- all of them

/// A purse with the buckets that a change names, without those that are dead.
fn purse_over(alloc: Global, purse: &Purse, change: &NamedRows) -> Result<Purse, ReadFault>
    ensures { IfOk result (AreWithBuckets (buckets_over change.now.buckets purse.now)
        (filter (λ b. not (is_dead b)) change.now.buckets)) }
{
    let named = change.buckets();
    let mut buckets = purse.to_vec()?;
    keep_buckets(&mut buckets, named);
    put_buckets(&mut buckets, named)?;
    add_buckets(&mut buckets, named)?;
    let purse = purse_of(alloc, buckets)?;
    Ok(purse)
}

/// Sessions as a change names them, without those that aren't open.
fn sessions_over(sessions: Vec<Session>, change: &NamedRows) -> Result<Vec<Session>, AllocError>
    ensures { IfOk result (λ rows. AreWithSessions
        (sessions_over change.now.sessions sessions.items)
        (filter (λ x. is_open x.state) change.now.sessions) rows.items) }
{
    let named = change.sessions();
    let mut rows = sessions;
    keep_sessions(&mut rows, named);
    put_sessions(&mut rows, named)?;
    add_sessions(&mut rows, named)?;
    Ok(rows)
}

/// What sessions have of rating groups as a change names it, where these are the sessions after it.
fn groups_over(
    groups: Vec<SessionGroup>,
    sessions: &Vec<Session>,
    change: &NamedRows,
) -> Result<Vec<SessionGroup>, AllocError>
    ensures { IfOk result (λ rows. AreWithGroups
        (groups_over change.now.sessions change.now.groups groups.items)
        (filter (λ x. is_some (session_in x.session sessions.now.items)) change.now.groups)
        rows.items) }
{
    let ended = change.sessions();
    let named = change.groups();
    let mut rows = groups;
    keep_groups(&mut rows, ended);
    put_groups(&mut rows, named)?;
    add_groups(&mut rows, sessions, named)?;
    Ok(rows)
}

/// Whether a session that is named is one of these, was seen to have no row, or isn't open.
fn is_known(
    sessions: &[Session],
    seen: &Option<SeenAccount>,
    account: &AccountNumber,
    row: &Session,
) -> bool
    ensures { result ≡ is_known (is_unknown_in seen.now account.now) sessions.now row.now }
{
    !is_open(row.state) || (has_session(sessions, &row.id) || is_unknown_in(seen, account, &row.id))
}

/// Whether each session that is named is so.
fn are_known(
    sessions: &[Session],
    seen: &Option<SeenAccount>,
    account: &AccountNumber,
    named: &[Session],
) -> bool
    ensures { result
        ≡ list_all (is_known (is_unknown_in seen.now account.now) sessions.now) named.now }
{
    named
        .iter()
        .all(|row| is_known(sessions, seen, account, row))
}

/// Whether each session that a change opens beside those that are kept was seen to have no row.
fn opens_unknown(rows: &LiveRows, seen: &Option<SeenAccount>, change: &Change) -> bool
    ensures { result ≡ list_all (is_known (is_unknown_in seen.now change.now.number)
        rows.now.sessions.items) change.now.rows.sessions }
{
    are_known(&rows.sessions, seen, &change.number, change.rows.sessions())
}

/// The rows that are kept, with those that a change names: each in the place of the one with its
/// key or among the others, without what can't change any more.
///
/// # Errors
/// `Rules` where a session is opened of which it wasn't seen that it has no row; lack of memory.
// rule: database-loads.keeps
pub(crate) fn rows_over(
    alloc: Global,
    rows: LiveRows,
    seen: &Option<SeenAccount>,
    change: &Change,
) -> Result<LiveRows, ReadFault>
    ensures { IfOk result
        (AreReplaced (is_unknown_in seen.now change.now.number) change.now.rows rows) }
{
    // For the prover alone: looking at the value makes known here what its type keeps.
    let _named = change.rows.as_of();
    if !opens_unknown(&rows, seen, change) {
        return Err(ReadFault::Rules);
    }
    let LiveRows {
        purse,
        sessions,
        groups,
    } = rows;
    let purse = purse_over(alloc, &purse, &change.rows)?;
    let sessions = sessions_over(sessions, &change.rows)?;
    let groups = groups_over(groups, &sessions, &change.rows)?;
    Ok(LiveRows {
        purse,
        sessions,
        groups,
    })
}
