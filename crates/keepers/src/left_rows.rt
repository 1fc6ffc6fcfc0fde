//! Rows that can't change any more: which of the live ones leave, and which stay where they were
//! left.

ghost use Rattle.std.specs.List.{list_any};
ghost use Rattle.std.specs.Prelude.{◌≡◌, false, IsOk, filter, IfOk, OnOk};
ghost use Rattle.keepers.specs.Parts.{leaves_bucket, leaves_counter, leaves_session, leaves_group};
ghost use Rattle.keepers.specs.Named.{is_named, AreLeftBuckets, AreLeftCounters, AreLeftGroups};
ghost use Rattle.keepers.specs.Inside.{AreSameRows, HasRoom};
ghost use Rattle.keepers.specs.Replacing.{IsLeaving, IsAppended, AreKnown, IsFiltered};

use crate::known::{Known, any_group_named, any_named, any_numbered, any_of_cycles};
use crate::named_rows::{copy_of_group, copy_of_session};
use crate::places::{has_bucket, has_counter, has_group, has_session, has_session_near};
use buckets::Bucket;
use identifiers::SessionId;
use reserving::{Counter, Session, SessionGroup, SessionState, StoredAccount};
use std::alloc::{AllocError, Global};
use std::collections::HashSet;

/// Rows that can't change any more.
#[derive(Drop)]
pub(crate) struct LeftStore {
    pub(crate) buckets: Vec<Bucket>,
    pub(crate) counters: Vec<Counter>,
    pub(crate) sessions: Vec<Session>,
    pub(crate) groups: Vec<SessionGroup>,
}

pub(crate) fn leaving_rows(
    alloc: Global,
    live: &StoredAccount,
    after: &StoredAccount,
) -> Result<LeftStore, AllocError>
    ensures { IfOk result (IsLeaving after.now live.now) }
{
    Ok(LeftStore {
        buckets: leaving_buckets(live, after)?,
        counters: leaving_counters(alloc, live, after)?,
        sessions: leaving_sessions(alloc, live.sessions(), after)?,
        groups: leaving_groups(alloc, live.groups(), after)?,
    })
}

/// Makes room for these rows.
pub(crate) fn make_room(left: &mut LeftStore, rows: &LeftStore) -> Result<(), AllocError>
    ensures same { AreSameRows left.old left.new }
    ensures room { OnOk result (HasRoom left.new rows.now) }
{
    left.buckets.reserve(rows.buckets.len())?;
    left.counters.reserve(rows.counters.len())?;
    left.sessions.reserve(rows.sessions.len())?;
    left.groups.reserve(rows.groups.len())?;
    Ok(())
}

/// Puts these rows behind, for which there is room.
pub(crate) fn append(left: &mut LeftStore, mut rows: LeftStore) -> Result<(), AllocError>
    requires { HasRoom left.old rows }
    ensures ok { IsOk result }
    ensures appended { IsAppended left.old rows left.new }
{
    left.buckets.append(&mut rows.buckets)?;
    left.counters.append(&mut rows.counters)?;
    left.sessions.append(&mut rows.sessions)?;
    left.groups.append(&mut rows.groups)?;
    Ok(())
}

/// Lets what there are rows of again go.
pub(crate) fn keep(left: &mut LeftStore, known: &Known, after: &StoredAccount)
    requires { AreKnown known.now left.old }
    ensures { IsFiltered after.now left.old left.new }
{
    keep_buckets(&mut left.buckets, &known.numbers, after);
    keep_counters(&mut left.counters, &known.cycles, after);
    if any_named(&known.names, after.sessions()) {
        filter_sessions(&mut left.sessions, after);
        filter_groups(&mut left.groups, after);
        return;
    }
    keep_groups(&mut left.groups, &known.names, after);
}

fn leaving_buckets(live: &StoredAccount, after: &StoredAccount) -> Result<Vec<Bucket>, AllocError>
    ensures { IfOk result (λ rows. rows.items ≡ filter (leaves_bucket after.now) live.now.buckets) }
{
    let mut rows = live.purse().to_vec()?;
    rows.retain(|row| row.is_dead() && !has_bucket(after.purse().buckets(), row.number()));
    Ok(rows)
}

fn leaving_counters(
    alloc: Global,
    live: &StoredAccount,
    after: &StoredAccount,
) -> Result<Vec<Counter>, AllocError>
    ensures { IfOk result (λ rows. rows.items ≡
        filter (leaves_counter after.now) live.now.counters) }
{
    let mut rows = Vec::from_slice(alloc, live.counters())?;
    rows.retain(|row| !has_counter(after.counters(), row.group, row.cycle));
    Ok(rows)
}

/// Whether a session's row leaves the live ones: it isn't open, and has no row after the change.
pub(crate) fn leaves_session(after: &StoredAccount, row: &Session) -> bool
    ensures { result ≡ leaves_session after.now row.now }
{
    row.state != SessionState::Open && !after.has_session(&row.id)
}

fn leaving_sessions(
    alloc: Global,
    live: &[Session],
    after: &StoredAccount,
) -> Result<Vec<Session>, AllocError>
    ensures { IfOk result (λ rows. rows.items ≡ filter (leaves_session after.now) live.now) }
{
    let mut rows = Vec::new(alloc);
    for row in live {
        if leaves_session(after, row) {
            rows.push(copy_of_session(row)?)?;
        }
    }
    Ok(rows)
}

/// Whether a group's row leaves the live ones: it holds nothing, and neither it nor its session has
/// a row after the change. The session's row is looked for from this place on.
fn leaves_group(after: &StoredAccount, place: &mut usize, row: &SessionGroup) -> bool
    ensures { result ≡ leaves_group after.now row.now }
{
    row.reservation.is_none()
        && (!has_session_near(after.sessions(), place, &row.session)
            && !has_group(after.groups(), &row.session, row.group))
}

fn leaving_groups(
    alloc: Global,
    live: &[SessionGroup],
    after: &StoredAccount,
) -> Result<Vec<SessionGroup>, AllocError>
    ensures { IfOk result (λ rows. rows.items ≡ filter (leaves_group after.now) live.now) }
{
    let mut rows = Vec::new(alloc);
    let mut place = 0;
    for row in live {
        if leaves_group(after, &mut place, row) {
            rows.push(copy_of_group(row)?)?;
        }
    }
    Ok(rows)
}

fn keep_buckets(rows: &mut Vec<Bucket>, numbers: &HashSet<u32>, after: &StoredAccount)
    requires { AreLeftBuckets numbers.now rows.old.items }
    ensures { rows.new.items ≡ filter (leaves_bucket after.now) rows.old.items }
{
    if !any_numbered(numbers, after.purse().buckets()) {
        return;
    }
    rows.retain(|row| row.is_dead() && !has_bucket(after.purse().buckets(), row.number()));
}

fn keep_counters(rows: &mut Vec<Counter>, cycles: &HashSet<u32>, after: &StoredAccount)
    requires { AreLeftCounters cycles.now rows.old.items }
    ensures { rows.new.items ≡ filter (leaves_counter after.now) rows.old.items }
{
    if !any_of_cycles(cycles, after.counters()) {
        return;
    }
    rows.retain(|row| !has_counter(after.counters(), row.group, row.cycle));
}

fn filter_sessions(rows: &mut Vec<Session>, after: &StoredAccount)
    ensures { rows.new.items ≡ filter (leaves_session after.now) rows.old.items }
{
    rows.retain(|row| leaves_session(after, row));
}

fn filter_groups(rows: &mut Vec<SessionGroup>, after: &StoredAccount)
    ensures { rows.new.items ≡ filter (leaves_group after.now) rows.old.items }
{
    rows.retain(|row| {
        row.reservation.is_none()
            && (!has_session(after.sessions(), &row.session)
                && !has_group(after.groups(), &row.session, row.group))
    });
}

/// The same, where none of the sessions is known.
fn keep_groups(rows: &mut Vec<SessionGroup>, names: &HashSet<SessionId>, after: &StoredAccount)
    requires left { AreLeftGroups names.now rows.old.items }
    requires unnamed { list_any (λ r. is_named names.now r.id) after.now.sessions ≡ false }
    ensures { rows.new.items ≡ filter (leaves_group after.now) rows.old.items }
{
    if !any_group_named(names, after.sessions(), after.groups()) {
        return;
    }
    filter_groups(rows, after);
}
