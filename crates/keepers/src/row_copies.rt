//! Copies of an account's rows, those that were left before the live ones: all of a kind, and the
//! buckets that can't be used any more.

ghost use Rattle.std.specs.List.Sorted.{IsNonDecreasingBy, IsPermutation};
ghost use Rattle.std.specs.Prelude.{◌≡◌, ◌++◌, filter, IfOk, OnOk};
ghost use Rattle.reserving.specs.Left.{is_dead};

use buckets::Bucket;
use reserving::{Counter, Session, SessionGroup, StoredAccount};
use std::alloc::{AllocError, Global};

pub(crate) fn all_buckets(
    left: &Vec<Bucket>,
    live: &StoredAccount,
) -> Result<Vec<Bucket>, AllocError>
    ensures { IfOk result (λ rows. rows.items ≡ left.now.items ++ live.now.buckets) }
{
    let mut rows = copy_of_buckets(left)?;
    rows.append(&mut live.purse().to_vec()?)?;
    Ok(rows)
}

pub(crate) fn all_counters(
    alloc: Global,
    left: &Vec<Counter>,
    live: &StoredAccount,
) -> Result<Vec<Counter>, AllocError>
    ensures { IfOk result (λ rows. rows.items ≡ left.now.items ++ live.now.counters) }
{
    let mut rows = Vec::from_slice(alloc, left)?;
    rows.extend_from_slice(live.counters())?;
    Ok(rows)
}

pub(crate) fn all_sessions(
    alloc: Global,
    left: &Vec<Session>,
    live: &StoredAccount,
) -> Result<Vec<Session>, AllocError>
    ensures { IfOk result (λ rows. rows.items ≡ left.now.items ++ live.now.sessions) }
{
    let mut rows = copy_of_sessions(left)?;
    rows.append(&mut sessions_of(alloc, live.sessions())?)?;
    Ok(rows)
}

pub(crate) fn all_groups(
    alloc: Global,
    left: &Vec<SessionGroup>,
    live: &StoredAccount,
) -> Result<Vec<SessionGroup>, AllocError>
    ensures { IfOk result (λ rows. rows.items ≡ left.now.items ++ live.now.groups) }
{
    let mut rows = copy_of_groups(left)?;
    rows.append(&mut groups_of(alloc, live.groups())?)?;
    Ok(rows)
}

/// The buckets among both that can't be used any more, in the order of their numbers.
pub(crate) fn dead_rows(left: &Vec<Bucket>, live: &StoredAccount) -> Result<Vec<Bucket>, AllocError>
    ensures same { IfOk result (λ rows.
        IsPermutation (filter is_dead (left.now.items ++ live.now.buckets)) rows.items) }
    ensures order { IfOk result (λ rows. IsNonDecreasingBy (λ b. b.number) rows.items) }
{
    let mut rows = dead_among(left, live)?;
    sort_by_number(&mut rows)?;
    Ok(rows)
}

fn dead_among(left: &Vec<Bucket>, live: &StoredAccount) -> Result<Vec<Bucket>, AllocError>
    ensures { IfOk result (λ rows. rows.items ≡
        filter is_dead (left.now.items ++ live.now.buckets)) }
{
    let mut rows = copy_of_buckets(left)?;
    rows.append(&mut live.purse().to_vec()?)?;
    rows.retain(|row| row.is_dead());
    Ok(rows)
}

fn sort_by_number(rows: &mut Vec<Bucket>) -> Result<(), AllocError>
    ensures same { IsPermutation rows.old.items rows.new.items }
    ensures order { OnOk result (IsNonDecreasingBy (λ b. b.number) rows.new.items) }
{
    rows.sort_by_key(|row| row.number())?;
    Ok(())
}

fn copy_of_buckets(rows: &Vec<Bucket>) -> Result<Vec<Bucket>, AllocError>
    ensures { IfOk result (λ copy. copy.items ≡ rows.now.items) }
{
    rows.clone()
}

fn copy_of_sessions(rows: &Vec<Session>) -> Result<Vec<Session>, AllocError>
    ensures { IfOk result (λ copy. copy.items ≡ rows.now.items) }
{
    rows.clone()
}

fn copy_of_groups(rows: &Vec<SessionGroup>) -> Result<Vec<SessionGroup>, AllocError>
    ensures { IfOk result (λ copy. copy.items ≡ rows.now.items) }
{
    rows.clone()
}

pub(crate) fn sessions_of(alloc: Global, rows: &[Session]) -> Result<Vec<Session>, AllocError>
    ensures { IfOk result (λ copy. copy.items ≡ rows.now) }
{
    rows.to_vec(alloc)
}

fn groups_of(alloc: Global, rows: &[SessionGroup]) -> Result<Vec<SessionGroup>, AllocError>
    ensures { IfOk result (λ copy. copy.items ≡ rows.now) }
{
    rows.to_vec(alloc)
}
