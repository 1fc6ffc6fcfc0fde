//! The rows that a change names: those that differ from the ones that were loaded.

ghost use Rattle.std.specs.Prelude.{◌≡◌, IfOk, filter, not, option_copied};
ghost use Rattle.std.specs.List.{list_any};
ghost use Rattle.reserving.specs.Left.{differing};
ghost use Rattle.keepers.specs.Differing.{equal_bucket, equal_counter, equal_session, equal_group};
ghost use Rattle.keepers.specs.Differing.{named_rows, named_rows_of, is_changed};
ghost use Rattle.keepers.specs.Naming.{IsNamed};

use crate::differing::{
    any_group, equal_session, is_new_bucket, is_new_counter, is_new_group, is_new_session,
};
use buckets::Bucket;
use identifiers::SessionId;
use reserving::{Counter, EarlierRows, GivenRows, Session, SessionGroup, StoredAccount};
use std::alloc::{AllocError, Global};
use std::marker::Model;
use units::Moment;

/// What a change writes of an account: what is kept of it once, and each row that differs from
/// those that were loaded, once, in the order in which the account has them.
///
/// Contracts see a record of the rows.
#[derive(Drop)]
pub struct NamedRows {
    pub(crate) as_of: Moment,
    pub(crate) barred: bool,
    pub(crate) next_bucket: u64,
    pub(crate) next_charge: u64,
    pub(crate) buckets: Vec<Bucket>,
    pub(crate) counters: Vec<Counter>,
    pub(crate) sessions: Vec<Session>,
    pub(crate) groups: Vec<SessionGroup>,
}

impl Model for NamedRows {
    ghost use Rattle.reserving.specs.Stored.{StoredRows};
    ghost use Rattle.keepers.specs.Naming.{named_of, IsNamed};

    ghost Value = { StoredRows };

    ghost view = { named_of };

    ghost invariant = { λ r. IsNamed (named_of r) };
}

impl NamedRows {
    /// The rows that differ from all before.
    ///
    /// # Errors
    /// Out of memory.
    // rule: database-writes
    pub fn differing(
        alloc: Global,
        before: &EarlierRows,
        after: &StoredAccount,
    ) -> Result<NamedRows, AllocError>
        ensures { IfOk result (λ named. named ≡ named_rows before.now after.now) }
    {
        // For the prover alone: looking at the value makes known here what its type keeps.
        let _kept = after.as_of();
        Ok(NamedRows {
            as_of: after.as_of(),
            barred: after.is_barred(),
            next_bucket: after.next_bucket(),
            next_charge: after.next_charge(),
            buckets: new_buckets(alloc, before, after.purse().buckets())?,
            counters: new_counters(alloc, before, after.counters())?,
            sessions: new_sessions(alloc, before, after.sessions())?,
            groups: new_groups(alloc, before, after.groups())?,
        })
    }

    /// The rows of one session that differ from what they were, beside buckets and counters: no row
    /// of another session is looked at, and those of this one aren't copied.
    ///
    /// # Errors
    /// Out of memory.
    // rule: database-writes.quiet-at
    pub fn differing_of(
        alloc: Global,
        session: &SessionId,
        before: &EarlierRows,
        after: StoredAccount,
    ) -> Result<NamedRows, AllocError>
        ensures { IfOk result (λ named. named ≡ named_rows_of session.now before.now after) }
    {
        // For the prover alone: looking at the values makes known here what their types keep.
        let _before = before.rows();
        let _kept = after.as_of();
        let GivenRows {
            as_of,
            barred,
            purse,
            counters,
            sessions,
            groups,
            next_bucket,
            next_charge,
        } = after.into_own(session);
        Ok(NamedRows {
            as_of,
            barred,
            next_bucket,
            next_charge,
            buckets: new_buckets(alloc, before, purse.buckets())?,
            counters: new_counters(alloc, before, &counters)?,
            sessions: changed_sessions(before.session(session), sessions),
            groups: changed_groups(before.groups_of(session), groups),
        })
    }

    /// The moment of the account's last change.
    pub fn as_of(&self) -> Moment
        ensures value { result ≡ self.now.as_of }
        ensures named { IsNamed self.now }
    {
        self.as_of
    }

    /// Whether the account is barred (profile).
    pub fn is_barred(&self) -> bool
        ensures { result ≡ self.now.barred }
    {
        self.barred
    }

    /// The number of the account's next bucket.
    pub fn next_bucket(&self) -> u64
        ensures { result ≡ self.now.next_bucket }
    {
        self.next_bucket
    }

    /// The number of the account's next charge.
    pub fn next_charge(&self) -> u64
        ensures { result ≡ self.now.next_charge }
    {
        self.next_charge
    }

    /// The buckets that are named.
    pub fn buckets(&self) -> &[Bucket]
        ensures { result.now ≡ self.now.buckets }
    {
        self.buckets.as_slice()
    }

    /// The counters that are named.
    pub fn counters(&self) -> &[Counter]
        ensures { result.now ≡ self.now.counters }
    {
        self.counters.as_slice()
    }

    /// The sessions and recorded events that are named.
    pub fn sessions(&self) -> &[Session]
        ensures { result.now ≡ self.now.sessions }
    {
        self.sessions.as_slice()
    }

    /// What is named of what sessions have of rating groups.
    pub fn groups(&self) -> &[SessionGroup]
        ensures { result.now ≡ self.now.groups }
    {
        self.groups.as_slice()
    }
}

fn copy_of_bucket(row: &Bucket) -> Result<Bucket, AllocError>
    ensures { IfOk result (λ copy. copy ≡ row.now) }
{
    row.clone()
}

pub(crate) fn copy_of_session(row: &Session) -> Result<Session, AllocError>
    ensures { IfOk result (λ copy. copy ≡ row.now) }
{
    row.clone()
}

pub(crate) fn copy_of_group(row: &SessionGroup) -> Result<SessionGroup, AllocError>
    ensures { IfOk result (λ copy. copy ≡ row.now) }
{
    row.clone()
}

/// The buckets that differ from all before.
fn new_buckets(
    alloc: Global,
    before: &EarlierRows,
    rows: &[Bucket],
) -> Result<Vec<Bucket>, AllocError>
    ensures { IfOk result
        (λ new. new.items ≡ differing equal_bucket before.now.buckets rows.now) }
{
    let mut new = Vec::new(alloc);
    let mut cursor = 0;
    'rows: for row in rows {
        if is_new_bucket(before, &mut cursor, row) {
            new.push(copy_of_bucket(row)?)?;
        }
    }
    Ok(new)
}

/// The counters that differ from all before.
fn new_counters(
    alloc: Global,
    before: &EarlierRows,
    rows: &[Counter],
) -> Result<Vec<Counter>, AllocError>
    ensures { IfOk result
        (λ new. new.items ≡ differing equal_counter before.now.counters rows.now) }
{
    let mut new = Vec::new(alloc);
    let mut cursor = 0;
    'rows: for row in rows {
        if is_new_counter(before, &mut cursor, row) {
            new.push(*row)?;
        }
    }
    Ok(new)
}

/// The sessions that differ from all before.
fn new_sessions(
    alloc: Global,
    before: &EarlierRows,
    rows: &[Session],
) -> Result<Vec<Session>, AllocError>
    ensures { IfOk result
        (λ new. new.items ≡ differing equal_session before.now.sessions rows.now) }
{
    let mut new = Vec::new(alloc);
    let mut cursor = 0;
    'rows: for row in rows {
        if is_new_session(before, &mut cursor, row) {
            new.push(copy_of_session(row)?)?;
        }
    }
    Ok(new)
}

/// What sessions have of groups that differs from all before.
fn new_groups(
    alloc: Global,
    before: &EarlierRows,
    rows: &[SessionGroup],
) -> Result<Vec<SessionGroup>, AllocError>
    ensures { IfOk result
        (λ new. new.items ≡ differing equal_group before.now.groups rows.now) }
{
    let mut new = Vec::new(alloc);
    let mut cursor = 0;
    'rows: for row in rows {
        if is_new_group(before, &mut cursor, row) {
            new.push(copy_of_group(row)?)?;
        }
    }
    Ok(new)
}

/// Whether the row of a session differs from what it was.
fn is_changed(before: Option<&Session>, row: &Session) -> bool
    ensures { result ≡ is_changed (option_copied before.entry) row.now }
{
    match before {
        Some(old) => !equal_session(row, old),
        None => true,
    }
}

/// Of a session's rows those that differ from what it was.
fn changed_sessions(before: Option<&Session>, rows: Vec<Session>) -> Vec<Session>
    ensures { result.items ≡ filter (is_changed (option_copied before.entry)) rows.items }
{
    let mut rows = rows;
    rows.retain(|row| is_changed(before, row));
    rows
}

/// Whether what a session has of a group differs from all of these.
fn is_other_group(before: &[SessionGroup], row: &SessionGroup) -> bool
    ensures { result ≡ not (list_any (equal_group row.now) before.now) }
{
    !any_group(before, row)
}

/// What a session has of groups that differs from all that it had.
fn changed_groups(before: &[SessionGroup], rows: Vec<SessionGroup>) -> Vec<SessionGroup>
    ensures { result.items ≡ differing equal_group before.now rows.items }
{
    let mut rows = rows;
    rows.retain(|row| is_other_group(before, row));
    rows
}
