//! Rows that are written over those of an account.

ghost use Rattle.std.specs.Prelude.{◌≡◌, ◌==◌, ◌+◌, ◌*◌, ◌≤◌, ◌<◌, ◌&&◌, true, OnOk, OnErr};
ghost use Rattle.std.specs.Prelude.{length, vec_len, vec_capacity, option_copied};
ghost use Rattle.buckets.specs.Kinds.{most_in_bucket};
ghost use Rattle.buckets.specs.Spend.{Each};
ghost use Rattle.buckets.specs.Holding.{held_in};
ghost use Rattle.reserving.specs.Sessions.{held_by, is_session, is_of, is_counter};
ghost use Rattle.reserving.specs.Sessions.{session_before, group_before, counter_before};
ghost use Rattle.reserving.specs.Keyed.{put};
ghost use Rattle.reserving.specs.Rows.{AreAscending};
ghost use Rattle.reserving.specs.Changes.{reserved_in};
ghost use Rattle.reserving.specs.Restored.{given};
ghost use Rattle.reserving.specs.Left.{is_open_row};
ghost use Rattle.reserving.specs.Calm.{is_opened, is_group_quiet, are_groups_quiet};
ghost use Rattle.reserving.specs.Sessions.{session_in};
ghost use Rattle.std.specs.List.{list_all};
ghost use Rattle.reserving.specs.Stored.{IsStoredInOrder};
ghost use Rattle.reserving.specs.Written.{sessions_written, groups_written, counters_written};
ghost use Rattle.reserving.specs.Written.{rows_written, held_before, is_held_on, are_held_on};
ghost use Rattle.reserving.specs.Written.{is_writable};

use crate::kept_rows::KeptRows;
use crate::quiet::are_groups_bound;
use crate::restoring::{
    GivenRows, are_all_along, are_in_range, are_keys_ascending, held_of, hold_of, later,
};
use crate::searching::{group_row, seek_counter, seek_group, seek_session, session_row};
use crate::session::{Counter, Session, SessionGroup, SessionState};
use crate::stored::StoredAccount;
use buckets::Bucket;
use identifiers::SessionId;
use std::alloc::AllocError;

impl StoredAccount {
    /// Whether these rows can be written over the account's own: each is before the next, each
    /// number is in its range, no bucket is new or gone, and of each as much is reserved as is held
    /// of it from then on. They are an account's rows then. Rows that are named aren't compared
    /// with any other.
    // rule: database-writes.rows-written
    pub fn is_writable(&self, rows: &GivenRows) -> bool
        ensures value { result ≡ is_writable (given rows.now) self.now }
        ensures kept { result ≡ true → IsStoredInOrder (rows_written (given rows.now) self.now) }
    {
        // For the prover alone: looking at the value makes known here what its type keeps.
        let _sound = rows.purse.buckets();
        self.rows.admits(rows)
    }

    /// Writes these rows over the account's own: each in the place of the one with its key, or
    /// among them where it has none. The buckets are those given.
    ///
    /// # Errors
    /// A growth was refused. Then the account is unchanged.
    // rule: database-writes.rows-written
    pub fn write(&mut self, rows: GivenRows) -> Result<(), AllocError>
        requires { IsStoredInOrder (rows_written (given rows) self.old) }
        ensures ok { OnOk result (self.new ≡ rows_written (given rows) self.old) }
        ensures err { OnErr result (self.new ≡ self.old) }
    {
        let stays = self.stays_bound(&rows);
        self.rows.write(rows)?;
        let bound = self.rows.is_bound(stays);
        self.bound = bound;
        Ok(())
    }

    /// Whether it is marked that each reservation is of an open session, and it is so once these
    /// rows are written.
    fn stays_bound(&self, rows: &GivenRows) -> bool
        ensures { result ≡ true → are_groups_quiet
            (sessions_written (given rows.now).sessions self.now.sessions)
            (groups_written (given rows.now).groups self.now.groups) ≡ true }
    {
        let bound = self.bound;
        if bound && are_keys_ascending(rows) && self.rows.fits(rows) {
            return true;
        }
        false
    }
}

/// Whether a session's row is open, or has none among those before.
fn is_opened(row: &Session, before: &[Session]) -> bool
    requires { AreAscending session_before before.now }
    ensures { result ≡ is_opened before.now row.now }
{
    row.state == SessionState::Open || session_row(before, &row.id).is_none()
}

fn are_opened(named: &[Session], before: &[Session]) -> bool
    requires { AreAscending session_before before.now }
    ensures { result ≡ list_all (is_opened before.now) named.now }
{
    for row in named {
        if !is_opened(row, before) {
            return false;
        }
    }
    true
}

/// The row of a session among a few, in no order.
fn session_among<'a>(sessions: &'a [Session], id: &SessionId) -> Option<&'a Session>
    ensures { option_copied result ≡ session_in id.now sessions.now }
{
    sessions.iter().find(|row| row.id == *id)
}

/// Whether a session is open among a few rows.
fn is_open_among(sessions: &[Session], id: &SessionId) -> bool
    ensures { result ≡ is_open_row (session_in id.now sessions.now) }
{
    match session_among(sessions, id) {
        Some(row) => row.state == SessionState::Open,
        None => false,
    }
}

/// Whether a group has no reservation, or its session is open among a few rows.
fn is_group_among(row: &SessionGroup, sessions: &[Session]) -> bool
    ensures { result ≡ is_group_quiet sessions.now row.now }
{
    row.reservation.is_none() || is_open_among(sessions, &row.session)
}

fn are_groups_among(rows: &[SessionGroup], sessions: &[Session]) -> bool
    ensures { result ≡ are_groups_quiet sessions.now rows.now }
{
    rows.iter().all(|row| is_group_among(row, sessions))
}

impl KeptRows {
    ghost use Rattle.reserving.specs.Inside.{stored_of};

    /// Whether rows can be written over these.
    fn admits(&self, rows: &GivenRows) -> bool
        requires { IsStoredInOrder (stored_of self.now) }
        ensures { result ≡ is_writable (given rows.now) (stored_of self.now) }
    {
        are_keys_ascending(rows)
            && are_in_range(rows)
            && are_all_along(&rows.groups, rows.purse.buckets())
            && are_held_on(
                &rows.groups,
                &self.groups,
                self.purse.buckets(),
                rows.purse.buckets(),
            )
    }

    /// Whether each session that is named is open or new, and each reservation that is named is of
    /// an open one of them.
    fn fits(&self, rows: &GivenRows) -> bool
        requires { AreAscending session_before (stored_of self.now).sessions }
        ensures { result ≡ (list_all (is_opened (stored_of self.now).sessions)
            (given rows.now).sessions
            && are_groups_quiet (given rows.now).sessions (given rows.now).groups) }
    {
        are_opened(&rows.sessions, &self.sessions) && are_groups_among(&rows.groups, &rows.sessions)
    }

    /// Whether each reservation is of an open session, where it may be known that it is so.
    fn is_bound(&self, known: bool) -> bool
        requires order { AreAscending session_before (stored_of self.now).sessions }
        requires bound { known ≡ true →
            are_groups_quiet (stored_of self.now).sessions (stored_of self.now).groups ≡ true }
        ensures { result
            ≡ are_groups_quiet (stored_of self.now).sessions (stored_of self.now).groups }
    {
        are_groups_bound(&self.groups, &self.sessions, known)
    }

    /// Writes rows over these. At a fault nothing has changed.
    fn write(&mut self, rows: GivenRows) -> Result<(), AllocError>
        requires { IsStoredInOrder (stored_of self.old) }
        ensures ok { OnOk result
            (stored_of self.new ≡ rows_written (given rows) (stored_of self.old)) }
        ensures err { OnErr result (stored_of self.new ≡ stored_of self.old) }
    {
        self.counters.reserve(rows.counters.len())?;
        self.sessions.reserve(rows.sessions.len())?;
        self.groups.reserve(rows.groups.len())?;
        write_counters(&mut self.counters, rows.counters);
        write_sessions(&mut self.sessions, rows.sessions);
        write_groups(&mut self.groups, rows.groups);
        self.purse = rows.purse;
        self.as_of = rows.as_of;
        self.barred = rows.barred;
        self.next_bucket = rows.next_bucket;
        self.next_charge = rows.next_charge;
        Ok(())
    }
}

/// What the row under a group's key holds of a bucket.
fn held_under(rows: &[SessionGroup], group: &SessionGroup, bucket: &Bucket) -> u128
    requires order { AreAscending group_before rows.now }
    requires within { held_by (λ s. true) rows.now bucket.now ≤ most_in_bucket }
    ensures value { result
        ≡ held_in (reserved_in group.now.session group.now.group rows.now) bucket.now }
    ensures most { result ≤ most_in_bucket }
{
    match group_row(rows, &group.session, group.group) {
        Some(row) => held_of(bucket, row),
        None => 0,
    }
}

/// What the rows that are written over hold of a bucket.
fn held_before(named: &[SessionGroup], rows: &[SessionGroup], bucket: &Bucket) -> u128
    requires order { AreAscending group_before rows.now }
    requires within { held_by (λ s. true) rows.now bucket.now ≤ most_in_bucket }
    ensures value { result ≡ held_before named.now rows.now bucket.now }
    ensures most { result ≤ length named.now * most_in_bucket }
{
    let mut total = 0;
    for group in named {
        total += held_under(rows, group, bucket);
    }
    total
}

/// Whether of a bucket, of which so much was reserved, no more and no less is reserved than what is
/// held of it from now on.
fn goes_on(named: &[SessionGroup], rows: &[SessionGroup], reserved: u64, new: &Bucket) -> bool
    requires order { AreAscending group_before rows.now }
    requires held { held_by (λ s. true) rows.now new.now ≡ reserved }
    requires most { reserved ≤ most_in_bucket }
    ensures { result
        ≡ ((held_by (λ s. true) named.now new.now + reserved)
        == (new.now.reserved + held_before named.now rows.now new.now)) }
{
    let before = reserved as u128;
    let after = new.reserved() as u128 + held_before(named, rows, new);
    if after < before {
        return false;
    }
    hold_of(named, new, after - before)
}

/// The same of a bucket that stays in its place.
fn is_held_on(named: &[SessionGroup], rows: &[SessionGroup], old: &Bucket, new: &Bucket) -> bool
    requires order { AreAscending group_before rows.now }
    requires held { held_by (λ s. true) rows.now old.now ≡ old.now.reserved }
    ensures { result ≡ is_held_on named.now rows.now old.now new.now }
{
    old.number() == new.number() && goes_on(named, rows, old.reserved(), new)
}

/// Whether it is so of each bucket, and none is new or gone.
fn are_held_on(
    named: &[SessionGroup],
    rows: &[SessionGroup],
    old: &[Bucket],
    new: &[Bucket],
) -> bool
    requires order { AreAscending group_before rows.now }
    requires held { Each (λ b. held_by (λ s. true) rows.now b ≡ b.reserved) old.now }
    ensures { result ≡ are_held_on named.now rows.now old.now new.now }
{
    let mut left = new;
    'buckets: for bucket in old {
        let Some(first) = left.first() else {
            return false;
        };
        if !is_held_on(named, rows, bucket, first) {
            return false;
        }
        left = later(left);
    }
    left.is_empty()
}

/// Writes a session, for which there is room.
fn write_session(rows: &mut Vec<Session>, row: Session)
    requires room { vec_len rows.old < vec_capacity rows.old }
    requires order { AreAscending session_before rows.old.items }
    ensures items { rows.new.items ≡ put session_before (is_session row.id) row rows.old.items }
    ensures len { vec_len rows.new ≤ vec_len rows.old + 1 }
    ensures room { vec_capacity rows.old ≤ vec_capacity rows.new }
{
    match seek_session(rows, &row.id) {
        Ok(place) => {
            let old = &mut rows[place];
            *old = row;
        }
        Err(place) => {
            let Ok(()) = rows.insert(place, row) else {
                unreachable!();
            };
        }
    }
}

/// Writes sessions, for which there is room.
fn write_sessions(rows: &mut Vec<Session>, named: Vec<Session>)
    requires room { vec_len rows.old + vec_len named ≤ vec_capacity rows.old }
    requires order { AreAscending session_before rows.old.items }
    ensures { rows.new.items ≡ sessions_written named.items rows.old.items }
{
    for row in named {
        write_session(rows, row);
    }
}

/// Writes what a session has of a group, for which there is room.
fn write_group(rows: &mut Vec<SessionGroup>, row: SessionGroup)
    requires room { vec_len rows.old < vec_capacity rows.old }
    requires order { AreAscending group_before rows.old.items }
    ensures items { rows.new.items
        ≡ put group_before (is_of row.session row.group) row rows.old.items }
    ensures len { vec_len rows.new ≤ vec_len rows.old + 1 }
    ensures room { vec_capacity rows.old ≤ vec_capacity rows.new }
{
    match seek_group(rows, &row.session, row.group) {
        Ok(place) => {
            let old = &mut rows[place];
            *old = row;
        }
        Err(place) => {
            let Ok(()) = rows.insert(place, row) else {
                unreachable!();
            };
        }
    }
}

/// Writes what sessions have of groups, for which there is room.
fn write_groups(rows: &mut Vec<SessionGroup>, named: Vec<SessionGroup>)
    requires room { vec_len rows.old + vec_len named ≤ vec_capacity rows.old }
    requires order { AreAscending group_before rows.old.items }
    ensures { rows.new.items ≡ groups_written named.items rows.old.items }
{
    for row in named {
        write_group(rows, row);
    }
}

/// Writes a counter, for which there is room.
fn write_counter(rows: &mut Vec<Counter>, row: Counter)
    requires room { vec_len rows.old < vec_capacity rows.old }
    requires order { AreAscending counter_before rows.old.items }
    ensures items { rows.new.items
        ≡ put counter_before (is_counter row.group row.cycle) row rows.old.items }
    ensures len { vec_len rows.new ≤ vec_len rows.old + 1 }
    ensures room { vec_capacity rows.old ≤ vec_capacity rows.new }
{
    match seek_counter(rows, row.group, row.cycle) {
        Ok(place) => {
            let old = &mut rows[place];
            *old = row;
        }
        Err(place) => {
            let Ok(()) = rows.insert(place, row) else {
                unreachable!();
            };
        }
    }
}

/// Writes counters, for which there is room.
fn write_counters(rows: &mut Vec<Counter>, named: Vec<Counter>)
    requires room { vec_len rows.old + vec_len named ≤ vec_capacity rows.old }
    requires order { AreAscending counter_before rows.old.items }
    ensures { rows.new.items ≡ counters_written named.items rows.old.items }
{
    for row in named {
        write_counter(rows, row);
    }
}
