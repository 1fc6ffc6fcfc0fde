//! The rows of an account as they were before a command on it.

ghost use Rattle.std.specs.Prelude.{◌≡◌, IfOk, option_copied};
ghost use Rattle.reserving.specs.Earlier.{AreEarlier, rows_in, own_stored, earlier_of};
ghost use Rattle.reserving.specs.Others.{own_sessions, own_groups};
ghost use Rattle.reserving.specs.Restored.{given};
ghost use Rattle.reserving.specs.Rows.{AreApart, AreAscending, AreInKeyOrder};
ghost use Rattle.reserving.specs.Sessions.{is_session, session_before, session_in};
ghost use Rattle.reserving.specs.Stored.{stored};

use crate::account::Account;
use crate::copy::{copy_of_counters, copy_of_purse};
use crate::kept_rows::KeptRows;
use crate::own_rows::own_groups;
use crate::restoring::GivenRows;
use crate::searching::session_row;
use crate::session::{Session, SessionGroup};
use identifiers::SessionId;
use std::alloc::{AllocError, Global};
use std::marker::Model;

/// The rows of an account as they were before a command: all of them, or those of one session with
/// the buckets and counters, where the command leaves each other session's as they are.
///
/// Contracts see a record of the rows.
#[derive(Drop)]
pub struct EarlierRows {
    pub(crate) rows: GivenRows,
}

impl Model for EarlierRows {
    ghost use Rattle.reserving.specs.Earlier.{AreEarlier};
    ghost use Rattle.reserving.specs.Restored.{given};
    ghost use Rattle.reserving.specs.Stored.{StoredRows};

    ghost Value = { StoredRows };

    ghost view = { λ e. given e.rows };

    ghost invariant = { λ e. AreEarlier (given e.rows) };
}

impl EarlierRows {
    /// The rows.
    pub fn rows(&self) -> &GivenRows
        ensures value { given result.now ≡ self.now }
        ensures kept { AreEarlier self.now }
    {
        &self.rows
    }

    /// The row of a session: a binary search.
    pub fn session(&self, id: &SessionId) -> Option<&Session>
        ensures { option_copied result ≡ session_in id.now self.now.sessions }
    {
        session_row(&self.rows.sessions, id)
    }

    /// What one session has of rating groups, in their order: found by halves.
    pub fn groups_of(&self, session: &SessionId) -> &[SessionGroup]
        ensures { result.now ≡ own_groups session.now self.now.groups }
    {
        own_groups(&self.rows.groups, session)
    }
}

impl<'b> Account<'b> {
    /// A copy of its rows, to be compared with what a command leaves: all, or those of one session
    /// with the buckets and counters, so that no other session's row is looked at.
    ///
    /// # Errors
    /// Out of memory.
    // rule: database-writes.quiet-at
    pub fn earlier(&self, own: Option<&SessionId>) -> Result<EarlierRows, AllocError>
        ensures { IfOk result
            (λ rows. rows ≡ earlier_of (option_copied own.entry) (stored self.now)) }
    {
        match own {
            Some(session) => self.earlier_own(session),
            None => self.earlier_all(),
        }
    }

    /// A copy of all its rows.
    fn earlier_all(&self) -> Result<EarlierRows, AllocError>
        ensures { IfOk result (λ rows. rows ≡ stored self.now) }
    {
        let rows = self.rows.copy()?.into_given();
        Ok(EarlierRows { rows })
    }

    /// A copy of the rows of one session, with the buckets and counters.
    fn earlier_own(&self, session: &SessionId) -> Result<EarlierRows, AllocError>
        ensures { IfOk result (λ rows. rows ≡ own_stored session.now (stored self.now)) }
    {
        let rows = self.rows.copy_own(session)?;
        Ok(EarlierRows { rows })
    }
}

impl KeptRows {
    ghost use Rattle.reserving.specs.Inside.{stored_of};

    /// The rows of one session once more, with the buckets and counters.
    fn copy_own(&self, session: &SessionId) -> Result<GivenRows, AllocError>
        requires order { AreInKeyOrder self.now.sessions.items self.now.groups.items
            self.now.counters.items }
        requires apart { AreApart (λ x y. is_session x.id y) self.now.sessions.items }
        ensures { IfOk result
            (λ copy. given copy ≡ own_stored session.now (stored_of self.now)) }
    {
        Ok(GivenRows {
            as_of: self.as_of,
            barred: self.barred,
            purse: copy_of_purse(&self.purse)?,
            counters: copy_of_counters(&self.counters)?,
            sessions: copy_of_own(self.alloc, &self.sessions, session)?,
            groups: copy_of_groups(self.alloc, own_groups(&self.groups, session))?,
            next_bucket: self.next_bucket,
            next_charge: self.next_charge,
        })
    }
}

/// The rows of one session once more: its only one, or none.
fn copy_of_own(
    alloc: Global,
    rows: &[Session],
    session: &SessionId,
) -> Result<Vec<Session>, AllocError>
    requires order { AreAscending session_before rows.now }
    requires apart { AreApart (λ x y. is_session x.id y) rows.now }
    ensures { IfOk result (λ copy. copy.items ≡ own_sessions session.now rows.now) }
{
    copy_in(alloc, session_row(rows, session))
}

/// The row of a session once more, where it has one.
fn copy_in(alloc: Global, row: Option<&Session>) -> Result<Vec<Session>, AllocError>
    ensures { IfOk result (λ copy. copy.items ≡ rows_in (option_copied row.entry)) }
{
    let mut copy = Vec::new(alloc);
    let Some(row) = row else {
        return Ok(copy);
    };
    copy.push(copy_of_session(row)?)?;
    Ok(copy)
}

fn copy_of_session(row: &Session) -> Result<Session, AllocError>
    ensures { IfOk result (λ copy. copy ≡ row.now) }
{
    row.clone()
}

fn copy_of_groups(alloc: Global, rows: &[SessionGroup]) -> Result<Vec<SessionGroup>, AllocError>
    ensures { IfOk result (λ copy. copy.items ≡ rows.now) }
{
    rows.to_vec(alloc)
}
