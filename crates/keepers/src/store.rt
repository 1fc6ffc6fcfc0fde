//! The rows of an account in memory.

ghost use Rattle.std.specs.Prelude.{◌≡◌, ℕ, ◌≤◌, ◌++◌, if◌then◌else◌, [], is_some, IfOk, OnOk};
ghost use Rattle.std.specs.Prelude.{OnErr, true};
ghost use Rattle.reserving.specs.Sessions.{session_in};
ghost use Rattle.ledger.specs.Ledger.{Ledger};
ghost use Rattle.keepers.specs.Change.{IsLoadedFrom, over, AreRowsAt, AreBroughtTo, AreDeadOf};
ghost use Rattle.keepers.specs.Tables.{no_rows};
ghost use Rattle.keepers.specs.Whole.{AreWhole};
ghost use Rattle.keepers.specs.Parts.{rows_of_parts, with_live, advanced_parts, AreParts};
ghost use Rattle.keepers.specs.Named.{may_go_on};
ghost use Rattle.reserving.specs.Restored.{given};
ghost use Rattle.reserving.specs.Stored.{IsStoredInOrder};
ghost use Rattle.reserving.specs.Written.{rows_written};
ghost use Rattle.keepers.specs.Overlaying.{IsRestDead, back_from, is_fresh};
ghost use Rattle.keepers.specs.Recorded.{are_past, recorded, IsChange, IsPut};

use crate::known::{Known, any_group_named, any_named, any_of_cycles, may_go_on, note};
use crate::left_rows::{LeftStore, append, keep, leaving_rows, make_room};
use crate::named_rows::NamedRows;
use crate::overlaying::{given_over, rows_alone, rows_over};
use crate::past_rows::{are_past, put_back, take_past};
use crate::places::{has_counter, has_session};
use crate::row_copies::{all_buckets, all_counters, all_groups, all_sessions, dead_rows};
use crate::whole::WholeAccount;
use buckets::Bucket;
use identifiers::SessionId;
use reserving::{
    Account, Counter, GivenRows, LoadFault, Session, SessionGroup, SessionState, StoredAccount,
};
use shelves::TariffShelf;
use std::alloc::{AllocError, Global};
use std::collections::HashSet;
use std::marker::Model;
use units::Moment;

/// The rows of an account: those that were live after its last command, and those that were left.
/// What the latter name is kept beside them, so that a commit doesn't search them.
pub(crate) struct Store {
    live: StoredAccount,
    left: LeftStore,
    known: Known,
    /// How many sessions that aren't open were written among the live ones since rows were left.
    past: usize,
    alloc: Global,
}

// It is written out, so that a caller doesn't prove again how each part is dropped.
impl Drop for Store {
    fn drop(self) {
        let Store {
            live: _,
            left: _,
            known: _,
            past: _,
            alloc: _,
        } = self;
    }
}

impl Model for Store {
    ghost use Rattle.keepers.specs.Parts.{Parts};
    ghost use Rattle.keepers.specs.Inside.{parts_of, AreKept};

    ghost Value = { Parts };

    ghost view = { parts_of };

    ghost invariant = { AreKept };
}

impl Store {
    /// A new account's rows: those of a change.
    pub(crate) fn first(alloc: Global, named: NamedRows) -> Result<Store, AllocError>
        ensures { IfOk result (λ store. rows_of_parts store ≡ over named no_rows) }
    {
        // For the prover alone: looking at the value makes known here what its type keeps.
        let _named = named.as_of();
        let live = rows_alone(alloc, named)?;
        Ok(Store::new(alloc, live))
    }

    /// A new account's rows. It takes no memory.
    fn new(alloc: Global, live: StoredAccount) -> Store
        ensures parts { result ≡ record {
          live = live;
          left = record { buckets = []; counters = []; sessions = []; groups = [] };
        } }
        ensures over { rows_of_parts result ≡ over live no_rows }
    {
        // For the prover alone: looking at the value makes known here what its type keeps.
        let _kept = live.as_of();
        let left = LeftStore {
            buckets: Vec::new(alloc),
            counters: Vec::new(alloc),
            sessions: Vec::new(alloc),
            groups: Vec::new(alloc),
        };
        let known = Known {
            numbers: HashSet::new(alloc),
            names: HashSet::new(alloc),
            cycles: HashSet::new(alloc),
        };
        Store {
            live,
            left,
            known,
            past: 0,
            alloc,
        }
    }

    /// A copy of what may still change at the moment.
    pub(crate) fn load<'b>(
        &self,
        shelf: &'b TariffShelf,
        moment: Moment,
    ) -> Result<Account<'b>, LoadFault>
        ensures { IfOk result (λ account. IsLoadedFrom shelf.now moment
            (rows_of_parts self.now) account) }
    {
        let _kept = self.live.as_of();
        let others = going_on(&self.known.cycles, &self.left.counters, shelf, moment);
        self.live.load_at(shelf, moment, others)
    }

    /// A copy of the buckets that can't be used any more.
    pub(crate) fn dead_buckets(&self) -> Result<Vec<Bucket>, AllocError>
        ensures { IfOk result (λ found. AreDeadOf (rows_of_parts self.now) found.items) }
    {
        dead_rows(&self.left.buckets, &self.live)
    }

    /// A copy of every row.
    pub(crate) fn whole(&self) -> Result<WholeAccount, AllocError>
        ensures { IfOk result (AreWhole (rows_of_parts self.now)) }
    {
        Ok(WholeAccount {
            buckets: all_buckets(&self.left.buckets, &self.live)?,
            counters: all_counters(self.alloc, &self.left.counters, &self.live)?,
            sessions: all_sessions(self.alloc, &self.left.sessions, &self.live)?,
            groups: all_groups(self.alloc, &self.left.groups, &self.live)?,
        })
    }

    /// Whether there is a row of this session.
    pub(crate) fn knows(&self, session: &SessionId) -> bool
        ensures { result ≡ is_some
            (session_in session.now (self.now.left.sessions ++ self.now.live.sessions)) }
    {
        self.live.has_session(session)
            || (self.known.names.contains(session) && has_session(&self.left.sessions, session))
    }

    /// Puts the rows of a change over those that are there. At a fault nothing has changed, as
    /// where they would be no rows of an account.
    // rule: database-writes.rows-written
    pub(crate) fn put(&mut self, named: NamedRows) -> Result<(), AllocError>
        ensures over { OnOk result (rows_of_parts self.new ≡ over named (rows_of_parts self.old)) }
        ensures err { OnErr result (self.new ≡ self.old) }
    {
        // For the prover alone: looking at the value makes known here what its type keeps.
        let _named = named.as_of();
        let rows = given_over(self.alloc, named, self.live.purse())?;
        if are_past(&self.live, &rows) {
            return self.record(rows);
        }
        self.write(rows)
    }

    /// The same, where no row of a session may change any more: those of sessions go straight to
    /// what was left, and the others are written over the live ones.
    // rule: database-writes.past
    fn record(&mut self, mut rows: GivenRows) -> Result<(), AllocError>
        requires past { are_past (given rows) self.old.live ≡ true }
        requires change { IsChange self.old.live.buckets rows }
        ensures over { OnOk result (IsPut rows self.old self.new) }
        ensures err { OnErr result (self.new ≡ self.old) }
    {
        let _kept = self.live.as_of();
        if !is_fresh(&self.known, &rows) || !have_rows(self.live.counters(), &rows.counters) {
            return self.overlay(rows);
        }
        let past = take_past(self.alloc, &mut rows);
        if self.live.is_writable(&rows) {
            return self.leave(rows, past);
        }
        self.overlay(put_back(rows, past))
    }

    /// Writes rows over the live ones, and leaves others behind those that were left. At a fault
    /// nothing has changed.
    // rule: database-writes.past
    fn leave(&mut self, rows: GivenRows, past: LeftStore) -> Result<(), AllocError>
        requires order { IsStoredInOrder (rows_written (given rows) self.old.live) }
        requires parts { AreParts (recorded (given rows) past self.old) }
        ensures done { OnOk result (self.new ≡ recorded (given rows) past self.old) }
        ensures err { OnErr result (self.new ≡ self.old) }
    {
        note(&mut self.known, &past)?;
        make_room(&mut self.left, &past)?;
        self.live.write(rows)?;
        append(&mut self.left, past)?;
        Ok(())
    }

    /// The same, where a row of a session may still change: all are written over the live ones,
    /// while few of these can't change any more.
    fn write(&mut self, rows: GivenRows) -> Result<(), AllocError>
        requires { IsChange self.old.live.buckets rows }
        ensures over { OnOk result (IsPut rows self.old self.new) }
        ensures err { OnErr result (self.new ≡ self.old) }
    {
        let _kept = self.live.as_of();
        if is_fresh(&self.known, &rows)
            && are_few(self.past, &self.live, &rows)
            && self.live.is_writable(&rows)
        {
            self.past = self.past.saturating_add(count_past(&rows.sessions));
            self.live.write(rows)?;
            return Ok(());
        }
        self.overlay(rows)
    }

    /// The same, where the live rows are put together anew with those that stay beside them.
    fn overlay(&mut self, rows: GivenRows) -> Result<(), AllocError>
        ensures over { OnOk result (IsPut rows self.old self.new) }
        ensures err { OnErr result (self.new ≡ self.old) }
    {
        let back = back_from(&self.known.names, &rows.sessions, &self.left.groups);
        let live = rows_over(self.alloc, rows, back, &self.live)?;
        self.replace(live)
    }

    /// Puts these rows in the place of those that were live. At a fault nothing has changed.
    fn replace(&mut self, after: StoredAccount) -> Result<(), AllocError>
        ensures parts { OnOk result (self.new ≡ with_live after self.old) }
        ensures over { OnOk result (IsRestDead after (rows_of_parts self.old) →
            rows_of_parts self.new ≡ over after (rows_of_parts self.old)) }
        ensures err { OnErr result (self.new ≡ self.old) }
    {
        let _kept = after.as_of();
        let _live = self.live.as_of();
        let leaving = leaving_rows(self.alloc, &self.live, &after)?;
        note(&mut self.known, &leaving)?;
        make_room(&mut self.left, &leaving)?;
        append(&mut self.left, leaving)?;
        keep(&mut self.left, &self.known, &after);
        self.live = after;
        self.past = 0;
        Ok(())
    }

    /// Brings the rows to a moment.
    pub(crate) fn advance(&mut self, shelf: &TariffShelf, moment: Moment)
        ensures parts { self.new ≡ advanced_parts shelf.now moment self.old }
        ensures rows { (ledger : Ledger) (u : ℕ) → u ≤ moment →
            AreRowsAt shelf.now ledger u (rows_of_parts self.old) →
            AreRowsAt shelf.now ledger moment (rows_of_parts self.new) }
        ensures listed { AreBroughtTo shelf.now moment (rows_of_parts self.old)
            (rows_of_parts self.new) }
    {
        let _kept = self.live.as_of();
        let _ranges = shelf.first();
        self.live.advance(shelf, moment);
    }
}

/// The counters that were left, where one of them may be of a cycle at the moment; else none, so
/// that past cycles are neither searched nor copied.
fn going_on<'s>(
    cycles: &HashSet<u32>,
    rows: &'s [Counter],
    shelf: &TariffShelf,
    moment: Moment,
) -> &'s [Counter]
    ensures { result.now ≡ if may_go_on shelf.now moment cycles.now then rows.now else [] }
{
    if rows.is_empty() {
        return rows;
    }
    if may_go_on(cycles, shelf, moment) {
        rows
    } else {
        &[]
    }
}

/// The groups that were left, where the session of one of them may be among these; else none, so
/// that past sessions' groups are neither searched nor copied.
fn back_from<'s>(
    names: &HashSet<SessionId>,
    sessions: &[Session],
    groups: &'s [SessionGroup],
) -> &'s [SessionGroup]
    ensures { result.now ≡ back_from names.now sessions.now groups.now }
{
    if any_named(names, sessions) {
        groups
    } else {
        &[]
    }
}

/// Whether none of the rows has a name or a cycle of one that was left.
fn is_fresh(known: &Known, rows: &GivenRows) -> bool
    ensures { result ≡ is_fresh known.now.names known.now.cycles (given rows.now) }
{
    !any_named(&known.names, &rows.sessions)
        && !any_group_named(&known.names, &rows.sessions, &rows.groups)
        && !any_of_cycles(&known.cycles, &rows.counters)
}

/// How many of the sessions aren't open.
fn count_past(sessions: &[Session]) -> usize {
    sessions
        .iter()
        .filter(|row| row.state != SessionState::Open)
        .count()
}

/// So many sessions that aren't open may stay among the live ones, however few these are.
const ALWAYS_FEW: usize = 4;

/// For so many live sessions one that isn't open may stay among them.
const FOR_ONE_PAST: usize = 32;

/// Whether few of the live rows can't change any more, and each of the counters has its row: such
/// rows wait among the live ones until there are more, and then all of them leave at once.
fn are_few(past: usize, live: &StoredAccount, rows: &GivenRows) -> bool {
    let most = ALWAYS_FEW.max(live.sessions().len() / FOR_ONE_PAST);
    past <= most && have_rows(live.counters(), &rows.counters)
}

/// Whether each of the counters has its row.
fn have_rows(rows: &[Counter], named: &[Counter]) -> bool {
    named
        .iter()
        .all(|row| has_counter(rows, row.group, row.cycle))
}
