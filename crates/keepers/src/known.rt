//! What the rows that were left name, so that a commit need not search them.

ghost use Rattle.std.specs.List.{list_any};
ghost use Rattle.std.specs.Prelude.{◌≡◌, ℕ, List, true, false, OnOk};
ghost use Rattle.ledger.specs.Lists.{EachIn};
ghost use Rattle.keepers.specs.Named.{is_numbered, is_named, is_left_now, may_go_on};
ghost use Rattle.keepers.specs.Named.{AreLeftCounters};
ghost use Rattle.keepers.specs.Replacing.{KnowsMore, AreNoted};

use crate::left_rows::LeftStore;
use crate::places::has_session_near;
use buckets::Bucket;
use calendar::Cycle;
use identifiers::SessionId;
use reserving::{Counter, Session, SessionGroup};
use shelves::TariffShelf;
use std::alloc::AllocError;
use std::collections::HashSet;
use units::Moment;

/// What the rows that were left name: the numbers of the buckets, the cycles of the counters, and
/// the names of the sessions and of the groups' sessions.
#[derive(Drop)]
pub(crate) struct Known {
    pub(crate) numbers: HashSet<u32>,
    pub(crate) names: HashSet<SessionId>,
    pub(crate) cycles: HashSet<u32>,
}

/// Keeps what these rows name.
pub(crate) fn note(known: &mut Known, rows: &LeftStore) -> Result<(), AllocError>
    ensures more { KnowsMore known.old known.new }
    ensures noted { OnOk result (AreNoted rows.now known.new) }
{
    note_buckets(&mut known.numbers, &rows.buckets)?;
    note_counters(&mut known.cycles, &rows.counters)?;
    note_sessions(&mut known.names, &rows.sessions)?;
    note_groups(&mut known.names, &rows.sessions, &rows.groups)?;
    Ok(())
}

fn note_number(numbers: &mut HashSet<u32>, number: u32) -> Result<(), AllocError>
    ensures stay { (n : ℕ) → is_numbered numbers.old n ≡ true → is_numbered numbers.new n ≡ true }
    ensures noted { OnOk result (is_numbered numbers.new number ≡ true) }
{
    numbers.insert(number)?;
    Ok(())
}

fn note_name(names: &mut HashSet<SessionId>, name: SessionId) -> Result<(), AllocError>
    ensures stay { (s : List ℕ) → is_named names.old s ≡ true → is_named names.new s ≡ true }
    ensures noted { OnOk result (is_named names.new name ≡ true) }
{
    names.insert(name)?;
    Ok(())
}

fn note_buckets(numbers: &mut HashSet<u32>, rows: &[Bucket]) -> Result<(), AllocError>
    ensures stay { (n : ℕ) → is_numbered numbers.old n ≡ true → is_numbered numbers.new n ≡ true }
    ensures noted { OnOk result (EachIn (λ b. is_numbered numbers.new b.number ≡ true) rows.now) }
{
    for row in rows {
        note_number(numbers, row.number())?;
    }
    Ok(())
}

fn note_counters(cycles: &mut HashSet<u32>, rows: &[Counter]) -> Result<(), AllocError>
    ensures stay { (n : ℕ) → is_numbered cycles.old n ≡ true → is_numbered cycles.new n ≡ true }
    ensures noted { OnOk result (AreLeftCounters cycles.new rows.now) }
{
    for row in rows {
        note_number(cycles, row.cycle)?;
    }
    Ok(())
}

fn note_sessions(names: &mut HashSet<SessionId>, rows: &[Session]) -> Result<(), AllocError>
    ensures stay { (s : List ℕ) → is_named names.old s ≡ true → is_named names.new s ≡ true }
    ensures noted { OnOk result (EachIn (λ r. is_named names.new r.id ≡ true) rows.now) }
{
    for row in rows {
        let name = row.id.clone()?;
        note_name(names, name)?;
    }
    Ok(())
}

/// Keeps a session's name. The names of these sessions are kept already; its row is looked for
/// among them from this place on.
fn note_other_name(
    names: &mut HashSet<SessionId>,
    sessions: &[Session],
    place: &mut usize,
    name: &SessionId,
) -> Result<(), AllocError>
    requires { EachIn (λ r. is_named names.old r.id ≡ true) sessions.now }
    ensures stay { (s : List ℕ) → is_named names.old s ≡ true → is_named names.new s ≡ true }
    ensures noted { OnOk result (is_named names.new name.now ≡ true) }
{
    if has_session_near(sessions, place, name) {
        return Ok(());
    }
    let name = name.clone()?;
    note_name(names, name)
}

/// Keeps the names of the groups' sessions. Those of these sessions are kept already.
fn note_groups(
    names: &mut HashSet<SessionId>,
    sessions: &[Session],
    rows: &[SessionGroup],
) -> Result<(), AllocError>
    requires { EachIn (λ r. is_named names.old r.id ≡ true) sessions.now }
    ensures stay { (s : List ℕ) → is_named names.old s ≡ true → is_named names.new s ≡ true }
    ensures noted { OnOk result (EachIn (λ r. is_named names.new r.session ≡ true) rows.now) }
{
    let mut place = 0;
    for row in rows {
        note_other_name(names, sessions, &mut place, &row.session)?;
    }
    Ok(())
}

pub(crate) fn any_numbered(numbers: &HashSet<u32>, rows: &[Bucket]) -> bool
    ensures { result ≡ list_any (λ b. is_numbered numbers.now b.number) rows.now }
{
    rows.iter().any(|row| numbers.contains(&row.number()))
}

pub(crate) fn any_of_cycles(cycles: &HashSet<u32>, rows: &[Counter]) -> bool
    ensures { result ≡ list_any (λ c. is_numbered cycles.now c.cycle) rows.now }
{
    rows.iter().any(|row| cycles.contains(&row.cycle))
}

pub(crate) fn any_named(names: &HashSet<SessionId>, rows: &[Session]) -> bool
    ensures { result ≡ list_any (λ r. is_named names.now r.id) rows.now }
{
    rows.iter().any(|row| names.contains(&row.id))
}

/// Whether a session is known. None of these sessions is; its row is looked for among them from
/// this place on.
fn is_known(
    names: &HashSet<SessionId>,
    sessions: &[Session],
    place: &mut usize,
    session: &SessionId,
) -> bool
    requires { list_any (λ r. is_named names.now r.id) sessions.now ≡ false }
    ensures { result ≡ is_named names.now session.now }
{
    if has_session_near(sessions, place, session) {
        return false;
    }
    names.contains(session)
}

/// Whether the session of a group is known. None of these sessions is.
pub(crate) fn any_group_named(
    names: &HashSet<SessionId>,
    sessions: &[Session],
    rows: &[SessionGroup],
) -> bool
    requires { list_any (λ r. is_named names.now r.id) sessions.now ≡ false }
    ensures { result ≡ list_any (λ r. is_named names.now r.session) rows.now }
{
    let mut place = 0;
    for row in rows {
        if is_known(names, sessions, &mut place, &row.session) {
            return true;
        }
    }
    false
}

/// Whether a counter that was left is of this cycle at the moment.
fn is_left_now(cycles: &HashSet<u32>, shelf: &TariffShelf, cycle: Cycle, moment: Moment) -> bool
    ensures { result ≡ is_left_now shelf.now moment cycles.now cycle }
{
    cycles.contains(&shelf.book_at(moment).cycle_of(cycle, moment))
}

/// Whether a counter that was left may be of a cycle at the moment, whatever its group.
pub(crate) fn may_go_on(cycles: &HashSet<u32>, shelf: &TariffShelf, moment: Moment) -> bool
    ensures { result ≡ may_go_on shelf.now moment cycles.now }
{
    is_left_now(cycles, shelf, Cycle::None, moment)
        || is_left_now(cycles, shelf, Cycle::Day, moment)
        || is_left_now(cycles, shelf, Cycle::Month, moment)
}
