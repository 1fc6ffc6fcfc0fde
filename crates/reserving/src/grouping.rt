//! The rows of sessions' groups and of counters: found by their keys, made, and written.

ghost use Rattle.std.specs.Prelude.{◌≡◌, ℕ, ◌+◌, ◌≤◌, ◌^◌, ◌<◌, true, is_some, OnOk, OnErr};
ghost use Rattle.std.specs.Prelude.{position, map, option_map, length, vec_len, vec_capacity};
ghost use Rattle.buckets.specs.Kinds.{most_blocks_in_all};
ghost use Rattle.buckets.specs.Holding.{IsWithin, held_sum};
ghost use Rattle.reserving.specs.Sessions.{is_of, group_in, is_counter, counter_in, holds_in};
ghost use Rattle.reserving.specs.Sessions.{group_before, counter_before};
ghost use Rattle.reserving.specs.Rows.{AreApart, AreAscending};
ghost use Rattle.reserving.specs.Changes.{used_in, reserved_in, terms_in, count_in, with_use};
ghost use Rattle.reserving.specs.Changes.{with_event, with_count, with_reservation, ended_group};
ghost use Rattle.reserving.specs.Prepared.{with_group, with_counter};

use crate::searching::{seek_counter, seek_group};
use crate::session::{Counter, Reservation, SessionGroup};
use buckets::{BucketKind, Holds, Purse};
use identifiers::SessionId;
use ledger::Terms;
use std::alloc::{AllocError, Global};
use units::Blocks;

/// The place of the row of a session's group.
fn place_of(groups: &[SessionGroup], session: &SessionId, group: u32) -> Option<usize>
    requires { AreAscending group_before groups.now }
    ensures { result ≡ position (is_of session.now group) groups.now }
{
    match seek_group(groups, session, group) {
        Ok(place) => Some(place),
        Err(_) => None,
    }
}

/// The place of the row of a counter.
fn counter_place(counters: &[Counter], group: u32, cycle: u32) -> Option<usize>
    requires { AreAscending counter_before counters.now }
    ensures { result ≡ position (is_counter group cycle) counters.now }
{
    match seek_counter(counters, group, cycle) {
        Ok(place) => Some(place),
        Err(_) => None,
    }
}

/// The units that a session used of a group so far.
pub(crate) fn used_of(groups: &[SessionGroup], session: &SessionId, group: u32) -> u64
    requires { AreAscending group_before groups.now }
    ensures { result ≡ used_in session.now group groups.now }
{
    let Some(place) = place_of(groups, session, group) else {
        return 0;
    };
    groups[place].used
}

/// The terms of the reservation of a session's group.
pub(crate) fn terms_of(groups: &[SessionGroup], session: &SessionId, group: u32) -> Option<Terms>
    requires { AreAscending group_before groups.now }
    ensures { result ≡ terms_in session.now group groups.now }
{
    let Some(place) = place_of(groups, session, group) else {
        return None;
    };
    terms_in(&groups[place])
}

/// The terms of a row's reservation.
fn terms_in(row: &SessionGroup) -> Option<Terms>
    ensures { result ≡ option_map (λ r. r.terms) row.now.reservation }
{
    match &row.reservation {
        Some(reservation) => Some(reservation.terms),
        None => None,
    }
}

/// The blocks that the reservation of a session's group holds.
pub(crate) fn held_blocks_of(
    groups: &[SessionGroup],
    purse: &Purse,
    session: &SessionId,
    group: u32,
) -> Blocks
    requires order { AreAscending group_before groups.now }
    requires within { IsWithin (reserved_in session.now group groups.now) purse.now }
    ensures value { result.0
        ≡ held_sum BucketKind.Blocks (reserved_in session.now group groups.now) purse.now }
    ensures most { result.0 ≤ most_blocks_in_all }
{
    let Some(place) = place_of(groups, session, group) else {
        return Blocks(0);
    };
    held_blocks_in(&groups[place], purse)
}

/// The blocks that a row's reservation holds.
fn held_blocks_in(row: &SessionGroup, purse: &Purse) -> Blocks
    requires { IsWithin (holds_in row.now.reservation) purse.now }
    ensures value { result.0
        ≡ held_sum BucketKind.Blocks (holds_in row.now.reservation) purse.now }
    ensures most { result.0 ≤ most_blocks_in_all }
{
    match &row.reservation {
        Some(reservation) => purse.held_blocks(&reservation.holds),
        None => Blocks(0),
    }
}

/// The blocks that a counter has counted.
pub(crate) fn count_of(counters: &[Counter], group: u32, cycle: u32) -> u64
    requires { AreAscending counter_before counters.now }
    ensures { result ≡ count_in group cycle counters.now }
{
    let Some(place) = counter_place(counters, group, cycle) else {
        return 0;
    };
    counters[place].blocks
}

/// Makes the row of a session's group where there is none. At a fault nothing has changed.
pub(crate) fn add_group(
    groups: &mut Vec<SessionGroup>,
    session: &SessionId,
    group: u32,
) -> Result<(), AllocError>
    requires { AreAscending group_before groups.old.items }
    ensures ok { OnOk result (groups.new.items ≡ with_group session.now group groups.old.items) }
    ensures err { OnErr result (groups.new.items ≡ groups.old.items) }
{
    let Err(place) = seek_group(groups, session, group) else {
        return Ok(());
    };
    let session = session.clone()?;
    let row = SessionGroup {
        session,
        group,
        used: 0,
        reservation: None,
    };
    groups.insert(place, row)?;
    Ok(())
}

/// Makes the row of a counter where there is none, in memory that was taken before.
pub(crate) fn add_counter(counters: &mut Vec<Counter>, group: u32, cycle: u32)
    requires room { vec_len counters.old < vec_capacity counters.old }
    requires order { AreAscending counter_before counters.old.items }
    ensures { counters.new.items ≡ with_counter group cycle counters.old.items }
{
    let Err(place) = seek_counter(counters, group, cycle) else {
        return;
    };
    let row = Counter {
        group,
        cycle,
        blocks: 0,
    };
    let Ok(()) = counters.insert(place, row) else {
        unreachable!();
    };
}

/// What a reservation that is over held.
fn holds_of(alloc: Global, reservation: Option<Reservation>) -> Holds
    ensures { result ≡ holds_in reservation }
{
    match reservation {
        Some(reservation) => reservation.holds,
        None => Holds::none(alloc),
    }
}

/// Counts a use in the row of a session's group, and ends its reservation.
pub(crate) fn use_group(
    alloc: Global,
    groups: &mut Vec<SessionGroup>,
    session: &SessionId,
    group: u32,
    units: u64,
) -> Holds
    requires there { is_some (group_in session.now group groups.old.items) ≡ true }
    requires order { AreAscending group_before groups.old.items }
    requires fits { used_in session.now group groups.old.items + units < 2 ^ 64 }
    ensures groups { groups.new.items ≡ with_use session.now group units groups.old.items }
    ensures holds { result ≡ reserved_in session.now group groups.old.items }
{
    let Some(place) = place_of(groups, session, group) else {
        unreachable!();
    };
    let row = &mut groups[place];
    row.used += units;
    holds_of(alloc, row.reservation.take())
}

/// Counts a use in the row of a session's group, which keeps its reservation.
pub(crate) fn count_units(
    groups: &mut Vec<SessionGroup>,
    session: &SessionId,
    group: u32,
    units: u64,
)
    requires there { is_some (group_in session.now group groups.old.items) ≡ true }
    requires order { AreAscending group_before groups.old.items }
    requires fits { used_in session.now group groups.old.items + units < 2 ^ 64 }
    ensures { groups.new.items ≡ with_event session.now group units groups.old.items }
{
    let Some(place) = place_of(groups, session, group) else {
        unreachable!();
    };
    groups[place].used += units;
}

/// Counts the blocks of a use in the row of a counter.
pub(crate) fn count_blocks(counters: &mut Vec<Counter>, group: u32, cycle: u32, blocks: u64)
    requires there { is_some (counter_in group cycle counters.old.items) ≡ true }
    requires order { AreAscending counter_before counters.old.items }
    requires fits { count_in group cycle counters.old.items + blocks < 2 ^ 64 }
    ensures { counters.new.items ≡ with_count group cycle blocks counters.old.items }
{
    let Some(place) = counter_place(counters, group, cycle) else {
        unreachable!();
    };
    let row = &mut counters[place];
    row.blocks += blocks;
}

/// Ends the reservation of a session's group.
pub(crate) fn end_group(
    alloc: Global,
    groups: &mut Vec<SessionGroup>,
    session: &SessionId,
    group: u32,
) -> Holds
    requires apart { AreApart (λ x y. is_of x.session x.group y) groups.old.items }
    requires order { AreAscending group_before groups.old.items }
    ensures groups { groups.new.items ≡ map (ended_group session.now group) groups.old.items }
    ensures holds { result ≡ reserved_in session.now group groups.old.items }
{
    let Some(place) = place_of(groups, session, group) else {
        return Holds::none(alloc);
    };
    let row = &mut groups[place];
    holds_of(alloc, row.reservation.take())
}

/// Gives the row of a session's group a reservation.
pub(crate) fn reserve_group(
    groups: &mut Vec<SessionGroup>,
    session: &SessionId,
    group: u32,
    terms: Terms,
    holds: Holds,
)
    requires there { is_some (group_in session.now group groups.old.items) ≡ true }
    requires order { AreAscending group_before groups.old.items }
    ensures { groups.new.items ≡ with_reservation session.now group terms holds groups.old.items }
{
    let Some(place) = place_of(groups, session, group) else {
        unreachable!();
    };
    let row = &mut groups[place];
    row.reservation = Some(Reservation { terms, holds });
}
