//! What is held for one session, and the book of its reservation, among the rows of all sessions of
//! an account; each is found by halves.

ghost use Rattle.std.specs.Prelude.{◌≡◌, ◌≤◌, None, Some, true, false, length, position};
ghost use Rattle.std.specs.Prelude.{IfErr, IfOk};
ghost use Rattle.std.specs.List.Sorted.{IsPartitionPoint};
ghost use Rattle.std.specs.Ordering.{nat_cmp, ordering_then};
ghost use Rattle.std.specs.Cmp.Lexicographic.{slice_cmp};
ghost use Rattle.sql_keeper.specs.GroupRows.{DoBooksRise, DoHoldsRise, IsRun, book_of, held_for};
ghost use Rattle.sql_keeper.specs.GroupRows.{is_book, precedes};

use identifiers::SessionId;
use sql_rows::{HeldColumns, SessionBook, SessionHold};
use sql_tables::ReadFault;
use std::alloc::Global;
use std::cmp::Ordering;

/// Where what is held for a session begins among what is held for all, by halves.
fn first_held(held: &[SessionHold], session: &SessionId) -> usize
    requires { DoHoldsRise held.now }
    ensures within { result ≤ length held.now }
    ensures parted { IsPartitionPoint (λ x. precedes session.now x ≡ true)
        (λ x. precedes session.now x ≡ false) held.now result }
{
    held.partition_point(
        |row: &SessionHold| -> bool
            ensures { result ≡ precedes session.entry.now row.now }
        { row.session.cmp(session).is_lt() },
    )
}

/// What is held for a session, as far as it goes on.
fn run_of(
    alloc: Global,
    session: &SessionId,
    rest: &[SessionHold],
) -> Result<Vec<HeldColumns>, ReadFault>
    requires { IsRun session.now rest.now }
    ensures { IfOk result (λ xs. xs.items ≡ held_for session.now rest.now) }
{
    let mut own = Vec::new(alloc);
    'rows: for row in rest {
        if row.session != *session {
            return Ok(own);
        }
        own.push(row.columns)?;
    }
    Ok(own)
}

/// What is held for one session, of what is held for sessions.
// rule: database-loads.group-of
pub(crate) fn held_for(
    alloc: Global,
    session: &SessionId,
    held: &[SessionHold],
) -> Result<Vec<HeldColumns>, ReadFault>
    requires { DoHoldsRise held.now }
    ensures { IfOk result (λ xs. xs.items ≡ held_for session.now held.now) }
{
    let first = first_held(held, session);
    run_of(alloc, session, &held[first..])
}

/// The order of a row's session and rating group with those that are looked for.
fn compare_keys(row: &SessionBook, session: &SessionId, group: u32) -> Ordering
    ensures { result ≡ ordering_then (slice_cmp nat_cmp row.now.session session.now)
        (nat_cmp row.now.columns.group group) }
{
    row.session.cmp(session).then(row.columns.group.cmp(&group))
}

/// Where the book of a session's reservation in a rating group is, by halves.
fn book_place(numbers: &[SessionBook], session: &SessionId, group: u32) -> Result<usize, usize>
    requires { DoBooksRise numbers.now }
    ensures found { IfOk result
        (λ place. position (is_book session.now group) numbers.now ≡ Some place) }
    ensures absent { IfErr result (λ _. position (is_book session.now group) numbers.now ≡ None) }
{
    numbers.binary_search_by(|row| compare_keys(row, session, group))
}

/// The number of the book that a session's reservation in a rating group goes by, where a row says
/// it.
// rule: database-loads.group-of
pub(crate) fn number_of(numbers: &[SessionBook], session: &SessionId, group: u32) -> Option<u32>
    requires { DoBooksRise numbers.now }
    ensures { result ≡ book_of session.now group numbers.now }
{
    let Ok(place) = book_place(numbers, session, group) else {
        return None;
    };
    Some(numbers[place].columns.book)
}
