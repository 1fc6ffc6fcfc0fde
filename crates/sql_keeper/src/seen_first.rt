//! What the first selection of a load gives: what is kept of an account once, with its counters of
//! cycles. It is remembered, so that a load that asks for the same doesn't select it once more.

ghost use Rattle.std.specs.Prelude.{◌≡◌, Some, IfOk, IfSome};
ghost use Rattle.sqlite_trees.specs.Tree.{Trees};
ghost use Rattle.sql_keeper.specs.LiveGroups.{Gathers};
ghost use Rattle.sql_keeper.specs.Seen.{AreSeen, IsFirstAlone, IsSeen, IsSeenFirst, Sees};
ghost use Rattle.sql_keeper.specs.SeenFirst.{are_covered, IsCopied, IsFirstRead};
ghost use Rattle.sql_rows.specs.Content.{TableRows, rows_in};
ghost use Rattle.sql_rows.specs.Lists.{AreCountersIn};
ghost use Rattle.sql_tables.specs.Statements.{HasIdleTables};
ghost use Rattle.sqlite.specs.Held.{state};

use crate::seen::{SeenAccount, is_same_account};
use identifiers::AccountNumber;
use reserving::Counter;
use sql_rows::{CycleNumbers, HeadCounters, HeadCycles, read_head_counters, read_head_cycles};
use sql_tables::ReadFault;
use sqlite::{Alter, Connection};
use std::alloc::{AllocError, Global};

/// The cycles whose counters a load asks for (TS 32.296 counters).
#[derive(Clone, Copy)]
pub(crate) struct AskedCycles {
    /// The number of the cycle of counters that never begin again.
    pub never: u32,
    /// That of the day.
    pub day: u32,
    /// That of the month.
    pub month: u32,
    /// Whether counters of the day and of the month are asked for.
    pub has_dates: bool,
}

/// What the first selection gave of an account.
#[derive(Drop)]
pub(crate) struct SeenFirst {
    /// The cycles that were asked for.
    pub asked: AskedCycles,
    /// What is kept of the account once, with its counters of these cycles.
    pub read: HeadCycles,
}

/// Whether what was read of some cycles is all that is asked for.
fn are_covered(was: AskedCycles, asked: AskedCycles) -> bool
    ensures { result ≡ are_covered was asked }
{
    was.never == asked.never
        && (!asked.has_dates || (was.has_dates && was.day == asked.day && was.month == asked.month))
}

pub(crate) fn copy_of_counters(alloc: Global, rows: &[Counter]) -> Result<Vec<Counter>, AllocError>
    ensures { IfOk result (λ copy. copy.items ≡ rows.now) }
{
    rows.to_vec(alloc)
}

/// A copy of what the first selection gave.
fn copied(alloc: Global, read: &HeadCycles) -> Result<HeadCycles, AllocError>
    ensures { IfOk result (IsCopied read.now) }
{
    Ok(HeadCycles {
        head: read.head,
        never: copy_of_counters(alloc, read.never.as_slice())?,
        daily: copy_of_counters(alloc, read.daily.as_slice())?,
        monthly: copy_of_counters(alloc, read.monthly.as_slice())?,
    })
}

/// A copy of what the first selection gave; None for lack of memory.
fn copy_of_first(alloc: Global, read: &HeadCycles) -> Option<HeadCycles>
    ensures { IfSome result (IsCopied read.now) }
{
    copied(alloc, read).ok()
}

/// A copy of what was read, if it is all that is asked for; None for lack of memory too.
fn copy_if_asked(alloc: Global, first: &SeenFirst, asked: AskedCycles) -> Option<HeadCycles>
    ensures { (r : TableRows) → IsFirstRead first.now.asked r first.now.read →
        IfSome result (IsFirstRead asked r) }
{
    if !are_covered(first.asked, asked) {
        return None;
    }
    copy_of_first(alloc, &first.read)
}

/// A copy of what the first selection gave, if it gave something and that is all that is asked
/// for.
fn first_among(alloc: Global, first: &Option<SeenFirst>, asked: AskedCycles) -> Option<HeadCycles>
    ensures { (r : TableRows) → IfSome first.now (λ y. IsFirstRead y.asked r y.read) →
        IfSome result (IsFirstRead asked r) }
{
    match first {
        None => None,
        Some(first) => copy_if_asked(alloc, first, asked),
    }
}

/// A copy of what the first selection gave of an account, if that is the one that was seen and it
/// is all that is asked for.
fn first_of_seen(
    alloc: Global,
    seen: &SeenAccount,
    account: &AccountNumber,
    asked: AskedCycles,
) -> Option<HeadCycles>
    ensures { (trees : Trees) → IsSeen (rows_in trees seen.now.account) seen.now →
        IfSome result (IsFirstRead asked (rows_in trees account.now)) }
{
    if !is_same_account(&seen.account, account) {
        return None;
    }
    first_among(alloc, &seen.first, asked)
}

/// What the first selection would give of an account, if that was seen; None for lack of memory
/// too.
// rule: database-loads.first
fn first_seen(
    alloc: Global,
    seen: &Option<SeenAccount>,
    account: &AccountNumber,
    asked: AskedCycles,
) -> Option<HeadCycles>
    ensures { (trees : Trees) → Sees seen.now trees →
        IfSome result (IsFirstRead asked (rows_in trees account.now)) }
{
    match seen {
        None => None,
        Some(seen) => first_of_seen(alloc, seen, account, asked),
    }
}

/// What is seen of an account of which nothing but the first selection was read; None for lack of
/// memory.
pub(crate) fn first_alone(account: &AccountNumber, first: SeenFirst) -> Option<SeenAccount>
    ensures { IfSome result (IsFirstAlone account.now first) }
{
    let account = account.clone().ok()?;
    Some(SeenAccount {
        account,
        head: None,
        live: None,
        grant: None,
        unknown: None,
        first: Some(first),
    })
}

/// What is seen, with what the first selection gave now in the place of what it gave before.
fn with_first(seen: SeenAccount, first: SeenFirst) -> SeenAccount
    ensures { IsSeenFirst first seen result }
{
    let SeenAccount {
        account,
        head,
        live,
        grant,
        unknown,
        first: _,
    } = seen;
    SeenAccount {
        account,
        head,
        live,
        grant,
        unknown,
        first: Some(first),
    }
}

/// What is seen, with what the first selection gave of an account; another account is forgotten.
fn first_noted(seen: SeenAccount, account: &AccountNumber, first: SeenFirst) -> Option<SeenAccount>
    ensures { (trees : Trees) → IsSeen (rows_in trees seen.account) seen →
        IsFirstRead first.asked (rows_in trees account.now) first.read → Sees result trees }
{
    if !is_same_account(&seen.account, account) {
        return first_alone(account, first);
    }
    Some(with_first(seen, first))
}

/// What is seen, if anything is, with what the first selection gave of an account; another account
/// is forgotten.
fn noted_with(
    seen: Option<SeenAccount>,
    account: &AccountNumber,
    first: SeenFirst,
) -> Option<SeenAccount>
    ensures { (trees : Trees) → Sees seen trees →
        IsFirstRead first.asked (rows_in trees account.now) first.read → Sees result trees }
{
    match seen {
        None => first_alone(account, first),
        Some(seen) => first_noted(seen, account, first),
    }
}

/// What is seen once the first selection gave this of an account; as before where memory is
/// refused for it.
fn seen_with_first(
    alloc: Global,
    seen: Option<SeenAccount>,
    account: &AccountNumber,
    asked: AskedCycles,
    read: &HeadCycles,
) -> Option<SeenAccount>
    ensures { (trees : Trees) → Sees seen trees →
        IsFirstRead asked (rows_in trees account.now) read.now → Sees result trees }
{
    match copy_of_first(alloc, read) {
        None => seen,
        Some(read) => noted_with(seen, account, SeenFirst { asked, read }),
    }
}

/// What is kept of an account once, with its counters that never begin again: one selection of two
/// parts, which costs less than that of four.
fn read_never<S: Alter>(
    conn: &mut Connection<S>,
    alloc: Global,
    account: &AccountNumber,
    asked: AskedCycles,
) -> Result<HeadCycles, ReadFault>
    requires idle { HasIdleTables (state S.Store conn.old) }
    ensures { Gathers (λ trees x. (x.head ≡ (rows_in trees account.now).head)
        × AreCountersIn asked.never (rows_in trees account.now) x.never.items)
        (state S.Store conn.old) (state S.Store conn.new) result }
{
    let HeadCounters { head, counters } = read_head_counters(conn, alloc, account, asked.never)?;
    Ok(HeadCycles {
        head,
        never: counters,
        daily: Vec::new(alloc),
        monthly: Vec::new(alloc),
    })
}

/// What is kept of an account once, with its counters of the three cycles: one selection of four
/// parts.
fn read_dates<S: Alter>(
    conn: &mut Connection<S>,
    alloc: Global,
    account: &AccountNumber,
    asked: AskedCycles,
) -> Result<HeadCycles, ReadFault>
    requires idle { HasIdleTables (state S.Store conn.old) }
    ensures { Gathers (λ trees x. IsFirstRead asked (rows_in trees account.now) x)
        (state S.Store conn.old) (state S.Store conn.new) result }
{
    let cycles = CycleNumbers {
        never: asked.never,
        day: asked.day,
        month: asked.month,
    };
    let read = read_head_cycles(conn, alloc, account, cycles)?;
    Ok(read)
}

/// What is kept of an account once, with its counters of these cycles, by one selection.
fn read_asked<S: Alter>(
    conn: &mut Connection<S>,
    alloc: Global,
    account: &AccountNumber,
    asked: AskedCycles,
) -> Result<HeadCycles, ReadFault>
    requires idle { HasIdleTables (state S.Store conn.old) }
    ensures { Gathers (λ trees x. IsFirstRead asked (rows_in trees account.now) x)
        (state S.Store conn.old) (state S.Store conn.new) result }
{
    if asked.has_dates {
        read_dates(conn, alloc, account, asked)
    } else {
        read_never(conn, alloc, account, asked)
    }
}

/// What is kept of an account once, with its counters of these cycles, by one selection, which is
/// noted.
fn ask_first<S: Alter>(
    conn: &mut Connection<S>,
    alloc: Global,
    seen: &mut Option<SeenAccount>,
    account: &AccountNumber,
    asked: AskedCycles,
) -> Result<HeadCycles, ReadFault>
    requires idle { HasIdleTables (state S.Store conn.old) }
    requires seen { AreSeen seen.old (state S.Store conn.old) }
    ensures reads { Gathers (λ trees x. IsFirstRead asked (rows_in trees account.now) x)
        (state S.Store conn.old) (state S.Store conn.new) result }
    ensures seen { AreSeen seen.new (state S.Store conn.new) }
{
    let read = read_asked(conn, alloc, account, asked)?;
    let older = seen.take();
    *seen = seen_with_first(alloc, older, account, asked, &read);
    Ok(read)
}

/// What is kept of an account once, with its counters of these cycles: as it was seen, or as it is
/// read.
// rule: database-loads.first
pub(crate) fn find_first<S: Alter>(
    conn: &mut Connection<S>,
    alloc: Global,
    seen: &mut Option<SeenAccount>,
    account: &AccountNumber,
    asked: AskedCycles,
) -> Result<HeadCycles, ReadFault>
    requires idle { HasIdleTables (state S.Store conn.old) }
    requires seen { AreSeen seen.old (state S.Store conn.old) }
    ensures reads { Gathers (λ trees x. IsFirstRead asked (rows_in trees account.now) x)
        (state S.Store conn.old) (state S.Store conn.new) result }
    ensures seen { AreSeen seen.new (state S.Store conn.new) }
{
    match first_seen(alloc, seen, account, asked) {
        Some(read) => Ok(read),
        None => ask_first(conn, alloc, seen, account, asked),
    }
}
