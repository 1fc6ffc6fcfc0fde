//! What the first selection of a load would give once a change is written, made of what it gave
//! before, so that the next command of the account needn't select it.

ghost use Rattle.std.specs.Prelude.{◌≡◌, ◌==◌, ℕ, List, filter, IfOk, IfSome, OnOk};
ghost use Rattle.sqlite_trees.specs.Tree.{Trees};
ghost use Rattle.sql_keeper.specs.Content.{Names};
ghost use Rattle.sql_keeper.specs.FirstOver.{counters_over, IsFirstOver, IsSeenOver, stays_counter};
ghost use Rattle.sql_keeper.specs.KeptRows.{BecomesOver};
ghost use Rattle.sql_keeper.specs.Seen.{IsSeen, Sees};
ghost use Rattle.sql_keeper.specs.SeenFirst.{IsFirstRead};
ghost use Rattle.sql_rows.specs.Content.{rows_in};

use crate::among::has_counter;
use crate::putting::head_named;
use crate::seen::{SeenAccount, is_same_account};
use crate::seen_first::{AskedCycles, SeenFirst, copy_of_counters, first_alone};
use identifiers::AccountNumber;
use keepers::{Change, NamedRows};
use reserving::Counter;
use sql_rows::HeadCycles;
use sql_tables::ReadFault;
use std::alloc::{AllocError, Global};

/// Whether a counter stays as it is: none of its rating group and cycle is named.
fn stays_counter(named: &[Counter], row: &Counter) -> bool
    ensures { result ≡ stays_counter named.now row.now }
{
    !has_counter(named, row.group, row.cycle)
}

fn is_of_cycle(row: &Counter, cycle: u32) -> bool
    ensures { result ≡ row.now.cycle == cycle }
{
    row.cycle == cycle
}

/// Takes out the counters that are named.
fn keep_counters(rows: &mut Vec<Counter>, named: &[Counter])
    ensures { rows.new.items ≡ filter (stays_counter named.now) rows.old.items }
{
    rows.retain(|row| stays_counter(named, row));
}

/// Takes out the counters of other cycles.
fn keep_cycle(rows: &mut Vec<Counter>, cycle: u32)
    ensures { rows.new.items ≡ filter (λ x. x.cycle == cycle) rows.old.items }
{
    rows.retain(|row| is_of_cycle(row, cycle));
}

/// The counters of a cycle once a change names some: those of the cycle that it names, and all
/// others that there were.
fn counters_over(
    alloc: Global,
    rows: Vec<Counter>,
    named: &[Counter],
    cycle: u32,
) -> Result<Vec<Counter>, AllocError>
    ensures { IfOk result (λ xs. xs.items ≡ counters_over cycle named.now rows.items) }
{
    let mut others = rows;
    keep_counters(&mut others, named);
    let mut all = copy_of_counters(alloc, named)?;
    keep_cycle(&mut all, cycle);
    all.append(&mut others)?;
    Ok(all)
}

/// What the first selection would give once a change is written.
fn read_over(
    alloc: Global,
    read: HeadCycles,
    asked: AskedCycles,
    change: &NamedRows,
) -> Result<HeadCycles, AllocError>
    ensures { IfOk result (IsFirstOver asked change.now read) }
{
    let named = change.counters();
    let HeadCycles {
        head: _,
        never,
        daily,
        monthly,
    } = read;
    let never = counters_over(alloc, never, named, asked.never)?;
    let daily = counters_over(alloc, daily, named, asked.day)?;
    let monthly = counters_over(alloc, monthly, named, asked.month)?;
    Ok(HeadCycles {
        head: Some(head_named(change)),
        never,
        daily,
        monthly,
    })
}

/// What the first selection would give once a change is written, for the cycles that were asked
/// for.
fn first_over(alloc: Global, first: SeenFirst, change: &NamedRows) -> Result<SeenFirst, AllocError>
    ensures { IfOk result (IsSeenOver change.now first) }
{
    let SeenFirst { asked, read } = first;
    let read = read_over(alloc, read, asked, change)?;
    Ok(SeenFirst { asked, read })
}

/// What the first selection would give once a change is written; None where it wasn't seen, and for
/// lack of memory.
fn first_changed(alloc: Global, first: Option<SeenFirst>, change: &Change) -> Option<SeenFirst>
    ensures { (names : Names) (text : List ℕ) (old new : Trees) →
        BecomesOver names text change.now old new →
        IfSome first (λ y. IsFirstRead y.asked (rows_in old change.now.number) y.read) →
        IfSome result (λ y. IsFirstRead y.asked (rows_in new change.now.number) y.read) }
{
    match first {
        None => None,
        Some(first) => first_over(alloc, first, &change.rows).ok(),
    }
}

/// What is seen of an account of which the first selection alone is known, if it is.
fn seen_alone(account: &AccountNumber, first: Option<SeenFirst>) -> Option<SeenAccount>
    ensures { (trees : Trees) →
        IfSome first (λ y. IsFirstRead y.asked (rows_in trees account.now) y.read) →
        Sees result trees }
{
    match first {
        None => None,
        Some(first) => first_alone(account, first),
    }
}

/// What is seen of the account of a change once it is written: what the first selection would give,
/// and nothing else. Another account is forgotten.
fn seen_with_change(alloc: Global, seen: SeenAccount, change: &Change) -> Option<SeenAccount>
    ensures { (names : Names) (text : List ℕ) (old new : Trees) →
        BecomesOver names text change.now old new → IsSeen (rows_in old seen.account) seen →
        Sees result new }
{
    if !is_same_account(&seen.account, &change.number) {
        return None;
    }
    let SeenAccount {
        account: _,
        head: _,
        live: _,
        grant: _,
        unknown: _,
        first,
    } = seen;
    let first = first_changed(alloc, first, change);
    seen_alone(&change.number, first)
}

/// What is seen once a change was made; nothing where it wasn't.
// rule: database-loads.first
pub(crate) fn seen_over(
    alloc: Global,
    seen: Option<SeenAccount>,
    made: &Result<(), ReadFault>,
    change: &Change,
) -> Option<SeenAccount>
    ensures { (names : Names) (text : List ℕ) (old new : Trees) →
        OnOk made.now (BecomesOver names text change.now old new) → Sees seen old →
        Sees result new }
{
    match made {
        Err(_) => None,
        Ok(()) => match seen {
            None => None,
            Some(seen) => seen_with_change(alloc, seen, change),
        },
    }
}
