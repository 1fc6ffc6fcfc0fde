//! What is kept of an account once, with its counters of cycles, found by one selection of parts,
//! each of which has its number in the first column.

ghost use Rattle.std.specs.Prelude.{◌≡◌, IfOk, true};
ghost use Rattle.reserving.specs.Sessions.{counter_before};
ghost use Rattle.sql_rows.specs.Content.{rows_in};
ghost use Rattle.sql_rows.specs.Lists.{AreCountersAmong, AreCountersIn, Ascends, IsHeadAmong};
ghost use Rattle.sql_rows.specs.Lists.{counter_part, head_part, of_part};
ghost use Rattle.sql_rows.specs.Values.{nat};
ghost use Rattle.sql_tables.specs.Statements.{HasIdleTables, Reads};
ghost use Rattle.sqlite.specs.Held.{state};
ghost use Rattle.sqlite_value.specs.Order.{column};

use crate::ascending::{InOrder, do_ascend};
use crate::decoding::{flag_at, is_of_part, moment_at};
use crate::head::HeadColumns;
use identifiers::AccountNumber;
use reserving::Counter;
use sql_tables::{ReadFault, has_columns, number_at, read, small_at, text, whole};
use sqlite::{Alter, Connection, Row};
use std::alloc::Global;

impl InOrder for Counter {
    ghost before = { counter_before };

    fn is_before(&self, other: &Counter) -> bool {
        self.group
            .cmp(&other.group)
            .then(self.cycle.cmp(&other.cycle))
            .is_lt()
    }
}

/// What is kept of an account once, and its counters of a cycle.
#[derive(Drop)]
pub struct HeadCounters {
    /// What is kept once: none where the account is not opened.
    pub head: Option<HeadColumns>,
    /// The counters, in the order of their rating groups.
    pub counters: Vec<Counter>,
}

/// What is kept of an account once, and its counters of a cycle in the order of their rating
/// groups, each once: one selection of two parts.
///
/// # Errors
/// `Store` where the store failed, `Rules` where a row is out of its rules or the keys don't rise,
/// `Memory` where a growth was refused. Nothing is changed then either.
// rule: statements-of-tables.tables-content
pub fn read_head_counters<S: Alter>(
    conn: &mut Connection<S>,
    alloc: Global,
    account: &AccountNumber,
    cycle: u32,
) -> Result<HeadCounters, ReadFault>
    requires idle { HasIdleTables (state S.Store conn.old) }
    ensures reads { Reads (λ trees x. (x.head ≡ (rows_in trees account.now).head)
        × AreCountersIn cycle (rows_in trees account.now) x.counters.items)
        (state S.Store conn.old) (state S.Store conn.new) result }
    ensures order { IfOk result (λ x. Ascends counter_before x.counters.items) }
{
    let of_account = text(account.as_str());
    let of_cycle = whole(cycle);
    let rows = read(
        conn,
        "SELECT 0, barred, as_of, next_bucket, next_charge FROM accounts WHERE account = ?1 \
         UNION ALL SELECT 1, rating_group, cycle, blocks, 0 FROM counters \
         WHERE account = ?1 AND cycle = ?2 ORDER BY 1, 2",
        &[of_account, of_cycle],
    )?;
    head_counters_from(alloc, &rows)
}

/// The numbers of the cycles of a moment (TS 32.296 counters).
#[derive(Clone, Copy)]
pub struct CycleNumbers {
    /// Of counters that never begin again.
    pub never: u32,
    /// Of the day.
    pub day: u32,
    /// Of the month.
    pub month: u32,
}

/// What is kept of an account once, and its counters of the cycles of a moment, each list in the
/// order of their rating groups.
#[derive(Drop)]
pub struct HeadCycles {
    /// What is kept once: none where the account is not opened.
    pub head: Option<HeadColumns>,
    /// The counters that never begin again.
    pub never: Vec<Counter>,
    /// The counters of the day.
    pub daily: Vec<Counter>,
    /// The counters of the month.
    pub monthly: Vec<Counter>,
}

/// What is kept of an account once, and its counters of three cycles in the order of their rating
/// groups, each once: one selection of four parts. Two cycles may have the same number.
///
/// # Errors
/// As of `read_head_counters`.
// rule: statements-of-tables.tables-content
pub fn read_head_cycles<S: Alter>(
    conn: &mut Connection<S>,
    alloc: Global,
    account: &AccountNumber,
    cycles: CycleNumbers,
) -> Result<HeadCycles, ReadFault>
    requires idle { HasIdleTables (state S.Store conn.old) }
    ensures reads { Reads (λ trees x. (x.head ≡ (rows_in trees account.now).head)
        × AreCountersIn cycles.never (rows_in trees account.now) x.never.items
        × AreCountersIn cycles.day (rows_in trees account.now) x.daily.items
        × AreCountersIn cycles.month (rows_in trees account.now) x.monthly.items)
        (state S.Store conn.old) (state S.Store conn.new) result }
    ensures order { IfOk result (λ x. Ascends counter_before x.never.items
        × Ascends counter_before x.daily.items × Ascends counter_before x.monthly.items) }
{
    let of_account = text(account.as_str());
    let never = whole(cycles.never);
    let day = whole(cycles.day);
    let month = whole(cycles.month);
    let rows = read(
        conn,
        "SELECT 0, barred, as_of, next_bucket, next_charge FROM accounts WHERE account = ?1 \
         UNION ALL SELECT 1, rating_group, cycle, blocks, 0 FROM counters \
         WHERE account = ?1 AND cycle = ?2 \
         UNION ALL SELECT 2, rating_group, cycle, blocks, 0 FROM counters \
         WHERE account = ?1 AND cycle = ?3 \
         UNION ALL SELECT 3, rating_group, cycle, blocks, 0 FROM counters \
         WHERE account = ?1 AND cycle = ?4 ORDER BY 1, 2",
        &[of_account, never, day, month],
    )?;
    head_cycles_from(alloc, &rows)
}

/// What the rows of both parts say.
fn head_counters_from(alloc: Global, rows: &[Row]) -> Result<HeadCounters, ReadFault>
    ensures cells { IfOk result (λ x. IsHeadAmong rows.now x.head
        × AreCountersAmong 1 rows.now x.counters.items) }
    ensures order { IfOk result (λ x. Ascends counter_before x.counters.items) }
{
    let head = head_of_part(rows)?;
    let counters = counters_of_part(alloc, rows, 1)?;
    Ok(HeadCounters { head, counters })
}

/// What the rows of the four parts say.
fn head_cycles_from(alloc: Global, rows: &[Row]) -> Result<HeadCycles, ReadFault>
    ensures cells { IfOk result (λ x. IsHeadAmong rows.now x.head
        × AreCountersAmong 1 rows.now x.never.items × AreCountersAmong 2 rows.now x.daily.items
        × AreCountersAmong 3 rows.now x.monthly.items) }
    ensures order { IfOk result (λ x. Ascends counter_before x.never.items
        × Ascends counter_before x.daily.items × Ascends counter_before x.monthly.items) }
{
    let head = head_of_part(rows)?;
    let never = counters_of_part(alloc, rows, 1)?;
    let daily = counters_of_part(alloc, rows, 2)?;
    let monthly = counters_of_part(alloc, rows, 3)?;
    Ok(HeadCycles {
        head,
        never,
        daily,
        monthly,
    })
}

/// Whether a row is of the part of this number.
fn has_part(row: &Row, part: u64) -> Result<bool, ReadFault>
    ensures number { IfOk result (λ is. is ≡ of_part part row.now) }
    ensures column { IfOk result (λ is. is ≡ true → column row.now 0 ≡ nat part) }
{
    let number = number_at(row, 0)?;
    Ok(number == part)
}

fn head_in_part(row: &Row) -> Result<HeadColumns, ReadFault>
    ensures { IfOk result (λ h. row.now ≡ head_part h) }
{
    has_columns(row, 5)?;
    is_of_part(row, 0)?;
    let barred = flag_at(row, 1)?;
    let as_of = moment_at(row, 2)?;
    let next_bucket = number_at(row, 3)?;
    let next_charge = number_at(row, 4)?;
    Ok(HeadColumns {
        barred,
        as_of,
        next_bucket,
        next_charge,
    })
}

/// The account's own row among those of all parts: more than one is out of the rules.
fn head_of_part(rows: &[Row]) -> Result<Option<HeadColumns>, ReadFault>
    ensures { IfOk result (IsHeadAmong rows.now) }
{
    let mut found = None;
    'rows: for row in rows {
        if has_part(row, 0)? {
            if found.is_some() {
                return Err(ReadFault::Rules);
            }
            found = Some(head_in_part(row)?);
        }
    }
    Ok(found)
}

/// Tests that the last column is 0, which is there where a counter has none.
fn has_no_more(row: &Row) -> Result<(), ReadFault>
    ensures { IfOk result (λ _. column row.now 4 ≡ nat 0) }
{
    if number_at(row, 4)? == 0 {
        Ok(())
    } else {
        Err(ReadFault::Rules)
    }
}

fn counter_in_part(row: &Row, part: u64) -> Result<Counter, ReadFault>
    ensures { IfOk result (λ k. row.now ≡ counter_part part k) }
{
    has_columns(row, 5)?;
    is_of_part(row, part)?;
    let group = small_at(row, 1)?;
    let cycle = small_at(row, 2)?;
    let blocks = number_at(row, 3)?;
    has_no_more(row)?;
    Ok(Counter {
        group,
        cycle,
        blocks,
    })
}

/// The counters of the part of this number.
fn counters_of_part(alloc: Global, rows: &[Row], part: u64) -> Result<Vec<Counter>, ReadFault>
    ensures cells { IfOk result (λ xs. AreCountersAmong part rows.now xs.items) }
    ensures order { IfOk result (λ xs. Ascends counter_before xs.items) }
{
    let mut counters = Vec::new(alloc);
    'rows: for row in rows {
        if has_part(row, part)? {
            let counter = counter_in_part(row, part)?;
            counters.push(counter)?;
        }
    }
    if !do_ascend(&counters) {
        return Err(ReadFault::Rules);
    }
    Ok(counters)
}
