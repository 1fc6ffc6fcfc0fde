//! The buckets of an account that aren't spent, found without those that are.

ghost use Rattle.std.specs.Prelude.{◌≡◌, map, IfOk};
ghost use Rattle.buckets.specs.Row.{precedes};
ghost use Rattle.sql_rows.specs.Content.{rows_in};
ghost use Rattle.sql_rows.specs.Lists.{Ascends};
ghost use Rattle.sql_rows.specs.Texts.{AreLive, bucket_row, columns_of, live_cells};
ghost use Rattle.sql_tables.specs.Statements.{HasTables, HasIdleTables, HasRules, Reads};
ghost use Rattle.sql_tables.specs.Statements.{ReadsWithin};
ghost use Rattle.sqlite.specs.Held.{state};

use crate::ascending::{InOrder, do_ascend};
use crate::bucket_rows::columns_from;
use crate::decoding::flag_at;
use buckets::Columns as BucketColumns;
use identifiers::AccountNumber;
use sql_tables::{ReadFault, has_columns, read, read_within, text};
use sqlite::{Alter, Connection, Row, Transaction};
use std::alloc::Global;

/// A bucket of which something is available or reserved, with what it counts.
#[derive(Clone, Copy)]
pub struct LiveBucket {
    /// Its columns, which are given as those of one of money.
    pub columns: BucketColumns,
    /// Whether a row beside it says that it counts blocks.
    pub counts_blocks: bool,
}

impl InOrder for LiveBucket {
    ghost before = { λ x y. precedes (bucket_row x.columns) (bucket_row y.columns) };

    fn is_before(&self, other: &LiveBucket) -> bool {
        let own = &self.columns;
        let others = &other.columns;
        own.until < others.until || own.until == others.until && own.number < others.number
    }
}

/// The bucket of a row: its columns, and a flag behind them.
fn live_bucket_from(row: &Row) -> Result<LiveBucket, ReadFault>
    ensures { IfOk result (λ x. row.now ≡ live_cells x) }
{
    has_columns(row, 10)?;
    let columns = columns_from(row)?;
    let counts_blocks = flag_at(row, 9)?;
    Ok(LiveBucket {
        columns,
        counts_blocks,
    })
}

/// The buckets of these rows, if they are in the order of their use.
fn live_from(alloc: Global, rows: &[Row]) -> Result<Vec<LiveBucket>, ReadFault>
    ensures cells { IfOk result (λ xs. map live_cells xs.items ≡ rows.now) }
    ensures order { IfOk result (λ xs. Ascends precedes (map bucket_row (columns_of xs.items))) }
{
    let mut buckets = Vec::new(alloc);
    'rows: for row in rows {
        let bucket = live_bucket_from(row)?;
        buckets.push(bucket)?;
    }
    if !do_ascend(&buckets) {
        return Err(ReadFault::Rules);
    }
    Ok(buckets)
}

/// The buckets of which something is available or reserved, in the order of their use, each once,
/// as their columns and the row beside each say: no other rule of theirs is tested yet. One
/// selection of two parts: the index finds each part without a bucket that is spent, which it
/// wouldn't by one test of either.
///
/// # Errors
/// `Store` where the store failed, `Rules` where a row is out of its rules or they aren't in
/// the order of their use, `Memory` where a growth was refused. Nothing is changed then either.
// rule: statements-of-tables.tables-content
pub fn read_buckets_live<S: Alter>(
    conn: &mut Connection<S>,
    alloc: Global,
    account: &AccountNumber,
) -> Result<Vec<LiveBucket>, ReadFault>
    requires idle { HasIdleTables (state S.Store conn.old) }
    ensures reads { Reads (λ trees xs. AreLive (rows_in trees account.now) xs.items)
        (state S.Store conn.old) (state S.Store conn.new) result }
    ensures order { IfOk result (λ xs. Ascends precedes (map bucket_row (columns_of xs.items))) }
{
    let rows = read(
        conn,
        "SELECT number, starts, ends, scope, credited, available, reserved, charged, expired, \
         EXISTS (SELECT 1 FROM allowance_buckets \
         WHERE allowance_buckets.account = buckets.account \
         AND allowance_buckets.number = buckets.number) AS counts_blocks \
         FROM buckets WHERE account = ?1 AND available >= 1 UNION ALL \
         SELECT number, starts, ends, scope, credited, available, reserved, charged, expired, \
         EXISTS (SELECT 1 FROM allowance_buckets \
         WHERE allowance_buckets.account = buckets.account \
         AND allowance_buckets.number = buckets.number) AS counts_blocks \
         FROM buckets WHERE account = ?1 AND available = 0 AND reserved >= 1 \
         ORDER BY ends, number",
        &[text(account.as_str())],
    )?;
    live_from(alloc, &rows)
}

/// The buckets of which something is available or reserved, within a transaction.
///
/// # Errors
/// As of `read_buckets_live`. Then nothing is committed.
// rule: statements-of-tables.reads-within
pub fn read_buckets_live_within<S: Alter>(
    tx: &mut Transaction<'_, S>,
    alloc: Global,
    account: &AccountNumber,
) -> Result<Vec<LiveBucket>, ReadFault>
    requires tables { HasTables (state S.Store tx.old.conn.now) }
    requires rules { HasRules (state S.Store tx.old.conn.now) }
    ensures same_reference { tx.new.conn.ghost_name ≡ tx.old.conn.ghost_name }
    ensures reads { ReadsWithin (λ trees xs. AreLive (rows_in trees account.now) xs.items)
        (state S.Store tx.old.conn.now) (state S.Store tx.new.conn.now) result }
    ensures order { IfOk result (λ xs. Ascends precedes (map bucket_row (columns_of xs.items))) }
{
    let rows = read_within(
        tx,
        "SELECT number, starts, ends, scope, credited, available, reserved, charged, expired, \
         EXISTS (SELECT 1 FROM allowance_buckets WHERE allowance_buckets.account = \
         buckets.account AND allowance_buckets.number = buckets.number) AS counts_blocks \
         FROM buckets WHERE account = ?1 AND available >= 1 UNION ALL SELECT number, starts, \
         ends, scope, credited, available, reserved, charged, expired, EXISTS (SELECT 1 FROM \
         allowance_buckets WHERE allowance_buckets.account = buckets.account AND \
         allowance_buckets.number = buckets.number) AS counts_blocks FROM buckets WHERE \
         account = ?1 AND available = 0 AND reserved >= 1 ORDER BY ends, number",
        &[text(account.as_str())],
    )?;
    live_from(alloc, &rows)
}
