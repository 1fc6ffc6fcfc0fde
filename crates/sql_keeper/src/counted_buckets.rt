//! Buckets with what they count: money, or blocks where a row of their own says so.

ghost use Rattle.std.specs.Prelude.{◌≡◌, map, IfOk};
ghost use Rattle.sql_rows.specs.Content.{with_rows};
ghost use Rattle.sql_rows.specs.Makes.{Makes, MakesIfOpen};
ghost use Rattle.sql_tables.specs.Statements.{AttemptsOver, HasTables, IsInside};
ghost use Rattle.sql_keeper.specs.Kinds.{counted_live};
ghost use Rattle.sql_keeper.specs.Writes.{with_all_counted, with_all_counted_over, with_counted};
ghost use Rattle.sql_keeper.specs.Writes.{with_counted_over, with_kind, with_scoped};
ghost use Rattle.sqlite.specs.Held.{state};

use crate::kept_kinds::is_counted;
use crate::kept_rows::KeptRows;
use crate::rebuilding::bucket_of;
use buckets::{Bucket, BucketKind};
use identifiers::AccountNumber;
use sql_rows::{LiveBucket, put_allowance, put_bucket, remove_allowance};
use sql_tables::ReadFault;
use sqlite::{Alter, Error, Transaction};
use std::alloc::Global;

/// Puts what a bucket counts, as a row beside it.
fn put_kind<S: Alter>(
    tx: &mut Transaction<'_, S>,
    account: &AccountNumber,
    bucket: &Bucket,
) -> Result<(), Error>
    requires tables { HasTables (state S.Store tx.old.conn.now) }
    ensures { AttemptsOver S.Store
        (Makes (with_rows account.now (with_kind bucket.now.kind bucket.now.number)))
        tx.old.conn tx.new.conn result }
{
    match bucket.kind() {
        BucketKind::Money => remove_allowance(tx, account, bucket.number()),
        BucketKind::Blocks => put_allowance(tx, account, bucket.number()),
    }
}

/// Puts what a bucket of one rating group counts; any other counts money, and has no row of it.
fn put_scoped<S: Alter>(
    tx: &mut Transaction<'_, S>,
    account: &AccountNumber,
    bucket: &Bucket,
) -> Result<(), Error>
    requires open { IsInside (state S.Store tx.old.conn.now) }
    requires tables { HasTables (state S.Store tx.old.conn.now) }
    ensures { AttemptsOver S.Store (MakesIfOpen
        (with_scoped account.now bucket.now.scope bucket.now.kind bucket.now.number))
        tx.old.conn tx.new.conn result }
{
    match bucket.scope() {
        None => Ok(()),
        Some(_) => put_kind(tx, account, bucket),
    }
}

/// Puts a bucket with what it counts.
fn put_with_kind<S: Alter>(
    tx: &mut Transaction<'_, S>,
    account: &AccountNumber,
    bucket: &Bucket,
) -> Result<(), Error>
    requires tables { HasTables (state S.Store tx.old.conn.now) }
    ensures { AttemptsOver S.Store (Makes (with_counted account.now bucket.now))
        tx.old.conn tx.new.conn result }
{
    put_bucket(tx, account, bucket)?;
    put_scoped(tx, account, bucket)
}

/// Puts each bucket in turn, with what it counts.
///
/// # Errors
/// The first error of a row. Then nothing is committed.
pub(crate) fn put_counted<S: Alter>(
    tx: &mut Transaction<'_, S>,
    account: &AccountNumber,
    rows: &[Bucket],
) -> Result<(), Error>
    requires open { IsInside (state S.Store tx.old.conn.now) }
    requires tables { HasTables (state S.Store tx.old.conn.now) }
    ensures { AttemptsOver S.Store (MakesIfOpen (with_all_counted account.now rows.now))
        tx.old.conn tx.new.conn result }
{
    'rows: for row in rows {
        put_with_kind(tx, account, row)?;
    }
    Ok(())
}

/// Puts a bucket, and the row beside it unless the rows that are kept show that it stays.
fn put_counted_row<S: Alter>(
    tx: &mut Transaction<'_, S>,
    account: &AccountNumber,
    kept: &Option<KeptRows>,
    bucket: &Bucket,
) -> Result<(), Error>
    requires tables { HasTables (state S.Store tx.old.conn.now) }
    ensures { AttemptsOver S.Store (Makes (with_counted_over account.now kept.now bucket.now))
        tx.old.conn tx.new.conn result }
{
    if is_counted(kept, account, bucket) {
        put_bucket(tx, account, bucket)
    } else {
        put_with_kind(tx, account, bucket)
    }
}

/// Puts each bucket in turn, with the row beside it unless the rows that are kept show that it
/// stays: nothing is removed then, and nothing put again.
///
/// # Errors
/// As of `put_counted`.
// rule: database-writes.counted
pub(crate) fn put_counted_over<S: Alter>(
    tx: &mut Transaction<'_, S>,
    account: &AccountNumber,
    kept: &Option<KeptRows>,
    rows: &[Bucket],
) -> Result<(), Error>
    requires open { IsInside (state S.Store tx.old.conn.now) }
    requires tables { HasTables (state S.Store tx.old.conn.now) }
    ensures { AttemptsOver S.Store
        (MakesIfOpen (with_all_counted_over account.now kept.now rows.now))
        tx.old.conn tx.new.conn result }
{
    'rows: for row in rows {
        put_counted_row(tx, account, kept, row)?;
    }
    Ok(())
}

/// The bucket of each row, in turn, with what it counts. One of no one rating group counts money,
/// whatever is beside it.
///
/// # Errors
/// `Rules` where a row is out of its rules, `Memory` where a growth was refused.
pub(crate) fn counted_from(alloc: Global, rows: &[LiveBucket]) -> Result<Vec<Bucket>, ReadFault>
    ensures { IfOk result (λ bs. bs.items ≡ map counted_live rows.now) }
{
    let mut buckets = Vec::new(alloc);
    'rows: for row in rows {
        let bucket = bucket_of(&row.columns, row.counts_blocks)?;
        buckets.push(bucket)?;
    }
    Ok(buckets)
}
