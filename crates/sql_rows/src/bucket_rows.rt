//! Rows of buckets.

ghost use Rattle.std.specs.Prelude.{◌≡◌, ◌≤◌, length, map, filter, true, IsTrue, IfErr, IfOk};
ghost use Rattle.std.specs.Prelude.{IfSome, MatchResult, OnOk, Option, option_map};
ghost use Rattle.buckets.specs.Row.{BucketRow};
ghost use Rattle.buckets.specs.declared.kind.BucketKind.TheVariants.{Money};
ghost use Rattle.sql_rows.specs.Content.{has_bucket, rows_in, with_bucket, with_rows};
ghost use Rattle.sql_rows.specs.Values.{AreColumnsFrom, bucket_cells, bucket_values, money_cells};
ghost use Rattle.sql_rows.specs.Values.{plain_bucket};
ghost use Rattle.sql_rows.specs.Lists.{BucketsRise, Rises, is_dead_bucket};
ghost use Rattle.sql_rows.specs.Ruled.{IsRuledBucket};
ghost use Rattle.sql_rows.specs.Texts.{ReadsBuckets, bucket_row};
ghost use Rattle.sql_rows.specs.Each.{with_buckets};
ghost use Rattle.sql_rows.specs.Makes.{Makes, MakesIfOpen, ReplacesIfSome};
ghost use Rattle.sql_tables.specs.Selects.{one_or_none};
ghost use Rattle.sql_tables.specs.Statements.{HasTables, HasIdleTables, IsInside};
ghost use Rattle.sql_tables.specs.Statements.{AttemptsOver, Reads};
ghost use Rattle.sqlite.specs.Held.{state};
ghost use Rattle.sqlite.specs.State.{ExecutesInside, HasCleanDisk};

use crate::decoding::moment_at;
use buckets::{Bucket, BucketKind, Columns as BucketColumns};
use identifiers::AccountNumber;
use sql_tables::{
    ReadFault, has_columns, large, number_at, one_of, optional, optional_at, read, small_at, text,
    whole, write,
};
use sqlite::{Alter, Connection, Error, Row, Transaction};
use std::alloc::Global;

/// Runs a statement whose parameters are the columns of an account's bucket, in their order. It
/// answers the number of rows.
///
/// # Errors
/// An error of the store. Then nothing is committed.
fn write_bucket<S: Alter>(
    tx: &mut Transaction<'_, S>,
    sql: &str,
    account: &AccountNumber,
    bucket: &Bucket,
) -> Result<usize, Error>
    ensures { AttemptsOver S.Store (λ old new.
        ExecutesInside 0 sql.now (bucket_values account.now bucket.now) old new result)
        tx.old.conn tx.new.conn result }
{
    let of_account = text(account.as_str());
    let number = whole(bucket.number());
    let starts = large(bucket.from().seconds());
    let ends = large(bucket.until().seconds());
    let scope = optional(bucket.scope());
    let credited = large(bucket.credited());
    let available = large(bucket.available());
    let reserved = large(bucket.reserved());
    let charged = large(bucket.charged());
    let expired = large(bucket.expired());
    write(
        tx,
        sql,
        &[
            of_account, number, starts, ends, scope, credited, available, reserved, charged,
            expired,
        ],
    )
}

/// Replaces the columns of an account's bucket, if it has one of the number, and answers whether it
/// has.
///
/// # Errors
/// An error of the store. Then nothing is committed.
// rule: statements-of-tables.tables-content
fn replace_bucket<S: Alter>(
    tx: &mut Transaction<'_, S>,
    account: &AccountNumber,
    bucket: &Bucket,
) -> Result<bool, Error>
    requires tables { HasTables (state S.Store tx.old.conn.now) }
    ensures same_reference { tx.new.conn.ghost_name ≡ tx.old.conn.ghost_name }
    ensures replaces { ReplacesIfSome (has_bucket account.now bucket.now.number)
        (with_rows account.now (with_bucket (plain_bucket bucket.now)))
        (state S.Store tx.old.conn.now) (state S.Store tx.new.conn.now) result }
{
    let count = write_bucket(
        tx,
        "UPDATE buckets SET account = ?1, number = ?2, starts = ?3, ends = ?4, scope = ?5, \
         credited = ?6, available = ?7, reserved = ?8, charged = ?9, expired = ?10 \
         WHERE account = ?1 AND number = ?2",
        account,
        bucket,
    )?;
    Ok(count == 1)
}

/// Puts the columns of an account's bucket, whether it has one of the number or not.
///
/// # Errors
/// An error of the store. Then nothing is committed.
fn insert_bucket<S: Alter>(
    tx: &mut Transaction<'_, S>,
    account: &AccountNumber,
    bucket: &Bucket,
) -> Result<(), Error>
    requires tables { HasTables (state S.Store tx.old.conn.now) }
    ensures { AttemptsOver S.Store
        (Makes (with_rows account.now (with_bucket (plain_bucket bucket.now))))
        tx.old.conn tx.new.conn result }
{
    write_bucket(
        tx,
        "INSERT INTO buckets VALUES (?1, ?2, ?3, ?4, ?5, ?6, ?7, ?8, ?9, ?10) \
         ON CONFLICT (account, number) DO UPDATE SET \
         account = excluded.account, number = excluded.number, starts = excluded.starts, \
         ends = excluded.ends, scope = excluded.scope, credited = excluded.credited, \
         available = excluded.available, reserved = excluded.reserved, \
         charged = excluded.charged, expired = excluded.expired",
        account,
        bucket,
    )?;
    Ok(())
}

/// Puts the columns of an account's bucket. Whether they count money or blocks is beside them
/// (`put_allowance`).
///
/// # Errors
/// An error of the store. Then nothing is committed.
// rule: statements-of-tables.tables-content
pub fn put_bucket<S: Alter>(
    tx: &mut Transaction<'_, S>,
    account: &AccountNumber,
    bucket: &Bucket,
) -> Result<(), Error>
    requires tables { HasTables (state S.Store tx.old.conn.now) }
    ensures { AttemptsOver S.Store
        (Makes (with_rows account.now (with_bucket (plain_bucket bucket.now))))
        tx.old.conn tx.new.conn result }
{
    if replace_bucket(tx, account, bucket)? {
        return Ok(());
    }
    insert_bucket(tx, account, bucket)
}

/// The columns of an account's bucket of this number, if it has one: no other rule of theirs is
/// tested yet, and it is given as one of money.
///
/// # Errors
/// `Store` where the store failed, `Rules` only where the row is out of its rules. Nothing is
/// changed then either.
pub fn read_bucket<S: Alter>(
    conn: &mut Connection<S>,
    account: &AccountNumber,
    number: u32,
) -> Result<Option<BucketColumns>, ReadFault>
    requires idle { HasIdleTables (state S.Store conn.old) }
    ensures reads { Reads (λ trees o.
        option_map bucket_row o ≡ (rows_in trees account.now).buckets number)
        (state S.Store conn.old) (state S.Store conn.new) result }
    // A row that is in the rules is answered.
    ensures refused { HasCleanDisk (state S.Store conn.new) → IfErr result (λ e.
        e ≡ ReadFault.Rules →
        ¬ IfSome ((rows_in (state S.Store conn.old).now.trees account.now).buckets number)
        IsRuledBucket) }
{
    let of_account = text(account.as_str());
    let of_number = whole(number);
    let rows = read(
        conn,
        "SELECT number, starts, ends, scope, credited, available, reserved, charged, expired \
         FROM buckets WHERE account = ?1 AND number = ?2",
        &[of_account, of_number],
    )?;
    bucket_among(&rows)
}

fn bucket_among(rows: &[Row]) -> Result<Option<BucketColumns>, ReadFault>
    ensures { MatchResult result
        (λ o. rows.now ≡ map bucket_cells (one_or_none (option_map bucket_row o)))
        (λ e. e ≡ ReadFault.Rules → (o : Option BucketRow) →
        rows.now ≡ map money_cells (one_or_none o) → ¬ IfSome o IsRuledBucket) }
{
    let row = one_of(rows)?;
    match row {
        None => Ok(None),
        Some(row) => Ok(Some(bucket_from(row)?)),
    }
}

/// All buckets, in the order of their numbers, each once, as their columns say: no other rule of
/// theirs is tested yet, and each is given as one of money.
///
/// # Errors
/// `Store` where the store failed, `Rules` where a row is out of its rules or the numbers don't
/// rise, `Memory` where a growth was refused. Nothing is changed then either.
// rule: statements-of-tables.tables-content
pub fn read_buckets_all<S: Alter>(
    conn: &mut Connection<S>,
    alloc: Global,
    account: &AccountNumber,
) -> Result<Vec<BucketColumns>, ReadFault>
    requires idle { HasIdleTables (state S.Store conn.old) }
    ensures reads { ReadsBuckets (λ b. true) account.now
        (state S.Store conn.old) (state S.Store conn.new) result }
    ensures order { IfOk result (λ bs. BucketsRise (map bucket_row bs.items)) }
{
    let rows = read(
        conn,
        "SELECT number, starts, ends, scope, credited, available, reserved, charged, expired \
         FROM buckets WHERE account = ?1 ORDER BY number",
        &[text(account.as_str())],
    )?;
    all_from(alloc, &rows)
}

/// The buckets of these rows, if each number is above the one before it.
fn all_from(alloc: Global, rows: &[Row]) -> Result<Vec<BucketColumns>, ReadFault>
    ensures cells { IfOk result (λ bs. map bucket_cells (map bucket_row bs.items) ≡ rows.now) }
    ensures order { IfOk result (λ bs. BucketsRise (map bucket_row bs.items)) }
{
    let buckets = buckets_from(alloc, rows)?;
    if !do_buckets_rise(&buckets) {
        return Err(ReadFault::Rules);
    }
    Ok(buckets)
}

/// The buckets of which nothing is available and nothing reserved, in the order of their numbers,
/// as their columns say: no other rule of theirs is tested yet, and each is given as one of money.
///
/// # Errors
/// `Store` where the store failed, `Rules` where a row is out of its rules or the numbers don't
/// rise, `Memory` where a growth was refused. Nothing is changed then either.
pub fn read_buckets_dead<S: Alter>(
    conn: &mut Connection<S>,
    alloc: Global,
    account: &AccountNumber,
) -> Result<Vec<BucketColumns>, ReadFault>
    requires idle { HasIdleTables (state S.Store conn.old) }
    ensures reads { ReadsBuckets is_dead_bucket account.now
        (state S.Store conn.old) (state S.Store conn.new) result }
    ensures order { IfOk result (λ bs. BucketsRise (map bucket_row bs.items)) }
{
    let buckets = read_buckets_all(conn, alloc, account)?;
    dead_among(buckets)
}

/// Whether nothing of it is available and nothing reserved.
fn is_dead(bucket: &BucketColumns) -> bool
    ensures { result ≡ is_dead_bucket (bucket_row bucket.now) }
{
    !(bucket.available > 0 || bucket.reserved > 0)
}

/// Those that are dead, if each number is above the one before it.
fn dead_among(buckets: Vec<BucketColumns>) -> Result<Vec<BucketColumns>, ReadFault>
    ensures dead { IfOk result
        (λ bs. map bucket_row bs.items ≡ filter is_dead_bucket (map bucket_row buckets.items)) }
    ensures order { OnOk result (BucketsRise (map bucket_row buckets.items)) }
{
    if !do_buckets_rise(&buckets) {
        return Err(ReadFault::Rules);
    }
    let mut dead = buckets;
    dead.retain(|bucket| is_dead(bucket));
    Ok(dead)
}

/// Whether each number is above the one before it.
fn do_buckets_rise(buckets: &[BucketColumns]) -> bool
    ensures { IsTrue result → Rises (λ b. b.number) buckets.now }
{
    let mut last: Option<&BucketColumns> = None;
    'rows: for bucket in buckets {
        if let Some(before) = last {
            if bucket.number <= before.number {
                return false;
            }
        }
        last = Some(bucket);
    }
    true
}

fn buckets_from(alloc: Global, rows: &[Row]) -> Result<Vec<BucketColumns>, ReadFault>
    ensures { IfOk result (λ xs. map bucket_cells (map bucket_row xs.items) ≡ rows.now) }
{
    let mut buckets = Vec::new(alloc);
    'rows: for row in rows {
        let bucket = bucket_from(row)?;
        buckets.push(bucket)?;
    }
    Ok(buckets)
}

fn bucket_from(row: &Row) -> Result<BucketColumns, ReadFault>
    ensures { MatchResult result (λ b. row.now ≡ bucket_cells (bucket_row b))
        (λ e. e ≡ ReadFault.Rules → (b : BucketRow) → row.now ≡ money_cells b →
        ¬ IsRuledBucket b) }
{
    has_columns(row, 9)?;
    let columns = columns_from(row)?;
    Ok(columns)
}

/// The columns of a bucket, with which a row begins.
pub(crate) fn columns_from(row: &Row) -> Result<BucketColumns, ReadFault>
    ensures kind { IfOk result (λ b. b.kind ≡ Money) }
    ensures cells { MatchResult result (λ b. AreColumnsFrom 0 row.now (money_cells (bucket_row b)))
        (λ e. e ≡ ReadFault.Rules → 9 ≤ length row.now → (b : BucketRow) →
        AreColumnsFrom 0 row.now (money_cells b) → ¬ IsRuledBucket b) }
{
    let number = small_at(row, 0)?;
    let from = moment_at(row, 1)?;
    let until = moment_at(row, 2)?;
    let scope = optional_at(row, 3)?;
    let credited = number_at(row, 4)?;
    let available = number_at(row, 5)?;
    let reserved = number_at(row, 6)?;
    let charged = number_at(row, 7)?;
    let expired = number_at(row, 8)?;
    Ok(BucketColumns {
        number,
        kind: BucketKind::Money,
        from,
        until,
        scope,
        credited,
        available,
        reserved,
        charged,
        expired,
    })
}

/// Puts each bucket in turn.
///
/// # Errors
/// The first error of a row, as `put_bucket` answers it. Then nothing is committed.
pub fn put_buckets<S: Alter>(
    tx: &mut Transaction<'_, S>,
    account: &AccountNumber,
    rows: &[Bucket],
) -> Result<(), Error>
    requires open { IsInside (state S.Store tx.old.conn.now) }
    requires tables { HasTables (state S.Store tx.old.conn.now) }
    ensures { AttemptsOver S.Store (MakesIfOpen (with_buckets account.now rows.now))
        tx.old.conn tx.new.conn result }
{
    'rows: for row in rows {
        put_bucket(tx, account, row)?;
    }
    Ok(())
}
