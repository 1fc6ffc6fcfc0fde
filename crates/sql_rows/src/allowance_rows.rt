//! Rows that say which buckets count blocks.

ghost use Rattle.std.specs.Prelude.{◌≡◌, ◌<◌, ◌^◌, map, nat_lt, List, IfErr, IfOk, MatchResult};
ghost use Rattle.std.specs.List.{AllByRecursion};
ghost use Rattle.buckets.specs.Words.{BucketNumber};
ghost use Rattle.sql_rows.specs.Content.{rows_in, with_allowance, with_rows, without_allowance};
ghost use Rattle.sql_rows.specs.Lists.{AreAllowances, Ascends};
ghost use Rattle.sql_rows.specs.Values.{number_cells};
ghost use Rattle.sql_rows.specs.Makes.{Makes};
ghost use Rattle.sql_rows.specs.Ruled.{AreRuledAllowances};
ghost use Rattle.sql_tables.specs.Statements.{AttemptsOver, HasTables, HasIdleTables, Reads};
ghost use Rattle.sqlite.specs.Held.{state};
ghost use Rattle.sqlite.specs.State.{HasCleanDisk};

use crate::ascending::{InOrder, do_ascend};
use crate::running::run;
use identifiers::AccountNumber;
use sql_tables::{ReadFault, has_columns, read, small_at, text, whole};
use sqlite::{Alter, Connection, Error, Row, Transaction};
use std::alloc::Global;

/// Puts that a bucket of an account counts blocks.
///
/// # Errors
/// An error of the store. Then nothing is committed.
pub fn put_allowance<S: Alter>(
    tx: &mut Transaction<'_, S>,
    account: &AccountNumber,
    bucket: u32,
) -> Result<(), Error>
    requires tables { HasTables (state S.Store tx.old.conn.now) }
    ensures { AttemptsOver S.Store (Makes (with_rows account.now (with_allowance bucket)))
        tx.old.conn tx.new.conn result }
{
    let of_account = text(account.as_str());
    let number = whole(bucket);
    run(
        tx,
        "INSERT INTO allowance_buckets VALUES (?1, ?2) \
         ON CONFLICT (account, number) DO UPDATE SET \
         account = excluded.account, number = excluded.number",
        &[of_account, number],
    )
}

/// Removes that a bucket of an account counts blocks: it counts money.
///
/// # Errors
/// An error of the store. Then nothing is committed.
// rule: block-rows
pub fn remove_allowance<S: Alter>(
    tx: &mut Transaction<'_, S>,
    account: &AccountNumber,
    bucket: u32,
) -> Result<(), Error>
    requires tables { HasTables (state S.Store tx.old.conn.now) }
    ensures { AttemptsOver S.Store (Makes (with_rows account.now (without_allowance bucket)))
        tx.old.conn tx.new.conn result }
{
    let of_account = text(account.as_str());
    let number = whole(bucket);
    run(
        tx,
        "DELETE FROM allowance_buckets WHERE account = ?1 AND number = ?2",
        &[of_account, number],
    )
}

impl InOrder for u32 {
    ghost before = { nat_lt };

    fn is_before(&self, other: &u32) -> bool {
        *self < *other
    }
}

/// The numbers of an account's buckets that count blocks, in order, each once.
///
/// # Errors
/// `Store` where the store failed, `Rules` only where a row is out of its rules, `Memory` where a
/// growth was refused. Nothing is changed then either.
pub fn read_allowances<S: Alter>(
    conn: &mut Connection<S>,
    alloc: Global,
    account: &AccountNumber,
) -> Result<Vec<u32>, ReadFault>
    requires idle { HasIdleTables (state S.Store conn.old) }
    ensures reads { Reads (λ trees xs. AreAllowances (rows_in trees account.now) xs.items)
        (state S.Store conn.old) (state S.Store conn.new) result }
    ensures order { IfOk result (λ xs. Ascends nat_lt xs.items) }
    // Rows that are in the rules are answered.
    ensures refused { HasCleanDisk (state S.Store conn.new) → IfErr result (λ e.
        e ≡ ReadFault.Rules →
        ¬ AreRuledAllowances (rows_in (state S.Store conn.old).now.trees account.now)) }
{
    let rows = read(
        conn,
        "SELECT number FROM allowance_buckets WHERE account = ?1 ORDER BY number",
        &[text(account.as_str())],
    )?;
    numbers_from(alloc, &rows)
}

// rule: block-rows
fn numbers_from(alloc: Global, rows: &[Row]) -> Result<Vec<u32>, ReadFault>
    ensures cells { IfOk result (λ xs. map number_cells xs.items ≡ rows.now) }
    ensures order { IfOk result (λ xs. Ascends nat_lt xs.items) }
    ensures refused { IfErr result (λ e. e ≡ ReadFault.Rules → (xs : List BucketNumber) →
        rows.now ≡ map number_cells xs → Ascends nat_lt xs →
        ¬ AllByRecursion (λ n. n < 2 ^ 32) xs) }
{
    let mut numbers = Vec::new(alloc);
    'rows: for row in rows {
        let number = number_from(row)?;
        numbers.push(number)?;
    }
    if !do_ascend(&numbers) {
        return Err(ReadFault::Rules);
    }
    Ok(numbers)
}

// rule: statements-of-tables.refused
fn number_from(row: &Row) -> Result<u32, ReadFault>
    ensures { MatchResult result (λ n. row.now ≡ number_cells n)
        (λ e. e ≡ ReadFault.Rules → (n : BucketNumber) → row.now ≡ number_cells n →
        ¬ (n < 2 ^ 32)) }
{
    has_columns(row, 1)?;
    let number = small_at(row, 0)?;
    Ok(number)
}
