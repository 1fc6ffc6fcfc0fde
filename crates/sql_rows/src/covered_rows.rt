//! Rows of covered blocks.

ghost use Rattle.std.specs.Prelude.{◌≡◌, ◌<◌, ◌^◌, map, List, IfErr, IfOk, MatchResult};
ghost use Rattle.std.specs.List.{AllByRecursion};
ghost use Rattle.sql_rows.specs.Content.{rows_in, with_covered, with_rows, without_covered};
ghost use Rattle.sql_rows.specs.Lists.{AreCovered, Ascends, covered_before};
ghost use Rattle.sql_rows.specs.Values.{covered_cells};
ghost use Rattle.sql_rows.specs.Makes.{Makes};
ghost use Rattle.sql_rows.specs.Ruled.{AreRuledCovered};
ghost use Rattle.sql_tables.specs.Statements.{HasTables, HasIdleTables, Reads, AttemptsOver};
ghost use Rattle.sqlite.specs.Held.{state};
ghost use Rattle.sqlite.specs.State.{HasCleanDisk};

use crate::ascending::{InOrder, do_ascend};
use crate::running::run;
use identifiers::AccountNumber;
use sql_tables::{ReadFault, checked, has_columns, number_at, read, small_at, text, whole};
use sqlite::{Alter, Connection, Error, Row, Transaction};
use std::alloc::Global;
use units::Blocks;

/// The blocks of a charge that allowances paid.
#[derive(Clone, Copy)]
pub struct CoveredColumns {
    /// The charge's number within the account.
    pub number: u32,
    /// Its blocks that were covered.
    pub blocks: u64,
}

/// Puts the blocks of an account's charge that allowances paid.
///
/// # Errors
/// `IntegralValueOutOfRange` where there are 2^63 blocks or more, else an error of the store. Then
/// nothing is committed.
// rule: block-rows
pub fn put_covered<S: Alter>(
    tx: &mut Transaction<'_, S>,
    account: &AccountNumber,
    charge: u32,
    covered: Blocks,
) -> Result<(), Error>
    requires tables { HasTables (state S.Store tx.old.conn.now) }
    ensures { AttemptsOver S.Store (Makes (with_rows account.now
        (with_covered (record { number = charge; blocks = covered.0 })))) tx.old.conn tx.new.conn
        result }
{
    let of_account = text(account.as_str());
    let number = whole(charge);
    let blocks = checked(covered.0 as u128, 3)?;
    run(
        tx,
        "INSERT INTO covered VALUES (?1, ?2, ?3) \
         ON CONFLICT (account, number) DO UPDATE SET \
         account = excluded.account, number = excluded.number, blocks = excluded.blocks",
        &[of_account, number, blocks],
    )
}

/// Removes the covered blocks of an account's charge: there are none.
///
/// # Errors
/// An error of the store. Then nothing is committed.
pub fn remove_covered<S: Alter>(
    tx: &mut Transaction<'_, S>,
    account: &AccountNumber,
    charge: u32,
) -> Result<(), Error>
    requires tables { HasTables (state S.Store tx.old.conn.now) }
    ensures { AttemptsOver S.Store (Makes (with_rows account.now (without_covered charge)))
        tx.old.conn tx.new.conn result }
{
    let of_account = text(account.as_str());
    let number = whole(charge);
    run(
        tx,
        "DELETE FROM covered WHERE account = ?1 AND number = ?2",
        &[of_account, number],
    )
}

impl InOrder for CoveredColumns {
    ghost before = { covered_before };

    fn is_before(&self, other: &CoveredColumns) -> bool {
        self.number < other.number
    }
}

/// The covered blocks of an account's charges beyond a number and up to another, in the order of
/// their numbers, each once.
///
/// # Errors
/// `Store` where the store failed, `Rules` only where a row is out of its rules, `Memory` where a
/// growth was refused. Nothing is changed then either.
// rule: block-rows
pub fn read_covered_within<S: Alter>(
    conn: &mut Connection<S>,
    alloc: Global,
    account: &AccountNumber,
    after: u32,
    last: u32,
) -> Result<Vec<CoveredColumns>, ReadFault>
    requires idle { HasIdleTables (state S.Store conn.old) }
    ensures reads { Reads (λ trees xs.
        AreCovered after last (rows_in trees account.now) xs.items)
        (state S.Store conn.old) (state S.Store conn.new) result }
    ensures order { IfOk result (λ xs. Ascends covered_before xs.items) }
    // Rows that are in the rules are answered.
    ensures refused { HasCleanDisk (state S.Store conn.new) → IfErr result (λ e.
        e ≡ ReadFault.Rules →
        ¬ AreRuledCovered (rows_in (state S.Store conn.old).now.trees account.now)) }
{
    let of_account = text(account.as_str());
    let beyond = whole(after);
    let up_to = whole(last);
    let rows = read(
        conn,
        "SELECT number, blocks \
         FROM covered WHERE account = ?1 AND number > ?2 AND number <= ?3 ORDER BY number",
        &[of_account, beyond, up_to],
    )?;
    covered_rows_from(alloc, &rows)
}

fn covered_rows_from(alloc: Global, rows: &[Row]) -> Result<Vec<CoveredColumns>, ReadFault>
    ensures cells { IfOk result (λ xs. map covered_cells xs.items ≡ rows.now) }
    ensures order { IfOk result (λ xs. Ascends covered_before xs.items) }
    ensures refused { IfErr result (λ e. e ≡ ReadFault.Rules → (xs : List CoveredColumns) →
        rows.now ≡ map covered_cells xs → Ascends covered_before xs →
        ¬ AllByRecursion (λ x. x.number < 2 ^ 32) xs) }
{
    let mut covered = Vec::new(alloc);
    'rows: for row in rows {
        let one = covered_from(row)?;
        covered.push(one)?;
    }
    if !do_ascend(&covered) {
        return Err(ReadFault::Rules);
    }
    Ok(covered)
}

// rule: statements-of-tables.refused
fn covered_from(row: &Row) -> Result<CoveredColumns, ReadFault>
    ensures { MatchResult result (λ x. row.now ≡ covered_cells x)
        (λ e. e ≡ ReadFault.Rules → (x : CoveredColumns) → row.now ≡ covered_cells x →
        ¬ (x.number < 2 ^ 32)) }
{
    has_columns(row, 2)?;
    let number = small_at(row, 0)?;
    let blocks = number_at(row, 1)?;
    Ok(CoveredColumns { number, blocks })
}
