//! Rows of counters.

ghost use Rattle.std.specs.Prelude.{◌≡◌, map, IfErr, IfSome, MatchResult, Option};
ghost use Rattle.sql_rows.specs.Content.{has_counter, rows_in, with_counter_row, with_rows};
ghost use Rattle.sql_rows.specs.Each.{with_counters};
ghost use Rattle.sql_rows.specs.Values.{counter_cells, counter_values};
ghost use Rattle.sql_rows.specs.Makes.{Makes, MakesIfOpen, ReplacesIfSome};
ghost use Rattle.sql_rows.specs.Ruled.{IsRuledCounter};
ghost use Rattle.sql_tables.specs.Statements.{HasTables, HasIdleTables, IsInside, Reads};
ghost use Rattle.sql_tables.specs.Statements.{AttemptsOver};
ghost use Rattle.sql_tables.specs.Selects.{one_or_none};
ghost use Rattle.sqlite.specs.Held.{state};
ghost use Rattle.sqlite.specs.State.{ExecutesInside, HasCleanDisk};

use identifiers::AccountNumber;
use reserving::Counter;
use sql_tables::{
    ReadFault, checked, has_columns, number_at, one_of, read, small_at, text, whole, write,
};
use sqlite::{Alter, Connection, Error, Row, Transaction};

/// Runs a statement whose parameters are the columns of an account's counter, in their order. It
/// answers the number of rows.
///
/// # Errors
/// As of `put_counter`.
fn write_counter<S: Alter>(
    tx: &mut Transaction<'_, S>,
    sql: &str,
    account: &AccountNumber,
    counter: &Counter,
) -> Result<usize, Error>
    ensures { AttemptsOver S.Store (λ old new.
        ExecutesInside 0 sql.now (counter_values account.now counter.now) old new result)
        tx.old.conn tx.new.conn result }
{
    let of_account = text(account.as_str());
    let group = whole(counter.group);
    let cycle = whole(counter.cycle);
    let blocks = checked(counter.blocks as u128, 4)?;
    write(tx, sql, &[of_account, group, cycle, blocks])
}

/// Replaces a counter of an account, if it has one of the rating group in the cycle, and answers
/// whether it has.
///
/// # Errors
/// As of `put_counter`.
// rule: statements-of-tables.tables-content
fn replace_counter<S: Alter>(
    tx: &mut Transaction<'_, S>,
    account: &AccountNumber,
    counter: &Counter,
) -> Result<bool, Error>
    requires tables { HasTables (state S.Store tx.old.conn.now) }
    ensures same_reference { tx.new.conn.ghost_name ≡ tx.old.conn.ghost_name }
    ensures replaces { ReplacesIfSome (has_counter account.now counter.now.group counter.now.cycle)
        (with_rows account.now (with_counter_row counter.now))
        (state S.Store tx.old.conn.now) (state S.Store tx.new.conn.now) result }
{
    let count = write_counter(
        tx,
        "UPDATE counters SET account = ?1, rating_group = ?2, cycle = ?3, blocks = ?4 \
         WHERE account = ?1 AND rating_group = ?2 AND cycle = ?3",
        account,
        counter,
    )?;
    Ok(count == 1)
}

/// Puts a counter of an account, whether it has one of the rating group in the cycle or not.
///
/// # Errors
/// As of `put_counter`.
fn insert_counter<S: Alter>(
    tx: &mut Transaction<'_, S>,
    account: &AccountNumber,
    counter: &Counter,
) -> Result<(), Error>
    requires tables { HasTables (state S.Store tx.old.conn.now) }
    ensures { AttemptsOver S.Store (Makes (with_rows account.now (with_counter_row counter.now)))
        tx.old.conn tx.new.conn result }
{
    write_counter(
        tx,
        "INSERT INTO counters VALUES (?1, ?2, ?3, ?4) \
         ON CONFLICT (account, rating_group, cycle) DO UPDATE SET \
         account = excluded.account, rating_group = excluded.rating_group, \
         cycle = excluded.cycle, blocks = excluded.blocks",
        account,
        counter,
    )?;
    Ok(())
}

/// Puts a counter of an account.
///
/// # Errors
/// `IntegralValueOutOfRange` where the number of blocks is 2^63 or more, else an error of the
/// store. Then nothing is committed.
// rule: statements-of-tables.tables-content
pub fn put_counter<S: Alter>(
    tx: &mut Transaction<'_, S>,
    account: &AccountNumber,
    counter: &Counter,
) -> Result<(), Error>
    requires tables { HasTables (state S.Store tx.old.conn.now) }
    ensures { AttemptsOver S.Store (Makes (with_rows account.now (with_counter_row counter.now)))
        tx.old.conn tx.new.conn result }
{
    if replace_counter(tx, account, counter)? {
        return Ok(());
    }
    insert_counter(tx, account, counter)
}

/// The counter of a rating group in a cycle.
///
/// # Errors
/// `Store` where the store failed, `Rules` only where the row is out of its rules, `Memory` where a
/// growth was refused. Nothing is changed then either.
pub fn read_counter<S: Alter>(
    conn: &mut Connection<S>,
    account: &AccountNumber,
    group: u32,
    cycle: u32,
) -> Result<Option<Counter>, ReadFault>
    requires idle { HasIdleTables (state S.Store conn.old) }
    ensures reads { Reads (λ trees o. o ≡ (rows_in trees account.now).counters group cycle)
        (state S.Store conn.old) (state S.Store conn.new) result }
    // A row that is in the rules is answered.
    ensures refused { HasCleanDisk (state S.Store conn.new) → IfErr result (λ e.
        e ≡ ReadFault.Rules →
        ¬ IfSome ((rows_in (state S.Store conn.old).now.trees account.now).counters group cycle)
        IsRuledCounter) }
{
    let of_account = text(account.as_str());
    let of_group = whole(group);
    let of_cycle = whole(cycle);
    let rows = read(
        conn,
        "SELECT rating_group, cycle, blocks FROM counters \
         WHERE account = ?1 AND rating_group = ?2 AND cycle = ?3",
        &[of_account, of_group, of_cycle],
    )?;
    counter_among(&rows)
}

fn counter_among(rows: &[Row]) -> Result<Option<Counter>, ReadFault>
    ensures { MatchResult result (λ o. rows.now ≡ map counter_cells (one_or_none o))
        (λ e. e ≡ ReadFault.Rules → (o : Option Counter) →
        rows.now ≡ map counter_cells (one_or_none o) → ¬ IfSome o IsRuledCounter) }
{
    let row = one_of(rows)?;
    match row {
        None => Ok(None),
        Some(row) => Ok(Some(counter_from(row)?)),
    }
}

pub(crate) fn counter_from(row: &Row) -> Result<Counter, ReadFault>
    ensures { MatchResult result (λ k. row.now ≡ counter_cells k)
        (λ e. e ≡ ReadFault.Rules → (k : Counter) → row.now ≡ counter_cells k →
        ¬ IsRuledCounter k) }
{
    has_columns(row, 3)?;
    let group = small_at(row, 0)?;
    let cycle = small_at(row, 1)?;
    let blocks = number_at(row, 2)?;
    Ok(Counter {
        group,
        cycle,
        blocks,
    })
}

/// Puts each counter in turn.
///
/// # Errors
/// The first error of a row, as `put_counter` answers it. Then nothing is committed.
pub fn put_counters<S: Alter>(
    tx: &mut Transaction<'_, S>,
    account: &AccountNumber,
    rows: &[Counter],
) -> Result<(), Error>
    requires open { IsInside (state S.Store tx.old.conn.now) }
    requires tables { HasTables (state S.Store tx.old.conn.now) }
    ensures { AttemptsOver S.Store (MakesIfOpen (with_counters account.now rows.now))
        tx.old.conn tx.new.conn result }
{
    'rows: for row in rows {
        put_counter(tx, account, row)?;
    }
    Ok(())
}
