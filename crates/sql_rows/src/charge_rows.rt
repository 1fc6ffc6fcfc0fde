//! Rows of charges.

ghost use Rattle.std.specs.Prelude.{◌≡◌, map, false, IsTrue, IfOk};
ghost use Rattle.sql_rows.specs.Content.{has_charge, rows_in, with_charge_row, with_rows};
ghost use Rattle.sql_rows.specs.Values.{charge_cells, charge_values, plain_charge};
ghost use Rattle.sql_rows.specs.Lists.{AreChargeRows, NumbersRise, is_row_within};
ghost use Rattle.sql_rows.specs.Each.{with_charges};
ghost use Rattle.sql_rows.specs.Makes.{AddsIfNone, Makes, MakesIfOpen};
ghost use Rattle.sql_tables.specs.Statements.{HasTables, HasIdleTables, IsInside, Reads};
ghost use Rattle.sql_tables.specs.Statements.{AttemptsOver};
ghost use Rattle.sqlite.specs.Held.{state};
ghost use Rattle.sqlite.specs.State.{ExecutesInside};

use crate::decoding::{moment_at, session_at};
use identifiers::AccountNumber;
use ledger::ChargeRow;
use sql_tables::{
    ReadFault, checked, has_columns, large, number_at, read, small_at, text, whole, write,
};
use sqlite::{Alter, Connection, Error, Row, Transaction};
use std::alloc::Global;
use units::{Amount, Blocks};

/// Runs a statement whose parameters are the columns of an account's charge, in their order. It
/// answers the number of rows.
///
/// # Errors
/// As of `put_charge`.
fn write_charge<S: Alter>(
    tx: &mut Transaction<'_, S>,
    sql: &str,
    account: &AccountNumber,
    charge: &ChargeRow,
) -> Result<usize, Error>
    ensures { AttemptsOver S.Store (λ old new.
        ExecutesInside 0 sql.now (charge_values account.now charge.now) old new result)
        tx.old.conn tx.new.conn result }
{
    let of_account = text(account.as_str());
    let number = whole(charge.number);
    let moment = large(charge.moment.seconds());
    let session = text(charge.session.as_str());
    let group = whole(charge.group);
    let blocks = checked(charge.blocks.0 as u128, 6)?;
    let rated = checked(charge.rated.0, 7)?;
    let collected = checked(charge.collected.0, 8)?;
    let uncollected = checked(charge.uncollected.0, 9)?;
    write(
        tx,
        sql,
        &[
            of_account,
            number,
            moment,
            session,
            group,
            blocks,
            rated,
            collected,
            uncollected,
        ],
    )
}

/// Puts the columns of an account's charge. Its covered blocks are beside them (`put_covered`).
///
/// # Errors
/// `IntegralValueOutOfRange` where an amount or the number of blocks is 2^63 or more, else an error
/// of the store. Then nothing is committed.
// rule: statements-of-tables.tables-content
pub fn put_charge<S: Alter>(
    tx: &mut Transaction<'_, S>,
    account: &AccountNumber,
    charge: &ChargeRow,
) -> Result<(), Error>
    requires tables { HasTables (state S.Store tx.old.conn.now) }
    ensures { AttemptsOver S.Store
        (Makes (with_rows account.now (with_charge_row (plain_charge charge.now))))
        tx.old.conn tx.new.conn result }
{
    write_charge(
        tx,
        "INSERT INTO charges VALUES (?1, ?2, ?3, ?4, ?5, ?6, ?7, ?8, ?9) \
         ON CONFLICT (account, number) DO UPDATE SET \
         account = excluded.account, number = excluded.number, moment = excluded.moment, \
         session = excluded.session, rating_group = excluded.rating_group, \
         blocks = excluded.blocks, rated = excluded.rated, collected = excluded.collected, \
         uncollected = excluded.uncollected",
        account,
        charge,
    )?;
    Ok(())
}

/// Adds the columns of an account's charge, if it has none of its number, and answers whether it
/// had none; one that it has stays as it is.
///
/// # Errors
/// As of `put_charge`.
// rule: statements-of-tables.tables-content
pub fn add_charge<S: Alter>(
    tx: &mut Transaction<'_, S>,
    account: &AccountNumber,
    charge: &ChargeRow,
) -> Result<bool, Error>
    requires tables { HasTables (state S.Store tx.old.conn.now) }
    ensures same_reference { tx.new.conn.ghost_name ≡ tx.old.conn.ghost_name }
    ensures adds { AddsIfNone (has_charge account.now charge.now.number)
        (with_rows account.now (with_charge_row (plain_charge charge.now)))
        (state S.Store tx.old.conn.now) (state S.Store tx.new.conn.now) result }
{
    let count = write_charge(
        tx,
        "INSERT INTO charges VALUES (?1, ?2, ?3, ?4, ?5, ?6, ?7, ?8, ?9) \
         ON CONFLICT (account, number) DO NOTHING",
        account,
        charge,
    )?;
    Ok(count == 1)
}

/// The charges of an account beyond a number and up to another, in the order of their numbers, as
/// their columns say: each is given without covered blocks.
///
/// # Errors
/// `Store` where the store failed, `Rules` where a row is out of its rules or the numbers don't
/// rise, `Memory` where a growth was refused. Nothing is changed then either.
pub fn read_charges_within<S: Alter>(
    conn: &mut Connection<S>,
    alloc: Global,
    account: &AccountNumber,
    after: u32,
    last: u32,
) -> Result<Vec<ChargeRow>, ReadFault>
    requires idle { HasIdleTables (state S.Store conn.old) }
    ensures reads { Reads (λ trees xs.
        AreChargeRows (is_row_within after last) (rows_in trees account.now) xs.items)
        (state S.Store conn.old) (state S.Store conn.new) result }
    ensures order { IfOk result (λ xs. NumbersRise xs.items) }
{
    let of_account = text(account.as_str());
    let beyond = whole(after);
    let up_to = whole(last);
    let rows = read(
        conn,
        "SELECT number, moment, session, rating_group, blocks, rated, collected, uncollected \
         FROM charges WHERE account = ?1 AND number > ?2 AND number <= ?3 ORDER BY number",
        &[of_account, beyond, up_to],
    )?;
    charges_from(alloc, &rows)
}

fn charges_from(alloc: Global, rows: &[Row]) -> Result<Vec<ChargeRow>, ReadFault>
    ensures cells { IfOk result (λ xs. map charge_cells xs.items ≡ rows.now) }
    ensures order { IfOk result (λ xs. NumbersRise xs.items) }
{
    let mut charges = Vec::new(alloc);
    'rows: for row in rows {
        let charge = charge_from(alloc, row)?;
        charges.push(charge)?;
    }
    if !do_numbers_rise(&charges) {
        return Err(ReadFault::Rules);
    }
    Ok(charges)
}

/// Whether each number is above the one before it.
fn do_numbers_rise(charges: &[ChargeRow]) -> bool
    ensures { IsTrue result → NumbersRise charges.now }
{
    let mut last: Option<&ChargeRow> = None;
    'rows: for charge in charges {
        if let Some(before) = last {
            if charge.number <= before.number {
                return false;
            }
        }
        last = Some(charge);
    }
    true
}

fn charge_from(alloc: Global, row: &Row) -> Result<ChargeRow, ReadFault>
    ensures { IfOk result (λ x. row.now ≡ charge_cells x) }
{
    has_columns(row, 8)?;
    let number = small_at(row, 0)?;
    let moment = moment_at(row, 1)?;
    let session = session_at(alloc, row, 2)?;
    let group = small_at(row, 3)?;
    let blocks = number_at(row, 4)?;
    let rated = number_at(row, 5)?;
    let collected = number_at(row, 6)?;
    let uncollected = number_at(row, 7)?;
    if collected as u128 + uncollected as u128 != rated as u128 {
        return Err(ReadFault::Rules);
    }
    Ok(ChargeRow {
        number,
        moment,
        session,
        group,
        blocks: Blocks(blocks),
        covered: Blocks(0),
        rated: Amount(rated as u128),
        collected: Amount(collected as u128),
        uncollected: Amount(uncollected as u128),
    })
}

/// Puts each charge in turn.
///
/// # Errors
/// The first error of a row, as `put_charge` answers it. Then nothing is committed.
pub fn put_charges<S: Alter>(
    tx: &mut Transaction<'_, S>,
    account: &AccountNumber,
    rows: &[ChargeRow],
) -> Result<(), Error>
    requires open { IsInside (state S.Store tx.old.conn.now) }
    requires tables { HasTables (state S.Store tx.old.conn.now) }
    ensures { AttemptsOver S.Store (MakesIfOpen (with_charges account.now rows.now))
        tx.old.conn tx.new.conn result }
{
    'rows: for row in rows {
        put_charge(tx, account, row)?;
    }
    Ok(())
}
