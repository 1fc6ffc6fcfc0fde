//! Charges with the blocks that were covered, which have rows of their own.

ghost use Rattle.std.specs.Prelude.{◌≡◌, map};
ghost use Rattle.sql_rows.specs.Content.{tables_content};
ghost use Rattle.sql_rows.specs.Makes.{Makes, MakesIfOpen};
ghost use Rattle.sql_tables.specs.Statements.{AttemptsOver, HasTables, IsInside};
ghost use Rattle.sql_keeper.specs.Covered.{blocks_of, covered_charge};
ghost use Rattle.sql_keeper.specs.Numbers.{LacksCharge, LacksCharges, WasSo};
ghost use Rattle.sql_keeper.specs.Writes.{some_blocks, with_all_charged};
ghost use Rattle.sql_keeper.specs.Writes.{with_charged, with_new_blocks};
ghost use Rattle.sqlite.specs.Held.{state};
ghost use Rattle.sqlite.specs.declared.error.Error.TheVariants.{SqliteFailure};
ghost use Rattle.sqlite.specs.declared.error.ErrorCode.TheVariants.{ConstraintViolation};
ghost use Rattle.sqlite_schema.specs.declared.schema.Constraint.TheVariants.{Unique};

use identifiers::AccountNumber;
use ledger::ChargeRow;
use sql_rows::{CoveredColumns, add_charge, put_covered};
use sqlite::{Alter, Constraint, Error, ErrorCode, Transaction};
use units::Blocks;

/// Some of these blocks; none of none.
fn some_blocks(blocks: u64) -> Option<u64>
    ensures { result ≡ some_blocks blocks }
{
    if blocks == 0 { None } else { Some(blocks) }
}

/// Puts the blocks of a charge that is new that were covered, if any were.
fn put_new_blocks<S: Alter>(
    tx: &mut Transaction<'_, S>,
    account: &AccountNumber,
    number: u32,
    blocks: Option<u64>,
) -> Result<(), Error>
    requires open { IsInside (state S.Store tx.old.conn.now) }
    requires tables { HasTables (state S.Store tx.old.conn.now) }
    ensures { AttemptsOver S.Store (MakesIfOpen (with_new_blocks account.now number blocks))
        tx.old.conn tx.new.conn result }
{
    match blocks {
        None => Ok(()),
        Some(blocks) => put_covered(tx, account, number, Blocks(blocks)),
    }
}

/// The error of a charge whose number is taken, as the engine answers it of a key.
fn taken() -> Error
    ensures { result ≡ SqliteFailure (ConstraintViolation Unique) }
{
    Error::SqliteFailure(ErrorCode::ConstraintViolation(Constraint::Unique))
}

/// Puts a charge with the blocks that were covered. The account has none of its number then: one
/// that it has isn't written over.
///
/// # Errors
/// An error of the store, or that the number is taken. Then nothing is committed.
// rule: database-writes.numbers-free
fn put_charged<S: Alter>(
    tx: &mut Transaction<'_, S>,
    account: &AccountNumber,
    charge: &ChargeRow,
) -> Result<(), Error>
    requires tables { HasTables (state S.Store tx.old.conn.now) }
    ensures over { AttemptsOver S.Store (Makes (with_charged account.now charge.now))
        tx.old.conn tx.new.conn result }
    ensures free { WasSo (λ trees. LacksCharge account.now (tables_content trees) charge.now)
        (state S.Store tx.old.conn.now) (state S.Store tx.new.conn.now) result }
{
    let added = add_charge(tx, account, charge)?;
    if added {
        let covered = some_blocks(charge.covered.0);
        return put_new_blocks(tx, account, charge.number, covered);
    }
    Err(taken())
}

/// Puts each charge in turn, with the blocks that were covered. The account has none of their
/// numbers then.
///
/// # Errors
/// The first error of a row, as of a number that is taken. Then nothing is committed.
pub(crate) fn put_paid<S: Alter>(
    tx: &mut Transaction<'_, S>,
    account: &AccountNumber,
    rows: &[ChargeRow],
) -> Result<(), Error>
    requires open { IsInside (state S.Store tx.old.conn.now) }
    requires tables { HasTables (state S.Store tx.old.conn.now) }
    ensures over { AttemptsOver S.Store (MakesIfOpen (with_all_charged account.now rows.now))
        tx.old.conn tx.new.conn result }
    ensures free { WasSo (λ trees. LacksCharges account.now (tables_content trees) rows.now)
        (state S.Store tx.old.conn.now) (state S.Store tx.new.conn.now) result }
{
    'rows: for row in rows {
        put_charged(tx, account, row)?;
    }
    Ok(())
}

/// The blocks of a charge that were covered; 0 where no row says any.
fn blocks_of(covered: &[CoveredColumns], number: u32) -> Blocks
    ensures { result.0 ≡ blocks_of number covered.now }
{
    match covered.iter().find(|row| row.number == number) {
        Some(row) => Blocks(row.blocks),
        None => Blocks(0),
    }
}

/// Gives a charge the blocks that were covered.
fn cover(charge: &mut ChargeRow, covered: &[CoveredColumns])
    ensures { charge.new ≡ covered_charge covered.now charge.old }
{
    charge.covered = blocks_of(covered, charge.number);
}

/// Gives each charge the blocks that were covered.
pub(crate) fn cover_all(charges: &mut Vec<ChargeRow>, covered: &[CoveredColumns])
    ensures { charges.new.items
        ≡ map (covered_charge covered.now) charges.old.items }
{
    for charge in charges.iter_mut() {
        cover(charge, covered);
    }
}
