//! What is under the code of a voucher.

ghost use Rattle.std.specs.Prelude.{◌≡◌, IfOk, option_map};
ghost use Rattle.sql_keeper.specs.Asks.{Asks};
ghost use Rattle.sql_keeper.specs.Content.{voucher_in};
ghost use Rattle.sql_rows.specs.Content.{tables_content};
ghost use Rattle.sql_tables.specs.Statements.{HasIdleTables, Reads};
ghost use Rattle.sqlite.specs.Held.{state};
ghost use Rattle.sql_keeper.specs.Calls.{AsksTables};

use crate::faults::counted;
use crate::keeper::SqlKeeper;
use crate::still_open::still_open;
use identifiers::VoucherCode;
use keepers::StoreFault;
use sql_rows::{VoucherColumns, read_voucher};
use sql_tables::ReadFault;
use sqlite::{Alter, Connection};
use std::alloc::Global;
use units::Money;
use voucher_rules::{Voucher, VoucherTerms};

/// The terms of a row. They are out of the rules where no voucher can have them.
fn terms_of(amount: u64, days: Option<u32>, scope: Option<u32>) -> Result<VoucherTerms, ReadFault>
    ensures { IfOk result (λ t. t ≡ record { amount = amount; days = days; scope = scope }) }
{
    let amount = Money::new(amount).ok_or(ReadFault::Rules)?;
    VoucherTerms::new(amount, days, scope).ok_or(ReadFault::Rules)
}

/// The voucher of a row. It is out of the rules where its terms are.
fn voucher_from(row: VoucherColumns) -> Result<Voucher, ReadFault>
    ensures { IfOk result (λ v. v ≡ voucher_in row) }
{
    let VoucherColumns {
        amount,
        days,
        scope,
        account,
    } = row;
    let terms = terms_of(amount, days, scope)?;
    Ok(Voucher {
        terms,
        redeemer: account,
    })
}

/// The voucher where there is a row.
fn voucher_where(row: Option<VoucherColumns>) -> Result<Option<Voucher>, ReadFault>
    ensures { IfOk result (λ o. o ≡ option_map voucher_in row) }
{
    match row {
        None => Ok(None),
        Some(row) => Ok(Some(voucher_from(row)?)),
    }
}

fn voucher_under<S: Alter>(
    conn: &mut Connection<S>,
    alloc: Global,
    code: &VoucherCode,
) -> Result<Option<Voucher>, ReadFault>
    requires idle { HasIdleTables (state S.Store conn.old) }
    ensures { Reads (λ trees found. found ≡
        option_map voucher_in ((tables_content trees).vouchers code.now))
        (state S.Store conn.old) (state S.Store conn.new) result }
{
    let row = read_voucher(conn, alloc, code.as_str())?;
    voucher_where(row)
}

fn ask_for_voucher<S: Alter>(
    conn: &mut Connection<S>,
    alloc: Global,
    code: &VoucherCode,
) -> Result<Option<Voucher>, ReadFault>
    requires idle { HasIdleTables (state S.Store conn.old) }
    ensures { Asks (λ trees found. found ≡
        option_map voucher_in ((tables_content trees).vouchers code.now))
        (state S.Store conn.old) (state S.Store conn.new) result }
{
    still_open(conn)?;
    voucher_under(conn, alloc, code)
}

impl<S: Alter> SqlKeeper<S> {
    /// What is under the code of a voucher (profile): the voucher with its terms, and who
    /// redeemed it where anyone did; None where none was added.
    ///
    /// # Errors
    /// A fault of the store, which is counted, as is a row whose terms no voucher can have; lack of
    /// memory.
    pub fn find_voucher(&mut self, code: &VoucherCode) -> Result<Option<Voucher>, StoreFault>
        ensures { AsksTables S.Store (λ t found. found ≡ t.vouchers code.now)
            self.old self.new result }
    {
        let read = ask_for_voucher(&mut self.connection, self.alloc, code);
        counted(&mut self.failures, read)
    }
}
