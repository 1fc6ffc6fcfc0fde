//! Rows of vouchers.

ghost use Rattle.std.specs.Prelude.{◌≡◌, map, option_copied, IfErr, IfSome, MatchResult, Option};
ghost use Rattle.sqlite_value.specs.Value.{owned};
ghost use Rattle.sqlite_value.specs.declared.value.Value.TheVariants.{Text};
ghost use Rattle.sql_rows.specs.Content.{tables_content, with_voucher_row};
ghost use Rattle.sql_rows.specs.Values.{voucher_cells};
ghost use Rattle.sql_rows.specs.Makes.{Makes};
ghost use Rattle.sql_rows.specs.Ruled.{IsRuledVoucher};
ghost use Rattle.sql_tables.specs.Statements.{HasTables, HasIdleTables, Reads, AttemptsOver};
ghost use Rattle.sql_tables.specs.Selects.{one_or_none};
ghost use Rattle.sqlite.specs.Held.{state};
ghost use Rattle.sqlite.specs.State.{HasCleanDisk};
ghost use Rattle.sqlite.specs.Values.{bound_value, or_null};

use crate::decoding::redeemer_at;
use crate::running::run;
use identifiers::AccountNumber;
use sql_tables::{
    ReadFault, has_columns, large, null, number_at, one_of, optional, optional_at, read, text,
};
use sqlite::types::ValueRef;
use sqlite::{Alter, Connection, Error, Row, Transaction};
use std::alloc::Global;
use units::Money;

/// A voucher, as it is.
#[derive(Drop)]
pub struct VoucherColumns {
    /// Micro-units.
    pub amount: u64,
    /// The days that what it gives lasts; none: without end.
    pub days: Option<u32>,
    /// The one rating group that it pays for, or none where it pays for all.
    pub scope: Option<u32>,
    /// The account that redeemed it; none where no account has.
    pub account: Option<AccountNumber>,
}

/// The account that redeemed a voucher as a statement's parameter; NULL where no account has.
fn redeemer_or_null(account: Option<&AccountNumber>) -> ValueRef<'_>
    ensures { bound_value (owned result) ≡ or_null Text (option_copied account.entry) }
{
    match account {
        Some(number) => text(number.as_str()),
        None => null(),
    }
}

/// Puts a voucher: its amount in micro-units, the days that what it gives lasts (none: without
/// end), the one rating group that it pays for (none: all) and the account that redeemed it (none:
/// no account has).
///
/// # Errors
/// An error of the store. Then nothing is committed.
pub fn put_voucher<S: Alter>(
    tx: &mut Transaction<'_, S>,
    code: &str,
    amount: Money,
    days: Option<u32>,
    scope: Option<u32>,
    account: Option<&AccountNumber>,
) -> Result<(), Error>
    requires tables { HasTables (state S.Store tx.old.conn.now) }
    ensures { AttemptsOver S.Store (Makes (with_voucher_row code.now (record {
      amount = amount;
      days = days;
      scope = scope;
      account = option_copied account.entry;
    }))) tx.old.conn tx.new.conn result }
{
    let of_code = text(code);
    let micros = large(amount.micros());
    let of_days = optional(days);
    let of_scope = optional(scope);
    let redeemer = redeemer_or_null(account);
    run(
        tx,
        "INSERT INTO vouchers VALUES (?1, ?2, ?3, ?4, ?5) \
         ON CONFLICT (code) DO UPDATE SET \
         code = excluded.code, amount = excluded.amount, days = excluded.days, \
         scope = excluded.scope, account = excluded.account",
        &[of_code, micros, of_days, of_scope, redeemer],
    )
}

/// The voucher with the code.
///
/// # Errors
/// `Store` where the store failed, `Rules` only where the row is out of its rules, `Memory` where a
/// growth was refused. Nothing is changed then either.
// rule: answer-rows
pub fn read_voucher<S: Alter>(
    conn: &mut Connection<S>,
    alloc: Global,
    code: &str,
) -> Result<Option<VoucherColumns>, ReadFault>
    requires idle { HasIdleTables (state S.Store conn.old) }
    ensures reads { Reads (λ trees o. o ≡ (tables_content trees).vouchers code.now)
        (state S.Store conn.old) (state S.Store conn.new) result }
    // A row that is in the rules is answered.
    ensures refused { HasCleanDisk (state S.Store conn.new) → IfErr result (λ e.
        e ≡ ReadFault.Rules →
        ¬ IfSome ((tables_content (state S.Store conn.old).now.trees).vouchers code.now)
        IsRuledVoucher) }
{
    let of_code = text(code);
    let rows = read(
        conn,
        "SELECT amount, days, scope, account FROM vouchers WHERE code = ?1",
        &[of_code],
    )?;
    voucher_among(alloc, &rows)
}

fn voucher_among(alloc: Global, rows: &[Row]) -> Result<Option<VoucherColumns>, ReadFault>
    ensures { MatchResult result (λ o. rows.now ≡ map voucher_cells (one_or_none o))
        (λ e. e ≡ ReadFault.Rules → (o : Option VoucherColumns) →
        rows.now ≡ map voucher_cells (one_or_none o) → ¬ IfSome o IsRuledVoucher) }
{
    let row = one_of(rows)?;
    match row {
        None => Ok(None),
        Some(row) => Ok(Some(voucher_from(alloc, row)?)),
    }
}

fn voucher_from(alloc: Global, row: &Row) -> Result<VoucherColumns, ReadFault>
    ensures { MatchResult result (λ v. row.now ≡ voucher_cells v)
        (λ e. e ≡ ReadFault.Rules → (v : VoucherColumns) → row.now ≡ voucher_cells v →
        ¬ IsRuledVoucher v) }
{
    has_columns(row, 4)?;
    let amount = number_at(row, 0)?;
    let days = optional_at(row, 1)?;
    let scope = optional_at(row, 2)?;
    let account = redeemer_at(alloc, row, 3)?;
    Ok(VoucherColumns {
        amount,
        days,
        scope,
        account,
    })
}
