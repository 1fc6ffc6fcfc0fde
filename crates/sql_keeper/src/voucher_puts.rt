//! Vouchers, put under their codes.

ghost use Rattle.sql_tables.specs.Statements.{AttemptsOver, HasTables, IsInside};
ghost use Rattle.sql_keeper.specs.Writes.{voucher_row, with_redeemed};
ghost use Rattle.sql_rows.specs.Content.{with_voucher_row};
ghost use Rattle.sql_rows.specs.Makes.{Makes, MakesIfOpen};
ghost use Rattle.sqlite.specs.Held.{state};

use identifiers::VoucherCode;
use keepers::Redeemed;
use sqlite::{Alter, Error, Transaction};
use voucher_rules::Voucher;

/// Puts a voucher under its code, as it is.
pub(crate) fn put_voucher<S: Alter>(
    tx: &mut Transaction<'_, S>,
    code: &VoucherCode,
    voucher: &Voucher,
) -> Result<(), Error>
    requires tables { HasTables (state S.Store tx.old.conn.now) }
    ensures { AttemptsOver S.Store (Makes (with_voucher_row code.now (voucher_row voucher.now)))
        tx.old.conn tx.new.conn result }
{
    let code = code.as_str();
    let terms = voucher.terms;
    let (amount, days, scope) = (terms.amount(), terms.days(), terms.scope());
    let redeemer = voucher.redeemer.as_ref();
    sql_rows::put_voucher(tx, code, amount, days, scope, redeemer)
}

/// Puts the voucher that is redeemed, if one is.
pub(crate) fn put_redeemed<S: Alter>(
    tx: &mut Transaction<'_, S>,
    redeemed: &Option<Redeemed>,
) -> Result<(), Error>
    requires open { IsInside (state S.Store tx.old.conn.now) }
    requires tables { HasTables (state S.Store tx.old.conn.now) }
    ensures { AttemptsOver S.Store (MakesIfOpen (with_redeemed redeemed.now))
        tx.old.conn tx.new.conn result }
{
    match redeemed {
        None => Ok(()),
        Some(redeemed) => put_voucher(tx, &redeemed.code, &redeemed.voucher),
    }
}
