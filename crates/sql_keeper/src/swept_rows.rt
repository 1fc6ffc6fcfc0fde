//! An account that a sweep brings to a moment.

ghost use Rattle.std.specs.Prelude.{◌≡◌, IfOk};
ghost use Rattle.sql_keeper.specs.Content.{shelf_names};
ghost use Rattle.sql_keeper.specs.Sweeps.{IsSweptFrom, rows_at};

use crate::testing::are_writable;
use identifiers::AccountNumber;
use keepers::NamedRows;
use reserving::StoredAccount;
use shelves::TariffShelf;
use sql_tables::ReadFault;
use std::alloc::Global;
use units::Moment;

/// An account that was brought to a moment.
#[derive(Drop)]
pub(crate) struct SweptAccount {
    /// Its number (Subscription-Id-Data, RFC 8506 section 8.48).
    pub number: AccountNumber,
    /// What is kept of it once, at the moment, and of its rows those that differ from before.
    pub rows: NamedRows,
}

/// The rows of an account at a moment; rows of a later one stay.
fn advanced_to(rows: StoredAccount, shelf: &TariffShelf, moment: Moment) -> StoredAccount
    ensures { result ≡ rows_at shelf.now moment rows }
{
    let mut rows = rows;
    if rows.as_of().seconds() <= moment.seconds() {
        rows.advance(shelf, moment);
    }
    rows
}

/// The account of these rows at a moment, with those that differ. It is out of the rules where
/// there are none, or where they may not be written.
pub(crate) fn swept_of(
    alloc: Global,
    account: &AccountNumber,
    rows: Option<StoredAccount>,
    names: &TariffShelf,
    shelf: &TariffShelf,
    moment: Moment,
) -> Result<SweptAccount, ReadFault>
    ensures { IfOk result (IsSweptFrom (shelf_names names.now) shelf.now moment account.now rows) }
{
    let Some(before) = rows else {
        return Err(ReadFault::Rules);
    };
    // For the prover alone: looking at the value makes known here what its type keeps.
    let _kept = before.as_of();
    let number = account.clone()?;
    let after = advanced_to(before.copy()?, shelf, moment);
    let _stored = after.as_of();
    if !are_writable(names, after.sessions(), after.groups()) {
        return Err(ReadFault::Rules);
    }
    let earlier = before.into_earlier();
    let rows = NamedRows::differing(alloc, &earlier, &after)?;
    Ok(SweptAccount { number, rows })
}
