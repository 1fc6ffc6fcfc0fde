//! A keeper in memory.

ghost use Rattle.std.specs.Prelude.{◌≡◌, ℕ, IfOk};
ghost use Rattle.keepers.specs.Tables.{no_tables, charge_in};
ghost use Rattle.keepers.specs.Whole.{AreWhole};

use crate::accounts::Accounts;
use crate::entries::{
    charges_in, dead_in, find_kept, has_entry, has_session, load_entry, view_entry, whole_in,
};
use crate::fault::StoreFault;
use crate::keeper::Keeper;
use crate::kept_answer::KeptAnswer;
use crate::loaded::{Change, Loaded};
use crate::voucher_map::{make_voucher_room, put_redeemed, put_voucher, voucher_in};
use crate::whole::WholeAccount;
use buckets::Bucket;
use commands::Key;
use identifiers::{AccountNumber, SessionId, VoucherCode};
use ledger::ChargeRow;
use reserving::{Account, LoadFault};
use shelves::TariffShelf;
use std::alloc::{AllocError, Global};
use std::collections::HashMap;
use units::Moment;
use voucher_rules::{Voucher, VoucherTerms};

/// A keeper in memory. Its store never fails.
#[derive(Drop)]
pub struct MemoryKeeper {
    last: Moment,
    accounts: Accounts,
    vouchers: HashMap<VoucherCode, Voucher>,
    alloc: Global,
}

impl MemoryKeeper {
    /// A keeper without accounts and vouchers. It takes no memory.
    // rule: runs.tables
    pub fn new(alloc: Global) -> MemoryKeeper
        ensures content { (⟦<MemoryKeeper as Keeper>⟧.seen result).tables ≡ no_tables }
        ensures cleanness { (⟦<MemoryKeeper as Keeper>⟧.seen result).clean }
        ensures failures { (⟦<MemoryKeeper as Keeper>⟧.seen result).failed ≡ 0 }
    {
        MemoryKeeper {
            last: Moment::first(),
            accounts: Accounts::new(alloc),
            vouchers: HashMap::new(alloc),
            alloc,
        }
    }

    /// The charges of an account, in order; none where there is no such account.
    // rule: database-reads
    pub fn charges(&self, account: &AccountNumber) -> &[ChargeRow]
        ensures { (n : ℕ) → charge_in n result.now ≡
            (⟦<MemoryKeeper as Keeper>⟧.seen self.now).tables.charges account.now n }
    {
        charges_in(&self.accounts, account)
    }

    /// A copy of every row of an account; none where there is no such account.
    ///
    /// # Errors
    /// Out of memory.
    pub fn whole(&self, account: &AccountNumber) -> Result<WholeAccount, AllocError>
        ensures { IfOk result (AreWhole
            ((⟦<MemoryKeeper as Keeper>⟧.seen self.now).tables.rows account.now)) }
    {
        whole_in(self.alloc, &self.accounts, account)
    }
}

/// What a load that failed is reported as. Its store doesn't fail: rows that the shelf doesn't
/// price aren't loaded, as if there were no room for them. A run has one shelf, so that it meets
/// none.
fn refused(fault: LoadFault) -> StoreFault
    ensures { result ≡ StoreFault.Memory }
{
    match fault {
        LoadFault::Memory | LoadFault::OtherBook => StoreFault::Memory,
    }
}

impl Keeper for MemoryKeeper {
    ghost use Rattle.keepers.specs.Memory.{memory_tables};

    ghost seen = { λ k. record {
      tables = memory_tables k.last k.accounts.entries.items k.vouchers;
      failed = 0;
      honest = Unit {0};
      clean = Unit {0};
      left = λ _. ⊥;
    } };

    ghost use Rattle.std.proofs.Common.{zero-le};

    ghost bounded = { λ _. zero-le };

    ghost honesty = { λ _ clean. clean };

    ghost settled = { λ _ _ _ none. absurd none };

    fn failures(&self) -> u64 {
        0
    }

    fn last(&mut self) -> Result<Moment, StoreFault> {
        Ok(self.last)
    }

    fn load<'b>(
        &mut self,
        shelf: &'b TariffShelf,
        account: &AccountNumber,
        moment: Moment,
    ) -> Result<Option<Loaded<'b>>, StoreFault> {
        load_entry(&self.accounts, shelf, account, moment).map_err(refused)
    }

    fn view<'b>(
        &mut self,
        shelf: &'b TariffShelf,
        account: &AccountNumber,
        moment: Moment,
    ) -> Result<Option<Account<'b>>, StoreFault> {
        view_entry(&self.accounts, shelf, account, moment).map_err(refused)
    }

    // rule: database-reads
    fn has_account(&mut self, account: &AccountNumber) -> Result<bool, StoreFault> {
        Ok(has_entry(&self.accounts, account))
    }

    fn knows_session(
        &mut self,
        account: &AccountNumber,
        session: &SessionId,
    ) -> Result<bool, StoreFault> {
        Ok(has_session(&self.accounts, account, session))
    }

    // rule: database-reads
    fn dead_buckets(&mut self, account: &AccountNumber) -> Result<Vec<Bucket>, StoreFault> {
        Ok(dead_in(self.alloc, &self.accounts, account)?)
    }

    // rule: database-reads
    fn find_answer(
        &mut self,
        account: &AccountNumber,
        key: &Key,
    ) -> Result<Option<KeptAnswer>, StoreFault> {
        Ok(find_kept(&self.accounts, account, key)?)
    }

    fn find_voucher(&mut self, code: &VoucherCode) -> Result<Option<Voucher>, StoreFault> {
        Ok(voucher_in(&self.vouchers, code)?)
    }

    fn commit(&mut self, change: Change) -> Result<(), StoreFault> {
        let Change {
            moment,
            number,
            rows,
            charges,
            kept,
            redeemed,
        } = change;
        make_voucher_room(&mut self.vouchers)?;
        self.accounts.put(number, rows, charges, kept)?;
        put_redeemed(&mut self.vouchers, redeemed)?;
        self.last = moment;
        Ok(())
    }

    fn add_voucher(
        &mut self,
        code: VoucherCode,
        terms: VoucherTerms,
        moment: Moment,
    ) -> Result<(), StoreFault> {
        let voucher = Voucher {
            terms,
            redeemer: None,
        };
        put_voucher(&mut self.vouchers, code, voucher)?;
        self.last = moment;
        Ok(())
    }

    // rule: sweep
    fn sweep(&mut self, shelf: &TariffShelf, moment: Moment) -> Result<u64, StoreFault> {
        self.accounts.advance(shelf, moment);
        self.last = moment;
        Ok(self.accounts.count())
    }
}
