//! A source whose store fails after so many rows, and at each other call.

ghost use Rattle.keepers.specs.Faults.{max_failures};
ghost use Rattle.keepers.specs.Tables.{no_tables};

use buckets::Bucket;
use identifiers::{AccountNumber, SessionId, VoucherCode};
use keepers::{
    Change, ChargeSource, ChargeVisitor, Keeper, KeptAnswer, Key, Loaded, MemoryKeeper, StoreFault,
    show,
};
use reserving::Account;
use shelves::TariffShelf;
use units::Moment;
use voucher_rules::{Voucher, VoucherTerms};

#[derive(Drop)]
pub(crate) struct Broken {
    pub(crate) keeper: MemoryKeeper,
    pub(crate) left: usize,
}

impl Keeper for Broken {
    ghost use Rattle.std.proofs.Common.{le_refl};

    ghost seen = { λ _. record {
      tables = no_tables;
      failed = max_failures;
      honest = ⊥;
      clean = ⊥;
      left = λ _. ⊥;
    } };

    ghost bounded = { λ _. le_refl max_failures };

    ghost honesty = { λ _ clean. clean };

    ghost settled = { λ _ _ _ none. absurd none };

    fn failures(&self) -> u64 {
        1_000_000_000_000_000_000
    }

    fn last(&mut self) -> Result<Moment, StoreFault> {
        Err(StoreFault::Store)
    }

    fn load<'b>(
        &mut self,
        _shelf: &'b TariffShelf,
        _account: &AccountNumber,
        _moment: Moment,
    ) -> Result<Option<Loaded<'b>>, StoreFault> {
        Err(StoreFault::Store)
    }

    fn view<'b>(
        &mut self,
        _shelf: &'b TariffShelf,
        _account: &AccountNumber,
        _moment: Moment,
    ) -> Result<Option<Account<'b>>, StoreFault> {
        Err(StoreFault::Store)
    }

    fn has_account(&mut self, _account: &AccountNumber) -> Result<bool, StoreFault> {
        Err(StoreFault::Store)
    }

    fn knows_session(
        &mut self,
        _account: &AccountNumber,
        _session: &SessionId,
    ) -> Result<bool, StoreFault> {
        Err(StoreFault::Store)
    }

    fn dead_buckets(&mut self, _account: &AccountNumber) -> Result<Vec<Bucket>, StoreFault> {
        Err(StoreFault::Store)
    }

    fn find_answer(
        &mut self,
        _account: &AccountNumber,
        _key: &Key,
    ) -> Result<Option<KeptAnswer>, StoreFault> {
        Err(StoreFault::Store)
    }

    fn find_voucher(&mut self, _code: &VoucherCode) -> Result<Option<Voucher>, StoreFault> {
        Err(StoreFault::Store)
    }

    fn commit(&mut self, _change: Change) -> Result<(), StoreFault> {
        Err(StoreFault::Store)
    }

    fn add_voucher(
        &mut self,
        _code: VoucherCode,
        _terms: VoucherTerms,
        _moment: Moment,
    ) -> Result<(), StoreFault> {
        Err(StoreFault::Store)
    }

    fn sweep(&mut self, _shelf: &TariffShelf, _moment: Moment) -> Result<u64, StoreFault> {
        Err(StoreFault::Store)
    }
}

impl ChargeSource for Broken {
    #[tactic(auto, using(keepers::proofs::ShownRows::rows_shown))]
    fn each<V: ChargeVisitor>(
        &mut self,
        account: &AccountNumber,
        from: Moment,
        until: Moment,
        visitor: &mut V,
    ) -> Result<(), StoreFault> {
        let rows = self.keeper.charges(account);
        let first = rows.get(..self.left).unwrap_or(rows);
        if show(first, from, until, visitor) {
            return Err(StoreFault::Store);
        }
        Ok(())
    }
}
