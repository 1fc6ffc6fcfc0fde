//! A keeper over a database is a keeper: its calls are those of the trait.

use crate::keeper::SqlKeeper;
use buckets::Bucket;
use identifiers::{AccountNumber, SessionId, VoucherCode};
use keepers::{Change, Keeper, KeptAnswer, Key, Loaded, StoreFault};
use reserving::Account;
use shelves::TariffShelf;
use sqlite::Alter;
use units::Moment;
use voucher_rules::{Voucher, VoucherTerms};

impl<S: Alter> Keeper for SqlKeeper<S> {
    ghost use Rattle.sql_keeper.specs.Stops.{as_seen};

    ghost seen = { as_seen S.Store };

    ghost use Rattle.std.proofs.Math.Nat.{min-le_right};
    ghost use Rattle.keepers.specs.Faults.{max_failures};

    ghost bounded = { λ k. min-le_right k.failures max_failures };

    ghost use Rattle.sql_keeper.specs.Settled.{settled_in};

    ghost honesty = { λ k clean. clean.disk };

    ghost settled = { λ k t clean left. settled_in _ S.Store.settled k t clean left };

    fn failures(&self) -> u64 {
        SqlKeeper::failures(self)
    }

    fn last(&mut self) -> Result<Moment, StoreFault> {
        SqlKeeper::last(self)
    }

    fn load<'b>(
        &mut self,
        shelf: &'b TariffShelf,
        account: &AccountNumber,
        moment: Moment,
    ) -> Result<Option<Loaded<'b>>, StoreFault> {
        SqlKeeper::load(self, shelf, account, moment)
    }

    fn view<'b>(
        &mut self,
        shelf: &'b TariffShelf,
        account: &AccountNumber,
        moment: Moment,
    ) -> Result<Option<Account<'b>>, StoreFault> {
        SqlKeeper::view(self, shelf, account, moment)
    }

    fn has_account(&mut self, account: &AccountNumber) -> Result<bool, StoreFault> {
        SqlKeeper::has_account(self, account)
    }

    fn knows_session(
        &mut self,
        account: &AccountNumber,
        session: &SessionId,
    ) -> Result<bool, StoreFault> {
        SqlKeeper::knows_session(self, account, session)
    }

    fn dead_buckets(&mut self, account: &AccountNumber) -> Result<Vec<Bucket>, StoreFault> {
        SqlKeeper::dead_buckets(self, account)
    }

    fn find_answer(
        &mut self,
        account: &AccountNumber,
        key: &Key,
    ) -> Result<Option<KeptAnswer>, StoreFault> {
        SqlKeeper::find_answer(self, account, key)
    }

    fn find_voucher(&mut self, code: &VoucherCode) -> Result<Option<Voucher>, StoreFault> {
        SqlKeeper::find_voucher(self, code)
    }

    fn add_voucher(
        &mut self,
        code: VoucherCode,
        terms: VoucherTerms,
        moment: Moment,
    ) -> Result<(), StoreFault> {
        SqlKeeper::add_voucher(self, code, terms, moment)
    }

    fn commit(&mut self, change: Change) -> Result<(), StoreFault> {
        SqlKeeper::commit(self, change)
    }

    fn abandon<'b>(&mut self, loaded: Loaded<'b>) {
        let Loaded {
            number: _,
            account: _,
            before: _,
        } = loaded;
    }

    fn sweep(&mut self, shelf: &TariffShelf, moment: Moment) -> Result<u64, StoreFault> {
        SqlKeeper::sweep(self, shelf, moment)
    }
}
