//! A keeper whose store fails once, for tests.

ghost use Rattle.std.specs.Prelude.{◌≡◌, ◌==◌, ◌-◌, ◌&&◌, not, true, false, IfErr, OnOk};
ghost use Rattle.keepers.specs.declared.fault.StoreFault.TheVariants.{Store};

use crate::fault::{MOST_FAILURES, StoreFault};
use crate::keeper::Keeper;
use crate::kept_answer::KeptAnswer;
use crate::loaded::{Change, Loaded};
use buckets::Bucket;
use commands::Key;
use identifiers::{AccountNumber, SessionId, VoucherCode};
use reserving::Account;
use shelves::TariffShelf;
use units::Moment;
use voucher_rules::{Voucher, VoucherTerms};

/// A keeper whose store fails once, for tests: the call after so many others answers store fault 2
/// and is counted; each other call is that of the keeper inside. It meets the laws over any keeper.
#[derive(Drop)]
pub struct Failing<K> {
    /// The keeper inside.
    pub inner: K,
    left: u64,
    failed: bool,
}

impl<K: Keeper> Failing<K> {
    /// The keeper, with a store that fails at the call after this many. `failures` and `abandon`
    /// don't count.
    pub fn new(inner: K, left: u64) -> Failing<K>
        ensures content { (⟦<Failing<K> as Keeper>⟧.seen result).tables ≡ (K.seen inner).tables }
        ensures failures { (⟦<Failing<K> as Keeper>⟧.seen result).failed ≡ (K.seen inner).failed }
        ensures cleanness { (K.seen inner).clean → (⟦<Failing<K> as Keeper>⟧.seen result).clean }
        ensures calls { result.left ≡ left }
    {
        Failing {
            inner,
            left,
            failed: false,
        }
    }

    /// The keeper inside.
    pub fn into_inner(self) -> K
        ensures { (K.seen result).tables ≡ (⟦<Failing<K> as Keeper>⟧.seen self).tables }
    {
        let Failing {
            inner,
            left: _,
            failed: _,
        } = self;
        inner
    }

    /// Whether this call fails: once, when the calls before the failing one are done. A further
    /// call over the keeper asks it first, so that it is counted.
    pub fn fails(&mut self) -> bool
        ensures told { result ≡ (not self.old.failed && self.old.left == 0) }
        ensures left { self.old.failed ≡ false → self.new.left ≡ self.old.left - 1 }
        ensures same { self.new.inner ≡ self.old.inner }
        ensures raised { result ≡ true → (self.old.failed ≡ false) × (self.new.failed ≡ true) }
        ensures kept { result ≡ false → self.new.failed ≡ self.old.failed }
    {
        if self.failed {
            return false;
        }
        if self.left == 0 {
            self.failed = true;
            return true;
        }
        self.left -= 1;
        false
    }

    /// A call's turn: store fault 2 where it fails.
    pub(crate) fn turn(&mut self) -> Result<(), StoreFault>
        ensures same { self.new.inner ≡ self.old.inner }
        ensures raised { IfErr result (λ e. (e ≡ Store) × (self.old.failed ≡ false)
            × (self.new.failed ≡ true)) }
        ensures kept { OnOk result (self.new.failed ≡ self.old.failed) }
    {
        if self.fails() {
            return Err(StoreFault::Store);
        }
        Ok(())
    }
}

impl<K: Keeper> Keeper for Failing<K> {
    ghost use Rattle.keepers.specs.Failing.{failure_total, total-bounded};

    ghost seen = { λ k. record {
      tables = (K.seen k.inner).tables;
      failed = failure_total (K.seen k.inner).failed k.failed;
      honest = (K.seen k.inner).honest;
      clean = (K.seen k.inner).clean;
      left = (K.seen k.inner).left;
    } };

    ghost bounded = { λ k. total-bounded (K.seen k.inner).failed k.failed (K.bounded k.inner) };

    ghost honesty = { λ k. K.honesty k.inner };

    ghost settled = { λ k. K.settled k.inner };

    fn failures(&self) -> u64 {
        let inner = self.inner.failures();
        if self.failed {
            inner.saturating_add(1).min(MOST_FAILURES)
        } else {
            inner
        }
    }

    fn last(&mut self) -> Result<Moment, StoreFault> {
        self.turn()?;
        self.inner.last()
    }

    fn load<'b>(
        &mut self,
        shelf: &'b TariffShelf,
        account: &AccountNumber,
        moment: Moment,
    ) -> Result<Option<Loaded<'b>>, StoreFault> {
        self.turn()?;
        self.inner.load(shelf, account, moment)
    }

    fn view<'b>(
        &mut self,
        shelf: &'b TariffShelf,
        account: &AccountNumber,
        moment: Moment,
    ) -> Result<Option<Account<'b>>, StoreFault> {
        self.turn()?;
        self.inner.view(shelf, account, moment)
    }

    fn has_account(&mut self, account: &AccountNumber) -> Result<bool, StoreFault> {
        self.turn()?;
        self.inner.has_account(account)
    }

    fn knows_session(
        &mut self,
        account: &AccountNumber,
        session: &SessionId,
    ) -> Result<bool, StoreFault> {
        self.turn()?;
        self.inner.knows_session(account, session)
    }

    fn dead_buckets(&mut self, account: &AccountNumber) -> Result<Vec<Bucket>, StoreFault> {
        self.turn()?;
        self.inner.dead_buckets(account)
    }

    fn find_answer(
        &mut self,
        account: &AccountNumber,
        key: &Key,
    ) -> Result<Option<KeptAnswer>, StoreFault> {
        self.turn()?;
        self.inner.find_answer(account, key)
    }

    fn find_voucher(&mut self, code: &VoucherCode) -> Result<Option<Voucher>, StoreFault> {
        self.turn()?;
        self.inner.find_voucher(code)
    }

    fn commit(&mut self, change: Change) -> Result<(), StoreFault> {
        self.turn()?;
        self.inner.commit(change)
    }

    fn add_voucher(
        &mut self,
        code: VoucherCode,
        terms: VoucherTerms,
        moment: Moment,
    ) -> Result<(), StoreFault> {
        self.turn()?;
        self.inner.add_voucher(code, terms, moment)
    }

    fn abandon<'b>(&mut self, loaded: Loaded<'b>) {
        self.inner.abandon(loaded);
    }

    fn sweep(&mut self, shelf: &TariffShelf, moment: Moment) -> Result<u64, StoreFault> {
        self.turn()?;
        self.inner.sweep(shelf, moment)
    }
}
