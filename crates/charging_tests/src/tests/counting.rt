//! A keeper that counts the rows of the last change that it was handed.

use buckets::Bucket;
use identifiers::{AccountNumber, SessionId, VoucherCode};
use keepers::{Change, Keeper, KeptAnswer, Key, Loaded, NamedRows, StoreFault};
use reserving::Account;
use shelves::TariffShelf;
use units::Moment;
use voucher_rules::{Voucher, VoucherTerms};

/// How many rows of each kind a change names, beside the moment and what is kept of the account
/// once.
#[derive(Clone, Copy, Drop)]
pub(crate) struct Counts {
    pub(crate) buckets: usize,
    pub(crate) counters: usize,
    pub(crate) sessions: usize,
    pub(crate) groups: usize,
    pub(crate) answers: usize,
    pub(crate) charges: usize,
}

/// The keeper inside, and what the last change named.
#[derive(Drop)]
pub(crate) struct Counting<K> {
    pub(crate) inner: K,
    pub(crate) counts: Counts,
}

/// No row.
pub(crate) fn no_counts() -> Counts {
    Counts {
        buckets: 0,
        counters: 0,
        sessions: 0,
        groups: 0,
        answers: 0,
        charges: 0,
    }
}

fn counts_of(rows: &NamedRows, answers: usize, charges: usize) -> Counts {
    Counts {
        buckets: rows.buckets().len(),
        counters: rows.counters().len(),
        sessions: rows.sessions().len(),
        groups: rows.groups().len(),
        answers,
        charges,
    }
}

impl<K: Keeper> Keeper for Counting<K> {
    ghost seen = { λ k. K.seen k.inner };

    ghost bounded = { λ k. K.bounded k.inner };

    ghost honesty = { λ k. K.honesty k.inner };

    ghost settled = { λ k. K.settled k.inner };

    fn failures(&self) -> u64 {
        self.inner.failures()
    }

    fn last(&mut self) -> Result<Moment, StoreFault> {
        self.inner.last()
    }

    fn load<'b>(
        &mut self,
        shelf: &'b TariffShelf,
        account: &AccountNumber,
        moment: Moment,
    ) -> Result<Option<Loaded<'b>>, StoreFault> {
        self.inner.load(shelf, account, moment)
    }

    fn view<'b>(
        &mut self,
        shelf: &'b TariffShelf,
        account: &AccountNumber,
        moment: Moment,
    ) -> Result<Option<Account<'b>>, StoreFault> {
        self.inner.view(shelf, account, moment)
    }

    fn has_account(&mut self, account: &AccountNumber) -> Result<bool, StoreFault> {
        self.inner.has_account(account)
    }

    fn knows_session(
        &mut self,
        account: &AccountNumber,
        session: &SessionId,
    ) -> Result<bool, StoreFault> {
        self.inner.knows_session(account, session)
    }

    fn dead_buckets(&mut self, account: &AccountNumber) -> Result<Vec<Bucket>, StoreFault> {
        self.inner.dead_buckets(account)
    }

    fn find_answer(
        &mut self,
        account: &AccountNumber,
        key: &Key,
    ) -> Result<Option<KeptAnswer>, StoreFault> {
        self.inner.find_answer(account, key)
    }

    fn find_voucher(&mut self, code: &VoucherCode) -> Result<Option<Voucher>, StoreFault> {
        self.inner.find_voucher(code)
    }

    fn commit(&mut self, change: Change) -> Result<(), StoreFault> {
        let answers = usize::from(change.kept.is_some());
        self.counts = counts_of(&change.rows, answers, change.charges.len());
        self.inner.commit(change)
    }

    fn add_voucher(
        &mut self,
        code: VoucherCode,
        terms: VoucherTerms,
        moment: Moment,
    ) -> Result<(), StoreFault> {
        self.inner.add_voucher(code, terms, moment)
    }

    fn abandon<'b>(&mut self, loaded: Loaded<'b>) {
        let Loaded {
            number: _,
            account: _,
            before: _,
        } = loaded;
    }

    fn sweep(&mut self, shelf: &TariffShelf, moment: Moment) -> Result<u64, StoreFault> {
        self.inner.sweep(shelf, moment)
    }
}
