//! The trait of all keepers, with its laws.

ghost use Rattle.std.specs.Prelude.{◌≡◌, ◌≤◌, IfOk, OnOk, is_some};
ghost use Rattle.keepers.specs.Faults.{max_failures};
ghost use Rattle.keepers.specs.Keeping.{KeeperReads, Keeps};
ghost use Rattle.keepers.specs.Seen.{Seen};
ghost use Rattle.keepers.specs.Tables.{Tables};
ghost use Rattle.keepers.specs.Change.{IsLoad, IsView, AreDeadOf, changed};
ghost use Rattle.keepers.specs.Change.{with_voucher, IsSwept};

use crate::fault::StoreFault;
use crate::kept_answer::KeptAnswer;
use crate::loaded::{Change, Loaded};
use buckets::Bucket;
use commands::Key;
use identifiers::{AccountNumber, SessionId, VoucherCode};
use reserving::Account;
use shelves::TariffShelf;
use units::Moment;
use voucher_rules::{Voucher, VoucherTerms};

/// What keeps the rows of accounts, their charges, the kept answers and the vouchers.
///
/// Contracts see its content as tables. What a call says of them it says where the store is clean
/// after it, and a store that is clean was clean before. Where the store is honest a call that
/// answers leaves it clean, also over a disk that fails. Store fault 2 comes only where the count
/// of failures rose in the call, or is at its highest. A change that would leave rows which a
/// keeper can't hold, as holds without the reservation that holds them, is refused as a fault:
/// store fault 1 in memory, 2 over a store.
// rule: runs, store-faults.cause, honest-store
pub trait Keeper {
    /// What a contract sees of it.
    ghost seen: { Self → Seen };

    /// How many calls met a failure of the store; at 10^18 it stays.
    fn failures(&self) -> u64
        ensures { result ≡ (seen self.now).failed };

    /// The moment of the last accepted command.
    ///
    /// # Errors
    /// A store fault.
    fn last(&mut self) -> Result<Moment, StoreFault>
        ensures { KeeperReads (seen self.old) (seen self.new)
            (λ t. t ≡ (seen self.old).tables.last) result };

    /// What may still change of the account of this number at the moment, priced by the shelf; None
    /// where there is no account.
    ///
    /// # Errors
    /// A store fault.
    // rule: database-loads.loaded-from
    fn load<'b>(
        &mut self,
        shelf: &'b TariffShelf,
        account: &AccountNumber,
        moment: Moment,
    ) -> Result<Option<Loaded<'b>>, StoreFault>
        ensures { KeeperReads (seen self.old) (seen self.new)
            (λ found. IsLoad shelf.now moment account.now
            ((seen self.old).tables.rows account.now) found) result };

    /// What may still change of the account of this number at the moment, to be read; None where
    /// there is no account.
    ///
    /// # Errors
    /// A store fault.
    // rule: database-loads.loaded-from
    fn view<'b>(
        &mut self,
        shelf: &'b TariffShelf,
        account: &AccountNumber,
        moment: Moment,
    ) -> Result<Option<Account<'b>>, StoreFault>
        ensures { KeeperReads (seen self.old) (seen self.new)
            (λ found. IsView shelf.now moment ((seen self.old).tables.rows account.now) found)
            result };

    /// Whether there is an account of this number.
    ///
    /// # Errors
    /// A store fault.
    fn has_account(&mut self, account: &AccountNumber) -> Result<bool, StoreFault>
        ensures { KeeperReads (seen self.old) (seen self.new)
            (λ there. there ≡ is_some ((seen self.old).tables.rows account.now).head) result };

    /// Whether an account has a row of this session, which may be over.
    ///
    /// # Errors
    /// A store fault.
    // rule: session-names.known
    fn knows_session(
        &mut self,
        account: &AccountNumber,
        session: &SessionId,
    ) -> Result<bool, StoreFault>
        ensures { KeeperReads (seen self.old) (seen self.new)
            (λ known. known
            ≡ is_some (((seen self.old).tables.rows account.now).sessions session.now)) result };

    /// The buckets of an account that can't be used any more, which `load` leaves, in the order of
    /// their numbers; none where there is no account.
    ///
    /// # Errors
    /// A store fault.
    fn dead_buckets(&mut self, account: &AccountNumber) -> Result<Vec<Bucket>, StoreFault>
        ensures { KeeperReads (seen self.old) (seen self.new)
            (λ found. AreDeadOf ((seen self.old).tables.rows account.now) found.items) result };

    /// What is kept under a key of an account; None where nothing is.
    ///
    /// # Errors
    /// A store fault.
    fn find_answer(
        &mut self,
        account: &AccountNumber,
        key: &Key,
    ) -> Result<Option<KeptAnswer>, StoreFault>
        ensures { KeeperReads (seen self.old) (seen self.new)
            (λ found. found ≡ (seen self.old).tables.answers account.now key.now) result };

    /// What is under the code of a voucher; None where nothing is.
    ///
    /// # Errors
    /// A store fault.
    // rule: voucher-add.with-voucher
    fn find_voucher(&mut self, code: &VoucherCode) -> Result<Option<Voucher>, StoreFault>
        ensures { KeeperReads (seen self.old) (seen self.new)
            (λ found. found ≡ (seen self.old).tables.vouchers code.now) result };

    /// Makes the change, in one transaction, and nothing else.
    ///
    /// # Errors
    /// A store fault. Then nothing has changed.
    // rule: database-writes.changed
    fn commit(&mut self, change: Change) -> Result<(), StoreFault>
        ensures done { (seen self.new).clean →
            OnOk result ((seen self.new).tables ≡ changed change (seen self.old).tables) }
        ensures kept { Keeps (seen self.old) (seen self.new)
            (λ t. t ≡ changed change (seen self.old).tables) result };

    /// Puts a voucher of these terms, which no account has redeemed, under the code, as a command
    /// of the moment, in one transaction.
    ///
    /// # Errors
    /// A store fault. Then nothing has changed.
    // rule: voucher-add.with-voucher
    fn add_voucher(
        &mut self,
        code: VoucherCode,
        terms: VoucherTerms,
        moment: Moment,
    ) -> Result<(), StoreFault>
        ensures done { (seen self.new).clean →
            OnOk result ((seen self.new).tables
            ≡ with_voucher code terms moment (seen self.old).tables) }
        ensures kept { Keeps (seen self.old) (seen self.new)
            (λ t. t ≡ with_voucher code terms moment (seen self.old).tables) result };

    /// Gives a loaded account up: nothing changes.
    fn abandon<'b>(&mut self, loaded: Loaded<'b>)
        ensures { self.new ≡ self.old }
    {
        let Loaded {
            number: _,
            account: _,
            before: _,
        } = loaded;
    }

    /// Brings each account to the moment, in one transaction, and answers how many there are.
    ///
    /// # Errors
    /// A store fault. Then nothing has changed.
    // rule: sweep.brought-to
    fn sweep(&mut self, shelf: &TariffShelf, moment: Moment) -> Result<u64, StoreFault>
        ensures count { (seen self.new).clean →
            IfOk result (λ n. n ≡ (seen self.old).tables.count) }
        ensures done { (seen self.new).clean →
            OnOk result (IsSwept shelf.now moment (seen self.old).tables (seen self.new).tables) }
        ensures kept { Keeps (seen self.old) (seen self.new)
            (IsSwept shelf.now moment (seen self.old).tables) result };

    /// The count stays at the highest.
    ghost bounded: { (k : Self) → (seen k).failed ≤ max_failures };

    /// A clean store is honest.
    // rule: honest-store
    ghost honesty: { (k : Self) → (seen k).clean → (seen k).honest };

    /// A stop between two calls leaves the tables as they are.
    // rule: honest-store
    ghost settled: { (k : Self) (t : Tables) → (seen k).clean → (seen k).left t →
        t ≡ (seen k).tables };
}
