//! What gives an account's charges, and what is shown them.

ghost use Rattle.std.specs.Prelude.{◌≡◌, Bool, OnErr};
ghost use Rattle.keepers.specs.Keeping.{KeeperReads};
ghost use Rattle.ledger.specs.ChargeColumns.{ChargeColumns};
ghost use Rattle.keepers.specs.Visits.{SeesCharges, SeesBeginning, IsShown};

use crate::fault::StoreFault;
use crate::keeper::Keeper;
use identifiers::AccountNumber;
use ledger::ChargeRow;
use units::Moment;

/// What is shown the charges of an account, one at a time.
pub trait ChargeVisitor {
    /// What it becomes by a row, and whether it goes on.
    ghost sees: { Self → ChargeColumns → Bool → Self → Type 0 };

    /// Is shown a row; false stops.
    fn row(&mut self, row: &ChargeRow) -> bool
        ensures { sees self.old row.now result self.new };
}

/// A keeper that gives the charges of an account one at a time.
pub trait ChargeSource: Keeper {
    /// Shows a visitor each charge of an account whose moment is `from` or later and before
    /// `until`, in the order of their numbers, until it stops; none where there is no account.
    ///
    /// # Errors
    /// A store fault. Then the visitor was shown a beginning of those rows. Of a store that doesn't
    /// answer what was written it is shown the rows that the store answers.
    // rule: charge-source, charge-source.visits
    fn each<V: ChargeVisitor>(
        &mut self,
        account: &AccountNumber,
        from: Moment,
        until: Moment,
        visitor: &mut V,
    ) -> Result<(), StoreFault>
        ensures reads { KeeperReads (Self.seen self.old) (Self.seen self.new)
            (λ _. SeesCharges V.sees from until
            ((Self.seen self.old).tables.charges account.now) visitor.old visitor.new) result }
        ensures beginning { (Self.seen self.new).clean →
            OnErr result (SeesBeginning V.sees from until
            ((Self.seen self.old).tables.charges account.now) visitor.old visitor.new) }
        ensures shown { IsShown V.sees from until visitor.old visitor.new };
}
