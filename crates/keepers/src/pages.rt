//! Charges that a keeper gives some at a time.

ghost use Rattle.std.specs.Prelude.{◌≡◌, ℕ, List, None, OnErr};
ghost use Rattle.keepers.specs.Keeping.{KeeperReads};
ghost use Rattle.keepers.specs.Pages.{IsPage};
ghost use Rattle.keepers.specs.Visits.{SeesCharges, SeesBeginning, IsShown};

use crate::fault::StoreFault;
use crate::keeper::Keeper;
use crate::showing::show;
use crate::source::ChargeVisitor;
use identifiers::AccountNumber;
use ledger::ChargeRow;
use units::Moment;

/// Some of an account's charges: those beyond a number, up to the page's last one.
#[derive(Drop)]
pub struct ChargePage {
    /// The charges, in the order of their numbers.
    pub rows: Vec<ChargeRow>,
    /// The number up to which they go.
    pub last: u32,
    /// Whether no charge is beyond it.
    pub is_last: bool,
}

/// A keeper that gives the charges of an account some at a time.
pub trait ChargePages: Keeper {
    /// The charges of an account beyond this number, as many as a page has; none where there is no
    /// account.
    ///
    /// # Errors
    /// A store fault.
    fn page(&mut self, account: &AccountNumber, after: u32) -> Result<ChargePage, StoreFault>
        ensures { KeeperReads (Self.seen self.old) (Self.seen self.new)
            (λ page. IsPage ((Self.seen self.old).tables.charges account.now) after page) result };

    /// Charges are numbered from 1.
    ghost numbered: { (k : Self) → (a : List ℕ) → (Self.Keeper.seen k).tables.charges a 0 ≡ None };
}

/// Shows a visitor each charge of an account whose moment is `from` or later and before `until`, in
/// the order of their numbers, until it stops. No more than a page of them is held at a time.
///
/// # Errors
/// A store fault. Then the visitor was shown a beginning of those rows.
pub fn show_pages<K: ChargePages, V: ChargeVisitor>(
    keeper: &mut K,
    account: &AccountNumber,
    from: Moment,
    until: Moment,
    visitor: &mut V,
) -> Result<(), StoreFault>
    ensures reads { KeeperReads (K.seen keeper.old) (K.seen keeper.new)
        (λ _. SeesCharges V.sees from until ((K.seen keeper.old).tables.charges account.now)
        visitor.old visitor.new) result }
    ensures beginning { (K.seen keeper.new).clean →
        OnErr result (SeesBeginning V.sees from until
        ((K.seen keeper.old).tables.charges account.now) visitor.old visitor.new) }
    ensures shown { IsShown V.sees from until visitor.old visitor.new }
{
    let mut after = 0u32;
    for _page in 0..4_294_967_296u64 {
        let page = keeper.page(account, after)?;
        if !show(&page.rows, from, until, visitor) {
            return Ok(());
        }
        if page.is_last {
            return Ok(());
        }
        after = page.last;
    }
    Ok(())
}
