//! The charges of a keeper whose store fails, for tests.

use crate::failing::Failing;
use crate::fault::StoreFault;
use crate::source::{ChargeSource, ChargeVisitor};
use identifiers::AccountNumber;
use units::Moment;

impl<K: ChargeSource> ChargeSource for Failing<K> {
    #[tactic(auto, using(crate::proofs::ShownRows::nothing_shown))]
    fn each<V: ChargeVisitor>(
        &mut self,
        account: &AccountNumber,
        from: Moment,
        until: Moment,
        visitor: &mut V,
    ) -> Result<(), StoreFault> {
        self.turn()?;
        self.inner.each(account, from, until, visitor)
    }
}
