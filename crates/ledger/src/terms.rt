//! The terms of a grant.

use rating::Periods;

/// The terms of a grant: what prices its units.
#[derive(Clone, Copy)]
pub struct Terms {
    /// The number of the tariff book at the grant.
    pub book: u8,
    /// Its periods at the grant and at the tariff switch within its validity.
    pub periods: Periods,
}
