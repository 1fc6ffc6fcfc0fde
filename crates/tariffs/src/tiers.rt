//! A tier of a price.

/// The price of a block up to a place on the account's counter of the group and cycle (TS 32.296,
/// rating).
#[derive(Clone, Copy, Drop)]
pub struct Tier {
    /// The last place that it prices, from 1; None in the last tier, which has no bound.
    pub upto: Option<u64>,
    /// Micro-units of the book's currency a block.
    pub price: u64,
}
