//! What is kept of an account once.

use units::Moment;

/// What is kept of an account once.
#[derive(Clone, Copy)]
pub struct HeadColumns {
    /// Whether it is barred (profile).
    pub barred: bool,
    /// The moment that its rows are as of.
    pub as_of: Moment,
    /// The number of its next bucket.
    pub next_bucket: u64,
    /// The number of its next charge.
    pub next_charge: u64,
}
