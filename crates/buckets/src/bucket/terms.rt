//! What a bucket is made with.

use crate::kind::BucketKind;
use units::Moment;

/// What a bucket is made with, but for its number.
#[derive(Clone, Copy)]
pub struct BucketTerms {
    /// What its columns count.
    pub kind: BucketKind,
    /// The first moment at which it may be used.
    pub from: Moment,
    /// Its end: the first moment at which what is left of it is expired.
    pub until: Moment,
    /// The one rating group that it pays for, or none where it pays for all.
    pub scope: Option<u32>,
    /// The amount, in the unit of its kind.
    pub amount: u64,
}
