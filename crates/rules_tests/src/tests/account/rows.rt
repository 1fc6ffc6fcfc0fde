//! Rows of an account as texts.

use buckets::{Bucket, HeldAmount};
use std::alloc::Global;
use std::process::Abort;

/// A bucket: its credited amount, and what of it is available, reserved, charged and expired.
fn columns(rt: &impl Abort, alloc: Global, bucket: &Bucket) -> String {
    let (credited, available, expired) = (bucket.credited(), bucket.available(), bucket.expired());
    let (reserved, charged) = (bucket.reserved(), bucket.charged());
    let text = format!(in alloc; " ({credited}; {available}, {reserved}, {charged}, {expired})");
    text.expect(rt, "memory")
}

pub(crate) fn buckets_text(rt: &impl Abort, alloc: Global, buckets: &[Bucket]) -> String {
    let mut text = String::new(alloc);
    for bucket in buckets {
        let columns = columns(rt, alloc, bucket);
        text.push_str(columns.as_str()).expect(rt, "memory");
    }
    text
}

/// The bucket and the amount of each hold.
pub(crate) fn holds_text(rt: &impl Abort, alloc: Global, holds: &[HeldAmount]) -> String {
    let mut text = String::new(alloc);
    for hold in holds {
        let piece = format!(in alloc; " {}:{}", hold.bucket, hold.amount).expect(rt, "memory");
        text.push_str(piece.as_str()).expect(rt, "memory");
    }
    text
}
