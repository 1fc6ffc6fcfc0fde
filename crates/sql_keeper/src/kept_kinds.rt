//! Whether the rows that are kept show what a bucket counts.

ghost use Rattle.std.specs.Prelude.{◌≡◌, ◌&&◌, Some, is_some};
ghost use Rattle.buckets.specs.Kinds.{is_alike};
ghost use Rattle.reserving.specs.Left.{bucket_in};
ghost use Rattle.sql_keeper.specs.KeptKinds.{is_alike_in, is_counted};

use crate::among::bucket_among;
use crate::kept_rows::{KeptRows, is_of};
use buckets::{Bucket, BucketKind};
use identifiers::AccountNumber;

/// Whether both count one unit.
fn same_kind(one: BucketKind, other: BucketKind) -> bool
    ensures { result ≡ is_alike one other }
{
    match (one, other) {
        (BucketKind::Money, BucketKind::Money) => true,
        (BucketKind::Blocks, BucketKind::Blocks) => true,
        _ => false,
    }
}

/// Whether a row is of one rating group, and counts the same as a bucket.
fn is_alike(row: &Bucket, bucket: &Bucket) -> bool
    ensures { result ≡ (is_some row.now.scope && is_alike row.now.kind bucket.now.kind) }
{
    row.scope().is_some() && same_kind(row.kind(), bucket.kind())
}

/// Whether the one of its number among these is of one rating group, and counts the same.
fn is_alike_among(rows: &[Bucket], bucket: &Bucket) -> bool
    ensures { result ≡ is_alike_in (bucket_in bucket.now.number rows.now) bucket.now }
{
    match bucket_among(rows, bucket.number()) {
        None => false,
        Some(row) => is_alike(row, bucket),
    }
}

/// Whether these rows are of an account, and say what a bucket of it counts.
fn is_counted_in(kept: &KeptRows, account: &AccountNumber, bucket: &Bucket) -> bool
    ensures { result ≡ is_counted (Some kept.now) account.now bucket.now }
{
    is_of(kept, account) && is_alike_among(kept.rows.purse.buckets(), bucket)
}

/// Whether the rows that are kept show that a bucket, one of one rating group, counts what it
/// counts here: then the row beside it stays as it is.
// rule: database-writes.counted
pub(crate) fn is_counted(kept: &Option<KeptRows>, account: &AccountNumber, bucket: &Bucket) -> bool
    ensures { result ≡ is_counted kept.now account.now bucket.now }
{
    match kept {
        None => false,
        Some(kept) => is_counted_in(kept, account, bucket),
    }
}
