//! Buckets made of their rows; a row out of its rules is no bucket.

ghost use Rattle.std.specs.Prelude.{◌≡◌, nat_eq, map, IfOk};
ghost use Rattle.std.specs.List.{list_any};
ghost use Rattle.std.specs.List.Sorted.{IsNonDecreasing, IsPermutation};
ghost use Rattle.sql_rows.specs.Texts.{bucket_row};
ghost use Rattle.sql_keeper.specs.Content.{bucket_in, kind_in};
ghost use Rattle.sql_keeper.specs.Kinds.{counted_by};

use buckets::{Bucket, BucketKind};
use sql_rows::BucketColumns;
use sql_tables::ReadFault;
use std::alloc::{AllocError, Global};

/// What a bucket counts, by whether it is an allowance.
fn kind_of(is_allowance: bool) -> BucketKind
    ensures { result ≡ kind_in is_allowance }
{
    if is_allowance {
        BucketKind::Blocks
    } else {
        BucketKind::Money
    }
}

/// The bucket of a row, by whether there is a row that says it is an allowance: of no one rating
/// group it is none. Its columns are out of the rules where they don't sum to what was credited.
pub(crate) fn bucket_of(row: &BucketColumns, is_allowance: bool) -> Result<Bucket, ReadFault>
    ensures { IfOk result (λ b. b ≡ bucket_in is_allowance (bucket_row row.now)) }
{
    let mut columns = *row;
    columns.kind = kind_of(row.scope.is_some() && is_allowance);
    Bucket::from_columns(&columns).ok_or(ReadFault::Rules)
}

/// The bucket of each row, in turn; the numbers are those of all buckets that are allowances. A row
/// more costs a search among the sorted numbers.
pub(crate) fn buckets_of(
    alloc: Global,
    rows: &[BucketColumns],
    numbers: &[u32],
) -> Result<Vec<Bucket>, ReadFault>
    ensures { IfOk result (λ bs. bs.items ≡ map (counted_by numbers.now) rows.now) }
{
    let sorted = sorted_numbers(alloc, numbers)?;
    let mut buckets = Vec::new(alloc);
    'rows: for row in rows {
        let bucket = bucket_of(row, is_among(&sorted, row.number))?;
        buckets.push(bucket)?;
    }
    Ok(buckets)
}

/// The numbers in their order.
fn sorted_numbers(alloc: Global, numbers: &[u32]) -> Result<Vec<u32>, AllocError>
    ensures same { IfOk result (λ sorted. IsPermutation numbers.now sorted.items) }
    ensures order { IfOk result (λ sorted. IsNonDecreasing sorted.items) }
{
    let mut sorted = Vec::from_slice(alloc, numbers)?;
    sorted.sort_unstable();
    Ok(sorted)
}

/// Whether the number is one of these, which don't fall.
fn is_among(sorted: &[u32], number: u32) -> bool
    requires order { IsNonDecreasing sorted.now }
    ensures { result ≡ list_any (λ n. nat_eq n number) sorted.now }
{
    sorted.binary_search(&number).is_ok()
}
