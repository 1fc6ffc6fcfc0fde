//! What follows the charges of a statement: their sums, the buckets of money, the allowances, and
//! what was collected and covered to date.

ghost use Rattle.std.specs.Prelude.{◌≡◌, ◌≤◌, ◌++◌, if◌then◌else◌, string_bytes, OnOk, IfOk};
ghost use Rattle.buckets.specs.Kinds.{is_alike, most_in_bucket};
ghost use Rattle.buckets.specs.Share.{sum_in};
ghost use Rattle.buckets.specs.declared.kind.BucketKind.TheVariants.{Blocks};
ghost use Rattle.statements.specs.Lines.{allowance_heading, amount_names};
ghost use Rattle.statements.specs.Texts.{line_by_kind, line_among, lines_among, has_allowance};
ghost use Rattle.statements.specs.Texts.{allowances_text, covered_foot_text, foot_text};

use crate::lines::{allowance_line, bucket_line, covered_line, date_line, total_line};
use crate::rows::Sums;
use buckets::{Bucket, BucketKind};
use std::alloc::{AllocError, Global};

/// What is in the columns of a bucket's amounts.
const AMOUNT_NAMES: &str =
    "         CREDITED        AVAILABLE         RESERVED          CHARGED          EXPIRED\n";

/// What was charged to a bucket, in this unit: nothing where it counts another.
fn charged_in(kind: BucketKind, bucket: &Bucket) -> u64
    ensures value { result ≡ if is_alike bucket.now.kind kind then bucket.now.charged else 0 }
    ensures most { result ≤ most_in_bucket }
{
    if bucket.counts(kind) {
        bucket.charged()
    } else {
        0
    }
}

/// What was charged to the buckets that count this unit.
fn charged_to(kind: BucketKind, buckets: &[Bucket]) -> u128
    ensures { result ≡ sum_in kind (λ b. b.charged) buckets.now }
{
    let mut charged = 0u128;
    for bucket in buckets {
        charged += charged_in(kind, bucket) as u128;
    }
    charged
}

/// The line of a bucket of this kind.
fn line_of(alloc: Global, kind: BucketKind, bucket: &Bucket) -> Result<String, AllocError>
    ensures { IfOk result (λ text. string_bytes text ≡ line_by_kind kind bucket.now) }
{
    match kind {
        BucketKind::Money => bucket_line(alloc, bucket),
        BucketKind::Blocks => allowance_line(alloc, bucket),
    }
}

/// Adds the line of a bucket where it is of this kind.
fn push_line(
    alloc: Global,
    text: &mut String,
    kind: BucketKind,
    bucket: &Bucket,
) -> Result<(), AllocError>
    ensures { OnOk result
        (string_bytes text.new ≡ string_bytes text.old ++ line_among kind bucket.now) }
{
    if !bucket.counts(kind) {
        return Ok(());
    }
    let line = line_of(alloc, kind, bucket)?;
    text.push_str(line.as_str())?;
    Ok(())
}

/// Adds the lines of the buckets of this kind.
fn push_buckets(
    alloc: Global,
    text: &mut String,
    kind: BucketKind,
    buckets: &[Bucket],
) -> Result<(), AllocError>
    ensures { OnOk result
        (string_bytes text.new ≡ string_bytes text.old ++ lines_among kind buckets.now) }
{
    for bucket in buckets {
        push_line(alloc, text, kind, bucket)?;
    }
    Ok(())
}

/// Whether one of the buckets is an allowance.
fn has_allowance(buckets: &[Bucket]) -> bool
    ensures { result ≡ has_allowance buckets.now }
{
    buckets
        .iter()
        .any(|bucket| bucket.counts(BucketKind::Blocks))
}

/// Adds the line before buckets: these names, and those of their amounts.
fn push_names(text: &mut String, names: &str) -> Result<(), AllocError>
    ensures { OnOk result
        (string_bytes text.new ≡ string_bytes text.old ++ (names.now ++ amount_names)) }
{
    text.push_str(names)?;
    text.push_str(AMOUNT_NAMES)?;
    Ok(())
}

/// Adds the lines of allowances, after their names.
fn push_listed(alloc: Global, text: &mut String, buckets: &[Bucket]) -> Result<(), AllocError>
    ensures { OnOk result (string_bytes text.new ≡ string_bytes text.old
        ++ (allowance_heading ++ lines_among Blocks buckets.now)) }
{
    push_names(text, " ALLOWANCE      GROUP")?;
    push_buckets(alloc, text, BucketKind::Blocks, buckets)?;
    Ok(())
}

/// Adds the lines of allowances, where there is one.
// rule: statement-allowances
fn push_allowances(alloc: Global, text: &mut String, buckets: &[Bucket]) -> Result<(), AllocError>
    ensures { OnOk result
        (string_bytes text.new ≡ string_bytes text.old ++ allowances_text buckets.now) }
{
    if !has_allowance(buckets) {
        return Ok(());
    }
    push_listed(alloc, text, buckets)
}

/// Adds what allowances covered to date, where there is one.
// rule: statement-allowances
fn push_covered(alloc: Global, text: &mut String, buckets: &[Bucket]) -> Result<(), AllocError>
    ensures { OnOk result
        (string_bytes text.new ≡ string_bytes text.old ++ covered_foot_text buckets.now) }
{
    if !has_allowance(buckets) {
        return Ok(());
    }
    let line = covered_line(alloc, charged_to(BucketKind::Blocks, buckets))?;
    text.push_str(line.as_str())?;
    Ok(())
}

/// What follows the charges of a statement.
// rule: statement-allowances
pub(crate) fn foot_text(
    alloc: Global,
    sums: &Sums,
    buckets: &[Bucket],
) -> Result<String, AllocError>
    ensures { IfOk result (λ text. string_bytes text ≡ foot_text sums.now buckets.now) }
{
    let mut text = total_line(alloc, sums)?;
    push_names(&mut text, "    BUCKET")?;
    push_buckets(alloc, &mut text, BucketKind::Money, buckets)?;
    push_allowances(alloc, &mut text, buckets)?;
    let collected = date_line(alloc, charged_to(BucketKind::Money, buckets))?;
    text.push_str(collected.as_str())?;
    push_covered(alloc, &mut text, buckets)?;
    Ok(text)
}
