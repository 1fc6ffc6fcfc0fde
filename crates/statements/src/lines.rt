//! Lines of a statement.

ghost use Rattle.std.specs.Prelude.{◌≡◌, ◌++◌, string_bytes, unwrap_or, OnOk, IfOk};
ghost use Rattle.statements.specs.Columns.{columns_text, set};
ghost use Rattle.statements.specs.Texts.{head_text};
ghost use Rattle.statements.specs.Lines.{title_line, charge_line, total_line, amounts_of};
ghost use Rattle.statements.specs.Lines.{bucket_line, allowance_line, date_line, covered_line};

use crate::columns::{Column, push_column, push_columns};
use crate::rows::Sums;
use buckets::Bucket;
use identifiers::AccountNumber;
use ledger::ChargeRow;
use std::alloc::{AllocError, Global};
use texts::Month;
use units::Moment;

/// The line before the charges: what is in their columns.
const HEADING: &str =
    "    MOMENT      GROUP     BLOCKS               RATED           COLLECTED         UNCOLLECTED\n";

/// The first line of a statement.
fn title_line(
    alloc: Global,
    account: &AccountNumber,
    month: Month,
    moment: Moment,
) -> Result<String, AllocError>
    ensures { IfOk result (λ text. string_bytes text ≡ title_line account.now month moment) }
{
    let account = account.as_str();
    let month = month.number();
    let moment = moment.seconds();
    format!(in alloc; "ACCOUNT {account} MONTH {month} MOMENT {moment}\n")
}

fn set(width: usize, value: u128) -> Column
    ensures { result ≡ set width value }
{
    Column { width, value }
}

/// The line of a charge: 93 bytes where each number fits into its column.
pub(crate) fn charge_line(alloc: Global, row: &ChargeRow) -> Result<String, AllocError>
    ensures { IfOk result (λ text. string_bytes text ≡ charge_line row.now) }
{
    let mut text = String::with_capacity(alloc, 93)?;
    push_column(&mut text, &set(10, row.moment.seconds() as u128))?;
    let columns = [
        set(10, row.group as u128),
        set(10, row.blocks.0 as u128),
        set(19, row.rated.0),
        set(19, row.collected.0),
        set(19, row.uncollected.0),
    ];
    push_columns(&mut text, &columns)?;
    Ok(text)
}

/// The line of the sums.
pub(crate) fn total_line(alloc: Global, sums: &Sums) -> Result<String, AllocError>
    ensures { IfOk result (λ text. string_bytes text ≡ total_line sums.now) }
{
    let mut text = String::new(alloc);
    text.push_str("                TOTAL")?;
    let columns = [
        set(10, sums.blocks),
        set(19, sums.rated),
        set(19, sums.collected),
        set(19, sums.uncollected),
    ];
    push_columns(&mut text, &columns)?;
    Ok(text)
}

/// Adds the amounts of a bucket, and ends the line.
fn push_amounts(text: &mut String, bucket: &Bucket) -> Result<(), AllocError>
    ensures { OnOk result
        (string_bytes text.new ≡ string_bytes text.old ++ columns_text (amounts_of bucket.now)) }
{
    let columns = [
        set(16, bucket.credited() as u128),
        set(16, bucket.available() as u128),
        set(16, bucket.reserved() as u128),
        set(16, bucket.charged() as u128),
        set(16, bucket.expired() as u128),
    ];
    push_columns(text, &columns)
}

/// The line of a bucket of money: 96 bytes where each number fits into its column.
pub(crate) fn bucket_line(alloc: Global, bucket: &Bucket) -> Result<String, AllocError>
    ensures { IfOk result (λ text. string_bytes text ≡ bucket_line bucket.now) }
{
    let mut text = String::with_capacity(alloc, 96)?;
    push_column(&mut text, &set(10, bucket.number() as u128))?;
    push_amounts(&mut text, bucket)?;
    Ok(text)
}

/// The rating group whose blocks a bucket counts: an allowance has one.
fn group_of(bucket: &Bucket) -> u32
    ensures { result ≡ unwrap_or bucket.now.scope 0 }
{
    bucket.scope().unwrap_or(0)
}

/// The line of an allowance: 107 bytes where each number fits into its column.
pub(crate) fn allowance_line(alloc: Global, bucket: &Bucket) -> Result<String, AllocError>
    ensures { IfOk result (λ text. string_bytes text ≡ allowance_line bucket.now) }
{
    let mut text = String::with_capacity(alloc, 107)?;
    push_column(&mut text, &set(10, bucket.number() as u128))?;
    text.push(' ')?;
    push_column(&mut text, &set(10, group_of(bucket) as u128))?;
    push_amounts(&mut text, bucket)?;
    Ok(text)
}

/// The line of what was collected to date, in micro-units.
pub(crate) fn date_line(alloc: Global, collected: u128) -> Result<String, AllocError>
    ensures { IfOk result (λ text. string_bytes text ≡ date_line collected) }
{
    format!(in alloc; "COLLECTED TO DATE {collected}\n")
}

/// The line of what allowances covered to date, in blocks.
pub(crate) fn covered_line(alloc: Global, covered: u128) -> Result<String, AllocError>
    ensures { IfOk result (λ text. string_bytes text ≡ covered_line covered) }
{
    format!(in alloc; "COVERED TO DATE {covered}\n")
}

/// What precedes the charges of a statement.
pub(crate) fn head_text(
    alloc: Global,
    account: &AccountNumber,
    month: Month,
    moment: Moment,
) -> Result<String, AllocError>
    ensures { IfOk result (λ text. string_bytes text ≡ head_text account.now month moment) }
{
    let mut text = title_line(alloc, account, month, moment)?;
    text.push_str(HEADING)?;
    Ok(text)
}
