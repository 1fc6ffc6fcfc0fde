//! Fields of a voucher's record.

ghost use Rattle.std.specs.Prelude.{◌≡◌, ◌≤◌, ◌==◌, ◌&&◌, IfOk, IfSome};
ghost use Rattle.units.specs.Words.{greatest_number, most_money, most_days};
ghost use Rattle.csv.specs.Records.{fields_of};
ghost use Rattle.texts.specs.Steps.{Says, GivesUnless, where_holds};
ghost use Rattle.identifiers.specs.Texts.{is_voucher_code};
ghost use Rattle.texts.specs.Numbers.{number_of};
ghost use Rattle.vouchers.specs.Rows.{AreInRange, IsVoucher, field, is_header, number_in_field};
ghost use Rattle.vouchers.specs.Rows.{optional_in_field, terms_of, voucher_of};
ghost use Rattle.vouchers.specs.declared.fault.FaultKind.TheVariants.{Amount, Code, Days, Scope};
ghost use Rattle.vouchers.specs.declared.fault.FaultKind.TheVariants.{Memory};

use crate::fault::FaultKind;
use commands::VoucherAddition;
use csv::ByteRecord;
use identifiers::VoucherCode;
use std::alloc::Global;
use std::str;
use units::{GREATEST_NUMBER, MOST_DAYS, MOST_MONEY, Money};
use voucher_rules::VoucherTerms;

/// The field at a place, empty past the last.
#[tactic(auto, using(crate::proofs::FieldLemmas::field_found, crate::proofs::FieldLemmas::field_missing))]
fn field(fields: &ByteRecord, i: usize) -> &[u8]
    ensures { result.now ≡ field (fields_of fields.now) i }
{
    match fields.get(i) {
        Some(field) => field,
        None => b"",
    }
}

/// Whether a record is the header of a file of vouchers.
pub(crate) fn is_header(fields: &ByteRecord) -> bool
    ensures { result ≡ is_header (fields_of fields.now) }
{
    fields.len() == 4
        && field(fields, 0) == b"code".as_slice()
        && field(fields, 1) == b"amount".as_slice()
        && field(fields, 2) == b"days".as_slice()
        && field(fields, 3) == b"scope".as_slice()
}

/// The number that a field says: 1 to 16 digits without a sign.
#[tactic(auto, using(crate::proofs::FieldLemmas::no_number))]
fn number(field: &[u8]) -> Option<u64>
    ensures { result ≡ number_of field.now }
{
    let text = str::from_utf8(field).ok()?;
    texts::number(text)
}

/// The number that a field says, from `low` to `high`.
#[tactic(auto, unfolding(crate::specs::Rows::number_in_field))]
fn number_in(fault: FaultKind, low: u64, high: u64, field: &[u8]) -> Result<u64, FaultKind>
    ensures value { Says (λ n. n) result (number_in_field fault low high field.now) }
    ensures in_range { IfOk result (λ n. (low ≤ n) × (n ≤ high)) }
{
    let number = number(field).ok_or(fault)?;
    if low <= number && number <= high {
        Ok(number)
    } else {
        Err(fault)
    }
}

/// The whole number from `low` to `high` that a field is, and else `fault`; None where it is empty.
#[tactic(auto, unfolding(crate::specs::Rows::optional_in_field))]
fn optional_in(
    fault: FaultKind,
    low: u64,
    high: u64,
    field: &[u8],
) -> Result<Option<u64>, FaultKind>
    ensures value { Says (λ n. n) result (optional_in_field fault low high field.now) }
    ensures in_range { IfOk result (λ o. IfSome o (λ n. (low ≤ n) × (n ≤ high))) }
{
    if field.is_empty() {
        return Ok(None);
    }
    Ok(Some(number_in(fault, low, high, field)?))
}

/// The code that a field says.
#[tactic(auto, using(crate::proofs::FieldLemmas::no_code))]
fn code(alloc: Global, field: &[u8]) -> Result<VoucherCode, FaultKind>
    ensures { GivesUnless Memory (λ c. c) result
        (where_holds (is_voucher_code field.now) Code field.now) }
{
    let Ok(text) = str::from_utf8(field) else {
        return Err(FaultKind::Code);
    };
    VoucherCode::new(alloc, text)
        .map_err(|_| FaultKind::Memory)?
        .ok_or(FaultKind::Code)
}

fn amount(field: &[u8]) -> Result<Money, FaultKind>
    ensures value { Says (λ m. m) result (number_in_field Amount 1 most_money field.now) }
    ensures in_range { IfOk result (λ m. (1 ≤ m) × (m ≤ most_money)) }
{
    let micros = number_in(FaultKind::Amount, 1, MOST_MONEY, field)?;
    Money::new(micros).ok_or(FaultKind::Amount)
}

fn days(field: &[u8]) -> Result<Option<u32>, FaultKind>
    ensures value { Says (λ d. d) result (optional_in_field Days 1 most_days field.now) }
    ensures in_range { IfOk result (λ o. IfSome o (λ n. (1 ≤ n) × (n ≤ most_days))) }
{
    match optional_in(FaultKind::Days, 1, MOST_DAYS, field)? {
        None => Ok(None),
        Some(days) => Ok(Some(days as u32)),
    }
}

fn scope(field: &[u8]) -> Result<Option<u32>, FaultKind>
    ensures { Says (λ g. g) result (optional_in_field Scope 0 greatest_number field.now) }
{
    match optional_in(FaultKind::Scope, 0, GREATEST_NUMBER, field)? {
        None => Ok(None),
        Some(group) => Ok(Some(group as u32)),
    }
}

/// The terms of an amount and of days in their ranges.
#[tactic(auto, using(crate::proofs::FieldLemmas::terms_in_range))]
fn terms_of(amount: Money, days: Option<u32>, scope: Option<u32>) -> VoucherTerms
    requires amount { (1 ≤ amount) × (amount ≤ most_money) }
    requires days { IfSome days (λ n. (1 ≤ n) × (n ≤ most_days)) }
    ensures value { result ≡ record { amount = amount; days = days; scope = scope } }
    ensures in_range { AreInRange result }
{
    let Some(terms) = VoucherTerms::new(amount, days, scope) else {
        unreachable!()
    };
    terms
}

/// The terms that the fields behind the code say, or their first fault from the left.
#[tactic(auto, unfolding(crate::specs::Rows::terms_of))]
fn terms(fields: &ByteRecord) -> Result<VoucherTerms, FaultKind>
    ensures value { Says (λ t. t) result (terms_of (fields_of fields.now)) }
    ensures in_range { IfOk result AreInRange }
{
    let amount = amount(field(fields, 1))?;
    let days = days(field(fields, 2))?;
    let scope = scope(field(fields, 3))?;
    Ok(terms_of(amount, days, scope))
}

/// The voucher that a record says, or its first fault from the left.
#[tactic(auto, unfolding(crate::specs::Rows::voucher_of))]
pub(crate) fn voucher(alloc: Global, fields: &ByteRecord) -> Result<VoucherAddition, FaultKind>
    ensures value { GivesUnless Memory (λ v. v) result (voucher_of (fields_of fields.now)) }
    ensures in_range { IfOk result IsVoucher }
{
    if fields.len() != 4 {
        return Err(FaultKind::FieldCount);
    }
    let code = code(alloc, field(fields, 0))?;
    let terms = terms(fields)?;
    Ok(VoucherAddition { code, terms })
}
