//! Whether a row is in the rules of its table.

ghost use Rattle.std.specs.Prelude.{◌≡◌, ◌<◌, length, IfOk};
ghost use Rattle.sqlite_value.specs.Order.{column};
ghost use Rattle.sql_tables.specs.Schema.{our_schema};
ghost use Rattle.sql_rules.specs.Columns.{is_end, is_moment, is_next, is_numbering, is_small};
ghost use Rattle.sql_rules.specs.Columns.{number_at};
ghost use Rattle.sql_rules.specs.Rules.{are_periods, is_answer_key, is_period, is_ruled_account};
ghost use Rattle.sql_rules.specs.Rules.{is_ruled_allowance, is_ruled_answer, is_ruled_book};
ghost use Rattle.sql_rules.specs.Rules.{is_ruled_bucket, is_ruled_charge, is_ruled_counter};
ghost use Rattle.sql_rules.specs.Rules.{is_ruled_covered, is_ruled_grant_book, is_ruled_group};
ghost use Rattle.sql_rules.specs.Rules.{is_ruled_hold, is_ruled_meta, is_ruled_session};
ghost use Rattle.sql_rules.specs.Rules.{is_by, is_ruled_voucher, is_timely_at, passes_at, rule_at};

use crate::columns::{MOST_RATED, is_null_at, is_optional_within, is_within, number_at, text_at};
use crate::kept::are_kept_texts;
use crate::names::{is_account_number, is_reference, is_session_id, is_voucher_code};
use crate::periods::is_period_name;
use shelves::TariffShelf;
use sqlite::Row;
use std::alloc::{AllocError, Global};
use units::{
    END_OF_NUMBERS, GREATEST_NUMBER, LATEST_COMMAND, MOST_BLOCKS, MOST_COUNTED, MOST_DAYS,
    MOST_MONEY, MOST_USED, Moment, NO_END,
};
use wire::Scratch;

/// How many tables there are, those of all versions.
pub(crate) const TABLES: usize = 14;

fn is_small(number: u64) -> bool
    ensures { result ≡ is_small number }
{
    number <= GREATEST_NUMBER
}

fn is_numbering(number: u64) -> bool
    ensures { result ≡ is_numbering number }
{
    is_within(number, 1, GREATEST_NUMBER)
}

fn is_next(number: u64) -> bool
    ensures { result ≡ is_next number }
{
    is_within(number, 1, END_OF_NUMBERS)
}

fn is_moment(seconds: u64) -> bool
    ensures { result ≡ is_moment seconds }
{
    seconds < NO_END
}

/// Whether something that starts ends after its start.
fn is_end(starts: u64, ends: u64) -> bool
    ensures { result ≡ is_end starts ends }
{
    starts < ends && ends <= NO_END
}

fn is_ruled_meta(row: &Row) -> bool
    ensures { result ≡ is_ruled_meta row.now }
{
    number_at(row, 1) == 1 && is_moment(number_at(row, 4))
}

fn is_ruled_account(row: &Row) -> bool
    ensures { result ≡ is_ruled_account row.now }
{
    is_account_number(text_at(row, 1))
        && number_at(row, 2) <= 1
        && is_moment(number_at(row, 3))
        && is_next(number_at(row, 4))
        && is_next(number_at(row, 5))
}

fn is_ruled_bucket(row: &Row) -> bool
    ensures { result ≡ is_ruled_bucket row.now }
{
    is_numbering(number_at(row, 2))
        && is_moment(number_at(row, 3))
        && is_end(number_at(row, 3), number_at(row, 4))
        && is_optional_within(row, 5, 0, GREATEST_NUMBER)
        && number_at(row, 6) <= MOST_MONEY
}

fn is_ruled_counter(row: &Row) -> bool
    ensures { result ≡ is_ruled_counter row.now }
{
    is_small(number_at(row, 2)) && is_small(number_at(row, 3)) && number_at(row, 4) <= MOST_COUNTED
}

fn is_ruled_session(row: &Row) -> bool
    ensures { result ≡ is_ruled_session row.now }
{
    is_session_id(text_at(row, 2))
        && is_small(number_at(row, 3))
        && is_moment(number_at(row, 4))
        && is_within(number_at(row, 5), 1, 3)
}

/// Whether a column has the name of a period.
fn is_period(shelf: &TariffShelf, row: &Row, at: usize) -> bool
    ensures { result ≡ is_period shelf.now (column row.now at) }
{
    is_period_name(shelf, text_at(row, at))
}

/// Whether a group has two periods, or no reservation and none.
fn are_periods(shelf: &TariffShelf, row: &Row) -> bool
    ensures { result ≡
        are_periods shelf.now (number_at row.now 5) (column row.now 6) (column row.now 7) }
{
    match number_at(row, 5) {
        0 => is_null_at(row, 6) && is_null_at(row, 7),
        1 => is_period(shelf, row, 6) && is_period(shelf, row, 7),
        _ => false,
    }
}

fn is_ruled_group(shelf: &TariffShelf, row: &Row) -> bool
    ensures { result ≡ is_ruled_group shelf.now row.now }
{
    is_small(number_at(row, 3)) && number_at(row, 4) <= MOST_USED && are_periods(shelf, row)
}

fn is_ruled_hold(row: &Row) -> bool
    ensures { result ≡ is_ruled_hold row.now }
{
    is_within(number_at(row, 5), 1, MOST_MONEY)
}

fn is_ruled_grant_book(shelf: &TariffShelf, row: &Row) -> bool
    ensures { result ≡ is_ruled_grant_book shelf.now row.now }
{
    is_within(number_at(row, 4), 1, u64::from(shelf.count()))
}

/// Whether texts are kept under such a key.
fn is_answer_key(kind: u64, name: &[u8], number: u64) -> bool
    ensures { result ≡ is_answer_key kind name.now number }
{
    match kind {
        1 => is_session_id(name) && is_small(number),
        2 => is_reference(name) && number == 0,
        _ => false,
    }
}

fn is_ruled_answer(alloc: Global, row: &Row, scratch: &mut Scratch) -> Result<bool, AllocError>
    ensures { IfOk result (λ b. b ≡ is_ruled_answer row.now) }
{
    let kind = number_at(row, 2);
    let name = text_at(row, 3);
    let number = number_at(row, 4);
    if !is_answer_key(kind, name, number) {
        return Ok(false);
    }
    let (account, content, answer) = (text_at(row, 1), text_at(row, 5), text_at(row, 6));
    are_kept_texts(alloc, kind, name, number, account, content, answer, scratch)
}

fn is_ruled_voucher(row: &Row) -> bool
    ensures { result ≡ is_ruled_voucher row.now }
{
    is_voucher_code(text_at(row, 1))
        && is_within(number_at(row, 2), 1, MOST_MONEY)
        && is_optional_within(row, 3, 1, MOST_DAYS)
        && is_optional_within(row, 4, 0, GREATEST_NUMBER)
}

fn is_ruled_charge(row: &Row) -> bool
    ensures { result ≡ is_ruled_charge row.now }
{
    is_numbering(number_at(row, 2))
        && is_moment(number_at(row, 3))
        && is_session_id(text_at(row, 4))
        && is_small(number_at(row, 5))
        && number_at(row, 6) <= MOST_BLOCKS
        && number_at(row, 7) <= MOST_RATED
}

fn is_ruled_book(row: &Row) -> bool
    ensures { result ≡ is_ruled_book row.now }
{
    is_within(number_at(row, 1), 2, 16) && is_within(number_at(row, 2), 1, LATEST_COMMAND)
}

fn is_ruled_allowance(row: &Row) -> bool
    ensures { result ≡ is_ruled_allowance row.now }
{
    is_numbering(number_at(row, 2))
}

fn is_ruled_covered(row: &Row) -> bool
    ensures { result ≡ is_ruled_covered row.now }
{
    is_within(number_at(row, 3), 1, MOST_BLOCKS)
}

/// Whether a row is in the rules of the table at this place among those of all versions.
///
/// # Errors
/// Lack of memory, for the texts that are kept of a command alone.
// rule: rows-ruled
fn is_ruled(
    alloc: Global,
    shelf: &TariffShelf,
    at: usize,
    row: &Row,
    scratch: &mut Scratch,
) -> Result<bool, AllocError>
    requires { at < length our_schema.tables }
    ensures { IfOk result (λ b. b ≡ rule_at shelf.now at row.now) }
{
    match at {
        0 => Ok(is_ruled_meta(row)),
        1 => Ok(is_ruled_account(row)),
        2 => Ok(is_ruled_bucket(row)),
        3 => Ok(is_ruled_counter(row)),
        4 => Ok(is_ruled_session(row)),
        5 => Ok(is_ruled_group(shelf, row)),
        6 => Ok(is_ruled_hold(row)),
        7 => is_ruled_answer(alloc, row, scratch),
        8 => Ok(is_ruled_voucher(row)),
        9 => Ok(is_ruled_charge(row)),
        10 => Ok(is_ruled_book(row)),
        11 => Ok(is_ruled_grant_book(shelf, row)),
        12 => Ok(is_ruled_allowance(row)),
        _ => Ok(is_ruled_covered(row)),
    }
}

// ---- moments

fn is_by(row: &Row, place: usize, last: Moment) -> bool
    ensures { result ≡ is_by place last row.now }
{
    number_at(row, place) <= last.seconds()
}

/// Whether a row of the table at a place isn't of a moment after the last moment.
fn is_timely(last: Moment, at: usize, row: &Row) -> bool
    ensures { result ≡ is_timely_at last at row.now }
{
    if at == 1 {
        return is_by(row, 3, last);
    }
    if at == 4 {
        return is_by(row, 4, last);
    }
    if at == 9 {
        return is_by(row, 3, last);
    }
    true
}

/// Whether a row is in the rules of the table at this place among those of all versions, and isn't
/// of a moment after the last moment.
///
/// # Errors
/// Lack of memory, for the texts that are kept of a command alone.
// rule: rows-ruled, rows-ruled.timely
pub(crate) fn passes(
    alloc: Global,
    shelf: &TariffShelf,
    last: Moment,
    at: usize,
    row: &Row,
    scratch: &mut Scratch,
) -> Result<bool, AllocError>
    requires { at < length our_schema.tables }
    ensures { IfOk result (λ b. b ≡ passes_at shelf.now last at row.now) }
{
    let is_ruled = is_ruled(alloc, shelf, at, row, scratch)?;
    Ok(is_ruled && is_timely(last, at, row))
}
