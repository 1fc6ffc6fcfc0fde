//! Columns read as moments, flags and names.

ghost use Rattle.std.specs.Prelude.{◌≡◌, ◌<◌, ◌≤◌, ℕ, Bool, false, length, List, Option, IfSome};
ghost use Rattle.std.specs.Prelude.{IsTrue, MatchResult};
ghost use Rattle.units.specs.Words.{latest_moment};
ghost use Rattle.identifiers.specs.Texts.{is_account_number, is_session_id};
ghost use Rattle.sqlite.specs.Values.{or_null};
ghost use Rattle.sqlite_value.specs.Order.{column};
ghost use Rattle.sqlite_value.specs.declared.value.Value.TheVariants.{Text};
ghost use Rattle.sql_rows.specs.Values.{flag_number, nat, state_number};

use identifiers::{AccountNumber, SessionId};
use reserving::SessionState;
use sql_tables::{ReadFault, null_at, number_at, small_at, text_at};
use sqlite::Row;
use std::alloc::Global;
use units::Moment;

/// The moment in a column.
pub(crate) fn moment_at(row: &Row, at: usize) -> Result<Moment, ReadFault>
    ensures { MatchResult result (λ m. column row.now at ≡ nat m)
        (λ e. e ≡ ReadFault.Rules → (n : ℕ) → n ≤ latest_moment → ¬ (column row.now at ≡ nat n)) }
{
    let seconds = number_at(row, at)?;
    Moment::new(seconds).ok_or(ReadFault::Rules)
}

/// The truth value in a column: 0 or 1.
pub(crate) fn flag_at(row: &Row, at: usize) -> Result<bool, ReadFault>
    ensures { MatchResult result (λ b. column row.now at ≡ nat (flag_number b))
        (λ e. e ≡ ReadFault.Rules → (b : Bool) → ¬ (column row.now at ≡ nat (flag_number b))) }
{
    let number = small_at(row, at)?;
    match number {
        0 => Ok(false),
        1 => Ok(true),
        _ => Err(ReadFault::Rules),
    }
}

/// Whether a column holds this number.
///
/// # Errors
/// `Memory` where memory was refused, and never `Rules`: another value is no fault.
pub(crate) fn is_number_at(row: &Row, at: usize, number: u32) -> Result<bool, ReadFault>
    ensures { MatchResult result
        (λ is. (IsTrue is → column row.now at ≡ nat number)
        × (column row.now at ≡ nat number → IsTrue is))
        (λ e. ¬ (e ≡ ReadFault.Rules)) }
{
    match small_at(row, at) {
        Ok(kept) => Ok(kept == number),
        Err(fault) => is_none(fault),
    }
}

/// A value that isn't such a number is none, unless memory ran out.
fn is_none(fault: ReadFault) -> Result<bool, ReadFault>
    ensures { MatchResult result (λ is. (is ≡ false) × (fault ≡ ReadFault.Rules))
        (λ e. ¬ (e ≡ ReadFault.Rules)) }
{
    match fault {
        ReadFault::Rules => Ok(false),
        ReadFault::Memory => Err(ReadFault::Memory),
        ReadFault::Store(error) => Err(ReadFault::Store(error)),
    }
}

/// Tests that a column holds the number 1.
pub(crate) fn one_at(row: &Row, at: usize) -> Result<(), ReadFault>
    ensures { MatchResult result (λ unit. column row.now at ≡ nat 1)
        (λ e. e ≡ ReadFault.Rules → ¬ (column row.now at ≡ nat 1)) }
{
    let number = small_at(row, at)?;
    match number {
        1 => Ok(()),
        _ => Err(ReadFault::Rules),
    }
}

/// The session's name in a column.
pub(crate) fn session_at(alloc: Global, row: &Row, at: usize) -> Result<SessionId, ReadFault>
    ensures { MatchResult result (λ s. column row.now at ≡ Text s)
        (λ e. e ≡ ReadFault.Rules → (s : List ℕ) → IsTrue (is_session_id s) →
        ¬ (column row.now at ≡ Text s)) }
{
    let name = text_at(row, at)?;
    SessionId::new(alloc, &name)?.ok_or(ReadFault::Rules)
}

/// The account's number in a column, none where it is NULL.
pub(crate) fn redeemer_at(
    alloc: Global,
    row: &Row,
    at: usize,
) -> Result<Option<AccountNumber>, ReadFault>
    ensures { MatchResult result (λ o. column row.now at ≡ or_null Text o)
        (λ e. e ≡ ReadFault.Rules → at < length row.now → (o : Option (List ℕ)) →
        IfSome o (λ a. IsTrue (is_account_number a)) → ¬ (column row.now at ≡ or_null Text o)) }
{
    match null_at(row, at) {
        Ok(()) => Ok(None),
        Err(fault) => {
            is_none(fault)?;
            Ok(Some(account_at(alloc, row, at)?))
        }
    }
}

/// The account's number in a column.
pub(crate) fn account_at(alloc: Global, row: &Row, at: usize) -> Result<AccountNumber, ReadFault>
    ensures { MatchResult result (λ a. column row.now at ≡ Text a)
        (λ e. e ≡ ReadFault.Rules → (a : List ℕ) → IsTrue (is_account_number a) →
        ¬ (column row.now at ≡ Text a)) }
{
    let number = text_at(row, at)?;
    AccountNumber::new(alloc, &number)?.ok_or(ReadFault::Rules)
}

/// The state of a session in a column.
pub(crate) fn state_at(row: &Row, at: usize) -> Result<SessionState, ReadFault>
    ensures { MatchResult result (λ s. column row.now at ≡ nat (state_number s))
        (λ e. e ≡ ReadFault.Rules → (s : SessionState) →
        ¬ (column row.now at ≡ nat (state_number s))) }
{
    let number = small_at(row, at)?;
    match number {
        1 => Ok(SessionState::Open),
        2 => Ok(SessionState::Ended),
        3 => Ok(SessionState::NeverOpened),
        _ => Err(ReadFault::Rules),
    }
}

/// Tests that a row of a selection of several parts is of the part of this number.
pub(crate) fn is_of_part(row: &Row, part: u64) -> Result<(), ReadFault>
    ensures { MatchResult result (λ _. column row.now 0 ≡ nat part)
        (λ e. e ≡ ReadFault.Rules → ¬ (column row.now 0 ≡ nat part)) }
{
    if number_at(row, 0)? == part {
        Ok(())
    } else {
        Err(ReadFault::Rules)
    }
}
