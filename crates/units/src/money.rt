//! Amounts of money.

ghost use Rattle.std.specs.Prelude.{◌≡◌, ℕ, ◌≤◌, ◌↔◌, IsSome, IfSome};
ghost use Rattle.units.specs.Words.{most_money};
ghost use Rattle.units.specs.Amounts.{ReadsMoney};

use crate::limits::MOST_MONEY;
use std::marker::Model;
use thiserror::Error;

/// Why digits and an exponent are no amount of money.
#[derive(Clone, Copy, Debug, Drop, Error)]
pub enum UnitFault {
    /// The value is below 0 or above 10^15 micro-units.
    #[error("the value is out of range")]
    OutOfRange,
    /// The exponent isn't one of -6 to 0.
    #[error("the exponent is out of range")]
    Exponent,
}

/// A sum of money in micro-units of the book's currency, however large.
#[derive(Clone, Copy, PartialEq, Eq, PartialOrd, Ord)]
pub struct Amount(pub u128);

/// An amount of money: 0 to 10^15 micro-units of the book's currency (CC-Money, RFC 8506 section
/// 8.22).
#[derive(Clone, Copy, Debug, PartialEq, Eq, PartialOrd, Ord)]
pub struct Money {
    micros: u64,
}

impl Model for Money {
    ghost Value = { ℕ };

    ghost view = { λ m. m.micros };

    ghost invariant = { λ m. m.micros ≤ most_money };

    ghost inverse = { λ n. record { micros = n } };
}

impl Money {
    /// The amount of this many micro-units; None above 10^15.
    // rule: money
    pub fn new(micros: u64) -> Option<Money>
        ensures in_range { IsSome result ↔ (micros ≤ most_money) }
        ensures value { IfSome result (λ m. m ≡ micros) }
    {
        if micros <= MOST_MONEY {
            Some(Money { micros })
        } else {
            None
        }
    }

    /// The amount that Value-Digits and Exponent say (Unit-Value, RFC 8506 section 8.8): the digits
    /// times 10 to the exponent, in units of the currency.
    ///
    /// # Errors
    /// `Exponent`, then `OutOfRange`.
    // rule: money
    pub fn from_digits(digits: i64, exponent: i32) -> Result<Money, UnitFault>
        ensures { ReadsMoney digits exponent result }
    {
        let factor: u64 = match exponent {
            -6 => 1,
            -5 => 10,
            -4 => 100,
            -3 => 1_000,
            -2 => 10_000,
            -1 => 100_000,
            0 => 1_000_000,
            _ => return Err(UnitFault::Exponent),
        };
        let Ok(digits) = u64::try_from(digits) else {
            return Err(UnitFault::OutOfRange);
        };
        let micros = digits.checked_mul(factor).ok_or(UnitFault::OutOfRange)?;
        Money::new(micros).ok_or(UnitFault::OutOfRange)
    }

    /// Its micro-units.
    pub fn micros(self) -> u64
        ensures value { result ≡ self }
        ensures in_range { result ≤ most_money }
    {
        self.micros
    }
}
