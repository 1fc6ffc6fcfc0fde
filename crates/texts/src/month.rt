//! A civil month.

ghost use Rattle.std.specs.Prelude.{◌≡◌, ◌%◌, IsTrue, Some, None};
ghost use Rattle.texts.specs.Months.{as_month, is_month, month_of};

use crate::numbers::number;
use std::marker::Model;

/// A civil month from January 1970 to December 2099 (profile).
///
/// Contracts see its number YYYYMM, as 202601 for January 2026.
#[derive(Clone, Copy)]
pub struct Month {
    number: u32,
}

impl Model for Month {
    ghost use Rattle.std.specs.Prelude.{ℕ, IsTrue};
    ghost use Rattle.texts.specs.Months.{is_month};

    ghost Value = { ℕ };

    ghost view = { λ m. m.number };

    ghost invariant = { λ m. IsTrue (is_month m.number) };

    ghost inverse = { λ n. record { number = n } };
}

impl Month {
    /// The month of a number YYYYMM; None where it is none.
    pub fn new(number: u64) -> Option<Month>
        ensures { result ≡ as_month number }
    {
        if 197_001 <= number && number <= 209_912 && 1 <= number % 100 && number % 100 <= 12 {
            Some(Month {
                number: number as u32,
            })
        } else {
            None
        }
    }

    /// The month that a word of six digits says; None for any other word.
    pub fn from_word(word: &str) -> Option<Month>
        ensures { result ≡ month_of word.now }
    {
        if word.len() != 6 {
            return None;
        }
        Month::new(number(word)?)
    }

    /// Its number YYYYMM.
    pub fn number(self) -> u32
        ensures value { result ≡ self }
        ensures rule { IsTrue (is_month self) }
    {
        self.number
    }
}
