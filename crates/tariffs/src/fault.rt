//! Why a tariff book was not read.

ghost use Rattle.std.specs.Prelude.{◌≡◌};
ghost use Rattle.tariffs.specs.Faults.{book_fault_number};
ghost use Rattle.tariffs.specs.declared.fault.BookFault.TheVariants.{Memory};

use std::alloc::{AllocError, AllocFailed};
use thiserror::Error;

/// Why a tariff book was not read: the first fault in the order of its keys (profile).
#[derive(Clone, Copy, Debug, Drop, Error)]
pub enum BookFault {
    /// The text is not TOML.
    #[error("the text is not TOML")]
    NotToml,
    /// A key is missing, or a period has no price.
    #[error("a key is missing")]
    Missing,
    /// A value is of another kind than its key's.
    #[error("a value is of the wrong kind")]
    WrongKind,
    /// A value is outside its key's range, or comes twice where values are distinct.
    #[error("a value is out of range")]
    OutOfRange,
    /// A name is not one of the book's periods.
    #[error("a period is unknown")]
    UnknownPeriod,
    /// A minute of the week lies in no entry, or in more than one.
    #[error("the week is not covered once")]
    WeekNotCovered,
    /// A tier's bound is not above that of the tier before.
    #[error("the tiers do not rise")]
    TiersNotRising,
    /// An array has more entries than its key allows.
    #[error("an array has too many entries")]
    TooMany,
    /// Memory was refused.
    #[error("out of memory")]
    Memory,
}

impl BookFault {
    /// The fault's number, 1 to 9, as programs print it: `book fault 6`.
    pub fn number(self) -> u8
        ensures { result ≡ book_fault_number self }
    {
        match self {
            BookFault::NotToml => 1,
            BookFault::Missing => 2,
            BookFault::WrongKind => 3,
            BookFault::OutOfRange => 4,
            BookFault::UnknownPeriod => 5,
            BookFault::WeekNotCovered => 6,
            BookFault::TiersNotRising => 7,
            BookFault::TooMany => 8,
            BookFault::Memory => 9,
        }
    }
}

impl From<AllocError> for BookFault {
    ghost from_gives = { λ _ e. e ≡ Memory };

    fn from(_error: AllocError) -> BookFault {
        BookFault::Memory
    }
}

impl<T: Drop> From<AllocFailed<T>> for BookFault {
    ghost from_gives = { λ _ e. e ≡ Memory };

    fn from(_error: AllocFailed<T>) -> BookFault {
        BookFault::Memory
    }
}
