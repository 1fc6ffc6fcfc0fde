//! Why words aren't the program's.

use crate::argument_names::Argument;
use std::alloc::{AllocError, AllocFailed};
use thiserror::Error;

/// Why words aren't the program's.
#[derive(Debug, Drop, Error)]
pub enum WordsFault {
    /// `clap` doesn't take them, or they ask for the help or the version: its text says which.
    #[error("{0}")]
    Unread(clap::Error),
    /// The word of this operand or option isn't one that it takes: no number, out of range, or no
    /// name.
    #[error("a word is not one that its place takes")]
    Invalid(Argument),
    /// Memory was refused.
    #[error("out of memory")]
    Memory,
}

/// Why a word isn't what its place takes.
#[derive(Clone, Copy, Drop)]
pub(crate) enum ValueFault {
    /// That of this operand or option is no number, out of range, or no name.
    Invalid(Argument),
    /// Memory was refused.
    Memory,
}

impl From<AllocError> for ValueFault {
    ghost use Rattle.std.specs.Prelude.{◌≡◌};
    ghost use Rattle.operator.specs.Faults.{out_of_memory};

    ghost from_gives = { λ _ e. e ≡ out_of_memory };

    fn from(_error: AllocError) -> ValueFault {
        ValueFault::Memory
    }
}

impl<T: Drop> From<AllocFailed<T>> for ValueFault {
    ghost use Rattle.std.specs.Prelude.{◌≡◌};
    ghost use Rattle.operator.specs.Faults.{out_of_memory};

    ghost from_gives = { λ _ e. e ≡ out_of_memory };

    fn from(_error: AllocFailed<T>) -> ValueFault {
        ValueFault::Memory
    }
}
