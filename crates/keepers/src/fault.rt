//! Why a keeper didn't do what it was asked.

use std::alloc::AllocError;
use thiserror::Error;

/// The count of failed calls stays here.
pub const MOST_FAILURES: u64 = 1_000_000_000_000_000_000;

/// Why a keeper didn't do what it was asked.
#[derive(Clone, Copy, Debug, Drop, Error, PartialEq, Eq)]
pub enum StoreFault {
    /// Store fault 1: a growth was refused.
    #[error("out of memory")]
    Memory,
    /// Store fault 2: the store failed.
    #[error("the store failed")]
    Store,
}

impl StoreFault {
    ghost use Rattle.std.specs.Prelude.{◌≡◌};
    ghost use Rattle.keepers.specs.Faults.{store_fault_number};

    /// The number of the fault, 1 or 2.
    pub fn number(self) -> u8
        ensures { result ≡ store_fault_number self }
    {
        match self {
            StoreFault::Memory => 1,
            StoreFault::Store => 2,
        }
    }
}

impl From<AllocError> for StoreFault {
    ghost use Rattle.std.specs.Prelude.{◌≡◌};
    ghost use Rattle.keepers.specs.declared.fault.StoreFault.TheVariants.{Memory};

    ghost from_gives = { λ _ e. e ≡ Memory };

    fn from(_error: AllocError) -> StoreFault {
        StoreFault::Memory
    }
}
