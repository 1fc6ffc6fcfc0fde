//! Why a statement wasn't written whole.

ghost use Rattle.std.specs.Prelude.{◌≡◌};
ghost use Rattle.statements.specs.Faults.{statement_fault_number, fault_of_store, fault_of_stream};

use keepers::StoreFault;
use texts::StreamFault;
use thiserror::Error;

/// Why a statement or an export wasn't written whole.
#[derive(Clone, Copy, Debug, Drop, Error)]
pub enum StatementFault {
    /// A growth was refused.
    #[error("out of memory")]
    Memory,
    /// The store of charges failed.
    #[error("the store failed")]
    Store,
    /// The writer failed.
    #[error("the writer failed")]
    Write,
}

impl StatementFault {
    /// The number of the fault, 1 to 3.
    pub fn number(self) -> u8
        ensures { result ≡ statement_fault_number self }
    {
        match self {
            StatementFault::Memory => 1,
            StatementFault::Store => 2,
            StatementFault::Write => 3,
        }
    }
}

impl From<StoreFault> for StatementFault {
    ghost from_gives = { λ fault e. e ≡ fault_of_store fault };

    fn from(fault: StoreFault) -> StatementFault {
        match fault {
            StoreFault::Memory => StatementFault::Memory,
            StoreFault::Store => StatementFault::Store,
        }
    }
}

impl From<StreamFault> for StatementFault {
    ghost from_gives = { λ fault e. e ≡ fault_of_stream fault };

    fn from(fault: StreamFault) -> StatementFault {
        match fault {
            StreamFault::Memory => StatementFault::Memory,
            StreamFault::Read => StatementFault::Write,
            StreamFault::Write => StatementFault::Write,
        }
    }
}
