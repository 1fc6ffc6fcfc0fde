//! Why a connection wasn't served to its end.

use std::alloc::AllocError;
use texts::StreamFault;
use thiserror::Error;

/// Why a connection wasn't served to its end.
#[derive(Clone, Copy, Debug, Drop, Error)]
pub enum ServeFault {
    /// Serve fault 1: a growth was refused for the connection's buffers, a head or a body.
    #[error("out of memory")]
    Memory,
    /// Serve fault 2: the reader failed.
    #[error("the reader failed")]
    Read,
    /// Serve fault 3: the writer failed.
    #[error("the writer failed")]
    Write,
}

impl ServeFault {
    ghost use Rattle.std.specs.Prelude.{◌≡◌};
    ghost use Rattle.http_api.specs.Faults.{serve_fault_number};

    /// The number of the fault, 1 to 3.
    pub fn number(self) -> u8
        ensures { result ≡ serve_fault_number self }
    {
        match self {
            ServeFault::Memory => 1,
            ServeFault::Read => 2,
            ServeFault::Write => 3,
        }
    }
}

impl From<StreamFault> for ServeFault {
    ghost use Rattle.std.specs.Prelude.{◌≡◌};
    ghost use Rattle.http_api.specs.Faults.{serve_fault};

    ghost from_gives = { λ fault e. e ≡ serve_fault fault };

    fn from(fault: StreamFault) -> ServeFault {
        match fault {
            StreamFault::Memory => ServeFault::Memory,
            StreamFault::Read => ServeFault::Read,
            StreamFault::Write => ServeFault::Write,
        }
    }
}

impl From<AllocError> for ServeFault {
    ghost use Rattle.std.specs.Prelude.{◌≡◌};
    ghost use Rattle.http_api.specs.declared.fault.ServeFault.TheVariants.{Memory};

    ghost from_gives = { λ fault e. e ≡ Memory };

    fn from(_fault: AllocError) -> ServeFault {
        ServeFault::Memory
    }
}
