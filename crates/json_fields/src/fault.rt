//! Why a text was not read.

ghost use Rattle.std.specs.Prelude.{◌≡◌};
ghost use Rattle.json_fields.specs.declared.fault.WireFault.TheVariants.{Memory};

use commands::Avp;
use std::alloc::{AllocError, AllocFailed};
use thiserror::Error;

/// Why a text was not read, and the Result-Code by which it is answered (RFC 6733 section 7.1.5).
#[derive(Clone, Copy, Debug, Drop, Error)]
pub enum WireFault {
    /// 5012: not UTF-8, not JSON (RFC 8259), nested deeper than 127, or no object.
    #[error("no JSON object")]
    NotRequest,
    /// 5005, DIAMETER_MISSING_AVP: a member that has to be there isn't.
    #[error("{} is missing", .0.name())]
    Missing(Avp),
    /// 5004, DIAMETER_INVALID_AVP_VALUE: a member has the wrong kind or value.
    #[error("{} is invalid", .0.name())]
    Invalid(Avp),
    /// 5012: memory ran out.
    #[error("out of memory")]
    Memory,
}

impl From<AllocError> for WireFault {
    ghost from_gives = { λ _ e. e ≡ Memory };

    fn from(_e: AllocError) -> WireFault {
        WireFault::Memory
    }
}

impl<T: Drop> From<AllocFailed<T>> for WireFault {
    ghost from_gives = { λ _ e. e ≡ Memory };

    fn from(_e: AllocFailed<T>) -> WireFault {
        WireFault::Memory
    }
}
