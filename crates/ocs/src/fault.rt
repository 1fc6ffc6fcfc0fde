//! Why the program ends with status 1.

ghost use Rattle.std.specs.Prelude.{◌≡◌};
ghost use Rattle.ocs.specs.Faults.{of_import};
ghost use Rattle.ocs.specs.Told.{about_fault, fault_place};

use operations::{LinesFault, stream_line};
use service::{DatabaseFault, ImportFault};
use texts::StreamFault;
use thiserror::Error;
use vouchers::VoucherFault;

/// Why the program ends with status 1.
#[derive(Clone, Copy, Debug, Drop, Error)]
pub enum ProgramFault {
    /// Lines of requests weren't answered to their end.
    #[error("{0}")]
    Lines(LinesFault),
    /// Memory was refused, or a standard stream failed.
    #[error("{0}")]
    Stream(StreamFault),
    /// A command over a database wasn't carried out.
    #[error("{0}")]
    Database(DatabaseFault),
    /// A file of vouchers has a fault, or wasn't read to its end: nothing is added.
    #[error("voucher fault {} at record {}", .0.kind.number(), .0.record_number)]
    Vouchers(VoucherFault),
}

impl ProgramFault {
    /// The line that reports it on standard error, without its number.
    pub(crate) fn line(self) -> &'static str
        ensures { result.now ≡ (about_fault self).line }
    {
        match self {
            ProgramFault::Lines(fault) => fault.line(),
            ProgramFault::Stream(fault) => stream_line(fault),
            ProgramFault::Database(fault) => fault.line(),
            ProgramFault::Vouchers(_) => "ocs: voucher fault",
        }
    }

    /// Its number, where it has one.
    pub(crate) fn number(self) -> Option<u8>
        ensures { result ≡ (about_fault self).number }
    {
        match self {
            ProgramFault::Lines(fault) => fault.number(),
            ProgramFault::Stream(_) => None,
            ProgramFault::Database(fault) => fault.number(),
            ProgramFault::Vouchers(fault) => Some(fault.kind.number()),
        }
    }

    /// The record that one of a file of vouchers is at.
    pub(crate) fn place(self) -> Option<u64>
        ensures { result ≡ fault_place self }
    {
        match self {
            ProgramFault::Lines(_) => None,
            ProgramFault::Stream(_) => None,
            ProgramFault::Database(_) => None,
            ProgramFault::Vouchers(fault) => Some(fault.record_number),
        }
    }
}

impl From<StreamFault> for ProgramFault {
    ghost use Rattle.ocs.specs.declared.fault.ProgramFault.TheVariants.{Stream};

    ghost from_gives = { λ fault e. e ≡ Stream fault };

    fn from(fault: StreamFault) -> ProgramFault {
        ProgramFault::Stream(fault)
    }
}

impl From<LinesFault> for ProgramFault {
    ghost use Rattle.ocs.specs.declared.fault.ProgramFault.TheVariants.{Lines};

    ghost from_gives = { λ fault e. e ≡ Lines fault };

    fn from(fault: LinesFault) -> ProgramFault {
        ProgramFault::Lines(fault)
    }
}

impl From<DatabaseFault> for ProgramFault {
    ghost use Rattle.ocs.specs.declared.fault.ProgramFault.TheVariants.{Database};

    ghost from_gives = { λ fault e. e ≡ Database fault };

    fn from(fault: DatabaseFault) -> ProgramFault {
        ProgramFault::Database(fault)
    }
}

impl From<ImportFault> for ProgramFault {
    ghost from_gives = { λ fault e. e ≡ of_import fault };

    fn from(fault: ImportFault) -> ProgramFault {
        match fault {
            ImportFault::Vouchers(fault) => ProgramFault::Vouchers(fault),
            ImportFault::Database(fault) => ProgramFault::Database(fault),
        }
    }
}
