//! What is wrong with a file of vouchers.

ghost use Rattle.std.specs.Prelude.{◌≡◌};
ghost use Rattle.vouchers.specs.Faults.{voucher_fault_number};

use thiserror::Error;

/// What is wrong with a file of vouchers, in the order in which it is looked for (profile).
#[derive(Clone, Copy, Debug, Drop, Error)]
pub enum FaultKind {
    /// The first record isn't `code,amount,days,scope`, or there is none.
    #[error("the header is not code,amount,days,scope")]
    Header,
    /// The record hasn't four fields.
    #[error("the record does not have four fields")]
    FieldCount,
    /// The code isn't 12 digits.
    #[error("the code is not 12 digits")]
    Code,
    /// The amount isn't 1 to 10^15 micro-units.
    #[error("the amount is not 1 to 10^15")]
    Amount,
    /// The days are neither empty nor 1 to 3,650.
    #[error("the days are neither empty nor 1 to 3650")]
    Days,
    /// The scope is neither empty nor 0 to 4,294,967,295.
    #[error("the scope is neither empty nor 0 to 4294967295")]
    Scope,
    /// The reader answered an error.
    #[error("the reader failed")]
    Read,
    /// Memory was refused.
    #[error("out of memory")]
    Memory,
}

impl FaultKind {
    /// Its number, 1 to 8, as programs print it: `voucher fault 4 at record 7`.
    pub fn number(self) -> u8
        ensures { result ≡ voucher_fault_number self }
    {
        match self {
            FaultKind::Header => 1,
            FaultKind::FieldCount => 2,
            FaultKind::Code => 3,
            FaultKind::Amount => 4,
            FaultKind::Days => 5,
            FaultKind::Scope => 6,
            FaultKind::Read => 7,
            FaultKind::Memory => 8,
        }
    }
}

/// Why a file of vouchers wasn't read, and at which of its records; the header is record 1.
#[derive(Clone, Copy, Debug, Drop, Error)]
#[error("{kind} at record {record_number}")]
pub struct VoucherFault {
    /// The record's number in the file; the header is 1.
    pub record_number: u64,
    /// What is wrong with it.
    pub kind: FaultKind,
}
