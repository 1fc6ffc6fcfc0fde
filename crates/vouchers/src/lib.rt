//! Files of vouchers: CSV with the header `code,amount,days,scope`, read to additions of vouchers,
//! or to the first fault with its record's number.
#![tactic(auto)]

mod fault;
mod fields;
mod laws;
mod reading;

pub use crate::fault::{FaultKind, VoucherFault};
pub use crate::laws::{voucher_fault_is_told, vouchers_are_records};
pub use crate::reading::read_vouchers;
