//! The names by which the charging system knows sessions, accounts, credits and vouchers: texts,
//! each with its rule. In a contract each is the list of its bytes.
#![tactic(auto)]

mod account_number;
mod redirect_address;
mod reference;
mod session_id;
mod texts;
mod voucher_code;

pub use crate::account_number::AccountNumber;
pub use crate::redirect_address::RedirectAddress;
pub use crate::reference::Reference;
pub use crate::session_id::SessionId;
pub use crate::voucher_code::VoucherCode;
