//! Requests for credit control as JSON.
#![tactic(auto)]

mod phase;
mod reading;
mod refund;
mod reports;
mod services;
mod writing;
mod written_services;

pub use crate::reading::{
    account_number, read_request, request, request_fault_is_told, request_is_read, request_is_said,
    request_kind, session_id,
};
pub use crate::writing::{request_again, request_in_order, write_request};
