//! The texts of the interface: requests and operators' bodies in, answers out, and what is kept of
//! a command.
#![tactic(auto)]

mod allowances;
mod balances;
mod contents;
mod credits;
mod laws;
mod members;
mod reading;
mod reading_balances;
mod reading_services;
mod redeeming;
mod requests;
mod services;
mod writing;
mod written;

pub use crate::allowances::read_allow;
pub use crate::contents::{
    allowance_in_order, content_again, credit_in_order, read_content, read_content_with,
    redemption_in_order, write_content,
};
pub use crate::credits::read_credit;
pub use crate::laws::{allowance_is_read, credit_is_read, redemption_is_read};
pub use crate::reading::{answer_again, answer_in_order, read_answer, read_answer_with};
pub use crate::redeeming::read_redeem;
pub use crate::requests::read_request;
pub use crate::writing::{write_answer, write_fault};
pub use crate::written::{AnswerRoom, WrittenAnswer};
pub use json_fields::{Scratch, WireFault};
pub use wire_requests::{
    request_again, request_fault_is_told, request_in_order, request_is_read, request_is_said,
    write_request,
};
