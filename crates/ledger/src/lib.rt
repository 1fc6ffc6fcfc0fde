//! The ledger of an account, a list of dated facts; what each request adds to it, and the laws of
//! these definitions. In Rust: the terms of a grant, and a charge as it is kept.
#![tactic(auto)]

mod charge;
mod laws;
mod terms;

pub use crate::charge::ChargeRow;
pub use crate::laws::{charges_go_on, dead_for_good, going_on, holds_without_end, window_of_book};
pub use crate::terms::Terms;
