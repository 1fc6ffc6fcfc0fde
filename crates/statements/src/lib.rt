//! Statements and exports of an account's month, over any source of charges and any writer.
#![tactic(auto)]

mod columns;
mod fault;
mod foot;
mod lines;
mod records;
mod rows;
mod stating;

pub use crate::fault::StatementFault;
pub use crate::stating::{AccountMonth, export, statement};
