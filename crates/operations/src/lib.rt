//! What an operator's command does over a keeper, and what it prints: its answer as a line, what
//! became of vouchers, an account's month, or one line of its fault. Lines of requests for credit
//! control over a keeper: each is a moment and a request, and gets its answer, or its fault, as a
//! line in its place.
#![tactic(auto)]

mod civil_clock;
mod counts;
mod fault;
mod first_account;
mod importing;
mod laws;
mod line_answers;
mod line_input;
mod line_output;
mod line_request;
mod lines_fault;
mod once;
mod serving;
mod stating;
mod status;
mod telling;
mod writing;

pub use crate::civil_clock::serve_clock;
pub use crate::counts::Counts;
pub use crate::fault::{OfficeFault, store_line, stream_line};
pub use crate::importing::{import, serve_import};
pub use crate::laws::{statement_collects, statement_covers};
pub use crate::line_answers::lines;
pub use crate::line_request::read_line;
pub use crate::lines_fault::LinesFault;
pub use crate::once::once_lines;
pub use crate::serving::serve_office;
pub use crate::stating::{MonthQuery, serve_statement};
pub use crate::status::Status;
pub use crate::telling::{tell_fault, tell_line};
pub use crate::writing::write_line;
