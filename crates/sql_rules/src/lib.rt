//! The rules of the rows of each table, and a walk over all tables that tests them.
#![tactic(auto)]

mod answered;
mod columns;
mod kept;
mod laws;
mod names;
mod pairs;
mod periods;
mod reservations;
mod rows;
mod ruling;
mod walking;

pub use crate::answered::is_answer_to;
pub use crate::columns::MOST_RATED;
pub use crate::laws::{
    content_in_rules_is_of_ruled_rows, puts_keep_the_rules, ruled_rows_are_ruled_under_their_keys,
    ruled_rows_are_told_ruled,
};
pub use crate::ruling::rules_of;
