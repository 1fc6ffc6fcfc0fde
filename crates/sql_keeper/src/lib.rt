//! What a keeper over a database holds, by the rows of its tables, and what is tested of a
//! change before it is written.
#![tactic(auto)]

mod add_fault;
mod added_vouchers;
mod adding_books;
mod among;
mod asking;
mod books;
mod bucket_numbers;
mod charge_pages;
mod committing;
mod counted_buckets;
mod create_fault;
mod creating;
mod dead;
mod faults;
mod finding;
mod first_over;
mod found_vouchers;
mod held_groups;
mod keeper;
mod keeping;
mod kept_kinds;
mod kept_rows;
mod last_moment;
mod laws;
mod live_groups;
mod live_rows;
mod live_within;
mod loading;
mod migrating;
mod older_shelves;
mod older_versions;
mod opening;
mod own_rows;
mod paid_charges;
mod putting;
mod rebuilding;
mod rebuilding_groups;
mod replaced_rows;
mod ruled_opening;
mod ruling;
mod seen;
mod seen_first;
mod settling;
mod still_open;
mod stopping;
mod stored_texts;
mod sweeping;
mod swept_rows;
mod testing;
mod voucher_puts;

pub use crate::add_fault::AddFault;
pub use crate::create_fault::CreateFault;
pub use crate::faults::counted;
pub use crate::keeper::SqlKeeper;
pub use crate::laws::{
    a_stop_is_opened_again, a_stop_leaves_the_last_commit, a_stopped_command_is_whole,
    causes_are_apart, changes_are_read, left_tables_are_found, live_rows_are_loaded,
    new_tables_are_empty, open_groups_are_loaded, rows_are_apart, ruled_tables_are_left_again,
    sessions_are_each_settled, shelves_are_one, sweeps_are_read, tables_are_left_again,
};
pub use crate::stopping::{Reopened, commit_and_stop, stop_and_open};
pub use crate::stored_texts::kept_texts;
pub use crate::testing::may_be_written;
pub use sql_tables::OpenFault;
