//! Keepers: what stores the rows of accounts, their charges and the answers that are kept, what it
//! promises, and what gives an account's charges one at a time.
#![tactic(auto)]

mod accounts;
mod copies;
mod differing;
mod entries;
mod failing;
mod failing_charges;
mod fault;
mod keeper;
mod kept_answer;
mod known;
mod laws;
mod left_rows;
mod loaded;
mod memory;
mod memory_charges;
mod named_rows;
mod overlaying;
mod pages;
mod past_rows;
mod places;
mod row_copies;
mod showing;
mod source;
mod store;
mod voucher_map;
mod whole;

pub use crate::copies::copy_voucher;
pub use crate::failing::Failing;
pub use crate::fault::{MOST_FAILURES, StoreFault};
pub use crate::keeper::Keeper;
pub use crate::kept_answer::KeptAnswer;
pub use crate::laws::{only_what_differs, taken_and_left};
pub use crate::loaded::{Change, Loaded, Redeemed};
pub use crate::memory::MemoryKeeper;
pub use crate::named_rows::NamedRows;
pub use crate::pages::{ChargePage, ChargePages, show_pages};
pub use crate::showing::show;
pub use crate::source::{ChargeSource, ChargeVisitor};
pub use crate::whole::WholeAccount;
pub use commands::Key;
