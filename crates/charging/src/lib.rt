//! Commands of gateways and operators over any keeper: each is answered by the history of accepted
//! commands, and leaves the tables of that history.
#![tactic(auto)]

mod additions;
mod allowances;
mod answers;
mod balances;
mod committing;
mod laws;
mod operators;
mod refusing;
mod repetition;
mod requests;
mod running;
mod stepping;
mod voucher_commands;

pub use crate::additions::later_books;
pub use crate::answers::Run;
pub use crate::balances::{AccountState, account_state};
pub use crate::laws::{
    allowances_before_money, balances_by_number, beginning, codes_redeemed_once, collection,
    dead_rows_stay, equations_are_enough, isolation, payment, quota, repeats,
    reservations_are_priced, rows_are_lists, run_over_lists, runs_chain, sessions_open_by_grants,
    soundness, tables_from_commands,
};
pub use crate::running::{DatedCommand, run};
pub use crate::stepping::step;
pub use commands::{Answer, Command};
pub use keepers::{Change, Keeper, KeptAnswer, Key, Loaded, MemoryKeeper, Redeemed, StoreFault};
