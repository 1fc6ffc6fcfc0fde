//! Statements over the tables: each puts, removes or reads rows, and says so by what the tables
//! hold.
#![tactic(auto)]

mod account_rows;
mod allowance_rows;
mod answer_rows;
mod ascending;
mod book_rows;
mod bucket_rows;
mod charge_rows;
mod counter_rows;
mod covered_rows;
mod decoding;
mod grant_book_rows;
mod group_rows;
mod head;
mod head_counter_rows;
mod hold_rows;
mod live_bucket_rows;
mod meta_rows;
mod open_group_rows;
mod open_rows;
mod reserved_rows;
mod running;
mod session_book_rows;
mod session_hold_rows;
mod session_rows;
mod voucher_rows;

pub use crate::account_rows::{put_account, read_account, read_account_within, read_next_account};
pub use crate::allowance_rows::{put_allowance, read_allowances, remove_allowance};
pub use crate::answer_rows::{KeptTexts, put_answer, read_answer};
pub use crate::book_rows::{BookColumns, put_book, read_books, read_books_within};
pub use crate::bucket_rows::{
    put_bucket, put_buckets, read_bucket, read_buckets_all, read_buckets_dead,
};
pub use crate::charge_rows::{add_charge, put_charge, put_charges, read_charges_within};
pub use crate::counter_rows::{put_counter, put_counters, read_counter};
pub use crate::covered_rows::{CoveredColumns, put_covered, read_covered_within, remove_covered};
pub use crate::grant_book_rows::{GrantBook, put_grant_book, read_grant_books, remove_grant_book};
pub use crate::group_rows::{
    GroupColumns, PeriodTexts, PutNames, add_group, put_group, read_groups,
};
pub use crate::head::HeadColumns;
pub use crate::head_counter_rows::{
    CycleNumbers, HeadCounters, HeadCycles, read_head_counters, read_head_cycles,
};
pub use crate::hold_rows::{HeldColumns, put_hold, put_holds, read_holds, remove_holds};
pub use crate::live_bucket_rows::{LiveBucket, read_buckets_live, read_buckets_live_within};
pub use crate::meta_rows::{MetaColumns, put_last_moment, put_meta, read_meta, read_meta_within};
pub use crate::open_group_rows::OpenGroup;
pub use crate::open_rows::{OpenRows, read_open_rows, read_open_rows_within};
pub use crate::reserved_rows::{ReservedColumns, read_reserved_within};
pub use crate::session_book_rows::SessionBook;
pub use crate::session_hold_rows::SessionHold;
pub use crate::session_rows::{
    add_session, add_sessions, put_session, put_sessions, read_session, read_sessions_open,
    read_sessions_open_within,
};
pub use crate::voucher_rows::{VoucherColumns, put_voucher, read_voucher};
pub use buckets::Columns as BucketColumns;
