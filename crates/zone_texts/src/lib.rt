//! The text of a zone with summer time, as in POSIX's TZ (Base Definitions 8.3).
#![tactic(auto)]

mod reader;

pub use crate::reader::summer_time;
