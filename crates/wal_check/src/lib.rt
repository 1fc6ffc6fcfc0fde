//! A database's log, looked at before the engine gets its files: whether a stop of the machine can
//! have left the two of them so. Nothing is written.
//!
//! `service` calls it at each opening. The log is read once, a frame at a time, with its checksums;
//! so an opening costs one reading of the log more.
#![tactic(auto)]

mod format;
mod frames;
mod hidden;
mod look;
mod written_back;

pub use crate::look::is_sound;
