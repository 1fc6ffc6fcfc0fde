//! How texts are read and written: lines and bytes from any reader, texts to any writer, numbers
//! and civil months as they are written, and the words for reading up to the first fault.
#![tactic(auto)]

mod month;
mod numbers;
mod streams;

pub use crate::month::Month;
pub use crate::numbers::number;
pub use crate::streams::{
    MAX_ATTEMPTS, StreamFault, next_byte, next_bytes, next_line, take_piece, write_whole,
};
