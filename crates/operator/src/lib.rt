//! What an operator writes: the program's words, and lines of dated requests.
#![tactic(auto)]

mod argument_names;
mod arguments;
mod dated;
mod fault;
mod moments;
mod office;
mod parsed;
mod path;
mod program;
mod reading;
mod saying;
mod values;

pub use crate::argument_names::Argument;
pub use crate::dated::{DatedLine, dated_line};
pub use crate::fault::WordsFault;
pub use crate::moments::MomentList;
pub use crate::office::OfficeCommand;
pub use crate::parsed::{
    BookWords, ClockWords, ImportWords, InitWords, MigrateWords, OfficeWords, OnceWords,
    ProgramWords, ReplayWords, ServeWords, StatementWords,
};
pub use crate::path::FilePath;
pub use crate::reading::program_words;
pub use texts::{Month, number};
