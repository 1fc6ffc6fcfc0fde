//! The tables of a database, what a statement on one of them leaves, and tests of a database that
//! was made elsewhere: which version's tables it has and no other, and whether a rowid of one of
//! them comes twice.
#![tactic(auto)]

mod creating;
mod fault;
mod finding;
mod reading;
mod rising;
mod same;
mod schemas;
mod texts;
mod values;
mod writing;

pub use crate::creating::{
    LATEST, create_each, create_in_memory, create_in_memory_at, create_since, create_tables,
    create_tables_at,
};
pub use crate::fault::OpenFault;
pub use crate::finding::find_tables;
pub use crate::reading::{
    ReadFault, has_columns, null_at, number_at, one_of, optional_at, read, read_within, small_at,
    text_at,
};
pub use crate::same::same_schema;
pub use crate::schemas::{has_ours, is_blank};
pub use crate::texts::rows_text;
pub use crate::values::{checked, flag, large, null, optional, text, whole};
pub use crate::writing::write;
