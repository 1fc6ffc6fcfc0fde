//! Members of JSON objects, read one after another with the first fault reported, and written in
//! compact form.
#![tactic(auto)]

mod fault;
mod numbers;
mod reading;
mod scratch;
mod unit;
mod value;
mod writing;

pub use crate::fault::WireFault;
pub use crate::reading::{
    array, document, is_text, member, number, object, optional_in, optional_moment,
    optional_number, read_each, text, whole_in,
};
pub use crate::scratch::{Items, Scratch, Tree};
pub use crate::unit::{unit_name, unit_told, units_in};
pub use crate::value::{as_array, as_bool, as_i64, as_str, as_u64, get, is_object};
pub use crate::writing::{put_moment, put_money, put_number, put_perhaps, put_text, text_of};
