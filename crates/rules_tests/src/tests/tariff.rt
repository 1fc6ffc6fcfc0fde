//! Tests of `tariffs` and `shelves`.

pub(crate) mod documents;
mod faults;
mod limits;
mod lookups;
mod one_prices;
pub(crate) mod shelf;
mod switches;
