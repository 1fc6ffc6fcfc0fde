//! The tests, by what they are of.

mod changes;
mod loads;
mod migrations;
mod new_keepers;
mod row_readers;
mod row_writers;
mod statements;
mod sweeps;
mod values;
mod versions;
mod vouchers;
