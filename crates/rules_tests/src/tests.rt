//! The tests, by what they are of, and what they share: one loop for all tables, and the making of
//! values.

mod account;
mod moments;
mod names;
mod tables;
mod tariff;
mod values;
mod voucher;
mod zones;
