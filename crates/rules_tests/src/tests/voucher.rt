//! Tests of `voucher_rules`, with the days of `calendar`.

mod ends;
mod office;
mod scenarios;
