//! Tests of commands over the keeper in memory.

mod allowances;
mod balances;
mod counting;
mod deciding;
mod denials;
mod ends;
mod events;
mod failures;
mod keys;
mod lines;
mod operators;
mod redeeming;
mod repeats;
mod rows;
mod scenarios;
mod sessions;
mod spent;
