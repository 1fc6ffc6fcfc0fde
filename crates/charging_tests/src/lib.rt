//! Tests of runs of commands over the keeper in memory: worked sessions, events, repeats, denials,
//! operators' commands and sweeps, and a store that fails at each call. Expected values are
//! reckoned by hand from the book of the scenarios.
#![tactic(auto)]

#[cfg(test)]
mod tests;
