//! Tests of connections, statements and lines over readers, writers, stores and clocks that fail at
//! each of their calls, or give their bytes in pieces. Expected bytes are reckoned by hand.
#![tactic(auto)]

#[cfg(test)]
mod tests;
