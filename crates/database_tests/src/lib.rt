//! Tests of databases: the statements over the tables, their versions, and the keeper over them.
#![tactic(auto)]

#[cfg(test)]
mod tests;
