//! Tests of the rules: names, civil time, the tariff book, prices, accounts and vouchers.
#![tactic(auto)]

#[cfg(test)]
mod tests;
