//! Tests of the texts that come in and go out: requests, operators' bodies, kept contents and
//! answers as they are written and read again; files of vouchers; the program's words.
#![tactic(auto)]

#[cfg(test)]
mod tests;
