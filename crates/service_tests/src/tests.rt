//! The tests, by what fails or comes in pieces; and what they share: keepers after requests, what a
//! connection writes, and one loop for all that is tried at each of some numbers.

mod accounts;
mod broken;
mod byte_lines;
mod clocks;
mod connections;
mod failing_lines;
mod leaving;
mod months;
mod pieces;
mod requests;
mod sockets;
mod stores;
mod trials;
mod writers;
