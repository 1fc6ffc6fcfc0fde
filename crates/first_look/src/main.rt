//! A first look at `ocs`: lines of requests on standard input, answered as `ocs once --credit
//! 6045550 --price 100000 --block 600` answers them. Who wants to see an answer runs it: it parses
//! no words and opens no database, so it is compiled before `ocs` is.
#![tactic(auto)]

use operations::{LinesFault, once_lines};
use std::alloc::AllocError;
use std::io::{self, BufReader};
use std::process::ExitCode;
use units::Money;

/// What the account of the first request is opened with: 6.045550, in micro-units.
const CREDIT: u64 = 6_045_550;

/// The price of a block: 0.10, in micro-units.
const PRICE: u64 = 100_000;

/// The seconds of a block.
const BLOCK: u64 = 600;

fn main(rt: HostRuntime) -> ExitCode {
    match answer_input(&rt) {
        Ok(()) => ExitCode::from(0),
        Err(fault) => {
            let _ = eprintln!(rt; "first_look: {fault}");
            ExitCode::from(1)
        }
    }
}

/// Answers the lines of standard input on standard output.
fn answer_input(rt: &HostRuntime) -> Result<(), LinesFault> {
    let alloc = rt.alloc();
    let credit = Money::new(CREDIT).unwrap();
    let mut input = BufReader::new(alloc, rt.reader()).map_err(|_| AllocError)?;
    let mut output = io::writer(rt);
    once_lines(alloc, credit, PRICE, BLOCK, &mut input, &mut output)
}
