//! A request read as a command.

ghost use Rattle.json_fields.specs.Gives.{Gives};
ghost use Rattle.wire.specs.Requests.{command_of};

use commands::Command;
use json_fields::{Scratch, WireFault};
use std::alloc::Global;

/// The command of a gateway that the bytes are, or the first fault.
///
/// # Errors
/// `NotRequest` where the bytes are no JSON object, `Missing` and `Invalid` with the first member
/// at fault; `Memory` where memory ran out.
pub fn read_request(
    alloc: Global,
    bytes: &[u8],
    scratch: &mut Scratch,
) -> Result<Command, WireFault>
    ensures { Gives (λ c. c) result (command_of bytes.now) }
{
    Ok(Command::Ccr(wire_requests::read_request(alloc, bytes, scratch)?))
}
