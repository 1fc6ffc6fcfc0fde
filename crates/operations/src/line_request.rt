//! A line as a request with its moment.

ghost use Rattle.std.specs.Prelude.{◌≡◌, option_map, IfSome};
ghost use Rattle.json_fields.specs.Gives.{Gives};
ghost use Rattle.operations.specs.Lines.{line_moment, line_rest, line_request};

use charging::DatedCommand;
use operator::{DatedLine, dated_line};
use std::alloc::Global;
use wire::{Scratch, WireFault, read_request};

/// The moment and the body of a line; None where it isn't UTF-8, or isn't a moment, a space and a
/// body.
fn parted(line: &[u8]) -> Option<DatedLine<'_>>
    ensures moment { option_map (λ d. d.moment) result ≡ line_moment line.now }
    ensures body { IfSome result (λ d. d.body.now ≡ line_rest line.now) }
{
    let Ok(text) = str::from_utf8(line) else {
        return None;
    };
    dated_line(text)
}

/// The request of a line as a command with its moment.
///
/// # Errors
/// The first fault: `NotRequest` where the line isn't UTF-8, or isn't a moment of 1 to 10 digits, a
/// space and a body, then those of `read_request`; `Memory` where a growth was refused.
// rule: dated-lines.line-request
pub fn read_line(
    alloc: Global,
    line: &[u8],
    scratch: &mut Scratch,
) -> Result<DatedCommand, WireFault>
    ensures { Gives (λ d. d) result (line_request line.now) }
{
    let Some(DatedLine { moment, body }) = parted(line) else {
        return Err(WireFault::NotRequest);
    };
    let command = read_request(alloc, body.as_bytes(), scratch)?;
    Ok(DatedCommand { moment, command })
}
