//! The lines of a stream as they are read: what each is answered, and the requests among them.

ghost use Rattle.std.specs.Prelude.{◌≡◌, ◌≢◌, ◌++◌, ◌∷◌, [], map, List, Result, Some, None, OnOk};
ghost use Rattle.std.specs.Prelude.{◌+◌, length, OnErr, IfOk, IfSome};
ghost use Rattle.texts.specs.Lines.{lines_of};
ghost use Rattle.charging.specs.declared.running.DatedCommand.{DatedCommand};
ghost use Rattle.json_fields.specs.declared.fault.WireFault.{WireFault};
ghost use Rattle.json_fields.specs.declared.fault.WireFault.TheVariants.{Memory};
ghost use Rattle.operations.specs.Lines.{line_request};
ghost use Rattle.operations.specs.LineInput.{IsInput, kept_fault, wire_fault};

use crate::line_request::read_line;
use charging::DatedCommand;
use commands::Avp;
use std::alloc::{AllocError, Global};
use std::io::Read;
use texts::{StreamFault, next_line};
use wire::{Scratch, WireFault};

/// Why a line isn't a request.
#[derive(Clone, Copy)]
pub(crate) enum LineFault {
    /// It has no moment, or its body isn't a JSON object.
    NotRequest,
    /// A member that has to be there isn't.
    Missing(Avp),
    /// A member has the wrong kind or value.
    Invalid(Avp),
}

/// What a line is answered.
#[derive(Clone, Copy)]
pub(crate) enum Line {
    /// The answer to its request.
    Request,
    /// The fault for which its request isn't read.
    Fault(LineFault),
}

impl Line {
    ghost use Rattle.std.specs.Prelude.{◌≡◌, is_some, not};
    ghost use Rattle.operations.specs.LineInput.{kept_fault};

    /// Whether it is an answer that it gets.
    pub(crate) fn is_request(self) -> bool
        ensures { is_some (kept_fault self) ≡ not result }
    {
        matches!(self, Line::Request)
    }
}

/// The lines of a stream.
#[derive(Drop)]
pub(crate) struct Input {
    /// What each line is answered.
    pub(crate) lines: Vec<Line>,
    /// The requests among them, in their order.
    pub(crate) requests: Vec<DatedCommand>,
}

/// Reads all lines of a stream.
pub(crate) fn read_input<R: Read>(alloc: Global, reader: &mut R) -> Result<Input, StreamFault>
    ensures { IfOk result (λ input. IfSome (R.remaining reader.old)
        (λ stream. IsInput (map line_request (lines_of stream)) input)) }
{
    let mut input = Input {
        lines: Vec::new(alloc),
        requests: Vec::new(alloc),
    };
    let mut scratch = Scratch::new(alloc);
    for _line in 0..u64::MAX {
        let Some(line) = next_line(alloc, reader)? else {
            return Ok(input);
        };
        input.add_line(alloc, &line, &mut scratch)?;
    }
    // So many lines fit into no vector.
    unreachable!()
}

impl Input {
    fn add_line(
        &mut self,
        alloc: Global,
        line: &[u8],
        scratch: &mut Scratch,
    ) -> Result<(), AllocError>
        ensures added { OnOk result
            ((read : List (Result DatedCommand WireFault)) → IsInput read self.old →
            IsInput (read ++ line_request line.now ∷ []) self.new) }
        ensures count { OnOk result
            (length self.new.lines.items ≡ length self.old.lines.items + 1) }
    {
        match read_line(alloc, line, scratch) {
            Ok(request) => self.add_request(request),
            Err(fault) => self.add_fault(fault),
        }
    }

    fn add_request(&mut self, request: DatedCommand) -> Result<(), AllocError>
        ensures requests { OnOk result
            (self.new.requests.items ≡ self.old.requests.items ++ request ∷ []) }
        ensures lines { OnOk result (map kept_fault self.new.lines.items
            ≡ map kept_fault self.old.lines.items ++ None ∷ []) }
    {
        self.requests.push(request)?;
        self.lines.push(Line::Request)?;
        Ok(())
    }

    fn add_fault(&mut self, fault: WireFault) -> Result<(), AllocError>
        ensures requests { OnOk result (self.new.requests ≡ self.old.requests) }
        ensures lines { OnOk result (map kept_fault self.new.lines.items
            ≡ map kept_fault self.old.lines.items ++ Some fault ∷ []) }
        ensures own { OnOk result (fault ≢ Memory) }
    {
        let fault = line_fault(fault)?;
        self.lines.push(Line::Fault(fault))?;
        Ok(())
    }
}

/// The fault of a line; lack of memory is none.
fn line_fault(fault: WireFault) -> Result<LineFault, AllocError>
    ensures own { IfOk result (λ own. wire_fault own ≡ fault) }
    ensures memory { OnErr result (fault ≡ Memory) }
{
    match fault {
        WireFault::NotRequest => Ok(LineFault::NotRequest),
        WireFault::Missing(avp) => Ok(LineFault::Missing(avp)),
        WireFault::Invalid(avp) => Ok(LineFault::Invalid(avp)),
        WireFault::Memory => Err(AllocError),
    }
}

impl From<LineFault> for WireFault {
    ghost use Rattle.std.specs.Prelude.{◌≡◌};
    ghost use Rattle.operations.specs.LineInput.{wire_fault};

    ghost from_gives = { λ fault e. e ≡ wire_fault fault };

    fn from(fault: LineFault) -> WireFault {
        match fault {
            LineFault::NotRequest => WireFault::NotRequest,
            LineFault::Missing(avp) => WireFault::Missing(avp),
            LineFault::Invalid(avp) => WireFault::Invalid(avp),
        }
    }
}
