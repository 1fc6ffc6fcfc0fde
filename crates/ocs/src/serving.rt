//! Connections over a database.

ghost use Rattle.std.specs.Prelude.{◌≡◌, IfErr, IfOk, OnErr, OnOk};
ghost use Rattle.std.specs.Io.KnownBytes.{Appends};
ghost use Rattle.operations.specs.Printed.{IsEnded};
ghost use Rattle.operations.specs.Written.{WritesBeginning};
ghost use Rattle.service.specs.ServingTold.{IsServeFault, IsUnlistened, listening_line};
ghost use Rattle.ocs.specs.Faults.{OnlyDatabase};
ghost use Rattle.ocs.specs.Told.{ConnectionsTold, IfDatabase};

use crate::fault::ProgramFault;
use operations::Status;
use operator::ServeWords;
use service::serve_database;
use std::io::Write;

/// Serves the connections of the words. Each one's fault is a line on the errors.
pub(crate) fn answer_serve<O: Write, E: Write>(
    rt: &HostRuntime,
    serve: &ServeWords,
    output: &mut O,
    errors: &mut E,
) -> Result<Status, ProgramFault>
    ensures ended { IfOk result (IsEnded ⊥) }
    ensures reached { IfErr result (OnlyDatabase IsServeFault) }
    ensures listening { OnOk result (Appends (O.contents output.old) (O.contents output.new)
        (listening_line serve.now.port)) }
    ensures begun { OnErr result (WritesBeginning (O.contents output.old) (O.contents output.new)
        (listening_line serve.now.port)) }
    ensures told { OnOk result (ConnectionsTold serve.now.connections (E.contents errors.old)
        (E.contents errors.new)) }
    ensures unwritten { IfErr result (λ fault.
        IfDatabase fault IsUnlistened → output.new ≡ output.old) }
    ensures untold { OnErr result (errors.new ≡ errors.old) }
{
    serve_database(rt, serve, output, errors)?;
    Ok(Status::Done)
}
