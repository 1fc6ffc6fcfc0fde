//! What is reported of connections on standard error.

ghost use Rattle.std.specs.Prelude.{◌≡◌};
ghost use Rattle.operations.specs.Written.{WritesBeginning};
ghost use Rattle.service.specs.ServingTold.{connection_line};

use http_api::ServeFault;
use std::io::Write;
use texts::write_whole;

/// The line that reports a connection's fault, with its line feed.
fn fault_line(fault: ServeFault) -> &'static str
    ensures { result.now ≡ connection_line fault }
{
    match fault {
        ServeFault::Memory => "ocs: memory fault\n",
        ServeFault::Read => "ocs: net fault\n",
        ServeFault::Write => "ocs: net fault\n",
    }
}

/// Reports a connection's fault by its line, as far as it can be written.
pub(crate) fn tell_fault<E: Write>(errors: &mut E, fault: ServeFault)
    ensures { WritesBeginning (E.contents errors.old) (E.contents errors.new)
        (connection_line fault) }
{
    let _ = write_whole(errors, fault_line(fault).as_bytes());
}
