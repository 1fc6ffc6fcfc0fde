//! The moment of a command: that of the words, or the machine's.

ghost use Rattle.std.specs.Prelude.{◌<◌, Ok, None, IfSome};
ghost use Rattle.units.specs.Words.{no_end};
ghost use Rattle.service.specs.Over.{GivesMoment};
ghost use Rattle.service.specs.declared.fault.DatabaseFault.TheVariants.{Clock};

use crate::fault::DatabaseFault;
use std::time::{SystemTime, UNIX_EPOCH};
use units::Moment;

/// The machine's moment; None where its clock doesn't answer, or gives none of a command.
// rule: clock
pub fn machine_moment(rt: &HostRuntime) -> Option<Moment>
    ensures { IfSome result (λ t. t < no_end) }
{
    let now = SystemTime::now(rt).ok()?;
    let since = now.duration_since(UNIX_EPOCH).ok()?;
    Moment::of_command(since.as_secs())
}

/// The moment of a command: that of the words, or the machine's where they say none.
///
/// # Errors
/// `Clock` where the machine is asked and has none.
// rule: clock
pub fn command_moment(rt: &HostRuntime, at: Option<Moment>) -> Result<Moment, DatabaseFault>
    ensures { GivesMoment at result }
{
    match at {
        Some(at) => Ok(at),
        None => machine_moment(rt).ok_or(DatabaseFault::Clock),
    }
}
