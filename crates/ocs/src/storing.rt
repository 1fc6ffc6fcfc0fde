//! What words say that work over what a database holds.

ghost use Rattle.std.specs.Prelude.{◌≡◌, IfErr, IfOk, OnErr, OnOk};
ghost use Rattle.std.specs.Io.KnownBytes.{Appends};
ghost use Rattle.service.specs.CivilClock.{BeginsClock, IsClockFault, PrintsClock};
ghost use Rattle.service.specs.Opening.{IsCommandFault, IsUnanswered, IsUnasked};
ghost use Rattle.service.specs.Stating.{BeginsMonthOf, PrintsMonthOf};
ghost use Rattle.operations.specs.Months.{unknown_line};
ghost use Rattle.operations.specs.Counts.{PrintsCounts};
ghost use Rattle.operations.specs.Printed.{IsEnded, PrintsAnswer};
ghost use Rattle.operations.specs.declared.status.Status.TheVariants.{Failed};
ghost use Rattle.ocs.specs.Faults.{IsImportFault, OnlyDatabase};
ghost use Rattle.ocs.specs.Told.{IfDatabase};

use crate::fault::ProgramFault;
use operations::Status;
use operator::{ClockWords, ImportWords, OfficeWords, StatementWords};
use service::{clock_office, command_office, import_office, state_office};
use std::io::Write;

/// Carries out an operator's command.
#[tactic(auto, using(crate::proofs::EndLemmas::answered_ends))]
pub(crate) fn answer_office<O: Write>(
    rt: &HostRuntime,
    words: OfficeWords,
    output: &mut O,
) -> Result<Status, ProgramFault>
    ensures ended { IfOk result (IsEnded
        (PrintsAnswer Failed (O.contents output.old) (O.contents output.new))) }
    ensures answered { IfOk result (λ status.
        PrintsAnswer status (O.contents output.old) (O.contents output.new)) }
    ensures reached { IfErr result (OnlyDatabase (IsCommandFault words.at)) }
    ensures unwritten { IfErr result (λ fault.
        IfDatabase fault IsUnanswered → output.new ≡ output.old) }
{
    Ok(command_office(rt, words, output)?)
}

/// Prints an account's month.
pub(crate) fn answer_statement<O: Write>(
    rt: &HostRuntime,
    words: StatementWords,
    output: &mut O,
) -> Result<Status, ProgramFault>
    ensures ended { IfOk result (IsEnded
        (Appends (O.contents output.old) (O.contents output.new) unknown_line)) }
    ensures printed { IfOk result
        (PrintsMonthOf words (O.contents output.old) (O.contents output.new)) }
    ensures begun { OnErr result
        (BeginsMonthOf words (O.contents output.old) (O.contents output.new)) }
    ensures reached { IfErr result (OnlyDatabase (IsCommandFault words.at)) }
    ensures unwritten { IfErr result (λ fault.
        IfDatabase fault IsUnasked → output.new ≡ output.old) }
{
    Ok(state_office(rt, words, output)?)
}

/// Prints what the clock of the books shows at moments.
pub(crate) fn answer_clock<O: Write>(
    rt: &HostRuntime,
    clock: &ClockWords,
    output: &mut O,
) -> Result<Status, ProgramFault>
    ensures ended { IfOk result (IsEnded ⊥) }
    ensures printed { OnOk result
        (PrintsClock clock.now (O.contents output.old) (O.contents output.new)) }
    ensures begun { OnErr result
        (BeginsClock clock.now (O.contents output.old) (O.contents output.new)) }
    ensures reached { IfErr result (OnlyDatabase IsClockFault) }
    ensures unwritten { IfErr result (λ fault.
        IfDatabase fault IsUnasked → output.new ≡ output.old) }
{
    clock_office(rt, clock, output)?;
    Ok(Status::Done)
}

/// Adds the vouchers of a file, and prints what became of them.
pub(crate) fn answer_import<O: Write>(
    rt: &HostRuntime,
    import: ImportWords,
    output: &mut O,
) -> Result<Status, ProgramFault>
    ensures ended { IfOk result (IsEnded ⊥) }
    ensures counted { OnOk result (PrintsCounts (O.contents output.old) (O.contents output.new)) }
    ensures reached { IfErr result (IsImportFault import.at) }
    ensures unwritten { IfErr result (λ fault.
        IfDatabase fault IsUnanswered → output.new ≡ output.old) }
{
    import_office(rt, import, output)?;
    Ok(Status::Done)
}
