//! What words say that make a database, or give it what it hasn't.

ghost use Rattle.std.specs.Prelude.{◌≡◌, codes, IfErr, IfOk, OnErr, OnOk};
ghost use Rattle.std.specs.Io.KnownBytes.{Appends};
ghost use Rattle.operations.specs.Printed.{IsEnded};
ghost use Rattle.operations.specs.Written.{WritesBeginning};
ghost use Rattle.service.specs.Adding.{IsAdditionFault};
ghost use Rattle.service.specs.Making.{IsInitFault};
ghost use Rattle.service.specs.Opening.{IsUnopened};
ghost use Rattle.ocs.specs.Faults.{IsWriteFault, OnlyDone};
ghost use Rattle.ocs.specs.Told.{IfStream, version_line};

use crate::fault::ProgramFault;
use operations::Status;
use operator::{BookWords, InitWords, MigrateWords};
use service::{add_book, make_database, migrate_database};
use std::io::Write;
use texts::write_whole;

/// Prints the line of what is done.
#[tactic(auto, using(operations::proofs::Beginnings::nothing_written, operations::proofs::Beginnings::some_written))]
fn print_done<O: Write>(output: &mut O, line: &str) -> Result<Status, ProgramFault>
    ensures ended { IfOk result (IsEnded ⊥) }
    ensures reached { IfErr result IsWriteFault }
    ensures done { OnOk result (Appends (O.contents output.old) (O.contents output.new) line.now) }
    ensures begun { OnErr result (WritesBeginning (O.contents output.old) (O.contents output.new)
        line.now) }
    ensures stream { IfErr result (λ fault. IfStream fault (λ _. ⊥) → output.new ≡ output.old) }
{
    write_whole(output, line.as_bytes())?;
    Ok(Status::Done)
}

/// Makes the database of a tariff book, and says that it is made.
#[tactic(auto, using(operations::proofs::Beginnings::nothing_written, crate::proofs::EndLemmas::write_done))]
pub(crate) fn answer_init<O: Write>(
    rt: &HostRuntime,
    init: &InitWords,
    output: &mut O,
) -> Result<Status, ProgramFault>
    ensures ended { IfOk result (IsEnded ⊥) }
    ensures reached { IfErr result (OnlyDone IsInitFault) }
    ensures done { OnOk result (Appends (O.contents output.old) (O.contents output.new)
        (codes "ok\n")) }
    ensures begun { OnErr result (WritesBeginning (O.contents output.old) (O.contents output.new)
        (codes "ok\n")) }
    ensures unwritten { IfErr result (λ fault.
        IfStream fault (λ _. ⊥) → output.new ≡ output.old) }
{
    make_database(rt, init)?;
    print_done(output, "ok\n")
}

/// Brings a database to the latest version, and says which that is.
#[tactic(auto, using(operations::proofs::Beginnings::nothing_written, crate::proofs::EndLemmas::write_done))]
pub(crate) fn answer_migrate<O: Write>(
    rt: &HostRuntime,
    migrate: &MigrateWords,
    output: &mut O,
) -> Result<Status, ProgramFault>
    ensures ended { IfOk result (IsEnded ⊥) }
    ensures reached { IfErr result (OnlyDone IsUnopened) }
    ensures done { OnOk result (Appends (O.contents output.old) (O.contents output.new)
        version_line) }
    ensures begun { OnErr result (WritesBeginning (O.contents output.old) (O.contents output.new)
        version_line) }
    ensures unwritten { IfErr result (λ fault.
        IfStream fault (λ _. ⊥) → output.new ≡ output.old) }
{
    migrate_database(rt, migrate)?;
    print_done(output, "version 3\n")
}

/// Adds a tariff book to a database, and says that it is added.
#[tactic(auto, using(operations::proofs::Beginnings::nothing_written, crate::proofs::EndLemmas::write_done))]
pub(crate) fn answer_book<O: Write>(
    rt: &HostRuntime,
    book: &BookWords,
    output: &mut O,
) -> Result<Status, ProgramFault>
    ensures ended { IfOk result (IsEnded ⊥) }
    ensures reached { IfErr result (OnlyDone IsAdditionFault) }
    ensures done { OnOk result (Appends (O.contents output.old) (O.contents output.new)
        (codes "ok\n")) }
    ensures begun { OnErr result (WritesBeginning (O.contents output.old) (O.contents output.new)
        (codes "ok\n")) }
    ensures unwritten { IfErr result (λ fault.
        IfStream fault (λ _. ⊥) → output.new ≡ output.old) }
{
    add_book(rt, book)?;
    print_done(output, "ok\n")
}
