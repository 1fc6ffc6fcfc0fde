//! An operator's command over a keeper.

ghost use Rattle.operations.specs.Carried.{ServesOffice};
ghost use Rattle.operations.specs.declared.fault.OfficeFault.TheVariants.{Store, Write};
ghost use Rattle.operator.specs.Office.{command_of_office};

use crate::fault::OfficeFault;
use crate::status::{Status, ends_as};
use crate::writing::write_answer_line;
use charging::step;
use keepers::Keeper;
use operator::OfficeCommand;
use shelves::TariffShelf;
use std::alloc::Global;
use std::io::Write;
use units::Moment;

/// Carries out an operator's command at the later of this moment and that of the last accepted
/// command, and writes its answer as a line. The status is `Failed` at a refusal, which changes
/// nothing (profile).
///
/// # Errors
/// `Store` where the keeper failed, or memory ran out, also for the answer's text: then nothing has
/// changed, and nothing is written. `Write` where the writer failed: then the command was carried
/// out, and a beginning of its line is written.
// rule: office-commands
pub fn serve_office<K: Keeper, W: Write>(
    alloc: Global,
    keeper: &mut K,
    shelf: &TariffShelf,
    command: OfficeCommand,
    moment: Moment,
    writer: &mut W,
) -> Result<Status, OfficeFault>
    ensures { ServesOffice W.contents shelf.now (command_of_office command) moment
        (K.seen keeper.old) (K.seen keeper.new) writer.old writer.new result }
{
    let command = command.into_command();
    let answer = step(alloc, keeper, shelf, command, moment)?;
    write_answer_line(writer, &answer)?;
    Ok(ends_as(&answer))
}
