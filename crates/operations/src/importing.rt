//! Vouchers that are added, each by a command of its own.

ghost use Rattle.texts.specs.declared.streams.StreamFault.{StreamFault};
ghost use Rattle.keepers.specs.declared.fault.StoreFault.{StoreFault};
ghost use Rattle.operations.specs.Counts.{counts_line};
ghost use Rattle.charging.specs.Parts.{Leaves, PartKeeps};
ghost use Rattle.charging.specs.Served.{Writes};
ghost use Rattle.commands.specs.declared.command.Command.TheVariants.{AddVoucher};
ghost use Rattle.operations.specs.Imports.{AddsVoucher, ImportsRows, ServesImport};
ghost use Rattle.operations.specs.Imports.{addition_at};
ghost use Rattle.operations.specs.Written.{PrintsText};
ghost use Rattle.operations.specs.declared.fault.OfficeFault.TheVariants.{Store, Write};

use crate::counts::{Counts, count_one, counts_text, no_counts};
use crate::fault::OfficeFault;
use crate::writing::write_line;
use charging::step;
use commands::{Command, VoucherAddition};
use keepers::{Keeper, StoreFault};
use shelves::TariffShelf;
use std::alloc::Global;
use std::io::Write;
use texts::StreamFault;
use units::Moment;
use voucher_rules::{Addition, add};

/// Adds vouchers in their order, each by a command at the later of this moment and that of the last
/// accepted command, and counts what became of them (profile).
///
/// # Errors
/// Store fault 1 where a growth was refused, 2 where the store failed. Then a beginning of the
/// vouchers was added.
// rule: import
pub fn import<K: Keeper>(
    alloc: Global,
    keeper: &mut K,
    shelf: &TariffShelf,
    rows: Vec<VoucherAddition>,
    moment: Moment,
) -> Result<Counts, StoreFault>
    ensures { ImportsRows shelf.now moment rows.items (K.seen keeper.old) (K.seen keeper.new)
        result }
{
    // For the prover alone: looking at the value makes known here what its type keeps.
    let _size = rows.len();
    let mut counts = no_counts();
    for row in rows {
        let addition = add_voucher(alloc, keeper, shelf, row, moment)?;
        counts = count_one(counts, addition);
    }
    Ok(counts)
}

/// Adds a voucher by a command, and says what it is over what was under its code.
fn add_voucher<K: Keeper>(
    alloc: Global,
    keeper: &mut K,
    shelf: &TariffShelf,
    row: VoucherAddition,
    moment: Moment,
) -> Result<Addition, StoreFault>
    ensures added { (K.seen keeper.new).clean →
        AddsVoucher shelf.now (addition_at moment row) (K.seen keeper.old).tables
        (K.seen keeper.new).tables result }
    ensures kept { PartKeeps (K.seen keeper.old) (K.seen keeper.new) result }
    ensures left { Leaves (K.seen keeper.old) (K.seen keeper.new) (λ t. (K.seen keeper.old).clean
        × Writes shelf.now (AddVoucher row) moment (K.seen keeper.old).tables t) }
{
    let found = keeper.find_voucher(&row.code)?;
    let addition = add(&found, row.terms);
    step(alloc, keeper, shelf, Command::AddVoucher(row), moment)?;
    Ok(addition)
}

/// Adds vouchers as `import` does, and writes what became of them as a line:
/// `new 3 present 0 conflicting 0` (profile).
///
/// # Errors
/// `Store` where the keeper failed: then a beginning of the vouchers was added, and nothing is
/// written. `Write` where memory ran out for the line or the writer failed: then all were added,
/// and a beginning of the line is written.
// rule: import
pub fn serve_import<K: Keeper, W: Write>(
    alloc: Global,
    keeper: &mut K,
    shelf: &TariffShelf,
    rows: Vec<VoucherAddition>,
    moment: Moment,
    writer: &mut W,
) -> Result<(), OfficeFault>
    ensures { ServesImport W.contents shelf.now moment rows.items
        (K.seen keeper.old) (K.seen keeper.new) writer.old writer.new result }
{
    let counts = import(alloc, keeper, shelf, rows, moment)?;
    write_counts(alloc, writer, counts)?;
    Ok(())
}

/// Writes counts as a line.
fn write_counts<W: Write>(alloc: Global, writer: &mut W, counts: Counts) -> Result<(), StreamFault>
    ensures { PrintsText (counts_line counts) (W.contents writer.old) (W.contents writer.new)
        result }
{
    let text = counts_text(alloc, counts)?;
    write_line(writer, text)
}
