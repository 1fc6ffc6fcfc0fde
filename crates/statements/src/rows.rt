//! The charges of a month, one after another.

ghost use Rattle.std.specs.Prelude.{◌≡◌, OnOk, OnErr, IfOk, IfSome, []};
ghost use Rattle.std.specs.Io.KnownBytes.{Appends};
ghost use Rattle.statements.specs.Texts.{sums_of, charge_text, plus_charge, WritesBeginning};

use crate::lines::charge_line;
use crate::records::charge_record;
use calendar::Cycle;
use keepers::ChargeVisitor;
use ledger::ChargeRow;
use std::alloc::Global;
use std::io::Write;
use tariffs::TariffBook;
use texts::{StreamFault, write_whole};

/// How a charge is written.
#[derive(Clone, Copy)]
pub(crate) enum Form {
    /// As a line of a statement.
    Lines,
    /// As a record of an export.
    Records,
}

/// The sums of the charges of a month.
#[derive(Clone, Copy)]
pub(crate) struct Sums {
    pub(crate) blocks: u128,
    pub(crate) rated: u128,
    pub(crate) collected: u128,
    pub(crate) uncollected: u128,
}

impl Sums {
    /// No charges.
    pub(crate) fn none() -> Sums
        ensures { result ≡ sums_of [] }
    {
        Sums {
            blocks: 0,
            rated: 0,
            collected: 0,
            uncollected: 0,
        }
    }

    /// The sums with one charge more; None where one doesn't fit.
    fn plus(&self, row: &ChargeRow) -> Option<Sums>
        ensures { IfSome result (λ sums. sums ≡ plus_charge self.now row.now) }
    {
        Some(Sums {
            blocks: self.blocks.checked_add(row.blocks.0 as u128)?,
            rated: self.rated.checked_add(row.rated.0)?,
            collected: self.collected.checked_add(row.collected.0)?,
            uncollected: self.uncollected.checked_add(row.uncollected.0)?,
        })
    }
}

/// The text of a charge.
fn charge_text(alloc: Global, form: Form, row: &ChargeRow) -> Result<Vec<u8>, StreamFault>
    ensures { IfOk result (λ text. text.items ≡ charge_text form row.now) }
{
    match form {
        Form::Lines => Ok(charge_line(alloc, row)?.into_bytes()),
        Form::Records => charge_record(alloc, row),
    }
}

/// Writes a charge, and adds it to the sums.
#[tactic(auto, using(crate::proofs::Beginnings::none_written, crate::proofs::Beginnings::part_written))]
fn write_charge<W: Write>(
    alloc: Global,
    writer: &mut W,
    form: Form,
    sums: &mut Sums,
    row: &ChargeRow,
) -> Result<(), StreamFault>
    ensures written { OnOk result
        (Appends (W.contents writer.old) (W.contents writer.new) (charge_text form row.now)) }
    ensures sums { OnOk result (sums.new ≡ plus_charge sums.old row.now) }
    ensures err { OnErr result
        (WritesBeginning (W.contents writer.old) (W.contents writer.new)
        (charge_text form row.now)) }
{
    let text = charge_text(alloc, form, row)?;
    let next = sums.plus(row).ok_or(StreamFault::Memory)?;
    write_whole(writer, text.as_slice())?;
    *sums = next;
    Ok(())
}

/// Writes the charges of a month that it is shown, and sums them; it stops at a fault.
#[derive(Drop)]
pub(crate) struct MonthRows<'w, W> {
    pub(crate) alloc: Global,
    pub(crate) writer: &'w mut W,
    pub(crate) book: &'w TariffBook,
    pub(crate) cycle: u32,
    pub(crate) form: Form,
    pub(crate) sums: Sums,
    pub(crate) fault: Option<StreamFault>,
}

impl<'w, W: Write> ChargeVisitor for MonthRows<'w, W> {
    ghost use Rattle.statements.specs.Rows.{TakesRow};

    ghost sees = { λ old c goes new. TakesRow W.contents old c goes new };

    // rule: statement-month, statement-lines
    fn row(&mut self, row: &ChargeRow) -> bool {
        if self.book.cycle_of(Cycle::Month, row.moment) != self.cycle {
            return true;
        }
        match write_charge(self.alloc, self.writer, self.form, &mut self.sums, row) {
            Ok(()) => true,
            Err(fault) => {
                self.fault = Some(fault);
                false
            }
        }
    }
}
