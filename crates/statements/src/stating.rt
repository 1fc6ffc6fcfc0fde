//! A statement and an export of a month.

ghost use Rattle.std.specs.Prelude.{◌≡◌, OnOk, OnErr, IfOk};
ghost use Rattle.std.specs.Io.KnownBytes.{Appends};
ghost use Rattle.ledger.specs.ChargeColumns.{ChargeColumns};
ghost use Rattle.keepers.specs.Rows.{AreCharges};
ghost use Rattle.statements.specs.Charges.{AsksSource, SumsSome, WritesAll, WritesCharges};
ghost use Rattle.statements.specs.Records.{header_record};
ghost use Rattle.statements.specs.Months.{cycle_of_month};
ghost use Rattle.statements.specs.Texts.{of_month, charge_texts, sums_of, head_text, foot_text};
ghost use Rattle.statements.specs.Texts.{statement_text, export_text, WritesBeginning};
ghost use Rattle.std.specs.Prelude.{List};

use crate::fault::StatementFault;
use crate::foot::foot_text;
use crate::lines::head_text;
use crate::records::header_record;
use crate::rows::{Form, MonthRows, Sums};
use buckets::Bucket;
use identifiers::AccountNumber;
use keepers::ChargeSource;
use std::alloc::Global;
use std::io::Write;
use tariffs::TariffBook;
use texts::{Month, StreamFault, write_whole};
use units::Moment;

/// An account's month by a book, in whose zone it is civil: what a statement or an export is of.
#[derive(Drop)]
pub struct AccountMonth<'a> {
    /// The account whose charges are written.
    pub account: &'a AccountNumber,
    /// The civil month of the charges.
    pub month: Month,
    /// The tariff book in whose zone the month is civil.
    pub book: &'a TariffBook,
}

/// The number of a month's cycle.
fn cycle_of_month(month: Month) -> u32
    ensures { result ≡ cycle_of_month month }
{
    let number = month.number();
    12 * (number / 100 - 1969) + number % 100 - 1
}

/// Writes a text.
#[tactic(auto, using(crate::proofs::Beginnings::part_written))]
fn write_text<W: Write>(writer: &mut W, text: &[u8]) -> Result<(), StreamFault>
    ensures written { OnOk result
        (Appends (W.contents writer.old) (W.contents writer.new) text.now) }
    ensures err { OnErr result
        (WritesBeginning (W.contents writer.old) (W.contents writer.new) text.now) }
{
    write_whole(writer, text)
}

/// Writes the charges of a month, and sums them.
fn write_charges<S: ChargeSource, W: Write>(
    alloc: Global,
    source: &mut S,
    writer: &mut W,
    asked: &AccountMonth,
    form: Form,
) -> Result<Sums, StatementFault>
    ensures writes { (S.seen source.new).clean →
        WritesAll ((S.seen source.old).tables.charges asked.now.account.now)
        (W.contents writer.old) (W.contents writer.new)
        (λ rows. charge_texts form (of_month asked.now.book.now asked.now.month rows)) result }
    ensures sums { (S.seen source.new).clean → (rows : List ChargeColumns) →
        AreCharges ((S.seen source.old).tables.charges asked.now.account.now) rows →
        IfOk result (λ sums. sums ≡ sums_of (of_month asked.now.book.now asked.now.month rows)) }
    ensures some { SumsSome (W.contents writer.old) (W.contents writer.new) form
        (of_month asked.now.book.now asked.now.month) result }
    ensures asks { AsksSource (S.seen source.old) (S.seen source.new) result }
{
    let mut charges = MonthRows {
        alloc,
        writer,
        book: asked.book,
        cycle: cycle_of_month(asked.month),
        form,
        sums: Sums::none(),
        fault: None,
    };
    source.each(
        asked.account,
        Moment::first(),
        Moment::no_end(),
        &mut charges,
    )?;
    match charges.fault {
        None => Ok(charges.sums),
        Some(fault) => Err(StatementFault::from(fault)),
    }
}

/// Writes the beginning of a statement.
#[tactic(auto, using(crate::proofs::Beginnings::none_written))]
fn write_head<W: Write>(
    alloc: Global,
    writer: &mut W,
    account: &AccountNumber,
    month: Month,
    moment: Moment,
) -> Result<(), StreamFault>
    ensures written { OnOk result
        (Appends (W.contents writer.old) (W.contents writer.new)
        (head_text account.now month moment)) }
    ensures err { OnErr result
        (WritesBeginning (W.contents writer.old) (W.contents writer.new)
        (head_text account.now month moment)) }
{
    let head = head_text(alloc, account, month, moment)?;
    write_text(writer, head.as_bytes())
}

/// Writes the end of a statement.
#[tactic(auto, using(crate::proofs::Beginnings::none_written))]
fn write_foot<W: Write>(
    alloc: Global,
    writer: &mut W,
    sums: &Sums,
    buckets: &[Bucket],
) -> Result<(), StreamFault>
    ensures written { OnOk result
        (Appends (W.contents writer.old) (W.contents writer.new)
        (foot_text sums.now buckets.now)) }
    ensures err { OnErr result
        (WritesBeginning (W.contents writer.old) (W.contents writer.new)
        (foot_text sums.now buckets.now)) }
{
    let foot = foot_text(alloc, sums, buckets)?;
    write_text(writer, foot.as_bytes())
}

/// Writes the header of an export.
#[tactic(auto, using(crate::proofs::Beginnings::none_written))]
fn write_header<W: Write>(alloc: Global, writer: &mut W) -> Result<(), StreamFault>
    ensures written { OnOk result
        (Appends (W.contents writer.old) (W.contents writer.new) header_record) }
    ensures err { OnErr result
        (WritesBeginning (W.contents writer.old) (W.contents writer.new) header_record) }
{
    let header = header_record(alloc)?;
    write_text(writer, header.as_slice())
}

/// Writes an account's statement of a month as of a moment: its charges in the month, their sums,
/// its buckets, which are handed in, and what was collected to date. The charges are asked of the
/// source one at a time, and each is written before the next.
///
/// # Errors
/// `Memory` where a growth was refused, `Store` where the source failed, `Write` where the writer
/// did. Then a beginning of the statement is written.
// rule: statement
pub fn statement<S: ChargeSource, W: Write>(
    alloc: Global,
    source: &mut S,
    writer: &mut W,
    asked: &AccountMonth,
    moment: Moment,
    buckets: &[Bucket],
) -> Result<(), StatementFault>
    ensures { WritesCharges W.contents
        asked.now.account.now (λ rows. statement_text asked.now.book.now asked.now.account.now
        asked.now.month moment rows buckets.now) (S.seen source.old) (S.seen source.new) writer.old
        writer.new result }
{
    write_head(alloc, writer, asked.account, asked.month, moment)?;
    let sums = write_charges(alloc, source, writer, asked, Form::Lines)?;
    write_foot(alloc, writer, &sums, buckets)?;
    Ok(())
}

/// Writes an account's charges of a month as records of CSV, after a header. The charges are asked
/// of the source one at a time, and each record is written whole before the next is asked for.
///
/// # Errors
/// `Memory` where a growth was refused, `Store` where the source failed, `Write` where the writer
/// did. Then a beginning of the export is written.
// rule: statement, export
pub fn export<S: ChargeSource, W: Write>(
    alloc: Global,
    source: &mut S,
    writer: &mut W,
    asked: &AccountMonth,
) -> Result<(), StatementFault>
    ensures { WritesCharges W.contents asked.now.account.now
        (λ rows. export_text asked.now.book.now asked.now.month rows)
        (S.seen source.old) (S.seen source.new) writer.old writer.new result }
{
    write_header(alloc, writer)?;
    write_charges(alloc, source, writer, asked, Form::Records)?;
    Ok(())
}
