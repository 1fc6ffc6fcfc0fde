//! An account's month, as a statement or as CSV.

ghost use Rattle.std.specs.Prelude.{◌≡◌, ◌≢◌, Err, IfOk, IsErrOf};
ghost use Rattle.std.specs.Io.KnownBytes.{Appends};
ghost use Rattle.texts.specs.declared.streams.StreamFault.{StreamFault};
ghost use Rattle.texts.specs.declared.streams.StreamFault.TheVariants.{Read as ReadFailed};
ghost use Rattle.keepers.specs.declared.fault.StoreFault.TheVariants.{Store as StoreFailed};
ghost use Rattle.statements.specs.Charges.{AsksSource, WritesAll, WritesSome};
ghost use Rattle.operations.specs.Months.{ServesStatement, WritesAndEnds};
ghost use Rattle.operations.specs.Months.{month_ended, month_fault, month_rows_text, unknown_line};
ghost use Rattle.operations.specs.Printed.{IsEnded};
ghost use Rattle.operations.specs.Written.{PrintsText};
ghost use Rattle.operations.specs.declared.fault.OfficeFault.TheVariants.{Store, Write};
ghost use Rattle.operations.specs.declared.status.Status.TheVariants.{Failed};

use crate::fault::OfficeFault;
use crate::status::Status;
use crate::writing::write_answer_line;
use charging::{AccountState, account_state};
use commands::{Answer, Refusal};
use identifiers::AccountNumber;
use keepers::{ChargeSource, StoreFault};
use operator::Month;
use shelves::TariffShelf;
use statements::{AccountMonth, StatementFault, export, statement};
use std::alloc::Global;
use std::io::Write;
use texts::StreamFault;
use units::Moment;
use wire::WrittenAnswer;

/// What is asked of an account: its charges of a month.
#[derive(Drop)]
pub struct MonthQuery {
    /// The account whose charges are asked for.
    pub account: AccountNumber,
    /// The civil month in the zone of the books.
    pub month: Month,
    /// Whether they are written as CSV, without sums and buckets.
    pub csv: bool,
}

/// Writes an account's month as of the later of this moment and that of the last accepted command:
/// its statement, with all of its buckets by number, or its export. It is a read: it changes
/// nothing. An account that isn't there is refused, and the status is `Failed` then.
///
/// # Errors
/// `Store` where the keeper failed; `Write` where memory ran out for the text, or the writer
/// failed.
/// Then a beginning of the text is written.
// rule: statement.month-told
pub fn serve_statement<K: ChargeSource, W: Write>(
    alloc: Global,
    keeper: &mut K,
    shelf: &TariffShelf,
    query: &MonthQuery,
    moment: Moment,
    writer: &mut W,
) -> Result<Status, OfficeFault>
    ensures { ServesStatement W.contents shelf.now query.now moment
        (K.seen keeper.old) (K.seen keeper.new) writer.old writer.new result }
{
    let state = account_state(keeper, shelf, &query.account, moment)?;
    match state {
        Some(state) => month_ended(write_month(alloc, keeper, shelf, query, &state, writer)),
        None => tell_unknown(alloc, writer),
    }
}

/// Writes the month of an account whose state was found: a statement or an export.
fn write_month<K: ChargeSource, W: Write>(
    alloc: Global,
    keeper: &mut K,
    shelf: &TariffShelf,
    query: &MonthQuery,
    state: &AccountState,
    writer: &mut W,
) -> Result<(), StatementFault>
    ensures writes { (K.seen keeper.new).clean →
        WritesAll ((K.seen keeper.old).tables.charges query.now.account)
        (W.contents writer.old) (W.contents writer.new)
        (λ rows. month_rows_text shelf.now query.now state.now.moment rows state.now.buckets.items)
        result }
    ensures some { WritesSome (W.contents writer.old) (W.contents writer.new)
        (λ rows. month_rows_text shelf.now query.now state.now.moment rows state.now.buckets.items)
        result }
    ensures asks { AsksSource (K.seen keeper.old) (K.seen keeper.new) result }
{
    let MonthQuery {
        account,
        month,
        csv,
    } = query;
    let book = shelf.first();
    let asked = AccountMonth {
        account,
        month: *month,
        book,
    };
    if *csv {
        return export(alloc, keeper, writer, &asked);
    }
    let buckets = state.buckets.as_slice();
    statement(alloc, keeper, writer, &asked, state.moment, buckets)
}

/// What writing a month ends with.
fn month_ended(written: Result<(), StatementFault>) -> Result<Status, OfficeFault>
    ensures { result ≡ month_ended written }
{
    written.map_err(month_fault)?;
    Ok(Status::Done)
}

/// A fault of a statement among those of an office.
fn month_fault(fault: StatementFault) -> OfficeFault
    ensures { result ≡ month_fault fault }
{
    match fault {
        StatementFault::Memory => OfficeFault::Write(StreamFault::Memory),
        StatementFault::Store => OfficeFault::Store(StoreFault::Store),
        StatementFault::Write => OfficeFault::Write(StreamFault::Write),
    }
}

/// Prints that the account isn't there.
fn tell_unknown<W: Write>(alloc: Global, writer: &mut W) -> Result<Status, OfficeFault>
    ensures told { WritesAndEnds Failed (W.contents writer.old)
        (W.contents writer.new) unknown_line result }
    ensures ended { IfOk result (IsEnded
        (Appends (W.contents writer.old) (W.contents writer.new) unknown_line)) }
    ensures unstored { IsErrOf result (Store StoreFailed) → ⊥ }
    ensures fault { (fault : StreamFault) → result ≡ Err (Write fault) → fault ≢ ReadFailed }
{
    write_unknown(alloc, writer)?;
    Ok(Status::Failed)
}

/// Writes that the account isn't there.
fn write_unknown<W: Write>(alloc: Global, writer: &mut W) -> Result<(), StreamFault>
    ensures { PrintsText unknown_line (W.contents writer.old) (W.contents writer.new) result }
{
    let unknown = Answer::Refused(Refusal::AccountUnknown);
    let unknown = WrittenAnswer::new(alloc, unknown)?;
    write_answer_line(writer, &unknown)
}
