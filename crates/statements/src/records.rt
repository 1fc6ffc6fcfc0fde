//! Records of an export.

ghost use Rattle.std.specs.Prelude.{◌≡◌, IfOk, map};
ghost use Rattle.csv.specs.Writing.{default_writer, row_text};
ghost use Rattle.statements.specs.Records.{charge_record, header_record};

use csv::{Error, WriterBuilder};
use ledger::ChargeRow;
use std::alloc::Global;
use texts::StreamFault;

/// The text of a record.
fn record_text(alloc: Global, fields: &[&[u8]]) -> Result<Vec<u8>, Error>
    ensures { IfOk result (λ text.
        text.items ≡ row_text default_writer (map (λ f. f.now) fields.now)) }
{
    let mut writer = WriterBuilder::new().from_writer(Vec::new(alloc));
    writer.write_fields(fields)?;
    match writer.into_inner() {
        Ok(text) => Ok(text),
        Err(error) => Err(error.into_error()),
    }
}

/// The same, where lack of memory is the one fault.
fn made(alloc: Global, fields: &[&[u8]]) -> Result<Vec<u8>, StreamFault>
    ensures { IfOk result (λ text.
        text.items ≡ row_text default_writer (map (λ f. f.now) fields.now)) }
{
    record_text(alloc, fields).map_err(|_| StreamFault::Memory)
}

/// The record of names, before those of charges.
pub(crate) fn header_record(alloc: Global) -> Result<Vec<u8>, StreamFault>
    ensures { IfOk result (λ text. text.items ≡ header_record) }
{
    let fields = [
        "moment".as_bytes(),
        "session".as_bytes(),
        "group".as_bytes(),
        "blocks".as_bytes(),
        "rated".as_bytes(),
        "collected".as_bytes(),
        "uncollected".as_bytes(),
        "covered".as_bytes(),
    ];
    made(alloc, &fields)
}

/// The record of a charge.
pub(crate) fn charge_record(alloc: Global, row: &ChargeRow) -> Result<Vec<u8>, StreamFault>
    ensures { IfOk result (λ text. text.items ≡ charge_record row.now) }
{
    let mut moment = itoa::Buffer::new();
    let mut group = itoa::Buffer::new();
    let mut blocks = itoa::Buffer::new();
    let mut rated = itoa::Buffer::new();
    let mut collected = itoa::Buffer::new();
    let mut uncollected = itoa::Buffer::new();
    let mut covered = itoa::Buffer::new();
    let fields = [
        moment.format(row.moment.seconds()).as_bytes(),
        row.session.as_str().as_bytes(),
        group.format(row.group).as_bytes(),
        blocks.format(row.blocks.0).as_bytes(),
        rated.format(row.rated.0).as_bytes(),
        collected.format(row.collected.0).as_bytes(),
        uncollected.format(row.uncollected.0).as_bytes(),
        covered.format(row.covered.0).as_bytes(),
    ];
    made(alloc, &fields)
}
