//! A file of vouchers, read.

ghost use Rattle.std.specs.Prelude.{◌≡◌, ◌≢◌, if◌then◌else◌, All, IfErr, IfOk, IfSome, IsTrue};
ghost use Rattle.std.specs.Prelude.{OnOk, Ok, Err, false};
ghost use Rattle.csv.specs.Reading.{ReadRecord, Ready, error_kind, is_io, reader_trim};
ghost use Rattle.csv.specs.Records.{fields_of};
ghost use Rattle.csv.specs.declared.reader.Trim.TheVariants as trim;
ghost use Rattle.vouchers.specs.Faults.{is_in_file};
ghost use Rattle.vouchers.specs.Files.{MayStopAt, ReadsFirst, vouchers_in};
ghost use Rattle.vouchers.specs.Rows.{IsVoucher, voucher_of};
ghost use Rattle.vouchers.specs.declared.fault.FaultKind.TheVariants.{Memory, Read};

use crate::fault::{FaultKind, VoucherFault};
use crate::fields::{is_header, voucher};
use commands::VoucherAddition;
use csv::{ByteRecord, Error, Reader, ReaderBuilder};
use std::alloc::Global;
use std::io::Read;

/// Whose an error of reading a record is: the reader's, or lack of memory.
fn kind_of(error: &Error) -> FaultKind
    ensures { result ≡ if is_io (error_kind error.now) then Read else Memory }
{
    if error.is_io_error() {
        FaultKind::Read
    } else {
        FaultKind::Memory
    }
}

/// Takes the next record, which has this number, and says whether there was one.
fn next_record<R: Read>(
    records: &mut Reader<R>,
    fields: &mut ByteRecord,
    number: u64,
) -> Result<bool, VoucherFault>
    requires trim { reader_trim records.old ≡ trim.None }
    requires ready { Ready records.old }
    ensures reads { IfOk result
        (λ found. ReadRecord R.remaining records.old records.new found (fields_of fields.new)) }
    ensures ready { OnOk result (Ready records.new) }
    ensures number { IfErr result (λ f. f.record_number ≡ number) }
    ensures stopped { IfErr result (λ f. is_in_file f.kind ≡ false) }
{
    match records.read_byte_record(fields) {
        Ok(found) => Ok(found),
        Err(error) => Err(VoucherFault {
            record_number: number,
            kind: kind_of(&error),
        }),
    }
}

/// Takes the first record, and says whether it is the header.
fn has_header<R: Read>(
    records: &mut Reader<R>,
    fields: &mut ByteRecord,
) -> Result<bool, VoucherFault>
    requires trim { reader_trim records.old ≡ trim.None }
    requires ready { Ready records.old }
    ensures reads { IfOk result (λ has. ReadsFirst R.remaining records.old records.new has) }
    ensures ready { OnOk result (Ready records.new) }
    ensures number { IfErr result (λ f. f.record_number ≡ 1) }
    ensures stopped { IfErr result (λ f. is_in_file f.kind ≡ false) }
{
    if next_record(records, fields, 1)? {
        Ok(is_header(fields))
    } else {
        Ok(false)
    }
}

/// The voucher that the record of this number says.
fn voucher_at(
    alloc: Global,
    fields: &ByteRecord,
    number: u64,
) -> Result<VoucherAddition, VoucherFault>
    ensures value { IfOk result (λ v. voucher_of (fields_of fields.now) ≡ Ok v) }
    ensures in_range { IfOk result IsVoucher }
    ensures fault { IfErr result
        (λ f. f.kind ≢ Memory → voucher_of (fields_of fields.now) ≡ Err f.kind) }
    ensures number { IfErr result (λ f. f.record_number ≡ number) }
{
    match voucher(alloc, fields) {
        Ok(row) => Ok(row),
        Err(kind) => Err(VoucherFault {
            record_number: number,
            kind,
        }),
    }
}

/// The vouchers of a file in their order: CSV of the header `code,amount,days,scope` and a record a
/// voucher. Numbers are 1 to 16 digits without a sign. Empty days mean no end, an empty scope all
/// rating groups. A byte order mark at the start is no part of the file, and an empty line is no
/// record.
///
/// # Errors
/// The first fault in the order of the records, and in a record in the order of `FaultKind`; or
/// that the reader failed or memory ran out, where no record before has a fault. Nothing of the
/// file is handed out then.
// rule: voucher-file
pub fn read_vouchers<R: Read + Drop>(
    alloc: Global,
    reader: R,
) -> Result<Vec<VoucherAddition>, VoucherFault>
    ensures rows { IfOk result
        (λ v. IfSome (R.remaining reader) (λ text. vouchers_in text ≡ Ok v.items)) }
    ensures in_range { IfOk result (λ v. All IsVoucher v.items) }
    ensures fault { IfErr result (λ f. IsTrue (is_in_file f.kind) →
        IfSome (R.remaining reader) (λ text. vouchers_in text ≡ Err f)) }
    ensures stopped { IfErr result (λ f. is_in_file f.kind ≡ false →
        IfSome (R.remaining reader) (MayStopAt f.record_number)) }
{
    let mut records = ReaderBuilder::new()
        .has_headers(false)
        .flexible(true)
        .from_reader(alloc, reader);
    let mut fields = ByteRecord::new(alloc);
    if !has_header(&mut records, &mut fields)? {
        return Err(VoucherFault {
            record_number: 1,
            kind: FaultKind::Header,
        });
    }
    let mut rows = Vec::new(alloc);
    for number in 2..u64::MAX {
        if !next_record(&mut records, &mut fields, number)? {
            return Ok(rows);
        }
        let row = voucher_at(alloc, &fields, number)?;
        if rows.push(row).is_err() {
            return Err(VoucherFault {
                record_number: number,
                kind: FaultKind::Memory,
            });
        }
    }
    // So many vouchers fit into no vector.
    unreachable!()
}
