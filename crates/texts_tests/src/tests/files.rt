//! Files of vouchers: each field at and past its limits, in the first record and in later ones, as
//! CSV writes them. What the files say was reckoned by Python's `csv` and the rules of the fields.

use crate::tests::tables::{Told, try_told, word};
use commands::VoucherAddition;
use std::alloc::Global;
use std::io::Read;
use std::process::Abort;
use vouchers::{FaultKind, VoucherFault, read_vouchers};

/// A number that may be absent.
fn or_dash(rt: &impl Abort, alloc: Global, number: Option<u64>) -> String {
    match number {
        Some(number) => format!(in alloc; "{number}").expect(rt, "memory"),
        None => word(rt, alloc, "-"),
    }
}

/// A voucher as `CODE AMOUNT DAYS SCOPE`.
fn row_text(rt: &impl Abort, alloc: Global, row: &VoucherAddition) -> String {
    let code = row.code.as_str();
    let amount = row.terms.amount().micros();
    let days = or_dash(rt, alloc, row.terms.days().map(|days| days as u64));
    let scope = or_dash(rt, alloc, row.terms.scope().map(|group| group as u64));
    format!(in alloc; "{code} {amount} {} {}", days.as_str(), scope.as_str()).expect(rt, "memory")
}

/// Appends a voucher to those before it.
fn put_row(rt: &impl Abort, alloc: Global, text: &mut String, row: &VoucherAddition) {
    if !text.is_empty() {
        text.push_str("; ").expect(rt, "memory");
    }
    let row = row_text(rt, alloc, row);
    text.push_str(row.as_str()).expect(rt, "memory");
}

/// The vouchers of a file, or `none`.
fn rows_text(rt: &impl Abort, alloc: Global, rows: &[VoucherAddition]) -> String {
    if rows.is_empty() {
        return word(rt, alloc, "none");
    }
    let mut text = String::new(alloc);
    for row in rows {
        put_row(rt, alloc, &mut text, row);
    }
    text
}

/// What a file says: its vouchers, or its fault as `NUMBER at RECORD`.
pub(crate) fn outcome<R: Read + Drop>(rt: &impl Abort, alloc: Global, reader: R) -> String {
    match read_vouchers(alloc, reader) {
        Ok(rows) => rows_text(rt, alloc, rows.as_slice()),
        Err(fault) => {
            let number = fault.kind.number();
            let record = fault.record_number;
            format!(in alloc; "{number} at {record}").expect(rt, "memory")
        }
    }
}

const HEADER: &str = "code,amount,days,scope|";

/// The file that a case writes: `#` is the header with its line feed, `|` a line feed, `^` a
/// carriage return, `@` a byte order mark.
fn file_of(rt: &impl Abort, alloc: Global, case: &str) -> String {
    let text = case.replace(alloc, "#", HEADER).expect(rt, "memory");
    let text = text.as_str().replace(alloc, "|", "\n").expect(rt, "memory");
    let text = text.as_str().replace(alloc, "^", "\r").expect(rt, "memory");
    let text = text.as_str().replace(alloc, "@", "\u{FEFF}");
    text.expect(rt, "memory")
}

/// What the file of a case says.
pub(crate) fn told(rt: &impl Abort, alloc: Global, case: &str) -> String {
    let file = file_of(rt, alloc, case);
    outcome(rt, alloc, file.as_str().as_bytes())
}

/// What a file says that is no text.
pub(crate) fn no_text_told(rt: &impl Abort, alloc: Global, name: &str) -> String {
    let file: &[u8] = match name {
        "code" => b"code,amount,days,scope\n\xFF00000000001,5,1,2\n",
        "amount" => b"code,amount,days,scope\n000000000001,5\xC3,1,2\n",
        _ => b"code,amount,days,scope\xFF\n",
    };
    outcome(rt, alloc, file)
}

/// The number and the text of the fault of this name.
pub(crate) fn fault_told(rt: &impl Abort, alloc: Global, name: &str) -> String {
    let kind = match name {
        "header" => FaultKind::Header,
        "fields" => FaultKind::FieldCount,
        "code" => FaultKind::Code,
        "amount" => FaultKind::Amount,
        "days" => FaultKind::Days,
        "scope" => FaultKind::Scope,
        "reader" => FaultKind::Read,
        _ => FaultKind::Memory,
    };
    let number = kind.number();
    let record_number = 7;
    let fault = VoucherFault {
        record_number,
        kind,
    };
    format!(in alloc; "{number}: {fault}").expect(rt, "memory")
}

/// The first record is the header, and nothing else is.
const HEADERS: &str = r##" -> 1 at 1
| -> 1 at 1
^|^| -> 1 at 1
code,amount,days,scope -> none
# -> none
@# -> none
@ -> 1 at 1
@| -> 1 at 1
@@# -> 1 at 1
"code","amount","days","scope"^| -> none
code,amount,days| -> 1 at 1
code,amount,days,scope,| -> 1 at 1
code,amount,scope,days| -> 1 at 1
Code,amount,days,scope| -> 1 at 1
code, amount,days,scope| -> 1 at 1
 # -> 1 at 1
code;amount;days;scope| -> 1 at 1
code,amount,days,scopes| -> 1 at 1
code,amount,days,scop| -> 1 at 1
codes,amount,days,scope| -> 1 at 1
code,amounts,days,scope| -> 1 at 1
code,amount,day,scope| -> 1 at 1
000000000001,5,1,2| -> 1 at 1
,,,| -> 1 at 1
||#000000000001,5,1,2 -> 000000000001 5 1 2"##;

/// A record has four fields.
const COUNTS: &str = r##"#000000000001 -> 2 at 2
#000000000001,5 -> 2 at 2
#000000000001,5,1 -> 2 at 2
#000000000001,5,1, -> 000000000001 5 1 -
#000000000001,5,1,2, -> 2 at 2
#000000000001,5,1,2,3 -> 2 at 2
#, -> 2 at 2
# | -> 2 at 2
#000000000001,5,1,2|000000000001,5,1 -> 2 at 3
#1,5,1|000000000001,5,1,2 -> 2 at 2
#000000000001,5,1,2|000000000002,5,1,|000000000003,5,,|000000000004,x -> 2 at 5
#1|2 -> 2 at 2
#"" -> 2 at 2
#"000000000001,5,1,2" -> 2 at 2"##;

/// A code is 12 digits.
const CODES: &str = r##"#,5,1,2 -> 3 at 2
#0,5,1,2 -> 3 at 2
#00000000000,5,1,2 -> 3 at 2
#000000000000,5,1,2 -> 000000000000 5 1 2
#999999999999,5,1,2 -> 999999999999 5 1 2
#0000000000001,5,1,2 -> 3 at 2
#00000000000a,5,1,2 -> 3 at 2
#a00000000000,5,1,2 -> 3 at 2
# 00000000001,5,1,2 -> 3 at 2
#00000000001 ,5,1,2 -> 3 at 2
#+00000000001,5,1,2 -> 3 at 2
#-00000000001,5,1,2 -> 3 at 2
#00000000000/,5,1,2 -> 3 at 2
#00000000000:,5,1,2 -> 3 at 2
#"000000000001",5,1,2 -> 000000000001 5 1 2
#"00000""0000001",5,1,2 -> 3 at 2
#٣٣٣٣٣٣,5,1,2 -> 3 at 2
#０００００００００００１,5,1,2 -> 3 at 2"##;

#[test]
fn headers_counts_and_codes(rt: HostRuntime) {
    try_told(&rt, rt.alloc(), Told::File, HEADERS);
    try_told(&rt, rt.alloc(), Told::File, COUNTS);
    try_told(&rt, rt.alloc(), Told::File, CODES);
}

/// An amount is 1 to 10^15.
const AMOUNTS: &str = r##"#000000000001,,1,2 -> 4 at 2
#000000000001,0,1,2 -> 4 at 2
#000000000001,1,1,2 -> 000000000001 1 1 2
#000000000001,01,1,2 -> 000000000001 1 1 2
#000000000001,0000000000000001,1,2 -> 000000000001 1 1 2
#000000000001,00000000000000001,1,2 -> 4 at 2
#000000000001,999999999999999,1,2 -> 000000000001 999999999999999 1 2
#000000000001,1000000000000000,1,2 -> 000000000001 1000000000000000 1 2
#000000000001,1000000000000001,1,2 -> 4 at 2
#000000000001,9999999999999999,1,2 -> 4 at 2
#000000000001,10000000000000000,1,2 -> 4 at 2
#000000000001,18446744073709551616,1,2 -> 4 at 2
#000000000001,-1,1,2 -> 4 at 2
#000000000001,+1,1,2 -> 4 at 2
#000000000001, 1,1,2 -> 4 at 2
#000000000001,1 ,1,2 -> 4 at 2
#000000000001,1.0,1,2 -> 4 at 2
#000000000001,1e0,1,2 -> 4 at 2
#000000000001,0x1,1,2 -> 4 at 2
#000000000001,1_0,1,2 -> 4 at 2
#000000000001,a,1,2 -> 4 at 2
#000000000001,"7",1,2 -> 000000000001 7 1 2
#000000000001," 7",1,2 -> 4 at 2
#000000000001,٣,1,2 -> 4 at 2"##;

/// Days are empty or 1 to 3,650.
const DAYS: &str = r##"#000000000001,5,,2 -> 000000000001 5 - 2
#000000000001,5,0,2 -> 5 at 2
#000000000001,5,1,2 -> 000000000001 5 1 2
#000000000001,5,3650,2 -> 000000000001 5 3650 2
#000000000001,5,3651,2 -> 5 at 2
#000000000001,5,03650,2 -> 000000000001 5 3650 2
#000000000001,5,0000000000003650,2 -> 000000000001 5 3650 2
#000000000001,5,00000000000003650,2 -> 5 at 2
#000000000001,5,65537,2 -> 5 at 2
#000000000001,5,4294967297,2 -> 5 at 2
#000000000001,5,18446744073709551617,2 -> 5 at 2
#000000000001,5,-1,2 -> 5 at 2
#000000000001,5,+1,2 -> 5 at 2
#000000000001,5, ,2 -> 5 at 2
#000000000001,5," ",2 -> 5 at 2
#000000000001,5,"",2 -> 000000000001 5 - 2
#000000000001,5,1.5,2 -> 5 at 2
#000000000001,5,x,2 -> 5 at 2
#000000000001,5,"365",2 -> 000000000001 5 365 2"##;

/// A scope is empty or 0 to 4,294,967,295.
const SCOPES: &str = r##"#000000000001,5,1, -> 000000000001 5 1 -
#000000000001,5,1,0 -> 000000000001 5 1 0
#000000000001,5,1,1 -> 000000000001 5 1 1
#000000000001,5,1,4294967295 -> 000000000001 5 1 4294967295
#000000000001,5,1,4294967296 -> 6 at 2
#000000000001,5,1,04294967295 -> 000000000001 5 1 4294967295
#000000000001,5,1,0000000000000000 -> 000000000001 5 1 0
#000000000001,5,1,00000000000000000 -> 6 at 2
#000000000001,5,1,18446744073709551615 -> 6 at 2
#000000000001,5,1,-0 -> 6 at 2
#000000000001,5,1,-1 -> 6 at 2
#000000000001,5,1,+0 -> 6 at 2
#000000000001,5,1,  -> 6 at 2
#000000000001,5,1,"" -> 000000000001 5 1 -
#000000000001,5,1,0.0 -> 6 at 2
#000000000001,5,1,x -> 6 at 2
#000000000001,5,1,"10" -> 000000000001 5 1 10
#000000000001,5,1,None -> 6 at 2"##;

// rule: voucher-file
#[test]
fn amounts_days_and_scopes(rt: HostRuntime) {
    try_told(&rt, rt.alloc(), Told::File, AMOUNTS);
    try_told(&rt, rt.alloc(), Told::File, DAYS);
    try_told(&rt, rt.alloc(), Told::File, SCOPES);
}

/// The first fault of the first faulty record is reported.
const ORDER: &str = r##"#x,0,0,x,x -> 2 at 2
#x,0,0,x -> 3 at 2
#000000000001,0,0,x -> 4 at 2
#000000000001,1,0,x -> 5 at 2
#000000000001,1,1,x -> 6 at 2
#000000000001,1,1,1|000000000002,1,1,x|000000000003,1,0,1 -> 6 at 3
#000000000001,1,1,1|000000000002,1,1,x|x -> 6 at 3
code|x -> 1 at 1"##;

/// Whole files.
const FILES: &str = r##"#000000000001,5000000,30,|000000000002,10000000,90,|000000000003,1000000,
  7,20 -> 000000000001 5000000 30 -; 000000000002 10000000 90 -; 000000000003 1000000 7 20
#000000000001,5000000,30,|000000000002,10000000,90,|000000000003,1000000,7,20|
   -> 000000000001 5000000 30 -; 000000000002 10000000 90 -; 000000000003 1000000 7 20
#000000000001,5,1,|00000000002,5,1,| -> 3 at 3
code,amount,days,scope^|000000000001,5,1,2^|000000000002,5,,^| -> 000000000001 5 1 2;
   000000000002 5 - -
code,amount,days,scope^000000000001,5,1,2^000000000002,5,, -> 000000000001 5 1 2; 000000000002 5 - -
#|000000000001,5,1,2||^|000000000002,5,1,2|||x| -> 2 at 4
@#000000000001,5,1,2| -> 000000000001 5 1 2
#"000000000001","5","1","2"| -> 000000000001 5 1 2
#"000000000001","5","",""^|"000000000002",5,"1","" -> 000000000001 5 - -; 000000000002 5 1 -
#"0000000000|01",5,1,2|x -> 3 at 2
#000000000001,5,1,"2| -> 6 at 2
#000000000001,5,1,"2 -> 000000000001 5 1 2
#000000000001,5,1,"2"x| -> 6 at 2
#000000000001,5,1,2|000000000001,5,1,2|000000000001,6,1,2 -> 000000000001 5 1 2;
   000000000001 5 1 2; 000000000001 6 1 2
"code",amount,days,scope|000000000001,5,1,2 -> 000000000001 5 1 2
#000000000001,5,1,2^^||000000000001,5,1,2 -> 000000000001 5 1 2; 000000000001 5 1 2"##;

/// A byte that is no text, in a code, an amount and the header.
const BYTES: &str = "code -> 3 at 2
amount -> 4 at 2
header -> 1 at 1";

// rule: voucher-file.vouchers
#[test]
fn whole_files(rt: HostRuntime) {
    try_told(&rt, rt.alloc(), Told::File, ORDER);
    try_told(&rt, rt.alloc(), Told::File, FILES);
    try_told(&rt, rt.alloc(), Told::Bytes, BYTES);
}

/// The faults in the order of their numbers, and their texts.
const FAULTS: &str = "header -> 1: the header is not code,amount,days,scope at record 7
fields -> 2: the record does not have four fields at record 7
code -> 3: the code is not 12 digits at record 7
amount -> 4: the amount is not 1 to 10^15 at record 7
days -> 5: the days are neither empty nor 1 to 3650 at record 7
scope -> 6: the scope is neither empty nor 0 to 4294967295 at record 7
reader -> 7: the reader failed at record 7
memory -> 8: out of memory at record 7";

#[test]
fn faults(rt: HostRuntime) {
    try_told(&rt, rt.alloc(), Told::VoucherFault, FAULTS);
}
