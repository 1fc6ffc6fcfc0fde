//! Each fault of each key, and which of two faults is reported.
//!
//! A case is the texts of the document that are changed, and the number of the fault that is
//! reported of it (0: the document is read). Expected faults are reckoned from the rules of the
//! format.

use crate::tests::tables::{Teller, try_table};
use crate::tests::tariff::documents::SMALL;
use std::alloc::Global;
use std::process::Abort;
use tariffs::TariffBook;
use worked_book::BOOK;

/// The fault's number with which a text is read; 0 where it is read as a book.
pub(crate) fn outcome(alloc: Global, bytes: &[u8]) -> u8 {
    match TariffBook::read(alloc, bytes) {
        Ok(_) => 0,
        Err(fault) => fault.number(),
    }
}

/// Tells the fault of a document with the changes of a case, joined by `&`, each `OLD -> NEW`. In
/// their texts `|` stands for the end of a line.
#[derive(Clone, Copy)]
struct Changes<'a> {
    document: &'a str,
}

impl Teller for Changes<'_> {
    fn tell<R: Abort>(&mut self, rt: &R, alloc: Global, case: &str) -> String {
        let changes = case.replace(alloc, "|", "\n").expect(rt, "memory");
        let text = changed(rt, alloc, self.document, changes.as_str());
        let told = outcome(alloc, text.as_str().as_bytes());
        format!(in alloc; "{told}").expect(rt, "memory")
    }
}

pub(crate) fn changed(rt: &impl Abort, alloc: Global, document: &str, changes: &str) -> String {
    let mut text = String::from_str(alloc, document).expect(rt, "memory");
    for change in changes.split(" & ") {
        text = with_change(rt, alloc, text.as_str(), change);
    }
    text
}

fn with_change(rt: &impl Abort, alloc: Global, text: &str, change: &str) -> String {
    let (old, new) = change.split_once(" -> ").expect(rt, "a change");
    assert!(rt; text.contains(old), "{change}");
    text.replace(alloc, old, new).expect(rt, "memory")
}

const ZONE_AND_NUMBERS: &str = r##"zone = "+00:00" -> zones = 5 => 2
"+00:00" -> 0 => 3
+00:00 -> +14:00 => 0
+00:00 -> -14:00 => 0
+00:00 -> -00:00 => 0
+00:00 -> +05:45 => 0
+00:00 -> +14:01 => 4
+00:00 -> -14:01 => 4
+00:00 -> +00:60 => 4
+00:00 -> 00:00 => 4
+00:00 -> +0:00 => 4
"+00:00" -> "+00:00 " => 4
"+00:00" -> "" => 4
+00:00 -> CET-1CEST,M3.5.0,M10.5.0/3 => 0
+00:00 -> AEST-10AEDT,M10.1.0,M4.1.0/3 => 0
+00:00 -> CET-1CEST => 4
+00:00 -> CET-1 => 4
+00:00 -> <CET>-1CEST,M3.5.0,M10.5.0/3 => 4
+00:00 -> CET-1CEST,M3.5.0,M4.5.0 => 4
+00:00 -> CET-1CEST-1,M3.5.0,M10.5.0 => 4
currency = 978 -> xcurrency = 978 => 2
978 -> "978" => 3
978 -> 978.0 => 3
978 -> 0 => 4
978 -> 1 => 0
978 -> 999 => 0
978 -> 1000 => 4
978 -> -1 => 4
validity = 3600 -> xvalidity = 3600 => 2
validity = 3600 -> validity = true => 3
validity = 3600 -> validity = 59 => 4
validity = 3600 -> validity = 60 => 0
validity = 3600 -> validity = 43200 => 0
validity = 3600 -> validity = 43201 => 4"##;

const PERIODS: &str = r##"periods = ["off", "peak"] -> xperiods = ["off", "peak"] => 2
periods = ["off", "peak"] -> periods = "off" => 3
periods = ["off", "peak"] -> periods = [] => 4
periods = ["off", "peak"] -> periods = ["off", 1] => 3
periods = ["off", "peak"] -> periods = ["off", "off"] => 4
periods = ["off", "peak"] -> periods = ["Off", "peak"] => 4
periods = ["off", "peak"] -> periods = ["", "peak"] => 4
periods = ["off", "peak"] -> periods = ["off2", "peak"] => 4
off -> aaaaaaaaaaaaaaaa => 0
off -> aaaaaaaaaaaaaaaaa => 4
periods = ["off", "peak"] -> periods = [0, 0, 0, 0, 0, 0, 0, 0, 0] => 8
periods = ["off", "peak"] -> periods = ["off", "peak", "a", "b", "c", "d", "e", "f"] => 2
periods = ["off", "peak"] -> periods = ["peak", "off"] => 0
periods = ["off", "peak"] -> periods = ["off"] => 5"##;

const WEEK: &str = r##"week = [ -> weeks = [ => 2
week = [ -> week = 5 # [ => 3
week = [ -> week = [] # [ => 4
week = [ -> week = [5, => 3
week = [ -> week = [0, 0, 0, 0, 0, 0, 0, 0, 0, 0, 0, 0, 0, 0, 0, 0, 0, 0, 0, 0, 0, 0, 0, 0, 0,
   0, 0, 0, 0, 0, 0, 0, 0, 0, 0, 0, 0, 0, 0, 0, 0, 0, 0, 0, 0, 0, 0, 0, 0, 0, 0, 0, 0, 0, 0, 0, 0,
   0, 0, 0, 0, 0, 0, => 8
week = [ -> week = [0, 0, 0, 0, 0, 0, 0, 0, 0, 0, 0, 0, 0, 0, 0, 0, 0, 0, 0, 0, 0, 0, 0, 0, 0,
   0, 0, 0, 0, 0, 0, 0, 0, 0, 0, 0, 0, 0, 0, 0, 0, 0, 0, 0, 0, 0, 0, 0, 0, 0, 0, 0, 0, 0, 0, 0, 0,
   0, 0, 0, 0, 0, => 3
{period = "off", days -> {days => 2
{period = "off", days -> {period = 5, days => 3
{period = "off", days -> {period = "night", days => 5
{period = "off", days -> {period = "of", days => 5
{period = "off", days -> {period = "peak", days => 0
days = [1, 2, 3, 4, 5, 6, 7] -> xdays = [1, 2, 3, 4, 5, 6, 7] => 2
days = [1, 2, 3, 4, 5, 6, 7] -> days = 5 => 3
days = [1, 2, 3, 4, 5, 6, 7] -> days = [] => 4
days = [1, 2, 3, 4, 5, 6, 7] -> days = [1, 2, 3, 4, 5, 6, 7, 7] => 8
days = [1, 2, 3, 4, 5, 6, 7] -> days = [1, 2, 3, 4, 5, 6, "7"] => 3
days = [1, 2, 3, 4, 5, 6, 7] -> days = [0, 2, 3, 4, 5, 6, 7] => 4
days = [1, 2, 3, 4, 5, 6, 7] -> days = [1, 2, 3, 4, 5, 6, 8] => 4
days = [1, 2, 3, 4, 5, 6, 7] -> days = [1, 2, 3, 4, 5, 6, 6] => 4
days = [1, 2, 3, 4, 5, 6, 7] -> days = [1, 2, 3, 4, 5, 6] => 6"##;

const MINUTES: &str = r##"from = "00:00" -> xfrom = "00:00" => 2
from = "00:00" -> from = 0 => 3
from = "00:00" -> from = "24:01" => 4
from = "00:00" -> from = "0:00" => 4
from = "00:00" -> from = "00:60" => 4
from = "00:00" -> from = "00:01" => 6
from = "00:00", to = "08:30" -> from = "00:00" => 2
from = "00:00", to = "08:30" -> from = "00:00", to = 5 => 3
from = "00:00", to = "08:30" -> from = "00:00", to = "8:30" => 4
from = "00:00", to = "08:30" -> from = "00:00", to = "24:01" => 4
from = "00:00", to = "08:30" -> from = "08:30", to = "08:30" => 4
from = "00:00", to = "08:30" -> from = "24:00" => 2
from = "00:00", to = "08:30" -> from = "24:00", to = "24:00" => 4
from = "00:00", to = "08:30" -> from = "00:00", to = "08:29" => 6
from = "00:00", to = "08:30" -> from = "00:00", to = "08:31" => 6
to = "24:00" -> to = "23:59" => 6
08:30 -> 12:00 => 0"##;

const GROUP_HEAD: &str = r##"group = [ -> groups = [ => 2
group = [ -> group = 5 # [ => 3
group = [ -> group = [] # [ => 4
group = [ -> group = [5, => 3
group = [ -> group = [0, 0, 0, 0, 0, 0, 0, 0, 0, 0, 0, 0, 0, 0, 0, 0, 0, 0, 0, 0, 0, 0, 0, 0, 0,
   0, 0, 0, 0, 0, 0, 0, 0, 0, 0, 0, 0, 0, 0, 0, 0, 0, 0, 0, 0, 0, 0, 0, 0, 0, 0, 0, 0, 0, 0, 0, 0,
   0, 0, 0, 0, 0, 0, 0, => 8
group = [ -> group = [0, 0, 0, 0, 0, 0, 0, 0, 0, 0, 0, 0, 0, 0, 0, 0, 0, 0, 0, 0, 0, 0, 0, 0, 0,
   0, 0, 0, 0, 0, 0, 0, 0, 0, 0, 0, 0, 0, 0, 0, 0, 0, 0, 0, 0, 0, 0, 0, 0, 0, 0, 0, 0, 0, 0, 0, 0,
   0, 0, 0, 0, 0, 0, => 3
id = 10 -> xid = 10 => 2
id = 10 -> id = "10" => 3
id = 10 -> id = -1 => 4
id = 10 -> id = 0 => 0
id = 10 -> id = 4294967295 => 0
id = 10 -> id = 4294967296 => 4
unit = "time" -> xunit = "time" => 2
unit = "time" -> unit = 5 => 3
unit = "time" -> unit = "seconds" => 4
unit = "time" -> unit = "Time" => 4
unit = "time" -> unit = "octets" => 0
unit = "time" -> unit = "events" => 0"##;

const AMOUNTS: &str = r##"block = 60 -> xblock = 60 => 2
block = 60 -> block = "60" => 3
block = 60 -> block = 0 => 4
block = 60 -> block = 1 => 0
block = 60 -> block = 1000000000000000 => 0
block = 60 -> block = 1000000000000001 => 4
slice = 600 -> xslice = 600 => 2
slice = 600 -> slice = 0.5 => 3
slice = 600 -> slice = 0 => 4
slice = 600 -> slice = 1000000000000001 => 4
slice = 600 -> slice = 3600 => 0
slice = 600 -> slice = 3601 => 4
max_grant = 3600 -> xmax_grant = 3600 => 2
max_grant = 3600 -> max_grant = "x" => 3
max_grant = 3600 -> max_grant = 0 => 4
max_grant = 3600 -> max_grant = 599 => 4
max_grant = 3600 -> max_grant = 600 => 0
max_grant = 3600 -> max_grant = 4294967295 => 0
max_grant = 3600 -> max_grant = 4294967296 => 4
block = 60, slice = 600, max_grant = 3600 -> block = 1, slice = 600, max_grant = 999999999 => 0
block = 60, slice = 600, max_grant = 3600 -> block = 1, slice = 600, max_grant = 1000000000 => 4
unit = "time", block = 60, slice = 600, max_grant = 3600 -> unit = "octets", block = 1000001,
   slice = 600, max_grant = 1000000000000000 => 0
unit = "time", block = 60, slice = 600, max_grant = 3600 -> unit = "octets", block = 1000000,
   slice = 600, max_grant = 1000000000000000 => 4
unit = "time", block = 60, slice = 600, max_grant = 3600 -> unit = "octets", block = 1000000,
   slice = 600, max_grant = 999999999999999 => 0
unit = "time", block = 60, slice = 600, max_grant = 3600 -> unit = "octets", block =
   1000000000000000, slice = 600, max_grant = 1000000000000001 => 4
unit = "time", block = 60, slice = 600, max_grant = 3600 -> unit = "events", block = 1000001,
   slice = 1000000000000000, max_grant = 1000000000000000 => 0"##;

const CYCLE_AND_FINAL: &str = r##"cycle = "none" -> xcycle = "none" => 2
cycle = "none" -> cycle = 5 => 3
cycle = "none" -> cycle = "week" => 4
cycle = "none" -> cycle = "day" => 0
cycle = "none" -> cycle = "month" => 0
final = "terminate" -> xfinal = "terminate" => 2
final = "terminate" -> final = 5 => 3
final = "terminate" -> final = "stop" => 4
final = "terminate" -> final = "redirect" => 2
final = "terminate" -> final = "redirect", redirect = 5 => 3
final = "terminate" -> final = "redirect", redirect = "" => 4
final = "terminate" -> final = "redirect", redirect = "a b" => 4
final = "terminate" -> final = "redirect", redirect = "ü" => 4
final = "terminate" -> final = "redirect", redirect = "!" => 0
final = "terminate" -> final = "redirect", redirect = "~" => 0
final = "terminate" -> final = "redirect", redirect = "aaaaaaaaaaaaaaaaaaaaaaaaaaaaaaaaaaaaaaaaaa
  aaaaaaaaaaaaaaaaaaaaaaaaaaaaaaaaaaaaaaaaaaaaaaaaaaaaaaaaaaaaaaaaaaaaaaaaaaaaaaaaaaaaaaaaaaaaaaaaaa
  aaaaaaaaaaaaaaaaaaaaaaaaaaaaaaaaaaaaaaaaaaaaaaaaaaaaaaaaaaaa" => 0
final = "terminate" -> final = "redirect", redirect = "aaaaaaaaaaaaaaaaaaaaaaaaaaaaaaaaaaaaaaaaaa
  aaaaaaaaaaaaaaaaaaaaaaaaaaaaaaaaaaaaaaaaaaaaaaaaaaaaaaaaaaaaaaaaaaaaaaaaaaaaaaaaaaaaaaaaaaaaaaaaaa
  aaaaaaaaaaaaaaaaaaaaaaaaaaaaaaaaaaaaaaaaaaaaaaaaaaaaaaaaaaaaa" => 4
final = "terminate" -> final = "terminate", redirect = 5 => 0"##;

const PRICES: &str = r##""terminate", price -> "terminate", prices => 2
"terminate", price = [ -> "terminate", price = 5 }] # [ => 3
"terminate", price = [ -> "terminate", price = [] }] # [ => 2
"terminate", price = [ -> "terminate", price = [0, 0, 0, 0, 0, 0, 0, => 8
"terminate", price = [ -> "terminate", price = [0, 0, 0, 0, 0, 0, => 3
price = [{period = "off", tiers -> price = [{tiers => 2
price = [{period = "off", tiers -> price = [{period = 5, tiers => 3
price = [{period = "off", tiers -> price = [{period = "night", tiers => 5
price = [{period = "off", tiers -> price = [{period = "peak", tiers => 4
3}]}, {period = "peak", tiers = [{price = 4}]} -> 3}]} => 2
{period = "peak", tiers = [{price = 4}]} -> {period = "off"} => 4
{period = "peak", tiers = [{price = 4}]} -> {period = "off", tiers = 4} => 4
{period = "peak", tiers = [{price = 4}]} -> {period = "off", tiers = [{upto = 2, price = 1},
   {upto = 2, price = 1}, {price = 1}]} => 4
{period = "peak", tiers = [{price = 4}]} -> {period = "peak"} => 2"##;

const TIERS: &str = r##"tiers = [{price = 4}] -> xtiers = [{price = 4}] => 2
tiers = [{price = 4}] -> tiers = 4 => 3
tiers = [{price = 4}] -> tiers = [] => 4
tiers = [{price = 4}] -> tiers = [4] => 3
tiers = [{price = 4}] -> tiers = [0, 0, 0, 0, 0, 0, 0, 0, 0] => 8
tiers = [{price = 4}] -> tiers = [0, 0, 0, 0, 0, 0, 0, 0] => 3
{upto = 100, price = 1} -> {price = 1} => 2
{upto = 100, price = 1} -> {upto = "100", price = 1} => 3
{upto = 100, price = 1} -> {upto = 0, price = 1} => 4
{upto = 100, price = 1} -> {upto = 1, price = 1} => 0
{upto = 100, price = 1} -> {upto = 199, price = 1} => 0
{upto = 100, price = 1} -> {upto = 200, price = 1} => 7
{upto = 200, price = 2} -> {upto = 100, price = 2} => 7
{upto = 200, price = 2} -> {upto = 4000000000000000000, price = 2} => 0
{upto = 200, price = 2} -> {upto = 4000000000000000001, price = 2} => 4
{price = 3} -> {upto = "x", price = 3} => 0
{upto = 100, price = 1} -> {upto = 100} => 2
{upto = 100, price = 1} -> {upto = 100, price = "1"} => 3
{upto = 100, price = 1} -> {upto = 100, price = -1} => 4
{upto = 100, price = 1} -> {upto = 100, price = 0} => 0
{upto = 100, price = 1} -> {upto = 100, price = 1000000000} => 0
{upto = 100, price = 1} -> {upto = 100, price = 1000000001} => 4"##;

const THREE_GROUPS: &str =
    r##"[[week]]|period = "off"|days = [6, 7]|from = "00:00"|to = "24:00"|[[group]]|id = 10 ->
   [[group]]|id = 10 => 6
zone = "+00:00" -> zone = "+14:30" => 4
{period = "off", tiers = [{upto = 100, price = 0}, {price -> {period = "off", tiers = [{upto =
   100, price = 0}, {upto = 100, price = 0}, {price => 7
90000}]}, {period = "peak", tiers = [{price = 90000}]} -> 90000}]} => 2
[[week]]|period = "peak" -> [[week]]|period = "night" => 5
id = 20 -> id = 10 => 4
id = 20 -> id = 30 => 4
currency = 978 -> currency = 978|more = 5 => 0
id = 30 -> id = 31 => 0"##;

/// Keys that the format doesn't name, kinds that it has no key of, and what TOML refuses: a doubled
/// key, a whole number of more than 64 bits.
const OTHER_KEYS: &str = r##"{period = "off", days -> {more = 1, period = "off", days => 0
group = [{id = 10 -> group = [{more = "x", id = 10 => 0
{period = "peak", tiers -> {more = [], period = "peak", tiers => 0
{price = 4} -> {price = 4, more = {}} => 0
currency = 978 -> currency = 978|currency = 978 => 1
{id = 10 -> {id = 10, id = 10 => 1
978 -> 9223372036854775808 => 1
978 -> 9223372036854775807 => 4
"+00:00" -> 2026-01-05 => 3
978 -> 2026-01-05T08:00:00Z => 3
from = "00:00" -> from = 00:00:00 => 3"##;

/// Of two faults the first in the order of the keys is reported.
const ORDER: &str = r##"+00:00 -> +14:30 & currency -> xcurrency => 4
978 -> "x" & validity -> xvalidity => 3
validity = 3600 -> validity = 1 & periods -> xperiods => 4
periods = ["off", "peak"] -> periods = ["off", "off"] & week = [ -> weeks = [ => 4
08:30"} -> 08:29"} & group = [ -> groups = [ => 6
group = [ -> groups = [ & {period = "off", days -> {period = "night", days => 5
from = "00:00", to = "08:30" -> from = "00:00", to = "x" & {period = "peak", days -> {period =
   "night", days => 4
days = [1, 2, 3, 4, 5, 6, 7] -> days = [1, 2, 3, 4, 5, 6, 7, 7] & from = "00:00" -> xfrom =
   "00:00" => 8
days = [1, 2, 3, 4, 5, 6, 7] -> days = [9] & from = "00:00" -> from = 0 => 4
id = 10 -> id = -1 & unit = "time" -> unit = 5 => 4
slice = 600 -> slice = 3601 & cycle -> xcycle => 4
slice = 600 -> slice = 3601 & max_grant -> xmax_grant => 2
max_grant = 3600 -> max_grant = 1 & cycle -> xcycle => 4
final = "terminate" -> final = "stop" & price = [{period = "off", tiers -> prices = [{period =
   "off", tiers => 4
final = "terminate" -> final = "redirect", redirect = "" & price = [{period = "off", tiers ->
   prices = [{period = "off", tiers => 4
{upto = 100, price = 1} -> {upto = 100} & {period = "peak", tiers -> {period = "night", tiers => 2
{upto = 200, price = 2} -> {upto = 50, price = "2"} & 978 -> 977 => 7
{upto = 100, price = 1} -> {upto = 100, price = "1"} & {upto = 200, price = 2} -> {upto = 50,
   price = 2} => 3
periods = ["off", "peak"] -> periods = ["off", "peak", "dusk"] & {period = "peak", tiers ->
   {period = "night", tiers => 5
periods = ["off", "peak"] -> periods = ["off", "peak", "dusk"] & id = 10 -> id = -1 => 4
zone =  -> zone = =  & currency -> xcurrency => 1"##;

fn try_small(rt: &impl Abort, alloc: Global, document: &str) {
    let tables = [
        ZONE_AND_NUMBERS,
        PERIODS,
        WEEK,
        MINUTES,
        GROUP_HEAD,
        AMOUNTS,
        CYCLE_AND_FINAL,
        PRICES,
        TIERS,
        OTHER_KEYS,
        ORDER,
    ];
    for cases in &tables {
        try_table(rt, alloc, &mut Changes { document }, cases);
    }
}

/// The small book on fewer lines, as the texts of the changes have them.
fn small(rt: &impl Abort, alloc: Global) -> String {
    SMALL.replace(alloc, "\n  ", "").expect(rt, "memory")
}

// rule: book-text.book-of, zone-text
#[test]
fn faults_of_the_small_book(rt: HostRuntime) {
    try_small(&rt, rt.alloc(), small(&rt, rt.alloc()).as_str());
}

// rule: book-text
#[test]
fn faults_of_the_worked_book(rt: HostRuntime) {
    try_table(
        &rt,
        rt.alloc(),
        &mut Changes { document: BOOK },
        THREE_GROUPS,
    );
}

fn try_bytes(rt: &impl Abort, alloc: Global, bytes: &[u8], fault: u8) {
    let told = outcome(alloc, bytes);
    assert_eq!(rt; told, fault, "{bytes:?}");
}

#[test]
fn bytes_with_no_change(rt: HostRuntime) {
    try_bytes(&rt, rt.alloc(), b"", 2);
    try_bytes(&rt, rt.alloc(), b"zone", 1);
    try_bytes(&rt, rt.alloc(), &[0xFF], 1);
    try_bytes(&rt, rt.alloc(), BOOK.as_bytes(), 0);
    let small = small(&rt, rt.alloc());
    try_bytes(&rt, rt.alloc(), small.as_str().as_bytes(), 0);
}
