//! Where the days of a voucher end, in zones from -14:00 to +14:00. The expected values are those
//! of Python's `datetime` with a fixed offset.

use crate::tests::tables::{Teller, Words, try_table};
use crate::tests::values::moment;
use crate::tests::voucher::office::{Days, days_of, optional, terms};
use std::alloc::Global;
use std::process::Abort;

/// Tells of a moment and a number of days, or `-`, the end of a bucket of 1 micro-unit, or `none`.
#[derive(Drop)]
struct Ends {
    days: Days,
}

impl Teller for Ends {
    fn tell<R: Abort>(&mut self, rt: &R, alloc: Global, case: &str) -> String {
        let mut words = Words::of(case);
        let at = moment(rt, words.number(rt));
        let terms = terms(rt, 1, optional(rt, words.word()), None).expect(rt, "terms");
        match terms.bucket_end(at, &self.days) {
            Some(end) => format!(in alloc; "{}", end.seconds()).expect(rt, "memory"),
            None => String::from_str(alloc, "none").expect(rt, "memory"),
        }
    }
}

fn try_ends(rt: &impl Abort, alloc: Global, minutes: i16, cases: &str) {
    let days = days_of(rt, alloc, minutes);
    try_table(rt, alloc, &mut Ends { days }, cases);
}

const UTC: &str = "\
1767607200 30 => 1770249600
1767607200 90 => 1775433600
1767607200 7 => 1768262400
1767607200 - => 4102444800
1767571199 1 => 1767657600
1767571200 1 => 1767744000
1709164799 1 => 1709251200
1709164800 1 => 1709337600
0 3650 => 315446400
3786998399 3650 => 4102358400
3786998400 3650 => none
4102271999 1 => 4102358400
4102272000 1 => none
4102444799 1 => none
4102444799 - => 4102444800";

const AN_HOUR_AHEAD: &str = "\
4102351199 1 => 4102441200
4102354799 1 => 4102441200
4102354800 1 => none
4102441199 1 => none";

const FOURTEEN_HOURS_AHEAD: &str = "\
1767607200 30 => 1770285600
0 1 => 122400";

const FOURTEEN_HOURS_BEHIND: &str = "\
1767607200 30 => 1770213600
4102271999 1 => 4102408800
4102343999 1 => none";

const NEPAL: &str = "\
1767607200 30 => 1770228900
1767636899 1 => 1767723300
1767636900 1 => 1767809700";

// rule: voucher-end
#[test]
fn ends_of_days(rt: HostRuntime) {
    try_ends(&rt, rt.alloc(), 0, UTC);
    try_ends(&rt, rt.alloc(), 60, AN_HOUR_AHEAD);
    try_ends(&rt, rt.alloc(), 840, FOURTEEN_HOURS_AHEAD);
    try_ends(&rt, rt.alloc(), -840, FOURTEEN_HOURS_BEHIND);
    try_ends(&rt, rt.alloc(), 345, NEPAL);
}
