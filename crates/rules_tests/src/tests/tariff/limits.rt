//! Books with as many entries, groups, periods and tiers as there may be, and with one more.

use crate::tests::tables::{Teller, Words, try_table};
use crate::tests::tariff::documents::{entry, group, price};
use crate::tests::tariff::faults::outcome;
use std::alloc::Global;
use std::process::Abort;

const HEAD: &str = "zone = \"+00:00\"
currency = 978
validity = 3600
periods = [\"a\", \"b\", \"c\", \"d\", \"e\", \"f\", \"g\", \"h\"]
";

/// So many entries: each of a minute of each day, and the last of what is left of the days.
fn week(rt: &impl Abort, alloc: Global, count: u32) -> String {
    let mut text = String::new(alloc);
    for minute in 0..count {
        let to = if minute + 1 == count {
            1440
        } else {
            minute + 1
        };
        let entry = entry(rt, alloc, "h", "1, 2, 3, 4, 5, 6, 7", minute, to);
        text.push_str(entry.as_str()).expect(rt, "memory");
    }
    text
}

/// So many tiers, each of one place but the last.
fn tiers(rt: &impl Abort, alloc: Global, count: u32) -> String {
    let mut text = String::new(alloc);
    for upto in 1..count {
        let tier = format!(in alloc; "{{upto = {upto}, price = {upto}}}, ").expect(rt, "memory");
        text.push_str(tier.as_str()).expect(rt, "memory");
    }
    text.push_str("{price = 1000000000}").expect(rt, "memory");
    text
}

/// The prices of the eight periods, each with so many tiers.
fn prices(rt: &impl Abort, alloc: Global, count: u32) -> String {
    let tiers = tiers(rt, alloc, count);
    let mut text = String::new(alloc);
    for period in "a b c d e f g h".split(" ") {
        let price = price(rt, alloc, period, tiers.as_str());
        text.push_str(price.as_str()).expect(rt, "memory");
    }
    text
}

/// So many groups of the same prices.
fn groups(rt: &impl Abort, alloc: Global, count: u32, prices: &str) -> String {
    let mut text = String::new(alloc);
    for number in 0..count {
        let group = group(rt, alloc, number, prices);
        text.push_str(group.as_str()).expect(rt, "memory");
    }
    text
}

/// Tells the fault of a book of so many entries and groups, with so many tiers in each of eight
/// periods.
#[derive(Clone, Copy)]
struct Sizes;

impl Teller for Sizes {
    fn tell<R: Abort>(&mut self, rt: &R, alloc: Global, case: &str) -> String {
        let mut words = Words::of(case);
        let week = week(rt, alloc, words.number(rt));
        let count = words.number(rt);
        let prices = prices(rt, alloc, words.number(rt));
        let groups = groups(rt, alloc, count, prices.as_str());
        let text = format!(in alloc; "{HEAD}{week}{groups}").expect(rt, "memory");
        let told = outcome(alloc, text.as_str().as_bytes());
        format!(in alloc; "{told}").expect(rt, "memory")
    }
}

const SIZES: &str = "\
64 64 8 => 0
65 1 1 => 8
1 65 1 => 8
1 1 9 => 8";

// rule: switch-steps.change
#[test]
fn full_books(rt: HostRuntime) {
    try_table(&rt, rt.alloc(), &mut Sizes, SIZES);
}
