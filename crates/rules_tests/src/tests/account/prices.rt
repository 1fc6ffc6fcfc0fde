//! Prices and grants of worked sessions. The expected values are reckoned by hand from the book's
//! prices: seconds in blocks of 60 at 50000 or 100000 micro-units a block; octets in blocks of
//! 1048576, of which the first 100 of a month are free and the others cost 10000; and events at
//! 90000. What tiers give is compared with a sum over blocks.

use crate::tests::tables::{Teller, Words, try_table};
use crate::tests::tariff::documents::{group, price};
use crate::tests::values::book;
use calendar::Period;
use rating::{Grant, Means, Part, greatest_grant, rate, rate_report};
use std::alloc::Global;
use std::process::Abort;
use tariffs::{Prices, Side, TariffBook, Tier};
use units::{Amount, Blocks, Units};
use worked_book::BOOK;

const OFF: Period = Period(0);

const PEAK: Period = Period(1);

/// Two periods, each of half of every day.
const HALF_DAYS: &str = r#"zone = "+00:00"
currency = 978
validity = 3600
periods = ["off", "peak"]
week = [{period = "off", days = [1, 2, 3, 4, 5, 6, 7], from = "00:00", to = "12:00"},
  {period = "peak", days = [1, 2, 3, 4, 5, 6, 7], from = "12:00", to = "24:00"}]
"#;

/// Groups by their tiers in the first period and in the dearer one. Group 40: the first 400000000 at
/// 2 and the others at 3, or in the dearer period the first 600000000 at 1 and the others at 7.
/// Groups 1 to 3: up to eight tiers with low bounds.
const TIERS: &str = "\
40 {upto = 400000000, price = 2}, {price = 3}; {upto = 600000000, price = 1}, {price = 7}
1 {upto = 1, price = 5}, {price = 3}; {upto = 2, price = 4}, {upto = 3, price = 9}, {price = 0}
2 {upto = 1, price = 1}, {upto = 2, price = 9}, {upto = 3, price = 2}, {upto = 4, price = 8},
   {upto = 5, price = 3}, {upto = 6, price = 7}, {upto = 7, price = 4}, {price = 6};
   {upto = 2, price = 6}, {upto = 3, price = 0}, {upto = 5, price = 5}, {upto = 7, price = 10},
   {upto = 11, price = 1}, {upto = 13, price = 2}, {upto = 17, price = 3}, {price = 4}
3 {price = 7}; {upto = 10, price = 0}, {price = 20}";

/// The group of a line, `NUMBER TIERS; TIERS`.
fn group_of_tiers(rt: &impl Abort, alloc: Global, line: &str) -> String {
    let mut words = Words::of(line);
    let number = words.number(rt);
    let (off, peak) = words.rest().split_once("; ").expect(rt, "two periods");
    let (off, peak) = (price(rt, alloc, "off", off), price(rt, alloc, "peak", peak));
    let prices = format!(in alloc; "{off}{peak}").expect(rt, "memory");
    group(rt, alloc, number, prices.as_str())
}

/// The book of two half days with a group for each line of `TIERS`.
fn book_of_tiers(rt: &impl Abort, alloc: Global) -> TariffBook {
    let mut text = String::from_str(alloc, HALF_DAYS).expect(rt, "memory");
    let lines = TIERS.replace(alloc, "\n  ", "").expect(rt, "memory");
    for line in lines.as_str().lines() {
        let group = group_of_tiers(rt, alloc, line);
        text.push_str(group.as_str()).expect(rt, "memory");
    }
    book(rt, alloc, text.as_str())
}

/// The prices of a group before a switch and after it.
fn prices_of<'b>(
    rt: &impl Abort,
    book: &'b TariffBook,
    group: u32,
    before: Period,
    after: Period,
) -> Prices<'b> {
    let prices = book.prices(group, before, after);
    prices.expect(rt, "a group of the book")
}

/// The side of a switch: `before` it or `after` it.
fn side(word: &str) -> Side {
    if word == "before" {
        Side::Before
    } else {
        Side::After
    }
}

/// Tells what the rules say of the prices of a book.
#[derive(Clone, Copy)]
struct Rater<'b> {
    book: &'b TariffBook,
}

impl Teller for Rater<'_> {
    fn tell<R: Abort>(&mut self, rt: &R, alloc: Global, case: &str) -> String {
        let mut words = Words::of(case);
        match words.word() {
            "grant" => grant(rt, alloc, self.book, &mut words),
            "rate" => rated(rt, alloc, self.book, &mut words),
            "report" => reported(rt, alloc, self.book, &mut words),
            "allowed" => allowed(rt, alloc, self.book, &mut words),
            "covered" => covered(rt, alloc, self.book, &mut words),
            _ => otherwise(rt, alloc, self.book, &mut words),
        }
    }
}

/// `GROUP BEFORE USED PLACE WANTED FUNDS`: the blocks of the greatest grant, its units and its
/// price, where the first period is that before the switch.
fn grant(rt: &impl Abort, alloc: Global, book: &TariffBook, words: &mut Words<'_>) -> String {
    let (group, before) = (words.number(rt), words.number(rt));
    let (used, place) = (Units(words.number(rt)), words.number(rt));
    let (wanted, funds) = (Units(words.number(rt)), Amount(words.number(rt)));
    let prices = prices_of(rt, book, group, Period(before), PEAK);
    let means = Means {
        allowance: Blocks(0),
        funds,
    };
    let grant = greatest_grant(&prices, used, place, wanted, means);
    grant_text(rt, alloc, grant)
}

/// `GROUP BEFORE USED PLACE WANTED FUNDS ALLOWANCE`: the blocks of the greatest grant that the
/// allowance covers, those after them, its units and its price.
fn allowed(rt: &impl Abort, alloc: Global, book: &TariffBook, words: &mut Words<'_>) -> String {
    let (group, before) = (words.number(rt), words.number(rt));
    let (used, place) = (Units(words.number(rt)), words.number(rt));
    let (wanted, funds) = (Units(words.number(rt)), Amount(words.number(rt)));
    let prices = prices_of(rt, book, group, Period(before), PEAK);
    let allowance = Blocks(words.number(rt));
    let means = Means { allowance, funds };
    let grant = greatest_grant(&prices, used, place, wanted, means);
    let text = grant_text(rt, alloc, grant);
    format!(in alloc; "{} {text}", grant.allowed.0).expect(rt, "memory")
}

fn grant_text(rt: &impl Abort, alloc: Global, grant: Grant) -> String {
    let (blocks, units, amount) = (grant.blocks.0, grant.units.0, grant.amount.0);
    format!(in alloc; "{blocks} {units} {amount}").expect(rt, "memory")
}

/// `GROUP SIDE PLACE BLOCKS`: the price of so many blocks after a place.
fn rated(rt: &impl Abort, alloc: Global, book: &TariffBook, words: &mut Words<'_>) -> String {
    let (group, side) = (words.number(rt), side(words.word()));
    let (place, blocks) = (words.number(rt), Blocks(words.number(rt)));
    let amount = rate(&prices_of(rt, book, group, OFF, PEAK), side, place, blocks);
    format!(in alloc; "{}", amount.0).expect(rt, "memory")
}

/// `GROUP USED PLACE SIDE UNITS SIDE UNITS`: the rated amount and the blocks of a report of two
/// parts.
fn reported(rt: &impl Abort, alloc: Global, book: &TariffBook, words: &mut Words<'_>) -> String {
    let (group, used, place) = (words.number(rt), Units(words.number(rt)), words.number(rt));
    let parts = [part(rt, words), part(rt, words), NONE, NONE];
    let prices = prices_of(rt, book, group, OFF, PEAK);
    let rated = rate_report(&prices, used, place, Blocks(0), &parts);
    let (amount, blocks) = (rated.amount.0, rated.blocks);
    format!(in alloc; "{amount} {blocks}").expect(rt, "memory")
}

/// `GROUP USED PLACE COVERED SIDE UNITS SIDE UNITS`: the rated amount and the blocks of a report of
/// two parts whose first blocks may be covered, and how many are.
fn covered(rt: &impl Abort, alloc: Global, book: &TariffBook, words: &mut Words<'_>) -> String {
    let (group, used, place) = (words.number(rt), Units(words.number(rt)), words.number(rt));
    let most = Blocks(words.number(rt));
    let parts = [part(rt, words), part(rt, words), NONE, NONE];
    let prices = prices_of(rt, book, group, OFF, PEAK);
    let rated = rate_report(&prices, used, place, most, &parts);
    let (amount, blocks, covered) = (rated.amount.0, rated.blocks, rated.covered.0);
    format!(in alloc; "{amount} {blocks} {covered}").expect(rt, "memory")
}

fn part(rt: &impl Abort, words: &mut Words<'_>) -> Part {
    Part {
        side: side(words.word()),
        units: Units(words.number(rt)),
    }
}

const NONE: Part = Part {
    side: Side::After,
    units: Units(0),
};

/// Group 10 at 07:30, half an hour before the dearer period: ten blocks, and one micro-unit less.
/// Within the dearer period: two blocks; after 61 seconds, when the second block runs on to 120;
/// and after 60.
/// Group 20 up to the last free block but one, and then over it.
const GRANTS: &str = "\
grant 10 0 0 0 600 1000000 => 10 600 1000000
grant 10 0 0 0 600 999999 => 9 540 900000
grant 10 1 0 0 600 250000 => 2 120 200000
grant 10 1 61 2 600 800000 => 8 539 800000
grant 10 1 61 2 600 99999 => 0 59 0
grant 10 1 60 1 600 99999 => 0 0 0
grant 20 1 0 0 103809024 50000 => 99 103809024 0
grant 20 1 103809024 99 2097152 50000 => 2 2097152 10000";

/// Of a thousand million blocks of the book all but the first 100 at 10000, and all at 90000.
const RATES: &str = "\
rate 20 before 99 2 => 10000
rate 20 before 18446744073709551615 2 => 20000
rate 20 before 0 1000000000 => 9999999000000
rate 30 after 0 1000000000 => 90000000000000";

/// 300 seconds before the dearer period and 90 in it; 61 seconds, and then the 59 that are left of
/// the second block; the last free block and the first one that isn't.
const REPORTS: &str = "\
report 10 0 0 before 300 after 90 => 450000 7
report 10 0 0 after 61 after 0 => 200000 2
report 10 61 2 after 59 after 0 => 0 0
report 20 0 0 after 103809024 after 0 => 0 99
report 20 103809024 99 after 2097152 after 0 => 10000 2";

/// Five blocks within the dearer period: an allowance of three, and of more than are wanted; none
/// of it and no funds but for one block; an allowance alone.
/// Group 20: two blocks that an allowance covers keep the last free place and the one after it.
const ALLOWED: &str = "\
allowed 10 1 0 0 300 1000000 3 => 3 2 300 200000
allowed 10 1 0 0 300 1000000 1000000000 => 5 0 300 0
allowed 10 1 0 0 300 100000 0 => 0 1 60 100000
allowed 10 1 0 0 600 0 2 => 2 0 120 0
allowed 20 1 103809024 99 4194304 50000 2 => 2 2 4194304 20000
allowed 30 1 0 0 1000000001 90000 1000000000 => 1000000000 1 1000000001 90000";

/// Four minutes of which three are covered; three of which three may be, and nothing is due; five
/// before the dearer period and two in it, of which six are covered.
/// Group 20: the last free block is covered, and the one after it isn't free.
const COVERED: &str = "\
covered 10 0 0 3 after 240 after 0 => 100000 4 3
covered 10 0 0 3 after 180 after 0 => 0 3 3
covered 10 0 0 3 after 60 after 0 => 0 1 1
covered 10 0 0 6 before 300 after 90 => 100000 7 6
covered 20 103809024 99 1 after 2097152 after 0 => 10000 2 1
covered 30 0 0 1000000000 after 1000000001 after 0 => 90000 1000000001 1000000000";

// rule: cutting, cutting.cuts-alike, wanted, grant-units
#[test]
fn prices_of_the_worked_book(rt: HostRuntime) {
    let book = book(&rt, rt.alloc(), BOOK);
    for cases in &[GRANTS, ALLOWED, RATES, REPORTS, COVERED] {
        try_table(&rt, rt.alloc(), &mut Rater { book: &book }, cases);
    }
}

/// A thousand million blocks of group 40, and grants of as many with a switch to the dearer period:
/// the dearer prices are 2 up to 400000000, 3 up to 600000000, and then 7.
const MANY_BLOCKS: &str = "\
rate 40 before 0 1000000000 => 2600000000
rate 40 after 0 1000000000 => 3400000000
rate 40 before 399999999 1000000000 => 2999999999
rate 40 after 600000000 1000000000 => 7000000000
grant 40 0 0 0 1000000000 4200000000 => 1000000000 1000000000 4200000000
grant 40 0 0 0 1000000000 4199999999 => 999999999 999999999 4199999993
grant 40 0 0 0 1000000000 800000002 => 400000000 400000000 800000000
allowed 40 0 0 0 1000000000 3100000000 500000000 => 500000000 500000000 1000000000 3100000000
allowed 40 0 0 0 1000000000 3099999999 500000000 => 500000000 499999999 999999999 3099999993
covered 40 0 0 500000000 before 600000000 after 400000000 => 3100000000 1000000000 500000000
covered 40 0 0 700000000 before 600000000 after 400000000 => 2100000000 1000000000 700000000";

// rule: grant-greatest, rating-steps
#[test]
fn a_billion_blocks(rt: HostRuntime) {
    let book = book_of_tiers(&rt, rt.alloc());
    try_table(&rt, rt.alloc(), &mut Rater { book: &book }, MANY_BLOCKS);
}

/// The price of the block at a place, by a look at one tier after another.
fn price_at(tiers: &[Tier], place: u64) -> u128 {
    for tier in tiers {
        match tier.upto {
            Some(bound) => {
                if place <= bound {
                    return u128::from(tier.price);
                }
            }
            None => return u128::from(tier.price),
        }
    }
    0
}

/// The prices of some blocks after a place, summed one by one.
fn sum_by_blocks(tiers: &[Tier], place: u64, blocks: u64) -> u128 {
    let mut total: u128 = 0;
    for i in 0..blocks {
        let next = place.saturating_add(i).saturating_add(1);
        total = total.saturating_add(price_at(tiers, next));
    }
    total
}

/// The blocks that funds cover at the dearer of two prices, one by one, with their sum.
fn covered_by_blocks(before: &[Tier], after: &[Tier], place: u64, funds: u128) -> (u64, u128) {
    let mut total: u128 = 0;
    for i in 0..20 {
        let next = place.saturating_add(i).saturating_add(1);
        let more = total.saturating_add(price_at(before, next).max(price_at(after, next)));
        if funds < more {
            return (i, total);
        }
        total = more;
    }
    (20, total)
}

/// At how many places the rated amount of some blocks isn't the sum over them.
fn rated_otherwise(prices: &Prices, side: Side, blocks: u64) -> u64 {
    let mut count: u64 = 0;
    for place in 0..20 {
        let sum = sum_by_blocks(prices.tiers(side), place, blocks);
        if rate(prices, side, place, Blocks(blocks)).0 != sum {
            count = count.saturating_add(1);
        }
    }
    count
}

/// At how many places the grant of 20 blocks isn't what the funds cover one by one.
fn granted_otherwise(prices: &Prices, funds: u128) -> u64 {
    let mut count: u64 = 0;
    let means = Means {
        allowance: Blocks(0),
        funds: Amount(funds),
    };
    for place in 0..20 {
        let (before, after) = (prices.tiers(Side::Before), prices.tiers(Side::After));
        let (blocks, amount) = covered_by_blocks(before, after, place, funds);
        let grant = greatest_grant(prices, Units(0), place, Units(20), means);
        if (grant.blocks.0, grant.units.0, grant.amount.0) != (blocks, blocks, amount) {
            count = count.saturating_add(1);
        }
    }
    count
}

/// How often tiers and blocks differ, over places, numbers of blocks, sides and funds.
fn told_otherwise(prices: &Prices) -> u64 {
    let mut count: u64 = 0;
    for n in 0..20 {
        for side in [Side::Before, Side::After] {
            count = count.saturating_add(rated_otherwise(prices, side, n));
        }
        count = count.saturating_add(granted_otherwise(prices, u128::from(n) * 5));
    }
    count
}

/// `GROUP BEFORE AFTER`: how often tiers and blocks differ in two periods.
fn otherwise(rt: &impl Abort, alloc: Global, book: &TariffBook, words: &mut Words<'_>) -> String {
    let (group, before) = (words.number(rt), Period(words.number(rt)));
    let prices = prices_of(rt, book, group, before, Period(words.number(rt)));
    format!(in alloc; "{}", told_otherwise(&prices)).expect(rt, "memory")
}

const OTHERWISE: &str = "\
otherwise 1 0 0 => 0
otherwise 1 0 1 => 0
otherwise 1 1 0 => 0
otherwise 2 0 0 => 0
otherwise 2 0 1 => 0
otherwise 2 1 0 => 0
otherwise 3 0 0 => 0
otherwise 3 0 1 => 0
otherwise 3 1 0 => 0";

// rule: rated-amount
#[test]
fn tiers_tell_what_blocks_do(rt: HostRuntime) {
    let book = book_of_tiers(&rt, rt.alloc());
    try_table(&rt, rt.alloc(), &mut Rater { book: &book }, OTHERWISE);
}
