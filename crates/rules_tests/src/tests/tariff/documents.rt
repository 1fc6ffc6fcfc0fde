//! The documents of the tests.

use std::alloc::Global;
use std::process::Abort;

/// A small book, each of whose members can be changed by a replacement of its text. A line that
/// begins with two spaces goes on with the one before it.
pub(crate) const SMALL: &str = r#"zone = "+00:00"
currency = 978
validity = 3600
periods = ["off", "peak"]
week = [{period = "off", days = [1, 2, 3, 4, 5, 6, 7], from = "00:00", to = "08:30"},
   {period = "peak", days = [7, 6, 5, 4, 3, 2, 1], from = "08:30", to = "24:00"}]
group = [{id = 10, unit = "time", block = 60, slice = 600, max_grant = 3600, cycle = "none",
   final = "terminate", price = [{period = "off", tiers = [{upto = 100, price = 1},
   {upto = 200, price = 2}, {price = 3}]}, {period = "peak", tiers = [{price = 4}]}]}]
"#;

/// A minute of the day as `hh:mm`.
fn clock_text(rt: &impl Abort, alloc: Global, minute: u32) -> String {
    let hour = minute / 60;
    let rest = minute % 60;
    let text = format!(in alloc; "{}{}:{}{}", hour / 10, hour % 10, rest / 10, rest % 10);
    text.expect(rt, "memory")
}

/// An entry of the week, from a minute of its days to another.
pub(crate) fn entry(
    rt: &impl Abort,
    alloc: Global,
    period: &str,
    days: &str,
    from: u32,
    to: u32,
) -> String {
    let from = clock_text(rt, alloc, from);
    let to = clock_text(rt, alloc, to);
    let head = format!(in alloc; "[[week]]\nperiod = \"{period}\"\ndays = [{days}]\n");
    let head = head.expect(rt, "memory");
    format!(in alloc; "{head}from = \"{from}\"\nto = \"{to}\"\n").expect(rt, "memory")
}

/// Of each four entries the second and third are of one period.
fn period_of(number: u32) -> &'static str {
    match number % 4 {
        0 => "a",
        1 | 2 => "b",
        _ => "c",
    }
}

/// So many entries of equal length in some days, numbered on.
fn slices(rt: &impl Abort, alloc: Global, days: &str, first: u32, count: u32) -> String {
    let mut text = String::new(alloc);
    let length = 1440_u32.checked_div(count).expect(rt, "a count");
    for i in 0..count {
        let number = first.checked_add(i).expect(rt, "a number");
        let from = length.checked_mul(i).expect(rt, "a minute");
        let to = from.checked_add(length).expect(rt, "a minute");
        let entry = entry(rt, alloc, period_of(number), days, from, to);
        text.push_str(entry.as_str()).expect(rt, "memory");
    }
    text
}

/// A book with one entry for the whole week.
pub(crate) fn whole_week(rt: &impl Abort, alloc: Global, zone: &str) -> String {
    let week = slices(rt, alloc, "1, 2, 3, 4, 5, 6, 7", 0, 1);
    book_of(rt, alloc, zone, week.as_str())
}

/// A book whose weekdays and weekends have so many entries of equal length.
pub(crate) fn sliced(
    rt: &impl Abort,
    alloc: Global,
    zone: &str,
    weekdays: u32,
    weekend: u32,
) -> String {
    let workdays = slices(rt, alloc, "1, 2, 3, 4, 5", 0, weekdays);
    let others = slices(rt, alloc, "6, 7", weekdays, weekend);
    let week = format!(in alloc; "{workdays}{others}").expect(rt, "memory");
    book_of(rt, alloc, zone, week.as_str())
}

/// The book of a week's entries, with one group: an event costs 1, 2 or 3 by its period.
fn book_of(rt: &impl Abort, alloc: Global, zone: &str, week: &str) -> String {
    let head = format!(in alloc; "zone = \"{zone}\"\ncurrency = 978\nvalidity = 43200\n");
    let head = head.expect(rt, "memory");
    let group = group(rt, alloc, 1, ONE_TWO_THREE);
    let text = format!(in alloc; "{head}periods = [\"a\", \"b\", \"c\"]\n{week}{group}");
    text.expect(rt, "memory")
}

const ONE_TWO_THREE: &str = "{period = \"a\", tiers = [{price = 1}]},
  {period = \"b\", tiers = [{price = 2}]}, {period = \"c\", tiers = [{price = 3}]}";

/// A group of single events but for its number and its prices.
const EVENTS: &str = "unit = \"events\"
block = 1
slice = 1
max_grant = 1
cycle = \"none\"
final = \"terminate\"
";

/// A group of single events by its number and the prices of its periods.
pub(crate) fn group(rt: &impl Abort, alloc: Global, number: u32, prices: &str) -> String {
    let text = format!(in alloc; "[[group]]\nid = {number}\n{EVENTS}price = [{prices}]\n");
    text.expect(rt, "memory")
}

/// The prices of a period by its tiers, before those of another.
pub(crate) fn price(rt: &impl Abort, alloc: Global, period: &str, tiers: &str) -> String {
    let text = format!(in alloc; "{{period = \"{period}\", tiers = [{tiers}]}}, ");
    text.expect(rt, "memory")
}
