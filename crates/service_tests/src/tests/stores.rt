//! Requests that come twice over a store that fails at each of its calls in turn.

use crate::tests::accounts::{HALF_PAID, ask_all, clock, moment, shelf};
use crate::tests::connections::told_by;
use crate::tests::months::STATEMENT;
use crate::tests::requests::{EXISTS, FIRST_BUCKET, OPEN, OPENED, UNABLE, request};
use identifiers::VoucherCode;
use keepers::{Failing, Keeper, MemoryKeeper};
use shelves::TariffShelf;
use std::alloc::Global;
use std::process::Abort;
use units::Money;
use voucher_rules::VoucherTerms;

/// What is asked for twice.
#[derive(Clone, Copy)]
struct Twice<'a> {
    /// The lines that were served before.
    before: &'a str,
    /// The bytes of the request.
    request: &'a str,
    /// Its answer where it comes first.
    first: &'a str,
    /// Its answer where it came before.
    second: &'a str,
}

/// A keeper with a voucher of 30 days, and what the lines made.
fn keeper(rt: &impl Abort, alloc: Global, shelf: &TariffShelf, lines: &str) -> MemoryKeeper {
    let code = VoucherCode::new(alloc, "000000000001").expect(rt, "memory");
    let code = code.expect(rt, "a code");
    let amount = Money::new(5_000_000).expect(rt, "an amount");
    let terms = VoucherTerms::new(amount, Some(30), None).expect(rt, "terms");
    let mut keeper = MemoryKeeper::new(alloc);
    let added = keeper.add_voucher(code, terms, moment(rt, 1_767_571_200));
    added.expect(rt, "a voucher");
    ask_all(rt, alloc, shelf, &mut keeper, lines);
    keeper
}

/// What is written at five past ten for the two requests, where the store fails at the call after
/// so many.
fn told_after(
    rt: &impl Abort,
    alloc: Global,
    shelf: &TariffShelf,
    twice: Twice<'_>,
    calls: u64,
) -> String {
    let stream = twice.request.repeat(alloc, 2).expect(rt, "memory");
    let mut bytes = stream.as_bytes();
    let mut keeper = Failing::new(keeper(rt, alloc, shelf, twice.before), calls);
    let mut clock = clock(rt, 1_767_607_500);
    told_by(rt, alloc, shelf, &mut bytes, &mut keeper, &mut clock)
}

/// Whether these two answers are written, and no other.
fn are_told(told: &str, first: &str, second: &str) -> bool {
    match told.strip_prefix(first) {
        Some(rest) => rest.strip_prefix(second) == Some("\nserved 2"),
        None => false,
    }
}

/// Which of the two requests are served.
fn served_of(told: &str, twice: Twice<'_>) -> &'static str {
    if are_told(told, UNABLE, twice.first) {
        "second "
    } else if are_told(told, twice.first, UNABLE) {
        "first "
    } else if are_told(told, twice.first, twice.second) {
        "both "
    } else {
        "none "
    }
}

/// What is served where the store fails at its first call, then at its second, and so on.
fn served_in_turn<R: Abort>(rt: &R, alloc: Global, twice: Twice<'_>) -> String {
    let shelf = shelf(rt, alloc);
    let mut text = String::new(alloc);
    for calls in 0..24 {
        let told = told_after(rt, alloc, &shelf, twice, calls);
        text.push_str(served_of(told.as_str(), twice))
            .expect(rt, "memory");
    }
    text
}

/// The store fails at a call of the first request, then of the second, then no more: the other is
/// served.
fn is_served_in_turn(text: &str) -> bool {
    let rest = text.trim_start_matches("second ");
    let last = rest.trim_start_matches("first ");
    rest.len() < text.len()
        && last.len() < rest.len()
        && last.starts_with("both ")
        && last.trim_start_matches("both ").is_empty()
}

fn try_each_call(rt: &impl Abort, alloc: Global, twice: Twice<'_>) {
    let text = served_in_turn(rt, alloc, twice);
    assert!(rt; is_served_in_turn(text.as_str()), "{text}");
}

// rule: http-503
#[test]
fn an_opening_over_a_store_that_fails(rt: HostRuntime) {
    let opening = Twice {
        before: "",
        request: OPEN,
        first: OPENED,
        second: EXISTS,
    };
    try_each_call(&rt, rt.alloc(), opening);
}

#[test]
fn a_statement_over_a_store_that_fails(rt: HostRuntime) {
    let alloc = rt.alloc();
    let request = request(&rt, alloc, "GET /accounts/49151/statement/202601 ");
    let month = format!(in alloc;
        "HTTP/1.1 200 OK\r\nContent-Type: text/plain\r\nContent-Length: 541\r\n\r\n{STATEMENT}"
    ).expect(&rt, "memory");
    let statement = Twice {
        before: HALF_PAID,
        request: request.as_str(),
        first: month.as_str(),
        second: month.as_str(),
    };
    try_each_call(&rt, alloc, statement);
}

const REDEMPTION: &str =
    r#"POST /vouchers/000000000001/redeem {"Subscription-Id-Data":"49151","Reference":"v1"}"#;

#[test]
fn a_redemption_over_a_store_that_fails(rt: HostRuntime) {
    let alloc = rt.alloc();
    let request = request(&rt, alloc, REDEMPTION);
    let redemption = Twice {
        before: "1767607200 PUT /accounts/49151 ",
        request: request.as_str(),
        first: FIRST_BUCKET,
        second: FIRST_BUCKET,
    };
    try_each_call(&rt, alloc, redemption);
}
