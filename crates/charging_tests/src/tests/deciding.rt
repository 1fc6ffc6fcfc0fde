//! Requests on an account alone, without a keeper: what only the caller of a decision knows, and
//! which requests it has to know it of.

use crate::tests::lines::{dated, first_word};
use crate::tests::rows::{push, push_buckets, push_charges};
use crate::tests::scenarios::{assert_told, push_answer, shelf, whole_lines};
use commands::{Answer, Ask, Command, Request};
use decisions::{Decided, begins_session, decide, is_read, read};
use reserving::Account;
use std::alloc::Global;
use std::process::Abort;
use units::{Moment, Money};

/// The request of a line that begins with its moment.
pub(crate) fn request_of(rt: &impl Abort, alloc: Global, line: &str) -> (Request, Moment) {
    let dated = dated(rt, alloc, line);
    let moment = dated.moment;
    match dated.command {
        Command::Ccr(request) => (request, moment),
        _ => panic!(rt; "a request"),
    }
}

/// The answer, whether the request is accepted, and its charges.
fn push_decided(rt: &impl Abort, alloc: Global, text: &mut String, decided: Decided) {
    push_answer(rt, alloc, text, &Answer::Request(decided.answer));
    push(
        rt,
        text,
        if decided.accepted {
            "accepted "
        } else {
            "refused "
        },
    );
    push_charges(rt, text, decided.charges.as_slice());
}

/// What a request comes to that isn't read.
fn push_change(
    rt: &impl Abort,
    alloc: Global,
    text: &mut String,
    account: &mut Account,
    request: &Request,
    (known, at): (bool, Moment),
) {
    assert!(rt; account.as_of() <= at);
    let decided = decide(alloc, account, request, known, at).expect(rt, "memory");
    push_decided(rt, alloc, text, decided);
}

/// Whether a request is read; then what it comes to is written.
fn push_read(
    rt: &impl Abort,
    alloc: Global,
    text: &mut String,
    account: &Account,
    request: &Request,
    at: Moment,
) -> bool {
    assert!(rt; account.as_of() <= at);
    let Some(answer) = read(account, request, at).expect(rt, "memory") else {
        return false;
    };
    push_answer(rt, alloc, text, &Answer::Request(answer));
    push(rt, text, "read");
    true
}

/// What a request comes to that is read, or else decided.
fn push_told(
    rt: &impl Abort,
    alloc: Global,
    text: &mut String,
    account: &mut Account,
    request: &Request,
    (known, at): (bool, Moment),
) {
    if !push_read(rt, alloc, text, account, request, at) {
        push_change(rt, alloc, text, account, request, (known, at));
    }
}

/// What a line comes to, `known MOMENT REQUEST` where the caller knows the session, else `new
/// MOMENT REQUEST`; and the account's buckets after it.
fn told(rt: &impl Abort, alloc: Global, account: &mut Account, line: &str) -> String {
    let (word, line) = first_word(rt, line);
    let (request, at) = request_of(rt, alloc, line);
    let mut text = String::new(alloc);
    push_told(
        rt,
        alloc,
        &mut text,
        account,
        &request,
        (word == "known", at),
    );
    push(rt, &mut text, " ");
    push_buckets(rt, &mut text, account.purse().buckets());
    text
}

fn try_case(rt: &impl Abort, alloc: Global, account: &mut Account, case: &str) {
    let (line, expected) = case
        .split_once("\n")
        .expect(rt, "a line and what it comes to");
    let told = told(rt, alloc, account, line);
    assert_told(rt, told.as_str(), expected);
}

fn try_cases(rt: &impl Abort, alloc: Global, account: &mut Account, cases: &str) {
    for case in cases.split("\n\n") {
        try_case(rt, alloc, account, case);
    }
}

/// Gives an account its first bucket, of 1,000,000 micro-units that end with the last moment.
fn credit(rt: &impl Abort, account: &mut Account) {
    let amount = Money::new(1_000_000).expect(rt, "an amount");
    let (from, until) = (Moment::first(), Moment::no_end());
    assert!(rt; account.as_of() <= from);
    let number = account.credit(from, until, None, amount, from);
    assert_eq!(rt; number.expect(rt, "memory"), 1);
}

/// Tries cases with an empty line between them on an account of its own.
fn try_all(rt: &impl Abort, alloc: Global, cases: &str) {
    let shelf = shelf(rt, alloc);
    let cases = whole_lines(rt, alloc, cases);
    let mut account = Account::new(alloc, &shelf);
    credit(rt, &mut account);
    try_cases(rt, alloc, &mut account, cases.as_str());
}

/// Requests of a session that was left behind: the account has no row of it, and only the caller
/// knows it. Of a check nothing need be known.
const LEFT: &str = r##"known 1767607200 {"Session-Id":"s20","CC-Request-Type":1,
  "CC-Request-Number":0,"Subscription-Id":{"Subscription-Id-Type":0,"Subscription-Id-Data":"49151"},
  "Multiple-Services-Credit-Control":[{"Rating-Group":10,"Requested-Service-Unit":{}}]}
= {"CC-Request-Number":0,"CC-Request-Type":1,"Failed-AVP":"Session-Id","Result-Code":5004,
  "Session-Id":"s20"}
refused charges: buckets: (1000000; 1000000, 0, 0, 0)

known 1767607200 {"Session-Id":"s20","CC-Request-Type":4,"CC-Request-Number":0,
  "Subscription-Id":{"Subscription-Id-Type":0,"Subscription-Id-Data":"49151"},"Requested-Action":0,
  "Multiple-Services-Credit-Control":[{"Rating-Group":30,"Requested-Service-Unit":{}}]}
= {"CC-Request-Number":0,"CC-Request-Type":4,"Failed-AVP":"Session-Id","Result-Code":5004,
  "Session-Id":"s20"}
refused charges: buckets: (1000000; 1000000, 0, 0, 0)

known 1767607200 {"Session-Id":"s20","CC-Request-Type":4,"CC-Request-Number":0,
  "Subscription-Id":{"Subscription-Id-Type":0,"Subscription-Id-Data":"49151"},"Requested-Action":1,
  "Requested-Service-Unit":{"CC-Money":{"Unit-Value":{"Value-Digits":1,"Exponent":-6},
  "Currency-Code":978}}}
= {"CC-Request-Number":0,"CC-Request-Type":4,"Failed-AVP":"Session-Id","Result-Code":5004,
  "Session-Id":"s20"}
refused charges: buckets: (1000000; 1000000, 0, 0, 0)

known 1767607200 {"Session-Id":"s20","CC-Request-Type":4,"CC-Request-Number":0,
  "Subscription-Id":{"Subscription-Id-Type":0,"Subscription-Id-Data":"49151"},"Requested-Action":2,
  "Multiple-Services-Credit-Control":[{"Rating-Group":30,"Requested-Service-Unit":{}}]}
= {"CC-Request-Number":0,"CC-Request-Type":4,"Check-Balance-Result":0,"Result-Code":2001,
  "Session-Id":"s20"}
read buckets: (1000000; 1000000, 0, 0, 0)

new 1767607200 {"Session-Id":"s20","CC-Request-Type":4,"CC-Request-Number":0,
  "Subscription-Id":{"Subscription-Id-Type":0,"Subscription-Id-Data":"49151"},"Requested-Action":0,
  "Multiple-Services-Credit-Control":[{"Rating-Group":30,"Requested-Service-Unit":{}}]}
= {"CC-Request-Number":0,"CC-Request-Type":4,
  "Multiple-Services-Credit-Control":[{"Granted-Service-Unit":{"CC-Service-Specific-Units":1},
  "Rating-Group":30,"Result-Code":2001}],"Result-Code":2001,"Session-Id":"s20"}
accepted charges: 1 at 1767607200 of s20 30 1 90000 90000 0; buckets: (1000000; 910000, 0, 90000, 0)"##;

/// A session that asks for the slices of a group that the book has not and of group 10.
const SLICES: &str = r##"new 1767607200 {"Session-Id":"s19","CC-Request-Type":1,
  "CC-Request-Number":0,"Subscription-Id":{"Subscription-Id-Type":0,"Subscription-Id-Data":"49151"},
  "Multiple-Services-Credit-Control":[{"Rating-Group":99,"Requested-Service-Unit":{}},
  {"Rating-Group":10,"Requested-Service-Unit":{}}]}
= {"CC-Request-Number":0,"CC-Request-Type":1,"Multiple-Services-Credit-Control":[{"Rating-Group":99,
  "Result-Code":5031},{"Granted-Service-Unit":{"CC-Time":600},"Rating-Group":10,"Result-Code":2001,
  "Validity-Time":3600}],"Result-Code":2001,"Session-Id":"s19"}
accepted charges: buckets: (1000000; 0, 1000000, 0, 0)"##;

// rule: decision-order, session-names, session-refused, database-writes.quiet-at
#[test]
fn decisions_on_an_account(rt: HostRuntime) {
    try_all(&rt, rt.alloc(), LEFT);
    try_all(&rt, rt.alloc(), SLICES);
}

/// Requests that begin a session, that are read, and that are neither, each after its word: an
/// initial request, a debit, a refund, a check, an enquiry, an update and a termination.
const KINDS: &str = r##"begins 1767607200 {"Session-Id":"s","CC-Request-Type":1,
  "CC-Request-Number":0,"Subscription-Id":{"Subscription-Id-Type":0,"Subscription-Id-Data":"49151"},
  "Multiple-Services-Credit-Control":[{"Rating-Group":10,"Requested-Service-Unit":{}}]}
begins 1767607200 {"Session-Id":"s","CC-Request-Type":4,"CC-Request-Number":0,
  "Subscription-Id":{"Subscription-Id-Type":0,"Subscription-Id-Data":"49151"},"Requested-Action":0,
  "Multiple-Services-Credit-Control":[{"Rating-Group":30,"Requested-Service-Unit":{}}]}
begins 1767607200 {"Session-Id":"s","CC-Request-Type":4,"CC-Request-Number":0,
  "Subscription-Id":{"Subscription-Id-Type":0,"Subscription-Id-Data":"49151"},"Requested-Action":1,
  "Requested-Service-Unit":{"CC-Money":{"Unit-Value":{"Value-Digits":1,"Exponent":-6},
  "Currency-Code":978}}}
reads 1767607200 {"Session-Id":"s","CC-Request-Type":4,"CC-Request-Number":0,
  "Subscription-Id":{"Subscription-Id-Type":0,"Subscription-Id-Data":"49151"},"Requested-Action":2,
  "Multiple-Services-Credit-Control":[{"Rating-Group":30,"Requested-Service-Unit":{}}]}
reads 1767607200 {"Session-Id":"s","CC-Request-Type":4,"CC-Request-Number":0,
  "Subscription-Id":{"Subscription-Id-Type":0,"Subscription-Id-Data":"49151"},"Requested-Action":3,
  "Multiple-Services-Credit-Control":[{"Rating-Group":30,"Requested-Service-Unit":{}}]}
goes-on 1767607200 {"Session-Id":"s","CC-Request-Type":2,"CC-Request-Number":1,
  "Subscription-Id":{"Subscription-Id-Type":0,"Subscription-Id-Data":"49151"},
  "Multiple-Services-Credit-Control":[{"Rating-Group":10,"Requested-Service-Unit":{}}]}
goes-on 1767607200 {"Session-Id":"s","CC-Request-Type":3,"CC-Request-Number":2,
  "Subscription-Id":{"Subscription-Id-Type":0,"Subscription-Id-Data":"49151"}}"##;

/// What a request is, as its word.
fn kind_of(ask: &Ask) -> &'static str {
    match (begins_session(ask), is_read(ask)) {
        (true, false) => "begins",
        (false, true) => "reads",
        (false, false) => "goes-on",
        (true, true) => "both",
    }
}

fn try_kind(rt: &impl Abort, alloc: Global, line: &str) {
    let (kind, line) = first_word(rt, line);
    let (request, _at) = request_of(rt, alloc, line);
    assert_told(rt, kind_of(&request.ask), kind);
}

#[test]
fn kinds_of_requests(rt: HostRuntime) {
    let lines = whole_lines(&rt, rt.alloc(), KINDS);
    for line in lines.as_str().lines() {
        try_kind(&rt, rt.alloc(), line);
    }
}
