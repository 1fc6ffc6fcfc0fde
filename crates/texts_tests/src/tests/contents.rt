//! What is kept of accepted commands, written and read again.

use crate::tests::tables::{Told, same, try_told};
use commands::{Content, Credit, CreditEnd, CreditStart, KeptCredit, same_content};
use identifiers::{AccountNumber, VoucherCode};
use std::alloc::Global;
use std::process::Abort;
use units::Moment;
use wire::{Scratch, read_allow, read_content, read_credit, read_redeem, write_content};

fn account(rt: &impl Abort, alloc: Global) -> AccountNumber {
    AccountNumber::new(alloc, "49151")
        .expect(rt, "memory")
        .expect(rt, "an account")
}

fn code(rt: &impl Abort, alloc: Global) -> VoucherCode {
    VoucherCode::new(alloc, "000000000001")
        .expect(rt, "memory")
        .expect(rt, "a code")
}

/// The account that the content is kept under.
fn account_of(rt: &impl Abort, content: &Content) -> AccountNumber {
    content.account().clone().expect(rt, "memory")
}

/// Whether the text is read as this content.
fn is_read_again(rt: &impl Abort, alloc: Global, text: &str, content: &Content) -> bool {
    let account = account_of(rt, content);
    let again = read_content(alloc, account, text.as_bytes()).expect(rt, "a content");
    same_content(content, &again)
}

/// The text that is kept of the content, which is read again as the same content.
pub(crate) fn kept(rt: &impl Abort, alloc: Global, content: &Content) -> String {
    let text = write_content(alloc, content).expect(rt, "memory");
    assert!(rt; is_read_again(rt, alloc, text.as_str(), content));
    text
}

/// What is kept of a credit.
fn content_of(rt: &impl Abort, credit: Credit) -> Content {
    assert!(rt; credit.can_be_kept());
    Content::Credit(KeptCredit::new(credit))
}

fn credit(rt: &impl Abort, alloc: Global, body: &str) -> Content {
    let account = account(rt, alloc);
    let credit = read_credit(alloc, account, body.as_bytes(), &mut Scratch::new(alloc)).expect(
        rt, "a credit",
    );
    content_of(rt, credit)
}

pub(crate) fn kept_credit(rt: &impl Abort, alloc: Global, body: &str) -> String {
    let content = credit(rt, alloc, body);
    kept(rt, alloc, &content)
}

/// What is kept of the allowance that a body is, or its fault.
pub(crate) fn kept_allowance(rt: &impl Abort, alloc: Global, body: &str) -> String {
    match read_allow(
        alloc,
        account(rt, alloc),
        body.as_bytes(),
        &mut Scratch::new(alloc),
    ) {
        Ok(allowance) => kept(rt, alloc, &Content::Allow(allowance)),
        Err(fault) => format!(in alloc; "{fault}").expect(rt, "memory"),
    }
}

/// The redemption of a voucher by a body.
fn redemption(rt: &impl Abort, alloc: Global, body: &str) -> Content {
    let code = code(rt, alloc);
    Content::Redeem(read_redeem(alloc, code, body.as_bytes(), &mut Scratch::new(alloc)).expect(
        rt,
        "a redemption",
    ))
}

pub(crate) fn kept_redemption(rt: &impl Abort, alloc: Global, body: &str) -> String {
    let content = redemption(rt, alloc, body);
    kept(rt, alloc, &content)
}

/// The body of a credit, and what is kept of it. Each credit that can be kept is read again, also
/// the last, which could never be used.
const CREDITS: &str = r##"{"Amount":1000000,"Reference":"r1"} -> {"Amount":1000000,"Reference":"r1"}
{"Amount":1,"From":0,"Until":1,"Scope":0,"Reference":"!"} -> {"Amount":1,"From":0,"Reference":"!",
  "Scope":0,"Until":1}
{ "Reference" : "a\"b\\c\/d" , "Until" : 4102444800 , "Scope" : 4294967295 , "From" : 4102444799 ,
   "Amount" : 1000000000000000 , "More" : [ ] } -> {"Amount":1000000000000000,"From":4102444799,
  "Reference":"a\"b\\c/d","Scope":4294967295,"Until":4102444800}
{"Amount":5,"Until":1767607800,
  "Reference":"rrrrrrrrrrrrrrrrrrrrrrrrrrrrrrrrrrrrrrrrrrrrrrrrrrrrrrrrrrrrrrrr"} -> {"Amount":5,
  "Reference":"rrrrrrrrrrrrrrrrrrrrrrrrrrrrrrrrrrrrrrrrrrrrrrrrrrrrrrrrrrrrrrrr",
  "Until":1767607800}
{"Amount":5,"Scope":30,"Reference":"\u0072"} -> {"Amount":5,"Reference":"r","Scope":30}
{"Amount":5,"From":1767571200,"Reference":"r"} -> {"Amount":5,"From":1767571200,"Reference":"r"}
{"Amount":1,"From":4102444799,"Until":1,"Scope":7,"Reference":"r1"} -> {"Amount":1,
  "From":4102444799,"Reference":"r1","Scope":7,"Until":1}"##;

/// The body of an allowance, and what is kept of it. Each is read again, also one that could never
/// be used.
const ALLOWANCES: &str = r##"{"Blocks":3,"Scope":10,"Reference":"a1"} -> {"Blocks":3,
  "Reference":"a1","Scope":10}
{"Blocks":1,"From":0,"Until":1,"Scope":0,"Reference":"!"} -> {"Blocks":1,"From":0,"Reference":"!",
  "Scope":0,"Until":1}
{ "Reference" : "a\"b\\c\/d" , "Until" : 4102444800 , "Scope" : 4294967295 , "From" : 4102444799 ,
   "Blocks" : 1000000000 , "More" : [ ] } -> {"Blocks":1000000000,"From":4102444799,
  "Reference":"a\"b\\c/d","Scope":4294967295,"Until":4102444800}
{"Blocks":2,"Until":1767607800,"Scope":10,
  "Reference":"rrrrrrrrrrrrrrrrrrrrrrrrrrrrrrrrrrrrrrrrrrrrrrrrrrrrrrrrrrrrrrrr"} -> {"Blocks":2,
  "Reference":"rrrrrrrrrrrrrrrrrrrrrrrrrrrrrrrrrrrrrrrrrrrrrrrrrrrrrrrrrrrrrrrr","Scope":10,
  "Until":1767607800}
{"Amount":7,"Blocks":5,"From":1767571200,"Scope":30,"Reference":"\u0072"} -> {"Blocks":5,
  "From":1767571200,"Reference":"r","Scope":30}
{"Blocks":1,"Blocks":2,"Scope":30,"Reference":"r"} -> {"Blocks":2,"Reference":"r","Scope":30}
{"Blocks":1,"From":4102444799,"Until":1,"Scope":7,"Reference":"r1"} -> {"Blocks":1,
  "From":4102444799,"Reference":"r1","Scope":7,"Until":1}"##;

/// A body that is no allowance, and its first fault, in the order of the members.
const NO_ALLOWANCES: &str = r##" -> no JSON object
[] -> no JSON object
{} -> Blocks is missing
{"Blocks":null,"From":-1} -> Blocks is invalid
{"Blocks":0,"Scope":10,"Reference":"r"} -> Blocks is invalid
{"Blocks":1000000001,"Scope":10,"Reference":"r"} -> Blocks is invalid
{"Blocks":"3","Scope":10,"Reference":"r"} -> Blocks is invalid
{"Blocks":3.0,"Scope":10,"Reference":"r"} -> Blocks is invalid
{"Amount":3,"Scope":10,"Reference":"r"} -> Blocks is missing
{"Blocks":3,"From":4102444800,"Until":0,"Reference":"r"} -> From is invalid
{"Blocks":3,"From":-1,"Scope":10,"Reference":"r"} -> From is invalid
{"Blocks":3,"From":null,"Scope":10,"Reference":"r"} -> From is invalid
{"Blocks":3,"From":0,"Until":0,"Reference":"r"} -> Until is invalid
{"Blocks":3,"Until":4102444801,"Scope":10,"Reference":"r"} -> Until is invalid
{"Blocks":3,"From":0,"Until":1,"Reference":""} -> Scope is missing
{"Blocks":3,"Scope":null,"Reference":"r"} -> Scope is invalid
{"Blocks":3,"Scope":-1,"Reference":"r"} -> Scope is invalid
{"Blocks":3,"Scope":4294967296,"Reference":"r"} -> Scope is invalid
{"Blocks":3,"Scope":"10"} -> Scope is invalid
{"Blocks":3,"Scope":10} -> Reference is missing
{"Blocks":3,"Scope":10,"Reference":""} -> Reference is invalid
{"Blocks":3,"Scope":10,"Reference":"a b"} -> Reference is invalid
{"Blocks":3,"Scope":10,
  "Reference":"rrrrrrrrrrrrrrrrrrrrrrrrrrrrrrrrrrrrrrrrrrrrrrrrrrrrrrrrrrrrrrrrr"} ->
   Reference is invalid
{"Blocks":3,"Scope":10,"Reference":1} -> Reference is invalid"##;

/// The body of a redemption, and what is kept of it.
const REDEMPTIONS: &str =
    r##"{"Subscription-Id-Data":"49151","Reference":"v1"} -> {"Reference":"v1",
  "Subscription-Id-Data":"49151","Voucher-Code":"000000000001"}
{ "Reference" : "a\"b" , "More" : [ ] , "Subscription-Id-Data" : "0" } -> {"Reference":"a\"b",
  "Subscription-Id-Data":"0","Voucher-Code":"000000000001"}"##;

// rule: kept-content, kept-content.in-byte-order
#[test]
fn texts(rt: HostRuntime) {
    try_told(&rt, rt.alloc(), Told::KeptCredit, CREDITS);
    try_told(&rt, rt.alloc(), Told::KeptAllowance, ALLOWANCES);
    try_told(&rt, rt.alloc(), Told::KeptRedemption, REDEMPTIONS);
}

#[test]
fn allowances_at_fault(rt: HostRuntime) {
    try_told(&rt, rt.alloc(), Told::KeptAllowance, NO_ALLOWANCES);
}

/// Whether a credit can begin at a moment, and end there.
pub(crate) fn bounds(rt: &impl Abort, alloc: Global, seconds: &str) -> String {
    let seconds = seconds.parse::<u64>().expect(rt, "seconds");
    let moment = Moment::new(seconds).expect(rt, "a moment");
    let begins = CreditStart::new(moment).is_some();
    let ends = CreditEnd::new(moment).is_some();
    format!(in alloc; "{begins} {ends}").expect(rt, "memory")
}

/// No credit begins past the last moment of a command, or ends at 0 or past "no end".
const BOUNDS: &str = "4102444799 -> true true
4102444800 -> false true
4102444801 -> false false
0 -> true false";

#[test]
fn starts_and_ends(rt: HostRuntime) {
    try_told(&rt, rt.alloc(), Told::Bounds, BOUNDS);
}

fn content_shown(rt: &impl Abort, alloc: Global, content: &Content) -> String {
    format!(in alloc; "{content:?}").expect(rt, "memory")
}

/// What a kept text shows of itself when it is read.
pub(crate) fn shown(rt: &impl Abort, alloc: Global, text: &str) -> String {
    match read_content(alloc, account(rt, alloc), text.as_bytes()) {
        Ok(content) => content_shown(rt, alloc, &content),
        Err(fault) => format!(in alloc; "{fault}").expect(rt, "memory"),
    }
}

/// A kept text, and the value that it is read as.
const SHOWN: &str = r##"{"Amount":1000000,"From":0,"Reference":"r1","Scope":10,
  "Until":4102444800} -> Credit(KeptCredit { credit: Credit { account: AccountNumber { text:
   "49151" }, amount: Money { micros: 1000000 }, from: Some(CreditStart { moment: Moment {
   seconds: 0 } }), until: Some(CreditEnd { moment: Moment { seconds: 4102444800 } }),
   scope: Some(10), reference: Reference { text: "r1" } } })
{"Amount":1,"Reference":"r1"} -> Credit(KeptCredit { credit: Credit { account: AccountNumber { text:
   "49151" }, amount: Money { micros: 1 }, from: None, until: None, scope: None,
   reference: Reference { text: "r1" } } })
{"CC-Request-Number":4,"CC-Request-Type":3,"Multiple-Services-Credit-Control":[],
  "Session-Id":"s1","Subscription-Id":{"Subscription-Id-Data":"49151","Subscription-Id-Type":0}}
   -> Request(Request { session: SessionId { text: "s1" }, number: 4,
   account: AccountNumber { text: "49151" }, ask: Termination(TerminationServices { list: [] }) })
x -> no JSON object
{"Amount":1} -> Reference is missing
{"Session-Id":"s1"} -> CC-Request-Type is missing
{"CC-Request-Number":4,"CC-Request-Type":3,"Multiple-Services-Credit-Control":[],
  "Session-Id":"s1","Subscription-Id":{"Subscription-Id-Data":"49152","Subscription-Id-Type":0}}
   -> Subscription-Id-Data is invalid
{"CC-Request-Number":4,"CC-Request-Type":3,"Session-Id":"s1",
  "Subscription-Id":{"Subscription-Id-Data":"49151","Subscription-Id-Type":0}} -> no JSON object
{"Reference":"r1","Amount":1} -> no JSON object
{"Amount":1, "Reference":"r1"} -> no JSON object
{"Amount":1,"More":1,"Reference":"r1"} -> no JSON object
{"Amount":1,"From":4102444800,"Reference":"r1"} -> From is invalid
{"Amount":1,"Reference":"r1","Until":0} -> Until is invalid"##;

/// What a text is its members say: a request has a Session-Id, a redemption a Voucher-Code, an
/// allowance Blocks, a credit none of them.
const KINDS: &str = r##"{"Reference":"v1","Subscription-Id-Data":"49151",
  "Voucher-Code":"000000000001"} -> Redeem(VoucherRedemption { code: VoucherCode {
   text: "000000000001" }, account: AccountNumber { text: "49151" }, reference: Reference {
   text: "v1" } })
{"Amount":1,"Reference":"v1"} -> Credit(KeptCredit { credit: Credit { account: AccountNumber {
   text: "49151" }, amount: Money { micros: 1 }, from: None, until: None, scope: None,
   reference: Reference { text: "v1" } } })
{"Blocks":1,"Reference":"v1","Scope":10} -> Allow(Allowance { account: AccountNumber {
   text: "49151" }, blocks: AllowanceBlocks { number: 1 }, from: None, until: None, scope: 10,
   reference: Reference { text: "v1" } })
{"Blocks":1000000000,"From":0,"Reference":"v1","Scope":4294967295,
  "Until":4102444800} -> Allow(Allowance { account: AccountNumber { text: "49151" },
   blocks: AllowanceBlocks { number: 1000000000 }, from: Some(CreditStart { moment: Moment {
   seconds: 0 } }), until: Some(CreditEnd { moment: Moment { seconds: 4102444800 } }),
   scope: 4294967295, reference: Reference { text: "v1" } })
{"CC-Request-Number":4,"CC-Request-Type":3,"Multiple-Services-Credit-Control":[],"Session-Id":"s1",
  "Subscription-Id":{"Subscription-Id-Data":"49151","Subscription-Id-Type":0}} -> Request(Request {
   session: SessionId { text: "s1" }, number: 4, account: AccountNumber { text: "49151" },
   ask: Termination(TerminationServices { list: [] }) })
{"Reference":"v1","Subscription-Id-Data":"49151"} -> Amount is missing
{"Reference":"v1","Subscription-Id-Data":"49151","Voucher-Code":"1"} -> Voucher-Code is invalid
{"Reference":"v1","Subscription-Id-Data":"49151","Voucher-Code":1} -> Voucher-Code is invalid
{"Reference":"v1","Subscription-Id-Data":"49152","Voucher-Code":"000000000001"} ->
   Subscription-Id-Data is invalid
{"Subscription-Id-Data":"49151","Voucher-Code":"000000000001"} -> Reference is missing
{"Subscription-Id-Data":"49151","Reference":"v1","Voucher-Code":"000000000001"} -> no JSON object
{"Reference":"v1","Subscription-Id-Data":"49151","Voucher-Code":"000000000001",
  "Z":1} -> no JSON object
{"Amount":1,"Reference":"v1","Subscription-Id-Data":"49151",
  "Voucher-Code":"000000000001"} -> no JSON object
{"Blocks":1,"Reference":"v1"} -> Scope is missing
{"Blocks":0,"Reference":"v1","Scope":10} -> Blocks is invalid
{"Blocks":1,"From":4102444800,"Reference":"v1","Scope":10} -> From is invalid
{"Blocks":1,"Reference":"v1","Scope":10,"Until":0} -> Until is invalid
{"Blocks":1,"Scope":10} -> Reference is missing
{"Blocks":1,"Scope":10,"Reference":"v1"} -> no JSON object
{"Blocks":1, "Reference":"v1","Scope":10} -> no JSON object
{"Amount":1,"Blocks":1,"Reference":"v1","Scope":10} -> no JSON object
{"Amount":1,"Blocks":null,"Reference":"v1","Scope":10} -> Blocks is invalid
{"Blocks":1,"Reference":"v1","Scope":10,"Session-Id":"s1"} -> CC-Request-Type is missing
{"Blocks":1,"Reference":"v1","Scope":10,
  "Voucher-Code":"000000000001"} -> Subscription-Id-Data is missing
{"Blocks":1,"Reference":"v1","Subscription-Id-Data":"49151",
  "Voucher-Code":"000000000001"} -> no JSON object"##;

// rule: kept-content.reads-content
#[test]
fn values(rt: HostRuntime) {
    try_told(&rt, rt.alloc(), Told::ContentShown, SHOWN);
    try_told(&rt, rt.alloc(), Told::ContentShown, KINDS);
}

/// What a body is: an allowance where it says one, else a credit.
fn given(rt: &impl Abort, alloc: Global, body: &str) -> Content {
    match read_allow(
        alloc,
        account(rt, alloc),
        body.as_bytes(),
        &mut Scratch::new(alloc),
    ) {
        Ok(allowance) => Content::Allow(allowance),
        Err(_) => credit(rt, alloc, body),
    }
}

fn is_content(rt: &impl Abort, alloc: Global, body: &str, content: &Content) -> bool {
    let other = given(rt, alloc, body);
    same_content(content, &other)
}

/// Whether `A = B` are the same content as credits or allowances.
pub(crate) fn compared(rt: &impl Abort, alloc: Global, pair: &str) -> String {
    let (one, other) = pair.split_once(" = ").expect(rt, "two bodies");
    let content = given(rt, alloc, one);
    let are_same = is_content(rt, alloc, other, &content);
    same(rt, alloc, are_same)
}

/// Whether two bodies are the same content: an absent member is other content than its meaning.
const PAIRS: &str =
    r##"{"Amount":1,"Scope":5,"Reference":"r"} = {"More":1,"Reference":"r","Scope":5,
  "Amount":1} -> same
{"Amount":1,"Reference":"r"} = {"Amount":2,"Reference":"r"} -> other
{"Amount":1,"Reference":"r"} = {"Amount":1,"Reference":"R"} -> other
{"Amount":1,"Reference":"r"} = {"Amount":1,"Until":4102444800,"Reference":"r"} -> other
{"Amount":1,"Reference":"r"} = {"Amount":1,"From":0,"Reference":"r"} -> other
{"Amount":1,"Reference":"r"} = {"Amount":1,"Scope":0,"Reference":"r"} -> other
{"Amount":1,"From":5,"Reference":"r"} = {"Amount":1,"Until":5,"Reference":"r"} -> other
{"Blocks":1,"Scope":5,"Reference":"r"} = {"Amount":7,"Reference":"r","Scope":5,
  "Blocks":1} -> same
{"Blocks":1,"Scope":5,"Reference":"r"} = {"Amount":1,"Scope":5,"Reference":"r"} -> other
{"Amount":1,"Scope":5,"Reference":"r"} = {"Blocks":1,"Scope":5,"Reference":"r"} -> other
{"Blocks":1,"Scope":5,"Reference":"r"} = {"Blocks":2,"Scope":5,"Reference":"r"} -> other
{"Blocks":1,"Scope":5,"Reference":"r"} = {"Blocks":1,"Scope":6,"Reference":"r"} -> other
{"Blocks":1,"Scope":5,"Reference":"r"} = {"Blocks":1,"Scope":5,"Reference":"R"} -> other
{"Blocks":1,"Scope":5,"Reference":"r"} = {"Blocks":1,"From":0,"Scope":5,"Reference":"r"} -> other
{"Blocks":1,"Scope":5,"Reference":"r"} = {"Blocks":1,"Until":4102444800,"Scope":5,
  "Reference":"r"} -> other
{"Blocks":1,"From":5,"Scope":5,"Reference":"r"} = {"Blocks":1,"Until":5,"Scope":5,
  "Reference":"r"} -> other"##;

// rule: equal-content
#[test]
fn contents_of_two(rt: HostRuntime) {
    try_told(&rt, rt.alloc(), Told::Given, PAIRS);
}
