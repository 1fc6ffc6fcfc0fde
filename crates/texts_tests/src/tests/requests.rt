//! Requests as they are written and kept, and read again.

use crate::tests::contents;
use crate::tests::tables::{Told, same, try_told};
use commands::{Content, Request, same_request};
use std::alloc::Global;
use std::process::Abort;
use wire::Scratch;
use wire_requests::{read_request, write_request};

/// The body of an update of four services.
const UPDATE: &str = r##"{"Session-Id":"s1","CC-Request-Type":2,"CC-Request-Number":3,
  "Subscription-Id":{"Subscription-Id-Type":0,"Subscription-Id-Data":"49151"},
  "Multiple-Services-Credit-Control":[{"Used-Service-Unit":[{"CC-Time":4294967295},
  {"Tariff-Change-Usage":2,"CC-Time":3},{"CC-Time":1,"Tariff-Change-Usage":0,"CC-Money":5},
  {"CC-Time":0,"Tariff-Change-Usage":1}],"Requested-Service-Unit":{"CC-Time":4294967295},
  "Rating-Group":10},{"Rating-Group":30,
  "Requested-Service-Unit":{"CC-Service-Specific-Units":1000000000000000000},
  "Used-Service-Unit":[{"CC-Service-Specific-Units":1000000000000000000}]},
  {"Used-Service-Unit":[{"CC-Total-Octets":1000000000000000000,"Tariff-Change-Usage":1},
  {"CC-Total-Octets":0}],"Rating-Group":20,"Requested-Service-Unit":{"More":1}},
  {"Rating-Group":40}]}"##;

/// The body of a case, of which one is named.
fn body_of(text: &str) -> &str {
    match text {
        "UPDATE" => UPDATE,
        _ => text,
    }
}

fn request(rt: &impl Abort, alloc: Global, text: &str) -> Request {
    read_request(alloc, body_of(text).as_bytes(), &mut Scratch::new(alloc)).expect(rt, "a request")
}

/// Whether the text is read as this request.
fn is_read_as(rt: &impl Abort, alloc: Global, text: &str, first: &Request) -> bool {
    let again = request(rt, alloc, text);
    same_request(first, &again)
}

/// The text of the request that the body is, which is read again as an equal request.
pub(crate) fn written(rt: &impl Abort, alloc: Global, text: &str) -> String {
    let first = request(rt, alloc, text);
    let written = write_request(alloc, &first).expect(rt, "memory");
    assert!(rt; is_read_as(rt, alloc, written.as_str(), &first), "{text}");
    written
}

/// What is kept of the request that the body is.
pub(crate) fn kept(rt: &impl Abort, alloc: Global, text: &str) -> String {
    let content = Content::Request(request(rt, alloc, text));
    contents::kept(rt, alloc, &content)
}

/// A body, and the text of the request, which is also what is kept of it.
const WRITTEN: &str = r##"{"Session-Id":"s1","CC-Request-Type":1,"CC-Request-Number":0,
  "Subscription-Id":{"Subscription-Id-Type":0,"Subscription-Id-Data":"49151"},
  "Multiple-Services-Credit-Control":[{"Rating-Group":10,
  "Requested-Service-Unit":{"CC-Time":600}}]} -> {"CC-Request-Number":0,"CC-Request-Type":1,
  "Multiple-Services-Credit-Control":[{"Rating-Group":10,
  "Requested-Service-Unit":{"CC-Time":600}}],"Session-Id":"s1",
  "Subscription-Id":{"Subscription-Id-Data":"49151","Subscription-Id-Type":0}}
{ "More" : [ 1 ] , "Session-Id" : "\u0061\"b\\c\/d" ,
   "Subscription-Id" : { "Subscription-Id-Data" : "007" , "Subscription-Id-Type" : 0 } ,
   "CC-Request-Number" : 4294967295 , "CC-Request-Type" : 1 , "Requested-Action" : 0 ,
   "Multiple-Services-Credit-Control" : [ { "Requested-Service-Unit" : { } ,
   "Rating-Group" : 4294967295 } , { "Rating-Group" : 0 , "Requested-Service-Unit" : {
   "CC-Total-Octets" : 1000000000000000000 } } ] } -> {"CC-Request-Number":4294967295,
  "CC-Request-Type":1,"Multiple-Services-Credit-Control":[{"Rating-Group":4294967295,
  "Requested-Service-Unit":{}},{"Rating-Group":0,
  "Requested-Service-Unit":{"CC-Total-Octets":1000000000000000000}}],"Session-Id":"a\"b\\c/d",
  "Subscription-Id":{"Subscription-Id-Data":"007","Subscription-Id-Type":0}}
UPDATE -> {"CC-Request-Number":3,"CC-Request-Type":2,
  "Multiple-Services-Credit-Control":[{"Rating-Group":10,
  "Requested-Service-Unit":{"CC-Time":4294967295},"Used-Service-Unit":[{"CC-Time":4294967295},
  {"CC-Time":3,"Tariff-Change-Usage":2},{"CC-Time":1,"Tariff-Change-Usage":0},{"CC-Time":0,
  "Tariff-Change-Usage":1}]},{"Rating-Group":30,
  "Requested-Service-Unit":{"CC-Service-Specific-Units":1000000000000000000},
  "Used-Service-Unit":[{"CC-Service-Specific-Units":1000000000000000000}]},{"Rating-Group":20,
  "Requested-Service-Unit":{},"Used-Service-Unit":[{"CC-Total-Octets":1000000000000000000,
  "Tariff-Change-Usage":1},{"CC-Total-Octets":0}]},{"Rating-Group":40}],"Session-Id":"s1",
  "Subscription-Id":{"Subscription-Id-Data":"49151","Subscription-Id-Type":0}}
{"Session-Id":"s1","CC-Request-Type":3,"CC-Request-Number":4,
  "Subscription-Id":{"Subscription-Id-Type":0,"Subscription-Id-Data":"49151"}} ->
   {"CC-Request-Number":4,"CC-Request-Type":3,"Multiple-Services-Credit-Control":[],
  "Session-Id":"s1","Subscription-Id":{"Subscription-Id-Data":"49151","Subscription-Id-Type":0}}
{"Session-Id":"s1","CC-Request-Type":3,"CC-Request-Number":4,
  "Subscription-Id":{"Subscription-Id-Type":0,"Subscription-Id-Data":"49151"},
  "Multiple-Services-Credit-Control":[]} -> {"CC-Request-Number":4,"CC-Request-Type":3,
  "Multiple-Services-Credit-Control":[],"Session-Id":"s1",
  "Subscription-Id":{"Subscription-Id-Data":"49151","Subscription-Id-Type":0}}
{"Session-Id":"s1","CC-Request-Type":3,"CC-Request-Number":4,
  "Subscription-Id":{"Subscription-Id-Type":0,"Subscription-Id-Data":"49151"},
  "Multiple-Services-Credit-Control":[{"Rating-Group":10},{"Rating-Group":20,
  "Used-Service-Unit":[{"CC-Total-Octets":5}]}]} -> {"CC-Request-Number":4,"CC-Request-Type":3,
  "Multiple-Services-Credit-Control":[{"Rating-Group":10},{"Rating-Group":20,
  "Used-Service-Unit":[{"CC-Total-Octets":5}]}],"Session-Id":"s1",
  "Subscription-Id":{"Subscription-Id-Data":"49151","Subscription-Id-Type":0}}
{"Session-Id":"s1","CC-Request-Type":4,"CC-Request-Number":0,
  "Subscription-Id":{"Subscription-Id-Type":0,"Subscription-Id-Data":"49151"},
  "Requested-Action":0,"Multiple-Services-Credit-Control":[{"Rating-Group":30,
  "Requested-Service-Unit":{"CC-Service-Specific-Units":1000000000000000000}}]} ->
   {"CC-Request-Number":0,"CC-Request-Type":4,
  "Multiple-Services-Credit-Control":[{"Rating-Group":30,
  "Requested-Service-Unit":{"CC-Service-Specific-Units":1000000000000000000}}],
  "Requested-Action":0,"Session-Id":"s1","Subscription-Id":{"Subscription-Id-Data":"49151",
  "Subscription-Id-Type":0}}
{"Session-Id":"s1","CC-Request-Type":4,"CC-Request-Number":0,
  "Subscription-Id":{"Subscription-Id-Type":0,"Subscription-Id-Data":"49151"},
  "Requested-Action":2,"Multiple-Services-Credit-Control":[{"Rating-Group":30,
  "Requested-Service-Unit":{"CC-Time":1}}]} -> {"CC-Request-Number":0,"CC-Request-Type":4,
  "Multiple-Services-Credit-Control":[{"Rating-Group":30,"Requested-Service-Unit":{"CC-Time":1}}],
  "Requested-Action":2,"Session-Id":"s1","Subscription-Id":{"Subscription-Id-Data":"49151",
  "Subscription-Id-Type":0}}
{"Session-Id":"s1","CC-Request-Type":4,"CC-Request-Number":0,
  "Subscription-Id":{"Subscription-Id-Type":0,"Subscription-Id-Data":"49151"},
  "Requested-Action":3,"Multiple-Services-Credit-Control":[{"Rating-Group":30,
  "Requested-Service-Unit":{}}],"Requested-Service-Unit":5} -> {"CC-Request-Number":0,
  "CC-Request-Type":4,"Multiple-Services-Credit-Control":[{"Rating-Group":30,
  "Requested-Service-Unit":{}}],"Requested-Action":3,"Session-Id":"s1",
  "Subscription-Id":{"Subscription-Id-Data":"49151","Subscription-Id-Type":0}}
{"Session-Id":"s1","CC-Request-Type":4,"CC-Request-Number":0,
  "Subscription-Id":{"Subscription-Id-Type":0,"Subscription-Id-Data":"49151"},
  "Requested-Action":1,"Requested-Service-Unit":{"CC-Money":{"Unit-Value":{"Value-Digits":1,
  "Exponent":-6},"Currency-Code":978}}} -> {"CC-Request-Number":0,"CC-Request-Type":4,
  "Requested-Action":1,"Requested-Service-Unit":{"CC-Money":{"Currency-Code":978,
  "Unit-Value":{"Exponent":-6,"Value-Digits":1}}},"Session-Id":"s1",
  "Subscription-Id":{"Subscription-Id-Data":"49151","Subscription-Id-Type":0}}
{"Session-Id":"s1","CC-Request-Type":4,"CC-Request-Number":0,
  "Subscription-Id":{"Subscription-Id-Type":0,"Subscription-Id-Data":"49151"},
  "Requested-Action":1,"Requested-Service-Unit":{"CC-Money":{"Unit-Value":{"Value-Digits":5,
  "Exponent":0},"Currency-Code":0}}} -> {"CC-Request-Number":0,"CC-Request-Type":4,
  "Requested-Action":1,"Requested-Service-Unit":{"CC-Money":{"Currency-Code":0,
  "Unit-Value":{"Exponent":-6,"Value-Digits":5000000}}},"Session-Id":"s1",
  "Subscription-Id":{"Subscription-Id-Data":"49151","Subscription-Id-Type":0}}
{"Session-Id":"s1","CC-Request-Type":4,"CC-Request-Number":0,
  "Subscription-Id":{"Subscription-Id-Type":0,"Subscription-Id-Data":"49151"},
  "Requested-Action":1,"Requested-Service-Unit":{"CC-Money":{"Unit-Value":{"Value-Digits":
  1000000000},"Currency-Code":999}}} -> {"CC-Request-Number":0,"CC-Request-Type":4,
  "Requested-Action":1,"Requested-Service-Unit":{"CC-Money":{"Currency-Code":999,
  "Unit-Value":{"Exponent":-6,"Value-Digits":1000000000000000}}},"Session-Id":"s1",
  "Subscription-Id":{"Subscription-Id-Data":"49151","Subscription-Id-Type":0}}
{"Session-Id":"s1","CC-Request-Type":4,"CC-Request-Number":0,
  "Subscription-Id":{"Subscription-Id-Type":0,"Subscription-Id-Data":"49151"},
  "Requested-Action":1,"Requested-Service-Unit":{"CC-Money":{"Unit-Value":{"Value-Digits":25,
  "Exponent":-1},"Currency-Code":978}}} -> {"CC-Request-Number":0,"CC-Request-Type":4,
  "Requested-Action":1,"Requested-Service-Unit":{"CC-Money":{"Currency-Code":978,
  "Unit-Value":{"Exponent":-6,"Value-Digits":2500000}}},"Session-Id":"s1",
  "Subscription-Id":{"Subscription-Id-Data":"49151","Subscription-Id-Type":0}}
{"Session-Id":"s1","CC-Request-Type":4,"CC-Request-Number":0,
  "Subscription-Id":{"Subscription-Id-Type":0,"Subscription-Id-Data":"49151"},
  "Requested-Action":1,"Requested-Service-Unit":{"CC-Money":{"Unit-Value":{"Value-Digits":
  1000000000000000,"Exponent":-6},"Currency-Code":978}}} -> {"CC-Request-Number":0,
  "CC-Request-Type":4,"Requested-Action":1,
  "Requested-Service-Unit":{"CC-Money":{"Currency-Code":978,"Unit-Value":{"Exponent":-6,
  "Value-Digits":1000000000000000}}},"Session-Id":"s1",
  "Subscription-Id":{"Subscription-Id-Data":"49151","Subscription-Id-Type":0}}"##;

// rule: request-written, request-written.in-byte-order
#[test]
fn texts(rt: HostRuntime) {
    try_told(&rt, rt.alloc(), Told::Request, WRITTEN);
    try_told(&rt, rt.alloc(), Told::KeptRequest, WRITTEN);
}

/// What the request that the body is shows of itself.
pub(crate) fn shown(rt: &impl Abort, alloc: Global, text: &str) -> String {
    let request = request(rt, alloc, text);
    format!(in alloc; "{request:?}").expect(rt, "memory")
}

/// A body, and the value that it is read as.
const SHOWN: &str = r##"{"Session-Id":"s1","CC-Request-Type":1,"CC-Request-Number":0,
  "Subscription-Id":{"Subscription-Id-Type":0,"Subscription-Id-Data":"49151"},
  "Multiple-Services-Credit-Control":[{"Rating-Group":10,
  "Requested-Service-Unit":{"CC-Time":600}}]} -> Request { session: SessionId { text: "s1" },
   number: 0, account: AccountNumber { text: "49151" }, ask: Initial(InitialServices { list:
   [Service { group: 10, requested: Some(Units(Quantity { kind: Time, units: 600 })),
   used: None }] }) }
UPDATE -> Request { session: SessionId { text: "s1" }, number: 3,
   account: AccountNumber { text: "49151" }, ask: Update(UpdateServices { list: [Service { group:
   10, requested: Some(Units(Quantity { kind: Time, units: 4294967295 })),
   used: Some(UsedParts { kind: Time, list: [UsedPart { units: Units(4294967295), change: None },
   UsedPart { units: Units(3), change: Some(UnitIndeterminate) }, UsedPart { units: Units(1),
   change: Some(UnitBeforeTariffChange) }, UsedPart { units: Units(0),
   change: Some(UnitAfterTariffChange) }] }) }, Service { group: 30,
   requested: Some(Units(Quantity { kind: ServiceSpecific, units: 1000000000000000000 })),
   used: Some(UsedParts { kind: ServiceSpecific,
   list: [UsedPart { units: Units(1000000000000000000), change: None }] }) }, Service { group: 20,
   requested: Some(Slice), used: Some(UsedParts { kind: TotalOctets,
   list: [UsedPart { units: Units(1000000000000000000), change: Some(UnitAfterTariffChange) },
   UsedPart { units: Units(0), change: None }] }) }, Service { group: 40, requested: None,
   used: None }] }) }
{"Session-Id":"s1","CC-Request-Type":3,"CC-Request-Number":4,
  "Subscription-Id":{"Subscription-Id-Type":0,"Subscription-Id-Data":"49151"}} -> Request {
   session: SessionId { text: "s1" }, number: 4, account: AccountNumber { text: "49151" },
   ask: Termination(TerminationServices { list: [] }) }
{"Session-Id":"s1","CC-Request-Type":3,"CC-Request-Number":4,
  "Subscription-Id":{"Subscription-Id-Type":0,"Subscription-Id-Data":"49151"},
  "Multiple-Services-Credit-Control":[{"Rating-Group":10},{"Rating-Group":20,
  "Used-Service-Unit":[{"CC-Total-Octets":5}]}]} -> Request { session: SessionId { text: "s1" },
   number: 4, account: AccountNumber { text: "49151" }, ask: Termination(TerminationServices {
   list: [Service { group: 10, requested: None, used: None }, Service { group: 20,
   requested: None, used: Some(UsedParts { kind: TotalOctets, list: [UsedPart { units: Units(5),
   change: None }] }) }] }) }
{"Session-Id":"s1","CC-Request-Type":4,"CC-Request-Number":0,
  "Subscription-Id":{"Subscription-Id-Type":0,"Subscription-Id-Data":"49151"},
  "Requested-Action":0,"Multiple-Services-Credit-Control":[{"Rating-Group":30,
  "Requested-Service-Unit":{"CC-Service-Specific-Units":1000000000000000000}}]} -> Request {
   session: SessionId { text: "s1" }, number: 0, account: AccountNumber { text: "49151" },
   ask: Event(Event { action: DirectDebiting, group: 30, requested: Units(Quantity { kind:
   ServiceSpecific, units: 1000000000000000000 }) }) }
{"Session-Id":"s1","CC-Request-Type":4,"CC-Request-Number":0,
  "Subscription-Id":{"Subscription-Id-Type":0,"Subscription-Id-Data":"49151"},
  "Requested-Action":2,"Multiple-Services-Credit-Control":[{"Rating-Group":30,
  "Requested-Service-Unit":{"CC-Time":1}}]} -> Request { session: SessionId { text: "s1" },
   number: 0, account: AccountNumber { text: "49151" }, ask: Event(Event { action: CheckBalance,
   group: 30, requested: Units(Quantity { kind: Time, units: 1 }) }) }
{"Session-Id":"s1","CC-Request-Type":4,"CC-Request-Number":0,
  "Subscription-Id":{"Subscription-Id-Type":0,"Subscription-Id-Data":"49151"},
  "Requested-Action":3,"Multiple-Services-Credit-Control":[{"Rating-Group":30,
  "Requested-Service-Unit":{}}],"Requested-Service-Unit":5} -> Request { session: SessionId {
   text: "s1" }, number: 0, account: AccountNumber { text: "49151" }, ask: Event(Event { action:
   PriceEnquiry, group: 30, requested: Slice }) }
{"Session-Id":"s1","CC-Request-Type":4,"CC-Request-Number":0,
  "Subscription-Id":{"Subscription-Id-Type":0,"Subscription-Id-Data":"49151"},
  "Requested-Action":1,"Requested-Service-Unit":{"CC-Money":{"Unit-Value":{"Value-Digits":5,
  "Exponent":0},"Currency-Code":0}}} -> Request { session: SessionId { text: "s1" }, number: 0,
   account: AccountNumber { text: "49151" }, ask: Refund(Refund { money: Money { micros: 5000000
   }, currency: 0 }) }
{"Session-Id":"s1","CC-Request-Type":4,"CC-Request-Number":0,
  "Subscription-Id":{"Subscription-Id-Type":0,"Subscription-Id-Data":"49151"},
  "Requested-Action":1,"Requested-Service-Unit":{"CC-Money":{"Unit-Value":{"Value-Digits":25,
  "Exponent":-1},"Currency-Code":978}}} -> Request { session: SessionId { text: "s1" }, number: 0,
   account: AccountNumber { text: "49151" }, ask: Refund(Refund { money: Money { micros: 2500000
   }, currency: 978 }) }"##;

#[test]
fn values(rt: HostRuntime) {
    try_told(&rt, rt.alloc(), Told::RequestShown, SHOWN);
}

const BODY: &str =
    r##"{"Session-Id":"s1","CC-Request-Number":1,"Subscription-Id":{"Subscription-Id-Type":0,
  "Subscription-Id-Data":"49151"},HERE}"##;

/// The body in which `HERE` stands for the text.
fn body_with(rt: &impl Abort, alloc: Global, text: &str) -> String {
    BODY.replace(alloc, "HERE", text).expect(rt, "memory")
}

/// Whether `A = B` are read as equal requests.
pub(crate) fn compared(rt: &impl Abort, alloc: Global, pair: &str) -> String {
    let (one, other) = pair.split_once(" = ").expect(rt, "two bodies");
    let one = body_with(rt, alloc, one);
    let other = body_with(rt, alloc, other);
    let are_same = are_same(rt, alloc, one.as_str(), other.as_str());
    same(rt, alloc, are_same)
}

fn are_same(rt: &impl Abort, alloc: Global, one: &str, other: &str) -> bool {
    let first = request(rt, alloc, one);
    is_read_as(rt, alloc, other, &first)
}

/// Whether two bodies are the same content. The order of services and of the parts of a report is
/// content; the order of members, other members, and how money is written aren't.
const PAIRS: &str = r##""CC-Request-Type":2,"Multiple-Services-Credit-Control":[{"Rating-Group":10,
  "Requested-Service-Unit":{"CC-Time":5}}] = "CC-Request-Type":2,
  "Multiple-Services-Credit-Control":[{"Requested-Service-Unit":{"More":1,"CC-Time":5},
  "Rating-Group":10}] -> same
"CC-Request-Type":3 = "CC-Request-Type":3,"Multiple-Services-Credit-Control":[] -> same
"CC-Request-Type":3,"Multiple-Services-Credit-Control":[] = "CC-Request-Type":3,
  "Requested-Action":5,"Requested-Service-Unit":null -> same
"CC-Request-Type":4,"Requested-Action":1,
  "Requested-Service-Unit":{"CC-Money":{"Unit-Value":{"Value-Digits":1,"Exponent":0},
  "Currency-Code":978}} = "CC-Request-Type":4,"Requested-Action":1,
  "Requested-Service-Unit":{"CC-Money":{"Unit-Value":{"Value-Digits":1000000,"Exponent":-6},
  "Currency-Code":978}} -> same
"CC-Request-Type":4,"Requested-Action":1,
  "Requested-Service-Unit":{"CC-Money":{"Unit-Value":{"Value-Digits":25,"Exponent":-1},
  "Currency-Code":978}} = "CC-Request-Type":4,"Requested-Action":1,
  "Requested-Service-Unit":{"CC-Money":{"Unit-Value":{"Value-Digits":2500,"Exponent":-3},
  "Currency-Code":978}},"Multiple-Services-Credit-Control":5 -> same
"CC-Request-Type":4,"Requested-Action":0,"Multiple-Services-Credit-Control":[{"Rating-Group":30,
  "Requested-Service-Unit":{}}] = "CC-Request-Type":4,"Requested-Action":0,
  "Multiple-Services-Credit-Control":[{"Rating-Group":30,"Requested-Service-Unit":{}}],
  "Used-Service-Unit":5 -> same
"CC-Request-Type":4,"Requested-Action":1,
  "Requested-Service-Unit":{"CC-Money":{"Unit-Value":{"Value-Digits":1,"Exponent":0},
  "Currency-Code":978}} = "CC-Request-Type":4,"Requested-Action":1,
  "Requested-Service-Unit":{"CC-Money":{"Unit-Value":{"Value-Digits":1,"Exponent":-1},
  "Currency-Code":978}} -> other
"CC-Request-Type":4,"Requested-Action":1,
  "Requested-Service-Unit":{"CC-Money":{"Unit-Value":{"Value-Digits":1,"Exponent":0},
  "Currency-Code":978}} = "CC-Request-Type":4,"Requested-Action":1,
  "Requested-Service-Unit":{"CC-Money":{"Unit-Value":{"Value-Digits":1,"Exponent":0},
  "Currency-Code":840}} -> other
"CC-Request-Type":4,"Requested-Action":0,"Multiple-Services-Credit-Control":[{"Rating-Group":30,
  "Requested-Service-Unit":{}}] = "CC-Request-Type":4,"Requested-Action":2,
  "Multiple-Services-Credit-Control":[{"Rating-Group":30,"Requested-Service-Unit":{}}] -> other
"CC-Request-Type":4,"Requested-Action":2,"Multiple-Services-Credit-Control":[{"Rating-Group":30,
  "Requested-Service-Unit":{}}] = "CC-Request-Type":4,"Requested-Action":3,
  "Multiple-Services-Credit-Control":[{"Rating-Group":30,"Requested-Service-Unit":{}}] -> other
"CC-Request-Type":4,"Requested-Action":0,"Multiple-Services-Credit-Control":[{"Rating-Group":30,
  "Requested-Service-Unit":{}}] = "CC-Request-Type":4,"Requested-Action":0,
  "Multiple-Services-Credit-Control":[{"Rating-Group":30,
  "Requested-Service-Unit":{"CC-Time":600}}] -> other
"CC-Request-Type":4,"Requested-Action":0,"Multiple-Services-Credit-Control":[{"Rating-Group":30,
  "Requested-Service-Unit":{"CC-Total-Octets":600}}] = "CC-Request-Type":4,"Requested-Action":0,
  "Multiple-Services-Credit-Control":[{"Rating-Group":30,
  "Requested-Service-Unit":{"CC-Time":600}}] -> other
"CC-Request-Type":2,"Multiple-Services-Credit-Control":[{"Rating-Group":10},
  {"Rating-Group":11}] = "CC-Request-Type":2,
  "Multiple-Services-Credit-Control":[{"Rating-Group":11},{"Rating-Group":10}] -> other
"CC-Request-Type":2,"Multiple-Services-Credit-Control":[{"Rating-Group":10}] =
   "CC-Request-Type":2,"Multiple-Services-Credit-Control":[{"Rating-Group":10},
  {"Rating-Group":11}] -> other
"CC-Request-Type":2,"Multiple-Services-Credit-Control":[{"Rating-Group":10}] =
   "CC-Request-Type":2,"Multiple-Services-Credit-Control":[{"Rating-Group":10,
  "Requested-Service-Unit":{}}] -> other
"CC-Request-Type":2,"Multiple-Services-Credit-Control":[{"Rating-Group":10}] =
   "CC-Request-Type":2,"Multiple-Services-Credit-Control":[{"Rating-Group":10,
  "Used-Service-Unit":[{"CC-Time":0}]}] -> other
"CC-Request-Type":2,"Multiple-Services-Credit-Control":[{"Rating-Group":10,
  "Used-Service-Unit":[{"CC-Time":1},{"CC-Time":1,"Tariff-Change-Usage":0}]}] =
   "CC-Request-Type":2,"Multiple-Services-Credit-Control":[{"Rating-Group":10,
  "Used-Service-Unit":[{"CC-Time":1,"Tariff-Change-Usage":0},{"CC-Time":1}]}] -> other
"CC-Request-Type":2,"Multiple-Services-Credit-Control":[{"Rating-Group":10,
  "Used-Service-Unit":[{"CC-Time":1}]}] = "CC-Request-Type":2,
  "Multiple-Services-Credit-Control":[{"Rating-Group":10,"Used-Service-Unit":[{"CC-Time":1,
  "Tariff-Change-Usage":2}]}] -> other
"CC-Request-Type":2,"Multiple-Services-Credit-Control":[{"Rating-Group":10,
  "Used-Service-Unit":[{"CC-Time":0}]}] = "CC-Request-Type":2,
  "Multiple-Services-Credit-Control":[{"Rating-Group":10,
  "Used-Service-Unit":[{"CC-Total-Octets":0}]}] -> other
"CC-Request-Type":2,"Multiple-Services-Credit-Control":[{"Rating-Group":10}] =
   "CC-Request-Type":3,"Multiple-Services-Credit-Control":[{"Rating-Group":10}] -> other"##;

#[test]
fn contents_of_two(rt: HostRuntime) {
    try_told(&rt, rt.alloc(), Told::Requests, PAIRS);
}
