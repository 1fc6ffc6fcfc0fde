//! Members of objects, each read alone and written alone.

use crate::tests::tables::{Told, joined, try_told};
use commands::Avp;
use json::Writer;
use json_fields::{
    Scratch, Tree, WireFault, array, document, member, number, object, optional_number, put_money,
    put_number, put_perhaps, put_text, text, unit_name, unit_told, units_in,
};
use std::alloc::Global;
use std::process::Abort;
use units::UnitKind;
use wire_requests::{account_number, request_kind, session_id};

const BODY: &str =
    r##"{"Session-Id":"s1","CC-Request-Type":2,"Subscription-Id":{"Subscription-Id-Type":0,
  "Subscription-Id-Data":"49151"},"Until":5,"Multiple-Services-Credit-Control":[{},{}],
  "CC-Total-Octets":7}"##;

/// What its members say, each read by its kind.
fn members(rt: &impl Abort, alloc: Global, parent: &Tree<'_>) -> String {
    let session = text(parent, Avp::SessionId).expect(rt, "a session");
    let kind = number(parent, Avp::RequestType, 1, 4).expect(rt, "a type");
    let until = optional_number(parent, Avp::Until, 5, 5).expect(rt, "an end");
    let scope = optional_number(parent, Avp::Scope, 0, 9).expect(rt, "no scope");
    let count = services(rt, parent).len();
    let account = subscriber(rt, parent);
    format!(in alloc; "{session} {kind} {until:?} {scope:?} {count} {account}").expect(rt, "memory")
}

fn services<'v, 'a>(rt: &impl Abort, parent: &'v Tree<'a>) -> &'v [Tree<'a>] {
    let list = member(parent, Avp::Services).expect(rt, "services");
    array(list, Avp::Services).expect(rt, "a list")
}

fn subscriber<'a>(rt: &impl Abort, parent: &Tree<'a>) -> &'a str {
    let subscription = object(parent, Avp::SubscriptionId).expect(rt, "a subscription");
    text(subscription, Avp::SubscriptionIdData).expect(rt, "an account")
}

/// What its units are, and each kind's name.
fn counted(rt: &impl Abort, alloc: Global, parent: &Tree<'_>) -> String {
    let told = unit_told(parent);
    let fault = WireFault::Invalid(Avp::RequestedUnit);
    let units = units_in(parent, fault, 7, UnitKind::TotalOctets).expect(rt, "units");
    let time = unit_name(UnitKind::Time);
    let octets = unit_name(UnitKind::TotalOctets);
    let events = unit_name(UnitKind::ServiceSpecific);
    format!(in alloc; "{told:?} {units} {time} {octets} {events}").expect(rt, "memory")
}

/// What names it.
fn named(rt: &impl Abort, alloc: Global, parent: &Tree<'_>) -> String {
    let kind = request_kind(parent).expect(rt, "a type");
    let session = session_id(alloc, parent).expect(rt, "a session");
    let account = account_number(alloc, parent).expect(rt, "an account");
    format!(in alloc; "{} {} {kind:?}", session.as_str(), account.as_str()).expect(rt, "memory")
}

/// What is said of the body by the function of this name.
pub(crate) fn said(rt: &impl Abort, alloc: Global, name: &str) -> String {
    let mut scratch = Scratch::new(alloc);
    let parent = document(BODY.as_bytes(), &mut scratch).expect(rt, "an object");
    match name {
        "members" => members(rt, alloc, &parent),
        "units" => counted(rt, alloc, &parent),
        _ => named(rt, alloc, &parent),
    }
}

const SAID: &str = "members -> s1 2 Some(5) None 2 49151
units -> Some(TotalOctets) 7 CC-Time CC-Total-Octets CC-Service-Specific-Units
names -> s1 49151 Update";

// rule: json-members
#[test]
fn members_are_read(rt: HostRuntime) {
    try_told(&rt, rt.alloc(), Told::Members, SAID);
}

/// An object with a member of each kind.
fn put_all(rt: &impl Abort, alloc: Global) -> Vec<u8> {
    let mut out = Writer::new(Vec::new(alloc));
    out.begin_object().expect(rt, "memory");
    put_number(&mut out, "Amount", u64::MAX).expect(rt, "memory");
    put_perhaps(&mut out, "From", None).expect(rt, "memory");
    put_text(&mut out, "Reference", "a\"b\\c/d").expect(rt, "memory");
    put_perhaps(&mut out, "Until", Some(0)).expect(rt, "memory");
    out.key("CC-Money").expect(rt, "memory");
    put_money(&mut out, 1_000_000, 978).expect(rt, "memory");
    out.end_object().expect(rt, "memory");
    out.into_inner()
}

const PUT: &str = r#"{"Amount":18446744073709551615,"Reference":"a\"b\\c/d","Until":0,
  "CC-Money":{"Currency-Code":978,"Unit-Value":{"Exponent":-6,"Value-Digits":1000000}}}"#;

#[test]
fn members_are_written(rt: HostRuntime) {
    let found = put_all(&rt, rt.alloc());
    let expected = joined(&rt, rt.alloc(), PUT);
    assert_eq!(rt; found.as_slice(), expected.as_str().as_bytes());
}
