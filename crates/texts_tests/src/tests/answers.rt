//! Answers as they are read and written: each text gives a value that writes the same text. The
//! texts are those of worked sessions, and at the limits of their members.

use crate::tests::tables::{Told, try_told};
use commands::Answer;
use std::alloc::Global;
use std::process::Abort;
use wire::{read_answer, write_answer};

/// What an answer shows of itself, which writes the text again.
fn answer_shown(rt: &impl Abort, alloc: Global, text: &str, answer: &Answer) -> String {
    let written = write_answer(alloc, answer).expect(rt, "memory");
    assert_eq!(rt; written.as_str(), text);
    format!(in alloc; "{answer:?}").expect(rt, "memory")
}

/// What the answer that a text is shows of itself, or the fault.
pub(crate) fn shown(rt: &impl Abort, alloc: Global, text: &str) -> String {
    match read_answer(alloc, text.as_bytes()) {
        Ok(answer) => answer_shown(rt, alloc, text, &answer),
        Err(fault) => format!(in alloc; "{fault}").expect(rt, "memory"),
    }
}

/// A text, and the value that it is read as.
const SHOWN: &str = r##"{"CC-Request-Number":0,"CC-Request-Type":1,
  "Multiple-Services-Credit-Control":[{"Granted-Service-Unit":{"CC-Time":600,
  "Tariff-Time-Change":1767600000},"Rating-Group":10,"Result-Code":2001,"Validity-Time":3600}],
  "Result-Code":2001,"Session-Id":"s1"} -> Request(RequestAnswer { session: SessionId {
   text: "s1" }, kind: Initial, number: 0, outcome: Services(ServiceAnswers { list: [
  ServiceAnswer { group: 10, outcome: Granted(GrantedServiceUnit { quantity: Quantity { kind: Time,
   units: 600 }, switch: Some(Moment { seconds: 1767600000 }), validity: 3600,
   last: None }) }] }) })
{"CC-Request-Number":1,"CC-Request-Type":2,"Multiple-Services-Credit-Control":[{"Rating-Group":10,
  "Result-Code":2001}],"Result-Code":2001,"Session-Id":"s1"} -> Request(RequestAnswer {
   session: SessionId { text: "s1" }, kind: Update, number: 1, outcome: Services(ServiceAnswers {
   list: [ServiceAnswer { group: 10, outcome: Settled }] }) })
{"CC-Request-Number":0,"CC-Request-Type":1,"Multiple-Services-Credit-Control":[{
  "Final-Unit-Indication":{"Final-Unit-Action":0},"Granted-Service-Unit":{"CC-Time":120},
  "Rating-Group":10,"Result-Code":2001,"Validity-Time":3600}],"Result-Code":2001,
  "Session-Id":"s3"} -> Request(RequestAnswer { session: SessionId { text: "s3" }, kind: Initial,
   number: 0, outcome: Services(ServiceAnswers { list: [ServiceAnswer { group: 10,
   outcome: Granted(GrantedServiceUnit { quantity: Quantity { kind: Time, units: 120 }, switch:
   None, validity: 3600, last: Some(Terminate) }) }] }) })
{"CC-Request-Number":0,"CC-Request-Type":1,"Multiple-Services-Credit-Control":[{
  "Final-Unit-Indication":{"Final-Unit-Action":1,"Redirect-Server":{"Redirect-Address-Type":2,
  "Redirect-Server-Address":"http://topup.example/"}},"Granted-Service-Unit":{
  "CC-Total-Octets":1000000000000000},"Rating-Group":20,"Result-Code":2001,"Validity-Time":3600}],
  "Result-Code":2001,"Session-Id":"s7"} -> Request(RequestAnswer { session: SessionId {
   text: "s7" }, kind: Initial, number: 0, outcome: Services(ServiceAnswers { list: [
  ServiceAnswer { group: 20, outcome: Granted(GrantedServiceUnit { quantity: Quantity { kind:
   TotalOctets, units: 1000000000000000 }, switch: None, validity: 3600, last:
   Some(Redirect(RedirectAddress { text: "http://topup.example/" })) }) }] }) })
{"CC-Request-Number":0,"CC-Request-Type":4,"Multiple-Services-Credit-Control":[{
  "Granted-Service-Unit":{"CC-Service-Specific-Units":1},"Rating-Group":30,"Result-Code":2001}],
  "Result-Code":2001,"Session-Id":"d8"} -> Request(RequestAnswer { session: SessionId {
   text: "d8" }, kind: Event, number: 0, outcome: Services(ServiceAnswers { list: [ServiceAnswer {
   group: 30, outcome: Debited(Quantity { kind: ServiceSpecific, units: 1 }) }] }) })
{"CC-Request-Number":0,"CC-Request-Type":4,"Multiple-Services-Credit-Control":[{
  "Granted-Service-Unit":{"CC-Service-Specific-Units":1000000000000000000},"Rating-Group":30,
  "Result-Code":2001}],"Result-Code":2001,"Session-Id":"d8"} -> Request(RequestAnswer {
   session: SessionId { text: "d8" }, kind: Event, number: 0, outcome: Services(ServiceAnswers {
   list: [ServiceAnswer { group: 30, outcome: Debited(Quantity { kind: ServiceSpecific,
   units: 1000000000000000000 }) }] }) })
{"CC-Request-Number":0,"CC-Request-Type":1,"Multiple-Services-Credit-Control":[{"Rating-Group":99,
  "Result-Code":5031},{"Granted-Service-Unit":{"CC-Time":600},"Rating-Group":10,"Result-Code":2001,
  "Validity-Time":3600},{"Rating-Group":11,"Result-Code":4012},{"Rating-Group":4294967295,
  "Result-Code":4010}],"Result-Code":2001,"Session-Id":"s19"} -> Request(RequestAnswer {
   session: SessionId { text: "s19" }, kind: Initial, number: 0, outcome: Services(ServiceAnswers {
   list: [ServiceAnswer { group: 99, outcome: Failed(RatingFailed) }, ServiceAnswer { group: 10,
   outcome: Granted(GrantedServiceUnit { quantity: Quantity { kind: Time, units: 600 }, switch:
   None, validity: 3600, last: None }) }, ServiceAnswer { group: 11, outcome: Failed(
  CreditLimitReached) }, ServiceAnswer { group: 4294967295, outcome: Failed(
  EndUserServiceDenied) }] }) })
{"CC-Request-Number":2,"CC-Request-Type":3,"Multiple-Services-Credit-Control":[],
  "Result-Code":2001,"Session-Id":"a1"} -> Request(RequestAnswer { session: SessionId {
   text: "a1" }, kind: Termination, number: 2, outcome: Services(ServiceAnswers { list: [] }) })
{"CC-Request-Number":0,"CC-Request-Type":4,"Cost-Information":{"Currency-Code":978,"Unit-Value":{
  "Exponent":-6,"Value-Digits":90000}},"Result-Code":2001,"Session-Id":"p1"} -> Request(
  RequestAnswer { session: SessionId { text: "p1" }, kind: Event, number: 0, outcome: Priced(Cost {
   micros: 90000, currency: 978 }) })
{"CC-Request-Number":0,"CC-Request-Type":4,"Check-Balance-Result":0,"Result-Code":2001,
  "Session-Id":"c10"} -> Request(RequestAnswer { session: SessionId { text: "c10" }, kind: Event,
   number: 0, outcome: Checked(EnoughCredit) })
{"CC-Request-Number":0,"CC-Request-Type":4,"Check-Balance-Result":1,"Result-Code":2001,
  "Session-Id":"c10"} -> Request(RequestAnswer { session: SessionId { text: "c10" }, kind: Event,
   number: 0, outcome: Checked(NoCredit) })
{"CC-Request-Number":0,"CC-Request-Type":4,"Result-Code":2001,"Session-Id":"r9"} -> Request(
  RequestAnswer { session: SessionId { text: "r9" }, kind: Event, number: 0, outcome: Refunded })
{"CC-Request-Number":1,"CC-Request-Type":2,"Failed-AVP":"CC-Request-Number","Result-Code":5004,
  "Session-Id":"s11"} -> Request(RequestAnswer { session: SessionId { text: "s11" }, kind: Update,
   number: 1, outcome: Failed(InvalidAvpValue(RequestNumber)) })
{"CC-Request-Number":0,"CC-Request-Type":4,"Result-Code":4012,"Session-Id":"d8"} -> Request(
  RequestAnswer { session: SessionId { text: "d8" }, kind: Event, number: 0, outcome: Failed(
  Denied(CreditLimitReached)) })
{"CC-Request-Number":4294967295,"CC-Request-Type":2,"Result-Code":5002,
  "Session-Id":"a1"} -> Request(RequestAnswer { session: SessionId { text: "a1" }, kind: Update,
   number: 4294967295, outcome: Failed(UnknownSessionId) })
{"CC-Request-Number":1,"CC-Request-Type":3,"Result-Code":5012,"Session-Id":"a1"} -> Request(
  RequestAnswer { session: SessionId { text: "a1" }, kind: Termination, number: 1, outcome: Failed(
  UnableToComply) })
{"CC-Request-Number":0,"CC-Request-Type":4,"Result-Code":5030,"Session-Id":"a1"} -> Request(
  RequestAnswer { session: SessionId { text: "a1" }, kind: Event, number: 0, outcome: Failed(
  UserUnknown) })
{"CC-Request-Number":0,"CC-Request-Type":4,"Result-Code":5031,"Session-Id":"a1"} -> Request(
  RequestAnswer { session: SessionId { text: "a1" }, kind: Event, number: 0, outcome: Failed(
  Denied(RatingFailed)) })
{"Result-Code":2001} -> Done
{"Bucket":1,"Result-Code":2001} -> Bucket(1)
{"Accounts":7,"Result-Code":2001} -> Swept(7)
{"Account":"49151","Barred":true,"Buckets":[{"Available":1,"Charged":2,"Credited":15,"Expired":8,
  "From":5,"Number":1,"Reserved":4,"Scope":30,"Until":9}],"Moment":7} -> Balance(AccountBalance {
   account: AccountNumber { text: "49151" }, barred: true, buckets: BucketBalances { list: [
  BucketBalance { number: 1, from: Moment { seconds: 5 }, until: Moment { seconds: 9 },
   scope: Some(30), unit: MicroUnits, credited: 15, available: 1, reserved: 4, charged: 2,
   expired: 8 }] }, moment: Moment { seconds: 7 } })
{"Account":"49151","Barred":false,"Buckets":[{"Available":0,"Charged":3,"Credited":3,"Expired":0,
  "From":1767571200,"Number":2,"Reserved":0,"Scope":10,"Unit":"blocks","Until":4102444800}],
  "Moment":1767607500} -> Balance(AccountBalance { account: AccountNumber { text: "49151" },
   barred: false, buckets: BucketBalances { list: [BucketBalance { number: 2, from: Moment {
   seconds: 1767571200 }, until: Moment { seconds: 4102444800 }, scope: Some(10), unit: Blocks,
   credited: 3, available: 0, reserved: 0, charged: 3, expired: 0 }] }, moment: Moment {
   seconds: 1767607500 } })
{"Refusal":"O1"} -> Refused(AccountExists)
{"Refusal":"O2"} -> Refused(AccountUnknown)
{"Refusal":"O4"} -> Refused(VoucherSpent)
{"Refusal":"O5"} -> Refused(ContentDiffers)
{"Refusal":"O6"} -> Refused(OutOfRange)
{"CC-Request-Number":4294967295,"CC-Request-Type":3,"Multiple-Services-Credit-Control":[],
  "Result-Code":2001,"Session-Id":"a\"b\\c/d"} -> Request(RequestAnswer { session: SessionId {
   text: "a\"b\\c/d" }, kind: Termination, number: 4294967295, outcome: Services(ServiceAnswers {
   list: [] }) })
{"CC-Request-Number":1,"CC-Request-Type":2,"Multiple-Services-Credit-Control":[{
  "Granted-Service-Unit":{"CC-Time":60},"Rating-Group":10,"Result-Code":2001,
  "Validity-Time":3600}],"Result-Code":2001,"Session-Id":"s11"} -> Request(RequestAnswer {
   session: SessionId { text: "s11" }, kind: Update, number: 1, outcome: Services(ServiceAnswers {
   list: [ServiceAnswer { group: 10, outcome: Granted(GrantedServiceUnit { quantity: Quantity {
   kind: Time, units: 60 }, switch: None, validity: 3600, last: None }) }] }) })
{"CC-Request-Number":0,"CC-Request-Type":1,"Result-Code":4010,"Session-Id":"a1"} -> Request(
  RequestAnswer { session: SessionId { text: "a1" }, kind: Initial, number: 0, outcome: Failed(
  Denied(EndUserServiceDenied)) })
{"CC-Request-Number":0,"CC-Request-Type":1,"Failed-AVP":"Session-Id","Result-Code":5004,
  "Session-Id":"a1"} -> Request(RequestAnswer { session: SessionId { text: "a1" }, kind: Initial,
   number: 0, outcome: Failed(InvalidAvpValue(SessionId)) })
{"CC-Request-Number":0,"CC-Request-Type":4,"Failed-AVP":"Currency-Code","Result-Code":5004,
  "Session-Id":"a1"} -> Request(RequestAnswer { session: SessionId { text: "a1" }, kind: Event,
   number: 0, outcome: Failed(InvalidAvpValue(CurrencyCode)) })
{"CC-Request-Number":0,"CC-Request-Type":4,"Failed-AVP":"Requested-Service-Unit",
  "Result-Code":5004,"Session-Id":"a1"} -> Request(RequestAnswer { session: SessionId {
   text: "a1" }, kind: Event, number: 0, outcome: Failed(InvalidAvpValue(RequestedUnit)) })
{"CC-Request-Number":1,"CC-Request-Type":2,"Failed-AVP":"Used-Service-Unit","Result-Code":5004,
  "Session-Id":"a1"} -> Request(RequestAnswer { session: SessionId { text: "a1" }, kind: Update,
   number: 1, outcome: Failed(InvalidAvpValue(UsedUnit)) })
{"CC-Request-Number":0,"CC-Request-Type":4,"Cost-Information":{"Currency-Code":1,"Unit-Value":{
  "Exponent":-6,"Value-Digits":0}},"Result-Code":2001,"Session-Id":"a1"} -> Request(RequestAnswer {
   session: SessionId { text: "a1" }, kind: Event, number: 0, outcome: Priced(Cost { micros: 0,
   currency: 1 }) })
{"CC-Request-Number":0,"CC-Request-Type":4,"Cost-Information":{"Currency-Code":999,"Unit-Value":{
  "Exponent":-6,"Value-Digits":1000000000000000000}},"Result-Code":2001,
  "Session-Id":"a1"} -> Request(RequestAnswer { session: SessionId { text: "a1" }, kind: Event,
   number: 0, outcome: Priced(Cost { micros: 1000000000000000000, currency: 999 }) })
{"CC-Request-Number":0,"CC-Request-Type":1,"Multiple-Services-Credit-Control":[{
  "Final-Unit-Indication":{"Final-Unit-Action":0},"Granted-Service-Unit":{
  "CC-Total-Octets":1048576,"Tariff-Time-Change":4102487999},"Rating-Group":0,"Result-Code":2001,
  "Validity-Time":43200},{"Granted-Service-Unit":{"CC-Service-Specific-Units":1},"Rating-Group":1,
  "Result-Code":2001,"Validity-Time":0}],"Result-Code":2001,"Session-Id":"a1"} -> Request(
  RequestAnswer { session: SessionId { text: "a1" }, kind: Initial, number: 0, outcome: Services(
  ServiceAnswers { list: [ServiceAnswer { group: 0, outcome: Granted(GrantedServiceUnit { quantity:
   Quantity { kind: TotalOctets, units: 1048576 }, switch: Some(Moment { seconds: 4102487999 }),
   validity: 43200, last: Some(Terminate) }) }, ServiceAnswer { group: 1, outcome: Granted(
  GrantedServiceUnit { quantity: Quantity { kind: ServiceSpecific, units: 1 }, switch: None,
   validity: 0, last: None }) }] }) })
{"Bucket":4294967295,"Result-Code":2001} -> Bucket(4294967295)
{"Accounts":0,"Result-Code":2001} -> Swept(0)
{"Accounts":18446744073709551615,"Result-Code":2001} -> Swept(18446744073709551615)
{"Refusal":"O3"} -> Refused(VoucherUnknown)
{"Refusal":"O7"} -> Refused(ScopeUnknown)
{"CC-Request-Number":2,"CC-Request-Type":1,"Result-Code":4010,"Session-Id":"f1"} -> Request(
  RequestAnswer { session: SessionId { text: "f1" }, kind: Initial, number: 2, outcome: Failed(
  Denied(EndUserServiceDenied)) })
{"CC-Request-Number":2,"CC-Request-Type":1,"Result-Code":4012,"Session-Id":"f1"} -> Request(
  RequestAnswer { session: SessionId { text: "f1" }, kind: Initial, number: 2, outcome: Failed(
  Denied(CreditLimitReached)) })
{"CC-Request-Number":2,"CC-Request-Type":1,"Result-Code":5002,"Session-Id":"f1"} -> Request(
  RequestAnswer { session: SessionId { text: "f1" }, kind: Initial, number: 2, outcome: Failed(
  UnknownSessionId) })
{"CC-Request-Number":2,"CC-Request-Type":1,"Result-Code":5012,"Session-Id":"f1"} -> Request(
  RequestAnswer { session: SessionId { text: "f1" }, kind: Initial, number: 2, outcome: Failed(
  UnableToComply) })
{"CC-Request-Number":2,"CC-Request-Type":1,"Result-Code":5030,"Session-Id":"f1"} -> Request(
  RequestAnswer { session: SessionId { text: "f1" }, kind: Initial, number: 2, outcome: Failed(
  UserUnknown) })
{"CC-Request-Number":2,"CC-Request-Type":1,"Result-Code":5031,"Session-Id":"f1"} -> Request(
  RequestAnswer { session: SessionId { text: "f1" }, kind: Initial, number: 2, outcome: Failed(
  Denied(RatingFailed)) })
{"Account":"49151","Barred":false,"Buckets":[],"Moment":1767608100} -> Balance(AccountBalance {
   account: AccountNumber { text: "49151" }, barred: false, buckets: BucketBalances { list: [] },
   moment: Moment { seconds: 1767608100 } })
{"Account":"49151","Barred":true,"Buckets":[{"Available":0,"Charged":100000,"Credited":150000,
  "Expired":50000,"From":1767571200,"Number":1,"Reserved":0,"Until":1767607800},{
  "Available":999999999999999,"Charged":0,"Credited":1000000000000000,"Expired":0,
  "From":1767571200,"Number":4294967295,"Reserved":1,"Scope":30,"Until":4102444800}],
  "Moment":1767608100} -> Balance(AccountBalance { account: AccountNumber { text: "49151" },
   barred: true, buckets: BucketBalances { list: [BucketBalance { number: 1, from: Moment {
   seconds: 1767571200 }, until: Moment { seconds: 1767607800 }, scope: None, unit: MicroUnits,
   credited: 150000, available: 0, reserved: 0, charged: 100000, expired: 50000 }, BucketBalance {
   number: 4294967295, from: Moment { seconds: 1767571200 }, until: Moment { seconds: 4102444800 },
   scope: Some(30), unit: MicroUnits, credited: 1000000000000000, available: 999999999999999,
   reserved: 1, charged: 0, expired: 0 }] }, moment: Moment { seconds: 1767608100 } })"##;

/// Texts that aren't the very bytes of an answer.
const FAULTS: &str = r##"x -> no JSON object
[] -> no JSON object
{} -> no JSON object
{"Result-Code":4010} -> no JSON object
{"More":1,"Result-Code":2001} -> no JSON object
{"Result-Code": 2001} -> no JSON object
{"Result-Code":2001,"Bucket":1} -> no JSON object
{"Bucket":4294967296,"Result-Code":2001} -> no JSON object
{"Accounts":-1,"Result-Code":2001} -> no JSON object
{"Account":"49x","Barred":true,"Buckets":[],"Moment":7} -> no JSON object
{"Account":"49151","Barred":1,"Buckets":[],"Moment":7} -> no JSON object
{"Account":"49151","Barred":true,"Buckets":{},"Moment":7} -> no JSON object
{"Account":"49151","Barred":true,"Buckets":[{}],"Moment":7} -> no JSON object
{"Account":"49151","Barred":true,"Buckets":[]} -> no JSON object
{"Account":"49151","Barred":true,"Buckets":[{"Available":1,"Charged":2,"Credited":15,"Expired":8,
  "From":5,"Number":1,"Reserved":4,"Scope":30,"Unit":"micros","Until":9}],
  "Moment":7} -> no JSON object
{"Account":"49151","Barred":true,"Buckets":[{"Available":1,"Charged":2,"Credited":15,"Expired":8,
  "From":5,"Number":1,"Reserved":4,"Scope":30,"Unit":null,"Until":9}],"Moment":7} -> no JSON object
{"Refusal":"O8"} -> no JSON object
{"Refusal":1} -> no JSON object
{"CC-Request-Type":4,"Result-Code":2001,"Session-Id":"r9"} -> no JSON object
{"CC-Request-Number":0,"CC-Request-Type":4,"Result-Code":2002,"Session-Id":"r9"} -> no JSON object
{"CC-Request-Number":1,"CC-Request-Type":2,"Failed-AVP":"More","Result-Code":5004,
  "Session-Id":"s11"} -> no JSON object
{"CC-Request-Number":1,"CC-Request-Type":2,"Result-Code":5004,"Session-Id":"s11"} -> no JSON object
{"CC-Request-Number":0,"CC-Request-Type":4,"Cost-Information":{"Currency-Code":978,"Unit-Value":{
  "Exponent":-5,"Value-Digits":90000}},"Result-Code":2001,"Session-Id":"p1"} -> no JSON object
{"CC-Request-Number":0,"CC-Request-Type":4,"Cost-Information":{"Currency-Code":978},
  "Result-Code":2001,"Session-Id":"p1"} -> no JSON object
{"CC-Request-Number":0,"CC-Request-Type":4,"Check-Balance-Result":2,"Result-Code":2001,
  "Session-Id":"c10"} -> no JSON object"##;

// rule: answers, answers.answers-read-again, answers.in-byte-order, answers.reads-written,
//   balance-text
#[test]
fn answers(rt: HostRuntime) {
    try_told(&rt, rt.alloc(), Told::Answer, SHOWN);
    try_told(&rt, rt.alloc(), Told::Answer, FAULTS);
}
