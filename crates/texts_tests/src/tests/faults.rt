//! The faults of bodies that aren't read as requests, as texts and as answers.

use crate::tests::tables::{Told, try_told};
use std::alloc::Global;
use std::process::Abort;
use wire::{Scratch, read_request, write_fault};

/// The fault of a body, and the text that answers it.
pub(crate) fn told(rt: &impl Abort, alloc: Global, body: &str) -> String {
    let fault = read_request(alloc, body.as_bytes(), &mut Scratch::new(alloc))
        .err()
        .expect(rt, "a fault");
    let answer = write_fault(alloc, fault).expect(rt, "memory");
    format!(in alloc; "{fault} {}", answer.as_str()).expect(rt, "memory")
}

/// Each member that a request can have, missing and invalid.
const FAULTS: &str = r##"{} -> Session-Id is missing {"Failed-AVP":"Session-Id","Result-Code":5005}
{"Session-Id":"s","CC-Request-Type":5} -> CC-Request-Type is invalid {
  "Failed-AVP":"CC-Request-Type","Result-Code":5004}
[] -> no JSON object {"Result-Code":5012}
 -> no JSON object {"Result-Code":5012}
5 -> no JSON object {"Result-Code":5012}
{"Session-Id":5} -> Session-Id is invalid {"Failed-AVP":"Session-Id","Result-Code":5004}
{"Session-Id":"s"} -> CC-Request-Type is missing {"Failed-AVP":"CC-Request-Type","Result-Code":5005}
{"Session-Id":"s","CC-Request-Type":1} -> CC-Request-Number is missing {
  "Failed-AVP":"CC-Request-Number","Result-Code":5005}
{"Session-Id":"s","CC-Request-Type":1,"CC-Request-Number":-1} -> CC-Request-Number is invalid {
  "Failed-AVP":"CC-Request-Number","Result-Code":5004}
{"Session-Id":"s","CC-Request-Type":1,"CC-Request-Number":0} -> Subscription-Id is missing {
  "Failed-AVP":"Subscription-Id","Result-Code":5005}
{"Session-Id":"s","CC-Request-Type":1,"CC-Request-Number":0,
  "Subscription-Id":5} -> Subscription-Id is invalid {"Failed-AVP":"Subscription-Id",
  "Result-Code":5004}
{"Session-Id":"s","CC-Request-Type":1,"CC-Request-Number":0,"Subscription-Id":{
  }} -> Subscription-Id-Type is missing {"Failed-AVP":"Subscription-Id-Type","Result-Code":5005}
{"Session-Id":"s","CC-Request-Type":1,"CC-Request-Number":0,"Subscription-Id":{
  "Subscription-Id-Type":1}} -> Subscription-Id-Type is invalid {
  "Failed-AVP":"Subscription-Id-Type","Result-Code":5004}
{"Session-Id":"s","CC-Request-Type":1,"CC-Request-Number":0,"Subscription-Id":{
  "Subscription-Id-Type":0}} -> Subscription-Id-Data is missing {
  "Failed-AVP":"Subscription-Id-Data","Result-Code":5005}
{"Session-Id":"s","CC-Request-Type":1,"CC-Request-Number":0,"Subscription-Id":{
  "Subscription-Id-Type":0,"Subscription-Id-Data":""}} -> Subscription-Id-Data is invalid {
  "Failed-AVP":"Subscription-Id-Data","Result-Code":5004}
{"Session-Id":"s","CC-Request-Type":4,"CC-Request-Number":0,"Subscription-Id":{
  "Subscription-Id-Type":0,"Subscription-Id-Data":"1"}} -> Requested-Action is missing {
  "Failed-AVP":"Requested-Action","Result-Code":5005}
{"Session-Id":"s","CC-Request-Type":4,"CC-Request-Number":0,"Subscription-Id":{
  "Subscription-Id-Type":0,"Subscription-Id-Data":"1"},
  "Requested-Action":4} -> Requested-Action is invalid {"Failed-AVP":"Requested-Action",
  "Result-Code":5004}
{"Session-Id":"s","CC-Request-Type":1,"CC-Request-Number":0,"Subscription-Id":{
  "Subscription-Id-Type":0,"Subscription-Id-Data":"1"}} -> Multiple-Services-Credit-Control is
   missing {"Failed-AVP":"Multiple-Services-Credit-Control","Result-Code":5005}
{"Session-Id":"s","CC-Request-Type":1,"CC-Request-Number":0,"Subscription-Id":{
  "Subscription-Id-Type":0,"Subscription-Id-Data":"1"},"Multiple-Services-Credit-Control":[
  ]} -> Multiple-Services-Credit-Control is invalid {
  "Failed-AVP":"Multiple-Services-Credit-Control","Result-Code":5004}
{"Session-Id":"s","CC-Request-Type":1,"CC-Request-Number":0,"Subscription-Id":{
  "Subscription-Id-Type":0,"Subscription-Id-Data":"1"},"Multiple-Services-Credit-Control":[{
  }]} -> Rating-Group is missing {"Failed-AVP":"Rating-Group","Result-Code":5005}
{"Session-Id":"s","CC-Request-Type":1,"CC-Request-Number":0,"Subscription-Id":{
  "Subscription-Id-Type":0,"Subscription-Id-Data":"1"},"Multiple-Services-Credit-Control":[{
  "Rating-Group":null}]} -> Rating-Group is invalid {"Failed-AVP":"Rating-Group","Result-Code":5004}
{"Session-Id":"s","CC-Request-Type":1,"CC-Request-Number":0,"Subscription-Id":{
  "Subscription-Id-Type":0,"Subscription-Id-Data":"1"},"Multiple-Services-Credit-Control":[{
  "Rating-Group":1}]} -> Requested-Service-Unit is missing {"Failed-AVP":"Requested-Service-Unit",
  "Result-Code":5005}
{"Session-Id":"s","CC-Request-Type":1,"CC-Request-Number":0,"Subscription-Id":{
  "Subscription-Id-Type":0,"Subscription-Id-Data":"1"},"Multiple-Services-Credit-Control":[{
  "Rating-Group":1,"Requested-Service-Unit":5}]} -> Requested-Service-Unit is invalid {
  "Failed-AVP":"Requested-Service-Unit","Result-Code":5004}
{"Session-Id":"s","CC-Request-Type":3,"CC-Request-Number":0,"Subscription-Id":{
  "Subscription-Id-Type":0,"Subscription-Id-Data":"1"},"Multiple-Services-Credit-Control":[{
  "Rating-Group":1,"Used-Service-Unit":5}]} -> Used-Service-Unit is invalid {
  "Failed-AVP":"Used-Service-Unit","Result-Code":5004}
{"Session-Id":"s","CC-Request-Type":4,"CC-Request-Number":0,"Subscription-Id":{
  "Subscription-Id-Type":0,"Subscription-Id-Data":"1"},
  "Requested-Action":1} -> Requested-Service-Unit is missing {
  "Failed-AVP":"Requested-Service-Unit","Result-Code":5005}
{"Session-Id":"s","CC-Request-Type":4,"CC-Request-Number":0,"Subscription-Id":{
  "Subscription-Id-Type":0,"Subscription-Id-Data":"1"},"Requested-Action":1,
  "Requested-Service-Unit":5} -> Requested-Service-Unit is invalid {
  "Failed-AVP":"Requested-Service-Unit","Result-Code":5004}
{"Session-Id":"s","CC-Request-Type":4,"CC-Request-Number":0,"Subscription-Id":{
  "Subscription-Id-Type":0,"Subscription-Id-Data":"1"},"Requested-Action":1,
  "Requested-Service-Unit":{}} -> CC-Money is missing {"Failed-AVP":"CC-Money","Result-Code":5005}
{"Session-Id":"s","CC-Request-Type":4,"CC-Request-Number":0,"Subscription-Id":{
  "Subscription-Id-Type":0,"Subscription-Id-Data":"1"},"Requested-Action":1,
  "Requested-Service-Unit":{"CC-Money":5}} -> CC-Money is invalid {"Failed-AVP":"CC-Money",
  "Result-Code":5004}
{"Session-Id":"s","CC-Request-Type":4,"CC-Request-Number":0,"Subscription-Id":{
  "Subscription-Id-Type":0,"Subscription-Id-Data":"1"},"Requested-Action":1,
  "Requested-Service-Unit":{"CC-Money":{}}} -> Unit-Value is missing {"Failed-AVP":"Unit-Value",
  "Result-Code":5005}
{"Session-Id":"s","CC-Request-Type":4,"CC-Request-Number":0,"Subscription-Id":{
  "Subscription-Id-Type":0,"Subscription-Id-Data":"1"},"Requested-Action":1,
  "Requested-Service-Unit":{"CC-Money":{"Unit-Value":5}}} -> Unit-Value is invalid {
  "Failed-AVP":"Unit-Value","Result-Code":5004}
{"Session-Id":"s","CC-Request-Type":4,"CC-Request-Number":0,"Subscription-Id":{
  "Subscription-Id-Type":0,"Subscription-Id-Data":"1"},"Requested-Action":1,
  "Requested-Service-Unit":{"CC-Money":{"Unit-Value":{}}}} -> Value-Digits is missing {
  "Failed-AVP":"Value-Digits","Result-Code":5005}
{"Session-Id":"s","CC-Request-Type":4,"CC-Request-Number":0,"Subscription-Id":{
  "Subscription-Id-Type":0,"Subscription-Id-Data":"1"},"Requested-Action":1,
  "Requested-Service-Unit":{"CC-Money":{"Unit-Value":{
  "Value-Digits":0}}}} -> Value-Digits is invalid {"Failed-AVP":"Value-Digits","Result-Code":5004}
{"Session-Id":"s","CC-Request-Type":4,"CC-Request-Number":0,"Subscription-Id":{
  "Subscription-Id-Type":0,"Subscription-Id-Data":"1"},"Requested-Action":1,
  "Requested-Service-Unit":{"CC-Money":{"Unit-Value":{"Value-Digits":1,
  "Exponent":1}}}} -> Exponent is invalid {"Failed-AVP":"Exponent","Result-Code":5004}
{"Session-Id":"s","CC-Request-Type":4,"CC-Request-Number":0,"Subscription-Id":{
  "Subscription-Id-Type":0,"Subscription-Id-Data":"1"},"Requested-Action":1,
  "Requested-Service-Unit":{"CC-Money":{"Unit-Value":{
  "Value-Digits":1}}}} -> Currency-Code is missing {"Failed-AVP":"Currency-Code","Result-Code":5005}
{"Session-Id":"s","CC-Request-Type":4,"CC-Request-Number":0,"Subscription-Id":{
  "Subscription-Id-Type":0,"Subscription-Id-Data":"1"},"Requested-Action":1,
  "Requested-Service-Unit":{"CC-Money":{"Unit-Value":{"Value-Digits":1},
  "Currency-Code":1000}}} -> Currency-Code is invalid {"Failed-AVP":"Currency-Code",
  "Result-Code":5004}"##;

// rule: codes
#[test]
fn faults(rt: HostRuntime) {
    try_told(&rt, rt.alloc(), Told::Fault, FAULTS);
}
