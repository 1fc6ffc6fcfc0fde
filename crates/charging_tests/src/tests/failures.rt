//! A store that fails at a call: what was accepted is a beginning of the list of commands, and what
//! is handed in later goes on from there.

use crate::tests::lines::commands_between;
use crate::tests::rows::push_rows;
use crate::tests::scenarios::{assert_told, push_told, shelf, try_all, whole_lines};
use charging::run;
use keepers::{Failing, Keeper, MemoryKeeper, StoreFault};
use shelves::TariffShelf;
use std::alloc::Global;
use std::process::Abort;

/// Twelve commands, which call a keeper in each way that there is: an account is opened and
/// credited; a session begins, reports, and sends its report again; the account is barred and gets
/// money back; a voucher is added, and the account redeems it; its money is checked; a sweep ends
/// the session; and a balance is asked for.
const TWELVE: &str = r##"1767571200 open 49151
= {"Result-Code":2001}
1767571200 credit 49151 {"Amount":1000000,"Reference":"c1"}
= {"Bucket":1,"Result-Code":2001}
1767607200 {"Session-Id":"s1","CC-Request-Type":1,"CC-Request-Number":0,
  "Subscription-Id":{"Subscription-Id-Type":0,"Subscription-Id-Data":"49151"},
  "Multiple-Services-Credit-Control":[{"Rating-Group":10,"Requested-Service-Unit":{"CC-Time":600}}]}
= {"CC-Request-Number":0,"CC-Request-Type":1,
  "Multiple-Services-Credit-Control":[{"Granted-Service-Unit":{"CC-Time":600},"Rating-Group":10,
  "Result-Code":2001,"Validity-Time":3600}],"Result-Code":2001,"Session-Id":"s1"}
1767607500 {"Session-Id":"s1","CC-Request-Type":2,"CC-Request-Number":1,
  "Subscription-Id":{"Subscription-Id-Type":0,"Subscription-Id-Data":"49151"},
  "Multiple-Services-Credit-Control":[{"Rating-Group":10,"Requested-Service-Unit":{"CC-Time":60},
  "Used-Service-Unit":[{"CC-Time":60}]}]}
= {"CC-Request-Number":1,"CC-Request-Type":2,
  "Multiple-Services-Credit-Control":[{"Granted-Service-Unit":{"CC-Time":60},"Rating-Group":10,
  "Result-Code":2001,"Validity-Time":3600}],"Result-Code":2001,"Session-Id":"s1"}
1767607560 {"Session-Id":"s1","CC-Request-Type":2,"CC-Request-Number":1,
  "Subscription-Id":{"Subscription-Id-Type":0,"Subscription-Id-Data":"49151"},
  "Multiple-Services-Credit-Control":[{"Rating-Group":10,"Requested-Service-Unit":{"CC-Time":60},
  "Used-Service-Unit":[{"CC-Time":60}]}]}
= {"CC-Request-Number":1,"CC-Request-Type":2,
  "Multiple-Services-Credit-Control":[{"Granted-Service-Unit":{"CC-Time":60},"Rating-Group":10,
  "Result-Code":2001,"Validity-Time":3600}],"Result-Code":2001,"Session-Id":"s1"}
1767607560 bar 49151
= {"Result-Code":2001}
1767607620 {"Session-Id":"r1","CC-Request-Type":4,"CC-Request-Number":0,
  "Subscription-Id":{"Subscription-Id-Type":0,"Subscription-Id-Data":"49151"},"Requested-Action":1,
  "Requested-Service-Unit":{"CC-Money":{"Unit-Value":{"Value-Digits":1,"Exponent":-6},
  "Currency-Code":978}}}
= {"CC-Request-Number":0,"CC-Request-Type":4,"Result-Code":2001,"Session-Id":"r1"}
1767607680 add 000000000001 5000000 30 -
= {"Result-Code":2001}
1767607740 redeem 49151 000000000001 v1
= {"Bucket":3,"Result-Code":2001}
1767607800 {"Session-Id":"k1","CC-Request-Type":4,"CC-Request-Number":0,
  "Subscription-Id":{"Subscription-Id-Type":0,"Subscription-Id-Data":"49151"},"Requested-Action":2,
  "Multiple-Services-Credit-Control":[{"Rating-Group":30,"Requested-Service-Unit":{}}]}
= {"CC-Request-Number":0,"CC-Request-Type":4,"Check-Balance-Result":0,"Result-Code":2001,
  "Session-Id":"k1"}
1767614700 sweep
= {"Accounts":1,"Result-Code":2001}
1767614700 balance 49151
= {"Account":"49151","Barred":true,"Buckets":[{"Available":900000,"Charged":100000,
  "Credited":1000000,"Expired":0,"From":1767571200,"Number":1,"Reserved":0,"Until":4102444800},
  {"Available":1,"Charged":0,"Credited":1,"Expired":0,"From":1767607620,"Number":2,"Reserved":0,
  "Until":4102444800},{"Available":5000000,"Charged":0,"Credited":5000000,"Expired":0,
  "From":1767607740,"Number":3,"Reserved":0,"Until":1770249600}],"Moment":1767614700}
last: 1767614700
voucher 000000000001: 49151
account: 1767614700 true 2
buckets: (5000000; 5000000, 0, 0, 0) (1000000; 900000, 0, 100000, 0) (1; 1, 0, 0, 0)
counters: 10 0 1;
sessions: r1 0 1767607620 NeverOpened; s1 1 1767607500 Ended;
groups: s1 10 used 60 not reserved;
charges: 1 at 1767607500 of s1 10 1 100000 100000 0;"##;

#[test]
fn twelve_commands(rt: HostRuntime) {
    try_all(&rt, rt.alloc(), &[TWELVE]);
}

/// What commands come to over a store.
#[derive(Drop)]
struct Outcome {
    /// How many are answered.
    answered: usize,
    /// The number of the store fault that stopped them; 0 where none did.
    fault: u8,
    /// How many failures the keeper has counted.
    failures: u64,
    /// The answers, and the rows after them.
    text: String,
}

/// The number of a store fault; 0 where there is none.
fn fault_number(fault: Option<StoreFault>) -> u8 {
    match fault {
        Some(fault) => fault.number(),
        None => 0,
    }
}

/// Hands in the commands among these lines from the one after so many on, as far as so many.
fn hand_in(
    rt: &impl Abort,
    alloc: Global,
    keeper: &mut Failing<MemoryKeeper>,
    shelf: &TariffShelf,
    lines: &str,
    between: (usize, usize),
) -> Outcome {
    let commands = commands_between(rt, alloc, lines, between);
    let run = run(alloc, keeper, shelf, commands);
    let failures = keeper.failures();
    let mut text = String::new(alloc);
    for answer in &run.answers {
        push_told(rt, &mut text, answer.text());
    }
    push_rows(rt, alloc, &mut text, &mut keeper.inner, shelf);
    Outcome {
        answered: run.answers.len(),
        fault: fault_number(run.fault),
        failures,
        text,
    }
}

/// Asserts that the fault and the count of failures are those of one failure, which stays counted,
/// or of none where all twelve commands are answered.
fn assert_counted(rt: &impl Abort, stopped: &Outcome, later: &Outcome) {
    let (fault, count) = if stopped.answered < 12 {
        (2, 1)
    } else {
        (0, 0)
    };
    assert_eq!(rt; stopped.fault, fault);
    assert_eq!(rt; stopped.failures, count);
    assert_eq!(rt; later.failures, count);
}

/// How many of these commands a store answers that fails once. Then the rows are those that these
/// commands leave over one that doesn't, and the commands from the one on that failed go on as if
/// nothing had failed.
fn try_failing(
    rt: &impl Abort,
    alloc: Global,
    shelf: &TariffShelf,
    lines: &str,
    (failing, sound): (&mut Failing<MemoryKeeper>, &mut Failing<MemoryKeeper>),
) -> usize {
    let stopped = hand_in(rt, alloc, failing, shelf, lines, (0, 12));
    let answered = stopped.answered;
    let beginning = hand_in(rt, alloc, sound, shelf, lines, (0, answered));
    assert_told(rt, stopped.text.as_str(), beginning.text.as_str());
    let later = hand_in(rt, alloc, failing, shelf, lines, (answered, 12));
    let others = hand_in(rt, alloc, sound, shelf, lines, (answered, 12));
    assert_told(rt, later.text.as_str(), others.text.as_str());
    assert_counted(rt, &stopped, &later);
    answered
}

/// The same of a store that fails at the call after so many.
fn try_failing_after(
    rt: &impl Abort,
    alloc: Global,
    shelf: &TariffShelf,
    lines: &str,
    calls: u64,
) -> usize {
    let mut failing = Failing::new(MemoryKeeper::new(alloc), calls);
    let mut sound = Failing::new(MemoryKeeper::new(alloc), u64::MAX);
    try_failing(rt, alloc, shelf, lines, (&mut failing, &mut sound))
}

/// The store fails at its first call, then at its second, and so on until a run meets no failure.
// rule: refused, store-faults, stop-run.writes
#[test]
fn a_store_that_fails_at_each_call(rt: HostRuntime) {
    let alloc = rt.alloc();
    let shelf = shelf(&rt, alloc);
    let lines = whole_lines(&rt, alloc, TWELVE);
    let mut calls_of_all = 0;
    for calls in 0..99 {
        if try_failing_after(&rt, alloc, &shelf, lines.as_str(), calls) == 12 {
            calls_of_all = calls;
            break;
        }
    }
    assert!(rt; 12 < calls_of_all);
}
