//! Credits that are used up: what a further command writes is no more than after the first.

use crate::tests::counting::{Counting, Counts, no_counts};
use crate::tests::lines::all_commands;
use crate::tests::rows::push;
use crate::tests::scenarios::{shelf, whole_lines};
use charging::run;
use keepers::MemoryKeeper;
use std::alloc::Global;
use std::process::Abort;

/// A credit of an event's price but for its number, and a debit of one event but for its session's.
const CREDIT: (&str, &str) = (r#"{"Amount":90000,"Reference":"c"#, r#""}"#);

const DEBIT: (&str, &str) = (
    r#"{"Session-Id":"d"#,
    r#"","CC-Request-Type":4,"CC-Request-Number":0,
  "Subscription-Id":{"Subscription-Id-Type":0,"Subscription-Id-Data":"49151"},
  "Requested-Action":0,"Multiple-Services-Credit-Control":[{"Rating-Group":30,
  "Requested-Service-Unit":{"CC-Service-Specific-Units":1}}]}"#,
);

/// Two minutes a turn: the credit, and a minute after it the debit.
fn moment_of(turn: u64, seconds: u64) -> u64 {
    turn.saturating_mul(120)
        .saturating_add(1_767_607_200)
        .saturating_add(seconds)
}

fn push_credit(rt: &impl Abort, text: &mut String, turn: u64) {
    write!(text, "{} credit 49151 {}", moment_of(turn, 0), CREDIT.0).expect(rt, "memory");
    write!(text, "{}{}\n", turn, CREDIT.1).expect(rt, "memory");
}

fn push_debit(rt: &impl Abort, text: &mut String, turn: u64) {
    write!(text, "{} {}", moment_of(turn, 60), DEBIT.0).expect(rt, "memory");
    write!(text, "{}{}\n", turn, DEBIT.1).expect(rt, "memory");
}

/// An account is opened, and credited and debited so many times; then it is credited and debited
/// once more.
fn push_turns(rt: &impl Abort, text: &mut String, count: u64) {
    push(rt, text, "1767607200 open 49151\n");
    for turn in 0..count {
        push_credit(rt, text, turn);
        push_debit(rt, text, turn);
    }
    push_credit(rt, text, count);
    push_debit(rt, text, count);
}

/// How many rows of each kind a change names: of the moment, the account, buckets, counters,
/// sessions, groups, answers and charges.
fn push_named(rt: &impl Abort, text: &mut String, counts: Counts) {
    let Counts {
        buckets,
        counters,
        sessions,
        groups,
        answers,
        charges,
    } = counts;
    write!(text, " rows: 1 1 {buckets} {counters} {sessions}").expect(rt, "memory");
    write!(text, " {groups} {answers} {charges}").expect(rt, "memory");
}

/// After so many credits that were used up and one more, how many commands were answered, and the
/// rows that the last debit's change names, as the keeper is handed it.
fn after_turns(rt: &impl Abort, alloc: Global, count: u64) -> String {
    let shelf = shelf(rt, alloc);
    let mut lines = String::new(alloc);
    push_turns(rt, &mut lines, count);
    let lines = whole_lines(rt, alloc, lines.as_str());
    let mut keeper = Counting {
        inner: MemoryKeeper::new(alloc),
        counts: no_counts(),
    };
    let commands = all_commands(rt, alloc, lines.as_str());
    let answered = run(alloc, &mut keeper, &shelf, commands).answers.len();
    let mut text = String::new(alloc);
    write!(text, "answers: {answered};").expect(rt, "memory");
    push_named(rt, &mut text, keeper.counts);
    text
}

/// Eight rows are written: the moment, the account, its bucket, counter, session and group, the
/// answer and the charge.
// rule: dead-rows, dead-rows.dead-for-good, database-loads.with
#[test]
fn a_debit_after_a_hundred_that_are_used_up(rt: HostRuntime) {
    let told = after_turns(&rt, rt.alloc(), 100);
    assert_eq!(rt; told.as_str(), "answers: 203; rows: 1 1 1 1 1 1 1 1");
}
