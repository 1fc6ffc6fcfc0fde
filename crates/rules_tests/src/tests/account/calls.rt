//! The calls of an account as lines of scenarios have them: each by its words, and what it gives as
//! a text. A new call is a function here and an arm of the `match` that it belongs to.

ghost use Rattle.std.specs.Prelude.{◌≡◌, ◌≤◌, true, None};
ghost use Rattle.ledger.specs.Pricing.{validity_of};
ghost use Rattle.reserving.specs.Sessions.{session_in, is_live_in};
ghost use Rattle.reserving.specs.Prepared.{reservation_in};

use crate::tests::tables::Words;
use crate::tests::values::{end, moment, money, session_id};
use identifiers::SessionId;
use reserving::{Account, Granted, Session, SessionGroup, Settled};
use std::alloc::Global;
use std::process::Abort;
use units::{Blocks, Moment, TariffChangeUsage, Units, UsedPart};

/// A call at a moment: its name, and the text that its words are read of.
#[derive(Clone, Copy)]
pub(crate) struct Call<'c> {
    at: Moment,
    name: &'c str,
    text: &'c str,
}

impl<'c> Call<'c> {
    /// The call of a line, `MOMENT NAME TEXT`.
    pub(crate) fn of(rt: &impl Abort, line: &'c str) -> Call<'c> {
        let mut words = Words::of(line);
        Call {
            at: moment(rt, words.number(rt)),
            name: words.word(),
            text: words.rest(),
        }
    }

    fn words(&self) -> Words<'c> {
        Words::of(self.text)
    }
}

/// Whether no request of the session is recorded.
fn is_new(sessions: &[Session], id: &SessionId) -> bool
    ensures { result ≡ true → session_in id.now sessions.now ≡ None }
{
    for session in sessions {
        if session.id == *id {
            return false;
        }
    }
    true
}

/// Whether the session has no reservation of the group.
fn is_free(groups: &[SessionGroup], id: &SessionId, group: u32) -> bool
    ensures { result ≡ true → reservation_in id.now group groups.now ≡ None }
{
    for row in groups {
        if row.session == *id && row.group == group {
            return row.reservation.is_none();
        }
    }
    true
}

/// Ends the test at a moment before the account's last change.
fn must_be_later(rt: &impl Abort, account: &Account, at: Moment)
    ensures { account.now.as_of ≤ at }
{
    assert!(rt; account.as_of() <= at);
}

/// Ends the test also where a request of the session is recorded.
fn must_be_new(rt: &impl Abort, account: &Account, id: &SessionId, at: Moment)
    ensures later { account.now.as_of ≤ at }
    ensures new { session_in id.now account.now.sessions ≡ None }
{
    must_be_later(rt, account, at);
    assert!(rt; is_new(account.sessions(), id));
}

/// Ends the test also where the session isn't live.
fn must_be_live(rt: &impl Abort, account: &Account, id: &SessionId, at: Moment)
    ensures later { account.now.as_of ≤ at }
    ensures live { is_live_in (validity_of account.now.shelf) at account.now.sessions id.now
        ≡ true }
{
    must_be_later(rt, account, at);
    assert!(rt; account.is_live(id, at));
}

/// Ends the test where the session has a reservation of the group.
fn must_be_free(rt: &impl Abort, account: &Account, id: &SessionId, group: u32)
    ensures { reservation_in id.now group account.now.groups ≡ None }
{
    assert!(rt; is_free(account.groups(), id, group));
}

fn tag(word: &str) -> TariffChangeUsage {
    match word {
        "before" => TariffChangeUsage::UnitBeforeTariffChange,
        "after" => TariffChangeUsage::UnitAfterTariffChange,
        _ => TariffChangeUsage::UnitIndeterminate,
    }
}

/// A part of a report: `300`, or `300:before`.
fn part(rt: &impl Abort, word: &str) -> UsedPart {
    let (units, change) = match word.split_once(":") {
        Some((units, change)) => (units, Some(tag(change))),
        None => (word, None),
    };
    UsedPart {
        units: Units(units.parse::<u64>().expect(rt, "units")),
        change,
    }
}

fn report(rt: &impl Abort, alloc: Global, words: &str) -> Vec<UsedPart> {
    let mut parts = Vec::new(alloc);
    for word in words.split(" ") {
        parts.push(part(rt, word)).expect(rt, "memory");
    }
    parts
}

fn answer(rt: &impl Abort, alloc: Global, text: &str) -> String {
    String::from_str(alloc, text).expect(rt, "memory")
}

/// `UNTIL AMOUNT`: the bucket's number.
fn credit(rt: &impl Abort, alloc: Global, account: &mut Account, call: &Call) -> String {
    let mut words = call.words();
    let (until, amount) = (end(rt, words.number(rt)), money(rt, words.number(rt)));
    must_be_later(rt, account, call.at);
    let number = account.credit(call.at, until, None, amount, call.at);
    format!(in alloc; "{}", number.expect(rt, "a bucket")).expect(rt, "memory")
}

/// `UNTIL GROUP BLOCKS`: the bucket's number.
fn allow(rt: &impl Abort, alloc: Global, account: &mut Account, call: &Call) -> String {
    let mut words = call.words();
    let (until, group) = (end(rt, words.number(rt)), words.number(rt));
    let blocks: u64 = words.number(rt);
    must_be_later(rt, account, call.at);
    assert!(rt; 1 <= blocks && blocks <= 1_000_000_000);
    let number = account.allow(call.at, until, group, Blocks(blocks), call.at);
    format!(in alloc; "{}", number.expect(rt, "a bucket")).expect(rt, "memory")
}

/// `SESSION`.
fn open(rt: &impl Abort, alloc: Global, account: &mut Account, call: &Call) -> String {
    let id = session_id(rt, alloc, call.text);
    must_be_new(rt, account, &id, call.at);
    account.open(&id, 0, call.at).expect(rt, "a session");
    answer(rt, alloc, "opened")
}

/// `SESSION`.
fn deny(rt: &impl Abort, alloc: Global, account: &mut Account, call: &Call) -> String {
    let id = session_id(rt, alloc, call.text);
    must_be_new(rt, account, &id, call.at);
    account.deny(&id, 0, call.at).expect(rt, "a session");
    answer(rt, alloc, "denied")
}

/// `SESSION NUMBER`.
fn touch(rt: &impl Abort, alloc: Global, account: &mut Account, call: &Call) -> String {
    let mut words = call.words();
    let (session, number) = (words.word(), words.number(rt));
    let id = session_id(rt, alloc, session);
    must_be_live(rt, account, &id, call.at);
    account.touch(&id, number, call.at);
    answer(rt, alloc, "touched")
}

/// `SESSION`.
fn close(rt: &impl Abort, alloc: Global, account: &mut Account, call: &Call) -> String {
    let id = session_id(rt, alloc, call.text);
    must_be_live(rt, account, &id, call.at);
    account.close(&id, call.at);
    answer(rt, alloc, "closed")
}

fn described(rt: &impl Abort, alloc: Global, granted: Granted) -> String {
    match granted {
        Granted::Nothing => answer(rt, alloc, "nothing"),
        Granted::Units {
            units,
            switch,
            validity,
            fewer,
        } => {
            let switch = switch.map(Moment::seconds);
            let of = if fewer { "fewer" } else { "all" };
            let text = format!(in alloc; "{} {:?} {} {}", units.0, switch, validity, of);
            text.expect(rt, "memory")
        }
    }
}

/// `SESSION GROUP UNITS`: the units granted, the switch, the validity, and whether they are fewer
/// than wanted.
fn reserve(rt: &impl Abort, alloc: Global, account: &mut Account, call: &Call) -> String {
    let mut words = call.words();
    let (session, group) = (words.word(), words.number(rt));
    let units = Some(Units(words.number(rt)));
    let id = session_id(rt, alloc, session);
    must_be_live(rt, account, &id, call.at);
    must_be_free(rt, account, &id, group);
    let granted = account.reserve(&id, group, units, call.at);
    described(rt, alloc, granted.expect(rt, "a grant"))
}

/// The blocks, the price of those that no allowance covers, what of it is collected and isn't, and
/// how many are covered.
fn charged(rt: &impl Abort, alloc: Global, settled: Settled) -> String {
    let (blocks, rated, covered) = (settled.blocks.0, settled.rated.0, settled.covered.0);
    let (collected, uncollected) = (settled.collected.0, settled.uncollected.0);
    let text = format!(in alloc; "{blocks} {rated} {collected} {uncollected} {covered}");
    text.expect(rt, "memory")
}

/// `SESSION GROUP PARTS`: what is charged.
fn settle(rt: &impl Abort, alloc: Global, account: &mut Account, call: &Call) -> String {
    let mut words = call.words();
    let (session, group) = (words.word(), words.number(rt));
    let id = session_id(rt, alloc, session);
    let parts = report(rt, alloc, words.rest());
    must_be_live(rt, account, &id, call.at);
    let settled = account.settle(&id, group, &parts, call.at);
    charged(rt, alloc, settled.expect(rt, "a settlement"))
}

/// `SESSION GROUP CHARGES PARTS`: whether a report would pass a limit after so many charges.
fn limit(rt: &impl Abort, alloc: Global, account: &Account, call: &Call) -> String {
    let mut words = call.words();
    let (session, group, charges) = (words.word(), words.number(rt), words.number(rt));
    let id = session_id(rt, alloc, session);
    let parts = report(rt, alloc, words.rest());
    must_be_live(rt, account, &id, call.at);
    let passes = account
        .count_use(&id, group, &parts, charges, call.at)
        .is_err();
    format!(in alloc; "{passes}").expect(rt, "memory")
}

/// `SESSION GROUP UNITS`: what is charged, if the funds cover it.
fn debit(rt: &impl Abort, alloc: Global, account: &mut Account, call: &Call) -> String {
    let mut words = call.words();
    let (session, group) = (words.word(), words.number(rt));
    let units = Units(words.number(rt));
    let id = session_id(rt, alloc, session);
    must_be_later(rt, account, call.at);
    match account
        .debit(&id, group, units, call.at)
        .expect(rt, "a debit")
    {
        Some(settled) => charged(rt, alloc, settled),
        None => answer(rt, alloc, "not covered"),
    }
}

/// `GROUP UNITS`: what they would cost as an event.
fn quote(rt: &impl Abort, alloc: Global, account: &Account, call: &Call) -> String {
    let mut words = call.words();
    let (group, units) = (words.number(rt), Units(words.number(rt)));
    let price = account.quote(group, units, call.at);
    format!(in alloc; "{}", price.0).expect(rt, "memory")
}

/// `GROUP UNITS`: what those of their blocks would cost as an event that no allowance covers.
fn rest(rt: &impl Abort, alloc: Global, account: &Account, call: &Call) -> String {
    let mut words = call.words();
    let (group, units) = (words.number(rt), Units(words.number(rt)));
    must_be_later(rt, account, call.at);
    let price = account.quote_rest(group, units, call.at);
    format!(in alloc; "{}", price.0).expect(rt, "memory")
}

/// `GROUP`: the funds for it, and whether 600 units of it would be granted.
fn funds(rt: &impl Abort, alloc: Global, account: &Account, call: &Call) -> String {
    let group = call.words().number(rt);
    must_be_later(rt, account, call.at);
    let grants = account.would_grant(group, Some(Units(600)), call.at);
    let funds = account.funds(group, call.at);
    format!(in alloc; "{} {grants}", funds.0).expect(rt, "memory")
}

/// `SESSION`: its last number, its state, and whether it is live at the moment.
fn session(rt: &impl Abort, alloc: Global, account: &Account, call: &Call) -> String {
    let id = session_id(rt, alloc, call.text);
    let live = account.is_live(&id, call.at);
    match account.session(&id) {
        Some(row) => {
            let text = format!(in alloc; "{} {:?} {live}", row.last_number, row.state);
            text.expect(rt, "memory")
        }
        None => answer(rt, alloc, "unknown"),
    }
}

/// Each counter's group, cycle and blocks.
fn counters(rt: &impl Abort, alloc: Global, account: &Account) -> String {
    let mut text = String::new(alloc);
    for counter in account.counters() {
        let line = format!(in alloc; "{} {} {};", counter.group, counter.cycle, counter.blocks);
        let line = line.expect(rt, "memory");
        text.push_str(line.as_str()).expect(rt, "memory");
    }
    text
}

fn advance(rt: &impl Abort, alloc: Global, account: &mut Account, call: &Call) -> String {
    must_be_later(rt, account, call.at);
    account.advance(call.at);
    answer(rt, alloc, "advanced")
}

/// `on` or `off`: whether the account is barred then.
fn bar(rt: &impl Abort, alloc: Global, account: &mut Account, call: &Call) -> String {
    must_be_later(rt, account, call.at);
    account.set_barred(call.text == "on", call.at);
    format!(in alloc; "{}", account.is_barred()).expect(rt, "memory")
}

/// What a call gives that changes nothing.
fn read(rt: &impl Abort, alloc: Global, account: &Account, call: &Call) -> String {
    match call.name {
        "limit" => limit(rt, alloc, account, call),
        "quote" => quote(rt, alloc, account, call),
        "rest" => rest(rt, alloc, account, call),
        "funds" => funds(rt, alloc, account, call),
        "session" => session(rt, alloc, account, call),
        _ => counters(rt, alloc, account),
    }
}

/// What a call gives, first of those that change a session or the account alone.
fn step(rt: &impl Abort, alloc: Global, account: &mut Account, call: &Call) -> String {
    match call.name {
        "open" => open(rt, alloc, account, call),
        "deny" => deny(rt, alloc, account, call),
        "touch" => touch(rt, alloc, account, call),
        "close" => close(rt, alloc, account, call),
        "bar" => bar(rt, alloc, account, call),
        "advance" => advance(rt, alloc, account, call),
        _ => read(rt, alloc, account, call),
    }
}

/// What a call gives, first of those that change money.
pub(crate) fn outcome(
    rt: &impl Abort,
    alloc: Global,
    account: &mut Account,
    call: &Call,
) -> String {
    match call.name {
        "credit" => credit(rt, alloc, account, call),
        "allow" => allow(rt, alloc, account, call),
        "reserve" => reserve(rt, alloc, account, call),
        "settle" => settle(rt, alloc, account, call),
        "debit" => debit(rt, alloc, account, call),
        _ => step(rt, alloc, account, call),
    }
}
