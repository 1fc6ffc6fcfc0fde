//! Rows as words: a line each, its kind and then its columns.

use buckets::{Bucket, Columns};
use ledger::ChargeRow;
use reserving::{Account, Counter, Reservation, Session, SessionGroup, SessionState};
use std::process::Abort;
use voucher_rules::Voucher;

/// Adds words to a line.
pub(crate) fn push(rt: &impl Abort, text: &mut String, words: &str) {
    text.push_str(words).expect(rt, "room");
}

/// Adds a number, or `-` for none.
pub(crate) fn push_perhaps(rt: &impl Abort, text: &mut String, number: Option<u32>) {
    match number {
        Some(number) => write!(text, " {number}").expect(rt, "room"),
        None => push(rt, text, " -"),
    }
}

pub(crate) fn push_columns(rt: &impl Abort, text: &mut String, row: &Columns) {
    let (number, from, until) = (row.number, row.from.seconds(), row.until.seconds());
    write!(text, "bucket {number} {from} {until}").expect(rt, "room");
    push_perhaps(rt, text, row.scope);
    let (credited, available, reserved) = (row.credited, row.available, row.reserved);
    write!(text, " {credited} {available} {reserved}").expect(rt, "room");
    let (charged, expired) = (row.charged, row.expired);
    write!(text, " {charged} {expired}\n").expect(rt, "room");
}

/// The columns of a bucket.
fn columns_of(bucket: &Bucket) -> Columns {
    Columns {
        number: bucket.number(),
        kind: bucket.kind(),
        from: bucket.from(),
        until: bucket.until(),
        scope: bucket.scope(),
        credited: bucket.credited(),
        available: bucket.available(),
        reserved: bucket.reserved(),
        charged: bucket.charged(),
        expired: bucket.expired(),
    }
}

pub(crate) fn push_buckets(rt: &impl Abort, text: &mut String, rows: &[Bucket]) {
    for row in rows {
        push_columns(rt, text, &columns_of(row));
    }
}

pub(crate) fn push_counters(rt: &impl Abort, text: &mut String, rows: &[Counter]) {
    for row in rows {
        let (group, cycle, blocks) = (row.group, row.cycle, row.blocks);
        write!(text, "counter {group} {cycle} {blocks}\n").expect(rt, "room");
    }
}

fn state_word(state: SessionState) -> &'static str {
    match state {
        SessionState::Open => "open",
        SessionState::Ended => "ended",
        SessionState::NeverOpened => "never",
    }
}

pub(crate) fn push_session(rt: &impl Abort, text: &mut String, row: &Session) {
    let (id, number, touched) = (row.id.as_str(), row.last_number, row.touched.seconds());
    let state = state_word(row.state);
    write!(text, "session {id} {number} {touched} {state}\n").expect(rt, "room");
}

pub(crate) fn push_sessions(rt: &impl Abort, text: &mut String, rows: &[Session]) {
    for row in rows {
        push_session(rt, text, row);
    }
}

/// The place of each period, and what is held of each bucket.
fn push_reservation(rt: &impl Abort, text: &mut String, reservation: &Reservation) {
    let periods = reservation.terms.periods;
    let (before, after) = (periods.before.0, periods.after.0);
    write!(text, " {before} {after}").expect(rt, "room");
    for hold in reservation.holds.as_slice() {
        let (bucket, amount) = (hold.bucket, hold.amount);
        write!(text, " {bucket} {amount}").expect(rt, "room");
    }
}

pub(crate) fn push_groups(rt: &impl Abort, text: &mut String, rows: &[SessionGroup]) {
    for row in rows {
        let (id, group, used) = (row.session.as_str(), row.group, row.used);
        write!(text, "group {id} {group} {used}").expect(rt, "room");
        if let Some(reservation) = &row.reservation {
            push_reservation(rt, text, reservation);
        }
        push(rt, text, "\n");
    }
}

pub(crate) fn push_charge(rt: &impl Abort, text: &mut String, row: &ChargeRow) {
    let (number, at, id, group) = (
        row.number,
        row.moment.seconds(),
        row.session.as_str(),
        row.group,
    );
    write!(text, "charge {number} {at} {id} {group}").expect(rt, "room");
    let (blocks, rated) = (row.blocks.0, row.rated.0);
    let (collected, uncollected) = (row.collected.0, row.uncollected.0);
    write!(text, " {blocks} {rated} {collected} {uncollected}\n").expect(rt, "room");
}

pub(crate) fn push_charges(rt: &impl Abort, text: &mut String, rows: &[ChargeRow]) {
    for row in rows {
        push_charge(rt, text, row);
    }
}

/// What may still change of an account.
pub(crate) fn push_account(rt: &impl Abort, text: &mut String, account: &Account) {
    let (at, next) = (account.as_of().seconds(), account.next_charge());
    write!(text, "account as of {at}, next charge {next}\n").expect(rt, "room");
    push_buckets(rt, text, account.purse().buckets());
    push_counters(rt, text, account.counters());
    push_sessions(rt, text, account.sessions());
    push_groups(rt, text, account.groups());
}

/// Its amount, its days, its scope, and who redeemed it.
pub(crate) fn push_voucher(rt: &impl Abort, text: &mut String, voucher: &Voucher) {
    let micros = voucher.terms.amount().micros();
    write!(text, "voucher {micros}").expect(rt, "room");
    push_perhaps(rt, text, voucher.terms.days());
    push_perhaps(rt, text, voucher.terms.scope());
    match &voucher.redeemer {
        Some(account) => write!(text, " spent by {}\n", account.as_str()).expect(rt, "room"),
        None => push(rt, text, " unspent\n"),
    }
}
