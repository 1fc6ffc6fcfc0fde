//! The rows of accounts as text, a line a table. No other file says how a row is written.

use crate::tests::lines::{account, code};
use buckets::Bucket;
use identifiers::AccountNumber;
use keepers::{Keeper, MemoryKeeper, WholeAccount};
use ledger::ChargeRow;
use reserving::{Account, Counter, Session, SessionGroup};
use shelves::TariffShelf;
use std::alloc::Global;
use std::process::Abort;

/// Puts words behind a text.
pub(crate) fn push(rt: &impl Abort, text: &mut String, words: &str) {
    text.push_str(words).expect(rt, "memory");
}

/// Each bucket: what was credited; what of it is available, reserved, charged and expired.
pub(crate) fn push_buckets(rt: &impl Abort, text: &mut String, rows: &[Bucket]) {
    push(rt, text, "buckets:");
    for row in rows {
        let (credited, available) = (row.credited(), row.available());
        let (reserved, charged, expired) = (row.reserved(), row.charged(), row.expired());
        write!(text, " ({credited}; {available}, {reserved}").expect(rt, "memory");
        write!(text, ", {charged}, {expired})").expect(rt, "memory");
    }
}

/// Each counter's group, cycle and blocks.
fn push_counters(rt: &impl Abort, text: &mut String, rows: &[Counter]) {
    push(rt, text, "counters:");
    for row in rows {
        write!(text, " {} {} {};", row.group, row.cycle, row.blocks).expect(rt, "memory");
    }
}

/// Each session's name, last number, last moment and state.
fn push_sessions(rt: &impl Abort, text: &mut String, rows: &[Session]) {
    push(rt, text, "sessions:");
    for row in rows {
        let (id, touched) = (row.id.as_str(), row.touched.seconds());
        write!(text, " {id} {} {touched} {:?};", row.last_number, row.state).expect(rt, "memory");
    }
}

/// What is held, as bucket and amount.
fn push_held(rt: &impl Abort, text: &mut String, row: &SessionGroup) {
    let Some(reservation) = &row.reservation else {
        push(rt, text, " not reserved;");
        return;
    };
    push(rt, text, " holds");
    for hold in reservation.holds.as_slice() {
        write!(text, " {} {}", hold.bucket, hold.amount).expect(rt, "memory");
    }
    push(rt, text, ";");
}

/// What each session has used of each group, and what it holds for it.
fn push_groups(rt: &impl Abort, text: &mut String, rows: &[SessionGroup]) {
    push(rt, text, "groups:");
    for row in rows {
        let id = row.session.as_str();
        write!(text, " {id} {} used {}", row.group, row.used).expect(rt, "memory");
        push_held(rt, text, row);
    }
}

/// A charge's number, moment, session and group, its blocks, its amounts: rated, collected,
/// uncollected; and how many of the blocks allowances covered, where they did.
fn push_charge(rt: &impl Abort, text: &mut String, row: &ChargeRow) {
    let (at, id) = (row.moment.seconds(), row.session.as_str());
    write!(text, " {} at {at} of {id} {}", row.number, row.group).expect(rt, "memory");
    let (rated, collected) = (row.rated.0, row.collected.0);
    let (blocks, uncollected) = (row.blocks.0, row.uncollected.0);
    write!(text, " {blocks} {rated} {collected} {uncollected}").expect(rt, "memory");
    if 0 < row.covered.0 {
        write!(text, " covered {}", row.covered.0).expect(rt, "memory");
    }
    push(rt, text, ";");
}

/// Each charge.
pub(crate) fn push_charges(rt: &impl Abort, text: &mut String, rows: &[ChargeRow]) {
    push(rt, text, "charges:");
    for row in rows {
        push_charge(rt, text, row);
    }
}

/// Its moment, whether it is barred, and the number of its next charge.
fn push_account(rt: &impl Abort, text: &mut String, account: &Account) {
    let (at, barred) = (account.as_of().seconds(), account.is_barred());
    write!(text, "account: {at} {barred} {}", account.next_charge()).expect(rt, "memory");
}

/// The rows of an account but its charges, its buckets in the order of use and its sessions in that
/// of their names, each line after this word.
fn push_whole(rt: &impl Abort, text: &mut String, whole: &mut WholeAccount, word: &str) {
    let sorted = whole
        .buckets
        .sort_by_key(|bucket| (bucket.until().seconds(), bucket.number()));
    sorted.expect(rt, "memory");
    let sorted = whole.sessions.sort_by(|a, b| a.id.cmp(&b.id));
    sorted.expect(rt, "memory");
    push(rt, text, word);
    push_buckets(rt, text, whole.buckets.as_slice());
    push(rt, text, word);
    push_counters(rt, text, whole.counters.as_slice());
    push(rt, text, word);
    push_sessions(rt, text, whole.sessions.as_slice());
    push(rt, text, word);
    push_groups(rt, text, whole.groups.as_slice());
    push(rt, text, word);
}

/// The line of an account, where there is one.
fn push_first(
    rt: &impl Abort,
    text: &mut String,
    keeper: &mut MemoryKeeper,
    shelf: &TariffShelf,
    number: &AccountNumber,
) -> bool {
    let last = keeper.last().expect(rt, "a moment");
    let Some(account) = keeper.view(shelf, number, last).expect(rt, "a look") else {
        return false;
    };
    push_account(rt, text, &account);
    true
}

/// The rows of an account, each line after this word: a line break and perhaps its number. Where
/// there is no account, the charges alone.
fn push_rows_of(
    rt: &impl Abort,
    text: &mut String,
    keeper: &mut MemoryKeeper,
    shelf: &TariffShelf,
    number: &AccountNumber,
    word: &str,
) {
    push(rt, text, word);
    if push_first(rt, text, keeper, shelf, number) {
        let mut whole = keeper.whole(number).expect(rt, "memory");
        push_whole(rt, text, &mut whole, word);
    }
    push_charges(rt, text, keeper.charges(number));
}

/// What is under the code, in a line: the account that redeemed it, `unspent`, or nothing.
fn push_voucher(
    rt: &impl Abort,
    alloc: Global,
    text: &mut String,
    keeper: &mut MemoryKeeper,
    word: &str,
) {
    let code = code(rt, alloc, word);
    let Some(voucher) = keeper.find_voucher(&code).expect(rt, "a look") else {
        return;
    };
    let redeemer = match &voucher.redeemer {
        Some(account) => account.as_str(),
        None => "unspent",
    };
    write!(text, "\nvoucher {word}: {redeemer}").expect(rt, "memory");
}

/// What is under the first three codes.
fn push_vouchers(rt: &impl Abort, alloc: Global, text: &mut String, keeper: &mut MemoryKeeper) {
    push_voucher(rt, alloc, text, keeper, "000000000001");
    push_voucher(rt, alloc, text, keeper, "000000000002");
    push_voucher(rt, alloc, text, keeper, "000000000003");
}

/// The moment of the last accepted command, the vouchers of the first three codes, the rows of
/// account 49151, and those of account 49152 after its number.
pub(crate) fn push_rows(
    rt: &impl Abort,
    alloc: Global,
    text: &mut String,
    keeper: &mut MemoryKeeper,
    shelf: &TariffShelf,
) {
    let (first, second) = (account(rt, alloc, "49151"), account(rt, alloc, "49152"));
    let last = keeper.last().expect(rt, "a moment");
    write!(text, "last: {}", last.seconds()).expect(rt, "memory");
    push_vouchers(rt, alloc, text, keeper);
    push_rows_of(rt, text, keeper, shelf, &first, "\n");
    push_rows_of(rt, text, keeper, shelf, &second, "\n49152 ");
    push(rt, text, "\n");
}
