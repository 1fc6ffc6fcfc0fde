//! The money of an account: what is held is charged after its bucket's end, and what isn't there
//! isn't collected.

use crate::tests::account::rows::{buckets_text, holds_text};
use crate::tests::tables::try_told;
use crate::tests::values::{TEN, end, moment, money};
use buckets::{Charged, Purse};
use std::alloc::Global;
use std::process::Abort;
use units::{Amount, Blocks, Moment};

/// Two buckets, the first of which ends at 10:10.
fn two_buckets(rt: &impl Abort, alloc: Global) -> Purse {
    let mut purse = Purse::new(alloc);
    let (ten, until) = (moment(rt, TEN), end(rt, TEN + 600));
    let credit = purse.credit(1, ten, until, None, money(rt, 150_000));
    credit.expect(rt, "the first bucket");
    let credit = purse.credit(2, ten, Moment::no_end(), None, money(rt, 300_000));
    credit.expect(rt, "the second bucket");
    purse
}

fn charged_text(rt: &impl Abort, alloc: Global, charged: Charged) -> String {
    let (collected, uncollected) = (charged.collected.0, charged.uncollected.0);
    format!(in alloc; "{collected} {uncollected}").expect(rt, "memory")
}

/// 300,000 are held at 10:00, 100,000 charged at 10:15: the holds, and what is collected and isn't.
fn charge_later(rt: &impl Abort, alloc: Global, purse: &mut Purse) -> String {
    let (ten, later) = (moment(rt, TEN), moment(rt, TEN + 900));
    let mut holds = purse.hold(10, ten, Amount(300_000)).expect(rt, "holds");
    let held = holds_text(rt, alloc, holds.as_slice());
    let charged = purse.charge(&mut holds, 10, later, Amount(100_000));
    let charged = charged_text(rt, alloc, charged.expect(rt, "memory"));
    purse.release(holds, later);
    purse.expire(later);
    format!(in alloc; "{held}; {charged}").expect(rt, "memory")
}

// rule: settle-order.holds-pay-first
#[test]
fn held_money_is_charged_after_the_end_of_its_bucket(rt: HostRuntime) {
    let mut purse = two_buckets(&rt, rt.alloc());
    let told = charge_later(&rt, rt.alloc(), &mut purse);
    try_told(
        &rt,
        "charged",
        told.as_str(),
        " 1:150000 2:150000; 100000 0",
    );
    let told = buckets_text(&rt, rt.alloc(), purse.buckets());
    let rows = " (150000; 0, 0, 100000, 50000) (300000; 300000, 0, 0, 0)";
    try_told(&rt, "buckets", told.as_str(), rows);
}

/// A bucket for one rating group.
fn scoped_bucket(rt: &impl Abort, alloc: Global) -> Purse {
    let mut purse = Purse::new(alloc);
    let from = moment(rt, 0);
    let credit = purse.credit(1, from, Moment::no_end(), Some(10), money(rt, 250_000));
    credit.expect(rt, "a bucket");
    purse
}

/// 200,000 are held of 250,000, and 500,000 settled: what is collected and isn't.
fn settle_more(rt: &impl Abort, alloc: Global, purse: &mut Purse) -> String {
    let ten = moment(rt, TEN);
    assert!(rt; purse.hold(20, ten, Amount(1)).is_err());
    let room = purse.room().expect(rt, "memory");
    let funds = purse.funds(10, ten);
    assert!(rt; funds.0 == 250_000);
    let holds = purse.hold_in(room, 10, ten, Amount(200_000), Blocks(0));
    let charged = purse.settle(holds, 10, ten, Amount(500_000), Blocks(0));
    charged_text(rt, alloc, charged)
}

// rule: shares, released
#[test]
fn a_shortfall_is_uncollected(rt: HostRuntime) {
    let mut purse = scoped_bucket(&rt, rt.alloc());
    let told = settle_more(&rt, rt.alloc(), &mut purse);
    try_told(&rt, "settled", told.as_str(), "250000 250000");
    let told = buckets_text(&rt, rt.alloc(), purse.buckets());
    try_told(&rt, "buckets", told.as_str(), " (250000; 0, 0, 250000, 0)");
}
