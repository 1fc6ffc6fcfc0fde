//! Vouchers as lines of text, over one code and the days of a zone: `add AMOUNT DAYS SCOPE` and
//! `redeem ACCOUNT MOMENT`; `-` is no days and no scope.

use crate::tests::tables::{Teller, Words};
use crate::tests::values::{calendar, moment, money};
use calendar::{Calendar, Entry, Period};
use identifiers::AccountNumber;
use std::alloc::{AllocError, Global};
use std::process::Abort;
use units::Moment;
use voucher_rules::{Addition, CivilDays, Redemption, Voucher, VoucherTerms, add, redeem};

/// The civil days of a zone.
#[derive(Drop)]
pub(crate) struct Days {
    calendar: Calendar,
}

impl CivilDays for Days {
    ghost use Rattle.calendar.specs.Timetable as timetable;

    ghost day_end = { λ d t days. timetable.day_end d.calendar.zone t days };

    fn day_end(&self, moment: Moment, days: u32) -> Option<Moment> {
        self.calendar.day_end(moment, days)
    }
}

/// One period for the whole week.
fn whole_week(alloc: Global) -> Result<Vec<Entry>, AllocError> {
    [Entry {
        period: Period(0),
        days: [true; 7],
        from: 0,
        to: 1440,
    }]
    .to_vec(alloc)
}

/// The days of the zone that is so many minutes ahead of UTC.
pub(crate) fn days_of(rt: &impl Abort, alloc: Global, minutes: i16) -> Days {
    let week = whole_week(alloc).expect(rt, "memory");
    let calendar = calendar(rt, alloc, minutes, week).expect(rt, "a week");
    Days { calendar }
}

/// A number, or `-`.
pub(crate) fn optional(rt: &impl Abort, word: &str) -> Option<u32> {
    if word == "-" {
        return None;
    }
    Some(word.parse::<u32>().expect(rt, "a number"))
}

/// None where they are no terms of a voucher.
pub(crate) fn terms(
    rt: &impl Abort,
    amount: u64,
    days: Option<u32>,
    scope: Option<u32>,
) -> Option<VoucherTerms> {
    VoucherTerms::new(money(rt, amount), days, scope)
}

/// A number that may be absent.
fn or_dash(rt: &impl Abort, alloc: Global, number: Option<u32>) -> String {
    match number {
        Some(number) => format!(in alloc; "{number}").expect(rt, "memory"),
        None => String::from_str(alloc, "-").expect(rt, "memory"),
    }
}

/// `AMOUNT FROM UNTIL SCOPE by ACCOUNT`.
fn redeemed(rt: &impl Abort, alloc: Global, redemption: &Redemption) -> String {
    let (from, until) = (redemption.from.seconds(), redemption.until.seconds());
    let scope = or_dash(rt, alloc, redemption.scope);
    let account = match &redemption.voucher.redeemer {
        Some(account) => account.as_str(),
        None => "none",
    };
    let amount = redemption.amount.micros();
    let text = format!(in alloc; "{amount} {from} {until} {scope} by {account}");
    text.expect(rt, "memory")
}

/// What is under a code, and the days by which it is redeemed.
#[derive(Drop)]
pub(crate) struct Office {
    days: Days,
    found: Option<Voucher>,
}

impl Office {
    /// Nothing is under the code yet.
    pub(crate) fn new(days: Days) -> Office {
        Office { days, found: None }
    }

    /// Adds a voucher of these terms.
    fn add(&mut self, terms: VoucherTerms) -> &'static str {
        match add(&self.found, terms) {
            Addition::New(voucher) => {
                self.found = Some(voucher);
                "new"
            }
            Addition::Present => "present",
            Addition::Conflicting => "conflicting",
        }
    }

    fn redeem(
        &mut self,
        rt: &impl Abort,
        alloc: Global,
        account: AccountNumber,
        at: Moment,
    ) -> String {
        let found: Result<_, _> = self.found.clone();
        match redeem(found.expect(rt, "memory"), account, at, &self.days) {
            Ok(redemption) => {
                let told = redeemed(rt, alloc, &redemption);
                self.found = Some(redemption.voucher);
                told
            }
            Err(refusal) => format!(in alloc; "{refusal}").expect(rt, "memory"),
        }
    }

    /// `AMOUNT DAYS SCOPE`
    fn tell_addition(&mut self, rt: &impl Abort, alloc: Global, words: &mut Words<'_>) -> String {
        let amount = words.number(rt);
        let (days, scope) = (optional(rt, words.word()), optional(rt, words.word()));
        let terms = terms(rt, amount, days, scope).expect(rt, "terms");
        String::from_str(alloc, self.add(terms)).expect(rt, "memory")
    }

    /// `ACCOUNT MOMENT`
    fn tell_redemption(&mut self, rt: &impl Abort, alloc: Global, words: &mut Words<'_>) -> String {
        let account = AccountNumber::new(alloc, words.word()).expect(rt, "memory");
        let account = account.expect(rt, "an account");
        let at = moment(rt, words.number(rt));
        self.redeem(rt, alloc, account, at)
    }
}

impl Teller for Office {
    fn tell<R: Abort>(&mut self, rt: &R, alloc: Global, case: &str) -> String {
        let mut words = Words::of(case);
        if words.word() == "add" {
            self.tell_addition(rt, alloc, &mut words)
        } else {
            self.tell_redemption(rt, alloc, &mut words)
        }
    }
}
