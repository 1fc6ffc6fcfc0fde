//! What a voucher says beside its code.

ghost use Rattle.std.specs.Prelude.{◌≡◌, ◌≤◌, IfSome, None, Some, if◌then◌else◌};
ghost use Rattle.units.specs.Words.{no_end, most_money, most_days};
ghost use Rattle.voucher_rules.specs.Terms.{are_days, are_terms};
ghost use Rattle.voucher_rules.specs.Redeeming.{bucket_end, moment_in_time};

use crate::civil_days::CivilDays;
use std::marker::Model;
use units::{MOST_DAYS, Moment, Money};

/// What a voucher says beside its code: who redeems it gets a bucket of this amount, 1 to 10^15
/// micro-units, that lasts 1 to 3,650 days or has no end, for one rating group or for all.
///
/// Contracts see a record of the three.
#[derive(Clone, Copy, PartialEq, Eq)]
pub struct VoucherTerms {
    amount: Money,
    days: Option<u32>,
    scope: Option<u32>,
}

impl Model for VoucherTerms {
    ghost use Rattle.std.specs.Prelude.{IsTrue};
    ghost use Rattle.voucher_rules.specs.Terms.{Terms, are_terms};

    ghost Value = { Terms };

    ghost view = { λ t. record { amount = t.amount; days = t.days; scope = t.scope } };

    ghost invariant = { λ t. IsTrue (are_terms t.amount t.days) };

    ghost inverse = { λ t. record { amount = t.amount; days = t.days; scope = t.scope } };
}

fn are_days(days: Option<u32>) -> bool
    ensures { result ≡ are_days days }
{
    match days {
        None => true,
        Some(days) => 1 <= days && (days as u64) <= MOST_DAYS,
    }
}

/// The moment, where a command can have it.
fn moment_in_time(moment: Option<Moment>) -> Option<Moment>
    ensures { result ≡ moment_in_time moment }
{
    match moment {
        None => None,
        Some(moment) => Moment::of_command(moment.seconds()),
    }
}

impl VoucherTerms {
    /// These terms; None for an amount of 0, and for days that aren't 1 to 3,650.
    // rule: voucher-terms
    pub fn new(amount: Money, days: Option<u32>, scope: Option<u32>) -> Option<VoucherTerms>
        ensures { result ≡ if are_terms amount days
            then Some (record { amount = amount; days = days; scope = scope }) else None }
    {
        if 1 <= amount.micros() && are_days(days) {
            Some(VoucherTerms {
                amount,
                days,
                scope,
            })
        } else {
            None
        }
    }

    /// The amount of the bucket.
    pub fn amount(self) -> Money
        ensures value { result ≡ self.amount }
        ensures in_range { (1 ≤ result) × (result ≤ most_money) }
    {
        // For the prover alone: looking at the value makes known here what its type keeps.
        let _in_range = self.amount.micros();
        self.amount
    }

    /// The days that the bucket lasts; None: without an end.
    pub fn days(self) -> Option<u32>
        ensures value { result ≡ self.days }
        ensures in_range { IfSome result (λ days. (1 ≤ days) × (days ≤ most_days)) }
    {
        self.days
    }

    /// The rating group that the bucket pays for; None: all.
    pub fn scope(self) -> Option<u32>
        ensures { result ≡ self.scope }
    {
        self.scope
    }

    /// Until when the bucket can be used if the voucher is redeemed at the moment: where the last
    /// of its days ends, counted from the day after the moment's, or "no end" without days. None
    /// where that day ends past the last moment of commands, so also at 4,102,444,800.
    // rule: voucher-end
    pub fn bucket_end<C: CivilDays>(self, moment: Moment, calendar: &C) -> Option<Moment>
        ensures value { result ≡ bucket_end (C.day_end calendar.now) self moment }
        ensures in_range { IfSome result (λ end. end ≤ no_end) }
    {
        match self.days {
            None => Some(Moment::no_end()),
            Some(days) => moment_in_time(calendar.day_end(moment, days)),
        }
    }
}
