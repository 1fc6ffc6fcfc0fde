//! The balance of an account.

ghost use Rattle.std.specs.Prelude.{◌≡◌};

use identifiers::AccountNumber;
use std::marker::Model;
use units::Moment;

/// What the columns of a bucket count (TS 32.296, account balance management function: monetary and
/// non-monetary units).
#[derive(Clone, Copy, Debug)]
pub enum BucketUnit {
    /// Micro-units of money.
    MicroUnits,
    /// Blocks of one rating group: an allowance.
    Blocks,
}

/// What became of a bucket (TS 32.296, account balance management function). All amounts are in the
/// bucket's unit.
#[derive(Clone, Copy, Debug)]
pub struct BucketBalance {
    /// Its number within the account.
    pub number: u32,
    /// The first moment at which it may be used.
    pub from: Moment,
    /// Its end: the first moment at which what is left of it is expired.
    pub until: Moment,
    /// The one rating group that it pays for, or none where it pays for all.
    pub scope: Option<u32>,
    /// What its amounts count.
    pub unit: BucketUnit,
    /// What was credited.
    pub credited: u64,
    /// What may still be used.
    pub available: u64,
    /// What reservations of live sessions hold.
    pub reserved: u64,
    /// What was charged.
    pub charged: u64,
    /// What was left at its end, or given up after it.
    pub expired: u64,
}

/// The buckets of an account.
///
/// Contracts see the list.
#[derive(Clone, Debug)]
pub struct BucketBalances {
    list: Vec<BucketBalance>,
}

// It is written out, so that a caller doesn't prove again how each part is dropped.
impl Drop for BucketBalances {
    fn drop(self) {
        let BucketBalances { list: _ } = self;
    }
}

impl Model for BucketBalances {
    ghost use Rattle.std.specs.Prelude.{List};
    ghost use Rattle.commands.specs.declared.balance.BucketBalance.{BucketBalance};

    ghost Value = { List BucketBalance };

    ghost view = { λ s. s.list.items };
}

impl BucketBalances {
    /// These buckets.
    pub fn new(list: Vec<BucketBalance>) -> BucketBalances
        ensures { result ≡ list.items }
    {
        BucketBalances { list }
    }

    /// The buckets, one after another.
    pub fn as_slice(&self) -> &[BucketBalance]
        ensures { result.now ≡ self.now }
    {
        self.list.as_slice()
    }
}

/// What became of an account's money and of its allowances, as of a moment.
#[derive(Clone, Debug)]
pub struct AccountBalance {
    /// The account's number (Subscription-Id-Data, RFC 8506 section 8.48).
    pub account: AccountNumber,
    /// Whether it is barred (profile).
    pub barred: bool,
    /// Its buckets, by number.
    pub buckets: BucketBalances,
    /// The moment.
    pub moment: Moment,
}

// It is written out, so that a caller doesn't prove again how each part is dropped.
impl Drop for AccountBalance {
    fn drop(self) {
        let AccountBalance {
            account: _,
            barred: _,
            buckets: _,
            moment: _,
        } = self;
    }
}
