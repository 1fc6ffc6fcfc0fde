//! A bucket of money or of blocks.

ghost use Rattle.std.specs.Prelude.{◌≡◌, ◌+◌, ◌-◌, ◌≤◌, ◌<◌, ◌==◌, ◌&&◌, if◌then◌else◌};
ghost use Rattle.buckets.specs.Kinds.{is_alike, most_of, IsScopeOf, most_in_bucket};
ghost use Rattle.buckets.specs.Row.{is_eligible, eligible_amount, with_hold, with_charge};
ghost use Rattle.buckets.specs.Row.{with_charge_of_hold, with_release, with_end, new_row};
ghost use Rattle.buckets.specs.Row.{IsBalanced};

mod columns;
mod terms;

pub use crate::bucket::columns::Columns;
pub use crate::bucket::terms::BucketTerms;
use crate::kind::BucketKind;
use std::marker::Model;
use units::Moment;

/// Money or blocks that were credited at once, and what became of them (TS 32.296, account balance
/// management function).
///
/// The credited amount is the sum of four columns, which the type keeps: what is available, what is
/// reserved for live sessions, what was charged, and what expired at the bucket's end. All are in
/// the unit of its kind.
// rule: bucket-columns
#[derive(Clone)]
pub struct Bucket {
    number: u32,
    kind: BucketKind,
    from: Moment,
    until: Moment,
    scope: Option<u32>,
    credited: u64,
    available: u64,
    reserved: u64,
    charged: u64,
    expired: u64,
}

// It is written out, so that a caller doesn't prove again how each part is dropped.
impl Drop for Bucket {
    fn drop(self) {
        let Bucket {
            number: _,
            kind: _,
            from: _,
            until: _,
            scope: _,
            credited: _,
            available: _,
            reserved: _,
            charged: _,
            expired: _,
        } = self;
    }
}

impl Model for Bucket {
    ghost use Rattle.buckets.specs.Row.{BucketRow, IsBalanced};

    ghost Value = { BucketRow };

    ghost view = { λ b. record {
      number = b.number;
      kind = b.kind;
      from = b.from;
      until = b.until;
      scope = b.scope;
      credited = b.credited;
      available = b.available;
      reserved = b.reserved;
      charged = b.charged;
      expired = b.expired;
    } };

    ghost invariant = { λ b. IsBalanced (view b) };
}

impl Bucket {
    /// Its number within the account.
    pub fn number(&self) -> u32
        ensures { result ≡ self.now.number }
    {
        self.number
    }

    /// What its columns count.
    pub fn kind(&self) -> BucketKind
        ensures { result ≡ self.now.kind }
    {
        self.kind
    }

    /// The first moment at which it may be used.
    pub fn from(&self) -> Moment
        ensures { result ≡ self.now.from }
    {
        self.from
    }

    /// Its end: the first moment at which what is left of it is expired.
    pub fn until(&self) -> Moment
        ensures { result ≡ self.now.until }
    {
        self.until
    }

    /// The one rating group that it pays for, or none where it pays for all.
    pub fn scope(&self) -> Option<u32>
        ensures { result ≡ self.now.scope }
    {
        self.scope
    }

    /// The amount that it was made with, in its unit.
    pub fn credited(&self) -> u64
        ensures amount { result ≡ self.now.credited }
        ensures most { result ≤ most_in_bucket }
    {
        self.credited
    }

    /// Nothing of it is available and nothing reserved: nothing of it can be used any more.
    pub fn is_dead(&self) -> bool
        ensures { result ≡ (self.now.available == 0 && self.now.reserved == 0) }
    {
        self.available == 0 && self.reserved == 0
    }

    /// What is neither reserved nor charged, before its end.
    pub fn available(&self) -> u64
        ensures amount { result ≡ self.now.available }
        ensures most { result ≤ most_in_bucket }
    {
        self.available
    }

    /// What reservations of live sessions hold.
    pub fn reserved(&self) -> u64
        ensures amount { result ≡ self.now.reserved }
        ensures most { result ≤ most_in_bucket }
    {
        self.reserved
    }

    /// What was charged.
    pub fn charged(&self) -> u64
        ensures amount { result ≡ self.now.charged }
        ensures most { result ≤ most_in_bucket }
    {
        self.charged
    }

    /// What was neither reserved nor charged when it ended, with what reservations gave up after
    /// that.
    pub fn expired(&self) -> u64
        ensures amount { result ≡ self.now.expired }
        ensures most { result ≤ most_in_bucket }
    {
        self.expired
    }

    pub(crate) fn new(number: u32, terms: BucketTerms) -> Self
        requires most { terms.amount ≤ most_of terms.kind }
        requires scope { IsScopeOf terms.kind terms.scope }
        ensures row { result
            ≡ new_row terms.kind number terms.from terms.until terms.scope terms.amount }
        ensures balanced { IsBalanced result }
    {
        Bucket {
            number,
            kind: terms.kind,
            from: terms.from,
            until: terms.until,
            scope: terms.scope,
            credited: terms.amount,
            available: terms.amount,
            reserved: 0,
            charged: 0,
            expired: 0,
        }
    }

    /// Whether it may be used for the rating group at the moment: between its beginning and its
    /// end, and where its scope is none or the group.
    // rule: eligible
    pub fn is_eligible(&self, group: u32, at: Moment) -> bool
        ensures { result ≡ is_eligible group at self.now }
    {
        let covered = match self.scope {
            None => true,
            Some(one) => one == group,
        };
        self.from <= at && at < self.until && covered
    }

    /// What it has available for the rating group at the moment: nothing where it isn't eligible.
    pub fn eligible_amount(&self, group: u32, at: Moment) -> u64
        ensures amount { result ≡ eligible_amount group at self.now }
        ensures most { result ≤ most_in_bucket }
    {
        if self.is_eligible(group, at) {
            self.available
        } else {
            0
        }
    }

    /// Whether its columns count the unit.
    pub fn counts(&self, kind: BucketKind) -> bool
        ensures { result ≡ is_alike self.now.kind kind }
    {
        self.kind.is_alike(kind)
    }

    /// The same, where it counts the unit.
    pub fn eligible_in(&self, kind: BucketKind, group: u32, at: Moment) -> u64
        ensures amount { result
            ≡ if is_alike self.now.kind kind then eligible_amount group at self.now else 0 }
        ensures most { result ≤ most_of kind }
    {
        if self.kind.is_alike(kind) {
            self.eligible_amount(group, at)
        } else {
            0
        }
    }

    /// What is held of it, where it counts the unit.
    pub(crate) fn held_in(&self, kind: BucketKind, held: u64) -> u64
        requires { held ≤ self.now.reserved }
        ensures value { result ≡ if is_alike self.now.kind kind then held else 0 }
        ensures most { result ≤ most_of kind }
    {
        if self.kind.is_alike(kind) { held } else { 0 }
    }

    pub(crate) fn hold(&mut self, amount: u64)
        requires { amount ≤ self.old.available }
        ensures { self.new ≡ with_hold self.old amount }
    {
        self.available -= amount;
        self.reserved += amount;
    }

    pub(crate) fn charge_hold(&mut self, amount: u64)
        requires { amount ≤ self.old.reserved }
        ensures { self.new ≡ with_charge_of_hold self.old amount }
    {
        self.reserved -= amount;
        self.charged += amount;
    }

    pub(crate) fn charge(&mut self, amount: u64)
        requires { amount ≤ self.old.available }
        ensures { self.new ≡ with_charge self.old amount }
    {
        self.available -= amount;
        self.charged += amount;
    }

    pub(crate) fn release(&mut self, amount: u64, at: Moment)
        requires { amount ≤ self.old.reserved }
        ensures { self.new ≡ with_release at self.old amount }
    {
        self.reserved -= amount;
        if at < self.until {
            self.available += amount;
        } else {
            self.expired += amount;
        }
    }

    pub(crate) fn expire(&mut self, at: Moment)
        ensures { self.new ≡ with_end at self.old }
    {
        if self.until <= at {
            self.expired += self.available;
            self.available = 0;
        }
    }
}
