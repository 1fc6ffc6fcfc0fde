//! The buckets of an account in their order of use.

ghost use Rattle.std.specs.Prelude.{◌≡◌, ◌+◌, ◌-◌, ◌≤◌, ◌<◌, ◌^◌, ◌==◌, ◌&&◌, not, []};
ghost use Rattle.std.specs.Prelude.{OnOk, OnErr, IfOk, map, length, filter};
ghost use Rattle.std.specs.Prelude.{Some};
ghost use Rattle.units.specs.Words.{most_blocks};
ghost use Rattle.buckets.specs.Kinds.{due, most_of, IsScopeOf, most_blocks_in_all};
ghost use Rattle.buckets.specs.Row.{BucketRow, with_end, new_row};
ghost use Rattle.buckets.specs.Spend.{funds, allowance, IsBelow, IsSound};
ghost use Rattle.buckets.specs.Holding.{IsWithin, charged_rows, released_rows};
ghost use Rattle.buckets.specs.Holding.{uncollected, unpaid, rest_of_holds};
ghost use Rattle.buckets.specs.Holding.{held_sum};

mod tested;

use crate::along;
use crate::bucket::{Bucket, BucketTerms};
use crate::holds::{HoldRoom, Holds};
use crate::kind::{BucketKind, Due};
use std::alloc::{AllocError, Global};
use std::marker::Model;
use thiserror::Error;
use units::{Amount, Blocks, Moment, Money};

/// Why a call on a purse did nothing.
#[derive(Clone, Copy, Debug, Drop, Error)]
pub enum PurseFault {
    /// A growth was refused.
    #[error("out of memory")]
    Memory,
    /// The eligible buckets have less available than the amount to hold.
    #[error("the amount isn't covered")]
    NotCovered,
}

impl From<AllocError> for PurseFault {
    ghost use Rattle.buckets.specs.declared.purse.PurseFault.TheVariants.{Memory};

    ghost from_gives = { λ _ e. e ≡ Memory };

    fn from(_error: AllocError) -> PurseFault {
        PurseFault::Memory
    }
}

/// What became of a rated amount: the two sum to it.
#[derive(Clone, Copy)]
pub struct Charged {
    /// What holds and eligible buckets paid.
    pub collected: Amount,
    /// What they didn't reach.
    pub uncollected: Amount,
    ghost sum: { collected.0 + uncollected.0 < 2 ^ 128 },
}

/// The buckets of an account, by end and then by number: the order in which they are used (TS
/// 32.296, account balance management function).
#[derive(Clone)]
pub struct Purse {
    buckets: Vec<Bucket>,
    alloc: Global,
}

// It is written out, so that a caller doesn't prove again how each part is dropped.
impl Drop for Purse {
    fn drop(self) {
        let Purse {
            buckets: _,
            alloc: _,
        } = self;
    }
}

impl Model for Purse {
    ghost use Rattle.std.specs.Prelude.{List};
    ghost use Rattle.buckets.specs.Row.{BucketRow};
    ghost use Rattle.buckets.specs.Spend.{IsSound};

    ghost Value = { List BucketRow };

    ghost view = { λ p. p.buckets.items };

    ghost invariant = { λ p. IsSound p.buckets.items };
}

impl Purse {
    ghost use Rattle.buckets.specs.Calls.{Adds, HoldsDue, IsHeld, ChargesDue, ChargesMoney};
    ghost use Rattle.buckets.specs.Calls.{ChargesBlocks, SettlesDue};

    /// A purse without buckets. It takes no memory.
    pub fn new(alloc: Global) -> Self
        ensures { result ≡ [] }
    {
        Purse {
            buckets: Vec::new(alloc),
            alloc,
        }
    }

    /// The buckets in the order of their use.
    pub fn buckets(&self) -> &[Bucket]
        ensures value { result.now ≡ self.now }
        ensures sound { IsSound self.now }
    {
        self.buckets.as_slice()
    }

    /// Adds a bucket, all of it available, under a number above all others (TS 32.296, account
    /// balance management function).
    ///
    /// # Errors
    /// A growth was refused. Then the purse is unchanged.
    pub fn credit(
        &mut self,
        number: u32,
        from: Moment,
        until: Moment,
        scope: Option<u32>,
        amount: Money,
    ) -> Result<(), AllocError>
        requires { IsBelow number self.old }
        ensures { Adds (new_row BucketKind.Money number from until scope amount) self.old self.new
            result }
    {
        let terms = BucketTerms {
            kind: BucketKind::Money,
            from,
            until,
            scope,
            amount: amount.micros(),
        };
        self.add(number, terms)
    }

    /// Adds an allowance of so many blocks of a rating group, all of them available, under a number
    /// above all others (TS 32.296, account balance management function).
    ///
    /// # Errors
    /// A growth was refused. Then the purse is unchanged.
    pub fn allow(
        &mut self,
        number: u32,
        from: Moment,
        until: Moment,
        group: u32,
        blocks: Blocks,
    ) -> Result<(), AllocError>
        requires below { IsBelow number self.old }
        requires most { blocks.0 ≤ most_blocks }
        ensures { Adds (new_row BucketKind.Blocks number from until (Some group) blocks.0) self.old
            self.new result }
    {
        let terms = BucketTerms {
            kind: BucketKind::Blocks,
            from,
            until,
            scope: Some(group),
            amount: blocks.0,
        };
        self.add(number, terms)
    }

    /// Adds a bucket of either kind, as `credit` and `allow` do.
    ///
    /// # Errors
    /// A growth was refused. Then the purse is unchanged.
    pub fn add(&mut self, number: u32, terms: BucketTerms) -> Result<(), AllocError>
        requires below { IsBelow number self.old }
        requires most { terms.amount ≤ most_of terms.kind }
        requires scope { IsScopeOf terms.kind terms.scope }
        ensures { Adds
            (new_row terms.kind number terms.from terms.until terms.scope terms.amount) self.old
            self.new result }
    {
        let place = along::place_of(&self.buckets, terms.until);
        let bucket = Bucket::new(number, terms);
        self.buckets.insert(place, bucket)?;
        Ok(())
    }

    /// The money that the buckets which are eligible for the rating group at the moment have
    /// available.
    // rule: eligible
    pub fn funds(&self, group: u32, at: Moment) -> Amount
        ensures sum { result.0 ≡ funds group at self.now }
        ensures sound { IsSound self.now }
    {
        Amount(along::sum_of(&self.buckets, BucketKind::Money, group, at))
    }

    /// The blocks that the allowances of the rating group have available at the moment.
    // rule: eligible
    pub fn allowance(&self, group: u32, at: Moment) -> Blocks
        ensures sum { result.0 ≡ allowance group at self.now }
        ensures sound { IsSound self.now }
    {
        Blocks(along::sum_of(&self.buckets, BucketKind::Blocks, group, at) as u64)
    }

    /// The blocks that holds have of allowances.
    pub fn held_blocks(&self, holds: &Holds) -> Blocks
        requires { IsWithin holds.now self.now }
        ensures value { result.0 ≡ held_sum BucketKind.Blocks holds.now self.now }
        ensures most { result.0 ≤ most_blocks_in_all }
    {
        Blocks(along::held_sum_of(&self.buckets, BucketKind::Blocks, holds.as_slice()) as u64)
    }

    /// Holds the amount in the eligible buckets, in their order (TS 32.299, session charging with
    /// unit reservation).
    ///
    /// # Errors
    /// `NotCovered` exactly where the amount exceeds the funds, else `Memory`: a growth was
    /// refused. Then the purse is unchanged.
    // rule: holds
    pub fn hold(&mut self, group: u32, at: Moment, amount: Amount) -> Result<Holds, PurseFault>
        ensures { HoldsDue group at (due amount.0 0) (funds group at self.old < amount.0) self.old
            self.new result }
    {
        if self.funds(group, at) < amount {
            return Err(PurseFault::NotCovered);
        }
        let room = self.room()?;
        Ok(self.hold_in(room, group, at, amount, Blocks(0)))
    }

    /// Holds the blocks in the eligible allowances, in their order (TS 32.299, session charging
    /// with unit reservation).
    ///
    /// # Errors
    /// `NotCovered` exactly where the blocks exceed the allowance, else `Memory`: a growth was
    /// refused. Then the purse is unchanged.
    pub fn hold_blocks(
        &mut self,
        group: u32,
        at: Moment,
        blocks: Blocks,
    ) -> Result<Holds, PurseFault>
        ensures { HoldsDue group at (due 0 blocks.0) (allowance group at self.old < blocks.0)
            self.old self.new result }
    {
        if self.allowance(group, at).0 < blocks.0 {
            return Err(PurseFault::NotCovered);
        }
        let room = self.room()?;
        Ok(self.hold_in(room, group, at, Amount(0), blocks))
    }

    /// Memory for the holds that a later `hold_in` makes.
    ///
    /// # Errors
    /// Out of memory.
    pub fn room(&self) -> Result<HoldRoom, AllocError>
        ensures { IfOk result (λ room. length self.now ≤ room) }
    {
        HoldRoom::new(self.alloc, self.buckets.len())
    }

    /// Holds an amount and blocks that are covered, in memory that was taken before.
    // rule: holds
    pub fn hold_in(
        &mut self,
        room: HoldRoom,
        group: u32,
        at: Moment,
        amount: Amount,
        blocks: Blocks,
    ) -> Holds
        requires room { length self.old ≤ room }
        requires covered { amount.0 ≤ funds group at self.old }
        requires allowed { blocks.0 ≤ allowance group at self.old }
        ensures { IsHeld group at (due amount.0 blocks.0) self.old self.new result }
    {
        let due = due_of(amount, blocks);
        let mut items = room.items;
        along::write_parts(&mut items, &self.buckets, group, at, due);
        along::hold_along(&mut self.buckets, group, at, due);
        Holds::of_list(items)
    }

    /// Charges an amount to the holds that are lent, and what they don't reach to the eligible
    /// buckets, each in order. The holds are lowered by what was taken of them.
    ///
    /// # Errors
    /// `Memory` and no other: a growth was refused. Then purse and holds are unchanged.
    // rule: released
    pub fn charge(
        &mut self,
        holds: &mut Holds,
        group: u32,
        at: Moment,
        amount: Amount,
    ) -> Result<Charged, PurseFault>
        requires { IsWithin holds.old self.old }
        ensures { ChargesMoney group at amount.0 holds.old holds.new self.old self.new result }
    {
        let unpaid = self.charge_due(holds, group, at, due_of(amount, Blocks(0)))?;
        Ok(charged_of(amount, unpaid))
    }

    /// Charges blocks to the holds that are lent, and what they don't reach to the eligible
    /// allowances, each in order, and answers how many these cover. The holds are lowered by what
    /// was taken of them.
    ///
    /// # Errors
    /// `Memory` and no other: a growth was refused. Then purse and holds are unchanged.
    pub fn charge_blocks(
        &mut self,
        holds: &mut Holds,
        group: u32,
        at: Moment,
        blocks: Blocks,
    ) -> Result<Blocks, PurseFault>
        requires { IsWithin holds.old self.old }
        ensures { ChargesBlocks group at blocks.0 holds.old holds.new self.old self.new result }
    {
        let unpaid = self.charge_due(holds, group, at, due_of(Amount(0), blocks))?;
        Ok(Blocks((blocks.0 as u128 - unpaid.blocks) as u64))
    }

    /// Charges what is due in both units, and answers what is unpaid.
    fn charge_due(
        &mut self,
        holds: &mut Holds,
        group: u32,
        at: Moment,
        due: Due,
    ) -> Result<Due, PurseFault>
        requires { IsWithin holds.old self.old }
        ensures charges { ChargesDue group at due holds.old holds.new self.old self.new result }
        ensures unpaid { IfOk result (λ d. d ≡ unpaid holds.old group at due self.old) }
    {
        let rest = along::rest_of(self.alloc, &self.buckets, holds.as_slice(), due)?;
        let left = along::charge_holds_along(&mut self.buckets, holds.as_slice(), due);
        let unpaid = along::charge_along(&mut self.buckets, group, at, left);
        *holds = Holds::of_list(rest);
        Ok(unpaid)
    }

    /// Charges an amount and blocks as `charge` and `charge_blocks` do and then gives up what is
    /// left of the holds: what a report's settlement does to the purse. It takes no memory.
    // rule: holds.held, settle-order, uncollected
    pub fn settle(
        &mut self,
        holds: Holds,
        group: u32,
        at: Moment,
        amount: Amount,
        blocks: Blocks,
    ) -> Charged
        requires { IsWithin holds self.old }
        ensures { SettlesDue holds group at amount.0 blocks.0 self.old self.new result }
    {
        let due = due_of(amount, blocks);
        let unheld = along::charge_holds_along(&mut self.buckets, holds.as_slice(), due);
        let unpaid = along::charge_along(&mut self.buckets, group, at, unheld);
        along::release_rest(&mut self.buckets, holds.as_slice(), at, due);
        charged_of(amount, unpaid)
    }

    /// A copy of the buckets, in the order of their use.
    ///
    /// # Errors
    /// Out of memory.
    pub fn to_vec(&self) -> Result<Vec<Bucket>, AllocError>
        ensures { IfOk result (λ copy. copy.items ≡ self.now) }
    {
        self.buckets.clone()
    }

    /// Lets the buckets go that have nothing available and nothing reserved.
    pub fn drop_dead(&mut self)
        ensures { self.new ≡ filter (λ b. not (b.available == 0 && b.reserved == 0)) self.old }
    {
        self.buckets.retain(|bucket| !bucket.is_dead());
    }

    /// Gives up what is held: it is available again, or expired from the bucket's end on.
    // rule: bucket-end, released
    pub fn release(&mut self, holds: Holds, at: Moment)
        requires { IsWithin holds self.old }
        ensures { self.new ≡ released_rows holds at self.old }
    {
        along::release_all(&mut self.buckets, holds.as_slice(), at);
    }

    /// Moves what is available to expired in the buckets that have ended.
    // rule: bucket-end
    pub fn expire(&mut self, at: Moment)
        ensures { self.new ≡ map (with_end at) self.old }
    {
        along::expire_all(&mut self.buckets, at);
    }
}

/// An amount of money, and blocks, as what is due.
fn due_of(amount: Amount, blocks: Blocks) -> Due
    ensures { result ≡ due amount.0 blocks.0 }
{
    Due {
        money: amount.0,
        blocks: blocks.0 as u128,
    }
}

/// What became of an amount, by what is unpaid of it.
fn charged_of(amount: Amount, unpaid: Due) -> Charged
    requires { unpaid.money ≤ amount.0 }
    ensures uncollected { result.uncollected.0 ≡ unpaid.money }
    ensures collected { result.collected.0 + result.uncollected.0 ≡ amount.0 }
{
    Charged {
        collected: Amount(amount.0 - unpaid.money),
        uncollected: Amount(unpaid.money),
    }
}
