//! Allowances: blocks of one rating group that an account uses before money.

ghost use Rattle.std.specs.Prelude.{◌≡◌, ◌≤◌, ◌↔◌, IsSome, IfSome, unwrap_or};
ghost use Rattle.units.specs.Words.{no_end, most_blocks};

use crate::command::{CreditEnd, CreditStart};
use identifiers::{AccountNumber, Reference};
use std::marker::Model;
use units::{Blocks, MOST_BLOCKS, Moment};

/// How many blocks an allowance has: 1 to 1,000,000,000.
///
/// Contracts see the number.
#[derive(Clone, Copy, Debug, PartialEq, Eq)]
pub struct AllowanceBlocks {
    number: u64,
}

impl Model for AllowanceBlocks {
    ghost use Rattle.std.specs.Prelude.{ℕ, ◌≤◌};
    ghost use Rattle.units.specs.Words.{most_blocks};

    ghost Value = { ℕ };

    ghost view = { λ b. b.number };

    ghost invariant = { λ b. (1 ≤ b.number) × (b.number ≤ most_blocks) };

    ghost inverse = { λ n. record { number = n } };
}

impl AllowanceBlocks {
    /// So many blocks; None at 0 and above 1,000,000,000.
    pub fn new(blocks: Blocks) -> Option<AllowanceBlocks>
        ensures in_range { IsSome result ↔ ((1 ≤ blocks.0) × (blocks.0 ≤ most_blocks)) }
        ensures value { IfSome result (λ b. b ≡ blocks.0) }
    {
        let number = blocks.0;
        if 1 <= number && number <= MOST_BLOCKS {
            Some(AllowanceBlocks { number })
        } else {
            None
        }
    }

    /// The blocks.
    pub fn blocks(self) -> Blocks
        ensures value { result.0 ≡ self }
        ensures in_range { (1 ≤ result.0) × (result.0 ≤ most_blocks) }
    {
        Blocks(self.number)
    }
}

/// An allowance by an operator: a new bucket of blocks for the account (TS 32.296, account balance
/// management function).
#[derive(Clone, Debug, PartialEq, Eq)]
pub struct Allowance {
    /// The account that gets the bucket.
    pub account: AccountNumber,
    /// How many blocks the bucket is opened with.
    pub blocks: AllowanceBlocks,
    /// From when it can be used; None: from the moment of the command.
    pub from: Option<CreditStart>,
    /// Until when it can be used; None: without an end.
    pub until: Option<CreditEnd>,
    /// The rating group whose blocks it covers.
    pub scope: u32,
    /// The operator's name for it: an allowance with the same reference is a repeat. Credits and
    /// redemptions have their references among the same names.
    pub reference: Reference,
}

// It is written out, so that a caller doesn't prove again how each part is dropped.
impl Drop for Allowance {
    fn drop(self) {
        let Allowance {
            account: _,
            blocks: _,
            from: _,
            until: _,
            scope: _,
            reference: _,
        } = self;
    }
}

impl Allowance {
    /// From when it can be used, as a command of this moment.
    pub fn from_at(&self, moment: Moment) -> Moment
        ensures { result ≡ unwrap_or self.now.from moment }
    {
        match self.from {
            None => moment,
            Some(start) => start.moment(),
        }
    }

    /// Until when it can be used.
    pub fn end(&self) -> Moment
        ensures { result ≡ unwrap_or self.now.until no_end }
    {
        match self.until {
            None => Moment::no_end(),
            Some(end) => end.moment(),
        }
    }
}
