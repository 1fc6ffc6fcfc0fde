//! A charge as it is kept.

use identifiers::SessionId;
use std::marker::Model;
use units::{Amount, Blocks, Moment};

/// What a report or a debit came to, as it is kept. The type keeps that what is collected and what
/// isn't sum to the rated amount.
#[derive(Clone)]
pub struct ChargeRow {
    /// Its number within the account, from 1.
    pub number: u32,
    /// When it was charged.
    pub moment: Moment,
    /// The session that used the units.
    pub session: SessionId,
    /// Rating-Group (RFC 8506 section 8.29).
    pub group: u32,
    /// The blocks that it started.
    pub blocks: Blocks,
    /// Those of them that allowances covered.
    pub covered: Blocks,
    /// What the others cost.
    pub rated: Amount,
    /// What the reservation's holds and the eligible buckets paid.
    pub collected: Amount,
    /// What they didn't reach.
    pub uncollected: Amount,
}

// It is written out, so that a caller doesn't prove again how each part is dropped.
impl Drop for ChargeRow {
    fn drop(self) {
        let ChargeRow {
            number: _,
            moment: _,
            session: _,
            group: _,
            blocks: _,
            covered: _,
            rated: _,
            collected: _,
            uncollected: _,
        } = self;
    }
}

impl Model for ChargeRow {
    ghost use Rattle.std.specs.Prelude.{◌≡◌, ◌+◌};
    ghost use Rattle.ledger.specs.ChargeColumns.{ChargeColumns};

    ghost Value = { ChargeColumns };

    ghost view = { λ r. record {
      number = r.number;
      moment = r.moment;
      session = r.session;
      group = r.group;
      blocks = r.blocks;
      covered = r.covered;
      rated = r.rated;
      collected = r.collected;
      uncollected = r.uncollected;
    } };

    ghost invariant = { λ r. r.collected.0 + r.uncollected.0 ≡ r.rated.0 };
}
