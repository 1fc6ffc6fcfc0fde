//! What is loaded of an account, and the change made of it.

ghost use Rattle.std.specs.Prelude.{◌≡◌, IfOk, option_copied};
ghost use Rattle.reserving.specs.Stored.{stored};
ghost use Rattle.keepers.specs.Differing.{named_for};

use crate::kept_answer::KeptAnswer;
use crate::named_rows::NamedRows;
use identifiers::{AccountNumber, SessionId, VoucherCode};
use ledger::ChargeRow;
use reserving::{Account, EarlierRows, StoredAccount};
use std::alloc::{AllocError, Global};
use units::Moment;
use voucher_rules::Voucher;

/// What a keeper loads of an account: the rows that may still change. It is spent by a commit or
/// given up: it can't be let go.
pub struct Loaded<'b> {
    /// Its number (Subscription-Id-Data, RFC 8506 section 8.48).
    pub number: AccountNumber,
    /// Its rows that may still change, priced by the shelf that it was loaded with.
    pub account: Account<'b>,
    /// Its rows as they were loaded: all, or beside the buckets and counters those of one session,
    /// where a command leaves each other session's as they are.
    pub before: EarlierRows,
}

/// A voucher that an account redeemed.
#[derive(Drop)]
pub struct Redeemed {
    /// The code of the voucher.
    pub code: VoucherCode,
    /// The voucher as it is from now on.
    pub voucher: Voucher,
}

/// What an accepted command changes: each row once, and of an account's rows those alone that
/// differ from what was loaded. It is spent by a commit.
#[derive(Drop)]
pub struct Change {
    /// The moment of the command.
    pub moment: Moment,
    /// The account's number; it may be a new account.
    pub number: AccountNumber,
    /// What is kept of the account once, and its rows that differ.
    pub rows: NamedRows,
    /// The charges that the command made, in order, each under its number.
    pub charges: Vec<ChargeRow>,
    /// What is kept of the command, where it has a key.
    pub kept: Option<KeptAnswer>,
    /// The voucher that the command redeems, where it redeems one.
    pub redeemed: Option<Redeemed>,
}

/// The rows that differ: of one session alone, or of all.
fn named_for(
    alloc: Global,
    own: Option<&SessionId>,
    before: &EarlierRows,
    after: StoredAccount,
) -> Result<NamedRows, AllocError>
    ensures { IfOk result
        (λ named. named ≡ named_for (option_copied own.entry) before.now after) }
{
    match own {
        Some(session) => NamedRows::differing_of(alloc, session, before, after),
        None => NamedRows::differing(alloc, before, &after),
    }
}

impl Loaded<'_> {
    /// What changes, once a command made its call on the account. Where the rows of one session
    /// alone may have changed, no other session's row is looked at.
    ///
    /// # Errors
    /// Out of memory; the account is given up then, and nothing has changed.
    // rule: database-writes
    pub fn into_change(
        self,
        alloc: Global,
        own: Option<&SessionId>,
        charges: Vec<ChargeRow>,
        kept: Option<KeptAnswer>,
        redeemed: Option<Redeemed>,
    ) -> Result<Change, AllocError>
        ensures { IfOk result (λ change. change ≡ record {
          moment = self.entry.account.as_of;
          number = self.entry.number;
          rows = named_for (option_copied own.entry) self.entry.before (stored self.entry.account);
          charges = charges;
          kept = kept;
          redeemed = redeemed;
        }) }
    {
        let Loaded {
            number,
            account,
            before,
        } = self;
        let moment = account.as_of();
        let after = account.into_stored();
        let rows = named_for(alloc, own, &before, after)?;
        Ok(Change {
            moment,
            number,
            rows,
            charges,
            kept,
            redeemed,
        })
    }
}
