//! Credits and allowances of an account.

ghost use Rattle.std.specs.Prelude.{◌≡◌, ◌≤◌, ◌<◌, OnOk, OnErr, IfOk, IsErrOf, ◌↔◌};
ghost use Rattle.reserving.specs.Rows.{IsAccount};
ghost use Rattle.std.specs.Prelude.{Some};
ghost use Rattle.units.specs.Words.{greatest_number, most_blocks};
ghost use Rattle.reserving.specs.Calls.{Credits};
ghost use Rattle.buckets.specs.Kinds.{most_of, IsScopeOf};
ghost use Rattle.reserving.specs.Changes.{credited_account};

use crate::account::Account;
use crate::fault::AccountFault;
use buckets::{BucketKind, BucketTerms};
use units::{Blocks, Moment, Money};

impl<'b> Account<'b> {
    /// Adds a bucket of this amount, for use from and until these moments, by one rating group or
    /// by all, and answers its number (TS 32.296, account balance management function).
    ///
    /// # Errors
    /// `Limit` exactly where the bucket's number would pass 4,294,967,295, else `Memory`: a growth
    /// was refused. Then the account is unchanged.
    // rule: credit
    pub fn credit(
        &mut self,
        from: Moment,
        until: Moment,
        scope: Option<u32>,
        amount: Money,
        moment: Moment,
    ) -> Result<u32, AccountFault>
        requires { self.old.as_of ≤ moment }
        ensures { Credits BucketKind.Money from until scope amount moment self.old self.new result }
    {
        let number = self.credit_now(BucketKind::Money, from, until, scope, amount.micros())?;
        self.advance(moment);
        Ok(number)
    }

    /// Adds an allowance of so many blocks of a rating group, for use from and until these moments,
    /// and answers its number (TS 32.296, account balance management function).
    ///
    /// # Errors
    /// `Limit` exactly where the bucket's number would pass 4,294,967,295, else `Memory`: a growth
    /// was refused. Then the account is unchanged.
    // rule: allowance
    pub fn allow(
        &mut self,
        from: Moment,
        until: Moment,
        group: u32,
        blocks: Blocks,
        moment: Moment,
    ) -> Result<u32, AccountFault>
        requires moment { self.old.as_of ≤ moment }
        requires most { blocks.0 ≤ most_blocks }
        ensures { Credits BucketKind.Blocks from until (Some group) blocks.0 moment self.old
            self.new result }
    {
        let number = self.credit_now(BucketKind::Blocks, from, until, Some(group), blocks.0)?;
        self.advance(moment);
        Ok(number)
    }

    fn credit_now(
        &mut self,
        kind: BucketKind,
        from: Moment,
        until: Moment,
        scope: Option<u32>,
        amount: u64,
    ) -> Result<u32, AccountFault>
        requires most { amount ≤ most_of kind }
        requires scope { IsScopeOf kind scope }
        ensures rows { OnOk result
            (self.new ≡ credited_account kind from until scope amount self.old) }
        ensures account { OnOk result (IsAccount self.old) }
        ensures in_range { OnOk result (self.old.next_bucket ≤ greatest_number) }
        ensures number { IfOk result (λ n. n ≡ self.old.next_bucket) }
        ensures limit { IsErrOf result AccountFault.Limit
            ↔ (greatest_number < self.old.next_bucket) }
        ensures err { OnErr result (self.new ≡ self.old) }
    {
        let Ok(number) = u32::try_from(self.rows.next_bucket) else {
            return Err(AccountFault::Limit);
        };
        let terms = BucketTerms {
            kind,
            from,
            until,
            scope,
            amount,
        };
        self.rows.purse.add(number, terms)?;
        self.rows.next_bucket += 1;
        self.calm = false;
        self.quiet = None;
        Ok(number)
    }
}
