//! Laws of the definitions by which months are printed: functions that do nothing.

ghost use Rattle.buckets.specs.declared.kind.BucketKind.TheVariants.{Money, Blocks};
ghost use Rattle.operations.specs.Laws.{StatementShowsCharged};

use charging::collection;

/// To date: what the buckets of money of a statement show as charged together, which it shows as
/// collected, is what all charges of the account collected, at any moment (TS 32.296, account
/// balance management function).
// rule: statement-sums
pub fn statement_collects()
    ensures { StatementShowsCharged Money }
{
    collection();
}

/// To date: what the allowances of a statement show as charged together, which it shows as covered,
/// is the covered blocks of all charges of the account, at any moment (TS 32.296, account balance
/// management function).
// rule: statement-sums
pub fn statement_covers()
    ensures { StatementShowsCharged Blocks }
{
    collection();
}
