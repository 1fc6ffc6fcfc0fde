//! Laws of the definitions by which vouchers are added and redeemed: functions that do nothing.

ghost use Rattle.voucher_rules.specs.Laws.{CodesAreApart, IsRedeemedOnce, IsSpentForGood};
ghost use Rattle.voucher_rules.specs.Laws.{StandsForGood};

/// A voucher that was redeemed is spent by that account for good: whatever is added and redeemed
/// afterwards, the same is under its code.
// rule: redeemed-once
pub fn spent_for_good()
    ensures { IsSpentForGood }
{}

/// However often vouchers are added and redeemed, by whichever accounts, a code is redeemed at most
/// once.
// rule: redeemed-once
pub fn redeemed_once()
    ensures { IsRedeemedOnce }
{}

/// A voucher that is under a code is there for good, with its terms: adding one over it changes
/// nothing, be it of the same terms or of others, and redeeming it leaves its terms.
// rule: redeemed-once.stands-for-good
pub fn standing_for_good()
    ensures { StandsForGood }
{}

/// What is under a code is what the commands about that code alone leave of it.
// rule: redeemed-once.stands-for-good
pub fn codes_apart()
    ensures { CodesAreApart }
{}
