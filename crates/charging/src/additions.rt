//! The law that joins what was charged before a tariff book is added to what is charged after it.

ghost use Rattle.charging.specs.LaterBooks.{AdditionsChangeNothing, AdditionsGoOn, RunsAreOne};

/// A tariff book that is added to the shelf later changes nothing of any history before it: what
/// commands left that were accepted before it begins, and what one of a moment before it is
/// answered, are the same over the shelf before the addition and the shelf after it. So a run
/// before the addition and one after it are one run over the shelf after it, and each account is
/// accounted for: its balances, its payments and its quotas go on over the addition (TS 32.296,
/// rating function; profile).
// rule: later-books.goes-on-after, later-books.leave-the-same, joined-runs
pub fn later_books()
    ensures additions { AdditionsGoOn }
    ensures before { AdditionsChangeNothing }
    ensures runs { RunsAreOne }
{}
