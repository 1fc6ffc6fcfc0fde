//! Laws over the definitions of the ledger alone.

ghost use Rattle.ledger.specs.Laws.{
  IsBroughtOn,
  IsBroughtAlike,
  IsDeadLater,
  IsDeadSettled,
  IsHeldUnended,
  IsReservedUnended,
  ChargesGoOn,
};
ghost use Rattle.ledger.specs.Windows.{AreWindowsOfBooks};

/// At a moment of a command the switch and the validity of a grant are the book's: no end of all
/// moments cuts them.
// rule: validity
pub fn window_of_book()
    ensures { AreWindowsOfBooks }
{}

/// Time goes on alike in one step and in two: a bucket's position, brought to a later moment, is
/// its position then, and in two steps it is brought to where one step brings it.
// rule: going-on, sweep-unseen
pub fn going_on()
    ensures position { IsBroughtOn }
    ensures steps { IsBroughtAlike }
{}

/// What is reserved of a bucket is the sum of its holds whose session is live and whose reservation
/// no later fact ended (TS 32.299, session charging with unit reservation).
// rule: holds.held-unended
pub fn holds_without_end()
    ensures held { IsHeldUnended }
    ensures reserved { IsReservedUnended }
{}

/// A bucket of which nothing is available and nothing reserved never changes again: not as time
/// goes on, and not by a settlement.
// rule: dead-rows
pub fn dead_for_good()
    ensures later { IsDeadLater }
    ensures settled { IsDeadSettled }
{}

/// The charges of newer facts come after those of the older ones, and their numbers go on from the
/// ledger's next.
// rule: database-loads.go-on
pub fn charges_go_on()
    ensures { ChargesGoOn }
{}
