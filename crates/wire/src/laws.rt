//! Laws of the definitions by which the bodies of operators' requests are read: functions that do
//! nothing.

ghost use Rattle.wire.specs.SaidBodies.{CreditsAreSaid, CreditsAreRead, AllowancesAreSaid};
ghost use Rattle.wire.specs.SaidBodies.{AllowancesAreRead, RedemptionsAreSaid, RedemptionsAreRead};

/// What is read of a credit is what its members say, and what they say is read, whatever their
/// order and whatever else the body has: its amount, the moments between which it is used, its
/// scope and its reference (profile).
// rule: credit-body.says-credit
pub fn credit_is_read()
    ensures said { CreditsAreSaid }
    ensures read { CreditsAreRead }
{}

/// So is an allowance, by its blocks, the moments between which it is used, its rating group and
/// its reference (profile).
// rule: credit-body.says-credit
pub fn allowance_is_read()
    ensures said { AllowancesAreSaid }
    ensures read { AllowancesAreRead }
{}

/// So is the redemption of a voucher, by the account that it is for and its reference (profile).
// rule: credit-body.says-credit
pub fn redemption_is_read()
    ensures said { RedemptionsAreSaid }
    ensures read { RedemptionsAreRead }
{}
