//! Checks of the balance and price enquiries: they change nothing.

ghost use Rattle.std.specs.Prelude.{◌≡◌, ◌≤◌, ◌<◌, Some};
ghost use Rattle.ledger.specs.Ledger.{Ledger};
ghost use Rattle.reserving.specs.Left.{LeftRows, IsWith};
ghost use Rattle.decisions.specs.Parts.{check_decision, enquiry_decision, balance_of};

use crate::looking::tariff_of;
use crate::refusing::event_refusal;
use crate::reports::event_quantity;
use commands::{Balance, Cost, Event, Failure, Outcome, ServiceFailure};
use reserving::Account;
use units::{Moment, Units};

fn balance(covered: bool) -> Balance
    ensures { result ≡ balance_of covered }
{
    if covered {
        Balance::EnoughCredit
    } else {
        Balance::NoCredit
    }
}

/// Whether the account could pay for an event's units (CHECK_BALANCE, RFC 8506 section 6.2).
// rule: check
pub(crate) fn checked(account: &Account, event: &Event, moment: Moment) -> Outcome
    requires later { account.now.as_of ≤ moment }
    ensures { (ledger : Ledger) (left : LeftRows) → IsWith ledger left moment account.now →
        result ≡ (check_decision account.now.shelf moment event.now ledger).outcome }
{
    if let Some(failure) = event_refusal(account, event, moment) {
        return Outcome::Failed(failure);
    }
    let Some(tariff) = tariff_of(account, event.group, moment) else {
        return Outcome::Failed(Failure::Denied(ServiceFailure::RatingFailed));
    };
    let quantity = event_quantity(tariff, &event.requested);
    let price = account.quote_rest(event.group, Units(quantity.units()), moment);
    Outcome::Checked(balance(price <= account.funds(event.group, moment)))
}

/// What an event's units would cost (PRICE_ENQUIRY, RFC 8506 section 6.1).
// rule: check, enquiry
pub(crate) fn priced(account: &Account, event: &Event, moment: Moment) -> Outcome
    ensures { (ledger : Ledger) (left : LeftRows) → IsWith ledger left moment account.now →
        result ≡ (enquiry_decision account.now.shelf moment event.now ledger).outcome }
{
    if let Some(failure) = event_refusal(account, event, moment) {
        return Outcome::Failed(failure);
    }
    let Some(tariff) = tariff_of(account, event.group, moment) else {
        return Outcome::Failed(Failure::Denied(ServiceFailure::RatingFailed));
    };
    let quantity = event_quantity(tariff, &event.requested);
    // For the prover alone: looking at the value makes known here what its type keeps.
    let _ranges = account.shelf().first();
    let price = account.quote(event.group, Units(quantity.units()), moment);
    Outcome::Priced(Cost {
        micros: price.0 as u64,
        currency: account.shelf().book_at(moment).currency(),
    })
}
