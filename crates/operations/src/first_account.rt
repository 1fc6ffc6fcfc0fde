//! What opens the account of the first request.

ghost use Rattle.std.specs.Prelude.{◌≡◌, codes, IfOk};
ghost use Rattle.operations.specs.LinesServed.{opening_for, opened_with};

use charging::DatedCommand;
use commands::{Command, Credit};
use identifiers::{AccountNumber, Reference};
use std::alloc::{AllocError, Global};
use units::{Moment, Money};

/// What opens the account of the first request with this amount in micro-units, where there is one.
pub(crate) fn open_first(
    alloc: Global,
    amount: Option<Money>,
    requests: &[DatedCommand],
) -> Result<Vec<DatedCommand>, AllocError>
    ensures { IfOk result (λ opening. opening.items ≡ opening_for amount requests.now) }
{
    match (amount, requests.first()) {
        (Some(amount), Some(first)) => match &first.command {
            Command::Ccr(request) => open_account(alloc, amount, &request.account),
            _ => Ok(Vec::new(alloc)),
        },
        _ => Ok(Vec::new(alloc)),
    }
}

/// Opens an account with one bucket of this amount, from the beginning and without end.
fn open_account(
    alloc: Global,
    amount: Money,
    account: &AccountNumber,
) -> Result<Vec<DatedCommand>, AllocError>
    ensures { IfOk result (λ opening. opening.items ≡ opened_with amount account.now) }
{
    let moment = Moment::first();
    let open = Command::OpenAccount(account.clone()?);
    let credit = Command::Credit(Credit {
        account: account.clone()?,
        amount,
        from: None,
        until: None,
        scope: None,
        reference: opening_reference(alloc)?,
    });
    let mut opening = Vec::new(alloc);
    opening.push(DatedCommand {
        moment,
        command: open,
    })?;
    opening.push(DatedCommand {
        moment,
        command: credit,
    })?;
    Ok(opening)
}

/// The reference of the credit that an account is opened with.
fn opening_reference(alloc: Global) -> Result<Reference, AllocError>
    ensures { IfOk result (λ r. r ≡ codes "once") }
{
    let Some(reference) = Reference::new(alloc, "once")? else {
        unreachable!()
    };
    Ok(reference)
}
