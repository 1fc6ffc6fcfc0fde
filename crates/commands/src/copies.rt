//! Copies of what is kept of commands.

ghost use Rattle.std.specs.Prelude.{◌≡◌, IfOk};

use crate::allowance::Allowance;
use crate::command::{KeptCredit, VoucherRedemption};
use crate::request::{Ask, Request};
use std::alloc::AllocError;

fn copy_ask(ask: &Ask) -> Result<Ask, AllocError>
    ensures { IfOk result (λ copy. copy ≡ ask.now) }
{
    ask.clone()
}

/// The same request once more.
pub(crate) fn copy_request(request: &Request) -> Result<Request, AllocError>
    ensures { IfOk result (λ copy. copy ≡ request.now) }
{
    Ok(Request {
        session: request.session.clone()?,
        number: request.number,
        account: request.account.clone()?,
        ask: copy_ask(&request.ask)?,
    })
}

/// The same credit once more.
pub(crate) fn copy_credit(credit: &KeptCredit) -> Result<KeptCredit, AllocError>
    ensures { IfOk result (λ copy. copy ≡ credit.now) }
{
    credit.clone()
}

/// The same allowance once more.
pub(crate) fn copy_allowance(allowance: &Allowance) -> Result<Allowance, AllocError>
    ensures { IfOk result (λ copy. copy ≡ allowance.now) }
{
    allowance.clone()
}

/// The same redemption once more.
pub(crate) fn copy_redemption(
    redemption: &VoucherRedemption,
) -> Result<VoucherRedemption, AllocError>
    ensures { IfOk result (λ copy. copy ≡ redemption.now) }
{
    redemption.clone()
}
