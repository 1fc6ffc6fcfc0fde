//! The denial of a request that would begin a session.

ghost use Rattle.std.specs.Prelude.{◌≡◌, ◌≤◌, None};
ghost use Rattle.reserving.specs.Sessions.{session_in};
ghost use Rattle.decisions.specs.Decisions.{denied};
ghost use Rattle.decisions.specs.Follows.{IsNew, RulesOver};

use crate::request_head::Asked;
use crate::ruling::{Ruled, Ruling};
use commands::{Failure, Outcome, ServiceFailure};
use reserving::Account;
use std::alloc::Global;

/// Denies a request of a session that isn't known: it is recorded, and neither granted nor charged
/// anything.
pub(crate) fn deny(
    alloc: Global,
    account: &mut Account,
    asked: &Asked,
    why: ServiceFailure,
) -> Ruled
    requires later { account.old.as_of ≤ asked.now.moment }
    requires new { session_in asked.now.session.now account.old.sessions ≡ None }
    ensures { RulesOver (IsNew asked.now.session.now) (denied asked.now.moment asked.now.session.now
        asked.now.number why) asked.now.session.now asked.now.moment account.old account.new result }
{
    account.deny(asked.session, asked.number, asked.moment)?;
    Ok(Ruling::accepted(Outcome::Failed(Failure::Denied(why)), Vec::new(alloc)))
}
