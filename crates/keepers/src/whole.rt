//! Every row that is kept of an account.

ghost use Rattle.std.specs.Prelude.{◌≡◌, []};

use buckets::Bucket;
use reserving::{Counter, Session, SessionGroup};
use std::alloc::Global;

/// Every row that is kept of an account, those that can't change any more first.
#[derive(Drop)]
pub struct WholeAccount {
    /// The buckets of the account.
    pub buckets: Vec<Bucket>,
    /// The counters of the account.
    pub counters: Vec<Counter>,
    /// The sessions and the recorded events of the account.
    pub sessions: Vec<Session>,
    /// What the sessions have of rating groups.
    pub groups: Vec<SessionGroup>,
}

impl WholeAccount {
    /// No row at all. It takes no memory.
    pub(crate) fn none(alloc: Global) -> WholeAccount
        ensures buckets { result.buckets.items ≡ [] }
        ensures counters { result.counters.items ≡ [] }
        ensures sessions { result.sessions.items ≡ [] }
        ensures groups { result.groups.items ≡ [] }
    {
        WholeAccount {
            buckets: Vec::new(alloc),
            counters: Vec::new(alloc),
            sessions: Vec::new(alloc),
            groups: Vec::new(alloc),
        }
    }
}
