//! A keeper over a database: what it is. Its calls are in modules of their own.

ghost use Rattle.std.specs.Prelude.{◌≡◌};
ghost use Rattle.sql_keeper.specs.Inside.{IsKeeper, failed_in};

use crate::kept_rows::KeptRows;
use crate::seen::SeenAccount;
use shelves::TariffShelf;
use sqlite::{Alter, Connection};
use std::alloc::Global;
use std::marker::Model;
use units::Moment;

/// A keeper over a database. Between calls no transaction is open, so what it holds is what was
/// committed last. It knows the text of its first book, its books and the moment of the last
/// accepted command as the database keeps them, so that an open finds the same again. What it read
/// last of an account it knows until it writes, so that a commit needn't read it once more. The
/// rows of one account that may still change it keeps as it read or wrote them last, and so it does
/// what is kept of the account once with the counters of some cycles: a load of that account at a
/// moment of these cycles reads nothing.
///
/// Its store is clean while the disk returns what was written; where the disk failed a call, it is
/// clean as long as the connection is open still. Nothing but a failure of the disk shuts it.
// rule: database-reads.held
pub struct SqlKeeper<S: Alter> {
    pub(crate) connection: Connection<S>,
    pub(crate) shelf: TariffShelf,
    pub(crate) text: String,
    pub(crate) last: Moment,
    pub(crate) failures: u64,
    pub(crate) seen: Option<SeenAccount>,
    pub(crate) kept: Option<KeptRows>,
    pub(crate) alloc: Global,
}

impl<S: Alter> Model for SqlKeeper<S> {
    ghost use Rattle.std.specs.String.{string_bytes};
    ghost use Rattle.sql_keeper.specs.Inside.{KeeperState, keeper_code};
    ghost use Rattle.sql_keeper.specs.Seen.{IsSeeing};

    ghost Value = { KeeperState S };

    ghost coded = { keeper_code S.code };

    ghost view = { λ k. record {
      connection = k.connection;
      shelf = k.shelf;
      text = string_bytes k.text;
      last = k.last;
      failures = k.failures;
    } };

    ghost invariant = { λ k. IsSeeing S.Store (record {
      connection = k.connection;
      shelf = k.shelf;
      text = string_bytes k.text;
      last = k.last;
      failures = k.failures;
    }) k.seen k.kept };
}

// It is written out, so that a caller doesn't prove again how each part is dropped.
impl<S: Alter + Drop> Drop for SqlKeeper<S> {
    fn drop(self) {
        let SqlKeeper {
            connection: _,
            shelf: _,
            text: _,
            last: _,
            failures: _,
            seen: _,
            kept: _,
            alloc: _,
        } = self;
    }
}

impl<S: Alter> SqlKeeper<S> {
    /// How many calls met a failure of the store; at 10^18 it stays.
    pub fn failures(&self) -> u64
        ensures value { result ≡ self.now.failures }
        ensures count { result ≡ failed_in self.now }
        ensures kept { IsKeeper S.Store self.now }
    {
        self.failures
    }

    /// Gives the keeper up, and its connection back.
    pub fn into_connection(self) -> Connection<S>
        ensures connection { result ≡ self.connection }
        ensures kept { IsKeeper S.Store self }
    {
        let SqlKeeper {
            connection,
            shelf: _,
            text: _,
            last: _,
            failures: _,
            seen: _,
            kept: _,
            alloc: _,
        } = self;
        connection
    }
}
