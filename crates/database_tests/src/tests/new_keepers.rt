//! A keeper over a new database in memory, changes of accounts, and what is seen of them.

use crate::tests::row_writers::{push, push_account, push_buckets};
use crate::tests::values::{account, moment};
use keepers::{Change, NamedRows};
use reserving::StoredAccount;
use shelves::TariffShelf;
use sql_keeper::SqlKeeper;
use sqlite::{Connection, MemStore};
use std::alloc::Global;
use std::process::Abort;
use units::Moment;

/// A keeper over a database in memory, and what was told of it so far.
#[derive(Drop)]
pub(crate) struct Trial {
    pub(crate) alloc: Global,
    pub(crate) keeper: SqlKeeper<MemStore>,
    pub(crate) told: String,
}

/// A keeper of the worked book over a new database, and the book.
pub(crate) fn new_trial(rt: &impl Abort, alloc: Global) -> (Trial, TariffShelf) {
    let conn = Connection::open_in_memory(alloc).expect(rt, "a database");
    let made = SqlKeeper::create(alloc, conn, worked_book::BOOK);
    let (keeper, shelf) = made.ok().expect(rt, "a keeper");
    let told = String::new(alloc);
    let trial = Trial {
        alloc,
        keeper,
        told,
    };
    (trial, shelf)
}

/// The trial gone on with by a keeper that is opened over the database of the one before.
pub(crate) fn opened_again(rt: &impl Abort, trial: Trial) -> (Trial, TariffShelf) {
    let Trial {
        alloc,
        keeper,
        told,
    } = trial;
    let opened = SqlKeeper::open(alloc, keeper.into_connection());
    let (keeper, shelf) = opened.ok().expect(rt, "a keeper");
    let trial = Trial {
        alloc,
        keeper,
        told,
    };
    (trial, shelf)
}

impl Trial {
    /// Commits the change of an account from these rows to those.
    pub(crate) fn commit(
        &mut self,
        rt: &impl Abort,
        number: &str,
        at: u64,
        rows: (StoredAccount, StoredAccount),
    ) {
        let change = change_of(rt, self.alloc, moment(rt, at), number, rows);
        self.keeper.commit(change).expect(rt, "a commit");
    }

    /// What is viewed of an account at a moment.
    pub(crate) fn tell_view(
        &mut self,
        rt: &impl Abort,
        shelf: &TariffShelf,
        number: &str,
        at: u64,
    ) {
        let (number, at) = (account(rt, self.alloc, number), moment(rt, at));
        let view = self.keeper.view(shelf, &number, at).expect(rt, "a view");
        match &view {
            Some(account) => push_account(rt, &mut self.told, account),
            None => push(rt, &mut self.told, "no account\n"),
        }
    }

    /// The dead buckets of an account.
    pub(crate) fn tell_dead(&mut self, rt: &impl Abort, number: &str) {
        let number = account(rt, self.alloc, number);
        let buckets = self.keeper.dead_buckets(&number).expect(rt, "buckets");
        push_buckets(rt, &mut self.told, &buckets);
    }

    /// The moment of the last change.
    pub(crate) fn tell_last(&mut self, rt: &impl Abort) {
        let last = self.keeper.last().expect(rt, "a moment").seconds();
        write!(self.told, "last {last}\n").expect(rt, "room");
    }
}

/// The change of an account from these rows to those, without charges.
pub(crate) fn change_of(
    rt: &impl Abort,
    alloc: Global,
    moment: Moment,
    number: &str,
    rows: (StoredAccount, StoredAccount),
) -> Change {
    let (before, after) = rows;
    let rows = NamedRows::differing(alloc, &before.into_earlier(), &after).expect(rt, "room");
    Change {
        moment,
        number: account(rt, alloc, number),
        rows,
        charges: Vec::new(alloc),
        kept: None,
        redeemed: None,
    }
}
