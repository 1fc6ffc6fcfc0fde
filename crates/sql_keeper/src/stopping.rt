//! A keeper that is stopped where it is, and its database opened again.

ghost use Rattle.std.specs.Prelude.{IfErr, IfOk};
ghost use Rattle.sqlite.specs.Held.{state};
ghost use Rattle.sqlite.specs.State.{HasCleanDisk};
ghost use Rattle.sqlite.specs.Steps.{IsFresh};
ghost use Rattle.sqlite_trees.specs.View.{IsClean as IsHonest};
ghost use Rattle.sql_keeper.specs.Again.{IsChangedWhole, IsFoundAfter, IsLeftFresh};
ghost use Rattle.sql_keeper.specs.Again.{IsRefusedAfter, IsShownBy, ShowsStopped};
ghost use Rattle.sql_keeper.specs.Causes.{IsStores};
ghost use Rattle.sql_keeper.specs.Inside.{IsClean};

use crate::keeper::SqlKeeper;
use crate::opening::open_fault;
use keepers::{Change, StoreFault};
use shelves::TariffShelf;
use sql_tables::OpenFault;
use sqlite::{Alter, Connection};
use sqlite_trees::error::StoreError;
use sqlite_trees::store::Reopen;
use std::alloc::Global;

/// A keeper that was made over the database of one that was stopped, and the shelf of its books
/// apart; or why there is none, with the connection that is left, if there was one.
pub type Reopened<S> = Result<(SqlKeeper<S>, TariffShelf), (OpenFault, Option<Connection<S>>)>;

/// The fault of a store that wasn't opened again.
fn stop_fault(error: StoreError) -> OpenFault
    ensures { IsStores result }
{
    match error {
        StoreError::OutOfMemory => OpenFault::Memory,
        _ => OpenFault::Store,
    }
}

/// The store of a connection that is stopped where it is, opened again.
// rule: stop-opened
fn stop<S: Alter + Reopen + Drop>(connection: Connection<S>) -> Result<S, OpenFault>
    ensures left { IfOk result (λ store. IsHonest (S.Store.view store) →
        IsLeftFresh S.Store connection store) }
    ensures fault { IfErr result IsStores }
{
    let mut store = connection.into_store();
    store.crash_and_reopen().map_err(stop_fault)?;
    Ok(store)
}

/// A connection to a store that was just opened.
fn connect<S: Alter + Drop>(alloc: Global, store: S) -> Result<Connection<S>, OpenFault>
    requires fresh { IsHonest (S.Store.view store) → IsFresh (S.Store.view store) }
    ensures shows { IfOk result (λ conn. HasCleanDisk (state S.Store conn) →
        IsShownBy S.Store store conn) }
    ensures fault { IfErr result IsStores }
{
    match Connection::over(alloc, store) {
        Ok(connection) => Ok(connection),
        Err((error, _)) => Err(open_fault(error)),
    }
}

/// A connection that is stopped where it is, and another one to what the stop left.
fn stop_and_connect<S: Alter + Reopen + Drop>(
    alloc: Global,
    connection: Connection<S>,
) -> Result<Connection<S>, OpenFault>
    ensures shows { IfOk result (λ conn. HasCleanDisk (state S.Store conn) →
        ShowsStopped S.Store connection conn) }
    ensures fault { IfErr result IsStores }
{
    let store = stop(connection)?;
    connect(alloc, store)
}

/// The keeper is stopped where it is, and its database is opened again: it has the rows that
/// the stop left, under the text of the keeper and the books of both. Where the keeper was clean
/// they are those that it held.
///
/// # Errors
/// `Store` or `Memory`, and for no row another one. The connection is given back where there was
/// one.
// rule: stop-opened
pub fn stop_and_open<S: Alter + Reopen + Drop>(alloc: Global, keeper: SqlKeeper<S>) -> Reopened<S>
    ensures found { IfOk result (λ made. HasCleanDisk (state S.Store made.0.connection) →
        IsFoundAfter S.Store S.Store keeper made.0 made.1) }
    ensures refused { IfErr result (λ left. IsRefusedAfter S.Store left.0 left.1) }
{
    let connection = keeper.into_connection();
    let shown = match stop_and_connect(alloc, connection) {
        Ok(shown) => shown,
        Err(fault) => return Err((fault, None)),
    };
    match SqlKeeper::open(alloc, shown) {
        Ok(made) => Ok(made),
        Err((fault, left)) => Err((fault, Some(left))),
    }
}

/// Makes a change, is stopped at its exit, and opens the database again: the rows are those before
/// the change or with it, whole, also where the disk failed the commit and shut the connection;
/// with it, where the change was acknowledged.
///
/// # Errors
/// First those of `commit`, then those of `stop_and_open`.
// rule: stop-command
pub fn commit_and_stop<S: Alter + Reopen + Drop>(
    alloc: Global,
    keeper: SqlKeeper<S>,
    change: Change,
) -> (Result<(), StoreFault>, Reopened<S>)
    ensures whole { IsClean (state S.Store keeper.connection) →
        IfOk result.1 (λ made. HasCleanDisk (state S.Store made.0.connection) →
        IsChangedWhole S.Store change keeper made.0 result.0) }
    ensures refused { IfErr result.1 (λ left. IsRefusedAfter S.Store left.0 left.1) }
{
    // For the prover alone: looking at the value makes known here what its type keeps.
    let _failures = keeper.failures();
    let mut keeper = keeper;
    let answered = keeper.commit(change);
    (answered, stop_and_open(alloc, keeper))
}
