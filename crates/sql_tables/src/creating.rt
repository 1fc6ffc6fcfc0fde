//! The tables and indexes, made.

ghost use Rattle.std.specs.Prelude.{◌≡◌, ◌≤◌, ◌<◌, ◌+◌, false, length, IfOk};
ghost use Rattle.sql_tables.specs.Stages.{Adds, BuildsAll, BuildsTo, CommitsAll};
ghost use Rattle.sql_tables.specs.Stages.{CommitsTo, Creates, HasNoTable, HasStage, HasVersion};
ghost use Rattle.sql_tables.specs.Stages.{Migrates};
ghost use Rattle.sql_tables.specs.Schema.{our_schema, latest, pieces_to, schema_at};
ghost use Rattle.sql_tables.specs.Statements.{Attempts, AttemptsOver};
ghost use Rattle.sqlite.specs.Held.{state};
ghost use Rattle.sqlite.specs.Steps.{over_memory};
ghost use Rattle.sqlite.specs.State.{HasCleanDisk};

use crate::texts::piece_text;
use crate::writing::write;
use sqlite::{Alter, Connection, Error, MemStore, Transaction};
use std::alloc::Global;

/// The version of the tables that are made.
pub const LATEST: u32 = 3;

/// How many tables and indexes the versions up to this one have.
fn pieces_to(version: u32) -> usize
    requires known { (1 ≤ version) × (version ≤ latest) }
    ensures { result ≡ length (pieces_to version) }
{
    match version {
        1 => 12,
        2 => 15,
        _ => 17,
    }
}

/// Makes the table or the index at a place.
fn create<S: Alter>(tx: &mut Transaction<'_, S>, place: usize) -> Result<usize, Error>
    requires place { place < 17 }
    requires stage { HasStage place (state S.Store tx.old.conn.now) }
    ensures same_reference { tx.new.conn.ghost_name ≡ tx.old.conn.ghost_name }
    ensures makes { Attempts (Adds place (place + 1)) (state S.Store tx.old.conn.now)
        (state S.Store tx.new.conn.now) result }
{
    write(tx, piece_text(place), &[])
}

/// Makes the tables from one place on, up to another, in a database that has those before.
fn create_between<S: Alter>(
    tx: &mut Transaction<'_, S>,
    from: usize,
    to: usize,
) -> Result<(), Error>
    requires some { from < to }
    requires most { to ≤ 17 }
    requires stage { HasStage from (state S.Store tx.old.conn.now) }
    ensures same_reference { tx.new.conn.ghost_name ≡ tx.old.conn.ghost_name }
    ensures makes { Attempts (Adds from to) (state S.Store tx.old.conn.now)
        (state S.Store tx.new.conn.now) result }
{
    create(tx, from)?;
    for place in from + 1..to {
        create(tx, place)?;
    }
    Ok(())
}

/// Makes each table and the indexes, within a transaction, in a database that has none.
///
/// # Errors
/// An error of the store. Then nothing is committed.
pub fn create_each<S: Alter>(tx: &mut Transaction<'_, S>) -> Result<(), Error>
    requires stage { HasStage 0 (state S.Store tx.old.conn.now) }
    ensures { AttemptsOver S.Store BuildsAll tx.old.conn tx.new.conn result }
{
    create_between(tx, 0, pieces_to(LATEST))
}

/// Makes what the versions up to this one have, within a transaction, in a database that has no
/// table.
fn create_to<S: Alter>(tx: &mut Transaction<'_, S>, version: u32) -> Result<(), Error>
    requires known { (1 ≤ version) × (version ≤ latest) }
    requires stage { HasStage 0 (state S.Store tx.old.conn.now) }
    ensures same_reference { tx.new.conn.ghost_name ≡ tx.old.conn.ghost_name }
    ensures makes { Attempts (BuildsTo version) (state S.Store tx.old.conn.now)
        (state S.Store tx.new.conn.now) result }
{
    create_between(tx, 0, pieces_to(version))
}

/// Makes what the versions after this one add, within a transaction: the schema is then that of the
/// latest, and all rows of the tables that were there stay. The version that the database keeps is
/// the caller's to change.
///
/// # Errors
/// An error of the store. Then nothing is committed.
// rule: tables
pub fn create_since<S: Alter>(tx: &mut Transaction<'_, S>, version: u32) -> Result<(), Error>
    requires known { (1 ≤ version) × (version < latest) }
    requires has { HasVersion version (state S.Store tx.old.conn.now) }
    ensures { AttemptsOver S.Store (Migrates version) tx.old.conn tx.new.conn result }
{
    create_between(tx, pieces_to(version), pieces_to(LATEST))
}

/// Makes the tables and their indexes in a database that has none: all of them or nothing, also
/// over a crash.
///
/// # Errors
/// An error of the store. Then the database is as it was.
// rule: tables
pub fn create_tables<S: Alter>(conn: &mut Connection<S>) -> Result<(), Error>
    requires idle { conn.old.in_transaction ≡ false }
    requires blank { HasNoTable (state S.Store conn.old) }
    ensures { Creates S.Store CommitsAll our_schema.tables conn.old conn.new result }
{
    let mut tx = conn.transaction();
    create_each(&mut tx)?;
    tx.commit()
}

/// Makes the tables and the indexes of a version in a database that has none: all of them or
/// nothing, also over a crash.
///
/// # Errors
/// An error of the store. Then the database is as it was.
pub fn create_tables_at<S: Alter>(conn: &mut Connection<S>, version: u32) -> Result<(), Error>
    requires known { (1 ≤ version) × (version ≤ latest) }
    requires idle { conn.old.in_transaction ≡ false }
    requires blank { HasNoTable (state S.Store conn.old) }
    ensures { Creates S.Store (CommitsTo version) (schema_at version).tables conn.old conn.new
        result }
{
    let mut tx = conn.transaction();
    create_to(&mut tx, version)?;
    tx.commit()
}

/// A database in memory that has the tables of a version, all empty.
///
/// # Errors
/// An error of the store, also where memory was refused.
pub fn create_in_memory_at(alloc: Global, version: u32) -> Result<Connection<MemStore>, Error>
    requires known { (1 ≤ version) × (version ≤ latest) }
    ensures idle { IfOk result (λ conn. conn.in_transaction ≡ false) }
    ensures made { IfOk result (λ conn. HasCleanDisk (state over_memory conn) →
        CommitsTo version (state over_memory conn)) }
{
    let mut conn = Connection::open_in_memory(alloc)?;
    create_tables_at(&mut conn, version)?;
    Ok(conn)
}

/// A database in memory that has the tables, all empty.
///
/// # Errors
/// An error of the store, also where memory was refused.
pub fn create_in_memory(alloc: Global) -> Result<Connection<MemStore>, Error>
    ensures idle { IfOk result (λ conn. conn.in_transaction ≡ false) }
    ensures made { IfOk result
        (λ conn. HasCleanDisk (state over_memory conn) → CommitsAll (state over_memory conn)) }
{
    let mut conn = Connection::open_in_memory(alloc)?;
    create_tables(&mut conn)?;
    Ok(conn)
}
