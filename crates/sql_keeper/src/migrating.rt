//! A database of an older version, brought to the latest in one transaction: all of it or nothing,
//! also over a stop.

ghost use Rattle.std.specs.Prelude.{◌≡◌, ◌<◌, ◌≤◌, ◌⊎◌, false, map, nat_lt, Some, IfErr};
ghost use Rattle.std.specs.Prelude.{IfOk, OnOk};
ghost use Rattle.sql_tables.specs.Opens.{IsNoVersion, IsVersion};
ghost use Rattle.sql_tables.specs.declared.fault.OpenFault.TheVariants.{Foreign, Rules};
ghost use Rattle.sql_rows.specs.Content.{tables_content, with_meta};
ghost use Rattle.sql_rows.specs.Lists.{AreBooks};
ghost use Rattle.sql_rows.specs.Makes.{Makes, MakesIfOpen};
ghost use Rattle.sql_rows.specs.Ruled.{AreRuledBooks};
ghost use Rattle.sql_rows.specs.Texts.{book_at, meta_of};
ghost use Rattle.sql_tables.specs.Schema.{latest};
ghost use Rattle.sql_tables.specs.Stages.{HasVersion, Migrates};
ghost use Rattle.sql_tables.specs.Statements.{AttemptsOver, HasTables, HasRules, IsInside};
ghost use Rattle.sql_tables.specs.Statements.{ReadsWithin};
ghost use Rattle.sql_keeper.specs.Finds.{IsMetaFound};
ghost use Rattle.sql_keeper.specs.Migrates.{AreUnruledReserved, BringsToLatest, FindsAny, HasAt};
ghost use Rattle.sql_keeper.specs.Migrates.{HasIdleAt, HasRuledRows, IsMigrated, IsNotMigrated};
ghost use Rattle.sql_keeper.specs.Migrates.{MigratesRuled, MigratesTables, with_first_books};
ghost use Rattle.sql_keeper.specs.Migrates.{with_granted};
ghost use Rattle.sqlite.specs.Held.{state};
ghost use Rattle.sqlite.specs.State.{HasCleanDisk};

use crate::books::{ReadBooks, read_shelves};
use crate::keeper::SqlKeeper;
use crate::older_shelves::{ask_open, older_shelf};
use crate::opening::{keeper_of, latest_books, open_fault, own_meta, read_fault};
use crate::ruled_opening::test_rows;
use shelves::TariffShelf;
use sql_rows::{
    BookColumns, MetaColumns, ReservedColumns, put_grant_book, put_meta, read_books_within,
    read_meta_within, read_reserved_within,
};
use sql_tables::{LATEST, OpenFault, ReadFault, create_since, find_tables};
use sqlite::{Alter, Connection, Error, Transaction};
use std::alloc::Global;

/// Puts the first book's number for each of these reservations.
fn put_numbers<S: Alter>(tx: &mut Transaction<'_, S>, rows: &[ReservedColumns]) -> Result<(), Error>
    requires open { IsInside (state S.Store tx.old.conn.now) }
    requires tables { HasTables (state S.Store tx.old.conn.now) }
    ensures { AttemptsOver S.Store (MakesIfOpen (with_first_books rows.now))
        tx.old.conn tx.new.conn result }
{
    'rows: for row in rows {
        put_grant_book(tx, &row.account, &row.session, row.group, 1)?;
    }
    Ok(())
}

/// Puts the number of the first book for each reservation of a database that had no such numbers.
fn put_first_numbers<S: Alter>(tx: &mut Transaction<'_, S>, alloc: Global) -> Result<(), ReadFault>
    requires open { IsInside (state S.Store tx.old.conn.now) }
    requires tables { HasTables (state S.Store tx.old.conn.now) }
    requires rules { HasRules (state S.Store tx.old.conn.now) }
    ensures over { AttemptsOver S.Store (MakesIfOpen (with_granted 1))
        tx.old.conn tx.new.conn result }
    ensures refused { HasCleanDisk (state S.Store tx.new.conn.now) →
        IfErr result (AreUnruledReserved 1 (state S.Store tx.old.conn.now).now.trees) }
{
    let rows = read_reserved_within(tx, alloc)?;
    put_numbers(tx, &rows)?;
    Ok(())
}

/// Whether a version has no numbers of books for its reservations.
fn has_no_numbers(version: u32) -> bool
    ensures { result ≡ nat_lt version 2 }
{
    version < 2
}

/// Puts the number of the first book for each reservation, where the version had no such numbers.
fn put_all_numbers<S: Alter>(
    tx: &mut Transaction<'_, S>,
    alloc: Global,
    version: u32,
) -> Result<(), ReadFault>
    requires known { 1 ≤ version }
    requires open { IsInside (state S.Store tx.old.conn.now) }
    requires tables { HasTables (state S.Store tx.old.conn.now) }
    requires rules { HasRules (state S.Store tx.old.conn.now) }
    ensures over { AttemptsOver S.Store (MakesIfOpen (with_granted version))
        tx.old.conn tx.new.conn result }
    ensures refused { HasCleanDisk (state S.Store tx.new.conn.now) →
        IfErr result (AreUnruledReserved version (state S.Store tx.old.conn.now).now.trees) }
{
    if has_no_numbers(version) {
        return put_first_numbers(tx, alloc);
    }
    Ok(())
}

/// Makes the tables that a database of an older version hasn't.
pub(crate) fn make_later<S: Alter>(
    tx: &mut Transaction<'_, S>,
    version: u32,
) -> Result<(), OpenFault>
    requires known { (1 ≤ version) × (version < latest) }
    requires has { HasVersion version (state S.Store tx.old.conn.now) }
    ensures over { AttemptsOver S.Store (Migrates version) tx.old.conn tx.new.conn result }
    ensures store { IfErr result
        (λ fault. (fault ≡ OpenFault.Store) ⊎ (fault ≡ OpenFault.Memory)) }
{
    create_since(tx, version).map_err(open_fault)
}

/// What is kept once by a version. The version is looked at before the rest.
pub(crate) fn kept_within<S: Alter>(
    tx: &mut Transaction<'_, S>,
    version: u32,
) -> Result<MetaColumns, OpenFault>
    requires tables { HasTables (state S.Store tx.old.conn.now) }
    requires rules { HasRules (state S.Store tx.old.conn.now) }
    ensures same_reference { tx.new.conn.ghost_name ≡ tx.old.conn.ghost_name }
    ensures reads { ReadsWithin (λ trees m. (tables_content trees).meta ≡ Some (meta_of m))
        (state S.Store tx.old.conn.now) (state S.Store tx.new.conn.now) result }
    ensures finds { IsMetaFound version
        (state S.Store tx.old.conn.now) (state S.Store tx.new.conn.now) result }
{
    match read_meta_within(tx, version) {
        Ok(read) => own_meta(read),
        Err(fault) => Err(read_fault(fault)),
    }
}

/// The books after the first.
pub(crate) fn books_within<S: Alter>(
    tx: &mut Transaction<'_, S>,
    alloc: Global,
) -> Result<Vec<BookColumns>, OpenFault>
    requires tables { HasTables (state S.Store tx.old.conn.now) }
    requires rules { HasRules (state S.Store tx.old.conn.now) }
    ensures same_reference { tx.new.conn.ghost_name ≡ tx.old.conn.ghost_name }
    ensures reads { ReadsWithin (λ trees xs. AreBooks (tables_content trees) (map book_at xs.items))
        (state S.Store tx.old.conn.now) (state S.Store tx.new.conn.now) result }
    ensures told { IfErr result IsNoVersion }
    ensures ours { IfErr result (λ fault. ¬ (fault ≡ Foreign)) }
    ensures rules { HasCleanDisk (state S.Store tx.new.conn.now) → IfErr result (λ fault.
        fault ≡ Rules →
        ¬ AreRuledBooks (tables_content (state S.Store tx.old.conn.now).now.trees).books) }
{
    read_books_within(tx, alloc).map_err(read_fault)
}

/// Puts what the latest version has and the tables of an older one haven't: the numbers of books,
/// and the version.
fn put_latest<S: Alter>(
    tx: &mut Transaction<'_, S>,
    alloc: Global,
    version: u32,
    meta: &MetaColumns,
) -> Result<(), ReadFault>
    requires known { 1 ≤ version }
    requires open { IsInside (state S.Store tx.old.conn.now) }
    requires tables { HasTables (state S.Store tx.old.conn.now) }
    requires rules { HasRules (state S.Store tx.old.conn.now) }
    ensures over { AttemptsOver S.Store
        (Makes (λ c. with_meta (record (meta_of meta.now) { version = latest })
        (with_granted version c)))
        tx.old.conn tx.new.conn result }
    ensures refused { HasCleanDisk (state S.Store tx.new.conn.now) →
        IfErr result (AreUnruledReserved version (state S.Store tx.old.conn.now).now.trees) }
{
    put_all_numbers(tx, alloc, version)?;
    put_meta(tx, LATEST, meta.book.as_str(), meta.last)?;
    Ok(())
}

/// Makes the tables that a database of an older version hasn't, reads its shelf, and brings it to
/// the latest version, within a transaction.
// rule: database-migrated
fn bring_to_latest<S: Alter>(
    tx: &mut Transaction<'_, S>,
    alloc: Global,
    version: u32,
) -> Result<ReadBooks, OpenFault>
    requires known { IsVersion version × (version < latest) }
    requires at { HasAt version (state S.Store tx.old.conn.now) }
    requires ruled { HasRuledRows version (state S.Store tx.old.conn.now) }
    ensures same_reference { tx.new.conn.ghost_name ≡ tx.old.conn.ghost_name }
    ensures brings { BringsToLatest version
        (state S.Store tx.old.conn.now) (state S.Store tx.new.conn.now) result }
{
    make_later(tx, version)?;
    let meta = kept_within(tx, version)?;
    let rows = books_within(tx, alloc)?;
    let read = read_shelves(alloc, meta.book.as_str(), meta.last, &rows)?;
    match put_latest(tx, alloc, version, &meta) {
        Ok(()) => Ok(read),
        Err(fault) => Err(read_fault(fault)),
    }
}

/// Brings a database of an older version to the latest, in one transaction.
// rule: database-migrated
fn migrate_tables<S: Alter>(
    conn: &mut Connection<S>,
    alloc: Global,
    version: u32,
) -> Result<ReadBooks, OpenFault>
    requires known { IsVersion version × (version < latest) }
    requires plain { conn.old.in_transaction ≡ false }
    requires at { HasIdleAt version (state S.Store conn.old) }
    requires ruled { HasRuledRows version (state S.Store conn.old) }
    ensures plain { conn.new.in_transaction ≡ false }
    ensures migrates { MigratesTables version
        (state S.Store conn.old) (state S.Store conn.new) result }
{
    let mut tx = conn.transaction();
    let read = bring_to_latest(&mut tx, alloc, version)?;
    match tx.commit() {
        Ok(()) => Ok(read),
        Err(error) => Err(open_fault(error)),
    }
}

/// Tests each row of a database of an older version, by the shelf of its texts, and brings it to
/// the latest in one transaction.
// rule: database-migrated.ruled-version
fn migrate_ruled<S: Alter>(
    conn: &mut Connection<S>,
    alloc: Global,
    version: u32,
) -> Result<ReadBooks, OpenFault>
    requires known { IsVersion version × (version < latest) }
    requires plain { conn.old.in_transaction ≡ false }
    requires at { HasIdleAt version (state S.Store conn.old) }
    ensures plain { OnOk result (conn.new.in_transaction ≡ false) }
    ensures migrates { MigratesRuled version
        (state S.Store conn.old) (state S.Store conn.new) result }
{
    let read = older_shelf(conn, alloc, version)?;
    ask_open(conn)?;
    test_rows(alloc, conn, version, &read.own, read.last)?;
    migrate_tables(conn, alloc, version)
}

/// The shelf of a database of this system, which is of the latest version then.
fn books_of_any<S: Alter>(alloc: Global, conn: &mut Connection<S>) -> Result<ReadBooks, OpenFault>
    ensures plain { OnOk result (conn.new.in_transaction ≡ false) }
    ensures finds { FindsAny (state S.Store conn.old) (state S.Store conn.new) result }
{
    let version = find_tables(conn, alloc)?;
    if version != LATEST {
        return migrate_ruled(conn, alloc, version);
    }
    let read = latest_books(alloc, conn)?;
    test_rows(alloc, conn, LATEST, &read.own, read.last)?;
    Ok(read)
}

impl<S: Alter> SqlKeeper<S> {
    /// Brings the database of an older version to the latest, and answers its keeper and the shelf
    /// of its books apart, as `open` does. Each row of each table is read before, and none is out
    /// of its rules. The tables that it hasn't are made, each reservation gets the number of its
    /// book, and the version is set, all in one transaction: a stop leaves the database as it was,
    /// or the whole migration. One of the latest version is left as it is.
    ///
    /// # Errors
    /// The connection is given back; while it is open it shows what it showed, and nothing is
    /// committed but where the commit itself failed. The first three come only then:
    /// - `Foreign`, the tables aren't exactly those of a version of this system;
    /// - `Version`, another version is kept than that of the tables;
    /// - `Rules`, a rowid comes twice, or a row that is read is out of its rules;
    /// - `Store`, also where a transaction is open;
    /// - `Memory`.
    // rule: database-migrated, database-migrated.ruled-version
    pub fn migrate(
        alloc: Global,
        mut connection: Connection<S>,
    ) -> Result<(SqlKeeper<S>, TariffShelf), (OpenFault, Connection<S>)>
        ensures migrated { IfOk result (λ made. IsMigrated S.Store connection made.0 made.1) }
        ensures refused { IfErr result (λ left. IsNotMigrated S.Store connection left.1 left.0) }
    {
        match books_of_any(alloc, &mut connection) {
            Ok(read) => Ok(keeper_of(alloc, connection, read)),
            Err(fault) => Err((fault, connection)),
        }
    }
}
