//! A keeper over a database: of one that is made for it, or of one that was.

ghost use Rattle.std.specs.Prelude.{◌≡◌, ◌≤◌, ◌⊎◌, false, map, IsTrue, None, Some, IfErr};
ghost use Rattle.std.specs.Prelude.{IfOk, OnOk};
ghost use Rattle.std.specs.String.{string_bytes};
ghost use Rattle.units.specs.Words.{latest_moment};
ghost use Rattle.sql_tables.specs.Opens.{IsNoVersion};
ghost use Rattle.sql_tables.specs.declared.fault.OpenFault.TheVariants.{Foreign, Rules};
ghost use Rattle.sql_tables.specs.declared.fault.OpenFault.TheVariants.{Version};
ghost use Rattle.sql_rows.specs.Content.{tables_content};
ghost use Rattle.sql_rows.specs.Lists.{AreBooks};
ghost use Rattle.sql_rows.specs.Ruled.{AreRuledBooks};
ghost use Rattle.sql_rows.specs.Texts.{book_at, meta_of};
ghost use Rattle.sql_tables.specs.Schema.{latest};
ghost use Rattle.sql_tables.specs.Statements.{HasIdleTables, Reads};
ghost use Rattle.sql_tables.specs.Texts.{stage};
ghost use Rattle.sql_keeper.specs.Books.{IsBookText};
ghost use Rattle.sql_keeper.specs.Creates.{CreatesBook};
ghost use Rattle.sql_keeper.specs.Faults.{IsCreateFault};
ghost use Rattle.sql_keeper.specs.Finds.{FindsBooks, IsMetaFound, IsReadRuled, ReadsBooks};
ghost use Rattle.sql_keeper.specs.Inside.{IsKeeper};
ghost use Rattle.sql_keeper.specs.Opened.{IsCreated, IsNotCreated, IsNotOpened, IsOpened};
ghost use Rattle.sql_keeper.specs.Opened.{LeavesStill};
ghost use Rattle.sqlite.specs.Held.{state};
ghost use Rattle.sqlite.specs.State.{HasCleanDisk};

use crate::books::{ReadBooks, read_book, read_shelves};
use crate::create_fault::CreateFault;
use crate::creating::create_book;
use crate::keeper::SqlKeeper;
use crate::older_versions::older_fault;
use crate::ruled_opening::ruled_books_in;
use shelves::TariffShelf;
use sql_rows::{BookColumns, MetaColumns, read_books, read_meta};
use sql_tables::{LATEST, OpenFault, ReadFault, find_tables, has_ours, is_blank};
use sqlite::{Alter, Connection, Error, ErrorCode};
use std::alloc::Global;
use units::Moment;

/// A keeper before its first call, and the shelf that it goes by.
// rule: database-reads.held, stop-ruled
pub(crate) fn keeper_of<S: Alter>(
    alloc: Global,
    connection: Connection<S>,
    read: ReadBooks,
) -> (SqlKeeper<S>, TariffShelf)
    requires plain { connection.in_transaction ≡ false }
    requires idle { HasIdleTables (state S.Store connection) }
    requires open { HasCleanDisk (state S.Store connection) →
        IsTrue (state S.Store connection).is_open }
    requires read { HasCleanDisk (state S.Store connection) →
        IsReadRuled read (state S.Store connection).now.trees }
    ensures connection { result.0.connection ≡ connection }
    ensures shelf { result.1 ≡ read.given }
    ensures own { result.0.shelf ≡ read.own }
    ensures text { result.0.text ≡ string_bytes read.text }
    ensures last { result.0.last ≡ read.last }
    ensures uncounted { result.0.failures ≡ 0 }
    ensures kept { IsKeeper S.Store result.0 }
{
    // For the prover alone: looking at the value makes known here what its type keeps.
    let _listed = connection.schema();
    let keeper = SqlKeeper {
        connection,
        shelf: read.own,
        text: read.text,
        last: read.last,
        failures: 0,
        seen: None,
        kept: None,
        alloc,
    };
    (keeper, read.given)
}

/// The fault of a call of the store.
fn store_fault(error: Error) -> CreateFault
    ensures { (result ≡ CreateFault.Store) ⊎ (result ≡ CreateFault.Memory) }
{
    match error {
        Error::SqliteFailure(ErrorCode::OutOfMemory) => CreateFault::Memory,
        _ => CreateFault::Store,
    }
}

/// Makes the tables of a book in a database that has none.
fn make_tables<S: Alter>(conn: &mut Connection<S>, text: &str) -> Result<(), CreateFault>
    ensures mode { conn.new.in_transaction ≡ conn.old.in_transaction }
    ensures plain { OnOk result (conn.old.in_transaction ≡ false) }
    ensures blank { OnOk result (conn.old.schema ≡ stage 0) }
    ensures creates { CreatesBook text.now (state S.Store conn.old)
        (state S.Store conn.new) result }
    ensures told { IsBookText text.now → IfErr result (IsCreateFault text.now conn.old.schema) }
{
    if has_ours(conn.schema()) {
        return Err(CreateFault::Present);
    }
    if !conn.is_autocommit() || !is_blank(conn.schema()) {
        return Err(CreateFault::Store);
    }
    create_book(conn, text).map_err(store_fault)
}

/// The fault of an error of the store.
pub(crate) fn open_fault(error: Error) -> OpenFault
    ensures { (result ≡ OpenFault.Store) ⊎ (result ≡ OpenFault.Memory) }
{
    match error {
        Error::SqliteFailure(ErrorCode::OutOfMemory) => OpenFault::Memory,
        _ => OpenFault::Store,
    }
}

/// The fault of rows that weren't read.
pub(crate) fn read_fault(fault: ReadFault) -> OpenFault
    ensures told { IsNoVersion result }
    ensures ours { ¬ (result ≡ Foreign) }
    ensures rules { result ≡ Rules → fault ≡ ReadFault.Rules }
{
    match fault {
        ReadFault::Rules => OpenFault::Rules,
        ReadFault::Memory => OpenFault::Memory,
        ReadFault::Store(error) => open_fault(error),
    }
}

/// What was read of what is kept once, with its moment in the range of moments: another version is
/// kept where it is none.
pub(crate) fn own_meta(read: Option<MetaColumns>) -> Result<MetaColumns, OpenFault>
    ensures kept { IfOk result (λ m. read ≡ Some m) }
    ensures other { IfErr result (λ fault. (fault ≡ Version) × (read ≡ None)) }
    ensures last { IfOk result (λ m. m.last ≤ latest_moment) }
{
    let Some(meta) = read else {
        return Err(OpenFault::Version);
    };
    // For the prover alone: looking at the value makes known here what its type keeps.
    let _moment = meta.last.seconds();
    Ok(meta)
}

/// What is kept once by the latest version. The version is looked at before the rest.
// rule: database-migrated.older
fn find_meta<S: Alter>(conn: &mut Connection<S>) -> Result<MetaColumns, OpenFault>
    requires idle { HasIdleTables (state S.Store conn.old) }
    ensures reads { Reads (λ trees m. (tables_content trees).meta ≡ Some (meta_of m))
        (state S.Store conn.old) (state S.Store conn.new) result }
    ensures finds { IsMetaFound latest (state S.Store conn.old) (state S.Store conn.new) result }
{
    match read_meta(conn, LATEST) {
        Ok(read) => own_meta(read),
        Err(fault) => Err(read_fault(fault)),
    }
}

/// The books after the first.
fn find_books<S: Alter>(
    conn: &mut Connection<S>,
    alloc: Global,
) -> Result<Vec<BookColumns>, OpenFault>
    requires idle { HasIdleTables (state S.Store conn.old) }
    ensures reads { Reads (λ trees xs. AreBooks (tables_content trees) (map book_at xs.items))
        (state S.Store conn.old) (state S.Store conn.new) result }
    ensures told { IfErr result IsNoVersion }
    ensures ours { IfErr result (λ fault. ¬ (fault ≡ Foreign)) }
    ensures rules { HasCleanDisk (state S.Store conn.new) → IfErr result (λ fault. fault ≡ Rules →
        ¬ AreRuledBooks (tables_content (state S.Store conn.old).now.trees).books) }
{
    read_books(conn, alloc).map_err(read_fault)
}

/// The shelf of a database whose tables are those of the latest version.
pub(crate) fn latest_books<S: Alter>(
    alloc: Global,
    conn: &mut Connection<S>,
) -> Result<ReadBooks, OpenFault>
    requires idle { HasIdleTables (state S.Store conn.old) }
    ensures mode { conn.old.in_transaction ≡ false → conn.new.in_transaction ≡ false }
    ensures reads { ReadsBooks (state S.Store conn.old) (state S.Store conn.new) result }
{
    let meta = find_meta(conn)?;
    let rows = find_books(conn, alloc)?;
    read_shelves(alloc, meta.book.as_str(), meta.last, &rows)
}

/// The shelf of a database of this system.
pub(crate) fn books_in<S: Alter>(
    alloc: Global,
    conn: &mut Connection<S>,
) -> Result<ReadBooks, OpenFault>
    ensures plain { OnOk result (conn.new.in_transaction ≡ false) }
    ensures finds { FindsBooks (state S.Store conn.old) (state S.Store conn.new) result }
{
    let version = find_tables(conn, alloc)?;
    if version != LATEST {
        return Err(older_fault(conn, version));
    }
    latest_books(alloc, conn)
}

impl<S: Alter> SqlKeeper<S> {
    /// Makes the database of a book in a connection that has no table, and answers its keeper, and
    /// the shelf of this one book apart. It is made in one transaction: a stop leaves none of its
    /// tables or all.
    ///
    /// # Errors
    /// The connection is given back, and nothing is changed. In this order: `Book`, why the text is
    /// no book; `Present`, a table of this system is there, exactly then; `Store`, other tables are
    /// there, a transaction is open or the store failed; `Memory`.
    // rule: database-made.created, database-opened.not-opened
    pub fn create(
        alloc: Global,
        mut connection: Connection<S>,
        text: &str,
    ) -> Result<(SqlKeeper<S>, TariffShelf), (CreateFault, Connection<S>)>
        ensures created { IfOk result
            (λ made. IsCreated S.Store text.now connection made.0 made.1) }
        ensures refused { IfErr result
            (λ left. IsNotCreated S.Store text.now connection left.1 left.0) }
    {
        let read = match read_book(alloc, text, Moment::first()) {
            Ok(read) => read,
            Err(fault) => return Err((CreateFault::Book(fault), connection)),
        };
        match make_tables(&mut connection, text) {
            Ok(()) => Ok(keeper_of(alloc, connection, read)),
            Err(fault) => Err((fault, connection)),
        }
    }

    /// Opens the database of books, and answers its keeper, and the shelf of these books apart. It
    /// reads each row of each table once before it answers: none is out of its rules. It writes
    /// nothing.
    ///
    /// # Errors
    /// The connection is given back; while it is open it shows what it showed. The first four say
    /// what the database is, and it has one of them at most:
    /// - `Foreign`, the tables aren't exactly those of a version of this system. Of the others they
    ///   are;
    /// - `Version`, another version is kept than that of the tables, whatever else is kept beside it;
    /// - `Rules`, a rowid comes twice, what is kept once isn't there, or it is out of its rules. Of
    ///   the latest version it also says that the texts that are kept aren't those of a shelf. Of a
    ///   database without any other of these faults it says that a row is out of the rules of its
    ///   table;
    /// - `Older`, it is that of the tables, and before the latest;
    /// - `Store`, also where a transaction is open;
    /// - `Memory`.
    // rule: stop-ruled, database-opened, database-opened.not-opened, database-opened.fault,
    //   rows-ruled.opened, database-migrated.older
    pub fn open(
        alloc: Global,
        mut connection: Connection<S>,
    ) -> Result<(SqlKeeper<S>, TariffShelf), (OpenFault, Connection<S>)>
        ensures opened { IfOk result (λ made. IsOpened S.Store connection made.0 made.1) }
        ensures refused { IfErr result (λ left. IsNotOpened S.Store connection left.1 left.0) }
        ensures still { IfErr result (λ left. LeavesStill S.Store connection left.1) }
    {
        match ruled_books_in(alloc, &mut connection) {
            Ok(read) => Ok(keeper_of(alloc, connection, read)),
            Err(fault) => Err((fault, connection)),
        }
    }
}
