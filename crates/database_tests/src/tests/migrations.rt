//! Databases of each version, brought to the latest, and books that are added there.

use crate::tests::values::moment;
use shelves::TariffShelf;
use sql_keeper::{AddFault, OpenFault, SqlKeeper};
use sql_tables::{create_in_memory, create_in_memory_at, text, whole};
use sqlite::{Connection, Error, MemStore};
use std::alloc::Global;
use std::process::Abort;

/// The tables of version 1, of version 2, or of the latest.
fn tables_of(alloc: Global, version: u32) -> Result<Connection<MemStore>, Error> {
    match version {
        1 => create_in_memory_at(alloc, 1),
        2 => create_in_memory_at(alloc, 2),
        _ => create_in_memory(alloc),
    }
}

/// A database of the tables of a version with the worked book, whose last command was at 50. What
/// is kept once has this number as the version.
fn database(alloc: Global, tables: u32, version: u32) -> Result<Connection<MemStore>, Error> {
    let mut conn = tables_of(alloc, tables)?;
    conn.execute(
        "INSERT INTO meta VALUES (1, ?1, ?2, 50)",
        &[whole(version), text(worked_book::BOOK)],
    )?;
    Ok(conn)
}

fn push_fault(rt: &impl Abort, word: &str, fault: OpenFault, told: &mut String) {
    write!(told, "{word}: fault {}\n", fault.number()).expect(rt, "room");
}

fn push_books(rt: &impl Abort, word: &str, shelf: &TariffShelf, told: &mut String) {
    write!(told, "{word}: books {}\n", shelf.count()).expect(rt, "room");
}

/// Opens the database, and gives it back.
fn push_opened(
    rt: &impl Abort,
    alloc: Global,
    conn: Connection<MemStore>,
    told: &mut String,
) -> Connection<MemStore> {
    match SqlKeeper::open(alloc, conn) {
        Ok((keeper, shelf)) => {
            push_books(rt, "open", &shelf, told);
            keeper.into_connection()
        }
        Err((fault, conn)) => {
            push_fault(rt, "open", fault, told);
            conn
        }
    }
}

fn push_added(rt: &impl Abort, added: &Result<(), AddFault>, told: &mut String) {
    match added {
        Ok(()) => write!(told, "added\n").expect(rt, "room"),
        Err(fault) => write!(told, "{fault}\n").expect(rt, "room"),
    }
}

/// Adds no book's text, and the worked book from 50, from 51 and from then on again.
fn add_each(
    rt: &impl Abort,
    keeper: &mut SqlKeeper<MemStore>,
    shelf: &mut TariffShelf,
    told: &mut String,
) {
    let from = moment(rt, 51);
    push_added(rt, &keeper.add_book(shelf, from, "x"), told);
    let early = moment(rt, 50);
    push_added(rt, &keeper.add_book(shelf, early, worked_book::BOOK), told);
    push_added(rt, &keeper.add_book(shelf, from, worked_book::BOOK), told);
    push_added(rt, &keeper.add_book(shelf, from, worked_book::BOOK), told);
}

/// Opens a database, brings it to the latest version, adds books and opens it again.
fn push_all(rt: &impl Abort, alloc: Global, conn: Connection<MemStore>, told: &mut String) {
    let conn = push_opened(rt, alloc, conn, told);
    match SqlKeeper::migrate(alloc, conn) {
        Ok((mut keeper, mut shelf)) => {
            push_books(rt, "migrate", &shelf, told);
            add_each(rt, &mut keeper, &mut shelf, told);
            push_opened(rt, alloc, keeper.into_connection(), told);
        }
        Err((fault, conn)) => {
            push_fault(rt, "migrate", fault, told);
            push_opened(rt, alloc, conn, told);
        }
    }
}

fn is_told(rt: &impl Abort, alloc: Global, tables: u32, version: u32, wanted: &str) {
    let conn = database(alloc, tables, version).expect(rt, "tables");
    let mut told = String::new(alloc);
    push_all(rt, alloc, conn, &mut told);
    assert_eq!(rt;
        told.as_str(),
        wanted,
        "tables of {tables}, which tell {version}"
    );
}

/// What is told of a database that is brought to the latest version, after the first opening.
const BROUGHT: &str = "migrate: books 1
book fault 1
shelf fault 3
added
shelf fault 3
open: books 2
";

fn is_brought(rt: &impl Abort, alloc: Global, version: u32, opened: &str) {
    let wanted = format!(in alloc; "{opened}{BROUGHT}").expect(rt, "room");
    is_told(rt, alloc, version, version, wanted.as_str());
}

#[test]
fn each_version_is_brought_to_the_latest(rt: HostRuntime) {
    let alloc = rt.alloc();
    is_brought(&rt, alloc, 1, "open: fault 6\n");
    is_brought(&rt, alloc, 2, "open: fault 6\n");
    is_brought(&rt, alloc, 3, "open: books 1\n");
}

// rule: database-migrated.ruled-version
#[test]
fn tables_that_tell_another_version_stay_as_they_are(rt: HostRuntime) {
    let alloc = rt.alloc();
    let other = "open: fault 2\nmigrate: fault 2\nopen: fault 2\n";
    is_told(&rt, alloc, 1, 2, other);
    is_told(&rt, alloc, 1, 3, other);
    is_told(&rt, alloc, 2, 3, other);
    is_told(&rt, alloc, 3, 1, other);
}
