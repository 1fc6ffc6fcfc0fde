//! The versions of the tables: each is found, and an older one becomes the latest.

use sql_tables::{create_in_memory_at, create_since, find_tables};
use sqlite::{Connection, Error, MemStore};
use std::alloc::Global;
use std::process::Abort;

/// The number of the version whose tables are found.
fn push_found(rt: &impl Abort, alloc: Global, conn: &mut Connection<MemStore>, text: &mut String) {
    match find_tables(conn, alloc) {
        Ok(version) => write!(text, "version {version}\n").expect(rt, "room"),
        Err(fault) => write!(text, "fault {}\n", fault.number()).expect(rt, "room"),
    }
}

/// Tables of the first version, and of the second.
fn tell_each(rt: &impl Abort, alloc: Global, text: &mut String) -> Result<(), Error> {
    let mut first = create_in_memory_at(alloc, 1)?;
    push_found(rt, alloc, &mut first, text);
    let mut second = create_in_memory_at(alloc, 2)?;
    push_found(rt, alloc, &mut second, text);
    Ok(())
}

/// Tables of the first version, and what they are after the later ones' are made beside them.
fn tell_later(rt: &impl Abort, alloc: Global, text: &mut String) -> Result<(), Error> {
    let mut conn = create_in_memory_at(alloc, 1)?;
    let mut tx = conn.transaction();
    create_since(&mut tx, 1)?;
    tx.commit()?;
    push_found(rt, alloc, &mut conn, text);
    conn.execute("CREATE TABLE notes (note TEXT) STRICT", &[])?;
    push_found(rt, alloc, &mut conn, text);
    Ok(())
}

// rule: database-migrated.older, tables
#[test]
fn each_version_is_found_and_becomes_the_latest(rt: HostRuntime) {
    let alloc = rt.alloc();
    let mut text = String::new(alloc);
    tell_each(&rt, alloc, &mut text).expect(&rt, "tables");
    tell_later(&rt, alloc, &mut text).expect(&rt, "tables");
    assert_eq!(rt; text.as_str(), "version 1\nversion 2\nversion 3\nfault 1\n");
}
