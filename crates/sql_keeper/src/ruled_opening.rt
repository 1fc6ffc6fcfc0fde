//! The shelf of a database whose rows are read, each once, before a keeper is made over it.

ghost use Rattle.std.specs.Prelude.{◌≡◌, false, OnOk};
ghost use Rattle.sql_tables.specs.Opens.{IsVersion};
ghost use Rattle.sql_tables.specs.Schema.{schema_at};
ghost use Rattle.sql_rules.specs.Tables.{AreRuledBy, Tells};
ghost use Rattle.sql_keeper.specs.RuledOpening.{FindsRuled};
ghost use Rattle.sqlite.specs.Held.{state};
ghost use Rattle.sqlite.specs.State.{HasCleanDisk};

use crate::books::ReadBooks;
use crate::opening::books_in;
use shelves::TariffShelf;
use sql_rules::rules_of;
use sql_tables::{LATEST, OpenFault};
use sqlite::{Alter, Connection};
use std::alloc::Global;
use units::Moment;

/// Tests each row of each table of a version, by a last moment, where no transaction is open.
pub(crate) fn test_rows<S: Alter>(
    alloc: Global,
    conn: &mut Connection<S>,
    version: u32,
    shelf: &TariffShelf,
    last: Moment,
) -> Result<(), OpenFault>
    requires known { IsVersion version }
    requires ours { HasCleanDisk (state S.Store conn.old) → conn.old.schema ≡ schema_at version }
    ensures plain { OnOk result (conn.new.in_transaction ≡ false) }
    ensures tells { Tells (AreRuledBy shelf.now last version) (state S.Store conn.old)
        (state S.Store conn.new) result }
{
    rules_of(conn, alloc, version, shelf, last)?;
    if conn.is_autocommit() {
        Ok(())
    } else {
        Err(OpenFault::Store)
    }
}

/// The shelf of a database of this system, of which each row is in its rules, and none of a moment
/// after the last one.
// rule: rows-ruled.opened, rows-ruled.timely
pub(crate) fn ruled_books_in<S: Alter>(
    alloc: Global,
    conn: &mut Connection<S>,
) -> Result<ReadBooks, OpenFault>
    ensures plain { OnOk result (conn.new.in_transaction ≡ false) }
    ensures finds { FindsRuled (state S.Store conn.old) (state S.Store conn.new) result }
{
    let read = books_in(alloc, conn)?;
    test_rows(alloc, conn, LATEST, &read.own, read.last)?;
    Ok(read)
}
