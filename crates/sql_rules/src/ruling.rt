//! Whether each row of each table is in its rules, and right beside those of other tables; and
//! whether each reservation has its book.

ghost use Rattle.std.specs.Prelude.{◌≡◌};
ghost use Rattle.sqlite.specs.Held.{state};
ghost use Rattle.sqlite.specs.State.{HasCleanDisk};
ghost use Rattle.sql_tables.specs.Schema.{schema_at};
ghost use Rattle.sql_tables.specs.Opens.{IsVersion};
ghost use Rattle.sql_rules.specs.Tables.{AreEachRuled, AreRightBy, AreRuledBy, Tells};

use crate::pairs::pairs_pass;
use crate::reservations::{grants_pass, has_no_grant_books};
use crate::rows::TABLES;
use crate::walking::table_passes;
use shelves::TariffShelf;
use sql_tables::OpenFault;
use sqlite::{Alter, Connection};
use std::alloc::Global;
use units::Moment;

/// Tests each row of each table of a version: that no rowid comes twice in its table, and that it
/// is in the table's rules, where the tariff books are those of the shelf. No account, session or
/// charge is of a moment after the last one, as it is given. Each row is read once, in one pass a
/// table, what is kept once first. Then tests that no row is wrong beside a row of another table,
/// and, from version 2 on, that each reservation has a row of its book and periods of that book.
/// Nothing is changed, whatever is answered.
///
/// # Errors
/// `Rules` only where a row is out of its rules, of a moment after the last one, or wrong beside
/// another, a rowid comes twice, or a reservation hasn't its book; `Store` where the store failed;
/// `Memory` where memory was refused.
// rule: rows-ruled, rows-ruled.timely, rows-ruled.beside, rows-ruled.granted
pub fn rules_of<S: Alter>(
    conn: &mut Connection<S>,
    alloc: Global,
    version: u32,
    shelf: &TariffShelf,
    last: Moment,
) -> Result<(), OpenFault>
    requires known { IsVersion version }
    requires ours { HasCleanDisk (state S.Store conn.old) → conn.old.schema ≡ schema_at version }
    ensures { Tells (AreRuledBy shelf.now last version) (state S.Store conn.old)
        (state S.Store conn.new) result }
{
    rows_pass(conn, alloc, version, shelf, last)?;
    if has_no_grant_books(version) {
        return Ok(());
    }
    grants_pass(conn, version, shelf)
}

/// Tests each row of each table of a version by itself, that no rowid comes twice in a table, and
/// that no row is wrong beside a row of another table.
fn rows_pass<S: Alter>(
    conn: &mut Connection<S>,
    alloc: Global,
    version: u32,
    shelf: &TariffShelf,
    last: Moment,
) -> Result<(), OpenFault>
    requires known { IsVersion version }
    requires ours { HasCleanDisk (state S.Store conn.old) → conn.old.schema ≡ schema_at version }
    ensures { Tells (AreRightBy shelf.now last version) (state S.Store conn.old)
        (state S.Store conn.new) result }
{
    tables_pass(conn, alloc, version, shelf, last)?;
    pairs_pass(conn, version)
}

/// Tests each row of each table of a version by itself, and that no rowid comes twice in a table.
fn tables_pass<S: Alter>(
    conn: &mut Connection<S>,
    alloc: Global,
    version: u32,
    shelf: &TariffShelf,
    last: Moment,
) -> Result<(), OpenFault>
    requires known { IsVersion version }
    requires ours { HasCleanDisk (state S.Store conn.old) → conn.old.schema ≡ schema_at version }
    ensures { Tells (AreEachRuled shelf.now last version) (state S.Store conn.old)
        (state S.Store conn.new) result }
{
    // No version has more: of a schema of more the disk has failed.
    let count = conn.schema().tables.len().min(TABLES);
    table_passes(conn, alloc, version, shelf, last, 0)?;
    'tables: for at in 1..count {
        table_passes(conn, alloc, version, shelf, last, at)?;
    }
    Ok(())
}
