//! The shelf of a database of an older version, by which its rows are tested before it is brought
//! to the latest. Nothing is written.

ghost use Rattle.std.specs.Prelude.{◌≡◌, ◌<◌, false, IfErr, OnOk};
ghost use Rattle.sql_tables.specs.Opens.{IsVersion};
ghost use Rattle.sql_tables.specs.Schema.{latest};
ghost use Rattle.sql_tables.specs.Statements.{Spares};
ghost use Rattle.sql_keeper.specs.Causes.{IsStores};
ghost use Rattle.sql_keeper.specs.Migrates.{FindsShelf, HasAt, HasIdleAt, ReadsShelf};
ghost use Rattle.sqlite.specs.Held.{state};
ghost use Rattle.sqlite.specs.State.{HasCleanDisk, IsUnchanged, Survives};

use crate::books::{ReadBooks, read_shelves};
use crate::migrating::{books_within, kept_within, make_later};
use crate::opening::open_fault;
use sql_tables::OpenFault;
use sqlite::{Alter, Connection, Transaction};
use std::alloc::Global;

/// Reads the shelf of a database of an older version. Statements are those of the latest version,
/// so the tables that it has besides are made first, within a transaction that isn't committed.
fn shelf_within<S: Alter>(
    tx: &mut Transaction<'_, S>,
    alloc: Global,
    version: u32,
) -> Result<ReadBooks, OpenFault>
    requires known { IsVersion version × (version < latest) }
    requires at { HasAt version (state S.Store tx.old.conn.now) }
    ensures same_reference { tx.new.conn.ghost_name ≡ tx.old.conn.ghost_name }
    ensures reads { ReadsShelf version
        (state S.Store tx.old.conn.now) (state S.Store tx.new.conn.now) result }
{
    make_later(tx, version)?;
    let meta = kept_within(tx, version)?;
    let rows = books_within(tx, alloc)?;
    read_shelves(alloc, meta.book.as_str(), meta.last, &rows)
}

/// The shelf of a database of an older version.
// rule: database-migrated.ruled-version
pub(crate) fn older_shelf<S: Alter>(
    conn: &mut Connection<S>,
    alloc: Global,
    version: u32,
) -> Result<ReadBooks, OpenFault>
    requires known { IsVersion version × (version < latest) }
    requires plain { conn.old.in_transaction ≡ false }
    requires at { HasIdleAt version (state S.Store conn.old) }
    ensures finds { FindsShelf version
        (state S.Store conn.old) (state S.Store conn.new) result }
{
    let mut tx = conn.transaction();
    shelf_within(&mut tx, alloc, version)
}

/// Tests that the connection can still be asked.
#[tactic(auto, using(crate::proofs::stops::StillOpen::asked_spares))]
pub(crate) fn ask_open<S: Alter>(conn: &mut Connection<S>) -> Result<(), OpenFault>
    ensures same { HasCleanDisk (state S.Store conn.new) →
        OnOk result (IsUnchanged (state S.Store conn.old) (state S.Store conn.new)) }
    ensures told { IfErr result IsStores }
    ensures spares { HasCleanDisk (state S.Store conn.new) →
        Spares (state S.Store conn.old) (state S.Store conn.new) }
    ensures survives { Survives (state S.Store conn.old) (state S.Store conn.new) (λ _. ⊥) }
{
    conn.prepare("SELECT 1").map_err(open_fault)?;
    Ok(())
}
