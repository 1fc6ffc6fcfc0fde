//! What is reported of a database of an older version where it is opened: that it is older, where
//! it keeps the version of its tables. Nothing is written.

ghost use Rattle.std.specs.Prelude.{◌≡◌, ◌<◌, false};
ghost use Rattle.sql_tables.specs.Opens.{IsVersion};
ghost use Rattle.sql_tables.specs.Schema.{latest};
ghost use Rattle.sql_keeper.specs.Migrates.{HasAt, HasIdleAt};
ghost use Rattle.sql_keeper.specs.OlderVersions.{AsksVersion, IsNotLatest};
ghost use Rattle.sqlite.specs.Held.{state};

use crate::migrating::{kept_within, make_later};
use sql_tables::OpenFault;
use sqlite::{Alter, Connection, Transaction};

/// Whether the version of the tables is kept. Statements are those of the latest version, so the
/// tables that it has besides are made first, within a transaction that isn't committed.
// rule: database-migrated.older
fn ask_version<S: Alter>(tx: &mut Transaction<'_, S>, version: u32) -> Result<(), OpenFault>
    requires known { IsVersion version × (version < latest) }
    requires at { HasAt version (state S.Store tx.old.conn.now) }
    ensures same_reference { tx.new.conn.ghost_name ≡ tx.old.conn.ghost_name }
    ensures asks { AsksVersion version
        (state S.Store tx.old.conn.now) (state S.Store tx.new.conn.now) result }
{
    make_later(tx, version)?;
    let _meta = kept_within(tx, version)?;
    Ok(())
}

/// The fault of a database whose tables are those of an older version.
// rule: database-migrated.older
pub(crate) fn older_fault<S: Alter>(conn: &mut Connection<S>, version: u32) -> OpenFault
    requires known { IsVersion version × (version < latest) }
    requires plain { conn.old.in_transaction ≡ false }
    requires at { HasIdleAt version (state S.Store conn.old) }
    ensures finds { IsNotLatest version
        (state S.Store conn.old) (state S.Store conn.new) result }
{
    let mut tx = conn.transaction();
    match ask_version(&mut tx, version) {
        Ok(()) => OpenFault::Older,
        Err(fault) => fault,
    }
}
