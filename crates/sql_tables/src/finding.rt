//! Whether a database is one of this system.

ghost use Rattle.std.specs.Prelude.{◌≡◌, IfErr, IfOk, IsTrue};
ghost use Rattle.sqlite.specs.Held.{state};
ghost use Rattle.sql_tables.specs.Schema.{schema_at};
ghost use Rattle.sql_tables.specs.Opens.{FindsAll, FindsVersion, IsNoVersion, IsOpenFaultTold};
ghost use Rattle.sql_tables.specs.Opens.{IsVersion};

use crate::creating::{LATEST, create_in_memory_at};
use crate::fault::OpenFault;
use crate::rising::{fault_of, rowids_differ};
use crate::same::same_schema;
use crate::texts::rowids_text;
use sqlite::{Alter, Connection};
use std::alloc::Global;

/// Whether the tables of the database are those of this version, and no others.
fn has_version<S: Alter>(
    conn: &Connection<S>,
    alloc: Global,
    version: u32,
) -> Result<bool, OpenFault>
    requires known { IsVersion version }
    ensures has { IfOk result (λ same. IsTrue same → conn.now.schema ≡ schema_at version) }
    ensures all { IfOk result (λ same. conn.now.schema ≡ schema_at version → IsTrue same) }
    ensures told { IfErr result IsNoVersion }
    ensures means { IfErr result (IsOpenFaultTold (state S.Store conn.now).now) }
{
    let ours = match create_in_memory_at(alloc, version) {
        Ok(ours) => ours,
        Err(error) => return Err(fault_of(error)),
    };
    Ok(same_schema(ours.schema(), conn.schema()))
}

/// The version whose tables the database has, and no others.
fn version_of<S: Alter>(conn: &Connection<S>, alloc: Global) -> Result<u32, OpenFault>
    ensures version { IfOk result IsVersion }
    ensures has { IfOk result (λ v. conn.now.schema ≡ schema_at v) }
    ensures told { IfErr result IsNoVersion }
    ensures means { IfErr result (IsOpenFaultTold (state S.Store conn.now).now) }
{
    'versions: for later in 0..LATEST {
        let version = LATEST - later;
        let same = has_version(conn, alloc, version)?;
        if same {
            return Ok(version);
        }
    }
    Err(OpenFault::Foreign)
}

/// Tests that no rowid comes twice in a table of a version.
fn tables_differ<S: Alter>(conn: &mut Connection<S>, version: u32) -> Result<(), OpenFault>
    requires known { IsVersion version }
    requires has { conn.old.schema ≡ schema_at version }
    ensures { FindsAll version (state S.Store conn.old) (state S.Store conn.new) result }
{
    let count = conn.schema().tables.len();
    rowids_differ(conn, version, rowids_text(0))?;
    'tables: for at in 1..count {
        rowids_differ(conn, version, rowids_text(at))?;
    }
    Ok(())
}

/// Which version's tables the database has: it tests that it has exactly those and their indexes,
/// and that no rowid of theirs comes twice. Then each statement that is written for the version
/// does what it says. Each row is looked at once. Nothing is changed, whatever is answered.
///
/// # Errors
/// `Foreign` only where the tables are exactly those of no version, `Rules` only where they are
/// those of one and a rowid comes twice or is no integer; `Store` where the store failed or a
/// transaction is open; `Memory` where memory was refused.
// rule: database-opened.open-fault-told
#[tactic(auto, using(crate::proofs::Keeps::spares_still, crate::proofs::Keeps::still_itself))]
pub fn find_tables<S: Alter>(conn: &mut Connection<S>, alloc: Global) -> Result<u32, OpenFault>
    ensures { FindsVersion S.Store conn.old conn.new result }
{
    if !conn.is_autocommit() {
        return Err(OpenFault::Store);
    }
    let version = version_of(conn, alloc)?;
    tables_differ(conn, version)?;
    if conn.is_autocommit() {
        Ok(version)
    } else {
        Err(OpenFault::Store)
    }
}
