//! Whether a rowid of a table comes twice: rowids that rise don't.

ghost use Rattle.std.specs.Prelude.{◌≡◌, ◌+◌, ℕ, ℤ, [], ◌∷◌, ◌++◌, List, None, IsTrue, IfOk};
ghost use Rattle.std.specs.Prelude.{IfSome, OnOk};
ghost use Rattle.sqlite_value.specs.Order.{Row as Values};
ghost use Rattle.sqlite.specs.Effect.{Database};
ghost use Rattle.sqlite.specs.Given.{IsPlain};
ghost use Rattle.sqlite.specs.Held.{Held, state};
ghost use Rattle.sqlite.specs.Listing.{understood};
ghost use Rattle.sqlite.specs.State.{HasCleanDisk, IsUnchanged, Shown, Survives};
ghost use Rattle.sql_tables.specs.Schema.{schema_at};
ghost use Rattle.sql_tables.specs.Opens.{Finds, HasStoredTo, IsNext, IsNoVersion, IsOpenFaultTold};
ghost use Rattle.sql_tables.specs.Opens.{IsVersion};
ghost use Rattle.sql_tables.specs.Rises.{AreRising, Climbs, IsAbove};
ghost use Rattle.sql_tables.specs.Statements.{Spares};

use crate::fault::OpenFault;
use sqlite::types::ValueRef;
use sqlite::{Alter, Connection, Error, ErrorCode, Row};

/// The fault of a call of the store.
pub(crate) fn fault_of(error: Error) -> OpenFault
    ensures told { IsNoVersion result }
    ensures means { (db : Database) → IsOpenFaultTold db result }
{
    match error {
        Error::SqliteFailure(ErrorCode::OutOfMemory) => OpenFault::Memory,
        _ => OpenFault::Store,
    }
}

/// The first value of the row, if it is an integer above the last.
fn next_id(row: &Row, last: Option<i64>) -> Option<i64>
    ensures id { IfSome result (IsAbove last row.now) }
    ensures none { result ≡ None → (id : ℤ) → ¬ IsAbove last row.now id }
{
    let Ok(ValueRef::Int(id)) = row.get_ref(0) else {
        return None;
    };
    match last {
        Some(before) if before >= id => None,
        _ => Some(id),
    }
}

/// Whether the first values of the rows so far are integers that rise, and the last of them.
#[derive(Clone, Copy)]
struct Climb {
    rises: bool,
    last: Option<i64>,
}

impl Climb {
    /// With one more row.
    #[tactic(auto, using(crate::proofs::Ascents::still_falls, crate::proofs::Ascents::climbs_on))]
    fn with(self, row: &Row) -> Climb
        ensures { (given : List Values) → Climbs self.rises self.last given
            → Climbs result.rises result.last (given ++ row.now ∷ []) }
    {
        if !self.rises {
            return self;
        }
        let last = next_id(row, self.last);
        Climb {
            rises: last.is_some(),
            last,
        }
    }
}

/// Whether the first value of each row of a selection is an integer above that of the row before.
/// Each row is read, also after one that isn't above.
fn are_rising<S: Alter>(conn: &mut Connection<S>, sql: &str) -> Result<bool, Error>
    requires { HasCleanDisk (state S.Store conn.old) →
        IsPlain (understood conn.old.schema sql.now) }
    ensures rise { HasCleanDisk (state S.Store conn.new) →
        IfOk result (λ rises. (was : Held S) × (rows : List Values)
        × IsUnchanged (state S.Store conn.old) (state S.Store was)
        × Shown sql.now [] (state S.Store was) (state S.Store conn.new) rows
        × (IsTrue rises → AreRising rows) × (AreRising rows → IsTrue rises)) }
    ensures same { HasCleanDisk (state S.Store conn.new) →
        OnOk result (IsUnchanged (state S.Store conn.old) (state S.Store conn.new)) }
    ensures spares { HasCleanDisk (state S.Store conn.new) →
        Spares (state S.Store conn.old) (state S.Store conn.new) }
    ensures crash { Survives (state S.Store conn.old) (state S.Store conn.new) (λ _. ⊥) }
{
    let mut climb = Climb {
        rises: true,
        last: None,
    };
    let mut rows = conn.query(sql, &[])?;
    'rows: for _ in 0..u64::MAX {
        let Some(row) = rows.next()? else {
            return Ok(climb.rises);
        };
        climb = climb.with(row);
    }
    Err(Error::SqliteFailure(ErrorCode::TooBig))
}

/// Tests that no rowid of one more table of a version comes twice; `sql` selects its rowids in
/// order.
pub(crate) fn rowids_differ<S: Alter>(
    conn: &mut Connection<S>,
    version: u32,
    sql: &str,
) -> Result<(), OpenFault>
    requires known { IsVersion version }
    requires plain { IsPlain (understood (schema_at version) sql.now) }
    requires ours { HasCleanDisk (state S.Store conn.old) → conn.old.schema ≡ schema_at version }
    ensures { (k : ℕ) → IsNext version sql.now k → HasStoredTo version k (state S.Store conn.old)
        → Finds version (k + 1) (state S.Store conn.old) (state S.Store conn.new) result }
{
    // For the prover alone: the version whose schema the text is read over.
    let _version = version;
    match are_rising(conn, sql) {
        Ok(true) => Ok(()),
        Ok(false) => Err(OpenFault::Rules),
        Err(error) => Err(fault_of(error)),
    }
}
