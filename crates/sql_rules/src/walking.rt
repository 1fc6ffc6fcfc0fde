//! A walk over all rows of a table, which tests that their rowids rise, that they are in their
//! rules, and that none is of a moment after the last moment.

ghost use Rattle.std.specs.Prelude.{◌≡◌, ◌<◌, ℤ, Bool, [], ◌∷◌, ◌++◌, List, None, IsTrue, IfOk};
ghost use Rattle.std.specs.Prelude.{IfSome, OnOk, length};
ghost use Rattle.sqlite_value.specs.Order.{Row as Values};
ghost use Rattle.sqlite.specs.Given.{IsPlain};
ghost use Rattle.sqlite.specs.Held.{Held, state};
ghost use Rattle.sqlite.specs.Listing.{understood};
ghost use Rattle.sqlite.specs.State.{HasCleanDisk, IsUnchanged, Shown, Survives};
ghost use Rattle.sql_tables.specs.Schema.{our_schema, schema_at};
ghost use Rattle.sql_tables.specs.Opens.{IsVersion};
ghost use Rattle.sql_tables.specs.Rises.{IsAbove};
ghost use Rattle.sql_tables.specs.Statements.{Spares};
ghost use Rattle.sql_tables.specs.declared.fault.OpenFault.TheVariants.{Rules};
ghost use Rattle.sql_rules.specs.Rules.{passes_at};
ghost use Rattle.sql_rules.specs.Tables.{IsOfRows, IsRuledAt, Tells};
ghost use Rattle.sql_rules.specs.Walks.{Pass, Walks};

use crate::rows::passes;
use shelves::TariffShelf;
use sql_tables::{OpenFault, rows_text};
use sqlite::types::ValueRef;
use sqlite::{Alter, Connection, Error, ErrorCode, Row};
use std::alloc::Global;
use units::Moment;
use wire::Scratch;

/// The first value of the row, if it is an integer above the last.
fn next_id(row: &Row, last: Option<i64>) -> Option<i64>
    ensures id { IfSome result (IsAbove last row.now) }
    ensures none { result ≡ None → (id : ℤ) → ¬ IsAbove last row.now id }
{
    let Ok(ValueRef::Int(id)) = row.get_ref(0) else {
        return None;
    };
    match last {
        Some(before) if before >= id => None,
        _ => Some(id),
    }
}

/// Whether the rows so far are in their rules and their rowids rise, and the last of these.
#[derive(Clone, Copy)]
struct Walk {
    passes: bool,
    last: Option<i64>,
}

impl Walk {
    /// With one more row, which is in its rules or not.
    #[tactic(auto, using(crate::proofs::Passing::still_fails, crate::proofs::Passing::row_fails, crate::proofs::Passing::walks_on))]
    fn with(self, row: &Row, is_ruled: bool) -> Walk
        ensures { (rule : Values → Bool) (given : List Values) → is_ruled ≡ rule row.now
            → Walks rule self.passes self.last given
            → Walks rule result.passes result.last (given ++ row.now ∷ []) }
    {
        if !self.passes {
            return self;
        }
        if !is_ruled {
            return Walk {
                passes: false,
                last: None,
            };
        }
        let last = next_id(row, self.last);
        Walk {
            passes: last.is_some(),
            last,
        }
    }
}

/// The walk with one more row of the table at a place.
fn with_row(
    alloc: Global,
    shelf: &TariffShelf,
    last: Moment,
    at: usize,
    walk: Walk,
    row: &Row,
    scratch: &mut Scratch,
) -> Result<Walk, Error>
    requires { at < length our_schema.tables }
    ensures { IfOk result (λ w. (given : List Values)
        → Walks (passes_at shelf.now last at) walk.passes walk.last given
        → Walks (passes_at shelf.now last at) w.passes w.last (given ++ row.now ∷ [])) }
{
    match passes(alloc, shelf, last, at, row, scratch) {
        Ok(passes) => Ok(walk.with(row, passes)),
        Err(_) => Err(Error::SqliteFailure(ErrorCode::OutOfMemory)),
    }
}

/// Whether the first value of each row of a selection is an integer above that of the row before,
/// and each is in the rules of the table at a place, and timely. Each row is read, also after one
/// that isn't.
fn do_pass<S: Alter>(
    conn: &mut Connection<S>,
    alloc: Global,
    shelf: &TariffShelf,
    last: Moment,
    at: usize,
    sql: &str,
) -> Result<bool, Error>
    requires plain { HasCleanDisk (state S.Store conn.old) →
        IsPlain (understood conn.old.schema sql.now) }
    requires place { at < length our_schema.tables }
    ensures walk { HasCleanDisk (state S.Store conn.new) →
        IfOk result (λ passes. (was : Held S) × (rows : List Values)
        × IsUnchanged (state S.Store conn.old) (state S.Store was)
        × Shown sql.now [] (state S.Store was) (state S.Store conn.new) rows
        × (IsTrue passes → Pass (passes_at shelf.now last at) rows)
        × (Pass (passes_at shelf.now last at) rows → IsTrue passes)) }
    ensures same { HasCleanDisk (state S.Store conn.new) →
        OnOk result (IsUnchanged (state S.Store conn.old) (state S.Store conn.new)) }
    ensures spares { HasCleanDisk (state S.Store conn.new) →
        Spares (state S.Store conn.old) (state S.Store conn.new) }
    ensures crash { Survives (state S.Store conn.old) (state S.Store conn.new) (λ _. ⊥) }
{
    let mut walk = Walk {
        passes: true,
        last: None,
    };
    // One for all rows: each text is read with the memory of the one before.
    let mut scratch = Scratch::new(alloc);
    let mut rows = conn.query(sql, &[])?;
    'rows: for _ in 0..u64::MAX {
        let Some(row) = rows.next()? else {
            return Ok(walk.passes);
        };
        walk = with_row(alloc, shelf, last, at, walk, &row, &mut scratch)?;
    }
    Err(Error::SqliteFailure(ErrorCode::TooBig))
}

/// The fault of a call of the store.
pub(crate) fn fault_of(error: Error) -> OpenFault
    ensures told { IsOfRows result }
    ensures none { ¬ (result ≡ Rules) }
{
    match error {
        Error::SqliteFailure(ErrorCode::OutOfMemory) => OpenFault::Memory,
        _ => OpenFault::Store,
    }
}

/// Tests that no rowid of a table comes twice, that each of its rows is in its rules, and that none
/// is of a moment after the last moment.
pub(crate) fn table_passes<S: Alter>(
    conn: &mut Connection<S>,
    alloc: Global,
    version: u32,
    shelf: &TariffShelf,
    last: Moment,
    at: usize,
) -> Result<(), OpenFault>
    requires known { IsVersion version }
    requires place { at < length our_schema.tables }
    requires most { HasCleanDisk (state S.Store conn.old) →
        at < length (schema_at version).tables }
    requires ours { HasCleanDisk (state S.Store conn.old) → conn.old.schema ≡ schema_at version }
    ensures { Tells (IsRuledAt shelf.now last at) (state S.Store conn.old) (state S.Store conn.new)
        result }
{
    // For the prover alone: the version whose schema the text is read over.
    let _version = version;
    match do_pass(conn, alloc, shelf, last, at, rows_text(at)) {
        Ok(true) => Ok(()),
        Ok(false) => Err(OpenFault::Rules),
        Err(error) => Err(fault_of(error)),
    }
}
