//! Rating groups of sessions that have a reservation.

ghost use Rattle.std.specs.Prelude.{◌≡◌, map, List, IfErr, MatchResult};
ghost use Rattle.std.specs.List.{AllByRecursion};
ghost use Rattle.sql_rows.specs.Content.{tables_content};
ghost use Rattle.sql_rows.specs.Lists.{AreReserved, ReservedAt, reserved_cells};
ghost use Rattle.sql_rows.specs.Ruled.{AreRuledReserved, IsRuledReserved};
ghost use Rattle.sql_rows.specs.Texts.{reserved_at};
ghost use Rattle.sql_tables.specs.Statements.{HasTables, HasRules, ReadsWithin};
ghost use Rattle.sqlite.specs.Held.{state};
ghost use Rattle.sqlite.specs.State.{HasCleanDisk};

use crate::decoding::{account_at, one_at, session_at};
use identifiers::{AccountNumber, SessionId};
use sql_tables::{ReadFault, has_columns, read_within, small_at};
use sqlite::{Alter, Row, Transaction};
use std::alloc::Global;

/// A rating group of a session that has a reservation.
pub struct ReservedColumns {
    /// The session's account.
    pub account: AccountNumber,
    /// The session's name.
    pub session: SessionId,
    /// Rating-Group (RFC 8506 section 8.29).
    pub group: u32,
}

// It is written out, so that a caller doesn't prove again how each part is dropped.
impl Drop for ReservedColumns {
    fn drop(self) {
        let ReservedColumns {
            account: _,
            session: _,
            group: _,
        } = self;
    }
}

/// The rating groups of all sessions that have a reservation, within a transaction.
///
/// # Errors
/// `Store` where the store failed, `Rules` only where a row is out of its rules, `Memory` where a
/// growth was refused. Then nothing is committed.
// rule: database-migrated.ruled-version
pub fn read_reserved_within<S: Alter>(
    tx: &mut Transaction<'_, S>,
    alloc: Global,
) -> Result<Vec<ReservedColumns>, ReadFault>
    requires tables { HasTables (state S.Store tx.old.conn.now) }
    requires rules { HasRules (state S.Store tx.old.conn.now) }
    ensures same_reference { tx.new.conn.ghost_name ≡ tx.old.conn.ghost_name }
    ensures reads { ReadsWithin
        (λ trees xs. AreReserved (tables_content trees) (map reserved_at xs.items))
        (state S.Store tx.old.conn.now) (state S.Store tx.new.conn.now) result }
    // Rows that are in the rules are answered.
    ensures refused { HasCleanDisk (state S.Store tx.new.conn.now) →
        IfErr result (λ e. e ≡ ReadFault.Rules →
        ¬ AreRuledReserved (tables_content (state S.Store tx.old.conn.now).now.trees)) }
{
    let rows = read_within(
        tx,
        "SELECT account, session, rating_group, reserved FROM session_groups WHERE reserved = 1",
        &[],
    )?;
    reserved_rows_from(alloc, &rows)
}

fn reserved_rows_from(alloc: Global, rows: &[Row]) -> Result<Vec<ReservedColumns>, ReadFault>
    ensures { MatchResult result (λ xs. map reserved_cells (map reserved_at xs.items) ≡ rows.now)
        (λ e. e ≡ ReadFault.Rules → (xs : List ReservedAt) → rows.now ≡ map reserved_cells xs →
        ¬ AllByRecursion IsRuledReserved xs) }
{
    let mut reserved = Vec::new(alloc);
    'rows: for row in rows {
        let one = reserved_from(alloc, row)?;
        let Ok(()) = reserved.push(one) else {
            return Err(ReadFault::Memory);
        };
    }
    Ok(reserved)
}

fn reserved_from(alloc: Global, row: &Row) -> Result<ReservedColumns, ReadFault>
    ensures { MatchResult result (λ x. row.now ≡ reserved_cells (reserved_at x))
        (λ e. e ≡ ReadFault.Rules → (x : ReservedAt) → row.now ≡ reserved_cells x →
        ¬ IsRuledReserved x) }
{
    has_columns(row, 4)?;
    one_at(row, 3)?;
    let group = small_at(row, 2)?;
    let account = account_at(alloc, row, 0)?;
    let session = session_at(alloc, row, 1)?;
    Ok(ReservedColumns {
        account,
        session,
        group,
    })
}
