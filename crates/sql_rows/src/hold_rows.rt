//! Rows of holds.

ghost use Rattle.std.specs.Prelude.{◌≡◌, map, List, IfErr, IfOk, MatchResult};
ghost use Rattle.std.specs.List.{AllByRecursion};
ghost use Rattle.sql_rows.specs.Content.{rows_in, with_hold_row, with_rows, without_holds};
ghost use Rattle.sql_rows.specs.Each.{with_holds};
ghost use Rattle.sql_rows.specs.Lists.{AreHolds, Ascends, hold_before, hold_cells};
ghost use Rattle.sql_rows.specs.Makes.{Makes, MakesIfOpen};
ghost use Rattle.sql_rows.specs.Ruled.{AreRuledHolds, IsRuledHold};
ghost use Rattle.sql_tables.specs.Statements.{HasTables, HasIdleTables, IsInside, Reads};
ghost use Rattle.sql_tables.specs.Statements.{AttemptsOver};
ghost use Rattle.sqlite.specs.Held.{state};
ghost use Rattle.sqlite.specs.State.{HasCleanDisk};

use crate::ascending::{InOrder, do_ascend};
use crate::running::run;
use buckets::HeldAmount;
use identifiers::{AccountNumber, SessionId};
use sql_tables::{ReadFault, checked, has_columns, number_at, read, small_at, text, whole};
use sqlite::{Alter, Connection, Error, Row, Transaction};
use std::alloc::Global;

/// What is held of a bucket for a rating group.
#[derive(Clone, Copy)]
pub struct HeldColumns {
    /// Rating-Group (RFC 8506 section 8.29).
    pub group: u32,
    /// The bucket's number within the account.
    pub bucket: u32,
    /// Micro-units.
    pub amount: u64,
}

impl InOrder for HeldColumns {
    ghost before = { hold_before };

    fn is_before(&self, other: &HeldColumns) -> bool {
        self.group < other.group || self.group == other.group && self.bucket < other.bucket
    }
}

/// Puts what a session's reservation in a rating group holds of a bucket, in micro-units.
///
/// # Errors
/// `IntegralValueOutOfRange` where the amount is 2^63 or more, else an error of the store. Then
/// nothing is committed.
// rule: statements-of-tables.with-session-row
pub fn put_hold<S: Alter>(
    tx: &mut Transaction<'_, S>,
    account: &AccountNumber,
    session: &SessionId,
    group: u32,
    hold: &HeldAmount,
) -> Result<(), Error>
    requires tables { HasTables (state S.Store tx.old.conn.now) }
    ensures { AttemptsOver S.Store (Makes (with_rows account.now
        (with_hold_row session.now group hold.now.bucket hold.now.amount))) tx.old.conn tx.new.conn
        result }
{
    let of_account = text(account.as_str());
    let of_session = text(session.as_str());
    let of_group = whole(group);
    let bucket = whole(hold.bucket);
    let amount = checked(hold.amount as u128, 5)?;
    run(
        tx,
        "INSERT INTO holds VALUES (?1, ?2, ?3, ?4, ?5) \
         ON CONFLICT (account, session, rating_group, bucket) DO UPDATE SET \
         account = excluded.account, session = excluded.session, \
         rating_group = excluded.rating_group, bucket = excluded.bucket, amount = excluded.amount",
        &[of_account, of_session, of_group, bucket, amount],
    )
}

/// Removes what a session's reservation in a rating group holds.
///
/// # Errors
/// An error of the store. Then nothing is committed.
pub fn remove_holds<S: Alter>(
    tx: &mut Transaction<'_, S>,
    account: &AccountNumber,
    session: &SessionId,
    group: u32,
) -> Result<(), Error>
    requires tables { HasTables (state S.Store tx.old.conn.now) }
    ensures { AttemptsOver S.Store (Makes (with_rows account.now (without_holds session.now group)))
        tx.old.conn tx.new.conn result }
{
    let of_account = text(account.as_str());
    let of_session = text(session.as_str());
    let of_group = whole(group);
    run(
        tx,
        "DELETE FROM holds WHERE account = ?1 AND session = ?2 AND rating_group = ?3",
        &[of_account, of_session, of_group],
    )
}

/// What is held for a session, in the order of rating groups and of each one's buckets, each once.
///
/// # Errors
/// `Store` where the store failed, `Rules` only where a row is out of its rules, `Memory` where a
/// growth was refused. Nothing is changed then either.
// rule: statements-of-tables.with-session-row
pub fn read_holds<S: Alter>(
    conn: &mut Connection<S>,
    alloc: Global,
    account: &AccountNumber,
    session: &SessionId,
) -> Result<Vec<HeldColumns>, ReadFault>
    requires idle { HasIdleTables (state S.Store conn.old) }
    ensures reads { Reads (λ trees xs.
        AreHolds (rows_in trees account.now) session.now xs.items)
        (state S.Store conn.old) (state S.Store conn.new) result }
    ensures order { IfOk result (λ xs. Ascends hold_before xs.items) }
    // Rows that are in the rules are answered.
    ensures refused { HasCleanDisk (state S.Store conn.new) → IfErr result (λ e.
        e ≡ ReadFault.Rules →
        ¬ AreRuledHolds (rows_in (state S.Store conn.old).now.trees account.now) session.now) }
{
    let rows = read(
        conn,
        "SELECT rating_group, bucket, amount \
         FROM holds WHERE account = ?1 AND session = ?2 ORDER BY rating_group, bucket",
        &[text(account.as_str()), text(session.as_str())],
    )?;
    helds_from(alloc, &rows)
}

fn helds_from(alloc: Global, rows: &[Row]) -> Result<Vec<HeldColumns>, ReadFault>
    ensures cells { IfOk result (λ xs. map hold_cells xs.items ≡ rows.now) }
    ensures order { IfOk result (λ xs. Ascends hold_before xs.items) }
    ensures refused { IfErr result (λ e. e ≡ ReadFault.Rules → (xs : List HeldColumns) →
        rows.now ≡ map hold_cells xs → Ascends hold_before xs →
        ¬ AllByRecursion IsRuledHold xs) }
{
    let mut helds = Vec::new(alloc);
    'rows: for row in rows {
        let held = held_from(row)?;
        helds.push(held)?;
    }
    if !do_ascend(&helds) {
        return Err(ReadFault::Rules);
    }
    Ok(helds)
}

// rule: statements-of-tables.refused
fn held_from(row: &Row) -> Result<HeldColumns, ReadFault>
    ensures { MatchResult result (λ h. row.now ≡ hold_cells h)
        (λ e. e ≡ ReadFault.Rules → (h : HeldColumns) → row.now ≡ hold_cells h →
        ¬ IsRuledHold h) }
{
    has_columns(row, 3)?;
    let group = small_at(row, 0)?;
    let bucket = small_at(row, 1)?;
    let amount = number_at(row, 2)?;
    Ok(HeldColumns {
        group,
        bucket,
        amount,
    })
}

/// Puts each of what a session's reservation in a rating group holds.
///
/// # Errors
/// The first error of a row, as `put_hold` answers it. Then nothing is committed.
pub fn put_holds<S: Alter>(
    tx: &mut Transaction<'_, S>,
    account: &AccountNumber,
    session: &SessionId,
    group: u32,
    rows: &[HeldAmount],
) -> Result<(), Error>
    requires open { IsInside (state S.Store tx.old.conn.now) }
    requires tables { HasTables (state S.Store tx.old.conn.now) }
    ensures { AttemptsOver S.Store (MakesIfOpen (with_holds account.now session.now group rows.now))
        tx.old.conn tx.new.conn result }
{
    'rows: for row in rows {
        put_hold(tx, account, session, group, row)?;
    }
    Ok(())
}
