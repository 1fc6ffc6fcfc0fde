//! Rows of what sessions have of rating groups.

ghost use Rattle.std.specs.Prelude.{◌≡◌, map, option_map, IfOk};
ghost use Rattle.sqlite_value.specs.Value.{owned};
ghost use Rattle.sqlite_value.specs.declared.value.Value.TheVariants.{Text};
ghost use Rattle.sql_rows.specs.Content.{has_group, rows_in, with_group_row, with_rows};
ghost use Rattle.sql_rows.specs.Lists.{AreGroups, Ascends, group_at_before, group_at_cells};
ghost use Rattle.sql_rows.specs.Texts.{ArePeriods, group_at, names_put};
ghost use Rattle.sql_rows.specs.Makes.{Adds, Makes};
ghost use Rattle.sql_tables.specs.Statements.{HasTables, HasIdleTables, Reads, AttemptsOver};
ghost use Rattle.sqlite.specs.Held.{state};
ghost use Rattle.sqlite.specs.Values.{bound_value, or_null};

use crate::ascending::{InOrder, do_ascend};
use crate::decoding::flag_at;
use crate::running::run;
use identifiers::{AccountNumber, SessionId};
use sql_tables::{
    ReadFault, checked, flag, has_columns, null, null_at, number_at, read, small_at, text, text_at,
    whole,
};
use sqlite::types::ValueRef;
use sqlite::{Alter, Connection, Error, Row, Transaction};
use std::alloc::Global;

/// The names of the tariff periods at a grant and at its switch.
pub struct PeriodTexts {
    /// The name of the tariff period at the grant.
    pub before: String,
    /// The name of the tariff period at the switch.
    pub after: String,
}

// It is written out, so that a caller doesn't prove again how each part is dropped.
impl Drop for PeriodTexts {
    fn drop(self) {
        let PeriodTexts {
            before: _,
            after: _,
        } = self;
    }
}

/// What a session has of a rating group.
pub struct GroupColumns {
    /// Rating-Group (RFC 8506 section 8.29).
    pub group: u32,
    /// Units.
    pub used: u64,
    /// The periods of its reservation; none where it has none.
    pub periods: Option<PeriodTexts>,
}

// It is written out, so that a caller doesn't prove again how each part is dropped.
impl Drop for GroupColumns {
    fn drop(self) {
        let GroupColumns {
            group: _,
            used: _,
            periods: _,
        } = self;
    }
}

impl InOrder for GroupColumns {
    ghost before = { λ x y. group_at_before (group_at x) (group_at y) };

    fn is_before(&self, other: &GroupColumns) -> bool {
        self.group < other.group
    }
}

/// The names of the tariff periods at a grant and at its switch, as they are put.
#[derive(Clone, Copy)]
pub struct PutNames<'a> {
    /// The name of the tariff period at the grant.
    pub before: &'a str,
    /// The name of the tariff period at the switch.
    pub after: &'a str,
}

/// The name of the period at a grant as a statement's parameter; NULL without a reservation.
fn before_or_null(periods: Option<PutNames<'_>>) -> ValueRef<'_>
    ensures { bound_value (owned result) ≡ or_null (λ p. Text p.before.now) periods.entry }
{
    match periods {
        Some(names) => text(names.before),
        None => null(),
    }
}

/// The name of the period at a switch as a statement's parameter; NULL without a reservation.
fn after_or_null(periods: Option<PutNames<'_>>) -> ValueRef<'_>
    ensures { bound_value (owned result) ≡ or_null (λ p. Text p.after.now) periods.entry }
{
    match periods {
        Some(names) => text(names.after),
        None => null(),
    }
}

/// Puts what a session has of a rating group (Rating-Group, RFC 8506 section 8.29): the units used,
/// and of a reservation the names of its tariff periods; none without one. What the reservation
/// holds is put by `put_hold`.
///
/// # Errors
/// `IntegralValueOutOfRange` where the number of units is 2^63 or more, else an error of the store.
/// Then nothing is committed.
// rule: statements-of-tables.with-session-row
pub fn put_group<S: Alter>(
    tx: &mut Transaction<'_, S>,
    account: &AccountNumber,
    session: &SessionId,
    group: u32,
    used: u64,
    periods: Option<PutNames<'_>>,
) -> Result<(), Error>
    requires tables { HasTables (state S.Store tx.old.conn.now) }
    ensures { AttemptsOver S.Store (Makes (with_rows account.now (with_group_row session.now group
        (record { used = used; periods = option_map names_put periods.entry }))))
        tx.old.conn tx.new.conn result }
{
    let of_account = text(account.as_str());
    let of_session = text(session.as_str());
    let of_group = whole(group);
    let units = checked(used as u128, 4)?;
    let reserved = flag(periods.is_some());
    let at_grant = before_or_null(periods);
    let at_switch = after_or_null(periods);
    run(
        tx,
        "INSERT INTO session_groups VALUES (?1, ?2, ?3, ?4, ?5, ?6, ?7) \
         ON CONFLICT (account, session, rating_group) DO UPDATE SET \
         account = excluded.account, session = excluded.session, \
         rating_group = excluded.rating_group, used = excluded.used, \
         reserved = excluded.reserved, period_before = excluded.period_before, \
         period_after = excluded.period_after",
        &[
            of_account, of_session, of_group, units, reserved, at_grant, at_switch,
        ],
    )
}

/// Adds what `put_group` puts, where the session has nothing of the rating group. That costs less
/// than to put what may be there.
///
/// # Errors
/// As of `put_group`, and an error of the store where the session has something of it.
// rule: statements-of-tables.with-session-row
pub fn add_group<S: Alter>(
    tx: &mut Transaction<'_, S>,
    account: &AccountNumber,
    session: &SessionId,
    group: u32,
    used: u64,
    periods: Option<PutNames<'_>>,
) -> Result<(), Error>
    requires tables { HasTables (state S.Store tx.old.conn.now) }
    ensures { AttemptsOver S.Store (Adds (has_group account.now session.now group)
        (with_rows account.now (with_group_row session.now group
        (record { used = used; periods = option_map names_put periods.entry }))))
        tx.old.conn tx.new.conn result }
{
    let of_account = text(account.as_str());
    let of_session = text(session.as_str());
    let of_group = whole(group);
    let units = checked(used as u128, 4)?;
    let reserved = flag(periods.is_some());
    let at_grant = before_or_null(periods);
    let at_switch = after_or_null(periods);
    run(
        tx,
        "INSERT INTO session_groups VALUES (?1, ?2, ?3, ?4, ?5, ?6, ?7)",
        &[
            of_account, of_session, of_group, units, reserved, at_grant, at_switch,
        ],
    )
}

/// What a session has of rating groups, in their order, each once; what its reservations hold is
/// read by `read_holds`.
///
/// # Errors
/// `Store` where the store failed, `Rules` where a row is out of its rules or the groups don't
/// rise, `Memory` where a growth was refused. Nothing is changed then either.
// rule: statements-of-tables.with-session-row
pub fn read_groups<S: Alter>(
    conn: &mut Connection<S>,
    alloc: Global,
    account: &AccountNumber,
    session: &SessionId,
) -> Result<Vec<GroupColumns>, ReadFault>
    requires idle { HasIdleTables (state S.Store conn.old) }
    ensures reads { Reads (λ trees xs.
        AreGroups (rows_in trees account.now) session.now (map group_at xs.items))
        (state S.Store conn.old) (state S.Store conn.new) result }
    ensures order { IfOk result (λ xs. Ascends group_at_before (map group_at xs.items)) }
{
    let rows = read(
        conn,
        "SELECT rating_group, used, reserved, period_before, period_after \
         FROM session_groups WHERE account = ?1 AND session = ?2 ORDER BY rating_group",
        &[text(account.as_str()), text(session.as_str())],
    )?;
    groups_from(alloc, &rows)
}

fn groups_from(alloc: Global, rows: &[Row]) -> Result<Vec<GroupColumns>, ReadFault>
    ensures cells { IfOk result (λ xs. map group_at_cells (map group_at xs.items) ≡ rows.now) }
    ensures order { IfOk result (λ xs. Ascends group_at_before (map group_at xs.items)) }
{
    let mut groups = Vec::new(alloc);
    'rows: for row in rows {
        let group = group_from(row)?;
        groups.push(group)?;
    }
    if !do_ascend(&groups) {
        return Err(ReadFault::Rules);
    }
    Ok(groups)
}

fn group_from(row: &Row) -> Result<GroupColumns, ReadFault>
    ensures { IfOk result (λ x. row.now ≡ group_at_cells (group_at x)) }
{
    has_columns(row, 5)?;
    let group = small_at(row, 0)?;
    let used = number_at(row, 1)?;
    let reserved = flag_at(row, 2)?;
    let periods = periods_from(row, reserved)?;
    Ok(GroupColumns {
        group,
        used,
        periods,
    })
}

/// The names of the periods, which are there exactly where the group has a reservation.
pub(crate) fn periods_from(row: &Row, is_reserved: bool) -> Result<Option<PeriodTexts>, ReadFault>
    ensures { IfOk result (λ o. ArePeriods row.now is_reserved o) }
{
    if !is_reserved {
        null_at(row, 3)?;
        null_at(row, 4)?;
        return Ok(None);
    }
    let before = text_at(row, 3)?;
    let after = text_at(row, 4)?;
    Ok(Some(PeriodTexts { before, after }))
}
