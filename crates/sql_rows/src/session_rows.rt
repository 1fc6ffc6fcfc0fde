//! Rows of sessions.

ghost use Rattle.std.specs.Prelude.{◌≡◌, map, None, IfErr, IfOk, IfSome, List, MatchResult, Option};
ghost use Rattle.std.specs.List.{AllByRecursion};
ghost use Rattle.sql_rows.specs.Content.{has_session, rows_in, with_rows, with_session_row};
ghost use Rattle.sql_rows.specs.Values.{session_cells, session_values, state_number};
ghost use Rattle.sql_rows.specs.Lists.{AreSessions, Ascends, HasNoGroups};
ghost use Rattle.reserving.specs.Sessions.{is_open, session_before};
ghost use Rattle.sql_rows.specs.Each.{with_sessions};
ghost use Rattle.sql_rows.specs.Makes.{Adds, Makes, MakesIfOpen};
ghost use Rattle.sql_rows.specs.Plain.{ArePlain};
ghost use Rattle.sql_rows.specs.Ruled.{AreRuledOpen, IsRuledSession};
ghost use Rattle.sql_tables.specs.Statements.{HasTables, HasIdleTables, HasRules, IsInside};
ghost use Rattle.sql_tables.specs.Statements.{Reads, ReadsWithin, AttemptsOver};
ghost use Rattle.sql_tables.specs.Selects.{one_or_none};
ghost use Rattle.sqlite.specs.Held.{state};
ghost use Rattle.sqlite.specs.State.{ExecutesInside};
ghost use Rattle.sqlite.specs.State.{HasCleanDisk};

use crate::ascending::{InOrder, do_ascend};
use crate::decoding::{moment_at, session_at, state_at};
use identifiers::{AccountNumber, SessionId};
use reserving::{Session, SessionState};
use sql_tables::{
    ReadFault, has_columns, large, one_of, read, read_within, small_at, text, whole, write,
};
use sqlite::{Alter, Connection, Error, Row, Transaction};
use std::alloc::Global;

impl InOrder for Session {
    ghost before = { session_before };

    fn is_before(&self, other: &Session) -> bool {
        self.id.cmp(&other.id).is_lt()
    }
}

/// Runs a statement whose parameters are the columns of a session of an account, in their order. It
/// answers the number of rows.
///
/// # Errors
/// An error of the store. Then nothing is committed.
fn write_session<S: Alter>(
    tx: &mut Transaction<'_, S>,
    sql: &str,
    account: &AccountNumber,
    session: &Session,
) -> Result<usize, Error>
    ensures { AttemptsOver S.Store (λ old new.
        ExecutesInside 0 sql.now (session_values account.now session.now) old new result)
        tx.old.conn tx.new.conn result }
{
    let of_account = text(account.as_str());
    let name = text(session.id.as_str());
    let last_number = whole(session.last_number);
    let touched = large(session.touched.seconds());
    let state = whole(state_number(session.state));
    write(tx, sql, &[of_account, name, last_number, touched, state])
}

/// Puts a session of an account, or a recorded event.
///
/// # Errors
/// An error of the store. Then nothing is committed.
// rule: statements-of-tables.with-session-row
pub fn put_session<S: Alter>(
    tx: &mut Transaction<'_, S>,
    account: &AccountNumber,
    session: &Session,
) -> Result<(), Error>
    requires tables { HasTables (state S.Store tx.old.conn.now) }
    ensures { AttemptsOver S.Store (Makes (with_rows account.now (with_session_row session.now)))
        tx.old.conn tx.new.conn result }
{
    write_session(
        tx,
        "INSERT INTO sessions VALUES (?1, ?2, ?3, ?4, ?5) \
         ON CONFLICT (account, session) DO UPDATE SET \
         account = excluded.account, session = excluded.session, \
         last_number = excluded.last_number, touched = excluded.touched, state = excluded.state",
        account,
        session,
    )?;
    Ok(())
}

/// Adds a session of an account, or a recorded event, where the account has none of its name. That
/// costs less than to put one that may be there.
///
/// # Errors
/// An error of the store, as where the account has one of the name. Then nothing is committed.
// rule: statements-of-tables.with-session-row
pub fn add_session<S: Alter>(
    tx: &mut Transaction<'_, S>,
    account: &AccountNumber,
    session: &Session,
) -> Result<(), Error>
    requires tables { HasTables (state S.Store tx.old.conn.now) }
    ensures { AttemptsOver S.Store (Adds (has_session account.now session.now.id)
        (with_rows account.now (with_session_row session.now)))
        tx.old.conn tx.new.conn result }
{
    write_session(
        tx,
        "INSERT INTO sessions VALUES (?1, ?2, ?3, ?4, ?5)",
        account,
        session,
    )?;
    Ok(())
}

/// The number of a state in the column.
fn state_number(state: SessionState) -> u32
    ensures { result ≡ state_number state }
{
    match state {
        SessionState::Open => 1,
        SessionState::Ended => 2,
        SessionState::NeverOpened => 3,
    }
}

/// The session with the name, or the recorded event. Where there is none, the tables have nothing
/// of its rating groups either, since these have its name as a key.
///
/// # Errors
/// `Store` where the store failed, `Rules` only where the row is out of its rules or isn't as
/// statements write it, `Memory` where a growth was refused. Nothing is changed then either.
// rule: statements-of-tables.with-session-row
pub fn read_session<S: Alter>(
    conn: &mut Connection<S>,
    alloc: Global,
    account: &AccountNumber,
    session: &SessionId,
) -> Result<Option<Session>, ReadFault>
    requires idle { HasIdleTables (state S.Store conn.old) }
    ensures reads { Reads (λ trees o. o ≡ (rows_in trees account.now).sessions session.now)
        (state S.Store conn.old) (state S.Store conn.new) result }
    ensures none { HasCleanDisk (state S.Store conn.new) → IfOk result (λ o. o ≡ None →
        HasNoGroups (rows_in (state S.Store conn.old).now.trees account.now) session.now) }
    // A row that is as statements write it, and in the rules, is answered.
    ensures refused { HasCleanDisk (state S.Store conn.new) → IfErr result (λ e.
        e ≡ ReadFault.Rules → ArePlain (state S.Store conn.old).now.trees →
        ¬ IfSome ((rows_in (state S.Store conn.old).now.trees account.now).sessions session.now)
        IsRuledSession) }
{
    let rows = read(
        conn,
        "SELECT session, last_number, touched, state FROM sessions \
         WHERE account = ?1 AND session = ?2",
        &[text(account.as_str()), text(session.as_str())],
    )?;
    session_among(alloc, &rows)
}

fn session_among(alloc: Global, rows: &[Row]) -> Result<Option<Session>, ReadFault>
    ensures { MatchResult result (λ o. rows.now ≡ map session_cells (one_or_none o))
        (λ e. e ≡ ReadFault.Rules → (o : Option Session) →
        rows.now ≡ map session_cells (one_or_none o) → ¬ IfSome o IsRuledSession) }
{
    let row = one_of(rows)?;
    match row {
        None => Ok(None),
        Some(row) => Ok(Some(session_from(alloc, row)?)),
    }
}

// rule: statements-of-tables.refused
fn session_from(alloc: Global, row: &Row) -> Result<Session, ReadFault>
    ensures { MatchResult result (λ s. row.now ≡ session_cells s)
        (λ e. e ≡ ReadFault.Rules → (s : Session) → row.now ≡ session_cells s →
        ¬ IsRuledSession s) }
{
    has_columns(row, 4)?;
    let id = session_at(alloc, row, 0)?;
    let last_number = small_at(row, 1)?;
    let touched = moment_at(row, 2)?;
    let state = state_at(row, 3)?;
    Ok(Session {
        id,
        last_number,
        touched,
        state,
    })
}

/// The open sessions of an account, in the order of their names, each once; the index finds them
/// without its past ones.
///
/// # Errors
/// `Store` where the store failed, `Rules` only where a row is out of its rules, `Memory` where a
/// growth was refused. Nothing is changed then either.
pub fn read_sessions_open<S: Alter>(
    conn: &mut Connection<S>,
    alloc: Global,
    account: &AccountNumber,
) -> Result<Vec<Session>, ReadFault>
    requires idle { HasIdleTables (state S.Store conn.old) }
    ensures reads { Reads (λ trees xs.
        AreSessions (λ x. is_open x.state) (rows_in trees account.now) xs.items)
        (state S.Store conn.old) (state S.Store conn.new) result }
    ensures order { IfOk result (λ xs. Ascends session_before xs.items) }
    // Rows that are in the rules are answered.
    ensures refused { HasCleanDisk (state S.Store conn.new) → IfErr result (λ e.
        e ≡ ReadFault.Rules →
        ¬ AreRuledOpen (rows_in (state S.Store conn.old).now.trees account.now)) }
{
    let rows = read(
        conn,
        "SELECT session, last_number, touched, state \
         FROM sessions WHERE account = ?1 AND state = 1 ORDER BY session",
        &[text(account.as_str())],
    )?;
    sessions_from(alloc, &rows)
}

/// The open sessions of an account, within a transaction.
///
/// # Errors
/// As of `read_sessions_open`. Then nothing is committed.
// rule: statements-of-tables.reads-within
pub fn read_sessions_open_within<S: Alter>(
    tx: &mut Transaction<'_, S>,
    alloc: Global,
    account: &AccountNumber,
) -> Result<Vec<Session>, ReadFault>
    requires tables { HasTables (state S.Store tx.old.conn.now) }
    requires rules { HasRules (state S.Store tx.old.conn.now) }
    ensures same_reference { tx.new.conn.ghost_name ≡ tx.old.conn.ghost_name }
    ensures reads { ReadsWithin (λ trees xs.
        AreSessions (λ x. is_open x.state) (rows_in trees account.now) xs.items)
        (state S.Store tx.old.conn.now) (state S.Store tx.new.conn.now) result }
    ensures order { IfOk result (λ xs. Ascends session_before xs.items) }
    // Rows that are in the rules are answered.
    ensures refused { HasCleanDisk (state S.Store tx.new.conn.now) → IfErr result (λ e.
        e ≡ ReadFault.Rules →
        ¬ AreRuledOpen (rows_in (state S.Store tx.old.conn.now).now.trees account.now)) }
{
    let rows = read_within(
        tx,
        "SELECT session, last_number, touched, state FROM sessions \
         WHERE account = ?1 AND state = 1 \
         ORDER BY session",
        &[text(account.as_str())],
    )?;
    sessions_from(alloc, &rows)
}

fn sessions_from(alloc: Global, rows: &[Row]) -> Result<Vec<Session>, ReadFault>
    ensures cells { IfOk result (λ xs. map session_cells xs.items ≡ rows.now) }
    ensures order { IfOk result (λ xs. Ascends session_before xs.items) }
    ensures refused { IfErr result (λ e. e ≡ ReadFault.Rules → (xs : List Session) →
        rows.now ≡ map session_cells xs → Ascends session_before xs →
        ¬ AllByRecursion IsRuledSession xs) }
{
    let mut sessions = Vec::new(alloc);
    'rows: for row in rows {
        let session = session_from(alloc, row)?;
        sessions.push(session)?;
    }
    if !do_ascend(&sessions) {
        return Err(ReadFault::Rules);
    }
    Ok(sessions)
}

/// Puts each session in turn.
///
/// # Errors
/// The first error of a row, as `put_session` answers it. Then nothing is committed.
pub fn put_sessions<S: Alter>(
    tx: &mut Transaction<'_, S>,
    account: &AccountNumber,
    rows: &[Session],
) -> Result<(), Error>
    requires open { IsInside (state S.Store tx.old.conn.now) }
    requires tables { HasTables (state S.Store tx.old.conn.now) }
    ensures { AttemptsOver S.Store (MakesIfOpen (with_sessions account.now rows.now))
        tx.old.conn tx.new.conn result }
{
    'rows: for row in rows {
        put_session(tx, account, row)?;
    }
    Ok(())
}

/// Adds each session in turn.
///
/// # Errors
/// The first error of a row, as `add_session` answers it. Then nothing is committed.
// rule: statements-of-tables.with-session-row
pub fn add_sessions<S: Alter>(
    tx: &mut Transaction<'_, S>,
    account: &AccountNumber,
    rows: &[Session],
) -> Result<(), Error>
    requires open { IsInside (state S.Store tx.old.conn.now) }
    requires tables { HasTables (state S.Store tx.old.conn.now) }
    ensures { AttemptsOver S.Store (MakesIfOpen (with_sessions account.now rows.now))
        tx.old.conn tx.new.conn result }
{
    'rows: for row in rows {
        add_session(tx, account, row)?;
    }
    Ok(())
}
