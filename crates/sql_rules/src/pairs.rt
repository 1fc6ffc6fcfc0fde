//! Whether a row is wrong beside a row of another table.

ghost use Rattle.std.specs.Prelude.{◌≡◌};
ghost use Rattle.sqlite.specs.Given.{IsPlain};
ghost use Rattle.sqlite.specs.Held.{state};
ghost use Rattle.sqlite.specs.Listing.{understood};
ghost use Rattle.sqlite.specs.State.{HasCleanDisk};
ghost use Rattle.sql_tables.specs.Opens.{IsVersion};
ghost use Rattle.sql_tables.specs.Schema.{accounts, buckets, charges, schema_at, session_groups};
ghost use Rattle.sql_tables.specs.Schema.{sessions};
ghost use Rattle.sql_rules.specs.Beside.{AreRightBeside, NoneWrong, is_ahead, is_bucket_ahead};
ghost use Rattle.sql_rules.specs.Beside.{is_touched_after, lacks_open_session};
ghost use Rattle.sql_rules.specs.Tables.{Tells};
ghost use Rattle.sql_rules.specs.Walks.{FindsNoRow};

use crate::walking::fault_of;
use sql_tables::OpenFault;
use sqlite::{Alter, Connection, Error};

/// Whether a selection answers no row.
fn finds_none<S: Alter>(conn: &mut Connection<S>, sql: &str) -> Result<bool, Error>
    requires plain { HasCleanDisk (state S.Store conn.old) →
        IsPlain (understood conn.old.schema sql.now) }
    ensures { FindsNoRow sql.now (state S.Store conn.old) (state S.Store conn.new) result }
{
    let rows = conn.query_all(sql, &[])?;
    Ok(rows.is_empty())
}

/// Tests that no charge has the next number of its account or a greater one. It looks at each
/// account once, and under its next number.
// rule: rows-ruled.beside
fn charges_pass<S: Alter>(conn: &mut Connection<S>, version: u32) -> Result<(), OpenFault>
    requires known { IsVersion version }
    requires ours { HasCleanDisk (state S.Store conn.old) → conn.old.schema ≡ schema_at version }
    ensures { Tells (NoneWrong is_ahead accounts charges) (state S.Store conn.old)
        (state S.Store conn.new) result }
{
    // For the prover alone: the version whose schema the text is read over.
    let _version = version;
    match finds_none(
        conn,
        "SELECT 1 FROM accounts, charges WHERE charges.account = accounts.account \
         AND charges.number >= accounts.next_charge LIMIT 1",
    ) {
        Ok(true) => Ok(()),
        Ok(false) => Err(OpenFault::Rules),
        Err(error) => Err(fault_of(error)),
    }
}

/// Tests that no bucket has the next number of its account or a greater one. It looks at each
/// account once, and under its next number.
// rule: rows-ruled.beside
fn buckets_pass<S: Alter>(conn: &mut Connection<S>, version: u32) -> Result<(), OpenFault>
    requires known { IsVersion version }
    requires ours { HasCleanDisk (state S.Store conn.old) → conn.old.schema ≡ schema_at version }
    ensures { Tells (NoneWrong is_bucket_ahead accounts buckets) (state S.Store conn.old)
        (state S.Store conn.new) result }
{
    // For the prover alone: the version whose schema the text is read over.
    let _version = version;
    match finds_none(
        conn,
        "SELECT 1 FROM accounts, buckets WHERE buckets.account = accounts.account \
         AND buckets.number >= accounts.next_bucket LIMIT 1",
    ) {
        Ok(true) => Ok(()),
        Ok(false) => Err(OpenFault::Rules),
        Err(error) => Err(fault_of(error)),
    }
}

/// Tests that no charge and no bucket has the next number of its account or a greater one.
fn numbers_pass<S: Alter>(conn: &mut Connection<S>, version: u32) -> Result<(), OpenFault>
    requires known { IsVersion version }
    requires ours { HasCleanDisk (state S.Store conn.old) → conn.old.schema ≡ schema_at version }
    ensures { Tells (λ trees. NoneWrong is_ahead accounts charges trees
        × NoneWrong is_bucket_ahead accounts buckets trees)
        (state S.Store conn.old) (state S.Store conn.new) result }
{
    charges_pass(conn, version)?;
    buckets_pass(conn, version)
}

/// Tests that no open session was touched after the moment of its account. It looks at each account
/// once, and at its open sessions.
// rule: rows-ruled.beside
fn sessions_pass<S: Alter>(conn: &mut Connection<S>, version: u32) -> Result<(), OpenFault>
    requires known { IsVersion version }
    requires ours { HasCleanDisk (state S.Store conn.old) → conn.old.schema ≡ schema_at version }
    ensures { Tells (NoneWrong is_touched_after accounts sessions) (state S.Store conn.old)
        (state S.Store conn.new) result }
{
    // For the prover alone: the version whose schema the text is read over.
    let _version = version;
    match finds_none(
        conn,
        "SELECT 1 FROM accounts, sessions WHERE sessions.account = accounts.account \
         AND sessions.state = 1 AND sessions.touched > accounts.as_of LIMIT 1",
    ) {
        Ok(true) => Ok(()),
        Ok(false) => Err(OpenFault::Rules),
        Err(error) => Err(fault_of(error)),
    }
}

/// Tests what is said of open sessions: none was touched after the moment of its account, and each
/// reservation is in one.
fn sessions_and_reservations_pass<S: Alter>(
    conn: &mut Connection<S>,
    version: u32,
) -> Result<(), OpenFault>
    requires known { IsVersion version }
    requires ours { HasCleanDisk (state S.Store conn.old) → conn.old.schema ≡ schema_at version }
    ensures { Tells (λ trees. NoneWrong is_touched_after accounts sessions trees
        × NoneWrong lacks_open_session session_groups sessions trees)
        (state S.Store conn.old) (state S.Store conn.new) result }
{
    sessions_pass(conn, version)?;
    reservations_pass(conn, version)
}

/// Tests that each reservation is in an open session. It looks at each row of `session_groups`
/// once, and at the session of each that has a reservation.
// rule: rows-ruled.beside
fn reservations_pass<S: Alter>(conn: &mut Connection<S>, version: u32) -> Result<(), OpenFault>
    requires known { IsVersion version }
    requires ours { HasCleanDisk (state S.Store conn.old) → conn.old.schema ≡ schema_at version }
    ensures { Tells (NoneWrong lacks_open_session session_groups sessions) (state S.Store conn.old)
        (state S.Store conn.new) result }
{
    // For the prover alone: the version whose schema the text is read over.
    let _version = version;
    match finds_none(
        conn,
        "SELECT 1 FROM session_groups, sessions WHERE session_groups.reserved = 1 \
         AND sessions.account = session_groups.account \
         AND sessions.session = session_groups.session AND sessions.state <> 1 LIMIT 1",
    ) {
        Ok(true) => Ok(()),
        Ok(false) => Err(OpenFault::Rules),
        Err(error) => Err(fault_of(error)),
    }
}

/// Tests that no row is wrong beside a row of another table. Nothing is changed.
///
/// # Errors
/// `Rules` only where one is; `Store` where the store failed; `Memory` where memory was refused.
// rule: rows-ruled.beside
pub(crate) fn pairs_pass<S: Alter>(conn: &mut Connection<S>, version: u32) -> Result<(), OpenFault>
    requires known { IsVersion version }
    requires ours { HasCleanDisk (state S.Store conn.old) → conn.old.schema ≡ schema_at version }
    ensures { Tells AreRightBeside (state S.Store conn.old) (state S.Store conn.new) result }
{
    numbers_pass(conn, version)?;
    sessions_and_reservations_pass(conn, version)
}
