//! Rows of accounts.

ghost use Rattle.std.specs.Prelude.{◌≡◌, map, IfErr, IfSome, MatchResult, None, OnOk, Option};
ghost use Rattle.std.specs.Prelude.{Some, option_copied};
ghost use Rattle.sql_rows.specs.Content.{has_account, tables_content, rows_in, with_account};
ghost use Rattle.sql_rows.specs.Values.{head_cells, head_key, head_values};
ghost use Rattle.sql_rows.specs.Lists.{IsNextAccount};
ghost use Rattle.sql_rows.specs.Plain.{ArePlain};
ghost use Rattle.sql_rows.specs.Ruled.{AreRuledAccounts, IsRuledAccount, IsRuledHead};
ghost use Rattle.identifiers.specs.Words.{AccountName};
ghost use Rattle.sql_rows.specs.Makes.{Makes, ReplacesIfSome};
ghost use Rattle.sql_tables.specs.Statements.{Attempts, HasTables, HasIdleTables, HasRules, Reads};
ghost use Rattle.sql_tables.specs.Statements.{AttemptsOver, ReadsWithin};
ghost use Rattle.sql_tables.specs.Selects.{one_or_none};
ghost use Rattle.sqlite.specs.Held.{state};
ghost use Rattle.sqlite.specs.State.{ExecutesInside, HasCleanDisk};

use crate::decoding::{account_at, flag_at, moment_at};
use crate::head::HeadColumns;
use identifiers::AccountNumber;
use sql_tables::{
    ReadFault, checked, flag, has_columns, large, number_at, one_of, read, read_within, text, write,
};
use sqlite::{Alter, Connection, Error, Row, Transaction};
use std::alloc::Global;

/// Runs a statement whose parameters are the columns of an account's row, in their order. It
/// answers the number of rows.
///
/// # Errors
/// As of `put_account`.
fn write_account<S: Alter>(
    tx: &mut Transaction<'_, S>,
    sql: &str,
    account: &AccountNumber,
    head: &HeadColumns,
) -> Result<usize, Error>
    ensures { AttemptsOver S.Store (λ old new.
        ExecutesInside 0 sql.now (head_values account.now head.now) old new result)
        tx.old.conn tx.new.conn result }
{
    let number = text(account.as_str());
    let barred = flag(head.barred);
    let as_of = large(head.as_of.seconds());
    let next_bucket = checked(head.next_bucket as u128, 4)?;
    let next_charge = checked(head.next_charge as u128, 5)?;
    write(tx, sql, &[number, barred, as_of, next_bucket, next_charge])
}

/// Replaces what is kept of an account once, if it is opened, and answers whether it is.
///
/// # Errors
/// As of `put_account`.
// rule: statements-of-tables.tables-content
fn replace_account<S: Alter>(
    tx: &mut Transaction<'_, S>,
    account: &AccountNumber,
    head: &HeadColumns,
) -> Result<bool, Error>
    requires tables { HasTables (state S.Store tx.old.conn.now) }
    ensures same_reference { tx.new.conn.ghost_name ≡ tx.old.conn.ghost_name }
    ensures replaces { ReplacesIfSome (has_account account.now) (with_account account.now head.now)
        (state S.Store tx.old.conn.now) (state S.Store tx.new.conn.now) result }
    // The rows of the tables obey their rules then.
    ensures rules { OnOk result (HasRules (state S.Store tx.new.conn.now)) }
{
    let count = write_account(
        tx,
        "UPDATE accounts SET account = ?1, barred = ?2, as_of = ?3, next_bucket = ?4, \
         next_charge = ?5 WHERE account = ?1",
        account,
        head,
    )?;
    Ok(count == 1)
}

/// Puts what is kept of an account once, whether it is opened or not.
///
/// # Errors
/// `IntegralValueOutOfRange` where the next number of a bucket or of a charge is 2^63 or more, else
/// an error of the store. Then nothing is committed.
fn insert_account<S: Alter>(
    tx: &mut Transaction<'_, S>,
    account: &AccountNumber,
    head: &HeadColumns,
) -> Result<(), Error>
    requires tables { HasTables (state S.Store tx.old.conn.now) }
    ensures same_reference { tx.new.conn.ghost_name ≡ tx.old.conn.ghost_name }
    ensures makes { Attempts (Makes (with_account account.now head.now))
        (state S.Store tx.old.conn.now) (state S.Store tx.new.conn.now) result }
    // The rows of the tables obey their rules then.
    ensures rules { OnOk result (HasRules (state S.Store tx.new.conn.now)) }
{
    write_account(
        tx,
        "INSERT INTO accounts VALUES (?1, ?2, ?3, ?4, ?5) \
         ON CONFLICT (account) DO UPDATE SET \
         account = excluded.account, barred = excluded.barred, as_of = excluded.as_of, \
         next_bucket = excluded.next_bucket, next_charge = excluded.next_charge",
        account,
        head,
    )?;
    Ok(())
}

/// Puts what is kept of an account once. An account that is opened already is the more frequent
/// one, and its row is replaced at less cost than a row is put that may be there.
///
/// # Errors
/// `IntegralValueOutOfRange` where the next number of a bucket or of a charge is 2^63 or more, else
/// an error of the store. Then nothing is committed.
// rule: statements-of-tables.tables-content, statements-of-tables.reads-within
pub fn put_account<S: Alter>(
    tx: &mut Transaction<'_, S>,
    account: &AccountNumber,
    head: &HeadColumns,
) -> Result<(), Error>
    requires tables { HasTables (state S.Store tx.old.conn.now) }
    ensures same_reference { tx.new.conn.ghost_name ≡ tx.old.conn.ghost_name }
    ensures makes { Attempts (Makes (with_account account.now head.now))
        (state S.Store tx.old.conn.now) (state S.Store tx.new.conn.now) result }
    // The rows of the tables obey their rules then.
    ensures rules { OnOk result (HasRules (state S.Store tx.new.conn.now)) }
{
    if replace_account(tx, account, head)? {
        return Ok(());
    }
    insert_account(tx, account, head)
}

/// What is kept of an account once: none where it is not opened.
///
/// # Errors
/// `Store` where the store failed, `Rules` only where the row is out of its rules or isn't as
/// statements write it, `Memory` where a growth was refused. Nothing is changed then either.
// rule: statements-of-tables.tables-content
pub fn read_account<S: Alter>(
    conn: &mut Connection<S>,
    account: &AccountNumber,
) -> Result<Option<HeadColumns>, ReadFault>
    requires idle { HasIdleTables (state S.Store conn.old) }
    ensures reads { Reads (λ trees o. o ≡ (rows_in trees account.now).head)
        (state S.Store conn.old) (state S.Store conn.new) result }
    // A row that is as statements write it, and in the rules, is answered.
    ensures refused { HasCleanDisk (state S.Store conn.new) → IfErr result (λ e.
        e ≡ ReadFault.Rules → ArePlain (state S.Store conn.old).now.trees →
        ¬ IfSome (rows_in (state S.Store conn.old).now.trees account.now).head IsRuledHead) }
{
    let of_account = text(account.as_str());
    let rows = read(
        conn,
        "SELECT barred, as_of, next_bucket, next_charge FROM accounts \
         WHERE account = ?1",
        &[of_account],
    )?;
    head_among(&rows)
}

/// What is kept of an account once, within a transaction: none where it is not opened.
///
/// # Errors
/// As of `read_account`. Then nothing is committed.
// rule: statements-of-tables.reads-within
pub fn read_account_within<S: Alter>(
    tx: &mut Transaction<'_, S>,
    account: &AccountNumber,
) -> Result<Option<HeadColumns>, ReadFault>
    requires tables { HasTables (state S.Store tx.old.conn.now) }
    requires rules { HasRules (state S.Store tx.old.conn.now) }
    ensures same_reference { tx.new.conn.ghost_name ≡ tx.old.conn.ghost_name }
    ensures reads { ReadsWithin (λ trees o. o ≡ (rows_in trees account.now).head)
        (state S.Store tx.old.conn.now) (state S.Store tx.new.conn.now) result }
    // A row that is as statements write it, and in the rules, is answered.
    ensures refused { HasCleanDisk (state S.Store tx.new.conn.now) → IfErr result (λ e.
        e ≡ ReadFault.Rules → ArePlain (state S.Store tx.old.conn.now).now.trees →
        ¬ IfSome (rows_in (state S.Store tx.old.conn.now).now.trees account.now).head IsRuledHead) }
{
    let of_account = text(account.as_str());
    let rows = read_within(
        tx,
        "SELECT barred, as_of, next_bucket, next_charge \
         FROM accounts WHERE account = ?1",
        &[of_account],
    )?;
    head_among(&rows)
}

fn head_among(rows: &[Row]) -> Result<Option<HeadColumns>, ReadFault>
    ensures { MatchResult result (λ o. rows.now ≡ map head_cells (one_or_none o))
        (λ e. e ≡ ReadFault.Rules → (o : Option HeadColumns) →
        rows.now ≡ map head_cells (one_or_none o) → ¬ IfSome o IsRuledHead) }
{
    let row = one_of(rows)?;
    match row {
        None => Ok(None),
        Some(row) => Ok(Some(head_from(row)?)),
    }
}

fn head_from(row: &Row) -> Result<HeadColumns, ReadFault>
    ensures { MatchResult result (λ h. row.now ≡ head_cells h)
        (λ e. e ≡ ReadFault.Rules → (h : HeadColumns) → row.now ≡ head_cells h →
        ¬ IsRuledHead h) }
{
    has_columns(row, 4)?;
    let barred = flag_at(row, 0)?;
    let as_of = moment_at(row, 1)?;
    let next_bucket = number_at(row, 2)?;
    let next_charge = number_at(row, 3)?;
    Ok(HeadColumns {
        barred,
        as_of,
        next_bucket,
        next_charge,
    })
}

/// The number of the first account in the order of their numbers, within a transaction; none where
/// none is opened.
///
/// # Errors
/// As of `read_next_account`.
fn read_first_account<S: Alter>(
    tx: &mut Transaction<'_, S>,
    alloc: Global,
) -> Result<Option<AccountNumber>, ReadFault>
    requires tables { HasTables (state S.Store tx.old.conn.now) }
    requires rules { HasRules (state S.Store tx.old.conn.now) }
    ensures same_reference { tx.new.conn.ghost_name ≡ tx.old.conn.ghost_name }
    ensures reads { ReadsWithin (λ trees o. IsNextAccount (tables_content trees) None o)
        (state S.Store tx.old.conn.now) (state S.Store tx.new.conn.now) result }
    ensures refused { HasCleanDisk (state S.Store tx.new.conn.now) → IfErr result (λ e.
        e ≡ ReadFault.Rules →
        ¬ AreRuledAccounts (tables_content (state S.Store tx.old.conn.now).now.trees)) }
{
    let rows = read_within(
        tx,
        "SELECT account FROM accounts ORDER BY account LIMIT 1",
        &[],
    )?;
    account_among(alloc, &rows)
}

/// The number of the account that follows this one in the order of their numbers, whether this one
/// is opened or not; none where none follows.
///
/// # Errors
/// As of `read_next_account`.
fn read_account_after<S: Alter>(
    tx: &mut Transaction<'_, S>,
    alloc: Global,
    account: &AccountNumber,
) -> Result<Option<AccountNumber>, ReadFault>
    requires tables { HasTables (state S.Store tx.old.conn.now) }
    requires rules { HasRules (state S.Store tx.old.conn.now) }
    ensures same_reference { tx.new.conn.ghost_name ≡ tx.old.conn.ghost_name }
    ensures reads { ReadsWithin
        (λ trees o. IsNextAccount (tables_content trees) (Some account.now) o)
        (state S.Store tx.old.conn.now) (state S.Store tx.new.conn.now) result }
    ensures refused { HasCleanDisk (state S.Store tx.new.conn.now) → IfErr result (λ e.
        e ≡ ReadFault.Rules →
        ¬ AreRuledAccounts (tables_content (state S.Store tx.old.conn.now).now.trees)) }
{
    let of_account = text(account.as_str());
    let rows = read_within(
        tx,
        "SELECT account FROM accounts WHERE account > ?1 ORDER BY account LIMIT 1",
        &[of_account],
    )?;
    account_among(alloc, &rows)
}

/// The number of the account that follows this one in the order of their numbers, of the first one
/// where none is given, within a transaction; none where none follows. So a walk from one to the
/// next meets each account once, and holds the number of one.
///
/// # Errors
/// `Store` where the store failed, `Rules` only where an account is out of its rules, `Memory` where
/// a growth was refused. Then nothing is committed.
// rule: statements-of-tables.tables-content
pub fn read_next_account<S: Alter>(
    tx: &mut Transaction<'_, S>,
    alloc: Global,
    after: Option<&AccountNumber>,
) -> Result<Option<AccountNumber>, ReadFault>
    requires tables { HasTables (state S.Store tx.old.conn.now) }
    requires rules { HasRules (state S.Store tx.old.conn.now) }
    ensures same_reference { tx.new.conn.ghost_name ≡ tx.old.conn.ghost_name }
    ensures reads { ReadsWithin
        (λ trees o. IsNextAccount (tables_content trees) (option_copied after.entry) o)
        (state S.Store tx.old.conn.now) (state S.Store tx.new.conn.now) result }
    // A number that is in the rules is answered.
    ensures refused { HasCleanDisk (state S.Store tx.new.conn.now) → IfErr result (λ e.
        e ≡ ReadFault.Rules →
        ¬ AreRuledAccounts (tables_content (state S.Store tx.old.conn.now).now.trees)) }
{
    match after {
        None => read_first_account(tx, alloc),
        Some(account) => read_account_after(tx, alloc, account),
    }
}

fn account_among(alloc: Global, rows: &[Row]) -> Result<Option<AccountNumber>, ReadFault>
    ensures { MatchResult result (λ o. rows.now ≡ map head_key (one_or_none o))
        (λ e. e ≡ ReadFault.Rules → (o : Option AccountName) →
        rows.now ≡ map head_key (one_or_none o) → ¬ IfSome o IsRuledAccount) }
{
    let row = one_of(rows)?;
    match row {
        None => Ok(None),
        Some(row) => Ok(Some(account_from(alloc, row)?)),
    }
}

fn account_from(alloc: Global, row: &Row) -> Result<AccountNumber, ReadFault>
    ensures { MatchResult result (λ a. row.now ≡ head_key a)
        (λ e. e ≡ ReadFault.Rules → (a : AccountName) → row.now ≡ head_key a →
        ¬ IsRuledAccount a) }
{
    has_columns(row, 1)?;
    account_at(alloc, row, 0)
}
