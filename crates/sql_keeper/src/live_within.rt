//! What may still change of an account by time alone, read within a transaction.

ghost use Rattle.std.specs.Prelude.{◌≡◌};
ghost use Rattle.sql_keeper.specs.Content.{shelf_names};
ghost use Rattle.sql_keeper.specs.LiveGroups.{AreLiveGroups, AreOpenSessions};
ghost use Rattle.sql_keeper.specs.LiveRows.{AreLiveBuckets, AreLiveRows, IsLiveUncounted};
ghost use Rattle.sql_keeper.specs.LiveRows.{IsReadUncounted};
ghost use Rattle.sql_rows.specs.Content.{rows_in};
ghost use Rattle.sql_tables.specs.Statements.{HasTables, HasRules, ReadsWithin};
ghost use Rattle.sqlite.specs.Held.{state};

use crate::live_groups::{OpenSessions, is_none};
use crate::live_rows::{LiveRows, ReadRows, live_account_of, live_purse_of};
use crate::rebuilding_groups::groups_of;
use buckets::Purse;
use identifiers::AccountNumber;
use reserving::{SessionGroup, StoredAccount};
use shelves::TariffShelf;
use sql_rows::{
    read_account_within, read_buckets_live_within, read_open_rows_within, read_sessions_open_within,
};
use sql_tables::ReadFault;
use sqlite::{Alter, Transaction};
use std::alloc::Global;

/// The buckets of an account that aren't dead, with what they count.
fn read_purse_within<S: Alter>(
    tx: &mut Transaction<'_, S>,
    alloc: Global,
    account: &AccountNumber,
) -> Result<Purse, ReadFault>
    requires tables { HasTables (state S.Store tx.old.conn.now) }
    requires rules { HasRules (state S.Store tx.old.conn.now) }
    ensures same_reference { tx.new.conn.ghost_name ≡ tx.old.conn.ghost_name }
    ensures reads { ReadsWithin (λ trees purse. AreLiveBuckets (rows_in trees account.now) purse)
        (state S.Store tx.old.conn.now) (state S.Store tx.new.conn.now) result }
{
    let rows = read_buckets_live_within(tx, alloc, account)?;
    live_purse_of(alloc, &rows)
}

/// What the open sessions of an account have of rating groups, with what their reservations hold in
/// the order of the purse.
fn read_groups_within<S: Alter>(
    tx: &mut Transaction<'_, S>,
    alloc: Global,
    account: &AccountNumber,
    books: &TariffShelf,
    purse: &Purse,
) -> Result<Vec<SessionGroup>, ReadFault>
    requires tables { HasTables (state S.Store tx.old.conn.now) }
    requires rules { HasRules (state S.Store tx.old.conn.now) }
    ensures same_reference { tx.new.conn.ghost_name ≡ tx.old.conn.ghost_name }
    ensures reads { ReadsWithin
        (λ trees xs. AreLiveGroups (shelf_names books.now) (rows_in trees account.now) xs.items)
        (state S.Store tx.old.conn.now) (state S.Store tx.new.conn.now) result }
{
    let rows = read_open_rows_within(tx, alloc, account)?;
    groups_of(alloc, books, purse.buckets(), &rows)
}

/// The open sessions of an account, with what they have of rating groups. Where no session is open,
/// nothing more is asked.
fn read_sessions_within<S: Alter>(
    tx: &mut Transaction<'_, S>,
    alloc: Global,
    account: &AccountNumber,
    books: &TariffShelf,
    purse: &Purse,
) -> Result<OpenSessions, ReadFault>
    requires tables { HasTables (state S.Store tx.old.conn.now) }
    requires rules { HasRules (state S.Store tx.old.conn.now) }
    ensures same_reference { tx.new.conn.ghost_name ≡ tx.old.conn.ghost_name }
    ensures reads { ReadsWithin (λ trees x. AreOpenSessions (shelf_names books.now)
        (rows_in trees account.now) x.sessions.items x.groups.items)
        (state S.Store tx.old.conn.now) (state S.Store tx.new.conn.now) result }
{
    let sessions = read_sessions_open_within(tx, alloc, account)?;
    if is_none(&sessions) {
        return Ok(OpenSessions {
            sessions,
            groups: Vec::new(alloc),
        });
    }
    let groups = read_groups_within(tx, alloc, account, books, purse)?;
    Ok(OpenSessions { sessions, groups })
}

/// What may still change of an account, whatever the moment.
fn read_live_within<S: Alter>(
    tx: &mut Transaction<'_, S>,
    alloc: Global,
    account: &AccountNumber,
    names: &TariffShelf,
) -> Result<LiveRows, ReadFault>
    requires tables { HasTables (state S.Store tx.old.conn.now) }
    requires rules { HasRules (state S.Store tx.old.conn.now) }
    ensures same_reference { tx.new.conn.ghost_name ≡ tx.old.conn.ghost_name }
    ensures reads { ReadsWithin (λ trees x. AreLiveRows (shelf_names names.now)
        (rows_in trees account.now) x.purse x.sessions.items x.groups.items)
        (state S.Store tx.old.conn.now) (state S.Store tx.new.conn.now) result }
{
    let purse = read_purse_within(tx, alloc, account)?;
    let OpenSessions { sessions, groups } = read_sessions_within(
        tx, alloc, account, names, &purse,
    )?;
    Ok(LiveRows {
        purse,
        sessions,
        groups,
    })
}

/// What may still change of the account of this number but its counters, as it is read; None where
/// there is no account.
fn read_rows_within<S: Alter>(
    tx: &mut Transaction<'_, S>,
    alloc: Global,
    account: &AccountNumber,
    names: &TariffShelf,
) -> Result<Option<ReadRows>, ReadFault>
    requires tables { HasTables (state S.Store tx.old.conn.now) }
    requires rules { HasRules (state S.Store tx.old.conn.now) }
    ensures same_reference { tx.new.conn.ghost_name ≡ tx.old.conn.ghost_name }
    ensures reads { ReadsWithin
        (λ trees o. IsReadUncounted (shelf_names names.now) (rows_in trees account.now) o)
        (state S.Store tx.old.conn.now) (state S.Store tx.new.conn.now) result }
{
    let Some(head) = read_account_within(tx, account)? else {
        return Ok(None);
    };
    let rows = read_live_within(tx, alloc, account, names)?;
    Ok(Some(ReadRows {
        head,
        rows,
        counters: Vec::new(alloc),
    }))
}

/// The account of this number with all of it that may still change by time alone, so without its
/// counters; None where there is no account. The periods of reservations have the names of a book.
///
/// # Errors
/// `Rules` where the rows are no account's; else a fault of the store, or lack of memory. Then
/// nothing is committed.
// rule: database-sweep
pub(crate) fn read_uncounted_within<S: Alter>(
    tx: &mut Transaction<'_, S>,
    alloc: Global,
    account: &AccountNumber,
    names: &TariffShelf,
) -> Result<Option<StoredAccount>, ReadFault>
    requires tables { HasTables (state S.Store tx.old.conn.now) }
    requires rules { HasRules (state S.Store tx.old.conn.now) }
    ensures same_reference { tx.new.conn.ghost_name ≡ tx.old.conn.ghost_name }
    ensures reads { ReadsWithin
        (λ trees o. IsLiveUncounted (shelf_names names.now) (rows_in trees account.now) o)
        (state S.Store tx.old.conn.now) (state S.Store tx.new.conn.now) result }
{
    let read = read_rows_within(tx, alloc, account, names)?;
    live_account_of(alloc, read)
}
