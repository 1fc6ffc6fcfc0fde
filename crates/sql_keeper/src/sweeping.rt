//! A sweep in one transaction: each account at the moment, or nothing is changed, also over a stop.

ghost use Rattle.std.specs.Prelude.{◌≡◌, false, true, IfOk, OnOk};
ghost use Rattle.sql_rows.specs.Content.{tables_content};
ghost use Rattle.sql_rows.specs.Makes.{Makes};
ghost use Rattle.sql_rules.specs.Columns.{is_moment};
ghost use Rattle.sql_tables.specs.Statements.{AttemptsOver, HasTables, HasIdleTables, HasRules};
ghost use Rattle.sql_tables.specs.Statements.{IsInside};
ghost use Rattle.sql_keeper.specs.Content.{shelf_names};
ghost use Rattle.sql_keeper.specs.Commits.{CommitsStanding, CommitsWhole};
ghost use Rattle.sql_keeper.specs.Sweeps.{BecomesSwept, MakesSweep, SweepsOne, TransactsSweep};
ghost use Rattle.sql_keeper.specs.Seen.{IsUpTo};
ghost use Rattle.sql_keeper.specs.Sweeps.{with_swept};
ghost use Rattle.sqlite.specs.Held.{state};
ghost use Rattle.sqlite.specs.State.{HasCleanDisk};
ghost use Rattle.sql_keeper.specs.Calls.{SweepsAll};

use crate::counted_buckets::put_counted;
use crate::faults::counted;
use crate::held_groups::put_groups;
use crate::keeper::SqlKeeper;
use crate::last_moment::{is_not_before, last_after};
use crate::live_within::read_uncounted_within;
use crate::putting::head_named;
use crate::ruling::{is_moment, is_ruled_swept};
use crate::still_open::still_open;
use crate::swept_rows::{SweptAccount, swept_of};
use identifiers::AccountNumber;
use keepers::StoreFault;
use shelves::TariffShelf;
use sql_rows::{put_account, put_counters, put_meta, put_sessions, read_next_account};
use sql_tables::{LATEST, ReadFault};
use sqlite::{Alter, Connection, Error, Transaction};
use std::alloc::Global;
use units::Moment;

/// Puts what differs of an account, and at last what is kept of it once.
fn put_swept<S: Alter>(
    tx: &mut Transaction<'_, S>,
    names: &TariffShelf,
    account: &SweptAccount,
) -> Result<(), Error>
    requires open { IsInside (state S.Store tx.old.conn.now) }
    requires tables { HasTables (state S.Store tx.old.conn.now) }
    ensures over { AttemptsOver S.Store (Makes (with_swept (shelf_names names.now) account.now))
        tx.old.conn tx.new.conn result }
    ensures rules { OnOk result (HasRules (state S.Store tx.new.conn.now)) }
{
    put_counted(tx, &account.number, account.rows.buckets())?;
    put_counters(tx, &account.number, account.rows.counters())?;
    put_sessions(tx, &account.number, account.rows.sessions())?;
    put_groups(tx, &account.number, names, account.rows.groups())?;
    let head = head_named(&account.rows);
    put_account(tx, &account.number, &head)?;
    Ok(())
}

/// Brings an account to the moment: what may still change of it is read, and what differs is put.
// rule: database-sweep
fn sweep_account<S: Alter>(
    tx: &mut Transaction<'_, S>,
    alloc: Global,
    account: &AccountNumber,
    names: &TariffShelf,
    shelf: &TariffShelf,
    moment: Moment,
) -> Result<(), ReadFault>
    requires open { IsInside (state S.Store tx.old.conn.now) }
    requires tables { HasTables (state S.Store tx.old.conn.now) }
    requires rules { HasRules (state S.Store tx.old.conn.now) }
    ensures sweeps { AttemptsOver S.Store
        (SweepsOne (shelf_names names.now) shelf.now moment account.now)
        tx.old.conn tx.new.conn result }
    ensures rules { OnOk result (HasRules (state S.Store tx.new.conn.now)) }
{
    let rows = read_uncounted_within(tx, alloc, account, names)?;
    let swept = swept_of(alloc, account, rows, names, shelf, moment)?;
    if !is_ruled_swept(names, moment, &swept) {
        return Err(ReadFault::Rules);
    }
    put_swept(tx, names, &swept)?;
    Ok(())
}

/// Puts the moment, and brings one account after another to it, in the order of their numbers; how
/// many they are. What is in memory of all of them is the number of one.
// rule: database-sweep
fn sweep_each<S: Alter>(
    tx: &mut Transaction<'_, S>,
    alloc: Global,
    names: &TariffShelf,
    text: &str,
    shelf: &TariffShelf,
    moment: Moment,
) -> Result<u64, ReadFault>
    requires tables { HasTables (state S.Store tx.old.conn.now) }
    ensures over { AttemptsOver S.Store
        (MakesSweep (shelf_names names.now) text.now shelf.now moment)
        tx.old.conn tx.new.conn result }
    ensures count { HasCleanDisk (state S.Store tx.new.conn.now) →
        IfOk result (λ n. n ≡ (tables_content (state S.Store tx.old.conn.now).now.trees).count) }
{
    put_meta(tx, LATEST, text, moment)?;
    let mut last = None;
    'accounts: for count in 0..u64::MAX {
        let Some(account) = read_next_account(tx, alloc, last.as_ref())? else {
            return Ok(count);
        };
        sweep_account(tx, alloc, &account, names, shelf, moment)?;
        last = Some(account);
    }
    Err(ReadFault::Rules)
}

/// Makes a sweep in one transaction; of how many accounts.
fn write_sweep<S: Alter>(
    conn: &mut Connection<S>,
    alloc: Global,
    names: &TariffShelf,
    text: &str,
    shelf: &TariffShelf,
    moment: Moment,
) -> Result<u64, ReadFault>
    requires plain { conn.old.in_transaction ≡ false }
    requires idle { HasIdleTables (state S.Store conn.old) }
    ensures plain { conn.new.in_transaction ≡ false }
    ensures transacts { TransactsSweep (shelf_names names.now) text.now shelf.now moment
        (state S.Store conn.old) (state S.Store conn.new) result }
    ensures count { HasCleanDisk (state S.Store conn.new) →
        IfOk result (λ n. n ≡ (tables_content (state S.Store conn.old).now.trees).count) }
{
    let mut tx = conn.transaction();
    let count = sweep_each(&mut tx, alloc, names, text, shelf, moment)?;
    tx.commit()?;
    Ok(count)
}

/// Brings one account after another to the moment in one transaction; how many there are. The
/// tables become those of the sweep, or at a fault they are as before, and whatever a stop leaves
/// is one of the two.
// rule: database-sweep.sweeps-accounts
fn make_sweep<S: Alter>(
    conn: &mut Connection<S>,
    alloc: Global,
    names: &TariffShelf,
    text: &str,
    shelf: &TariffShelf,
    is_later: bool,
    moment: Moment,
) -> Result<u64, ReadFault>
    requires plain { conn.old.in_transaction ≡ false }
    requires idle { HasIdleTables (state S.Store conn.old) }
    requires later { is_later ≡ true → IsUpTo moment (state S.Store conn.old) }
    ensures plain { conn.new.in_transaction ≡ false }
    ensures commits { CommitsWhole (BecomesSwept (shelf_names names.now) text.now shelf.now moment)
        (state S.Store conn.old) (state S.Store conn.new) result }
    ensures count { HasCleanDisk (state S.Store conn.new) →
        IfOk result (λ n. n ≡ (tables_content (state S.Store conn.old).now.trees).count) }
{
    // For the prover alone: looking at the value makes known here what its type keeps.
    let _ranges = shelf.first();
    let _moment = moment.seconds();
    if !is_later {
        return Err(ReadFault::Rules);
    }
    if !is_moment(moment) {
        return Err(ReadFault::Rules);
    }
    write_sweep(conn, alloc, names, text, shelf, moment)
}

/// Makes a sweep as `make_sweep` does, if the connection can still be asked.
fn ask_to_sweep<S: Alter>(
    conn: &mut Connection<S>,
    alloc: Global,
    names: &TariffShelf,
    text: &str,
    shelf: &TariffShelf,
    is_later: bool,
    moment: Moment,
) -> Result<u64, ReadFault>
    requires plain { conn.old.in_transaction ≡ false }
    requires idle { HasIdleTables (state S.Store conn.old) }
    requires later { is_later ≡ true → IsUpTo moment (state S.Store conn.old) }
    ensures plain { conn.new.in_transaction ≡ false }
    ensures commits { CommitsStanding
        (BecomesSwept (shelf_names names.now) text.now shelf.now moment)
        (state S.Store conn.old) (state S.Store conn.new) result }
    ensures count { HasCleanDisk (state S.Store conn.new) →
        IfOk result (λ n. n ≡ (tables_content (state S.Store conn.old).now.trees).count) }
{
    still_open(conn)?;
    make_sweep(conn, alloc, names, text, shelf, is_later, moment)
}

impl<S: Alter> SqlKeeper<S> {
    /// Brings each account to the moment, in one transaction, and answers how many there are: of
    /// each what may still change is read, sessions whose supervision time is over end, what their
    /// reservations held is given up, and what is left of buckets that ended is expired. An account
    /// of a later moment stays. Of an account's rows those alone are written that differ. At a
    /// fault nothing has changed, and whatever a stop leaves is the rows before the sweep or with
    /// all of it.
    ///
    /// One account after another is found, read and written within the transaction, so that what is
    /// in memory doesn't grow with the accounts.
    ///
    /// # Errors
    /// Lack of memory; a fault of the store, which is counted, as are rows that are no account's or
    /// that may not be written, and a moment before the last one.
    // rule: database-sweep.sweeps-accounts
    pub fn sweep(&mut self, shelf: &TariffShelf, moment: Moment) -> Result<u64, StoreFault>
        ensures { SweepsAll S.Store shelf.now moment self.old self.new result }
    {
        let text = self.text.as_str();
        let (alloc, names) = (self.alloc, &self.shelf);
        let is_later = is_not_before(self.last, moment);
        let made = ask_to_sweep(
            &mut self.connection,
            alloc,
            names,
            text,
            shelf,
            is_later,
            moment,
        );
        self.seen = None;
        self.kept = None;
        self.last = last_after(&made, self.last, moment);
        counted(&mut self.failures, made)
    }
}
