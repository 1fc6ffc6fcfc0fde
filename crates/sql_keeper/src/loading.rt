//! An account with all of it that may still change, loaded to be changed or to be read.

ghost use Rattle.std.specs.Prelude.{◌≡◌, IfOk};
ghost use Rattle.keepers.specs.Change.{IsLoad, IsView};
ghost use Rattle.reserving.specs.Stored.{priced};
ghost use Rattle.sql_keeper.specs.Asks.{Asks};
ghost use Rattle.sql_keeper.specs.Content.{shelf_names};
ghost use Rattle.sql_keeper.specs.KeptRows.{AreKept, Keeps};
ghost use Rattle.sql_keeper.specs.LiveGroups.{Gathers};
ghost use Rattle.sql_keeper.specs.LiveRows.{IsAccountOf, IsLoadOf, IsLoadStored};
ghost use Rattle.sql_keeper.specs.Seen.{AreSeen};
ghost use Rattle.sql_rows.specs.Content.{rows_in};
ghost use Rattle.sql_tables.specs.Statements.{HasIdleTables};
ghost use Rattle.sqlite.specs.Held.{state};
ghost use Rattle.sqlite_trees.specs.Tree.{Trees};
ghost use Rattle.sql_keeper.specs.Calls.{AsksTables};

use crate::faults::counted;
use crate::keeper::SqlKeeper;
use crate::kept_rows::{KeptRows, kept_after};
use crate::live_rows::read_live_account;
use crate::seen::{SeenAccount, seen_in, seen_later};
use crate::still_open::still_open;
use identifiers::AccountNumber;
use keepers::{Loaded, StoreFault};
use reserving::{Account, LoadFault, StoredAccount};
use shelves::TariffShelf;
use sql_tables::ReadFault;
use sqlite::{Alter, Connection};
use std::alloc::Global;
use units::Moment;

/// A copy of the rows as an account that the shelf prices, for a command at the moment. A
/// reservation that has no prices there is out of the rules.
fn priced_copy<'b>(
    rows: &StoredAccount,
    shelf: &'b TariffShelf,
    moment: Moment,
) -> Result<Account<'b>, ReadFault>
    ensures { IfOk result (λ account. account ≡ priced shelf.now rows.now) }
{
    match rows.load(shelf, moment) {
        Ok(account) => Ok(account),
        Err(LoadFault::Memory) => Err(ReadFault::Memory),
        Err(LoadFault::OtherBook) => Err(ReadFault::Rules),
    }
}

/// The account of the rows, where there are rows, with the rows once more.
fn loaded_of<'b>(
    rows: Option<StoredAccount>,
    shelf: &'b TariffShelf,
    number: &AccountNumber,
    moment: Moment,
) -> Result<Option<Loaded<'b>>, ReadFault>
    ensures { IfOk result (IsLoadOf shelf.now number.now rows) }
{
    let Some(stored) = rows else {
        return Ok(None);
    };
    let number = number.clone()?;
    let account = priced_copy(&stored, shelf, moment)?;
    let before = stored.into_earlier();
    Ok(Some(Loaded {
        number,
        account,
        before,
    }))
}

/// What was loaded without the rows once more, to be read.
fn account_of<'b>(
    loaded: Result<Option<Loaded<'b>>, StoreFault>,
) -> Result<Option<Account<'b>>, StoreFault>
    ensures { IsAccountOf loaded.entry result }
{
    let Some(loaded) = loaded? else {
        return Ok(None);
    };
    let Loaded {
        number: _,
        account,
        before: _,
    } = loaded;
    Ok(Some(account))
}

fn load_of<'b, S: Alter>(
    conn: &mut Connection<S>,
    alloc: Global,
    names: &TariffShelf,
    kept: &Option<KeptRows>,
    seen: &mut Option<SeenAccount>,
    shelf: &'b TariffShelf,
    account: &AccountNumber,
    moment: Moment,
) -> Result<Option<Loaded<'b>>, ReadFault>
    requires idle { HasIdleTables (state S.Store conn.old) }
    requires kept { AreKept (shelf_names names.now) kept.now (state S.Store conn.old) }
    requires seen { AreSeen seen.old (state S.Store conn.old) }
    ensures reads { Gathers (λ trees found. IsLoadStored (shelf_names names.now) shelf.now moment
        account.now (rows_in trees account.now) found)
        (state S.Store conn.old) (state S.Store conn.new) result }
    ensures seen { AreSeen seen.new (state S.Store conn.new) }
{
    let rows = read_live_account(conn, alloc, account, names, kept, seen, shelf, moment)?;
    loaded_of(rows, shelf, account, moment)
}

fn ask_with_kept<'b, S: Alter>(
    conn: &mut Connection<S>,
    alloc: Global,
    names: &TariffShelf,
    kept: &Option<KeptRows>,
    seen: &mut Option<SeenAccount>,
    shelf: &'b TariffShelf,
    account: &AccountNumber,
    moment: Moment,
) -> Result<Option<Loaded<'b>>, ReadFault>
    requires idle { HasIdleTables (state S.Store conn.old) }
    requires kept { AreKept (shelf_names names.now) kept.now (state S.Store conn.old) }
    requires seen { AreSeen seen.old (state S.Store conn.old) }
    ensures asks { Asks (λ trees found. IsLoadStored (shelf_names names.now) shelf.now moment
        account.now (rows_in trees account.now) found)
        (state S.Store conn.old) (state S.Store conn.new) result }
    ensures seen { AreSeen seen.new (state S.Store conn.new) }
{
    still_open(conn)?;
    load_of(conn, alloc, names, kept, seen, shelf, account, moment)
}

/// The account, with a copy of the rows that are kept and of what was seen of it once. Where these
/// make none, they are forgotten, and all of it is read from the tables. A fault forgets what was
/// seen.
fn ask_to_load<'b, S: Alter>(
    conn: &mut Connection<S>,
    alloc: Global,
    names: &TariffShelf,
    kept: &mut Option<KeptRows>,
    seen: &mut Option<SeenAccount>,
    shelf: &'b TariffShelf,
    account: &AccountNumber,
    moment: Moment,
) -> Result<Option<Loaded<'b>>, ReadFault>
    requires idle { HasIdleTables (state S.Store conn.old) }
    requires kept { AreKept (shelf_names names.now) kept.old (state S.Store conn.old) }
    requires seen { AreSeen seen.old (state S.Store conn.old) }
    ensures asks { Asks (λ trees found. IsLoadStored (shelf_names names.now) shelf.now moment
        account.now (rows_in trees account.now) found)
        (state S.Store conn.old) (state S.Store conn.new) result }
    ensures kept { (trees : Trees) → Keeps (shelf_names names.now) kept.old trees →
        Keeps (shelf_names names.now) kept.new trees }
    ensures seen { AreSeen seen.new (state S.Store conn.new) }
{
    match ask_with_kept(conn, alloc, names, kept, seen, shelf, account, moment) {
        Ok(loaded) => Ok(loaded),
        Err(ReadFault::Rules) => {
            *kept = None;
            *seen = None;
            ask_with_kept(conn, alloc, names, kept, seen, shelf, account, moment)
        }
        Err(fault) => {
            *seen = None;
            Err(fault)
        }
    }
}

impl<S: Alter> SqlKeeper<S> {
    /// What may still change of the account of this number at the moment, priced by the shelf; None
    /// where there is no account.
    ///
    /// # Errors
    /// A fault of the store, which is counted, as are rows that are no account's, or a reservation
    /// that has no prices on the shelf; lack of memory.
    // rule: database-loads.load
    pub fn load<'b>(
        &mut self,
        shelf: &'b TariffShelf,
        account: &AccountNumber,
        moment: Moment,
    ) -> Result<Option<Loaded<'b>>, StoreFault>
        ensures { AsksTables S.Store
            (λ t found. IsLoad shelf.now moment account.now (t.rows account.now) found)
            self.old self.new result }
    {
        let read = ask_to_load(
            &mut self.connection,
            self.alloc,
            &self.shelf,
            &mut self.kept,
            &mut self.seen,
            shelf,
            account,
            moment,
        );
        let newer = seen_in(&read);
        let older = self.seen.take();
        self.seen = seen_later(older, newer);
        let kept = self.kept.take();
        self.kept = kept_after(self.alloc, kept, &read);
        counted(&mut self.failures, read)
    }

    /// What may still change of the account of this number at the moment, to be read; None where
    /// there is no account.
    ///
    /// # Errors
    /// As of `load`.
    // rule: database-loads.load
    pub fn view<'b>(
        &mut self,
        shelf: &'b TariffShelf,
        account: &AccountNumber,
        moment: Moment,
    ) -> Result<Option<Account<'b>>, StoreFault>
        ensures { AsksTables S.Store (λ t found. IsView shelf.now moment (t.rows account.now) found)
            self.old self.new result }
    {
        let loaded = self.load(shelf, account, moment);
        account_of(loaded)
    }
}
