//! What may still change of an account, read from the tables.

ghost use Rattle.std.specs.Prelude.{◌≡◌, ℕ, ◌++◌, IfOk, map};
ghost use Rattle.sql_keeper.specs.Content.{Names, shelf_names};
ghost use Rattle.sql_keeper.specs.Kinds.{counted_live};
ghost use Rattle.sql_keeper.specs.KeptRows.{AreKept, AreOf};
ghost use Rattle.sql_keeper.specs.LiveGroups.{Gathers};
ghost use Rattle.sql_keeper.specs.Repeating.{IsFirst, IsFirstOf, begins_again, has_cycles};
ghost use Rattle.sql_keeper.specs.Repeating.{repeating, repeats_in};
ghost use Rattle.sql_keeper.specs.LiveRows.{account_with, AreLiveBuckets};
ghost use Rattle.sql_keeper.specs.LiveRows.{AreLiveRows, IsReadAccount, IsLiveAccount};
ghost use Rattle.sql_keeper.specs.Seen.{AreSeen};
ghost use Rattle.sql_keeper.specs.SeenFirst.{AreCyclesAt};
ghost use Rattle.reserving.specs.Restored.{in_key_order, FindsSame};
ghost use Rattle.sql_rows.specs.Content.{TableRows, rows_in};
ghost use Rattle.sql_tables.specs.Statements.{HasIdleTables};
ghost use Rattle.sqlite.specs.Held.{state};
ghost use Rattle.shelves.specs.Shelves.{Shelf};

use crate::counted_buckets::counted_from;
use crate::kept_rows::{KeptRows, copy_of_kept};
use crate::live_groups::{OpenSessions, read_open_sessions};
use crate::seen::SeenAccount;
use crate::seen_first::{AskedCycles, find_first};
use buckets::{Bucket, Purse};
use calendar::Cycle;
use identifiers::AccountNumber;
use reserving::{Counter, GivenRows, Session, SessionGroup, StoredAccount};
use shelves::TariffShelf;
use sql_rows::{HeadColumns, HeadCycles, LiveBucket, read_buckets_live};
use sql_tables::ReadFault;
use sqlite::{Alter, Connection};
use std::alloc::Global;
use tariffs::{Tariff, TariffBook};
use units::Moment;

/// What may still change of an account, whatever the moment.
#[derive(Drop)]
pub(crate) struct LiveRows {
    /// The buckets that aren't dead.
    pub purse: Purse,
    /// The open sessions.
    pub sessions: Vec<Session>,
    /// What they have of rating groups.
    pub groups: Vec<SessionGroup>,
}

/// What may still change of an account at a moment, as it is read.
#[derive(Drop)]
pub(crate) struct ReadRows {
    /// The account itself.
    pub head: HeadColumns,
    /// What may still change whatever the moment.
    pub rows: LiveRows,
    /// The counters of the cycles at the moment.
    pub counters: Vec<Counter>,
}

/// The purse of these buckets. They are out of the rules where they aren't in the order of
/// their use.
pub(crate) fn purse_of(alloc: Global, buckets: Vec<Bucket>) -> Result<Purse, ReadFault>
    ensures { IfOk result (λ purse. purse ≡ buckets.items) }
{
    Purse::from_buckets(alloc, buckets)?.ok_or(ReadFault::Rules)
}

/// The purse of the buckets of these rows, with what each counts.
pub(crate) fn live_purse_of(alloc: Global, rows: &[LiveBucket]) -> Result<Purse, ReadFault>
    ensures { IfOk result (λ purse. purse ≡ map counted_live rows.now) }
{
    let buckets = counted_from(alloc, rows)?;
    purse_of(alloc, buckets)
}

/// The buckets of an account that aren't dead, with what they count.
fn read_purse<S: Alter>(
    conn: &mut Connection<S>,
    alloc: Global,
    account: &AccountNumber,
) -> Result<Purse, ReadFault>
    requires idle { HasIdleTables (state S.Store conn.old) }
    ensures { Gathers (λ trees purse. AreLiveBuckets (rows_in trees account.now) purse)
        (state S.Store conn.old) (state S.Store conn.new) result }
{
    let rows = read_buckets_live(conn, alloc, account)?;
    live_purse_of(alloc, &rows)
}

/// How often the counter of a rating group begins again: never for a group that the book doesn't
/// have.
fn repeats_of(book: &TariffBook, group: u32) -> Cycle
    ensures { result ≡ repeats_in book.now group }
{
    let Some(tariff) = book.tariff(group) else {
        return Cycle::None;
    };
    tariff.cycle()
}

/// Those of the groups whose counters begin again so often.
fn counters_repeating(counters: Vec<Counter>, book: &TariffBook, repeats: Cycle) -> Vec<Counter>
    ensures { result.items ≡ repeating book.now repeats counters.items }
{
    let mut rows = counters;
    rows.retain(|row| repeats_of(book, row.group) == repeats);
    rows
}

/// Whether the counter of a tariff's rating group begins again.
fn begins_again(tariff: &Tariff) -> bool
    ensures { result ≡ begins_again tariff.now }
{
    tariff.cycle() != Cycle::None
}

/// Whether a book has a rating group whose counter begins again.
fn has_cycles(book: &TariffBook) -> bool
    ensures { result ≡ has_cycles book.now }
{
    book.tariffs().iter().any(begins_again)
}

/// All of them in one list.
fn joined_counters(
    never: Vec<Counter>,
    daily: Vec<Counter>,
    monthly: Vec<Counter>,
) -> Result<Vec<Counter>, ReadFault>
    ensures { IfOk result (λ xs. xs.items ≡ (never.items ++ daily.items) ++ monthly.items) }
{
    let mut all = never;
    let mut second = daily;
    let mut third = monthly;
    all.append(&mut second)?;
    all.append(&mut third)?;
    Ok(all)
}

/// What is kept of an account once, with its counters of the cycles at a moment.
#[derive(Drop)]
struct FirstRows {
    head: Option<HeadColumns>,
    counters: Vec<Counter>,
}

/// The head, and of the counters of the three cycles those of the groups that count by each.
fn first_rows(book: &TariffBook, read: HeadCycles) -> Result<FirstRows, ReadFault>
    ensures { IfOk result (IsFirstOf book.now read) }
{
    let HeadCycles {
        head,
        never,
        daily,
        monthly,
    } = read;
    let first = counters_repeating(never, book, Cycle::None);
    let second = counters_repeating(daily, book, Cycle::Day);
    let third = counters_repeating(monthly, book, Cycle::Month);
    let counters = joined_counters(first, second, third)?;
    Ok(FirstRows { head, counters })
}

/// The cycles at a moment whose counters a book has.
fn cycles_at(book: &TariffBook, moment: Moment) -> AskedCycles
    ensures { AreCyclesAt book.now moment result }
{
    let never = book.cycle_of(Cycle::None, moment);
    if !has_cycles(book) {
        return AskedCycles {
            never,
            day: never,
            month: never,
            has_dates: false,
        };
    }
    AskedCycles {
        never,
        day: book.cycle_of(Cycle::Day, moment),
        month: book.cycle_of(Cycle::Month, moment),
        has_dates: true,
    }
}

/// What is kept of an account once, with its counters of the cycles at a moment: as it was seen, or
/// by one selection.
fn read_first<S: Alter>(
    conn: &mut Connection<S>,
    alloc: Global,
    seen: &mut Option<SeenAccount>,
    account: &AccountNumber,
    book: &TariffBook,
    moment: Moment,
) -> Result<FirstRows, ReadFault>
    requires idle { HasIdleTables (state S.Store conn.old) }
    requires seen { AreSeen seen.old (state S.Store conn.old) }
    ensures reads { Gathers
        (λ trees x. IsFirst book.now moment (rows_in trees account.now) x.head x.counters.items)
        (state S.Store conn.old) (state S.Store conn.new) result }
    ensures seen { AreSeen seen.new (state S.Store conn.new) }
{
    let asked = cycles_at(book, moment);
    let read = find_first(conn, alloc, seen, account, asked)?;
    first_rows(book, read)
}

/// What may still change of an account, whatever the moment. The periods of reservations have the
/// names of the book.
fn read_live_rows<S: Alter>(
    conn: &mut Connection<S>,
    alloc: Global,
    account: &AccountNumber,
    names: &TariffShelf,
) -> Result<LiveRows, ReadFault>
    requires idle { HasIdleTables (state S.Store conn.old) }
    ensures { Gathers (λ trees x. AreLiveRows (shelf_names names.now) (rows_in trees account.now)
        x.purse x.sessions.items x.groups.items)
        (state S.Store conn.old) (state S.Store conn.new) result }
{
    let purse = read_purse(conn, alloc, account)?;
    let OpenSessions { sessions, groups } = read_open_sessions(
        conn, alloc, account, names, &purse,
    )?;
    Ok(LiveRows {
        purse,
        sessions,
        groups,
    })
}

/// What may still change of an account, whatever the moment: a copy of what is kept of it, or it is
/// read.
fn live_rows_of<S: Alter>(
    conn: &mut Connection<S>,
    alloc: Global,
    account: &AccountNumber,
    names: &TariffShelf,
    kept: &Option<KeptRows>,
) -> Result<LiveRows, ReadFault>
    requires idle { HasIdleTables (state S.Store conn.old) }
    requires kept { AreKept (shelf_names names.now) kept.now (state S.Store conn.old) }
    ensures { Gathers (λ trees. AreOf (shelf_names names.now) (rows_in trees account.now))
        (state S.Store conn.old) (state S.Store conn.new) result }
{
    match copy_of_kept(alloc, kept, account) {
        Some(rows) => Ok(rows),
        None => read_live_rows(conn, alloc, account, names),
    }
}

/// What may still change of the account of this number at a moment; None where there is no account.
fn read_rows_at<S: Alter>(
    conn: &mut Connection<S>,
    alloc: Global,
    account: &AccountNumber,
    names: &TariffShelf,
    kept: &Option<KeptRows>,
    seen: &mut Option<SeenAccount>,
    shelf: &TariffShelf,
    moment: Moment,
) -> Result<Option<ReadRows>, ReadFault>
    requires idle { HasIdleTables (state S.Store conn.old) }
    requires kept { AreKept (shelf_names names.now) kept.now (state S.Store conn.old) }
    requires seen { AreSeen seen.old (state S.Store conn.old) }
    ensures reads { Gathers (λ trees o. IsReadAccount (shelf_names names.now) shelf.now moment
        (rows_in trees account.now) o)
        (state S.Store conn.old) (state S.Store conn.new) result }
    ensures seen { AreSeen seen.new (state S.Store conn.new) }
{
    let book = shelf.book_at(moment);
    let FirstRows { head, counters } = read_first(conn, alloc, seen, account, book, moment)?;
    let Some(head) = head else {
        return Ok(None);
    };
    let rows = live_rows_of(conn, alloc, account, names, kept)?;
    Ok(Some(ReadRows {
        head,
        rows,
        counters,
    }))
}

/// The account of a head and these rows; rows that are no account's are out of the rules.
fn account_of(
    alloc: Global,
    head: &HeadColumns,
    rows: LiveRows,
    counters: Vec<Counter>,
) -> Result<StoredAccount, ReadFault>
    ensures rows { IfOk result (λ account. account
        ≡ in_key_order (account_with head.now rows counters.items)) }
    ensures found { IfOk result (FindsSame (account_with head.now rows counters.items)) }
{
    let given = GivenRows {
        as_of: head.as_of,
        barred: head.barred,
        purse: rows.purse,
        counters,
        sessions: rows.sessions,
        groups: rows.groups,
        next_bucket: head.next_bucket,
        next_charge: head.next_charge,
    };
    StoredAccount::from_rows(alloc, given).ok_or(ReadFault::Rules)
}

/// The account of what is read, where there is one.
pub(crate) fn live_account_of(
    alloc: Global,
    read: Option<ReadRows>,
) -> Result<Option<StoredAccount>, ReadFault>
    ensures { (names : Names) (shelf : Shelf) (t : ℕ) (rows : TableRows) →
        IsReadAccount names shelf t rows read → IfOk result (IsLiveAccount names shelf t rows) }
{
    let Some(read) = read else {
        return Ok(None);
    };
    let ReadRows {
        head,
        rows,
        counters,
    } = read;
    let account = account_of(alloc, &head, rows, counters)?;
    Ok(Some(account))
}

/// The account of this number with all of it that may still change at a moment; None where there
/// is no account. The periods of reservations have the names of a book, and counters the cycles of
/// the shelf.
///
/// # Errors
/// `Rules` where the rows are no account's; else a fault of the store, or lack of memory.
// rule: database-loads.live-account
pub(crate) fn read_live_account<S: Alter>(
    conn: &mut Connection<S>,
    alloc: Global,
    account: &AccountNumber,
    names: &TariffShelf,
    kept: &Option<KeptRows>,
    seen: &mut Option<SeenAccount>,
    shelf: &TariffShelf,
    moment: Moment,
) -> Result<Option<StoredAccount>, ReadFault>
    requires idle { HasIdleTables (state S.Store conn.old) }
    requires kept { AreKept (shelf_names names.now) kept.now (state S.Store conn.old) }
    requires seen { AreSeen seen.old (state S.Store conn.old) }
    ensures reads { Gathers (λ trees o. IsLiveAccount (shelf_names names.now) shelf.now moment
        (rows_in trees account.now) o)
        (state S.Store conn.old) (state S.Store conn.new) result }
    ensures seen { AreSeen seen.new (state S.Store conn.new) }
{
    let read = read_rows_at(conn, alloc, account, names, kept, seen, shelf, moment)?;
    live_account_of(alloc, read)
}
