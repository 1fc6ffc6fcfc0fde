//! The charges of an account, read a page at a time.

ghost use Rattle.std.specs.Prelude.{◌≡◌, min, IfOk};
ghost use Rattle.keepers.specs.Pages.{IsPage};
ghost use Rattle.sql_keeper.specs.Asks.{Asks};
ghost use Rattle.sql_keeper.specs.ChargePages.{AreTold, end_of_page, last_number};
ghost use Rattle.sql_keeper.specs.Content.{charge_of};
ghost use Rattle.sql_keeper.specs.LiveGroups.{Gathers};
ghost use Rattle.sql_rows.specs.Content.{rows_in};
ghost use Rattle.sql_rows.specs.Lists.{NumbersRise, is_row_within};
ghost use Rattle.sql_tables.specs.Statements.{HasIdleTables, Reads};
ghost use Rattle.sqlite.specs.Held.{state};

use crate::faults::counted;
use crate::keeper::SqlKeeper;
use crate::paid_charges::cover_all;
use crate::still_open::still_open;
use identifiers::AccountNumber;
use keepers::{ChargePage, ChargePages, ChargeSource, ChargeVisitor, StoreFault, show_pages};
use ledger::ChargeRow;
use sql_rows::{HeadColumns, read_account, read_charges_within, read_covered_within};
use sql_tables::ReadFault;
use sqlite::{Alter, Connection};
use std::alloc::Global;
use units::Moment;

/// The number of an account's last charge; 0 where it has none. A next number that no charge can
/// have is out of the rules.
fn last_number(head: &Option<HeadColumns>) -> Result<u32, ReadFault>
    ensures { IfOk result (λ n. n ≡ last_number head.now) }
{
    let Some(head) = head else {
        return Ok(0);
    };
    u32::try_from(head.next_charge.saturating_sub(1)).map_err(|_| ReadFault::Rules)
}

/// The number up to which a page goes that begins beyond this one.
fn end_of_page(after: u32) -> u32
    ensures { result ≡ end_of_page after }
{
    after.saturating_add(256)
}

/// The lesser of two numbers.
fn lesser(one: u32, other: u32) -> u32
    ensures { result ≡ min one other }
{
    one.min(other)
}

fn read_last_number<S: Alter>(
    conn: &mut Connection<S>,
    account: &AccountNumber,
) -> Result<u32, ReadFault>
    requires idle { HasIdleTables (state S.Store conn.old) }
    ensures { Reads (λ trees n. n ≡ last_number (rows_in trees account.now).head)
        (state S.Store conn.old) (state S.Store conn.new) result }
{
    let head = read_account(conn, account)?;
    last_number(&head)
}

/// The charges of an account beyond a number and up to another, in the order of their numbers, with
/// the blocks that were covered.
fn read_told_within<S: Alter>(
    conn: &mut Connection<S>,
    alloc: Global,
    account: &AccountNumber,
    after: u32,
    last: u32,
) -> Result<Vec<ChargeRow>, ReadFault>
    requires idle { HasIdleTables (state S.Store conn.old) }
    ensures reads { Gathers (λ trees rows.
        AreTold (is_row_within after last) (rows_in trees account.now) rows.items)
        (state S.Store conn.old) (state S.Store conn.new) result }
    ensures order { IfOk result (λ rows. NumbersRise rows.items) }
{
    let mut rows = read_charges_within(conn, alloc, account, after, last)?;
    let covered = read_covered_within(conn, alloc, account, after, last)?;
    cover_all(&mut rows, &covered);
    Ok(rows)
}

/// The charges of an account beyond this number, as many as a page has.
fn read_page<S: Alter>(
    conn: &mut Connection<S>,
    alloc: Global,
    account: &AccountNumber,
    after: u32,
) -> Result<ChargePage, ReadFault>
    requires idle { HasIdleTables (state S.Store conn.old) }
    ensures { Gathers (λ trees page.
        IsPage (λ n. charge_of n (rows_in trees account.now)) after page)
        (state S.Store conn.old) (state S.Store conn.new) result }
{
    let number = read_last_number(conn, account)?;
    let last = end_of_page(after);
    let up_to = lesser(last, number);
    let rows = read_told_within(conn, alloc, account, after, up_to)?;
    let is_last = number <= last;
    Ok(ChargePage {
        rows,
        last,
        is_last,
    })
}

fn ask_for_page<S: Alter>(
    conn: &mut Connection<S>,
    alloc: Global,
    account: &AccountNumber,
    after: u32,
) -> Result<ChargePage, ReadFault>
    requires idle { HasIdleTables (state S.Store conn.old) }
    ensures { Asks (λ trees page.
        IsPage (λ n. charge_of n (rows_in trees account.now)) after page)
        (state S.Store conn.old) (state S.Store conn.new) result }
{
    still_open(conn)?;
    read_page(conn, alloc, account, after)
}

/// A page goes over 256 numbers. Each is read outside any transaction.
impl<S: Alter> ChargePages for SqlKeeper<S> {
    ghost use Rattle.sql_keeper.specs.ChargePages.{none_first};

    ghost numbered = { λ k a. none_first _ _ };

    fn page(&mut self, account: &AccountNumber, after: u32) -> Result<ChargePage, StoreFault> {
        let read = ask_for_page(&mut self.connection, self.alloc, account, after);
        counted(&mut self.failures, read)
    }
}

impl<S: Alter> ChargeSource for SqlKeeper<S> {
    fn each<V: ChargeVisitor>(
        &mut self,
        account: &AccountNumber,
        from: Moment,
        until: Moment,
        visitor: &mut V,
    ) -> Result<(), StoreFault> {
        show_pages(self, account, from, until, visitor)
    }
}
