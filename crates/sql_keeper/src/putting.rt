//! The rows of a change, put one after another.

ghost use Rattle.std.specs.Prelude.{◌≡◌, option_map};
ghost use Rattle.commands.specs.Keys.{key_of};
ghost use Rattle.sql_tables.specs.Statements.{AttemptsOver, HasTables, HasRules, IsInside};
ghost use Rattle.sql_rows.specs.Content.{tables_content};
ghost use Rattle.sql_rows.specs.Each.{with_sessions};
ghost use Rattle.sql_rows.specs.Makes.{Makes, MakesIfOpen};
ghost use Rattle.sql_rows.specs.Texts.{kept_of};
ghost use Rattle.sql_keeper.specs.Content.{shelf_names};
ghost use Rattle.sql_keeper.specs.Numbers.{LacksCharges, LacksThen, WasSo};
ghost use Rattle.sql_keeper.specs.Writes.{head_columns_of, with_change_put, with_kept};
ghost use Rattle.sql_keeper.specs.Writes.{with_changed_rows, with_moment_put, with_money};
ghost use Rattle.sql_keeper.specs.Writes.{with_named, with_texts};
ghost use Rattle.sqlite.specs.Held.{state};

use crate::counted_buckets::put_counted_over;
use crate::held_groups::put_groups_of;
use crate::kept_rows::KeptRows;
use crate::paid_charges::put_paid;
use crate::seen::SeenAccount;
use crate::voucher_puts::put_redeemed;
use commands::{Content, KeyRef};
use identifiers::AccountNumber;
use keepers::{Change, KeptAnswer, NamedRows};
use reserving::{EarlierRows, Session};
use shelves::TariffShelf;
use sql_rows::{
    HeadColumns, KeptTexts, add_sessions, put_account, put_answer, put_counters, put_last_moment,
    put_sessions,
};
use sqlite::{Alter, Error, Transaction};
use units::Moment;

/// What is known of the tables before a change is written.
#[derive(Drop)]
pub(crate) struct Known<'a> {
    /// Whether nothing is there of the groups that are named, nor of their sessions.
    pub are_new: bool,
    /// What was seen of an account.
    pub seen: &'a Option<SeenAccount>,
    /// The rows that are kept of an account.
    pub kept: &'a Option<KeptRows>,
    /// Whether the moment of the change is there already.
    pub is_there: bool,
}

/// What is kept of an account once, as it was loaded.
pub(crate) fn head_of(rows: &EarlierRows) -> HeadColumns
    ensures { result ≡ head_columns_of rows.now }
{
    let rows = rows.rows();
    HeadColumns {
        barred: rows.barred,
        as_of: rows.as_of,
        next_bucket: rows.next_bucket,
        next_charge: rows.next_charge,
    }
}

/// What a change leaves of an account once.
pub(crate) fn head_named(rows: &NamedRows) -> HeadColumns
    ensures { result ≡ head_columns_of rows.now }
{
    HeadColumns {
        barred: rows.is_barred(),
        as_of: rows.as_of(),
        next_bucket: rows.next_bucket(),
        next_charge: rows.next_charge(),
    }
}

/// Puts an account, and its buckets and counters that are named.
fn put_named_money<S: Alter>(
    tx: &mut Transaction<'_, S>,
    account: &AccountNumber,
    kept: &Option<KeptRows>,
    rows: &NamedRows,
) -> Result<(), Error>
    requires tables { HasTables (state S.Store tx.old.conn.now) }
    ensures { AttemptsOver S.Store (Makes (with_money account.now kept.now rows.now))
        tx.old.conn tx.new.conn result }
{
    let head = head_named(rows);
    put_account(tx, account, &head)?;
    put_counted_over(tx, account, kept, rows.buckets())?;
    put_counters(tx, account, rows.counters())
}

/// Puts the sessions of an account that are named, or adds them where none of them was there.
fn put_sessions_of<S: Alter>(
    tx: &mut Transaction<'_, S>,
    account: &AccountNumber,
    are_new: bool,
    rows: &[Session],
) -> Result<(), Error>
    requires open { IsInside (state S.Store tx.old.conn.now) }
    requires tables { HasTables (state S.Store tx.old.conn.now) }
    ensures { AttemptsOver S.Store (MakesIfOpen (with_sessions account.now rows.now))
        tx.old.conn tx.new.conn result }
{
    match are_new {
        true => add_sessions(tx, account, rows),
        false => put_sessions(tx, account, rows),
    }
}

/// Puts an account and its rows that are named.
fn put_named<S: Alter>(
    tx: &mut Transaction<'_, S>,
    account: &AccountNumber,
    books: &TariffShelf,
    known: &Known<'_>,
    rows: &NamedRows,
) -> Result<(), Error>
    requires tables { HasTables (state S.Store tx.old.conn.now) }
    ensures { AttemptsOver S.Store
        (Makes (with_named account.now (shelf_names books.now) known.now rows.now))
        tx.old.conn tx.new.conn result }
{
    put_named_money(tx, account, known.kept, rows)?;
    put_sessions_of(tx, account, known.are_new, rows.sessions())?;
    put_groups_of(tx, account, books, known.are_new, known.seen, rows.groups())
}

/// Puts the texts that are kept of a command under its key.
fn put_texts<S: Alter>(
    tx: &mut Transaction<'_, S>,
    account: &AccountNumber,
    content: &Content,
    texts: &KeptTexts,
) -> Result<(), Error>
    requires tables { HasTables (state S.Store tx.old.conn.now) }
    ensures { AttemptsOver S.Store
        (Makes (with_texts account.now (key_of content.now) (kept_of texts.now)))
        tx.old.conn tx.new.conn result }
{
    match content.key() {
        KeyRef::Request { session, number } => {
            put_answer(tx, account, 1, session.as_str(), number, texts)
        }
        KeyRef::Reference(reference) => put_answer(tx, account, 2, reference.as_str(), 0, texts),
    }
}

/// Puts what is kept of a command, if anything is.
fn put_kept<S: Alter>(
    tx: &mut Transaction<'_, S>,
    account: &AccountNumber,
    kept: &Option<KeptAnswer>,
    texts: &Option<KeptTexts>,
) -> Result<(), Error>
    requires open { IsInside (state S.Store tx.old.conn.now) }
    requires tables { HasTables (state S.Store tx.old.conn.now) }
    ensures { AttemptsOver S.Store (MakesIfOpen
        (with_kept account.now kept.now (option_map kept_of texts.now)))
        tx.old.conn tx.new.conn result }
{
    match kept {
        None => Ok(()),
        Some(kept) => match texts {
            None => Ok(()),
            Some(texts) => put_texts(tx, account, &kept.content, texts),
        },
    }
}

/// Puts an account's rows that a change names, and its charges, none of which is there before.
fn put_rows<S: Alter>(
    tx: &mut Transaction<'_, S>,
    books: &TariffShelf,
    known: &Known<'_>,
    change: &Change,
) -> Result<(), Error>
    requires tables { HasTables (state S.Store tx.old.conn.now) }
    ensures over { AttemptsOver S.Store
        (Makes (with_changed_rows (shelf_names books.now) known.now change.now))
        tx.old.conn tx.new.conn result }
    ensures free { WasSo (λ trees. LacksCharges change.now.number
        (with_named change.now.number (shelf_names books.now) known.now change.now.rows
        (tables_content trees)) change.now.charges.items)
        (state S.Store tx.old.conn.now) (state S.Store tx.new.conn.now) result }
{
    put_named(tx, &change.number, books, known, &change.rows)?;
    put_paid(tx, &change.number, &change.charges)
}

/// Puts the moment of the last accepted command, where what is kept once is there. Where that
/// moment is kept already nothing is written, so that the engine doesn't write the row again
/// either, which has the text of the book.
// rule: database-reads.held
pub(crate) fn put_moment<S: Alter>(
    tx: &mut Transaction<'_, S>,
    moment: Moment,
    is_there: bool,
) -> Result<(), Error>
    requires open { IsInside (state S.Store tx.old.conn.now) }
    requires tables { HasTables (state S.Store tx.old.conn.now) }
    requires rules { HasRules (state S.Store tx.old.conn.now) }
    ensures { AttemptsOver S.Store (MakesIfOpen (with_moment_put is_there moment))
        tx.old.conn tx.new.conn result }
{
    if is_there {
        return Ok(());
    }
    put_last_moment(tx, moment)
}

/// Puts all that a change names: the moment unless it is there already, the account and its rows,
/// the charges, the texts of what is kept, and the voucher that is redeemed. Where nothing was
/// there of its sessions and groups, these are added, and nothing of them is removed; nor is it
/// where what was seen of them stays, and what a bucket counts isn't written where that is kept.
///
/// # Errors
/// The first error of a row, as where a charge of one of the numbers is there. Then nothing is
/// committed.
pub(crate) fn put_change<S: Alter>(
    tx: &mut Transaction<'_, S>,
    books: &TariffShelf,
    known: &Known<'_>,
    change: &Change,
    texts: &Option<KeptTexts>,
) -> Result<(), Error>
    requires open { IsInside (state S.Store tx.old.conn.now) }
    requires tables { HasTables (state S.Store tx.old.conn.now) }
    requires rules { HasRules (state S.Store tx.old.conn.now) }
    ensures over { AttemptsOver S.Store (Makes
        (with_change_put (shelf_names books.now) known.now change.now
        (option_map kept_of texts.now)))
        tx.old.conn tx.new.conn result }
    ensures free { WasSo (λ trees.
        LacksThen (shelf_names books.now) known.now change.now (tables_content trees))
        (state S.Store tx.old.conn.now) (state S.Store tx.new.conn.now) result }
{
    put_moment(tx, change.moment, known.is_there)?;
    put_rows(tx, books, known, change)?;
    put_kept(tx, &change.number, &change.kept, texts)?;
    put_redeemed(tx, &change.redeemed)
}
