//! What a session has of rating groups, written with what is held there.

ghost use Rattle.std.specs.Prelude.{◌≡◌, option_map};
ghost use Rattle.reserving.specs.Sessions.{holds_in};
ghost use Rattle.sql_tables.specs.Statements.{AttemptsOver, HasTables, IsInside};
ghost use Rattle.sql_rows.specs.Content.{with_group_row, with_rows};
ghost use Rattle.sql_rows.specs.Each.{with_holds};
ghost use Rattle.sql_rows.specs.Makes.{Makes, MakesIfOpen};
ghost use Rattle.sql_rows.specs.Texts.{names_put};
ghost use Rattle.sql_keeper.specs.Content.{names_numbered, shelf_names};
ghost use Rattle.sql_keeper.specs.Writes.{columns_of, name_at, names_at, names_held};
ghost use Rattle.sql_keeper.specs.Writes.{with_book_of, with_group_over, with_groups};
ghost use Rattle.sql_keeper.specs.Writes.{with_groups_over, with_groups_put};
ghost use Rattle.sql_keeper.specs.Writes.{with_held_group, with_kept_group};
ghost use Rattle.sql_keeper.specs.Writes.{with_new_book, with_new_group, with_new_groups};
ghost use Rattle.sqlite.specs.Held.{state};

use crate::seen::{SeenAccount, is_kept};
use calendar::Period;
use identifiers::AccountNumber;
use ledger::Terms;
use reserving::SessionGroup;
use shelves::TariffShelf;
use sql_rows::{
    PutNames, add_group, put_grant_book, put_group, put_holds, remove_grant_book, remove_holds,
};
use sqlite::{Alter, Error, Transaction};

/// The name of a period in the book of a number; the empty text for one that it doesn't have, or
/// where there is no such book.
fn name_of(books: &TariffShelf, number: u8, period: Period) -> &str
    ensures { result.now ≡ name_at (names_numbered (shelf_names books.now) number) period }
{
    let Some(book) = books.book(number) else {
        return "";
    };
    match book.period_name(period) {
        Some(name) => name,
        None => "",
    }
}

/// The names of the periods of a reservation in its book.
fn names_of(books: &TariffShelf, terms: Terms) -> PutNames<'_>
    ensures { names_put result ≡
        names_at (names_numbered (shelf_names books.now) terms.book) terms.periods }
{
    let Terms { book, periods } = terms;
    PutNames {
        before: name_of(books, book, periods.before),
        after: name_of(books, book, periods.after),
    }
}

/// The names of the periods of a group's reservation in its book; None where it has none.
fn names_in<'a>(books: &'a TariffShelf, row: &SessionGroup) -> Option<PutNames<'a>>
    ensures { option_map names_put result ≡
        option_map (names_held (shelf_names books.now)) row.now.reservation }
{
    match &row.reservation {
        None => None,
        Some(reservation) => Some(names_of(books, reservation.terms)),
    }
}

/// Puts what a session has of a rating group, but what is held there.
fn put_columns<S: Alter>(
    tx: &mut Transaction<'_, S>,
    account: &AccountNumber,
    books: &TariffShelf,
    row: &SessionGroup,
) -> Result<(), Error>
    requires tables { HasTables (state S.Store tx.old.conn.now) }
    ensures { AttemptsOver S.Store (Makes (with_rows account.now
        (with_group_row row.now.session row.now.group (columns_of (shelf_names books.now)
        row.now))))
        tx.old.conn tx.new.conn result }
{
    let names = names_in(books, row);
    put_group(tx, account, &row.session, row.group, row.used, names)
}

/// Puts the number of the book that a session's reservation in a rating group goes by; there is
/// none where it has no reservation.
fn put_number<S: Alter>(
    tx: &mut Transaction<'_, S>,
    account: &AccountNumber,
    row: &SessionGroup,
) -> Result<(), Error>
    requires tables { HasTables (state S.Store tx.old.conn.now) }
    ensures { AttemptsOver S.Store (Makes (with_rows account.now
        (with_book_of row.now.session row.now.group row.now.reservation)))
        tx.old.conn tx.new.conn result }
{
    match &row.reservation {
        None => remove_grant_book(tx, account, &row.session, row.group),
        Some(reservation) => {
            let number = u32::from(reservation.terms.book);
            put_grant_book(tx, account, &row.session, row.group, number)
        }
    }
}

/// Puts what a session's reservation in a rating group holds.
fn put_held<S: Alter>(
    tx: &mut Transaction<'_, S>,
    account: &AccountNumber,
    row: &SessionGroup,
) -> Result<(), Error>
    requires open { IsInside (state S.Store tx.old.conn.now) }
    requires tables { HasTables (state S.Store tx.old.conn.now) }
    ensures { AttemptsOver S.Store (MakesIfOpen
        (with_holds account.now row.now.session row.now.group (holds_in row.now.reservation)))
        tx.old.conn tx.new.conn result }
{
    match &row.reservation {
        None => Ok(()),
        Some(reservation) => {
            let holds = reservation.holds.as_slice();
            put_holds(tx, account, &row.session, row.group, holds)
        }
    }
}

/// Puts what a session has of a rating group, the number of its reservation's book, and what its
/// reservation holds in the place of what was held there.
fn put_held_group<S: Alter>(
    tx: &mut Transaction<'_, S>,
    account: &AccountNumber,
    books: &TariffShelf,
    row: &SessionGroup,
) -> Result<(), Error>
    requires tables { HasTables (state S.Store tx.old.conn.now) }
    ensures { AttemptsOver S.Store
        (Makes (with_held_group account.now (shelf_names books.now) row.now))
        tx.old.conn tx.new.conn result }
{
    put_columns(tx, account, books, row)?;
    put_number(tx, account, row)?;
    remove_holds(tx, account, &row.session, row.group)?;
    put_held(tx, account, row)
}

/// Puts each of what sessions have of rating groups, with what is held there.
pub(crate) fn put_groups<S: Alter>(
    tx: &mut Transaction<'_, S>,
    account: &AccountNumber,
    books: &TariffShelf,
    rows: &[SessionGroup],
) -> Result<(), Error>
    requires open { IsInside (state S.Store tx.old.conn.now) }
    requires tables { HasTables (state S.Store tx.old.conn.now) }
    ensures { AttemptsOver S.Store
        (MakesIfOpen (with_groups account.now (shelf_names books.now) rows.now))
        tx.old.conn tx.new.conn result }
{
    'rows: for row in rows {
        put_held_group(tx, account, books, row)?;
    }
    Ok(())
}

/// Puts the number of the book that the reservation of a new group goes by, where it has one.
fn put_new_number<S: Alter>(
    tx: &mut Transaction<'_, S>,
    account: &AccountNumber,
    row: &SessionGroup,
) -> Result<(), Error>
    requires open { IsInside (state S.Store tx.old.conn.now) }
    requires tables { HasTables (state S.Store tx.old.conn.now) }
    ensures { AttemptsOver S.Store (MakesIfOpen
        (with_new_book account.now row.now.session row.now.group row.now.reservation))
        tx.old.conn tx.new.conn result }
{
    match &row.reservation {
        None => Ok(()),
        Some(reservation) => {
            let book = u32::from(reservation.terms.book);
            put_grant_book(tx, account, &row.session, row.group, book)
        }
    }
}

/// Puts what a session has of a rating group of which nothing was there, but what is held there.
fn add_columns<S: Alter>(
    tx: &mut Transaction<'_, S>,
    account: &AccountNumber,
    books: &TariffShelf,
    row: &SessionGroup,
) -> Result<(), Error>
    requires tables { HasTables (state S.Store tx.old.conn.now) }
    ensures { AttemptsOver S.Store (Makes (with_rows account.now
        (with_group_row row.now.session row.now.group (columns_of (shelf_names books.now)
        row.now))))
        tx.old.conn tx.new.conn result }
{
    let names = names_in(books, row);
    add_group(tx, account, &row.session, row.group, row.used, names)
}

/// Puts what a session has of a rating group of which nothing was there, with what its reservation
/// holds.
fn put_new_group<S: Alter>(
    tx: &mut Transaction<'_, S>,
    account: &AccountNumber,
    books: &TariffShelf,
    row: &SessionGroup,
) -> Result<(), Error>
    requires tables { HasTables (state S.Store tx.old.conn.now) }
    ensures { AttemptsOver S.Store
        (Makes (with_new_group account.now (shelf_names books.now) row.now))
        tx.old.conn tx.new.conn result }
{
    add_columns(tx, account, books, row)?;
    put_new_number(tx, account, row)?;
    put_held(tx, account, row)
}

/// Puts each of these groups, of which nothing was there.
fn put_new_groups<S: Alter>(
    tx: &mut Transaction<'_, S>,
    account: &AccountNumber,
    books: &TariffShelf,
    rows: &[SessionGroup],
) -> Result<(), Error>
    requires open { IsInside (state S.Store tx.old.conn.now) }
    requires tables { HasTables (state S.Store tx.old.conn.now) }
    ensures { AttemptsOver S.Store
        (MakesIfOpen (with_new_groups account.now (shelf_names books.now) rows.now))
        tx.old.conn tx.new.conn result }
{
    'rows: for row in rows {
        put_new_group(tx, account, books, row)?;
    }
    Ok(())
}

/// Puts what a session has of a rating group whose reservation was seen: the number of its book and
/// what it holds of stay.
fn put_kept_group<S: Alter>(
    tx: &mut Transaction<'_, S>,
    account: &AccountNumber,
    books: &TariffShelf,
    row: &SessionGroup,
) -> Result<(), Error>
    requires tables { HasTables (state S.Store tx.old.conn.now) }
    ensures { AttemptsOver S.Store
        (Makes (with_kept_group account.now (shelf_names books.now) row.now))
        tx.old.conn tx.new.conn result }
{
    put_columns(tx, account, books, row)?;
    put_held(tx, account, row)
}

/// Puts what a session has of a rating group. Where its reservation was seen, only what may differ
/// is put.
fn put_group_over<S: Alter>(
    tx: &mut Transaction<'_, S>,
    account: &AccountNumber,
    books: &TariffShelf,
    seen: &Option<SeenAccount>,
    row: &SessionGroup,
) -> Result<(), Error>
    requires tables { HasTables (state S.Store tx.old.conn.now) }
    ensures { AttemptsOver S.Store
        (Makes (with_group_over account.now (shelf_names books.now) seen.now row.now))
        tx.old.conn tx.new.conn result }
{
    if is_kept(seen, account, row) {
        put_kept_group(tx, account, books, row)
    } else {
        put_held_group(tx, account, books, row)
    }
}

/// Puts each of these groups.
fn put_groups_over<S: Alter>(
    tx: &mut Transaction<'_, S>,
    account: &AccountNumber,
    books: &TariffShelf,
    seen: &Option<SeenAccount>,
    rows: &[SessionGroup],
) -> Result<(), Error>
    requires open { IsInside (state S.Store tx.old.conn.now) }
    requires tables { HasTables (state S.Store tx.old.conn.now) }
    ensures { AttemptsOver S.Store
        (MakesIfOpen (with_groups_over account.now (shelf_names books.now) seen.now rows.now))
        tx.old.conn tx.new.conn result }
{
    'rows: for row in rows {
        put_group_over(tx, account, books, seen, row)?;
    }
    Ok(())
}

/// Puts each of what sessions have of rating groups, with what is held there, in the place of what
/// was there; where nothing was, nothing is removed, nor where what was seen stays.
pub(crate) fn put_groups_of<S: Alter>(
    tx: &mut Transaction<'_, S>,
    account: &AccountNumber,
    books: &TariffShelf,
    are_new: bool,
    seen: &Option<SeenAccount>,
    rows: &[SessionGroup],
) -> Result<(), Error>
    requires open { IsInside (state S.Store tx.old.conn.now) }
    requires tables { HasTables (state S.Store tx.old.conn.now) }
    ensures { AttemptsOver S.Store (MakesIfOpen
        (with_groups_put account.now (shelf_names books.now) are_new seen.now rows.now))
        tx.old.conn tx.new.conn result }
{
    match are_new {
        true => put_new_groups(tx, account, books, rows),
        false => put_groups_over(tx, account, books, seen, rows),
    }
}
