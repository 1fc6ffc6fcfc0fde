//! What sessions have of rating groups, made of their rows and of what is held for them.

ghost use Rattle.std.specs.Prelude.{◌≡◌, ◌==◌, ◌&&◌, Some, IfOk, map, option_map};
ghost use Rattle.std.specs.List.{list_any};
ghost use Rattle.sql_keeper.specs.Content.{shelf_names};
ghost use Rattle.sql_keeper.specs.GroupRows.{AreGroupsOf, AreHoldsOf, ArePeriodsOf, AreTermsOf};
ghost use Rattle.sql_keeper.specs.GroupRows.{IsGroupOf, IsReservationOf, amount_of, are_held_of};
ghost use Rattle.sql_keeper.specs.GroupRows.{book_of, held_for, holds_along, is_held_of};
ghost use Rattle.sql_rows.specs.Texts.{DoOpenRowsRise, names_of, open_group_at};
ghost use Rattle.tariffs.specs.Names.{period_named};

use crate::own_rows::{held_for, number_of};
use buckets::{Bucket, HeldAmount, Holds};
use calendar::Period;
use ledger::Terms;
use rating::Periods;
use reserving::{Reservation, SessionGroup};
use shelves::TariffShelf;
use sql_rows::{HeldColumns, OpenGroup, OpenRows, PeriodTexts};
use sql_tables::ReadFault;
use std::alloc::Global;
use tariffs::TariffBook;

/// The period of a name; a name that the book doesn't have is out of the rules.
fn period_of(book: &TariffBook, name: &str) -> Result<Period, ReadFault>
    ensures { IfOk result (λ p. period_named book.now.periods name.now ≡ Some p) }
{
    book.period_named(name).ok_or(ReadFault::Rules)
}

fn periods_of(book: &TariffBook, names: &PeriodTexts) -> Result<Periods, ReadFault>
    ensures { IfOk result (λ p. ArePeriodsOf book.now.periods (names_of names.now) p) }
{
    let before = period_of(book, names.before.as_str())?;
    let after = period_of(book, names.after.as_str())?;
    Ok(Periods { before, after })
}

/// The number as one that a shelf may have.
fn small_number(number: Option<u32>) -> Result<u8, ReadFault>
    ensures { IfOk result (λ n. number ≡ Some n) }
{
    let number = number.ok_or(ReadFault::Rules)?;
    u8::try_from(number).map_err(|_| ReadFault::Rules)
}

/// The terms of a reservation of the book of this number, with these names of periods. Without a
/// number, or with one that the shelf doesn't have, it is out of the rules.
fn terms_of(
    books: &TariffShelf,
    number: Option<u32>,
    names: &PeriodTexts,
) -> Result<Terms, ReadFault>
    ensures { IfOk result (λ x. AreTermsOf (shelf_names books.now) number (names_of names.now) x) }
{
    let number = small_number(number)?;
    let book = books.book(number).ok_or(ReadFault::Rules)?;
    let periods = periods_of(book, names)?;
    Ok(Terms {
        book: number,
        periods,
    })
}

/// What is held of a bucket for a rating group, in micro-units; 0 where nothing is.
fn amount_of(held: &[HeldColumns], group: u32, bucket: u32) -> u64
    ensures { result ≡ amount_of group held.now bucket }
{
    held.iter()
        .find(|row| row.group == group && row.bucket == bucket)
        .map_or(0, |row| row.amount)
}

fn is_there(buckets: &[Bucket], number: u32) -> bool
    ensures { result ≡ list_any (λ b. b.number == number) buckets.now }
{
    buckets.iter().any(|bucket| bucket.number() == number)
}

/// Whether what is held is above 0, and of one of the buckets.
fn is_held_of(buckets: &[Bucket], row: &HeldColumns) -> bool
    ensures { result ≡ is_held_of buckets.now row.now }
{
    0 < row.amount && is_there(buckets, row.bucket)
}

/// Whether all that is held for a rating group is above 0, and of one of the buckets.
fn are_held_of(buckets: &[Bucket], group: u32, held: &[HeldColumns]) -> bool
    ensures { result ≡ are_held_of buckets.now group held.now }
{
    held.iter()
        .all(|row| row.group != group || is_held_of(buckets, row))
}

/// What is held for a rating group, in the order of the buckets.
fn holds_along(
    alloc: Global,
    buckets: &[Bucket],
    group: u32,
    held: &[HeldColumns],
) -> Result<Vec<HeldAmount>, ReadFault>
    ensures { IfOk result (λ holds. holds.items ≡ holds_along buckets.now group held.now) }
{
    let mut holds = Vec::new(alloc);
    'buckets: for bucket in buckets {
        let number = bucket.number();
        let amount = amount_of(held, group, number);
        if amount > 0 {
            let hold = HeldAmount {
                bucket: number,
                amount,
            };
            holds.push(hold)?;
        }
    }
    Ok(holds)
}

/// The holds of a rating group. What is held of a bucket that isn't there, or 0, is out of the
/// rules.
fn holds_of(
    alloc: Global,
    buckets: &[Bucket],
    group: u32,
    held: &[HeldColumns],
) -> Result<Holds, ReadFault>
    ensures { IfOk result (λ holds. AreHoldsOf buckets.now held.now group holds) }
{
    if !are_held_of(buckets, group, held) {
        return Err(ReadFault::Rules);
    }
    let items = holds_along(alloc, buckets, group, held)?;
    Holds::from_items(items).ok_or(ReadFault::Rules)
}

/// The reservation of a rating group, where it has names of periods.
fn reservation_of(
    alloc: Global,
    books: &TariffShelf,
    buckets: &[Bucket],
    row: &OpenGroup,
    read: &OpenRows,
) -> Result<Option<Reservation>, ReadFault>
    requires { DoOpenRowsRise read.now }
    ensures { IfOk result (λ o. IsReservationOf (shelf_names books.now) buckets.now
        (held_for row.now.session read.now.holds.items)
        (book_of row.now.session row.now.columns.group read.now.books.items)
        row.now.columns.group (option_map names_of row.now.columns.periods) o) }
{
    let Some(names) = &row.columns.periods else {
        return Ok(None);
    };
    let group = row.columns.group;
    let number = number_of(&read.books, &row.session, group);
    let terms = terms_of(books, number, names)?;
    let own = held_for(alloc, &row.session, &read.holds)?;
    let holds = holds_of(alloc, buckets, group, &own)?;
    Ok(Some(Reservation { terms, holds }))
}

fn group_of(
    alloc: Global,
    books: &TariffShelf,
    buckets: &[Bucket],
    row: &OpenGroup,
    read: &OpenRows,
) -> Result<SessionGroup, ReadFault>
    requires { DoOpenRowsRise read.now }
    ensures { IfOk result (λ x. IsGroupOf (shelf_names books.now) buckets.now read.now.holds.items
        read.now.books.items (open_group_at row.now) x) }
{
    let reservation = reservation_of(alloc, books, buckets, row, read)?;
    let session = row.session.clone()?;
    Ok(SessionGroup {
        session,
        group: row.columns.group,
        used: row.columns.used,
        reservation,
    })
}

/// What sessions have of rating groups, of each row in turn. What is held for a session that has no
/// row here, and the book of its reservation, are passed over.
// rule: database-loads.group-of
pub(crate) fn groups_of(
    alloc: Global,
    books: &TariffShelf,
    buckets: &[Bucket],
    read: &OpenRows,
) -> Result<Vec<SessionGroup>, ReadFault>
    requires { DoOpenRowsRise read.now }
    ensures { IfOk result (λ xs. AreGroupsOf (shelf_names books.now) buckets.now
        read.now.holds.items read.now.books.items (map open_group_at read.now.groups.items)
        xs.items) }
{
    let mut groups = Vec::new(alloc);
    'rows: for row in &read.groups {
        let group = group_of(alloc, books, buckets, row, read)?;
        groups.push(group)?;
    }
    Ok(groups)
}
