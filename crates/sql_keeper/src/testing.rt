//! What is tested of a change before it is written, so that what is written reads as the change.

ghost use Rattle.std.specs.Prelude.{◌≡◌, IsTrue, nat_le, nat_lt};
ghost use Rattle.std.specs.List.{list_all};
ghost use Rattle.buckets.specs.Row.{BucketRow};
ghost use Rattle.reserving.specs.Sessions.{session_in};
ghost use Rattle.reserving.specs.Left.{is_open_row};
ghost use Rattle.sql_keeper.specs.Content.{names_numbered, shelf_names};
ghost use Rattle.sql_keeper.specs.Numbers.{first_bucket};
ghost use Rattle.sql_keeper.specs.RuledRows.{is_ruled_change};
ghost use Rattle.sql_keeper.specs.Tests.{AreNumbered, AreWritable, IsPeriodNamed, IsWritable};
ghost use Rattle.sql_keeper.specs.Tests.{MayStand};
ghost use Rattle.sql_keeper.specs.Tests.{are_buckets_numbered, first_moment, first_number};

use crate::among::session_among;
use crate::bucket_numbers::first_bucket;
use crate::ruling::is_ruled_change;
use buckets::Bucket;
use calendar::Period;
use identifiers::SessionId;
use keepers::{Change, NamedRows};
use ledger::{ChargeRow, Terms};
use reserving::{Reservation, Session, SessionGroup, SessionState};
use shelves::TariffShelf;
use sql_rows::HeadColumns;
use units::Moment;

/// The number of the next charge of an account; of the first one where it isn't there yet.
fn first_number(head: &Option<HeadColumns>) -> u64
    ensures { result ≡ first_number head.now }
{
    match head {
        None => 1,
        Some(head) => head.next_charge.max(1),
    }
}

/// The moment of an account; the first of all where it isn't there yet.
fn first_moment(head: &Option<HeadColumns>) -> u64
    ensures { result ≡ first_moment head.now }
{
    match head {
        None => 0,
        Some(head) => head.as_of.seconds(),
    }
}

/// Whether an account's moment doesn't fall.
fn is_later(before: u64, as_of: Moment) -> bool
    ensures { result ≡ nat_le before as_of }
{
    before <= as_of.seconds()
}

/// Whether charges are numbered one after another, from one number to below the next.
pub(crate) fn are_numbered(charges: &[ChargeRow], from: u64, next: u64) -> bool
    ensures told { IsTrue result → AreNumbered from next charges.now }
    ensures back { AreNumbered from next charges.now → IsTrue result }
{
    let mut number = from;
    'charges: for charge in charges {
        if number != charge.number as u64 {
            return false;
        }
        number = charge.number as u64 + 1;
    }
    number == next
}

fn is_below(bucket: &Bucket, next: u64) -> bool
    ensures { result ≡ nat_lt bucket.now.number next }
{
    (bucket.number() as u64) < next
}

fn are_below(buckets: &[Bucket], next: u64) -> bool
    ensures { result ≡ list_all (λ (b : BucketRow). nat_lt b.number next) buckets.now }
{
    buckets.iter().all(|bucket| is_below(bucket, next))
}

/// Whether the number of an account's next bucket doesn't fall below this one, and each bucket that
/// is named is below it.
fn are_buckets_numbered(rows: &NamedRows, first: u64) -> bool
    ensures { result ≡ are_buckets_numbered first rows.now }
{
    first <= rows.next_bucket() && are_below(rows.buckets(), rows.next_bucket())
}

/// Whether a session is open by the rows.
fn is_open(sessions: &[Session], id: &SessionId) -> bool
    ensures { result ≡ is_open_row (session_in id.now sessions.now) }
{
    match session_among(sessions, id) {
        None => false,
        Some(session) => session.state == SessionState::Open,
    }
}

/// Whether the book of a number has a name for a period.
#[tactic(auto, using(crate::proofs::commits::Writable::no_book))]
fn is_named(books: &TariffShelf, number: u8, period: Period) -> bool
    ensures told { IsTrue result →
        IsPeriodNamed (names_numbered (shelf_names books.now) number) period }
    ensures back { IsPeriodNamed (names_numbered (shelf_names books.now) number) period →
        IsTrue result }
{
    match books.book(number) {
        None => false,
        Some(book) => book.period_name(period).is_some(),
    }
}

/// Whether a reservation reads as it is written: it is in an open session, and its periods have
/// names in its book, which is on the shelf.
fn is_writable(
    books: &TariffShelf,
    sessions: &[Session],
    session: &SessionId,
    reservation: &Reservation,
) -> bool
    ensures told { IsTrue result →
        IsWritable (shelf_names books.now) sessions.now session.now reservation.now }
    ensures back { IsWritable (shelf_names books.now) sessions.now session.now reservation.now →
        IsTrue result }
{
    // For the prover alone: looking at the value makes known here what its type keeps.
    let _holds = reservation.holds.as_slice();
    let Terms { book, periods } = reservation.terms;
    is_open(sessions, session)
        && is_named(books, book, periods.before)
        && is_named(books, book, periods.after)
}

fn may_stand(books: &TariffShelf, sessions: &[Session], row: &SessionGroup) -> bool
    ensures told { IsTrue result →
        MayStand (shelf_names books.now) sessions.now row.now.session row.now.reservation }
    ensures back { MayStand (shelf_names books.now) sessions.now row.now.session
        row.now.reservation → IsTrue result }
{
    match &row.reservation {
        None => true,
        Some(reservation) => is_writable(books, sessions, &row.session, reservation),
    }
}

/// Whether each reservation is in an open session, with periods that have names in its book.
pub(crate) fn are_writable(
    books: &TariffShelf,
    sessions: &[Session],
    groups: &[SessionGroup],
) -> bool
    ensures told { IsTrue result → AreWritable (shelf_names books.now) sessions.now groups.now }
    ensures back { AreWritable (shelf_names books.now) sessions.now groups.now → IsTrue result }
{
    'groups: for group in groups {
        if !may_stand(books, sessions, group) {
            return false;
        }
    }
    true
}

/// Whether a change may be written over an account with this head, so that what is written reads as
/// the change: each reservation is in an open session that is named with it, with periods that
/// have names in its book, the charges are numbered on, the buckets are below the next number, which
/// doesn't fall, nor does the account's moment, and each row is in the rules of its table. It may
/// exactly then.
// rule: database-writes.writable
pub fn may_be_written(books: &TariffShelf, head: &Option<HeadColumns>, change: &Change) -> bool
    ensures reservations { IsTrue result →
        AreWritable (shelf_names books.now) change.now.rows.sessions change.now.rows.groups }
    ensures numbers { IsTrue result →
        AreNumbered (first_number head.now) change.now.rows.next_charge change.now.charges.items }
    ensures buckets { IsTrue result →
        IsTrue (are_buckets_numbered (first_bucket head.now) change.now.rows) }
    ensures moment { IsTrue result →
        IsTrue (nat_le (first_moment head.now) change.now.rows.as_of) }
    ensures rules { IsTrue result →
        IsTrue (is_ruled_change (shelf_names books.now) change.now) }
    ensures back { AreWritable (shelf_names books.now) change.now.rows.sessions
        change.now.rows.groups →
        AreNumbered (first_number head.now) change.now.rows.next_charge change.now.charges.items →
        IsTrue (are_buckets_numbered (first_bucket head.now) change.now.rows) →
        IsTrue (nat_le (first_moment head.now) change.now.rows.as_of) →
        IsTrue (is_ruled_change (shelf_names books.now) change.now) → IsTrue result }
{
    let rows = &change.rows;
    are_writable(books, rows.sessions(), rows.groups())
        && are_numbered(&change.charges, first_number(head), rows.next_charge())
        && are_buckets_numbered(rows, first_bucket(head))
        && is_later(first_moment(head), rows.as_of())
        && is_ruled_change(books, change)
}
