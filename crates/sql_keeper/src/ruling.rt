//! Whether the rows of a change are in the rules of their tables, so that an open finds them there.
//! What a type keeps isn't tested: it is in its rule.

ghost use Rattle.std.specs.Prelude.{◌≡◌, length, nat_le, true};
ghost use Rattle.std.specs.List.{list_all};
ghost use Rattle.sql_keeper.specs.Content.{shelf_names};
ghost use Rattle.sql_keeper.specs.RuledRows.{are_ruled_rows, is_ruled_addition, is_ruled_change};
ghost use Rattle.sql_keeper.specs.RuledRows.{are_timely_charges, are_timely_rows};
ghost use Rattle.sql_keeper.specs.RuledRows.{are_timely_sessions, is_timely_change};
ghost use Rattle.sql_keeper.specs.RuledRows.{is_ruled_charge, is_ruled_group, is_ruled_swept};
ghost use Rattle.sql_keeper.specs.RuledRows.{is_ruled_hold, is_ruled_kept};
ghost use Rattle.sql_keeper.specs.RuledRows.{is_ruled_redeemed, is_ruled_reservation};
ghost use Rattle.sql_keeper.specs.Writes.{head_columns_of};
ghost use Rattle.sql_rules.specs.Columns.{is_end, is_moment, is_in_bounds};
ghost use Rattle.sql_rules.specs.Ruled.{is_account, is_bucket, is_charge, is_counter, is_session};

use crate::swept_rows::SweptAccount;
use buckets::{Bucket, HeldAmount};
use commands::KeyRef;
use identifiers::{AccountNumber, VoucherCode};
use keepers::{Change, KeptAnswer, NamedRows, Redeemed};
use ledger::ChargeRow;
use reserving::{Counter, Reservation, Session, SessionGroup};
use shelves::TariffShelf;
use sql_rules::MOST_RATED;
use units::{END_OF_NUMBERS, MOST_BLOCKS, MOST_COUNTED, MOST_MONEY, MOST_USED, Moment, NO_END};
use voucher_rules::VoucherTerms;

// ---- values

pub(crate) fn is_moment(moment: Moment) -> bool
    ensures { result ≡ is_moment moment }
{
    moment.seconds() < NO_END
}

/// Whether something that starts ends after its start.
fn is_end(starts: Moment, ends: Moment) -> bool
    ensures { result ≡ is_end starts ends }
{
    starts.seconds() < ends.seconds() && ends.seconds() <= NO_END
}

fn is_within(number: u64, low: u64, high: u64) -> bool
    ensures { result ≡ is_in_bounds low high number }
{
    low <= number && number <= high
}

// ---- the rows of an account

#[tactic(auto, using(crate::proofs::commits::Typed::flag_within))]
fn is_account(account: &AccountNumber, rows: &NamedRows) -> bool
    ensures { result ≡ is_account account.now (head_columns_of rows.now) }
{
    // For the prover alone: looking at the value makes known here what its type keeps.
    let _text = account.as_str();
    is_moment(rows.as_of())
        && is_within(rows.next_bucket(), 1, END_OF_NUMBERS)
        && is_within(rows.next_charge(), 1, END_OF_NUMBERS)
}

#[tactic(auto, using(crate::proofs::commits::Typed::scope_within))]
fn is_bucket(bucket: &Bucket) -> bool
    ensures { result ≡ is_bucket bucket.now }
{
    // For the prover alone: looking at the value makes known here what its type keeps.
    let _scope = bucket.scope();
    1 <= bucket.number()
        && is_moment(bucket.from())
        && is_end(bucket.from(), bucket.until())
        && bucket.credited() <= MOST_MONEY
}

fn is_counter(counter: &Counter) -> bool
    ensures { result ≡ is_counter counter.now }
{
    // For the prover alone: looking at the values makes known here what their types keep.
    let (_group, _cycle) = (counter.group, counter.cycle);
    counter.blocks <= MOST_COUNTED
}

#[tactic(auto, using(crate::proofs::commits::Typed::state_within))]
fn is_session(session: &Session) -> bool
    ensures { result ≡ is_session session.now }
{
    // For the prover alone: looking at the values makes known here what their types keep.
    let (_text, _number) = (session.id.as_str(), session.last_number);
    is_moment(session.touched)
}

fn is_hold(hold: &HeldAmount) -> bool
    ensures { result ≡ is_ruled_hold hold.now }
{
    is_within(hold.amount, 1, MOST_MONEY)
}

fn are_holds(holds: &[HeldAmount]) -> bool
    ensures { result ≡ list_all is_ruled_hold holds.now }
{
    holds.iter().all(|hold| is_hold(hold))
}

/// Whether a book of this number is on the shelf.
fn is_on_shelf(books: &TariffShelf, number: u8) -> bool
    ensures { result ≡ is_in_bounds 1 (length (shelf_names books.now)) number }
{
    is_within(u64::from(number), 1, u64::from(books.count()))
}

fn is_reservation(books: &TariffShelf, reservation: &Option<Reservation>) -> bool
    ensures { result ≡ is_ruled_reservation (shelf_names books.now) reservation.now }
{
    match reservation {
        None => true,
        Some(reservation) => {
            is_on_shelf(books, reservation.terms.book) && are_holds(reservation.holds.as_slice())
        }
    }
}

fn is_group(books: &TariffShelf, group: &SessionGroup) -> bool
    ensures { result ≡ is_ruled_group (shelf_names books.now) group.now }
{
    // For the prover alone: looking at the value makes known here what its type keeps.
    let _group = group.group;
    group.used <= MOST_USED && is_reservation(books, &group.reservation)
}

fn are_buckets(buckets: &[Bucket]) -> bool
    ensures { result ≡ list_all is_bucket buckets.now }
{
    buckets.iter().all(|bucket| is_bucket(bucket))
}

fn are_counters(counters: &[Counter]) -> bool
    ensures { result ≡ list_all is_counter counters.now }
{
    counters.iter().all(|counter| is_counter(counter))
}

fn are_sessions(sessions: &[Session]) -> bool
    ensures { result ≡ list_all is_session sessions.now }
{
    sessions.iter().all(|session| is_session(session))
}

fn are_groups(books: &TariffShelf, groups: &[SessionGroup]) -> bool
    ensures { result ≡ list_all (is_ruled_group (shelf_names books.now)) groups.now }
{
    groups.iter().all(|group| is_group(books, group))
}

/// Whether the rows of an account are in the rules of their tables.
fn are_rows(books: &TariffShelf, account: &AccountNumber, rows: &NamedRows) -> bool
    ensures { result ≡ are_ruled_rows (shelf_names books.now) account.now rows.now }
{
    is_account(account, rows)
        && are_buckets(rows.buckets())
        && are_counters(rows.counters())
        && are_sessions(rows.sessions())
        && are_groups(books, rows.groups())
}

// ---- beside them

fn is_charge(charge: &ChargeRow) -> bool
    ensures { result ≡ is_charge charge.now }
{
    // For the prover alone: looking at the values makes known here what their types keep.
    let (_text, _group) = (charge.session.as_str(), charge.group);
    1 <= charge.number
        && is_moment(charge.moment)
        && charge.blocks.0 <= MOST_BLOCKS
        && charge.rated.0 <= MOST_RATED as u128
}

fn is_ruled_charge(charge: &ChargeRow) -> bool
    ensures { result ≡ is_ruled_charge charge.now }
{
    is_charge(charge) && charge.covered.0 <= MOST_BLOCKS
}

fn are_charges(charges: &[ChargeRow]) -> bool
    ensures { result ≡ list_all is_ruled_charge charges.now }
{
    charges.iter().all(|charge| is_ruled_charge(charge))
}

// ---- moments

fn is_by(earlier: Moment, moment: Moment) -> bool
    ensures { result ≡ nat_le earlier moment }
{
    earlier.seconds() <= moment.seconds()
}

fn are_timely_sessions(moment: Moment, sessions: &[Session]) -> bool
    ensures { result ≡ are_timely_sessions moment sessions.now }
{
    sessions
        .iter()
        .all(|session| is_by(session.touched, moment))
}

fn are_timely_charges(moment: Moment, charges: &[ChargeRow]) -> bool
    ensures { result ≡ are_timely_charges moment charges.now }
{
    charges.iter().all(|charge| is_by(charge.moment, moment))
}

/// For the prover alone: the types of a redeemed voucher keep the rules of its table.
#[tactic(auto, using(crate::proofs::commits::Typed::days_within, crate::proofs::commits::Typed::scope_within))]
fn look_at_redeemed(redeemed: &Option<Redeemed>)
    ensures { is_ruled_redeemed redeemed.now ≡ true }
{
    if let Some(redeemed) = redeemed {
        let _text = redeemed.code.as_str();
        let terms = redeemed.voucher.terms;
        let (_amount, _days, _scope) = (terms.amount(), terms.days(), terms.scope());
    }
}

/// For the prover alone: the types of a key keep the rules of the answer under it.
fn look_at_kept(kept: &Option<KeptAnswer>)
    ensures { is_ruled_kept kept.now ≡ true }
{
    if let Some(kept) = kept {
        match kept.content.key() {
            KeyRef::Request { session, .. } => {
                let _text = session.as_str();
            }
            KeyRef::Reference(reference) => {
                let _text = reference.as_str();
            }
        }
    }
}

/// Whether an account's moment isn't after this one, nor a session's after the account's.
fn are_timely_rows(moment: Moment, rows: &NamedRows) -> bool
    ensures { result ≡ are_timely_rows moment rows.now }
{
    is_by(rows.as_of(), moment) && are_timely_sessions(rows.as_of(), rows.sessions())
}

/// Whether no row that a change writes is of a moment after its account's, nor that after its own.
// rule: rows-ruled.timely
fn is_timely_change(change: &Change) -> bool
    ensures { result ≡ is_timely_change change.now }
{
    are_timely_rows(change.moment, &change.rows)
        && are_timely_charges(change.rows.as_of(), &change.charges)
}

/// Whether the rows that a change writes, but for its texts, are in the rules of their tables,
/// where the tariff books are those of the shelf.
// rule: rows-ruled.ruled-change
pub(crate) fn is_ruled_change(books: &TariffShelf, change: &Change) -> bool
    ensures { result ≡ is_ruled_change (shelf_names books.now) change.now }
{
    look_at_redeemed(&change.redeemed);
    look_at_kept(&change.kept);
    is_moment(change.moment)
        && are_rows(books, &change.number, &change.rows)
        && are_charges(&change.charges)
        && is_timely_change(change)
}

/// Whether a voucher that is added at a moment is in the rules of its table, and the moment too.
// rule: rows-ruled.ruled-change
#[tactic(auto, using(crate::proofs::commits::Typed::days_within, crate::proofs::commits::Typed::scope_within))]
pub(crate) fn is_ruled_addition(code: &VoucherCode, terms: VoucherTerms, moment: Moment) -> bool
    ensures { result ≡ is_ruled_addition code.now terms moment }
{
    // For the prover alone: looking at the values makes known here what their types keep.
    let _text = code.as_str();
    let (_amount, _days, _scope) = (terms.amount(), terms.days(), terms.scope());
    is_moment(moment)
}

// ---- a sweep

/// Whether the rows of an account as a sweep leaves them are in the rules of their tables, and none
/// is of a moment after the account's, nor that after the sweep's.
// rule: rows-ruled.ruled-change
pub(crate) fn is_ruled_swept(books: &TariffShelf, moment: Moment, account: &SweptAccount) -> bool
    ensures { result ≡ is_ruled_swept (shelf_names books.now) moment account.now }
{
    are_rows(books, &account.number, &account.rows) && are_timely_rows(moment, &account.rows)
}
