//! Rows that differ from those before. A row is mostly where it was, so that a cursor finds
//! the one with its key; a cursor that is elsewhere costs time alone.

ghost use Rattle.std.specs.Prelude.{◌≡◌, ◌<◌, not, length, get_or};
ghost use Rattle.std.specs.List.{list_any};
ghost use Rattle.std.specs.Cmp.Lexicographic.{pointwise};
ghost use Rattle.keepers.specs.Keyed.{same_bucket, same_counter, same_session, same_group};
ghost use Rattle.keepers.specs.Differing.{same_scope, equal_bucket, equal_counter, same_state};
ghost use Rattle.keepers.specs.Differing.{equal_session, equal_hold, equal_periods};
ghost use Rattle.keepers.specs.Differing.{same_kind, equal_terms};
ghost use Rattle.keepers.specs.Differing.{equal_reservation, equal_group};

use buckets::{Bucket, BucketKind, HeldAmount};
use ledger::Terms;
use rating::Periods;
use reserving::{Counter, EarlierRows, Reservation, Session, SessionGroup, SessionState};

/// Whether a bucket's row differs from all before, from this place on.
pub(crate) fn is_new_bucket(before: &EarlierRows, cursor: &mut usize, row: &Bucket) -> bool
    ensures { result ≡ not (list_any (equal_bucket row.now) before.now.buckets) }
{
    let rows = before.rows().purse.buckets();
    let place = *cursor;
    if place < rows.len() {
        let old = &rows[place];
        if equal_bucket(row, old) {
            *cursor = place + 1;
            return false;
        }
        if same_bucket(old, row) {
            *cursor = place + 1;
            return true;
        }
    }
    !any_bucket(rows, row)
}

/// Whether a counter's row differs from all before, from this place on.
pub(crate) fn is_new_counter(before: &EarlierRows, cursor: &mut usize, row: &Counter) -> bool
    ensures { result ≡ not (list_any (equal_counter row.now) before.now.counters) }
{
    let rows = before.rows().counters.as_slice();
    let place = *cursor;
    if place < rows.len() {
        let old = counter_at(rows, place);
        if equal_counter(row, old) {
            *cursor = place + 1;
            return false;
        }
        if same_counter(old, row) {
            *cursor = place + 1;
            return true;
        }
    }
    !any_counter(rows, row)
}

/// Whether a session's row differs from all before, from this place on.
pub(crate) fn is_new_session(before: &EarlierRows, cursor: &mut usize, row: &Session) -> bool
    ensures { result ≡ not (list_any (equal_session row.now) before.now.sessions) }
{
    let rows = before.rows().sessions.as_slice();
    let place = *cursor;
    if place < rows.len() {
        let old = &rows[place];
        if equal_session(row, old) {
            *cursor = place + 1;
            return false;
        }
        if same_session(old, row) {
            *cursor = place + 1;
            return true;
        }
    }
    !any_session(rows, row)
}

/// Whether what a session has of a group differs from all before, from this place on.
pub(crate) fn is_new_group(before: &EarlierRows, cursor: &mut usize, row: &SessionGroup) -> bool
    ensures { result ≡ not (list_any (equal_group row.now) before.now.groups) }
{
    let rows = before.rows().groups.as_slice();
    let place = *cursor;
    if place < rows.len() {
        let old = &rows[place];
        if equal_group(row, old) {
            *cursor = place + 1;
            return false;
        }
        if same_group(old, row) {
            *cursor = place + 1;
            return true;
        }
    }
    !any_group(rows, row)
}

fn counter_at(rows: &[Counter], place: usize) -> &Counter
    requires { place < length rows.now }
    ensures { result.now ≡ get_or rows.now place result.now }
{
    &rows[place]
}

fn any_bucket(rows: &[Bucket], row: &Bucket) -> bool
    ensures { result ≡ list_any (equal_bucket row.now) rows.now }
{
    rows.iter().any(|old| equal_bucket(row, old))
}

fn any_counter(rows: &[Counter], row: &Counter) -> bool
    ensures { result ≡ list_any (equal_counter row.now) rows.now }
{
    rows.iter().any(|old| equal_counter(row, old))
}

fn any_session(rows: &[Session], row: &Session) -> bool
    ensures { result ≡ list_any (equal_session row.now) rows.now }
{
    rows.iter().any(|old| equal_session(row, old))
}

pub(crate) fn any_group(rows: &[SessionGroup], row: &SessionGroup) -> bool
    ensures { result ≡ list_any (equal_group row.now) rows.now }
{
    rows.iter().any(|old| equal_group(row, old))
}

fn same_bucket(x: &Bucket, y: &Bucket) -> bool
    ensures { result ≡ same_bucket x.now y.now }
{
    y.number() == x.number()
}

fn same_counter(x: &Counter, y: &Counter) -> bool
    ensures { result ≡ same_counter x.now y.now }
{
    y.group == x.group && y.cycle == x.cycle
}

fn same_session(x: &Session, y: &Session) -> bool
    ensures { result ≡ same_session x.now y.now }
{
    y.id == x.id
}

fn same_group(x: &SessionGroup, y: &SessionGroup) -> bool
    ensures { result ≡ same_group x.now y.now }
{
    y.session == x.session && y.group == x.group
}

fn same_scope(x: Option<u32>, y: Option<u32>) -> bool
    ensures { result ≡ same_scope x y }
{
    match (x, y) {
        (None, None) => true,
        (Some(x), Some(y)) => x == y,
        _ => false,
    }
}

fn same_kind(x: BucketKind, y: BucketKind) -> bool
    ensures { result ≡ same_kind x y }
{
    match (x, y) {
        (BucketKind::Money, BucketKind::Money) => true,
        (BucketKind::Blocks, BucketKind::Blocks) => true,
        _ => false,
    }
}

fn equal_bucket(x: &Bucket, y: &Bucket) -> bool
    ensures { result ≡ equal_bucket x.now y.now }
{
    x.number() == y.number()
        && same_kind(x.kind(), y.kind())
        && x.from() == y.from()
        && x.until() == y.until()
        && same_scope(x.scope(), y.scope())
        && x.credited() == y.credited()
        && x.available() == y.available()
        && x.reserved() == y.reserved()
        && x.charged() == y.charged()
        && x.expired() == y.expired()
}

fn equal_counter(x: &Counter, y: &Counter) -> bool
    ensures { result ≡ equal_counter x.now y.now }
{
    x.group == y.group && x.cycle == y.cycle && x.blocks == y.blocks
}

fn same_state(x: SessionState, y: SessionState) -> bool
    ensures { result ≡ same_state x y }
{
    match (x, y) {
        (SessionState::Open, SessionState::Open) => true,
        (SessionState::Ended, SessionState::Ended) => true,
        (SessionState::NeverOpened, SessionState::NeverOpened) => true,
        _ => false,
    }
}

pub(crate) fn equal_session(x: &Session, y: &Session) -> bool
    ensures { result ≡ equal_session x.now y.now }
{
    x.id == y.id
        && x.last_number == y.last_number
        && x.touched == y.touched
        && same_state(x.state, y.state)
}

fn equal_periods(x: &Periods, y: &Periods) -> bool
    ensures { result ≡ equal_periods x.now y.now }
{
    x.before == y.before && x.after == y.after
}

fn equal_terms(x: &Terms, y: &Terms) -> bool
    ensures { result ≡ equal_terms x.now y.now }
{
    x.book == y.book && equal_periods(&x.periods, &y.periods)
}

fn equal_holds(x: &[HeldAmount], y: &[HeldAmount]) -> bool
    ensures { result ≡ pointwise equal_hold x.now y.now }
{
    x == y
}

fn equal_reservation(x: &Option<Reservation>, y: &Option<Reservation>) -> bool
    ensures { result ≡ equal_reservation x.now y.now }
{
    match (x, y) {
        (None, None) => true,
        (Some(x), Some(y)) => {
            equal_terms(&x.terms, &y.terms) && equal_holds(x.holds.as_slice(), y.holds.as_slice())
        }
        _ => false,
    }
}

fn equal_group(x: &SessionGroup, y: &SessionGroup) -> bool
    ensures { result ≡ equal_group x.now y.now }
{
    x.session == y.session
        && x.group == y.group
        && x.used == y.used
        && equal_reservation(&x.reservation, &y.reservation)
}
