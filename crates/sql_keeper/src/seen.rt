//! What a keeper has seen of an account since its tables were last written, so that a change of it
//! isn't preceded by the same selections once more.

ghost use Rattle.std.specs.Prelude.{◌≡◌, ℕ, List, Ok, Some, true, false, IfOk, IfSome, IsTrue};
ghost use Rattle.reserving.specs.Left.{is_open_row};
ghost use Rattle.reserving.specs.Sessions.{is_open, session_in};
ghost use Rattle.shelves.specs.Shelves.{Shelf};
ghost use Rattle.sqlite_trees.specs.Tree.{Trees};
ghost use Rattle.sql_tables.specs.Keyed.{same_name};
ghost use Rattle.sql_rows.specs.Content.{rows_in};
ghost use Rattle.sql_keeper.specs.Content.{Names};
ghost use Rattle.sql_keeper.specs.Grants.{IsGrantIn, grant_with, is_grant, is_kept};
ghost use Rattle.sql_keeper.specs.Grants.{is_name, only_bucket, same_grant};
ghost use Rattle.sql_keeper.specs.KeptRows.{is_unknown_in};
ghost use Rattle.sql_keeper.specs.LiveRows.{IsLoadStored};
ghost use Rattle.sql_keeper.specs.Seen.{IsJoined, IsKnown, IsSeen, IsSeenOf, IsSeenWith};
ghost use Rattle.sql_keeper.specs.Seen.{IsStanding, IsUnknownAlone, Sees, is_unknown};
ghost use Rattle.sql_keeper.specs.Seen.{standing_in, stands_open};

use crate::putting::head_of;
use crate::seen_first::SeenFirst;
use buckets::HeldAmount;
use identifiers::{AccountNumber, SessionId};
use keepers::Loaded;
use reserving::{EarlierRows, Reservation, Session, SessionGroup, SessionState};
use sql_rows::HeadColumns;
use sql_tables::ReadFault;

/// What was read last of an account, while nothing has been written since.
#[derive(Drop)]
pub(crate) struct SeenAccount {
    /// The account.
    pub account: AccountNumber,
    /// What is kept of it once, where it was read.
    pub head: Option<HeadColumns>,
    /// A session of it that is open.
    pub live: Option<SessionId>,
    /// The reservation of that session's first rating group, if it holds of one bucket alone.
    pub grant: Option<SeenGrant>,
    /// A session that it has no row of.
    pub unknown: Option<SessionId>,
    /// What a load's first selection gave of it.
    pub first: Option<SeenFirst>,
}

/// A reservation that holds of one bucket alone.
#[derive(Clone, Copy)]
pub(crate) struct SeenGrant {
    /// Its rating group.
    pub group: u32,
    /// The number of its book.
    pub book: u8,
    /// The bucket's number.
    pub bucket: u32,
}

/// What is known of a session in the tables.
#[derive(Clone, Copy)]
pub(crate) enum Standing {
    /// It has no row, and nothing of rating groups.
    Unknown,
    /// It is open.
    Open,
    /// It is over, or an event that was recorded.
    Over,
}

/// Whether a session has no row.
pub(crate) fn is_unknown(standing: Standing) -> bool
    ensures { result ≡ is_unknown standing }
{
    matches!(standing, Standing::Unknown)
}

/// Whether a session is open.
pub(crate) fn stands_open(standing: Standing) -> bool
    ensures { result ≡ stands_open standing }
{
    matches!(standing, Standing::Open)
}

/// A copy of a session's name; None for lack of memory.
fn copy_of(session: &SessionId) -> Option<SessionId>
    ensures { IfSome result (λ s. s ≡ session.now) }
{
    session.clone().ok()
}

/// Whether a session's state is that of an open one.
pub(crate) fn is_open(state: SessionState) -> bool
    ensures { result ≡ is_open state }
{
    state == SessionState::Open
}

/// The name of a session that is open; None of another one, or for lack of memory.
fn open_name(session: &Session) -> Option<SessionId>
    ensures { IfSome result (λ s. (s ≡ session.now.id) × (is_open session.now.state ≡ true)) }
{
    if !is_open(session.state) {
        return None;
    }
    copy_of(&session.id)
}

/// The first of these sessions, if it is open.
fn first_open(sessions: &[Session]) -> Option<SessionId>
    ensures { IfSome result (λ s. is_open_row (session_in s sessions.now) ≡ true) }
{
    let Some(session) = sessions.first() else {
        return None;
    };
    open_name(session)
}

/// The bucket of which something is held, if it is one alone.
fn only_bucket(holds: &[HeldAmount]) -> Option<u32>
    ensures { result ≡ only_bucket holds.now }
{
    match holds {
        [hold] => Some(hold.bucket),
        _ => None,
    }
}

/// A reservation in a rating group, if it holds of one bucket alone.
fn grant_with(group: u32, reservation: &Option<Reservation>) -> Option<SeenGrant>
    ensures { result ≡ grant_with group reservation.now }
{
    match reservation {
        None => None,
        Some(reservation) => match only_bucket(reservation.holds.as_slice()) {
            None => None,
            Some(bucket) => Some(SeenGrant {
                group,
                book: reservation.terms.book,
                bucket,
            }),
        },
    }
}

/// Whether a row is of a session.
fn is_own(row: &SessionGroup, session: &SessionId) -> bool
    ensures { result ≡ same_name row.now.session session.now }
{
    row.session == *session
}

/// The reservation of a row of a session, if it holds of one bucket alone.
fn own_grant(row: &SessionGroup, session: &SessionId) -> Option<SeenGrant>
    ensures { IfSome result (λ y. (same_name row.now.session session.now ≡ true)
        × (grant_with row.now.group row.now.reservation ≡ Some y)) }
{
    if !is_own(row, session) {
        return None;
    }
    grant_with(row.group, &row.reservation)
}

/// The reservation of the first of these rows, if it is of a session and holds of one bucket alone.
fn grant_of(groups: &[SessionGroup], session: &SessionId) -> Option<SeenGrant>
    ensures { IfSome result (IsGrantIn groups.now session.now) }
{
    let Some(row) = groups.first() else {
        return None;
    };
    own_grant(row, session)
}

/// That of the session that was seen to be open.
fn grant_seen(groups: &[SessionGroup], live: &Option<SessionId>) -> Option<SeenGrant>
    ensures { (s : List ℕ) → live.now ≡ Some s → IfSome result (IsGrantIn groups.now s) }
{
    match live {
        None => None,
        Some(session) => grant_of(groups, session),
    }
}

/// What is seen of the account of these rows.
fn seen_as(account: AccountNumber, rows: &EarlierRows) -> SeenAccount
    ensures { IsSeenOf account rows.now result }
{
    let given = rows.rows();
    let live = first_open(given.sessions.as_slice());
    let grant = grant_seen(given.groups.as_slice(), &live);
    SeenAccount {
        account,
        head: Some(head_of(rows)),
        live,
        grant,
        unknown: None,
        first: None,
    }
}

/// What is seen of the account of these rows; None for lack of memory.
#[tactic(auto, using(crate::proofs::kept::SeenRows::seen_of_copy))]
fn seen_of(account: &AccountNumber, rows: &EarlierRows) -> Option<SeenAccount>
    ensures { IfSome result (IsSeenOf account.now rows.now) }
{
    let copy = account.clone().ok()?;
    Some(seen_as(copy, rows))
}

/// What is seen of an account that is loaded; None for lack of memory.
fn seen_loaded(loaded: &Loaded<'_>) -> Option<SeenAccount>
    ensures { (names : Names) (shelf : Shelf) (t : ℕ) (a : List ℕ) (trees : Trees) →
        IsLoadStored names shelf t a (rows_in trees a) (Some loaded.now) → Sees result trees }
{
    seen_of(&loaded.number, &loaded.before)
}

/// What is seen of an account that is loaded, if one is.
fn seen_if_loaded(loaded: &Option<Loaded<'_>>) -> Option<SeenAccount>
    ensures { (names : Names) (shelf : Shelf) (t : ℕ) (a : List ℕ) (trees : Trees) →
        IsLoadStored names shelf t a (rows_in trees a) loaded.now → Sees result trees }
{
    match loaded {
        None => None,
        Some(loaded) => seen_loaded(loaded),
    }
}

/// What is seen by a load.
// rule: database-writes.seen
pub(crate) fn seen_in(read: &Result<Option<Loaded<'_>>, ReadFault>) -> Option<SeenAccount>
    ensures { (names : Names) (shelf : Shelf) (t : ℕ) (a : List ℕ) (trees : Trees) →
        IfOk read.now (IsLoadStored names shelf t a (rows_in trees a)) → Sees result trees }
{
    match read {
        Ok(loaded) => seen_if_loaded(loaded),
        Err(_) => None,
    }
}

/// Whether it was answered that a session has no row.
fn has_no_row(read: &Result<bool, ReadFault>) -> bool
    ensures { IsTrue result → read.now ≡ Ok false }
{
    matches!(read, Ok(false))
}

/// Whether two numbers are those of one account.
pub(crate) fn is_same_account(one: &AccountNumber, other: &AccountNumber) -> bool
    ensures { result ≡ same_name one.now other.now }
{
    *one == *other
}

/// What is seen of an account of which a session has no row; None for lack of memory.
fn unknown_alone(account: &AccountNumber, session: &SessionId) -> Option<SeenAccount>
    ensures { IfSome result (IsUnknownAlone account.now session.now) }
{
    let account = account.clone().ok()?;
    Some(SeenAccount {
        account,
        head: None,
        live: None,
        grant: None,
        unknown: copy_of(session),
        first: None,
    })
}

/// What is seen, with a session that has no row in the place of another one.
fn with_unknown(seen: SeenAccount, session: &SessionId) -> SeenAccount
    ensures { IsSeenWith session.now seen result }
{
    let SeenAccount {
        account,
        head,
        live,
        grant,
        unknown: _,
        first,
    } = seen;
    SeenAccount {
        account,
        head,
        live,
        grant,
        unknown: copy_of(session),
        first,
    }
}

/// What is seen, with a session of an account that has no row; another account is forgotten.
fn noted(seen: SeenAccount, account: &AccountNumber, session: &SessionId) -> Option<SeenAccount>
    ensures { (trees : Trees) → IsSeen (rows_in trees seen.account) seen →
        IsKnown (rows_in trees account.now) session.now false → Sees result trees }
{
    if !is_same_account(&seen.account, account) {
        return unknown_alone(account, session);
    }
    Some(with_unknown(seen, session))
}

/// The same, where nothing else may have been seen.
fn noted_first(
    seen: Option<SeenAccount>,
    account: &AccountNumber,
    session: &SessionId,
) -> Option<SeenAccount>
    ensures { (trees : Trees) → Sees seen trees →
        IsKnown (rows_in trees account.now) session.now false → Sees result trees }
{
    match seen {
        None => unknown_alone(account, session),
        Some(seen) => noted(seen, account, session),
    }
}

/// What is seen, with what was answered of a session of an account.
// rule: database-writes.seen
pub(crate) fn seen_with(
    seen: Option<SeenAccount>,
    account: &AccountNumber,
    session: &SessionId,
    read: &Result<bool, ReadFault>,
) -> Option<SeenAccount>
    ensures { (trees : Trees) → Sees seen trees →
        IfOk read.now (IsKnown (rows_in trees account.now) session.now) → Sees result trees }
{
    if !has_no_row(read) {
        return seen;
    }
    noted_first(seen, account, session)
}

/// What was seen later of an account, with the session that had no row before, and with what the
/// first selection gave before.
fn joined(older: SeenAccount, newer: SeenAccount) -> SeenAccount
    ensures { IsJoined older newer result }
{
    let SeenAccount {
        account: _,
        head: _,
        live: _,
        grant: _,
        unknown,
        first,
    } = older;
    let SeenAccount {
        account,
        head,
        live,
        grant,
        unknown: _,
        first: _,
    } = newer;
    SeenAccount {
        account,
        head,
        live,
        grant,
        unknown,
        first,
    }
}

/// The same, if it is of the same account.
fn joined_if_same(older: SeenAccount, newer: SeenAccount) -> SeenAccount
    ensures { (trees : Trees) → IsSeen (rows_in trees older.account) older →
        IsSeen (rows_in trees newer.account) newer →
        IsSeen (rows_in trees result.account) result }
{
    if !is_same_account(&older.account, &newer.account) {
        return newer;
    }
    joined(older, newer)
}

/// The newer note, with the absent session of the older one and what the first selection gave there,
/// if both are of one account.
pub(crate) fn seen_later(
    older: Option<SeenAccount>,
    newer: Option<SeenAccount>,
) -> Option<SeenAccount>
    ensures { (trees : Trees) → Sees older trees → Sees newer trees → Sees result trees }
{
    match newer {
        None => older,
        Some(newer) => match older {
            None => Some(newer),
            Some(older) => Some(joined_if_same(older, newer)),
        },
    }
}

/// What is kept once of an account, if it is the one that was seen.
fn head_of_seen(seen: &SeenAccount, account: &AccountNumber) -> Option<HeadColumns>
    ensures { (trees : Trees) → IsSeen (rows_in trees seen.now.account) seen.now →
        IfSome result (λ h. (rows_in trees account.now).head ≡ Some h) }
{
    if !is_same_account(&seen.account, account) {
        return None;
    }
    seen.head
}

/// What is kept once of an account that was seen.
// rule: database-writes.seen
pub(crate) fn head_seen(seen: &Option<SeenAccount>, account: &AccountNumber) -> Option<HeadColumns>
    ensures { (trees : Trees) → Sees seen.now trees →
        IfSome result (λ h. (rows_in trees account.now).head ≡ Some h) }
{
    match seen {
        None => None,
        Some(seen) => head_of_seen(seen, account),
    }
}

/// Whether a name is this one.
fn is_name(name: &Option<SessionId>, session: &SessionId) -> bool
    ensures { result ≡ is_name session.now name.now }
{
    match name {
        None => false,
        Some(name) => *name == *session,
    }
}

/// What is known of a session of the account that was seen, where that is known.
fn standing_in(seen: &SeenAccount, session: &SessionId) -> Option<Standing>
    ensures { result ≡ standing_in seen.now session.now }
{
    if is_name(&seen.unknown, session) {
        Some(Standing::Unknown)
    } else if is_name(&seen.live, session) {
        Some(Standing::Open)
    } else {
        None
    }
}

/// What is known of a session of an account, if it is the one that was seen.
fn standing_of_seen(
    seen: &SeenAccount,
    account: &AccountNumber,
    session: &SessionId,
) -> Option<Standing>
    ensures { (trees : Trees) → IsSeen (rows_in trees seen.now.account) seen.now →
        IfSome result (IsStanding (rows_in trees account.now) session.now) }
{
    if !is_same_account(&seen.account, account) {
        return None;
    }
    standing_in(seen, session)
}

/// What is known of a session of an account by what was seen, where that is known.
// rule: database-writes.seen
pub(crate) fn standing_seen(
    seen: &Option<SeenAccount>,
    account: &AccountNumber,
    session: &SessionId,
) -> Option<Standing>
    ensures { (trees : Trees) → Sees seen.now trees →
        IfSome result (IsStanding (rows_in trees account.now) session.now) }
{
    match seen {
        None => None,
        Some(seen) => standing_of_seen(seen, account, session),
    }
}

/// Whether a session of the account that was seen has no row, if it is this account.
fn is_unknown_of(seen: &SeenAccount, account: &AccountNumber, session: &SessionId) -> bool
    ensures { result ≡ is_unknown_in (Some seen.now) account.now session.now }
{
    is_same_account(&seen.account, account) && is_name(&seen.unknown, session)
}

/// Whether it was seen that a session of an account has no row.
pub(crate) fn is_unknown_in(
    seen: &Option<SeenAccount>,
    account: &AccountNumber,
    session: &SessionId,
) -> bool
    ensures { result ≡ is_unknown_in seen.now account.now session.now }
{
    match seen {
        None => false,
        Some(seen) => is_unknown_of(seen, account, session),
    }
}

/// Whether two reservations are of one rating group and one book, and hold of one bucket.
fn same_grant(one: SeenGrant, other: Option<SeenGrant>) -> bool
    ensures { result ≡ same_grant one other }
{
    match other {
        None => false,
        Some(other) => {
            other.group == one.group && other.book == one.book && other.bucket == one.bucket
        }
    }
}

/// Whether a row has the reservation that was seen.
fn is_grant(grant: Option<SeenGrant>, row: &SessionGroup) -> bool
    ensures { result ≡ is_grant grant row.now }
{
    match grant {
        None => false,
        Some(grant) => same_grant(grant, grant_with(row.group, &row.reservation)),
    }
}

/// Whether a row of an account has the reservation that was seen of it.
fn is_kept_in(seen: &SeenAccount, account: &AccountNumber, row: &SessionGroup) -> bool
    ensures { result ≡ is_kept (Some seen.now) account.now row.now }
{
    is_same_account(&seen.account, account)
        && is_name(&seen.live, &row.session)
        && is_grant(seen.grant, row)
}

/// Whether a row of an account has a reservation that was seen, so that the number of its book and
/// what it holds of are stored as they are.
pub(crate) fn is_kept(
    seen: &Option<SeenAccount>,
    account: &AccountNumber,
    row: &SessionGroup,
) -> bool
    ensures { result ≡ is_kept seen.now account.now row.now }
{
    match seen {
        None => false,
        Some(seen) => is_kept_in(seen, account, row),
    }
}
