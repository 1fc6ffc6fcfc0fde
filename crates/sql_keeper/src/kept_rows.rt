//! The rows of one account that a keeper keeps, so that a load of it doesn't read them once more.

ghost use Rattle.std.specs.Prelude.{◌≡◌, ℕ, List, Some, IfOk, IfSome, OnOk};
ghost use Rattle.shelves.specs.Shelves.{Shelf};
ghost use Rattle.sqlite_trees.specs.Tree.{Trees};
ghost use Rattle.sql_rows.specs.Content.{rows_in};
ghost use Rattle.sql_tables.specs.Keyed.{same_name};
ghost use Rattle.sql_keeper.specs.Content.{Names};
ghost use Rattle.sql_keeper.specs.KeptRows.{AreCopied, AreOf, AreTaken, BecomesOver, IsOf, Keeps};
ghost use Rattle.sql_keeper.specs.LiveRows.{IsLoadStored};
ghost use Rattle.sql_keeper.specs.Seen.{Sees};

use crate::live_rows::LiveRows;
use crate::replaced_rows::rows_over;
use crate::seen::SeenAccount;
use buckets::Purse;
use identifiers::AccountNumber;
use keepers::{Change, Loaded};
use reserving::{EarlierRows, Session, SessionGroup};
use sql_tables::ReadFault;
use std::alloc::{AllocError, Global};

/// All of an account that may still change, as it was read or written last.
#[derive(Drop)]
pub(crate) struct KeptRows {
    /// The account.
    pub account: AccountNumber,
    /// Its rows, whatever the moment.
    pub rows: LiveRows,
}

fn copy_of_purse(purse: &Purse) -> Result<Purse, AllocError>
    ensures { IfOk result (λ copy. copy ≡ purse.now) }
{
    purse.clone()
}

fn copy_of_sessions(alloc: Global, rows: &[Session]) -> Result<Vec<Session>, AllocError>
    ensures { IfOk result (λ copy. copy.items ≡ rows.now) }
{
    rows.to_vec(alloc)
}

fn copy_of_groups(alloc: Global, rows: &[SessionGroup]) -> Result<Vec<SessionGroup>, AllocError>
    ensures { IfOk result (λ copy. copy.items ≡ rows.now) }
{
    rows.to_vec(alloc)
}

/// The same rows once more.
fn copied(alloc: Global, rows: &LiveRows) -> Result<LiveRows, AllocError>
    ensures { IfOk result (AreCopied rows.now) }
{
    Ok(LiveRows {
        purse: copy_of_purse(&rows.purse)?,
        sessions: copy_of_sessions(alloc, rows.sessions.as_slice())?,
        groups: copy_of_groups(alloc, rows.groups.as_slice())?,
    })
}

/// Whether rows are those of an account.
pub(crate) fn is_of(kept: &KeptRows, account: &AccountNumber) -> bool
    ensures { result ≡ same_name kept.now.account account.now }
{
    kept.account == *account
}

/// A copy of the rows, if they are those of an account; None for lack of memory too.
fn copy_if_of(alloc: Global, kept: &KeptRows, account: &AccountNumber) -> Option<LiveRows>
    ensures { (names : Names) (trees : Trees) → Keeps names (Some kept.now) trees →
        IfSome result (AreOf names (rows_in trees account.now)) }
{
    if !is_of(kept, account) {
        return None;
    }
    copied(alloc, &kept.rows).ok()
}

/// A copy of what is kept of an account; None where another is kept, or none, and for lack of
/// memory.
// rule: database-loads.keeps
pub(crate) fn copy_of_kept(
    alloc: Global,
    kept: &Option<KeptRows>,
    account: &AccountNumber,
) -> Option<LiveRows>
    ensures { (names : Names) (trees : Trees) → Keeps names kept.now trees →
        IfSome result (AreOf names (rows_in trees account.now)) }
{
    match kept {
        None => None,
        Some(kept) => copy_if_of(alloc, kept, account),
    }
}

/// The rows of an account that may still change, once more.
fn rows_of(alloc: Global, account: &EarlierRows) -> Result<LiveRows, AllocError>
    ensures { IfOk result (AreTaken account.now) }
{
    let rows = account.rows();
    Ok(LiveRows {
        purse: copy_of_purse(&rows.purse)?,
        sessions: copy_of_sessions(alloc, rows.sessions.as_slice())?,
        groups: copy_of_groups(alloc, rows.groups.as_slice())?,
    })
}

/// The rows of what is loaded, once more, with the account's number.
fn rows_loaded(alloc: Global, loaded: &Loaded<'_>) -> Result<KeptRows, AllocError>
    ensures { IfOk result (IsOf loaded.now) }
{
    Ok(KeptRows {
        account: loaded.number.clone()?,
        rows: rows_of(alloc, &loaded.before)?,
    })
}

/// What is kept of an account that is loaded; None for lack of memory.
fn kept_of(alloc: Global, loaded: &Loaded<'_>) -> Option<KeptRows>
    ensures { (names : Names) (shelf : Shelf) (t : ℕ) (a : List ℕ) (trees : Trees) →
        IsLoadStored names shelf t a (rows_in trees a) (Some loaded.now) →
        Keeps names result trees }
{
    rows_loaded(alloc, loaded).ok()
}

/// Whether what is kept is of an account.
fn is_kept_of(kept: &Option<KeptRows>, account: &AccountNumber) -> bool {
    match kept {
        None => false,
        Some(kept) => is_of(kept, account),
    }
}

/// What is kept once an account is loaded: it stays where it is of this account.
fn kept_or_loaded(alloc: Global, kept: Option<KeptRows>, loaded: &Loaded<'_>) -> Option<KeptRows>
    ensures { (names : Names) (shelf : Shelf) (t : ℕ) (a : List ℕ) (trees : Trees) →
        Keeps names kept trees → IsLoadStored names shelf t a (rows_in trees a) (Some loaded.now) →
        Keeps names result trees }
{
    if is_kept_of(&kept, &loaded.number) {
        kept
    } else {
        kept_of(alloc, loaded)
    }
}

/// What is kept once an account is loaded, if one is.
fn kept_if_loaded(
    alloc: Global,
    kept: Option<KeptRows>,
    loaded: &Option<Loaded<'_>>,
) -> Option<KeptRows>
    ensures { (names : Names) (shelf : Shelf) (t : ℕ) (a : List ℕ) (trees : Trees) →
        Keeps names kept trees → IsLoadStored names shelf t a (rows_in trees a) loaded.now →
        Keeps names result trees }
{
    match loaded {
        None => kept,
        Some(loaded) => kept_or_loaded(alloc, kept, loaded),
    }
}

/// What is kept after a load. It is forgotten after a fault.
// rule: database-loads.keeps
pub(crate) fn kept_after(
    alloc: Global,
    kept: Option<KeptRows>,
    read: &Result<Option<Loaded<'_>>, ReadFault>,
) -> Option<KeptRows>
    ensures { (names : Names) (shelf : Shelf) (t : ℕ) (a : List ℕ) (trees : Trees) →
        Keeps names kept trees → IfOk read.now (IsLoadStored names shelf t a (rows_in trees a)) →
        Keeps names result trees }
{
    match read {
        Ok(loaded) => kept_if_loaded(alloc, kept, loaded),
        Err(_) => None,
    }
}

/// What is kept once a change was written: its rows are over those that they replace, or among
/// them. It is forgotten where a session is opened of which it wasn't seen that it has no row, or
/// the change is of another account.
fn kept_with(
    alloc: Global,
    kept: KeptRows,
    seen: &Option<SeenAccount>,
    change: &Change,
) -> Option<KeptRows>
    ensures { (names : Names) (text : List ℕ) (old new : Trees) →
        BecomesOver names text change.now old new → Sees seen.now old →
        Keeps names (Some kept) old → Keeps names result new }
{
    if !is_of(&kept, &change.number) {
        return None;
    }
    let KeptRows { account, rows } = kept;
    let rows = rows_over(alloc, rows, seen, change).ok()?;
    Some(KeptRows { account, rows })
}

/// What is kept once a change was made, or wasn't.
// rule: database-loads.keeps
pub(crate) fn kept_over(
    alloc: Global,
    kept: Option<KeptRows>,
    seen: &Option<SeenAccount>,
    made: &Result<(), ReadFault>,
    change: &Change,
) -> Option<KeptRows>
    ensures { (names : Names) (text : List ℕ) (old new : Trees) →
        OnOk made.now (BecomesOver names text change.now old new) → Sees seen.now old →
        Keeps names kept old → Keeps names result new }
{
    match made {
        Err(_) => None,
        Ok(()) => match kept {
            None => None,
            Some(kept) => kept_with(alloc, kept, seen, change),
        },
    }
}
