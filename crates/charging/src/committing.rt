//! Changes of one account.

ghost use Rattle.std.specs.Prelude.{◌≡◌, ◌≤◌, max, IfOk, OnOk, option_copied};
ghost use Rattle.reserving.specs.Rows.{IsAccount};
ghost use Rattle.charging.specs.Parts.{Leaves, PartKeeps};
ghost use Rattle.charging.specs.Stepping.{Commits, CommitsOver, change_for, kept_as};

use commands::{Answer, Content};
use identifiers::SessionId;
use keepers::{Keeper, KeptAnswer, Loaded, Redeemed, StoreFault};
use ledger::ChargeRow;
use reserving::Account;
use std::alloc::{AllocError, Global};
use units::Moment;
use wire::WrittenAnswer;

/// The moment of a command on an account: it isn't before that of the account's last change.
// rule: command-moment
pub(crate) fn moment_on(account: &Account, moment: Moment) -> Moment
    ensures value { result ≡ max moment account.now.as_of }
    ensures later { account.now.as_of ≤ result }
    ensures kept { IsAccount account.now }
{
    moment.max(account.as_of())
}

/// What is kept of a command with this content, where it has a key.
fn kept_as(
    content: Option<Content>,
    given: &WrittenAnswer,
) -> Result<Option<KeptAnswer>, AllocError>
    ensures { IfOk result (λ kept. kept ≡ kept_as content given.now) }
{
    match content {
        None => Ok(None),
        Some(content) => Ok(Some(KeptAnswer {
            content,
            answer: given.copy()?,
        })),
    }
}

/// Commits an account as it is, with the charges that a command made, its content where it is
/// kept and the voucher that it redeemed, and gives the command's answer. The answer's text is made
/// before: where its growth is refused nothing has changed. Where the rows of one session alone may
/// have changed, no other session's row is looked at.
// rule: database-writes.changed, http-unanswered
pub(crate) fn commit<K: Keeper>(
    alloc: Global,
    keeper: &mut K,
    loaded: Loaded,
    own: Option<&SessionId>,
    charges: Vec<ChargeRow>,
    content: Option<Content>,
    redeemed: Option<Redeemed>,
    answer: Answer,
) -> Result<WrittenAnswer, StoreFault>
    ensures commits { CommitsOver (change_for (option_copied own.entry) loaded.entry charges
        (kept_as content answer) redeemed) answer (K.seen keeper.old) (K.seen keeper.new) result }
    ensures account { IsAccount loaded.entry.account }
{
    // For the prover alone: the call makes known here what each account keeps.
    let _moment = loaded.account.as_of();
    let Ok(given) = WrittenAnswer::new(alloc, answer) else {
        return Err(given_up(keeper, loaded));
    };
    let Ok(kept) = kept_as(content, &given) else {
        return Err(given_up(keeper, loaded));
    };
    commit_change(alloc, keeper, loaded, own, charges, kept, redeemed)?;
    Ok(given)
}

/// Gives a loaded account up where memory was refused: nothing changes.
#[cold]
#[inline(never)]
fn given_up<K: Keeper>(keeper: &mut K, loaded: Loaded) -> StoreFault
    ensures same { keeper.new ≡ keeper.old }
    ensures fault { result ≡ StoreFault.Memory }
{
    keeper.abandon(loaded);
    StoreFault::Memory
}

/// Commits an account as it is: the rows alone that differ from those loaded.
fn commit_change<K: Keeper>(
    alloc: Global,
    keeper: &mut K,
    loaded: Loaded,
    own: Option<&SessionId>,
    charges: Vec<ChargeRow>,
    kept: Option<KeptAnswer>,
    redeemed: Option<Redeemed>,
) -> Result<(), StoreFault>
    ensures done { (K.seen keeper.new).clean → OnOk result
        (Commits (change_for (option_copied own.entry) loaded.entry charges kept redeemed)
        (K.seen keeper.old).tables (K.seen keeper.new).tables) }
    ensures account { IsAccount loaded.entry.account }
    ensures kept { PartKeeps (K.seen keeper.old) (K.seen keeper.new) result }
    ensures left { Leaves (K.seen keeper.old) (K.seen keeper.new)
        (Commits (change_for (option_copied own.entry) loaded.entry charges kept redeemed)
        (K.seen keeper.old).tables) }
{
    // For the prover alone: the call makes known here what each account keeps.
    let _kept = loaded.account.as_of();
    let change = loaded.into_change(alloc, own, charges, kept, redeemed)?;
    keeper.commit(change)
}
