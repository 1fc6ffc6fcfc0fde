//! Allowances: operators give accounts blocks of a rating group, which are used before money.

ghost use Rattle.std.specs.Prelude.{◌≡◌, ◌≤◌, IfOk, IfSome, Some};
ghost use Rattle.commands.specs.declared.command.Command.TheVariants as command;
ghost use Rattle.commands.specs.declared.command.Content.TheVariants as content;
ghost use Rattle.commands.specs.Keys.{key_of};
ghost use Rattle.shelves.specs.Shelves.{book_at};
ghost use Rattle.buckets.specs.declared.kind.BucketKind.{BucketKind};
ghost use Rattle.ledger.specs.Ledger.{Ledger};
ghost use Rattle.reserving.specs.Left.{LeftRows, IsWith};
ghost use Rattle.decisions.specs.Services.{is_known};
ghost use Rattle.charging.specs.OutcomeParts.{is_over};
ghost use Rattle.charging.specs.Stepping.{Allows, IsFirstAsked, Makes, ServesGiven, ServesOver};

use crate::committing::{commit, moment_on};
use crate::refusing::refuse;
use crate::repetition::{find_referenced, first_or_conflict};
use commands::{Allowance, AllowanceBlocks, Answer, Content, Refusal, is_kept_allowance};
use keepers::{Keeper, Loaded, StoreFault};
use reserving::{Account, AccountFault};
use shelves::TariffShelf;
use std::alloc::{AllocError, Global};
use units::Moment;
use wire::WrittenAnswer;

/// Gives an account an allowance, under a reference.
// rule: allowance
pub(crate) fn serve_allowance<K: Keeper>(
    alloc: Global,
    keeper: &mut K,
    shelf: &TariffShelf,
    allowance: Allowance,
    moment: Moment,
) -> Result<WrittenAnswer, StoreFault>
    ensures { ServesOver shelf.now (command.Allow allowance) moment (K.seen keeper.old)
        (K.seen keeper.new) result }
{
    let kept = find_referenced(keeper, &allowance.account, &allowance.reference)?;
    if let Some(kept) = kept {
        let is_same = is_kept_allowance(&kept.content, &allowance);
        let conflict = Answer::Refused(Refusal::ContentDiffers);
        return Ok(first_or_conflict(alloc, kept, is_same, conflict)?);
    }
    let Some(loaded) = keeper.load(shelf, &allowance.account, moment)? else {
        return Ok(refuse(alloc, Refusal::AccountUnknown)?);
    };
    allow_account(alloc, keeper, loaded, allowance, moment)
}

/// Whether there is no moment left at which an allowance could be used.
fn is_over(allowance: &Allowance, moment: Moment) -> bool
    ensures { result ≡ is_over allowance.now moment }
{
    let from = allowance.from_at(moment);
    let until = allowance.end();
    until <= from || until <= moment
}

/// Whether the book at a moment has a tariff for the rating group.
fn is_known(account: &Account, group: u32, moment: Moment) -> bool
    ensures { result ≡ is_known (book_at account.now.shelf moment) group }
{
    account.shelf().book_at(moment).tariff(group).is_some()
}

/// Makes a bucket of blocks on an account: its number, or None where there is none left.
fn make_allowance(
    account: &mut Account,
    from: Moment,
    until: Moment,
    group: u32,
    blocks: AllowanceBlocks,
    moment: Moment,
) -> Result<Option<u32>, AllocError>
    requires later { account.old.as_of ≤ moment }
    ensures makes { IfOk result (λ number. (ledger : Ledger) (left : LeftRows) →
        IsWith ledger left moment account.old →
        Makes number BucketKind.Blocks from until (Some group) blocks moment ledger left
        account.new) }
    ensures moment { IfOk result (λ number. IfSome number (λ n. account.new.as_of ≡ moment)) }
    ensures tariff { account.new.shelf ≡ account.old.shelf }
{
    match account.allow(from, until, group, blocks.blocks(), moment) {
        Ok(number) => Ok(Some(number)),
        Err(AccountFault::Limit) => Ok(None),
        Err(AccountFault::Memory) => Err(AllocError),
    }
}

/// What became of an allowance on an account: the number of its bucket, or why it is refused. Its
/// group is looked for last, on an account that isn't committed where there is none.
fn add_allowance(
    account: &mut Account,
    allowance: &Allowance,
    moment: Moment,
) -> Result<Result<u32, Refusal>, AllocError>
    requires later { account.old.as_of ≤ moment }
    ensures allows { IfOk result (λ made. (ledger : Ledger) (left : LeftRows) →
        IsWith ledger left moment account.old →
        Allows account.old.shelf made allowance.now moment ledger left account.new) }
    ensures moment { IfOk result (λ made. IfOk made (λ n. account.new.as_of ≡ moment)) }
    ensures tariff { account.new.shelf ≡ account.old.shelf }
{
    if is_over(allowance, moment) {
        return Ok(Err(Refusal::OutOfRange));
    }
    let from = allowance.from_at(moment);
    let until = allowance.end();
    let made = make_allowance(
        account,
        from,
        until,
        allowance.scope,
        allowance.blocks,
        moment,
    )?;
    let Some(number) = made else {
        return Ok(Err(Refusal::OutOfRange));
    };
    if is_known(account, allowance.scope, moment) {
        Ok(Ok(number))
    } else {
        Ok(Err(Refusal::ScopeUnknown))
    }
}

/// Gives an allowance to an account that has nothing kept under the allowance's reference.
fn allow_account<K: Keeper>(
    alloc: Global,
    keeper: &mut K,
    mut loaded: Loaded,
    allowance: Allowance,
    moment: Moment,
) -> Result<WrittenAnswer, StoreFault>
    ensures { ServesGiven
        (IsFirstAsked moment allowance.account (key_of (content.Allow allowance)) loaded.entry)
        (command.Allow allowance) moment (K.seen keeper.old) (K.seen keeper.new) result }
{
    let moment = moment_on(&loaded.account, moment);
    match add_allowance(&mut loaded.account, &allowance, moment) {
        Ok(Ok(number)) => {
            let given = Answer::Bucket(number);
            commit(
                alloc,
                keeper,
                loaded,
                None,
                Vec::new(alloc),
                Some(Content::Allow(allowance)),
                None,
                given,
            )
        }
        Ok(Err(refusal)) => {
            keeper.abandon(loaded);
            Ok(refuse(alloc, refusal)?)
        }
        Err(AllocError) => {
            keeper.abandon(loaded);
            Err(StoreFault::Memory)
        }
    }
}
