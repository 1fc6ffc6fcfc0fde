//! Operators' commands: accounts are opened, credited, barred, and swept.

ghost use Rattle.std.specs.Prelude.{◌≡◌, ◌≤◌, IfOk, IfSome, IsTrue, true};
ghost use Rattle.commands.specs.Kept.{is_kept};
ghost use Rattle.commands.specs.declared.command.Command.TheVariants as command;
ghost use Rattle.commands.specs.declared.command.Content.TheVariants as content;
ghost use Rattle.commands.specs.Keys.{key_of};
ghost use Rattle.buckets.specs.declared.kind.BucketKind.{BucketKind};
ghost use Rattle.ledger.specs.Ledger.{Ledger};
ghost use Rattle.reserving.specs.Left.{LeftRows, IsWith};
ghost use Rattle.charging.specs.OutcomeParts.{is_unusable};
ghost use Rattle.charging.specs.Stepping.{Credits, IsFirstAsked, Makes, ServesGiven, ServesOver};
ghost use Rattle.charging.specs.Stepping.{bar_command};

use crate::committing::{commit, moment_on};
use crate::refusing::refuse;
use crate::repetition::{find_referenced, first_or_conflict};
use commands::{Answer, Content, Credit, KeptCredit, Refusal, is_kept_credit};
use identifiers::AccountNumber;
use keepers::{Keeper, Loaded, StoreFault};
use reserving::{Account, AccountFault};
use shelves::TariffShelf;
use std::alloc::{AllocError, Global};
use units::{Moment, Money};
use wire::{AnswerRoom, WrittenAnswer};

/// Opens an account.
// rule: open
pub(crate) fn open_account<K: Keeper>(
    alloc: Global,
    keeper: &mut K,
    shelf: &TariffShelf,
    number: AccountNumber,
    moment: Moment,
) -> Result<WrittenAnswer, StoreFault>
    ensures { ServesOver shelf.now (command.OpenAccount number) moment (K.seen keeper.old)
        (K.seen keeper.new) result }
{
    if keeper.has_account(&number)? {
        return Ok(refuse(alloc, Refusal::AccountExists)?);
    }
    let before = Account::new(alloc, shelf).into_stored().into_earlier();
    let mut account = Account::new(alloc, shelf);
    account.advance(moment);
    let loaded = Loaded {
        number,
        account,
        before,
    };
    commit(
        alloc,
        keeper,
        loaded,
        None,
        Vec::new(alloc),
        None,
        None,
        Answer::Done,
    )
}

/// Bars an account, or ends that.
// rule: open, bar
pub(crate) fn set_barred<K: Keeper>(
    alloc: Global,
    keeper: &mut K,
    shelf: &TariffShelf,
    number: AccountNumber,
    barred: bool,
    moment: Moment,
) -> Result<WrittenAnswer, StoreFault>
    ensures { ServesOver shelf.now (bar_command number barred) moment (K.seen keeper.old)
        (K.seen keeper.new) result }
{
    let Some(mut loaded) = keeper.load(shelf, &number, moment)? else {
        return Ok(refuse(alloc, Refusal::AccountUnknown)?);
    };
    let moment = moment_on(&loaded.account, moment);
    loaded.account.set_barred(barred, moment);
    commit(
        alloc,
        keeper,
        loaded,
        None,
        Vec::new(alloc),
        None,
        None,
        Answer::Done,
    )
}

/// Brings each account to the moment.
// rule: sweep
pub(crate) fn sweep<K: Keeper>(
    alloc: Global,
    keeper: &mut K,
    shelf: &TariffShelf,
    moment: Moment,
) -> Result<WrittenAnswer, StoreFault>
    ensures { ServesOver shelf.now command.Sweep moment (K.seen keeper.old)
        (K.seen keeper.new) result }
{
    let room = AnswerRoom::new(alloc)?;
    let count = keeper.sweep(shelf, moment)?;
    Ok(room.swept(count))
}

/// Credits an account, under a reference.
// rule: credit
pub(crate) fn serve_credit<K: Keeper>(
    alloc: Global,
    keeper: &mut K,
    shelf: &TariffShelf,
    credit: Credit,
    moment: Moment,
) -> Result<WrittenAnswer, StoreFault>
    ensures { ServesOver shelf.now (command.Credit credit) moment (K.seen keeper.old)
        (K.seen keeper.new) result }
{
    let kept = find_referenced(keeper, &credit.account, &credit.reference)?;
    if let Some(kept) = kept {
        let is_same = is_kept_credit(&kept.content, &credit);
        let conflict = Answer::Refused(Refusal::ContentDiffers);
        return Ok(first_or_conflict(alloc, kept, is_same, conflict)?);
    }
    let Some(loaded) = keeper.load(shelf, &credit.account, moment)? else {
        return Ok(refuse(alloc, Refusal::AccountUnknown)?);
    };
    credit_account(alloc, keeper, loaded, credit, moment)
}

/// Whether a credit is of nothing, or there is no moment left at which it could be used.
fn is_unusable(credit: &Credit, moment: Moment) -> bool
    ensures { result ≡ is_unusable credit.now moment }
{
    let from = credit.from_at(moment);
    let until = credit.end();
    credit.amount.micros() == 0 || until <= from || until <= moment
}

/// Makes a bucket on an account: its number, or None where there is none left.
pub(crate) fn make_bucket(
    account: &mut Account,
    from: Moment,
    until: Moment,
    scope: Option<u32>,
    amount: Money,
    moment: Moment,
) -> Result<Option<u32>, AllocError>
    requires later { account.old.as_of ≤ moment }
    ensures makes { IfOk result (λ number. (ledger : Ledger) (left : LeftRows) →
        IsWith ledger left moment account.old →
        Makes number BucketKind.Money from until scope amount moment ledger left account.new) }
    ensures moment { IfOk result (λ number. IfSome number (λ n. account.new.as_of ≡ moment)) }
    ensures tariff { account.new.shelf ≡ account.old.shelf }
{
    match account.credit(from, until, scope, amount, moment) {
        Ok(number) => Ok(Some(number)),
        Err(AccountFault::Limit) => Ok(None),
        Err(AccountFault::Memory) => Err(AllocError),
    }
}

/// What became of a credit on an account: the number of its bucket, or None where a value is out of
/// range.
fn add_bucket(
    account: &mut Account,
    credit: &Credit,
    moment: Moment,
) -> Result<Option<u32>, AllocError>
    requires later { account.old.as_of ≤ moment }
    ensures credits { IfOk result (λ number. (ledger : Ledger) (left : LeftRows) →
        IsWith ledger left moment account.old →
        Credits number credit.now moment ledger left account.new) }
    ensures moment { IfOk result (λ number. IfSome number (λ n. account.new.as_of ≡ moment)) }
    ensures some { IfOk result (λ number. IfSome number (λ n. is_kept credit.now ≡ true)) }
    ensures tariff { account.new.shelf ≡ account.old.shelf }
{
    if is_unusable(credit, moment) {
        return Ok(None);
    }
    let from = credit.from_at(moment);
    let until = credit.end();
    make_bucket(account, from, until, credit.scope, credit.amount, moment)
}

/// What is kept of a credit.
fn kept_credit(credit: Credit) -> Content
    requires { IsTrue (is_kept credit) }
    ensures { result ≡ content.Credit credit }
{
    Content::Credit(KeptCredit::new(credit))
}

/// Credits an account that has nothing kept under the credit's reference.
fn credit_account<K: Keeper>(
    alloc: Global,
    keeper: &mut K,
    mut loaded: Loaded,
    credit: Credit,
    moment: Moment,
) -> Result<WrittenAnswer, StoreFault>
    ensures { ServesGiven
        (IsFirstAsked moment credit.account (key_of (content.Credit credit)) loaded.entry)
        (command.Credit credit) moment (K.seen keeper.old) (K.seen keeper.new) result }
{
    let moment = moment_on(&loaded.account, moment);
    match add_bucket(&mut loaded.account, &credit, moment) {
        Ok(Some(number)) => {
            let content = Some(kept_credit(credit));
            let given = Answer::Bucket(number);
            let charges = Vec::new(alloc);
            commit(alloc, keeper, loaded, None, charges, content, None, given)
        }
        Ok(None) => {
            keeper.abandon(loaded);
            Ok(refuse(alloc, Refusal::OutOfRange)?)
        }
        Err(AllocError) => {
            keeper.abandon(loaded);
            Err(StoreFault::Memory)
        }
    }
}
