//! Balances: what became of an account's money and of its allowances.

ghost use Rattle.std.specs.Prelude.{◌≡◌, ◌++◌, IfOk, OnOk, map};
ghost use Rattle.std.specs.List.Sorted.{IsNonDecreasingBy, IsPermutation};
ghost use Rattle.commands.specs.declared.command.Command.TheVariants as command;
ghost use Rattle.keepers.specs.Keeping.{KeeperReads};
ghost use Rattle.charging.specs.Balances.{AreByNumber, bucket_balance, unit_of};
ghost use Rattle.charging.specs.States.{IsStateOf, TellsState, TellsStateAt};
ghost use Rattle.charging.specs.Parts.{PartReads};
ghost use Rattle.charging.specs.Stepping.{ServesOver};

use crate::committing::moment_on;
use crate::refusing::refuse;
use buckets::{Bucket, BucketKind};
use commands::{AccountBalance, Answer, BucketBalance, BucketBalances, BucketUnit, Refusal};
use identifiers::AccountNumber;
use keepers::{Keeper, StoreFault};
use reserving::Account;
use shelves::TariffShelf;
use std::alloc::{AllocError, Global};
use units::Moment;
use wire::WrittenAnswer;

/// What became of an account's money and of its allowances, as of a moment.
#[derive(Drop)]
pub struct AccountState {
    /// The moment.
    pub moment: Moment,
    /// Whether the account is barred (profile).
    pub barred: bool,
    /// Its buckets, by number.
    pub buckets: Vec<Bucket>,
}

/// What became of an account's money, as of the later of this moment and that of the last accepted
/// command; None where there is no such account. It is a read: it changes nothing.
///
/// # Errors
/// Store fault 1 where a growth was refused, 2 where the store failed.
// rule: balance
pub fn account_state<K: Keeper>(
    keeper: &mut K,
    shelf: &TariffShelf,
    number: &AccountNumber,
    moment: Moment,
) -> Result<Option<AccountState>, StoreFault>
    ensures { KeeperReads (K.seen keeper.old) (K.seen keeper.new)
        (TellsState shelf.now number.now moment (K.seen keeper.old).tables) result }
{
    let last = keeper.last()?;
    state_at(keeper, shelf, number, moment.max(last))
}

/// The same at a moment that isn't before that of the last accepted command.
fn state_at<K: Keeper>(
    keeper: &mut K,
    shelf: &TariffShelf,
    number: &AccountNumber,
    moment: Moment,
) -> Result<Option<AccountState>, StoreFault>
    ensures { PartReads (K.seen keeper.old) (K.seen keeper.new)
        (TellsStateAt shelf.now number.now moment (K.seen keeper.old).tables) result }
{
    let Some(account) = keeper.view(shelf, number, moment)? else {
        return Ok(None);
    };
    let dead = keeper.dead_buckets(number)?;
    Ok(Some(state_of(account, dead, moment)?))
}

/// What was viewed, brought to the moment, with the dead buckets, which stay as they are.
// rule: balance
fn state_of(
    mut account: Account,
    dead: Vec<Bucket>,
    moment: Moment,
) -> Result<AccountState, AllocError>
    ensures { IfOk result (IsStateOf moment account.entry dead.items) }
{
    let moment = moment_on(&account, moment);
    account.advance(moment);
    Ok(AccountState {
        moment,
        barred: account.is_barred(),
        buckets: joined(account.purse().to_vec()?, dead)?,
    })
}

/// The buckets of both, by number.
fn joined(live: Vec<Bucket>, dead: Vec<Bucket>) -> Result<Vec<Bucket>, AllocError>
    ensures { IfOk result (λ all. AreByNumber (live.items ++ dead.items) all.items) }
{
    let mut all = live;
    let mut dead = dead;
    all.append(&mut dead)?;
    sort(&mut all)?;
    Ok(all)
}

fn sort(buckets: &mut Vec<Bucket>) -> Result<(), AllocError>
    ensures same { IsPermutation buckets.old.items buckets.new.items }
    ensures order { OnOk result (IsNonDecreasingBy (λ b. b.number) buckets.new.items) }
{
    buckets.sort_by_key(|bucket| bucket.number())?;
    Ok(())
}

/// Answers what became of an account's money.
// rule: balance
pub(crate) fn tell_balance<K: Keeper>(
    alloc: Global,
    keeper: &mut K,
    shelf: &TariffShelf,
    number: AccountNumber,
    moment: Moment,
) -> Result<WrittenAnswer, StoreFault>
    ensures { ServesOver shelf.now (command.Balance number) moment (K.seen keeper.old)
        (K.seen keeper.new) result }
{
    let Some(state) = state_at(keeper, shelf, &number, moment)? else {
        return Ok(refuse(alloc, Refusal::AccountUnknown)?);
    };
    let balance = balance_of(alloc, number, &state)?;
    Ok(WrittenAnswer::new(alloc, Answer::Balance(balance))?)
}

/// The balance of an account's state.
fn balance_of(
    alloc: Global,
    account: AccountNumber,
    state: &AccountState,
) -> Result<AccountBalance, AllocError>
    ensures { IfOk result (λ balance. balance ≡ record {
      account = account;
      barred = state.now.barred;
      buckets = map bucket_balance state.now.buckets.items;
      moment = state.now.moment;
    }) }
{
    let buckets = balances_of(alloc, &state.buckets)?;
    Ok(AccountBalance {
        account,
        barred: state.barred,
        buckets: BucketBalances::new(buckets),
        moment: state.moment,
    })
}

fn balances_of(alloc: Global, buckets: &[Bucket]) -> Result<Vec<BucketBalance>, AllocError>
    ensures { IfOk result (λ list. list.items ≡ map bucket_balance buckets.now) }
{
    let mut list = Vec::with_capacity(alloc, buckets.len())?;
    for bucket in buckets {
        list.push(bucket_balance(bucket))?;
    }
    Ok(list)
}

fn bucket_balance(bucket: &Bucket) -> BucketBalance
    ensures { result ≡ bucket_balance bucket.now }
{
    BucketBalance {
        number: bucket.number(),
        from: bucket.from(),
        until: bucket.until(),
        scope: bucket.scope(),
        unit: unit_of(bucket.kind()),
        credited: bucket.credited(),
        available: bucket.available(),
        reserved: bucket.reserved(),
        charged: bucket.charged(),
        expired: bucket.expired(),
    }
}

fn unit_of(kind: BucketKind) -> BucketUnit
    ensures { result ≡ unit_of kind }
{
    match kind {
        BucketKind::Money => BucketUnit::MicroUnits,
        BucketKind::Blocks => BucketUnit::Blocks,
    }
}
