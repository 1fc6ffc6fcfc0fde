//! A balance, read.

ghost use Rattle.std.specs.Prelude.{◌≡◌};
ghost use Rattle.serde_json.specs.Find.{get};
ghost use Rattle.commands.specs.Names.{unit};
ghost use Rattle.json_fields.specs.Gives.{Gives, Says};
ghost use Rattle.json_fields.specs.View.{view, items_view};
ghost use Rattle.wire.specs.ReadingBalances.{account_in, amount_in, amounts_in, balance_at};
ghost use Rattle.wire.specs.ReadingBalances.{bucket_at, bucket_with, buckets_from};
ghost use Rattle.wire.specs.ReadingBalances.{buckets_in, flag_in, moment_in, scope_in};
ghost use Rattle.wire.specs.ReadingBalances.{unit_when};

use crate::members;
use commands::names::{
    ACCOUNT, AVAILABLE, BARRED, BUCKETS, CHARGED, CREDITED, EXPIRED, MOMENT, NUMBER, RESERVED, UNIT,
};
use commands::{AccountBalance, Avp, BucketBalance, BucketBalances, BucketUnit};
use identifiers::AccountNumber;
use json_fields::{Items, Tree, WireFault, as_array, as_bool, get, read_each};
use std::alloc::Global;
use units::{GREATEST_NUMBER, LATEST_MOMENT, Moment};

/// What became of a bucket's amount.
#[derive(Drop)]
pub(crate) struct Amounts {
    credited: u64,
    available: u64,
    reserved: u64,
    charged: u64,
    expired: u64,
}

fn amount(parent: &Tree<'_>, name: &str) -> Result<u64, WireFault>
    ensures { Says (λ n. n) result (amount_in name.now (view parent.now)) }
{
    members::number(parent, name, 0, u64::MAX)
}

fn moment(parent: &Tree<'_>, name: &str) -> Result<Moment, WireFault>
    ensures { Says (λ m. m) result (moment_in name.now (view parent.now)) }
{
    let seconds = members::number(parent, name, 0, LATEST_MOMENT)?;
    Moment::new(seconds).ok_or(WireFault::NotRequest)
}

#[tactic(auto, unfolding(crate::specs::ReadingBalances::flag_in))]
fn flag(parent: &Tree<'_>, name: &str) -> Result<bool, WireFault>
    ensures { Says (λ b. b) result (flag_in name.now (view parent.now)) }
{
    as_bool(members::member(parent, name)?).ok_or(WireFault::NotRequest)
}

#[tactic(auto, unfolding(crate::specs::ReadingBalances::amounts_in))]
fn read_amounts(parent: &Tree<'_>) -> Result<Amounts, WireFault>
    ensures { Says (λ a. a) result (amounts_in (view parent.now)) }
{
    let available = amount(parent, AVAILABLE)?;
    let charged = amount(parent, CHARGED)?;
    let credited = amount(parent, CREDITED)?;
    let expired = amount(parent, EXPIRED)?;
    let reserved = amount(parent, RESERVED)?;
    Ok(Amounts {
        credited,
        available,
        reserved,
        charged,
        expired,
    })
}

fn scope(parent: &Tree<'_>) -> Result<Option<u32>, WireFault>
    ensures { Says (λ o. o) result (scope_in (view parent.now)) }
{
    match members::optional(parent, Avp::Scope.name(), 0, GREATEST_NUMBER)? {
        None => Ok(None),
        Some(group) => Ok(Some(group as u32)),
    }
}

/// What the amounts count: which unit the member names is seen where its text is compared.
// rule: balance-text
fn unit(parent: &Tree<'_>) -> BucketUnit
    ensures { result ≡ unit_when (get unit (view parent.now)) }
{
    match get(parent, UNIT) {
        None => BucketUnit::MicroUnits,
        Some(_) => BucketUnit::Blocks,
    }
}

#[tactic(auto, unfolding(crate::specs::ReadingBalances::bucket_with))]
fn bucket_with(amounts: &Amounts, parent: &Tree<'_>) -> Result<BucketBalance, WireFault>
    ensures { Says (λ b. b) result (bucket_with amounts.now (view parent.now)) }
{
    let from = moment(parent, Avp::From.name())?;
    let number = members::number(parent, NUMBER, 0, GREATEST_NUMBER)? as u32;
    let scope = scope(parent)?;
    let until = moment(parent, Avp::Until.name())?;
    Ok(BucketBalance {
        number,
        from,
        until,
        scope,
        unit: unit(parent),
        credited: amounts.credited,
        available: amounts.available,
        reserved: amounts.reserved,
        charged: amounts.charged,
        expired: amounts.expired,
    })
}

#[tactic(auto, unfolding(crate::specs::ReadingBalances::bucket_at))]
fn bucket(parent: &Tree<'_>) -> Result<BucketBalance, WireFault>
    ensures { Says (λ b. b) result (bucket_at (view parent.now)) }
{
    let amounts = read_amounts(parent)?;
    bucket_with(&amounts, parent)
}

fn buckets_from(alloc: Global, list: &Items<'_>) -> Result<Vec<BucketBalance>, WireFault>
    ensures { Gives (λ v. v.items) result (buckets_from (items_view list.now.items)) }
{
    read_each(alloc, list, |_, value| bucket(value))
}

#[tactic(auto, unfolding(crate::specs::ReadingBalances::buckets_in))]
fn buckets(alloc: Global, parent: &Tree<'_>) -> Result<BucketBalances, WireFault>
    ensures { Gives (λ s. s) result (buckets_in (view parent.now)) }
{
    let list = as_array(members::member(parent, BUCKETS)?).ok_or(WireFault::NotRequest)?;
    Ok(BucketBalances::new(buckets_from(alloc, list)?))
}

#[tactic(auto, unfolding(crate::specs::ReadingBalances::account_in))]
fn account(alloc: Global, parent: &Tree<'_>) -> Result<AccountNumber, WireFault>
    ensures { Gives (λ a. a) result (account_in (view parent.now)) }
{
    let text = members::text(parent, ACCOUNT)?;
    AccountNumber::new(alloc, text)?.ok_or(WireFault::NotRequest)
}

/// The balance that an object is.
#[tactic(auto, unfolding(crate::specs::ReadingBalances::balance_at))]
pub(crate) fn balance(alloc: Global, parent: &Tree<'_>) -> Result<AccountBalance, WireFault>
    ensures { Gives (λ a. a) result (balance_at (view parent.now)) }
{
    let account = account(alloc, parent)?;
    let barred = flag(parent, BARRED)?;
    let buckets = buckets(alloc, parent)?;
    let moment = moment(parent, MOMENT)?;
    Ok(AccountBalance {
        account,
        barred,
        buckets,
        moment,
    })
}
