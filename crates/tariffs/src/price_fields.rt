//! The prices of a rating group in a book's text.

ghost use Rattle.std.specs.Prelude.{◌≡◌, ◌<◌, ◌≤◌, ◌+◌, ◌==◌, [], length, replicate, IfOk};
ghost use Rattle.std.specs.List.{AllByRecursion, list_all};
ghost use Rattle.units.specs.Words.{greatest_price};
ghost use Rattle.toml.specs.View.{view, table_view, items_view};
ghost use Rattle.tariffs.specs.Faults.{Gives};
ghost use Rattle.tariffs.specs.Fields.{each, collected};
ghost use Rattle.tariffs.specs.Prices.{AreTiers, IsBoundAfter, IsPriceOrNone, has_tiers};
ghost use Rattle.tariffs.specs.Prices.{tier_lists};
ghost use Rattle.tariffs.specs.PricedOnce.{PricesAreOnce};
ghost use Rattle.tariffs.specs.PriceFields.{last_bound, bound_of, tier_of, next_tier, tiers_of};
ghost use Rattle.tariffs.specs.PriceFields.{price_of, with_price, prices_of};

use crate::book_fields;
use crate::fault::BookFault;
use crate::names::PeriodNames;
use crate::tiers::Tier;
use calendar::Period;
use std::alloc::{AllocError, Global};
use toml::{Table, Value};
use units::{GREATEST_PRICE, MOST_COUNTED};

fn last_bound(tiers: &[Tier]) -> u64
    ensures { result ≡ last_bound tiers.now }
{
    match tiers.last() {
        Some(tier) => tier.upto.unwrap_or(0),
        None => 0,
    }
}

#[tactic(auto, unfolding(crate::specs::PriceFields::bound_of))]
fn bound(last: bool, above: u64, table: &Table) -> Result<Option<u64>, BookFault>
    ensures value { Gives (λ b. b) result (bound_of last above (table_view table.now)) }
    ensures bounded { IfOk result (λ b. IsBoundAfter last above b) }
{
    if last {
        return Ok(None);
    }
    let upto = book_fields::number(table, "upto", 1, MOST_COUNTED)?;
    if above < upto {
        Ok(Some(upto))
    } else {
        Err(BookFault::TiersNotRising)
    }
}

#[tactic(auto, unfolding(crate::specs::PriceFields::tier_of))]
fn tier(last: bool, above: u64, value: &Value) -> Result<Tier, BookFault>
    ensures value { Gives (λ t. t) result (tier_of last above (view value.now)) }
    ensures bounded { IfOk result (λ t. IsBoundAfter last above t.upto) }
    ensures priced { IfOk result (λ t. t.price ≤ greatest_price) }
{
    let table = book_fields::entry_table(value)?;
    let upto = bound(last, above, table)?;
    let price = book_fields::number(table, "price", 0, GREATEST_PRICE)?;
    Ok(Tier { upto, price })
}

fn rising_tiers(alloc: Global, values: &[Value]) -> Result<Vec<Tier>, BookFault>
    requires some { 1 ≤ length values.now }
    requires few { length values.now ≤ 8 }
    ensures value { Gives (λ v. v.items) result
        (collected (next_tier (length values.now)) [] (items_view values.now)) }
    ensures tiers { IfOk result (λ v. AreTiers v.items) }
{
    let mut tiers = Vec::new(alloc);
    for value in values {
        let last = tiers.len() + 1 == values.len();
        let above = last_bound(&tiers);
        let tier = tier(last, above, value)?;
        tiers.push(tier)?;
    }
    Ok(tiers)
}

/// Reads `tiers`.
#[tactic(auto, using(crate::proofs::Entries::item_count_view), unfolding(crate::specs::PriceFields::tiers_of))]
fn tiers(alloc: Global, table: &Table) -> Result<Vec<Tier>, BookFault>
    ensures value { Gives (λ v. v.items) result (tiers_of (table_view table.now)) }
    ensures tiers { IfOk result (λ v. AreTiers v.items) }
{
    let values = book_fields::filled_array(table, "tiers", 8)?;
    rising_tiers(alloc, values)
}

#[tactic(auto, unfolding(crate::specs::PriceFields::price_of))]
fn price(
    alloc: Global,
    names: &PeriodNames,
    prices: &[Vec<Tier>],
    value: &Value,
) -> Result<(Period, Vec<Tier>), BookFault>
    requires { length prices.now ≡ length names.now }
    ensures value { Gives (λ p. (p.0, p.1.items)) result
        (price_of names.now (tier_lists prices.now) (view value.now)) }
    ensures in_range { IfOk result (λ p. p.0.0 < length names.now) }
    ensures tiers { IfOk result (λ p. AreTiers p.1.items) }
{
    let table = book_fields::entry_table(value)?;
    let period = names.period(table)?;
    if !prices[usize::from(period.0)].is_empty() {
        return Err(BookFault::OutOfRange);
    }
    let tiers = tiers(alloc, table)?;
    Ok((period, tiers))
}

fn no_prices(alloc: Global, count: usize) -> Result<Vec<Vec<Tier>>, AllocError>
    ensures { IfOk result (λ v. tier_lists v.items ≡ replicate count []) }
{
    let mut prices = Vec::new(alloc);
    for _ in 0..count {
        prices.push(Vec::new(alloc))?;
    }
    Ok(prices)
}

fn price_list(
    alloc: Global,
    names: &PeriodNames,
    values: &[Value],
) -> Result<Vec<Vec<Tier>>, BookFault>
    ensures value { Gives (λ v. tier_lists v.items) result
        (each (with_price names.now) (replicate (length names.now) []) (items_view values.now)) }
    ensures count { IfOk result (λ v. length v.items ≡ length names.now) }
    ensures tiers { IfOk result (λ v. AllByRecursion IsPriceOrNone (tier_lists v.items)) }
{
    let mut prices = no_prices(alloc, names.count())?;
    for value in values {
        let (period, tiers) = price(alloc, names, &prices, value)?;
        prices[usize::from(period.0)] = tiers;
    }
    Ok(prices)
}

fn is_complete(prices: &[Vec<Tier>]) -> bool
    ensures { result ≡ list_all has_tiers (tier_lists prices.now) }
{
    for tiers in prices {
        if tiers.is_empty() {
            return false;
        }
    }
    true
}

/// Reads `price`: the tiers of each period.
#[tactic(auto, using(crate::proofs::Entries::item_count_view, crate::proofs::PriceFacts::all_priced), unfolding(crate::specs::PriceFields::prices_of))]
pub(crate) fn prices(
    alloc: Global,
    names: &PeriodNames,
    table: &Table,
) -> Result<Vec<Vec<Tier>>, BookFault>
    ensures value { Gives (λ v. tier_lists v.items) result
        (prices_of names.now (table_view table.now)) }
    ensures count { IfOk result (λ v. length v.items ≡ length names.now) }
    ensures tiers { IfOk result (λ v. AllByRecursion AreTiers (tier_lists v.items)) }
{
    let values = book_fields::array(table, "price", 8)?;
    let prices = price_list(alloc, names, values)?;
    if is_complete(&prices) {
        Ok(prices)
    } else {
        Err(BookFault::Missing)
    }
}

/// Of the entries of a group's `price` exactly one names each period of the book, and its tiers are
/// the period's.
// rule: tiers
pub fn priced_once()
    ensures { PricesAreOnce }
{}
