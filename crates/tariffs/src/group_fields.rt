//! The members of a rating group in a book's text.

ghost use Rattle.std.specs.Prelude.{◌≡◌, ◌<◌, ◌≤◌, ◌/◌, ◌==◌, false, [], length, All, IfOk};
ghost use Rattle.std.specs.List.{list_any};
ghost use Rattle.toml.specs.View.{view, table_view, items_view};
ghost use Rattle.tariffs.specs.Faults.{Gives};
ghost use Rattle.tariffs.specs.Fields.{collected};
ghost use Rattle.tariffs.specs.Tariffs.{IsTariff, AreOfOtherGroups};
ghost use Rattle.tariffs.specs.GroupFields.{id_of, unit_named, unit_of, most_units, max_grant_of};
ghost use Rattle.tariffs.specs.GroupFields.{cycle_named, cycle_of, redirect_of, final_action_of};
ghost use Rattle.tariffs.specs.GroupFields.{group_of, groups_of};

use crate::fault::BookFault;
use crate::final_action::FinalAction;
use crate::names::PeriodNames;
use crate::tariff::Tariff;
use crate::{book_fields, price_fields};
use calendar::Cycle;
use identifiers::RedirectAddress;
use std::alloc::Global;
use toml::{Table, Value};
use units::{GREATEST_NUMBER, MOST_GRANTED, MOST_SECONDS, UnitKind};

fn has_group(before: &[Tariff], id: u32) -> bool
    ensures { result ≡ list_any (λ other. other.group == id) before.now }
{
    for other in before {
        if other.group() == id {
            return true;
        }
    }
    false
}

#[tactic(auto, unfolding(crate::specs::GroupFields::id_of))]
fn id(before: &[Tariff], table: &Table) -> Result<u32, BookFault>
    ensures value { Gives (λ n. n) result (id_of before.now (table_view table.now)) }
    ensures new { IfOk result (λ n. list_any (λ other. other.group == n) before.now ≡ false) }
{
    let id = book_fields::number(table, "id", 0, GREATEST_NUMBER)? as u32;
    if has_group(before, id) {
        return Err(BookFault::OutOfRange);
    }
    Ok(id)
}

fn unit_named(text: &str) -> Option<UnitKind>
    ensures { result ≡ unit_named text.now }
{
    if text == "time" {
        Some(UnitKind::Time)
    } else if text == "octets" {
        Some(UnitKind::TotalOctets)
    } else if text == "events" {
        Some(UnitKind::ServiceSpecific)
    } else {
        None
    }
}

#[tactic(auto, unfolding(crate::specs::GroupFields::unit_of))]
fn unit(table: &Table) -> Result<UnitKind, BookFault>
    ensures { Gives (λ u. u) result (unit_of (table_view table.now)) }
{
    let text = book_fields::text(table, "unit")?;
    unit_named(text).ok_or(BookFault::OutOfRange)
}

fn most_units(unit: UnitKind) -> u64
    ensures { result ≡ most_units unit }
{
    match unit {
        UnitKind::Time => MOST_SECONDS,
        UnitKind::TotalOctets | UnitKind::ServiceSpecific => MOST_GRANTED,
    }
}

#[tactic(auto, unfolding(crate::specs::GroupFields::max_grant_of))]
fn max_grant(unit: UnitKind, block: u64, slice: u64, table: &Table) -> Result<u64, BookFault>
    requires { 1 ≤ block }
    ensures value { Gives (λ n. n) result (max_grant_of unit block slice (table_view table.now)) }
    ensures most { IfOk result (λ n. n ≤ most_units unit) }
    ensures slice { IfOk result (λ n. slice ≤ n) }
    ensures few_blocks { IfOk result (λ n. n / block ≤ 999_999_999) }
{
    let most = book_fields::number(table, "max_grant", 1, MOST_GRANTED)?;
    if most <= most_units(unit) && slice <= most && most / block <= 999_999_999 {
        Ok(most)
    } else {
        Err(BookFault::OutOfRange)
    }
}

fn cycle_named(text: &str) -> Option<Cycle>
    ensures { result ≡ cycle_named text.now }
{
    if text == "none" {
        Some(Cycle::None)
    } else if text == "day" {
        Some(Cycle::Day)
    } else if text == "month" {
        Some(Cycle::Month)
    } else {
        None
    }
}

#[tactic(auto, unfolding(crate::specs::GroupFields::cycle_of))]
fn cycle(table: &Table) -> Result<Cycle, BookFault>
    ensures { Gives (λ c. c) result (cycle_of (table_view table.now)) }
{
    let text = book_fields::text(table, "cycle")?;
    cycle_named(text).ok_or(BookFault::OutOfRange)
}

#[tactic(auto, unfolding(crate::specs::GroupFields::redirect_of))]
fn redirect(alloc: Global, table: &Table) -> Result<FinalAction, BookFault>
    ensures { Gives (λ a. a) result (redirect_of (table_view table.now)) }
{
    let text = book_fields::text(table, "redirect")?;
    match RedirectAddress::new(alloc, text)? {
        Some(address) => Ok(FinalAction::Redirect(address)),
        None => Err(BookFault::OutOfRange),
    }
}

#[tactic(auto, unfolding(crate::specs::GroupFields::final_action_of))]
fn final_action(alloc: Global, table: &Table) -> Result<FinalAction, BookFault>
    ensures { Gives (λ a. a) result (final_action_of (table_view table.now)) }
{
    let text = book_fields::text(table, "final")?;
    if text == "terminate" {
        Ok(FinalAction::Terminate)
    } else if text == "redirect" {
        redirect(alloc, table)
    } else {
        Err(BookFault::OutOfRange)
    }
}

#[tactic(auto, unfolding(crate::specs::GroupFields::group_of))]
fn group(
    alloc: Global,
    names: &PeriodNames,
    before: &[Tariff],
    value: &Value,
) -> Result<Tariff, BookFault>
    ensures value { Gives (λ t. t) result (group_of names.now before.now (view value.now)) }
    ensures new { IfOk result (λ t. list_any (λ other. other.group == t.group) before.now ≡ false) }
    ensures tariff { IfOk result (λ t. IsTariff t) }
    ensures periods { IfOk result (λ t. length t.prices ≡ length names.now) }
{
    let table = book_fields::entry_table(value)?;
    let group = id(before, table)?;
    let unit = unit(table)?;
    let block = book_fields::number(table, "block", 1, MOST_GRANTED)?;
    let slice = book_fields::number(table, "slice", 1, MOST_GRANTED)?;
    let max_grant = max_grant(unit, block, slice, table)?;
    let cycle = cycle(table)?;
    let final_action = final_action(alloc, table)?;
    let prices = price_fields::prices(alloc, names, table)?;
    Ok(Tariff {
        group,
        unit,
        block,
        slice,
        max_grant,
        cycle,
        final_action,
        prices,
    })
}

fn group_list(
    alloc: Global,
    names: &PeriodNames,
    values: &[Value],
) -> Result<Vec<Tariff>, BookFault>
    ensures value { Gives (λ v. v.items) result
        (collected (group_of names.now) [] (items_view values.now)) }
    ensures count { IfOk result (λ v. length v.items ≡ length values.now) }
    ensures distinct { IfOk result (λ v. AreOfOtherGroups v.items) }
    ensures tariffs { IfOk result (λ v. All IsTariff v.items) }
    ensures periods { IfOk result (λ v. All (λ t. length t.prices ≡ length names.now) v.items) }
{
    let mut tariffs = Vec::new(alloc);
    for value in values {
        let tariff = group(alloc, names, &tariffs, value)?;
        tariffs.push(tariff)?;
    }
    Ok(tariffs)
}

/// Reads `group`.
#[tactic(auto, unfolding(crate::specs::GroupFields::groups_of))]
pub(crate) fn groups(
    alloc: Global,
    names: &PeriodNames,
    table: &Table,
) -> Result<Vec<Tariff>, BookFault>
    ensures value { Gives (λ v. v.items) result (groups_of names.now (table_view table.now)) }
    ensures some { IfOk result (λ v. 1 ≤ length v.items) }
    ensures few { IfOk result (λ v. length v.items ≤ 64) }
    ensures distinct { IfOk result (λ v. AreOfOtherGroups v.items) }
    ensures tariffs { IfOk result (λ v. All IsTariff v.items) }
    ensures periods { IfOk result (λ v. All (λ t. length t.prices ≡ length names.now) v.items) }
{
    let values = book_fields::filled_array(table, "group", 64)?;
    group_list(alloc, names, values)
}
