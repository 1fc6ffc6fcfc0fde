//! What tariff books say of a grant's validity and of a report's parts.

ghost use Rattle.std.specs.Prelude.{◌≡◌, ◌+◌, ◌≤◌, ◌<◌, ◌^◌, ℕ, List, Some, None, IfSome, IfNone};
ghost use Rattle.std.specs.Prelude.{option_map, if◌then◌else◌};
ghost use Rattle.units.specs.Words.{latest_moment};
ghost use Rattle.units.specs.declared.blocks.TariffChangeUsage.TheVariants.{UnitBeforeTariffChange};
ghost use Rattle.units.specs.declared.blocks.TariffChangeUsage.TheVariants.{UnitAfterTariffChange};
ghost use Rattle.units.specs.declared.blocks.TariffChangeUsage.TheVariants.{UnitIndeterminate};
ghost use Rattle.calendar.specs.Timetable.{period_at};
ghost use Rattle.rating.specs.Rated.{part_of, rated_report};
ghost use Rattle.ledger.specs.Pricing.{reach, switch_by, validity_by, periods_by, is_change};
ghost use Rattle.ledger.specs.Pricing.{units_of, four_parts, wanted_units};
ghost use Rattle.reserving.specs.Placed.{AreOfBook, AreOfShelf};
ghost use Rattle.shelves.specs.Shelves.{tariff_in};
ghost use Rattle.ledger.specs.Pricing.{prices_by, terms_now};
ghost use Rattle.ledger.specs.Settlement.{reported, price_by};
ghost use Rattle.units.specs.declared.blocks.UsedPart.{UsedPart};

use ledger::Terms;
use rating::{Part, Periods, Rated, rate_report};
use shelves::TariffShelf;
use tariffs::{Prices, Side, Tariff, TariffBook};
use units::{Blocks, LATEST_MOMENT, Moment, TariffChangeUsage, Units, UsedPart, blocks_started};

/// For how long, and by which periods, a grant of a moment is valid.
#[derive(Clone, Copy)]
pub(crate) struct GrantWindow {
    /// The periods at the grant and at its tariff switch.
    pub(crate) periods: Periods,
    /// The tariff switch within the validity.
    pub(crate) switch: Option<Moment>,
    /// The seconds of the validity, cut at the next change of period after the switch.
    pub(crate) validity: u32,
}

/// The validity of a grant of this moment.
// rule: switch.switch-by, validity
pub(crate) fn window_at(book: &TariffBook, moment: Moment) -> GrantWindow
    ensures periods { result.periods ≡ periods_by book.now moment }
    ensures of_book { AreOfBook book.now result.periods }
    ensures switch { result.switch ≡ switch_by book.now moment }
    ensures validity { result.validity ≡ validity_by book.now moment }
{
    let before = book.period_at(moment);
    let found = book.window_from(moment, reach(book, moment));
    let validity = found.validity;
    match switch_moment(found.switch) {
        Some(switch) => GrantWindow {
            periods: Periods {
                before,
                after: book.period_at(switch),
            },
            switch: Some(switch),
            validity,
        },
        None => GrantWindow {
            periods: Periods {
                before,
                after: before,
            },
            switch: None,
            validity,
        },
    }
}

/// A switch as a moment.
fn switch_moment(switch: Option<u64>) -> Option<Moment>
    requires { IfSome switch (λ s. s ≤ latest_moment) }
    ensures { result ≡ switch }
{
    match switch {
        Some(seconds) => Moment::new(seconds),
        None => None,
    }
}

/// The seconds of the book's validity after a moment, as far as there are moments.
fn reach(book: &TariffBook, moment: Moment) -> u32
    ensures value { result ≡ reach book.now moment }
    ensures within { moment + result ≤ latest_moment }
{
    let left = LATEST_MOMENT - moment.seconds();
    let validity = book.validity();
    if u64::from(validity) < left {
        validity
    } else {
        left as u32
    }
}

/// The prices of a rating group by the terms of a grant.
// rule: report-book, report-period
pub(crate) fn prices_by(shelf: &TariffShelf, group: u32, terms: Terms) -> Option<Prices<'_>>
    requires { AreOfShelf shelf.now terms }
    ensures { result
        ≡ option_map (λ x. prices_by x terms.periods) (tariff_in shelf.now terms.book group) }
{
    shelf.prices(terms.book, group, terms.periods.before, terms.periods.after)
}

/// The blocks that units start after a use so far, by the terms of a grant, whatever is covered of
/// them. A group that their book doesn't have has no blocks.
// rule: report-order
pub(crate) fn blocks_by(
    shelf: &TariffShelf,
    group: u32,
    terms: Terms,
    used: u64,
    units: Units,
) -> Blocks
    requires { AreOfShelf shelf.now terms }
    ensures { (parts : List UsedPart) (place covered : ℕ) → reported parts ≡ units.0 →
        result.0 ≡ (price_by shelf.now group terms used place covered parts).blocks }
{
    let Some(prices) = prices_by(shelf, group, terms) else {
        return Blocks(0);
    };
    blocks_started(Units(used), units, prices.block())
}

/// The terms of what has no grant: the book at a moment and its period.
pub(crate) fn terms_now(shelf: &TariffShelf, moment: Moment) -> Terms
    ensures value { result ≡ terms_now shelf.now moment }
    ensures of_shelf { AreOfShelf shelf.now result }
{
    let period = shelf.book_at(moment).period_at(moment);
    Terms {
        book: shelf.number_at(moment),
        periods: Periods {
            before: period,
            after: period,
        },
    }
}

/// The units of a report, by their Tariff-Change-Usage.
#[derive(Clone, Copy)]
pub(crate) struct Tally {
    /// Without one.
    pub(crate) untagged: u128,
    /// Before the switch.
    pub(crate) before: u128,
    /// On both sides of the switch.
    pub(crate) indeterminate: u128,
    /// After the switch.
    pub(crate) after: u128,
}

/// Counts the units of a report's parts.
// rule: report-order
pub(crate) fn tally_of(parts: &[UsedPart]) -> Tally
    ensures untagged { result.untagged ≡ units_of None parts.now }
    ensures before { result.before ≡ units_of (Some UnitBeforeTariffChange) parts.now }
    ensures indeterminate { result.indeterminate ≡ units_of (Some UnitIndeterminate) parts.now }
    ensures after { result.after ≡ units_of (Some UnitAfterTariffChange) parts.now }
    ensures total { result.untagged + result.before + result.indeterminate + result.after
        ≡ reported parts.now }
{
    Tally {
        untagged: units_of(parts, None),
        before: units_of(parts, Some(TariffChangeUsage::UnitBeforeTariffChange)),
        indeterminate: units_of(parts, Some(TariffChangeUsage::UnitIndeterminate)),
        after: units_of(parts, Some(TariffChangeUsage::UnitAfterTariffChange)),
    }
}

/// The units of a report, all its parts together.
pub(crate) fn reported_units(parts: &[UsedPart]) -> u128
    ensures sum { result ≡ reported parts.now }
    ensures most { result < 2 ^ 127 }
{
    let mut total = 0;
    for part in parts {
        total += part.units.0 as u128;
    }
    total
}

/// The units of the parts with this Tariff-Change-Usage.
fn units_of(parts: &[UsedPart], change: Option<TariffChangeUsage>) -> u128
    ensures { result ≡ units_of change parts.now }
{
    let mut total = 0;
    for part in parts {
        total += units_in(part, change) as u128;
    }
    total
}

fn units_in(part: &UsedPart, change: Option<TariffChangeUsage>) -> u64
    ensures { result ≡ if is_change part.now.change change then part.now.units.0 else 0 }
{
    if part.change == change {
        part.units.0
    } else {
        0
    }
}

/// A part of a report, of so many units.
fn part(side: Side, units: u128) -> Part
    requires { units < 2 ^ 64 }
    ensures { result ≡ part_of side units }
{
    Part {
        side,
        units: Units(units as u64),
    }
}

/// What a report costs by the prices of its group, after a use so far and from a place of the
/// counter on, where its first blocks are covered.
// rule: report-order
pub(crate) fn price(prices: &Prices, used: u64, place: u64, covered: Blocks, tally: &Tally) -> Rated
    requires { tally.now.untagged + tally.now.before + tally.now.indeterminate + tally.now.after
        < 2 ^ 64 }
    ensures { result
        ≡ rated_report prices.now used place covered.0
        (four_parts tally.now.untagged tally.now.before tally.now.indeterminate
        tally.now.after) }
{
    let parts = [
        part(Side::Before, tally.untagged),
        part(Side::Before, tally.before),
        part(Side::Before, tally.indeterminate),
        part(Side::After, tally.after),
    ];
    rate_report(prices, Units(used), place, covered, &parts)
}

/// The units that are wanted of a group: what is requested, or its slice, and never more than its
/// greatest grant.
// rule: wanted
pub(crate) fn wanted_of(tariff: &Tariff, requested: Option<Units>) -> u64
    ensures value { result ≡ wanted_units tariff.now (option_map (λ u. u.0) requested) }
    ensures most { result ≤ tariff.now.max_grant }
{
    let most = tariff.max_grant();
    let wanted = match requested {
        Some(units) => units.0,
        None => tariff.slice(),
    };
    if wanted < most { wanted } else { most }
}
