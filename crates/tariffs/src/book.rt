//! The tariff book.

ghost use Rattle.std.specs.Prelude.{◌≡◌, ◌==◌, ◌+◌, ◌<◌, ◌≤◌, nat_lt};
ghost use Rattle.std.specs.Prelude.{length, find, slice_get, option_copied, IfSome};
ghost use Rattle.std.specs.Prelude.{IfNone, Ok, Err, All};
ghost use Rattle.units.specs.Words.{latest_moment, longest_validity};
ghost use Rattle.toml.specs.View.{table_view};
ghost use Rattle.calendar.specs.Timetable.{period_at, IsEntryAt, switch_within, IsWindow};
ghost use Rattle.calendar.specs.Timetable.{IsCycleOf, validity_from, day_end};
ghost use Rattle.calendar.specs.declared.week.Entry.{Entry};
ghost use Rattle.tariffs.specs.Faults.{Gives};
ghost use Rattle.tariffs.specs.Names.{period_named};
ghost use Rattle.tariffs.specs.Tariffs.{IsTariff};
ghost use Rattle.tariffs.specs.Books.{Book, IsBook, ReadsBook, book_of};
ghost use Rattle.tariffs.specs.GroupPrices.{GroupPrices};
ghost use Rattle.tariffs.specs.BookPrices.{prices_at, ArePricesOf};

use crate::fault::BookFault;
use crate::group_prices::Prices;
use crate::names::PeriodNames;
use crate::tariff::Tariff;
use crate::{book_fields, group_fields, week_fields};
use calendar::{Calendar, Cycle, Period, Window};
use std::alloc::Global;
use std::marker::Model;
use toml::Table;
use units::{GREATEST_CURRENCY, LONGEST_VALIDITY, Moment, Steps};

/// The tariff book of an operator: what rating groups cost in which period of the week.
pub struct TariffBook {
    zone_text: String,
    calendar: Calendar,
    currency: u16,
    validity: u32,
    periods: PeriodNames,
    tariffs: Vec<Tariff>,
}

// It is written out, so that a caller doesn't prove again how each part is dropped.
impl Drop for TariffBook {
    fn drop(self) {
        let TariffBook {
            zone_text: _,
            calendar: _,
            currency: _,
            validity: _,
            periods: _,
            tariffs: _,
        } = self;
    }
}

impl Model for TariffBook {
    ghost use Rattle.tariffs.specs.Books.{Book, IsBook};
    ghost use Rattle.tariffs.specs.BookInside.{book_in};

    ghost Value = { Book };

    ghost view = { book_in };

    ghost invariant = { λ b. IsBook (book_in b) };
}

#[tactic(auto, using(crate::proofs::ZoneFacts::zone_is), unfolding(crate::specs::Books::book_of))]
fn book(alloc: Global, table: &Table) -> Result<TariffBook, BookFault>
    ensures { Gives (λ b. b) result (book_of (table_view table.now)) }
{
    let zone = week_fields::zone(alloc, table)?;
    let zone_text = week_fields::zone_text(alloc, table)?;
    let currency = book_fields::number(table, "currency", 1, GREATEST_CURRENCY)? as u16;
    let validity = book_fields::number(table, "validity", 60, LONGEST_VALIDITY)? as u32;
    let periods = PeriodNames::read(alloc, table)?;
    let entries = week_fields::entries(alloc, &periods, table)?;
    let Some(calendar) = Calendar::new(zone, entries) else {
        return Err(BookFault::WeekNotCovered);
    };
    let tariffs = group_fields::groups(alloc, &periods, table)?;
    Ok(TariffBook {
        zone_text,
        calendar,
        currency,
        validity,
        periods,
        tariffs,
    })
}

impl TariffBook {
    /// Reads a book from a TOML document (profile).
    ///
    /// Keys are read in the order `zone`, `currency`, `validity`, `periods`, `week`, `group`, and
    /// arrays in their order.
    ///
    /// # Errors
    /// The first fault; lack of memory may be reported in place of it.
    // rule: book-text, book-text.book-of
    pub fn read(alloc: Global, bytes: &[u8]) -> Result<TariffBook, BookFault>
        ensures { ReadsBook bytes.now result }
    {
        match toml::table_from_slice(alloc, bytes) {
            Ok(table) => book(alloc, &table),
            Err(error) => {
                if error.is_memory() {
                    Err(BookFault::Memory)
                } else {
                    Err(BookFault::NotToml)
                }
            }
        }
    }

    /// The text of its zone as it is written in the document: two books are of one zone where these
    /// are the same.
    pub fn zone_text(&self) -> &str
        ensures { result.now ≡ self.now.zone_text }
    {
        self.zone_text.as_str()
    }

    /// The ISO 4217 number of the currency (Currency-Code, RFC 8506 section 8.11), 1 to 999.
    pub fn currency(&self) -> u16
        ensures value { result ≡ self.now.currency }
        ensures book { IsBook self.now }
    {
        self.currency
    }

    /// The validity of a grant (Validity-Time, RFC 8506 section 8.33), 60 to 43,200 seconds.
    pub fn validity(&self) -> u32
        ensures value { result ≡ self.now.validity }
        ensures book { IsBook self.now }
    {
        self.validity
    }

    /// The tariffs of its rating groups, in the order of the document.
    pub fn tariffs(&self) -> &[Tariff]
        ensures value { result.now ≡ self.now.tariffs }
        ensures tariffs { All IsTariff result.now }
    {
        self.tariffs.as_slice()
    }

    /// The tariff of a rating group; None for a group that the book doesn't have.
    pub fn tariff(&self, group: u32) -> Option<&Tariff>
        ensures value { option_copied result ≡ find (λ t. t.group == group) self.now.tariffs }
        ensures tariff { IfSome result (λ t. IsTariff t.now) }
        ensures periods { IfSome result (λ t. length t.now.prices ≡ length self.now.periods) }
    {
        for tariff in &self.tariffs {
            if tariff.group() == group {
                return Some(tariff);
            }
        }
        None
    }

    /// Whether a period is one of the book's.
    pub fn has_period(&self, period: Period) -> bool
        ensures { result ≡ nat_lt period.0 (length self.now.periods) }
    {
        usize::from(period.0) < self.periods.count()
    }

    /// The prices of a rating group in two periods, that before a tariff switch and that after it
    /// (without a switch the same): the tiers of both, from this book's tariff of the group. None
    /// for a group that the book doesn't have, and where a period isn't the book's.
    // rule: tiers.prices-at
    pub fn prices(&self, group: u32, before: Period, after: Period) -> Option<Prices<'_>>
        ensures value { result ≡ prices_at self.now group before.0 after.0 }
        ensures found { IfSome result (ArePricesOf self.now group before.0 after.0) }
        ensures none { IfNone result
            ((p : GroupPrices) → ArePricesOf self.now group before.0 after.0 p → ⊥) }
    {
        if !self.has_period(before) || !self.has_period(after) {
            return None;
        }
        let tariff = self.tariff(group)?;
        Some(Prices::new(tariff, before, after))
    }

    /// The name of a period; None for one that the book doesn't have.
    pub fn period_name(&self, period: Period) -> Option<&str>
        ensures value { option_copied result ≡ slice_get self.now.periods period.0 }
        // Its period is found by the name again.
        ensures back { IfSome result (λ s. period_named self.now.periods s.now ≡ Some period) }
    {
        self.periods.name(period)
    }

    /// The period of a name; None for a name that the book doesn't have.
    pub fn period_named(&self, name: &str) -> Option<Period>
        ensures value { result ≡ period_named self.now.periods name.now }
        ensures in_range { IfSome result (λ p. p.0 < length self.now.periods) }
        // Its name is this text again.
        ensures back { IfSome result (λ p. slice_get self.now.periods p.0 ≡ Some name.now) }
    {
        self.periods.named(name)
    }

    /// The tariff period at a moment: that of the civil weekday and minute, in the book's zone, of
    /// the beginning of the moment's UTC minute (rating by time, TS 32.296; the rule of the minute
    /// is profile).
    pub fn period_at(&self, moment: Moment) -> Period
        ensures value { result ≡ period_at self.now.calendar moment }
        ensures entry { (e : Entry) → IsEntryAt self.now.calendar moment e → result ≡ e.period }
        ensures in_range { result.0 < length self.now.periods }
    {
        self.calendar.period_at(moment)
    }

    /// The tariff switch (Tariff-Time-Change, RFC 8506 section 8.20): the least whole minute after
    /// the moment, and less than so many seconds later, whose period is another than that at the
    /// moment. At most 43,200 seconds are asked for, up to the last moment that the type has: each
    /// moment of a command has that many after it.
    pub fn next_switch(&self, moment: Moment, seconds: u32) -> Option<Moment>
        requires seconds { seconds ≤ longest_validity }
        requires in_range { moment + seconds ≤ latest_moment }
        ensures { result ≡ switch_within self.now.calendar moment seconds }
    {
        self.calendar.next_switch(moment, seconds)
    }

    /// `next_switch`, going from one entry's end of the week to the next: a step an entry, and an
    /// entry in which the zone's offset changes counts twice, at most 260.
    // rule: switch-steps.change
    pub fn next_switch_steps(
        &self,
        moment: Moment,
        seconds: u32,
        steps: &mut Steps,
    ) -> Option<Moment>
        requires seconds { seconds ≤ longest_validity }
        requires in_range { moment + seconds ≤ latest_moment }
        requires steps { steps.old ≤ 1_000_000_000 }
        ensures value { result ≡ switch_within self.now.calendar moment seconds }
        ensures steps { steps.new ≤ steps.old + 260 }
    {
        self.calendar.next_switch_steps(moment, seconds, steps)
    }

    /// The tariff switch within so many seconds from a moment on (Tariff-Time-Change, RFC 8506
    /// section 8.20), and these seconds cut at the next later change of period after it
    /// (Validity-Time, section 8.33).
    pub fn window_from(&self, moment: Moment, seconds: u32) -> Window
        ensures { IsWindow self.now.calendar moment seconds result }
    {
        self.calendar.window_from(moment, seconds)
    }

    /// The Validity-Time of a grant (RFC 8506 section 8.33), in seconds: the book's validity, cut
    /// at the next later change of period after the switch that lies within it.
    pub fn validity_from(&self, moment: Moment) -> u32
        ensures value { result ≡ validity_from self.now.calendar moment self.now.validity }
    {
        self.calendar.validity_from(moment, self.validity)
    }

    /// The number of a counter's cycle at a moment, in the book's zone: 0 for none; days since
    /// 1969-12-31; months since January 1969 (profile).
    pub fn cycle_of(&self, cycle: Cycle, moment: Moment) -> u32
        ensures { IsCycleOf self.now.calendar.zone cycle moment result }
    {
        self.calendar.cycle_of(cycle, moment)
    }

    /// Where the civil day so many days after that of the moment ends, in the book's zone:
    /// 00:00 of the day after it, read with the offset before the change where it is skipped or
    /// comes twice; None past the last moment of commands.
    pub fn day_end(&self, moment: Moment, days: u32) -> Option<Moment>
        ensures { result ≡ day_end self.now.calendar.zone moment days }
    {
        self.calendar.day_end(moment, days)
    }
}
