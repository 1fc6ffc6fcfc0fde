//! The calendar of a tariff book: its week in its zone.

ghost use Rattle.std.specs.Prelude.{◌≡◌, ◌↔◌, ◌≤◌, ◌<◌, ◌^◌, ◌+◌, ◌*◌, ◌-◌, Some, IsSome};
ghost use Rattle.std.specs.Prelude.{IfSome};
ghost use Rattle.units.specs.Words.{latest_moment, longest_validity};
ghost use Rattle.calendar.specs.Week.{IsWeek};
ghost use Rattle.calendar.specs.Timetable.{timetable_of, IsTimetable, period_at, IsEntryAt};
ghost use Rattle.calendar.specs.Timetable.{IsChange, IsWindow, switch_within};
ghost use Rattle.calendar.specs.Timetable.{cut_after, validity_from, IsCycleOf, cycle_of, day_end};

use crate::cycle::Cycle;
use crate::week::{Entry, Period};
use crate::window::Window;
use crate::zone::Zone;
use crate::{covered, switching};
use std::marker::Model;
use units::{Moment, Steps};

/// The week of a tariff book in its zone: the period of each of its 10,080 minutes.
pub struct Calendar {
    zone: Zone,
    entries: Vec<Entry>,
}

// It is written out, so that a caller doesn't prove again how each part is dropped.
impl Drop for Calendar {
    fn drop(self) {
        let Calendar {
            zone: _,
            entries: _,
        } = self;
    }
}

impl Model for Calendar {
    ghost use Rattle.calendar.specs.Timetable.{Timetable, IsTimetable};

    ghost Value = { Timetable };

    ghost view = { λ c. record { zone = c.zone; entries = c.entries.items } };

    ghost invariant = { λ c. IsTimetable (record { zone = c.zone; entries = c.entries.items }) };
}

impl Calendar {
    /// The calendar of a zone and the entries of a week; None where there are more than 64, where
    /// one ends after 24:00, or where some minute of the week is in no entry or in several.
    pub fn new(zone: Zone, entries: Vec<Entry>) -> Option<Calendar>
        ensures week { IsSome result ↔ IsWeek entries.items }
        ensures value { result ≡ timetable_of zone entries.items }
        ensures timetable { IfSome result IsTimetable }
    {
        // For the prover alone: looking at the value makes known here what its type keeps.
        let _first = zone.clock_at(0);
        if covered::is_week(&entries) {
            Some(Calendar { zone, entries })
        } else {
            None
        }
    }

    /// The tariff period at a moment: that of the civil weekday and minute of the beginning of its
    /// UTC minute (Tariff-Time-Change and rating by time, TS 32.296; the rule of the minute is
    /// profile).
    // rule: period
    pub fn period_at(&self, moment: Moment) -> Period
        ensures value { result ≡ period_at self.now moment }
        ensures entry { (e : Entry) → IsEntryAt self.now moment e → result ≡ e.period }
        ensures calendar { IsTimetable self.now }
    {
        let minute = 60 * (moment.seconds() / 60);
        covered::entry_at(&self.entries, self.zone.clock_at(minute)).period
    }

    /// The tariff switch (Tariff-Time-Change, RFC 8506 section 8.20): the least whole minute after
    /// the moment, and less than so many seconds later, whose period is another than that at the
    /// moment. At most 43,200 seconds are asked for, up to the last moment that the type has: each
    /// moment of a command has that many after it.
    // rule: switch
    pub fn next_switch(&self, moment: Moment, seconds: u32) -> Option<Moment>
        requires seconds { seconds ≤ longest_validity }
        requires in_range { moment + seconds ≤ latest_moment }
        ensures { result ≡ switch_within self.now moment seconds }
    {
        self.next_switch_steps(moment, seconds, &mut Steps::new())
    }

    /// `next_switch`, going from one entry's end to the next: a step an entry, and an
    /// entry in which the zone's offset changes counts twice, at most 260.
    // rule: switch-steps
    pub fn next_switch_steps(
        &self,
        moment: Moment,
        seconds: u32,
        steps: &mut Steps,
    ) -> Option<Moment>
        requires seconds { seconds ≤ longest_validity }
        requires in_range { moment + seconds ≤ latest_moment }
        requires steps { steps.old ≤ 1_000_000_000 }
        ensures value { result ≡ switch_within self.now moment seconds }
        ensures steps { steps.new ≤ steps.old + 260 }
    {
        match self.change_after(moment.seconds(), seconds, steps) {
            Some(change) => Moment::new(change),
            None => None,
        }
    }

    /// The first whole minute after a moment, and less than so many seconds later, of another
    /// period.
    // rule: switch-steps
    fn change_after(&self, start: u64, seconds: u32, steps: &mut Steps) -> Option<u64>
        requires start { start < 2 ^ 33 }
        requires steps { steps.old ≤ 1_000_000_000 }
        ensures value { result ≡ switch_within self.now start seconds }
        ensures found { IfSome result (IsChange self.now start (start + seconds)) }
        ensures steps { seconds ≤ longest_validity → steps.new ≤ steps.old + 258 }
    {
        let end = start + u64::from(seconds);
        let mut at = 60 * (start / 60);
        let here = covered::entry_at(&self.entries, self.zone.clock_at(at)).period;
        while at < end {
            let stretch = self.zone.stretch_at(at);
            let stop = stretch.until.min(end);
            let other = switching::other_within(&self.entries, stretch.lead, at, stop, here, steps);
            if let Some(change) = other {
                return Some(change);
            }
            at = stretch.until;
        }
        None
    }

    /// The tariff switch within a validity from a moment on, and the validity that is granted with
    /// it, as `next_switch` and `validity_from` give them, by one walk over the week.
    // rule: validity
    pub fn window_from(&self, moment: Moment, validity: u32) -> Window
        ensures { IsWindow self.now moment validity result }
    {
        let start = moment.seconds();
        match self.change_after(start, validity, &mut Steps::new()) {
            Some(switch) => Window {
                switch: Some(switch),
                validity: self.validity_after(start, validity, switch),
            },
            None => Window {
                switch: None,
                validity,
            },
        }
    }

    /// A validity from a moment on, cut at the first change after its switch.
    fn validity_after(&self, start: u64, validity: u32, switch: u64) -> u32
        requires start { start ≤ latest_moment }
        requires later { start < switch }
        requires within { switch < start + validity }
        ensures { result ≡ cut_after self.now start validity (Some switch) }
    {
        let end = start + u64::from(validity);
        let left = (end - switch) as u32;
        match self.change_after(switch, left, &mut Steps::new()) {
            Some(next) => (next - start) as u32,
            None => validity,
        }
    }

    /// The granted Validity-Time (RFC 8506 section 8.33), in seconds: the book's validity, cut at
    /// the next later change of period after the switch that lies within it.
    // rule: validity
    pub fn validity_from(&self, moment: Moment, validity: u32) -> u32
        ensures { result ≡ validity_from self.now moment validity }
    {
        self.window_from(moment, validity).validity
    }

    /// The number of a counter's cycle at a moment, in the book's zone: 0 for none; days since
    /// 1969-12-31; months since January 1969.
    // rule: counters.cycle-at
    pub fn cycle_of(&self, cycle: Cycle, moment: Moment) -> u32
        ensures { IsCycleOf self.now.zone cycle moment result }
    {
        match cycle {
            Cycle::None => 0,
            Cycle::Day => self.zone.day_at(moment.seconds()),
            Cycle::Month => self.zone.month_at(moment.seconds()),
        }
    }

    /// Where the day so many days after that of the moment ends: 00:00 of the civil day after it (a
    /// voucher has 1 to 3,650 days), read with the offset before the change where it is skipped or
    /// comes twice; None past the last moment of commands.
    pub fn day_end(&self, moment: Moment, days: u32) -> Option<Moment>
        ensures { result ≡ day_end self.now.zone moment days }
    {
        self.zone.day_end(moment.seconds(), days)
    }
}
