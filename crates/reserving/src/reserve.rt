//! Grants, and the reservations that they make.

ghost use Rattle.std.specs.Prelude.{◌≡◌, ◌≤◌, ◌<◌, ◌==◌, None, true, is_some};
ghost use Rattle.std.specs.Prelude.{length, option_map, OnOk, OnErr, IfOk};
ghost use Rattle.reserving.specs.Calls.{IsLive, Reserves, TellsGrant};
ghost use Rattle.buckets.specs.Spend.{funds, allowance};
ghost use Rattle.shelves.specs.Shelves.{book_at};
ghost use Rattle.reserving.specs.Sessions.{group_in, is_live_in};
ghost use Rattle.ledger.specs.Pricing.{tariff_at, cycle_at, terms_at};
ghost use Rattle.ledger.specs.Pricing.{validity_of};
ghost use Rattle.ledger.specs.Reservation.{held_due};
ghost use Rattle.reserving.specs.Quotas.{IsQuota};
ghost use Rattle.reserving.specs.Changes.{advanced, used_in, count_in, reserved_account};
ghost use Rattle.reserving.specs.Prepared.{with_group_row, reservation_in};
ghost use Rattle.reserving.specs.Rows.{IsAccount};
ghost use Rattle.reserving.specs.Placed.{AreOfBook};

use crate::account::Account;
use crate::fault::AccountFault;
use crate::grouping;
use crate::pricing::{wanted_of, window_at};
use buckets::HoldRoom;
use identifiers::SessionId;
use ledger::Terms;
use rating::{Grant, Means, Periods, greatest_grant};
use units::{Amount, Blocks, Moment, Units};

/// What is granted of a wanted amount (Granted-Service-Unit, RFC 8506 section 8.17).
#[derive(Clone, Copy, Debug)]
pub enum Granted {
    /// The funds cover no unit: nothing is reserved.
    Nothing,
    /// Units, and what the answer says of them.
    Units {
        /// How many.
        units: Units,
        /// The moment of a tariff switch within the validity (Tariff-Time-Change, RFC 8506 section
        /// 8.20).
        switch: Option<Moment>,
        /// The seconds for which the grant is valid (Validity-Time, RFC 8506 section 8.33).
        validity: u32,
        /// Whether they are fewer than wanted: the final units (Final-Unit-Indication, RFC 8506
        /// section 8.34).
        fewer: bool,
    },
}

/// What a wanted amount comes to.
#[derive(Clone, Copy)]
struct Quota {
    /// The units that are wanted.
    wanted: u64,
    /// The greatest grant that the funds cover.
    grant: Grant,
}

impl<'b> Account<'b> {
    /// Reserves units of a rating group for a live session that has no reservation of it (RFC 8506
    /// sections 5.2 and 5.3; TS 32.299, session charging with unit reservation): of what is
    /// requested, or of the group's slice, as much as the eligible buckets cover; its price is held
    /// in them.
    ///
    /// # Errors
    /// `Memory` and no other: a growth was refused. Then the account is unchanged.
    // rule: grant-terms.terms-at, grant-units.passes-in, grant-held, database-loads.with
    pub fn reserve(
        &mut self,
        session: &SessionId,
        group: u32,
        requested: Option<Units>,
        moment: Moment,
    ) -> Result<Granted, AccountFault>
        requires moment { self.old.as_of ≤ moment }
        requires live { IsLive self.old moment session.now }
        requires free { reservation_in session.now group self.old.groups ≡ None }
        ensures { Reserves session.now group (option_map (λ u. u.0) requested) moment self.old
            self.new result }
    {
        let window = window_at(self.shelf.book_at(moment), moment);
        let quota = self.quota(session, group, requested, window.periods, moment);
        if quota.grant.units.0 == 0 {
            self.advance(moment);
            return Ok(Granted::Nothing);
        }
        let room = self.make_row(session, group)?;
        self.advance(moment);
        let terms = Terms {
            book: self.shelf.number_at(moment),
            periods: window.periods,
        };
        self.hold_quota(room, session, group, terms, quota.grant);
        Ok(Granted::Units {
            units: quota.grant.units,
            switch: window.switch,
            validity: window.validity,
            fewer: quota.grant.units.0 < quota.wanted,
        })
    }

    /// Whether a session that used nothing of the rating group yet would be granted units (RFC 8506
    /// section 5.2). It takes no memory and changes nothing.
    pub fn would_grant(&self, group: u32, requested: Option<Units>, moment: Moment) -> bool
        requires { self.now.as_of ≤ moment }
        ensures { TellsGrant group (option_map (λ u. u.0) requested) moment self.now result }
    {
        let periods = window_at(self.shelf.book_at(moment), moment).periods;
        let quota = self.quota_after(0, group, requested, periods, moment);
        0 < quota.grant.units.0
    }

    /// The greatest grant that the funds cover at a moment.
    fn quota(
        &self,
        session: &SessionId,
        group: u32,
        requested: Option<Units>,
        periods: Periods,
        moment: Moment,
    ) -> Quota
        requires moment { self.now.as_of ≤ moment }
        requires of_book { AreOfBook (book_at self.now.shelf moment) periods }
        ensures account { IsAccount self.now }
        ensures quota { IsQuota (book_at self.now.shelf moment)
            (used_in session.now group self.now.groups) group
            (option_map (λ u. u.0) requested) periods
            (count_in group (cycle_at self.now.shelf group moment) self.now.counters)
            (funds group moment (advanced moment self.now).buckets)
            (allowance group moment (advanced moment self.now).buckets) result.wanted
            result.grant }
    {
        let used = grouping::used_of(&self.rows.groups, session, group);
        self.quota_after(used, group, requested, periods, moment)
    }

    /// The greatest grant that the funds cover at a moment, after a use.
    // rule: grant-held, grant-covers
    fn quota_after(
        &self,
        used: u64,
        group: u32,
        requested: Option<Units>,
        periods: Periods,
        moment: Moment,
    ) -> Quota
        requires moment { self.now.as_of ≤ moment }
        requires of_book { AreOfBook (book_at self.now.shelf moment) periods }
        ensures { IsQuota (book_at self.now.shelf moment) used group
            (option_map (λ u. u.0) requested) periods
            (count_in group (cycle_at self.now.shelf group moment) self.now.counters)
            (funds group moment (advanced moment self.now).buckets)
            (allowance group moment (advanced moment self.now).buckets) result.wanted
            result.grant }
    {
        let Some(prices) = self
            .shelf
            .book_at(moment)
            .prices(group, periods.before, periods.after)
        else {
            return Quota::none();
        };
        let wanted = wanted_of(prices.tariff(), requested);
        let place = self.place_at(group, moment);
        let funds = self.funds(group, moment);
        let allowance = self.allowance(group, moment);
        let means = Means { allowance, funds };
        let grant = greatest_grant(&prices, Units(used), place, Units(wanted), means);
        Quota { wanted, grant }
    }

    /// Takes the memory of a reservation, and makes the row of its group. At a fault nothing has
    /// changed.
    fn make_row(&mut self, session: &SessionId, group: u32) -> Result<HoldRoom, AccountFault>
        ensures ok { OnOk result (self.new ≡ with_group_row session.now group self.old) }
        ensures room { IfOk result (λ room. length self.old.buckets ≤ room) }
        ensures err { OnErr result (self.new ≡ self.old) }
        ensures memory { OnErr result (result ≡ Err AccountFault.Memory) }
    {
        let room = self.rows.purse.room()?;
        grouping::add_group(&mut self.rows.groups, session, group)?;
        Ok(room)
    }

    /// Holds the price of a grant, and reserves its units in a row that is there.
    fn hold_quota(
        &mut self,
        room: HoldRoom,
        session: &SessionId,
        group: u32,
        terms: Terms,
        grant: Grant,
    )
        requires terms { terms ≡ terms_at self.old.shelf self.old.as_of }
        requires of_book { AreOfBook (book_at self.old.shelf self.old.as_of) terms.periods }
        requires tariff { is_some (tariff_at self.old.shelf self.old.as_of group) ≡ true }
        requires there { is_some (group_in session.now group self.old.groups) ≡ true }
        requires free { reservation_in session.now group self.old.groups ≡ None }
        requires live { is_live_in (validity_of self.old.shelf) self.old.as_of self.old.sessions
            session.now ≡ true }
        requires room { length self.old.buckets ≤ room }
        requires covered { grant.amount.0 ≤ funds group self.old.as_of self.old.buckets }
        requires allowed { grant.allowed.0 ≤ allowance group self.old.as_of self.old.buckets }
        ensures { self.new ≡ reserved_account session.now group (held_due grant) self.old }
    {
        let holds = self
            .rows
            .purse
            .hold_in(room, group, self.rows.as_of, grant.amount, grant.allowed);
        grouping::reserve_group(&mut self.rows.groups, session, group, terms, holds);
        self.quiet = None;
    }
}

impl Quota {
    /// Nothing is wanted, and nothing granted.
    fn none() -> Quota
        ensures wanted { result.wanted ≡ 0 }
        ensures grant { result.grant
            ≡ record {
              allowed = record { 0 = 0 };
              blocks = record { 0 = 0 };
              units = record { 0 = 0 };
              amount = record { 0 = 0 };
            } }
    {
        Quota {
            wanted: 0,
            grant: Grant {
                allowed: Blocks(0),
                blocks: Blocks(0),
                units: Units(0),
                amount: Amount(0),
            },
        }
    }
}
