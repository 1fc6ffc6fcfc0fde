//! Reports of use, settled.

ghost use Rattle.std.specs.Prelude.{◌≡◌, ◌+◌};

use crate::account::Account;
use crate::fault::AccountFault;
use crate::grouping;
use crate::live::cycle_of;
use crate::pricing::{Tally, blocks_by, price, prices_by, reported_units, tally_of, terms_now};
use buckets::{BucketKind, Charged};
use identifiers::SessionId;
use ledger::Terms;
use rating::Rated;
use units::{Amount, Blocks, GREATEST_NUMBER, Moment, Units, UsedPart};

/// What became of a report of used units or of a debit. The type keeps that what is collected and
/// what isn't sum to the rated amount.
#[derive(Clone, Copy)]
pub struct Settled {
    /// The blocks that the report started.
    pub blocks: Blocks,
    /// Those of them that the reservation's blocks and the allowances covered.
    pub covered: Blocks,
    /// What the others cost.
    pub rated: Amount,
    /// What the reservation's holds and the eligible buckets paid.
    pub collected: Amount,
    /// What they didn't reach.
    pub uncollected: Amount,
    pub ghost sum: { collected.0 + uncollected.0 ≡ rated.0 },
}

/// The most units of a group that a session uses.
const MOST_USED: u128 = 1_000_000_000_000_000_000;

/// The most blocks that a counter counts.
const MOST_COUNTED: u128 = 4_000_000_000_000_000_000;

/// A use as it is rated: its units, the blocks that they start, those of them that are covered, and
/// what the others cost.
#[derive(Clone, Copy)]
pub(crate) struct RatedUse {
    pub(crate) units: Units,
    pub(crate) blocks: Blocks,
    pub(crate) covered: Blocks,
    pub(crate) amount: Amount,
}

/// The use that a report tells, before anything of it is priced: what it goes on after, and the
/// blocks that it starts.
#[derive(Clone, Copy)]
pub struct CountedUse {
    /// The units, all parts together.
    pub(crate) units: Units,
    /// The session's use of the group before it.
    pub(crate) used: u64,
    /// The cycle of the group's counter.
    pub(crate) cycle: u32,
    /// The blocks that the counter counted in it so far.
    pub(crate) place: u64,
    /// What prices it.
    pub(crate) terms: Terms,
    /// The blocks that it starts.
    pub(crate) blocks: Blocks,
}

impl<'b> Account<'b> {
    ghost use Rattle.std.specs.Prelude.{◌≡◌, ◌+◌, ◌≤◌, ◌<◌, ◌^◌, true, false, None};
    ghost use Rattle.std.specs.Prelude.{OnOk, OnErr, IfSome, List, Some, unwrap_or};
    ghost use Rattle.ledger.specs.Settlement.{reported, price_by, passes};
    ghost use Rattle.reserving.specs.Rows.{IsAccount};
    ghost use Rattle.reserving.specs.Placed.{AreOfShelf};
    ghost use Rattle.reserving.specs.Calls.{IsLive, Settles};
    ghost use Rattle.reserving.specs.Uses.{CountsUse, IsCountedUse, IsUseOf, IsUse, IsRated};
    ghost use Rattle.buckets.specs.Kinds.{due, most_blocks_in_all};
    ghost use Rattle.buckets.specs.Holding.{uncollected, held_sum};
    ghost use Rattle.reserving.specs.Changes.{coverable_in};
    ghost use Rattle.units.specs.declared.blocks.UsedPart.{UsedPart};
    ghost use Rattle.units.specs.declared.blocks.TariffChangeUsage.TheVariants.{
      UnitBeforeTariffChange,
    };
    ghost use Rattle.units.specs.declared.blocks.TariffChangeUsage.TheVariants.{
      UnitAfterTariffChange,
    };
    ghost use Rattle.units.specs.declared.blocks.TariffChangeUsage.TheVariants.{UnitIndeterminate};
    ghost use Rattle.ledger.specs.Pricing.{cycle_at, units_of, terms_now};
    ghost use Rattle.reserving.specs.Changes.{used_in, reserved_in, terms_in, count_in};
    ghost use Rattle.reserving.specs.Changes.{price_in, settled_account};
    ghost use Rattle.reserving.specs.Changes.{ended_rows};
    ghost use Rattle.reserving.specs.Prepared.{HasUseRows, with_rows};

    /// Settles a report of a live session's use of a rating group, and ends its reservation (RFC
    /// 8506 section 5.3; TS 32.299, session charging with unit reservation). The rated amount is
    /// taken from what the reservation holds, then from the eligible buckets. A report without
    /// parts only ends the reservation.
    ///
    /// # Errors
    /// `Limit` only where the session's use, the group's counter or the number of the charge would
    /// pass its limit, else `Memory`: a growth was refused. Then the account is unchanged. A report
    /// without parts has no error.
    // rule: grant-units.passes-in, database-loads
    pub fn settle(
        &mut self,
        session: &SessionId,
        group: u32,
        parts: &[UsedPart],
        moment: Moment,
    ) -> Result<Settled, AccountFault>
        requires moment { self.old.as_of ≤ moment }
        requires live { IsLive self.old moment session.now }
        ensures { Settles session.now group parts.now moment self.old self.new result }
    {
        let counted = self.count_use(session, group, parts, 0, moment)?;
        self.settle_counted(session, group, parts, counted, moment)
    }

    /// Counts the use of a report, after so many other settlements with a charge, of other groups
    /// of the session. None: it has no parts. It takes no memory and changes nothing.
    ///
    /// # Errors
    /// `Limit` exactly where the session's use, the group's counter or the number of the charge
    /// would pass its limit.
    // rule: stored-limits
    pub fn count_use(
        &self,
        session: &SessionId,
        group: u32,
        parts: &[UsedPart],
        charges: u64,
        moment: Moment,
    ) -> Result<Option<CountedUse>, AccountFault>
        ensures { CountsUse session.now group parts.now charges moment self.now result }
    {
        if parts.is_empty() {
            return Ok(None);
        }
        let Some(counted) = self.count_within(session, group, parts, charges, moment) else {
            return Err(AccountFault::Limit);
        };
        Ok(Some(counted))
    }

    /// Settles a report whose use was counted, as `settle` does. Settlements of other groups of the
    /// session may have come between: what was counted of a use is still so, but for the charges
    /// before it.
    ///
    /// # Errors
    /// `Memory`: a growth was refused. Then the account is unchanged.
    // rule: settle-order, use-counts
    pub fn settle_counted(
        &mut self,
        session: &SessionId,
        group: u32,
        parts: &[UsedPart],
        counted: Option<CountedUse>,
        moment: Moment,
    ) -> Result<Settled, AccountFault>
        requires moment { self.old.as_of ≤ moment }
        requires live { IsLive self.old moment session.now }
        requires counted { IsUseOf session.now group parts.now 0 moment self.old counted }
        ensures { Settles session.now group parts.now moment self.old self.new result }
    {
        let Some(counted) = counted else {
            self.advance(moment);
            self.end_reservation(session, group);
            return Ok(Settled {
                blocks: Blocks(0),
                covered: Blocks(0),
                rated: Amount(0),
                collected: Amount(0),
                uncollected: Amount(0),
            });
        };
        let rated = self.rate(session, group, parts, counted, moment);
        let cycle = counted.cycle;
        self.make_rows(session, group, cycle)?;
        self.advance(moment);
        let charged = self.settle_use(session, group, cycle, rated);
        Ok(Settled {
            blocks: rated.blocks,
            covered: rated.covered,
            rated: rated.amount,
            collected: charged.collected,
            uncollected: charged.uncollected,
        })
    }

    /// Makes the rows that a settlement writes to. At a fault, which is lack of memory, nothing has
    /// changed.
    pub(crate) fn make_rows(
        &mut self,
        session: &SessionId,
        group: u32,
        cycle: u32,
    ) -> Result<(), AccountFault>
        ensures ok { OnOk result (self.new ≡ with_rows session.now group cycle self.old) }
        ensures err { OnErr result (self.new ≡ self.old) }
        ensures memory { OnErr result (result ≡ Err AccountFault.Memory) }
    {
        self.rows.counters.reserve(1)?;
        grouping::add_group(&mut self.rows.groups, session, group)?;
        grouping::add_counter(&mut self.rows.counters, group, cycle);
        Ok(())
    }

    /// The cycle of the counter of a group at a moment.
    // rule: counters.cycle-at
    pub(crate) fn cycle_at(&self, group: u32, moment: Moment) -> u32
        ensures { result ≡ cycle_at self.now.shelf group moment }
    {
        cycle_of(self.shelf, group, moment)
    }

    /// The blocks that the counter of a group has counted in the cycle of a moment.
    // rule: counters
    pub(crate) fn place_at(&self, group: u32, moment: Moment) -> u64
        ensures { result ≡ count_in group (cycle_at self.now.shelf group moment) self.now.counters }
    {
        let cycle = self.cycle_at(group, moment);
        grouping::count_of(&self.rows.counters, group, cycle)
    }

    /// Counts the use of a report with parts; None where a stored number would pass its limit.
    // rule: stored-limits
    fn count_within(
        &self,
        session: &SessionId,
        group: u32,
        parts: &[UsedPart],
        charges: u64,
        moment: Moment,
    ) -> Option<CountedUse>
        ensures none { result ≡ None →
            passes (used_in session.now group self.now.groups) (reported parts.now)
            (count_in group (cycle_at self.now.shelf group moment) self.now.counters)
            (price_in session.now group moment parts.now self.now).blocks
            (self.now.next_charge + charges) ≡ true }
        ensures some { IfSome result (λ u.
            passes (used_in session.now group self.now.groups) (reported parts.now)
            (count_in group (cycle_at self.now.shelf group moment) self.now.counters)
            (price_in session.now group moment parts.now self.now).blocks
            (self.now.next_charge + charges) ≡ false) }
        ensures counted { IfSome result (IsUse session.now group parts.now moment self.now) }
    {
        let used = grouping::used_of(&self.rows.groups, session, group);
        let units = reported_units(parts);
        if MOST_USED < used as u128 + units {
            return None;
        }
        let units = Units(units as u64);
        let terms = self.terms(session, group, moment);
        let blocks = blocks_by(self.shelf, group, terms, used, units);
        let cycle = self.cycle_at(group, moment);
        let place = grouping::count_of(&self.rows.counters, group, cycle);
        let charge = self.rows.next_charge as u128 + charges as u128;
        if MOST_COUNTED < place as u128 + blocks.0 as u128 || (GREATEST_NUMBER as u128) < charge {
            return None;
        }
        Some(CountedUse {
            units,
            used,
            cycle,
            place,
            terms,
            blocks,
        })
    }

    /// Rates a use that is counted: how many of its blocks are covered, and what the others cost.
    fn rate(
        &self,
        session: &SessionId,
        group: u32,
        parts: &[UsedPart],
        counted: CountedUse,
        moment: Moment,
    ) -> RatedUse
        requires later { self.now.as_of ≤ moment }
        requires counted { IsCountedUse session.now group parts.now 0 moment self.now counted }
        ensures { IsRated session.now group parts.now moment self.now result }
    {
        let covered = self.coverable(session, group, moment);
        let rated = self.price(group, counted, covered, &tally_of(parts));
        RatedUse {
            units: counted.units,
            blocks: counted.blocks,
            covered: rated.covered,
            amount: rated.amount,
        }
    }

    /// A use that is rated; None where a stored number would pass its limit.
    // rule: stored-limits
    pub(crate) fn within_limits(
        &self,
        session: &SessionId,
        group: u32,
        units: Units,
        rated: Rated,
        moment: Moment,
    ) -> Option<RatedUse>
        ensures account { IsAccount self.now }
        ensures none { result ≡ None →
            passes (used_in session.now group self.now.groups) units.0
            (count_in group (cycle_at self.now.shelf group moment) self.now.counters) rated.blocks
            self.now.next_charge ≡ true }
        ensures some { IfSome result
            (λ r. passes (used_in session.now group self.now.groups) units.0
            (count_in group (cycle_at self.now.shelf group moment) self.now.counters) rated.blocks
            self.now.next_charge ≡ false) }
        ensures units { IfSome result (λ r. r.units ≡ units) }
        ensures blocks { IfSome result (λ r. r.blocks.0 ≡ rated.blocks) }
        ensures covered { IfSome result (λ r. r.covered ≡ rated.covered) }
        ensures amount { IfSome result (λ r. r.amount ≡ rated.amount) }
    {
        let used = grouping::used_of(&self.rows.groups, session, group) as u128 + units.0 as u128;
        let place = self.place_at(group, moment);
        let counted = rated.blocks <= MOST_COUNTED && place as u128 + rated.blocks <= MOST_COUNTED;
        if MOST_USED < used || !counted || GREATEST_NUMBER < self.rows.next_charge {
            return None;
        }
        Some(RatedUse {
            units,
            blocks: Blocks(rated.blocks as u64),
            covered: rated.covered,
            amount: rated.amount,
        })
    }

    /// The blocks that may cover a report: those that its reservation holds, and the allowance.
    // rule: covered
    fn coverable(&self, session: &SessionId, group: u32, moment: Moment) -> Blocks
        requires { self.now.as_of ≤ moment }
        ensures { result.0 ≡ coverable_in session.now group moment self.now }
    {
        let held = self.held_blocks(session, group);
        Blocks(held.0 + self.allowance(group, moment).0)
    }

    /// The blocks that the reservation of a session's group holds.
    fn held_blocks(&self, session: &SessionId, group: u32) -> Blocks
        ensures value { result.0
            ≡ held_sum BucketKind.Blocks (reserved_in session.now group self.now.groups)
            self.now.buckets }
        ensures most { result.0 ≤ most_blocks_in_all }
    {
        grouping::held_blocks_of(&self.rows.groups, &self.rows.purse, session, group)
    }

    /// What a counted use costs by its terms, where the first of its blocks are covered. A group
    /// that their book doesn't have costs nothing.
    // rule: report-period
    fn price(&self, group: u32, counted: CountedUse, covered: Blocks, tally: &Tally) -> Rated
        requires total { tally.now.untagged + tally.now.before + tally.now.indeterminate
            + tally.now.after < 2 ^ 64 }
        requires terms { AreOfShelf self.now.shelf counted.terms }
        ensures { (parts : List UsedPart) →
            tally.now.untagged ≡ units_of None parts →
            tally.now.before ≡ units_of (Some UnitBeforeTariffChange) parts →
            tally.now.indeterminate ≡ units_of (Some UnitIndeterminate) parts →
            tally.now.after ≡ units_of (Some UnitAfterTariffChange) parts →
            result ≡ price_by self.now.shelf group counted.terms counted.used counted.place covered.0
            parts }
    {
        let Some(prices) = prices_by(self.shelf, group, counted.terms) else {
            return Rated {
                amount: Amount(0),
                blocks: 0,
                covered: Blocks(0),
            };
        };
        price(&prices, counted.used, counted.place, covered, tally)
    }

    /// The terms that price a report: those of its grant, or what prices one without a grant.
    // rule: report-book
    fn terms(&self, session: &SessionId, group: u32, moment: Moment) -> Terms
        ensures value { result
            ≡ unwrap_or (terms_in session.now group self.now.groups)
            (terms_now self.now.shelf moment) }
        ensures of_shelf { AreOfShelf self.now.shelf result }
    {
        match grouping::terms_of(&self.rows.groups, session, group) {
            Some(terms) => terms,
            None => terms_now(self.shelf, moment),
        }
    }

    /// Settles a use in rows that are there: what was reserved pays first, then what is eligible.
    fn settle_use(
        &mut self,
        session: &SessionId,
        group: u32,
        cycle: u32,
        rated: RatedUse,
    ) -> Charged
        requires { HasUseRows session.now group cycle rated self.old }
        ensures rows { self.new
            ≡ settled_account session.now group rated.units.0 rated.blocks.0
            (due rated.amount.0 rated.covered.0) self.old }
        ensures uncollected { result.uncollected.0
            ≡ uncollected (reserved_in session.now group self.old.groups) group self.old.as_of
            rated.amount.0 self.old.buckets }
        ensures collected { result.collected.0 + result.uncollected.0 ≡ rated.amount.0 }
    {
        let holds = grouping::use_group(
            self.rows.alloc,
            &mut self.rows.groups,
            session,
            group,
            rated.units.0,
        );
        let charged = self
            .rows
            .purse
            .settle(holds, group, self.rows.as_of, rated.amount, rated.covered);
        grouping::count_blocks(&mut self.rows.counters, group, cycle, rated.blocks.0);
        self.rows.next_charge += 1;
        self.quiet = None;
        charged
    }

    /// Ends the reservation of a session's group.
    fn end_reservation(&mut self, session: &SessionId, group: u32)
        ensures account { IsAccount self.old }
        ensures rows { self.new ≡ ended_rows session.now group self.old }
    {
        let holds = grouping::end_group(self.rows.alloc, &mut self.rows.groups, session, group);
        self.rows.purse.release(holds, self.rows.as_of);
        self.quiet = None;
    }
}
