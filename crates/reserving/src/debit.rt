//! Events: their price, and the debit of it.

ghost use Rattle.std.specs.Prelude.{◌≡◌, ◌+◌, ◌≤◌, None, []};
ghost use Rattle.std.specs.Prelude.{Err};
ghost use Rattle.reserving.specs.Calls.{Debits, Tells};
ghost use Rattle.buckets.specs.Holding.{uncollected};
ghost use Rattle.buckets.specs.Kinds.{due};
ghost use Rattle.ledger.specs.Debiting.{event_price, rest_price};
ghost use Rattle.reserving.specs.Rows.{IsAccount};
ghost use Rattle.reserving.specs.Changes.{event_price_in, rest_price_in, debited_account};
ghost use Rattle.reserving.specs.Prepared.{HasUseRows};

use crate::account::Account;
use crate::fault::AccountFault;
use crate::grouping;
use crate::pricing::{Tally, price, prices_by, terms_now};
use crate::settle::{RatedUse, Settled};
use buckets::{Charged, Holds};
use identifiers::SessionId;
use rating::Rated;
use units::{Amount, Blocks, Moment, Units};

impl<'b> Account<'b> {
    /// What the units of an event cost: they start blocks from no use on, at the period of the
    /// moment (RFC 8506 section 6.1; TS 32.296, rating function). It takes no memory and changes
    /// nothing.
    // rule: event-price, check, enquiry
    pub fn quote(&self, group: u32, units: Units, moment: Moment) -> Amount
        ensures { Tells moment self.now result.0
            (event_price_in group 0 units.0 moment self.now).amount.0
            (λ ledger. (event_price self.now.shelf moment group 0 units.0 ledger).amount.0) }
    {
        self.event_price(group, Blocks(0), units, moment).amount
    }

    /// What those of them cost that the allowance at the moment doesn't cover (RFC 8506 section
    /// 6.2). It takes no memory and changes nothing.
    pub fn quote_rest(&self, group: u32, units: Units, moment: Moment) -> Amount
        requires { self.now.as_of ≤ moment }
        ensures { Tells moment self.now result.0
            (rest_price_in group units.0 moment self.now).amount.0
            (λ ledger. (rest_price self.now.shelf moment group units.0 ledger).amount.0) }
    {
        self.rest_price(group, units, moment).amount
    }

    /// The blocks that an event's units start, and what those cost that the allowance doesn't
    /// cover.
    // rule: event-price
    fn rest_price(&self, group: u32, units: Units, moment: Moment) -> Rated
        requires { self.now.as_of ≤ moment }
        ensures value { result ≡ rest_price_in group units.0 moment self.now }
        ensures account { IsAccount self.now }
    {
        // For the prover alone: looking at the value makes known here what its type keeps.
        let _kept = self.rows.next_charge;
        self.event_price(group, self.allowance(group, moment), units, moment)
    }

    /// The blocks that an event's units start, and what these cost, where the first are covered. A
    /// group that the book doesn't have costs nothing.
    fn event_price(&self, group: u32, covered: Blocks, units: Units, moment: Moment) -> Rated
        ensures { result ≡ event_price_in group covered.0 units.0 moment self.now }
    {
        let terms = terms_now(self.shelf, moment);
        let Some(prices) = prices_by(self.shelf, group, terms) else {
            return Rated {
                amount: Amount(0),
                blocks: 0,
                covered: Blocks(0),
            };
        };
        let tally = Tally {
            untagged: units.0 as u128,
            before: 0,
            indeterminate: 0,
            after: 0,
        };
        price(&prices, 0, self.place_at(group, moment), covered, &tally)
    }

    /// Charges the units of an event at once, where the eligible buckets cover the price of what
    /// the allowance leaves of their blocks (RFC 8506 section 6.3; TS 32.299, immediate event
    /// charging). None: they don't, and nothing has changed.
    ///
    /// # Errors
    /// `Limit` only where the price is covered and the session's use, the group's counter or the
    /// number of the charge would pass its limit, else `Memory`: a growth was refused. Then the
    /// account is unchanged.
    // rule: grant-units.passes-in, debit, database-loads.with
    pub fn debit(
        &mut self,
        session: &SessionId,
        group: u32,
        units: Units,
        moment: Moment,
    ) -> Result<Option<Settled>, AccountFault>
        requires { self.old.as_of ≤ moment }
        ensures { Debits session.now group units.0 moment self.old self.new result }
    {
        let price = self.rest_price(group, units, moment);
        if self.funds(group, moment) < price.amount {
            return Ok(None);
        }
        let Some(rated) = self.within_limits(session, group, units, price, moment) else {
            return Err(AccountFault::Limit);
        };
        let cycle = self.cycle_at(group, moment);
        self.make_rows(session, group, cycle)?;
        self.advance(moment);
        let charged = self.charge_use(session, group, cycle, rated);
        Ok(Some(Settled {
            blocks: rated.blocks,
            covered: rated.covered,
            rated: rated.amount,
            collected: charged.collected,
            uncollected: charged.uncollected,
        }))
    }

    /// Charges a use to what is eligible, in rows that are there.
    fn charge_use(
        &mut self,
        session: &SessionId,
        group: u32,
        cycle: u32,
        rated: RatedUse,
    ) -> Charged
        requires { HasUseRows session.now group cycle rated self.old }
        ensures rows { self.new
            ≡ debited_account session.now group rated.units.0 rated.blocks.0
            (due rated.amount.0 rated.covered.0) self.old }
        ensures uncollected { result.uncollected.0
            ≡ uncollected [] group self.old.as_of rated.amount.0 self.old.buckets }
        ensures collected { result.collected.0 + result.uncollected.0 ≡ rated.amount.0 }
    {
        grouping::count_units(&mut self.rows.groups, session, group, rated.units.0);
        let none_held = Holds::none(self.rows.alloc);
        let charged = self.rows.purse.settle(
            none_held,
            group,
            self.rows.as_of,
            rated.amount,
            rated.covered,
        );
        grouping::count_blocks(&mut self.rows.counters, group, cycle, rated.blocks.0);
        self.rows.next_charge += 1;
        self.quiet = None;
        charged
    }
}
