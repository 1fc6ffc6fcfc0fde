//! The prices of a rating group on both sides of a switch.

ghost use Rattle.std.specs.Prelude.{◌≡◌, ◌≤◌};
ghost use Rattle.tariffs.specs.Prices.{AreTiers};
ghost use Rattle.tariffs.specs.GroupPrices.{ArePlaces, prices_in, tiers_on};

use crate::tariff::Tariff;
use crate::tiers::Tier;
use calendar::Period;
use std::marker::Model;

/// A side of a tariff switch (Tariff-Time-Change, RFC 8506 section 8.20).
#[derive(Clone, Copy)]
pub enum Side {
    /// Before the switch; all of a grant without one.
    Before,
    /// From the switch on.
    After,
}

/// The prices of a rating group on both sides of a tariff switch (TS 32.296, rating function). Both
/// are of one tariff of one book: `TariffBook::prices` alone makes them.
///
/// Contracts see the tariff and the tiers of both sides.
#[derive(Drop)]
pub struct Prices<'b> {
    tariff: &'b Tariff,
    before: Period,
    after: Period,
}

impl<'b> Model for Prices<'b> {
    ghost use Rattle.tariffs.specs.GroupPrices.{GroupPrices, ArePlaces};
    ghost use Rattle.tariffs.specs.PricesInside.{prices_of};

    ghost Value = { GroupPrices };

    ghost view = { prices_of };

    ghost invariant = { λ p. ArePlaces p.tariff.now p.before.0 p.after.0 };
}

impl<'b> Prices<'b> {
    /// The prices of a tariff in two of its periods.
    pub(crate) fn new(tariff: &'b Tariff, before: Period, after: Period) -> Prices<'b>
        requires { ArePlaces tariff.now before.0 after.0 }
        ensures { result ≡ prices_in tariff.now before.0 after.0 }
    {
        Prices {
            tariff,
            before,
            after,
        }
    }

    /// The tariff of the group.
    pub fn tariff(&self) -> &'b Tariff
        ensures { result.now ≡ self.now.tariff }
    {
        self.tariff
    }

    /// The units of a block, at least 1.
    pub fn block(&self) -> u64
        ensures value { result ≡ self.now.tariff.block }
        ensures some { 1 ≤ result }
    {
        self.tariff.block()
    }

    /// The tiers of a side, in rising order.
    // rule: tiers.prices-at
    pub fn tiers(&self, side: Side) -> &[Tier]
        ensures value { result.now ≡ tiers_on self.now side }
        ensures tiers { AreTiers result.now }
    {
        match side {
            Side::Before => self.tariff.tiers(self.before),
            Side::After => self.tariff.tiers(self.after),
        }
    }
}
