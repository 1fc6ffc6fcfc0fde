//! The tariff of a rating group.

ghost use Rattle.std.specs.Prelude.{◌≡◌, ◌<◌};
ghost use Rattle.tariffs.specs.Prices.{ArePriced};
ghost use Rattle.tariffs.specs.Tariffs.{IsTariff, tiers_at};

use crate::final_action::FinalAction;
use crate::tiers::Tier;
use calendar::{Cycle, Period};
use std::marker::Model;
use units::UnitKind;

/// The tariff of a rating group (Rating-Group, RFC 8506 section 8.29).
pub struct Tariff {
    pub(crate) group: u32,
    pub(crate) unit: UnitKind,
    pub(crate) block: u64,
    pub(crate) slice: u64,
    pub(crate) max_grant: u64,
    pub(crate) cycle: Cycle,
    pub(crate) final_action: FinalAction,
    pub(crate) prices: Vec<Vec<Tier>>,
}

// It is written out, so that a caller doesn't prove again how each part is dropped.
impl Drop for Tariff {
    fn drop(self) {
        let Tariff {
            group: _,
            unit: _,
            block: _,
            slice: _,
            max_grant: _,
            cycle: _,
            final_action: _,
            prices: _,
        } = self;
    }
}

impl Model for Tariff {
    ghost use Rattle.tariffs.specs.Tariffs.{GroupTariff, IsTariff};
    ghost use Rattle.tariffs.specs.TariffInside.{tariff_of};

    ghost Value = { GroupTariff };

    ghost view = { tariff_of };

    ghost invariant = { λ t. IsTariff (tariff_of t) };
}

impl Tariff {
    /// The rating group's number.
    pub fn group(&self) -> u32
        ensures { result ≡ self.now.group }
    {
        self.group
    }

    /// What the group counts.
    pub fn unit(&self) -> UnitKind
        ensures { result ≡ self.now.unit }
    {
        self.unit
    }

    /// The units of a block, 1 to 10^15.
    pub fn block(&self) -> u64
        ensures value { result ≡ self.now.block }
        ensures tariff { IsTariff self.now }
    {
        self.block
    }

    /// The units that are granted where none are named (Requested-Service-Unit without a number), 1
    /// to `max_grant`.
    pub fn slice(&self) -> u64
        ensures value { result ≡ self.now.slice }
        ensures tariff { IsTariff self.now }
    {
        self.slice
    }

    /// The greatest number of units of one grant, 1 to 10^15 and less than 10^9 whole blocks.
    pub fn max_grant(&self) -> u64
        ensures value { result ≡ self.now.max_grant }
        ensures tariff { IsTariff self.now }
    {
        self.max_grant
    }

    /// The cycle of the group's counters.
    pub fn cycle(&self) -> Cycle
        ensures { result ≡ self.now.cycle }
    {
        self.cycle
    }

    /// What follows a grant of fewer units than wanted.
    pub fn final_action(&self) -> &FinalAction
        ensures { result.now ≡ self.now.final_action }
    {
        &self.final_action
    }

    /// The tiers of a period, in rising order; none for a period that the book doesn't have.
    pub fn tiers(&self, period: Period) -> &[Tier]
        ensures value { result.now ≡ tiers_at self.now period.0 }
        ensures priced { ArePriced result.now }
        ensures tariff { IsTariff self.now }
    {
        match self.prices.get(usize::from(period.0)) {
            Some(tiers) => tiers.as_slice(),
            None => &[],
        }
    }
}
