//! Units, blocks, and the blocks that units start.

ghost use Rattle.std.specs.Prelude.{◌≡◌, ◌<◌};
ghost use Rattle.units.specs.Blocks.{started, CutsAlike};

/// What a rating group counts (Granted-Service-Unit, RFC 8506 section 8.17).
#[derive(Clone, Copy, Debug, PartialEq, Eq)]
pub enum UnitKind {
    /// CC-Time: seconds.
    Time,
    /// CC-Total-Octets: octets in both directions.
    TotalOctets,
    /// CC-Service-Specific-Units: events.
    ServiceSpecific,
}

/// A number of service units of some kind.
#[derive(Clone, Copy, Debug, PartialEq, Eq, PartialOrd, Ord)]
pub struct Units(pub u64);

/// On which side of a tariff switch units were used (Tariff-Change-Usage, RFC 8506 section 8.27).
#[derive(Clone, Copy, Debug, PartialEq, Eq)]
pub enum TariffChangeUsage {
    /// 0: before the switch.
    UnitBeforeTariffChange,
    /// 1: after the switch.
    UnitAfterTariffChange,
    /// 2: they straddle the switch.
    UnitIndeterminate,
}

/// One part of a report of used units (Used-Service-Unit, RFC 8506 section 8.19).
#[derive(Clone, Copy, Debug, PartialEq, Eq)]
pub struct UsedPart {
    /// How many.
    pub units: Units,
    /// On which side of a tariff switch they were used; None: the part doesn't say.
    pub change: Option<TariffChangeUsage>,
}

/// A number of blocks: the steps in which units are priced.
#[derive(Clone, Copy, PartialEq, Eq, PartialOrd, Ord)]
pub struct Blocks(pub u64);

/// The blocks that a use starts: the multiples of the block's size that are at least the units used
/// before and less than the units used after it. A started block runs on, so the law of cutting
/// holds: a use in two parts starts what it starts as one.
// rule: blocks
pub fn blocks_started(before: Units, units: Units, block: u64) -> Blocks
    requires { 0 < block }
    ensures { result.0 ≡ started before.0 units.0 block }
{
    let size = block as u128;
    let start = before.0 as u128;
    let end = start + units.0 as u128;
    let below_start = (start + (size - 1)) / size;
    let below_end = (end + (size - 1)) / size;
    Blocks((below_end - below_start) as u64)
}

/// The law of cutting: units used in two parts start the blocks that they start as one.
// rule: cutting
pub fn cutting()
    ensures { CutsAlike }
{}
