//! A number of units of a kind.

ghost use Rattle.std.specs.Prelude.{◌≡◌, IsTrue};
ghost use Rattle.commands.specs.Quantities.{is_quantity};

use std::marker::Model;
use units::UnitKind;

/// A number of units of a kind, at least one: up to 4,294,967,295 seconds (CC-Time, RFC 8506
/// section 8.21), up to 10^18 octets (CC-Total-Octets, section 8.23) or events
/// (CC-Service-Specific-Units, section 8.26).
///
/// Contracts see a record of its kind and its units.
#[derive(Clone, Copy, Debug, PartialEq, Eq)]
pub struct Quantity {
    kind: UnitKind,
    units: u64,
}

impl Model for Quantity {
    ghost use Rattle.std.specs.Prelude.{IsTrue};
    ghost use Rattle.commands.specs.Measured.{Measured};
    ghost use Rattle.commands.specs.Quantities.{is_quantity};

    ghost Value = { Measured };

    ghost view = { λ q. record { kind = q.kind; units = q.units } };

    ghost invariant = { λ q. IsTrue (is_quantity q.kind q.units) };

    ghost inverse = { λ m. record { kind = m.kind; units = m.units } };
}

impl Quantity {
    /// So many units of this kind.
    pub fn new(kind: UnitKind, units: u64) -> Quantity
        requires { IsTrue (is_quantity kind units) }
        ensures kind { result.kind ≡ kind }
        ensures units { result.units ≡ units }
    {
        Quantity { kind, units }
    }

    /// The kind of its units.
    pub fn kind(self) -> UnitKind
        ensures { result ≡ self.kind }
    {
        self.kind
    }

    /// How many units it is.
    pub fn units(self) -> u64
        ensures value { result ≡ self.units }
        ensures in_range { IsTrue (is_quantity self.kind self.units) }
    {
        self.units
    }
}
