//! What a service reports as used.

ghost use Rattle.std.specs.Prelude.{◌≡◌, ◌==◌, IsTrue};
ghost use Rattle.std.specs.List.{find};
ghost use Rattle.commands.specs.Reports.{usage_number, usage_numbered, is_report};

use std::marker::Model;
use units::{TariffChangeUsage, UnitKind, UsedPart};

/// The number of a Tariff-Change-Usage in the text (RFC 8506 section 8.27).
pub fn usage_number(usage: TariffChangeUsage) -> u64
    ensures { result ≡ usage_number usage }
{
    match usage {
        TariffChangeUsage::UnitBeforeTariffChange => 0,
        TariffChangeUsage::UnitAfterTariffChange => 1,
        TariffChangeUsage::UnitIndeterminate => 2,
    }
}

const USAGES: [TariffChangeUsage; 3] = [
    TariffChangeUsage::UnitBeforeTariffChange,
    TariffChangeUsage::UnitAfterTariffChange,
    TariffChangeUsage::UnitIndeterminate,
];

fn usage_of(all: &[TariffChangeUsage], number: u64) -> Option<TariffChangeUsage>
    ensures { result ≡ find (λ x. usage_number x == number) all.now }
{
    all.iter()
        .copied()
        .find(|usage| usage_number(*usage) == number)
}

/// The Tariff-Change-Usage of this number.
pub fn usage_numbered(number: u64) -> Option<TariffChangeUsage>
    ensures { result ≡ usage_numbered number }
{
    usage_of(&USAGES, number)
}

/// What a service reports as used (Used-Service-Unit, RFC 8506 section 8.19), in the order of the
/// report: 1 to 4 parts, all in units of one kind, no tag twice and at most one part without a tag.
///
/// Contracts see a record of the kind and the list of parts.
#[derive(Clone, Debug)]
pub struct UsedParts {
    kind: UnitKind,
    list: Vec<UsedPart>,
}

// It is written out, so that a caller doesn't prove again how each part is dropped.
impl Drop for UsedParts {
    fn drop(self) {
        let UsedParts { kind: _, list: _ } = self;
    }
}

impl Model for UsedParts {
    ghost use Rattle.std.specs.Prelude.{IsTrue};
    ghost use Rattle.commands.specs.Used.{Used};
    ghost use Rattle.commands.specs.Reports.{is_report};

    ghost Value = { Used };

    ghost view = { λ u. record { kind = u.kind; parts = u.list.items } };

    ghost invariant = { λ u. IsTrue (is_report u.kind u.list.items) };
}

impl UsedParts {
    /// The report with these parts.
    pub fn new(kind: UnitKind, parts: Vec<UsedPart>) -> UsedParts
        requires { IsTrue (is_report kind parts.items) }
        ensures kind { result.kind ≡ kind }
        ensures parts { result.parts ≡ parts.items }
    {
        UsedParts { kind, list: parts }
    }

    /// The kind of its units.
    pub fn kind(&self) -> UnitKind
        ensures { result ≡ self.now.kind }
    {
        self.kind
    }

    /// Its parts, in the order of the report.
    pub fn parts(&self) -> &[UsedPart]
        ensures value { result.now ≡ self.now.parts }
        ensures rule { IsTrue (is_report self.now.kind self.now.parts) }
    {
        self.list.as_slice()
    }
}

impl PartialEq for UsedParts {
    ghost use Rattle.std.specs.Ordering.{on, eq_of_both};
    ghost use Rattle.std.specs.Cmp.{partial_equiv_from_equiv, on_equiv, and_equiv};
    ghost use Rattle.std.specs.Cmp.Lexicographic.{pointwise, lists_equiv};
    ghost use Rattle.units.specs.contracts.blocks.UnitKindEq.TheImpl.Laws.{laws-law as kinds};
    ghost use Rattle.units.specs.contracts.blocks.UsedPartEq.TheImpl.Laws.{laws-law as parts};

    ghost eq = { eq_of_both (on (λ u. u.kind) ⟦<UnitKind as PartialEq>⟧.eq)
        (on (λ u. u.parts) (pointwise ⟦<UsedPart as PartialEq>⟧.eq)) };

    ghost laws = { partial_equiv_from_equiv
        (and_equiv (on_equiv (λ u. u.kind) kinds) (on_equiv (λ u. u.parts) (lists_equiv parts))) };

    fn eq(&self, other: &UsedParts) -> bool {
        self.kind == other.kind && self.list.as_slice() == other.list.as_slice()
    }
}

impl Eq for UsedParts {
    ghost use Rattle.std.specs.Cmp.{on_equiv, and_equiv};
    ghost use Rattle.std.specs.Cmp.Lexicographic.{lists_equiv};
    ghost use Rattle.units.specs.contracts.blocks.UnitKindEq.TheImpl.Laws.{laws-law as kinds};
    ghost use Rattle.units.specs.contracts.blocks.UsedPartEq.TheImpl.Laws.{laws-law as parts};

    ghost laws = { and_equiv
        (on_equiv (λ u. u.kind) kinds) (on_equiv (λ u. u.parts) (lists_equiv parts)) };
}
