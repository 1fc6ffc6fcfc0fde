//! Rows that are shown, one after another.

ghost use Rattle.std.specs.Prelude.{◌≡◌};
ghost use Rattle.std.specs.List.{filter};
ghost use Rattle.keepers.specs.Rows.{is_between};
ghost use Rattle.keepers.specs.Visits.{Shows};

use crate::source::ChargeVisitor;
use ledger::ChargeRow;
use units::Moment;

/// Whether a charge's moment is `from` or later and before `until`.
pub(crate) fn is_between(from: Moment, until: Moment, row: &ChargeRow) -> bool
    ensures { result ≡ is_between from until row.now }
{
    from.seconds() <= row.moment.seconds() && row.moment.seconds() < until.seconds()
}

/// Shows a visitor each row whose moment is `from` or later and before `until`, until it stops.
/// Whether it was shown all of them.
pub fn show<V: ChargeVisitor>(
    rows: &[ChargeRow],
    from: Moment,
    until: Moment,
    visitor: &mut V,
) -> bool
    ensures { Shows V.sees (filter (is_between from until) rows.now) result
        visitor.old visitor.new }
{
    for row in rows {
        if is_between(from, until, row) && !visitor.row(row) {
            return false;
        }
    }
    true
}
