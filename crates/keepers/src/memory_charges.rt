//! The charges of the keeper in memory.

ghost use Rattle.std.specs.Prelude.{◌≡◌, None, option_map, [], ◌∷◌};
ghost use Rattle.std.specs.List.{filter};
ghost use Rattle.keepers.specs.Tables.{charge_in};
ghost use Rattle.keepers.specs.Rows.{are_rising, is_between};
ghost use Rattle.keepers.specs.Numbers.{nearer, next_number, one_or_none};
ghost use Rattle.keepers.specs.Visits.{Shows, SeesCharges, IsShown};

use crate::fault::StoreFault;
use crate::memory::MemoryKeeper;
use crate::showing::{is_between, show};
use crate::source::{ChargeSource, ChargeVisitor};
use identifiers::AccountNumber;
use ledger::ChargeRow;
use units::Moment;

/// Whether the numbers rise, so that no two rows have one number.
fn are_rising(rows: &[ChargeRow]) -> bool
    ensures { result ≡ are_rising 0 rows.now }
{
    let mut least = 0u64;
    for row in rows {
        let number = u64::from(row.number);
        if number < least {
            return false;
        }
        least = number + 1;
    }
    true
}

/// A number from `least` on, where none was found before it that isn't greater.
fn nearer(least: u64, number: u32, found: Option<u32>) -> Option<u32>
    ensures { result ≡ nearer least number found }
{
    if u64::from(number) < least || found.is_some_and(|before| before <= number) {
        found
    } else {
        Some(number)
    }
}

/// The least number of the rows from `least` on.
fn next_number(rows: &[ChargeRow], least: u64) -> Option<u32>
    ensures { result ≡ next_number least None rows.now }
{
    let mut found = None;
    for row in rows {
        found = nearer(least, row.number, found);
    }
    found
}

/// The first row of a number.
fn row_numbered(rows: &[ChargeRow], number: u32) -> Option<&ChargeRow>
    ensures { option_map (λ row. row.now) result ≡ charge_in number rows.now }
{
    rows.iter().find(|row| row.number == number)
}

/// Shows a visitor a row, if it is of the range. Whether it goes on.
fn show_row<V: ChargeVisitor>(row: &ChargeRow, from: Moment, until: Moment, visitor: &mut V) -> bool
    ensures { Shows V.sees (filter (is_between from until) (row.now ∷ [])) result
        visitor.old visitor.new }
{
    if !is_between(from, until, row) {
        return true;
    }
    visitor.row(row)
}

/// Shows a visitor the first row of a number, if there is one of the range. Whether it goes on.
fn show_numbered<V: ChargeVisitor>(
    rows: &[ChargeRow],
    number: u32,
    from: Moment,
    until: Moment,
    visitor: &mut V,
) -> bool
    ensures { Shows V.sees
        (filter (is_between from until) (one_or_none (charge_in number rows.now))) result
        visitor.old visitor.new }
{
    let Some(row) = row_numbered(rows, number) else {
        return true;
    };
    show_row(row, from, until, visitor)
}

/// Shows a visitor the rows of the range in the order of their numbers, of each number the first,
/// until it stops. It copies none: it looks for the next number once a row.
// rule: charge-source.next-number
fn show_by_number<V: ChargeVisitor>(
    rows: &[ChargeRow],
    from: Moment,
    until: Moment,
    visitor: &mut V,
)
    ensures sees { SeesCharges V.sees from until (λ n. charge_in n rows.now) visitor.old
        visitor.new }
    ensures shown { IsShown V.sees from until visitor.old visitor.new }
{
    let mut least = 0u64;
    for _turn in 0..4_294_967_297u64 {
        let Some(number) = next_number(rows, least) else {
            return;
        };
        if !show_numbered(rows, number, from, until, visitor) {
            return;
        }
        least = u64::from(number) + 1;
    }
}

/// Shows a visitor the rows of the range in the order of their numbers, until it stops. Rows that
/// rise in their numbers are shown as they are.
fn show_in_order<V: ChargeVisitor>(rows: &[ChargeRow], from: Moment, until: Moment, visitor: &mut V)
    ensures sees { SeesCharges V.sees from until (λ n. charge_in n rows.now) visitor.old
        visitor.new }
    ensures shown { IsShown V.sees from until visitor.old visitor.new }
{
    if are_rising(rows) {
        show(rows, from, until, visitor);
        return;
    }
    show_by_number(rows, from, until, visitor);
}

/// A run numbers an account's charges in order, so that they are shown as they are. Rows in
/// another order are looked through once for each number.
impl ChargeSource for MemoryKeeper {
    // rule: charge-source.visits
    fn each<V: ChargeVisitor>(
        &mut self,
        account: &AccountNumber,
        from: Moment,
        until: Moment,
        visitor: &mut V,
    ) -> Result<(), StoreFault> {
        let rows = self.charges(account);
        show_in_order(rows, from, until, visitor);
        Ok(())
    }
}
