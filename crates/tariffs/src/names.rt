//! Names of tariff periods.

ghost use Rattle.std.specs.Prelude.{◌≡◌, ◌≤◌, ◌<◌, [], length, string_bytes, slice_get};
ghost use Rattle.std.specs.Prelude.{option_copied, IfOk, IfSome, Some, true, vec_len};
ghost use Rattle.std.specs.List.{list_all, list_any};
ghost use Rattle.std.specs.Char.{is_ascii_lowercase};
ghost use Rattle.toml.specs.View.{view, table_view, items_view};
ghost use Rattle.tariffs.specs.Faults.{Gives};
ghost use Rattle.tariffs.specs.Fields.{collected};
ghost use Rattle.tariffs.specs.Names.{texts, same_text, is_name, name_of, names_of, period_named};
ghost use Rattle.tariffs.specs.Names.{period_of, ArePeriods, AreDistinct};

use crate::book_fields;
use crate::fault::BookFault;
use calendar::Period;
use std::alloc::Global;
use std::marker::Model;
use toml::{Table, Value};

/// The names of a book's tariff periods, in the book's order: 1 to 8, distinct.
pub(crate) struct PeriodNames {
    names: Vec<String>,
}

// It is written out, so that a caller doesn't prove again how each part is dropped.
impl Drop for PeriodNames {
    fn drop(self) {
        let PeriodNames { names: _ } = self;
    }
}

impl Model for PeriodNames {
    ghost use Rattle.std.specs.Prelude.{List, ℕ};
    ghost use Rattle.tariffs.specs.Names.{texts, ArePeriods};

    ghost Value = { List (List ℕ) };

    ghost view = { λ p. texts p.names.items };

    ghost invariant = { λ p. ArePeriods (texts p.names.items) };
}

impl PeriodNames {
    /// Reads `periods`.
    #[tactic(auto, unfolding(crate::specs::Names::names_of))]
    pub(crate) fn read(alloc: Global, table: &Table) -> Result<PeriodNames, BookFault>
        ensures value { Gives (λ p. p) result (names_of (table_view table.now)) }
        ensures periods { IfOk result (λ p. ArePeriods p) }
    {
        let values = book_fields::filled_array(table, "periods", 8)?;
        let names = names(alloc, values)?;
        Ok(PeriodNames { names })
    }

    /// How many periods there are.
    pub(crate) fn count(&self) -> usize
        ensures { result ≡ length self.now }
    {
        self.names.len()
    }

    /// The name of a period.
    pub(crate) fn name(&self, period: Period) -> Option<&str>
        ensures value { option_copied result ≡ slice_get self.now period.0 }
        ensures back { IfSome result (λ s. period_named self.now s.now ≡ Some period) }
    {
        name_among(&self.names, period)
    }

    /// The period of a name.
    pub(crate) fn named(&self, text: &str) -> Option<Period>
        ensures value { result ≡ period_named self.now text.now }
        ensures in_range { IfSome result (λ p. p.0 < length self.now) }
        ensures back { IfSome result (λ p. slice_get self.now p.0 ≡ Some text.now) }
    {
        period_among(&self.names, text)
    }

    /// Reads `period` of a week's entry or of a price.
    #[tactic(auto, unfolding(crate::specs::Names::period_of))]
    pub(crate) fn period(&self, table: &Table) -> Result<Period, BookFault>
        ensures value { Gives (λ p. p) result (period_of self.now (table_view table.now)) }
        ensures in_range { IfOk result (λ p. p.0 < length self.now) }
    {
        let text = book_fields::text(table, "period")?;
        self.named(text).ok_or(BookFault::UnknownPeriod)
    }
}

fn names(alloc: Global, values: &[Value]) -> Result<Vec<String>, BookFault>
    ensures value { Gives (λ v. texts v.items) result
        (collected name_of [] (items_view values.now)) }
    ensures count { IfOk result (λ v. vec_len v ≡ length values.now) }
    ensures distinct { IfOk result (λ v. AreDistinct (texts v.items)) }
{
    let mut names = Vec::new(alloc);
    for value in values {
        let name = name(alloc, &names, value)?;
        names.push(name)?;
    }
    Ok(names)
}

#[tactic(auto, unfolding(crate::specs::Names::name_of))]
fn name(alloc: Global, before: &[String], value: &Value) -> Result<String, BookFault>
    ensures value { Gives (λ s. string_bytes s) result
        (name_of (texts before.now) (view value.now)) }
    ensures name { IfOk result (λ s. is_name (texts before.now) (string_bytes s) ≡ true) }
{
    let text = book_fields::entry_text(value)?;
    if is_name(before, text) {
        Ok(String::from_str(alloc, text)?)
    } else {
        Err(BookFault::OutOfRange)
    }
}

fn is_name(before: &[String], text: &str) -> bool
    ensures { result ≡ is_name (texts before.now) text.now }
{
    1 <= text.len() && text.len() <= 16 && is_lowercase(text.as_bytes()) && !is_among(before, text)
}

fn is_lowercase(bytes: &[u8]) -> bool
    ensures { result ≡ list_all is_ascii_lowercase bytes.now }
{
    bytes.iter().all(|byte| byte.is_ascii_lowercase())
}

fn is_among(before: &[String], text: &str) -> bool
    ensures { result ≡ list_any (λ other. same_text other text.now) (texts before.now) }
{
    for name in before {
        if name.as_str() == text {
            return true;
        }
    }
    false
}

fn period_among(names: &[String], text: &str) -> Option<Period>
    requires { length names.now ≤ 8 }
    ensures value { result ≡ period_named (texts names.now) text.now }
    ensures in_range { IfSome result (λ p. p.0 < length names.now) }
{
    for (i, name) in names.iter().enumerate() {
        if name.as_str() == text {
            return Some(Period(i as u8));
        }
    }
    None
}

fn name_among(names: &[String], period: Period) -> Option<&str>
    ensures { option_copied result ≡ slice_get (texts names.now) period.0 }
{
    match names.get(usize::from(period.0)) {
        Some(name) => Some(name.as_str()),
        None => None,
    }
}
