//! The values of operands and options.

ghost use Rattle.std.specs.Prelude.{◌≡◌, ◌≤◌, [], All, IfOk, IfSome, map, option_map};
ghost use Rattle.units.specs.Words.{latest_command, most_money, most_blocks};
ghost use Rattle.clap.specs.Words.{all_of, found_of, first_of, rows_of};
ghost use Rattle.texts.specs.Steps.{GivesUnless, Says, collected};
ghost use Rattle.operator.specs.Values.{account_word, at_word, database_word, from_word};
ghost use Rattle.operator.specs.Values.{group_word};
ghost use Rattle.operator.specs.Values.{has_flag, moment_in_text, moments_of, month_word};
ghost use Rattle.operator.specs.Values.{number_word};
ghost use Rattle.operator.specs.Values.{number_in_text, optional_word};
ghost use Rattle.operator.specs.Values.{path_word, reference_word, scope_word, until_word, word};
ghost use Rattle.operator.specs.declared.argument_names.Argument.TheVariants as argument;
ghost use Rattle.operator.specs.declared.fault.ValueFault.TheVariants.{Memory};

use crate::argument_names::Argument;
use crate::fault::ValueFault;
use crate::moments::MomentList;
use crate::path::FilePath;
use clap::ArgMatches;
use commands::{AllowanceBlocks, CreditEnd};
use identifiers::{AccountNumber, Reference};
use std::alloc::Global;
use texts::{Month, number};
use units::{
    Blocks, GREATEST_NUMBER, LATEST_COMMAND, MOST_BLOCKS, MOST_MONEY, Moment, Money, NO_END,
};

/// The first word of an operand or an option, where it is there.
fn found<'a>(matches: &ArgMatches<'a>, id: &str) -> Option<&'a str>
    ensures { option_map (λ s. s.now) result ≡ first_of id.now (rows_of (found_of matches.now)) }
{
    matches.get_str(id)
}

/// The word of an operand or an option.
fn word<'a>(matches: &ArgMatches<'a>, argument: Argument) -> Result<&'a str, ValueFault>
    ensures { Says (λ s. s.now) result (word argument (rows_of (found_of matches.now))) }
{
    found(matches, argument.id()).ok_or(ValueFault::Invalid(argument))
}

/// The number of this range that a word says.
#[tactic(auto, unfolding(crate::specs::Values::number_in_text))]
fn number_in(low: u64, high: u64, argument: Argument, word: &str) -> Result<u64, ValueFault>
    ensures value { Says (λ n. n) result (number_in_text low high argument word.now) }
    ensures in_range { IfOk result (λ n. (low ≤ n) × (n ≤ high)) }
{
    let number = number(word).ok_or(ValueFault::Invalid(argument))?;
    if low <= number && number <= high {
        Ok(number)
    } else {
        Err(ValueFault::Invalid(argument))
    }
}

/// The number of this range that an operand or an option says.
#[tactic(auto, unfolding(crate::specs::Values::number_word))]
pub(crate) fn number_at(
    matches: &ArgMatches<'_>,
    low: u64,
    high: u64,
    argument: Argument,
) -> Result<u64, ValueFault>
    ensures value { Says (λ n. n) result
        (number_word low high argument (rows_of (found_of matches.now))) }
    ensures in_range { IfOk result (λ n. (low ≤ n) × (n ≤ high)) }
{
    number_in(low, high, argument, word(matches, argument)?)
}

/// The number of this range that an option says, where it is there.
#[tactic(auto, unfolding(crate::specs::Values::optional_in_text))]
fn optional_at(
    matches: &ArgMatches<'_>,
    low: u64,
    high: u64,
    argument: Argument,
) -> Result<Option<u64>, ValueFault>
    ensures value { Says (λ n. n) result
        (optional_word low high argument (rows_of (found_of matches.now))) }
    ensures in_range { IfOk result (λ o. IfSome o (λ n. (low ≤ n) × (n ≤ high))) }
{
    match found(matches, argument.id()) {
        Some(word) => Ok(Some(number_in(low, high, argument, word)?)),
        None => Ok(None),
    }
}

/// An amount of money, 1 to 10^15 micro-units.
pub(crate) fn amount_at(matches: &ArgMatches<'_>, argument: Argument) -> Result<Money, ValueFault>
    ensures value { Says (λ m. m) result
        (number_word 1 most_money argument (rows_of (found_of matches.now))) }
    ensures in_range { IfOk result (λ m. (1 ≤ m) × (m ≤ most_money)) }
{
    let micros = number_at(matches, 1, MOST_MONEY, argument)?;
    Money::new(micros).ok_or(ValueFault::Invalid(argument))
}

/// The blocks of an allowance, 1 to 10^9.
pub(crate) fn blocks(matches: &ArgMatches<'_>) -> Result<AllowanceBlocks, ValueFault>
    ensures value { Says (λ b. b) result
        (number_word 1 most_blocks argument.Blocks (rows_of (found_of matches.now))) }
    ensures in_range { IfOk result (λ b. (1 ≤ b) × (b ≤ most_blocks)) }
{
    let number = number_at(matches, 1, MOST_BLOCKS, Argument::Blocks)?;
    AllowanceBlocks::new(Blocks(number)).ok_or(ValueFault::Invalid(Argument::Blocks))
}

/// The moment of `--from`.
pub(crate) fn first_moment(matches: &ArgMatches<'_>) -> Result<Moment, ValueFault>
    ensures value { Says (λ t. t) result (from_word (rows_of (found_of matches.now))) }
    ensures in_range { IfOk result (λ t. t ≤ latest_command) }
{
    let seconds = number_at(matches, 0, LATEST_COMMAND, Argument::From)?;
    Moment::of_command(seconds).ok_or(ValueFault::Invalid(Argument::From))
}

/// All words of an operand, where it is there.
fn found_all<'m, 'a>(matches: &'m ArgMatches<'a>, id: &str) -> Option<&'m [&'a str]>
    ensures { option_map (λ l. map (λ s. s.now) l.now) result
        ≡ all_of id.now (rows_of (found_of matches.now)) }
{
    matches.get_strs(id)
}

/// The moment of a command that a word says.
fn moment_in(word: &str) -> Result<Moment, ValueFault>
    ensures value { Says (λ t. t) result (moment_in_text word.now) }
    ensures in_range { IfOk result (λ t. t ≤ latest_command) }
{
    let seconds = number_in(0, LATEST_COMMAND, Argument::Moment, word)?;
    Moment::of_command(seconds).ok_or(ValueFault::Invalid(Argument::Moment))
}

/// The moments that words say.
fn moments_in(alloc: Global, words: &[&str]) -> Result<Vec<Moment>, ValueFault>
    ensures value { GivesUnless Memory (λ v. v.items) result
        (collected (λ before. moment_in_text) [] (map (λ w. w.now) words.now)) }
    ensures in_range { IfOk result (λ v. All (λ t. t ≤ latest_command) v.items) }
{
    let mut moments = Vec::new(alloc);
    for word in words {
        let moment = moment_in(word)?;
        moments.push(moment)?;
    }
    Ok(moments)
}

/// The moments of an operand that comes once or more.
#[tactic(auto, unfolding(crate::specs::Values::moments_of))]
pub(crate) fn moments(alloc: Global, matches: &ArgMatches<'_>) -> Result<MomentList, ValueFault>
    ensures value { GivesUnless Memory (λ l. l) result
        (moments_of (rows_of (found_of matches.now))) }
    ensures in_range { IfOk result (λ l. All (λ t. t ≤ latest_command) l) }
{
    let found = found_all(matches, Argument::Moment.id());
    let words = found.ok_or(ValueFault::Invalid(Argument::Moment))?;
    let moments = moments_in(alloc, words)?;
    Ok(MomentList::new(moments))
}

/// The moment of `--at`, where it is there.
pub(crate) fn at(matches: &ArgMatches<'_>) -> Result<Option<Moment>, ValueFault>
    ensures value { Says (λ t. t) result (at_word (rows_of (found_of matches.now))) }
    ensures in_range { IfOk result (λ o. IfSome o (λ t. t ≤ latest_command)) }
{
    match optional_at(matches, 0, LATEST_COMMAND, Argument::At)? {
        None => Ok(None),
        Some(seconds) => Ok(Moment::of_command(seconds)),
    }
}

/// The end of `--until`, where it is there.
pub(crate) fn until(matches: &ArgMatches<'_>) -> Result<Option<CreditEnd>, ValueFault>
    ensures { Says (λ e. e) result (until_word (rows_of (found_of matches.now))) }
{
    match optional_at(matches, 1, NO_END, Argument::Until)? {
        None => Ok(None),
        Some(seconds) => match Moment::new(seconds) {
            Some(moment) => Ok(CreditEnd::new(moment)),
            None => Ok(None),
        },
    }
}

/// The rating group of `--scope`, where it is there.
pub(crate) fn scope(matches: &ArgMatches<'_>) -> Result<Option<u32>, ValueFault>
    ensures { Says (λ g. g) result (scope_word (rows_of (found_of matches.now))) }
{
    match optional_at(matches, 0, GREATEST_NUMBER, Argument::Scope)? {
        None => Ok(None),
        Some(group) => Ok(Some(group as u32)),
    }
}

/// The rating group of `--scope`, which must be there.
pub(crate) fn group(matches: &ArgMatches<'_>) -> Result<u32, ValueFault>
    ensures { Says (λ g. g) result (group_word (rows_of (found_of matches.now))) }
{
    let number = number_at(matches, 0, GREATEST_NUMBER, Argument::Scope)?;
    Ok(number as u32)
}

/// The path that an operand says.
#[tactic(auto, unfolding(crate::specs::Values::path_word))]
pub(crate) fn path_at(
    alloc: Global,
    matches: &ArgMatches<'_>,
    argument: Argument,
) -> Result<FilePath, ValueFault>
    ensures { GivesUnless Memory (λ p. p) result
        (path_word argument (rows_of (found_of matches.now))) }
{
    let text = word(matches, argument)?;
    FilePath::new(alloc, text)?.ok_or(ValueFault::Invalid(argument))
}

/// The path of the database.
pub(crate) fn database(alloc: Global, matches: &ArgMatches<'_>) -> Result<FilePath, ValueFault>
    ensures { GivesUnless Memory (λ p. p) result
        (database_word (rows_of (found_of matches.now))) }
{
    path_at(alloc, matches, Argument::Database)
}

/// The account's number.
#[tactic(auto, unfolding(crate::specs::Values::account_word))]
pub(crate) fn account(alloc: Global, matches: &ArgMatches<'_>) -> Result<AccountNumber, ValueFault>
    ensures { GivesUnless Memory (λ a. a) result
        (account_word (rows_of (found_of matches.now))) }
{
    let text = word(matches, Argument::Account)?;
    AccountNumber::new(alloc, text)?.ok_or(ValueFault::Invalid(Argument::Account))
}

/// The reference of a credit or an allowance.
#[tactic(auto, unfolding(crate::specs::Values::reference_word))]
pub(crate) fn reference(alloc: Global, matches: &ArgMatches<'_>) -> Result<Reference, ValueFault>
    ensures { GivesUnless Memory (λ r. r) result
        (reference_word (rows_of (found_of matches.now))) }
{
    let text = word(matches, Argument::Reference)?;
    Reference::new(alloc, text)?.ok_or(ValueFault::Invalid(Argument::Reference))
}

/// The month.
#[tactic(auto, unfolding(crate::specs::Values::month_word))]
pub(crate) fn month(matches: &ArgMatches<'_>) -> Result<Month, ValueFault>
    ensures { Says (λ m. m) result (month_word (rows_of (found_of matches.now))) }
{
    let text = word(matches, Argument::Month)?;
    Month::from_word(text).ok_or(ValueFault::Invalid(Argument::Month))
}

/// Whether a flag is there.
pub(crate) fn has_flag(matches: &ArgMatches<'_>, id: &str) -> bool
    ensures { result ≡ has_flag id.now (rows_of (found_of matches.now)) }
{
    match found(matches, id) {
        Some(word) => word == "true",
        None => false,
    }
}
