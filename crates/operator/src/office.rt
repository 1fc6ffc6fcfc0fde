//! An operator's commands: their names, and what the words of each say.

ghost use Rattle.std.specs.Prelude.{◌≡◌, ◌≤◌, IfOk};
ghost use Rattle.units.specs.Words.{most_blocks};
ghost use Rattle.clap.specs.Words.{found_of, rows_of};
ghost use Rattle.texts.specs.Steps.{GivesUnless};
ghost use Rattle.operator.specs.Office.{allowance_said, command_of_office, credit_said};
ghost use Rattle.operator.specs.Office.{office_command_said, office_name, IsOfficeCommandInRange};
ghost use Rattle.operator.specs.declared.fault.ValueFault.TheVariants.{Memory};

use crate::argument_names::Argument;
use crate::fault::ValueFault;
use crate::values::{account, amount_at, blocks, group, reference, scope, until};
use clap::ArgMatches;
use commands::{Allowance, Command, Credit};
use identifiers::AccountNumber;
use std::alloc::Global;

/// A command of an operator, by its name.
#[derive(Clone, Copy)]
pub(crate) enum OfficeName {
    Open,
    Bar,
    Unbar,
    Sweep,
    Credit,
    Allow,
}

impl OfficeName {
    pub(crate) fn name(self) -> &'static str
        ensures { result.now ≡ office_name self }
    {
        match self {
            OfficeName::Open => "open",
            OfficeName::Bar => "bar",
            OfficeName::Unbar => "unbar",
            OfficeName::Sweep => "sweep",
            OfficeName::Credit => "credit",
            OfficeName::Allow => "allow",
        }
    }
}

/// A command that an operator types.
#[derive(Drop)]
pub enum OfficeCommand {
    /// Opens an account.
    Open(AccountNumber),
    /// Bars an account.
    Bar(AccountNumber),
    /// Lifts the bar of an account.
    Unbar(AccountNumber),
    /// Gives an account money, from the moment of the command on.
    Credit(Credit),
    /// Gives an account blocks of a rating group, from the moment of the command on.
    Allow(Allowance),
    /// Brings each account to the moment of the command.
    Sweep,
}

impl OfficeCommand {
    /// The command of the charging system that it is.
    pub fn into_command(self) -> Command
        ensures { result ≡ command_of_office self }
    {
        match self {
            OfficeCommand::Open(account) => Command::OpenAccount(account),
            OfficeCommand::Bar(account) => Command::Bar(account),
            OfficeCommand::Unbar(account) => Command::Unbar(account),
            OfficeCommand::Credit(credit) => Command::Credit(credit),
            OfficeCommand::Allow(allowance) => Command::Allow(allowance),
            OfficeCommand::Sweep => Command::Sweep,
        }
    }
}

/// The command of an operator that the words say.
pub(crate) fn office_command(
    alloc: Global,
    name: OfficeName,
    matches: &ArgMatches<'_>,
) -> Result<OfficeCommand, ValueFault>
    ensures value { GivesUnless Memory (λ w. w) result
        (office_command_said name (rows_of (found_of matches.now))) }
    ensures in_range { IfOk result IsOfficeCommandInRange }
{
    match name {
        OfficeName::Open => Ok(OfficeCommand::Open(account(alloc, matches)?)),
        OfficeName::Bar => Ok(OfficeCommand::Bar(account(alloc, matches)?)),
        OfficeName::Unbar => Ok(OfficeCommand::Unbar(account(alloc, matches)?)),
        OfficeName::Sweep => Ok(OfficeCommand::Sweep),
        OfficeName::Credit => Ok(OfficeCommand::Credit(credit(alloc, matches)?)),
        OfficeName::Allow => Ok(OfficeCommand::Allow(allowance(alloc, matches)?)),
    }
}

/// The credit that the words say.
#[tactic(auto, unfolding(crate::specs::Office::credit_said))]
fn credit(alloc: Global, matches: &ArgMatches<'_>) -> Result<Credit, ValueFault>
    ensures value { GivesUnless Memory (λ c. c) result
        (credit_said (rows_of (found_of matches.now))) }
    ensures in_range { IfOk result (λ c. 1 ≤ c.amount) }
{
    let account = account(alloc, matches)?;
    let amount = amount_at(matches, Argument::Amount)?;
    let reference = reference(alloc, matches)?;
    let until = until(matches)?;
    let scope = scope(matches)?;
    Ok(Credit {
        account,
        amount,
        from: None,
        until,
        scope,
        reference,
    })
}

/// The allowance that the words say.
#[tactic(auto, unfolding(crate::specs::Office::allowance_said))]
fn allowance(alloc: Global, matches: &ArgMatches<'_>) -> Result<Allowance, ValueFault>
    ensures value { GivesUnless Memory (λ a. a) result
        (allowance_said (rows_of (found_of matches.now))) }
    ensures in_range { IfOk result (λ a. (1 ≤ a.blocks) × (a.blocks ≤ most_blocks)) }
{
    let account = account(alloc, matches)?;
    let blocks = blocks(matches)?;
    let reference = reference(alloc, matches)?;
    let until = until(matches)?;
    let scope = group(matches)?;
    Ok(Allowance {
        account,
        blocks,
        from: None,
        until,
        scope,
        reference,
    })
}
