//! Operands and options as `clap` has them.

ghost use Rattle.std.specs.Prelude.{◌≡◌, IfOk, false};
ghost use Rattle.clap.specs.Words.{app_of, with_rule};
ghost use Rattle.clap.specs.declared.builder.command.Command.TheViews.{out-Command as fields_of};
ghost use Rattle.operator.specs.Program.{flag, operand, operands, valued};

use clap::{Arg, ArgAction, Command};
use std::alloc::{AllocError, Global};

/// A command with one more word in its place, which must be there.
pub(crate) fn with_operand<'a>(
    alloc: Global,
    command: Command<'a>,
    id: &'a str,
    help: &'a str,
) -> Result<Command<'a>, AllocError>
    requires { (fields_of command).has_globals ≡ false }
    ensures app { IfOk result
        (λ c. app_of c ≡ with_rule (app_of command.entry) (operand id.entry.now)) }
    ensures local { IfOk result (λ c. (fields_of c).has_globals ≡ false) }
{
    let operand = Arg::new(alloc, id)
        .help(help)
        .required(true)
        .action(ArgAction::Set);
    command.arg(operand)
}

/// A command with one more word in the last place, which must be there and may come many times.
pub(crate) fn with_operands<'a>(
    alloc: Global,
    command: Command<'a>,
    id: &'a str,
    help: &'a str,
) -> Result<Command<'a>, AllocError>
    requires { (fields_of command).has_globals ≡ false }
    ensures app { IfOk result
        (λ c. app_of c ≡ with_rule (app_of command.entry) (operands id.entry.now)) }
    ensures local { IfOk result (λ c. (fields_of c).has_globals ≡ false) }
{
    let operands = Arg::new(alloc, id)
        .help(help)
        .required(true)
        .action(ArgAction::Append);
    command.arg(operands)
}

/// A command with one more option, which takes a value of this name and may have to be there.
pub(crate) fn with_option<'a>(
    alloc: Global,
    command: Command<'a>,
    id: &'a str,
    value: &'a str,
    is_needed: bool,
    help: &'a str,
) -> Result<Command<'a>, AllocError>
    requires { (fields_of command).has_globals ≡ false }
    ensures app { IfOk result
        (λ c. app_of c ≡ with_rule (app_of command.entry) (valued is_needed id.entry.now)) }
    ensures local { IfOk result (λ c. (fields_of c).has_globals ≡ false) }
{
    let option = Arg::new(alloc, id)
        .long(id)
        .value_name(value)
        .help(help)
        .required(is_needed)
        .action(ArgAction::Set);
    command.arg(option)
}

/// A command with one more option that takes no value.
pub(crate) fn with_flag<'a>(
    alloc: Global,
    command: Command<'a>,
    id: &'a str,
    help: &'a str,
) -> Result<Command<'a>, AllocError>
    requires { (fields_of command).has_globals ≡ false }
    ensures app { IfOk result
        (λ c. app_of c ≡ with_rule (app_of command.entry) (flag id.entry.now)) }
    ensures local { IfOk result (λ c. (fields_of c).has_globals ≡ false) }
{
    let flag = Arg::new(alloc, id)
        .long(id)
        .help(help)
        .action(ArgAction::SetTrue);
    command.arg(flag)
}
