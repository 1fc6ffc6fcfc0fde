//! The program's commands: their names, operands and options.

ghost use Rattle.std.specs.Prelude.{◌≡◌, IfOk, Some, codes, false, nat_eq, option_map};
ghost use Rattle.std.specs.List.{find};
ghost use Rattle.std.specs.Cmp.Lexicographic.{pointwise};
ghost use Rattle.clap.specs.Words.{app_of, new_app, with_rule, with_subcommand};
ghost use Rattle.clap.specs.declared.builder.command.Command.TheViews.{out-Command as fields_of};
ghost use Rattle.operator.specs.Program.{account_app, allow_app, allow_operands_app, at, book_app};
ghost use Rattle.operator.specs.Program.{clock_app, command_app, command_name, command_named};
ghost use Rattle.operator.specs.Program.{credit_app, credit_operands_app, import_app, init_app};
ghost use Rattle.operator.specs.Program.{migrate_app};
ghost use Rattle.operator.specs.Program.{office_app, once_app, program_app, replay_app, serve_app};
ghost use Rattle.operator.specs.Program.{statement_app, sweep_app, top_app, version_text};
ghost use Rattle.operator.specs.Program.{with_command_apps};

use crate::arguments::{with_flag, with_operand, with_operands, with_option};
use crate::office::OfficeName;
use clap::Command;
use std::alloc::{AllocError, Global};

/// A command of the program, by its name.
#[derive(Clone, Copy)]
pub(crate) enum CommandName {
    Once,
    Init,
    Migrate,
    Book,
    Serve,
    Import,
    Office(OfficeName),
    Statement,
    Clock,
    Replay,
}

/// All commands of the program.
const COMMANDS: [CommandName; 15] = [
    CommandName::Once,
    CommandName::Init,
    CommandName::Migrate,
    CommandName::Book,
    CommandName::Serve,
    CommandName::Import,
    CommandName::Office(OfficeName::Open),
    CommandName::Office(OfficeName::Bar),
    CommandName::Office(OfficeName::Unbar),
    CommandName::Office(OfficeName::Sweep),
    CommandName::Office(OfficeName::Credit),
    CommandName::Office(OfficeName::Allow),
    CommandName::Statement,
    CommandName::Clock,
    CommandName::Replay,
];

fn first_named(all: &[CommandName], name: &str) -> Option<CommandName>
    ensures { result ≡ find (λ c. pointwise nat_eq (command_name c) name.now) all.now }
{
    all.iter().copied().find(|command| command.name() == name)
}

impl CommandName {
    /// The word that names it.
    pub(crate) fn name(self) -> &'static str
        ensures { result.now ≡ command_name self }
    {
        match self {
            CommandName::Once => "once",
            CommandName::Init => "init",
            CommandName::Migrate => "migrate",
            CommandName::Book => "book",
            CommandName::Serve => "serve",
            CommandName::Import => "import",
            CommandName::Office(office) => office.name(),
            CommandName::Statement => "statement",
            CommandName::Clock => "clock",
            CommandName::Replay => "replay",
        }
    }

    /// The command with its operands and options, as `clap` takes it.
    fn command<'a>(self, alloc: Global) -> Result<Command<'a>, AllocError>
        ensures app { IfOk result (λ c. app_of c ≡ command_app self) }
        ensures local { IfOk result (λ c. (fields_of c).has_globals ≡ false) }
    {
        match self {
            CommandName::Once => once_command(alloc),
            CommandName::Init => init_command(alloc),
            CommandName::Migrate => migrate_command(alloc),
            CommandName::Book => book_command(alloc),
            CommandName::Serve => serve_command(alloc),
            CommandName::Import => import_command(alloc),
            CommandName::Office(office) => office_command(alloc, office),
            CommandName::Statement => statement_command(alloc),
            CommandName::Clock => clock_command(alloc),
            CommandName::Replay => replay_command(alloc),
        }
    }

    /// The one that a word names.
    pub(crate) fn named(name: &str) -> Option<CommandName>
        ensures { result ≡ command_named name.now }
    {
        first_named(&COMMANDS, name)
    }
}

const DATABASE: &str = "The database's file";

const ACCOUNT: &str = "The account's number, 1 to 15 digits";

const AMOUNT: &str = "1 to 10^15 micro-units: 1.50 is 1500000";

/// A command of this name, with what it is for and an example of it, which its help has.
fn named_command<'a>(alloc: Global, name: &'a str, about: &'a str, example: &'a str) -> Command<'a>
    ensures app { app_of result ≡ new_app name.entry.now }
    ensures local { (fields_of result).has_globals ≡ false }
{
    Command::new(alloc, name).about(about).after_help(example)
}

/// A command with the option `--at`.
fn with_at<'a>(alloc: Global, command: Command<'a>) -> Result<Command<'a>, AllocError>
    requires { (fields_of command).has_globals ≡ false }
    ensures app { IfOk result (λ c. app_of c ≡ with_rule (app_of command.entry) at) }
    ensures local { IfOk result (λ c. (fields_of c).has_globals ≡ false) }
{
    let help = "The moment, in seconds since 1970; without it the machine's clock is asked";
    with_option(alloc, command, "at", "T", false, help)
}

fn once_command<'a>(alloc: Global) -> Result<Command<'a>, AllocError>
    ensures app { IfOk result (λ c. app_of c ≡ once_app) }
    ensures local { IfOk result (λ c. (fields_of c).has_globals ≡ false) }
{
    let about = "Answers requests from standard input, without a database";
    let example = concat!(
        "Example: ocs once --credit 1000000 --price 100000 --block 60 ",
        "< examples/requests/enquiry.in",
    );
    let command = named_command(alloc, "once", about, example);
    let credit = "What the account is opened with, 1 to 10^15 micro-units";
    let command = with_option(alloc, command, "credit", "A", true, credit)?;
    let price = "The price of a block, 0 to 10^9 micro-units";
    let command = with_option(alloc, command, "price", "P", true, price)?;
    let block = "The size of a block, 1 to 10^15 seconds";
    with_option(alloc, command, "block", "B", true, block)
}

fn init_command<'a>(alloc: Global) -> Result<Command<'a>, AllocError>
    ensures app { IfOk result (λ c. app_of c ≡ init_app) }
    ensures local { IfOk result (λ c. (fields_of c).has_globals ≡ false) }
{
    let about = "Creates a database for a tariff book";
    let example = "Example: ocs init office.db examples/book.toml";
    let command = named_command(alloc, "init", about, example);
    let command = with_operand(alloc, command, "DB", DATABASE)?;
    with_operand(alloc, command, "BOOK", "The tariff book, as TOML")
}

fn migrate_command<'a>(alloc: Global) -> Result<Command<'a>, AllocError>
    ensures app { IfOk result (λ c. app_of c ≡ migrate_app) }
    ensures local { IfOk result (λ c. (fields_of c).has_globals ≡ false) }
{
    let about = "Brings a database of an older version to the latest";
    let example = "Example: ocs migrate office.db";
    let command = named_command(alloc, "migrate", about, example);
    with_operand(alloc, command, "DB", DATABASE)
}

fn book_command<'a>(alloc: Global) -> Result<Command<'a>, AllocError>
    ensures app { IfOk result (λ c. app_of c ≡ book_app) }
    ensures local { IfOk result (λ c. (fields_of c).has_globals ≡ false) }
{
    let about = "Adds a tariff book to a database";
    let example = "Example: ocs book office.db examples/book.toml --from 1767657600";
    let command = named_command(alloc, "book", about, example);
    let command = with_operand(alloc, command, "DB", DATABASE)?;
    let command = with_operand(alloc, command, "FILE", "The tariff book, as TOML")?;
    let from = "The moment from which the book holds, in seconds since 1970";
    with_option(alloc, command, "from", "T", true, from)
}

fn serve_command<'a>(alloc: Global) -> Result<Command<'a>, AllocError>
    ensures app { IfOk result (λ c. app_of c ≡ serve_app) }
    ensures local { IfOk result (λ c. (fields_of c).has_globals ≡ false) }
{
    let about = "Serves connections of HTTP on 127.0.0.1";
    let example = "Example: ocs serve office.db --port 8080 --connections 8 --at 1767607200";
    let command = named_command(alloc, "serve", about, example);
    let command = with_operand(alloc, command, "DB", DATABASE)?;
    let command = with_option(alloc, command, "port", "P", true, "The port, 1 to 65535")?;
    let connections = "How many connections are served, 1 to 1000000";
    let command = with_option(alloc, command, "connections", "N", true, connections)?;
    with_at(alloc, command)
}

fn import_command<'a>(alloc: Global) -> Result<Command<'a>, AllocError>
    ensures app { IfOk result (λ c. app_of c ≡ import_app) }
    ensures local { IfOk result (λ c. (fields_of c).has_globals ≡ false) }
{
    let about = "Adds the vouchers of a file";
    let example = "Example: ocs import office.db examples/vouchers.csv --at 1767607200";
    let command = named_command(alloc, "import", about, example);
    let command = with_operand(alloc, command, "DB", DATABASE)?;
    let command = with_operand(alloc, command, "FILE", "The vouchers, as CSV")?;
    with_at(alloc, command)
}

/// A command of this name on an account.
fn account_command<'a>(
    alloc: Global,
    name: &'a str,
    about: &'a str,
    example: &'a str,
) -> Result<Command<'a>, AllocError>
    ensures app { IfOk result (λ c. app_of c ≡ account_app name.entry.now) }
    ensures local { IfOk result (λ c. (fields_of c).has_globals ≡ false) }
{
    let command = named_command(alloc, name, about, example);
    let command = with_operand(alloc, command, "DB", DATABASE)?;
    let command = with_operand(alloc, command, "ACCOUNT", ACCOUNT)?;
    with_at(alloc, command)
}

fn open_command<'a>(alloc: Global) -> Result<Command<'a>, AllocError>
    ensures app { IfOk result (λ c. app_of c ≡ account_app (codes "open")) }
    ensures local { IfOk result (λ c. (fields_of c).has_globals ≡ false) }
{
    let example = "Example: ocs open office.db 49151 --at 1767607200";
    account_command(alloc, "open", "Opens an account", example)
}

fn bar_command<'a>(alloc: Global) -> Result<Command<'a>, AllocError>
    ensures app { IfOk result (λ c. app_of c ≡ account_app (codes "bar")) }
    ensures local { IfOk result (λ c. (fields_of c).has_globals ≡ false) }
{
    let example = "Example: ocs bar office.db 49151 --at 1767607200";
    account_command(
        alloc,
        "bar",
        "Bars an account: it is granted nothing more",
        example,
    )
}

fn unbar_command<'a>(alloc: Global) -> Result<Command<'a>, AllocError>
    ensures app { IfOk result (λ c. app_of c ≡ account_app (codes "unbar")) }
    ensures local { IfOk result (λ c. (fields_of c).has_globals ≡ false) }
{
    let example = "Example: ocs unbar office.db 49151 --at 1767607200";
    account_command(alloc, "unbar", "Ends that an account is barred", example)
}

fn sweep_command<'a>(alloc: Global) -> Result<Command<'a>, AllocError>
    ensures app { IfOk result (λ c. app_of c ≡ sweep_app) }
    ensures local { IfOk result (λ c. (fields_of c).has_globals ≡ false) }
{
    let about = "Brings each account to the moment";
    let example = "Example: ocs sweep office.db --at 1767607200";
    let command = named_command(alloc, "sweep", about, example);
    let command = with_operand(alloc, command, "DB", DATABASE)?;
    with_at(alloc, command)
}

/// The command `credit` with its operands.
fn credit_operands<'a>(alloc: Global) -> Result<Command<'a>, AllocError>
    ensures app { IfOk result (λ c. app_of c ≡ credit_operands_app) }
    ensures local { IfOk result (λ c. (fields_of c).has_globals ≡ false) }
{
    let about = "Gives an account money";
    let example = "Example: ocs credit office.db 49151 1000000 c1 --at 1767607200";
    let command = named_command(alloc, "credit", about, example);
    let command = with_operand(alloc, command, "DB", DATABASE)?;
    let command = with_operand(alloc, command, "ACCOUNT", ACCOUNT)?;
    let command = with_operand(alloc, command, "AMOUNT", AMOUNT)?;
    let reference = "Names the credit, so that it isn't given twice, 1 to 64 bytes";
    with_operand(alloc, command, "REFERENCE", reference)
}

fn credit_command<'a>(alloc: Global) -> Result<Command<'a>, AllocError>
    ensures app { IfOk result (λ c. app_of c ≡ credit_app) }
    ensures local { IfOk result (λ c. (fields_of c).has_globals ≡ false) }
{
    let command = credit_operands(alloc)?;
    let until = "Until when it can be used, in seconds since 1970; without it there is no end";
    let command = with_option(alloc, command, "until", "T", false, until)?;
    let scope = "The rating group that it pays for; without it all";
    let command = with_option(alloc, command, "scope", "G", false, scope)?;
    with_at(alloc, command)
}

/// The command `allow` with its operands.
fn allow_operands<'a>(alloc: Global) -> Result<Command<'a>, AllocError>
    ensures app { IfOk result (λ c. app_of c ≡ allow_operands_app) }
    ensures local { IfOk result (λ c. (fields_of c).has_globals ≡ false) }
{
    let about = "Gives an account blocks of a rating group";
    let example = "Example: ocs allow office.db 49151 3 a1 --scope 30 --at 1767607200";
    let command = named_command(alloc, "allow", about, example);
    let command = with_operand(alloc, command, "DB", DATABASE)?;
    let command = with_operand(alloc, command, "ACCOUNT", ACCOUNT)?;
    let command = with_operand(alloc, command, "BLOCKS", "1 to 10^9 blocks")?;
    let reference = "Names the allowance, so that it isn't given twice, 1 to 64 bytes";
    with_operand(alloc, command, "REFERENCE", reference)
}

fn allow_command<'a>(alloc: Global) -> Result<Command<'a>, AllocError>
    ensures app { IfOk result (λ c. app_of c ≡ allow_app) }
    ensures local { IfOk result (λ c. (fields_of c).has_globals ≡ false) }
{
    let command = allow_operands(alloc)?;
    let until = "Until when they can be used, in seconds since 1970; without it there is no end";
    let command = with_option(alloc, command, "until", "T", false, until)?;
    let scope = "The rating group whose blocks they are";
    let command = with_option(alloc, command, "scope", "G", true, scope)?;
    with_at(alloc, command)
}

fn statement_command<'a>(alloc: Global) -> Result<Command<'a>, AllocError>
    ensures app { IfOk result (λ c. app_of c ≡ statement_app) }
    ensures local { IfOk result (λ c. (fields_of c).has_globals ≡ false) }
{
    let about = "Writes an account's charges of a month";
    let example = "Example: ocs statement office.db 49151 202601 --at 1767607200";
    let command = named_command(alloc, "statement", about, example);
    let command = with_operand(alloc, command, "DB", DATABASE)?;
    let command = with_operand(alloc, command, "ACCOUNT", ACCOUNT)?;
    let command = with_operand(alloc, command, "YYYYMM", "The month, 197001 to 209912")?;
    let command = with_flag(alloc, command, "csv", "Writes the charges as CSV")?;
    with_at(alloc, command)
}

fn clock_command<'a>(alloc: Global) -> Result<Command<'a>, AllocError>
    ensures app { IfOk result (λ c. app_of c ≡ clock_app) }
    ensures local { IfOk result (λ c. (fields_of c).has_globals ≡ false) }
{
    let about = "Prints the day, the month and the period at moments";
    let example = "Example: ocs clock office.db 1767607200";
    let command = named_command(alloc, "clock", about, example);
    let command = with_operand(alloc, command, "DB", DATABASE)?;
    let moment = "A moment, in seconds since 1970, 0 to 4102444799";
    with_operands(alloc, command, "MOMENT", moment)
}

fn replay_command<'a>(alloc: Global) -> Result<Command<'a>, AllocError>
    ensures app { IfOk result (λ c. app_of c ≡ replay_app) }
    ensures local { IfOk result (λ c. (fields_of c).has_globals ≡ false) }
{
    let about = "Answers dated requests from a file";
    let example = "Example: ocs replay office.db examples/requests/debit.in";
    let command = named_command(alloc, "replay", about, example);
    let command = with_operand(alloc, command, "DB", DATABASE)?;
    with_operand(
        alloc,
        command,
        "FILE",
        "Lines of a moment, one space and a request as JSON",
    )
}

/// An operator's command with its operands and options.
fn office_command<'a>(alloc: Global, name: OfficeName) -> Result<Command<'a>, AllocError>
    ensures app { IfOk result (λ c. app_of c ≡ office_app name) }
    ensures local { IfOk result (λ c. (fields_of c).has_globals ≡ false) }
{
    match name {
        OfficeName::Open => open_command(alloc),
        OfficeName::Bar => bar_command(alloc),
        OfficeName::Unbar => unbar_command(alloc),
        OfficeName::Sweep => sweep_command(alloc),
        OfficeName::Credit => credit_command(alloc),
        OfficeName::Allow => allow_command(alloc),
    }
}

/// What `--version` prints behind the program's name: its own version, that of the tables of its
/// databases, and the kit that it is built with.
// rule: version
fn version_text() -> &'static str
    ensures { result.now ≡ version_text }
{
    "0.2.0, tables 3, rattle-kit-13f logic dac8208d650f15bf"
}

/// The program, before its commands.
fn top_command<'a>(alloc: Global) -> Command<'a>
    ensures app { app_of result ≡ top_app }
    // rule: version
    ensures version { option_map (λ text. text.now) (fields_of result).version
        ≡ Some version_text }
    ensures local { (fields_of result).has_globals ≡ false }
{
    Command::new(alloc, "ocs")
        .about("Online charging for prepaid subscribers")
        .version(version_text())
        .subcommand_required(true)
}

/// A program with one command more.
fn with_command<'a>(
    alloc: Global,
    program: Command<'a>,
    name: CommandName,
) -> Result<Command<'a>, AllocError>
    requires { (fields_of program).has_globals ≡ false }
    ensures app { IfOk result
        (λ c. app_of c ≡ with_subcommand (app_of program.entry) (command_app name).top) }
    ensures local { IfOk result (λ c. (fields_of c).has_globals ≡ false) }
{
    let command = name.command(alloc)?;
    program.subcommand(command)
}

/// A program with these commands more.
fn with_commands<'a>(
    alloc: Global,
    program: Command<'a>,
    names: &[CommandName],
) -> Result<Command<'a>, AllocError>
    requires { (fields_of program).has_globals ≡ false }
    ensures app { IfOk result
        (λ c. app_of c ≡ with_command_apps names.now (app_of program.entry)) }
    ensures local { IfOk result (λ c. (fields_of c).has_globals ≡ false) }
{
    let mut program = program;
    for name in names {
        program = with_command(alloc, program, *name)?;
    }
    Ok(program)
}

/// The program with all its commands.
pub(crate) fn program<'a>(alloc: Global) -> Result<Command<'a>, AllocError>
    ensures app { IfOk result (λ c. app_of c ≡ program_app) }
    ensures local { IfOk result (λ c. (fields_of c).has_globals ≡ false) }
{
    with_commands(alloc, top_command(alloc), &COMMANDS)
}
