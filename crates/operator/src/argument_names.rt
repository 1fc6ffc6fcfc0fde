//! Operands and options: their names, and the line where a word isn't what one takes.

ghost use Rattle.std.specs.Prelude.{◌≡◌};
ghost use Rattle.operator.specs.Arguments.{argument_id, argument_line};

/// An operand or an option of the program's words, or the word that names the command (profile).
#[derive(Clone, Copy, Debug)]
pub enum Argument {
    /// The word that names the command.
    Command,
    /// The path of the database.
    Database,
    /// The path of a tariff book.
    Book,
    /// The path of another file.
    File,
    /// The account's number.
    Account,
    /// The amount of a credit, in micro-units.
    Amount,
    /// The blocks of an allowance.
    Blocks,
    /// The reference of a credit or an allowance.
    Reference,
    /// The month of a statement.
    Month,
    /// A moment at which a clock is looked at, in seconds since 1970.
    Moment,
    /// What the account is opened with, in micro-units.
    Credit,
    /// The price of a block, in micro-units.
    Price,
    /// The size of a block, in seconds.
    Block,
    /// The port that is listened to.
    Port,
    /// How many connections are served.
    Connections,
    /// The moment from which a book holds, in seconds since 1970.
    From,
    /// Until when a bucket can be used, in seconds since 1970.
    Until,
    /// The rating group that a bucket pays for.
    Scope,
    /// The moment of the command, in seconds since 1970.
    At,
}

impl Argument {
    /// The name by which `clap` knows it.
    pub(crate) fn id(self) -> &'static str
        ensures { result.now ≡ argument_id self }
    {
        match self {
            Argument::Command => "COMMAND",
            Argument::Database => "DB",
            Argument::Book => "BOOK",
            Argument::File => "FILE",
            Argument::Account => "ACCOUNT",
            Argument::Amount => "AMOUNT",
            Argument::Blocks => "BLOCKS",
            Argument::Reference => "REFERENCE",
            Argument::Month => "YYYYMM",
            Argument::Moment => "MOMENT",
            Argument::Credit => "credit",
            Argument::Price => "price",
            Argument::Block => "block",
            Argument::Port => "port",
            Argument::Connections => "connections",
            Argument::From => "from",
            Argument::Until => "until",
            Argument::Scope => "scope",
            Argument::At => "at",
        }
    }

    /// The line on standard error where a word isn't what it takes, without its line feed.
    // rule: exit-status
    pub fn line(self) -> &'static str
        ensures { result.now ≡ argument_line self }
    {
        match self {
            Argument::Command => "ocs: a command is one that --help lists",
            Argument::Database => "ocs: DB takes a path of 1 byte or more",
            Argument::Book => "ocs: BOOK takes a path of 1 byte or more",
            Argument::File => "ocs: FILE takes a path of 1 byte or more",
            Argument::Account => "ocs: ACCOUNT takes 1 to 15 digits",
            Argument::Amount => "ocs: AMOUNT takes 1 to 1000000000000000",
            Argument::Blocks => "ocs: BLOCKS takes 1 to 1000000000",
            Argument::Reference => "ocs: REFERENCE takes 1 to 64 characters from ! to ~",
            Argument::Month => "ocs: YYYYMM takes 197001 to 209912",
            Argument::Moment => "ocs: MOMENT takes 0 to 4102444799",
            Argument::Credit => "ocs: --credit takes 1 to 1000000000000000",
            Argument::Price => "ocs: --price takes 0 to 1000000000",
            Argument::Block => "ocs: --block takes 1 to 1000000000000000",
            Argument::Port => "ocs: --port takes 1 to 65535",
            Argument::Connections => "ocs: --connections takes 1 to 1000000",
            Argument::From => "ocs: --from takes 0 to 4102444799",
            Argument::Until => "ocs: --until takes 1 to 4102444800",
            Argument::Scope => "ocs: --scope takes 0 to 4294967295",
            Argument::At => "ocs: --at takes 0 to 4102444799",
        }
    }
}
