//! What the program's words say.

use crate::moments::MomentList;
use crate::office::OfficeCommand;
use crate::path::FilePath;
use identifiers::AccountNumber;
use texts::Month;
use units::{Moment, Money};

/// What the words of `once` say: an account's opening credit, and the one price of its tariff book.
#[derive(Clone, Copy)]
pub struct OnceWords {
    /// What the account's bucket is opened with, 1 to 10^15 micro-units.
    pub credit: Money,
    /// The price of a block, 0 to 10^9 micro-units.
    pub price: u64,
    /// The size of a block, 1 to 10^15 seconds.
    pub block: u64,
}

/// What the words of `init` say: a new database for this tariff book.
#[derive(Drop)]
pub struct InitWords {
    /// The path at which the database is made.
    pub database: FilePath,
    /// The book's TOML.
    pub book: FilePath,
}

/// What the words of `migrate` say: a database that is brought to the latest version.
#[derive(Drop)]
pub struct MigrateWords {
    /// The path of the database.
    pub database: FilePath,
}

/// What the words of `book` say: a tariff book more for a database.
#[derive(Drop)]
pub struct BookWords {
    /// The path of the database to which the book is added.
    pub database: FilePath,
    /// The book's TOML.
    pub file: FilePath,
    /// The moment from which the book holds, 0 to 4,102,444,799.
    pub from: Moment,
}

/// What the words of `serve` say: connections on a port of 127.0.0.1.
#[derive(Drop)]
pub struct ServeWords {
    /// The path of the database that is served.
    pub database: FilePath,
    /// The port, 1 to 65,535.
    pub port: u16,
    /// How many are served, 1 to 1,000,000.
    pub connections: u32,
    /// The moment of every request, 0 to 4,102,444,799; None: the clock's.
    pub at: Option<Moment>,
}

/// What the words of `import` say: a file of vouchers for a database.
#[derive(Drop)]
pub struct ImportWords {
    /// The path of the database to which the vouchers are added.
    pub database: FilePath,
    /// The vouchers' CSV.
    pub file: FilePath,
    /// The moment of each command, 0 to 4,102,444,799; None: the clock's.
    pub at: Option<Moment>,
}

/// What the words of an operator's command say.
#[derive(Drop)]
pub struct OfficeWords {
    /// The path of the database on which the command is carried out.
    pub database: FilePath,
    /// The command that is carried out.
    pub command: OfficeCommand,
    /// Its moment, 0 to 4,102,444,799; None: the clock's.
    pub at: Option<Moment>,
}

/// What the words of `statement` say: the charges of an account in a month.
#[derive(Drop)]
pub struct StatementWords {
    /// The path of the database that has the account.
    pub database: FilePath,
    /// The account whose charges are written.
    pub account: AccountNumber,
    /// The civil month in the book's zone.
    pub month: Month,
    /// Whether they are written as CSV.
    pub csv: bool,
    /// The moment of the buckets, 0 to 4,102,444,799; None: the clock's.
    pub at: Option<Moment>,
}

/// What the words of `clock` say: moments at which the clock of the books is looked at.
#[derive(Drop)]
pub struct ClockWords {
    /// The path of the database that has the books.
    pub database: FilePath,
    /// The moments, each 0 to 4,102,444,799, in the order of the words.
    pub moments: MomentList,
}

/// What the words of `replay` say: a file of dated requests for a database.
#[derive(Drop)]
pub struct ReplayWords {
    /// The path of the database on which the requests are carried out.
    pub database: FilePath,
    /// Lines of a moment, one space and a request as JSON.
    pub file: FilePath,
}

/// What the program's words say.
#[derive(Drop)]
pub enum ProgramWords {
    /// `once`: requests from standard input, over one account and one price.
    Once(OnceWords),
    /// `init`: a new database for a tariff book.
    Init(InitWords),
    /// `migrate`: a database of an older version, brought to the latest.
    Migrate(MigrateWords),
    /// `book`: a tariff book more, which holds from a moment on.
    Book(BookWords),
    /// `serve`: requests over HTTP, from connections on a port.
    Serve(ServeWords),
    /// `import`: the vouchers of a file.
    Import(ImportWords),
    /// `open`, `bar`, `unbar`, `sweep`, `credit` and `allow`.
    Office(OfficeWords),
    /// `statement`: the charges of an account in a month.
    Statement(StatementWords),
    /// `clock`: the day, the month and the period at moments.
    Clock(ClockWords),
    /// `replay`: dated requests from a file.
    Replay(ReplayWords),
}
