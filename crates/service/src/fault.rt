//! Why a command over a database isn't carried out.

ghost use Rattle.std.specs.Prelude.{◌≡◌};
ghost use Rattle.service.specs.Adding.{IsAddingFault};
ghost use Rattle.service.specs.Opening.{IsUnopened};
ghost use Rattle.service.specs.ServingTold.{IsTellFault};
ghost use Rattle.service.specs.Told.{about_database, adding_fault, connect_fault, making_fault};

use crate::database_files::ConnectFault;
use operations::OfficeFault;
use shelves::ShelfFault;
use sql_keeper::{AddFault, CreateFault};
use sql_tables::OpenFault;
use sqlite::{Error, ErrorCode};
use std::io;
use tariffs::BookFault;
use texts::StreamFault;
use thiserror::Error;

/// Why a command over a database isn't carried out, in the order in which it is looked for.
#[derive(Clone, Copy, Debug, Drop, Error)]
pub enum DatabaseFault {
    /// A file that the words name can't be read, a standard stream failed, or the database can't be
    /// opened as one.
    #[error("a file failed")]
    File,
    /// The machine's clock doesn't answer, or its moment is none of a command.
    #[error("the clock did not answer")]
    Clock,
    /// The text isn't that of a tariff book.
    #[error("book fault {}", .0.number())]
    Book(BookFault),
    /// The database isn't made or opened for this system.
    #[error("open fault {}", .0.number())]
    Open(OpenFault),
    /// The book may not follow those of the database.
    #[error("shelf fault {}", .0.number())]
    Shelf(ShelfFault),
    /// The port can't be listened to.
    #[error("the port can't be listened to")]
    Net,
    /// Memory was refused.
    #[error("out of memory")]
    Memory,
    /// The command wasn't carried out, or its answer not written.
    #[error("{0}")]
    Office(OfficeFault),
}

impl DatabaseFault {
    /// The line that reports it on standard error, without its number and its line feed.
    pub fn line(self) -> &'static str
        ensures { result.now ≡ (about_database self).line }
    {
        match self {
            DatabaseFault::File => "ocs: file fault",
            DatabaseFault::Clock => "ocs: clock fault",
            DatabaseFault::Book(_) => "ocs: book fault",
            DatabaseFault::Open(_) => "ocs: open fault",
            DatabaseFault::Shelf(_) => "ocs: shelf fault",
            DatabaseFault::Net => "ocs: net fault",
            DatabaseFault::Memory => "ocs: memory fault",
            DatabaseFault::Office(fault) => fault.line(),
        }
    }

    /// Its number, where it has one.
    pub fn number(self) -> Option<u8>
        ensures { result ≡ (about_database self).number }
    {
        match self {
            DatabaseFault::File => None,
            DatabaseFault::Clock => None,
            DatabaseFault::Book(fault) => Some(fault.number()),
            DatabaseFault::Open(fault) => Some(fault.number()),
            DatabaseFault::Shelf(fault) => Some(fault.number()),
            DatabaseFault::Net => None,
            DatabaseFault::Memory => None,
            DatabaseFault::Office(fault) => fault.number(),
        }
    }
}

impl From<OfficeFault> for DatabaseFault {
    ghost use Rattle.service.specs.declared.fault.DatabaseFault.TheVariants.{Office};

    ghost from_gives = { λ fault e. e ≡ Office fault };

    fn from(fault: OfficeFault) -> DatabaseFault {
        DatabaseFault::Office(fault)
    }
}

/// The fault of a call of the system that failed on a file.
pub(crate) fn file_fault(error: io::Error) -> DatabaseFault
    ensures { IsUnopened result }
{
    match error.kind() {
        io::ErrorKind::OutOfMemory => DatabaseFault::Memory,
        _ => DatabaseFault::File,
    }
}

/// The fault of a database that isn't opened.
pub(crate) fn opening_fault(fault: ConnectFault) -> DatabaseFault
    ensures told { IsUnopened result }
    ensures value { result ≡ connect_fault fault }
{
    match fault {
        ConnectFault::Refused(Error::SqliteFailure(ErrorCode::OutOfMemory)) => {
            DatabaseFault::Memory
        }
        ConnectFault::Refused(_) => DatabaseFault::File,
        ConnectFault::Unruled => DatabaseFault::Open(OpenFault::Rules),
    }
}

/// The fault of a database that isn't made.
pub(crate) fn making_fault(fault: CreateFault) -> DatabaseFault
    ensures { result ≡ making_fault fault }
{
    match fault {
        CreateFault::Book(fault) => DatabaseFault::Book(fault),
        CreateFault::Present => DatabaseFault::Open(OpenFault::Foreign),
        CreateFault::Store => DatabaseFault::Open(OpenFault::Store),
        CreateFault::Memory => DatabaseFault::Open(OpenFault::Memory),
    }
}

/// The fault of a book that isn't added.
pub(crate) fn adding_fault(fault: AddFault) -> DatabaseFault
    ensures value { result ≡ adding_fault fault }
    ensures told { IsAddingFault result }
{
    match fault {
        AddFault::Book(fault) => DatabaseFault::Book(fault),
        AddFault::Shelf(fault) => DatabaseFault::Shelf(fault),
        AddFault::Store(fault) => DatabaseFault::Office(OfficeFault::Store(fault)),
    }
}

/// The fault of a port that isn't printed.
pub(crate) fn telling_fault(fault: StreamFault) -> DatabaseFault
    ensures { IsTellFault result }
{
    match fault {
        StreamFault::Memory => DatabaseFault::Memory,
        _ => DatabaseFault::File,
    }
}
