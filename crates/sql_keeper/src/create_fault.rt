//! Why the database of a book isn't made.

ghost use Rattle.std.specs.Prelude.{◌≡◌};
ghost use Rattle.sql_keeper.specs.Faults.{create_fault_number};

use tariffs::BookFault;
use thiserror::Error;

/// Why the database of a book isn't made, in the order in which it is looked for (profile).
#[derive(Clone, Copy, Debug, Drop, Error)]
pub enum CreateFault {
    /// The text isn't that of a book.
    #[error("book fault {}", .0.number())]
    Book(BookFault),
    /// A table of this system is there already.
    #[error("the database has tables of this system")]
    Present,
    /// The store failed, a transaction is open, or the database has other tables.
    #[error("the store failed")]
    Store,
    /// Memory was refused.
    #[error("out of memory")]
    Memory,
}

impl CreateFault {
    /// Its number: that of the book's fault, as programs print it in `book fault 6`; else that of
    /// the fault of an opening, as in `open fault 1`.
    pub fn number(self) -> u8
        ensures { result ≡ create_fault_number self }
    {
        match self {
            CreateFault::Book(fault) => fault.number(),
            CreateFault::Present => 1,
            CreateFault::Store => 4,
            CreateFault::Memory => 5,
        }
    }
}
