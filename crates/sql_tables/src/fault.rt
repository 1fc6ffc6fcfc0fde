//! Why a database isn't opened.

ghost use Rattle.std.specs.Prelude.{◌≡◌};
ghost use Rattle.sql_tables.specs.Faults.{open_fault_number};

use thiserror::Error;

/// Why a database isn't opened (profile). Its tables are looked at first, then the rules of what is
/// kept once, then the version.
#[derive(Clone, Copy, Debug, Drop, Error)]
pub enum OpenFault {
    /// The database hasn't the tables of a version of this system, or has others.
    #[error("the database is not one of this system")]
    Foreign,
    /// The version of its tables isn't known.
    #[error("the version of the tables is unknown")]
    Version,
    /// A row is out of its rules.
    #[error("a row is out of its rules")]
    Rules,
    /// The store failed.
    #[error("the store failed")]
    Store,
    /// Memory was refused.
    #[error("out of memory")]
    Memory,
    /// The tables are those of an older version of this system.
    #[error("the tables are of an older version")]
    Older,
}

impl OpenFault {
    /// Its number, 1 to 6, as programs print it: `open fault 1`.
    pub fn number(self) -> u8
        ensures { result ≡ open_fault_number self }
    {
        match self {
            OpenFault::Foreign => 1,
            OpenFault::Version => 2,
            OpenFault::Rules => 3,
            OpenFault::Store => 4,
            OpenFault::Memory => 5,
            OpenFault::Older => 6,
        }
    }
}
