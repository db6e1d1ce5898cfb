//! Why a site isn't opened.
ghost use Rattle.std.specs.Prelude.{◌≡◌};
ghost use Rattle.durable_site.specs.Files.{IsOfSystem, error_fault, fault_number, table_fault};

use inbox_table::TableFault;
use sqlite::ErrorCode;
use std::io::{self, ErrorKind};
use thiserror::Error;

/// Why a site isn't opened over its files. It prints as its name.
#[derive(Clone, Copy, PartialEq, Eq, Debug, Error)]
pub enum OpenFault {
    #[error("OutOfMemory")]
    OutOfMemory,
    /// The operating system refuses to read or to write a file.
    #[error("System")]
    System,
    /// The file is no database of SQLite, or one with what these crates can't read.
    #[error("NoDatabase")]
    NoDatabase,
    /// A page of the file isn't what SQLite writes.
    #[error("Damaged")]
    Damaged,
    /// There are tables of others, or a statement was refused.
    #[error("Store")]
    Store,
    /// The table, or its rows, aren't those that these crates leave.
    #[error("Foreign")]
    Foreign,
}

impl OpenFault {
    /// The number that the refusal to open a durable site is known by, 1 to 6.
    pub fn number(self) -> u8
        ensures { result ≡ fault_number self }
    {
        match self {
            OpenFault::OutOfMemory => 1,
            OpenFault::System => 2,
            OpenFault::NoDatabase => 3,
            OpenFault::Damaged => 4,
            OpenFault::Store => 5,
            OpenFault::Foreign => 6,
        }
    }
}

impl From<io::Error> for OpenFault {
    ghost from_gives = { λ _ f. IsOfSystem f };

    fn from(error: io::Error) -> OpenFault {
        match error.kind() {
            ErrorKind::OutOfMemory => OpenFault::OutOfMemory,
            _ => OpenFault::System,
        }
    }
}

/// Why no durable site opens, of an error of the database that is met when it is opened.
pub(crate) fn of_error(error: sqlite::Error) -> OpenFault
    ensures { result ≡ error_fault error }
{
    match error {
        sqlite::Error::SqliteFailure(code) => match code {
            ErrorCode::OutOfMemory => OpenFault::OutOfMemory,
            ErrorCode::NotADatabase => OpenFault::NoDatabase,
            ErrorCode::DatabaseCorrupt => OpenFault::Damaged,
            ErrorCode::CannotOpen | ErrorCode::SystemIoFailure => OpenFault::System,
            _ => OpenFault::Store,
        },
        _ => OpenFault::Store,
    }
}

/// What a refusal of the table is, as one of opening a durable site.
pub(crate) fn of_table(fault: TableFault) -> OpenFault
    ensures { result ≡ table_fault fault }
{
    match fault {
        TableFault::OutOfMemory => OpenFault::OutOfMemory,
        TableFault::Store => OpenFault::Store,
        TableFault::Foreign => OpenFault::Foreign,
    }
}
