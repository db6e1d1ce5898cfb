//! Why nothing is told of a database, in more words than a command has that needs it.
ghost use Rattle.std.specs.Prelude.{◌≡◌, ◌≢◌, IfOk};
ghost use Rattle.databases.specs.Fault.{IsOfNamed};
ghost use Rattle.databases.specs.declared.trouble.Trouble.TheVariants as trouble;
ghost use Rattle.databases.specs.Trouble.{IsOfOpening, IsSystemTrouble, fault_of, hint_of_trouble, name_of_command_fault, of_error, of_fault, of_kind, trouble_line};

use crate::fault::CommandFault;
use crate::text::trouble_text;
use attributes::Text;
use sqlite::ErrorCode;
use sqlite_std_file::OpenError;
use std::alloc::{AllocError, Global};
use std::io::ErrorKind;

/// Why nothing is told of a database.
#[derive(Clone, Copy, PartialEq, Eq, Debug)]
pub enum Trouble {
    OutOfMemory,
    /// The name means no file to SQLite.
    NoFile,
    /// There is no file of that name.
    CannotRead,
    /// Another program has the file open.
    Busy,
    /// SQLite left a rollback journal, which it alone can play back.
    Journal,
    /// The operating system refuses to open, to lock or to read the file.
    System,
    /// The file is no database of SQLite, or one with what these commands can't read.
    NoDatabase,
    /// A page of the file isn't what SQLite writes.
    Damaged,
    /// There are tables of others, or a statement was refused.
    Store,
    /// The tables, or their rows, aren't those that these commands leave.
    Foreign,
    /// The variable that limits the cache doesn't say how large it may be.
    Cache,
}

impl Trouble {
    /// The fault of a command that needs the database in trouble.
    pub fn fault(self) -> CommandFault
        ensures exact { result ≡ fault_of self }
        ensures named { IsOfNamed result }
    {
        match self {
            Trouble::OutOfMemory => CommandFault::OutOfMemory,
            Trouble::CannotRead => CommandFault::CannotRead,
            Trouble::Foreign => CommandFault::Foreign,
            Trouble::Cache => CommandFault::Cache,
            _ => CommandFault::Store,
        }
    }

    /// The name of a database's trouble, as a refused command prints it.
    fn name(self) -> &'static str
        ensures { result.now ≡ name_of_command_fault (fault_of self) }
    {
        match self {
            Trouble::OutOfMemory => "out of memory",
            Trouble::CannotRead => "cannot read",
            Trouble::Foreign => "Foreign",
            Trouble::Cache => "Cache",
            _ => "Store",
        }
    }

    /// What is the matter with a database, and what can be done.
    pub fn hint(self) -> &'static str
        ensures { result.now ≡ hint_of_trouble self }
    {
        match self {
            Trouble::OutOfMemory => "memory ran out",
            Trouble::NoFile =>
                "a database is a file: its name is neither empty nor :memory:, and doesn't begin with file:",
            Trouble::CannotRead =>
                "there is no file of that name, or none that this user may look at",
            Trouble::Busy =>
                "another program has the file open: --wait 30 waits for it, at most 30 seconds",
            Trouble::Journal =>
                "SQLite left a journal that it alone can play back: open the file once with sqlite3",
            Trouble::System =>
                "the operating system doesn't open it, lock it or read it: is it a folder, and may this user write it",
            Trouble::NoDatabase =>
                "it is no database of SQLite in UTF-8, or has a schema that site can't read",
            Trouble::Damaged =>
                "a page of it is damaged: PRAGMA integrity_check of sqlite3 says where",
            Trouble::Store =>
                "it has tables of others too, or a part of it can't be read: PRAGMA integrity_check of sqlite3 says if it is damaged",
            Trouble::Foreign =>
                "its tables or rows aren't as site leaves them: take the events from a copy, or from another site by delta",
            Trouble::Cache => "the variable SITE_CACHE_MIB isn't a whole number from 1 to 1048576",
        }
    }
}

/// What trouble with a database a fault is of a command over it, while it is open.
pub fn of_fault(fault: CommandFault) -> Trouble
    ensures exact { result ≡ of_fault fault }
    ensures file { result ≢ trouble.NoFile }
{
    match fault {
        CommandFault::OutOfMemory => Trouble::OutOfMemory,
        CommandFault::Foreign => Trouble::Foreign,
        _ => Trouble::Store,
    }
}

/// What trouble with a database an error is that is met when it is opened.
pub fn of_error(error: sqlite::Error) -> Trouble
    ensures exact { result ≡ of_error error }
    ensures opening { IsOfOpening result }
{
    match error {
        sqlite::Error::SqliteFailure(code) => match code {
            ErrorCode::OutOfMemory => Trouble::OutOfMemory,
            ErrorCode::DatabaseBusy => Trouble::Busy,
            ErrorCode::NotADatabase => Trouble::NoDatabase,
            ErrorCode::DatabaseCorrupt => Trouble::Damaged,
            ErrorCode::CannotOpen | ErrorCode::SystemIoFailure => Trouble::System,
            _ => Trouble::Store,
        },
        _ => Trouble::Store,
    }
}

/// What trouble with a database a refusal of the operating system is.
pub fn of_kind(kind: ErrorKind) -> Trouble
    ensures exact { result ≡ of_kind kind }
    ensures system { IsSystemTrouble result }
    ensures opening { IsOfOpening result }
{
    match kind {
        ErrorKind::OutOfMemory => Trouble::OutOfMemory,
        _ => Trouble::System,
    }
}

/// Why the files of a database weren't opened.
pub fn of_open(error: OpenError) -> Trouble
    ensures system { IsSystemTrouble result }
    ensures opening { IsOfOpening result }
{
    match error {
        OpenError::OutOfMemory => Trouble::OutOfMemory,
        OpenError::Io(error) => of_kind(error.kind()),
        OpenError::Busy => Trouble::Busy,
        OpenError::HotJournal => Trouble::Journal,
    }
}

/// The line that says why nothing is told of the database of this name.
#[tactic(auto, unfolding(crate::specs::Trouble::trouble_line))]
pub fn trouble_line(alloc: Global, name: &str, why: Trouble) -> Result<Text, AllocError>
    ensures { IfOk result (λ text. text ≡ trouble_line name.now why) }
{
    let mut line = trouble_text(alloc, name, why.name(), why.hint())?;
    line.push_str("\n")?;
    Ok(Text::from_string(line))
}
