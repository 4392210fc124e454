//! What went wrong at a folder's files.

ghost use Rattle.std.specs.Prelude.{◌≡◌};

use std::fmt;

/// What couldn't be done.
#[derive(Clone, Copy, Debug, PartialEq, Eq)]
pub enum Operation {
    /// To make the folder; a file may stand in its place.
    MakeFolder,
    /// To take the folder's lock.
    Lock,
    /// To take the folder's lock, which another holds.
    LockHeld,
    SyncFolder,
    Open,
    Create,
    /// To tell how long a file is.
    Measure,
    Read,
    Write,
    Cut,
    Sync,
    /// To remember a file, for want of memory.
    Remember,
}

/// What couldn't be done, and to which file. `None` is the folder.
#[derive(Clone, Copy, Debug, PartialEq, Eq)]
pub struct Trouble {
    pub file: Option<u32>,
    pub operation: Operation,
}

impl Trouble {
    ghost use Rattle.file_disk.specs.Troubles.{trouble_at, trouble_of_folder};

    pub(crate) fn at(file: u32, operation: Operation) -> Trouble
        ensures { result ≡ trouble_at file operation }
    {
        Trouble {
            file: Some(file),
            operation,
        }
    }

    pub(crate) fn of_folder(operation: Operation) -> Trouble
        ensures { result ≡ trouble_of_folder operation }
    {
        Trouble {
            file: None,
            operation,
        }
    }
}

impl fmt::Display for Operation {
    fn fmt<W: fmt::Write>(&self, f: &mut fmt::Formatter<W>) -> fmt::Result {
        f.write_str(match self {
            Operation::MakeFolder => "can't be made",
            Operation::Lock => "can't be locked",
            Operation::LockHeld => "is in use by another run",
            Operation::SyncFolder => "can't be made durable",
            Operation::Open => "can't be opened",
            Operation::Create => "can't be made",
            Operation::Measure => "doesn't tell its length",
            Operation::Read => "can't be read",
            Operation::Write => "can't be written",
            Operation::Cut => "can't be shortened",
            Operation::Sync => "can't be made durable",
            Operation::Remember => "can't be remembered: no memory is left",
        })
    }
}

impl fmt::Display for Trouble {
    fn fmt<W: fmt::Write>(&self, f: &mut fmt::Formatter<W>) -> fmt::Result {
        let operation = self.operation;
        match self.file {
            Some(file) => write!(f, "file {file} {operation}"),
            None => write!(f, "the folder {operation}"),
        }
    }
}
