//! What is in a state folder, and why a call of the system on it failed.
ghost use Rattle.std.specs.{Prelude.{◌≡◌}, IoError.{error_kind}};
ghost use Rattle.ocfl_disk.specs.Reasons.{IsTroubleOf};

use ocfl_state::FolderTrouble;
use std::io::ErrorKind;
use std::{fmt, io};

/// The folder, or a file of it. Its `Display` is its path below the folder: `.`, or as
/// `reports/cycle-000001`.
#[derive(Clone, Copy, Debug, PartialEq, Eq)]
pub enum StateFile {
    Folder,
    /// The folder that it is in.
    Above,
    Checkpoint,
    /// The next checkpoint while it is written.
    NewCheckpoint,
    Report,
    /// The folder of the closed reports.
    Reports,
    /// The closed report of a cycle that is whole.
    Whole(u64),
    /// The closed report of a cycle that is not whole.
    Incomplete(u64),
    /// The checkpoint with which the report of a cycle was closed.
    Kept(u64),
    Lock,
    /// If this file is there, a night begins no further run.
    Stop,
    Log,
    /// The cursor of the nightly scripts.
    ScriptsCursor,
    /// The log of the nightly scripts.
    ScriptsLog,
}

impl StateFile {
    /// Its path below the folder, but for the cycle's number that ends it.
    fn parts(self) -> (&'static str, Option<u64>) {
        match self {
            StateFile::Folder => (".", None),
            StateFile::Above => ("..", None),
            StateFile::Checkpoint => ("checkpoint", None),
            StateFile::NewCheckpoint => ("checkpoint.new", None),
            StateFile::Report => ("report", None),
            StateFile::Reports => ("reports", None),
            StateFile::Whole(cycle) => ("reports/cycle-", Some(cycle)),
            StateFile::Incomplete(cycle) => ("reports/incomplete-", Some(cycle)),
            StateFile::Kept(cycle) => ("reports/checkpoint-", Some(cycle)),
            StateFile::Lock => ("lock", None),
            StateFile::Stop => ("stop", None),
            StateFile::Log => ("log", None),
            StateFile::ScriptsCursor => ("cursor", None),
            StateFile::ScriptsLog => ("nights", None),
        }
    }
}

impl fmt::Display for StateFile {
    fn fmt<W: fmt::Write>(&self, f: &mut fmt::Formatter<W>) -> fmt::Result {
        match self.parts() {
            (path, Some(cycle)) => write!(f, "{path}{cycle:06}"),
            (path, None) => f.write_str(path),
        }
    }
}

/// The closed report of a cycle.
pub(crate) fn closed_file(cycle: u64, whole: bool) -> StateFile {
    if whole {
        StateFile::Whole(cycle)
    } else {
        StateFile::Incomplete(cycle)
    }
}

/// Which file a call of the system failed on, and why. The error has the system's number, or says
/// what is wrong with the file.
#[derive(Clone, Copy, Debug)]
pub struct Reason {
    pub file: StateFile,
    pub error: io::Error,
}

impl Reason {
    /// The trouble that is answered: `Full` if the device or the quota is full, `Memory` if
    /// memory ran out, else `Failed`.
    pub fn trouble(&self) -> FolderTrouble
        ensures { IsTroubleOf self.now result }
    {
        match self.error.kind() {
            ErrorKind::StorageFull | ErrorKind::QuotaExceeded => FolderTrouble::Full,
            ErrorKind::OutOfMemory => FolderTrouble::Memory,
            _ => FolderTrouble::Failed,
        }
    }
}

/// What is wrong with a file that no call of the system refused.
pub(crate) fn wrong(file: StateFile, what: &str) -> Reason
    ensures { error_kind result.error ≡ ErrorKind.InvalidInput }
{
    Reason {
        file,
        error: io::Error::new(ErrorKind::InvalidInput, what),
    }
}
