//! Opening a state folder for one process alone.

use crate::calls::Calls;
use crate::state_file::{Reason, StateFile};
use crate::system_disk::{SystemDisk, for_appending};
use std::fs::{File, TryLockError};

/// Why a state folder is not opened. Nothing in it was changed.
#[derive(Clone, Copy, Debug)]
pub enum StateStop {
    /// There is no such folder, and none is to be made.
    NoFolder,
    /// It has no checkpoint and no lock, and a first night is not to begin there.
    NoCheckpoint,
    /// Another process holds its lock.
    Held,
    /// This file is of the nightly scripts, whose nights are no others'.
    OfScripts(StateFile),
    /// A first night is to begin there, but this is left of others.
    Used(StateFile),
    /// A call of the system failed, or a file is a link, a folder or a pipe.
    Failed(Reason),
}

impl From<Reason> for StateStop {
    ghost use Rattle.std.specs.Prelude.{◌≡◌};
    ghost use Rattle.ocfl_disk.specs.declared.lock.StateStop.TheVariants.{Failed};

    ghost from_gives = { λ reason stop. stop ≡ Failed reason };

    fn from(reason: Reason) -> StateStop {
        StateStop::Failed(reason)
    }
}

/// Refuses a folder of the nightly scripts.
fn refuse_scripts<R: Calls + Drop>(disk: &SystemDisk<R>) -> Result<(), StateStop> {
    for file in [StateFile::ScriptsCursor, StateFile::ScriptsLog] {
        if disk.has(file)? {
            return Err(StateStop::OfScripts(file));
        }
    }
    Ok(())
}

/// Refuses a folder in which a name is no file, or no folder, of its own.
fn refuse_others<R: Calls + Drop>(disk: &SystemDisk<R>) -> Result<(), StateStop> {
    for file in [
        StateFile::Checkpoint,
        StateFile::NewCheckpoint,
        StateFile::Report,
        StateFile::Lock,
        StateFile::Log,
    ] {
        disk.look_for_file(file)?;
    }
    disk.has_folder(StateFile::Reports)?;
    Ok(())
}

/// Refuses a folder for a first night, if nights have been before.
fn refuse_used<R: Calls + Drop>(disk: &SystemDisk<R>) -> Result<(), StateStop> {
    if disk.has(StateFile::Checkpoint)? {
        return Ok(());
    }
    if disk.has(StateFile::Report)? {
        return Err(StateStop::Used(StateFile::Report));
    }
    if disk.has(StateFile::Reports)? && !disk.is_empty(StateFile::Reports)? {
        return Err(StateStop::Used(StateFile::Reports));
    }
    Ok(())
}

/// Opens the file of the lock. It is made if nights have been before, or are to begin.
fn open_lock<R: Calls + Drop>(disk: &SystemDisk<R>, create: bool) -> Result<File, StateStop> {
    if let Some(file) = disk.open_file(StateFile::Lock, &for_appending())? {
        return Ok(file);
    }
    if create || disk.has(StateFile::Checkpoint)? {
        Ok(disk.create_file(StateFile::Lock)?)
    } else {
        Err(StateStop::NoCheckpoint)
    }
}

/// Takes the lock on a file, which is held while that is open. It does not wait.
fn take_lock(file: &File) -> Result<(), StateStop> {
    match file.try_lock() {
        Ok(()) => Ok(()),
        Err(TryLockError::WouldBlock) => Err(StateStop::Held),
        Err(TryLockError::Error(error)) => Err(StateStop::Failed(Reason {
            file: StateFile::Lock,
            error,
        })),
    }
}

/// Looks whether this is the folder of nights, or may become one, and takes its lock. The lock is
/// held while the file is open. `create` makes a folder that is not there.
pub(crate) fn hold<R: Calls + Drop>(disk: &SystemDisk<R>, create: bool) -> Result<File, StateStop> {
    if !disk.is_there()? {
        if !create {
            return Err(StateStop::NoFolder);
        }
        disk.create_itself()?;
    }
    refuse_scripts(disk)?;
    refuse_others(disk)?;
    if create {
        refuse_used(disk)?;
    }
    let lock = open_lock(disk, create)?;
    take_lock(&lock)?;
    Ok(lock)
}
