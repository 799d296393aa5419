//! The folder of the file system that a state is in, and the calls of the system on it.
//!
//! No link in the folder is followed: what is at a name is looked at first, and what is opened
//! must be the file of that look.
ghost use Rattle.std.specs.Prelude.{◌≡◌, ◌≤◌, IfOk, Ok, length};
ghost use mathlib.Core.Bool.{false≢true};

use crate::calls::Calls;
use crate::disk::Disk;
use crate::state_file::{Reason, StateFile, closed_file, wrong};
use std::alloc::Global;
use std::fs::{File, Metadata, OpenOptions};
use std::io::{self, ErrorKind, Read, Write};
use std::os::unix::fs::{FileExt, MetadataExt, OpenOptionsExt};

/// Who may read and write a file that is made: its owner, and its group may read.
const FILE_MODE: u32 = 0o640;

/// How often an interrupted read is made at most.
const TRIES: u64 = 1000;

/// From this offset on the system reads no file: 2^63.
const NO_OFFSET: u64 = 1 << 63;

/// A folder of the file system by its path, which may be a link itself. It does not tell what is on
/// the disk.
///
/// Nothing in the folder that is a link, a pipe or a folder in place of a file is opened. Files
/// that are made have the mode 640, and folders 750, less the process's mask.
#[derive(Drop)]
pub struct SystemDisk<R: Calls + Drop> {
    rt: R,
    path: String,
    /// The lock is held while this file is open.
    lock: Option<File>,
}

/// Whether two looks saw the same file.
fn is_same(look: &Metadata, opened: &Metadata) -> bool {
    opened.is_file() && look.dev() == opened.dev() && look.ino() == opened.ino()
}

/// The result of a call on a file, with that file as the reason of a failure.
pub(crate) fn of_file<T>(file: StateFile, outcome: io::Result<T>) -> Result<T, Reason>
    ensures { IfOk result (λ value. outcome ≡ Ok value) }
{
    match outcome {
        Ok(value) => Ok(value),
        Err(error) => Err(Reason { file, error }),
    }
}

/// How many bytes a file has.
pub(crate) fn length_of(file: StateFile, opened: &File) -> Result<u64, Reason> {
    Ok(of_file(file, opened.metadata())?.len())
}

/// Refuses a file that is not the one that a look saw.
fn same_as(look: &Metadata, file: StateFile, opened: File) -> Result<File, Reason> {
    if is_same(look, &of_file(file, opened.metadata())?) {
        Ok(opened)
    } else {
        Err(wrong(file, "exchanged while it was opened"))
    }
}

/// Reads bytes at an offset, and tries an interrupted read again.
fn read_file_at(file: &File, start: u64, buffer: &mut [u8]) -> io::Result<usize>
    ensures bound { IfOk result (λ count. count ≤ length buffer.new) }
{
    if start >= NO_OFFSET {
        return Ok(0);
    }
    for _ in 0..TRIES {
        match file.read_at(buffer, start) {
            Err(error) if error.kind() == ErrorKind::Interrupted => {}
            result => return result,
        }
    }
    Err(io::Error::from(ErrorKind::Interrupted))
}

/// Options for reading a file.
pub(crate) fn for_reading() -> OpenOptions {
    let mut options = OpenOptions::new();
    options.read(true);
    options
}

/// Options for reading a file and appending to it.
pub(crate) fn for_appending() -> OpenOptions {
    let mut options = OpenOptions::new();
    options.read(true);
    options.append(true);
    options
}

/// Options for a file that is opened: the report is appended to, and the others are read.
fn options_of(name: StateFile) -> OpenOptions {
    match name {
        StateFile::Report => for_appending(),
        _ => for_reading(),
    }
}

impl<R: Calls + Drop> SystemDisk<R> {
    pub(crate) fn at(rt: R, path: &str) -> io::Result<SystemDisk<R>> {
        let path = String::from_str(rt.global(), path)?;
        Ok(SystemDisk {
            rt,
            path,
            lock: None,
        })
    }

    /// The same folder, held for this process alone while the file of its lock is open.
    pub(crate) fn held(self, lock: File) -> SystemDisk<R> {
        let SystemDisk { rt, path, .. } = self;
        SystemDisk {
            rt,
            path,
            lock: Some(lock),
        }
    }

    pub(crate) fn alloc(&self) -> Global {
        self.rt.global()
    }

    fn joined(&self, file: StateFile) -> io::Result<String> {
        let path = self.path.as_str();
        Ok(format!(in self.rt.global(); "{path}/{file}")?)
    }

    /// The path of a file.
    fn path_of(&self, file: StateFile) -> Result<String, Reason> {
        of_file(file, self.joined(file))
    }

    /// What is at a name, which may be a link. `None` if nothing is.
    pub(crate) fn look(&self, file: StateFile) -> Result<Option<Metadata>, Reason> {
        let path = self.path_of(file)?;
        match self.rt.look_at(path.as_str()) {
            Ok(metadata) => Ok(Some(metadata)),
            Err(error) if error.kind() == ErrorKind::NotFound => Ok(None),
            Err(error) => Err(Reason { file, error }),
        }
    }

    /// Whether anything is at a name.
    pub(crate) fn has(&self, file: StateFile) -> Result<bool, Reason> {
        Ok(self.look(file)?.is_some())
    }

    /// What the look at a file saw, if it is there: only a file that is no link, folder or pipe.
    pub(crate) fn look_for_file(&self, file: StateFile) -> Result<Option<Metadata>, Reason> {
        match self.look(file)? {
            Some(metadata) if !metadata.is_file() => Err(wrong(file, "not a regular file")),
            found => Ok(found),
        }
    }

    /// Whether a folder is there. Anything else at that name is refused.
    pub(crate) fn has_folder(&self, folder: StateFile) -> Result<bool, Reason> {
        match self.look(folder)? {
            Some(metadata) if !metadata.is_dir() => Err(wrong(folder, "not a folder")),
            found => Ok(found.is_some()),
        }
    }

    /// Whether the state folder is there, where a link leads to it too.
    pub(crate) fn is_there(&self) -> Result<bool, Reason> {
        match self.rt.look_through(self.path.as_str()) {
            Ok(metadata) if metadata.is_dir() => Ok(true),
            Ok(_) => Err(wrong(StateFile::Folder, "not a folder")),
            Err(error) if error.kind() == ErrorKind::NotFound => Ok(false),
            Err(error) => Err(Reason {
                file: StateFile::Folder,
                error,
            }),
        }
    }

    /// Opens a file that is there. `None` if it is not.
    pub(crate) fn open_file(
        &self,
        file: StateFile,
        options: &OpenOptions,
    ) -> Result<Option<File>, Reason> {
        match self.look_for_file(file)? {
            Some(look) => Ok(Some(same_as(&look, file, self.open_at(file, options)?)?)),
            None => Ok(None),
        }
    }

    /// Opens what is at a name.
    fn open_at(&self, file: StateFile, options: &OpenOptions) -> Result<File, Reason> {
        let path = self.path_of(file)?;
        of_file(file, self.rt.open(options, path.as_str()))
    }

    /// Makes a file, and opens it for reading and appending. What is there already is refused.
    pub(crate) fn create_file(&self, file: StateFile) -> Result<File, Reason> {
        let mut options = for_appending();
        options.create_new(true);
        options.mode(FILE_MODE);
        self.open_at(file, &options)
    }

    /// Opens a file for reading and appending, which is made if it is not there.
    pub(crate) fn open_or_create(&self, file: StateFile) -> Result<File, Reason> {
        match self.open_file(file, &for_appending())? {
            Some(opened) => Ok(opened),
            None => self.create_file(file),
        }
    }

    /// Makes a folder.
    fn create_folder(&self, folder: StateFile) -> Result<(), Reason> {
        let path = self.path_of(folder)?;
        of_file(folder, self.rt.make_folder(path.as_str()))
    }

    /// Makes the state folder, and brings its name to the disk.
    pub(crate) fn create_itself(&self) -> Result<(), Reason> {
        of_file(StateFile::Folder, self.rt.make_folder(self.path.as_str()))?;
        self.sync_names(StateFile::Above)
    }

    /// Removes a file. It need not be there.
    fn remove(&self, file: StateFile) -> Result<(), Reason> {
        let path = self.path_of(file)?;
        match self.rt.remove(path.as_str()) {
            Err(error) if error.kind() != ErrorKind::NotFound => Err(Reason { file, error }),
            _ => Ok(()),
        }
    }

    /// Gives a file another name, in place of what has that name.
    fn rename(&self, from: StateFile, to: StateFile) -> Result<(), Reason> {
        let old = self.path_of(from)?;
        let new = self.path_of(to)?;
        of_file(to, self.rt.rename(old.as_str(), new.as_str()))
    }

    /// Brings the names of a folder to the disk.
    fn sync_names(&self, folder: StateFile) -> Result<(), Reason> {
        let opened = self.open_at(folder, &for_reading())?;
        of_file(folder, opened.sync_all())
    }

    /// Whether a folder has no entry.
    pub(crate) fn is_empty(&self, folder: StateFile) -> Result<bool, Reason> {
        let path = self.path_of(folder)?;
        of_file(folder, self.rt.is_empty(path.as_str()))
    }
}

impl<R: Calls + Drop> Disk for SystemDisk<R> {
    type File = File;

    ghost is_disk = { λ told disk. absurd (false≢true told) };

    fn has_reports(&mut self) -> Result<bool, Reason> {
        self.has_folder(StateFile::Reports)
    }

    fn has_closed(&mut self, cycle: u64, whole: bool) -> Result<bool, Reason> {
        self.has(closed_file(cycle, whole))
    }

    fn open(&mut self, name: StateFile) -> Result<Option<File>, Reason> {
        self.open_file(name, &options_of(name))
    }

    fn count_names(&mut self, report: &File) -> Result<u64, Reason> {
        Ok(of_file(StateFile::Report, report.metadata())?.nlink())
    }

    fn create(&mut self, name: StateFile) -> Result<File, Reason> {
        self.create_file(name)
    }

    fn length(&mut self, name: StateFile, file: &File) -> Result<u64, Reason> {
        length_of(name, file)
    }

    fn read_front(&mut self, name: StateFile, file: File, most: u64) -> Result<Vec<u8>, Reason> {
        let mut bytes = Vec::new(self.alloc());
        let mut limited = file.take(most);
        of_file(name, limited.read_to_end(&mut bytes))?;
        Ok(bytes)
    }

    fn read_at(
        &mut self,
        name: StateFile,
        file: &File,
        start: u64,
        buffer: &mut [u8],
    ) -> Result<usize, Reason> {
        of_file(name, read_file_at(file, start, buffer))
    }

    fn append(&mut self, name: StateFile, file: &mut File, bytes: &[u8]) -> Result<(), Reason> {
        of_file(name, file.write_all(bytes))
    }

    fn cut(&mut self, report: &File, most: u64) -> Result<(), Reason> {
        of_file(StateFile::Report, report.set_len(most))
    }

    fn sync(&mut self, name: StateFile, file: &File) -> Result<(), Reason> {
        of_file(name, file.sync_all())
    }

    fn create_reports(&mut self) -> Result<(), Reason> {
        self.create_folder(StateFile::Reports)
    }

    fn remove_new(&mut self) -> Result<(), Reason> {
        self.remove(StateFile::NewCheckpoint)
    }

    fn rename_new(&mut self) -> Result<(), Reason> {
        self.rename(StateFile::NewCheckpoint, StateFile::Checkpoint)
    }

    fn rename_kept(&mut self, cycle: u64) -> Result<(), Reason> {
        self.rename(StateFile::NewCheckpoint, StateFile::Kept(cycle))
    }

    fn rename_report(&mut self, cycle: u64, whole: bool) -> Result<(), Reason> {
        self.rename(StateFile::Report, closed_file(cycle, whole))
    }

    fn sync_folder(&mut self, folder: StateFile) -> Result<(), Reason> {
        self.sync_names(folder)
    }
}
