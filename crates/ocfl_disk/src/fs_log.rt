//! The log of a state folder of the file system.
use crate::calls::Calls;
use crate::state_file::{Reason, StateFile};
use crate::system_disk::{SystemDisk, length_of, of_file};
use std::io::{self, Write};

/// Appends a line to the log of a folder, whole or not at all. It is not brought to the disk.
pub(crate) fn append_line<R: Calls + Drop>(
    disk: &SystemDisk<R>,
    line: &[u8],
) -> Result<(), Reason> {
    let mut file = disk.open_or_create(StateFile::Log)?;
    let before = length_of(StateFile::Log, &file)?;
    let written = file.write_all(line);
    if written.is_err() {
        // A part of a line is no line.
        let _ = file.set_len(before);
    }
    of_file(StateFile::Log, written)
}

/// The log of a state folder, for lines that are appended while the folder itself is in use.
#[derive(Drop)]
pub struct FsLog<R: Calls + Drop> {
    disk: SystemDisk<R>,
}

impl<R: Calls + Drop> FsLog<R> {
    /// The log of the folder at a path, which may be a link to it. Nothing is opened yet.
    pub fn at(rt: R, path: &str) -> io::Result<FsLog<R>> {
        Ok(FsLog {
            disk: SystemDisk::at(rt, path)?,
        })
    }

    /// Appends a line, whole or not at all. It is not brought to the disk.
    pub fn append(&self, line: &[u8]) -> Result<(), Reason> {
        append_line(&self.disk, line)
    }
}
