//! The folder of all parts in memory, whose reports are joined on a disk in memory.
ghost use Rattle.std.specs.Prelude.{◌≡◌, ◌⊎◌, ◌<◌, ◌^◌, ℕ, [], true, IfOk, IfSome, IsNone, IsTrue};
ghost use Rattle.std.specs.Prelude.{IsErr, MatchResult, None, Ok, OnOk, Some, option_map};
ghost use Rattle.std.specs.Prelude.{string_bytes};
ghost use Rattle.ocfl_state.specs.Calls.{bytes_of};
ghost use Rattle.ocfl_disk.specs.Disk.{Calm, ClosesOver, has_name};
ghost use Rattle.ocfl_disk.specs.Names.{report_of};
ghost use Rattle.ocfl_join_disk.specs.Shown.{HasSureNames, text_in};
ghost use Rattle.ocfl_kept.specs.FilePaths.{six_digits};
ghost use Rattle.ocfl_mem_disk.specs.Log.{disk_of};
ghost use Rattle.ocfl_mem_disk.specs.Paths.{folder_of, joined_name as joined_name_of};

use crate::joined_path::{JoinedName, joined_name, number_in, part_in};
use crate::mem_disk::{MemDisk, MemHandle};
use crate::mem_file::MemFile;
use crate::mem_files::{bytes_at, closed_at, find_at, has_file};
use ocfl_disk::{Disk, Reason, StateFile};
use ocfl_files::failing::Failure;
use ocfl_joining::FoundReport;
use ocfl_part_folders::{ClosedFile, PartCalls};
use std::alloc::{AllocError, Global};
use std::io::{self, Cursor, ErrorKind};

/// The folder of all parts in memory: files, which stay, and a disk in memory on which the joined
/// reports are made. No checkpoint is kept of what parts have closed.
#[derive(Debug)]
pub struct MemParts {
    alloc: Global,
    path: String,
    files: Vec<MemFile>,
    disk: MemDisk,
    /// The numbers of the parts whose closed reports were opened.
    opened: Vec<u64>,
    noted: Vec<u8>,
}

/// Written by hand, so that to let it go is one call wherever that happens.
impl Drop for MemParts {
    fn drop(self) {
        let MemParts {
            alloc: _alloc,
            path: _path,
            files: _files,
            disk: _disk,
            opened: _opened,
            noted: _noted,
        } = self;
    }
}

impl MemParts {
    /// The folder with this path, with these files. No report was opened, and nothing was said.
    pub fn new(alloc: Global, path: String, files: Vec<MemFile>, disk: MemDisk) -> MemParts
        ensures path { result.path ≡ path }
        ensures files { result.files ≡ files }
        ensures disk { result.disk ≡ disk }
        ensures opened { result.opened.items ≡ [] }
        ensures noted { result.noted.items ≡ [] }
    {
        let (opened, noted) = (Vec::new(alloc), Vec::new(alloc));
        MemParts {
            alloc,
            path,
            files,
            disk,
            opened,
            noted,
        }
    }

    /// The joined report that has a path, if one can have it.
    fn name_of<'a>(&self, path: &'a str) -> Option<JoinedName<'a>>
        ensures found { IfSome result (λ found.
            joined_name_of (string_bytes self.now.path) path.now
            ≡ Some (record { digits = found.digits.now; whole = found.whole })) }
        ensures none { IsNone result
            → joined_name_of (string_bytes self.now.path) path.now ≡ None }
    {
        joined_name(self.path.as_str(), path)
    }

    /// What was said.
    pub fn noted(&self) -> &[u8]
        ensures { result.now ≡ self.now.noted.items }
    {
        self.noted.as_slice()
    }

    /// The bytes of the joined report of a cycle, whole or not, if it is there.
    pub fn joined(&mut self, cycle: u64, whole: bool) -> Result<Option<Vec<u8>>, Reason>
        ensures { IfOk result (λ found. option_map bytes_of found ≡ text_in cycle whole
            (disk_of self.old.disk.log.items self.old.disk.faults).seen) }
    {
        self.disk.closed_bytes(cycle, whole)
    }
}

/// The error of a file that is not there.
fn not_there() -> io::Error {
    io::Error::from(ErrorKind::NotFound)
}

/// What is said of a call of the disk that failed.
fn failure_of(alloc: Global, reason: Reason) -> Failure {
    match reason.error.kind() {
        ErrorKind::OutOfMemory => Failure::from(AllocError),
        _ => Failure::saying(String::from_str(alloc, "a call failed\n")),
    }
}

/// What a call of the disk gave.
fn answer(outcome: Result<(), Reason>) -> io::Result<()>
    ensures { MatchResult result (λ value. outcome ≡ Ok value) (λ _. IsErr outcome) }
{
    match outcome {
        Ok(()) => Ok(()),
        Err(reason) => Err(reason.error),
    }
}

/// Whether the joined report is there with these digits in its name.
fn has_joined(disk: &mut MemDisk, digits: &[u8], whole: bool) -> Result<bool, AllocError>
    ensures calm { Calm (disk_of disk.old.log.items disk.old.faults)
        (disk_of disk.new.log.items disk.new.faults) }
    ensures value { (cycle : ℕ) → cycle < 2 ^ 64 → digits.now ≡ six_digits cycle
        → IfOk result (λ is. is ≡ has_name cycle whole
        (disk_of disk.old.log.items disk.old.faults).seen.names.closed) }
{
    let Some(cycle) = number_in(digits) else {
        return Err(AllocError);
    };
    match disk.has_closed(cycle, whole) {
        Ok(is) => Ok(is),
        Err(_) => Err(AllocError),
    }
}

/// Its bytes.
fn joined_bytes(disk: &mut MemDisk, digits: &[u8], whole: bool) -> io::Result<Vec<u8>>
    ensures calm { Calm (disk_of disk.old.log.items disk.old.faults)
        (disk_of disk.new.log.items disk.new.faults) }
    ensures value { (cycle : ℕ) → cycle < 2 ^ 64 → digits.now ≡ six_digits cycle
        → IfOk result (λ bytes. Some bytes.items ≡ text_in cycle whole
        (disk_of disk.old.log.items disk.old.faults).seen) }
{
    let Some(cycle) = number_in(digits) else {
        return Err(not_there());
    };
    match disk.closed_bytes(cycle, whole) {
        Ok(Some(bytes)) => Ok(bytes),
        Ok(None) => Err(not_there()),
        Err(reason) => Err(reason.error),
    }
}

/// The bytes of the report that is made.
fn made_bytes(disk: &mut MemDisk) -> io::Result<Vec<u8>>
    ensures calm { Calm (disk_of disk.old.log.items disk.old.faults)
        (disk_of disk.new.log.items disk.new.faults) }
    ensures value { IfOk result (λ bytes. bytes.items
        ≡ report_of (disk_of disk.old.log.items disk.old.faults).seen.bytes
        (disk_of disk.old.log.items disk.old.faults).seen.names.report) }
{
    match disk.report_bytes() {
        Ok(Some(bytes)) => Ok(bytes),
        Ok(None) => Err(not_there()),
        Err(reason) => Err(reason.error),
    }
}

/// Gives the report that is made the name with these digits.
fn put_joined(disk: &mut MemDisk, digits: &[u8], whole: bool) -> Result<(), Failure>
    ensures { (cycle : ℕ) → cycle < 2 ^ 64 → digits.now ≡ six_digits cycle
        → ((file : ℕ) → (disk_of disk.old.log.items disk.old.faults).seen.names.report ≡ Some file
        → IsTrue ((disk_of disk.old.log.items disk.old.faults).is_synced file))
        → MatchResult result
        (λ _. ClosesOver cycle whole (disk_of disk.old.log.items disk.old.faults)
        (disk_of disk.new.log.items disk.new.faults))
        (λ _. Calm (disk_of disk.old.log.items disk.old.faults)
        (disk_of disk.new.log.items disk.new.faults)
        ⊎ ClosesOver cycle whole (disk_of disk.old.log.items disk.old.faults)
        (disk_of disk.new.log.items disk.new.faults)) }
{
    let Some(cycle) = number_in(digits) else {
        return Err(Failure::from(AllocError));
    };
    match disk.close(cycle, whole) {
        Ok(()) => Ok(()),
        Err(_) => Err(Failure::from(AllocError)),
    }
}

/// Brings the names in both folders to the disk.
fn sync_all(disk: &mut MemDisk) -> Result<(), Reason>
    ensures calm { Calm (disk_of disk.old.log.items disk.old.faults)
        (disk_of disk.new.log.items disk.new.faults) }
    ensures names { OnOk result
        (HasSureNames (disk_of disk.new.log.items disk.new.faults)) }
{
    disk.sync_folder(StateFile::Reports)?;
    disk.sync_folder(StateFile::Folder)
}

impl PartCalls for MemParts {
    type Report = Cursor<Vec<u8>>;

    type Made = MemHandle;

    ghost told = { true };

    ghost folder = { λ m. folder_of (string_bytes m.path) m.files.items m.opened.items
        m.noted.items };

    ghost disk = { λ m. disk_of m.disk.log.items m.disk.faults };

    ghost number = { λ file. file.number };

    ghost use Rattle.ocfl_mem_disk.specs.Showing.{is_disk_at};

    ghost is_disk = { λ told m. is_disk_at m.disk.log.items m.disk.faults };

    fn global(&self) -> Global {
        self.alloc
    }

    fn path(&self) -> &str {
        self.path.as_str()
    }

    fn has(&mut self, path: &str) -> Result<bool, AllocError> {
        match self.name_of(path) {
            Some(name) => has_joined(&mut self.disk, name.digits, name.whole),
            None => Ok(has_file(self.files.as_slice(), path)),
        }
    }

    fn stored_in(&mut self, path: &str) -> Result<Option<Vec<u8>>, Failure> {
        let path = format!(in self.alloc; "{path}/checkpoint")?;
        Ok(bytes_at(self.alloc, self.files.as_slice(), path.as_str())?)
    }

    fn closed_in(&mut self, path: &str, cycle: u64) -> Result<Option<FoundReport>, Failure> {
        Ok(find_at(self.alloc, self.files.as_slice(), path, cycle)?)
    }

    fn open_closed(
        &mut self,
        path: &str,
        cycle: u64,
    ) -> Result<Option<ClosedFile<Cursor<Vec<u8>>>>, Failure> {
        let Some(part) = part_in(self.path.as_str(), path) else {
            return Err(Failure::from(AllocError));
        };
        let bytes = closed_at(self.alloc, self.files.as_slice(), path, cycle)?;
        if self.opened.push(part).is_err() {
            return Err(Failure::from(AllocError));
        }
        let Some(bytes) = bytes else {
            return Ok(None);
        };
        let length = bytes.len() as u64;
        Ok(Some(ClosedFile {
            report: Cursor::new(bytes),
            bytes: length,
            kept: None,
        }))
    }

    fn open(&mut self, path: &str) -> io::Result<Cursor<Vec<u8>>> {
        let bytes = match self.name_of(path) {
            Some(name) => joined_bytes(&mut self.disk, name.digits, name.whole)?,
            None => made_bytes(&mut self.disk)?,
        };
        Ok(Cursor::new(bytes))
    }

    /// Each folder is there.
    fn make_folder(&mut self, _path: &str) -> Result<(), Failure> {
        Ok(())
    }

    fn make(&mut self, _path: &str) -> Result<MemHandle, Failure> {
        match self.disk.create(StateFile::Report) {
            Ok(file) => Ok(file),
            Err(reason) => Err(failure_of(self.alloc, reason)),
        }
    }

    fn append(&mut self, file: &mut MemHandle, bytes: &[u8]) -> io::Result<()> {
        let appended = self.disk.append(StateFile::Report, file, bytes);
        answer(appended)
    }

    fn sync(&mut self, file: &MemHandle) -> io::Result<()> {
        let synced = self.disk.sync(StateFile::Report, file);
        answer(synced)
    }

    fn put(&mut self, _made: &str, path: &str) -> Result<(), Failure> {
        match self.name_of(path) {
            Some(name) => put_joined(&mut self.disk, name.digits, name.whole),
            None => Err(Failure::from(AllocError)),
        }
    }

    fn sync_folder(&mut self, _path: &str) -> io::Result<()> {
        answer(sync_all(&mut self.disk))
    }

    fn say(&mut self, text: &str) -> Result<(), AllocError> {
        self.noted.extend_from_slice(text.as_bytes())
    }
}
