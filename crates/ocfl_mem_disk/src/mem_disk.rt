//! A disk in memory, as a state folder's calls see it.
ghost use Rattle.std.specs.Prelude.{◌≡◌, ◌⊎◌, ◌<◌, ◌≤◌, ◌+◌, ◌++◌, ◌∷◌, [], ℕ, true, IsTrue};
ghost use Rattle.std.specs.Prelude.{IfOk, IfErr, OnOk, OnErr, None, Some, length, take, not};
ghost use Rattle.std.specs.Prelude.{MatchResult, if◌then◌else◌};
ghost use Rattle.std.specs.IoError.{error_kind};
ghost use Rattle.std.specs.Option.{option_map};
ghost use Rattle.ocfl_state.specs.Calls.{IsReadOf, bytes_of};
ghost use Rattle.ocfl_disk.specs.Disk.{Calm, ClosesOver, HasFault, has_name};
ghost use Rattle.ocfl_join_disk.specs.Shown.{file_named, text_in};
ghost use Rattle.ocfl_mem_disk.specs.Log.{disk_of, shown_of, may_make};

use crate::mem_call::MemCall;
use crate::shown::{ReportName, Shown, copy_bytes, show};
use ocfl_disk::{Disk, Reason, StateFile};
use std::alloc::Global;
use std::io::{self, ErrorKind};

/// An open file of a disk in memory.
#[derive(Debug, Drop)]
pub struct MemHandle {
    number: usize,
}

/// A disk in memory. It keeps the log of its calls, and tells what it holds, and what a power cut
/// may leave of it: the most that the calls of a disk allow. The folder of the closed reports is
/// there from the start.
#[derive(Debug, Drop)]
pub struct MemDisk {
    alloc: Global,
    log: Vec<MemCall>,
    faults: u64,
    call: Option<u64>,
}

/// Memory ran out.
fn no_memory(file: StateFile) -> Reason
    ensures { error_kind result.error ≡ ErrorKind.OutOfMemory }
{
    Reason {
        file,
        error: io::Error::from(ErrorKind::OutOfMemory),
    }
}

impl MemDisk {
    /// An empty folder, which is on the disk.
    pub fn new(alloc: Global) -> MemDisk
        ensures log { result.log.items ≡ [] }
        ensures faults { result.faults ≡ 0 }
        ensures call { result.call ≡ None }
    {
        MemDisk {
            alloc,
            log: Vec::new(alloc),
            faults: 0,
            call: None,
        }
    }

    /// Of the following calls the one of this number, counted from 1, fails and does nothing. A
    /// later plan takes the place of this one.
    pub fn fail_call(&mut self, number: u64)
        requires { 0 < number }
        ensures log { self.new.log ≡ self.old.log }
        ensures faults { self.new.faults ≡ self.old.faults }
        ensures call { self.new.call ≡ Some number }
    {
        self.call = Some(number);
    }

    /// A fault is counted. Memory runs out if no more can be.
    fn fail(&mut self, file: StateFile) -> Reason
        ensures log { self.new.log ≡ self.old.log }
        ensures later { self.old.faults ≤ self.new.faults }
        ensures cause { HasFault (disk_of self.old.log.items self.old.faults)
            (disk_of self.new.log.items self.new.faults) result }
    {
        if self.faults == u64::MAX {
            return no_memory(file);
        }
        self.faults += 1;
        Reason {
            file,
            error: io::Error::from(ErrorKind::Other),
        }
    }

    /// Counts a call. It fails if it is the one that is made to fail.
    fn begin(&mut self, file: StateFile) -> Result<(), Reason>
        ensures log { self.new.log ≡ self.old.log }
        ensures later { self.old.faults ≤ self.new.faults }
        ensures ok { OnOk result (self.new.faults ≡ self.old.faults) }
        ensures cause { IfErr result (HasFault (disk_of self.old.log.items self.old.faults)
            (disk_of self.new.log.items self.new.faults)) }
    {
        let due = self.call == Some(1);
        self.call = match self.call {
            Some(count) if count > 1 => Some(count - 1),
            _ => None,
        };
        if due {
            return Err(self.fail(file));
        }
        Ok(())
    }

    /// Notes a call in the log.
    fn note(&mut self, file: StateFile, call: MemCall) -> Result<(), Reason>
        ensures ok { OnOk result (self.new.log.items ≡ self.old.log.items ++ call ∷ []) }
        ensures err { OnErr result (self.new.log.items ≡ self.old.log.items) }
        ensures faults { self.new.faults ≡ self.old.faults }
        ensures cause { IfErr result (λ reason. error_kind reason.error ≡ ErrorKind.OutOfMemory) }
    {
        match self.log.push(call) {
            Ok(()) => Ok(()),
            Err(_failed) => Err(no_memory(file)),
        }
    }

    /// What reads show.
    fn shown(&self, file: StateFile) -> Result<Shown, Reason>
        ensures value { IfOk result (λ shown. shown ≡ shown_of self.now.log.items) }
        ensures cause { IfErr result (λ reason. error_kind reason.error ≡ ErrorKind.OutOfMemory) }
    {
        match show(self.alloc, &self.log) {
            Ok(shown) => Ok(shown),
            Err(_failed) => Err(no_memory(file)),
        }
    }

    /// Counts a call, and notes it.
    fn make(&mut self, file: StateFile, call: MemCall) -> Result<(), Reason>
        ensures ok { OnOk result (self.new.log.items ≡ self.old.log.items ++ call ∷ []) }
        ensures err { OnErr result (self.new.log.items ≡ self.old.log.items) }
        ensures later { self.old.faults ≤ self.new.faults }
        ensures cause { IfErr result (HasFault (disk_of self.old.log.items self.old.faults)
            (disk_of self.new.log.items self.new.faults)) }
    {
        self.begin(file)?;
        self.note(file, call)
    }

    /// The bytes of a file, copied.
    fn bytes(&mut self, name: StateFile, file: usize) -> Result<Vec<u8>, Reason>
        ensures log { self.new.log ≡ self.old.log }
        ensures later { self.old.faults ≤ self.new.faults }
        ensures value { IfOk result (λ bytes. bytes.items
            ≡ (disk_of self.old.log.items self.old.faults).seen.bytes file) }
        ensures cause { IfErr result (HasFault (disk_of self.old.log.items self.old.faults)
            (disk_of self.new.log.items self.new.faults)) }
    {
        self.begin(name)?;
        let shown = self.shown(name)?;
        match copy_bytes(self.alloc, &shown, file) {
            Ok(bytes) => Ok(bytes),
            Err(_failed) => Err(no_memory(name)),
        }
    }

    /// The bytes of the closed report of a cycle, whole or not, if it is there.
    pub fn closed_bytes(&mut self, cycle: u64, whole: bool) -> Result<Option<Vec<u8>>, Reason>
        ensures log { self.new.log ≡ self.old.log }
        ensures later { self.old.faults ≤ self.new.faults }
        ensures value { IfOk result (λ found. option_map bytes_of found
            ≡ text_in cycle whole (disk_of self.old.log.items self.old.faults).seen) }
    {
        self.begin(StateFile::Reports)?;
        let shown = self.shown(StateFile::Reports)?;
        match find_file(&shown.closed, cycle, whole) {
            Some(file) => Ok(Some(self.bytes(StateFile::Reports, file)?)),
            None => Ok(None),
        }
    }
}

impl MemDisk {
    /// The bytes of the report that is made, if there is one.
    pub(crate) fn report_bytes(&mut self) -> Result<Option<Vec<u8>>, Reason>
        ensures log { self.new.log ≡ self.old.log }
        ensures later { self.old.faults ≤ self.new.faults }
        ensures value { IfOk result (λ found. option_map bytes_of found
            ≡ option_map (disk_of self.old.log.items self.old.faults).seen.bytes
            (disk_of self.old.log.items self.old.faults).seen.names.report) }
    {
        self.begin(StateFile::Report)?;
        let shown = self.shown(StateFile::Report)?;
        match shown.report {
            Some(file) => Ok(Some(self.bytes(StateFile::Report, file)?)),
            None => Ok(None),
        }
    }

    /// Closes the report that is made, if there is one, as that of a cycle.
    pub(crate) fn close(&mut self, cycle: u64, whole: bool) -> Result<(), Reason>
        ensures closes { ((file : ℕ)
            → (disk_of self.old.log.items self.old.faults).seen.names.report ≡ Some file
            → IsTrue ((disk_of self.old.log.items self.old.faults).is_synced file))
            → MatchResult result
            (λ _. ClosesOver cycle whole (disk_of self.old.log.items self.old.faults)
            (disk_of self.new.log.items self.new.faults))
            (λ _. Calm (disk_of self.old.log.items self.old.faults)
            (disk_of self.new.log.items self.new.faults)
            ⊎ ClosesOver cycle whole (disk_of self.old.log.items self.old.faults)
            (disk_of self.new.log.items self.new.faults)) }
        ensures cause { IfErr result (HasFault (disk_of self.old.log.items self.old.faults)
            (disk_of self.new.log.items self.new.faults)) }
    {
        self.make(StateFile::Report, MemCall::Close(cycle, whole))
    }
}

fn is_as_whole(one: bool, whole: bool) -> bool
    ensures { result ≡ (if whole then one else not one) }
{
    if whole { one } else { !one }
}

/// Whether one of these is the closed report of a cycle.
fn is_among(closed: &[ReportName], cycle: u64, whole: bool) -> bool
    ensures { result ≡ has_name cycle whole closed.now }
{
    for name in closed {
        if name.cycle == cycle && is_as_whole(name.whole, whole) {
            return true;
        }
    }
    false
}

/// The file of the closed report of a cycle among these.
fn find_file(closed: &[ReportName], cycle: u64, whole: bool) -> Option<usize>
    ensures { result ≡ file_named cycle whole closed.now }
{
    for name in closed {
        if name.cycle == cycle && is_as_whole(name.whole, whole) {
            return Some(name.file);
        }
    }
    None
}

/// Gives the bytes from an offset on, as many as there is room for.
pub(crate) fn give_from(bytes: &[u8], start: u64, buffer: &mut [u8]) -> usize
    ensures bound { result ≤ length buffer.new }
    ensures given { IsReadOf bytes.now start (take result buffer.new) (length buffer.new) }
{
    if start >= bytes.len() as u64 {
        return 0;
    }
    let left = &bytes[start as usize..];
    let count = left.len().min(buffer.len());
    buffer[..count].copy_from_slice(&left[..count]);
    count
}

impl Disk for MemDisk {
    type File = MemHandle;

    ghost told = { true };

    ghost state = { λ disk. disk_of disk.log.items disk.faults };

    ghost number = { λ file. file.number };

    ghost use Rattle.ocfl_mem_disk.specs.Showing.{is_disk_at};

    ghost is_disk = { λ told disk. is_disk_at disk.log.items disk.faults };

    fn has_reports(&mut self) -> Result<bool, Reason> {
        self.begin(StateFile::Reports)?;
        Ok(true)
    }

    fn has_closed(&mut self, cycle: u64, whole: bool) -> Result<bool, Reason> {
        self.begin(StateFile::Reports)?;
        let shown = self.shown(StateFile::Reports)?;
        Ok(is_among(&shown.closed, cycle, whole))
    }

    fn open(&mut self, name: StateFile) -> Result<Option<MemHandle>, Reason> {
        self.begin(name)?;
        let shown = self.shown(name)?;
        let found = match name {
            StateFile::Checkpoint => shown.checkpoint,
            StateFile::Report => shown.report,
            _ => None,
        };
        match found {
            Some(number) => Ok(Some(MemHandle { number })),
            None => Ok(None),
        }
    }

    fn count_names(&mut self, _report: &MemHandle) -> Result<u64, Reason> {
        self.begin(StateFile::Report)?;
        Ok(1)
    }

    fn create(&mut self, name: StateFile) -> Result<MemHandle, Reason> {
        let shown = self.shown(name)?;
        let number = shown.files.len();
        match name {
            StateFile::NewCheckpoint if shown.beside.is_none() => {
                self.make(name, MemCall::MakeNew)?;
                Ok(MemHandle { number })
            }
            StateFile::Report if shown.report.is_none() => {
                self.make(name, MemCall::MakeReport)?;
                Ok(MemHandle { number })
            }
            _ => Err(self.fail(name)),
        }
    }

    fn length(&mut self, name: StateFile, file: &MemHandle) -> Result<u64, Reason> {
        let bytes = self.bytes(name, file.number)?;
        Ok(bytes.len() as u64)
    }

    fn read_front(
        &mut self,
        name: StateFile,
        file: MemHandle,
        most: u64,
    ) -> Result<Vec<u8>, Reason> {
        let mut bytes = self.bytes(name, file.number)?;
        if most < bytes.len() as u64 {
            bytes.truncate(most as usize);
        }
        Ok(bytes)
    }

    fn read_at(
        &mut self,
        name: StateFile,
        file: &MemHandle,
        start: u64,
        buffer: &mut [u8],
    ) -> Result<usize, Reason> {
        let bytes = self.bytes(name, file.number)?;
        Ok(give_from(&bytes, start, buffer))
    }

    fn append(
        &mut self,
        name: StateFile,
        file: &mut MemHandle,
        bytes: &[u8],
    ) -> Result<(), Reason> {
        match bytes.to_vec(self.alloc) {
            Ok(copy) => self.make(name, MemCall::Append(file.number, copy)),
            Err(_failed) => Err(no_memory(name)),
        }
    }

    fn cut(&mut self, report: &MemHandle, most: u64) -> Result<(), Reason> {
        self.make(StateFile::Report, MemCall::Cut(report.number, most))
    }

    fn sync(&mut self, name: StateFile, file: &MemHandle) -> Result<(), Reason> {
        self.make(name, MemCall::Sync(file.number))
    }

    /// It is there already.
    fn create_reports(&mut self) -> Result<(), Reason> {
        Err(self.fail(StateFile::Reports))
    }

    fn remove_new(&mut self) -> Result<(), Reason> {
        self.make(StateFile::NewCheckpoint, MemCall::Remove)
    }

    fn rename_new(&mut self) -> Result<(), Reason> {
        self.make(StateFile::Checkpoint, MemCall::Put)
    }

    /// What gets that name is not kept.
    fn rename_kept(&mut self, cycle: u64) -> Result<(), Reason> {
        self.make(StateFile::Kept(cycle), MemCall::Remove)
    }

    fn rename_report(&mut self, cycle: u64, whole: bool) -> Result<(), Reason> {
        self.close(cycle, whole)
    }

    fn sync_folder(&mut self, folder: StateFile) -> Result<(), Reason> {
        match folder {
            StateFile::Folder => self.make(folder, MemCall::SyncFolder),
            StateFile::Reports => self.make(folder, MemCall::SyncReports),
            _ => Err(self.fail(folder)),
        }
    }
}
