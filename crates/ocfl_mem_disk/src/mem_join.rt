//! Closed reports of parts in memory, which are joined on a disk in memory.
ghost use Rattle.std.specs.Prelude.{◌==◌, ◌≡◌, true, [], Ok, Err, IfErr, IfOk, IfSome, IsTrue, OnOk, option_map};
ghost use Rattle.std.specs.List.{list_any};
ghost use Rattle.ocfl_disk.specs.{Disk.{Calm}, declared.state_file.StateFile.{StateFile as ModelFile}};
ghost use Rattle.ocfl_joining.specs.Memory.{bytes_of, kept_of};
ghost use Rattle.ocfl_mem_disk.specs.Joining.{closed_of, files_of, found_in, has_said_in};
ghost use Rattle.ocfl_mem_disk.specs.Joining.{is_packed_in, path_of, word_of};
ghost use Rattle.ocfl_mem_disk.specs.Log.{disk_of};

use crate::mem_disk::{MemDisk, MemHandle};
use ocfl_disk::{Disk, Reason, StateFile};
use ocfl_join_disk::{JoinDisk, OpenPart};
use ocfl_joining::{FailedCall, FoundReport, MemoryReport, ReportTrouble};
use std::alloc::{AllocError, Global};
use std::io::{self, Cursor, ErrorKind};

/// A cycle that a part has closed, by its number, from 1.
#[derive(Clone, Copy, Debug)]
pub struct MemClosed {
    pub cycle: u64,
    pub part: usize,
    /// Whether the closed report is whole.
    pub whole: bool,
    /// Whether the part has said what it found.
    pub has_said: bool,
}

/// Closed reports of parts in memory, with the same bytes in each cycle, and a disk in memory on
/// which they are joined.
#[derive(Debug)]
pub struct MemJoinDisk {
    alloc: Global,
    disk: MemDisk,
    parts: Vec<MemoryReport>,
    closed: Vec<MemClosed>,
    /// The cycles whose joined report is there compressed.
    packed: Vec<u64>,
    opened: Vec<usize>,
    noted: Vec<u8>,
}

/// Written by hand, so that to let it go is one call wherever that happens.
impl Drop for MemJoinDisk {
    fn drop(self) {
        let MemJoinDisk {
            alloc: _alloc,
            disk: _disk,
            parts: _parts,
            closed: _closed,
            packed: _packed,
            opened: _opened,
            noted: _noted,
        } = self;
    }
}

/// What a call of the disk that failed means for a joining.
fn trouble_of(reason: Reason) -> ReportTrouble {
    match reason.error.kind() {
        ErrorKind::OutOfMemory => ReportTrouble::Memory,
        _ => ReportTrouble::Failed,
    }
}

/// What a call of the disk gave.
fn answer<T>(outcome: Result<T, Reason>) -> Result<T, ReportTrouble>
    ensures ok { IfOk result (λ value. outcome ≡ Ok value) }
    ensures err { IfErr result (λ _. (reason : Reason) × (outcome ≡ Err reason)) }
{
    match outcome {
        Ok(value) => Ok(value),
        Err(reason) => Err(trouble_of(reason)),
    }
}

/// The report of the part with a number.
fn part_with(parts: &[MemoryReport], number: usize) -> Option<&MemoryReport>
    ensures { IfSome result (λ part. (part.now.bytes.items ≡ bytes_of parts.now number)
        × (part.now.kept ≡ kept_of parts.now number)) }
{
    parts.get(number.checked_sub(1)?)
}

impl MemJoinDisk {
    /// These closed reports, of which none was opened, and a disk. No cycle is closed, none
    /// compressed, and nothing was said.
    pub fn new(alloc: Global, disk: MemDisk, parts: Vec<MemoryReport>) -> MemJoinDisk
        ensures disk { result.disk ≡ disk }
        ensures parts { result.parts ≡ parts }
        ensures closed { result.closed.items ≡ [] }
        ensures packed { result.packed.items ≡ [] }
        ensures opened { result.opened.items ≡ [] }
        ensures noted { result.noted.items ≡ [] }
    {
        MemJoinDisk {
            alloc,
            disk,
            parts,
            closed: Vec::new(alloc),
            packed: Vec::new(alloc),
            opened: Vec::new(alloc),
            noted: Vec::new(alloc),
        }
    }

    /// These cycles are closed, and of those the joined report is there compressed.
    pub fn put_cycles(&mut self, closed: Vec<MemClosed>, packed: Vec<u64>)
        ensures closed { self.new.closed ≡ closed }
        ensures packed { self.new.packed ≡ packed }
        ensures parts { self.new.parts ≡ self.old.parts }
        ensures disk { self.new.disk ≡ self.old.disk }
        ensures opened { self.new.opened ≡ self.old.opened }
        ensures noted { self.new.noted ≡ self.old.noted }
    {
        self.closed = closed;
        self.packed = packed;
    }

    /// What was said.
    pub fn noted(&self) -> &[u8]
        ensures { result.now ≡ self.now.noted.items }
    {
        self.noted.as_slice()
    }

    /// Puts other closed reports in place of those that are there.
    pub fn put_parts(&mut self, parts: Vec<MemoryReport>)
        ensures parts { self.new.parts ≡ parts }
        ensures closed { self.new.closed ≡ self.old.closed }
        ensures packed { self.new.packed ≡ self.old.packed }
        ensures disk { self.new.disk ≡ self.old.disk }
        ensures opened { self.new.opened ≡ self.old.opened }
        ensures noted { self.new.noted ≡ self.old.noted }
    {
        self.parts = parts;
    }
}

/// The cycle that a part has closed, if it has.
fn closed_in(closed: &[MemClosed], cycle: u64, part: usize) -> Option<&MemClosed>
    ensures { option_map (λ one. one.now) result ≡ closed_of closed.now cycle part }
{
    closed
        .iter()
        .find(|one| one.cycle == cycle && one.part == part)
}

/// The closed report of a part, if it is there.
fn found_in(closed: &[MemClosed], cycle: u64, part: usize) -> Option<FoundReport>
    ensures { result ≡ found_in closed.now cycle part }
{
    match closed_in(closed, cycle, part) {
        Some(one) => Some(FoundReport {
            whole: one.whole,
            kept: None,
        }),
        None => None,
    }
}

/// Whether a part has said what a closed report found.
fn has_said_in(closed: &[MemClosed], cycle: u64, part: usize) -> bool
    ensures { result ≡ has_said_in closed.now cycle part }
{
    match closed_in(closed, cycle, part) {
        Some(one) => one.has_said,
        None => false,
    }
}

fn is_among(cycles: &[u64], cycle: u64) -> bool
    ensures { result ≡ list_any (λ one. one == cycle) cycles.now }
{
    for one in cycles {
        if *one == cycle {
            return true;
        }
    }
    false
}

/// Whether the joined report of a cycle is there compressed.
fn is_packed_in(packed: &[u64], cycle: u64, whole: bool) -> bool
    ensures { result ≡ is_packed_in packed.now cycle whole }
{
    whole && is_among(packed, cycle)
}

fn path_of(whole: bool) -> &'static str
    ensures { result.now ≡ path_of whole }
{
    if whole { "whole" } else { "incomplete" }
}

/// Brings the names of a folder to the disk.
fn sync_names(disk: &mut MemDisk, folder: StateFile) -> Result<(), ReportTrouble>
    ensures calm { Calm (disk_of disk.old.log.items disk.old.faults)
        (disk_of disk.new.log.items disk.new.faults) }
    ensures others { (other : ModelFile)
        → IsTrue ((disk_of disk.old.log.items disk.old.faults).has_names other)
        → IsTrue ((disk_of disk.new.log.items disk.new.faults).has_names other) }
    ensures names { OnOk result
        (IsTrue ((disk_of disk.new.log.items disk.new.faults).has_names folder)) }
{
    let named = disk.sync_folder(folder);
    answer(named)
}

/// The word on a joined report of a cycle.
fn word_for(alloc: Global, cycle: u64, whole: bool) -> Result<Vec<u8>, AllocError>
    ensures { IfOk result (λ word. word.items ≡ word_of cycle whole) }
{
    let mut word = Vec::new(alloc);
    word.push((cycle % 256) as u8)?;
    word.push(if whole { 1 } else { 0 })?;
    Ok(word)
}

impl JoinDisk for MemJoinDisk {
    type Report = Cursor<Vec<u8>>;

    type Made = MemHandle;

    ghost told = { true };

    ghost parts = { λ d. files_of d.parts.items d.closed.items d.packed.items
        d.opened.items d.noted.items };

    ghost state = { λ d. disk_of d.disk.log.items d.disk.faults };

    ghost number = { λ file. file.number };

    ghost use Rattle.ocfl_mem_disk.specs.Showing.{is_disk_at};

    ghost is_disk = { λ told d. is_disk_at d.disk.log.items d.disk.faults };

    fn open_part(
        &mut self,
        _cycle: u64,
        number: usize,
    ) -> Result<OpenPart<Cursor<Vec<u8>>>, ReportTrouble> {
        let Some(part) = part_with(self.parts.as_slice(), number) else {
            return Err(ReportTrouble::Failed);
        };
        let bytes = part.bytes.to_vec(self.alloc)?;
        let mark = part.kept;
        if self.opened.push(number).is_err() {
            return Err(ReportTrouble::Memory);
        }
        Ok(OpenPart {
            report: Cursor::new(bytes),
            mark,
        })
    }

    fn keep_failure(&mut self, _cycle: u64, _error: io::Error) -> ReportTrouble {
        ReportTrouble::Failed
    }

    fn open_joined(&mut self, cycle: u64, whole: bool) -> Result<Cursor<Vec<u8>>, ReportTrouble> {
        match self.disk.closed_bytes(cycle, whole) {
            Ok(Some(bytes)) => Ok(Cursor::new(bytes)),
            Ok(None) => Err(ReportTrouble::Failed),
            Err(reason) => Err(trouble_of(reason)),
        }
    }

    fn refuse_joined(
        &mut self,
        _cycle: u64,
        _whole: bool,
        _error: Option<io::Error>,
    ) -> ReportTrouble {
        ReportTrouble::Failed
    }

    fn has_joined(&mut self, cycle: u64, whole: bool) -> Result<bool, ReportTrouble> {
        let found = self.disk.has_closed(cycle, whole);
        answer(found)
    }

    fn create(&mut self, _cycle: u64) -> Result<MemHandle, ReportTrouble> {
        let made = self.disk.create(StateFile::Report);
        answer(made)
    }

    fn append(
        &mut self,
        _cycle: u64,
        file: &mut MemHandle,
        bytes: &[u8],
    ) -> Result<(), ReportTrouble> {
        let appended = self.disk.append(StateFile::Report, file, bytes);
        answer(appended)
    }

    fn sync(&mut self, _cycle: u64, file: &MemHandle) -> Result<(), ReportTrouble> {
        let synced = self.disk.sync(StateFile::Report, file);
        answer(synced)
    }

    fn find_word(&mut self, cycle: u64, whole: bool) -> Result<Vec<u8>, ReportTrouble> {
        Ok(word_for(self.alloc, cycle, whole)?)
    }

    fn rename(&mut self, cycle: u64, whole: bool) -> Result<(), ReportTrouble> {
        let renamed = self.disk.rename_report(cycle, whole);
        answer(renamed)
    }

    fn sync_folder(&mut self) -> Result<(), ReportTrouble> {
        sync_names(&mut self.disk, StateFile::Reports)?;
        sync_names(&mut self.disk, StateFile::Folder)
    }

    fn is_packed(&mut self, cycle: u64, whole: bool) -> Result<bool, ReportTrouble> {
        Ok(is_packed_in(self.packed.as_slice(), cycle, whole))
    }

    fn has_closed(&mut self, cycle: u64, part: usize) -> Result<bool, ReportTrouble> {
        Ok(found_in(self.closed.as_slice(), cycle, part).is_some())
    }

    fn has_said(&mut self, cycle: u64, part: usize) -> Result<bool, ReportTrouble> {
        Ok(has_said_in(self.closed.as_slice(), cycle, part))
    }

    fn find_closed(
        &mut self,
        cycle: u64,
        part: usize,
    ) -> Result<Option<FoundReport>, ReportTrouble> {
        Ok(found_in(self.closed.as_slice(), cycle, part))
    }

    fn show_path(&mut self, _cycle: u64, whole: bool) -> Result<String, ReportTrouble> {
        Ok(String::from_str(self.alloc, path_of(whole))?)
    }

    fn note(&mut self, text: &str) -> Result<(), ReportTrouble> {
        self.noted.extend_from_slice(text.as_bytes())?;
        Ok(())
    }

    /// It is not kept.
    fn take_failure(&mut self) -> Option<FailedCall> {
        None
    }
}
