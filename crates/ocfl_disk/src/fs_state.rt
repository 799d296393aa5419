//! A state folder, by the calls of a disk.
ghost use Rattle.std.specs.Prelude.{◌≡◌, ◌⊎◌, ◌≤◌, ◌++◌, ◌↔◌, ℕ, Bool, false, IsTrue, IfOk, IfErr};
ghost use Rattle.std.specs.Prelude.{IfSome, OnOk, IsSome, None, Some, Ok, Err, length, take};
ghost use Rattle.std.specs.Option.{option_map};
ghost use Rattle.ocfl_state.specs.Calls.{HasCause, HasCauseOr, ClosesRightly, IsReadOf, bytes_of};
ghost use Rattle.ocfl_state.specs.Calls.{HasLong, IsLong, most_checkpoint};
ghost use Rattle.ocfl_state.specs.Content.{with_checkpoint, with_report, moved, is_closed};
ghost use Rattle.ocfl_state.specs.Crash.{Same, IsPut, MayPut, IsMoved, MayMove, MayTear, Only};
ghost use Rattle.ocfl_state.specs.Crash.{Follows};
ghost use Rattle.ocfl_disk.specs.Reasons.{IsKept, IsTroubleOf};
ghost use Rattle.ocfl_disk.specs.Names.{Stored, content_of};
ghost use Rattle.ocfl_disk.specs.PowerCut.{Passes as DiskPasses};
ghost use Rattle.ocfl_disk.specs.Disk.{HasFault, Calm, has_name};
ghost use Rattle.ocfl_disk.specs.Leaving.{Leaves, PassesBy, stays, counts_now, only_now};
ghost use Rattle.ocfl_disk.specs.Internal.Contents.{OfContent, Still, FollowsContent};

use crate::beside::{keep_checkpoint, read_checkpoint, replace_checkpoint};
use crate::calls::Calls;
use crate::disk::Disk;
use crate::fs_log::append_line;
use crate::lock::{StateStop, hold};
use crate::state_file::{Reason, StateFile, closed_file, wrong};
use crate::system_disk::{SystemDisk, for_reading, of_file};
use ocfl_state::{FolderTrouble, StateFolder};
use std::fs::File;

/// A state folder, by the calls of a disk. It tells what it holds if the disk tells what is there.
///
/// A checkpoint is written beside the old one, synced and renamed, and the folder is synced. The
/// report is synced before it is moved, and then both folders are. The checkpoint with which it is
/// closed is kept beside it.
///
/// `Full` is answered if the device or the quota is full, and `Memory` if memory ran out.
/// Every other fault is `Failed`, also a checkpoint of more than 1 MiB. `reason` says why the last
/// call failed that did.
pub struct FsState<D: Disk + Drop> {
    disk: D,
    /// The report, once it was opened.
    report: Option<D::File>,
    reason: Option<Reason>,
    ghost open: { IsTrue D.told → (file : D.File) → report ≡ Some file
        → (D.state disk).seen.names.report ≡ Some (D.number file) },
}

/// Written by hand, so that to let it go is one call wherever that happens.
impl<D: Disk + Drop> Drop for FsState<D> {
    fn drop(self) {
        let FsState {
            disk: _disk,
            report: _report,
            reason: _reason,
        } = self;
    }
}

/// A closed report, and whether it is whole.
#[derive(Drop)]
pub struct OpenReport {
    pub file: File,
    pub whole: bool,
}

impl<R: Calls + Drop> FsState<SystemDisk<R>> {
    /// Opens the state folder at a path, which may be a link to it, and holds it for this process
    /// alone while the result lives.
    ///
    /// With `create` the folder is made if it is not there, but not the one above it; one that
    /// has no checkpoint but reports is refused. Without it a folder with neither checkpoint nor
    /// lock is refused. If it is refused, nothing in it was changed.
    pub fn open(rt: R, path: &str, create: bool) -> Result<FsState<SystemDisk<R>>, StateStop>
        ensures { IfOk result (λ folder. folder.reason ≡ None) }
    {
        let disk = of_file(StateFile::Folder, SystemDisk::at(rt, path))?;
        let lock = hold(&disk, create)?;
        Ok(FsState::over(disk.held(lock)))
    }

    /// Appends a line to the file `log`, whole or not at all. It is not brought to the disk.
    pub fn append_log(&mut self, line: &[u8]) -> Result<(), FolderTrouble>
        ensures kept { IfErr result (λ trouble. IsKept self.new.reason trouble) }
        ensures same { OnOk result (self.new.reason ≡ self.old.reason) }
    {
        let appended = append_line(&self.disk, line);
        keep_reason(&mut self.reason, appended)
    }

    /// Opens the closed report of a cycle, if there is one.
    pub fn open_closed(&mut self, cycle: u64) -> Result<Option<OpenReport>, FolderTrouble>
        ensures kept { IfErr result (λ trouble. IsKept self.new.reason trouble) }
        ensures same { OnOk result (self.new.reason ≡ self.old.reason) }
    {
        let found = self.closed(cycle);
        keep_reason(&mut self.reason, found)
    }

    /// Opens the closed report of a cycle that is whole, or the one that is not, if it is there.
    pub fn open_closed_as(&mut self, cycle: u64, whole: bool) -> Result<Option<File>, FolderTrouble>
        ensures kept { IfErr result (λ trouble. IsKept self.new.reason trouble) }
        ensures same { OnOk result (self.new.reason ≡ self.old.reason) }
    {
        let found = self.closed_as(cycle, whole);
        keep_reason(&mut self.reason, found)
    }

    fn closed(&self, cycle: u64) -> Result<Option<OpenReport>, Reason> {
        for whole in [true, false] {
            if let Some(file) = self.closed_as(cycle, whole)? {
                return Ok(Some(OpenReport { file, whole }));
            }
        }
        Ok(None)
    }

    fn closed_as(&self, cycle: u64, whole: bool) -> Result<Option<File>, Reason> {
        if !self.disk.has_folder(StateFile::Reports)? {
            return Ok(None);
        }
        self.disk
            .open_file(closed_file(cycle, whole), &for_reading())
    }
}

impl<D: Disk + Drop> FsState<D> {
    /// The state folder that the calls of a disk show.
    pub fn over(disk: D) -> FsState<D>
        ensures disk { result.disk ≡ disk }
        ensures reason { result.reason ≡ None }
    {
        FsState {
            disk,
            report: None,
            reason: None,
        }
    }

    /// Why the last call failed that did.
    pub fn reason(&self) -> Option<Reason>
        ensures { result ≡ self.now.reason }
    {
        self.reason
    }

    /// The bytes of the checkpoint with which the report of a cycle was closed, if it was kept: it
    /// has the length, the lines and the digests of that report.
    pub fn kept_checkpoint(&mut self, cycle: u64) -> Result<Option<Vec<u8>>, FolderTrouble>
        ensures bound { IfOk result (λ found. IfSome found (λ bytes.
            length bytes.items ≤ most_checkpoint)) }
        ensures kept { IfErr result (λ trouble. IsKept self.new.reason trouble) }
        ensures same { OnOk result (self.new.reason ≡ self.old.reason) }
    {
        let found = self.read_kept(cycle);
        self.answer(found)
    }

    /// Keeps the reason of a failure.
    fn answer<T>(&mut self, outcome: Result<T, Reason>) -> Result<T, FolderTrouble>
        ensures value { IfOk result (λ value. outcome ≡ Ok value) }
        ensures err { IfErr result (λ trouble. (reason : Reason) × (outcome ≡ Err reason)
            × IsTroubleOf reason trouble) }
        ensures disk { self.new.disk ≡ self.old.disk }
        ensures kept { IfErr result (λ trouble. IsKept self.new.reason trouble) }
        ensures same { OnOk result (self.new.reason ≡ self.old.reason) }
    {
        keep_reason(&mut self.reason, outcome)
    }

    /// The bytes of the checkpoint with which a report was closed.
    fn read_kept(&mut self, cycle: u64) -> Result<Option<Vec<u8>>, Reason>
        ensures bound { IfOk result (λ found. IfSome found (λ bytes.
            length bytes.items ≤ most_checkpoint)) }
        ensures same { self.new.reason ≡ self.old.reason }
    {
        if !self.disk.has_reports()? {
            return Ok(None);
        }
        read_checkpoint(&mut self.disk, StateFile::Kept(cycle))
    }

    /// Opens the report, if it is there. A file that has another name too is refused, since what is
    /// written to it would change that.
    fn find_report(&mut self) -> Result<(), Reason>
        ensures calm { IsTrue D.told → Calm (D.state self.old.disk) (D.state self.new.disk) }
        ensures none { IsTrue D.told → OnOk result (self.new.report ≡ None
            → (D.state self.new.disk).seen.names.report ≡ None) }
        ensures cause { IsTrue D.told → IfErr result
            (HasFault (D.state self.old.disk) (D.state self.new.disk)) }
        ensures same { self.new.reason ≡ self.old.reason }
    {
        if self.report.is_some() {
            return Ok(());
        }
        let Some(file) = self.disk.open(StateFile::Report)? else {
            return Ok(());
        };
        if self.disk.count_names(&file)? > 1 {
            return Err(wrong(StateFile::Report, "has another name too"));
        }
        self.report = Some(file);
        Ok(())
    }

    /// Opens the report, which is made if it is not there.
    fn make_report(&mut self) -> Result<(), Reason>
        ensures still { IsTrue D.told → Still (D.state self.old.disk) (D.state self.new.disk) }
        ensures there { OnOk result (IsSome self.new.report) }
        ensures cause { IsTrue D.told → IfErr result
            (HasFault (D.state self.old.disk) (D.state self.new.disk)) }
        ensures same { self.new.reason ≡ self.old.reason }
    {
        self.find_report()?;
        if self.report.is_none() {
            self.report = Some(self.disk.create(StateFile::Report)?);
        }
        Ok(())
    }

    fn report_length(&mut self) -> Result<u64, Reason>
        ensures calm { IsTrue D.told → Calm (D.state self.old.disk) (D.state self.new.disk) }
        ensures value { IsTrue D.told → IfOk result (λ n.
            n ≡ length (content_of (D.state self.old.disk).seen).report) }
        ensures none { IsTrue D.told → OnOk result (self.new.report ≡ None
            → (D.state self.new.disk).seen.names.report ≡ None) }
        ensures cause { IsTrue D.told → IfErr result
            (HasFault (D.state self.old.disk) (D.state self.new.disk)) }
        ensures same { self.new.reason ≡ self.old.reason }
    {
        self.find_report()?;
        match &self.report {
            Some(file) => self.disk.length(StateFile::Report, file),
            None => Ok(0),
        }
    }

    fn read_report(&mut self, start: u64, buffer: &mut [u8]) -> Result<usize, Reason>
        ensures bound { IfOk result (λ count. count ≤ length buffer.new) }
        ensures calm { IsTrue D.told → Calm (D.state self.old.disk) (D.state self.new.disk) }
        ensures value { IsTrue D.told → IfOk result (λ count. IsReadOf
            (content_of (D.state self.old.disk).seen).report start
            (take count buffer.new) (length buffer.new)) }
        ensures cause { IsTrue D.told → IfErr result
            (HasFault (D.state self.old.disk) (D.state self.new.disk)) }
        ensures same { self.new.reason ≡ self.old.reason }
    {
        self.find_report()?;
        match &self.report {
            Some(file) => self.disk.read_at(StateFile::Report, file, start, buffer),
            None => Ok(0),
        }
    }

    fn append_to_report(&mut self, bytes: &[u8]) -> Result<(), Reason>
        ensures appended { IsTrue D.told → OnOk result
            (content_of (D.state self.new.disk).seen ≡ with_report
            ((content_of (D.state self.old.disk).seen).report ++ bytes.now)
            (content_of (D.state self.old.disk).seen)) }
        ensures passes { IsTrue D.told → DiskPasses (OfContent (MayTear
            (length (content_of (D.state self.old.disk).seen).report)
            (length ((content_of (D.state self.old.disk).seen).report ++ bytes.now))))
            (D.state self.old.disk) (D.state self.new.disk) }
        ensures cause { IsTrue D.told → IfErr result
            (HasFault (D.state self.old.disk) (D.state self.new.disk)) }
        ensures same { self.new.reason ≡ self.old.reason }
    {
        self.make_report()?;
        match &mut self.report {
            Some(file) => self.disk.append(StateFile::Report, file, bytes),
            None => Ok(()),
        }
    }

    fn cut_report(&mut self, most: u64) -> Result<(), Reason>
        ensures cut { IsTrue D.told → OnOk result
            (content_of (D.state self.new.disk).seen ≡ with_report
            (take most (content_of (D.state self.old.disk).seen).report)
            (content_of (D.state self.old.disk).seen)) }
        ensures passes { IsTrue D.told → DiskPasses (OfContent (MayTear most 0))
            (D.state self.old.disk) (D.state self.new.disk) }
        ensures cause { IsTrue D.told → IfErr result
            (HasFault (D.state self.old.disk) (D.state self.new.disk)) }
        ensures same { self.new.reason ≡ self.old.reason }
    {
        if self.report_length()? <= most {
            return Ok(());
        }
        match &self.report {
            Some(file) => self.disk.cut(file, most),
            None => Ok(()),
        }
    }

    fn sync_report(&mut self) -> Result<(), Reason>
        ensures calm { IsTrue D.told → Calm (D.state self.old.disk) (D.state self.new.disk) }
        ensures synced { IsTrue D.told → OnOk result ((file : ℕ)
            → (D.state self.new.disk).seen.names.report ≡ Some file
            → IsTrue ((D.state self.new.disk).is_synced file)) }
        ensures cause { IsTrue D.told → IfErr result
            (HasFault (D.state self.old.disk) (D.state self.new.disk)) }
        ensures same { self.new.reason ≡ self.old.reason }
    {
        self.find_report()?;
        match &self.report {
            Some(file) => self.disk.sync(StateFile::Report, file),
            None => Ok(()),
        }
    }

    fn sync_everything(&mut self) -> Result<(), Reason>
        ensures calm { IsTrue D.told → Calm (D.state self.old.disk) (D.state self.new.disk) }
        ensures durable { IsTrue D.told → OnOk result ((c : Stored)
            → (D.state self.new.disk).may_leave c
            → content_of c ≡ content_of (D.state self.old.disk).seen) }
        ensures cause { IsTrue D.told → IfErr result
            (HasFault (D.state self.old.disk) (D.state self.new.disk)) }
        ensures same { self.new.reason ≡ self.old.reason }
    {
        self.sync_report()?;
        sync_folders(&mut self.disk)
    }

    /// Brings the report to the disk, and keeps the checkpoint with which it is closed.
    fn prepare_closing(&mut self, cycle: u64) -> Result<(), Reason>
        ensures still { IsTrue D.told → Still (D.state self.old.disk) (D.state self.new.disk) }
        ensures there { IsTrue D.told → OnOk result
            (IsSome (D.state self.new.disk).seen.names.report) }
        ensures synced { IsTrue D.told → OnOk result ((file : ℕ)
            → (D.state self.new.disk).seen.names.report ≡ Some file
            → IsTrue ((D.state self.new.disk).is_synced file)) }
        ensures cause { IsTrue D.told → IfErr result
            (HasFault (D.state self.old.disk) (D.state self.new.disk)) }
        ensures same { self.new.reason ≡ self.old.reason }
    {
        self.make_report()?;
        self.sync_report()?;
        make_reports(&mut self.disk)?;
        keep_checkpoint(&mut self.disk, cycle)
    }

    fn move_report(&mut self, cycle: u64, whole: bool) -> Result<(), Reason>
        requires { IsTrue D.told → is_closed (content_of (D.state self.old.disk).seen).closed cycle
            ≡ false }
        ensures closed { IsTrue D.told → OnOk result (content_of (D.state self.new.disk).seen
            ≡ moved cycle whole (content_of (D.state self.old.disk).seen)) }
        ensures durable { IsTrue D.told → OnOk result (FollowsContent (IsMoved cycle whole)
            (D.state self.old.disk) (D.state self.new.disk)) }
        ensures passes { IsTrue D.told → DiskPasses (OfContent (MayMove cycle whole))
            (D.state self.old.disk) (D.state self.new.disk) }
        ensures cause { IsTrue D.told → IfErr result
            (HasFault (D.state self.old.disk) (D.state self.new.disk)) }
        ensures same { self.new.reason ≡ self.old.reason }
    {
        self.prepare_closing(cycle)?;
        // What is appended next is no closed report's.
        self.report = None;
        self.disk.rename_report(cycle, whole)?;
        sync_folders(&mut self.disk)
    }
}

/// Keeps the reason of a failure.
fn keep_reason<T>(kept: &mut Option<Reason>, outcome: Result<T, Reason>) -> Result<T, FolderTrouble>
    ensures value { IfOk result (λ value. outcome ≡ Ok value) }
    ensures err { IfErr result (λ trouble. (reason : Reason) × (outcome ≡ Err reason)
        × IsTroubleOf reason trouble) }
    ensures kept { IfErr result (λ trouble. IsKept kept.new trouble) }
    ensures same { OnOk result (kept.new ≡ kept.old) }
{
    match outcome {
        Ok(value) => Ok(value),
        Err(reason) => {
            *kept = Some(reason);
            Err(reason.trouble())
        }
    }
}

/// Brings the folder of the closed reports to the disk, if it is there.
fn sync_reports<D: Disk>(disk: &mut D) -> Result<(), Reason>
    ensures calm { IsTrue D.told → Calm (D.state disk.old) (D.state disk.new) }
    ensures names { IsTrue D.told → OnOk result
        (IsTrue ((D.state disk.new).has_names StateFile.Reports)) }
    ensures cause { IsTrue D.told → IfErr result (HasFault (D.state disk.old) (D.state disk.new)) }
{
    if disk.has_reports()? {
        disk.sync_folder(StateFile::Reports)
    } else {
        Ok(())
    }
}

/// Brings both folders to the disk, first the one that a report is moved into.
fn sync_folders<D: Disk>(disk: &mut D) -> Result<(), Reason>
    ensures calm { IsTrue D.told → Calm (D.state disk.old) (D.state disk.new) }
    ensures reports { IsTrue D.told → OnOk result
        (IsTrue ((D.state disk.new).has_names StateFile.Reports)) }
    ensures folder { IsTrue D.told → OnOk result
        (IsTrue ((D.state disk.new).has_names StateFile.Folder)) }
    ensures cause { IsTrue D.told → IfErr result (HasFault (D.state disk.old) (D.state disk.new)) }
{
    sync_reports(disk)?;
    disk.sync_folder(StateFile::Folder)
}

fn is_closed<D: Disk>(disk: &mut D, cycle: u64) -> Result<bool, Reason>
    ensures calm { IsTrue D.told → Calm (D.state disk.old) (D.state disk.new) }
    ensures value { IsTrue D.told → IfOk result (λ answer. answer
        ≡ is_closed (content_of (D.state disk.old).seen).closed cycle) }
    ensures cause { IsTrue D.told → IfErr result (HasFault (D.state disk.old) (D.state disk.new)) }
{
    if !disk.has_reports()? {
        return Ok(false);
    }
    if disk.has_closed(cycle, true)? {
        return Ok(true);
    }
    disk.has_closed(cycle, false)
}

/// Makes the folder of the closed reports if it is not there, and brings its name to the
/// disk.
fn make_reports<D: Disk>(disk: &mut D) -> Result<(), Reason>
    ensures calm { IsTrue D.told → Calm (D.state disk.old) (D.state disk.new) }
    ensures cause { IsTrue D.told → IfErr result (HasFault (D.state disk.old) (D.state disk.new)) }
{
    if disk.has_reports()? {
        return Ok(());
    }
    disk.create_reports()?;
    disk.sync_folder(StateFile::Folder)
}

impl<D: Disk + Drop> StateFolder for FsState<D> {
    ghost told = { D.told };

    ghost seen = { λ folder. content_of (D.state folder.disk).seen };

    ghost may_leave = { λ folder. Leaves (D.state folder.disk).may_leave };

    ghost moment = { λ folder. (D.state folder.disk).moment };

    ghost left_since = { λ folder t. Leaves ((D.state folder.disk).left_since t) };

    ghost faults = { λ folder. (D.state folder.disk).faults };

    ghost stays = { λ told folder. stays (D.state folder.disk) (D.is_disk told folder.disk) };

    ghost counts_now = { λ told folder.
        counts_now (D.state folder.disk) (D.is_disk told folder.disk) };

    ghost only_now = { λ told folder. only_now (D.state folder.disk) (D.is_disk told folder.disk) };

    fn checkpoint(&mut self) -> Result<Option<Vec<u8>>, FolderTrouble>
        ensures bound { IfOk result (λ found. IfSome found (λ bytes.
            length bytes.items ≤ most_checkpoint)) }
        ensures value { IsTrue D.told → IfOk result (λ found.
            option_map bytes_of found ≡ (content_of (D.state self.old.disk).seen).checkpoint) }
        ensures seen { IsTrue D.told → content_of (D.state self.new.disk).seen
            ≡ content_of (D.state self.old.disk).seen }
        ensures crash { IsTrue D.told → PassesBy self.old self.new (λ folder. D.state folder.disk)
            Same }
        ensures cause { IsTrue D.told → HasCauseOr (HasLong
            (content_of (D.state self.old.disk).seen).checkpoint) (D.state self.old.disk).faults
            (D.state self.new.disk).faults result }
        ensures kept { IfErr result (λ trouble. IsKept self.new.reason trouble) }
        ensures same { OnOk result (self.new.reason ≡ self.old.reason) }
    {
        let found = read_checkpoint(&mut self.disk, StateFile::Checkpoint);
        self.answer(found)
    }

    fn put_checkpoint(&mut self, bytes: &[u8]) -> Result<(), FolderTrouble>
        ensures fits { OnOk result (length bytes.now ≤ most_checkpoint) }
        ensures put { IsTrue D.told → OnOk result (content_of (D.state self.new.disk).seen
            ≡ with_checkpoint bytes.now (content_of (D.state self.old.disk).seen)) }
        ensures durable { IsTrue D.told → OnOk result (Follows (IsPut bytes.now) (Leaves
            (D.state self.old.disk).may_leave) (Leaves (D.state self.new.disk).may_leave)) }
        ensures crash { IsTrue D.told
            → PassesBy self.old self.new (λ folder. D.state folder.disk) (MayPut bytes.now) }
        ensures long { IsTrue D.told → IsLong bytes.now → content_of (D.state self.new.disk).seen
            ≡ content_of (D.state self.old.disk).seen }
        ensures long_crash { IsTrue D.told → IsLong bytes.now
            → PassesBy self.old self.new (λ folder. D.state folder.disk) Same }
        ensures cause { IsTrue D.told → HasCauseOr (IsLong bytes.now)
            (D.state self.old.disk).faults (D.state self.new.disk).faults result }
        ensures kept { IfErr result (λ trouble. IsKept self.new.reason trouble) }
        ensures same { OnOk result (self.new.reason ≡ self.old.reason) }
    {
        let put = replace_checkpoint(&mut self.disk, bytes);
        self.answer(put)
    }

    fn length(&mut self) -> Result<u64, FolderTrouble>
        ensures value { IsTrue D.told → IfOk result (λ n. n ≡ length
            (content_of (D.state self.old.disk).seen).report) }
        ensures seen { IsTrue D.told → content_of (D.state self.new.disk).seen
            ≡ content_of (D.state self.old.disk).seen }
        ensures crash { IsTrue D.told → PassesBy self.old self.new (λ folder. D.state folder.disk)
            Same }
        ensures cause { IsTrue D.told → HasCause (D.state self.old.disk).faults
            (D.state self.new.disk).faults result }
        ensures kept { IfErr result (λ trouble. IsKept self.new.reason trouble) }
        ensures same { OnOk result (self.new.reason ≡ self.old.reason) }
    {
        let length = self.report_length();
        self.answer(length)
    }

    fn read(&mut self, start: u64, buffer: &mut [u8]) -> Result<usize, FolderTrouble>
        ensures bound { IfOk result (λ count. count ≤ length buffer.new) }
        ensures value { IsTrue D.told → IfOk result (λ count. IsReadOf
            (content_of (D.state self.old.disk).seen).report start (take count buffer.new) (length
            buffer.new)) }
        ensures seen { IsTrue D.told → content_of (D.state self.new.disk).seen
            ≡ content_of (D.state self.old.disk).seen }
        ensures crash { IsTrue D.told → PassesBy self.old self.new (λ folder. D.state folder.disk)
            Same }
        ensures cause { IsTrue D.told → HasCause (D.state self.old.disk).faults
            (D.state self.new.disk).faults result }
        ensures kept { IfErr result (λ trouble. IsKept self.new.reason trouble) }
        ensures same { OnOk result (self.new.reason ≡ self.old.reason) }
    {
        let count = self.read_report(start, buffer);
        self.answer(count)
    }

    fn append(&mut self, bytes: &[u8]) -> Result<(), FolderTrouble>
        ensures appended { IsTrue D.told → OnOk result (content_of (D.state self.new.disk).seen
            ≡ with_report ((content_of (D.state self.old.disk).seen).report ++ bytes.now)
            (content_of (D.state self.old.disk).seen)) }
        ensures crash { IsTrue D.told → PassesBy self.old self.new (λ folder. D.state folder.disk)
            (MayTear (length (content_of (D.state self.old.disk).seen).report) (length
            ((content_of (D.state self.old.disk).seen).report ++ bytes.now))) }
        ensures cause { IsTrue D.told → HasCause (D.state self.old.disk).faults
            (D.state self.new.disk).faults result }
        ensures kept { IfErr result (λ trouble. IsKept self.new.reason trouble) }
        ensures same { OnOk result (self.new.reason ≡ self.old.reason) }
    {
        let appended = self.append_to_report(bytes);
        self.answer(appended)
    }

    fn cut(&mut self, most: u64) -> Result<(), FolderTrouble>
        ensures cut { IsTrue D.told → OnOk result (content_of (D.state self.new.disk).seen
            ≡ with_report (take most (content_of (D.state self.old.disk).seen).report)
            (content_of (D.state self.old.disk).seen)) }
        ensures crash { IsTrue D.told
            → PassesBy self.old self.new (λ folder. D.state folder.disk) (MayTear most 0) }
        ensures cause { IsTrue D.told → HasCause (D.state self.old.disk).faults
            (D.state self.new.disk).faults result }
        ensures kept { IfErr result (λ trouble. IsKept self.new.reason trouble) }
        ensures same { OnOk result (self.new.reason ≡ self.old.reason) }
    {
        let cut = self.cut_report(most);
        self.answer(cut)
    }

    fn sync(&mut self) -> Result<(), FolderTrouble>
        ensures durable { IsTrue D.told → OnOk result (Only
            (content_of (D.state self.old.disk).seen) (Leaves (D.state self.new.disk).may_leave)) }
        ensures seen { IsTrue D.told → content_of (D.state self.new.disk).seen
            ≡ content_of (D.state self.old.disk).seen }
        ensures crash { IsTrue D.told → PassesBy self.old self.new (λ folder. D.state folder.disk)
            Same }
        ensures cause { IsTrue D.told → HasCause (D.state self.old.disk).faults
            (D.state self.new.disk).faults result }
        ensures kept { IfErr result (λ trouble. IsKept self.new.reason trouble) }
        ensures same { OnOk result (self.new.reason ≡ self.old.reason) }
    {
        let synced = self.sync_everything();
        self.answer(synced)
    }

    fn has_closed(&mut self, cycle: u64) -> Result<bool, FolderTrouble>
        ensures value { IsTrue D.told → IfOk result (λ answer.
            answer ≡ is_closed (content_of (D.state self.old.disk).seen).closed cycle) }
        ensures seen { IsTrue D.told → content_of (D.state self.new.disk).seen
            ≡ content_of (D.state self.old.disk).seen }
        ensures crash { IsTrue D.told → PassesBy self.old self.new (λ folder. D.state folder.disk)
            Same }
        ensures cause { IsTrue D.told → HasCause (D.state self.old.disk).faults
            (D.state self.new.disk).faults result }
        ensures kept { IfErr result (λ trouble. IsKept self.new.reason trouble) }
        ensures same { OnOk result (self.new.reason ≡ self.old.reason) }
    {
        let found = is_closed(&mut self.disk, cycle);
        self.answer(found)
    }

    fn close(&mut self, cycle: u64, whole: bool) -> Result<(), FolderTrouble>
        ensures closed { IsTrue D.told → OnOk result (content_of (D.state self.new.disk).seen
            ≡ moved cycle whole (content_of (D.state self.old.disk).seen)) }
        ensures durable { IsTrue D.told → OnOk result (Follows (IsMoved cycle whole) (Leaves
            (D.state self.old.disk).may_leave) (Leaves (D.state self.new.disk).may_leave)) }
        ensures crash { IsTrue D.told
            → PassesBy self.old self.new (λ folder. D.state folder.disk) (MayMove cycle whole) }
        ensures taken { IsTrue D.told → result ≡ Err FolderTrouble.Taken
            → content_of (D.state self.new.disk).seen ≡ content_of (D.state self.old.disk).seen }
        ensures cause { IsTrue D.told → ClosesRightly (content_of (D.state self.old.disk).seen)
            cycle (D.state self.old.disk).faults (D.state self.new.disk).faults result }
        ensures kept { IfErr result (λ trouble. (trouble ≡ FolderTrouble.Taken) ⊎ IsKept
            self.new.reason trouble) }
        ensures same { OnOk result (self.new.reason ≡ self.old.reason) }
    {
        if self.has_closed(cycle)? {
            return Err(FolderTrouble::Taken);
        }
        let moved = self.move_report(cycle, whole);
        self.answer(moved)
    }
}
