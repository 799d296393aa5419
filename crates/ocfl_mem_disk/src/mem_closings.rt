//! The calls of closings in a state folder in memory.
ghost use Rattle.std.specs.Prelude.{◌≡◌, ◌<◌, ℕ, [], true, None, Some, IfOk, IfSome, option_map};
ghost use Rattle.std.specs.Prelude.{string_bytes};
ghost use Rattle.ocfl_state.specs.Calls.{bytes_of};
ghost use Rattle.ocfl_kept.specs.FilePaths.{list_path as path_of_list};
ghost use Rattle.ocfl_mem_disk.specs.Closings.{room_of, state_of};

use crate::gone_lists::{gone_digits, list_after, put, sync, sync_names, write};
use crate::joined_path::number_in;
use crate::mem_closed_files::{MemClosedFiles, copy_ends, copy_listed};
use crate::mem_closed_report::{MemClosedReport, opened};
use crate::mem_faults::MemFaults;
use crate::mem_files::{copied, has_file, text_at};
use crate::mem_list_call::MemListCall;
use crate::mem_note::MemNote;
use ocfl_closing::ClosingCalls;
use ocfl_cursor::PartEnds;
use ocfl_files::failing::Failure;
use ocfl_kept::kept::list_path;
use ocfl_reading::expected::Listed;
use std::alloc::{AllocError, Global};
use std::io::{BufRead, Cursor};

/// The time that it always is, in seconds since the epoch.
const NOW: u64 = 1_767_225_600;

/// The calls of closings in a state folder in memory: what is there from the start, which stays,
/// and the log of the calls on lists of what is gone. They tell what is there, and what a power cut
/// may leave of it: the most that the calls allow.
pub struct MemClosingCalls {
    alloc: Global,
    closed: MemClosedFiles,
    calls: Vec<MemListCall>,
    /// Whether a list was made that was not put yet.
    made: bool,
    log: Vec<u8>,
    noted: Vec<MemNote>,
    faults: MemFaults,
}

/// Written by hand, so that to let it go is one call wherever that happens.
impl Drop for MemClosingCalls {
    fn drop(self) {
        let MemClosingCalls {
            alloc: _alloc,
            closed: _closed,
            calls: _calls,
            made: _made,
            log: _log,
            noted: _noted,
            faults: _faults,
        } = self;
    }
}

/// Rows that are read from these bytes, if there are any.
fn rows_of(bytes: Option<Vec<u8>>) -> Option<Cursor<Vec<u8>>>
    ensures { option_map (λ rows. ⟦<Cursor<Vec<u8>> as BufRead>⟧.remaining rows) result
        ≡ option_map (λ b. Some b.items) bytes }
{
    match bytes {
        Some(bytes) => Some(Cursor::new(bytes)),
        None => None,
    }
}

impl MemClosingCalls {
    /// A folder in which this is, with an empty log. Nothing was said, and no call fails.
    pub fn new(alloc: Global, closed: MemClosedFiles) -> MemClosingCalls
        ensures closed { result.closed ≡ closed }
        ensures calls { result.calls.items ≡ [] }
        ensures log { result.log.items ≡ [] }
        ensures noted { result.noted.items ≡ [] }
        ensures faults { result.faults.count ≡ 0 }
        ensures due { result.faults.due ≡ None }
    {
        let (calls, log, noted) = (Vec::new(alloc), Vec::new(alloc), Vec::new(alloc));
        MemClosingCalls {
            alloc,
            closed,
            calls,
            made: false,
            log,
            noted,
            faults: MemFaults::none(),
        }
    }

    /// Of the following calls the one of this number, counted from 1, fails and does nothing. A
    /// later plan takes the place of this one.
    pub fn fail_call(&mut self, number: u64)
        requires { 0 < number }
        ensures closed { self.new.closed ≡ self.old.closed }
        ensures calls { self.new.calls ≡ self.old.calls }
        ensures log { self.new.log ≡ self.old.log }
        ensures noted { self.new.noted ≡ self.old.noted }
        ensures faults { self.new.faults.count ≡ self.old.faults.count }
        ensures due { self.new.faults.due ≡ Some number }
    {
        self.faults.plan(number);
    }

    /// How often a call has failed.
    pub fn faults(&self) -> u64
        ensures { result ≡ self.now.faults.count }
    {
        self.faults.count
    }

    /// What the log has.
    pub fn log(&self) -> &[u8]
        ensures { result.now ≡ self.now.log.items }
    {
        self.log.as_slice()
    }

    /// What was said to have failed.
    pub fn noted(&self) -> &[MemNote]
        ensures { result.now ≡ self.now.noted.items }
    {
        self.noted.as_slice()
    }

    /// The cycle whose list of what is gone has a path, if it is that of one.
    fn cycle_of(&self, path: &str) -> Option<u64>
        ensures { IfSome result (λ found. (cycle : ℕ)
            → path.now ≡ path_of_list (string_bytes self.now.closed.path) cycle → found ≡ cycle) }
    {
        number_in(gone_digits(self.closed.path.as_str(), path)?)
    }

    /// The list of what is gone that has a path, which is that of the list of a cycle.
    fn list_at(&self, path: &str, cycle: u64) -> Option<&[u8]>
        ensures { path.now ≡ path_of_list (string_bytes self.now.closed.path) cycle
            → option_map (λ list. list.now) result
            ≡ (state_of self.now.closed self.now.calls.items).files.lists cycle }
    {
        let start = text_at(self.closed.files.as_slice(), path);
        list_after(self.calls.as_slice(), cycle, start)
    }

    /// The list of what is gone at the end of a cycle, if it is there.
    pub fn list(&self, cycle: u64) -> Result<Option<&[u8]>, AllocError>
        ensures { IfOk result (λ found. option_map (λ list. list.now) found
            ≡ (state_of self.now.closed self.now.calls.items).files.lists cycle) }
    {
        let path = list_path(self.alloc, self.closed.path.as_str(), cycle)?;
        Ok(self.list_at(path.as_str(), cycle))
    }
}

impl ClosingCalls for MemClosingCalls {
    type Report = MemClosedReport;

    type List = Vec<u8>;

    type Rows = Cursor<Vec<u8>>;

    ghost told = { true };

    ghost room = { λ m. room_of m.closed m.log.items m.noted.items };

    ghost state = { λ m. state_of m.closed m.calls.items };

    ghost faults = { λ m. m.faults.count };

    ghost use Rattle.ocfl_mem_disk.specs.AfterClosings.{is_disk_after, is_listed_after};

    ghost reports = { λ told. told };

    ghost is_disk = { λ told m. is_disk_after m.closed m.calls.items };

    ghost is_listed = { λ told m. is_listed_after m.closed m.calls.items };

    fn global(&self) -> Global {
        self.alloc
    }

    fn path(&self) -> &str {
        self.closed.path.as_str()
    }

    fn seconds(&self) -> u64 {
        NOW
    }

    fn has(&mut self, path: &str) -> Result<bool, AllocError> {
        if self.faults.begin(self.alloc).is_err() {
            return Err(AllocError);
        }
        let Some(digits) = gone_digits(self.closed.path.as_str(), path) else {
            return Ok(has_file(self.closed.files.as_slice(), path));
        };
        match number_in(digits) {
            Some(cycle) => Ok(self.list_at(path, cycle).is_some()),
            None => Err(AllocError),
        }
    }

    fn open_report(&mut self, cycle: u64, whole: bool) -> Result<Option<MemClosedReport>, Failure> {
        self.faults.begin(self.alloc)?;
        let bytes = self.closed.report(self.alloc, cycle, whole)?;
        Ok(opened(bytes)?)
    }

    fn kept(&mut self, cycle: u64) -> Result<Option<Vec<u8>>, Failure> {
        self.faults.begin(self.alloc)?;
        Ok(copied(self.alloc, self.closed.kept_of(cycle))?)
    }

    fn is_as_closed(&mut self, cycle: u64) -> Result<bool, Failure> {
        self.faults.begin(self.alloc)?;
        Ok(self.closed.is_as_closed(self.alloc, cycle)?)
    }

    fn ends(&mut self) -> Result<Option<PartEnds>, Failure> {
        self.faults.begin(self.alloc)?;
        Ok(copy_ends(&self.closed.ends)?)
    }

    fn read_expected(&mut self) -> Result<Option<Listed>, Failure> {
        self.faults.begin(self.alloc)?;
        Ok(copy_listed(self.alloc, &self.closed.expected)?)
    }

    fn open_rows(&mut self, path: &str) -> Result<Option<Cursor<Vec<u8>>>, Failure> {
        self.faults.begin(self.alloc)?;
        let Some(cycle) = self.cycle_of(path) else {
            return Err(Failure::from(AllocError));
        };
        let found = copied(self.alloc, self.list_at(path, cycle))?;
        Ok(rows_of(found))
    }

    fn make(&mut self, _path: &str) -> Result<Vec<u8>, Failure> {
        self.faults.begin(self.alloc)?;
        write(&mut self.calls, Vec::new(self.alloc))?;
        self.made = true;
        Ok(Vec::new(self.alloc))
    }

    fn end(&mut self, list: &Vec<u8>) -> Result<(), Failure> {
        self.faults.begin(self.alloc)?;
        let bytes = list.to_vec(self.alloc)?;
        Ok(write(&mut self.calls, bytes)?)
    }

    fn sync_made(&mut self) -> Result<(), Failure> {
        self.faults.begin(self.alloc)?;
        if !self.made {
            return Err(self.faults.fail(self.alloc));
        }
        Ok(sync(&mut self.calls)?)
    }

    fn put_made(&mut self, path: &str) -> Result<(), Failure> {
        self.faults.begin(self.alloc)?;
        if !self.made {
            return Err(self.faults.fail(self.alloc));
        }
        let Some(cycle) = self.cycle_of(path) else {
            return Err(Failure::from(AllocError));
        };
        put(&mut self.calls, cycle)?;
        self.made = false;
        Ok(())
    }

    fn remove_made(&mut self) {
        if !self.faults.is_due() {
            let _ = write(&mut self.calls, Vec::new(self.alloc));
            self.made = false;
        }
    }

    fn sync_folder(&mut self, _path: &str) -> Result<(), Failure> {
        self.faults.begin(self.alloc)?;
        Ok(sync_names(&mut self.calls)?)
    }

    fn add_to_log(&mut self, line: &[u8]) -> Result<(), Failure> {
        self.faults.begin(self.alloc)?;
        Ok(self.log.extend_from_slice(line)?)
    }

    fn say(&mut self, failure: &Failure) -> Result<(), AllocError> {
        self.noted.push(MemNote::of(self.alloc, failure)?)?;
        Ok(())
    }
}
