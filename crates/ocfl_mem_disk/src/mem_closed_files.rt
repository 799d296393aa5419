//! The files of closed cycles in a state folder in memory.
ghost use Rattle.std.specs.Prelude.{◌≡◌, ◌↔◌, IfOk, IsTrue, Option};
ghost use Rattle.std.specs.{List.{find}, Option.{option_map}};
ghost use Rattle.ocfl_kept.specs.Keeping.{ClosedReport, HasMark, IsShort};
ghost use Rattle.ocfl_closed.specs.Files.{report_named};
ghost use Rattle.ocfl_state.specs.Calls.{bytes_of};
ghost use Rattle.ocfl_mem_disk.specs.Closings.{IsAsClosedIn, IsReportOf, files_of, is_of};
ghost use Rattle.ocfl_mem_disk.specs.Closings.{places_of};

use crate::mem_file::MemFile;
use crate::mem_files::{closed_as, closed_at};
use crate::mem_kept::MemKept;
use ocfl_cursor::PartEnds;
use ocfl_reading::expected::Listed;
use ocfl_state::{ReportCheck, ReportMark};
use ocfl_tree::Place;
use std::alloc::{AllocError, Global};

/// What is in a state folder from the start, of closed cycles.
pub struct MemClosedFiles {
    /// The path of the state folder.
    pub path: String,
    /// Reports, also those that are compressed, and lists of what is gone, by their paths.
    pub files: Vec<MemFile>,
    /// The checkpoints with which reports were closed.
    pub kept: Vec<MemKept>,
    /// The objects that must be there, if they are listed.
    pub expected: Option<Listed>,
    /// The ends of the part that the folder is of, if it is of a part.
    pub ends: Option<PartEnds>,
}

/// Written by hand, so that to let it go is one call wherever that happens.
impl Drop for MemClosedFiles {
    fn drop(self) {
        let MemClosedFiles {
            path: _path,
            files: _files,
            kept: _kept,
            expected: _expected,
            ends: _ends,
        } = self;
    }
}

/// The checkpoint that was kept of the closing of a cycle.
fn kept_at(kept: &[MemKept], cycle: u64) -> Option<&MemKept>
    ensures { option_map (λ one. one.now) result ≡ find (is_of cycle) kept.now }
{
    kept.iter().find(|one| one.cycle == cycle)
}

/// Whether a report with these bytes has a mark. One that is not there counts so.
fn has_mark(mark: &ReportMark, report: &Option<Vec<u8>>) -> bool
    ensures { (seen : Option ClosedReport)
        → IsReportOf seen (option_map bytes_of report.now) → IsShort seen
        → IsTrue result ↔ HasMark mark.now seen }
{
    let Some(report) = report else {
        return true;
    };
    let mut check = ReportCheck::new(mark);
    check.push(report);
    check.is_met()
}

impl MemClosedFiles {
    /// The bytes of the closed report of a cycle, whole or not, if it is there.
    pub(crate) fn report(
        &self,
        alloc: Global,
        cycle: u64,
        whole: bool,
    ) -> Result<Option<Vec<u8>>, AllocError>
        ensures { IfOk result (λ found. option_map bytes_of found
            ≡ report_named (files_of self.now) whole cycle) }
    {
        closed_as(
            alloc,
            self.files.as_slice(),
            self.path.as_str(),
            cycle,
            whole,
        )
    }

    /// Those of the checkpoint that was kept of its closing, if one was.
    pub(crate) fn kept_of(&self, cycle: u64) -> Option<&[u8]>
        ensures { option_map (λ bytes. bytes.now) result ≡ (files_of self.now).kept cycle }
    {
        match kept_at(self.kept.as_slice(), cycle) {
            Some(kept) => Some(kept.bytes.as_slice()),
            None => None,
        }
    }

    /// Whether the closed report of a cycle is as it was closed.
    pub(crate) fn is_as_closed(&self, alloc: Global, cycle: u64) -> Result<bool, AllocError>
        ensures { IfOk result (IsAsClosedIn (files_of self.now) cycle) }
    {
        let Some(kept) = kept_at(self.kept.as_slice(), cycle) else {
            return Ok(true);
        };
        let Some(checkpoint) = &kept.checkpoint else {
            return Ok(false);
        };
        let report = closed_at(alloc, self.files.as_slice(), self.path.as_str(), cycle)?;
        Ok(has_mark(&checkpoint.report, &report))
    }
}

/// The same place, if there is one.
fn copy_place(place: &Option<Place>) -> Result<Option<Place>, AllocError>
    ensures { IfOk result (λ copy. copy ≡ place.now) }
{
    match place {
        Some(place) => Ok(Some(place.try_clone()?)),
        None => Ok(None),
    }
}

/// The same ends, if there are any.
pub(crate) fn copy_ends(ends: &Option<PartEnds>) -> Result<Option<PartEnds>, AllocError>
    ensures { IfOk result (λ copy. copy ≡ ends.now) }
{
    let Some(ends) = ends else {
        return Ok(None);
    };
    let from = copy_place(&ends.from)?;
    let below = copy_place(&ends.below)?;
    Ok(Some(PartEnds { from, below }))
}

/// The same places.
fn copy_places(alloc: Global, places: &[Place]) -> Result<Vec<Place>, AllocError>
    ensures { IfOk result (λ copy. copy.items ≡ places.now) }
{
    let mut copy = Vec::new(alloc);
    for place in places {
        copy.push(place.try_clone()?)?;
    }
    Ok(copy)
}

/// The same list of the objects that must be there, if there is one.
pub(crate) fn copy_listed(
    alloc: Global,
    listed: &Option<Listed>,
) -> Result<Option<Listed>, AllocError>
    ensures { IfOk result (λ copy. places_of copy ≡ places_of listed.now) }
{
    let Some(listed) = listed else {
        return Ok(None);
    };
    let places = copy_places(alloc, listed.places.as_slice())?;
    let digits = listed.digits.clone()?;
    Ok(Some(Listed { places, digits }))
}
