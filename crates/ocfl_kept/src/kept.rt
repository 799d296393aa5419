//! Whether a closed report is as it was when it was closed.
ghost use Rattle.std.specs.Prelude.{◌≡◌, ◌<◌, ◌^◌, ◌↔◌, IsTrue, IfErr, IfOk, IfSome};
ghost use Rattle.std.specs.{Prelude.{length, string_bytes}, Option.{option_map}};
ghost use Rattle.ocfl_state.specs.{Calls.{bytes_of}, Pieces.{summary_of}};
ghost use Rattle.ocfl_files.specs.Failing.{OrMemory, Says, StopsOn, stopped_status};
ghost use Rattle.ocfl_kept.specs.FilePaths.{list_path as path_of_list, new_list_path as path_of_new_list, packed_path as path_of_packed, part_path as path_of_part, report_path as path_of_report};
ghost use Rattle.ocfl_kept.specs.Keeping.{AreEndsBy, HasMark, IsAsClosed, IsKept, IsRead, IsShort, places_of as places_left, seen_report};
ghost use Rattle.ocfl_kept.specs.Refusing.{no_checkpoint_text};

use crate::digits::SixDigits;
use crate::room::Room;
use crate::state::failed_folder;
use crate::state_dir::Folder;
use ocfl_cursor::{PartEnds, Refused};
use ocfl_disk::OpenReport;
use ocfl_files::failing::Failure;
use ocfl_files::making::failed_file;
use ocfl_messages::Shown;
use ocfl_state::{Checkpoint, Left, ReportCheck, ReportMark, decode_checkpoint};
use ocfl_tree::Place;
use std::alloc::{AllocError, Global};
use std::io;

/// How many cycles back a report is looked for at most.
pub const MOST_BACK: u64 = 1_000;

/// How many bytes of a report are read at once.
const READ_LEN: usize = 16_384;

/// Where no report goes on: 2^63.
const NO_REPORT: u64 = 1 << 63;

/// Whether what was not read yet of a report has this mark. It is read to its end.
fn is_marked<F: Folder>(
    folder: &mut F,
    report: &mut OpenReport,
    mark: &ReportMark,
) -> io::Result<bool>
    ensures { IsTrue F.shown → length (F.unread report.old) < 2 ^ 63 → IfOk result (λ is.
        IsTrue is ↔ (mark.now ≡ summary_of (F.unread report.old))) }
{
    let mut check = ReportCheck::new(mark);
    let mut buffer = [0; READ_LEN];
    let mut start: u64 = 0;
    while start < NO_REPORT {
        let count = folder.read_report(report, &mut buffer)?;
        if count == 0 {
            return Ok(check.is_met());
        }
        check.push(&buffer[..count]);
        start += count as u64;
    }
    Ok(false)
}

/// Opens the closed report of a cycle.
pub fn open_report<F: Folder>(
    alloc: Global,
    folder: &mut F,
    state: &str,
    cycle: u64,
) -> Result<Option<OpenReport>, Failure>
    ensures value { IsTrue F.shown → IfOk result (λ found. option_map (λ report.
        seen_report report.whole (F.bytes report)) found ≡ (F.holding folder.old).reports cycle) }
    ensures unread { IsTrue F.shown → IfOk result (λ found. IfSome found (λ report.
        F.unread report ≡ F.bytes report)) }
    ensures same { IsTrue F.shown → F.holding folder.new ≡ F.holding folder.old }
    ensures failed { IfErr result (λ failure. failure.status ≡ stopped_status) }
{
    match folder.closed_report(cycle) {
        Ok(found) => Ok(found),
        Err(_) => Err(failed_folder(alloc, folder, state)),
    }
}

/// The checkpoint that these bytes are. `None` if they are none any more.
fn checkpoint_of(alloc: Global, bytes: &[u8]) -> Result<Option<Checkpoint>, AllocError>
    ensures { IfOk result (λ found. IsRead bytes.now found) }
{
    match decode_checkpoint(alloc, bytes) {
        Ok(checkpoint) => Ok(Some(checkpoint)),
        Err(Refused::Memory) => Err(AllocError),
        Err(_) => Ok(None),
    }
}

/// The checkpoint that was kept of a closing, by its bytes: `Some(None)` if they are none any more.
fn kept_by(alloc: Global, bytes: Option<Vec<u8>>) -> Result<Option<Option<Checkpoint>>, Failure>
    ensures value { IfOk result (λ kept. IsKept (option_map bytes_of bytes) kept) }
    ensures failed { IfErr result (λ failure. failure.status ≡ stopped_status) }
{
    let Some(bytes) = bytes else {
        return Ok(None);
    };
    Ok(Some(checkpoint_of(alloc, &bytes)?))
}

/// The checkpoint with which the report of a cycle was closed. `None` if it was not kept, and
/// `Some(None)` if what was kept is no checkpoint any more.
pub fn read_kept<F: Folder>(
    alloc: Global,
    folder: &mut F,
    state: &str,
    cycle: u64,
) -> Result<Option<Option<Checkpoint>>, Failure>
    ensures value { IsTrue F.shown → IfOk result (λ kept.
        IsKept ((F.holding folder.old).kept cycle) kept) }
    ensures same { IsTrue F.shown → F.holding folder.new ≡ F.holding folder.old }
    ensures failed { IfErr result (λ failure. failure.status ≡ stopped_status) }
{
    match folder.stored_at_closing(cycle) {
        Ok(bytes) => kept_by(alloc, bytes),
        Err(_) => Err(failed_folder(alloc, folder, state)),
    }
}

/// A closed report, and what was kept of its closing.
#[derive(Drop)]
pub struct ClosedIn {
    pub report: OpenReport,
    /// How many bytes the report has.
    pub bytes: u64,
    /// The checkpoint with which it was closed. `None` if it was not kept, and `Some(None)`
    /// if what was kept is no checkpoint any more.
    pub kept: Option<Option<Checkpoint>>,
}

/// How many bytes an open report of a cycle has.
fn length_of<F: Folder>(
    alloc: Global,
    folder: &mut F,
    state: &str,
    cycle: u64,
    report: &OpenReport,
) -> Result<u64, Failure>
    ensures value { IsTrue F.shown → IfOk result (λ n. n ≡ length (F.bytes report.now)) }
    ensures same { IsTrue F.shown → F.holding folder.new ≡ F.holding folder.old }
    ensures failed { IfErr result (λ failure.
        OrMemory (StopsOn (path_of_report state.now cycle report.now.whole)) failure) }
{
    match folder.report_length(report) {
        Ok(length) => Ok(length),
        Err(error) => Err(failed_report(alloc, state, cycle, report.whole, error)),
    }
}

/// Opens the closed report of a cycle, if it is there, with what was kept of its closing.
pub(crate) fn open_closed<F: Folder>(
    alloc: Global,
    folder: &mut F,
    state: &str,
    cycle: u64,
) -> Result<Option<ClosedIn>, Failure>
    ensures report { IsTrue F.shown → IfOk result (λ found. option_map (λ closed. seen_report
        closed.report.whole (F.bytes closed.report)) found ≡ (F.holding folder.old).reports cycle) }
    ensures bytes { IsTrue F.shown → IfOk result (λ found. IfSome found (λ closed.
        closed.bytes ≡ length (F.bytes closed.report))) }
    ensures kept { IsTrue F.shown → IfOk result (λ found. IfSome found (λ closed.
        IsKept ((F.holding folder.old).kept cycle) closed.kept)) }
{
    let Some(report) = open_report(alloc, folder, state, cycle)? else {
        return Ok(None);
    };
    let bytes = length_of(alloc, folder, state, cycle, &report)?;
    let kept = read_kept(alloc, folder, state, cycle)?;
    Ok(Some(ClosedIn {
        report,
        bytes,
        kept,
    }))
}

/// The bytes of the checkpoint in a state folder, if one is there.
pub(crate) fn read_checkpoint<F: Folder>(
    alloc: Global,
    folder: &mut F,
    state: &str,
) -> Result<Option<Vec<u8>>, Failure>
    ensures value { IsTrue F.shown → IfOk result (λ found.
        option_map bytes_of found ≡ (F.holding folder.old).checkpoint) }
    ensures failed { IfErr result (λ failure. failure.status ≡ stopped_status) }
{
    match folder.stored() {
        Ok(bytes) => Ok(bytes),
        Err(_) => Err(failed_folder(alloc, folder, state)),
    }
}

/// The ends of the part that a state folder is of, by its checkpoint. `None` if it is of a whole
/// storage root. A folder without a checkpoint, or with one that cannot be read, is refused.
pub fn read_ends<F: Folder>(
    alloc: Global,
    folder: &mut F,
    state: &str,
) -> Result<Option<PartEnds>, Failure>
    ensures value { IsTrue F.shown → IfOk result (λ ends.
        AreEndsBy (F.holding folder.old).checkpoint ends) }
    ensures failed { IfErr result (λ failure. failure.status ≡ stopped_status) }
{
    let Some(bytes) = read_checkpoint(alloc, folder, state)? else {
        return Err(no_checkpoint(alloc, state));
    };
    let Some(checkpoint) = checkpoint_of(alloc, &bytes)? else {
        return Err(no_checkpoint(alloc, state));
    };
    Ok(ends_of(&checkpoint)?)
}

/// The place of an end, if there is one.
pub fn place_of(end: &Option<Place>) -> Result<Option<Place>, AllocError>
    ensures { IfOk result (λ place. place ≡ end.now) }
{
    match end {
        Some(place) => Ok(Some(place.try_clone()?)),
        None => Ok(None),
    }
}

/// The ends of the part that a checkpoint is of.
fn ends_of(checkpoint: &Checkpoint) -> Result<Option<PartEnds>, AllocError>
    ensures { IfOk result (λ ends. ends ≡ checkpoint.now.part) }
{
    match &checkpoint.part {
        Some(ends) => Ok(Some(PartEnds {
            from: place_of(&ends.from)?,
            below: place_of(&ends.below)?,
        })),
        None => Ok(None),
    }
}

/// That the checkpoint of a state folder cannot be read.
fn no_checkpoint(alloc: Global, state: &str) -> Failure
    ensures { OrMemory (Says stopped_status (no_checkpoint_text state.now)) result }
{
    Failure::saying(format!(in alloc; "{}: its checkpoint cannot be read\n", Shown(state)))
}

/// The path of the report of a cycle, closed or joined.
pub fn report_path(
    alloc: Global,
    state: &str,
    cycle: u64,
    whole: bool,
) -> Result<String, AllocError>
    ensures { IfOk result (λ path. string_bytes path ≡ path_of_report state.now cycle whole) }
{
    if whole {
        format!(in alloc; "{state}/reports/cycle-{}", SixDigits(cycle))
    } else {
        format!(in alloc; "{state}/reports/incomplete-{}", SixDigits(cycle))
    }
}

/// The path of the state folder of a part.
pub fn part_path(alloc: Global, state: &str, number: usize) -> Result<String, AllocError>
    ensures { IfOk result (λ path. string_bytes path ≡ path_of_part state.now number) }
{
    format!(in alloc; "{state}/part-{}", SixDigits(number as u64))
}

/// The path of the list of what is gone at the end of a cycle.
pub fn list_path(alloc: Global, state: &str, cycle: u64) -> Result<String, AllocError>
    ensures { IfOk result (λ path. string_bytes path ≡ path_of_list state.now cycle) }
{
    format!(in alloc; "{state}/reports/gone-{}", SixDigits(cycle))
}

/// The path of that list while it is written.
pub fn new_list_path(alloc: Global, state: &str, cycle: u64) -> Result<String, AllocError>
    ensures { IfOk result (λ path. string_bytes path ≡ path_of_new_list state.now cycle) }
{
    let mut path = list_path(alloc, state, cycle)?;
    path.push_str(".new")?;
    Ok(path)
}

/// Whether the nights over a folder have said what a closed cycle found: the list of what is gone
/// is put once that was said.
pub fn was_said<R: Room>(rt: &R, state: &str, cycle: u64) -> Result<bool, AllocError>
    ensures { IsTrue R.shown → IfOk result (λ is.
        is ≡ R.there rt.now (path_of_list state.now cycle)) }
{
    let list = list_path(rt.global(), state, cycle)?;
    Ok(rt.has(list.as_str()))
}

/// The path of the report of a cycle, closed or joined, when it is compressed.
fn packed_path(alloc: Global, state: &str, cycle: u64, whole: bool) -> Result<String, AllocError>
    ensures { IfOk result (λ path. string_bytes path ≡ path_of_packed state.now cycle whole) }
{
    let mut path = report_path(alloc, state, cycle, whole)?;
    path.push_str(".gz")?;
    Ok(path)
}

/// Whether the report of a cycle, closed or joined, is there compressed.
pub fn is_packed<R: Room>(rt: &R, state: &str, cycle: u64, whole: bool) -> Result<bool, AllocError>
    ensures { IsTrue R.shown → IfOk result (λ is.
        is ≡ R.there rt.now (path_of_packed state.now cycle whole)) }
{
    let path = packed_path(rt.global(), state, cycle, whole)?;
    Ok(rt.has(path.as_str()))
}

/// That the closed report of a cycle could not be read.
fn failed_report(alloc: Global, state: &str, cycle: u64, whole: bool, error: io::Error) -> Failure
    ensures { OrMemory (StopsOn (path_of_report state.now cycle whole)) result }
{
    match report_path(alloc, state, cycle, whole) {
        Ok(path) => failed_file(alloc, path.as_str(), &error),
        Err(error) => Failure::from(error),
    }
}

/// Whether the closed report of a cycle has this mark. One that is not there counts so.
fn has_mark<F: Folder>(
    alloc: Global,
    folder: &mut F,
    state: &str,
    cycle: u64,
    mark: &ReportMark,
) -> Result<bool, Failure>
    ensures value { IsTrue F.shown → IsShort ((F.holding folder.old).reports cycle)
        → IfOk result (λ is. IsTrue is ↔ HasMark mark.now ((F.holding folder.old).reports cycle)) }
    ensures failed { IfErr result (λ failure. failure.status ≡ stopped_status) }
{
    let Some(mut report) = open_report(alloc, folder, state, cycle)? else {
        return Ok(true);
    };
    match is_marked(folder, &mut report, mark) {
        Ok(is) => Ok(is),
        Err(error) => Err(failed_report(alloc, state, cycle, report.whole, error)),
    }
}

/// Whether the closed report of a cycle has the length, the lines and the digests of the checkpoint
/// with which it was closed. One that is not there counts so, and one without a kept checkpoint.
pub fn is_as_closed<F: Folder>(
    alloc: Global,
    folder: &mut F,
    state: &str,
    cycle: u64,
) -> Result<bool, Failure>
    ensures value { IsTrue F.shown → IsShort ((F.holding folder.old).reports cycle)
        → IfOk result (λ is. IsTrue is ↔ IsAsClosed ((F.holding folder.old).kept cycle)
        ((F.holding folder.old).reports cycle)) }
    ensures failed { IfErr result (λ failure. failure.status ≡ stopped_status) }
{
    let Some(kept) = read_kept(alloc, folder, state, cycle)? else {
        return Ok(true);
    };
    let Some(checkpoint) = kept else {
        return Ok(false);
    };
    has_mark(alloc, folder, state, cycle, &checkpoint.report)
}

/// The places of branches that were left out.
pub fn places_of(alloc: Global, left: &[Left]) -> Result<Vec<Place>, AllocError>
    ensures { IfOk result (λ places. places.items ≡ places_left left.now) }
{
    let mut places = Vec::new(alloc);
    for branch in left {
        places.push(branch.place.try_clone()?)?;
    }
    Ok(places)
}
