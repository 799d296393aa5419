//! What a joining asks for, over the calls of the system that are made for it.
ghost use Rattle.std.specs.Prelude.{◌≡◌, ◌⊎◌, Bool, IsTrue, IfErr, IfOk, IsSome, MatchResult, OnErr, OnOk};
ghost use Rattle.std.specs.Prelude.{ℕ, Some, false, is_some, length, string_bytes};
ghost use Rattle.ocfl_report.specs.Text.{escape};
ghost use Rattle.ocfl_disk.specs.Disk.{Calm, ClosesOver, Makes, has_name};
ghost use Rattle.ocfl_disk.specs.Names.{report_of};
ghost use Rattle.ocfl_disk.specs.declared.state_file.StateFile.TheVariants.{Report as TheReport};
ghost use Rattle.ocfl_files.specs.Failing.{OrMemory, StopsOn};
ghost use Rattle.ocfl_join_disk.specs.Shown.{HasSureNames, text_in};
ghost use Rattle.ocfl_joining.specs.Facts.{counted_with};
ghost use Rattle.ocfl_kept.specs.FilePaths.{list_path as path_of_list, part_path as path_of_part, report_path as path_of_report};
ghost use Rattle.ocfl_part_folders.specs.Counting.{counts_in};
ghost use Rattle.ocfl_part_folders.specs.Folder.{found_in, new_path as path_of_new, runs_of, word_of};
ghost use Rattle.ocfl_part_folders.specs.Refusing.{SaysUnjoined};

use crate::calls::PartCalls;
use crate::counting::counts_of;
use crate::failing::{gone, unjoined};
use crate::paths::{new_path, packed_path, reports_path, shown};
use ocfl_files::failing::Failure;
use ocfl_files::making::failed_file;
use ocfl_joining::{FoundReport, RunCount};
use ocfl_kept::kept::{list_path, part_path, report_path};
use ocfl_messages::{Counts, Joined, joined_text};
use std::alloc::AllocError;
use std::io;

/// The path of the folder of a part.
pub(crate) fn part_of<C: PartCalls>(calls: &C, number: usize) -> Result<String, AllocError>
    ensures { IsTrue C.told → IfOk result (λ path.
        string_bytes path ≡ path_of_part (C.folder calls.now).path number) }
{
    part_path(calls.global(), calls.path(), number)
}

/// The path of the joined report of a cycle.
fn path_of<C: PartCalls>(calls: &C, cycle: u64, whole: bool) -> Result<String, AllocError>
    ensures { IsTrue C.told → IfOk result (λ path.
        string_bytes path ≡ path_of_report (C.folder calls.now).path cycle whole) }
{
    report_path(calls.global(), calls.path(), cycle, whole)
}

/// The path of the file in which it is made.
fn made_path<C: PartCalls>(calls: &C, cycle: u64) -> Result<String, AllocError>
    ensures { IsTrue C.told → IfOk result (λ path.
        string_bytes path ≡ path_of_new (C.folder calls.now).path cycle) }
{
    new_path(calls.global(), calls.path(), cycle)
}

/// What is said of a joined report that was not opened.
fn unopened<C: PartCalls>(calls: &C, cycle: u64, whole: bool, error: io::Error) -> Failure
    ensures { IsTrue C.told
        → OrMemory (StopsOn (path_of_report (C.folder calls.now).path cycle whole)) result }
{
    match path_of(calls, cycle, whole) {
        Ok(path) => failed_file(calls.global(), path.as_str(), &error),
        Err(error) => Failure::from(error),
    }
}

/// What is said of a file in place of the joined report of a cycle that is not that, or was not
/// read.
pub(crate) fn unjoined_at<C: PartCalls>(
    calls: &C,
    cycle: u64,
    whole: bool,
    error: &Option<io::Error>,
) -> Failure
    ensures { IsTrue C.told
        → SaysUnjoined (path_of_report (C.folder calls.now).path cycle whole) error.now result }
{
    match path_of(calls, cycle, whole) {
        Ok(path) => unjoined(calls.global(), path.as_str(), error),
        Err(error) => Failure::from(error),
    }
}

/// What is said of a call on the file in which a joined report is made.
pub(crate) fn unmade<C: PartCalls>(calls: &C, cycle: u64, error: io::Error) -> Failure
    ensures { IsTrue C.told
        → OrMemory (StopsOn (path_of_new (C.folder calls.now).path cycle)) result }
{
    match made_path(calls, cycle) {
        Ok(path) => failed_file(calls.global(), path.as_str(), &error),
        Err(error) => Failure::from(error),
    }
}

/// How the path of the joined report of a cycle is shown.
pub(crate) fn shown_path<C: PartCalls>(
    calls: &C,
    cycle: u64,
    whole: bool,
) -> Result<String, AllocError>
    ensures { IsTrue C.told → IfOk result (λ text. string_bytes text
        ≡ escape (path_of_report (C.folder calls.now).path cycle whole)) }
{
    let path = path_of(calls, cycle, whole)?;
    shown(calls.global(), path.as_str())
}

/// Whether a joined report of a cycle is there, whole or not.
pub(crate) fn has_joined<C: PartCalls>(
    calls: &mut C,
    cycle: u64,
    whole: bool,
) -> Result<bool, AllocError>
    ensures value { IsTrue C.told → IfOk result (λ is.
        is ≡ has_name cycle whole (C.disk calls.old).seen.names.closed) }
    ensures folder { IsTrue C.told → C.folder calls.new ≡ C.folder calls.old }
    ensures calm { IsTrue C.told → Calm (C.disk calls.old) (C.disk calls.new) }
{
    let path = path_of(calls, cycle, whole)?;
    calls.has(path.as_str())
}

/// Whether a joined report of a cycle, whole or not, is there compressed.
pub(crate) fn is_packed<C: PartCalls>(
    calls: &mut C,
    cycle: u64,
    whole: bool,
) -> Result<bool, AllocError>
    ensures value { IsTrue C.told → IfOk result (λ is.
        is ≡ (C.folder calls.old).packed cycle whole) }
    ensures folder { IsTrue C.told → C.folder calls.new ≡ C.folder calls.old }
    ensures calm { IsTrue C.told → Calm (C.disk calls.old) (C.disk calls.new) }
{
    let path = packed_path(calls.global(), calls.path(), cycle, whole)?;
    calls.has(path.as_str())
}

/// Whether a part has said what its closed report of a cycle found.
pub(crate) fn has_said<C: PartCalls>(
    calls: &mut C,
    cycle: u64,
    number: usize,
) -> Result<bool, AllocError>
    ensures value { IsTrue C.told → IfOk result (λ is.
        is ≡ (C.folder calls.old).has_said cycle number) }
    ensures folder { IsTrue C.told → C.folder calls.new ≡ C.folder calls.old }
    ensures calm { IsTrue C.told → Calm (C.disk calls.old) (C.disk calls.new) }
{
    let part = part_of(calls, number)?;
    let path = list_path(calls.global(), part.as_str(), cycle)?;
    calls.has(path.as_str())
}

/// Whether a part has a closed report of a cycle that is whole, or one that is not.
fn has_report<C: PartCalls>(
    calls: &mut C,
    cycle: u64,
    number: usize,
    whole: bool,
) -> Result<bool, AllocError>
    ensures value { IsTrue C.told → IfOk result (λ is.
        is ≡ is_some ((C.folder calls.old).closed cycle number whole)) }
    ensures folder { IsTrue C.told → C.folder calls.new ≡ C.folder calls.old }
    ensures calm { IsTrue C.told → Calm (C.disk calls.old) (C.disk calls.new) }
{
    let part = part_of(calls, number)?;
    let path = report_path(calls.global(), part.as_str(), cycle, whole)?;
    calls.has(path.as_str())
}

/// Whether a part has a closed report of a cycle.
pub(crate) fn has_closed<C: PartCalls>(
    calls: &mut C,
    cycle: u64,
    number: usize,
) -> Result<bool, AllocError>
    ensures value { IsTrue C.told → IfOk result (λ is.
        is ≡ is_some (found_in (C.folder calls.old) cycle number)) }
    ensures folder { IsTrue C.told → C.folder calls.new ≡ C.folder calls.old }
    ensures calm { IsTrue C.told → Calm (C.disk calls.old) (C.disk calls.new) }
{
    if has_report(calls, cycle, number, true)? {
        return Ok(true);
    }
    has_report(calls, cycle, number, false)
}

/// The closed report of a part, if it is there, with what was kept at its closing.
pub(crate) fn find_closed<C: PartCalls>(
    calls: &mut C,
    cycle: u64,
    number: usize,
) -> Result<Option<FoundReport>, Failure>
    ensures found { IsTrue C.told → IfOk result (λ found.
        found ≡ found_in (C.folder calls.old) cycle number) }
    ensures folder { IsTrue C.told → C.folder calls.new ≡ C.folder calls.old }
    ensures calm { IsTrue C.told → Calm (C.disk calls.old) (C.disk calls.new) }
{
    let path = part_of(calls, number)?;
    calls.closed_in(path.as_str(), cycle)
}

/// Opens the joined report of a cycle.
pub(crate) fn open_joined<C: PartCalls>(
    calls: &mut C,
    cycle: u64,
    whole: bool,
) -> Result<C::Report, Failure>
    ensures bytes { IsTrue C.told → IfOk result (λ report. C.Report.remaining report
        ≡ text_in cycle whole (C.disk calls.old).seen) }
    ensures there { IsTrue C.told → OnOk result
        (IsSome (text_in cycle whole (C.disk calls.old).seen)) }
    ensures folder { IsTrue C.told → C.folder calls.new ≡ C.folder calls.old }
    ensures calm { IsTrue C.told → Calm (C.disk calls.old) (C.disk calls.new) }
{
    let path = path_of(calls, cycle, whole)?;
    match calls.open(path.as_str()) {
        Ok(report) => Ok(report),
        Err(error) => Err(unopened(calls, cycle, whole, error)),
    }
}

/// Makes the file of the joined report of a cycle, and the folder that it is in.
pub(crate) fn make<C: PartCalls>(calls: &mut C, cycle: u64) -> Result<C::Made, Failure>
    ensures made { IsTrue C.told → MatchResult result
        (λ file. Makes TheReport (C.number file) (C.disk calls.old) (C.disk calls.new))
        (λ _. Calm (C.disk calls.old) (C.disk calls.new)) }
    ensures folder { IsTrue C.told → C.folder calls.new ≡ C.folder calls.old }
{
    let reports = reports_path(calls.global(), calls.path())?;
    let path = made_path(calls, cycle)?;
    calls.make_folder(reports.as_str())?;
    calls.make(path.as_str())
}

/// Gives what was made the name of the joined report of a cycle.
pub(crate) fn name_made<C: PartCalls>(calls: &mut C, cycle: u64, whole: bool) -> Result<(), Failure>
    ensures closes { IsTrue C.told
        → has_name cycle whole (C.disk calls.old).seen.names.closed ≡ false
        → ((file : ℕ) → (C.disk calls.old).seen.names.report ≡ Some file
        → IsTrue ((C.disk calls.old).is_synced file))
        → MatchResult result
        (λ _. ClosesOver cycle whole (C.disk calls.old) (C.disk calls.new))
        (λ _. Calm (C.disk calls.old) (C.disk calls.new)
        ⊎ ClosesOver cycle whole (C.disk calls.old) (C.disk calls.new)) }
    ensures folder { IsTrue C.told → C.folder calls.new ≡ C.folder calls.old }
{
    let made = made_path(calls, cycle)?;
    let path = path_of(calls, cycle, whole)?;
    calls.put(made.as_str(), path.as_str())
}

/// Brings the names in the folder of the joined reports to the disk.
pub(crate) fn sync_reports<C: PartCalls>(calls: &mut C) -> Result<(), Failure>
    ensures names { IsTrue C.told → OnOk result (HasSureNames (C.disk calls.new)) }
    ensures folder { IsTrue C.told → C.folder calls.new ≡ C.folder calls.old }
    ensures calm { IsTrue C.told → Calm (C.disk calls.old) (C.disk calls.new) }
{
    let path = reports_path(calls.global(), calls.path())?;
    match calls.sync_folder(path.as_str()) {
        Ok(()) => Ok(()),
        Err(error) => Err(failed_file(calls.global(), path.as_str(), &error)),
    }
}

/// With one more part, how many runs parts had in a cycle.
fn add_part<C: PartCalls>(
    calls: &mut C,
    runs: RunCount,
    cycle: u64,
    number: usize,
) -> Result<RunCount, Failure>
    ensures runs { IsTrue C.told → IfOk result (λ count.
        count ≡ counted_with runs cycle ((C.folder calls.old).kept cycle number)) }
    ensures folder { IsTrue C.told → C.folder calls.new ≡ C.folder calls.old }
    ensures calm { IsTrue C.told → Calm (C.disk calls.old) (C.disk calls.new) }
{
    match find_closed(calls, cycle, number)? {
        Some(found) => Ok(runs.with(cycle, &found.kept)),
        None => Err(gone(calls.global())),
    }
}

/// How many runs so many parts had in a cycle, by what was kept when their reports were closed.
fn count_runs<C: PartCalls>(calls: &mut C, parts: usize, cycle: u64) -> Result<RunCount, Failure>
    ensures runs { IsTrue C.told → IfOk result (λ runs.
        runs ≡ runs_of ((C.folder calls.old).kept cycle) cycle parts) }
    ensures folder { IsTrue C.told → C.folder calls.new ≡ C.folder calls.old }
    ensures calm { IsTrue C.told → Calm (C.disk calls.old) (C.disk calls.new) }
{
    let mut runs = RunCount::new();
    for index in 0..parts {
        runs = add_part(calls, runs, cycle, index + 1)?;
    }
    Ok(runs)
}

/// What the file at a path counts in which a joined report is made.
fn count_in<C: PartCalls>(calls: &mut C, path: &str) -> io::Result<Counts>
    ensures counts { IsTrue C.told → (cycle : ℕ)
        → path.now ≡ path_of_new (C.folder calls.old).path cycle → IfOk result (λ counts. counts
        ≡ counts_in (report_of (C.disk calls.old).seen.bytes
        (C.disk calls.old).seen.names.report)) }
    ensures folder { IsTrue C.told → C.folder calls.new ≡ C.folder calls.old }
    ensures calm { IsTrue C.told → Calm (C.disk calls.old) (C.disk calls.new) }
{
    let mut report = calls.open(path)?;
    counts_of(calls.global(), &mut report)
}

/// What the joined report of a cycle counts that is made.
fn count_made<C: PartCalls>(calls: &mut C, cycle: u64) -> Result<Counts, Failure>
    ensures counts { IsTrue C.told → IfOk result (λ counts. counts
        ≡ counts_in (report_of (C.disk calls.old).seen.bytes
        (C.disk calls.old).seen.names.report)) }
    ensures folder { IsTrue C.told → C.folder calls.new ≡ C.folder calls.old }
    ensures calm { IsTrue C.told → Calm (C.disk calls.old) (C.disk calls.new) }
{
    let path = made_path(calls, cycle)?;
    match count_in(calls, path.as_str()) {
        Ok(counts) => Ok(counts),
        Err(error) => Err(unmade(calls, cycle, error)),
    }
}

/// The word at the end of a cycle of so many parts, on the report that was made of theirs.
pub(crate) fn word_on<C: PartCalls>(
    calls: &mut C,
    parts: usize,
    cycle: u64,
    whole: bool,
) -> Result<Vec<u8>, Failure>
    ensures word { IsTrue C.told → IfOk result (λ word. word.items
        ≡ word_of (C.folder calls.old) parts cycle whole
        (counts_in (report_of (C.disk calls.old).seen.bytes
        (C.disk calls.old).seen.names.report))) }
    ensures folder { IsTrue C.told → C.folder calls.new ≡ C.folder calls.old }
    ensures calm { IsTrue C.told → Calm (C.disk calls.old) (C.disk calls.new) }
{
    let path = path_of(calls, cycle, whole)?;
    let counts = count_made(calls, cycle)?;
    let runs = count_runs(calls, parts, cycle)?.known();
    let joined = Joined {
        cycle,
        whole,
        report: path.as_str(),
        counts,
        runs,
    };
    let text = joined_text(calls.global(), &joined)?;
    Ok(Vec::from_slice(calls.global(), text.as_bytes())?)
}
