//! What closings ask for, over the calls that are made for it.
ghost use Rattle.std.specs.Prelude.{◌≡◌, ◌⊎◌, ◌≤◌, ℕ, IsTrue, [], IfErr, IfOk, IsOk};
ghost use Rattle.std.specs.Prelude.{MatchResult, OnOk, Some, string_bytes};
ghost use Rattle.std.specs.Io.KnownBytes.{Appends};
ghost use Rattle.std.specs.Option.{option_map};
ghost use Rattle.ocfl_tree.specs.Place.{Text};
ghost use Rattle.ocfl_accounts.specs.Kept.{is_some};
ghost use Rattle.ocfl_kept.specs.FilePaths.{list_path as path_of_list};
ghost use Rattle.ocfl_kept.specs.Keeping.{IsAsClosed, IsShort};
ghost use Rattle.ocfl_files.specs.Failing.{stopped_status};
ghost use Rattle.ocfl_closed.specs.Cut.{AreNamed, Calm, Names, Still};
ghost use Rattle.ocfl_closed.specs.Files.{report_named};
ghost use Rattle.ocfl_closing.specs.{Listing.{places_in}, Logging.{IsLineOf}, Naming.{ArePaths}};
ghost use Rattle.ocfl_closing.specs.Calls.{HasFault, report_in, with_log};

use crate::calls::ClosingCalls;
use crate::comparing::changed_report;
use crate::logging::closing_line;
use crate::naming::{packed_path, paths_of, reports_path};
use crate::report::NamedReport;
use ocfl_accounts::Pair;
use ocfl_closed::{Account, Paths, compared};
use ocfl_files::failing::Failure;
use ocfl_kept::kept::{list_path, new_list_path};
use ocfl_reading::expected::Listed;
use std::alloc::AllocError;

/// The path of the list of what is gone at the end of a cycle.
fn list_of<C: ClosingCalls>(calls: &C, cycle: u64) -> Result<String, AllocError>
    ensures { IsTrue C.told → IfOk result (λ path.
        string_bytes path ≡ path_of_list (C.room calls.now).path cycle) }
{
    list_path(calls.global(), calls.path(), cycle)
}

/// Whether the list of what is gone at the end of a cycle is there.
pub(crate) fn has_list<C: ClosingCalls>(calls: &mut C, cycle: u64) -> Result<bool, AllocError>
    ensures room { IsTrue C.told → C.room calls.new ≡ C.room calls.old }
    ensures still { IsTrue C.told → Still (C.state calls.old) (C.state calls.new) }
    ensures faults { IsTrue C.told → C.faults calls.old ≤ C.faults calls.new }
    ensures value { IsTrue C.told → IfOk result (λ is.
        is ≡ is_some ((C.state calls.old).files.lists cycle)) }
{
    let path = list_of(calls, cycle)?;
    calls.has(path.as_str())
}

/// Whether the report of a cycle that is not whole is there compressed.
pub(crate) fn has_packed<C: ClosingCalls>(calls: &mut C, cycle: u64) -> Result<bool, AllocError>
    ensures room { IsTrue C.told → C.room calls.new ≡ C.room calls.old }
    ensures still { IsTrue C.told → Still (C.state calls.old) (C.state calls.new) }
    ensures faults { IsTrue C.told → C.faults calls.old ≤ C.faults calls.new }
    ensures value { IsTrue C.told → IfOk result (λ is.
        is ≡ (C.state calls.old).files.packed cycle) }
{
    let path = packed_path(calls.global(), calls.path(), cycle)?;
    calls.has(path.as_str())
}

/// Opens the list of what is gone at the end of a cycle. `None` if no list is there.
pub(crate) fn open_list<C: ClosingCalls>(
    calls: &mut C,
    cycle: u64,
) -> Result<Option<C::Rows>, Failure>
    ensures room { IsTrue C.told → C.room calls.new ≡ C.room calls.old }
    ensures still { IsTrue C.told → Still (C.state calls.old) (C.state calls.new) }
    ensures value { IsTrue C.told → IfOk result (λ found. option_map C.Rows.remaining found
        ≡ option_map Some ((C.state calls.old).files.lists cycle)) }
    ensures fault { IsTrue C.told → HasFault (C.faults calls.old) (C.faults calls.new) result }
{
    let path = list_of(calls, cycle)?;
    calls.open_rows(path.as_str())
}

/// Opens the closed report of a cycle that has the name of a whole one, or of one that is not.
/// `None` if nothing has that name.
pub(crate) fn open_named<C: ClosingCalls>(
    calls: &mut C,
    cycle: u64,
    whole: bool,
) -> Result<Option<NamedReport<C::Report>>, Failure>
    ensures room { IsTrue C.told → C.room calls.new ≡ C.room calls.old }
    ensures still { IsTrue C.told → Still (C.state calls.old) (C.state calls.new) }
    ensures value { IsTrue C.told → IfOk result (λ found.
        option_map (λ named. C.Report.bytes named.report) found
        ≡ report_named (C.state calls.old).files whole cycle) }
    ensures fault { IsTrue C.told → HasFault (C.faults calls.old) (C.faults calls.new) result }
{
    match calls.open_report(cycle, whole)? {
        Some(report) => Ok(Some(NamedReport {
            report,
            cycle,
            whole,
        })),
        None => Ok(None),
    }
}

/// Those of the objects on a list that are in the part of the state folder: all of them, if it is
/// of a whole storage root.
fn of_part<C: ClosingCalls>(calls: &mut C, listed: Listed) -> Result<Listed, Failure>
    ensures room { IsTrue C.told → C.room calls.new ≡ C.room calls.old }
    ensures still { IsTrue C.told → Still (C.state calls.old) (C.state calls.new) }
    ensures places { IsTrue C.told → IfOk result (λ within.
        within.places.items ≡ places_in (C.room calls.old).ends listed.places.items) }
    ensures digits { IfOk result (λ within. within.digits ≡ listed.digits) }
    ensures fault { IsTrue C.told → HasFault (C.faults calls.old) (C.faults calls.new) result }
{
    match calls.ends()? {
        Some(ends) => Ok(listed.within(calls.global(), &ends)?),
        None => Ok(listed),
    }
}

/// The objects that must be there: those of the list that are in the part of the state folder.
/// `None` if they are not listed.
pub(crate) fn read_list<C: ClosingCalls>(calls: &mut C) -> Result<Option<Listed>, Failure>
    ensures room { IsTrue C.told → C.room calls.new ≡ C.room calls.old }
    ensures still { IsTrue C.told → Still (C.state calls.old) (C.state calls.new) }
    ensures value { IsTrue C.told → IfOk result (λ found.
        option_map (λ listed. listed.places.items) found ≡ (C.state calls.old).files.listed) }
    ensures fault { IsTrue C.told → HasFault (C.faults calls.old) (C.faults calls.new) result }
{
    match calls.read_expected()? {
        Some(listed) => Ok(Some(of_part(calls, listed)?)),
        None => Ok(None),
    }
}

/// Makes the list of what is gone at the end of a cycle, empty, beside where it is to be.
pub(crate) fn make_list<C: ClosingCalls>(calls: &mut C, cycle: u64) -> Result<C::List, Failure>
    ensures room { IsTrue C.told → C.room calls.new ≡ C.room calls.old }
    ensures calm { IsTrue C.told → Calm (C.state calls.old) (C.state calls.new) }
    ensures empty { IsTrue C.told → IfOk result (λ list. C.List.contents list ≡ Some []) }
    ensures fault { IsTrue C.told → HasFault (C.faults calls.old) (C.faults calls.new) result }
{
    let path = new_list_path(calls.global(), calls.path(), cycle)?;
    calls.make(path.as_str())
}

/// Gives the list that was made last the name of the list of a cycle, in place of what has it.
pub(crate) fn name_list<C: ClosingCalls>(calls: &mut C, cycle: u64) -> Result<(), Failure>
    ensures room { IsTrue C.told → C.room calls.new ≡ C.room calls.old }
    ensures names { IsTrue C.told → IsTrue (C.state calls.old).is_synced → MatchResult result
        (λ _. Names cycle (C.state calls.old) (C.state calls.new))
        (λ _. Calm (C.state calls.old) (C.state calls.new)
        ⊎ Names cycle (C.state calls.old) (C.state calls.new)) }
    ensures fault { IsTrue C.told → HasFault (C.faults calls.old) (C.faults calls.new) result }
{
    let path = list_of(calls, cycle)?;
    calls.put_made(path.as_str())
}

/// Brings the names in the folder of the closed reports to the disk.
pub(crate) fn sync_reports<C: ClosingCalls>(calls: &mut C) -> Result<(), Failure>
    ensures room { IsTrue C.told → C.room calls.new ≡ C.room calls.old }
    ensures calm { IsTrue C.told → Calm (C.state calls.old) (C.state calls.new) }
    ensures named { IsTrue C.told → OnOk result (AreNamed (C.state calls.new)) }
    ensures fault { IsTrue C.told → HasFault (C.faults calls.old) (C.faults calls.new) result }
{
    let path = reports_path(calls.global(), calls.path())?;
    calls.sync_folder(path.as_str())
}

/// How the files of the closed cycle of a pair are called.
pub(crate) fn find_paths<C: ClosingCalls>(calls: &C, pair: &Pair) -> Result<Paths, AllocError>
    ensures { IsTrue C.told → IfOk result (ArePaths (C.room calls.now).path pair.now) }
{
    paths_of(calls.global(), calls.path(), pair)
}

/// Appends a line on the closing to the log, in a night that began at this time.
pub(crate) fn log_closing<C: ClosingCalls>(
    calls: &mut C,
    began: u64,
    pair: &Pair,
    account: &Account,
    list: &str,
) -> Result<(), Failure>
    ensures room { IsTrue C.told → C.room calls.new
        ≡ with_log (C.room calls.new).log (C.room calls.old) }
    ensures logged { IsTrue C.told → OnOk result ((time : ℕ) × ((line : Text)
        × (IsLineOf time began pair.now account.now list.now line
        × Appends (C.room calls.old).log (C.room calls.new).log line))) }
    ensures calm { IsTrue C.told → Calm (C.state calls.old) (C.state calls.new) }
    ensures fault { IsTrue C.told → HasFault (C.faults calls.old) (C.faults calls.new) result }
    ensures failed { IfErr result (λ failure. failure.status ≡ stopped_status) }
{
    let (alloc, time) = (calls.global(), calls.seconds());
    let line = closing_line(alloc, time, began, pair, account, list)?;
    calls.add_to_log(line.as_bytes())
}

/// Refuses the report of a cycle, one of a pair, that is not as it was closed.
fn refuse_changed<C: ClosingCalls>(
    calls: &mut C,
    cycle: u64,
    before: u64,
    changed: u64,
) -> Result<(), Failure>
    ensures room { IsTrue C.told → C.room calls.new ≡ C.room calls.old }
    ensures still { IsTrue C.told → Still (C.state calls.old) (C.state calls.new) }
    ensures faults { IsTrue C.told → C.faults calls.old ≤ C.faults calls.new }
    ensures value { IsTrue C.told → IsShort (report_in (C.state calls.old).files changed)
        → IsOk result → IsAsClosed ((C.state calls.old).files.kept changed)
        (report_in (C.state calls.old).files changed) }
    ensures failed { IfErr result (λ failure. failure.status ≡ stopped_status) }
{
    if calls.is_as_closed(changed)? {
        return Ok(());
    }
    Err(changed_report(calls.global(), cycle, before, changed))
}

/// Refuses a pair of which one report is not as it was closed.
pub(crate) fn refuse_changed_pair<C: ClosingCalls>(
    calls: &mut C,
    pair: &Pair,
) -> Result<(), Failure>
    ensures room { IsTrue C.told → C.room calls.new ≡ C.room calls.old }
    ensures still { IsTrue C.told → Still (C.state calls.old) (C.state calls.new) }
    ensures faults { IsTrue C.told → C.faults calls.old ≤ C.faults calls.new }
    ensures failed { IfErr result (λ failure. failure.status ≡ stopped_status) }
{
    let (cycle, before) = (pair.closed.cycle(), compared(pair));
    refuse_changed(calls, cycle, before, before)?;
    refuse_changed(calls, cycle, before, cycle)?;
    match &pair.whole {
        Some(whole) => refuse_changed(calls, cycle, whole.cycle(), whole.cycle()),
        None => Ok(()),
    }
}
