//! Opening closed reports.
ghost use Rattle.std.specs.Prelude.{◌≡◌, ◌++◌, ◌||◌, [], not, IsTrue, IfOk, IsOkUnless, Some};
ghost use Rattle.ocfl_accounts.specs.Causes.{HasCause};
ghost use Rattle.ocfl_closed.specs.{Cut.{Still}, Files.{kept_of}};
ghost use Rattle.ocfl_closed.specs.Unchanged.{is_before as is_before_by, is_unchanged};
ghost use Rattle.ocfl_closed.specs.Internal.Checked.{HasTaken, end_of, if_told, left_of};

use crate::check::{ClosedCheck, check_of};
use crate::disk::{ClosedDisk, OpenReport};
use crate::reader::ReportReader;
use ocfl_accounts::{ClosingStop, Pair};
use std::alloc::Global;
use std::io::{BufReader, Read};

/// Opens the closed report of a cycle: the whole one, if there is one.
#[tactic(auto, using(crate::proofs::Opened::whole_bytes, crate::proofs::Opened::other_bytes))]
fn open_closed<D: ClosedDisk>(disk: &mut D, cycle: u64) -> Result<D::Report, ClosingStop>
    ensures bytes { IsTrue D.told → IfOk result (λ report. D.Report.bytes report
        ≡ (kept_of (D.state disk.old).files).reports cycle) }
    ensures still { IsTrue D.told → Still (D.state disk.old) (D.state disk.new) }
    ensures cause { IsTrue D.told → HasCause (D.faults disk.old) (D.faults disk.new) result }
{
    if let Some(report) = disk.open_report(cycle, true)? {
        return Ok(report);
    }
    match disk.open_report(cycle, false)? {
        Some(report) => Ok(report),
        None => Err(disk.miss_report(cycle)),
    }
}

/// A reader of an open report, before its first read.
fn reader_of<F: OpenReport + Drop>(
    alloc: Global,
    report: F,
    check: ClosedCheck,
) -> Result<BufReader<ReportReader<F>>, ClosingStop>
    requires { HasTaken check [] }
    ensures bytes { IfOk result (λ reader. ⟦<BufReader<ReportReader<F>> as Read>⟧.remaining reader
        ≡ if_told F.told (left_of check 0 (F.bytes report))) }
    ensures memory { IsOkUnless result ClosingStop.Memory }
{
    match BufReader::new(alloc, ReportReader::new(report, check)) {
        Ok(reader) => Ok(reader),
        Err(_) => Err(ClosingStop::Memory),
    }
}

/// Opens the closed report of a cycle to read all of it, whatever was kept of its closing.
pub(crate) fn open_reader<D: ClosedDisk>(
    alloc: Global,
    disk: &mut D,
    cycle: u64,
) -> Result<BufReader<ReportReader<D::Report>>, ClosingStop>
    ensures bytes { IsTrue D.told → IfOk result (λ reader.
        ⟦<BufReader<ReportReader<D::Report>> as Read>⟧.remaining reader
        ≡ Some ((kept_of (D.state disk.old).files).reports cycle)) }
    ensures still { IsTrue D.told → Still (D.state disk.old) (D.state disk.new) }
    ensures cause { IsTrue D.told → HasCause (D.faults disk.old) (D.faults disk.new) result }
{
    let report = open_closed(disk, cycle)?;
    reader_of(alloc, report, ClosedCheck::Unchecked)
}

/// Opens the closed report of a cycle to read all of it. Behind its bytes there is one that cannot
/// be read, if it is not as it was closed.
pub(crate) fn open_checked<D: ClosedDisk>(
    alloc: Global,
    disk: &mut D,
    cycle: u64,
) -> Result<BufReader<ReportReader<D::Report>>, ClosingStop>
    ensures bytes { IsTrue D.told → IfOk result (λ reader.
        ⟦<BufReader<ReportReader<D::Report>> as Read>⟧.remaining reader
        ≡ Some ((kept_of (D.state disk.old).files).reports cycle
        ++ end_of (is_unchanged (D.state disk.old).files cycle))) }
    ensures still { IsTrue D.told → Still (D.state disk.old) (D.state disk.new) }
    ensures cause { IsTrue D.told → HasCause (D.faults disk.old) (D.faults disk.new) result }
{
    let report = open_closed(disk, cycle)?;
    let check = check_of(alloc, disk, cycle)?;
    reader_of(alloc, report, check)
}

/// Opens the report of a pair to compare it with that of a cycle before. It is checked if that is
/// the report before.
pub(crate) fn open_now<D: ClosedDisk>(
    alloc: Global,
    disk: &mut D,
    pair: &Pair,
    before: u64,
) -> Result<BufReader<ReportReader<D::Report>>, ClosingStop>
    ensures bytes { IsTrue D.told → IfOk result (λ reader.
        ⟦<BufReader<ReportReader<D::Report>> as Read>⟧.remaining reader
        ≡ Some ((kept_of (D.state disk.old).files).reports pair.now.closed.cycle
        ++ end_of (not (is_before_by pair.now before)
        || is_unchanged (D.state disk.old).files pair.now.closed.cycle))) }
    ensures still { IsTrue D.told → Still (D.state disk.old) (D.state disk.new) }
    ensures cause { IsTrue D.told → HasCause (D.faults disk.old) (D.faults disk.new) result }
{
    let cycle = pair.closed.cycle();
    if is_before(pair, before) {
        return open_checked(alloc, disk, cycle);
    }
    open_reader(alloc, disk, cycle)
}

/// Whether the report before of a pair is that of a cycle.
fn is_before(pair: &Pair, cycle: u64) -> bool
    ensures { result ≡ is_before_by pair.now cycle }
{
    match &pair.before {
        Some(before) => before.cycle() == cycle,
        None => false,
    }
}
