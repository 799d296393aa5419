//! Whether an open report is as it was when it was closed.
ghost use Rattle.std.specs.Prelude.{◌≡◌, ◌≤◌, ◌↔◌, IsTrue, IfOk, OnOk, [], length, take};
ghost use Rattle.ocfl_state.specs.{Calls.{IsReadOf}, Pieces.{Carries, summary_of}};
ghost use Rattle.ocfl_accounts.specs.Causes.{HasCause};
ghost use Rattle.ocfl_closed.specs.{Cut.{Still}, Files.{is_mark}, Internal.{IsPushed}};

use crate::disk::{ClosedDisk, OpenReport};
use ocfl_accounts::ClosingStop;
use ocfl_state::{ReportDigests, ReportMark};
use std::io;

/// How many bytes of a report are read at once.
const READ_LEN: usize = 16_384;

/// Where no report goes on: 2^63.
const NO_REPORT: u64 = 1 << 63;

/// Reads bytes of a report from an offset on into the front of the buffer, at most `room` of them,
/// and gives how many.
fn read_part<F: OpenReport>(
    report: &F,
    start: u64,
    buffer: &mut [u8; READ_LEN],
    room: usize,
) -> io::Result<usize>
    requires { room ≤ 16384 }
    ensures bound { IfOk result (λ count. count ≤ room) }
    ensures value { IsTrue F.told → IfOk result (λ count.
        IsReadOf (F.bytes report.now) start (take count buffer.new) room) }
{
    report.read_at(start, &mut buffer[..room])
}

/// Reads the bytes of a report from an offset on, and pushes them. Gives how many: 0 only at its
/// end.
fn push_part<D: ClosedDisk>(
    disk: &mut D,
    report: &D::Report,
    start: u64,
    buffer: &mut [u8; READ_LEN],
    digests: &mut ReportDigests,
) -> Result<usize, ClosingStop>
    ensures bound { IfOk result (λ count. count ≤ 16384) }
    ensures pushed { IsTrue D.told → start ≤ length (D.Report.bytes report.now)
        → Carries digests.old (take start (D.Report.bytes report.now)) → IfOk result (λ count.
        IsPushed (D.Report.bytes report.now) start count digests.new) }
    ensures still { IsTrue D.told → Still (D.state disk.old) (D.state disk.new) }
    ensures cause { IsTrue D.told → HasCause (D.faults disk.old) (D.faults disk.new) result }
{
    match read_part(report, start, buffer, READ_LEN) {
        Ok(count) => {
            digests.push(&buffer[..count]);
            Ok(count)
        }
        Err(error) => Err(disk.refuse_report(report, error)),
    }
}

/// Pushes the bytes of a report, from its start to its end.
fn push_all<D: ClosedDisk>(
    disk: &mut D,
    report: &D::Report,
    digests: &mut ReportDigests,
) -> Result<(), ClosingStop>
    ensures carried { IsTrue D.told → Carries digests.old []
        → OnOk result (Carries digests.new (D.Report.bytes report.now)) }
    ensures still { IsTrue D.told → Still (D.state disk.old) (D.state disk.new) }
    ensures cause { IsTrue D.told → HasCause (D.faults disk.old) (D.faults disk.new) result }
{
    let mut buffer = [0; READ_LEN];
    let mut start: u64 = 0;
    while start < NO_REPORT {
        let count = push_part(disk, report, start, &mut buffer, digests)?;
        if count == 0 {
            return Ok(());
        }
        start += count as u64;
    }
    Ok(())
}

/// The length, the lines and the digests of a report, which is read once.
fn mark_of<D: ClosedDisk>(disk: &mut D, report: &D::Report) -> Result<ReportMark, ClosingStop>
    ensures value { IsTrue D.told → IfOk result (λ mark. mark ≡ summary_of (D.Report.bytes report.now)) }
    ensures still { IsTrue D.told → Still (D.state disk.old) (D.state disk.new) }
    ensures cause { IsTrue D.told → HasCause (D.faults disk.old) (D.faults disk.new) result }
{
    let mut digests = ReportDigests::new();
    push_all(disk, report, &mut digests)?;
    Ok(digests.summary())
}

/// Whether a report has a mark.
pub(crate) fn has_mark<D: ClosedDisk>(
    disk: &mut D,
    report: &D::Report,
    mark: &ReportMark,
) -> Result<bool, ClosingStop>
    ensures value { IsTrue D.told → IfOk result (λ has.
        has ≡ is_mark mark.now (summary_of (D.Report.bytes report.now))) }
    ensures still { IsTrue D.told → Still (D.state disk.old) (D.state disk.new) }
    ensures cause { IsTrue D.told → HasCause (D.faults disk.old) (D.faults disk.new) result }
{
    let found = mark_of(disk, report)?;
    Ok(is_same(mark, &found))
}

/// Whether two marks are the same.
fn is_same(mark: &ReportMark, found: &ReportMark) -> bool
    ensures { result ≡ is_mark mark.now found.now }
{
    are_equal(mark, found)
}

fn are_equal(mark: &ReportMark, found: &ReportMark) -> bool
    ensures { IsTrue result ↔ (mark.now ≡ found.now) }
{
    *mark == *found
}
