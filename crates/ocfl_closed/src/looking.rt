//! What is there of a closed cycle.
ghost use Rattle.std.specs.Prelude.{◌≡◌, IsTrue, IfOk, IsOkUnless, Some, map};
ghost use Rattle.std.specs.Option.{option_map};
ghost use Rattle.ocfl_state.specs.Calls.{bytes_of};
ghost use Rattle.ocfl_accounts.specs.{Causes.{HasCause}, Sights.{IsSight, sight_of as sight_of_look}};
ghost use Rattle.ocfl_closed.specs.Cut.{Still};
ghost use Rattle.ocfl_closed.specs.Files.{IsRead, away_by as away_of, incomplete_by, is_lost as is_lost_by, leaves_none as leaves_no_place, left_by as places_left, sight_of, whole_by};

use crate::disk::ClosedDisk;
use crate::marking::has_mark;
use ocfl_accounts::{ClosedCycle, ClosingStop, Look};
use ocfl_cursor::Refused;
use ocfl_state::{Checkpoint, Left, decode_checkpoint};
use ocfl_tree::Place;
use std::alloc::{AllocError, Global};

/// What is there of a closed cycle: its report, or what is known of one that is not there.
pub fn look_at<D: ClosedDisk>(alloc: Global, disk: &mut D, cycle: u64) -> Result<Look, ClosingStop>
    ensures value { IsTrue D.told → IfOk result (λ look.
        IsSight cycle (sight_of (D.state disk.old).files cycle) look) }
    ensures still { IsTrue D.told → Still (D.state disk.old) (D.state disk.new) }
    ensures cause { IsTrue D.told → HasCause (D.faults disk.old) (D.faults disk.new) result }
{
    if disk.open_report(cycle, true)?.is_some() {
        return look_at_whole(alloc, disk, cycle);
    }
    match disk.open_report(cycle, false)? {
        Some(report) => look_at_incomplete(alloc, disk, cycle, &report),
        None => look_for_away(alloc, disk, cycle),
    }
}

/// What is there of a cycle whose report is whole.
fn look_at_whole<D: ClosedDisk>(
    alloc: Global,
    disk: &mut D,
    cycle: u64,
) -> Result<Look, ClosingStop>
    ensures value { IsTrue D.told → IfOk result (λ look. sight_of_look look
        ≡ whole_by cycle ((D.state disk.old).files.checkpoint cycle)) }
    ensures still { IsTrue D.told → Still (D.state disk.old) (D.state disk.new) }
    ensures cause { IsTrue D.told → HasCause (D.faults disk.old) (D.faults disk.new) result }
{
    let kept = read_kept(alloc, disk, cycle)?;
    let left = left_by(alloc, &kept)?;
    Ok(Look::There(ClosedCycle::new(cycle, true, false, left)))
}

/// What is there of a cycle whose report is not whole.
fn look_at_incomplete<D: ClosedDisk>(
    alloc: Global,
    disk: &mut D,
    cycle: u64,
    report: &D::Report,
) -> Result<Look, ClosingStop>
    ensures value { IsTrue D.told → IfOk result (λ look. sight_of_look look ≡ incomplete_by cycle
        ((D.state disk.old).files.checkpoint cycle) (D.Report.bytes report.now)) }
    ensures still { IsTrue D.told → Still (D.state disk.old) (D.state disk.new) }
    ensures cause { IsTrue D.told → HasCause (D.faults disk.old) (D.faults disk.new) result }
{
    let kept = read_kept(alloc, disk, cycle)?;
    let left = left_by(alloc, &kept)?;
    let lost = is_lost(disk, report, &kept)?;
    Ok(Look::There(ClosedCycle::new(cycle, false, lost, left)))
}

/// What is known of a cycle whose report is not there.
fn look_for_away<D: ClosedDisk>(
    alloc: Global,
    disk: &mut D,
    cycle: u64,
) -> Result<Look, ClosingStop>
    ensures value { IsTrue D.told → IfOk result (λ look. sight_of_look look
        ≡ away_of ((D.state disk.old).files.checkpoint cycle)
        ((D.state disk.old).files.packed cycle)) }
    ensures still { IsTrue D.told → Still (D.state disk.old) (D.state disk.new) }
    ensures cause { IsTrue D.told → HasCause (D.faults disk.old) (D.faults disk.new) result }
{
    let kept = read_kept(alloc, disk, cycle)?;
    let packed = disk.is_packed(cycle)?;
    Ok(away_by(&kept, packed))
}

/// The checkpoint with which the report of a cycle was closed. `None` if it was not kept, or what
/// was kept is no checkpoint any more.
pub(crate) fn read_kept<D: ClosedDisk>(
    alloc: Global,
    disk: &mut D,
    cycle: u64,
) -> Result<Option<Checkpoint>, ClosingStop>
    ensures value { IsTrue D.told → IfOk result (λ kept.
        kept ≡ (D.state disk.old).files.checkpoint cycle) }
    ensures still { IsTrue D.told → Still (D.state disk.old) (D.state disk.new) }
    ensures cause { IsTrue D.told → HasCause (D.faults disk.old) (D.faults disk.new) result }
{
    match disk.kept_checkpoint(cycle)? {
        Some(bytes) => checkpoint_of(alloc, &bytes),
        None => Ok(None),
    }
}

/// The checkpoint that these bytes are. `None` if they are none.
pub(crate) fn checkpoint_of(alloc: Global, bytes: &[u8]) -> Result<Option<Checkpoint>, ClosingStop>
    ensures value { IfOk result (λ found. IsRead (Some bytes.now) found) }
    ensures memory { IsOkUnless result ClosingStop.Memory }
{
    match decode_checkpoint(alloc, bytes) {
        Ok(checkpoint) => Ok(Some(checkpoint)),
        Err(Refused::Memory) => Err(ClosingStop::Memory),
        Err(_) => Ok(None),
    }
}

/// The places that were left out of a closed cycle.
fn left_by(alloc: Global, kept: &Option<Checkpoint>) -> Result<Vec<Place>, ClosingStop>
    ensures value { IfOk result (λ left. left.items ≡ places_left kept.now) }
    ensures memory { IsOkUnless result ClosingStop.Memory }
{
    let Some(checkpoint) = kept else {
        return Ok(Vec::new(alloc));
    };
    match places_of(alloc, &checkpoint.left) {
        Ok(places) => Ok(places),
        Err(_) => Err(ClosingStop::Memory),
    }
}

/// The places of branches that were left out.
fn places_of(alloc: Global, left: &[Left]) -> Result<Vec<Place>, AllocError>
    ensures { IfOk result (λ places. places.items ≡ map (λ l. l.place) left.now) }
{
    let mut places = Vec::new(alloc);
    for branch in left {
        places.push(branch.place.try_clone()?)?;
    }
    Ok(places)
}

/// Whether nothing was left out by a checkpoint.
fn leaves_none(checkpoint: &Checkpoint) -> bool
    ensures { result ≡ leaves_no_place checkpoint.now }
{
    checkpoint.left.is_empty()
}

/// Whether lines of a report that is not whole were lost, or may have been: only the checkpoint
/// with which it was closed may say that nothing is missing but what was left out.
fn is_lost<D: ClosedDisk>(
    disk: &mut D,
    report: &D::Report,
    kept: &Option<Checkpoint>,
) -> Result<bool, ClosingStop>
    ensures value { IsTrue D.told → IfOk result (λ lost.
        lost ≡ is_lost_by kept.now (D.Report.bytes report.now)) }
    ensures still { IsTrue D.told → Still (D.state disk.old) (D.state disk.new) }
    ensures cause { IsTrue D.told → HasCause (D.faults disk.old) (D.faults disk.new) result }
{
    match kept {
        Some(checkpoint) if checkpoint.whole && !leaves_none(checkpoint) => {
            Ok(!has_mark(disk, report, &checkpoint.report)?)
        }
        _ => Ok(true),
    }
}

/// Whether a report that is not there was whole, and whether lines of it were lost, by the
/// checkpoint with which it was closed, and by the name of its compressed file. Where nothing says
/// so it counts as a whole one; one that was closed as incomplete, though its checkpoint had all of
/// it, lost lines.
fn away_by(kept: &Option<Checkpoint>, packed: bool) -> Look
    ensures { sight_of_look result ≡ away_of kept.now packed }
{
    let (had_all, lost) = match kept {
        Some(checkpoint) => (
            checkpoint.whole && leaves_none(checkpoint),
            !checkpoint.whole,
        ),
        None => (true, false),
    };
    Look::Away {
        whole: had_all && !packed,
        lost: lost || (had_all && packed),
    }
}
