//! What joinings of cycles ask of a disk before they join one.
ghost use Rattle.std.specs.Prelude.{◌≡◌, ◌&&◌, ◌||◌, true, false, IsTrue, IfErr, IfOk, is_some};
ghost use Rattle.std.specs.Prelude.{length, option_map};
ghost use Rattle.ocfl_joining.specs.Cycles.{has_put, look_of};
ghost use Rattle.ocfl_joining.specs.Facts.{known_by, known_parts};
ghost use Rattle.ocfl_joining.specs.Stops.{IsCallStop, IsUpTo};
ghost use Rattle.ocfl_join_disk.specs.Shown.{joined_in};

use crate::disk::JoinDisk;
use ocfl_joining::{
    ClosedPart, Facts, JoinStop, JoinedLook, ReportTrouble, facts_with, known_part,
};
use std::alloc::Global;

/// Whether a joined report of a cycle is there, whole or not.
#[tactic(auto, using(crate::proofs::Naming::has_named))]
fn has_it<D: JoinDisk>(disk: &mut D, cycle: u64, whole: bool) -> Result<bool, ReportTrouble>
    ensures value { IsTrue D.told → IfOk result (λ is.
        is ≡ has_put whole (joined_in cycle (D.state disk.old).seen)) }
    ensures seen { IsTrue D.told → (D.state disk.new).seen ≡ (D.state disk.old).seen }
    ensures parts { IsTrue D.told → D.parts disk.new ≡ D.parts disk.old }
{
    disk.has_joined(cycle, whole)
}

/// Whether a joined report of a cycle is there compressed.
fn is_packed<D: JoinDisk>(disk: &mut D, cycle: u64) -> Result<bool, ReportTrouble>
    ensures value { IsTrue D.told → IfOk result (λ is. is
        ≡ ((D.parts disk.old).folders.packed cycle true
        || (D.parts disk.old).folders.packed cycle false)) }
    ensures seen { IsTrue D.told → (D.state disk.new).seen ≡ (D.state disk.old).seen }
    ensures parts { IsTrue D.told → D.parts disk.new ≡ D.parts disk.old }
{
    if disk.is_packed(cycle, true)? {
        return Ok(true);
    }
    disk.is_packed(cycle, false)
}

/// What there is of the joined report of a cycle: one that is whole counts before one that is not.
pub(crate) fn look_at<D: JoinDisk>(disk: &mut D, cycle: u64) -> Result<JoinedLook, ReportTrouble>
    ensures value { IsTrue D.told → IfOk result (λ look. look
        ≡ look_of ((D.parts disk.old).folders.packed cycle true
        || (D.parts disk.old).folders.packed cycle false)
        (joined_in cycle (D.state disk.old).seen)) }
    ensures seen { IsTrue D.told → (D.state disk.new).seen ≡ (D.state disk.old).seen }
    ensures parts { IsTrue D.told → D.parts disk.new ≡ D.parts disk.old }
{
    if has_it(disk, cycle, true)? {
        return Ok(JoinedLook::There { whole: true });
    }
    if has_it(disk, cycle, false)? {
        return Ok(JoinedLook::There { whole: false });
    }
    if is_packed(disk, cycle)? {
        return Ok(JoinedLook::Packed);
    }
    Ok(JoinedLook::Away)
}

/// Whether a part has a closed report of a cycle, and has said what that found.
pub(crate) fn has_said<D: JoinDisk>(
    disk: &mut D,
    part: usize,
    cycle: u64,
) -> Result<bool, ReportTrouble>
    ensures value { IsTrue D.told → IfOk result (λ is. is
        ≡ (is_some ((D.parts disk.old).folders.found cycle part)
        && (D.parts disk.old).folders.has_said cycle part)) }
    ensures seen { IsTrue D.told → (D.state disk.new).seen ≡ (D.state disk.old).seen }
    ensures parts { IsTrue D.told → D.parts disk.new ≡ D.parts disk.old }
{
    if disk.has_closed(cycle, part)? {
        disk.has_said(cycle, part)
    } else {
        Ok(false)
    }
}

/// What is known of the report that a part closed in a cycle.
fn find_part<D: JoinDisk>(
    alloc: Global,
    disk: &mut D,
    facts: Option<&Facts>,
    cycle: u64,
    number: usize,
) -> Result<Option<ClosedPart>, ReportTrouble>
    ensures known { IsTrue D.told → IfOk result (λ part. part ≡ known_by
        (D.parts disk.old).folders cycle number (option_map (λ facts. facts.now) facts.entry)) }
    ensures seen { IsTrue D.told → (D.state disk.new).seen ≡ (D.state disk.old).seen }
    ensures parts { IsTrue D.told → D.parts disk.new ≡ D.parts disk.old }
{
    let Some(facts) = facts else {
        return Ok(None);
    };
    let Some(found) = disk.find_closed(cycle, number)? else {
        return Ok(None);
    };
    let has_said = disk.has_said(cycle, number)?;
    Ok(Some(known_part(alloc, facts, cycle, has_said, &found)?))
}

/// Why a joining stops at the part with this number, at which a call was not done.
pub(crate) fn stop_at(part: usize, why: ReportTrouble) -> JoinStop
    ensures { IsCallStop (λ at. at ≡ part) result }
{
    match why {
        ReportTrouble::Failed => JoinStop::Part { part, why },
        ReportTrouble::Memory => JoinStop::Memory,
    }
}

/// What is known of the reports that all parts closed in a cycle, whose checkpoints say these
/// facts.
#[tactic(auto, using(ocfl_joining::proofs::Stopping::at_one))]
pub(crate) fn find_parts<D: JoinDisk>(
    alloc: Global,
    disk: &mut D,
    all: &[Option<Facts>],
    cycle: u64,
) -> Result<Vec<Option<ClosedPart>>, JoinStop>
    ensures why { IfErr result (IsCallStop (IsUpTo (length all.now))) }
    ensures known { IsTrue D.told → IfOk result (λ parts.
        parts.items ≡ known_parts (D.parts disk.old).folders all.now cycle) }
    ensures seen { IsTrue D.told → (D.state disk.new).seen ≡ (D.state disk.old).seen }
    ensures parts { IsTrue D.told → D.parts disk.new ≡ D.parts disk.old }
{
    let mut parts = Vec::new(alloc);
    for index in 0..all.len() {
        let facts = facts_with(all, index + 1);
        let part = match find_part(alloc, disk, facts, cycle, index + 1) {
            Ok(part) => part,
            Err(trouble) => return Err(stop_at(index + 1, trouble)),
        };
        if parts.push(part).is_err() {
            return Err(JoinStop::Memory);
        }
    }
    Ok(parts)
}
