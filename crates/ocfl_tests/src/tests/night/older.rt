//! Nights with a checkpoint that is put back, beside reports of later cycles.
use super::{FIRST, Nights, ending, night_of, plan};
use crate::tests::common::Runtime;
use crate::tests::common::digests::lines_of;
use ocfl_state::{MemState, Phase, StateFolder, decode_checkpoint};
use ocfl_terms::{Halt, Refusal};
use std::alloc::Global;
use std::test::Fail;

/// What the checkpoint of a folder has.
fn checkpoint_again(alloc: Global, folder: &MemState) -> Result<Vec<u8>, Fail> {
    let bytes = folder.checkpoint_bytes().ok_or("no checkpoint")?;
    Ok(bytes.to_vec(alloc)?)
}

/// The folder as it was after so many changes.
fn after_changes(folder: &MemState, changes: usize) -> Result<MemState, Fail> {
    let earlier = folder.crashed(changes, usize::MAX, false)?;
    Ok(earlier.ok_or("no such moment")?)
}

/// Nights that have closed two cycles, and are in the third.
fn in_the_third_cycle(alloc: Global) -> Result<Nights, Fail> {
    let mut nights = Nights::new(alloc);
    for files in [None, Some(1), None, Some(1)] {
        let _ = nights.make(&plan(files, None, true)?)?;
    }
    Ok(nights)
}

/// A night over this folder with that checkpoint is refused, for a closed report of this cycle, and
/// leaves the folder as it was.
fn expect_older(
    rt: &impl Runtime,
    row: usize,
    folder: &MemState,
    checkpoint: &[u8],
    cycle: u64,
) -> Result<(), Fail> {
    let mut older = after_changes(folder, folder.changes())?;
    older.put_checkpoint(checkpoint)?;
    let changes = older.changes();
    let mut said = Vec::new(rt.alloc());
    let made = night_of(rt.alloc(), &mut older, &plan(None, None, true)?, &mut said)?;
    let Halt::Refused(Refusal::Older(closed)) = made.end else {
        assert_eq!(rt; ending(&made.end), "older", "{row}");
        return Ok(());
    };
    assert_eq!(rt; (closed, made.runs, said.len()), (cycle, 0, 0), "{row}");
    assert_eq!(rt; older.checkpoint_bytes(), Some(checkpoint), "{row}");
    assert_eq!(rt; older.report(), folder.report(), "{row}");
    assert_eq!(rt; older.closed().len(), folder.closed().len(), "{row}");
    // It was brought to the disk, and nothing else.
    assert_eq!(rt; older.changes(), changes + 1, "{row}");
    Ok(())
}

#[test]
fn a_checkpoint_of_a_closed_cycle_is_refused(rt: HostRuntime) -> Result<(), Fail> {
    let mut nights = Nights::new(rt.alloc());
    let _ = nights.make(&plan(Some(1), None, true)?)?;
    let in_first = checkpoint_again(rt.alloc(), &nights.folder)?;
    let _ = nights.make(&plan(None, None, false)?)?;
    let before_second = checkpoint_again(rt.alloc(), &nights.folder)?;
    let _ = nights.make(&plan(Some(1), None, false)?)?;
    let in_second = checkpoint_again(rt.alloc(), &nights.folder)?;
    let made = nights.make(&plan(None, None, false)?)?;
    assert_eq!(rt; ending(&made.end), "a cycle ended");
    expect_older(&rt, 0, &nights.folder, &before_second, 2)?;
    let _ = nights.make(&plan(Some(1), None, false)?)?;
    let first = lines_of(rt.alloc(), FIRST)?;
    assert_eq!(rt; nights.folder.report(), first.as_bytes());
    expect_older(&rt, 1, &nights.folder, &in_first, 1)?;
    expect_older(&rt, 2, &nights.folder, &before_second, 2)?;
    expect_older(&rt, 3, &nights.folder, &in_second, 2)
}

#[test]
fn each_checkpoint_of_before_is_refused(rt: HostRuntime) -> Result<(), Fail> {
    let nights = in_the_third_cycle(rt.alloc())?;
    let folder = &nights.folder;
    let mut refused = 0;
    for changes in 0..folder.changes() {
        let earlier = after_changes(folder, changes)?;
        let Some(text) = earlier.checkpoint_bytes() else {
            continue;
        };
        // Both cycles were closed, and it said so.
        let closing = decode_checkpoint(rt.alloc(), text)?.phase == Phase::Closing;
        if earlier.closed().len() == 2 && !closing {
            continue;
        }
        let cycle = if earlier.closed().is_empty() && !closing {
            1
        } else {
            2
        };
        expect_older(&rt, changes, folder, text, cycle)?;
        refused += 1;
    }
    assert!(rt; refused > 20);
    Ok(())
}

#[test]
fn no_crash_makes_a_checkpoint_older(rt: HostRuntime) -> Result<(), Fail> {
    let nights = in_the_third_cycle(rt.alloc())?;
    for changes in 0..=nights.folder.changes() {
        for left in [0, 1, 40, usize::MAX] {
            let crashed = nights.folder.crashed(changes, left, false)?;
            let mut crashed = crashed.ok_or("no such moment")?;
            let closed = crashed.closed().len();
            let mut said = Vec::new(rt.alloc());
            let next = plan(None, None, true)?;
            let made = night_of(rt.alloc(), &mut crashed, &next, &mut said)?;
            assert!(rt; matches!(made.end, Halt::CycleEnded(_)), "{changes} {left}");
            assert!(rt; crashed.closed().len() >= closed, "{changes} {left}");
        }
    }
    Ok(())
}

#[test]
fn a_report_put_under_the_name_of_a_cycle_to_come_is_refused(rt: HostRuntime) -> Result<(), Fail> {
    for cycle in [1, 2] {
        let mut nights = Nights::new(rt.alloc());
        let _ = nights.make(&plan(Some(1), None, true)?)?;
        let report = nights.folder.report().to_vec(rt.alloc())?;
        nights.folder.close(cycle, true)?;
        nights.folder.append(&report)?;
        let made = nights.make(&plan(Some(1), None, false)?)?;
        assert_eq!(rt; ending(&made.end), "older", "{cycle}");
    }
    Ok(())
}
