//! Cycles that stop: in which run they do, and what a run from their cursor writes.
use super::cycle::cycle_into;
use super::run_figures::{MOST, due_of, equal_limits, items_in, limits};
use super::stop::{Tried, root_by};
use crate::tests::common::Runtime;
use crate::tests::common::output::Narrow;
use crate::tests::common::store::listed_from;
use ocfl_cursor::Cursor;
use ocfl_digest::Block;
use ocfl_memory::MemTree;
use ocfl_report::Further;
use ocfl_scrub::{CycleEnd, CycleStatus, ReportStop, cycle, run};
use ocfl_walk::Fault;
use std::alloc::Global;
use std::test::Fail;

/// A storage root of `root_by`, the budget of each run, and the run that takes each item.
type Cut = (u64, u64, &'static [usize]);

/// The files of the first root cost 4, 1 and 4, those of the second 4 and 4, and those of the third
/// 4 each, after the head of an object. Of the last one the first file is missing, which costs
/// nothing. A run takes what costs nothing, and a file while it has spent less than the budget.
const CUTS: [Cut; 8] = [
    (1, 1, &[1, 1, 1, 2, 3]),
    (1, 4, &[1, 1, 1, 2, 2]),
    (1, 5, &[1, 1, 1, 1, 2]),
    (1, 9, &[1, 1, 1, 1, 1]),
    (4, 1, &[1, 1, 1, 2]),
    (4, 5, &[1, 1, 1, 1]),
    (5, 1, &[1, 1, 1, 1, 2, 2, 3]),
    (0, 1, &[1, 1, 1, 1]),
];

/// What a run from the cursor writes if nothing limits it.
fn rest_from(alloc: Global, store: &mut MemTree, cursor: Cursor) -> Result<String, Fail> {
    let (mut block, mut out) = (Block::new(alloc)?, Vec::new(alloc));
    let most = limits(MOST, MOST)?;
    let _ = run(alloc, store, cursor, most, &mut block, &mut out);
    Ok(String::from_utf8(out)?)
}

/// The cycle and its cursor say `runs` runs of a first cycle, and pay for the items that went out
/// whole; a run from the cursor writes the rest of the report.
fn expect_stop(
    rt: &impl Runtime,
    row: &str,
    root: &mut Tried,
    stopped: CycleEnd,
    gone: usize,
    runs: usize,
) -> Result<(), Fail> {
    let (due, left) = due_of(root.all.as_str(), gone)?;
    assert_eq!(rt; stopped.runs, runs, "{row}");
    assert_eq!(rt; stopped.cursor.runs(), runs as u64, "{row}");
    assert_eq!(rt; stopped.cursor.cycle(), 1, "{row}");
    assert_eq!(rt; stopped.spent, u128::from(due.spent), "{row}");
    assert_eq!(rt; stopped.files, u128::from(due.files), "{row}");
    assert_eq!(rt; stopped.found, due.found, "{row}");
    let CycleEnd { cursor, .. } = stopped;
    let rest = rest_from(rt.alloc(), &mut root.store, cursor)?;
    assert_eq!(rt; rest.as_str(), left, "{row}");
    Ok(())
}

/// A cycle whose output takes `room` bytes of the report stops in the run that takes the item
/// which the next byte is of.
fn expect_cut_cycle(
    rt: &impl Runtime,
    root: &mut Tried,
    budget: u64,
    taken: &[usize],
    room: usize,
) -> Result<(), Fail> {
    let mut out = Narrow::new(rt.alloc(), room);
    let number = root.number;
    let row = format!(in rt.alloc(); "root {number}, budget {budget}, after {room} bytes")?;
    let each = equal_limits(rt.alloc(), 9, budget, MOST)?;
    let stopped = cycle_into(rt.alloc(), &mut root.store, each.as_slice(), &mut out)?;
    let is_cut = matches!(stopped.end, CycleStatus::Stopped(ReportStop::Output));
    assert!(rt; is_cut, "{row}");
    assert!(rt; root.begins_with(out.kept.as_slice(), room), "{row}");
    let (_, left) = due_of(root.all.as_str(), room)?;
    let whole = taken.len().saturating_sub(items_in(left));
    expect_stop(rt, row.as_str(), root, stopped, room, taken[whole])
}

#[test]
fn cycles_cut_at_each_byte(rt: HostRuntime) -> Result<(), Fail> {
    for (number, budget, taken) in CUTS {
        let mut root = Tried::new(rt.alloc(), number)?;
        assert_eq!(rt;
            items_in(root.all.as_str()),
            taken.len(),
            "root {number}, budget {budget}"
        );
        for room in 0..root.all.len() {
            expect_cut_cycle(&rt, &mut root, budget, taken, room)?;
        }
    }
    Ok(())
}

/// How often a store listed its root: each run does so once, and does it first.
fn runs_begun(alloc: Global, store: &MemTree) -> Result<usize, Fail> {
    let listed = listed_from(alloc, store, 0)?;
    let paths = listed.as_str().split_terminator(';');
    Ok(paths.filter(|path| path.is_empty()).count())
}

/// The runs of a cycle are those that were begun until a call failed, and of these the last is the
/// one that takes the last item that went out, or the next one, or is between.
fn expect_failing_cycle(
    rt: &impl Runtime,
    root: &mut Tried,
    budget: u64,
    taken: &[usize],
    call: u64,
) -> Result<bool, Fail> {
    let alloc = rt.alloc();
    let mut store = root_by(alloc, root.number)?;
    store.fail_call(call);
    let number = root.number;
    let row = format!(in alloc; "call {call} of root {number}, budget {budget}")?;
    let (mut block, mut out) = (Block::new(alloc)?, Vec::new(alloc));
    let each = equal_limits(alloc, 9, budget, MOST)?;
    let ended = cycle(
        alloc,
        &mut store,
        Further::Nothing,
        each.as_slice(),
        &mut block,
        &mut out,
    );
    let text = String::from_utf8(out)?;
    let begun = runs_begun(alloc, &store)?;
    if matches!(
        ended.end,
        CycleStatus::Stopped(ReportStop::Fault(Fault::Store(_)))
    ) {
        assert!(rt; root.all.starts_with(text.as_str()), "{row}");
        let whole = items_in(text.as_str());
        let least = if whole == 0 { 1 } else { taken[whole - 1] };
        assert!(rt; least <= begun && begun <= taken[whole], "{row}");
        expect_stop(rt, row.as_str(), root, ended, text.len(), begun)?;
    } else {
        assert!(rt; matches!(ended.end, CycleStatus::Ended), "{row}");
        assert_eq!(rt; ended.runs, begun, "{row}");
        assert_eq!(rt; text.contains("\nS08\t"), store.failures() > 0, "{row}");
    }
    Ok(store.failures() > 0)
}

#[test]
fn cycles_with_each_call_failing(rt: HostRuntime) -> Result<(), Fail> {
    for (number, budget, taken) in CUTS {
        let mut root = Tried::new(rt.alloc(), number)?;
        for call in 1..1_000u64 {
            if !expect_failing_cycle(&rt, &mut root, budget, taken, call)? {
                assert!(rt; call > 10, "root {number}, budget {budget}");
                break;
            }
        }
    }
    Ok(())
}
