//! Runs that stop, and runs from where they stopped.
use super::expected::{FILE_IS_OK, HEADS};
use super::run_figures::{MOST, cursor_after, due_of, expect_run, limits, run_says};
use super::stop::{ROOTS, Tried, root_by};
use crate::tests::common::Runtime;
use crate::tests::common::output::Narrow;
use crate::tests::common::roots::{long_object, three_files};
use crate::tests::common::store::place_of;
use ocfl_cursor::{Cursor, State};
use ocfl_digest::Block;
use ocfl_memory::{MemTree, Point};
use ocfl_report::Further;
use ocfl_scrub::{ReportStop, RunEnd, RunStatus, run};
use ocfl_walk::Fault;
use std::alloc::Global;
use std::test::Fail;

#[test]
fn a_run_into_ten_bytes(rt: HostRuntime) -> Result<(), Fail> {
    let mut store = long_object(rt.alloc(), "ABC_SHA512")?;
    let (mut block, mut out) = (Block::new(rt.alloc())?, Narrow::new(rt.alloc(), 10));
    let most = limits(9, MOST)?;
    let stopped = run(
        rt.alloc(),
        &mut store,
        Cursor::new(Further::Nothing),
        most,
        &mut block,
        &mut out,
    );
    let said = "spent 0 files 0 clean, output failed; cycle 1 runs 1 spent 0 files 0 after .";
    assert_eq!(rt; run_says(rt.alloc(), &stopped)?.as_str(), said);
    assert!(rt; out.kept.as_slice() == b"ok\t.\t-\nok\t".as_slice());
    let RunEnd { cursor, .. } = stopped;
    let said = "spent 4 files 1 clean, ended; cycle 1 runs 2 spent 4 files 1 ended";
    expect_run(
        &rt,
        "the rest",
        &mut store,
        cursor,
        most,
        &["ok|o|-\n", FILE_IS_OK],
        said,
    )?;
    Ok(())
}

#[test]
fn stop_at_once(rt: HostRuntime) -> Result<(), Fail> {
    let behind = cursor_after(rt.alloc(), "o/v1/content/a")?;
    let ended = Cursor::from_parts(1, 2, 9, 3, Further::Nothing, State::Ended).ok_or("no cursor")?;
    let same = Cursor::from_parts(1, 2, 9, 3, Further::Nothing, State::Ended).ok_or("no cursor")?;
    let rows: [(&str, &str, Cursor, &[&str], &str); 3] = [
        (
            "on the way to the place",
            "o/v1/content",
            behind,
            &[],
            "spent 0 files 0 clean, stopped at o/v1/content; cycle 1 runs 1 spent 0 files 0 after o/v1/content/a",
        ),
        (
            "in the next cycle",
            "o/v1/content",
            ended,
            &[HEADS],
            "spent 0 files 0 clean, stopped at o/v1/content; cycle 2 runs 1 spent 0 files 0 after o",
        ),
        (
            "at the root",
            ".",
            same,
            &[],
            "spent 0 files 0 clean, stopped at .; cycle 2 runs 1 spent 0 files 0 start",
        ),
    ];
    for (row, place, cursor, pieces, said) in rows {
        let mut store = three_files(rt.alloc())?;
        store.fail_at(&place_of(rt.alloc(), place)?, Point::List)?;
        expect_run(&rt, row, &mut store, cursor, limits(9, MOST)?, pieces, said)?;
    }
    Ok(())
}

fn is_last(end: &RunStatus) -> bool {
    matches!(end, RunStatus::Ended)
}

fn is_at_a_place(end: &RunStatus) -> bool {
    matches!(end, RunStatus::Stopped(ReportStop::Fault(Fault::Store(_))))
}

fn is_cut(end: &RunStatus) -> bool {
    matches!(end, RunStatus::Stopped(ReportStop::Output))
}

/// Makes runs from the first item on until none is left, also after a stop, and joins what they
/// write. It says whether one of them stopped.
fn runs_joined(alloc: Global, store: &mut MemTree, budget: u64) -> Result<(String, bool), Fail> {
    let mut block = Block::new(alloc)?;
    let mut out = Vec::new(alloc);
    let mut cursor = Cursor::new(Further::Nothing);
    let mut stopped = false;
    for _ in 0..100u64 {
        let before = cursor.runs();
        let limits = limits(budget, MOST)?;
        let made = run(alloc, store, cursor, limits, &mut block, &mut out);
        let RunEnd {
            cursor: reached,
            end,
            ..
        } = made;
        if reached.runs() <= before {
            return Err("a run is not counted".into());
        }
        cursor = reached;
        if is_last(&end) {
            return Ok((String::from_utf8(out)?, stopped));
        }
        stopped |= is_at_a_place(&end);
    }
    Err("no end within 100 runs".into())
}

/// With each call of the store failing in turn, the runs of such a budget write the report, or say
/// which file they did not read. Some calls stop a run.
fn expect_failing_runs(rt: &impl Runtime, root: &Tried, budget: u64) -> Result<(), Fail> {
    let number = root.number;
    let mut stops = false;
    for call in 1..1_000u64 {
        let mut store = root_by(rt.alloc(), number)?;
        store.fail_call(call);
        let (joined, stopped) = runs_joined(rt.alloc(), &mut store, budget)?;
        let failed = store.failures() > 0;
        let row = format!(in rt.alloc(); "call {call} of root {number}, budget {budget}")?;
        assert!(rt; failed || call > 1, "{row}");
        stops |= stopped;
        if stopped || !failed {
            assert!(rt; joined == root.all, "{row}");
        } else {
            assert!(rt; joined.contains("\nS08\t"), "{row}");
        }
        if !failed {
            break;
        }
    }
    assert!(rt; stops, "root {number}, budget {budget}");
    Ok(())
}

#[test]
fn runs_with_each_call_failing(rt: HostRuntime) -> Result<(), Fail> {
    for number in 0..ROOTS {
        let root = Tried::new(rt.alloc(), number)?;
        expect_failing_runs(&rt, &root, 100)?;
        expect_failing_runs(&rt, &root, 1)?;
    }
    Ok(())
}

/// Makes runs with this budget from the first item on until the output fails.
fn until_stopped(
    alloc: Global,
    store: &mut MemTree,
    budget: u64,
    out: &mut Narrow,
) -> Result<Cursor, Fail> {
    let mut block = Block::new(alloc)?;
    let mut cursor = Cursor::new(Further::Nothing);
    for _ in 0..100u64 {
        let made = run(alloc, store, cursor, limits(budget, MOST)?, &mut block, out);
        let RunEnd {
            cursor: reached,
            end,
            ..
        } = made;
        cursor = reached;
        if is_cut(&end) {
            return Ok(cursor);
        }
    }
    Err("no stop within 100 runs".into())
}

/// Runs whose output takes `room` bytes of the report pay for the items that went out whole, and a
/// run from the cursor writes the rest.
pub(crate) fn expect_cut_runs(
    rt: &impl Runtime,
    root: &mut Tried,
    room: usize,
    budget: u64,
) -> Result<(), Fail> {
    let mut out = Narrow::new(rt.alloc(), room);
    let number = root.number;
    let row = format!(in rt.alloc(); "root {number}, budget {budget}, after {room} bytes")?;
    let cursor = until_stopped(rt.alloc(), &mut root.store, budget, &mut out)?;
    assert!(rt; root.begins_with(out.kept.as_slice(), room), "{row}");
    let (due, left) = due_of(root.all.as_str(), room)?;
    assert_eq!(rt; cursor.spent(), u128::from(due.spent), "{row}");
    assert_eq!(rt; cursor.files(), u128::from(due.files), "{row}");
    let (mut block, mut more) = (Block::new(rt.alloc())?, Vec::new(rt.alloc()));
    let most = limits(MOST, MOST)?;
    let _ = run(
        rt.alloc(),
        &mut root.store,
        cursor,
        most,
        &mut block,
        &mut more,
    );
    assert_eq!(rt; String::from_utf8(more)?.as_str(), left, "{row}");
    Ok(())
}
