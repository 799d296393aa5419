//! Cycles: runs from the first item on, each with its limits.
use super::expected::HEADS;
use super::run_figures::{
    A, ALL, B, C, MOST, budgets, cycle_says, equal_limits, expect_cycle, limits,
};
use crate::tests::common::object::{bare_root, object_listing};
use crate::tests::common::output::Narrow;
use crate::tests::common::roots::{long_object, right_objects, three_files};
use crate::tests::common::store::{expect_opened, place_of, put, times_opened, was_not_called};
use ocfl_cursor::Limits;
use ocfl_digest::Block;
use ocfl_memory::{MemTree, Point};
use ocfl_report::Further;
use ocfl_scrub::{CycleEnd, cycle};
use std::alloc::Global;
use std::test::Fail;

#[test]
fn a_cycle_over_a_bare_root(rt: HostRuntime) -> Result<(), Fail> {
    let limits = budgets(rt.alloc(), &[1])?;
    let said = "runs 1 spent 0 files 0 clean, ended; cycle 1 runs 1 spent 0 files 0 ended";
    let mut store = bare_root(rt.alloc())?;
    let row = "the declaration alone";
    expect_cycle(&rt, row, &mut store, limits.as_slice(), &["ok|.|-\n"], said)
}

#[test]
fn no_limits(rt: HostRuntime) -> Result<(), Fail> {
    let mut store = three_files(rt.alloc())?;
    let said = "runs 0 spent 0 files 0 clean, open; cycle 1 runs 0 spent 0 files 0 start";
    expect_cycle(&rt, "no limits", &mut store, &[], &[], said)?;
    assert!(rt; was_not_called(&store));
    Ok(())
}

#[test]
fn same_report_whatever_the_limits(rt: HostRuntime) -> Result<(), Fail> {
    let alloc = rt.alloc();
    for (count, budget, files, runs) in [
        (3, 5, MOST, 2),
        (3, 4, MOST, 2),
        (3, 1, MOST, 3),
        (3, 9, MOST, 1),
        (4, 9, 1, 3),
        (4, 9, 2, 2),
        (4, 5, 2, 2),
        (4, 4, 2, 2),
        (4, 9, 3, 1),
    ] {
        let limits = equal_limits(alloc, count, budget, files)?;
        let row = format!(in alloc; "{count} runs, budget {budget}, files {files}")?;
        let said = format!(in alloc;
            "runs {runs} spent 9 files 3 clean, ended; cycle 1 runs {runs} spent 9 files 3 ended"
        )?;
        let mut store = three_files(alloc)?;
        let limits = limits.as_slice();
        expect_cycle(&rt, row.as_str(), &mut store, limits, ALL, said.as_str())?;
        for file in ["o/v1/content/a", "o/v1/content/b", "o/v1/content/c"] {
            assert_eq!(rt; times_opened(alloc, &store, file)?, 1, "{row}: {file}");
        }
    }
    Ok(())
}

/// A name, the budgets of runs over three files, what their cycle writes, and what it says.
const BUDGETS: [(&str, &[u64], &[&str], &str); 2] = [
    (
        "one run too few",
        &[1, 1],
        &[HEADS, A, B],
        "runs 2 spent 5 files 2 clean, open; cycle 1 runs 2 spent 5 files 2 after o/v1/content/b",
    ),
    (
        "as many runs as files",
        &[4, 1, 4],
        ALL,
        "runs 3 spent 9 files 3 clean, ended; cycle 1 runs 3 spent 9 files 3 ended",
    ),
];

#[test]
fn limits_that_run_out(rt: HostRuntime) -> Result<(), Fail> {
    for (row, most, pieces, said) in BUDGETS {
        let limits = budgets(rt.alloc(), most)?;
        let mut store = three_files(rt.alloc())?;
        expect_cycle(&rt, row, &mut store, limits.as_slice(), pieces, said)?;
    }
    Ok(())
}

#[test]
fn finding_in_an_earlier_run(rt: HostRuntime) -> Result<(), Fail> {
    let mut store = three_files(rt.alloc())?;
    store.fail_at(&place_of(rt.alloc(), "o/v1/content/a")?, Point::Open)?;
    let said = "runs 3 spent 6 files 3 found, ended; cycle 1 runs 3 spent 6 files 3 ended";
    let pieces = [HEADS, "S08|o/v1/content/a|-\n", B, C];
    expect_cycle(
        &rt,
        "a finding in the first run",
        &mut store,
        budgets(rt.alloc(), &[1, 1, 1])?.as_slice(),
        &pieces,
        said,
    )
}

#[test]
fn inventories_of_three_runs(rt: HostRuntime) -> Result<(), Fail> {
    let mut store = right_objects(rt.alloc(), &["o1", "o2", "o3"])?;
    let limits = budgets(rt.alloc(), &[1, 1, 1, 1])?;
    let pieces = [
        "ok|.|-\n",
        "ok|o1|-\nok|o1/v1/content/f|3\n",
        "ok|o2|-\nok|o2/v1/content/f|3\n",
        "ok|o3|-\nok|o3/v1/content/f|3\n",
    ];
    let said = "runs 3 spent 12 files 3 clean, ended; cycle 1 runs 3 spent 12 files 3 ended";
    let row = "three objects";
    expect_cycle(&rt, row, &mut store, limits.as_slice(), &pieces, said)?;
    let want =
        "o1/inventory.json;o2/inventory.json;o2/inventory.json;o3/inventory.json;o3/inventory.json;";
    expect_opened(&rt, row, &store, "/inventory.json", want)
}

// Seen to fail if memory is refused from 300 paths, members, keys or algorithms of an inventory on.
#[test]
fn three_hundred_runs(rt: HostRuntime) -> Result<(), Fail> {
    let mut paths = String::new(rt.alloc());
    let mut text = String::from_str(rt.alloc(), HEADS)?;
    let mut all = Vec::new(rt.alloc());
    for number in 100..400u64 {
        let comma = if number > 100 { "," } else { "" };
        paths.push_str(format!(in rt.alloc(); "{comma}\"v1/content/{number}\"")?.as_str())?;
        text.push_str(format!(in rt.alloc(); "ok|o/v1/content/{number}|3\n")?.as_str())?;
        all.push(limits(1, MOST)?)?;
    }
    let mut store = object_listing(rt.alloc(), paths.as_str())?;
    for number in 100..400u64 {
        let path = format!(in rt.alloc(); "o/v1/content/{number}")?;
        put(rt.alloc(), &mut store, path.as_str(), b"abc")?;
    }
    let said =
        "runs 300 spent 1200 files 300 clean, ended; cycle 1 runs 300 spent 1200 files 300 ended";
    let pieces = [text.as_str()];
    expect_cycle(&rt, "300 files", &mut store, all.as_slice(), &pieces, said)
}

// ---- stops

/// What a cycle with these limits writes to a narrow output, and what it says.
pub(crate) fn cycle_into(
    alloc: Global,
    store: &mut MemTree,
    limits: &[Limits],
    out: &mut Narrow,
) -> Result<CycleEnd, Fail> {
    let mut block = Block::new(alloc)?;
    Ok(cycle(alloc, store, Further::Nothing, limits, &mut block, out))
}

#[test]
fn a_cycle_into_ten_bytes(rt: HostRuntime) -> Result<(), Fail> {
    let mut store = long_object(rt.alloc(), "ABC_SHA512")?;
    let mut out = Narrow::new(rt.alloc(), 10);
    let limits = budgets(rt.alloc(), &[9, 9])?;
    let stopped = cycle_into(rt.alloc(), &mut store, limits.as_slice(), &mut out)?;
    let said =
        "runs 1 spent 0 files 0 clean, output failed; cycle 1 runs 1 spent 0 files 0 after .";
    assert_eq!(rt; cycle_says(rt.alloc(), &stopped)?.as_str(), said);
    assert!(rt; out.kept.as_slice() == b"ok\t.\t-\nok\t".as_slice());
    Ok(())
}
