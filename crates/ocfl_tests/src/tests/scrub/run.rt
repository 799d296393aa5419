//! Runs: where they begin, how far they go, and what they say.
use super::expected::HEADS;
use super::run_figures::{
    A, ALL, B, C, MOST, cursor_after, cursor_of, equal_limits, expect_cycle, expect_run,
    expect_runs, limits, run_says,
};
use crate::tests::common::Runtime;
use crate::tests::common::object::{bare_root, object_listing};
use crate::tests::common::output::Narrow;
use crate::tests::common::roots::{missing_and_there, right_object, right_objects, three_files};
use crate::tests::common::store::{
    change, listed_from, opened_from, place_of, put, times_opened, was_not_called,
};
use ocfl_cursor::{Cursor, State};
use ocfl_digest::Block;
use ocfl_memory::MemTree;
use ocfl_report::Further;
use ocfl_scrub::run;
use std::test::Fail;

const THREE_ENDED: &str = "spent 9 files 3 clean, ended; cycle 1 runs 1 spent 9 files 3 ended";

const TWO_BEHIND_B: &str =
    "spent 5 files 2 clean, open; cycle 1 runs 1 spent 5 files 2 after o/v1/content/b";

const ONE_BEHIND_A: &str =
    "spent 4 files 1 clean, open; cycle 1 runs 1 spent 4 files 1 after o/v1/content/a";

const LAST_OF_TWO: &str = "spent 4 files 1 clean, ended; cycle 1 runs 2 spent 9 files 3 ended";

const LAST_TWO: &str = "spent 5 files 2 clean, ended; cycle 1 runs 2 spent 9 files 3 ended";

const SECOND_BEHIND_B: &str =
    "spent 1 files 1 clean, open; cycle 1 runs 2 spent 5 files 2 after o/v1/content/b";

const LAST_OF_THREE: &str = "spent 4 files 1 clean, ended; cycle 1 runs 3 spent 9 files 3 ended";

/// The limit of files of all runs over three files, and of each run its budget, what it writes and
/// what it says.
const RUNS: [(&str, u64, &[(u64, &[&str], &str)]); 10] = [
    (
        "budgets of 5",
        MOST,
        &[(5, &[HEADS, A, B], TWO_BEHIND_B), (5, &[C], LAST_OF_TWO)],
    ),
    (
        "budgets of 4",
        MOST,
        &[(4, &[HEADS, A], ONE_BEHIND_A), (4, &[B, C], LAST_TWO)],
    ),
    (
        "budgets of 1",
        MOST,
        &[
            (1, &[HEADS, A], ONE_BEHIND_A),
            (1, &[B], SECOND_BEHIND_B),
            (1, &[C], LAST_OF_THREE),
        ],
    ),
    ("a budget of 9", MOST, &[(9, ALL, THREE_ENDED)]),
    (
        "budgets of 4, 1 and 4",
        MOST,
        &[
            (4, &[HEADS, A], ONE_BEHIND_A),
            (1, &[B], SECOND_BEHIND_B),
            (4, &[C], LAST_OF_THREE),
        ],
    ),
    (
        "one file a run",
        1,
        &[
            (9, &[HEADS, A], ONE_BEHIND_A),
            (9, &[B], SECOND_BEHIND_B),
            (9, &[C], LAST_OF_THREE),
        ],
    ),
    (
        "two files a run",
        2,
        &[(9, &[HEADS, A, B], TWO_BEHIND_B), (9, &[C], LAST_OF_TWO)],
    ),
    (
        "two files a run, and budgets of 5",
        2,
        &[(5, &[HEADS, A, B], TWO_BEHIND_B), (5, &[C], LAST_OF_TWO)],
    ),
    (
        "two files a run, and budgets of 4",
        2,
        &[(4, &[HEADS, A], ONE_BEHIND_A), (4, &[B, C], LAST_TWO)],
    ),
    ("three files a run", 3, &[(9, ALL, THREE_ENDED)]),
];

#[test]
fn budgets_and_limits_of_files(rt: HostRuntime) -> Result<(), Fail> {
    for (row, files, runs) in RUNS {
        expect_runs(&rt, row, &mut three_files(rt.alloc())?, files, runs)?;
    }
    Ok(())
}

#[test]
fn free_item_behind_the_last_file(rt: HostRuntime) -> Result<(), Fail> {
    let pieces = [HEADS, "ok|o/v1/content/f|3\nE023|o/v1/content/z|-\n"];
    let said = "spent 4 files 1 found, ended; cycle 1 runs 1 spent 4 files 1 ended";
    let all_said = "runs 1 spent 4 files 1 found, ended; cycle 1 runs 1 spent 4 files 1 ended";
    for (row, budget, files) in [("the budget is spent", 4, MOST), ("one file a run", 9, 1)] {
        let mut store = right_object(rt.alloc())?;
        put(rt.alloc(), &mut store, "o/v1/content/z", b"abc")?;
        expect_runs(&rt, row, &mut store, files, &[(budget, &pieces, said)])?;
        let two = equal_limits(rt.alloc(), 2, budget, files)?;
        expect_cycle(&rt, row, &mut store, two.as_slice(), &pieces, all_said)?;
        let opened = times_opened(rt.alloc(), &store, "o/v1/content/z")?;
        assert_eq!(rt; opened, 0, "{row}");
    }
    Ok(())
}

#[test]
fn a_run_over_a_bare_root(rt: HostRuntime) -> Result<(), Fail> {
    let said = "spent 0 files 0 clean, ended; cycle 1 runs 1 spent 0 files 0 ended";
    expect_runs(
        &rt,
        "the declaration alone",
        &mut bare_root(rt.alloc())?,
        MOST,
        &[(1, &["ok|.|-\n"], said)],
    )
}

#[test]
fn slash_before_dash(rt: HostRuntime) -> Result<(), Fail> {
    let mut store = object_listing(rt.alloc(), r#""v1/content/a-b","v1/content/a/b""#)?;
    let files = [("o/v1/content/a/b", "abc"), ("o/v1/content/a-b", "abc")];
    change(rt.alloc(), &mut store, &files)?;
    let runs: [(u64, &[&str], &str); 2] = [
        (
            1,
            &[HEADS, "ok|o/v1/content/a/b|3\n"],
            "spent 4 files 1 clean, open; cycle 1 runs 1 spent 4 files 1 after o/v1/content/a/b",
        ),
        (
            1,
            &["ok|o/v1/content/a-b|3\n"],
            "spent 4 files 1 clean, ended; cycle 1 runs 2 spent 8 files 2 ended",
        ),
    ];
    expect_runs(&rt, "a slash before a dash", &mut store, MOST, &runs)
}

/// Runs from after these places write these pieces and say this.
fn expect_behind(
    rt: &impl Runtime,
    store: &mut MemTree,
    rows: &[(&str, &[&str], &str)],
) -> Result<(), Fail> {
    for (after, pieces, said) in rows {
        let cursor = cursor_after(rt.alloc(), after)?;
        let row = format!(in rt.alloc(); "after {after}")?;
        expect_run(
            rt,
            row.as_str(),
            store,
            cursor,
            limits(9, MOST)?,
            pieces,
            said,
        )?;
    }
    Ok(())
}

const MISSING: &str = "E092|o/v1/content/a|sha256 missing\nE093|o/v1/content/a|sha1 missing\n";

const THERE: &str = "ok|o/v1/content/b|3\n";

const ONE_FOUND: &str = "spent 4 files 1 found, ended; cycle 1 runs 1 spent 4 files 1 ended";

const ONE_CLEAN: &str = "spent 4 files 1 clean, ended; cycle 1 runs 1 spent 4 files 1 ended";

const NOTHING: &str = "spent 0 files 0 clean, ended; cycle 1 runs 1 spent 0 files 0 ended";

#[test]
fn cursor_behind_any_place(rt: HostRuntime) -> Result<(), Fail> {
    let last_two = "spent 5 files 2 clean, ended; cycle 1 runs 1 spent 5 files 2 ended";
    let among_three: [(&str, &[&str], &str); 3] = [
        ("o", &[A, B, C], THREE_ENDED),
        ("o/v1/content/aa", &[B, C], last_two),
        ("o/v1/content/c", &[], NOTHING),
    ];
    expect_behind(&rt, &mut three_files(rt.alloc())?, &among_three)?;
    let around_a_missing_one: [(&str, &[&str], &str); 7] = [
        ("n", &["ok|o|-\n", MISSING, THERE], ONE_FOUND),
        ("o/v0", &[MISSING, THERE], ONE_FOUND),
        ("o/v1", &[MISSING, THERE], ONE_FOUND),
        ("o/v1/content/a", &[THERE], ONE_CLEAN),
        ("o/v1/content/b/x", &[], NOTHING),
        ("o-x", &[], NOTHING),
        ("p/q", &[], NOTHING),
    ];
    expect_behind(
        &rt,
        &mut missing_and_there(rt.alloc())?,
        &around_a_missing_one,
    )
}

#[test]
fn largest_limits_and_figures(rt: HostRuntime) -> Result<(), Fail> {
    let mut store = three_files(rt.alloc())?;
    let row = "the largest limits";
    expect_runs(&rt, row, &mut store, MOST, &[(MOST, ALL, THREE_ENDED)])?;
    let state = State::After(place_of(rt.alloc(), "o/v1/content/b")?);
    let spent = 9_223_372_036_854_775_808u128;
    let cursor = Cursor::from_parts(1, 1, spent, spent, Further::Nothing, state).ok_or(
        "no cursor",
    )?;
    let said =
        "spent 4 files 1 clean, ended; cycle 1 runs 2 spent 9223372036854775812 files 9223372036854775809 ended";
    expect_run(
        &rt,
        "the largest figures",
        &mut store,
        cursor,
        limits(9, MOST)?,
        &[C],
        said,
    )?;
    Ok(())
}

/// The last number that a run or a cycle may have.
const LAST: u64 = 18_446_744_073_709_551_615;

/// A run from the cursor reads all of the three files, and its own cursor then says this.
fn expect_whole_run(rt: &impl Runtime, row: &str, cursor: Cursor, says: &str) -> Result<(), Fail> {
    let alloc = rt.alloc();
    let mut store = three_files(alloc)?;
    let said = format!(in alloc; "spent 9 files 3 clean, ended; {says} spent 9 files 3 ended")?;
    let most = limits(9, MOST)?;
    expect_run(rt, row, &mut store, cursor, most, ALL, said.as_str())?;
    Ok(())
}

#[test]
fn run_behind_the_end_of_a_cycle(rt: HostRuntime) -> Result<(), Fail> {
    let before = 18_446_744_073_709_551_614u64;
    let ended = Cursor::from_parts(1, 2, 9, 3, Further::Nothing, State::Ended).ok_or("no cursor")?;
    for (row, cursor, says) in [
        ("the end of a first cycle", ended, "cycle 2 runs 1"),
        // The last run and the last cycle are not worn.
        (
            "the end after the last run",
            cursor_of(1, LAST, State::Ended)?,
            "cycle 2 runs 1",
        ),
        (
            "the end of the last cycle but one",
            cursor_of(before, 5, State::Ended)?,
            "cycle 18446744073709551615 runs 1",
        ),
        (
            "the last run of the last cycle",
            cursor_of(LAST, before, State::Start)?,
            "cycle 18446744073709551615 runs 18446744073709551615",
        ),
    ] {
        expect_whole_run(&rt, row, cursor, says)?;
    }
    let mut store = three_files(rt.alloc())?;
    let row = "a budget of 1 after the end of a second cycle";
    let ended = Cursor::from_parts(2, 1, 9, 3, Further::Nothing, State::Ended).ok_or("no cursor")?;
    let said = "spent 4 files 1 clean, open; cycle 3 runs 1 spent 4 files 1 after o/v1/content/a";
    expect_run(
        &rt,
        row,
        &mut store,
        ended,
        limits(1, MOST)?,
        &[HEADS, A],
        said,
    )?;
    Ok(())
}

/// The cursor, which says this, is worn: its run makes no call and writes nothing, even if both
/// would fail.
fn is_worn(rt: &impl Runtime, cursor: Cursor, says: &str) -> Result<(), Fail> {
    let alloc = rt.alloc();
    let mut store = three_files(alloc)?;
    store.fail_call(1);
    let (mut block, mut out) = (Block::new(alloc)?, Narrow::new(alloc, 0));
    let end = run(
        alloc,
        &mut store,
        cursor,
        limits(9, MOST)?,
        &mut block,
        &mut out,
    );
    let said = format!(in alloc; "spent 0 files 0 clean, worn; {says}")?;
    assert_eq!(rt; run_says(alloc, &end)?.as_str(), said.as_str());
    assert_eq!(rt; store.failures(), 0);
    assert!(rt; was_not_called(&store));
    assert!(rt; out.kept.is_empty());
    Ok(())
}

#[test]
fn runs_from_worn_cursors(rt: HostRuntime) -> Result<(), Fail> {
    let ended = Cursor::from_parts(LAST, 3, 9, 3, Further::Nothing, State::Ended).ok_or(
        "no cursor",
    )?;
    is_worn(
        &rt,
        ended,
        "cycle 18446744073709551615 runs 3 spent 9 files 3 ended",
    )?;
    let start = cursor_of(1, LAST, State::Start)?;
    is_worn(
        &rt,
        start,
        "cycle 1 runs 18446744073709551615 spent 0 files 0 start",
    )?;
    let behind = State::After(place_of(rt.alloc(), "o/v1")?);
    let behind = Cursor::from_parts(2, LAST, 9, 3, Further::Nothing, behind).ok_or("no cursor")?;
    is_worn(
        &rt,
        behind,
        "cycle 2 runs 18446744073709551615 spent 9 files 3 after o/v1",
    )
}

// ---- what a run lists, and which inventories it opens

/// What each run over three objects writes and says, which inventories it opens, and what it lists.
const ONE_OBJECT_A_RUN: [(&str, &[&str], &str, &str, &str); 3] = [
    (
        "the first run",
        &["ok|.|-\nok|o1|-\nok|o1/v1/content/f|3\nok|o2|-\n"],
        "spent 4 files 1 clean, open; cycle 1 runs 1 spent 4 files 1 after o2",
        "o1/inventory.json;o2/inventory.json;",
        ";o1;o1/v1;o1/v1/content;o2;o2/v1;o2/v1/content;",
    ),
    (
        "the second run",
        &["ok|o2/v1/content/f|3\nok|o3|-\n"],
        "spent 4 files 1 clean, open; cycle 1 runs 2 spent 8 files 2 after o3",
        "o2/inventory.json;o3/inventory.json;",
        ";o2;o2/v1;o2/v1/content;o3;o3/v1;o3/v1/content;",
    ),
    (
        "the third run",
        &["ok|o3/v1/content/f|3\n"],
        "spent 4 files 1 clean, ended; cycle 1 runs 3 spent 12 files 3 ended",
        "o3/inventory.json;",
        ";o3;o3/v1;o3/v1/content;",
    ),
];

#[test]
fn one_object_a_run(rt: HostRuntime) -> Result<(), Fail> {
    let mut store = right_objects(rt.alloc(), &["o1", "o2", "o3"])?;
    let mut cursor = Cursor::new(Further::Nothing);
    for (row, pieces, said, inventories, listed) in ONE_OBJECT_A_RUN {
        let (opened, seen) = (store.openings().len(), store.listings().len());
        cursor = expect_run(&rt, row, &mut store, cursor, limits(1, MOST)?, pieces, said)?;
        let paths = opened_from(rt.alloc(), &store, opened, "/inventory.json")?;
        assert_eq!(rt; paths.as_str(), inventories, "{row}");
        let lists = listed_from(rt.alloc(), &store, seen)?;
        assert_eq!(rt; lists.as_str(), listed, "{row}");
    }
    let paths = opened_from(rt.alloc(), &store, 0, "/inventory.json")?;
    assert_eq!(rt; paths.as_str().split(';').count(), 6);
    Ok(())
}
