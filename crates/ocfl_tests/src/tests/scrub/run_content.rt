//! Runs over content that cannot be read.
use super::expected::HEADS;
use super::odd_answers::forgetful;
use super::run_figures::{B, C, MOST, budgets, expect_cycle, expect_runs};
use crate::tests::common::object::FILE;
use crate::tests::common::roots::{
    first_fails, long_file_fails, under_four_algorithms, unread_in_fixity_alone,
};
use crate::tests::common::store::{place_of, times_opened};
use ocfl_memory::Point;
use std::test::Fail;

const A_FAILS: &str = "S08|o/v1/content/a|-\n";

const F_FAILS: &str = "S08|o/v1/content/f|-\n";

/// Whether three files, of which the first fails, come a byte a read; and of each run the budget,
/// what it writes and what it says.
const RUNS: [(&str, bool, &[(u64, &[&str], &str)]); 3] = [
    (
        "a byte a read, and budgets of 3",
        true,
        &[
            (
                3,
                &[HEADS, A_FAILS],
                "spent 3 files 1 found, open; cycle 1 runs 1 spent 3 files 1 after o/v1/content/a",
            ),
            (
                3,
                &[B, C],
                "spent 5 files 2 clean, ended; cycle 1 runs 2 spent 8 files 3 ended",
            ),
        ],
    ),
    (
        "a byte a read, and budgets of 4",
        true,
        &[
            (
                4,
                &[HEADS, A_FAILS, B],
                "spent 4 files 2 found, open; cycle 1 runs 1 spent 4 files 2 after o/v1/content/b",
            ),
            (
                4,
                &[C],
                "spent 4 files 1 clean, ended; cycle 1 runs 2 spent 8 files 3 ended",
            ),
        ],
    ),
    // One read delivers all of the file, which is paid for.
    (
        "one read, and budgets of 4",
        false,
        &[
            (
                4,
                &[HEADS, A_FAILS],
                "spent 4 files 1 found, open; cycle 1 runs 1 spent 4 files 1 after o/v1/content/a",
            ),
            (
                4,
                &[B, C],
                "spent 5 files 2 clean, ended; cycle 1 runs 2 spent 9 files 3 ended",
            ),
        ],
    ),
];

#[test]
fn delivered_bytes_are_paid_for(rt: HostRuntime) -> Result<(), Fail> {
    for (row, by_bytes, runs) in RUNS {
        let mut store = first_fails(rt.alloc(), by_bytes)?;
        expect_runs(&rt, row, &mut store, MOST, runs)?;
    }
    Ok(())
}

#[test]
fn cost_of_all_with_a_failure(rt: HostRuntime) -> Result<(), Fail> {
    let limits = budgets(rt.alloc(), &[9])?;
    for (row, by_bytes, said) in [
        (
            "a byte a read",
            true,
            "runs 1 spent 8 files 3 found, ended; cycle 1 runs 1 spent 8 files 3 ended",
        ),
        (
            "one read",
            false,
            "runs 1 spent 9 files 3 found, ended; cycle 1 runs 1 spent 9 files 3 ended",
        ),
    ] {
        let mut store = first_fails(rt.alloc(), by_bytes)?;
        expect_cycle(
            &rt,
            row,
            &mut store,
            limits.as_slice(),
            &[HEADS, A_FAILS, B, C],
            said,
        )?;
        assert_eq!(rt; store.failures(), 1, "{row}");
    }
    Ok(())
}

#[test]
fn runs_over_a_long_file_that_fails(rt: HostRuntime) -> Result<(), Fail> {
    for (row, point, cost, first, second) in [
        (
            "the last byte",
            Point::Read(65_536),
            65_537,
            "spent 65537 files 1 found, open; cycle 1 runs 1 spent 65537 files 1 after o/v1/content/f",
            "spent 4 files 1 clean, ended; cycle 1 runs 2 spent 65541 files 2 ended",
        ),
        (
            "the opening",
            Point::Open,
            1,
            "spent 1 files 1 found, open; cycle 1 runs 1 spent 1 files 1 after o/v1/content/f",
            "spent 4 files 1 clean, ended; cycle 1 runs 2 spent 5 files 2 ended",
        ),
    ] {
        let mut store = long_file_fails(rt.alloc(), point)?;
        let runs: [(u64, &[&str], &str); 2] = [
            (cost, &[HEADS, F_FAILS], first),
            (cost, &["ok|o/v1/content/g|3\n"], second),
        ];
        expect_runs(&rt, row, &mut store, MOST, &runs)?;
        for file in [FILE, "o/v1/content/g"] {
            assert_eq!(rt; times_opened(rt.alloc(), &store, file)?, 1, "{row}: {file}");
        }
        assert!(rt; store.largest_read() <= 65_536, "{row}");
    }
    Ok(())
}

#[test]
fn file_that_cannot_be_opened(rt: HostRuntime) -> Result<(), Fail> {
    let said = "spent 1 files 1 found, ended; cycle 1 runs 1 spent 1 files 1 ended";
    let text = "E023|o/v1/content/f|-\nS08|o/v1/content/f|-\n";
    let mut store = unread_in_fixity_alone(rt.alloc())?;
    let row = "fixity alone";
    expect_runs(&rt, row, &mut store, MOST, &[(1, &[HEADS, text], said)])?;
    let mut store = forgetful(rt.alloc(), FILE)?;
    let row = "a file that is not found";
    expect_runs(&rt, row, &mut store, MOST, &[(1, &[HEADS, F_FAILS], said)])
}

#[test]
fn file_under_four_algorithms_fails(rt: HostRuntime) -> Result<(), Fail> {
    let said = "runs 1 spent 1 files 1 found, ended; cycle 1 runs 1 spent 1 files 1 ended";
    for (row, point) in [
        ("the opening", Point::Open),
        ("the first byte", Point::Read(0)),
    ] {
        let mut store = under_four_algorithms(rt.alloc())?;
        store.fail_at(&place_of(rt.alloc(), FILE)?, point)?;
        let limits = budgets(rt.alloc(), &[1])?;
        let pieces = [HEADS, F_FAILS];
        expect_cycle(&rt, row, &mut store, limits.as_slice(), &pieces, said)?;
        assert_eq!(rt; times_opened(rt.alloc(), &store, FILE)?, 1, "{row}");
    }
    Ok(())
}
