//! What the tests of runs share: limits, cursors, and what runs and cycles say.
use super::expected::HEADS;
use crate::tests::common::Runtime;
use crate::tests::common::digests::{ABC_SHA256, NOTHING_SHA256, lines_of};
use crate::tests::common::store::place_of;
use ocfl_cursor::{Budget, Cursor, FileLimit, Limits, State};
use ocfl_digest::Block;
use ocfl_report::{DisplayPlace, Further};
use ocfl_scrub::{CycleEnd, CycleStatus, ReportStop, RunEnd, RunStatus, cycle, run};
use ocfl_tree::Tree;
use ocfl_walk::Fault;
use std::alloc::Global;
use std::test::Fail;

/// The largest limit of files, and the largest budget.
pub(crate) const MOST: u64 = 4_611_686_018_427_387_904;

// The items of the content files of one object.
pub(crate) const A: &str = "ok|o/v1/content/a|3\n";

pub(crate) const B: &str = "ok|o/v1/content/b|0\n";

pub(crate) const C: &str = "ok|o/v1/content/c|3\n";

/// All items of the root of three files.
pub(crate) const ALL: &[&str] = &[HEADS, A, B, C];

pub(crate) fn limits(budget: u64, files: u64) -> Result<Limits, Fail> {
    let budget = Budget::new(budget).ok_or("no budget")?;
    let files = FileLimit::new(files).ok_or("no limit of files")?;
    Ok(Limits { budget, files })
}

/// Limits of these budgets, and of no fewer files than there can be.
pub(crate) fn budgets(alloc: Global, budgets: &[u64]) -> Result<Vec<Limits>, Fail> {
    let mut all = Vec::new(alloc);
    for budget in budgets {
        all.push(limits(*budget, MOST)?)?;
    }
    Ok(all)
}

/// The limits of `count` runs, all of this budget and of this limit of files.
pub(crate) fn equal_limits(
    alloc: Global,
    count: usize,
    budget: u64,
    files: u64,
) -> Result<Vec<Limits>, Fail> {
    let mut all = Vec::new(alloc);
    for _ in 0..count {
        all.push(limits(budget, files)?)?;
    }
    Ok(all)
}

/// A cursor of the first cycle that has had no run and is after this place.
pub(crate) fn cursor_after(alloc: Global, path: &str) -> Result<Cursor, Fail> {
    cursor_of(1, 0, State::After(place_of(alloc, path)?))
}

/// A cursor that has spent nothing.
pub(crate) fn cursor_of(cycle: u64, runs: u64, state: State) -> Result<Cursor, Fail> {
    Ok(Cursor::from_parts(cycle, runs, 0, 0, Further::Nothing, state).ok_or("no cursor")?)
}

pub(crate) fn why_says(alloc: Global, why: &ReportStop) -> Result<String, Fail> {
    match why {
        ReportStop::Fault(Fault::Store(place)) => Ok(format!(in alloc;
            "stopped at {}",
            DisplayPlace(place)
        )?),
        ReportStop::Fault(Fault::Memory) => Ok(format!(in alloc; "out of memory")?),
        ReportStop::Output => Ok(format!(in alloc; "output failed")?),
    }
}

fn state_says(alloc: Global, state: &State) -> Result<String, Fail> {
    match state {
        State::Start => Ok(format!(in alloc; "start")?),
        State::After(place) => Ok(format!(in alloc; "after {}", DisplayPlace(place))?),
        State::Ended => Ok(format!(in alloc; "ended")?),
    }
}

fn cursor_says(alloc: Global, cursor: &Cursor) -> Result<String, Fail> {
    let (cycle, runs) = (cursor.cycle(), cursor.runs());
    let (spent, files) = (cursor.spent(), cursor.files());
    let state = state_says(alloc, cursor.state())?;
    Ok(format!(in alloc; "cycle {cycle} runs {runs} spent {spent} files {files} {state}")?)
}

fn status_says(alloc: Global, end: &RunStatus) -> Result<String, Fail> {
    match end {
        RunStatus::Ended => Ok(format!(in alloc; "ended")?),
        RunStatus::Spent => Ok(format!(in alloc; "open")?),
        RunStatus::Worn => Ok(format!(in alloc; "worn")?),
        RunStatus::Stopped(why) => why_says(alloc, why),
    }
}

/// What it spent and started, whether it found something, how it ended, and its cursor.
pub(crate) fn run_says(alloc: Global, run: &RunEnd) -> Result<String, Fail> {
    let (spent, files) = (run.spent, run.files);
    let found = if run.found { "found" } else { "clean" };
    let end = status_says(alloc, &run.end)?;
    let cursor = cursor_says(alloc, &run.cursor)?;
    Ok(format!(in alloc; "spent {spent} files {files} {found}, {end}; {cursor}")?)
}

fn cycle_status_says(alloc: Global, end: &CycleStatus) -> Result<String, Fail> {
    match end {
        CycleStatus::Ended => Ok(format!(in alloc; "ended")?),
        CycleStatus::Spent => Ok(format!(in alloc; "open")?),
        CycleStatus::Stopped(why) => why_says(alloc, why),
    }
}

/// The same of a cycle, with its runs first.
pub(crate) fn cycle_says(alloc: Global, cycle: &CycleEnd) -> Result<String, Fail> {
    let (runs, spent, files) = (cycle.runs, cycle.spent, cycle.files);
    let found = if cycle.found { "found" } else { "clean" };
    let end = cycle_status_says(alloc, &cycle.end)?;
    let cursor = cursor_says(alloc, &cycle.cursor)?;
    Ok(format!(in alloc; "runs {runs} spent {spent} files {files} {found}, {end}; {cursor}")?)
}

/// A run from the cursor writes these pieces, and says this. It gives its cursor.
pub(crate) fn expect_run<T: Tree>(
    rt: &impl Runtime,
    row: &str,
    store: &mut T,
    cursor: Cursor,
    limits: Limits,
    pieces: &[&str],
    said: &str,
) -> Result<Cursor, Fail> {
    let alloc = rt.alloc();
    let (mut block, mut out) = (Block::new(alloc)?, Vec::new(alloc));
    let end = run(alloc, store, cursor, limits, &mut block, &mut out);
    expect_run_end(rt, row, end, out, (pieces, said))
}

/// A run that ended so wrote these pieces, and says this. It gives its cursor.
pub(crate) fn expect_run_end(
    rt: &impl Runtime,
    row: &str,
    end: RunEnd,
    out: Vec<u8>,
    (pieces, said): (&[&str], &str),
) -> Result<Cursor, Fail> {
    expect_text(rt, row, out, pieces, said)?;
    let says = run_says(rt.alloc(), &end)?;
    assert_eq!(rt; says.as_str(), said, "{row}");
    let RunEnd { cursor, .. } = end;
    Ok(cursor)
}

/// These bytes are the pieces, one after the other, with tabs for their bars.
pub(crate) fn expect_text(
    rt: &impl Runtime,
    row: &str,
    out: Vec<u8>,
    pieces: &[&str],
    said: &str,
) -> Result<(), Fail> {
    let text = pieces.concat(rt.alloc())?;
    let wanted = lines_of(rt.alloc(), text.as_str())?;
    let wrote = String::from_utf8(out)?;
    assert_eq!(rt; wrote.as_str(), wanted.as_str(), "{row}: {said}");
    Ok(())
}

/// The runs of a first cycle, each with its budget and all with this limit of files, write these
/// pieces and say this.
pub(crate) fn expect_runs<T: Tree>(
    rt: &impl Runtime,
    row: &str,
    store: &mut T,
    files: u64,
    runs: &[(u64, &[&str], &str)],
) -> Result<(), Fail> {
    let mut cursor = Cursor::new(Further::Nothing);
    for (budget, pieces, said) in runs {
        cursor = expect_run(
            rt,
            row,
            store,
            cursor,
            limits(*budget, files)?,
            pieces,
            said,
        )?;
    }
    Ok(())
}

/// A cycle with these limits writes these pieces, and says this.
pub(crate) fn expect_cycle<T: Tree>(
    rt: &impl Runtime,
    row: &str,
    store: &mut T,
    limits: &[Limits],
    pieces: &[&str],
    said: &str,
) -> Result<(), Fail> {
    let alloc = rt.alloc();
    let (mut block, mut out) = (Block::new(alloc)?, Vec::new(alloc));
    let end = cycle(alloc, store, Further::Nothing, limits, &mut block, &mut out);
    expect_text(rt, row, out, pieces, said)?;
    let says = cycle_says(alloc, &end)?;
    assert_eq!(rt; says.as_str(), said, "{row}");
    Ok(())
}

/// What the files of a report cost, how many they are, and whether it has a finding.
#[derive(Drop)]
pub(crate) struct Figures {
    pub(crate) spent: u64,
    pub(crate) files: u64,
    pub(crate) found: bool,
}

/// The figures of a report by its lines alone. It has no file but of `abc` or no bytes, each under
/// SHA-256 alone, and all of them can be read.
pub(crate) fn reckoned(report: &str) -> Result<Figures, Fail> {
    let mut sum = Figures {
        spent: 0,
        files: 0,
        found: false,
    };
    for line in report.lines() {
        let (code, rest) = line.split_once('\t').ok_or("no place")?;
        let (_, detail) = rest.split_once('\t').ok_or("no detail")?;
        let cost = cost_of(code, detail);
        sum.spent = sum.spent.checked_add(cost).ok_or("too much")?;
        sum.files = sum.files.checked_add(cost.min(1)).ok_or("too many")?;
        if code != "ok" && code != "S07" {
            sum.found = true;
        }
    }
    Ok(sum)
}

/// A file's bytes and one more, if the line says that it was read.
fn cost_of(code: &str, detail: &str) -> u64 {
    let is_read = code == "ok" || code == "E092";
    if is_read && (detail == "3" || detail.ends_with(ABC_SHA256)) {
        4
    } else if is_read && (detail == "0" || detail.ends_with(NOTHING_SHA256)) {
        1
    } else {
        0
    }
}

/// How many bytes the items have that went out whole, if `room` bytes of the report did. Lines
/// of one place are one item.
fn whole_items(report: &str, room: usize) -> usize {
    let mut whole = 0;
    let mut end = 0usize;
    let mut before: &[u8] = b"";
    for line in report.split_inclusive('\n') {
        let place = line.split('\t').nth(1).unwrap_or("").as_bytes();
        if place != before && end <= room {
            whole = end;
        }
        before = place;
        end = end.saturating_add(line.len());
    }
    whole
}

/// How many items these lines are. Lines of one place are one item.
pub(crate) fn items_in(report: &str) -> usize {
    let mut count = 0usize;
    let mut before: Option<&str> = None;
    for line in report.lines() {
        let place = line.split('\t').nth(1);
        if place != before {
            count = count.saturating_add(1);
        }
        before = place;
    }
    count
}

/// The figures of the items that went out whole, if `room` bytes of the report did, and the
/// report after them.
pub(crate) fn due_of(report: &str, room: usize) -> Result<(Figures, &str), Fail> {
    let (went, left) = report
        .split_at_checked(whole_items(report, room))
        .ok_or("no such byte")?;
    Ok((reckoned(went)?, left))
}
