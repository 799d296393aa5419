//! Runs with limits of all kinds write, joined, what an audit writes.
use super::run_figures::{Figures, limits, reckoned};
use super::seeded::{Dice, grow};
use super::stop::whole;
use crate::tests::common::Runtime;
use crate::tests::common::store::opened_from;
use ocfl_cursor::{Cursor, Limits};
use ocfl_digest::Block;
use ocfl_memory::MemTree;
use ocfl_report::Further;
use ocfl_scrub::{CycleStatus, RunEnd, RunStatus, cycle, run};
use std::alloc::Global;
use std::test::Fail;

/// What the runs of one cycle did.
#[derive(Drop)]
pub(crate) struct Runs {
    joined: String,
    limits: Vec<Limits>,
    least_budget: u64,
    least_files: u64,
    pub(crate) cursor: Cursor,
}

impl Runs {
    pub(crate) fn new(alloc: Global) -> Runs {
        Runs {
            joined: String::new(alloc),
            limits: Vec::new(alloc),
            least_budget: u64::MAX,
            least_files: u64::MAX,
            cursor: Cursor::new(Further::Nothing),
        }
    }

    /// Makes one more run, by this call, with random limits up to these. Its figures are those of
    /// its own report. It says whether items are left.
    pub(crate) fn one_more(
        &mut self,
        rt: &impl Runtime,
        row: &str,
        dice: &mut Dice,
        most: (u64, u64),
        run: impl FnOnce(Cursor, Limits, &mut Vec<u8>) -> Result<RunEnd, Fail>,
    ) -> Result<bool, Fail> {
        let budget = dice.throw(most.0).saturating_add(1);
        let files = dice.throw(most.1).saturating_add(1);
        self.least_budget = self.least_budget.min(budget);
        self.least_files = self.least_files.min(files);
        let limits = limits(budget, files)?;
        self.limits.push(limits)?;
        let from = std::mem::replace(&mut self.cursor, Cursor::new(Further::Nothing));
        let mut out = Vec::new(rt.alloc());
        let made = run(from, limits, &mut out)?;
        let text = String::from_utf8(out)?;
        let due = reckoned(text.as_str())?;
        assert_eq!(rt; made.spent, due.spent, "{row}: {text}");
        assert_eq!(rt; made.files, due.files, "{row}: {text}");
        assert_eq!(rt; made.found, due.found, "{row}: {text}");
        self.joined.push_str(text.as_str())?;
        let RunEnd { cursor, end, .. } = made;
        self.cursor = cursor;
        let goes_on = matches!(end, RunStatus::Spent);
        assert!(rt; goes_on || matches!(end, RunStatus::Ended), "{row}: {text}");
        Ok(goes_on)
    }

    /// Joined, the runs of a first cycle wrote this report. They are no more than its sums and the
    /// least limits allow.
    pub(crate) fn expect_report(
        &self,
        rt: &impl Runtime,
        row: &str,
        report: &str,
    ) -> Result<(), Fail> {
        assert_eq!(rt; self.joined.as_str(), report, "{row}");
        let all = reckoned(report)?;
        let most = most_runs(&all, self.least_budget, self.least_files)?;
        let runs = self.cursor.runs();
        assert!(rt; runs <= most, "{row}: {runs} runs");
        assert_eq!(rt; self.cursor.spent(), u128::from(all.spent), "{row}");
        assert_eq!(rt; self.cursor.files(), u128::from(all.files), "{row}");
        assert_eq!(rt; self.cursor.cycle(), 1, "{row}");
        Ok(())
    }
}

/// How many runs a cycle has at most, by these figures and limits.
pub(crate) fn most_runs(due: &Figures, budget: u64, files: u64) -> Result<u64, Fail> {
    let by_cost = due.spent.checked_div(budget).ok_or("no budget")?;
    let by_files = due.files.checked_div(files).ok_or("no limit")?;
    Ok(by_cost.saturating_add(by_files).saturating_add(1))
}

/// Makes runs with limits of all kinds until no item is left.
fn runs_of(
    rt: &impl Runtime,
    row: &str,
    store: &mut MemTree,
    dice: &mut Dice,
) -> Result<Runs, Fail> {
    let mut block = Block::new(rt.alloc())?;
    let mut runs = Runs::new(rt.alloc());
    for _ in 0..1_000u64 {
        let goes_on = runs.one_more(rt, row, dice, (12, 5), |from, limits, out| {
            Ok(run(rt.alloc(), store, from, limits, &mut block, out))
        })?;
        if !goes_on {
            return Ok(runs);
        }
    }
    Err("no end within 1,000 runs".into())
}

/// How often inventories were opened.
fn inventories(alloc: Global, store: &MemTree) -> Result<usize, Fail> {
    let paths = opened_from(alloc, store, 0, "/inventory.json")?;
    Ok(paths.as_str().split(';').count())
}

/// How many files were opened of what is read for its content.
fn contents(store: &MemTree) -> usize {
    store
        .openings()
        .iter()
        .filter(|opening| opening.place.path().contains("/content/"))
        .count()
}

/// Each file was opened once, and an inventory once more for each run after the first at most.
fn opened_once(
    rt: &impl Runtime,
    row: &str,
    once: &MemTree,
    store: &MemTree,
    runs: &Runs,
) -> Result<(), Fail> {
    assert_eq!(rt; runs.cursor.files(), contents(store) as u128, "{row}");
    let spare = runs.limits.len().saturating_sub(1);
    let most = inventories(rt.alloc(), once)?.saturating_add(spare);
    assert!(rt; inventories(rt.alloc(), store)? <= most, "{row}");
    Ok(())
}

/// A cycle with the limits of these runs writes this report, and has its figures.
fn cycle_is_the_audit(
    rt: &impl Runtime,
    row: &str,
    store: &mut MemTree,
    limits: &[Limits],
    text: &str,
) -> Result<(), Fail> {
    let alloc = rt.alloc();
    let (mut block, mut out) = (Block::new(alloc)?, Vec::new(alloc));
    let end = cycle(alloc, store, Further::Nothing, limits, &mut block, &mut out);
    let all = reckoned(text)?;
    assert!(rt; matches!(end.end, CycleStatus::Ended), "{row}");
    assert_eq!(rt; end.runs, limits.len(), "{row}");
    assert_eq!(rt; end.spent, u128::from(all.spent), "{row}");
    assert_eq!(rt; end.files, u128::from(all.files), "{row}");
    assert_eq!(rt; end.found, all.found, "{row}");
    assert!(rt; out.as_slice() == text.as_bytes(), "{row}");
    Ok(())
}

/// The runs of the root of this seed write, joined, what an audit of it writes, and so does a cycle
/// with the same limits.
fn root_of_seed(rt: &impl Runtime, seed: u64) -> Result<(), Fail> {
    let alloc = rt.alloc();
    let row = format!(in alloc; "seed {seed}")?;
    let row = row.as_str();
    let mut once = grow(alloc, seed)?;
    let text = whole(alloc, &mut once.store)?;
    let mut grown = grow(alloc, seed)?;
    let mut dice = Dice {
        state: seed.wrapping_add(1_000_000),
    };
    let runs = runs_of(rt, row, &mut grown.store, &mut dice)?;
    runs.expect_report(rt, row, text.as_str())?;
    opened_once(rt, row, &once.store, &grown.store, &runs)?;
    let mut again = grow(alloc, seed)?;
    let limits = runs.limits.as_slice();
    cycle_is_the_audit(rt, row, &mut again.store, limits, text.as_str())
}

#[test]
fn runs_are_an_audit(rt: HostRuntime) -> Result<(), Fail> {
    for seed in 1..101 {
        root_of_seed(&rt, seed)?;
    }
    Ok(())
}
