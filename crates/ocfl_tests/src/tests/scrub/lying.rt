//! Stores that lie, in that what they tell changes, and one that lacks memory.
ghost use Rattle.std.specs.Prelude.{false};
ghost use Rattle.ocfl_tree.specs.Store.{empty_store};

use super::faults::{expect_rest, ran};
use super::run_figures::{MOST, limits};
use super::stop::{ROOTS, Tried, root_by};
use crate::tests::common::Runtime;
use ocfl_cursor::Cursor;
use ocfl_digest::Block;
use ocfl_memory::MemTree;
use ocfl_report::{Further, read_place};
use ocfl_scrub::{ReportStop, RunEnd, RunStatus, run};
use ocfl_tree::{Entry, Place, Tree, Trouble};
use ocfl_walk::Fault;
use std::test::Fail;

/// A store that tells of one root and of another by turns, with each call.
#[derive(Drop)]
struct Restless {
    first: MemTree,
    second: MemTree,
    calls: u64,
    is_second_open: bool,
}

impl Restless {
    fn is_first_due(&mut self) -> bool {
        self.calls = self.calls.wrapping_add(1);
        self.calls % 3 != 0
    }
}

impl Tree for Restless {
    ghost told = { false };

    ghost state = { λ _. empty_store };

    fn list(&mut self, place: &Place) -> Result<Vec<Entry>, Trouble> {
        if self.is_first_due() {
            self.first.list(place)
        } else {
            self.second.list(place)
        }
    }

    fn open(&mut self, place: &Place) -> Result<(), Trouble> {
        self.is_second_open = !self.is_first_due();
        if self.is_second_open {
            self.second.open(place)
        } else {
            self.first.open(place)
        }
    }

    fn read(&mut self, buffer: &mut [u8]) -> Result<usize, Trouble> {
        if self.is_second_open {
            self.second.read(buffer)
        } else {
            self.first.read(buffer)
        }
    }

    fn close(&mut self) {
        self.first.close();
        self.second.close();
    }
}

/// The places of a report's lines do not descend.
fn expect_ascending(rt: &impl Runtime, report: &str, what: &str) -> Result<(), Fail> {
    let alloc = rt.alloc();
    let mut before = Place::root(alloc);
    for line in report.lines() {
        let text = line.split('\t').nth(1).ok_or("no place")?;
        let place = read_place(alloc, text.as_bytes())?;
        assert!(rt; before <= place, "{what}: {line}");
        before = place;
    }
    Ok(())
}

/// Runs over a store that changes end, cost what their limits allow, and report in order.
fn expect_order(rt: &impl Runtime, store: &mut Restless, what: &str) -> Result<(), Fail> {
    let alloc = rt.alloc();
    let mut block = Block::new(alloc)?;
    let mut cursor = Cursor::new(Further::Nothing);
    let mut report = Vec::new(alloc);
    for _ in 0..10u64 {
        let one = limits(5, MOST)?;
        let made = run(alloc, store, cursor, one, &mut block, &mut report);
        // No file has more than three bytes.
        assert!(rt; made.spent < 5 + 4, "{what}");
        let RunEnd {
            cursor: reached,
            end,
            ..
        } = made;
        cursor = reached;
        if !is_open(&end) {
            break;
        }
    }
    let report = String::from_utf8(report)?;
    expect_ascending(rt, report.as_str(), what)
}

fn is_open(end: &RunStatus) -> bool {
    matches!(end, RunStatus::Spent)
}

#[test]
fn listings_and_files_that_change(rt: HostRuntime) -> Result<(), Fail> {
    let alloc = rt.alloc();
    for number in 0..ROOTS {
        for calls in 0..12u64 {
            let what = format!(in alloc; "root {number}, from call {calls}")?;
            let mut store = Restless {
                first: root_by(alloc, number)?,
                second: root_by(alloc, (number + 1 + calls % 4) % ROOTS)?,
                calls,
                is_second_open: false,
            };
            expect_order(&rt, &mut store, what.as_str())?;
        }
    }
    Ok(())
}

/// A store that has no memory for one of its calls, and for none after it.
#[derive(Drop)]
struct Scant {
    inner: MemTree,
    calls: u64,
}

impl Scant {
    /// Whether this call finds memory; if it does not, no file is open.
    fn find_memory(&mut self) -> Result<(), Trouble> {
        self.calls = self.calls.saturating_sub(1);
        if self.calls > 0 {
            return Ok(());
        }
        self.inner.close();
        Err(Trouble::Memory)
    }
}

impl Tree for Scant {
    ghost told = { false };

    ghost state = { λ _. empty_store };

    fn list(&mut self, place: &Place) -> Result<Vec<Entry>, Trouble> {
        self.find_memory()?;
        self.inner.list(place)
    }

    fn open(&mut self, place: &Place) -> Result<(), Trouble> {
        self.find_memory()?;
        self.inner.open(place)
    }

    fn read(&mut self, buffer: &mut [u8]) -> Result<usize, Trouble> {
        self.find_memory()?;
        self.inner.read(buffer)
    }

    fn close(&mut self) {
        self.inner.close();
    }
}

#[test]
fn memory_that_a_call_of_the_store_lacks(rt: HostRuntime) -> Result<(), Fail> {
    let alloc = rt.alloc();
    for number in 0..ROOTS {
        let all = Tried::new(alloc, number)?.all;
        for calls in 1..1_000u64 {
            let inner = root_by(alloc, number)?;
            let mut store = Scant { inner, calls };
            let got = ran(alloc, &mut store, Cursor::new(Further::Nothing))?;
            let what = format!(in alloc; "root {number}, call {calls}")?;
            if store.calls > 0 {
                assert_eq!(rt; got.text.as_str(), all.as_str(), "{what}");
                break;
            }
            let is_told = matches!(
                got.end.end,
                RunStatus::Stopped(ReportStop::Fault(Fault::Memory))
            );
            assert!(rt; is_told, "{what}");
            expect_rest(&rt, number, all.as_str(), got, what.as_str())?;
        }
    }
    Ok(())
}
