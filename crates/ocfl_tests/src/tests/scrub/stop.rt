//! What stops audits, runs and cycles: a call of the store, and a byte of the output.
use super::entered::rest_behind;
use super::expected::expect_audit;
use super::faults::expect_dropped;
use super::run_figures::{MOST, budgets, expect_cycle, expect_run, limits};
use super::run_stop::expect_cut_runs;
use crate::tests::common::Runtime;
use crate::tests::common::output::Narrow;
use crate::tests::common::roots::{
    long_object, missing_and_there, right_objects, three_files, two_files, under_four_algorithms,
};
use crate::tests::common::store::place_of;
use ocfl_cursor::Cursor;
use ocfl_digest::Block;
use ocfl_memory::{MemTree, Point};
use ocfl_report::Further;
use ocfl_scrub::{AuditStatus, ReportStop, audit, audited};
use ocfl_tree::Place;
use std::alloc::Global;
use std::test::Fail;

/// Calls that fail over the root of an object by sha512: their places, what was written before, the
/// note, and where the cursor of a run is.
pub(crate) const STOPS: [(&str, &str, Point, &str, &str, &str); 3] = [
    (
        "listing the root",
        ".",
        Point::List,
        "",
        "stopped at .",
        "start",
    ),
    (
        "listing the object",
        "o",
        Point::List,
        "ok|.|-\n",
        "stopped at o",
        "after .",
    ),
    (
        "reading the inventory",
        "o/inventory.json",
        Point::Read(0),
        "ok|.|-\n",
        "stopped at o/inventory.json",
        "after .",
    ),
];

/// That root, with this call failing.
pub(crate) fn stopping(alloc: Global, place: &str, point: Point) -> Result<MemTree, Fail> {
    let mut store = long_object(alloc, "ABC_SHA512")?;
    store.fail_at(&place_of(alloc, place)?, point)?;
    Ok(store)
}

#[test]
fn calls_that_stop(rt: HostRuntime) -> Result<(), Fail> {
    let alloc = rt.alloc();
    let (one, two) = (limits(9, MOST)?, budgets(alloc, &[9, 9])?);
    for (row, place, point, text, note, state) in STOPS {
        let mut store = stopping(alloc, place, point)?;
        expect_audit(&rt, row, &mut store, text, 3, note)?;
        let said = format!(in alloc;
            "spent 0 files 0 clean, {note}; cycle 1 runs 1 spent 0 files 0 {state}"
        )?;
        let mut store = stopping(alloc, place, point)?;
        let start = Cursor::new(Further::Nothing);
        expect_run(&rt, row, &mut store, start, one, &[text], said.as_str())?;
        let said = format!(in alloc; "runs 1 {said}")?;
        let mut store = stopping(alloc, place, point)?;
        let limits = two.as_slice();
        expect_cycle(&rt, row, &mut store, limits, &[text], said.as_str())?;
    }
    Ok(())
}

#[test]
fn nothing_is_listed_after_a_listing_that_fails(rt: HostRuntime) -> Result<(), Fail> {
    let alloc = rt.alloc();
    let mut store = stopping(alloc, "o", Point::List)?;
    store.put_dir(&place_of(alloc, "p")?)?;
    let row = "listing the object";
    expect_audit(&rt, row, &mut store, "ok|.|-\n", 3, "stopped at o")?;
    let listed = [Place::root(alloc), place_of(alloc, "o")?];
    assert!(rt; store.listings() == listed.as_slice());
    Ok(())
}

#[test]
fn place_of_the_last_item(rt: HostRuntime) -> Result<(), Fail> {
    let alloc = rt.alloc();
    let mut block = Block::new(alloc)?;
    let mut store = stopping(alloc, "o", Point::List)?;
    let stopped = audit(
        alloc,
        &mut store,
        Further::Nothing,
        &mut block,
        &mut Vec::new(alloc),
    );
    assert!(rt; stopped.last == Some(Place::root(alloc)));
    let mut store = long_object(alloc, "ABC_SHA512")?;
    let ended = audit(
        alloc,
        &mut store,
        Further::Nothing,
        &mut block,
        &mut Vec::new(alloc),
    );
    assert!(rt; matches!(ended.end, AuditStatus::Ended));
    assert!(rt; ended.last == Some(place_of(alloc, "o/v1/content/f")?));
    let mut out = Narrow::new(alloc, 10);
    let stopped = audit(alloc, &mut store, Further::Nothing, &mut block, &mut out);
    assert!(rt; matches!(stopped.end, AuditStatus::Stopped(ReportStop::Output)));
    assert!(rt; stopped.last == Some(Place::root(alloc)));
    assert!(rt; out.kept.as_slice() == b"ok\t.\t-\nok\t".as_slice());
    Ok(())
}

/// What an audit of the root writes.
pub(crate) fn whole(alloc: Global, store: &mut MemTree) -> Result<String, Fail> {
    let mut out = Vec::new(alloc);
    let _ = audited(
        alloc,
        store,
        Further::Nothing,
        &mut Block::new(alloc)?,
        &mut out,
    );
    Ok(String::from_utf8(out)?)
}

/// How many storage roots `root_by` has.
pub(crate) const ROOTS: u64 = 6;

/// One of the storage roots that are tried with each failure.
pub(crate) fn root_by(alloc: Global, number: u64) -> Result<MemTree, Fail> {
    match number {
        0 => missing_and_there(alloc),
        1 => three_files(alloc),
        2 => long_object(alloc, "ABC_SHA512"),
        3 => under_four_algorithms(alloc),
        4 => two_files(alloc),
        _ => right_objects(alloc, &["o1", "o2", "o3"]),
    }
}

/// A storage root, by its number, and what an audit of it writes.
#[derive(Drop)]
pub(crate) struct Tried {
    pub(crate) number: u64,
    pub(crate) store: MemTree,
    pub(crate) all: String,
}

impl Tried {
    pub(crate) fn new(alloc: Global, number: u64) -> Result<Tried, Fail> {
        let mut store = root_by(alloc, number)?;
        let all = whole(alloc, &mut store)?;
        Ok(Tried { number, store, all })
    }

    /// There are `count` of these bytes, and they begin the report.
    pub(crate) fn begins_with(&self, bytes: &[u8], count: usize) -> bool {
        bytes.len() == count && self.all.as_bytes().starts_with(bytes)
    }
}

/// An audit whose output takes `room` bytes of the report says so. A walk after its last place
/// gives the rest, so that of the item that did not go out whole at most a beginning went out.
fn expect_cut_audit(rt: &impl Runtime, root: &mut Tried, room: usize) -> Result<(), Fail> {
    let alloc = rt.alloc();
    let mut block = Block::new(alloc)?;
    let row = format!(in alloc; "root {}, room {room}", root.number)?;
    let mut out = Narrow::new(alloc, room);
    let (status, note) = audited(
        alloc,
        &mut root.store,
        Further::Nothing,
        &mut block,
        &mut out,
    );
    assert_eq!(rt; status, 3, "{row}");
    let said = format!(in alloc; "{note}")?;
    assert_eq!(rt; said.as_str(), "output failed", "{row}");
    assert!(rt; root.begins_with(out.kept.as_slice(), room), "{row}");
    let mut out = Narrow::new(alloc, room);
    let end = audit(
        alloc,
        &mut root.store,
        Further::Nothing,
        &mut block,
        &mut out,
    );
    let rest = rest_behind(alloc, &mut root.store, end.last.as_ref(), &mut block)?;
    let gone = root.all.strip_suffix(rest.as_str()).ok_or("no such end")?;
    assert!(rt; out.kept.starts_with(gone.as_bytes()), "{row}");
    assert!(rt; root.begins_with(out.kept.as_slice(), room), "{row}");
    Ok(())
}

#[test]
fn output_that_fails_at_each_byte(rt: HostRuntime) -> Result<(), Fail> {
    for number in 0..ROOTS {
        let mut root = Tried::new(rt.alloc(), number)?;
        for room in 0..root.all.len() {
            expect_cut_audit(&rt, &mut root, room)?;
            expect_dropped(&rt, &mut root, room)?;
            for budget in [100, 1] {
                expect_cut_runs(&rt, &mut root, room, budget)?;
            }
        }
        let room = root.all.len();
        expect_dropped(&rt, &mut root, room)?;
    }
    Ok(())
}

/// An audit of a store whose call fails writes whole items of the report, or says which file it
/// did not read. A walk after the last place gives the rest. It says whether there is such a call.
fn expect_failing_audit(rt: &impl Runtime, root: &Tried, call: u64) -> Result<bool, Fail> {
    let alloc = rt.alloc();
    let (mut block, mut out) = (Block::new(alloc)?, Vec::new(alloc));
    let mut store = root_by(alloc, root.number)?;
    store.fail_call(call);
    let row = format!(in alloc; "call {call} of root {}", root.number)?;
    let (status, _) = audited(alloc, &mut store, Further::Nothing, &mut block, &mut out);
    let text = String::from_utf8(out)?;
    if store.failures() == 0 {
        assert_eq!(rt; text.as_str(), root.all.as_str(), "{row}");
        return Ok(false);
    }
    if status == 3 {
        assert!(rt; root.all.starts_with(text.as_str()), "{row}");
        assert!(rt; text.is_empty() || text.ends_with('\n'), "{row}");
    } else {
        assert!(rt; text.contains("\nS08\t"), "{row}");
    }
    let mut store = root_by(alloc, root.number)?;
    store.fail_call(call);
    let end = audit(
        alloc,
        &mut store,
        Further::Nothing,
        &mut block,
        &mut Vec::new(alloc),
    );
    let rest = rest_behind(alloc, &mut store, end.last.as_ref(), &mut block)?;
    if text.contains("\nS08\t") {
        assert_eq!(rt; rest.as_str(), "", "{row}");
    } else {
        let joined = format!(in alloc; "{text}{rest}")?;
        assert_eq!(rt; joined.as_str(), root.all.as_str(), "{row}");
    }
    Ok(true)
}

#[test]
fn audits_with_each_call_failing(rt: HostRuntime) -> Result<(), Fail> {
    for number in 0..ROOTS {
        let root = Tried::new(rt.alloc(), number)?;
        for call in 1..1_000u64 {
            if !expect_failing_audit(&rt, &root, call)? {
                break;
            }
        }
    }
    Ok(())
}
