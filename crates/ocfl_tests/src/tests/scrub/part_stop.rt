//! Audits, runs and cycles of parts that begin inside an object, with each call of the store
//! failing in turn.
use super::run_figures::{MOST, cursor_of, due_of, equal_limits, limits};
use crate::tests::common::Runtime;
use crate::tests::common::cursors::end_at;
use crate::tests::common::roots::right_objects;
use ocfl_cursor::{Cursor, State};
use ocfl_digest::Block;
use ocfl_memory::MemTree;
use ocfl_report::Further;
use ocfl_scrub::{
    AuditEnd, AuditStatus, CycleEnd, CycleStatus, Part, ReportStop, RunEnd, RunStatus, audit_part,
    cycle_part, run_part,
};
use ocfl_walk::Fault;
use std::alloc::Global;
use std::test::Fail;

/// The places between which a part of the root of two objects is, `-` for none, and its report.
const INSIDE: [(&str, &str, &str); 3] = [
    (
        "o1/v1/content/f",
        "-",
        "ok\to1/v1/content/f\t3\nok\to2\t-\nok\to2/v1/content/f\t3\n",
    ),
    (
        "o1/v1",
        "-",
        "ok\to1/v1/content/f\t3\nok\to2\t-\nok\to2/v1/content/f\t3\n",
    ),
    (
        "o1/v1/content",
        "o2/v1",
        "ok\to1/v1/content/f\t3\nok\to2\t-\n",
    ),
];

/// A part of the root of two objects: the path that it begins at, and its report.
#[derive(Drop)]
struct Inside {
    row: &'static str,
    part: Part,
    text: &'static str,
}

impl Inside {
    fn new(
        alloc: Global,
        row: &(&'static str, &'static str, &'static str),
    ) -> Result<Inside, Fail> {
        let (from, below, text) = *row;
        let part = Part::between(alloc, end_at(alloc, from)?, end_at(alloc, below)?);
        Ok(Inside {
            row: from,
            part,
            text,
        })
    }
}

fn two_objects(alloc: Global) -> Result<MemTree, Fail> {
    right_objects(alloc, &["o1", "o2"])
}

/// How a call over a part ended.
#[derive(Drop)]
struct Ending {
    /// What it wrote.
    text: String,
    /// Whether a call of the store stopped it; if not, it ended.
    stopped: bool,
    /// Where a run goes on: of an audit, after its last place.
    cursor: Cursor,
    /// Whether the cursor counts what was spent; an audit counts nothing.
    counts: bool,
    found: bool,
}

/// The ending of a call that wrote this, and either stopped at a place or ended.
fn ending_of(
    out: Vec<u8>,
    (stopped, ended): (bool, bool),
    cursor: Cursor,
    counts: bool,
    found: bool,
) -> Result<Ending, Fail> {
    if stopped == ended {
        return Err("it neither ended nor stopped at a place".into());
    }
    let text = String::from_utf8(out)?;
    Ok(Ending {
        text,
        stopped,
        cursor,
        counts,
        found,
    })
}

fn try_audit(alloc: Global, store: &mut MemTree, part: &Part) -> Result<Ending, Fail> {
    let (mut block, mut out) = (Block::new(alloc)?, Vec::new(alloc));
    let made = audit_part(alloc, store, Further::Nothing, part, &mut block, &mut out);
    let AuditEnd { found, last, end } = made;
    let cursor = match last {
        Some(place) => cursor_of(1, 0, State::After(place))?,
        None => Cursor::new(Further::Nothing),
    };
    let stopped = matches!(
        end,
        AuditStatus::Stopped(ReportStop::Fault(Fault::Store(_)))
    );
    let ends = (stopped, matches!(end, AuditStatus::Ended));
    ending_of(out, ends, cursor, false, found)
}

fn try_run(alloc: Global, store: &mut MemTree, part: &Part) -> Result<Ending, Fail> {
    let (mut block, mut out) = (Block::new(alloc)?, Vec::new(alloc));
    let (start, most) = (Cursor::new(Further::Nothing), limits(MOST, MOST)?);
    let made = run_part(alloc, store, part, start, most, &mut block, &mut out);
    let stopped = matches!(
        made.end,
        RunStatus::Stopped(ReportStop::Fault(Fault::Store(_)))
    );
    let (ends, found) = ((stopped, matches!(made.end, RunStatus::Ended)), made.found);
    let RunEnd { cursor, .. } = made;
    ending_of(out, ends, cursor, true, found)
}

fn try_cycle(alloc: Global, store: &mut MemTree, part: &Part) -> Result<Ending, Fail> {
    let (mut block, mut out) = (Block::new(alloc)?, Vec::new(alloc));
    let each = equal_limits(alloc, 9, MOST, 1)?;
    let made = cycle_part(
        alloc,
        store,
        Further::Nothing,
        part,
        each.as_slice(),
        &mut block,
        &mut out,
    );
    let stopped = matches!(
        made.end,
        CycleStatus::Stopped(ReportStop::Fault(Fault::Store(_)))
    );
    let (ends, found) = (
        (stopped, matches!(made.end, CycleStatus::Ended)),
        made.found,
    );
    let CycleEnd { cursor, .. } = made;
    ending_of(out, ends, cursor, true, found)
}

/// The calls over a part that are tried: an audit, a run that nothing limits, and a cycle of runs
/// of one file each.
const TRIED: [&str; 3] = ["audit", "run", "cycle"];

fn try_call(alloc: Global, call: &str, store: &mut MemTree, part: &Part) -> Result<Ending, Fail> {
    match call {
        "audit" => try_audit(alloc, store, part),
        "run" => try_run(alloc, store, part),
        _ => try_cycle(alloc, store, part),
    }
}

/// What the store was asked begins what it is asked if nothing fails.
fn asks_a_front(
    rt: &impl Runtime,
    row: &str,
    store: &MemTree,
    clean: &MemTree,
) -> Result<(), Fail> {
    assert!(rt; clean.listings().starts_with(store.listings()), "{row}");
    let places = store.openings().iter().map(|opening| &opening.place);
    let mut due = clean.openings().iter().map(|opening| &opening.place);
    for place in places {
        let path = place.path();
        assert!(rt; due.next() == Some(place), "{row}, opening {path}");
    }
    Ok(())
}

/// What went out before a stop is whole items that begin the report, and the cursor pays for them.
/// A run from it writes the rest.
fn expect_rest(
    rt: &impl Runtime,
    row: &str,
    inside: &Inside,
    store: &mut MemTree,
    ending: Ending,
) -> Result<(), Fail> {
    let alloc = rt.alloc();
    let Ending {
        text,
        cursor,
        counts,
        found,
        ..
    } = ending;
    assert!(rt; inside.text.starts_with(text.as_str()), "{row}");
    let (due, left) = due_of(inside.text, text.len())?;
    assert_eq!(rt; text.len() + left.len(), inside.text.len(), "{row}");
    assert_eq!(rt; found, due.found, "{row}");
    if counts {
        assert_eq!(rt; cursor.spent(), u128::from(due.spent), "{row}");
        assert_eq!(rt; cursor.files(), u128::from(due.files), "{row}");
    }
    let (mut block, mut out) = (Block::new(alloc)?, Vec::new(alloc));
    let (part, most) = (&inside.part, limits(MOST, MOST)?);
    let _ = run_part(alloc, store, part, cursor, most, &mut block, &mut out);
    assert_eq!(rt; String::from_utf8(out)?.as_str(), left, "{row}");
    Ok(())
}

/// The report if the file of one of the objects cannot be read.
fn expect_unread(
    rt: &impl Runtime,
    row: &str,
    inside: &Inside,
    ending: &Ending,
) -> Result<(), Fail> {
    let alloc = rt.alloc();
    let mut is_one = false;
    for object in ["o1", "o2"] {
        let right = format!(in alloc; "ok\t{object}/v1/content/f\t3\n")?;
        let unread = format!(in alloc; "S08\t{object}/v1/content/f\t-\n")?;
        let text = inside.text.replace(alloc, right.as_str(), unread.as_str())?;
        is_one |= text.as_str() != inside.text && ending.text.as_str() == text.as_str();
    }
    assert!(rt; is_one && ending.found, "{row}");
    Ok(())
}

/// Tries the call with this call of the store failing. It says whether there is such a call, and
/// whether it stopped.
fn expect_failing_part(
    rt: &impl Runtime,
    inside: &Inside,
    call: &str,
    number: u64,
    clean: &MemTree,
) -> Result<(bool, bool), Fail> {
    let alloc = rt.alloc();
    let row = format!(in alloc; "{call} from {}, call {number}", inside.row)?;
    let row = row.as_str();
    let mut store = two_objects(alloc)?;
    store.fail_call(number);
    let ending = try_call(alloc, call, &mut store, &inside.part)?;
    asks_a_front(rt, row, &store, clean)?;
    let (failed, stopped) = (store.failures() > 0, ending.stopped);
    if stopped {
        assert!(rt; failed, "{row}");
        expect_rest(rt, row, inside, &mut store, ending)?;
    } else if failed {
        expect_unread(rt, row, inside, &ending)?;
    } else {
        assert_eq!(rt; ending.text.as_str(), inside.text, "{row}");
    }
    Ok((failed, stopped))
}

#[test]
fn parts_with_each_call_failing(rt: HostRuntime) -> Result<(), Fail> {
    let alloc = rt.alloc();
    for row in &INSIDE {
        let inside = Inside::new(alloc, row)?;
        for call in TRIED {
            let mut clean = two_objects(alloc)?;
            let _ = try_call(alloc, call, &mut clean, &inside.part)?;
            let mut stops = 0u64;
            for number in 1..1_000u64 {
                let (failed, stopped) = expect_failing_part(&rt, &inside, call, number, &clean)?;
                stops += u64::from(stopped);
                if !failed {
                    break;
                }
            }
            assert!(rt; stops > 10, "{call} from {}: {stops} stops", inside.row);
        }
    }
    Ok(())
}
