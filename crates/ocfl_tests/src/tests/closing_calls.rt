//! Closings that are said over the calls that they make in a state folder in memory.
use crate::tests::common::Runtime;
use crate::tests::common::closed_reports::{closed_with, mark_of};
use crate::tests::common::store::place_of;
use ocfl_closing::closing::{ClosingsEnd, SaidBy, say_closings};
use ocfl_cursor::PartEnds;
use ocfl_kept::kept::report_path;
use ocfl_kept::names::{About, Names};
use ocfl_mem_disk::{MemClosedFiles, MemClosingCalls, MemFile, MemKept};
use ocfl_messages::Known;
use ocfl_reading::expected::Listed;
use ocfl_say::MemOutput;
use std::alloc::Global;
use std::test::Fail;

/// The path of the state folder.
const STATE: &str = "/s";

/// The closed reports of three cycles, each whole: an object is gone in the second, and back in the
/// third.
const REPORTS: [&str; 3] = [
    "ok\t.\t-\nok\ta\t-\nok\tb\t-\n",
    "ok\t.\t-\nok\ta\t-\n",
    "ok\t.\t-\nok\ta\t-\nok\tb\t-\n",
];

/// What is said of these cycles, of which each misses an object that must be there.
const SAID: [&str; 3] = [
    "Cycle 1 ended: 0 of 0 files right, 2 objects, 0 bytes, 1 run.\n\
     Nothing to compare with.\n\
     1 object or file is gone or missing in cycle 1:\nexpected\tc\n",
    "Cycle 2 ended: 0 of 0 files right, 1 object, 0 bytes, 1 run.\n\
     Nothing new, 2 objects and files gone since cycle 1.\n\
     2 objects and files are gone or missing in cycle 2:\nobject\tb\nexpected\tc\n",
    "Cycle 3 ended: 0 of 0 files right, 2 objects, 0 bytes, 1 run.\n\
     Nothing new, 1 object or file gone since cycle 2.\n\
     1 object or file is gone or missing in cycle 3:\nexpected\tc\n\
     1 object is back in cycle 3:\nobject\tb\n",
];

/// The lists of what is gone.
const LISTS: [&str; 3] = ["expected\tc\n", "object\tb\nexpected\tc\n", "expected\tc\n"];

/// The three reports, each with the checkpoint with which it was closed; and that two objects must
/// be there, of which one is in no report.
fn closed(alloc: Global) -> Result<MemClosedFiles, Fail> {
    let mut files = Vec::new(alloc);
    let mut kept = Vec::new(alloc);
    for (index, report) in REPORTS.iter().enumerate() {
        let cycle = index as u64 + 1;
        let text = closed_with(alloc, mark_of(report.as_bytes()), true, Vec::new(alloc));
        kept.push(MemKept::new(alloc, cycle, text.ok_or("no checkpoint")?)?)?;
        files.push(MemFile {
            path: report_path(alloc, STATE, cycle, true)?,
            bytes: Vec::from_slice(alloc, report.as_bytes())?,
        })?;
    }
    let mut places = Vec::new(alloc);
    places.push(place_of(alloc, "a")?)?;
    places.push(place_of(alloc, "c")?)?;
    let digits = String::from_str(alloc, "1f")?;
    Ok(MemClosedFiles {
        path: String::from_str(alloc, STATE)?,
        files,
        kept,
        expected: Some(Listed { places, digits }),
        ends: None,
    })
}

/// Says those of the cycles before a night, and of the one that it closed.
fn say(
    calls: MemClosingCalls,
    known: &Known,
    before: u64,
    closed: u64,
    out: &mut MemOutput,
) -> ClosingsEnd<MemClosingCalls> {
    let names = Names {
        root: "/r",
        part: None,
        state: STATE,
    };
    let about = About {
        names,
        began: 1_767_225_000,
        known,
        program: "",
    };
    let said_by = SaidBy {
        about,
        expected: None,
        said: &[],
        before,
        closed,
    };
    say_closings(calls, &said_by, out)
}

/// The list of what is gone at the end of a cycle, as text.
fn list_of<'c>(calls: &'c MemClosingCalls, cycle: usize) -> Result<&'c str, Fail> {
    match calls.list(cycle as u64)? {
        Some(list) => Ok(std::str::from_utf8(list)?),
        None => Err(Fail::new("a list is not there")),
    }
}

#[test]
fn closings_of_three_cycles_are_said(rt: HostRuntime) -> Result<(), Fail> {
    let alloc = rt.alloc();
    let known = Known::new(alloc);
    let calls = MemClosingCalls::new(alloc, closed(alloc)?);
    let mut out = MemOutput::new(alloc);
    let ClosingsEnd { calls, status } = say(calls, &known, 2, 3, &mut out);
    assert_eq!(rt; status, 1);
    let text = std::str::from_utf8(out.text())?;
    let said = format!(in alloc; "{}{}{}", SAID[0], SAID[1], SAID[2])?;
    assert_eq!(rt; text, said.as_str());
    for (index, list) in LISTS.iter().enumerate() {
        assert_eq!(rt; list_of(&calls, index + 1)?, *list, "{index}");
    }
    assert_eq!(rt;
        calls.log().iter().filter(|byte| **byte == b'\n').count(),
        3
    );
    assert_eq!(rt; (calls.noted().len(), calls.faults()), (0, 0));
    // All is said then.
    let mut out = MemOutput::new(alloc);
    let ClosingsEnd { calls, status } = say(calls, &known, 3, 0, &mut out);
    assert_eq!(rt; (status, out.text().len(), calls.noted().len()), (0, 0, 0));
    Ok(())
}

#[test]
fn objects_outside_of_the_part_are_not_missing(rt: HostRuntime) -> Result<(), Fail> {
    let alloc = rt.alloc();
    let known = Known::new(alloc);
    let mut closed = closed(alloc)?;
    closed.ends = Some(PartEnds {
        from: None,
        below: Some(place_of(alloc, "c")?),
    });
    let calls = MemClosingCalls::new(alloc, closed);
    let ClosingsEnd { calls, status } = say(calls, &known, 2, 3, &mut MemOutput::new(alloc));
    assert_eq!(rt; status, 1);
    for (index, list) in ["", "object\tb\n", ""].iter().enumerate() {
        assert_eq!(rt; list_of(&calls, index + 1)?, *list, "{index}");
    }
    Ok(())
}

/// Says the cycles while the call of a number fails, and then again. Whether there was such a call.
fn says_after(rt: &impl Runtime, number: u64) -> Result<bool, Fail> {
    let alloc = rt.alloc();
    let known = Known::new(alloc);
    let mut calls = MemClosingCalls::new(alloc, closed(alloc)?);
    calls.fail_call(number);
    let mut out = MemOutput::new(alloc);
    let ClosingsEnd { calls, .. } = say(calls, &known, 2, 3, &mut out);
    if calls.faults() == 0 {
        return Ok(false);
    }
    let ClosingsEnd { calls, status } = say(calls, &known, 3, 0, &mut out);
    assert!(rt; status < 3, "{number}");
    assert_eq!(rt; calls.faults(), 1, "{number}");
    assert!(rt; calls.noted().len() < 2, "{number}");
    let text = std::str::from_utf8(out.text())?;
    for (index, list) in LISTS.iter().enumerate() {
        let cycle = index + 1;
        let word = format!(in alloc; "Cycle {cycle} ended: ")?;
        assert!(rt; text.contains(word.as_str()), "{number}: {cycle}");
        assert_eq!(rt; list_of(&calls, cycle)?, *list, "{number}: {cycle}");
    }
    Ok(true)
}

#[test]
fn each_call_may_fail(rt: HostRuntime) -> Result<(), Fail> {
    let mut number = 1;
    while number < 500 && says_after(&rt, number)? {
        number += 1;
    }
    assert!(rt; (50..500).contains(&number), "{number}");
    Ok(())
}
