//! What a night says of its report, as its bytes come, and what it goes by.
use crate::tests::common::store::place_of;
use ocfl_disk::StateFile;
use ocfl_files::reasons::{Reasons, keep_reason, take_reasons};
use ocfl_kept::names::Names;
use ocfl_kept::stand::Standing;
use ocfl_messages::{Heads, Known};
use ocfl_speaking::{Sifting, Speaker, heads_before, report_of};
use ocfl_state::{MemState, StateFolder};
use std::alloc::Global;
use std::cell::Cell;
use std::test::Fail;

const NAMES: Names<'static> = Names {
    root: "/srv/ocfl",
    part: None,
    state: "/state",
};

/// An object with two files that are right, a line of no report, a damaged file and one that cannot
/// be read. The last line of the object has no third field: it counts as a right file.
const REPORT: &str = "ok\t.\t-\nok\to\t-\nok\to/v1/content/a\t5\nno line\n\
E092\to/v1/content/b\tsha512 00 11\nS08\to/v1/content/c\t-\nok\to/v1/content/d\t5\nok\to/e\n";

const MESSAGE: &str = "2 findings tonight in /srv/ocfl, cycle 1, runs 1 to 2:
Object o, 3 of 5 files right:
";

/// Where the nights stand in their first cycle, after so many runs.
fn standing(runs: u64, has_ended: bool) -> Standing {
    let mut standing = Standing::first();
    standing.runs = runs;
    standing.has_ended = has_ended;
    standing
}

/// Why a place could not be read.
fn reasons_of(alloc: Global, path: &str, words: &str) -> Result<Reasons, Fail> {
    let cell = Cell::new(Reasons::new(alloc));
    let words = String::from_str(alloc, words)?;
    keep_reason(alloc, &cell, &place_of(alloc, path)?, Some(words));
    Ok(take_reasons(alloc, &cell))
}

#[test]
fn messages_are_on_what_was_given_since_the_last(rt: HostRuntime) -> Result<(), Fail> {
    let alloc = rt.alloc();
    let known = Known::new(alloc);
    for piece in [1, 7, 1000] {
        let heads = Heads::new();
        let mut speaker = Speaker::new(alloc, NAMES, &known, Standing::first(), heads);
        for part in REPORT.as_bytes().chunks(piece) {
            speaker.take(part)?;
        }
        let reasons = reasons_of(alloc, "o/v1/content/c", "not allowed")?;
        let now = standing(2, true);
        let text = String::from_utf8(speaker.message(now, &reasons, "/state/report")?)?;
        assert!(rt; text.as_str().starts_with(MESSAGE), "{piece}: {text}");
        assert!(rt; text.as_str().contains("not allowed"), "{piece}: {text}");
        assert_eq!(rt; speaker.broken(), 1, "{piece}");
        assert_eq!(rt; speaker.findings(), 0, "{piece}");
        speaker.end();
        assert_eq!(rt; speaker.findings(), 2, "{piece}");
        let none = String::from_utf8(speaker.message(now, &reasons, "/state/report")?)?;
        assert_eq!(rt; none.as_str(), "", "{piece}");
        assert_eq!(rt; speaker.into_said().len(), 2, "{piece}");
    }
    Ok(())
}

#[test]
fn what_did_not_go_out_was_not_said(rt: HostRuntime) -> Result<(), Fail> {
    let alloc = rt.alloc();
    let known = Known::new(alloc);
    let mut speaker = Speaker::new(alloc, NAMES, &known, Standing::first(), Heads::new());
    speaker.take(b"E092\to/v1/content/b\tsha512 00 11\n")?;
    let reasons = Reasons::new(alloc);
    let _ = speaker.message(standing(1, false), &reasons, "/state/report")?;
    assert_eq!(rt; speaker.into_said().len(), 0);
    Ok(())
}

#[test]
fn lines_are_sifted(rt: HostRuntime) -> Result<(), Fail> {
    let alloc = rt.alloc();
    let known = Known::new(alloc);
    let mut sifting = Sifting::new(alloc, Heads::new());
    sifting.take(alloc, &known, b"ok\to\t-\nE061\to\t-\nbad\ncut")?;
    assert_eq!(rt; sifting.broken(), 1);
    let found = sifting.end(alloc, false)?;
    assert_eq!(rt; found.count(), 1);
    assert_eq!(rt; sifting.broken(), 2);
    Ok(())
}

#[test]
fn the_report_of_a_night_is_named(rt: HostRuntime) -> Result<(), Fail> {
    let mut now = standing(3, false);
    assert_eq!(rt; report_of(now), StateFile::Report);
    now.has_ended = true;
    assert_eq!(rt; report_of(now), StateFile::Whole(1));
    now.is_whole = false;
    assert_eq!(rt; report_of(now), StateFile::Incomplete(1));
    now.is_closed = true;
    assert_eq!(rt; report_of(now), StateFile::Report);
    Ok(())
}

// Fails if the object is not found, which the finding behind it is then in.
#[test]
fn the_object_of_the_next_line_is_found(rt: HostRuntime) -> Result<(), Fail> {
    let alloc = rt.alloc();
    let known = Known::new(alloc);
    let mut folder = MemState::new(alloc);
    folder.append(b"ok\t.\t-\nok\to\t-\n")?;
    let heads = heads_before(alloc, &mut folder, 14).ok_or("not read")?;
    let mut speaker = Speaker::new(alloc, NAMES, &known, Standing::first(), heads);
    speaker.take(b"E092\to/v1/content/b\tsha512 00 11\n")?;
    let now = standing(1, false);
    let text = String::from_utf8(speaker.message(now, &Reasons::new(alloc), "/state/report")?)?;
    assert!(rt; text.as_str().contains("Object o"), "{text}");
    assert!(rt; heads_before(alloc, &mut folder, 15).is_none());
    Ok(())
}

#[test]
fn reasons_are_those_kept_first(rt: HostRuntime) -> Result<(), Fail> {
    let alloc = rt.alloc();
    let reasons = reasons_of(alloc, "o/a", "gone")?;
    assert_eq!(rt; reasons.find(&place_of(alloc, "o/a")?), Some("gone"));
    assert_eq!(rt; reasons.find(&place_of(alloc, "o/b")?), None);
    Ok(())
}

#[test]
fn nights_stand_where_checkpoints_say(rt: HostRuntime) -> Result<(), Fail> {
    let mut before = standing(4, false);
    before.spent = 10;
    before.left = 1;
    let mut now = before;
    now.runs = 6;
    now.spent = 25;
    now.left = 2;
    assert_eq!(rt; before.runs_before(now), 4);
    assert_eq!(rt; before.spent_until(now), 15);
    assert!(rt; now.leaves_more_than(before) && !before.leaves_more_than(now));
    assert_eq!(rt; now.last_closed(), 0);
    assert_eq!(rt; now.next_cycle(), 1);
    now.is_closed = true;
    now.left = 0;
    assert_eq!(rt; now.noted_after(before).left, 1);
    assert_eq!(rt; now.next_cycle(), 2);
    now.cycle = 2;
    assert_eq!(rt; before.runs_before(now), 0);
    assert_eq!(rt; before.spent_until(now), 25);
    Ok(())
}
