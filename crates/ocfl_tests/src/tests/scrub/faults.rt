//! Each failure that a store or an output can have, at each place where it can have it.
use super::run_figures::{MOST, limits};
use super::stop::{ROOTS, Tried, root_by};
use crate::tests::common::Runtime;
use ocfl_cursor::Cursor;
use ocfl_digest::Block;
use ocfl_memory::Point;
use ocfl_report::Further;
use ocfl_scrub::{ReportStop, RunEnd, RunStatus, run};
use ocfl_tree::{Opening, Place, Tree};
use ocfl_walk::Fault;
use std::alloc::Global;
use std::io;
use std::test::Fail;

/// What a run without limits that matter wrote, and how it ended.
#[derive(Drop)]
pub(crate) struct Outcome {
    pub(crate) text: String,
    pub(crate) end: RunEnd,
}

pub(crate) fn ran<T: Tree>(alloc: Global, store: &mut T, cursor: Cursor) -> Result<Outcome, Fail> {
    let mut block = Block::new(alloc)?;
    let mut out = Vec::new(alloc);
    let end = run(
        alloc,
        store,
        cursor,
        limits(MOST, MOST)?,
        &mut block,
        &mut out,
    );
    Ok(Outcome {
        text: String::from_utf8(out)?,
        end,
    })
}

/// Whether content at this place was not read.
fn is_unread(openings: &[Opening], place: &str) -> bool {
    openings.iter().any(|opening| opening.failed
        && opening.place.path() == place
        && place.contains("/v1/"))
}

/// A report of which each file that the store failed to read is called unreadable.
fn with_unread(alloc: Global, report: &str, openings: &[Opening]) -> Result<String, Fail> {
    let mut text = String::new(alloc);
    for line in report.split_inclusive('\n') {
        let place = line.split('\t').nth(1).ok_or("no place")?;
        if is_unread(openings, place) {
            text.push_str(format!(in alloc; "S08\t{place}\t-\n")?.as_str())?;
        } else {
            text.push_str(line)?;
        }
    }
    Ok(text)
}

/// What was written begins the report with whole items, and the rest of it comes from the cursor.
pub(crate) fn expect_rest(
    rt: &impl Runtime,
    number: u64,
    all: &str,
    first: Outcome,
    what: &str,
) -> Result<(), Fail> {
    let alloc = rt.alloc();
    let Outcome { text, end } = first;
    let RunEnd { cursor, .. } = end;
    let rest = ran(alloc, &mut root_by(alloc, number)?, cursor)?;
    assert!(rt; matches!(rest.end.end, RunStatus::Ended), "{what}");
    let joined = format!(in alloc; "{text}{}", rest.text)?;
    assert_eq!(rt; joined.as_str(), all, "{what}");
    Ok(())
}

/// A store that fails so gives the report with the files that it did not read, or stops a run that
/// goes on where it stopped.
fn expect_fault(
    rt: &impl Runtime,
    number: u64,
    all: &str,
    place: &Place,
    point: Point,
) -> Result<(), Fail> {
    let alloc = rt.alloc();
    let path = place.path();
    let what = match point {
        Point::List => format!(in alloc; "root {number}, listing {path}")?,
        Point::Open => format!(in alloc; "root {number}, opening {path}")?,
        Point::Read(offset) => format!(in alloc; "root {number}, reading {path} at {offset}")?,
    };
    let mut store = root_by(alloc, number)?;
    store.fail_at(place, point)?;
    let got = ran(alloc, &mut store, Cursor::new(Further::Nothing))?;
    assert_eq!(rt; store.failures(), 1, "{what}");
    match &got.end.end {
        RunStatus::Stopped(ReportStop::Fault(Fault::Store(failed))) => {
            assert!(rt; failed == place, "{what}");
            expect_rest(rt, number, all, got, what.as_str())
        }
        RunStatus::Ended => {
            let want = with_unread(alloc, all, store.openings())?;
            assert!(rt; want.as_str() != all, "{what}");
            assert_eq!(rt; got.text.as_str(), want.as_str(), "{what}");
            Ok(())
        }
        _ => Err("another end".into()),
    }
}

/// Reads fail so at each offset of content, and at the first and the last of another file.
fn expect_faults_in(
    rt: &impl Runtime,
    number: u64,
    all: &str,
    opening: &Opening,
) -> Result<(), Fail> {
    let is_content = opening.place.path().contains("/v1/");
    for offset in 0..=opening.given {
        if is_content || offset == 0 || offset == opening.given {
            expect_fault(rt, number, all, &opening.place, Point::Read(offset))?;
        }
    }
    Ok(())
}

#[test]
fn listings_openings_and_reads_that_fail(rt: HostRuntime) -> Result<(), Fail> {
    for number in 0..ROOTS {
        let Tried { store, all, .. } = Tried::new(rt.alloc(), number)?;
        for place in store.listings() {
            expect_fault(&rt, number, all.as_str(), place, Point::List)?;
        }
        for opening in store.openings() {
            expect_fault(&rt, number, all.as_str(), &opening.place, Point::Open)?;
            expect_faults_in(&rt, number, all.as_str(), opening)?;
        }
    }
    Ok(())
}

/// Takes a byte a call while it has room, and then none, which is no error.
#[derive(Drop)]
struct Drops {
    room: usize,
    kept: Vec<u8>,
}

impl io::Write for Drops {
    fn write(&mut self, buffer: &[u8]) -> io::Result<usize> {
        let count = buffer.len().min(self.room).min(1);
        self.kept.extend_from_slice(&buffer[..count])?;
        self.room -= count;
        Ok(count)
    }

    fn flush(&mut self) -> io::Result<()> {
        Ok(())
    }
}

/// A run over such an output is cut if its room is less than the report, and a run from its
/// cursor writes the rest.
pub(crate) fn expect_dropped(rt: &impl Runtime, root: &mut Tried, room: usize) -> Result<(), Fail> {
    let alloc = rt.alloc();
    let row = format!(in alloc; "root {}, room {room}", root.number)?;
    let kept = Vec::new(alloc);
    let (mut block, mut out) = (Block::new(alloc)?, Drops { room, kept });
    let most = limits(MOST, MOST)?;
    let end = run(
        alloc,
        &mut root.store,
        Cursor::new(Further::Nothing),
        most,
        &mut block,
        &mut out,
    );
    let is_cut = matches!(end.end, RunStatus::Stopped(ReportStop::Output));
    assert_eq!(rt; is_cut, room < root.all.len(), "{row}");
    assert!(rt; root.begins_with(out.kept.as_slice(), room), "{row}");
    if is_cut {
        let RunEnd { cursor, .. } = end;
        let rest = ran(alloc, &mut root.store, cursor)?;
        assert!(rt; root.all.ends_with(rest.text.as_str()), "{row}");
        assert!(rt; rest.text.len() + room >= root.all.len(), "{row}");
    }
    Ok(())
}
