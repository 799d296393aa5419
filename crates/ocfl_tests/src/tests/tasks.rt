//! Tasks over calls in memory: which cursor is read and put, and what is said at the end.
use crate::tests::common::roots::three_files;
use crate::tests::common::store::place_of;
use ocfl_arguments::{Chosen, Task};
use ocfl_cursor::{Budget, FileLimit, Limits, read_cursor};
use ocfl_deed::Deed;
use ocfl_digest::Block;
use ocfl_report::Further;
use ocfl_scope::Scope;
use ocfl_scrub::Note;
use ocfl_tasks::{Line, TaskCalls, TaskEnd, perform_and_store, reason_of, say_end, show_table};
use std::alloc::Global;
use std::cell::Cell;
use std::io::{self, Write};
use std::mem;
use std::test::Fail;

/// Calls that keep what they were asked for, a line for each, and the last cursor that was put.
struct Noted {
    alloc: Global,
    lines: String,
    cursor: Vec<u8>,
    /// Whether a cursor cannot be put in its place, and a file not be opened.
    fails: bool,
}

/// Written by hand, so that to let it go is one call wherever that happens.
impl Drop for Noted {
    fn drop(self) {
        let Noted {
            alloc: _alloc,
            lines: _lines,
            cursor: _cursor,
            fails: _fails,
        } = self;
    }
}

impl Noted {
    fn new(alloc: Global, fails: bool) -> Noted {
        Noted {
            alloc,
            lines: String::new(alloc),
            cursor: Vec::new(alloc),
            fails,
        }
    }

    fn answer(&self) -> io::Result<()> {
        if self.fails {
            return Err(io::Error::from(io::ErrorKind::Other));
        }
        Ok(())
    }
}

impl TaskCalls for Noted {
    type Reader = &'static [u8];

    fn open(&mut self, file: &str) -> io::Result<Option<&'static [u8]>> {
        self.lines.push_str("open ")?;
        self.lines.push_str(file)?;
        self.lines.push_str("\n")?;
        self.answer()?;
        Ok(None)
    }

    fn put<W: Write>(&mut self, file: &str, text: &[u8], _report: &W) -> io::Result<()> {
        self.lines.push_str("put ")?;
        self.lines.push_str(file)?;
        self.lines.push_str("\n")?;
        self.cursor.extend_from_slice(text)?;
        self.answer()
    }

    fn say(&mut self, line: Line<'_>) {
        if let Ok(line) = format!(in self.alloc; "say {line}\n") {
            let _ = self.lines.push_str(line.as_str());
        }
    }
}

/// One run of one file, with the cursor of a file if there is one.
fn run_task(alloc: Global, file: Option<&str>) -> Result<Task, Fail> {
    let budget = Budget::new(9).ok_or("no budget")?;
    let files = FileLimit::new(1).ok_or("no limit")?;
    Ok(Task {
        deed: Deed::Run(Further::Nothing, Limits { budget, files }),
        chosen: Chosen::All,
        root: None,
        file: match file {
            Some(file) => Some(String::from_str(alloc, file)?),
            None => None,
        },
        quiet: true,
    })
}

/// Does a task over the root of three files, and gives its report too.
fn done(alloc: Global, calls: &mut Noted, task: &Task) -> Result<(TaskEnd, Vec<u8>), Fail> {
    let mut store = three_files(alloc)?;
    let (mut block, mut out) = (Block::new(alloc)?, Vec::new(alloc));
    let end = perform_and_store(
        alloc,
        calls,
        task,
        &Scope::Whole,
        &mut store,
        &mut block,
        &mut out,
    );
    Ok((end, out))
}

// Fails if another cursor is put than that of the run, or none is read before.
#[test]
fn a_run_puts_its_cursor(rt: HostRuntime) -> Result<(), Fail> {
    let alloc = rt.alloc();
    let mut calls = Noted::new(alloc, false);
    let (end, report) = done(alloc, &mut calls, &run_task(alloc, Some("f"))?)?;
    assert_eq!(rt; end.status, 0);
    assert!(rt; !report.is_empty());
    assert_eq!(rt; calls.lines.as_str(), "open f\nput f\n");
    let mut stored = calls.cursor.as_slice();
    match read_cursor(alloc, &mut stored) {
        Ok(cursor) => assert_eq!(rt; (cursor.cycle(), cursor.runs()), (1, 1)),
        Err(_) => return Err(Fail::from("no cursor")),
    }
    Ok(())
}

#[test]
fn a_run_without_a_file_puts_none(rt: HostRuntime) -> Result<(), Fail> {
    let alloc = rt.alloc();
    let mut calls = Noted::new(alloc, false);
    let (end, _) = done(alloc, &mut calls, &run_task(alloc, None)?)?;
    assert_eq!(rt; end.status, 0);
    assert_eq!(rt; calls.lines.as_str(), "");
    Ok(())
}

#[test]
fn a_file_that_fails_is_said(rt: HostRuntime) -> Result<(), Fail> {
    let alloc = rt.alloc();
    let mut calls = Noted::new(alloc, true);
    let (end, report) = done(alloc, &mut calls, &run_task(alloc, Some("f"))?)?;
    assert_eq!(rt; end.status, 3);
    assert!(rt; report.is_empty());
    assert!(rt; matches!(end.note, Note::CursorFileFailed));
    assert_eq!(rt; calls.lines.as_str(), "open f\n");
    Ok(())
}

/// What is said of a deed that ended with this note, if that is known for this reason.
fn said_of(alloc: Global, deed: &Deed, note: &Note, why: Option<&str>) -> String {
    let mut calls = Noted::new(alloc, false);
    say_end(&mut calls, deed, note, why, "words");
    mem::replace(&mut calls.lines, String::new(alloc))
}

#[test]
fn what_a_deed_ends_with_is_said(rt: HostRuntime) -> Result<(), Fail> {
    let alloc = rt.alloc();
    let audit = Deed::Audit(Further::Nothing);
    let nothing = said_of(alloc, &audit, &Note::Nothing, None);
    assert_eq!(rt; nothing.as_str(), "");
    let empty = said_of(alloc, &audit, &Note::EmptyBranch, None);
    assert_eq!(rt; empty.as_str(), "say no item\n");
    let check = Deed::Check(Further::Nothing, String::from_str(alloc, "a//b")?);
    let no_item = said_of(alloc, &check, &Note::NoItem, None);
    assert_eq!(rt; no_item.as_str(), "say no item at a//b\n");
    let bad = said_of(alloc, &check, &Note::BadPath, None);
    assert_eq!(rt; bad.as_str(), "say bad path\nsay words\n");
    let at = Note::StoppedAt(place_of(alloc, "a b")?);
    let stopped = said_of(alloc, &audit, &at, None);
    assert_eq!(rt; stopped.as_str(), "say stopped at a b\n");
    let with_why = said_of(alloc, &audit, &at, Some("why"));
    assert_eq!(rt; with_why.as_str(), "say stopped at a b\nsay a b: why\n");
    Ok(())
}

#[test]
fn the_table_of_codes_is_shown(rt: HostRuntime) -> Result<(), Fail> {
    let alloc = rt.alloc();
    for (json, front) in [
        (false, b"# What the codes".as_slice()),
        (true, b"[{\"code\":".as_slice()),
    ] {
        let (mut calls, mut out) = (Noted::new(alloc, false), Vec::new(alloc));
        assert_eq!(rt; show_table(alloc, &mut calls, &mut out, json), 0);
        assert!(rt; out.starts_with(front), "{json}");
        assert_eq!(rt; calls.lines.as_str(), "");
    }
    Ok(())
}

#[test]
fn a_call_that_failed_has_words(rt: HostRuntime) -> Result<(), Fail> {
    let alloc = rt.alloc();
    let reasons = Cell::new(ocfl_files::reasons::Reasons::new(alloc));
    assert!(rt; reason_of(alloc, &reasons, None).is_none());
    let error = io::Error::from(io::ErrorKind::NotFound);
    assert!(rt; reason_of(alloc, &reasons, Some(error)).is_some());
    Ok(())
}
