//! What is there of closed cycles on a disk, and in which order the calls are made that put a list.
ghost use Rattle.std.proofs.lemmas.Bool.{false≢true};

use crate::tests::common::closed_reports::{MemReport, closed_with, mark_of};
use crate::tests::common::store::place_of;
use ocfl_accounts::{ClosedCycle, ClosingStop, Closings, Look, Pair};
use ocfl_closed::{Account, ClosedDisk, DiskClosings, Paths, SaidWith, look_at};
use ocfl_compare::CompareStop;
use ocfl_messages::Known;
use ocfl_state::{Left, ReportMark};
use ocfl_tree::Place;
use std::alloc::Global;
use std::io::{self, Cursor};
use std::test::Fail;

/// The report of a cycle.
const REPORT: &[u8] = b"ok\t.\t-\nok\to\t-\n";

/// The files of one cycle, and which calls were made on its list.
struct OneCycle {
    alloc: Global,
    whole: bool,
    incomplete: bool,
    packed: bool,
    kept: Option<Vec<u8>>,
    calls: String,
    /// Which of the calls that put a list fails, counted from 1; 0 if none does.
    fails: usize,
}

impl Drop for OneCycle {
    fn drop(self) {
        let OneCycle {
            alloc: _alloc,
            whole: _whole,
            incomplete: _incomplete,
            packed: _packed,
            kept: _kept,
            calls: _calls,
            fails: _fails,
        } = self;
    }
}

impl OneCycle {
    fn new(alloc: Global) -> OneCycle {
        OneCycle {
            alloc,
            whole: false,
            incomplete: false,
            packed: false,
            kept: None,
            calls: String::new(alloc),
            fails: 0,
        }
    }

    /// Notes a call, which may fail.
    fn note(&mut self, call: &str) -> Result<(), ClosingStop> {
        let Ok(()) = self.calls.push_str(call) else {
            return Err(ClosingStop::Memory);
        };
        if self.calls.as_str().split(';').count() == self.fails + 1 && self.fails > 0 {
            return Err(ClosingStop::Failed);
        }
        Ok(())
    }
}

impl ClosedDisk for OneCycle {
    type Report = MemReport;

    type List = Vec<u8>;

    type Rows = Cursor<Vec<u8>>;

    ghost reports = { λ told. absurd (false≢true told) };

    ghost is_disk = { λ told disk. absurd (false≢true told) };

    fn has_list(&mut self, cycle: u64) -> Result<bool, ClosingStop> {
        Ok(cycle == 2)
    }

    fn open_report(&mut self, _cycle: u64, whole: bool) -> Result<Option<MemReport>, ClosingStop> {
        let is_there = if whole { self.whole } else { self.incomplete };
        if !is_there {
            return Ok(None);
        }
        match Vec::from_slice(self.alloc, REPORT) {
            Ok(bytes) => Ok(Some(MemReport { bytes })),
            Err(_) => Err(ClosingStop::Memory),
        }
    }

    fn miss_report(&mut self, _cycle: u64) -> ClosingStop {
        ClosingStop::Failed
    }

    fn refuse_report(&mut self, _report: &MemReport, _error: io::Error) -> ClosingStop {
        ClosingStop::Failed
    }

    fn refuse_reports(
        &mut self,
        _pair: &Pair,
        _before: u64,
        _stop: CompareStop,
        _error: Option<io::Error>,
    ) -> ClosingStop {
        ClosingStop::Failed
    }

    fn refuse_changed(&mut self, _pair: &Pair, _before: u64) -> ClosingStop {
        ClosingStop::Failed
    }

    fn open_list(&mut self, _cycle: u64) -> Result<Option<Cursor<Vec<u8>>>, ClosingStop> {
        Ok(None)
    }

    fn find_paths(&mut self, _pair: &Pair) -> Result<Paths, ClosingStop> {
        Ok(Paths {
            report: String::new(self.alloc),
            earlier: String::new(self.alloc),
            list: String::new(self.alloc),
        })
    }

    fn refuse_list(&mut self, _cycle: u64, _error: io::Error) -> ClosingStop {
        ClosingStop::Failed
    }

    fn refuse_rows(&mut self, _cycle: u64) -> ClosingStop {
        ClosingStop::Failed
    }

    fn refuse_lines(
        &mut self,
        _cycle: u64,
        _stop: CompareStop,
        _error: Option<io::Error>,
    ) -> ClosingStop {
        ClosingStop::Failed
    }

    fn refuse_search(
        &mut self,
        _cycle: u64,
        _before: u64,
        _stop: CompareStop,
        _error: Option<io::Error>,
    ) -> ClosingStop {
        ClosingStop::Failed
    }

    fn read_listed(&mut self) -> Result<Option<Vec<Place>>, ClosingStop> {
        Ok(None)
    }

    fn make_list(&mut self, _cycle: u64) -> Result<Vec<u8>, ClosingStop> {
        self.note("find;")?;
        Ok(Vec::new(self.alloc))
    }

    fn end_list(&mut self, _list: &Vec<u8>) -> Result<(), ClosingStop> {
        Ok(())
    }

    fn kept_checkpoint(&mut self, _cycle: u64) -> Result<Option<Vec<u8>>, ClosingStop> {
        match &self.kept {
            Some(bytes) => match bytes.to_vec(self.alloc) {
                Ok(bytes) => Ok(Some(bytes)),
                Err(_) => Err(ClosingStop::Memory),
            },
            None => Ok(None),
        }
    }

    fn is_packed(&mut self, _cycle: u64) -> Result<bool, ClosingStop> {
        Ok(self.packed)
    }

    fn sync_list(&mut self) -> Result<(), ClosingStop> {
        self.note("sync;")
    }

    fn rename_list(&mut self, cycle: u64) -> Result<(), ClosingStop> {
        self.note(if cycle == 3 {
            "rename;"
        } else {
            "rename another;"
        })
    }

    fn sync_folder(&mut self) -> Result<(), ClosingStop> {
        self.note("sync folder;")
    }

    fn remove_list(&mut self) {
        let _ = self.note("remove;");
    }

    fn log(&mut self, _pair: &Pair, _account: &Account) -> Result<(), ClosingStop> {
        self.note("log;")
    }

    fn fail(&mut self, _stop: ClosingStop) {
        let _ = self.note("fail;");
    }
}

/// What was kept of a cycle when it was closed: nothing, other bytes, or a checkpoint, by whether
/// it is whole, whether it leaves a place out, and whether it has the mark of the report.
#[derive(Clone, Copy)]
enum Kept {
    Nothing,
    Other,
    Checkpoint(bool, bool, bool),
}

/// The bytes of what was kept.
fn bytes_of(alloc: Global, kept: Kept) -> Result<Option<Vec<u8>>, Fail> {
    let (whole, leaves, is_right) = match kept {
        Kept::Nothing => return Ok(None),
        Kept::Other => return Ok(Some(Vec::from_slice(alloc, b"no checkpoint".as_slice())?)),
        Kept::Checkpoint(whole, leaves, is_right) => (whole, leaves, is_right),
    };
    let mut left = Vec::new(alloc);
    if leaves {
        left.push(Left {
            place: place_of(alloc, "p")?,
            after: None,
        })?;
    }
    let mark = ReportMark {
        tail: mark_of(if is_right { REPORT } else { &REPORT[7..] }).tail,
        ..mark_of(REPORT)
    };
    let bytes = closed_with(alloc, mark, whole, left).ok_or("no checkpoint")?;
    Ok(Some(bytes))
}

/// What is there: which reports, what was kept, and whether one is compressed; and what is seen:
/// whether the report is there, whether it is whole, whether it lost lines, and how many places it
/// left out.
const SIGHTS: [([bool; 3], Kept, [bool; 3], usize); 17] = [
    ([true, false, false], Kept::Nothing, [true, true, false], 0),
    ([true, true, true], Kept::Other, [true, true, false], 0),
    (
        [true, false, false],
        Kept::Checkpoint(false, true, false),
        [true, true, false],
        1,
    ),
    ([false, true, false], Kept::Nothing, [true, false, true], 0),
    ([false, true, false], Kept::Other, [true, false, true], 0),
    (
        [false, true, false],
        Kept::Checkpoint(true, true, true),
        [true, false, false],
        1,
    ),
    (
        [false, true, false],
        Kept::Checkpoint(true, true, false),
        [true, false, true],
        1,
    ),
    (
        [false, true, false],
        Kept::Checkpoint(true, false, true),
        [true, false, true],
        0,
    ),
    (
        [false, true, false],
        Kept::Checkpoint(false, true, true),
        [true, false, true],
        1,
    ),
    (
        [false, false, false],
        Kept::Nothing,
        [false, true, false],
        0,
    ),
    ([false, false, true], Kept::Nothing, [false, false, true], 0),
    ([false, false, true], Kept::Other, [false, false, true], 0),
    (
        [false, false, false],
        Kept::Checkpoint(true, false, true),
        [false, true, false],
        0,
    ),
    (
        [false, false, true],
        Kept::Checkpoint(true, false, true),
        [false, false, true],
        0,
    ),
    (
        [false, false, true],
        Kept::Checkpoint(true, true, true),
        [false, false, false],
        0,
    ),
    (
        [false, false, false],
        Kept::Checkpoint(true, true, true),
        [false, false, false],
        0,
    ),
    (
        [false, false, false],
        Kept::Checkpoint(false, false, true),
        [false, false, true],
        0,
    ),
];

/// A look as whether the report is there, whether it is whole, whether it lost lines, and how many
/// places it left out.
fn seen(look: Look) -> ([bool; 3], usize) {
    match look {
        Look::There(closed) => (
            [true, closed.is_whole(), closed.is_lost()],
            closed.left().len(),
        ),
        Look::Away { whole, lost } => ([false, whole, lost], 0),
    }
}

#[test]
fn a_cycle_is_seen_by_its_files(rt: HostRuntime) -> Result<(), Fail> {
    let alloc = rt.alloc();
    for (index, (there, kept, sight, left)) in SIGHTS.iter().enumerate() {
        let mut disk = OneCycle::new(alloc);
        disk.whole = there[0];
        disk.incomplete = there[1];
        disk.packed = there[2];
        disk.kept = bytes_of(alloc, *kept)?;
        let look = look_at(alloc, &mut disk, 3)?;
        assert_eq!(rt; seen(look), (*sight, *left), "{index}");
        let known = Known::new(alloc);
        let mut closings = DiskClosings::over(alloc, disk, with(&known), 0);
        assert_eq!(rt; seen(closings.look(3)?), (*sight, *left), "{index}");
    }
    Ok(())
}

/// A cycle that is compared with none.
fn pair_of(alloc: Global, cycle: u64) -> Pair {
    Pair {
        closed: ClosedCycle::new(cycle, true, false, Vec::new(alloc)),
        before: None,
        missing: None,
        again: Vec::new(alloc),
        whole: None,
        whole_missing: None,
    }
}

/// What is said is made with this.
fn with(known: &Known) -> SaidWith<'_> {
    SaidWith {
        root: "/r",
        state: "/s",
        is_part: false,
        known,
        said: &[],
    }
}

/// The calls that were made once something was found, and that one of them fails.
const PUT: [&str; 5] = [
    "find;sync;rename;sync folder;log;",
    "find;sync;",
    "find;sync;rename;",
    "find;sync;rename;sync folder;",
    "find;sync;rename;sync folder;log;",
];

#[test]
fn a_list_is_on_the_disk_before_it_has_its_name(rt: HostRuntime) -> Result<(), Fail> {
    let alloc = rt.alloc();
    for (fails, calls) in PUT.iter().enumerate() {
        let mut disk = OneCycle::new(alloc);
        disk.whole = true;
        disk.fails = if fails > 0 { fails + 1 } else { 0 };
        let known = Known::new(alloc);
        let mut closings = DiskClosings::over(alloc, disk, with(&known), 3);
        closings.find(&pair_of(alloc, 3))?;
        let put = closings.put(&pair_of(alloc, 3));
        assert_eq!(rt; put.is_ok(), fails == 0, "{fails}");
        assert_eq!(rt; closings.disk.calls.as_str(), *calls, "{fails}");
    }
    Ok(())
}

#[test]
fn a_list_that_is_not_put_is_removed(rt: HostRuntime) -> Result<(), Fail> {
    let alloc = rt.alloc();
    for (closed, calls) in [(3, "find;remove;log;"), (2, "find;remove;")] {
        let mut disk = OneCycle::new(alloc);
        disk.whole = true;
        let known = Known::new(alloc);
        let mut closings = DiskClosings::over(alloc, disk, with(&known), closed);
        assert_eq!(rt; closings.has_account(3), Ok(false));
        assert_eq!(rt; closings.has_account(2), Ok(true));
        let found = closings.find(&pair_of(alloc, 3))?;
        assert!(rt; !found.is_grave);
        closings.drop_found(&pair_of(alloc, 3))?;
        assert_eq!(rt; closings.disk.calls.as_str(), calls);
        closings.fail(ClosingStop::Failed);
        assert!(rt; closings.disk.calls.as_str().ends_with("fail;"));
    }
    Ok(())
}
