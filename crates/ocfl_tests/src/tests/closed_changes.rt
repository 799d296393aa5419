//! What changed in a closed cycle by its files on a disk, and the list of what is gone.
ghost use Rattle.std.proofs.lemmas.Bool.{false≢true};

use crate::tests::common::closed_reports::{MemReport, closed_with, mark_of};
use crate::tests::common::store::place_of;
use ocfl_accounts::{ClosedCycle, ClosingStop, Pair};
use ocfl_closed::{Account, ChangesFound, ClosedDisk, Paths, SaidWith, find_changes};
use ocfl_compare::CompareStop;
use ocfl_messages::{Known, KnownEntry, Reach};
use ocfl_report::{Code, Line, read_place};
use ocfl_tree::Place;
use std::alloc::{AllocError, Global};
use std::io::{self, Cursor};
use std::test::Fail;

/// The reports of cycles: the cycle, whether the report is whole, and its lines.
type Reports = &'static [(u64, bool, &'static str)];

/// The cycles of whose closing something was kept: the checkpoint of a report with these lines, or
/// other bytes.
type Kept = &'static [(u64, Option<&'static str>)];

/// Reports in memory, and the objects that must be there; none if they are not listed.
struct ReportsOn {
    alloc: Global,
    reports: Reports,
    listed: Option<&'static [&'static str]>,
    /// The list of what is gone at the end of cycle 1.
    rows: &'static str,
    /// What was kept of the closings of cycles.
    kept: Kept,
    /// What was called.
    calls: String,
    list: Vec<u8>,
}

impl Drop for ReportsOn {
    fn drop(self) {
        let ReportsOn {
            alloc: _alloc,
            reports: _reports,
            listed: _listed,
            rows: _rows,
            kept: _kept,
            calls: _calls,
            list: _list,
        } = self;
    }
}

/// What was made, or that memory was refused.
fn kept<T>(made: Result<T, AllocError>) -> Result<T, ClosingStop> {
    match made {
        Ok(made) => Ok(made),
        Err(_) => Err(ClosingStop::Memory),
    }
}

impl ReportsOn {
    fn note(&mut self, text: Result<String, AllocError>) -> ClosingStop {
        if let Ok(text) = text {
            let _ = self.calls.push_str(text.as_str());
        }
        ClosingStop::Failed
    }

    fn report(&self, cycle: u64, whole: bool) -> Option<&'static str> {
        for (number, is_whole, lines) in self.reports {
            if *number == cycle && *is_whole == whole {
                return Some(*lines);
            }
        }
        None
    }
}

impl ReportsOn {
    /// The bytes of what was kept.
    fn kept_of(&self, lines: Option<&str>) -> Result<Option<Vec<u8>>, ClosingStop> {
        let Some(lines) = lines else {
            return Ok(Some(kept(Vec::from_slice(self.alloc, b"no checkpoint".as_slice()))?));
        };
        let mark = mark_of(lines.as_bytes());
        match closed_with(self.alloc, mark, true, Vec::new(self.alloc)) {
            Some(bytes) => Ok(Some(bytes)),
            None => Err(ClosingStop::Failed),
        }
    }
}

impl ClosedDisk for ReportsOn {
    type Report = MemReport;

    type List = Vec<u8>;

    type Rows = Cursor<Vec<u8>>;

    ghost reports = { λ told. absurd (false≢true told) };

    ghost is_disk = { λ told disk. absurd (false≢true told) };

    fn has_list(&mut self, _cycle: u64) -> Result<bool, ClosingStop> {
        Ok(false)
    }

    fn open_list(&mut self, cycle: u64) -> Result<Option<Cursor<Vec<u8>>>, ClosingStop> {
        if cycle != 1 {
            return Ok(None);
        }
        let bytes = kept(Vec::from_slice(self.alloc, self.rows.as_bytes()))?;
        Ok(Some(Cursor::new(bytes)))
    }

    fn find_paths(&mut self, _pair: &Pair) -> Result<Paths, ClosingStop> {
        Ok(Paths {
            report: kept(String::from_str(self.alloc, "/s/now"))?,
            earlier: kept(String::from_str(self.alloc, "/s/before"))?,
            list: kept(String::from_str(self.alloc, "/s/gone"))?,
        })
    }

    fn open_report(&mut self, cycle: u64, whole: bool) -> Result<Option<MemReport>, ClosingStop> {
        let Some(lines) = self.report(cycle, whole) else {
            return Ok(None);
        };
        let _ = self.note(format!(in self.alloc; "{cycle};"));
        let bytes = kept(Vec::from_slice(self.alloc, lines.as_bytes()))?;
        Ok(Some(MemReport { bytes }))
    }

    fn miss_report(&mut self, cycle: u64) -> ClosingStop {
        self.note(format!(in self.alloc; "no {cycle};"))
    }

    fn refuse_report(&mut self, _report: &MemReport, error: io::Error) -> ClosingStop {
        self.note(format!(in self.alloc; "{error};"))
    }

    fn refuse_reports(
        &mut self,
        _pair: &Pair,
        before: u64,
        stop: CompareStop,
        _error: Option<io::Error>,
    ) -> ClosingStop {
        self.note(format!(in self.alloc; "{before}: {stop};"))
    }

    fn refuse_changed(&mut self, _pair: &Pair, before: u64) -> ClosingStop {
        self.note(format!(in self.alloc; "changed {before};"))
    }

    fn refuse_search(
        &mut self,
        _cycle: u64,
        _before: u64,
        stop: CompareStop,
        _error: Option<io::Error>,
    ) -> ClosingStop {
        self.note(format!(in self.alloc; "{stop};"))
    }

    fn refuse_list(&mut self, cycle: u64, _error: io::Error) -> ClosingStop {
        self.note(format!(in self.alloc; "unread list {cycle};"))
    }

    fn refuse_rows(&mut self, cycle: u64) -> ClosingStop {
        self.note(format!(in self.alloc; "bad list {cycle};"))
    }

    fn refuse_lines(
        &mut self,
        cycle: u64,
        stop: CompareStop,
        _error: Option<io::Error>,
    ) -> ClosingStop {
        self.note(format!(in self.alloc; "{cycle}: {stop};"))
    }

    fn read_listed(&mut self) -> Result<Option<Vec<Place>>, ClosingStop> {
        let Some(listed) = self.listed else {
            return Ok(None);
        };
        let mut places = Vec::new(self.alloc);
        for path in listed {
            let Ok(place) = read_place(self.alloc, path.as_bytes()) else {
                return Err(ClosingStop::Failed);
            };
            kept(match places.push(place) {
                Ok(()) => Ok(()),
                Err(_) => Err(AllocError),
            })?;
        }
        Ok(Some(places))
    }

    fn kept_checkpoint(&mut self, cycle: u64) -> Result<Option<Vec<u8>>, ClosingStop> {
        let _ = self.note(format!(in self.alloc; "kept {cycle};"));
        for (number, lines) in self.kept {
            if *number == cycle {
                return self.kept_of(*lines);
            }
        }
        Ok(None)
    }

    fn is_packed(&mut self, _cycle: u64) -> Result<bool, ClosingStop> {
        Ok(false)
    }

    fn make_list(&mut self, cycle: u64) -> Result<Vec<u8>, ClosingStop> {
        let _ = self.note(format!(in self.alloc; "list {cycle};"));
        Ok(Vec::new(self.alloc))
    }

    fn end_list(&mut self, list: &Vec<u8>) -> Result<(), ClosingStop> {
        self.list = kept(list.to_vec(self.alloc))?;
        Ok(())
    }

    fn sync_list(&mut self) -> Result<(), ClosingStop> {
        Ok(())
    }

    fn rename_list(&mut self, _cycle: u64) -> Result<(), ClosingStop> {
        Ok(())
    }

    fn sync_folder(&mut self) -> Result<(), ClosingStop> {
        Ok(())
    }

    fn remove_list(&mut self) {}

    fn log(&mut self, _pair: &Pair, _account: &Account) -> Result<(), ClosingStop> {
        Ok(())
    }

    fn fail(&mut self, _stop: ClosingStop) {}
}

/// The left places of a cycle, and the places again, as a pair has them.
fn places_of(alloc: Global, paths: &[&str]) -> Result<Vec<Place>, Fail> {
    let mut places = Vec::new(alloc);
    for path in paths {
        places.push(place_of(alloc, path)?)?;
    }
    Ok(places)
}

/// A cycle of which these places were left out; none of the number 0.
fn cycle_of(alloc: Global, cycle: u64, left: &[&str]) -> Result<Option<ClosedCycle>, Fail> {
    if cycle == 0 {
        return Ok(None);
    }
    let places = places_of(alloc, left)?;
    Ok(Some(ClosedCycle::new(cycle, left.is_empty(), false, places)))
}

/// Cycle 3, which left places out, and the cycles before with what the first of them left out; 0
/// for none.
#[derive(Clone, Copy)]
struct Compared {
    left: &'static [&'static str],
    before: u64,
    left_before: &'static [&'static str],
    whole: u64,
    lost: bool,
}

impl Compared {
    fn pair(&self, alloc: Global) -> Result<Pair, Fail> {
        let left = places_of(alloc, self.left)?;
        Ok(Pair {
            closed: ClosedCycle::new(3, self.left.is_empty(), self.lost, left),
            before: cycle_of(alloc, self.before, self.left_before)?,
            missing: None,
            again: if self.whole > 0 {
                places_of(alloc, self.left_before)?
            } else {
                Vec::new(alloc)
            },
            whole: cycle_of(alloc, self.whole, &[])?,
            whole_missing: None,
        })
    }
}

/// Cycle 3 since cycle 2 alone.
const SINCE_2: Compared = Compared {
    left: &[],
    before: 2,
    left_before: &[],
    whole: 0,
    lost: false,
};

/// The report of a cycle with three objects, of which one has a file.
const THREE: &str = "ok\t.\t-\nok\to\t-\nok\tp\t-\nok\tp/v1/content/a\t0\nok\tq\t-\n";

/// That without the objects `o` and `q`, and without the file.
const ONE: &str = "ok\t.\t-\nok\tp\t-\n";

/// That with a finding at `q`.
const FOUND: &str = "ok\t.\t-\nok\to\t-\nok\tp\t-\nok\tp/v1/content/a\t0\nE101\tq\tx\n";

/// A closed cycle: which reports there are, which objects must be there, the list of what is gone
/// at the end of cycle 1, the place at which findings of E101 are known, and what is compared; and
/// the calls, the list, how the text begins and whether something is grave.
#[derive(Drop)]
struct Row {
    reports: Reports,
    listed: Option<&'static [&'static str]>,
    rows: &'static str,
    known: &'static str,
    compared: Compared,
    calls: &'static str,
    list: &'static str,
    text: &'static str,
    is_grave: bool,
}

const ROWS: [Row; 12] = [
    Row {
        reports: &[(2, true, THREE), (3, true, ONE)],
        listed: None,
        rows: "",
        known: "z",
        compared: SINCE_2,
        calls: "list 3;2;kept 2;3;kept 3;kept 3;",
        list: "object\to\nfile\tp/v1/content/a\nobject\tq\n",
        text: "Cycle 3 ended: 0 of 0 files right, 1 object, 0 bytes.\n\
               Nothing new, 3 objects and files gone since cycle 2.\n\
               3 objects and files are gone or missing in cycle 3:\n\
               object\to\nobject\tq\nfile\tp/v1/content/a\n",
        is_grave: true,
    },
    Row {
        reports: &[
            (2, true, THREE),
            (2, false, ONE),
            (3, true, ONE),
            (3, false, THREE),
        ],
        listed: None,
        rows: "",
        known: "z",
        compared: SINCE_2,
        calls: "list 3;2;kept 2;3;kept 3;kept 3;",
        list: "object\to\nfile\tp/v1/content/a\nobject\tq\n",
        text: "Cycle 3 ended: 0 of 0 files right, 1 object, 0 bytes.\n\
               Nothing new, 3 objects and files gone since cycle 2.\n\
               3 objects and files are gone or missing in cycle 3:\n\
               object\to\nobject\tq\nfile\tp/v1/content/a\n",
        is_grave: true,
    },
    Row {
        reports: &[(2, true, THREE), (3, true, FOUND)],
        listed: None,
        rows: "",
        known: "q",
        compared: SINCE_2,
        calls: "list 3;2;kept 2;3;kept 3;kept 3;",
        list: "",
        text: "Cycle 3 ended: 1 of 1 file right, 3 objects, 0 bytes.\n\
               Nothing new, nothing gone since cycle 2.\n",
        is_grave: false,
    },
    Row {
        reports: &[(2, true, THREE), (3, true, FOUND)],
        listed: None,
        rows: "",
        known: "p",
        compared: SINCE_2,
        calls: "list 3;2;kept 2;3;kept 3;kept 3;",
        list: "",
        text: "Cycle 3 ended: 1 of 1 file right, 3 objects, 0 bytes.\n\
               1 new finding, nothing gone since cycle 2.\n\
               1 finding of cycle 3 is new since cycle 2:\n",
        is_grave: true,
    },
    Row {
        reports: &[(2, true, FOUND), (3, true, THREE)],
        listed: None,
        rows: "",
        known: "p",
        compared: SINCE_2,
        calls: "list 3;2;kept 2;3;kept 3;kept 3;",
        list: "",
        text: "Cycle 3 ended: 1 of 1 file right, 3 objects, 0 bytes.\n\
               Nothing new, nothing gone since cycle 2.\n\
               1 finding of cycle 2 is repaired in cycle 3:\n",
        is_grave: false,
    },
    Row {
        reports: &[(2, true, ONE), (3, true, THREE)],
        listed: None,
        rows: "object\to\nfile\tp/v1/content/a\nundeclared\tq\nobject\tr\n",
        known: "p",
        compared: SINCE_2,
        calls: "list 3;2;kept 2;3;kept 3;kept 3;2;3;",
        list: "",
        text: "Cycle 3 ended: 1 of 1 file right, 3 objects, 0 bytes.\n\
               Nothing new, nothing gone since cycle 2.\n\
               2 objects are back in cycle 3:\nobject\to\nobject\tq\n",
        is_grave: false,
    },
    Row {
        reports: &[(2, false, THREE), (3, false, ONE)],
        listed: None,
        rows: "",
        known: "z",
        compared: Compared {
            left: &["p"],
            before: 2,
            left_before: &["q"],
            whole: 0,
            lost: false,
        },
        calls: "list 3;2;kept 2;3;kept 3;kept 3;",
        list: "object\to\n",
        text: "Cycle 3 ended, but its report is incomplete: /s/now\n\
               In it: 0 of 0 files right, 1 object, 0 bytes.\n\
               Nothing new, 1 object or file gone since cycle 2.\n\
               1 object or file is gone or missing in cycle 3:\nobject\to\n",
        is_grave: true,
    },
    Row {
        reports: &[
            (1, true, THREE),
            (2, false, "ok\t.\t-\nok\tp\t-\n"),
            (3, true, ONE),
        ],
        listed: None,
        rows: "",
        known: "z",
        compared: SINCE_1_AND_2,
        calls: "list 3;2;kept 2;3;kept 3;1;kept 1;3;kept 3;",
        list: "object\tq\n",
        text: "Cycle 3 ended: 0 of 0 files right, 1 object, 0 bytes.\n\
               Nothing new, 1 object or file gone since cycle 2.\n\
               1 object or file is gone or missing in cycle 3:\nobject\tq\n",
        is_grave: true,
    },
    Row {
        reports: &[
            (1, true, THREE),
            (2, false, "ok\t.\t-\nok\tp\t-\n"),
            (3, true, "ok\t.\t-\nE101\tp\tx\nE101\tq\ty\n"),
        ],
        listed: None,
        rows: "",
        known: "z",
        compared: SINCE_1_AND_2,
        calls: "list 3;2;kept 2;3;kept 3;1;kept 1;3;kept 3;",
        list: "",
        text: "Cycle 3 ended: 0 of 0 files right, 2 objects, 0 bytes.\n\
               2 new findings, nothing gone since cycle 2.\n\
               2 findings of cycle 3 are new since cycle 2:\n",
        is_grave: true,
    },
    Row {
        reports: &[(3, true, ONE)],
        listed: Some(&["q", "p", "n", "q"]),
        rows: "",
        known: "z",
        compared: Compared {
            left: &[],
            before: 0,
            left_before: &[],
            whole: 0,
            lost: false,
        },
        calls: "list 3;3;3;kept 3;",
        list: "expected\tn\nexpected\tq\n",
        text: "Cycle 3 ended: 0 of 0 files right, 1 object, 0 bytes.\n\
               Not compared.\n\
               What is new or gone since the last report is not known: \
               lines of each report before it were lost\n\
               2 objects and files are gone or missing in cycle 3:\n\
               expected\tn\nexpected\tq\n",
        is_grave: true,
    },
    Row {
        reports: &[(2, true, THREE), (3, true, THREE)],
        listed: Some(&["p"]),
        rows: "",
        known: "z",
        compared: SINCE_2,
        calls: "list 3;2;kept 2;3;kept 3;3;kept 3;",
        list: "",
        text: "Cycle 3 ended: 1 of 1 file right, 3 objects, 0 bytes.\n\
               Nothing new, nothing gone since cycle 2.\n",
        is_grave: false,
    },
    Row {
        reports: &[(2, true, THREE), (3, true, ONE)],
        listed: Some(&["q"]),
        rows: "",
        known: "z",
        compared: Compared {
            left: &[],
            before: 2,
            left_before: &[],
            whole: 0,
            lost: true,
        },
        calls: "list 3;kept 3;",
        list: "",
        text: "What is new or gone since the last report is not known: \
               lines of this report were lost\n",
        is_grave: false,
    },
];

fn disk_of(alloc: Global, row: &Row) -> ReportsOn {
    ReportsOn {
        alloc,
        reports: row.reports,
        listed: row.listed,
        rows: row.rows,
        kept: &[],
        calls: String::new(alloc),
        list: Vec::new(alloc),
    }
}

/// A list on which findings of E101 at a place are known.
fn known_at(alloc: Global, place: &str) -> Result<Known, Fail> {
    let mut entries = Vec::new(alloc);
    entries.push(KnownEntry {
        reach: Reach::Place,
        line: Line {
            code: Code::E101,
            place: place_of(alloc, place)?,
            detail: String::from_str(alloc, "-")?,
        },
    })?;
    Ok(Known::of(entries)?)
}

/// What was found of a cycle.
fn find(
    alloc: Global,
    disk: &mut ReportsOn,
    row: &Row,
) -> Result<Result<ChangesFound, ClosingStop>, Fail> {
    let known = known_at(alloc, row.known)?;
    let with = SaidWith {
        root: "/r",
        state: "/s",
        is_part: false,
        known: &known,
        said: &[],
    };
    let pair = row.compared.pair(alloc)?;
    Ok(find_changes(alloc, disk, &with, &pair))
}

#[test]
fn changes_are_those_of_the_right_reports(rt: HostRuntime) -> Result<(), Fail> {
    let alloc = rt.alloc();
    for (index, row) in ROWS.iter().enumerate() {
        let mut disk = disk_of(alloc, row);
        let ChangesFound { found, .. } = find(alloc, &mut disk, row)??;
        let text = String::from_utf8(found.text)?;
        assert_eq!(rt; disk.calls.as_str(), row.calls, "{index}");
        assert_eq!(rt; disk.list.as_slice(), row.list.as_bytes(), "{index}");
        assert!(rt; text.as_str().starts_with(row.text), "{index}: {text}");
        assert_eq!(rt; found.is_grave, row.is_grave, "{index}");
    }
    Ok(())
}

/// Reports that cannot be compared, and the calls until then.
const STOPS: [(Reports, &str); 3] = [
    (&[(3, true, ONE)], "list 3;no 2;"),
    (&[(2, true, ONE)], "list 3;2;kept 2;no 3;"),
    (
        &[(2, true, ONE), (3, true, "ok\n")],
        "list 3;2;kept 2;3;kept 3;2: bad report: line 1;",
    ),
];

#[test]
fn what_is_not_compared_is_not_said(rt: HostRuntime) -> Result<(), Fail> {
    let alloc = rt.alloc();
    for (reports, calls) in STOPS {
        let row = Row {
            reports,
            listed: None,
            rows: "",
            known: "z",
            compared: SINCE_2,
            calls,
            list: "",
            text: "",
            is_grave: false,
        };
        let mut disk = disk_of(alloc, &row);
        assert!(rt; find(alloc, &mut disk, &row)?.is_err(), "{calls}");
        assert_eq!(rt; disk.calls.as_str(), calls);
    }
    Ok(())
}

/// A list of what was gone at the end of cycle 1, and which objects are back in cycle 3; nothing
/// for a list that cannot be read.
const LISTS: [(&str, Option<&[&str]>); 14] = [
    ("", Some(&[])),
    ("object\to\n", Some(&["o"])),
    ("undeclared\to\n", Some(&["o"])),
    ("object\tq\nobject\to\nundeclared\to\n", Some(&["o", "q"])),
    ("object\tp\nobject\tr\nfile\to\n", Some(&[])),
    ("expected\to\nchanged\to\nolder\to\nnewer\to\n", Some(&[])),
    ("newer\to\nobject\tq\n", Some(&["q"])),
    ("object\to", None),
    ("object\to\n\n", None),
    ("object o\n", None),
    ("objects\to\n", None),
    ("object\t\n", None),
    ("object\to\nobject\t../q\n", None),
    ("file\t%6F\nobject\to\n", None),
];

/// A cycle whose report has the objects `o` and `q`, which that of the cycle before lacks.
fn row_of(rows: &'static str) -> Row {
    Row {
        reports: &[(2, true, ONE), (3, true, THREE)],
        listed: None,
        rows,
        known: "z",
        compared: SINCE_2,
        calls: "",
        list: "",
        text: "",
        is_grave: false,
    }
}

#[test]
fn objects_are_back_that_an_earlier_list_calls_gone(rt: HostRuntime) -> Result<(), Fail> {
    let alloc = rt.alloc();
    for (rows, back) in LISTS {
        let row = row_of(rows);
        let mut disk = disk_of(alloc, &row);
        let found = find(alloc, &mut disk, &row)?;
        let is_refused = disk.calls.as_str().ends_with("bad list 1;");
        assert_eq!(rt; is_refused, back.is_none(), "{rows}");
        match found {
            Ok(told) => {
                let wanted = places_of(alloc, back.ok_or("it was read")?)?;
                assert_eq!(rt; told.account.back.as_slice(), wanted.as_slice(), "{rows}");
            }
            Err(_) => assert!(rt; back.is_none(), "{rows}"),
        }
    }
    Ok(())
}

/// What was kept of cycles, which cycles are compared, and the calls of those that are refused.
const CHANGED: [(Kept, Compared, &str); 7] = [
    (&[(2, Some(THREE)), (3, Some(ONE))], SINCE_2, ""),
    (
        &[(2, Some(ONE)), (3, Some(ONE))],
        SINCE_2,
        "list 3;2;kept 2;3;kept 3;changed 2;",
    ),
    (
        &[(2, None), (3, Some(ONE))],
        SINCE_2,
        "list 3;2;kept 2;3;kept 3;changed 2;",
    ),
    (
        &[(2, Some(THREE)), (3, Some(THREE))],
        SINCE_2,
        "list 3;2;kept 2;3;kept 3;2: report failed;",
    ),
    (
        &[(3, None)],
        SINCE_2,
        "list 3;2;kept 2;3;kept 3;2: report failed;",
    ),
    (
        &[(1, Some(THREE)), (2, Some(THREE)), (3, Some(ONE))],
        SINCE_1_AND_2,
        "",
    ),
    (
        &[(1, Some(ONE)), (2, Some(THREE)), (3, Some(ONE))],
        SINCE_1_AND_2,
        "list 3;2;kept 2;3;kept 3;1;kept 1;3;changed 1;",
    ),
];

/// Cycle 3 since cycle 2, and since the whole cycle 1 in what that one left out.
const SINCE_1_AND_2: Compared = Compared {
    left: &[],
    before: 2,
    left_before: &["q"],
    whole: 1,
    lost: false,
};

#[test]
fn a_report_that_is_not_as_it_was_closed_is_not_compared(rt: HostRuntime) -> Result<(), Fail> {
    let alloc = rt.alloc();
    for (index, (kept, compared, calls)) in CHANGED.iter().enumerate() {
        let row = Row {
            reports: &[(1, true, THREE), (2, true, THREE), (3, true, ONE)],
            listed: None,
            rows: "",
            known: "z",
            compared: *compared,
            calls: *calls,
            list: "",
            text: "",
            is_grave: false,
        };
        let mut disk = disk_of(alloc, &row);
        disk.kept = *kept;
        let found = find(alloc, &mut disk, &row)?;
        assert_eq!(rt; found.is_ok(), calls.is_empty(), "{index}");
        if found.is_err() {
            assert_eq!(rt; disk.calls.as_str(), *calls, "{index}");
        }
    }
    Ok(())
}
