//! The closed reports of all parts, joined.
ghost use mathlib.Core.Bool.{false≢true};

use crate::tests::common::store::place_of;
use ocfl_joining::{
    ClosedPart, JoinStop, Joined, KeptMark, MemoryReport, MemoryReports, MissingPart, PartFault,
    PartReports, ReportTrouble, find_missing, find_most_names, find_within, join, say_missing,
};
use ocfl_report::Further;
use ocfl_say::MemOutput;
use ocfl_separators::{Separators, read_parts};
use ocfl_state::ReportMark;
use ocfl_tree::Place;
use std::alloc::Global;
use std::test::Fail;

/// The reports of the three parts that `b` and `d` make, and which places are their ends.
const REPORTS: [(&str, Option<&str>, Option<&str>); 3] = [
    ("ok\t.\t-\nok\ta\t-\n", None, Some("b")),
    ("ok\tb\t-\n", Some("b"), Some("d")),
    ("", Some("d"), None),
];

const ROOT: &[u8] = b"/srv/ocfl";

/// The SHA-256 of the second report, by `sha256sum`.
const TAIL: [u8; 32] = [
    0x73, 0x21, 0x5c, 0x78, 0xf2, 0x01, 0xfa, 0x3c, 0x8a, 0x52, 0xc4, 0x9d, 0xc3, 0xd8, 0x81, 0x34,
    0x1f, 0x48, 0x0f, 0xd8, 0xf6, 0x96, 0xa0, 0xc9, 0xa5, 0x19, 0x3a, 0x61, 0x0d, 0xb6, 0x3f, 0x02,
];

fn end(alloc: Global, path: Option<&str>) -> Result<Option<Place>, Fail> {
    match path {
        Some(path) => Ok(Some(place_of(alloc, path)?)),
        None => Ok(None),
    }
}

/// What is known of the report of a part, from 0, of cycle 7.
fn closed(alloc: Global, index: usize) -> Result<ClosedPart, Fail> {
    let (_, from, below) = REPORTS[index];
    Ok(ClosedPart {
        root: Vec::from_slice(alloc, ROOT)?,
        from: end(alloc, from)?,
        below: end(alloc, below)?,
        further: Further::Nothing,
        cycle: 7,
        whole: true,
        has_said: true,
        names: Some(9),
        left: Vec::new(alloc),
    })
}

fn all_closed(alloc: Global) -> Result<Vec<Option<ClosedPart>>, Fail> {
    let mut parts = Vec::new(alloc);
    for index in 0..3 {
        parts.push(Some(closed(alloc, index)?))?;
    }
    Ok(parts)
}

fn separators(alloc: Global) -> Result<Separators, Fail> {
    let mut text = b"b\nd\n".as_slice();
    Ok(read_parts(alloc, &mut text)?)
}

/// The closed reports in memory, of which the second has this text and was closed so.
fn reports(alloc: Global, second: &str, kept: KeptMark) -> Result<MemoryReports, Fail> {
    let mut all = Vec::new(alloc);
    for (index, (text, _, _)) in REPORTS.iter().enumerate() {
        let text = if index == 1 { second } else { *text };
        all.push(MemoryReport {
            bytes: Vec::from_slice(alloc, text.as_bytes())?,
            kept: if index == 1 { kept } else { KeptMark::NotKept },
        })?;
    }
    Ok(MemoryReports::new(alloc, all))
}

/// With what the second report was closed.
fn closed_with(tail: [u8; 32]) -> KeptMark {
    KeptMark::Kept(ReportMark {
        bytes: 7,
        lines: 1,
        pieces: [0; 32],
        tail,
    })
}

fn joined<R: PartReports>(
    alloc: Global,
    parts: &[Option<ClosedPart>],
    reports: &mut R,
) -> Result<Result<Joined, JoinStop>, Fail> {
    let separators = separators(alloc)?;
    let mut out = MemOutput::new(alloc);
    Ok(join(alloc, &separators, ROOT, 7, parts, reports, &mut out))
}

#[test]
fn reports_of_all_parts_are_joined(rt: HostRuntime) -> Result<(), Fail> {
    let alloc = rt.alloc();
    let parts = all_closed(alloc)?;
    for kept in [KeptMark::NotKept, closed_with(TAIL)] {
        let mut reports = reports(alloc, REPORTS[1].0, kept)?;
        let made = joined(alloc, &parts, &mut reports)?;
        assert!(rt; matches!(made, Ok(Joined { whole: true, left }) if left.is_empty()));
        assert_eq!(rt; reports.opened(), [1, 2, 3].as_slice());
        assert_eq!(rt; reports.joined().len(), 1);
        assert!(rt; reports.joined()[0].whole);
        assert_eq!(rt;
            reports.joined()[0].bytes.as_slice(),
            b"ok\t.\t-\nok\ta\t-\nok\tb\t-\n".as_slice()
        );
    }
    Ok(())
}

#[test]
fn a_part_that_is_not_whole_is_joined_too(rt: HostRuntime) -> Result<(), Fail> {
    let alloc = rt.alloc();
    let mut parts = all_closed(alloc)?;
    if let Some(part) = &mut parts[1] {
        part.whole = false;
        part.left.push(place_of(alloc, "c/x")?)?;
    }
    let mut reports = reports(alloc, REPORTS[1].0, closed_with(TAIL))?;
    match joined(alloc, &parts, &mut reports)? {
        Ok(Joined { whole, left }) => {
            assert!(rt; !whole);
            assert_eq!(rt; left.len(), 1);
            assert_eq!(rt; left[0].path(), "c/x");
        }
        Err(_) => assert!(rt; false),
    }
    assert!(rt; !reports.joined()[0].whole);
    assert_eq!(rt; reports.joined()[0].bytes.len(), 3 * 7);
    Ok(())
}

/// One part that is missing, and why.
fn one(part: usize, fault: PartFault) -> MissingPart {
    MissingPart { part, fault }
}

#[test]
fn parts_that_cannot_be_joined_are_named(rt: HostRuntime) -> Result<(), Fail> {
    let alloc = rt.alloc();
    let separators = separators(alloc)?;
    let mut parts = all_closed(alloc)?;
    parts[0] = None;
    if let Some(part) = &mut parts[1] {
        part.cycle = 8;
    }
    if let Some(part) = &mut parts[2] {
        part.whole = false;
    }
    let missing = find_missing(alloc, &separators, ROOT, 7, &parts)?;
    let wanted = [
        one(1, PartFault::NotClosed),
        one(2, PartFault::OtherCycle),
        one(3, PartFault::Incomplete),
    ];
    assert_eq!(rt; missing.as_slice(), wanted.as_slice());
    // A part that is not whole keeps none from being joined.
    let mut reports = reports(alloc, REPORTS[1].0, KeptMark::NotKept)?;
    match joined(alloc, &parts, &mut reports)? {
        Err(JoinStop::Missing(named)) => assert_eq!(rt; named.as_slice(), &wanted[..2]),
        _ => assert!(rt; false),
    }
    assert_eq!(rt; reports.joined().len(), 0);
    assert_eq!(rt; reports.opened().len(), 0);
    // The last part is not there at all, and there is one more than the separators make.
    let mut parts = all_closed(alloc)?;
    parts.pop();
    let missing = find_missing(alloc, &separators, ROOT, 7, &parts)?;
    assert_eq!(rt;
        missing.as_slice(),
        [one(3, PartFault::NotClosed)].as_slice()
    );
    let mut parts = all_closed(alloc)?;
    parts.push(Some(closed(alloc, 2)?))?;
    let missing = find_missing(alloc, &separators, ROOT, 7, &parts)?;
    assert_eq!(rt; missing.as_slice(), [one(4, PartFault::NoPart)].as_slice());
    Ok(())
}

#[test]
fn the_first_fault_of_a_part_is_told(rt: HostRuntime) -> Result<(), Fail> {
    let alloc = rt.alloc();
    let separators = separators(alloc)?;
    let mut parts = all_closed(alloc)?;
    assert_eq!(rt; find_most_names(&parts), 9);
    for fault in [
        PartFault::Incomplete,
        PartFault::FewNames,
        PartFault::ClosingUnsaid,
        PartFault::OtherCycle,
        PartFault::OtherAudit,
        PartFault::OtherPart,
        PartFault::OtherRoot,
    ] {
        let Some(part) = &mut parts[1] else {
            continue;
        };
        match fault {
            PartFault::Incomplete => part.whole = false,
            PartFault::FewNames => part.names = Some(4),
            PartFault::ClosingUnsaid => part.has_said = false,
            PartFault::OtherCycle => part.cycle = 6,
            PartFault::OtherAudit => part.further = Further::Inventories,
            PartFault::OtherPart => part.below = None,
            _ => part.root.clear(),
        }
        let missing = find_missing(alloc, &separators, ROOT, 7, &parts)?;
        assert_eq!(rt; missing.as_slice(), [one(2, fault)].as_slice());
    }
    // Half of the names are not few.
    let mut parts = all_closed(alloc)?;
    if let Some(part) = &mut parts[0] {
        part.names = None;
    }
    if let Some(part) = &mut parts[2] {
        part.names = Some(18);
    }
    let missing = find_missing(alloc, &separators, ROOT, 7, &parts)?;
    assert_eq!(rt; missing.as_slice(), [].as_slice());
    Ok(())
}

/// Of three parts those are named that do not check what the first one does, with what they check.
#[test]
fn parts_that_check_other_things_are_not_joined(rt: HostRuntime) -> Result<(), Fail> {
    let alloc = rt.alloc();
    for (first, second, third, named, said) in [
        (
            Further::Nothing,
            Further::Inventories,
            Further::Nothing,
            [one(2, PartFault::OtherAudit)].as_slice(),
            "ocfl-scrub: part 2: its nights are of an audit with --inventories, and those of \
             another part of one without it\n",
        ),
        (
            Further::Inventories,
            Further::Inventories,
            Further::Nothing,
            [one(3, PartFault::OtherAudit)].as_slice(),
            "ocfl-scrub: part 3: its nights are of an audit without --inventories, and those of \
             another part of one with it\n",
        ),
    ] {
        let mut parts = all_closed(alloc)?;
        for (part, further) in parts.iter_mut().zip([first, second, third]) {
            if let Some(part) = part {
                part.further = further;
            }
        }
        let mut reports = reports(alloc, REPORTS[1].0, KeptMark::NotKept)?;
        match joined(alloc, &parts, &mut reports)? {
            Err(JoinStop::Missing(found)) => {
                assert_eq!(rt; found.as_slice(), named);
                assert_eq!(rt; say_missing(alloc, 7, &parts, &found)?.as_str(), said);
            }
            _ => return Err(Fail::new("joined")),
        }
        assert_eq!(rt; reports.joined().len(), 0);
    }
    Ok(())
}

#[test]
fn parts_that_all_check_inventories_are_joined(rt: HostRuntime) -> Result<(), Fail> {
    let alloc = rt.alloc();
    let mut parts = all_closed(alloc)?;
    for part in parts.iter_mut().flatten() {
        part.further = Further::Inventories;
    }
    let mut reports = reports(alloc, REPORTS[1].0, KeptMark::NotKept)?;
    assert!(rt; joined(alloc, &parts, &mut reports)?.is_ok());
    Ok(())
}

#[test]
fn a_report_that_was_changed_is_not_joined(rt: HostRuntime) -> Result<(), Fail> {
    let alloc = rt.alloc();
    let parts = all_closed(alloc)?;
    let free = KeptMark::NotKept;
    for (row, text, kept) in [
        ("other bytes", "ok\tb\t-\nok\tc\t-\n", closed_with(TAIL)),
        ("another digest", "ok\tb\t-\n", closed_with([7; 32])),
        ("what was kept is damaged", "ok\tb\t-\n", KeptMark::Damaged),
        ("lost its last byte", "ok\tb\t-", free),
        ("no line", "ok\tb\t-\n\n", free),
        ("a line of the part before", "ok\ta\t-\nok\tb\t-\n", free),
        ("a line of the part behind", "ok\tb\t-\nok\td\t-\n", free),
        ("not in order", "ok\tc\t-\nok\tb\t-\n", free),
    ] {
        let mut reports = reports(alloc, text, kept)?;
        let stop = joined(alloc, &parts, &mut reports)?.err();
        match stop {
            Some(JoinStop::Changed(found)) => {
                assert_eq!(rt; found.as_slice(), [2].as_slice(), "{row}")
            }
            _ => return Err(Fail::new(row)),
        }
        assert_eq!(rt; reports.joined().len(), 0, "{row}");
    }
    Ok(())
}

/// Closed reports of which one call fails.
#[derive(Drop)]
struct Failing {
    reports: MemoryReports,
    /// How many calls are done before it.
    left: usize,
}

impl Failing {
    fn call(&mut self) -> Result<(), ReportTrouble> {
        if self.left == 0 {
            return Err(ReportTrouble::Failed);
        }
        self.left -= 1;
        Ok(())
    }
}

impl PartReports for Failing {
    ghost stays = { λ lasts reports. absurd (false≢true lasts) };

    ghost counts_now = { λ lasts reports. absurd (false≢true lasts) };

    ghost only_now = { λ lasts reports. absurd (false≢true lasts) };

    fn begin(&mut self) -> Result<(), ReportTrouble> {
        self.call()?;
        self.reports.begin()
    }

    fn open(&mut self, number: usize) -> Result<KeptMark, ReportTrouble> {
        self.call()?;
        self.reports.open(number)
    }

    fn read_line(&mut self, text: &mut Vec<u8>) -> Result<bool, ReportTrouble> {
        self.call()?;
        self.reports.read_line(text)
    }

    fn give(&mut self, bytes: &[u8]) -> Result<(), ReportTrouble> {
        self.call()?;
        self.reports.give(bytes)
    }

    fn find_word(&mut self, whole: bool) -> Result<Option<Vec<u8>>, ReportTrouble> {
        self.call()?;
        self.reports.find_word(whole)
    }

    fn put(&mut self, whole: bool) -> Result<(), ReportTrouble> {
        self.call()?;
        self.reports.put(whole)
    }
}

#[test]
fn nothing_is_put_if_the_word_is_not_said(rt: HostRuntime) -> Result<(), Fail> {
    let alloc = rt.alloc();
    let (parts, separators) = (all_closed(alloc)?, separators(alloc)?);
    let mut reports = reports(alloc, REPORTS[1].0, closed_with(TAIL))?;
    let mut out = MemOutput::new(alloc);
    out.fail_call(1, 0);
    let made = join(alloc, &separators, ROOT, 7, &parts, &mut reports, &mut out);
    assert!(rt; matches!(made, Err(JoinStop::Unsaid)));
    assert_eq!(rt; reports.joined().len(), 0);
    assert_eq!(rt; out.text().len(), 0);
    // The word is the last byte of the length, and is said once.
    let made = join(alloc, &separators, ROOT, 7, &parts, &mut reports, &mut out);
    assert!(rt; made.is_ok());
    assert_eq!(rt; reports.joined().len(), 1);
    assert_eq!(rt; out.text(), [3 * 7].as_slice());
    Ok(())
}

#[test]
fn nothing_is_put_if_a_call_fails(rt: HostRuntime) -> Result<(), Fail> {
    let alloc = rt.alloc();
    let parts = all_closed(alloc)?;
    // It is begun, three reports are opened, of which three lines are read and given, and the end
    // of each is read; then its word is found, and it is put.
    let calls = 1 + 3 + 2 * 3 + 3 + 1 + 1;
    for left in 0..=calls {
        let mut failing = Failing {
            reports: reports(alloc, REPORTS[1].0, closed_with(TAIL))?,
            left,
        };
        let made = joined(alloc, &parts, &mut failing)?;
        assert_eq!(rt; made.is_ok(), left == calls, "{left}");
        let count = if left == calls { 1 } else { 0 };
        assert_eq!(rt; failing.reports.joined().len(), count, "{left}");
    }
    Ok(())
}

/// The ends of a part, and which of `LISTED` are in it.
const WITHIN: [(Option<&str>, Option<&str>, &[&str]); 4] = [
    (None, None, &["d", "b/c", "a", "b", "b-", "c/x", "d"]),
    (None, Some("b"), &["a"]),
    (Some("b"), Some("d"), &["b/c", "b", "b-", "c/x"]),
    (Some("d"), None, &["d", "d"]),
];

const LISTED: &[&str] = &["d", "b/c", "a", "b", "b-", "c/x", "d"];

fn places(alloc: Global, paths: &[&str]) -> Result<Vec<Place>, Fail> {
    let mut places = Vec::new(alloc);
    for path in paths {
        places.push(place_of(alloc, path)?)?;
    }
    Ok(places)
}

#[test]
fn each_place_is_in_one_part(rt: HostRuntime) -> Result<(), Fail> {
    let alloc = rt.alloc();
    let listed = places(alloc, LISTED)?;
    for (from, below, wanted) in WITHIN {
        let (from, below) = (end(alloc, from)?, end(alloc, below)?);
        let found = find_within(alloc, &from, &below, &listed)?;
        assert_eq!(rt; found, places(alloc, wanted)?);
    }
    Ok(())
}
