//! What is counted and shown of changes.
use crate::tests::common::store::place_of;
use ocfl_compare::{Change, Side};
use ocfl_messages::{GoneKind, Known, KnownEntry, Reach};
use ocfl_report::{Code, DisplayPlace, Line, read_line, read_place};
use ocfl_words::{Changes, Findings, Noting, Part, count_places};
use std::alloc::Global;
use std::test::Fail;

/// A finding of E101 at a place.
fn conflict_at(alloc: Global, place: &str, detail: &str) -> Result<Line, Fail> {
    Ok(Line {
        code: Code::E101,
        place: place_of(alloc, place)?,
        detail: String::from_str(alloc, detail)?,
    })
}

/// A list that names this line, or all findings of E101 at its place.
fn known_by(alloc: Global, reach: Reach, line: Line) -> Result<Known, Fail> {
    let mut entries = Vec::new(alloc);
    entries.push(KnownEntry { reach, line })?;
    Ok(Known::of(entries)?)
}

/// What is shown of what is gone.
fn shown(alloc: Global, changes: &Changes) -> Result<String, Fail> {
    let mut text = String::new(alloc);
    for gone in &changes.gone(alloc)? {
        let word = match gone.kind {
            GoneKind::Object => "object",
            GoneKind::Undeclared => "undeclared",
            GoneKind::File => "file",
            GoneKind::Expected => "expected",
        };
        let row = format!(in alloc; "{word} {};", DisplayPlace(&gone.place))?;
        text.push_str(row.as_str())?;
    }
    Ok(text)
}

/// Changes at places, and whether each is a finding that is known.
const CHANGES: [(&str, Change, bool); 12] = [
    ("a", Change::Gone, false),
    ("b", Change::Undeclared, false),
    ("c/f", Change::FileGone, false),
    ("d", Change::Missing, false),
    ("e/f", Change::Unlooked, false),
    ("p", Change::Found(Code::E101), false),
    ("q", Change::Found(Code::E101), true),
    ("r", Change::Repaired(Code::E101), false),
    ("s", Change::Rewritten, false),
    ("t", Change::WentBack, false),
    ("u", Change::NewVersion, false),
    ("v", Change::NewVersion, false),
];

#[test]
fn each_change_is_counted_once(rt: HostRuntime) -> Result<(), Fail> {
    let alloc = rt.alloc();
    let known = known_by(alloc, Reach::Place, conflict_at(alloc, "q", "-")?)?;
    let mut noting = Noting::new(alloc, &known, &[]);
    for (path, change, is_known) in CHANGES {
        let place = place_of(alloc, path)?;
        noting.see(Side::Now, &conflict_at(alloc, path, "b")?)?;
        assert_eq!(rt; noting.note(&place, change)?, is_known, "{path}");
    }
    let Part { changes, .. } = noting.take_part()?;
    assert_eq!(rt;
        shown(alloc, &changes)?.as_str(),
        "object a;undeclared b;expected d;file c/f;"
    );
    assert_eq!(rt; changes.gone_count(), 4);
    assert_eq!(rt; (changes.unlooked, changes.repaired_count), (1, 1));
    let moved = changes.moved;
    assert_eq!(rt; (moved.rewritten, moved.went_back, moved.newer), (1, 1, 2));
    assert_eq!(rt; (changes.appeared_count, changes.known_count), (1, 1));
    assert_eq!(rt; noting.take_part()?.changes.gone_count(), 0);
    Ok(())
}

#[test]
fn the_first_twenty_of_each_comparison_are_shown(rt: HostRuntime) -> Result<(), Fail> {
    let alloc = rt.alloc();
    let known = Known::new(alloc);
    let mut noting = Noting::new(alloc, &known, &[]);
    let place = place_of(alloc, "a")?;
    for _ in 0..30 {
        noting.note(&place, Change::Gone)?;
    }
    let Part { mut changes, .. } = noting.take_part()?;
    assert_eq!(rt;
        (changes.gone(alloc)?.len(), changes.gone_count()),
        (20, 30)
    );
    noting.note(&place, Change::Gone)?;
    let Part {
        changes: mut more,
        ..
    } = noting.take_part()?;
    changes.join(&mut more)?;
    assert_eq!(rt;
        (changes.gone(alloc)?.len(), changes.gone_count()),
        (21, 31)
    );
    Ok(())
}

/// Findings of a place in this report, and whether the first is known by its whole line.
const KNOWN_LINES: [(&str, &str, &str, bool); 4] = [
    ("a", "b", "c", true),
    ("b", "c", "b", false),
    ("b/c", "b", "b", false),
    ("c", "b", "b", true),
];

#[test]
fn a_finding_is_known_by_the_first_line_of_its_code(rt: HostRuntime) -> Result<(), Fail> {
    let alloc = rt.alloc();
    for (path, first, second, is_known) in KNOWN_LINES {
        let named = if path == "b/c" { "b" } else { path };
        let known = known_by(alloc, Reach::One, conflict_at(alloc, named, "b")?)?;
        let mut noting = Noting::new(alloc, &known, &[]);
        let place = place_of(alloc, path)?;
        noting.see(Side::Before, &conflict_at(alloc, path, "b")?)?;
        noting.see(Side::Now, &read_line(alloc, b"E101\t.\tb\n")?)?;
        noting.see(Side::Now, &conflict_at(alloc, path, first)?)?;
        noting.see(Side::Now, &conflict_at(alloc, path, second)?)?;
        let found = Change::Found(Code::E101);
        assert_eq!(rt; noting.note(&place, found)?, is_known, "{path}");
    }
    Ok(())
}

#[test]
fn the_first_twenty_that_are_repaired_are_shown(rt: HostRuntime) -> Result<(), Fail> {
    let alloc = rt.alloc();
    let known = Known::new(alloc);
    let mut noting = Noting::new(alloc, &known, &[]);
    for object in ["a", "b"] {
        for number in 10..21u64 {
            let path = format!(in alloc; "{object}/{number}")?;
            for code in ["E001", "E092"] {
                let text = format!(in alloc; "{code}\t{path}\twas\n")?;
                noting.see(Side::Before, &read_line(alloc, text.as_bytes())?)?;
            }
            let place = read_place(alloc, path.as_bytes())?;
            noting.note(&place, Change::Repaired(Code::E001))?;
            noting.note(&place, Change::Repaired(Code::E092))?;
        }
    }
    let Part { changes, .. } = noting.take_part()?;
    assert_eq!(rt; (changes.repaired.len(), changes.repaired_count), (20, 44));
    for (line, code) in changes.repaired.iter().zip([Code::E092, Code::E001]) {
        assert_eq!(rt; line.code, code);
        assert_eq!(rt; line.place.path(), "a/10");
    }
    Ok(())
}

/// A report in which findings of one code are new at a place.
const REPORT: [&str; 5] = [
    "ok\t.\t-\n",
    "ok\to\t-\n",
    "E101\tp\tone\n",
    "E101\tp\ttwo\n",
    "ok\tq\t-\n",
];

/// What is found of that report, since one with another finding, if these were said before.
fn found_in_report(alloc: Global, said: &[Line]) -> Result<Part, Fail> {
    let known = Known::new(alloc);
    let mut noting = Noting::new(alloc, &known, said);
    noting.see(Side::Before, &read_line(alloc, b"E092\to\twas\n")?)?;
    noting.note(&place_of(alloc, "o")?, Change::Repaired(Code::E092))?;
    for text in &REPORT[..4] {
        noting.see(Side::Now, &read_line(alloc, text.as_bytes())?)?;
    }
    noting.note(&place_of(alloc, "p")?, Change::Found(Code::E101))?;
    noting.see(Side::Now, &read_line(alloc, REPORT[4].as_bytes())?)?;
    Ok(noting.take_part()?)
}

/// The details of the findings that are shown of what a record says.
fn details(found: &Findings, alloc: Global) -> Result<String, Fail> {
    let mut text = String::new(alloc);
    for finding in &found.gravest.records.first {
        text.push_str(finding.line.detail.as_str())?;
        text.push_str(";")?;
    }
    Ok(text)
}

#[test]
fn the_first_finding_of_a_code_is_said(rt: HostRuntime) -> Result<(), Fail> {
    let alloc = rt.alloc();
    let Part { changes, found } = found_in_report(alloc, &[])?;
    assert_eq!(rt; changes.repaired.len(), 1);
    assert_eq!(rt; changes.repaired[0].detail.as_str(), "was");
    assert_eq!(rt; (found.count, found.said), (2, 0));
    assert_eq!(rt; found.gravest.count(), 1);
    assert_eq!(rt; details(&found, alloc)?.as_str(), "one;");
    assert_eq!(rt; found.tally.counts().objects, 3);
    Ok(())
}

#[test]
fn what_was_said_before_is_not_said_again(rt: HostRuntime) -> Result<(), Fail> {
    let alloc = rt.alloc();
    for (text, said, shown) in [(REPORT[2], 1, ""), (REPORT[3], 0, "one;")] {
        let mut before = Vec::new(alloc);
        before.push(read_line(alloc, text.as_bytes())?)?;
        let Part { changes, found } = found_in_report(alloc, &before)?;
        assert_eq!(rt; (changes.appeared_count, found.count), (1, 2), "{text}");
        assert_eq!(rt; found.said, said, "{text}");
        assert_eq!(rt; details(&found, alloc)?.as_str(), shown, "{text}");
    }
    Ok(())
}

#[test]
fn findings_of_two_comparisons_are_joined(rt: HostRuntime) -> Result<(), Fail> {
    let alloc = rt.alloc();
    let mut before = Vec::new(alloc);
    before.push(read_line(alloc, REPORT[2].as_bytes())?)?;
    let Part { mut found, .. } = found_in_report(alloc, &[])?;
    let Part {
        found: mut more,
        ..
    } = found_in_report(alloc, &before)?;
    found.join(&mut more)?;
    let Part {
        found: mut again,
        ..
    } = found_in_report(alloc, &[])?;
    found.join(&mut again)?;
    assert_eq!(rt; (found.said, found.gravest.count()), (1, 2));
    assert_eq!(rt; details(&found, alloc)?.as_str(), "one;one;");
    assert_eq!(rt; found.tally.counts().objects, 3);
    assert_eq!(rt; Findings::new(alloc).gravest.count(), 0);
    Ok(())
}

#[test]
fn a_place_that_is_listed_twice_counts_once(rt: HostRuntime) -> Result<(), Fail> {
    let alloc = rt.alloc();
    let mut places = Vec::new(alloc);
    for path in ["a", "a", "b"] {
        places.push(place_of(alloc, path)?)?;
    }
    assert_eq!(rt; count_places(&places), 2);
    Ok(())
}
