//! How many files of an object are right, as a night says it.
use crate::tests::common::store::place_of;
use ocfl_messages::{
    Finding, Found, Gathering, Gravest, Heads, Known, KnownEntry, Night, Reach, night_text,
};
use ocfl_report::read_line;
use std::alloc::Global;
use std::test::Fail;

/// What is found in these lines, which come one by one, behind the head of another object.
fn found_in(alloc: Global, known: &Known, report: &str, is_over: bool) -> Result<Gravest, Fail> {
    let before = Heads::within(alloc, b"ok\tz\t-\n")?;
    let mut found = Found::new(alloc, before);
    for text in report.split_inclusive('\n') {
        found.take_line(known, read_line(alloc, text.as_bytes())?)?;
    }
    let (gravest, _) = found.end(is_over)?;
    Ok(gravest)
}

/// The lines that begin the groups of a message about these lines of a report.
fn heads_of(alloc: Global, known: &Known, report: &str, is_over: bool) -> Result<String, Fail> {
    let night = Night {
        root: "/srv",
        part: None,
        cycle: 2,
        first: 3,
        last: 4,
        report: "/state/report",
    };
    let found = found_in(alloc, known, report, is_over)?;
    let text = String::from_utf8(night_text(alloc, &night, &found)?)?;
    let mut heads = String::new(alloc);
    for line in text.as_str().split_inclusive('\n') {
        if line.starts_with("Object ") || line.starts_with("Elsewhere") {
            heads.push_str(line)?;
        }
    }
    Ok(heads)
}

/// A file that is right, before and behind one of four that is not.
const ONE: &str = "ok\to\t-\nok\to/v1/content/a\t1\nE092\to/v1/content/b\tmd5 00 11\n\
ok\to/v1/content/c\t0\nok\to/v1/content/d\t4611686018427387903\n";

/// Lines of a report, and the heads of the groups of its message: if no more lines of the last
/// object come, and if some may.
const COUNTED: [(&str, &str, &str); 10] = [
    (
        ONE,
        "Object o, 3 of 4 files right:\n",
        "Object o, 3 of 4 files right of those read tonight:\n",
    ),
    // A file with two findings is one. The head of an object may have several lines.
    (
        "E058\to\t-\nok\to\t-\nE092\to/v1/content/b\tmd5 00 11\n\
         E093\to/v1/content/b\tsha1 00 11\nok\to/v1/content/c\t2\n",
        "Object o, 1 of 2 files right:\n",
        "Object o, 1 of 2 files right of those read tonight:\n",
    ),
    // What is beside an object is not in it, and what has no entry is one of its files.
    (
        "ok\to\t-\nE023\to/v1/content/b\t-\nok\to/v1/content/c\t2\nS08\to-/v1\t-\n",
        "Elsewhere, S08:\nObject o, 1 of 2 files right:\n",
        "Elsewhere, S08:\nObject o, 1 of 2 files right of those read tonight:\n",
    ),
    // Nothing is said of none.
    ("E060\to\tmd5\n", "Object o:\n", "Object o:\n"),
    ("E072\to/f\t-\n", "Elsewhere, E072:\n", "Elsewhere, E072:\n"),
    // The object of lines before these has other files.
    (
        "ok\tz/v1/content/a\t2\nE092\tz/v1/content/b\tmd5 missing\nok\tza\t-\n",
        "Object z, 1 of 2 files right of those read tonight:\n",
        "Object z, 1 of 2 files right of those read tonight:\n",
    ),
    // So it is if its head has one more line.
    (
        "E058\tz\t-\nok\tz/v1/content/a\t2\n",
        "Object z, 1 of 1 file right of those read tonight:\n",
        "Object z, 1 of 1 file right of those read tonight:\n",
    ),
    // Each object has its own.
    (
        "ok\to\t-\nE092\to/v1/content/b\tmd5 missing\nok\tp\t-\nok\tp/v1/content/a\t1\n\
         ok\tp/v1/content/b\t1\nok\tq\t-\nE092\tq/v1/content/a\tmd5 missing\n\
         ok\tq/v1/content/b\t1\n",
        "Object o, 0 of 1 file right:\nObject q, 1 of 2 files right:\n",
        "Object o, 0 of 1 file right:\nObject q, 1 of 2 files right of those read tonight:\n",
    ),
    // Each finding has those of its object, whatever its weight.
    (
        "E058\to\t-\nE092\to/v1/content/b\tmd5 missing\nE101\tp\ta\n\
         ok\tp/v1/content/b\t1\nok\tr\t-\n",
        "Object o, 0 of 1 file right:\nObject p, 1 of 1 file right:\n",
        "Object o, 0 of 1 file right:\nObject p, 1 of 1 file right:\n",
    ),
    ("ok\to\t-\nok\to/v1/content/b\t2\n", "", ""),
];

#[test]
fn nights_say_how_many_files_are_right(rt: HostRuntime) -> Result<(), Fail> {
    let alloc = rt.alloc();
    let known = Known::new(alloc);
    for (report, over, open) in COUNTED {
        let heads = heads_of(alloc, &known, report, true)?;
        assert_eq!(rt; heads.as_str(), over, "{report}");
        let heads = heads_of(alloc, &known, report, false)?;
        assert_eq!(rt; heads.as_str(), open, "{report}");
    }
    Ok(())
}

/// A finding that is known is not said, and its file does not count as right.
#[test]
fn files_with_known_findings_are_counted(rt: HostRuntime) -> Result<(), Fail> {
    let alloc = rt.alloc();
    let mut entries = Vec::new(alloc);
    entries.push(KnownEntry {
        reach: Reach::Branch,
        line: read_line(alloc, b"E092\to/v1/content/b\t-\n")?,
    })?;
    let known = Known::of(entries)?;
    assert_eq!(rt; heads_of(alloc, &known, ONE, true)?.as_str(), "");
    let report = format!(in alloc; "{ONE}E092\to/v1/content/e\tmd5 missing\n")?;
    let heads = heads_of(alloc, &known, report.as_str(), true)?;
    assert_eq!(rt; heads.as_str(), "Object o, 3 of 5 files right:\n");
    Ok(())
}

/// How many files of its object are right, how many there are, and whether these are all.
fn counts_of(finding: &Finding) -> Option<(u64, u64, bool)> {
    match finding.files {
        Some(counts) => Some((counts.right, counts.files, counts.is_whole)),
        None => None,
    }
}

/// Files that are right count alike whether they come one by one or together.
#[test]
fn files_are_counted_together(rt: HostRuntime) -> Result<(), Fail> {
    let alloc = rt.alloc();
    let known = Known::new(alloc);
    for right in [0, 2, u64::MAX] {
        let mut found = Found::new(alloc, Heads::new());
        for text in ["ok\to\t-\n", "E092\to/v1/content/a\tmd5 missing\n"] {
            found.take_line(&known, read_line(alloc, text.as_bytes())?)?;
        }
        found.take_right(right);
        let (gravest, _) = found.end(true)?;
        let counts = counts_of(&gravest.bytes.first.as_slice()[0]);
        assert_eq!(rt; counts, Some((right, right.saturating_add(1), true)));
    }
    Ok(())
}

/// Only findings that are to be told are kept, and all files are counted.
#[test]
fn gatherings_count_what_is_not_told(rt: HostRuntime) -> Result<(), Fail> {
    let alloc = rt.alloc();
    for passes in [false, true] {
        let mut gathering = Gathering::new(alloc, Heads::new());
        for (text, is_told) in [
            ("ok\to\t-\n", false),
            ("E092\to/a\tmd5 missing\n", false),
            ("E092\to/b\tmd5 missing\n", true),
            ("ok\to/c\t1\n", false),
            ("ok\tp\t-\n", false),
            ("ok\tp/d\t1\n", false),
        ] {
            let line = read_line(alloc, text.as_bytes())?;
            if passes && !is_told {
                gathering.pass(&line)?;
            } else {
                gathering.take(line, is_told)?;
            }
        }
        let (gravest, _) = gathering.end(true);
        let kept = gravest.bytes.first.as_slice();
        assert_eq!(rt; kept.len(), 1);
        assert_eq!(rt; kept[0].line.place, place_of(alloc, "o/b")?);
        assert_eq!(rt; counts_of(&kept[0]), Some((1, 3, true)));
    }
    Ok(())
}
