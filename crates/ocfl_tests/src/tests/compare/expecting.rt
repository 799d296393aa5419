//! Lists of objects, and those of them that a report lacks.
use crate::tests::common::changes::changes_text;
use crate::tests::common::input::{Slow, Then, failures};
use crate::tests::common::output::Narrow;
use crate::tests::common::store::place_of;
use ocfl_compare::{CompareStop, GoneList, ListStop, find_expected, read_list};
use ocfl_tree::Place;
use std::alloc::Global;
use std::io::BufReader;
use std::test::Fail;

/// A root with an object `o`, a file `b` in the hierarchy, and an empty directory `p`.
const REPORT: &str = "ok\t.\t-\nE072\tb\t-\nok\to\t-\nok\to/v1/content/a\t3\nE073\tp\t-\n";

/// A list of objects, and which of them the report lacks.
const MISSING: [(&str, &str); 5] = [
    ("", ""),
    ("o\n", ""),
    ("o\nz\na\nz/\n", "expected\ta\nexpected\tz\n"),
    // No object is at a file, at an empty directory or at a content file.
    (
        "p\nb\no/v1/content/a\n",
        "expected\tb\nexpected\to/v1/content/a\nexpected\tp\n",
    ),
    (
        "a-b\na/b\n%0A\n",
        "expected\t%0A\nexpected\ta/b\nexpected\ta-b\n",
    ),
];

fn listed(alloc: Global, text: &str) -> Result<Vec<Place>, Fail> {
    let mut reader = text.as_bytes();
    Ok(read_list(alloc, &mut reader)?)
}

fn stop_of(alloc: Global, text: &str) -> Option<ListStop> {
    let mut reader = text.as_bytes();
    read_list(alloc, &mut reader).err()
}

/// Which objects of a list a report lacks, but for places that were left out.
fn missing(alloc: Global, list: &str, report: &str, left: &[Place]) -> Result<String, Fail> {
    let mut places = listed(alloc, list)?;
    let mut reader = report.as_bytes();
    let mut taken = Vec::new(alloc);
    find_expected(alloc, &mut places, &mut reader, left, &mut taken)?;
    changes_text(alloc, taken.as_slice())
}

#[test]
fn lists_are_read(rt: HostRuntime) -> Result<(), Fail> {
    let alloc = rt.alloc();
    for (text, wanted) in [
        ("", &[][..]),
        ("\n\n", &[]),
        ("# taken in 2024\no\np/q\no/\nb\n", &["o", "p/q", "o", "b"]),
        ("b", &["b"]),
        ("b//\n/\na\n", &["b", "a"]),
        ("a#\n #\n", &["a#", " #"]),
    ] {
        let places = listed(alloc, text)?;
        assert_eq!(rt; places.len(), wanted.len(), "{text}");
        for (place, path) in places.iter().zip(wanted) {
            assert_eq!(rt; *place, place_of(alloc, path)?, "{text}");
        }
    }
    for (text, number) in [
        (".\n", 1u64),
        ("a\n/b\n", 2),
        ("a\n\n%c3%a9\n", 3),
        ("# a\na//b", 2),
        ("a\r\n", 1),
    ] {
        assert_eq!(rt;
            stop_of(alloc, text),
            Some(ListStop::Line(number)),
            "{text}"
        );
    }
    for (row, kind, wanted) in failures(ListStop::Failed, ListStop::Memory) {
        let then = Then::Fails(kind);
        let mut reader = BufReader::new(alloc, Slow { left: b"a\n", then })?;
        assert_eq!(rt; read_list(alloc, &mut reader).err(), Some(wanted), "{row}");
    }
    Ok(())
}

#[test]
fn objects_without_a_line_are_missing(rt: HostRuntime) -> Result<(), Fail> {
    let alloc = rt.alloc();
    for (list, wanted) in MISSING {
        let text = missing(alloc, list, REPORT, &[])?;
        assert_eq!(rt; text.as_str(), wanted, "{list}");
    }
    assert_eq!(rt; missing(alloc, "o\n", "", &[])?.as_str(), "expected\to\n");
    let left = [place_of(alloc, "x")?];
    assert_eq!(rt;
        missing(alloc, "x/a\nx\ny\n", REPORT, &left)?.as_str(),
        "expected\ty\n"
    );
    Ok(())
}

#[test]
fn a_report_that_is_searched_is_read_whole(rt: HostRuntime) -> Result<(), Fail> {
    let alloc = rt.alloc();
    let mut places = listed(alloc, "a\n")?;
    let mut report = b"ok\ta\t-\nok\tb\t-".as_slice();
    let mut taken = Vec::new(alloc);
    let stop = find_expected(alloc, &mut places, &mut report, &[], &mut taken).err();
    assert_eq!(rt; stop, Some(CompareStop::Now(2)));
    let mut report = b"".as_slice();
    let mut list = GoneList::new(alloc, Narrow::new(alloc, 3));
    let stop = find_expected(alloc, &mut places, &mut report, &[], &mut list).err();
    assert_eq!(rt; stop, Some(CompareStop::Output));
    // The root is no object, and never missing.
    let mut places = Vec::new(alloc);
    places.push(Place::root(alloc))?;
    let mut report = b"".as_slice();
    find_expected(alloc, &mut places, &mut report, &[], &mut taken)?;
    assert_eq!(rt; taken.len(), 0);
    Ok(())
}
