//! Reports, and the separators that cut them into parts of about one cost.
use crate::tests::common::input::{Slow, Then, expect_failures};
use crate::tests::common::store::place_of;
use crate::tests::parts::text_of;
use ocfl_separators::{SplitStop, split_by};
use std::alloc::Global;
use std::io::{BufReader, ErrorKind};
use std::test::Fail;

/// The report of a root with an object of three files, which cost 4, 1 and 4.
const THREE_FILES: &str = "ok\t.\t-\nok\to\t-\nok\to/v1/content/a\t3\nok\to/v1/content/b\t0\n\
ok\to/v1/content/c\t3\n";

/// The report of an audit that checks the inventories of versions. The files cost 4, 55 and 55; the
/// digest is that of `sha256sum`.
const TWO_VERSIONS: &str = "ok\t.\t-\nok\to\t-\n\
S09\to\tsha256 5aae4bf052d22be5d2840c5cf7ef5ae539183f222606b54201e8b297ec6924dd v2\n\
ok\to/v1/content/a\t3\nok\to/v1/inventory.json\t54\nok\to/v2/inventory.json\t54\n";

/// Lines of the place `b` between a file of cost 4 and `c` of cost 1, and where parts of cost 4 are
/// then cut first.
const COSTS: [(&str, &str); 19] = [
    ("ok\tb\t0\n", "b\n"),
    ("ok\tb\t3\n", "b\n"),
    ("ok\tb\t4611686018427387903\n", "b\n"),
    ("ok\tb\t4611686018427387904\n", "c\n"),
    ("ok\tb\t18446744073709551616\n", "c\n"),
    ("ok\tb\t-\n", "c\n"),
    ("ok\tb\t\n", "c\n"),
    ("ok\tb\t03\n", "c\n"),
    ("ok\tb\t+3\n", "c\n"),
    ("ok\tb\t3 \n", "c\n"),
    ("S02\tb\t3\n", "c\n"),
    ("E023\tb\t-\n", "c\n"),
    ("S08\tb\t-\n", "c\n"),
    ("S09\tb\tsha256 1e627d990f56 v1\n", "c\n"),
    ("S09\tb\tsha256 1e627d990f56\n", "c\n"),
    ("E060\tb\tsha256 1e627d990f56 0a89d02e2ae3\n", "c\n"),
    ("E064\tb\tsha256 1e627d990f56 0a89d02e2ae3\n", "c\n"),
    ("E092\tb\tsha256 missing\n", "c\n"),
    ("E092\tb\tsha256 missing\nE093\tb\tmd5 missing\n", "c\n"),
];

/// Splits a report and gives the separators' text.
fn split_text(alloc: Global, budget: u64, report: &str) -> Result<String, Fail> {
    let mut reader = report.as_bytes();
    text_of(alloc, &split_by(alloc, &mut reader, budget)?)
}

fn stop_of(alloc: Global, budget: u64, report: &[u8]) -> Option<SplitStop> {
    let mut reader = report;
    split_by(alloc, &mut reader, budget).err()
}

#[test]
fn parts_are_the_runs(rt: HostRuntime) -> Result<(), Fail> {
    let alloc = rt.alloc();
    for (budget, wanted) in [
        (1u64, "o/v1/content/b\no/v1/content/c\n"),
        (4, "o/v1/content/b\n"),
        (5, "o/v1/content/c\n"),
        (9, ""),
        (u64::MAX, ""),
    ] {
        let text = split_text(alloc, budget, THREE_FILES)?;
        assert_eq!(rt; text.as_str(), wanted, "{budget}");
    }
    let mut reader = THREE_FILES.as_bytes();
    let separators = split_by(alloc, &mut reader, 4)?;
    assert_eq!(rt; separators.len(), 1);
    assert_eq!(rt; separators.places()[0], place_of(alloc, "o/v1/content/b")?);
    Ok(())
}

#[test]
fn inventories_of_versions_cost_as_content_does(rt: HostRuntime) -> Result<(), Fail> {
    for (budget, wanted) in [
        (1u64, "o/v1/inventory.json\no/v2/inventory.json\n"),
        (4, "o/v1/inventory.json\no/v2/inventory.json\n"),
        (5, "o/v2/inventory.json\n"),
        (59, "o/v2/inventory.json\n"),
        (60, ""),
    ] {
        let text = split_text(rt.alloc(), budget, TWO_VERSIONS)?;
        assert_eq!(rt; text.as_str(), wanted, "{budget}");
    }
    Ok(())
}

#[test]
fn only_files_that_are_right_cost(rt: HostRuntime) -> Result<(), Fail> {
    let alloc = rt.alloc();
    for (line, wanted) in COSTS {
        let report = format!(in alloc; "ok\ta\t3\n{line}ok\tc\t0\n")?;
        let text = split_text(alloc, 4, report.as_str())?;
        let first = text.as_str().split_once('\n').map(|(first, _)| first);
        assert_eq!(rt; first, wanted.strip_suffix("\n"), "{line}");
    }
    Ok(())
}

#[test]
fn lines_of_one_place_are_one_item(rt: HostRuntime) -> Result<(), Fail> {
    let alloc = rt.alloc();
    for (report, budget, wanted) in [
        ("", 1u64, ""),
        ("ok\ta\t3\nok\ta\t3\nok\tb\t0\n", 4, "b\n"),
        ("ok\ta\t3\nok\ta\t3\nok\tb\t0\n", 8, "b\n"),
        ("ok\ta\t3\nok\ta\t3\nok\tb\t0\n", 9, ""),
        ("ok\ta\t0\nE023\tb\t-\nok\tb\t0\nok\tc\t0\n", 1, "b\nc\n"),
        // A place is less than those below it, and `a/b` than `a-b`.
        ("ok\ta/b\t3\nok\ta-b\t3\n", 1, "a-b\n"),
        ("ok\t.\t-\nok\ta\t3\nE092\tb\tmd5 missing\n", 1, ""),
    ] {
        let text = split_text(alloc, budget, report)?;
        assert_eq!(rt; text.as_str(), wanted, "{report}");
    }
    // Costs that sum to more than a number of the machine are more than any budget.
    let mut report = String::new(alloc);
    for _ in 0..5 {
        report.push_str("ok\ta\t4611686018427387903\n")?;
    }
    report.push_str("ok\tb\t0\n")?;
    assert_eq!(rt;
        split_text(alloc, u64::MAX, report.as_str())?.as_str(),
        "b\n"
    );
    Ok(())
}

/// The number of the line that is bad, in each of these reports.
const BAD_LINES: [(u64, &[&str]); 3] = [
    (1, &["ok\t.\t-", "\n"]),
    (
        2,
        &[
            "ok\t.\t-\n\n",
            "ok\t.\t-\nok\ta\n",
            "ok\t.\t-\nOK\ta\t3\n",
            "ok\t.\t-\nok\ta\t3\r\nok\tb\t3\n",
            "ok\t.\t-\nok\t/a\t3\n",
            "ok\t.\t-\nok\ta\t%c3%a9\n",
            "ok\tb\t3\nok\ta\t3\n",
            "ok\ta-b\t3\nok\ta/b\t3\n",
            "ok\ta\t3\nok\t.\t-\n",
        ],
    ),
    (3, &["ok\tb\t3\nok\tb\t3\nok\ta\t3\n"]),
];

#[test]
fn bad_report_lines_are_counted(rt: HostRuntime) -> Result<(), Fail> {
    for (line, reports) in BAD_LINES {
        for report in reports {
            let stop = stop_of(rt.alloc(), 1, report.as_bytes());
            assert_eq!(rt; stop, Some(SplitStop::Line(line)), "{report}");
        }
    }
    Ok(())
}

#[test]
fn separators_have_a_limit(rt: HostRuntime) -> Result<(), Fail> {
    let alloc = rt.alloc();
    let mut report = Vec::new(alloc);
    for number in 0..100_001 {
        report.extend_from_slice(format!(in alloc; "ok\tA{number:06}\t0\n")?.as_bytes())?;
    }
    let mut reader = report.as_slice();
    assert_eq!(rt; split_by(alloc, &mut reader, 1)?.len(), 100_000);
    report.extend_from_slice(b"ok\tB\t0\n")?;
    assert_eq!(rt; stop_of(alloc, 1, &report), Some(SplitStop::Many));
    assert_eq!(rt; stop_of(alloc, 2, &report), None);
    Ok(())
}

/// What splitting a report stops with that is read so.
fn read_stop(alloc: Global, slow: Slow<'_>) -> Result<Option<SplitStop>, Fail> {
    let mut reader = BufReader::new(alloc, slow)?;
    Ok(split_by(alloc, &mut reader, 1).err())
}

#[test]
fn failing_reports_are_told(rt: HostRuntime) -> Result<(), Fail> {
    let alloc = rt.alloc();
    let given = [
        ("a line", b"ok\ta\t3\n".as_slice()),
        ("a line and a half", b"ok\ta\t3\nok"),
        ("nothing", b""),
    ];
    let stops = (SplitStop::Read, SplitStop::Memory);
    expect_failures(&rt, &given, stops, |slow| read_stop(alloc, slow))?;
    // A line that is bad comes before the failure after it.
    let left = b"ok\tb\t3\nok\ta\t3\n";
    let then = Then::Fails(ErrorKind::PermissionDenied);
    let stop = read_stop(alloc, Slow { left, then })?;
    assert_eq!(rt; stop, Some(SplitStop::Line(2)));
    Ok(())
}

// Seen to fail if memory is refused for a detail of more than 1,024 bytes, in writing or in reading
// a line.
#[test]
fn report_lines_may_be_long(rt: HostRuntime) -> Result<(), Fail> {
    let alloc = rt.alloc();
    for size in [1_025usize, 70_000] {
        let detail = String::from_utf8(vec![in alloc; b'd'; size]?)?;
        let name = String::from_utf8(vec![in alloc; b'n'; 250]?)?;
        let report = format!(in alloc;
            "ok\t.\t-\nE099\to\t{detail}\nok\to/{name}\t0\nok\to/{name}/{name}/{name}/{name}/{name}\t0\n"
        )?;
        let text = split_text(alloc, 1, report.as_str())?;
        let wanted = format!(in alloc; "o/{name}/{name}/{name}/{name}/{name}\n")?;
        assert_eq!(rt; text.as_str(), wanted.as_str(), "{size}");
    }
    Ok(())
}
