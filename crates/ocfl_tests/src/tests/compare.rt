//! What reports say of one another.
use crate::tests::common::changes::changes_text;
use crate::tests::common::input::expect_failures;
use crate::tests::common::output::Narrow;
use crate::tests::common::store::place_of;
use ocfl_compare::{Change, CompareStop, GoneList, TakeChange, TakeStop, compare};
use ocfl_report::Code;
use ocfl_tree::Place;
use std::alloc::Global;
use std::io::{BufRead, BufReader};
use std::test::Fail;

mod expecting;
mod seeing;

/// A root with two objects, of which one has a file that is missing.
const BEFORE: &str = "ok\t.\t-\nok\to\t-\nok\to/v1/content/a\t3\n\
E092\to/v1/content/b\tsha256 missing\nok\tp\t-\nok\tp/v1/content/c\t0\n";

/// The same root without the second object; the missing file is back, and the other is damaged.
const NOW: &str = "ok\t.\t-\nok\to\t-\nE092\to/v1/content/a\tsha512 aa bb\n\
ok\to/v1/content/b\t4\n";

/// Two reports, and what changed between them.
const NEW_FINDINGS: [(&str, &str, &str); 14] = [
    ("ok\to\t-\n", "E060\to\tsha512 aa bb\n", "E060\to\n"),
    (
        "E101\to\ta\n",
        "E060\to\tsha512 aa bb\nE101\to\tb\n",
        "E060\to\n",
    ),
    ("E101\to\ta\n", "E101\to\tb\nE101\to\tc\n", ""),
    (
        "ok\to\t3\n",
        "E092\to\tsha256 aa bb\nE092\to\tsha512 aa bb\n",
        "E092\to\n",
    ),
    (
        "ok\to\t3\n",
        "E023\to\t-\nE093\to\tmd5 aa bb\n",
        "E023\to\nE093\to\n",
    ),
    (
        "E092\tn\tsha256 missing\n",
        "E092\tn\tsha256 missing\nE092\to\tsha256 missing\n",
        "E092\to\n",
    ),
    ("ok\to\t-\n", "S07\to\tblake2b\n", ""),
    (
        "E060\to\tsha512 aa bb\n",
        "S07\to\tblake2b\n",
        "repaired E060\to\n",
    ),
    (
        "E060\to\tsha512 aa bb\n",
        "ok\to\t-\n",
        "repaired E060\to\n",
    ),
    (
        "E092\to\tsha512 aa bb\nE093\to\tmd5 aa bb\n",
        "ok\to\t3\n",
        "repaired E092\to\nrepaired E093\to\n",
    ),
    (
        "E092\to\tsha512 aa bb\nE093\to\tmd5 aa bb\n",
        "E093\to\tmd5 aa bb\n",
        "repaired E092\to\n",
    ),
    ("E072\to\t-\n", "", ""),
    ("E092\to\tsha256 missing\n", "E023\to\t-\n", "E023\to\n"),
    ("S07\to\tblake2b\n", "ok\to\t-\n", ""),
];

/// Two reports of which the second may lack a finding because nobody looked for it, and what
/// changed between them.
const HIDDEN: [(&str, &str, &str); 8] = [
    // The head stops: at its inventory, or before it.
    (
        "E060\to\tsha512 aa bb\nE101\to\ta\n",
        "E033\to\t-\n",
        "E033\to\n",
    ),
    ("E101\to\ta\n", "E003\to\t-\n", "E003\to\n"),
    // The file could not be read, or nothing names it any more.
    ("E092\to\tsha512 aa bb\n", "S08\to\t-\n", "S08\to\n"),
    ("E092\to\tsha512 missing\n", "E023\to\t-\n", "E023\to\n"),
    ("E093\to\tmd5 aa bb\n", "S04\to\t-\n", "S04\to\n"),
    // The object is gone.
    (
        "E060\to\tsha512 aa bb\n",
        "E073\to\t-\n",
        "object\to\nE073\to\n",
    ),
    ("E080\t.\t-\n", "E069\t.\t-\n", "E069\t.\n"),
    // It is looked at again.
    (
        "E003\to\t-\n",
        "E058\to\tsha512\nE101\to\ta\n",
        "E058\to\nE101\to\nrepaired E003\to\n",
    ),
];

/// Branches that were left out, and what changed elsewhere.
const LEFT_OUT: [(&[&str], &str); 6] = [
    (
        &["p"],
        "E092\to/v1/content/a\nrepaired E092\to/v1/content/b\n",
    ),
    (&["o"], "object\tp\nunlooked\tp/v1/content/c\n"),
    (
        &["o/v1/content/a"],
        "repaired E092\to/v1/content/b\nobject\tp\nunlooked\tp/v1/content/c\n",
    ),
    (
        &["p/v1"],
        "E092\to/v1/content/a\nrepaired E092\to/v1/content/b\nobject\tp\n",
    ),
    (&["."], ""),
    (&["p/v1", "o"], "object\tp\n"),
];

/// Texts that are no report, and the number of the first bad line.
const BAD_LINES: [(&str, u64); 7] = [
    ("ok\ta\t-", 1),
    ("\n", 1),
    ("ok\ta\t-\nE999\tb\t-\n", 2),
    ("ok\tb\t-\nok\ta\t-\n", 2),
    ("ok\ta-b\t-\nok\ta/b\t-\n", 2),
    ("ok\ta\t-\nok\ta\t-\nok\t%c3%a9\t-\n", 3),
    ("ok\ta\t-\nok\tb\t-\nok\tc\t-\nok\t.\t-\n", 4),
];

/// Lines of the place `o`, and what is gone if this report has no line there.
const KINDS: [(&str, &[&str]); 3] = [
    (
        "object\to\n",
        &[
            "ok\to\t-\n",
            "E003\to\t-\n",
            "E007\to\t-\n",
            "E017\to\ta/b\n",
            "E018\to\t..\n",
            "E025\to\tmd5\n",
            "E033\to\t-\n",
            "E036\to\tdigestAlgorithm\n",
            "E041\to\tmanifest\n",
            "E058\to\t-\n",
            "E060\to\tsha512 aa bb\n",
            "E061\to\tsha512\n",
            "E063\to\t-\n",
            "E096\to\taa\n",
            "E097\to\tmd5 aa\n",
            "E099\to\ta//b\n",
            "E100\to\t/a\n",
            "E101\to\tv1/content/a\n",
            "S01\to\t9.9\n",
            "S02\to\t-\n",
            "S03\to\tmanifest\n",
            "S06\to\ta\n",
            "S07\to\tblake2b\n",
            "S07\to\ta\nE101\to\tv1/content/a\n",
        ],
    ),
    (
        "file\to\n",
        &[
            "ok\to\t0\n",
            "ok\to\t3\n",
            "E023\to\t-\n",
            "E092\to\tsha512 missing\n",
            "E093\to\tmd5 aa bb\n",
            "S08\to\t-\n",
            "E024\to\t-\nE092\to\tsha512 missing\n",
            "S04\to\t-\nE093\to\tmd5 missing\n",
            "E023\to\t-\nS08\to\t-\n",
        ],
    ),
    (
        "",
        &[
            "E001\to\t-\n",
            "E015\to\t-\n",
            "E024\to\t-\n",
            "E072\to\t-\n",
            "E073\to\t-\n",
            "S04\to\t-\n",
            "S05\to\t-\n",
            "ok\t.\t-\n",
            "E069\t.\t-\n",
            "E076\t.\t-\n",
            "E080\t.\t-\n",
            "S01\t.\t9.9\n",
        ],
    ),
];

/// What changed between two reports, but for places that were left out.
fn changes(alloc: Global, before: &str, now: &str, left: &[Place]) -> Result<String, Fail> {
    let mut first = before.as_bytes();
    let mut second = now.as_bytes();
    let mut taken = Vec::new(alloc);
    compare(alloc, &mut first, &mut second, left, &mut taken)?;
    changes_text(alloc, taken.as_slice())
}

/// Why a comparison of what two readers give stops.
fn stop_of(
    alloc: Global,
    before: &mut impl BufRead,
    now: &mut impl BufRead,
) -> Option<CompareStop> {
    compare(alloc, before, now, &[], &mut Vec::new(alloc)).err()
}

#[test]
fn changes_stand_in_the_order_of_places(rt: HostRuntime) -> Result<(), Fail> {
    let alloc = rt.alloc();
    let text = changes(alloc, BEFORE, NOW, &[])?;
    let wanted = "E092\to/v1/content/a\nrepaired E092\to/v1/content/b\nobject\tp\n\
unlooked\tp/v1/content/c\n";
    assert_eq!(rt; text.as_str(), wanted);
    let text = changes(alloc, NOW, BEFORE, &[])?;
    assert_eq!(rt;
        text.as_str(),
        "repaired E092\to/v1/content/a\nE092\to/v1/content/b\n"
    );
    let text = changes(alloc, "", NOW, &[])?;
    assert_eq!(rt; text.as_str(), "E092\to/v1/content/a\n");
    let text = changes(alloc, NOW, "", &[])?;
    let wanted = "object\to\nunlooked\to/v1/content/a\nunlooked\to/v1/content/b\n";
    assert_eq!(rt; text.as_str(), wanted);
    Ok(())
}

/// Objects whose names are below that of the root, or mean something to a shell or a terminal.
const ODD: &str = "ok\t.\t-\nok\t#hash\t-\nok\t#hash/v1/content/a\t1\nok\t(c)\t-\n\
ok\t(c)/v1/content/a\t1\nok\t+b\t-\nok\t+b/v1/content/a\t1\nok\t-\t-\nok\t-/v1/content/a\t1\n\
ok\t-b\t-\nok\t-b/v1/content/a\t1\nok\ta\\nb\t-\nok\ta%0Ab\t-\n";

#[test]
fn names_do_not_matter(rt: HostRuntime) -> Result<(), Fail> {
    let alloc = rt.alloc();
    // A line feed is before a backslash.
    let stop = stop_of(alloc, &mut ODD.as_bytes(), &mut b"".as_slice());
    assert_eq!(rt; stop, Some(CompareStop::Before(13)));
    let report =
        "ok\t.\t-\nok\t#hash\t-\nok\t(c)\t-\nok\t+b\t-\nok\t-\t-\nok\t-b\t-\nok\t-b/v1\t1\n\
ok\ta\t-\nok\ta/b\t-\nok\ta%0Ab\t-\nok\ta-b\t-\nok\ta\\nb\t-\nok\t~\t-\n";
    assert_eq!(rt; changes(alloc, report, report, &[])?.as_str(), "");
    let left = "ok\t.\t-\nok\t#hash\t-\nok\t(c)\t-\nok\t-\t-\nok\t-b\t-\nok\ta\t-\nok\ta-b\t-\n";
    let wanted = "object\t+b\nfile\t-b/v1\nobject\ta/b\nobject\ta%0Ab\nobject\ta\\nb\nobject\t~\n";
    assert_eq!(rt; changes(alloc, report, left, &[])?.as_str(), wanted);
    Ok(())
}

#[test]
fn objects_and_content_files_can_be_gone(rt: HostRuntime) -> Result<(), Fail> {
    let alloc = rt.alloc();
    for (wanted, reports) in KINDS {
        for report in reports {
            assert_eq!(rt;
                changes(alloc, report, "", &[])?.as_str(),
                wanted,
                "{report}"
            );
            // With another line at the place the object is gone, and no file is.
            let text = changes(alloc, report, "S05\t.\t-\nS05\to\t-\n", &[])?;
            let is_object = wanted == "object\to\n";
            assert_eq!(rt; text.as_str().contains("object\t"), is_object, "{report}");
            assert_eq!(rt; text.as_str().contains("file\t"), false, "{report}");
            // With a line of an object it is not.
            let text = changes(alloc, report, "ok\t.\t-\nE063\to\t-\n", &[])?;
            assert_eq!(rt; text.as_str().contains("object\t"), false, "{report}");
        }
    }
    Ok(())
}

#[test]
fn what_nobody_looked_for_is_not_repaired(rt: HostRuntime) -> Result<(), Fail> {
    let alloc = rt.alloc();
    for (before, now, wanted) in HIDDEN {
        let text = changes(alloc, before, now, &[])?;
        assert_eq!(rt; text.as_str(), wanted, "{before}{now}");
    }
    Ok(())
}

#[test]
fn a_finding_is_new_by_its_code_and_place(rt: HostRuntime) -> Result<(), Fail> {
    let alloc = rt.alloc();
    for (before, now, wanted) in NEW_FINDINGS {
        let text = changes(alloc, before, now, &[])?;
        assert_eq!(rt; text.as_str(), wanted, "{before}{now}");
    }
    Ok(())
}

#[test]
fn the_first_bad_line_is_named(rt: HostRuntime) -> Result<(), Fail> {
    let alloc = rt.alloc();
    for (bad, number) in BAD_LINES {
        assert_eq!(rt;
            stop_of(alloc, &mut bad.as_bytes(), &mut NOW.as_bytes()),
            Some(CompareStop::Before(number)),
            "{bad}"
        );
        assert_eq!(rt;
            stop_of(alloc, &mut BEFORE.as_bytes(), &mut bad.as_bytes()),
            Some(CompareStop::Now(number)),
            "{bad}"
        );
    }
    Ok(())
}

#[test]
fn branches_that_were_left_out_are_not_compared(rt: HostRuntime) -> Result<(), Fail> {
    let alloc = rt.alloc();
    for (left, wanted) in LEFT_OUT {
        let mut branches = Vec::new(alloc);
        for path in left {
            branches.push(place_of(alloc, path)?)?;
        }
        let text = changes(alloc, BEFORE, NOW, &branches)?;
        assert_eq!(rt; text.as_str(), wanted, "{left:?}");
    }
    Ok(())
}

#[test]
fn readers_and_writers_that_fail_are_told(rt: HostRuntime) -> Result<(), Fail> {
    let alloc = rt.alloc();
    let stops = (CompareStop::BeforeFailed, CompareStop::Memory);
    expect_failures(&rt, &[("before", BEFORE.as_bytes())], stops, |slow| {
        let mut before = BufReader::new(alloc, slow)?;
        Ok(stop_of(alloc, &mut before, &mut NOW.as_bytes()))
    })?;
    let stops = (CompareStop::NowFailed, CompareStop::Memory);
    expect_failures(&rt, &[("now", NOW.as_bytes())], stops, |slow| {
        let mut now = BufReader::new(alloc, slow)?;
        Ok(stop_of(alloc, &mut BEFORE.as_bytes(), &mut now))
    })?;
    let mut first = BEFORE.as_bytes();
    let mut second = NOW.as_bytes();
    let mut list = GoneList::new(alloc, Narrow::new(alloc, 7));
    let stop = compare(alloc, &mut first, &mut second, &[], &mut list).err();
    assert_eq!(rt; stop, Some(CompareStop::Output));
    assert_eq!(rt; list.out.kept.as_slice(), b"object\t".as_slice());
    Ok(())
}

/// Two reports, and what is gone between them, with what nobody looked for.
const AROUND: [(&str, &str, &str); 7] = [
    // An object is gone, or it is no longer declared.
    (
        "ok\to\t-\nok\to/v1/content/a\t3\n",
        "ok\to-b\t-\n",
        "object\to\nunlooked\to/v1/content/a\n",
    ),
    (
        "ok\to\t-\nok\to/v1/content/a\t3\n",
        "E072\to/inventory.json\t-\n",
        "undeclared\to\nE072\to/inventory.json\nunlooked\to/v1/content/a\n",
    ),
    (
        "ok\to\t-\n",
        "ok\to/p\t-\nok\to/p/v1/content/a\t1\n",
        "undeclared\to\n",
    ),
    ("ok\to\t-\n", "E073\to\t-\n", "object\to\nE073\to\n"),
    // Its head stops, or it does not.
    (
        "ok\to\t-\nok\to/v1/content/a\t3\nok\tp\t-\nok\tp/a\t1\n",
        "E033\to\t-\nok\tp\t-\n",
        "E033\to\nunlooked\to/v1/content/a\nfile\tp/a\n",
    ),
    (
        "ok\to\t-\nok\to/v1/content/a\t3\n",
        "E060\to\tsha512 aa bb\n",
        "E060\to\nfile\to/v1/content/a\n",
    ),
    // The outer one of two counts, also behind the inner one.
    (
        "ok\to\t-\nok\to/a\t-\nok\to/b/c\t1\n",
        "",
        "object\to\nobject\to/a\nunlooked\to/b/c\n",
    ),
];

#[test]
fn what_is_gone_depends_on_what_is_around(rt: HostRuntime) -> Result<(), Fail> {
    let alloc = rt.alloc();
    for (before, now, wanted) in AROUND {
        let text = changes(alloc, before, now, &[])?;
        assert_eq!(rt; text.as_str(), wanted, "{before}{now}");
    }
    Ok(())
}

/// What two reports note of a root inventory, and what became of it.
const INVENTORIES: [(&str, &str, &str); 18] = [
    ("sha512 aa v1", "sha512 aa v1", ""),
    ("sha512 aa v1", "sha512 bb v1", "changed\to\n"),
    ("sha512 aa v2", "sha512 bb v1", "older\to\n"),
    ("sha512 aa v1", "sha512 bb v2", "newer\to\n"),
    // Versions are numbers, whatever zeros they begin with.
    ("sha512 aa v9", "sha512 bb v10", "newer\to\n"),
    ("sha512 aa v10", "sha512 bb v9", "older\to\n"),
    ("sha512 aa v0009", "sha512 bb v0010", "newer\to\n"),
    ("sha512 aa v1", "sha512 bb v01", "changed\to\n"),
    (
        "sha512 aa v18446744073709551614",
        "sha512 bb v18446744073709551615",
        "newer\to\n",
    ),
    // One that is too great, or no version at all, is neither older nor newer.
    (
        "sha512 aa v2",
        "sha512 bb v18446744073709551616",
        "changed\to\n",
    ),
    ("sha512 aa v2", "sha512 bb head", "changed\to\n"),
    ("sha512 aa v2", "sha512 bb", "changed\to\n"),
    ("sha512 aa", "sha512 bb v2", "changed\to\n"),
    ("sha512 aa", "sha512 aa", ""),
    ("sha512 aa v 2", "sha512 bb v 1", "changed\to\n"),
    // An inventory names its algorithm, so another one is of another inventory.
    ("sha256 aa v1", "sha512 bb v1", "changed\to\n"),
    ("sha256 aa v1", "sha512 bb v2", "newer\to\n"),
    ("sha512 aa v3", "sha256 bb v2", "older\to\n"),
];

#[test]
fn another_root_inventory_is_of_a_version(rt: HostRuntime) -> Result<(), Fail> {
    let alloc = rt.alloc();
    for (before, now, wanted) in INVENTORIES {
        let before = format!(in alloc; "ok\to\t-\nS09\to\t{before}\n")?;
        let now = format!(in alloc; "E101\to\ta\nS09\to\t{now}\n")?;
        let text = changes(alloc, before.as_str(), now.as_str(), &[])?;
        let found = format!(in alloc; "E101\to\n{wanted}")?;
        assert_eq!(rt; text.as_str(), found.as_str(), "{before}{now}");
        assert_eq!(rt;
            changes(
                alloc,
                before.as_str(),
                now.as_str(),
                &[place_of(alloc, "o")?]
            )?
            .as_str(),
            ""
        );
    }
    Ok(())
}

/// Two reports of which at most one notes what a root inventory is, and what changed between them.
const NOTED_ONCE: [(&str, &str, &str); 5] = [
    ("ok\to\t-\n", "ok\to\t-\nS09\to\tsha512 aa v1\n", ""),
    ("ok\to\t-\nS09\to\tsha512 aa v1\n", "ok\to\t-\n", ""),
    ("S09\to\tsha512 aa v1\n", "E033\to\t-\n", "E033\to\n"),
    ("S09\to\tsha512 aa v1\n", "", "object\to\n"),
    ("", "S09\to\tsha512 aa v1\n", ""),
];

#[test]
fn a_note_alone_says_nothing(rt: HostRuntime) -> Result<(), Fail> {
    let alloc = rt.alloc();
    for (before, now, wanted) in NOTED_ONCE {
        let text = changes(alloc, before, now, &[])?;
        assert_eq!(rt; text.as_str(), wanted, "{before}{now}");
    }
    Ok(())
}

/// Two reports with lines of inventories in version directories, and what changed between them.
const OF_VERSIONS: [(&str, &str, &str); 4] = [
    (
        "ok\to\t-\nE060\to/v1/inventory.json\tsha512 aa bb\n",
        "ok\to\t-\nok\to/v1/inventory.json\t5\n",
        "repaired E060\to/v1/inventory.json\n",
    ),
    (
        "ok\to\t-\nok\to/v1/inventory.json\t5\n",
        "ok\to\t-\nE058\to/v1/inventory.json\t-\n",
        "E058\to/v1/inventory.json\n",
    ),
    (
        "ok\to\t-\nE058\to/v1/inventory.json\t-\n",
        "ok\to\t-\n",
        "file\to/v1/inventory.json\n",
    ),
    (
        "ok\to\t-\nE061\to/v1/inventory.json\tsha512\n",
        "",
        "object\to\nunlooked\to/v1/inventory.json\n",
    ),
];

#[test]
fn an_inventory_of_a_version_is_no_object(rt: HostRuntime) -> Result<(), Fail> {
    let alloc = rt.alloc();
    for (before, now, wanted) in OF_VERSIONS {
        let text = changes(alloc, before, now, &[])?;
        assert_eq!(rt; text.as_str(), wanted, "{before}{now}");
    }
    Ok(())
}

#[test]
fn a_list_of_what_is_gone_has_a_row_for_each(rt: HostRuntime) -> Result<(), Fail> {
    let alloc = rt.alloc();
    let mut list = GoneList::new(alloc, Vec::new(alloc));
    let place = place_of(alloc, "a%b")?;
    for change in [
        Change::Gone,
        Change::Undeclared,
        Change::FileGone,
        Change::Unlooked,
        Change::Found(Code::E092),
        Change::Repaired(Code::E092),
        Change::Missing,
        Change::Rewritten,
        Change::WentBack,
        Change::NewVersion,
    ] {
        assert_eq!(rt; list.take(&place, change), Ok(()), "{change:?}");
    }
    let wanted = b"object\ta%25b\nundeclared\ta%25b\nfile\ta%25b\nexpected\ta%25b\nchanged\ta%25b\n\
        older\ta%25b\nnewer\ta%25b\n";
    assert_eq!(rt; list.out.as_slice(), wanted.as_slice());
    let mut full = GoneList::new(alloc, Narrow::new(alloc, 3));
    assert_eq!(rt; full.take(&place, Change::Gone), Err(TakeStop::Failed));
    Ok(())
}
