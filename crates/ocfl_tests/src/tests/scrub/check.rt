//! Checks of content places.
use super::expected::{FILE_IS_OK, expect};
use crate::tests::common::Runtime;
use crate::tests::common::digests::with_digests;
use crate::tests::common::object::{FILE, NO_FILE, inventory, long_sidecar, object_with};
use crate::tests::common::output::Narrow;
use crate::tests::common::roots::{right_object, under_four_algorithms};
use crate::tests::common::store::{change, place_of, times_opened, was_not_called};
use ocfl_digest::Block;
use ocfl_folder::FsTree;
use ocfl_memory::{MemTree, Point};
use ocfl_report::Further;
use ocfl_scrub::checked;
use std::alloc::Global;
use std::fs;
use std::test::Fail;

const BY_SHA512: &str =
    r#""digestAlgorithm":"sha512","manifest":{"ABC_SHA512":["v1/content/f"]},"fixity":{}"#;

const DATA: &str =
    r#""digestAlgorithm":"sha256","contentDirectory":"data","manifest":{"ABC_SHA256":["v1/data/f"]}"#;

/// All that names an empty file.
const BY_FIVE: &str =
    r#""digestAlgorithm":"sha256","manifest":{"NOTHING_SHA256":["v1/content/f"]},"fixity":{"md5":{"NOTHING_MD5":["v1/content/f"]},"sha1":{"NOTHING_SHA1":["v1/content/f"]},"sha512":{"NOTHING_SHA512":["v1/content/f"]},"sha512/256":{"NOTHING_SHA512/256":["v1/content/f"]}}"#;

const TWO_DIGESTS_AND_FIXITY: &str =
    r#""digestAlgorithm":"sha256","manifest":{"NOTHING_SHA256":["v1/content/f"],"ABC_SHA256":["v1/content/f"]},"fixity":{"md5":{"NOTHING_MD5":["v1/content/f"]}}"#;

/// Inventories of an object, by their members, and what checking its file `f` writes and ends with.
const LISTED: [(&str, &str, &str, u8); 7] = [
    (
        "a digest in capitals",
        r#""digestAlgorithm":"sha512","manifest":{"ABC_LONG_CAPITALS":["v1/content/f"]}"#,
        FILE_IS_OK,
        0,
    ),
    // fixity is compared too
    (
        "one wrong digest in fixity",
        r#""digestAlgorithm":"sha512","manifest":{"ABC_SHA512":["v1/content/f"]},"fixity":{"md5":{"NOTHING_MD5":["v1/content/f"]},"sha512/256":{"ABC_SHA512/256":["v1/content/f"]}}"#,
        "E093|o/v1/content/f|md5 NOTHING_MD5 ABC_MD5\n",
        1,
    ),
    (
        "fixity alone names the file",
        r#""digestAlgorithm":"sha256","manifest":{},"fixity":{"md5":{"ABC_MD5":["v1/content/f"]}}"#,
        "E023|o/v1/content/f|-\n",
        1,
    ),
    (
        "two digests, one of them wrong, and fixity",
        TWO_DIGESTS_AND_FIXITY,
        "E092|o/v1/content/f|sha256 NOTHING_SHA256 ABC_SHA256\nE093|o/v1/content/f|md5 NOTHING_MD5 ABC_MD5\n",
        1,
    ),
    // the fifth algorithm
    (
        "a right sha512/256",
        r#""digestAlgorithm":"sha256","manifest":{"ABC_SHA256":["v1/content/f"]},"fixity":{"sha512/256":{"ABC_SHA512/256":["v1/content/f"]}}"#,
        FILE_IS_OK,
        0,
    ),
    (
        "a wrong sha512/256",
        r#""digestAlgorithm":"sha256","manifest":{"ABC_SHA256":["v1/content/f"]},"fixity":{"sha512/256":{"ABC_SHA256":["v1/content/f"]}}"#,
        "E093|o/v1/content/f|sha512/256 ABC_SHA256 ABC_SHA512/256\n",
        1,
    ),
    (
        "sha512/256 alone",
        r#""digestAlgorithm":"sha256","manifest":{},"fixity":{"sha512/256":{"ABC_SHA512/256":["v1/content/f"]}}"#,
        "E023|o/v1/content/f|-\n",
        1,
    ),
];

/// What is changed in an object by sha512; the path that is checked, its text, the status, and how
/// often the path is opened.
type Changed = (
    &'static str,
    &'static [(&'static str, &'static str)],
    &'static str,
    &'static str,
    (u8, usize),
);

const CHANGED: [Changed; 6] = [
    ("a right file", &[], FILE, FILE_IS_OK, (0, 1)),
    (
        "an empty file",
        &[(FILE, "")],
        FILE,
        "E092|o/v1/content/f|sha512 ABC_SHA512 NOTHING_SHA512\n",
        (1, 1),
    ),
    (
        "a file that nothing names",
        &[("o/v1/content/g", "abc")],
        "o/v1/content/g",
        "E023|o/v1/content/g|-\n",
        (1, 0),
    ),
    (
        "a wrong sidecar",
        &[("o/inventory.json.sha512", "wrong")],
        FILE,
        FILE_IS_OK,
        (0, 1),
    ),
    (
        "no sidecar",
        &[("-o/inventory.json.sha256", "")],
        FILE,
        FILE_IS_OK,
        (0, 1),
    ),
    ("the storage root", &[], ".", "ok|.|-\n", (0, 0)),
];

/// Paths without an item: a name, the members of an inventory, what is changed, and the path.
const NO_ITEM: [(&str, &str, &[(&str, &str)], &str); 6] = [
    (
        "a path that nothing names",
        BY_SHA512,
        &[],
        "o/v1/content/h",
    ),
    ("no object", BY_SHA512, &[("-o", "")], FILE),
    // heads that stop
    (
        "an inventory that is no JSON",
        BY_SHA512,
        &[("o/inventory.json", "abc")],
        FILE,
    ),
    (
        "no algorithm",
        BY_SHA512,
        &[("o/inventory.json", "{}")],
        FILE,
    ),
    (
        "no inventory",
        BY_SHA512,
        &[("-o/inventory.json", "")],
        FILE,
    ),
    ("another content directory", DATA, &[], FILE),
];

/// An object whose inventory has these members, and the file `f`, with these changes.
fn object_by(alloc: Global, members: &str, changes: &[(&str, &str)]) -> Result<MemTree, Fail> {
    let mut store = object_with(alloc, inventory(alloc, members)?.as_str())?;
    change(alloc, &mut store, changes)?;
    Ok(store)
}

/// Checking the path in that object writes this text, ends with this status and this note, and
/// opens the path this number of times.
fn expect_check(
    rt: &impl Runtime,
    row: &str,
    (members, changes): (&str, &[(&str, &str)]),
    path: &str,
    (text, status, note): (&str, u8, &str),
    opened: usize,
) -> Result<(), Fail> {
    let mut store = object_by(rt.alloc(), members, changes)?;
    expect(rt, row, &mut store, path, text, status, note)?;
    assert_eq!(rt; times_opened(rt.alloc(), &store, path)?, opened, "{row}");
    Ok(())
}

#[test]
fn content_places(rt: HostRuntime) -> Result<(), Fail> {
    for (row, members, text, status) in LISTED {
        expect_check(&rt, row, (members, &[]), FILE, (text, status, ""), 1)?;
    }
    for (row, changes, path, text, (status, opened)) in CHANGED {
        let object = (BY_SHA512, changes);
        expect_check(&rt, row, object, path, (text, status, ""), opened)?;
    }
    for (row, members, changes, path) in NO_ITEM {
        expect_check(&rt, row, (members, changes), path, ("", 0, "no item"), 0)?;
    }
    let (row, empty) = ("an empty file under five algorithms", (FILE, ""));
    let wanted = ("ok|o/v1/content/f|0\n", 0, "");
    expect_check(&rt, row, (BY_FIVE, &[empty]), FILE, wanted, 1)?;
    let (row, path) = ("a file in another content directory", "o/v1/data/f");
    let wanted = ("ok|o/v1/data/f|3\n", 0, "");
    expect_check(&rt, row, (DATA, &[(path, "abc")]), path, wanted, 1)
}

#[test]
fn what_is_no_file(rt: HostRuntime) -> Result<(), Fail> {
    for (listed, members, missing) in [
        (
            "one digest",
            BY_SHA512,
            "E092|o/v1/content/f|sha512 missing\n",
        ),
        (
            "two digests and fixity",
            TWO_DIGESTS_AND_FIXITY,
            "E092|o/v1/content/f|sha256 missing\nE093|o/v1/content/f|md5 missing\n",
        ),
    ] {
        for (there, changes, line) in NO_FILE {
            let row = format!(in rt.alloc(); "{there} under {listed}")?;
            let mut store = object_by(rt.alloc(), members, &[("-o/v1/content/f", "")])?;
            change(rt.alloc(), &mut store, changes)?;
            let text = format!(in rt.alloc(); "{line}{missing}")?;
            expect(&rt, row.as_str(), &mut store, FILE, text.as_str(), 1, "")?;
        }
    }
    Ok(())
}

#[test]
fn calls_for_a_right_file(rt: HostRuntime) -> Result<(), Fail> {
    for (row, mut store, text) in [
        ("one algorithm", right_object(rt.alloc())?, FILE_IS_OK),
        (
            "four algorithms",
            under_four_algorithms(rt.alloc())?,
            "ok|o/v1/content/f|0\n",
        ),
    ] {
        expect(&rt, row, &mut store, FILE, text, 0, "")?;
        assert_eq!(rt; store.listings().len(), 4, "{row}");
        assert_eq!(rt; store.openings().len(), 2, "{row}");
    }
    Ok(())
}

#[test]
fn bad_paths(rt: HostRuntime) -> Result<(), Fail> {
    let mut store = right_object(rt.alloc())?;
    let many = "o/".repeat(rt.alloc(), 100)?;
    let long = "x".repeat(rt.alloc(), 256)?;
    for (row, path) in [
        ("two slashes", "o//f"),
        ("no byte", ""),
        ("two dots", ".."),
        ("an escape that is not needed", "%41"),
        ("a slash at the end", many.as_str()),
        ("a name of 256 letters", long.as_str()),
    ] {
        expect(&rt, row, &mut store, path, "", 2, "bad path")?;
    }
    assert!(rt; was_not_called(&store));
    Ok(())
}

#[test]
fn failing_store(rt: HostRuntime) -> Result<(), Fail> {
    for (row, place, point, text, status, note) in [
        (
            "a listing on the way",
            "o/v1",
            Point::List,
            "",
            3,
            "stopped at o/v1",
        ),
        (
            "the first read of the file",
            FILE,
            Point::Read(0),
            "S08|o/v1/content/f|-\n",
            1,
            "",
        ),
    ] {
        let mut store = right_object(rt.alloc())?;
        store.fail_at(&place_of(rt.alloc(), place)?, point)?;
        expect(&rt, row, &mut store, FILE, text, status, note)?;
    }
    Ok(())
}

#[test]
fn failing_output(rt: HostRuntime) -> Result<(), Fail> {
    let alloc = rt.alloc();
    let (mut block, mut out) = (Block::new(alloc)?, Narrow::new(alloc, 5));
    let (status, note) = checked(
        alloc,
        &mut right_object(alloc)?,
        Further::Nothing,
        FILE,
        &mut block,
        &mut out,
    );
    assert_eq!(rt; status, 3);
    assert_eq!(rt; format!(in alloc; "{note}")?.as_str(), "output failed");
    Ok(())
}

#[test]
fn over_a_folder(rt: HostRuntime) -> Result<(), Fail> {
    let alloc = rt.alloc();
    for digest in ["ABC_SHA512", "ABC_LONG_CAPITALS"] {
        if fs::exists(&rt, "root")? {
            fs::remove_dir_all(&rt, "root")?;
        }
        for folder in ["root", "root/o", "root/o/v1", "root/o/v1/content"] {
            fs::create_dir(&rt, folder)?;
        }
        let inventory = format!(in alloc;
            "{{\"digestAlgorithm\":\"sha512\",\"manifest\":{{\"{digest}\":[\"v1/content/f\"]}}}}"
        )?;
        let inventory = with_digests(alloc, inventory.as_str())?;
        let sidecar = long_sidecar(alloc, inventory.as_str())?;
        for (place, text) in [
            ("root/0=ocfl_1.1", "ocfl_1.1\n"),
            ("root/o/0=ocfl_object_1.1", "ocfl_object_1.1\n"),
            ("root/o/inventory.json", inventory.as_str()),
            ("root/o/inventory.json.sha512", sidecar.as_str()),
            ("root/o/v1/content/f", "abc"),
        ] {
            fs::write(&rt, place, text)?;
        }
        let mut store = FsTree::at(&rt, "root")?;
        expect(&rt, digest, &mut store, FILE, FILE_IS_OK, 0, "")?;
    }
    fs::remove_dir_all(&rt, "root")?;
    Ok(())
}
