//! The lines of content places, and what they cost.
use crate::tests::common::object::{
    FILE, LISTS_F, NO_FILE, listing, object_listing, object_without_files,
};
use crate::tests::common::roots::unread_in_fixity_alone;
use crate::tests::common::store::{change, place_of, put_dir, times_opened};
use crate::tests::walk::expect_item;
use ocfl_memory::{MemTree, Point};
use std::alloc::Global;
use std::test::Fail;

/// What lists `f` twice in the manifest, and in fixity.
const LISTS_F_TWICE: &str = r#""ABC_SHA256":["v1/content/f"],"no digest":["v1/content/f"]"#;

const SHA1_OF_F: &str = r#""sha1":{"NOTHING_SHA1":["v1/content/f"]}"#;

/// An object with this manifest and this fixity block, and with these changes.
fn object(
    alloc: Global,
    manifest: &str,
    fixity: &str,
    changes: &[(&str, &str)],
) -> Result<MemTree, Fail> {
    let mut store = object_without_files(alloc, listing(alloc, manifest, fixity)?.as_str())?;
    change(alloc, &mut store, changes)?;
    Ok(store)
}

/// The file `f` of the bytes `abc`: a name, a manifest, a fixity block, the lines of `f`, their
/// cost, and how often `f` is opened.
const THERE: [(&str, &str, &str, &str, (u64, usize)); 5] = [
    ("a right file", LISTS_F, "", "ok|o/v1/content/f|3\n", (4, 1)),
    (
        "a wrong digest in fixity",
        LISTS_F,
        r#""md5":{"NOTHING_MD5":["v1/content/f"]}"#,
        "E093|o/v1/content/f|md5 NOTHING_MD5 ABC_MD5\n",
        (4, 1),
    ),
    // the manifest does not name the file
    (
        "a file that nothing names",
        "",
        "",
        "E023|o/v1/content/f|-\n",
        (0, 0),
    ),
    (
        "a file that fixity alone names",
        "",
        r#""md5":{"ABC_MD5":["v1/content/f"]}"#,
        "E023|o/v1/content/f|-\n",
        (4, 1),
    ),
    (
        "a file that sha512/256 alone names",
        "",
        r#""sha512/256":{"ABC_SHA512/256":["v1/content/f"]}"#,
        "E023|o/v1/content/f|-\n",
        (4, 1),
    ),
];

#[test]
fn lines_and_costs_of_a_content_place(rt: HostRuntime) -> Result<(), Fail> {
    for (row, manifest, fixity, want, (cost, opened)) in THERE {
        let mut store = object(rt.alloc(), manifest, fixity, &[(FILE, "abc")])?;
        expect_item(&rt, row, &mut store, FILE, want, cost)?;
        assert_eq!(rt; times_opened(rt.alloc(), &store, FILE)?, opened, "{row}");
    }
    let missing = "E092|o/v1/content/f|sha256 missing\nE093|o/v1/content/f|sha1 missing\n";
    for (row, changes, line) in NO_FILE {
        let mut store = object(rt.alloc(), LISTS_F_TWICE, SHA1_OF_F, changes)?;
        let want = format!(in rt.alloc(); "{line}{missing}")?;
        expect_item(&rt, row, &mut store, FILE, want.as_str(), 0)?;
        assert_eq!(rt; times_opened(rt.alloc(), &store, FILE)?, 0, "{row}");
    }
    // A directory that holds something is no item.
    let mut store = object(rt.alloc(), "", "", &[("o/v1/content/f/g/", "")])?;
    let row = "a directory that nothing names";
    expect_item(&rt, row, &mut store, FILE, "", 0)?;
    assert_eq!(rt; times_opened(rt.alloc(), &store, FILE)?, 0, "{row}");
    Ok(())
}

#[test]
fn directory_that_lies_too_deep(rt: HostRuntime) -> Result<(), Fail> {
    let alloc = rt.alloc();
    // With `o/v1/content` before them, 125 names more are 128.
    let names = "/d".repeat(alloc, 125)?;
    let mut store = object_listing(alloc, format!(in alloc; "\"v1/content{names}\"")?.as_str())?;
    let place = format!(in alloc; "o/v1/content{names}")?;
    put_dir(alloc, &mut store, place.as_str())?;
    let want = format!(in alloc; "S05|{place}|-\nE092|{place}|sha256 missing\n")?;
    expect_item(
        &rt,
        "128 names",
        &mut store,
        place.as_str(),
        want.as_str(),
        0,
    )
}

#[test]
fn file_cannot_be_read_on(rt: HostRuntime) -> Result<(), Fail> {
    let alloc = rt.alloc();
    let text = "x".repeat(alloc, 65_537)?;
    let mut store = object(alloc, LISTS_F, "", &[(FILE, text.as_str())])?;
    store.fail_at(&place_of(alloc, FILE)?, Point::Read(65_536))?;
    let row = "the last byte";
    expect_item(&rt, row, &mut store, FILE, "S08|o/v1/content/f|-\n", 65_537)?;
    assert_eq!(rt; store.largest_read(), 65_536);
    let mut store = unread_in_fixity_alone(alloc)?;
    let want = "E023|o/v1/content/f|-\nS08|o/v1/content/f|-\n";
    expect_item(&rt, "the opening", &mut store, FILE, want, 1)?;
    assert_eq!(rt; store.failures(), 1);
    Ok(())
}
