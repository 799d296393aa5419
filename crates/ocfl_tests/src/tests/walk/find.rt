//! The items at single places, and what looking for them opens and lists.
//!
//! Seen to fail if `item_at` or `Walk::start` is always out of memory.
use crate::tests::common::Runtime;
use crate::tests::common::digests::lines_of;
use crate::tests::common::object::bare_root;
use crate::tests::common::store::{change, expect_listed, expect_opened, place_of, put_dir};
use crate::tests::walk::{failed_place, item, judged};
use ocfl_memory::{MemTree, Point};
use std::alloc::Global;
use std::test::Fail;

const INVENTORY: &str =
    "{\"digestAlgorithm\":\"sha512\",\"contentDirectory\":\"data\",\"manifest\":{\"aa\":[\"v1/data/f\",\"v1/data/f/h\",\"v1/data/m\",\"v2/data/f\"]}}";

/// A storage root with the object `p/o`, and the object `p/s` whose head stops.
fn root(alloc: Global) -> Result<MemTree, Fail> {
    let mut store = bare_root(alloc)?;
    let entries = [
        ("empty/", ""),
        ("extensions/e/0=ocfl_object_1.1", "ocfl_object_1.1\n"),
        ("l@", ""),
        ("notes", "abc"),
        ("p/f", "abc"),
        ("p/o/0=ocfl_object_1.1", "ocfl_object_1.1\n"),
        ("p/o/inventory.json", INVENTORY),
        ("p/o/logs/l", "abc"),
        ("p/o/notes", "abc"),
        ("p/o/v1/content/f", "abc"),
        ("p/o/v1/data/d/u", "abc"),
        ("p/o/v1/data/e/", ""),
        ("p/o/v1/data/f", "abc"),
        ("p/o/v1/data/l@", ""),
        ("p/o/v1/inventory.json", INVENTORY),
        ("p/o/v1/notes", "abc"),
        ("p/o/x1/f", "abc"),
        ("p/s/0=ocfl_object_1.1", "ocfl_object_1.1\n"),
        ("p/s/notes", "abc"),
        ("p/s/v1/", ""),
    ];
    change(alloc, &mut store, &entries)?;
    Ok(store)
}

/// The lines of the item at a place: `none` without one, `hashed` if its file must be
/// read.
fn text_at(store: &mut MemTree, alloc: Global, text: &str) -> Result<String, Fail> {
    let Some(pending) = item(alloc, store, text)? else {
        return Ok(String::from_str(alloc, "none")?);
    };
    if *pending.place() != place_of(alloc, text)? {
        return Err("another place".into());
    }
    if pending.hashed() {
        return Ok(String::from_str(alloc, "hashed")?);
    }
    let (lines, _) = judged(alloc, store, pending)?;
    Ok(lines)
}

/// The items at these places have this text, with a bar for each tab.
fn expect(rt: &impl Runtime, store: &mut MemTree, rows: &[(&str, &str)]) -> Result<(), Fail> {
    for (place, want) in rows {
        let text = text_at(store, rt.alloc(), place)?;
        assert_eq!(rt;
            text.as_str(),
            lines_of(rt.alloc(), want)?.as_str(),
            "{place}"
        );
    }
    Ok(())
}

/// Places, and the items at them.
const ITEMS: [(&str, &str); 42] = [
    // in the hierarchy
    (".", "ok|.|-\n"),
    ("notes", "none"),
    ("0=ocfl_1.1", "none"),
    ("missing", "none"),
    ("missing/below", "none"),
    ("notes/below", "none"),
    ("empty", "E073|empty|-\n"),
    ("p", "none"),
    ("p/f", "E072|p/f|-\n"),
    ("p/missing", "none"),
    ("l", "S04|l|-\n"),
    ("extensions", "none"),
    ("extensions/e", "none"),
    ("extensions/e/0=ocfl_object_1.1", "none"),
    // of objects
    ("p/s", "E063|p/s|-\n"),
    ("p/s/notes", "none"),
    ("p/s/v1", "none"),
    ("p/o/inventory.json", "none"),
    ("p/o/notes", "E001|p/o/notes|-\n"),
    ("p/o/logs", "none"),
    ("p/o/logs/l", "none"),
    ("p/o/x1", "E001|p/o/x1|-\n"),
    ("p/o/x1/f", "none"),
    ("p/o/v1", "none"),
    ("p/o/v2", "none"),
    ("p/o/v1/inventory.json", "none"),
    ("p/o/v1/notes", "E015|p/o/v1/notes|-\n"),
    ("p/o/v1/missing", "none"),
    ("p/o/v1/content", "none"),
    ("p/o/v1/content/f", "none"),
    // of content
    ("p/o/v1/data", "none"),
    ("p/o/v1/data/f", "hashed"),
    ("p/o/v1/data/d", "none"),
    ("p/o/v1/data/d/u", "E023|p/o/v1/data/d/u|-\n"),
    ("p/o/v1/data/e", "E024|p/o/v1/data/e|-\n"),
    ("p/o/v1/data/l", "S04|p/o/v1/data/l|-\n"),
    ("p/o/v1/data/m", "E092|p/o/v1/data/m|sha512 missing\n"),
    ("p/o/v1/data/n", "none"),
    ("p/o/v1/data/f/h", "E092|p/o/v1/data/f/h|sha512 missing\n"),
    ("p/o/v1/data/f/i", "none"),
    ("p/o/v2/data/f", "E092|p/o/v2/data/f|sha512 missing\n"),
    ("p/o/v2/data/g", "none"),
];

#[test]
fn items_at_places(rt: HostRuntime) -> Result<(), Fail> {
    expect(&rt, &mut root(rt.alloc())?, &ITEMS)
}

#[test]
fn a_root_of_no_known_version_has_one_item(rt: HostRuntime) -> Result<(), Fail> {
    let mut store = root(rt.alloc())?;
    change(rt.alloc(), &mut store, &[("-0=ocfl_1.1", "")])?;
    let rows = [(".", "E069|.|-\n"), ("empty", "none"), ("p/o", "none")];
    expect(&rt, &mut store, &rows)?;
    assert_eq!(rt; store.listings().len(), 3);
    assert_eq!(rt; store.openings().len(), 0);
    Ok(())
}

/// What is opened to find the items at places, and the places, each with what is listed for it.
const WAYS: [(&str, &[(&str, &str)]); 5] = [
    ("0=ocfl_1.1;", &[(".", ";")]),
    ("", &[("notes", ";"), ("p/f", ";p;"), ("extensions/e", ";")]),
    ("p/s/0=ocfl_object_1.1;", &[("p/s", ";p;p/s;")]),
    (
        "p/o/0=ocfl_object_1.1;p/o/inventory.json;",
        &[("p/o", ";p;p/o;")],
    ),
    (
        "p/o/inventory.json;",
        &[
            ("p/o/v1", ";p;p/o;p/o/v1;"),
            ("p/o/v2/data/f", ";p;p/o;"),
            (
                "p/o/v1/data/d/u",
                ";p;p/o;p/o/v1;p/o/v1/data;p/o/v1/data/d;",
            ),
        ],
    ),
];

#[test]
fn only_the_way_is_listed_and_one_inventory_read(rt: HostRuntime) -> Result<(), Fail> {
    for (openings, places) in WAYS {
        for (place, listings) in places {
            let mut store = root(rt.alloc())?;
            text_at(&mut store, rt.alloc(), place)?;
            expect_listed(&rt, place, &store, listings)?;
            expect_opened(&rt, place, &store, "", openings)?;
        }
    }
    Ok(())
}

#[test]
fn a_fault_tells_its_place(rt: HostRuntime) -> Result<(), Fail> {
    for (place, point) in [
        (".", Point::List),
        ("p/o/v1", Point::List),
        ("p/o/inventory.json", Point::Open),
        ("p/o/inventory.json", Point::Read(3)),
    ] {
        let mut store = root(rt.alloc())?;
        let failing = place_of(rt.alloc(), place)?;
        store.fail_at(&failing, point)?;
        let failed = failed_place(rt.alloc(), &mut store, "p/o/v1/data/f")?;
        assert!(rt; failed == failing, "{place}");
        assert_eq!(rt; store.failures(), 1, "{place}");
    }
    Ok(())
}

#[test]
fn a_directory_at_depth_128_is_not_listed(rt: HostRuntime) -> Result<(), Fail> {
    let alloc = rt.alloc();
    for (count, code) in [(123, "E024"), (124, "S05")] {
        let mut store = root(alloc)?;
        let text = format!(in alloc; "p/o/v1/data{}", "/n".repeat(alloc, count)?)?;
        put_dir(alloc, &mut store, text.as_str())?;
        let want = format!(in alloc; "{code}|{text}|-\n")?;
        expect(&rt, &mut store, &[(text.as_str(), want.as_str())])?;
        assert_eq!(rt; store.listings().len(), 128, "{count} names");
    }
    Ok(())
}
