//! Walks entered at a place, and what they list and read on the way.
use crate::tests::common::Runtime;
use crate::tests::common::object::{bare_root, listing, object_listing, put_object};
use crate::tests::common::roots::{missing_and_there, right_object, right_objects};
use crate::tests::common::store::{change, expect_listed, expect_opened, opened_from};
use crate::tests::walk::{entered, expect, expect_after, said};
use ocfl_memory::MemTree;
use ocfl_walk::Walk;
use std::alloc::Global;
use std::test::Fail;

/// The walk after its next item, and that item's path; a dash if there are no more.
pub(crate) fn step(alloc: Global, store: &mut MemTree, walk: Walk) -> Result<(Walk, String), Fail> {
    let (walk, item) = walk.next(store).map_err(said)?;
    let text = match &item {
        Some(pending) => String::from_str(alloc, pending.place().path())?,
        None => String::from_str(alloc, "-")?,
    };
    Ok((walk, text))
}

/// The path of an item, a dash if there are no more, and all directories that were listed when
/// it was given.
type Step = (&'static str, &'static str);

/// A walk that is started so at a place gives these items.
pub(crate) fn expect_steps(
    rt: &impl Runtime,
    start: fn(Global, &mut MemTree, &str) -> Result<Walk, Fail>,
    store: &mut MemTree,
    place: &str,
    steps: &[Step],
) -> Result<(), Fail> {
    let mut walk = start(rt.alloc(), store, place)?;
    for (item, listings) in steps {
        let (further, path) = step(rt.alloc(), store, walk)?;
        walk = further;
        assert_eq!(rt; path.as_str(), *item, "at {place}");
        expect_listed(rt, place, store, listings)?;
    }
    Ok(())
}

const ALL_LISTED: &str = ";o;o/v1;o/v1/content;";

const O: Step = ("o", ";o;");

const A: Step = ("o/v1/content/a", ALL_LISTED);

const B: Step = ("o/v1/content/b", ALL_LISTED);

const END: Step = ("-", ALL_LISTED);

/// Places, with the steps of a walk that is entered after each, and of one that begins at it.
pub(crate) const STEPS: [(&str, &[Step], &[Step]); 16] = [
    ("", &[("", ";"), O, A, B, END], &[("", ";"), O, A, B, END]),
    ("n", &[O, A, B, END], &[O, A, B, END]),
    ("o", &[A, B, END], &[O, A, B, END]),
    ("o/v0", &[A, B, END], &[A, B, END]),
    ("o/v1", &[A, B, END], &[A, B, END]),
    ("o/v1/content", &[A, B, END], &[A, B, END]),
    ("o/v1/content/a", &[B, END], &[A, B, END]),
    ("o/v1/content/a/x", &[B, END], &[B, END]),
    ("o/v1/content/aa", &[B, END], &[B, END]),
    ("o/v1/content/b", &[END], &[B, END]),
    ("o/v1/content/b/x", &[END], &[END]),
    ("o/v1/content/c", &[END], &[END]),
    ("o/v1/d", &[("-", ";o;o/v1;")], &[("-", ";o;o/v1;")]),
    ("o/v2", &[("-", ";o;")], &[("-", ";o;")]),
    ("o-x", &[("-", ";")], &[("-", ";")]),
    ("p/q", &[("-", ";")], &[("-", ";")]),
];

#[test]
fn listings_after_each_item(rt: HostRuntime) -> Result<(), Fail> {
    for (place, after, _) in STEPS {
        expect_steps(
            &rt,
            entered,
            &mut missing_and_there(rt.alloc())?,
            place,
            after,
        )?;
    }
    Ok(())
}

/// The inventories that were opened are these.
pub(crate) fn expect_inventories(
    rt: &impl Runtime,
    store: &MemTree,
    want: &str,
) -> Result<(), Fail> {
    expect_opened(rt, "inventories", store, "/inventory.json", want)
}

#[test]
fn one_inventory_for_the_place_of_entry(rt: HostRuntime) -> Result<(), Fail> {
    let one = "o/inventory.json;";
    for (after, opened) in [
        ("n", one),
        ("o", one),
        ("o/v0", one),
        ("o/v1", one),
        ("o/v1/content/a", one),
        ("o/v1/content/b/x", one),
        ("o-x", ""),
        ("p/q", ""),
    ] {
        let mut store = missing_and_there(rt.alloc())?;
        let mut walk = entered(rt.alloc(), &mut store, after)?;
        for _ in 0..4 {
            let (further, _) = step(rt.alloc(), &mut store, walk)?;
            walk = further;
        }
        expect_inventories(&rt, &store, opened)?;
    }
    Ok(())
}

/// A part of a walk goes on to the first file that it leaves to the next part. Where parts begin,
/// their steps, and the inventories that they open.
const PARTS: [(&str, &[Step], &str); 3] = [
    (
        "",
        &[
            ("", ";"),
            ("o1", ";o1;"),
            ("o1/v1/content/f", ";o1;o1/v1;o1/v1/content;"),
            ("o2", ";o1;o1/v1;o1/v1/content;o2;"),
            (
                "o2/v1/content/f",
                ";o1;o1/v1;o1/v1/content;o2;o2/v1;o2/v1/content;",
            ),
        ],
        "o1/inventory.json;o2/inventory.json;",
    ),
    (
        "o2",
        &[
            ("o2/v1/content/f", ";o2;o2/v1;o2/v1/content;"),
            ("o3", ";o2;o2/v1;o2/v1/content;o3;"),
            (
                "o3/v1/content/f",
                ";o2;o2/v1;o2/v1/content;o3;o3/v1;o3/v1/content;",
            ),
        ],
        "o2/inventory.json;o3/inventory.json;",
    ),
    (
        "o3",
        &[
            ("o3/v1/content/f", ";o3;o3/v1;o3/v1/content;"),
            ("-", ";o3;o3/v1;o3/v1/content;"),
        ],
        "o3/inventory.json;",
    ),
];

#[test]
fn three_objects_in_three_parts(rt: HostRuntime) -> Result<(), Fail> {
    for (after, rows, inventories) in PARTS {
        let mut store = right_objects(rt.alloc(), &["o1", "o2", "o3"])?;
        expect_steps(&rt, entered, &mut store, after, rows)?;
        expect_inventories(&rt, &store, inventories)?;
    }
    Ok(())
}

#[test]
fn objects_that_share_a_prefix(rt: HostRuntime) -> Result<(), Fail> {
    let alloc = rt.alloc();
    let mut store = right_objects(alloc, &["a.b", "a-b", "a"])?;
    let dot_file = "ok|a.b/v1/content/f|3\n";
    let dot = format!(in alloc; "ok|a.b|-\n{dot_file}")?;
    let dash_file = format!(in alloc; "ok|a-b/v1/content/f|3\n{dot}")?;
    let behind_a = format!(in alloc; "ok|a-b|-\n{dash_file}")?;
    let inside_a = format!(in alloc; "ok|a/v1/content/f|3\n{behind_a}")?;
    let all = format!(in alloc; "ok|.|-\nok|a|-\n{inside_a}")?;
    expect(&rt, &mut store, all.as_str(), 12)?;
    let rows = [
        ("a", inside_a.as_str()),
        ("a/v1/content", inside_a.as_str()),
        ("a/v1/content/f", behind_a.as_str()),
        ("a/z", behind_a.as_str()),
        ("a-", behind_a.as_str()),
        ("a-b", dash_file.as_str()),
        ("a-b/v1/content/f/x", dot.as_str()),
        ("a-b.", dot.as_str()),
        ("a.b", dot_file),
        ("a.b/v2", ""),
        ("ab", ""),
    ];
    expect_after(&rt, &mut store, &rows)
}

// ---- listed files that are not there

/// The places of the items of an object that lists files which are not there, before, between and
/// after its entries, and of the directory after it, with their lines.
const ITEMS: [(&str, &str); 8] = [
    ("o", "ok|o|-\n"),
    ("o/v1/content/a/b", "E092|o/v1/content/a/b|sha256 missing\n"),
    ("o/v1/content/f", "ok|o/v1/content/f|3\n"),
    ("o/v1/content/z", "E092|o/v1/content/z|sha256 missing\n"),
    ("o/v2/content/f", "E092|o/v2/content/f|sha256 missing\n"),
    ("o/v3/content/f", "ok|o/v3/content/f|3\n"),
    ("o/v4/content/d/f", "E092|o/v4/content/d/f|sha256 missing\n"),
    ("p", "E073|p|-\n"),
];

/// Places between those items, with the beginning of the line that is the next one.
const BETWEEN: [(&str, &str); 11] = [
    ("o/inventory.json", "E092|o/v1/content/a/b|"),
    ("o/v1/content/a", "E092|o/v1/content/a/b|"),
    ("o/v1/content/a/b/c", "ok|o/v1/content/f|"),
    ("o/v1/content/g", "E092|o/v1/content/z|"),
    ("o/v1/d", "E092|o/v2/content/f|"),
    ("o/v2", "E092|o/v2/content/f|"),
    ("o/v2/content", "E092|o/v2/content/f|"),
    ("o/v2/d", "ok|o/v3/content/f|"),
    ("o/v4/content/d", "E092|o/v4/content/d/f|"),
    ("o/v4/content/d/g", "E073|p|-\n"),
    ("o/w", "E073|p|-\n"),
];

/// A storage root with that object.
fn root_with_missing_files(alloc: Global) -> Result<MemTree, Fail> {
    let paths =
        r#""v1/content/a/b","v1/content/f","v1/content/z","v2/content/f","v3/content/f","v4/content/d/f""#;
    let mut store = object_listing(alloc, paths)?;
    let entries = [
        ("o/v1/content/f", "abc"),
        ("o/v3/content/f", "abc"),
        ("p/", ""),
    ];
    change(alloc, &mut store, &entries)?;
    Ok(store)
}

#[test]
fn missing_files_around_the_entries(rt: HostRuntime) -> Result<(), Fail> {
    let mut store = root_with_missing_files(rt.alloc())?;
    let mut text = String::new(rt.alloc());
    for (_, lines) in ITEMS {
        text.push_str(lines)?;
    }
    let all = format!(in rt.alloc(); "ok|.|-\n{text}")?;
    expect(&rt, &mut store, all.as_str(), 8)?;
    let mut tail = text.as_str();
    for (place, lines) in ITEMS {
        tail = tail.strip_prefix(lines).ok_or("no such lines")?;
        expect_after(&rt, &mut store, &[(place, tail)])?;
    }
    for (place, next) in BETWEEN {
        let at = text.find(next).ok_or("no such line")?;
        let tail = text.get(at..).ok_or("no such line")?;
        expect_after(&rt, &mut store, &[(place, tail)])?;
    }
    Ok(())
}

#[test]
fn missing_file_is_the_last_item(rt: HostRuntime) -> Result<(), Fail> {
    let mut store = bare_root(rt.alloc())?;
    let inventory = listing(rt.alloc(), r#""ABC_SHA256":["v2/content/f"]"#, "")?;
    put_object(rt.alloc(), &mut store, "o", inventory.as_str())?;
    let last = "E092|o/v2/content/f|sha256 missing\n";
    let all = format!(in rt.alloc(); "ok|.|-\nok|o|-\n{last}")?;
    expect(&rt, &mut store, all.as_str(), 0)?;
    let rows = [
        ("o", last),
        ("o/v2/content", last),
        ("o/v2/content/f", ""),
        ("o/v2/content/f/g", ""),
    ];
    expect_after(&rt, &mut store, &rows)?;
    assert!(rt; opened_from(rt.alloc(), &store, 0, "/inventory.json")?.as_str() != "");
    // Nothing but the base and the object's directory was listed.
    assert!(rt; store.listings().iter().all(|place| place.depth() <= 1));
    Ok(())
}

#[test]
fn missing_file_below_a_file(rt: HostRuntime) -> Result<(), Fail> {
    let mut store = object_listing(rt.alloc(), r#""v1/content/f","v1/content/f/g""#)?;
    change(rt.alloc(), &mut store, &[("o/v1/content/f", "abc")])?;
    let missing = "E092|o/v1/content/f/g|sha256 missing\n";
    let inside = format!(in rt.alloc(); "ok|o/v1/content/f|3\n{missing}")?;
    let rows = [
        ("o", inside.as_str()),
        ("o/v1/content/e/x", inside.as_str()),
        ("o/v1/content/f", missing),
        ("o/v1/content/f/a", missing),
        ("o/v1/content/f/g", ""),
        ("o/v1/content/f/h", ""),
    ];
    expect_after(&rt, &mut store, &rows)
}

// ---- objects where none may be

#[test]
fn object_inside_a_content_directory(rt: HostRuntime) -> Result<(), Fail> {
    let mut store = right_object(rt.alloc())?;
    put_object(rt.alloc(), &mut store, "o/v1/content/q", "{}")?;
    put_object(rt.alloc(), &mut store, "o/v1/r", "{}")?;
    let q =
        "E023|o/v1/content/q/0=ocfl_object_1.1|-\nE023|o/v1/content/q/inventory.json|-\nE023|o/v1/content/q/inventory.json.sha256|-\n";
    let all = format!(in rt.alloc(); "ok|.|-\nok|o|-\nok|o/v1/content/f|3\n{q}")?;
    expect(&rt, &mut store, all.as_str(), 4)?;
    expect_after(&rt, &mut store, &[("o/v1/content/q", q)])?;
    let mut store = right_objects(rt.alloc(), &["o1", "o2", "o3"])?;
    put_object(rt.alloc(), &mut store, "o1/v1/content/q", "{}")?;
    let walk = entered(rt.alloc(), &mut store, "o1/v1/content/q/v1")?;
    let (_, path) = step(rt.alloc(), &mut store, walk)?;
    assert_eq!(rt; path.as_str(), "o2");
    expect_inventories(&rt, &store, "o1/inventory.json;o2/inventory.json;")
}
