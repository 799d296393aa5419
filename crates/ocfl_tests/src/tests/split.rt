//! Splitting by listing: which directories are given, which are listed, and what stops it.
use crate::tests::common::object::bare_root;
use crate::tests::common::store::{change, expect_listed, place_of, put, put_dir};
use crate::tests::parts::text_of;
use crate::tests::walk::said;
use ocfl_item::Fault;
use ocfl_memory::{MemTree, Point};
use ocfl_split::split;
use std::alloc::Global;
use std::test::Fail;

/// The paths of the objects of a storage root, and what else is put there.
type Root = (
    &'static [&'static str],
    &'static [(&'static str, &'static str)],
);

/// Three objects, the second with a version.
const OBJECTS: Root = (&["o1", "o2", "o3"], &[("o2/v1/content/f", "abc")]);

/// The same, and inventories in the version directories of the second.
const INVENTORIES: Root = (
    &["o1", "o2", "o3"],
    &[
        ("o2/v1/inventory.json", "{}"),
        ("o2/v1/inventory.json.sha512", "x"),
        ("o2/v2/inventory.json", "{}"),
    ],
);

/// Objects one level further down.
const LEVELS: Root = (&["a/o1", "a/o2", "b/o3"], &[]);

/// A level that is narrower than the one above it.
const NARROWING: Root = (&["a/o", "o1", "o2"], &[]);

/// A narrow level between two that are equally wide.
const WAIST: Root = (&["a/b/o1", "a/b/o2", "o"], &[]);

/// What is no directory of the hierarchy, and names that sort otherwise than their places.
const ODD: Root = (
    &[],
    &[
        ("a/x/", ""),
        ("a-b/x/", ""),
        ("extensions/x/", ""),
        ("b/extensions/", ""),
        ("f", "abc"),
        ("l@", ""),
    ],
);

const NOTHING: Root = (&[], &[]);

/// That storage root.
fn root_with(alloc: Global, (objects, changes): &Root) -> Result<MemTree, Fail> {
    let mut store = bare_root(alloc)?;
    for object in *objects {
        let declaration = format!(in alloc; "{object}/0=ocfl_object_1.1")?;
        put(
            alloc,
            &mut store,
            declaration.as_str(),
            b"ocfl_object_1.1\n",
        )?;
    }
    change(alloc, &mut store, changes)?;
    Ok(store)
}

/// Splits a root into `count` parts. Gives the text of the separators.
fn split_text(alloc: Global, store: &mut MemTree, count: usize) -> Result<String, Fail> {
    text_of(alloc, &split(alloc, store, count).map_err(said)?)
}

/// A name, a number of parts, the text of the separators, and the directories that are listed.
type Cut = (&'static str, usize, &'static str, &'static str);

/// Splits of storage roots.
const CUTS: [(Root, &[Cut]); 7] = [
    (
        OBJECTS,
        &[
            ("no parts", 0, "", ""),
            ("one part", 1, "", ""),
            ("two of three objects", 2, "o2\n", ";"),
            ("three of three", 3, "o2\no3\n", ";"),
            ("four of three", 4, "o2\no3\n", ";o1;o2;o3;"),
            ("ten of three", 10, "o2\no3\n", ";o1;o2;o3;"),
        ],
    ),
    // What is in objects has no part in it, whatever an audit checks there.
    (
        INVENTORIES,
        &[
            ("two beside inventories", 2, "o2\n", ";"),
            ("four beside inventories", 4, "o2\no3\n", ";o1;o2;o3;"),
        ],
    ),
    (
        LEVELS,
        &[
            ("first level", 2, "b\n", ";"),
            ("second level", 3, "a/o2\nb/o3\n", ";a;b;"),
            ("last level", 4, "a/o2\nb/o3\n", ";a;b;a/o1;a/o2;b/o3;"),
        ],
    ),
    (
        NARROWING,
        &[
            ("three of a level", 3, "o1\no2\n", ";"),
            ("more than any level has", 4, "o1\no2\n", ";a;o1;o2;a/o;"),
        ],
    ),
    (
        WAIST,
        &[(
            "the lower of equal levels",
            3,
            "a/b/o2\n",
            ";a;o;a/b;a/b/o1;a/b/o2;",
        )],
    ),
    (
        ODD,
        &[
            ("odd names", 2, "a-b\n", ";"),
            ("in order", 3, "a-b\nb\n", ";"),
            (
                "below them",
                4,
                "a-b/x\nb/extensions\n",
                ";a;a-b;b;a/x;a-b/x;b/extensions;",
            ),
        ],
    ),
    (NOTHING, &[("nothing there", 2, "", ";")]),
];

#[test]
fn a_level_is_cut_evenly(rt: HostRuntime) -> Result<(), Fail> {
    for (root, cuts) in CUTS {
        for (row, count, separators, listings) in cuts {
            let mut store = root_with(rt.alloc(), &root)?;
            let text = split_text(rt.alloc(), &mut store, *count)?;
            assert_eq!(rt; text.as_str(), *separators, "{row}");
            expect_listed(&rt, row, &store, listings)?;
            assert!(rt; store.openings().is_empty(), "{row}");
            assert_eq!(rt; store.failures(), 0, "{row}");
        }
    }
    Ok(())
}

#[test]
fn nothing_is_split_in_an_unknown_root(rt: HostRuntime) -> Result<(), Fail> {
    for (row, declared) in [
        ("no declaration", ("-0=ocfl_1.1", "")),
        ("two", ("0=ocfl_1.0", "ocfl_1.0\n")),
    ] {
        let mut store = bare_root(rt.alloc())?;
        change(rt.alloc(), &mut store, &[declared, ("a/", ""), ("b/", "")])?;
        let text = split_text(rt.alloc(), &mut store, 2)?;
        assert_eq!(rt; text.as_str(), "", "{row}");
        expect_listed(&rt, row, &store, ";")?;
    }
    Ok(())
}

#[test]
fn listings_that_fail_stop_it(rt: HostRuntime) -> Result<(), Fail> {
    let alloc = rt.alloc();
    for (row, count, failing, listings) in [
        ("the root", 2usize, ".", ";"),
        ("a directory", 3, "b", ";a;b;"),
        ("an object", 4, "a/o2", ";a;b;a/o1;a/o2;"),
    ] {
        let mut store = root_with(alloc, &LEVELS)?;
        let place = place_of(alloc, failing)?;
        store.fail_at(&place, Point::List)?;
        match split(alloc, &mut store, count) {
            Err(Fault::Store(stopped)) => assert_eq!(rt; stopped, place, "{row}"),
            _ => return Err("no fault".into()),
        }
        expect_listed(&rt, row, &store, listings)?;
        assert_eq!(rt; store.failures(), 1, "{row}");
    }
    Ok(())
}

// Seen to fail if memory is refused for a level of more than 2,000 directories.
#[test]
fn a_level_of_many_directories(rt: HostRuntime) -> Result<(), Fail> {
    let alloc = rt.alloc();
    let mut store = bare_root(alloc)?;
    for number in 10_000..12_100u64 {
        let path = format!(in alloc; "{number}")?;
        put_dir(alloc, &mut store, path.as_str())?;
    }
    let text = split_text(alloc, &mut store, 3)?;
    assert_eq!(rt; text.as_str(), "10700\n11400\n");
    expect_listed(&rt, "2,100 directories", &store, ";")?;
    // Each of them is listed if a deeper level is looked for.
    let text = split_text(alloc, &mut store, 2_101)?;
    assert_eq!(rt; text.as_str().lines().count(), 2_099);
    assert_eq!(rt; store.listings().len(), 2_102);
    Ok(())
}
