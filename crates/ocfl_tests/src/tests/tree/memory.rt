//! The tree in memory: what it holds, what its builders refuse, and its calls that fail.
//!
//! Seen to fail if `MemTree::put_file` is always out of memory.
use super::{lists, whole};
use crate::tests::common::store::{change, place_of};
use ocfl_memory::{BuildStop, MemTree, Point};
use ocfl_tree::{Place, Tree, Trouble};
use std::alloc::Global;
use std::test::Fail;

/// The files `a`, `d/b` and an empty `d/e`, a directory `d` and a link `l`.
fn small(alloc: Global) -> Result<MemTree, Fail> {
    let mut store = MemTree::new(alloc);
    let entries = [
        ("a", "12345"),
        ("d/", ""),
        ("d/b", "b"),
        ("d/e", ""),
        ("l@", ""),
    ];
    change(alloc, &mut store, &entries)?;
    Ok(store)
}

/// Reads: how many bytes one gives at most, a file, its text, and how many bytes its reads give.
const READS: [(&str, usize, &str, &str, &[usize]); 3] = [
    ("all bytes at once", usize::MAX, "a", "12345", &[5, 0]),
    ("two bytes a read", 2, "a", "12345", &[2, 2, 1, 0]),
    ("no bytes", 2, "d/e", "", &[0]),
];

#[test]
fn a_small_tree_is_read(rt: HostRuntime) -> Result<(), Fail> {
    let mut store = small(rt.alloc())?;
    for (row, step, path, text, counts) in READS {
        store.step(step);
        let (bytes, lengths) = whole(rt.alloc(), &mut store, &place_of(rt.alloc(), path)?)?;
        assert_eq!(rt; bytes.as_slice(), text.as_bytes(), "{row}");
        assert_eq!(rt; lengths.as_slice(), counts, "{row}");
    }
    let [_, second, _] = store.openings() else {
        return Err("not three openings".into());
    };
    assert!(rt; second.place == place_of(rt.alloc(), "a")? && second.given == 5 && !second.failed);
    assert_eq!(rt; store.failures(), 0);
    assert_eq!(rt; store.largest_read(), 4096);
    Ok(())
}

#[test]
fn a_small_tree_is_listed(rt: HostRuntime) -> Result<(), Fail> {
    let mut store = small(rt.alloc())?;
    for (path, want) in [("", "a File;d Dir;l Other;"), ("d", "b File;e File;")] {
        let place = place_of(rt.alloc(), path)?;
        lists(&rt, "a small tree", &mut store, &place, want)?;
    }
    for path in ["a", "l"] {
        let listed = store.list(&place_of(rt.alloc(), path)?);
        assert_eq!(rt; listed.err(), Some(Trouble::Absent), "{path}");
    }
    for path in ["l", ""] {
        let opened = store.open(&place_of(rt.alloc(), path)?);
        assert_eq!(rt; opened.err(), Some(Trouble::Absent), "{path}");
    }
    assert_eq!(rt; store.listings().len(), 2);
    Ok(())
}

#[test]
fn builders_refuse_and_remove(rt: HostRuntime) -> Result<(), Fail> {
    let alloc = rt.alloc();
    let (root, d) = (Place::root(alloc), place_of(alloc, "d")?);
    let orphan = place_of(alloc, "x/y")?;
    let mut store = small(alloc)?;
    assert_eq!(rt; store.put_dir(&root).err(), Some(BuildStop::Exists));
    assert_eq!(rt; store.put_other(&d).err(), Some(BuildStop::Exists));
    let below_file = store.put_dir(&place_of(alloc, "a/x")?);
    assert_eq!(rt; below_file.err(), Some(BuildStop::NoParent));
    let without_parent = store.put_file(&orphan, Vec::new(alloc));
    assert_eq!(rt; without_parent.err(), Some(BuildStop::NoParent));
    assert_eq!(rt; store.remove(&root).err(), Some(BuildStop::Absent));
    assert_eq!(rt; store.remove(&orphan).err(), Some(BuildStop::Absent));

    store.open(&place_of(alloc, "a")?)?;
    store.remove(&d)?;
    assert_eq!(rt; store.read(&mut [0; 9]), Err(Trouble::Absent));
    lists(&rt, "without `d`", &mut store, &root, "a File;l Other;")?;
    store.put_dir(&d)?;
    lists(&rt, "with a new `d`", &mut store, &d, "")?;
    assert_eq!(rt; store.largest_read(), 9);
    Ok(())
}

#[test]
fn the_planned_call_fails(rt: HostRuntime) -> Result<(), Fail> {
    let mut store = small(rt.alloc())?;
    let (root, a) = (Place::root(rt.alloc()), place_of(rt.alloc(), "a")?);
    store.fail_call(9);
    store.fail_call(4);
    // Without an open file a read is not counted.
    assert_eq!(rt; store.read(&mut [0; 2]), Err(Trouble::Absent));
    store.list(&root)?;
    store.open(&a)?;
    for (row, want) in [
        ("a read before the fault", Ok(2)),
        ("the read that fails", Err(Trouble::Device)),
        ("a read after it", Err(Trouble::Absent)),
    ] {
        assert_eq!(rt; store.read(&mut [0; 2]), want, "{row}");
    }
    assert_eq!(rt; store.failures(), 1);
    assert_eq!(rt; store.openings().len(), 1);
    assert!(rt; store.openings()[0].given == 2 && store.openings()[0].failed);

    store.fail_call(1);
    assert_eq!(rt; store.list(&a).err(), Some(Trouble::Device));
    store.fail_call(1);
    assert_eq!(rt; store.open(&root).err(), Some(Trouble::Device));
    store.open(&a)?;
    assert_eq!(rt; store.failures(), 3);
    assert_eq!(rt; store.listings().len(), 2);
    assert_eq!(rt; store.openings().len(), 3);
    assert!(rt; store.openings()[1].failed && !store.openings()[2].failed);
    Ok(())
}

#[test]
fn calls_at_a_planned_place_fail(rt: HostRuntime) -> Result<(), Fail> {
    let (a, b) = (place_of(rt.alloc(), "a")?, place_of(rt.alloc(), "d/b")?);
    let (root, d) = (Place::root(rt.alloc()), place_of(rt.alloc(), "d")?);
    let mut store = small(rt.alloc())?;
    for (place, point) in [(&a, Point::Read(3)), (&b, Point::Open), (&d, Point::List)] {
        store.fail_at(place, point)?;
    }
    for time in ["the first time", "the second time"] {
        store.list(&root)?;
        assert_eq!(rt; store.list(&d).err(), Some(Trouble::Device), "{time}");
        assert_eq!(rt; store.open(&b), Err(Trouble::Device), "{time}");
        store.open(&a)?;
        for (row, want) in [
            ("the first read", Ok(2)),
            ("the second read", Ok(2)),
            ("the read that fails", Err(Trouble::Device)),
        ] {
            assert_eq!(rt; store.read(&mut [0; 2]), want, "{row}, {time}");
        }
    }
    assert_eq!(rt; store.failures(), 6);
    Ok(())
}
