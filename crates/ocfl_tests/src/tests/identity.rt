//! What tells one storage root from another. The digests are those that `sha256sum` prints.
use crate::tests::common::Runtime;
use crate::tests::common::store::{change, place_of};
use ocfl_digest::Block;
use ocfl_identity::{NoIdentity, is_still_declared, look_at_root};
use ocfl_memory::{MemTree, Point};
use std::alloc::Global;
use std::test::Fail;

/// The top folder of a root: `find -mindepth 1 -maxdepth 1 -printf '%f\0' | sort -z` has its names.
const ROOT: [(&str, &str); 4] = [
    ("b/f", "x"),
    ("0=ocfl_1.1", "ocfl_1.1\n"),
    ("extensions/", ""),
    ("a-b/", ""),
];

/// `find .. | sha256sum` of these names.
const NAMES: &str = "5484986017efbb65a883ecf3bd9c17acc28cec614ccffac42d70599df51792c5";
/// `sha256sum 0=ocfl_1.1 | sha256sum`.
const ONE: &str = "191c684bbd9208b9f33d5d9ba2183dfab474c0952492ba27b1e02fc79a2d61f1";
/// `sha256sum 0=ocfl_1.1 0=ocfl_2.0 | sha256sum`.
const TWO: &str = "d31c8949ea02e0438a1ce55f4a8e340efd62c06707cf1cb59cbaf70297fd17b1";

fn root(alloc: Global, changes: &[(&str, &str)]) -> Result<MemTree, Fail> {
    let mut store = MemTree::new(alloc);
    change(alloc, &mut store, &ROOT)?;
    change(alloc, &mut store, changes)?;
    Ok(store)
}

#[test]
fn identity_of_a_root(rt: HostRuntime) -> Result<(), Fail> {
    let alloc = rt.alloc();
    let mut block = Block::new(alloc)?;
    let mut store = root(alloc, &[])?;
    let found = look_at_root(alloc, &mut store, &mut block)?;
    assert_eq!(rt; found.declarations.len(), 1);
    assert_eq!(rt; hex::encode(alloc, found.declared)?.as_str(), ONE);
    assert_eq!(rt; found.count, 4);
    assert_eq!(rt; hex::encode(alloc, found.names)?.as_str(), NAMES);
    assert_eq!(rt; store.listings().len(), 1);
    Ok(())
}

#[test]
fn identity_of_a_root_with_two_declarations(rt: HostRuntime) -> Result<(), Fail> {
    let alloc = rt.alloc();
    let mut block = Block::new(alloc)?;
    let mut store = root(alloc, &[("0=ocfl_2.0", "ocfl_2.0\n")])?;
    let found = look_at_root(alloc, &mut store, &mut block)?;
    assert_eq!(rt; found.declarations.len(), 2);
    assert_eq!(rt; hex::encode(alloc, found.declared)?.as_str(), TWO);
    Ok(())
}

#[test]
fn folders_that_declare_no_root(rt: HostRuntime) -> Result<(), Fail> {
    let alloc = rt.alloc();
    let mut block = Block::new(alloc)?;
    for (name, changes) in [
        ("no declaration", [("-0=ocfl_1.1", ""), ("c/", "")]),
        (
            "an object",
            [
                ("-0=ocfl_1.1", ""),
                ("0=ocfl_object_1.1", "ocfl_object_1.1\n"),
            ],
        ),
        ("a directory", [("-0=ocfl_1.1", ""), ("0=ocfl_1.1/", "")]),
        ("a link", [("-0=ocfl_1.1", ""), ("0=ocfl_1.1@", "")]),
    ] {
        let mut store = root(alloc, &changes)?;
        let found = look_at_root(alloc, &mut store, &mut block);
        assert!(rt; matches!(found, Err(NoIdentity::Undeclared)), "{name}");
    }
    Ok(())
}

#[test]
fn roots_that_cannot_be_looked_at(rt: HostRuntime) -> Result<(), Fail> {
    let alloc = rt.alloc();
    let mut block = Block::new(alloc)?;
    for (path, point) in [(".", Point::List), ("0=ocfl_1.1", Point::Open)] {
        let mut store = root(alloc, &[])?;
        let place = place_of(alloc, path)?;
        store.fail_at(&place, point)?;
        let found = look_at_root(alloc, &mut store, &mut block);
        assert!(rt;
            matches!(found, Err(NoIdentity::Unread(at)) if at == place),
            "{path}"
        );
    }
    Ok(())
}

#[test]
fn declarations_that_change(rt: HostRuntime) -> Result<(), Fail> {
    let alloc = rt.alloc();
    let mut block = Block::new(alloc)?;
    let first = look_at_root(alloc, &mut root(alloc, &[])?, &mut block)?;
    for (name, changes, same) in [
        ("as it was", ("c/", ""), true),
        ("gone", ("-0=ocfl_1.1", ""), false),
        ("other bytes", ("0=ocfl_1.1", "ocfl_1.1"), false),
        ("a directory", ("0=ocfl_1.1/", ""), false),
        ("one more", ("0=ocfl_1.0", "ocfl_1.0\n"), true),
    ] {
        let mut store = root(alloc, &[("-0=ocfl_1.1", ""), ("0=ocfl_1.1", "ocfl_1.1\n")])?;
        if let (Some(path), _) = (changes.0.strip_suffix("/"), ()) {
            let _ = store.remove(&place_of(alloc, path)?);
        }
        change(alloc, &mut store, &[changes])?;
        let found = is_still_declared(alloc, &mut store, &first, &mut block)?;
        assert_eq!(rt; found, same, "{name}");
        assert!(rt; store.listings().is_empty(), "{name}");
    }
    Ok(())
}
