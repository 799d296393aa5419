//! What the fixtures themselves are to do.
use crate::tests::common::digests::lines_of;
use crate::tests::common::store::{change, listed_from, place_of};
use ocfl_memory::MemTree;
use ocfl_tree::Tree;
use std::test::Fail;

#[test]
fn lines_have_tabs_and_digests(rt: HostRuntime) -> Result<(), Fail> {
    let text = lines_of(rt.alloc(), "E093|o|sha512/256 ABC_SHA512/256 ABC_MD5\n")?;
    assert_eq!(rt;
        text.as_str(),
        "E093\to\tsha512/256 53048e2681941ef99b2e29b76b4c7dabe4c2d0c634fc6d46e0e2f13107e7af23 900150983cd24fb0d6963f7d28e17f72\n"
    );
    Ok(())
}

#[test]
fn changes_put_and_take_away(rt: HostRuntime) -> Result<(), Fail> {
    let changes = [
        ("a/b/c", "abc"),
        ("a/d/", ""),
        ("l@", ""),
        ("a/b/c", "x"),
        ("-a/d", ""),
    ];
    let mut store = MemTree::new(rt.alloc());
    change(rt.alloc(), &mut store, &changes)?;
    for (path, count) in [("", 2usize), ("a", 1), ("a/b", 1)] {
        let entries = store.list(&place_of(rt.alloc(), path)?)?;
        assert_eq!(rt; entries.len(), count, "{path}");
    }
    store.open(&place_of(rt.alloc(), "a/b/c")?)?;
    assert_eq!(rt; store.read(&mut [0; 9])?, 1);
    assert_eq!(rt; listed_from(rt.alloc(), &store, 1)?.as_str(), "a;a/b;");
    Ok(())
}
