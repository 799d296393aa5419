//! Walks that begin at a place, and what they list and read there.
use crate::tests::common::roots::{missing_and_there, right_objects};
use crate::tests::common::store::{expect_listed, place_of};
use crate::tests::walk::said;
use crate::tests::walk::stack::{STEPS, expect_inventories, expect_steps, step};
use ocfl_memory::MemTree;
use ocfl_report::Further;
use ocfl_tree::Place;
use ocfl_walk::{End, Walk};
use std::alloc::Global;
use std::test::Fail;

fn begun(alloc: Global, store: &mut MemTree, from: &str) -> Result<Walk, Fail> {
    Walk::start_at(alloc, store, Further::Nothing, &place_of(alloc, from)?).map_err(said)
}

#[test]
fn items_at_a_place_and_above_it(rt: HostRuntime) -> Result<(), Fail> {
    for (place, _, from) in STEPS {
        let mut store = missing_and_there(rt.alloc())?;
        expect_steps(&rt, begun, &mut store, place, from)?;
    }
    Ok(())
}

#[test]
fn an_object_is_whole_where_a_walk_begins(rt: HostRuntime) -> Result<(), Fail> {
    let mut store = right_objects(rt.alloc(), &["o1", "o2", "o3"])?;
    let rows = [
        ("o2", ";o2;"),
        ("o2/v1/content/f", ";o2;o2/v1;o2/v1/content;"),
        ("o3", ";o2;o2/v1;o2/v1/content;o3;"),
        (
            "o3/v1/content/f",
            ";o2;o2/v1;o2/v1/content;o3;o3/v1;o3/v1/content;",
        ),
    ];
    expect_steps(&rt, begun, &mut store, "o2", &rows)?;
    expect_inventories(&rt, &store, "o2/inventory.json;o3/inventory.json;")
}

#[test]
fn nothing_is_looked_at_where_the_end_comes_first(rt: HostRuntime) -> Result<(), Fail> {
    let alloc = rt.alloc();
    let mut store = right_objects(alloc, &["o1", "o2", "o3"])?;
    let mut walk = begun(alloc, &mut store, "o2")?;
    let end = End {
        under: Place::root(alloc),
        below: Some(place_of(alloc, "o2")?),
    };
    for row in ["the first call", "the second call"] {
        let (further, found) = walk.next_within(&mut store, &end).map_err(said)?;
        assert!(&rt; found.is_none(), "{row}");
        walk = further;
    }
    expect_listed(&rt, "at the end", &store, ";")?;
    expect_inventories(&rt, &store, "")?;
    let (_, path) = step(alloc, &mut store, walk)?;
    assert_eq!(&rt; path.as_str(), "o2");
    Ok(())
}
