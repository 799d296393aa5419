//! Walks that also check the inventories of version directories. Digests are those of `sha256sum`.
use crate::tests::common::Runtime;
use crate::tests::common::digests::lines_of;
use crate::tests::common::object::bare_root;
use crate::tests::common::store::{change, place_of};
use crate::tests::walk::{judged, said};
use ocfl_memory::MemTree;
use ocfl_report::Further;
use ocfl_walk::{Walk, item_at};
use std::alloc::Global;
use std::test::Fail;

const FIRST: &str = r#"{"digestAlgorithm":"sha256","head":"v1","manifest":{}}"#;

const FIRST_DIGEST: &str = "1e627d990f5696a2c4d8f68b01778d3a82cbb4c793b1a6c269235432ddabbed9";

const SECOND: &str = r#"{"digestAlgorithm":"sha256","head":"v2","manifest":{}}"#;

const SECOND_DIGEST: &str = "5aae4bf052d22be5d2840c5cf7ef5ae539183f222606b54201e8b297ec6924dd";

const FLIPPED: &str = r#"{"digestAlgorithm":"sha256","head":"w1","manifest":{}}"#;

const FLIPPED_DIGEST: &str = "0a89d02e2ae3f9ff9ec610469a950357c272693c4f67132ba549f9b521aeac7c";

/// Puts an inventory and a sidecar with these digits into a directory.
fn put_inventory(
    alloc: Global,
    store: &mut MemTree,
    directory: &str,
    inventory: &str,
    digits: &str,
) -> Result<(), Fail> {
    let path = format!(in alloc; "{directory}/inventory.json")?;
    let beside = format!(in alloc; "{directory}/inventory.json.sha256")?;
    let sidecar = format!(in alloc; "{digits} inventory.json\n")?;
    let entries = [
        (path.as_str(), inventory),
        (beside.as_str(), sidecar.as_str()),
    ];
    change(alloc, store, &entries)
}

/// A storage root with the object `o` of this root inventory.
fn object(alloc: Global, inventory: &str, digits: &str) -> Result<MemTree, Fail> {
    let mut store = bare_root(alloc)?;
    change(
        alloc,
        &mut store,
        &[("o/0=ocfl_object_1.1", "ocfl_object_1.1\n")],
    )?;
    put_inventory(alloc, &mut store, "o", inventory, digits)?;
    Ok(store)
}

/// An object of two versions, all right.
fn two_versions(alloc: Global) -> Result<MemTree, Fail> {
    let mut store = object(alloc, SECOND, SECOND_DIGEST)?;
    put_inventory(alloc, &mut store, "o/v1", FIRST, FIRST_DIGEST)?;
    put_inventory(alloc, &mut store, "o/v2", SECOND, SECOND_DIGEST)?;
    Ok(store)
}

/// The lines and the cost of all items that a walk still gives.
fn rest(alloc: Global, store: &mut MemTree, walk: Walk) -> Result<(String, u64), Fail> {
    let mut walk = walk;
    let mut text = String::new(alloc);
    let mut all = 0u64;
    for _ in 0..100 {
        let (further, Some(pending)) = walk.next(store).map_err(said)? else {
            return Ok((text, all));
        };
        walk = further;
        let (lines, cost) = judged(alloc, store, pending)?;
        text.push_str(lines.as_str())?;
        all = all.saturating_add(cost);
    }
    Err("too many items".into())
}

/// What a walk gives above a place is this.
fn expect_above(
    rt: &impl Runtime,
    store: &mut MemTree,
    after: &str,
    want: &str,
    cost: u64,
) -> Result<(), Fail> {
    let alloc = rt.alloc();
    let place = place_of(alloc, after)?;
    let above = if after.is_empty() { None } else { Some(&place) };
    let walk = Walk::start(alloc, store, Further::Inventories, above).map_err(said)?;
    let got = rest(alloc, store, walk)?;
    assert_eq!(rt;
        got.0.as_str(),
        lines_of(alloc, want)?.as_str(),
        "after {after}"
    );
    assert_eq!(rt; got.1, cost, "after {after}");
    Ok(())
}

#[test]
fn each_version_has_its_inventory(rt: HostRuntime) -> Result<(), Fail> {
    let alloc = rt.alloc();
    let mut store = two_versions(alloc)?;
    let second = "ok|o/v2/inventory.json|54\n";
    let both = format!(in alloc; "ok|o/v1/inventory.json|54\n{second}")?;
    let head = format!(in alloc; "ok|o|-\nS09|o|sha256 {SECOND_DIGEST} v2\n")?;
    let all = format!(in alloc; "ok|.|-\n{head}{both}")?;
    let rows = [
        ("", all.as_str(), 110),
        ("o", both.as_str(), 110),
        ("o/v1", both.as_str(), 110),
        ("o/v1/a", both.as_str(), 110),
        ("o/v1/inventory.json", second, 55),
        ("o/v1/inventory.json.sha256", second, 55),
        ("o/v2/a", second, 55),
        ("o/v2/inventory.json", "", 0),
    ];
    for (after, want, cost) in rows {
        expect_above(&rt, &mut store, after, want, cost)?;
    }
    Ok(())
}

#[test]
fn an_inventory_is_where_a_walk_begins(rt: HostRuntime) -> Result<(), Fail> {
    let alloc = rt.alloc();
    let mut store = two_versions(alloc)?;
    let from = place_of(alloc, "o/v2/inventory.json")?;
    let walk = Walk::start_at(alloc, &mut store, Further::Inventories, &from).map_err(said)?;
    let (text, cost) = rest(alloc, &mut store, walk)?;
    let want = lines_of(alloc, "ok|o/v2/inventory.json|54\n")?;
    assert_eq!(&rt; text.as_str(), want.as_str());
    assert_eq!(&rt; cost, 55);
    Ok(())
}

#[test]
fn a_changed_inventory_is_told_twice(rt: HostRuntime) -> Result<(), Fail> {
    let alloc = rt.alloc();
    let mut store = object(alloc, FIRST, FIRST_DIGEST)?;
    put_inventory(alloc, &mut store, "o/v1", FLIPPED, FIRST_DIGEST)?;
    let place = "o/v1/inventory.json";
    let digests = format!(in alloc; "sha256 {FIRST_DIGEST} {FLIPPED_DIGEST}")?;
    let want = format!(in alloc; "E060|{place}|{digests}\nE064|{place}|{digests}\n")?;
    expect_above(&rt, &mut store, "o", want.as_str(), 55)?;
    let found = item_at(
        alloc,
        &mut store,
        Further::Inventories,
        &place_of(alloc, place)?,
    )
    .map_err(said)?;
    let Some(pending) = found else {
        return Err("no item".into());
    };
    let (text, cost) = judged(alloc, &mut store, pending)?;
    assert_eq!(&rt; text.as_str(), lines_of(alloc, want.as_str())?.as_str());
    assert_eq!(&rt; cost, 55);
    Ok(())
}

#[test]
fn without_the_option_none_is_read(rt: HostRuntime) -> Result<(), Fail> {
    let alloc = rt.alloc();
    let mut store = two_versions(alloc)?;
    let walk = Walk::start(alloc, &mut store, Further::Nothing, None).map_err(said)?;
    let (text, cost) = rest(alloc, &mut store, walk)?;
    let want = lines_of(alloc, "ok|.|-\nok|o|-\n")?;
    assert_eq!(&rt; text.as_str(), want.as_str());
    assert_eq!(&rt; cost, 0);
    Ok(())
}
