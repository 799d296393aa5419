//! Walks over whole storage roots, and what the tests of walks share.
use crate::tests::common::Runtime;
use crate::tests::common::digests::lines_of;
use crate::tests::common::object::{bare_root, put_object};
use crate::tests::common::roots::{ROOTS, built, missing_and_there, nested, right_object};
use crate::tests::common::store::{change, expect_listed, place_of};
use ocfl_digest::Block;
use ocfl_memory::{MemTree, Point};
use ocfl_report::Further;
use ocfl_tree::{Place, Tree};
use ocfl_walk::{Fault, Pending, Walk, item_at, judge};
use std::alloc::Global;
use std::test::Fail;

mod find;
mod from;
mod stack;
mod versions;

pub(crate) fn said(fault: Fault) -> Fail {
    match fault {
        Fault::Store(_) => "store".into(),
        Fault::Memory => "memory".into(),
    }
}

/// A walk that is entered at a place; over all of it for none.
pub(crate) fn entered(alloc: Global, store: &mut MemTree, after: &str) -> Result<Walk, Fail> {
    let place = place_of(alloc, after)?;
    let after = if after.is_empty() { None } else { Some(&place) };
    Walk::start(alloc, store, Further::Nothing, after).map_err(said)
}

/// The item at a place.
pub(crate) fn item<T: Tree>(
    alloc: Global,
    store: &mut T,
    path: &str,
) -> Result<Option<Pending>, Fail> {
    item_at(alloc, store, Further::Nothing, &place_of(alloc, path)?).map_err(said)
}

/// The lines that judging an item gives, as they are written, and its cost.
pub(crate) fn judged<T: Tree>(
    alloc: Global,
    store: &mut T,
    pending: Pending,
) -> Result<(String, u64), Fail> {
    let mut block = Block::new(alloc)?;
    let (lines, cost) = judge(store, pending, &mut block)?;
    Ok((String::from_utf8(lines.into_piece(alloc)?.text)?, cost))
}

/// Judging the item at a place gives these lines, with a bar for each tab and names of digests, and
/// costs this much; no lines if there is no item.
pub(crate) fn expect_item<T: Tree>(
    rt: &impl Runtime,
    row: &str,
    store: &mut T,
    path: &str,
    want: &str,
    cost: u64,
) -> Result<(), Fail> {
    let alloc = rt.alloc();
    let Some(pending) = item(alloc, store, path)? else {
        assert_eq!(rt; want, "", "{row}: no item at {path}");
        return Ok(());
    };
    assert_eq!(rt; pending.hashed(), cost > 0, "{row}: {path}");
    let (text, spent) = judged(alloc, store, pending)?;
    assert_eq!(rt;
        text.as_str(),
        lines_of(alloc, want)?.as_str(),
        "{row}: {path}"
    );
    assert_eq!(rt; spent, cost, "{row}: {path}");
    Ok(())
}

/// The fault that looking for the item at a place meets.
pub(crate) fn failed_place<T: Tree>(
    alloc: Global,
    store: &mut T,
    path: &str,
) -> Result<Place, Fail> {
    match item_at(alloc, store, Further::Nothing, &place_of(alloc, path)?) {
        Err(Fault::Store(place)) => Ok(place),
        _ => Err("no fault".into()),
    }
}

/// What a walk gave: the text of its items, their cost, and how many of them were hashed.
#[derive(Drop)]
struct Gathered {
    text: String,
    cost: u64,
    hashed: usize,
}

/// A walk over all items above a place.
fn walked(alloc: Global, store: &mut MemTree, after: &str) -> Result<Gathered, Fail> {
    let mut walk = entered(alloc, store, after)?;
    let mut all = Gathered {
        text: String::new(alloc),
        cost: 0,
        hashed: 0,
    };
    for _ in 0..1_000 {
        let (further, Some(pending)) = walk.next(store).map_err(said)? else {
            return Ok(all);
        };
        walk = further;
        all.hashed = all.hashed.saturating_add(usize::from(pending.hashed()));
        let (text, cost) = judged(alloc, store, pending)?;
        all.text.push_str(text.as_str())?;
        all.cost = all.cost.saturating_add(cost);
    }
    Err("too many items".into())
}

/// A walk over all of the store gives these lines and costs this much. It opens each content file
/// once that it hashes, and no other.
pub(crate) fn expect(
    rt: &impl Runtime,
    store: &mut MemTree,
    want: &str,
    want_cost: u64,
) -> Result<(), Fail> {
    expect_row(rt, "the walk", store, want, want_cost)
}

/// The same of one row of a table.
pub(crate) fn expect_row(
    rt: &impl Runtime,
    row: &str,
    store: &mut MemTree,
    want: &str,
    want_cost: u64,
) -> Result<(), Fail> {
    let first = store.openings().len();
    let got = walked(rt.alloc(), store, "")?;
    let want = lines_of(rt.alloc(), want)?;
    assert_eq!(rt; got.text.as_str(), want.as_str(), "{row}");
    assert_eq!(rt; got.cost, want_cost, "{row}: {want}");
    let openings = store.openings().iter().skip(first);
    let opened = openings.filter(|opening| opening.place.path().contains("/content/"));
    assert_eq!(rt; opened.count(), got.hashed, "{row}: {want}");
    Ok(())
}

/// Walks that are entered at these places give these lines.
pub(crate) fn expect_after(
    rt: &impl Runtime,
    store: &mut MemTree,
    rows: &[(&str, &str)],
) -> Result<(), Fail> {
    for (after, want) in rows {
        let got = walked(rt.alloc(), store, after)?;
        let want = lines_of(rt.alloc(), want)?;
        assert_eq!(rt; got.text.as_str(), want.as_str(), "after {after}");
    }
    Ok(())
}

#[test]
fn walks_over_roots(rt: HostRuntime) -> Result<(), Fail> {
    for root in &ROOTS {
        let (row, _, _, report, (cost, _)) = root;
        expect_row(&rt, row, &mut built(rt.alloc(), root)?, report, *cost)?;
    }
    Ok(())
}

#[test]
fn ended_walk_stays_ended(rt: HostRuntime) -> Result<(), Fail> {
    let mut store = bare_root(rt.alloc())?;
    let walk = entered(rt.alloc(), &mut store, "")?;
    let (mut walk, first) = walk.next(&mut store).map_err(said)?;
    assert!(rt; first.is_some());
    for call in 0..3 {
        let (further, item) = walk.next(&mut store).map_err(said)?;
        assert!(rt; item.is_none(), "call {call}");
        walk = further;
    }
    Ok(())
}

#[test]
fn entered_where_nothing_is_seen(rt: HostRuntime) -> Result<(), Fail> {
    let alloc = rt.alloc();
    let mut several = bare_root(alloc)?;
    change(
        alloc,
        &mut several,
        &[("0=ocfl_1.0", "ocfl_1.0\n"), ("x/", "")],
    )?;
    expect_after(&rt, &mut several, &[(".", "")])?;
    let mut stopped = bare_root(alloc)?;
    put_object(alloc, &mut stopped, "o", "{}")?;
    change(
        alloc,
        &mut stopped,
        &[("o/v1/", ""), ("o/junk", "abc"), ("q/", "")],
    )?;
    expect(
        &rt,
        &mut stopped,
        "ok|.|-\nE036|o|digestAlgorithm\nE073|q|-\n",
        0,
    )?;
    expect_after(&rt, &mut stopped, &[("o/v1", "E073|q|-\n")])
}

#[test]
fn entered_around_a_missing_file(rt: HostRuntime) -> Result<(), Fail> {
    let alloc = rt.alloc();
    let missing = "E092|o/v1/content/a|sha256 missing\nE093|o/v1/content/a|sha1 missing\n";
    let b = "ok|o/v1/content/b|3\n";
    let below_o = format!(in alloc; "{missing}{b}")?;
    let below_o = below_o.as_str();
    let below_base = format!(in alloc; "ok|o|-\n{below_o}")?;
    let rows = [
        (".", below_base.as_str()),
        ("n", below_base.as_str()),
        ("o", below_o),
        ("o/v0", below_o),
        ("o/v1", below_o),
        ("o/v1/content/a", b),
        ("o/v1/content/b/x", ""),
        ("o-x", ""),
        ("p/q", ""),
    ];
    expect_after(&rt, &mut missing_and_there(alloc)?, &rows)
}

// Seen to fail if memory is refused for the 128th name of a place.
#[test]
fn deep_directories(rt: HostRuntime) -> Result<(), Fail> {
    for (count, code) in [(128, "S05"), (127, "E073")] {
        let (mut store, path) = nested(rt.alloc(), count)?;
        let text = format!(in rt.alloc(); "ok|.|-\n{code}|{path}|-\n")?;
        let row = format!(in rt.alloc(); "{count} names")?;
        expect_row(&rt, row.as_str(), &mut store, text.as_str(), 0)?;
        expect_after(&rt, &mut store, &[(path.as_str(), "")])?;
    }
    Ok(())
}

#[test]
fn lists_step_by_step(rt: HostRuntime) -> Result<(), Fail> {
    let mut store = right_object(rt.alloc())?;
    let mut walk = entered(rt.alloc(), &mut store, "")?;
    for want in [";", ";o;", ";o;o/v1;o/v1/content;"] {
        let (further, item) = walk.next(&mut store).map_err(said)?;
        assert!(rt; item.is_some(), "{want}");
        expect_listed(&rt, want, &store, want)?;
        walk = further;
    }
    assert_eq!(rt; store.openings().len(), 4);
    Ok(())
}

// Seen to fail if `item_at` or `Walk::start` is always out of memory.
#[test]
fn entering_lists_the_way(rt: HostRuntime) -> Result<(), Fail> {
    for (after, want, opened) in [
        ("n", ";", 0),
        ("o", ";o;", 1),
        ("o/v0", ";o;", 1),
        ("o/v1/content/a", ";o;o/v1;o/v1/content;", 1),
        ("o/v1/content/b/x", ";o;o/v1;o/v1/content;", 1),
        ("o-x", ";", 0),
        ("p/q", ";", 0),
    ] {
        let mut store = missing_and_there(rt.alloc())?;
        entered(rt.alloc(), &mut store, after)?;
        expect_listed(&rt, after, &store, want)?;
        assert_eq!(rt; store.openings().len(), opened, "after {after}");
    }
    Ok(())
}

#[test]
fn a_fault_ends_the_walk(rt: HostRuntime) -> Result<(), Fail> {
    let mut store = missing_and_there(rt.alloc())?;
    let o = place_of(rt.alloc(), "o")?;
    store.fail_at(&o, Point::List)?;
    let walk = entered(rt.alloc(), &mut store, "")?;
    let (walk, first) = walk.next(&mut store).map_err(said)?;
    assert!(rt; first.is_some());
    let Err(Fault::Store(failed)) = walk.next(&mut store) else {
        return Err("no stop".into());
    };
    assert!(rt; failed == o);
    Ok(())
}
