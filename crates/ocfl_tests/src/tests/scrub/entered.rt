//! A walk that is entered at a place gives what the whole walk gives above that place.
use super::seeded::{Dice, grow};
use crate::tests::common::Runtime;
use crate::tests::common::store::place_of;
use ocfl_digest::Block;
use ocfl_memory::MemTree;
use ocfl_report::Further;
use ocfl_tree::Place;
use ocfl_walk::{Fault, Walk, judge};
use std::alloc::Global;
use std::test::Fail;

/// A place, and the text of its lines.
#[derive(Drop)]
struct Passage {
    place: Place,
    text: String,
}

fn said(fault: Fault) -> Fail {
    match fault {
        Fault::Store(_) => "the store fails".into(),
        Fault::Memory => "no store fails".into(),
    }
}

/// The items above a place, each with its text. Each is above the one before.
fn items_above(
    alloc: Global,
    store: &mut MemTree,
    after: Option<&Place>,
    block: &mut Block,
) -> Result<Vec<Passage>, Fail> {
    let mut items: Vec<Passage> = Vec::new(alloc);
    let mut walk = Walk::start(alloc, store, Further::Nothing, after).map_err(said)?;
    for _ in 0..1_000 {
        let (further, Some(pending)) = walk.next(store).map_err(said)? else {
            return Ok(items);
        };
        walk = further;
        let before = match items.last() {
            Some(item) => Some(&item.place),
            None => after,
        };
        if before.is_some_and(|place| pending.place() <= place) {
            return Err("an item is not above the one before".into());
        }
        let (lines, _) = judge(store, pending, block)?;
        let piece = lines.into_piece(alloc)?;
        items.push(Passage {
            place: piece.place,
            text: String::from_utf8(piece.text)?,
        })?;
    }
    Err("too many items".into())
}

/// The text of the items above a place, of all for none.
fn text_above(alloc: Global, items: &[Passage], after: Option<&Place>) -> Result<String, Fail> {
    let mut text = String::new(alloc);
    for item in items {
        if after.is_none_or(|place| item.place > *place) {
            text.push_str(item.text.as_str())?;
        }
    }
    Ok(text)
}

/// The text of what a walk gives that is entered after a place.
pub(crate) fn rest_behind(
    alloc: Global,
    store: &mut MemTree,
    last: Option<&Place>,
    block: &mut Block,
) -> Result<String, Fail> {
    let items = items_above(alloc, store, last, block)?;
    text_above(alloc, &items, None)
}

/// One of the places, or one that is near to it.
pub(crate) fn some_place(alloc: Global, dice: &mut Dice, places: &[Place]) -> Result<Place, Fail> {
    let index = dice.throw(places.len() as u64) as usize;
    let near = dice.throw(5);
    let place = places.get(index).ok_or("no place")?;
    let path = place.path();
    let path = match near {
        0 if !path.is_empty() => format!(in alloc; "{path}/m")?,
        1 if !path.is_empty() => format!(in alloc; "{path}/0")?,
        2 => format!(in alloc; "{path}-")?,
        _ => return Ok(place.try_clone()?),
    };
    place_of(alloc, path.as_str())
}

/// A walk that is entered at a random place of the root gives what a whole walk gives above it, and
/// lists nothing before the place but what is on the way.
fn expect_entered(rt: &impl Runtime, seed: u64, block: &mut Block) -> Result<(), Fail> {
    let alloc = rt.alloc();
    let mut grown = grow(alloc, seed)?;
    let mut dice = Dice { state: seed };
    let items = items_above(alloc, &mut grown.store, None, block)?;
    for _ in 0..3 {
        let after = some_place(alloc, &mut dice, &grown.places)?;
        let path = after.path();
        let want = text_above(alloc, &items, Some(&after))?;
        let listed = grown.store.listings().len();
        let text = rest_behind(alloc, &mut grown.store, Some(&after), block)?;
        assert_eq!(rt; text.as_str(), want.as_str(), "seed {seed}, after {path}");
        for place in grown.store.listings().iter().skip(listed) {
            let is_due = after.starts_with(place) || *place > after;
            assert!(rt; is_due, "seed {seed}, after {path}");
        }
    }
    Ok(())
}

#[test]
fn walks_entered_at_random_places(rt: HostRuntime) -> Result<(), Fail> {
    let mut block = Block::new(rt.alloc())?;
    for seed in 1..101 {
        expect_entered(&rt, seed, &mut block)?;
    }
    Ok(())
}
