//! Going down the storage hierarchy, level by level.
ghost use Rattle.std.specs.Prelude.{◌≡◌, ◌≤◌, ℕ, ◌+◌, ◌∷◌, [], length, IsTrue, IfOk, IfSome, MatchResult};
ghost use Rattle.std.specs.Option.{option_map};
ghost use Rattle.ocfl_tree.specs.{StorageRoot.{StorageRoot}, Store.{IfTold}};
ghost use Rattle.ocfl_split.specs.Splitting.{ListsAll, ListsStop, max_held, split_level as level_to_split, listed_for, next_level as level_after, listed_within, kept, wider as wider_level};
ghost use Rattle.ocfl_split.specs.Internal.Directories.{IsLevel, AreListable};

use crate::directories::add_below;
use ocfl_item::Fault;
use ocfl_tree::{Place, Tree};
use std::alloc::{AllocError, Global};

/// How many directories are held at most, of all levels that are in memory.
const MAX_HELD: usize = 1_000_000;

/// The deepest level. Its directories are not listed.
const DEEPEST_LEVEL: usize = 128;

/// The next level of the hierarchy, if it has directories, and if there is room for them.
fn next_level<T: Tree>(
    alloc: Global,
    store: &mut T,
    level: &[Place],
    room: usize,
) -> Result<Option<Vec<Place>>, Fault>
    ensures fair { room ≤ max_held → IfOk result (λ next. IfSome next (λ places. (depth : ℕ)
        → IsLevel depth level.now → IsLevel (depth + 1) places.items)) }
    ensures told { IfTold T.told (T.state store.old) (λ root.
        AreListable root level.now → MatchResult result
        (λ next. (option_map (λ places. places.items) next ≡ level_after root room level.now)
        × ListsAll root (T.state store.old) (T.state store.new)
        (listed_within root room level.now))
        (λ why. ListsStop root (T.state store.old) (T.state store.new)
        (listed_within root room level.now) why)) }
{
    let mut next = Vec::new(alloc);
    for place in level {
        if !add_below(store, place, &mut next, room)? {
            return Ok(None);
        }
    }
    if next.is_empty() {
        return Ok(None);
    }
    Ok(Some(next))
}

/// The storage root alone.
fn first_level(alloc: Global) -> Result<Vec<Place>, AllocError>
    ensures { IfOk result (λ level. level.items ≡ [] ∷ []) }
{
    let mut level = Vec::new(alloc);
    level.push(Place::root(alloc))?;
    Ok(level)
}

/// The level with more directories, or the lower if they have equally many.
fn wider(above: Vec<Place>, level: Vec<Place>) -> Vec<Place>
    ensures { result.items ≡ wider_level above.items level.items }
{
    if above.len() > level.len() {
        return above;
    }
    level
}

/// What stays in memory of the levels above one: the widest, if it is wider.
fn keep(alloc: Global, above: Vec<Place>, level: &[Place]) -> Vec<Place>
    ensures { result.items ≡ kept above.items level.now }
{
    if above.len() <= level.len() {
        return Vec::new(alloc);
    }
    above
}

/// The level that is split: the first with at least `count` directories, or else the widest that
/// is reached, the lower of two that are equally wide.
pub(crate) fn split_level<T: Tree>(
    alloc: Global,
    store: &mut T,
    count: usize,
) -> Result<Vec<Place>, Fault>
    ensures fair { IfOk result (λ level. (depth : ℕ) × IsLevel depth level.items) }
    ensures told { IfTold T.told (T.state store.old) (λ root.
        MatchResult result
        (λ level. (level.items ≡ level_to_split root count)
        × ListsAll root (T.state store.old) (T.state store.new) (listed_for root count))
        (λ why. ListsStop root (T.state store.old) (T.state store.new)
        (listed_for root count) why)) }
{
    let mut above = Vec::new(alloc);
    let mut level = first_level(alloc)?;
    for depth in 0..DEEPEST_LEVEL {
        if level.len() >= count {
            return Ok(level);
        }
        let room = MAX_HELD
            .saturating_sub(above.len())
            .saturating_sub(level.len());
        match next_level(alloc, store, &level, room)? {
            Some(next) => {
                above = keep(alloc, wider(above, level), &next);
                level = next;
            }
            None => return Ok(wider(above, level)),
        }
    }
    Ok(wider(above, level))
}
