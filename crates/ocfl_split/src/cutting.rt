//! Cutting a level of the storage hierarchy at equal distances.
ghost use Rattle.std.specs.Prelude.{◌≡◌, ◌++◌, ◌∷◌, ◌-◌, ◌≤◌, [], length, IsTrue, IfOk, OnOk, MatchResult};
ghost use Rattle.ocfl_tree.specs.{Ascending.{IsAscending}, Place.{place_cmp}};
ghost use Rattle.ocfl_tree.specs.{StorageRoot.{StorageRoot}, Store.{IfTold}};
ghost use Rattle.ocfl_separators.specs.Separators.{AreSeparators};
ghost use Rattle.ocfl_split.specs.Splitting.{ListsAll, ListsStop, cut_evenly, listed_for, max_held, separators_of};

use crate::descent::split_level;
use ocfl_item::Fault;
use ocfl_separators::{PushStop, Separators};
use ocfl_tree::laws::every_place_has_names;
use ocfl_tree::{Place, Tree};
use std::alloc::{AllocError, Global};

/// Appends a place that is above the last separator.
fn add(separators: &mut Separators, place: &Place) -> Result<(), AllocError>
    requires separators { AreSeparators separators.now }
    requires above { IsAscending place_cmp (separators.now ++ place.now ∷ []) }
    ensures added { OnOk result (separators.new ≡ separators.old ++ place.now ∷ []) }
    ensures rule { OnOk result (AreSeparators separators.new) }
{
    every_place_has_names(place);
    match separators.push(place.try_clone()?) {
        Ok(()) => Ok(()),
        Err(PushStop::Memory) => Err(AllocError),
        Err(PushStop::NotAbove) => unreachable!(),
    }
}

/// Cuts a level into `count` parts of about equally many directories, or into one part for each
/// directory if there are fewer. Gives the first directory of each part but the first.
fn cut(alloc: Global, level: &[Place], count: usize) -> Result<Separators, AllocError>
    requires ascend { IsAscending place_cmp level.now }
    requires few { length level.now ≤ max_held }
    ensures cut { IfOk result (λ separators. separators ≡ cut_evenly count level.now) }
    ensures few { IfOk result (λ separators. length separators ≤ count - 1) }
{
    let parts = level.len().min(count);
    let mut separators = Separators::new(alloc);
    for part in 1..parts {
        add(&mut separators, &level[part * level.len() / parts])?;
    }
    Ok(separators)
}

/// Separators that split a storage root into at most `count` parts, found by listing alone: no file
/// is opened. They are directories of the storage hierarchy (OCFL 1.1, 4.3), the roots of objects
/// among them, and all have equally many names. No object is entered.
///
/// Levels are listed from the storage root down, until one has at least `count` directories, or
/// there is no deeper one. The first that has them is split, or else the widest that was
/// reached, the lower of two that are equally wide. It is cut into `count` parts of about equally
/// many directories, or into one part for each directory if there are fewer. The first directory
/// of each part but the first is a separator. So there are at most `count - 1`, and none if
/// `count` is 0 or 1. Nothing is listed for one part, so a missing folder is not noticed.
///
/// Not listed are the `extensions` of the storage root, what is in a storage root that is not of
/// one known version, and directories with more than 127 names. At most 1,000,000 directories are
/// held: of a level, of the next, and of the widest above them if that is wider. If there
/// would be more, no deeper level is reached.
///
/// `Store` if a directory could not be listed, with its place. `Memory` if memory was
/// refused.
pub fn split<T: Tree>(alloc: Global, store: &mut T, count: usize) -> Result<Separators, Fault>
    ensures few { IfOk result (λ separators. length separators ≤ count - 1) }
    ensures told { IfTold T.told (T.state store.old) (λ root.
        MatchResult result
        (λ separators. (separators ≡ separators_of root count)
        × ListsAll root (T.state store.old) (T.state store.new) (listed_for root count))
        (λ why. ListsStop root (T.state store.old) (T.state store.new)
        (listed_for root count) why)) }
{
    let level = split_level(alloc, store, count)?;
    Ok(cut(alloc, &level, count)?)
}
