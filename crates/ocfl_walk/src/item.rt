//! The item at one place.
ghost use Rattle.std.specs.Prelude.{None, Some, MatchResult};
ghost use Rattle.ocfl_item.specs.Meeting.{IsItemAt};
ghost use Rattle.ocfl_walk.specs.WalkCalls.{GoDownFails, GoesDown};
ghost use Rattle.ocfl_tree.specs.Store.{IfTold};

use crate::entry::known_root;
use crate::find::find_below;
use ocfl_item::{Fault, Pending, visit_base};
use ocfl_report::Further;
use ocfl_tree::{Place, Tree};
use std::alloc::{AllocError, Global};

/// The item at one place, by its path in the storage root (OCFL 1.1, 4 OCFL Storage Root): its
/// lines, or the digests that its file is to be compared with; `None` if it has no lines.
///
/// Of directories it lists those on the way to the place and the place itself, in order, each once
/// and only as far as they are entered. Of files it reads, each once, the declaration of the
/// storage root or of an object if the place is that, and the inventory of the object that holds
/// the place; an object's sidecars too. `further` is what is checked beside what each audit checks:
/// at an inventory of a version directory the sidecars beside it are read. `Fault::Store` if the
/// store did not answer, `Fault::Memory` if memory was refused.
pub fn item_at<T: Tree>(
    alloc: Global,
    store: &mut T,
    further: Further,
    place: &Place,
) -> Result<Option<Pending>, Fault>
    ensures told { IfTold T.told (T.state store.old) (λ root.
        MatchResult result
        (λ o. GoesDown further root (T.state store.old) (T.state store.new) (Some place.now)
        × IsItemAt further root place.now o)
        (λ why. GoDownFails further root (T.state store.old) (T.state store.new) (Some place.now)
        why)) }
{
    let names = place.names()?;
    let Some((name, rest)) = names.split_first() else {
        return Ok(visit_base(alloc, store)?.item);
    };
    let Some(base) = known_root(alloc, store)? else {
        return Ok(None);
    };
    find_below(alloc, store, further, place, None, base, name, rest)
}
