//! One place, looked up in the listings on the way down to it.
ghost use Rattle.std.specs.Prelude.{◌≡◌, ◌∷◌, ◌++◌, [], None, Some, MatchOption};
ghost use Rattle.ocfl_tree.specs.{Listing.{kind_in}, Store.{IfTold}};
ghost use Rattle.ocfl_rules.specs.Zone.{zone};
ghost use Rattle.ocfl_item.specs.{Around.{IsPart}, Ways.{IsAt, way_below}};
ghost use Rattle.ocfl_walk.specs.{Internal.Entering.{may_open}, Internal.Finding.{FindsItem}};
ghost use Rattle.ocfl_walk.specs.Internal.Standing.{IsAroundIf};

use crate::entry::down;
use ocfl_item::{Around, Fault, Folder, Pending, visit_entry, visit_path};
use ocfl_report::Further;
use ocfl_tree::{Entry, Name, Place, Tree, is_text};
use std::alloc::Global;

/// The entry of a name.
fn entry_named<'f>(entries: &'f [Entry], name: &Name) -> Option<&'f Entry>
    ensures { MatchOption result (kind_in entries.now name.now ≡ None)
        (λ e. (e.now.name ≡ name.now) × (kind_in entries.now name.now ≡ Some e.now.kind)) }
{
    for entry in entries {
        if is_text(entry.name.as_str(), name.as_str()) {
            return Some(entry);
        }
    }
    None
}

/// The item of a name in a directory.
fn item_in<T: Tree>(
    alloc: Global,
    store: &mut T,
    further: Further,
    place: &Place,
    around: &Option<Around>,
    folder: &Folder,
    name: &Name,
) -> Result<Option<Pending>, Fault>
    ensures told { IfTold T.told (T.state store.old) (λ root.
        IsAt root folder.now.place folder.now.entries.items
        → IsPart further root folder.now.place around.now
        → place.now ≡ folder.now.place ++ name.now ∷ []
        → FindsItem further root (T.state store.old) (T.state store.new) (place.now ∷ [])
        (may_open around.now (zone root place.now)) place.now result) }
{
    let entries = folder.entries.as_slice();
    let Some(entry) = entry_named(entries, name) else {
        return Ok(visit_path(alloc, around, place)?);
    };
    let place = place.try_clone()?;
    // The other entries stand for those that come after this one.
    let visit = visit_entry(alloc, store, further, around, place, entry, entries)?;
    Ok(visit.item)
}

/// The item of a name and those after it, below a directory.
pub(crate) fn find_below<T: Tree>(
    alloc: Global,
    store: &mut T,
    further: Further,
    place: &Place,
    mut around: Option<Around>,
    folder: Folder,
    name: &Name,
    rest: &[Name],
) -> Result<Option<Pending>, Fault>
    requires { IsAroundIf folder.place around }
    ensures told { IfTold T.told (T.state store.old) (λ root.
        IsAt root folder.place folder.entries.items → IsPart further root folder.place around
        → place.now ≡ folder.place ++ name.now ∷ rest.now
        → FindsItem further root (T.state store.old) (T.state store.new)
        (way_below folder.place (name.now ∷ rest.now))
        (may_open around (zone root place.now)) place.now result) }
{
    let Some((next, behind)) = rest.split_first() else {
        return item_in(alloc, store, further, place, &around, &folder, name);
    };
    let inner = down(alloc, store, further, &mut around, &folder, name)?;
    // only one listing is held at a time
    drop(folder);
    match inner {
        Some(inner) => find_below(alloc, store, further, place, around, inner, next, behind),
        None => Ok(visit_path(alloc, &around, place)?),
    }
}
