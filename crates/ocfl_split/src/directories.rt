//! The directories of the storage hierarchy right below one, and those of a whole level.
ghost use Rattle.std.specs.Prelude.{◌≡◌, ◌≤◌, ◌<◌, ◌++◌, ◌∷◌, [], IsTrue, IfOk, length, IsPermutation, true, false, MatchResult};
ghost use Rattle.std.specs.List.Sorted.{IsSorted};
ghost use Rattle.ocfl_tree.specs.{Listing.{IsOrdinary, IsListing}, Place.{text_cmp}};
ghost use Rattle.ocfl_tree.specs.{StorageRoot.{StorageRoot}, Store.{IfTold}};
ghost use Rattle.ocfl_item.specs.Ways.{is_listable};
ghost use Rattle.ocfl_split.specs.{Levels.{leads_on}, Splitting.{ListsAll, ListsStop}};
ghost use Rattle.ocfl_split.specs.Internal.Directories.{is_directory_entry, directories_among, AddsBelow, AddsAll};

use ocfl_inventory::Level;
use ocfl_item::{Fault, Folder, Head, head_of, is_extensions, list};
use ocfl_tree::{Entry, Kind, Place, Tree};
use std::alloc::AllocError;

/// Whether the directories in a listed directory belong to the hierarchy too. Those in an object do
/// not, nor those in a storage root that does not declare exactly one known version.
fn leads_on_from(folder: &Folder) -> bool
    ensures { (root : StorageRoot) → is_listable root folder.now.place ≡ true
        → IsOrdinary folder.now.entries.items
        → IsListing root folder.now.place folder.now.entries.items
        → result ≡ leads_on root folder.now.place }
{
    if folder.place.depth() == 0 {
        return matches!(head_of(folder, Level::Root), Head::Known);
    }
    matches!(head_of(folder, Level::Object), Head::Undeclared)
}

/// Puts entries in the order of their names.
fn sort(entries: &mut Vec<Entry>)
    ensures permutation { IsPermutation entries.old.items entries.new.items }
    ensures sorted { IsSorted (λ e f. text_cmp e.name f.name) entries.new.items }
{
    entries.sort_unstable_by(|entry, other| entry.name.cmp(&other.name));
}

/// Whether an entry is a directory of the hierarchy.
fn is_directory(folder: &Folder, entry: &Entry) -> bool
    ensures { result ≡ is_directory_entry folder.now.place entry.now }
{
    match entry.kind {
        Kind::Dir => !is_extensions(folder, &entry.name),
        Kind::File | Kind::Other => false,
    }
}

/// Appends the directories among the entries. Gives false if there is no room for all of them;
/// then `next` has only some.
fn add_among(next: &mut Vec<Place>, folder: &Folder, room: usize) -> Result<bool, AllocError>
    ensures added { IfOk result (λ fits. fits ≡ true → next.new.items
        ≡ next.old.items ++ directories_among folder.now.place folder.now.entries.items) }
    ensures few { IfOk result (λ fits. fits ≡ true → length next.old.items ≤ room
        → length next.new.items ≤ room) }
    ensures many { IfOk result (λ fits. fits ≡ false → room < length (next.old.items
        ++ directories_among folder.now.place folder.now.entries.items)) }
{
    for entry in &folder.entries {
        if is_directory(folder, entry) {
            if next.len() >= room {
                return Ok(false);
            }
            next.push(folder.place.child(&entry.name)?)?;
        }
    }
    Ok(true)
}

/// Lists a directory of the hierarchy and appends the directories of the hierarchy right below it,
/// in order. Gives false if there is no room for all of them; then `next` has only some.
pub(crate) fn add_below<T: Tree>(
    store: &mut T,
    place: &Place,
    next: &mut Vec<Place>,
    room: usize,
) -> Result<bool, Fault>
    ensures fair { IfOk result (λ fits. fits ≡ true
        → AddsBelow place.now room next.old.items next.new.items) }
    ensures told { IfTold T.told (T.state store.old) (λ root.
        is_listable root place.now ≡ true → MatchResult result
        (λ fits. AddsAll root place.now room next.old.items next.new.items fits
        × ListsAll root (T.state store.old) (T.state store.new) (place.now ∷ []))
        (λ why. ListsStop root (T.state store.old) (T.state store.new) (place.now ∷ []) why)) }
{
    let mut folder = list(store, place.try_clone()?)?;
    if !leads_on_from(&folder) {
        return Ok(true);
    }
    sort(&mut folder.entries);
    Ok(add_among(next, &folder, room)?)
}
