//! Directories as a store lists them, from the storage root down.
ghost use Rattle.std.specs.Prelude.{◌≡◌, ◌&&◌, ◌∷◌, [], nat_le, suc, length, true, IfOk};
ghost use Rattle.std.specs.Prelude.{MatchResult, codes, nat_eq};
ghost use Rattle.ocfl_tree.specs.{Place.{text_eq}, Listing.{IsOrdinary, kind_in}, Store.{IfTold}};
ghost use Rattle.ocfl_report.specs.declared.further.Further.{Further};
ghost use Rattle.ocfl_inventory.specs.Declaration.{declared as declared_by_files};
ghost use Rattle.ocfl_inventory.specs.Entries.{file_names};
ghost use Rattle.ocfl_rules.specs.Zone.{max_listed_depth};
ghost use Rattle.ocfl_item.specs.Ways.{Stops, Enters, IsHead, is_extensions_name};
ghost use Rattle.ocfl_item.specs.Ways.{is_dir_kind, is_listable};
ghost use Rattle.ocfl_item.specs.Internal.Ways.{fault_by, head_by as head_by_declared};

use crate::fault::Fault;
use ocfl_inventory::declaration::declaration;
use ocfl_inventory::{Declared, Level};
use ocfl_tree::{Entry, Kind, Name, Place, Tree, Trouble, is_text};
use std::alloc::Global;
use std::default::MadeWith;

/// The most names that the place of a listed directory may have.
pub(crate) const MAX_LISTED_DEPTH: usize = 127;

/// A directory that was listed.
#[derive(Debug, Drop)]
pub struct Folder {
    pub place: Place,
    pub entries: Vec<Entry>,
}

impl MadeWith<Global> for Folder {
    fn made_with(alloc: Global) -> Folder {
        Folder {
            place: Place::root(alloc),
            entries: Vec::new(alloc),
        }
    }
}

impl Folder {
    /// The allocator of the entries.
    pub(crate) fn alloc(&self) -> Global {
        *self.entries.allocator()
    }
}

/// What the declarations in a directory say.
#[derive(Clone, Copy, Debug, PartialEq, Eq)]
pub enum Head {
    Undeclared,
    /// One declaration, of a known version.
    Known,
    /// Several, or one of a version that is not known.
    Stops,
}

/// The kind of the entry of a name.
pub(crate) fn kind_of(entries: &[Entry], name: &str) -> Option<Kind>
    ensures { result ≡ kind_in entries.now name.now }
{
    for entry in entries {
        if is_text(entry.name.as_str(), name) {
            return Some(entry.kind);
        }
    }
    None
}

/// The fault if a store did not answer at a place.
pub(crate) fn fault_at(place: Place, trouble: Trouble) -> Fault
    ensures { result ≡ fault_by place trouble }
{
    match trouble {
        Trouble::Device | Trouble::Absent => Fault::Store(place),
        Trouble::Memory => Fault::Memory,
    }
}

/// Lists a directory that is there.
pub fn list<T: Tree>(store: &mut T, place: Place) -> Result<Folder, Fault>
    ensures place { IfOk result (λ folder. folder.place ≡ place) }
    ensures ordinary { IfOk result (λ folder. IsOrdinary folder.entries.items) }
    ensures told { IfTold T.told (T.state store.old) (λ root.
        (further : Further) → is_listable root place ≡ true → MatchResult result
        (λ folder. Enters root (T.state store.old) (T.state store.new) place
        folder.place folder.entries.items)
        (λ why. Stops further root (T.state store.old) (T.state store.new) (place ∷ []) [] why)) }
{
    match store.list(&place) {
        Ok(entries) => Ok(Folder { place, entries }),
        Err(trouble) => Err(fault_at(place, trouble)),
    }
}

/// Whether a name leads to a directory that may be listed.
pub fn can_enter(folder: &Folder, name: &Name) -> bool
    ensures { result ≡ (nat_le (suc (length folder.now.place)) max_listed_depth
        && is_dir_kind (kind_in folder.now.entries.items name.now)) }
{
    match kind_of(&folder.entries, name.as_str()) {
        Some(Kind::Dir) => folder.place.depth() < MAX_LISTED_DEPTH,
        Some(Kind::File | Kind::Other) | None => false,
    }
}

fn head_by(declared: Declared) -> Head
    ensures { result ≡ head_by_declared declared }
{
    match declared {
        Declared::None => Head::Undeclared,
        Declared::One(_) => Head::Known,
        Declared::Unknown(_) | Declared::Several => Head::Stops,
    }
}

pub fn head_of(folder: &Folder, level: Level) -> Head
    ensures { IsHead (declared_by_files level (file_names folder.now.entries.items)) result }
{
    head_by(declaration(&folder.entries, level))
}

/// Whether a name in a directory at this depth is that of the storage root's extensions.
pub(crate) fn names_extensions(depth: usize, name: &Name) -> bool
    ensures { result ≡ (nat_eq depth 0 && text_eq name.now (codes "extensions")) }
{
    depth == 0 && is_text(name.as_str(), "extensions")
}

/// Whether a name leads to the extensions of the storage root.
pub fn is_extensions(folder: &Folder, name: &Name) -> bool
    ensures { result ≡ is_extensions_name folder.now.place name.now }
{
    names_extensions(folder.place.depth(), name)
}
