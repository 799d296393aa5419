//! The storage root: its lines, and its listing if it is entered.
ghost use Rattle.std.specs.Prelude.{◌≡◌, ◌∷◌, [], false, IfOk};
ghost use Rattle.ocfl_tree.specs.{StorageRoot.{StorageRoot}, Store.{IfTold}};
ghost use Rattle.ocfl_report.specs.declared.further.Further.{Further};
ghost use Rattle.ocfl_inventory.specs.Note.{plain};
ghost use Rattle.ocfl_inventory.specs.Declaration.{declaration_name as declaration_name_of, known};
ghost use Rattle.ocfl_inventory.specs.{Entries.{meaning}, Sidecar.{side_limit}};
ghost use Rattle.ocfl_rules.specs.{Zone.{is_known}, Head.{root_notes_by}};
ghost use Rattle.ocfl_inventory.specs.declared.declaration.Level.TheVariants as level;
ghost use Rattle.ocfl_item.specs.{HeadFiles.{OpensJust}, Internal.HeadFiles.{IsFileAt}};
ghost use Rattle.ocfl_item.specs.{Pending.{IsPending}, Meeting.{IsFairVisit, Visits}};
ghost use Rattle.ocfl_item.specs.Internal.Visiting.{IsBase};

use crate::declarations::{is_exact, stopped_lines};
use crate::fault::Fault;
use crate::folder::{Folder, list};
use crate::lines::PlaceLines;
use crate::object::read_file;
use crate::pending::Pending;
use crate::visit::Visit;
use ocfl_digest::Bounded;
use ocfl_inventory::declaration::declaration;
use ocfl_inventory::{Declared, Level, SIDE_LIMIT, Version, declaration_name};
use ocfl_report::Code;
use ocfl_tree::{Place, Tree};
use std::alloc::{AllocError, Global};

/// The code of a storage root of known version (OCFL 1.1, 4.2 Root Conformance Declaration).
fn known_code(version: Version, declaration: &Option<Bounded>) -> Code
    ensures { (root : StorageRoot) → IsFileAt root (declaration_name_of level.Root version
        ∷ []) side_limit declaration.now
        → plain result ∷ [] ≡ root_notes_by root (known version) }
{
    if is_exact(Level::Root, version, declaration) {
        return Code::Clean;
    }
    Code::E080
}

/// The item of a storage root of known version.
fn known_item<T: Tree>(store: &mut T, folder: &Folder, version: Version) -> Result<Pending, Fault>
    ensures place { IfOk result (λ item. item.place ≡ folder.now.place) }
    ensures told { IfTold T.told (T.state store.old) (λ root.
        (further : Further)
        → IsBase root folder.now.place folder.now.entries.items (Declared.One version)
        → IfOk result (λ item. IsPending further root item)) }
    ensures opened { IfTold T.told (T.state store.old) (λ root.
        (further : Further)
        → IsBase root folder.now.place folder.now.entries.items (Declared.One version)
        → OpensJust further root (T.state store.old) (T.state store.new) folder.now.place
        (declaration_name_of level.Root version ∷ []) result) }
{
    let name = declaration_name(Level::Root, version);
    let code = known_code(version, &read_file(store, folder, name, SIDE_LIMIT)?);
    let lines = PlaceLines::plain(folder.alloc(), folder.place.try_clone()?, code)?;
    Ok(Pending::of_lines(lines))
}

/// The item of a storage root that is not of one known version.
fn stopped_item(folder: &Folder, declared: Declared) -> Result<Pending, AllocError>
    ensures place { IfOk result (λ item. item.place ≡ folder.now.place) }
    ensures told { (further : Further) (root : StorageRoot)
        → IsBase root folder.now.place folder.now.entries.items declared
        → is_known (meaning level.Root folder.now.entries.items declared) ≡ false
        → IfOk result (λ item. IsPending further root item) }
{
    let lines = stopped_lines(folder, Level::Root, declared)?;
    Ok(Pending::of_lines(lines))
}

/// The storage root as the walk meets it (OCFL 1.1, 4 OCFL Storage Root).
pub fn visit_base<T: Tree>(alloc: Global, store: &mut T) -> Result<Visit, Fault>
    ensures fair { IfOk result (λ v. IsFairVisit [] v) }
    ensures told { IfTold T.told (T.state store.old) (λ root.
        (further : Further)
        → Visits further root (T.state store.old) (T.state store.new) [] result) }
{
    let folder = list(store, Place::root(alloc))?;
    match declaration(&folder.entries, Level::Root) {
        Declared::One(version) => {
            let item = known_item(store, &folder, version)?;
            Ok(Visit::of_folder(Some(item), folder))
        }
        declared => {
            let item = stopped_item(&folder, declared)?;
            Ok(Visit::of_item(Some(item)))
        }
    }
}
