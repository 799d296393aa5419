//! An object's own files: its declaration, its inventory and the sidecars. They are read for its
//! head with its table, or for the table alone; a file of the storage root, and the sidecars in a
//! version directory, are read in the same way.
ghost use Rattle.std.specs.Prelude.{◌≡◌, ◌∷◌, ◌++◌, [], true, false, IfOk, IfSome, None};
ghost use Rattle.std.specs.Prelude.{MatchOption, MatchResult, OnOk, not, option_map};
ghost use Rattle.ocfl_tree.specs.{StorageRoot.{file_at}, Listing.{IsListing, kind_at, kind_in}};
ghost use Rattle.ocfl_tree.specs.Store.{IfTold};
ghost use Rattle.ocfl_report.specs.declared.further.Further.{Further as ModelFurther};
ghost use Rattle.ocfl_inventory.specs.Note.{plain};
ghost use Rattle.ocfl_inventory.specs.Declaration.{declaration_name as declaration_name_of};
ghost use Rattle.ocfl_inventory.specs.Sidecar.{side_limit};
ghost use Rattle.ocfl_inventory.specs.Table.{IsFit, table_of};
ghost use Rattle.ocfl_digest.specs.declared.algorithm.Algorithm.TheVariants.{Sha256, Sha512};
ghost use Rattle.ocfl_inventory.specs.declared.declaration.Level.TheVariants as level;
ghost use Rattle.ocfl_rules.specs.Head.{inventory_file_notes, is_exact_declaration, on};
ghost use Rattle.ocfl_rules.specs.Head.{sidecar_name as sidecar_name_of};
ghost use Rattle.ocfl_rules.specs.Trail.{is_meta};
ghost use Rattle.ocfl_rules.specs.Zone.{inventory_name, object_declared, table_at};
ghost use Rattle.ocfl_item.specs.HeadFiles.{FilesStop, OpensJust, ReadsFiles};
ghost use Rattle.ocfl_item.specs.Internal.HeadFiles.{HaveSidecars, IsFileAt, ReadsFile};
ghost use Rattle.ocfl_item.specs.Internal.HeadFiles.{head_files, inventory_files, table_in};
ghost use Rattle.ocfl_item.specs.Root.{root_at, root_by, root_in, root_view};
ghost use Rattle.ocfl_item.specs.{Internal.Lines.{Adds}, Ways.{IsObject}};
ghost use Rattle.ocfl_item.specs.Internal.Ways.{IsDeclared, IsHeadOf, IsListedObject, is_file_kind};

use crate::declarations::stopped_lines;
use crate::fault::Fault;
use crate::folder::{Folder, fault_at};
use crate::head_lines::{Sidecars, add_clean, add_declaration, add_inventory};
use crate::lines::PlaceLines;
use crate::names::{INVENTORY_NAME, sidecar_name};
use crate::root::{RootInventory, add_root_note, root_of};
use ocfl_digest::{Algorithm, Bounded, read_bounded};
use ocfl_inventory::{
    Declared, Level, SIDE_LIMIT, Table, Version, declaration_name, read_inventory,
};
use ocfl_report::{Code, Further};
use ocfl_tree::{Entry, Kind, Name, Place, Tree, is_text};
use std::alloc::{AllocError, Global};

/// An inventory of more bytes is not read.
pub(crate) const INVENTORY_LIMIT: usize = 268_435_456;

/// The name of the file of this name, if one is listed.
fn file_named<'f>(entries: &'f [Entry], name: &str) -> Option<&'f Name>
    ensures { MatchOption result (is_file_kind (kind_in entries.now name.now) ≡ false)
        (λ n. (n.now ≡ name.now) × (is_file_kind (kind_in entries.now name.now) ≡ true)) }
{
    for entry in entries {
        if is_text(entry.name.as_str(), name) {
            return match entry.kind {
                Kind::File => Some(&entry.name),
                Kind::Dir | Kind::Other => None,
            };
        }
    }
    None
}

/// The place of the file of this name, if it is among some entries of a directory.
fn place_of_file(
    directory: &Place,
    entries: &[Entry],
    name: &str,
) -> Result<Option<Place>, AllocError>
    ensures { IfOk result (λ o. MatchOption o (is_file_kind (kind_in entries.now name.now) ≡ false)
        (λ place. (place ≡ directory.now ++ name.now ∷ [])
        × (is_file_kind (kind_in entries.now name.now) ≡ true))) }
{
    let Some(name) = file_named(entries, name) else {
        return Ok(None);
    };
    Ok(Some(directory.child(name)?))
}

/// What a file of a directory holds within a limit, if it is among some of its entries.
fn read_among<T: Tree>(
    alloc: Global,
    store: &mut T,
    directory: &Place,
    entries: &[Entry],
    name: &str,
    limit: usize,
) -> Result<Option<Bounded>, Fault>
    ensures told { IfTold T.told (T.state store.old) (λ root.
        (further : ModelFurther)
        → kind_in entries.now name.now ≡ kind_at root directory.now name.now
        → is_meta further root (directory.now ++ name.now ∷ []) ≡ true
        → ReadsFile further root (T.state store.old) (T.state store.new) directory.now name.now
        limit result) }
{
    let Some(place) = place_of_file(directory, entries, name)? else {
        return Ok(None);
    };
    match read_bounded(alloc, store, &place, limit) {
        Ok(file) => Ok(Some(file)),
        Err(trouble) => Err(fault_at(place, trouble)),
    }
}

/// What a file of a directory that was listed holds within a limit, if it is there.
pub(crate) fn read_file<T: Tree>(
    store: &mut T,
    folder: &Folder,
    name: &str,
    limit: usize,
) -> Result<Option<Bounded>, Fault>
    ensures told { IfTold T.told (T.state store.old) (λ root.
        (further : ModelFurther) → IsListing root folder.now.place folder.now.entries.items
        → is_meta further root (folder.now.place ++ name.now ∷ []) ≡ true
        → ReadsFile further root (T.state store.old) (T.state store.new) folder.now.place name.now
        limit result) }
{
    read_among(
        folder.alloc(),
        store,
        &folder.place,
        &folder.entries,
        name,
        limit,
    )
}

/// What the sidecars of a directory hold that are among some of its entries.
pub(crate) fn sidecars_among<T: Tree>(
    alloc: Global,
    store: &mut T,
    directory: &Place,
    entries: &[Entry],
) -> Result<Sidecars, Fault>
    ensures told { IfTold T.told (T.state store.old) (λ root.
        (further : ModelFurther) → HaveSidecars further root directory.now entries.now
        → MatchResult result
        (λ sidecars. ReadsFiles further root (T.state store.old) (T.state store.new) directory.now
        (sidecar_name_of Sha256 ∷ sidecar_name_of Sha512 ∷ [])
        × IsFileAt root (directory.now ++ sidecar_name_of Sha256 ∷ []) side_limit sidecars.short
        × IsFileAt root (directory.now ++ sidecar_name_of Sha512 ∷ []) side_limit sidecars.long)
        (λ why. FilesStop further root (T.state store.old) (T.state store.new) directory.now
        (sidecar_name_of Sha256 ∷ sidecar_name_of Sha512 ∷ []) why)) }
{
    let short = read_among(
        alloc,
        store,
        directory,
        entries,
        sidecar_name(Algorithm::Sha256),
        SIDE_LIMIT,
    )?;
    let long = read_among(
        alloc,
        store,
        directory,
        entries,
        sidecar_name(Algorithm::Sha512),
        SIDE_LIMIT,
    )?;
    Ok(Sidecars { short, long })
}

/// What the sidecars of an object hold that are there.
fn read_sidecars<T: Tree>(store: &mut T, folder: &Folder) -> Result<Sidecars, Fault>
    ensures told { IfTold T.told (T.state store.old) (λ root.
        (further : ModelFurther) → IsListedObject root folder.now.place folder.now.entries.items
        → MatchResult result
        (λ sidecars. ReadsFiles further root (T.state store.old) (T.state store.new)
        folder.now.place (sidecar_name_of Sha256 ∷ sidecar_name_of Sha512 ∷ [])
        × IsFileAt root (folder.now.place ++ sidecar_name_of Sha256 ∷ []) side_limit sidecars.short
        × IsFileAt root (folder.now.place ++ sidecar_name_of Sha512 ∷ []) side_limit sidecars.long)
        (λ why. FilesStop further root (T.state store.old) (T.state store.new) folder.now.place
        (sidecar_name_of Sha256 ∷ sidecar_name_of Sha512 ∷ []) why)) }
{
    sidecars_among(folder.alloc(), store, &folder.place, &folder.entries)
}

/// Appends the lines of an object's inventory and its sidecars, and gives its table, and what it is
/// if that is asked for.
fn add_inventory_file<T: Tree>(
    store: &mut T,
    further: Further,
    folder: &Folder,
    lines: &mut PlaceLines,
) -> Result<(Option<Table>, Option<RootInventory>), Fault>
    ensures fit { IfOk result (λ read. IfSome read.0 (λ t. IsFit t)) }
    ensures place { OnOk result (lines.new.place ≡ lines.old.place) }
    ensures told { IfTold T.told (T.state store.old) (λ root.
        IsListedObject root folder.now.place folder.now.entries.items
        → IfOk result
        (λ read. (read.0 ≡ table_in (file_at root (folder.now.place ++ inventory_name ∷ [])))
        × (option_map root_view read.1
        ≡ root_in further (file_at root (folder.now.place ++ inventory_name ∷ [])))
        × Adds lines.old lines.new
        (inventory_file_notes root folder.now.place
        (file_at root (folder.now.place ++ inventory_name ∷ []))))) }
    ensures opened { IfTold T.told (T.state store.old) (λ root.
        IsListedObject root folder.now.place folder.now.entries.items
        → OpensJust further root (T.state store.old) (T.state store.new) folder.now.place
        (inventory_files root folder.now.place) result) }
{
    match read_file(store, folder, INVENTORY_NAME, INVENTORY_LIMIT)? {
        None => {
            lines.add_plain(Code::E063)?;
            Ok((None, None))
        }
        Some(Bounded::Over) => {
            lines.add_plain(Code::S02)?;
            Ok((None, None))
        }
        Some(Bounded::Whole(bytes)) => {
            let sidecars = read_sidecars(store, folder)?;
            Ok(add_inventory(lines, further, &bytes, &sidecars)?)
        }
    }
}

/// Appends the line of an object's declaration, if that is not exact.
fn add_declaration_file<T: Tree>(
    store: &mut T,
    folder: &Folder,
    lines: &mut PlaceLines,
    version: Version,
) -> Result<(), Fault>
    ensures place { OnOk result (lines.new.place ≡ lines.old.place) }
    ensures told { IfTold T.told (T.state store.old) (λ root.
        (further : ModelFurther) → IsListedObject root folder.now.place folder.now.entries.items
        → MatchResult result
        (λ _. ReadsFiles further root (T.state store.old) (T.state store.new) folder.now.place
        (declaration_name_of level.Object version ∷ [])
        × Adds lines.old lines.new
        (on (not (is_exact_declaration root folder.now.place level.Object version))
        (plain Code.E007)))
        (λ why. FilesStop further root (T.state store.old) (T.state store.new) folder.now.place
        (declaration_name_of level.Object version ∷ []) why)) }
{
    let name = declaration_name(Level::Object, version);
    let declaration = read_file(store, folder, name, SIDE_LIMIT)?;
    add_declaration(lines, version, &declaration)?;
    Ok(())
}

/// What is read of an object's head: its lines, and if they do not stop its table, and what the
/// root inventory is if that is asked for.
pub(crate) type HeadReading = (PlaceLines, Option<Table>, Option<RootInventory>);

/// The lines of an object as a whole, and what is known of its inventory if they do not stop (OCFL
/// 1.1, 3 OCFL Object). The inventory is read and parsed once for all of it, and the sidecars are
/// opened only if it is there within its limit.
pub(crate) fn head_lines<T: Tree>(
    store: &mut T,
    further: Further,
    folder: &Folder,
    declared: Declared,
) -> Result<HeadReading, Fault>
    ensures fit { IfOk result (λ p. IfSome p.1 (λ t. IsFit t)) }
    ensures place { IfOk result (λ p. p.0.place ≡ folder.now.place) }
    ensures told { IfTold T.told (T.state store.old) (λ root.
        IsDeclared root folder.now.place folder.now.entries.items declared
        → IfOk result (IsHeadOf further root folder.now.place)) }
    ensures opened { IfTold T.told (T.state store.old) (λ root.
        IsDeclared root folder.now.place folder.now.entries.items declared
        → OpensJust further root (T.state store.old) (T.state store.new) folder.now.place
        (head_files root folder.now.place (object_declared root folder.now.place)) result) }
{
    let Declared::One(version) = declared else {
        let lines = stopped_lines(folder, Level::Object, declared)?;
        return Ok((lines, None, None));
    };
    let mut lines = PlaceLines::new(folder.alloc(), folder.place.try_clone()?);
    add_declaration_file(store, folder, &mut lines, version)?;
    let (table, root) = add_inventory_file(store, further, folder, &mut lines)?;
    add_clean(&mut lines)?;
    add_root_note(&mut lines, further, &root)?;
    Ok((lines, table, root))
}

/// The table of an inventory, if nothing stops, and what it is if that is asked for.
fn read_table(
    alloc: Global,
    further: Further,
    bytes: &[u8],
) -> Result<(Option<Table>, Option<RootInventory>), AllocError>
    ensures table { IfOk result (λ read. read.0 ≡ table_of bytes.now) }
    ensures root { IfOk result (λ read. option_map root_view read.1
        ≡ root_by further bytes.now (table_of bytes.now)) }
    ensures fit { IfOk result (λ read. IfSome read.0 (λ t. IsFit t)) }
{
    let read = read_inventory(alloc, bytes)?;
    let head = read.head;
    let root = root_of(alloc, further, bytes, &read.table, head)?;
    Ok((read.table, root))
}

/// The table of an object, if its head does not stop, and what its root inventory is if that is
/// asked for. No file but the inventory is opened for them.
pub fn table_of_object<T: Tree>(
    alloc: Global,
    store: &mut T,
    further: Further,
    folder: &Folder,
) -> Result<(Option<Table>, Option<RootInventory>), Fault>
    ensures told { IfTold T.told (T.state store.old) (λ root.
        IsObject root folder.now.place folder.now.entries.items
        → IfOk result (λ read. (read.0 ≡ table_at root folder.now.place)
        × (option_map root_view read.1 ≡ root_at further root folder.now.place))) }
    ensures opened { IfTold T.told (T.state store.old) (λ root.
        IsObject root folder.now.place folder.now.entries.items
        → OpensJust further root (T.state store.old) (T.state store.new) folder.now.place
        (inventory_name ∷ []) result) }
    ensures fit { IfOk result (λ read. IfSome read.0 (λ t. IsFit t)) }
{
    match read_file(store, folder, INVENTORY_NAME, INVENTORY_LIMIT)? {
        Some(Bounded::Whole(bytes)) => Ok(read_table(alloc, further, &bytes)?),
        Some(Bounded::Over) => Ok((None, None)),
        None => Ok((None, None)),
    }
}
