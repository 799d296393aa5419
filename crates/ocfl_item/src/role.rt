//! What an entry is to the walk, by its kind and its name, in each part of the storage root.
ghost use Rattle.std.specs.Prelude.{◌≡◌, ◌∷◌, ◌||◌, codes, [], None, Some, false, true};
ghost use Rattle.ocfl_tree.specs.Place.{Place as ModelPlace, Text, text_eq};
ghost use Rattle.ocfl_tree.specs.StorageRoot.{StorageRoot};
ghost use Rattle.ocfl_report.specs.declared.further.Further.{Further as ModelFurther};
ghost use Rattle.ocfl_inventory.specs.Declaration.{is_declaration};
ghost use Rattle.ocfl_inventory.specs.ListedPath.{is_version_name as is_version_text};
ghost use Rattle.ocfl_inventory.specs.Table.{Table as TableOf};
ghost use Rattle.ocfl_inventory.specs.declared.declaration.Level.TheVariants as level;
ghost use Rattle.ocfl_rules.specs.Zone.{inside, table_at, zone};
ghost use Rattle.ocfl_rules.specs.Lines.{is_inventory_or_sidecar as is_beside_inventory};
ghost use Rattle.ocfl_item.specs.{Around.{IsMet}, Internal.Visiting.{HasRole, IsEntryAt}};
ghost use Rattle.ocfl_item.specs.Internal.Visiting.{is_checked as is_checked_entry};

use crate::folder::names_extensions;
use crate::names::{INVENTORY_NAME, is_sidecar_name};
use ocfl_inventory::{Level, Table, is_declaration_name, is_version_name};
use ocfl_report::{Code, Further};
use ocfl_tree::{Entry, Kind, Place, is_text};

/// What an entry is to the walk.
#[derive(Clone, Copy)]
pub(crate) enum Role {
    /// It has no lines and is not entered.
    LeftAlone,
    /// It has one line, whose detail is a dash, and is not entered.
    Plain(Code),
    /// A directory that is listed, whether it is empty or not.
    Listed,
    /// A directory of the storage hierarchy, or an object in it.
    Directory,
}

/// The role of an entry of a directory of the storage hierarchy (OCFL 1.1, 4.3 Storage
/// Hierarchies).
pub(crate) fn role_in_hierarchy(place: &Place, entry: &Entry) -> Role
    ensures { (further : ModelFurther) (root : StorageRoot) (d : ModelPlace)
        → IsMet further root d None entry.now place.now → HasRole further root place.now result }
{
    let above = place.depth().saturating_sub(1);
    match entry.kind {
        Kind::File if above > 0 => Role::Plain(Code::E072),
        Kind::File => Role::LeftAlone,
        Kind::Other => Role::Plain(Code::S04),
        Kind::Dir if names_extensions(above, &entry.name) => Role::LeftAlone,
        Kind::Dir => Role::Directory,
    }
}

fn is_inventory_or_sidecar(name: &str) -> bool
    ensures { result ≡ is_beside_inventory name.now }
{
    is_text(name, INVENTORY_NAME) || is_sidecar_name(name)
}

/// Whether an object's root may hold a file of this name.
fn is_file_of_object(name: &str) -> bool
    ensures { result ≡ (is_declaration level.Object name.now || is_beside_inventory name.now) }
{
    is_declaration_name(Level::Object, name) || is_inventory_or_sidecar(name)
}

/// Whether a directory of an object's root is left alone.
fn is_left_alone(name: &str) -> bool
    ensures { result ≡ (text_eq name.now (codes "extensions") || text_eq name.now (codes "logs")) }
{
    is_text(name, "extensions") || is_text(name, "logs")
}

/// The role of an entry of an object's root (OCFL 1.1, 3.1 Object Structure).
pub(crate) fn role_in_object(entry: &Entry) -> Role
    ensures { (further : ModelFurther) (root : StorageRoot) (e : ModelPlace)
        → IsEntryAt root e entry.now.kind
        → (o : ModelPlace) (t : TableOf) → zone root e ≡ inside o (entry.now.name ∷ [])
        → table_at root o ≡ Some t → HasRole further root e result }
{
    let name = entry.name.as_str();
    match entry.kind {
        Kind::File if is_file_of_object(name) => Role::LeftAlone,
        Kind::File => Role::Plain(Code::E001),
        Kind::Other => Role::Plain(Code::S04),
        Kind::Dir if is_version_name(name) => Role::Listed,
        Kind::Dir if is_left_alone(name) => Role::LeftAlone,
        Kind::Dir => Role::Plain(Code::E001),
    }
}

/// Whether an entry of a version directory is an inventory that is checked.
pub(crate) fn is_checked(further: Further, entry: &Entry) -> bool
    ensures { result ≡ is_checked_entry further entry.now.name entry.now.kind }
{
    match (further, entry.kind) {
        (Further::Inventories, Kind::File) => is_text(entry.name.as_str(), INVENTORY_NAME),
        (Further::Inventories, Kind::Dir | Kind::Other) | (Further::Nothing, _) => false,
    }
}

/// The role of an entry of a version directory, if it is no inventory that is checked (OCFL 1.1,
/// 3.3 Version Directories).
pub(crate) fn role_in_version(entry: &Entry, table: &Table) -> Role
    ensures { (further : ModelFurther) (root : StorageRoot) (e : ModelPlace)
        → IsEntryAt root e entry.now.kind
        → is_checked_entry further entry.now.name entry.now.kind ≡ false
        → (o : ModelPlace) (version : Text) → zone root e ≡ inside o (version ∷ entry.now.name ∷ [])
        → table_at root o ≡ Some table.now → is_version_text version ≡ true
        → HasRole further root e result }
{
    let name = entry.name.as_str();
    match entry.kind {
        Kind::File if is_inventory_or_sidecar(name) => Role::LeftAlone,
        Kind::File => Role::Plain(Code::E015),
        Kind::Other => Role::Plain(Code::S04),
        Kind::Dir if is_text(name, table.content_directory()) => Role::Listed,
        Kind::Dir => Role::LeftAlone,
    }
}
