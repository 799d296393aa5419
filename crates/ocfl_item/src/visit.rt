//! What is met at an entry of a directory.
ghost use Rattle.std.specs.Prelude.{◌≡◌, ◌≤◌, ◌∷◌, [], None, Some, true, IfOk, map, length};
ghost use Rattle.ocfl_tree.specs.{Place.{Place as ModelPlace}, StorageRoot.{StorageRoot}};
ghost use Rattle.ocfl_tree.specs.{Listing.{IsOrdinary}, Store.{IfTold}};
ghost use Rattle.ocfl_report.specs.declared.further.Further.{Further as ModelFurther};
ghost use Rattle.ocfl_inventory.specs.{Note.{plain}, Table.{Table as TableOf, named as digests_of}};
ghost use Rattle.ocfl_inventory.specs.TripleView.{named_view};
ghost use Rattle.ocfl_rules.specs.Zone.{is_listed_zone, max_listed_depth, zone};
ghost use Rattle.ocfl_rules.specs.{Lines.{listed_dir_notes}, Walk.{seen_names}};
ghost use Rattle.ocfl_item.specs.Internal.Ways.{IsDeclared};
ghost use Rattle.ocfl_item.specs.Internal.Content.{IsSight, content_at};
ghost use Rattle.ocfl_item.specs.Meeting.{IsFairVisit, IsVisit, Visits};
ghost use Rattle.ocfl_item.specs.Internal.Visiting.{HasRole, IsDirectoryAt, IsEntryAt, IsListedAt};
ghost use Rattle.ocfl_item.specs.Internal.Visiting.{IsPlainAt, IsUndeclaredAt, VisitsHead};

use crate::content::{content_item, content_item_at};
use crate::fault::Fault;
use crate::folder::{Folder, MAX_LISTED_DEPTH, list};
use crate::lines::PlaceLines;
use crate::object::head_lines;
use crate::pending::Pending;
use crate::role::Role;
use crate::root::RootInventory;
use crate::sight::Sight;
use ocfl_inventory::declaration::declaration;
use ocfl_inventory::{Declared, Level, Named, Table};
use ocfl_report::{Code, Further};
use ocfl_tree::{Entry, Kind, Place, Tree};
use std::alloc::{AllocError, Global};

/// What was met at a place.
#[derive(Debug, Drop)]
pub struct Visit {
    /// Its item, if it has lines.
    pub item: Option<Pending>,
    /// Its listing, if it is a directory that is entered.
    pub folder: Option<Folder>,
    /// Its table, if it is an object whose head does not stop.
    pub table: Option<Table>,
    /// What its root inventory is, if that is asked for and it has a table.
    pub root: Option<RootInventory>,
}

impl Visit {
    /// What is met at a place that is not entered.
    pub(crate) fn of_item(item: Option<Pending>) -> Visit
        ensures item { result.item ≡ item }
        ensures folder { result.folder ≡ None }
        ensures table { result.table ≡ None }
        ensures root { result.root ≡ None }
    {
        Visit {
            item,
            folder: None,
            table: None,
            root: None,
        }
    }

    /// What is met at a directory that is entered.
    pub(crate) fn of_folder(item: Option<Pending>, folder: Folder) -> Visit
        ensures item { result.item ≡ item }
        ensures folder { result.folder ≡ Some folder }
        ensures table { result.table ≡ None }
        ensures root { result.root ≡ None }
    {
        Visit {
            item,
            folder: Some(folder),
            table: None,
            root: None,
        }
    }
}

/// A place that has one line, whose detail is a dash.
fn visit_plain(alloc: Global, place: Place, code: Code) -> Result<Visit, AllocError>
    ensures fair { IfOk result (λ v. IsFairVisit place v) }
    ensures told { (further : ModelFurther) (root : StorageRoot)
        → IsPlainAt further root place (plain code ∷ [])
        → seen_names root place ≡ [] → IfOk result (λ v. IsVisit further root place v) }
{
    let lines = PlaceLines::plain(alloc, place, code)?;
    Ok(Visit::of_item(Some(Pending::of_lines(lines))))
}

/// A directory that is listed, whether it is empty or not.
fn visit_listed<T: Tree>(alloc: Global, store: &mut T, place: Place) -> Result<Visit, Fault>
    ensures fair { IfOk result (λ v. IsFairVisit place v) }
    ensures told { IfTold T.told (T.state store.old) (λ root.
        (further : ModelFurther) → IsListedAt root place
        → IsPlainAt further root place (listed_dir_notes root place [])
        → Visits further root (T.state store.old) (T.state store.new) place result) }
{
    if place.depth() > MAX_LISTED_DEPTH {
        return Ok(visit_plain(alloc, place, Code::S05)?);
    }
    let folder = list(store, place)?;
    Ok(Visit::of_folder(None, folder))
}

/// An object: its head, and what is below if that does not stop.
fn visit_object<T: Tree>(
    store: &mut T,
    further: Further,
    folder: Folder,
    declared: Declared,
) -> Result<Visit, Fault>
    ensures fair { length folder.place ≤ max_listed_depth → IsOrdinary folder.entries.items
        → IfOk result (λ v. IsFairVisit folder.place v) }
    ensures told { IfTold T.told (T.state store.old) (λ root.
        IsDeclared root folder.place folder.entries.items declared
        → VisitsHead further root (T.state store.old) (T.state store.new) folder.place result) }
{
    let (lines, table, root) = head_lines(store, further, &folder, declared)?;
    let item = Some(Pending::of_lines(lines));
    match table {
        Some(table) => Ok(Visit {
            item,
            folder: Some(folder),
            table: Some(table),
            root,
        }),
        None => Ok(Visit::of_item(item)),
    }
}

/// A directory of the storage hierarchy that declares nothing.
fn visit_undeclared(folder: Folder) -> Result<Visit, AllocError>
    ensures fair { length folder.place ≤ max_listed_depth → IsOrdinary folder.entries.items
        → IfOk result (λ v. IsFairVisit folder.place v) }
    ensures told { (further : ModelFurther) (root : StorageRoot)
        → IsUndeclaredAt root folder.place folder.entries.items
        → IfOk result (λ v. IsVisit further root folder.place v) }
{
    if folder.entries.is_empty() {
        return visit_plain(folder.alloc(), folder.place, Code::E073);
    }
    Ok(Visit::of_folder(None, folder))
}

/// A directory of the storage hierarchy, or an object in it.
fn visit_directory<T: Tree>(
    alloc: Global,
    store: &mut T,
    further: Further,
    place: Place,
) -> Result<Visit, Fault>
    ensures fair { IfOk result (λ v. IsFairVisit place v) }
    ensures told { IfTold T.told (T.state store.old) (λ root.
        IsDirectoryAt root place
        → Visits further root (T.state store.old) (T.state store.new) place result) }
{
    if place.depth() > MAX_LISTED_DEPTH {
        return Ok(visit_plain(alloc, place, Code::S05)?);
    }
    let folder = list(store, place)?;
    match declaration(&folder.entries, Level::Object) {
        Declared::None => Ok(visit_undeclared(folder)?),
        declared => visit_object(store, further, folder, declared),
    }
}

/// What is met at an entry of this role.
pub(crate) fn visit_by_role<T: Tree>(
    alloc: Global,
    store: &mut T,
    further: Further,
    place: Place,
    role: Role,
) -> Result<Visit, Fault>
    ensures fair { IfOk result (λ v. IsFairVisit place v) }
    ensures told { IfTold T.told (T.state store.old) (λ root.
        HasRole further root place role
        → Visits further root (T.state store.old) (T.state store.new) place result) }
{
    match role {
        Role::LeftAlone => Ok(Visit::of_item(None)),
        Role::Plain(code) => Ok(visit_plain(alloc, place, code)?),
        Role::Listed => visit_listed(alloc, store, place),
        Role::Directory => visit_directory(alloc, store, further, place),
    }
}

/// A content place that is not entered.
fn visit_unentered(
    alloc: Global,
    place: Place,
    named: Vec<Named>,
    sight: Sight,
) -> Result<Visit, AllocError>
    ensures fair { IfOk result (λ v. IsFairVisit place v) }
    ensures told { (further : ModelFurther) (root : StorageRoot) (t : TableOf) (q : ModelPlace)
        → content_at root place ≡ Some (t, q)
        → map named_view named.items ≡ digests_of t q → IsSight root place sight
        → seen_names root place ≡ [] → IfOk result (λ v. IsVisit further root place v) }
{
    Ok(Visit::of_item(content_item(alloc, place, named, sight)?))
}

/// A directory within a content directory.
fn visit_content_directory<T: Tree>(
    alloc: Global,
    store: &mut T,
    place: Place,
    named: Vec<Named>,
) -> Result<Visit, Fault>
    ensures fair { IfOk result (λ v. IsFairVisit place v) }
    ensures told { IfTold T.told (T.state store.old) (λ root.
        (further : ModelFurther) → IsListedAt root place → (t : TableOf) (q : ModelPlace)
        → content_at root place ≡ Some (t, q) → map named_view named.items ≡ digests_of t q
        → Visits further root (T.state store.old) (T.state store.new) place result) }
{
    if place.depth() > MAX_LISTED_DEPTH {
        return Ok(visit_unentered(alloc, place, named, Sight::DeepDir)?);
    }
    let folder = list(store, place)?;
    let sight = if folder.entries.is_empty() {
        Sight::EmptyDir
    } else {
        Sight::Dir
    };
    let item = content_item_at(alloc, &folder.place, named, sight)?;
    Ok(Visit::of_folder(item, folder))
}

/// An entry within a content directory (OCFL 1.1, 3.3.1 Content Directory).
pub(crate) fn visit_in_content<T: Tree>(
    alloc: Global,
    store: &mut T,
    place: Place,
    entry: &Entry,
    named: Vec<Named>,
) -> Result<Visit, Fault>
    ensures fair { IfOk result (λ v. IsFairVisit place v) }
    ensures told { IfTold T.told (T.state store.old) (λ root.
        (further : ModelFurther) → IsEntryAt root place entry.now.kind
        → is_listed_zone root (zone root place) ≡ true
        → (t : TableOf) (q : ModelPlace) → content_at root place ≡ Some (t, q)
        → map named_view named.items ≡ digests_of t q
        → Visits further root (T.state store.old) (T.state store.new) place result) }
{
    match entry.kind {
        Kind::File => Ok(visit_unentered(alloc, place, named, Sight::File)?),
        Kind::Other => Ok(visit_unentered(alloc, place, named, Sight::Other)?),
        Kind::Dir => visit_content_directory(alloc, store, place, named),
    }
}
