//! What is met at a place below the storage root, by the part of the root that it is in.
ghost use Rattle.std.specs.Prelude.{◌≡◌, ◌∷◌, ◌++◌, [], None, Some, true, IfOk, IfSome, drop};
ghost use Rattle.std.specs.Prelude.{length, map};
ghost use Rattle.ocfl_tree.specs.{Place.{Place as ModelPlace, Text}, StorageRoot.{StorageRoot}};
ghost use Rattle.ocfl_tree.specs.Store.{IfTold};
ghost use Rattle.ocfl_report.specs.declared.further.Further.{Further as ModelFurther};
ghost use Rattle.ocfl_inventory.specs.{Table.{named as digests_of}, TripleView.{named_view}};
ghost use Rattle.ocfl_inventory.specs.ListedPath.{is_version_name as is_version_text};
ghost use Rattle.ocfl_rules.specs.Zone.{inside, seen, zone};
ghost use Rattle.ocfl_item.specs.Around.{AreBehind, IsMet, IsNamedIn, IsTableAround};
ghost use Rattle.ocfl_item.specs.Meeting.{IsFairVisit, IsItemAt, Visits};

use crate::content::content_item_at;
use crate::fault::Fault;
use crate::inventory::visit_inventory;
use crate::pending::Pending;
use crate::role::{is_checked, role_in_hierarchy, role_in_object, role_in_version};
use crate::root::RootInventory;
use crate::sight::Sight;
use crate::visit::{Visit, visit_by_role, visit_in_content};
use ocfl_inventory::{Named, Table};
use ocfl_report::Further;
use ocfl_tree::{Entry, Place, Tree};
use std::alloc::{AllocError, Global};

/// The object that a place is in, if its head does not stop.
#[derive(Debug, Drop)]
pub struct Around {
    pub place: Place,
    pub table: Table,
    /// What its root inventory is, if that is asked for.
    pub root: Option<RootInventory>,
}

impl Around {
    /// The digests that the object's table names for a place in it.
    fn named_at(&self, alloc: Global, place: &Place) -> Result<Vec<Named>, AllocError>
        ensures { IfOk result (λ named. map named_view named.items
            ≡ digests_of self.now.table (drop (length self.now.place) place.now)) }
    {
        let inner = place.behind(self.place.depth())?;
        self.table.named(alloc, &inner)
    }
}

/// What is met at an entry of a version directory (OCFL 1.1, 3.3 Version Directories).
fn visit_in_version<T: Tree>(
    alloc: Global,
    store: &mut T,
    further: Further,
    around: &Around,
    place: Place,
    entry: &Entry,
    behind: &[Entry],
) -> Result<Visit, Fault>
    ensures fair { IfOk result (λ v. IsFairVisit place v) }
    ensures told { IfTold T.told (T.state store.old) (λ root.
        (d : ModelPlace) (v : Text) → IsMet further root d (Some around.now) entry.now place
        → d ≡ around.now.place ++ v ∷ []
        → zone root place ≡ inside around.now.place (v ∷ entry.now.name ∷ [])
        → is_version_text v ≡ true → AreBehind further root d entry.now behind.now
        → Visits further root (T.state store.old) (T.state store.new) place result) }
{
    if is_checked(further, entry) {
        return visit_inventory(alloc, store, &around.root, place, behind);
    }
    let role = role_in_version(entry, &around.table);
    visit_by_role(alloc, store, further, place, role)
}

/// What is met at an entry, by the part of the storage root that it is in, and by the entries that
/// come after it in its directory: the sidecars of an inventory are among these.
pub fn visit_entry<T: Tree>(
    alloc: Global,
    store: &mut T,
    further: Further,
    around: &Option<Around>,
    place: Place,
    entry: &Entry,
    behind: &[Entry],
) -> Result<Visit, Fault>
    ensures fair { IfOk result (λ v. IsFairVisit place v) }
    ensures told { IfTold T.told (T.state store.old) (λ root.
        (d : ModelPlace) → IsMet further root d around.now entry.now place
        → AreBehind further root d entry.now behind.now
        → Visits further root (T.state store.old) (T.state store.new) place result) }
{
    let Some(around) = around else {
        let role = role_in_hierarchy(&place, entry);
        return visit_by_role(alloc, store, further, place, role);
    };
    match place.depth().saturating_sub(around.place.depth()) {
        1 => visit_by_role(alloc, store, further, place, role_in_object(entry)),
        2 => visit_in_version(alloc, store, further, around, place, entry, behind),
        _ => {
            let named = around.named_at(alloc, &place)?;
            visit_in_content(alloc, store, place, entry, named)
        }
    }
}

/// What is met at a place that is not seen: only a path of the table has lines there.
pub fn visit_path(
    alloc: Global,
    around: &Option<Around>,
    place: &Place,
) -> Result<Option<Pending>, AllocError>
    ensures fair { IfOk result (λ o. IfSome o (λ p. p.place ≡ place.now)) }
    ensures named { IfOk result (λ o. IfSome o (λ _. IsNamedIn place.now around.now)) }
    ensures told { (further : ModelFurther) (root : StorageRoot)
        → IsTableAround further root place.now around.now
        → seen root place.now ≡ None
        → IfOk result (λ o. IsItemAt further root place.now o) }
{
    let Some(around) = around else {
        return Ok(None);
    };
    let named = around.named_at(alloc, place)?;
    if named.is_empty() {
        return Ok(None);
    }
    content_item_at(alloc, place, named, Sight::Nothing)
}
