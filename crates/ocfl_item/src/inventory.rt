//! The inventory in a version directory: it is read for itself, and compared with the digests of
//! its sidecars and of the root inventory (OCFL 1.1, 3.3 Version Directories and 3.6 Inventory
//! Digest).
ghost use Rattle.std.specs.Prelude.{◌≡◌, ◌∷◌, ◌++◌, [], IfOk, OnOk, Some, map, option_map};
ghost use Rattle.ocfl_tree.specs.{Place.{Place as ModelPlace, Text}, StorageRoot.{StorageRoot}};
ghost use Rattle.ocfl_tree.specs.Store.{IfTold};
ghost use Rattle.ocfl_inventory.specs.Sidecar.{side_limit, sum_view};
ghost use Rattle.ocfl_report.specs.declared.further.Further.TheVariants.{Inventories};
ghost use Rattle.ocfl_rules.specs.Head.{sidecar_at, sidecar_name};
ghost use Rattle.ocfl_rules.specs.Inventories.{beside_notes, expected_beside, expected_by_root};
ghost use Rattle.ocfl_rules.specs.Inventories.{expected_digest, expected_of, form_notes};
ghost use Rattle.ocfl_rules.specs.Inventories.{is_text as is_same_text, root_inventory};
ghost use Rattle.ocfl_item.specs.{Around.{TellOfSidecars}, Meeting.{IsFairVisit, Visits}};
ghost use Rattle.ocfl_item.specs.{Pending.{IsPending, expected_view}, Root.{root_view}};
ghost use Rattle.ocfl_item.specs.{Internal.FileLines.{Expects}, Internal.HeadFiles.{IsFileAt}};
ghost use Rattle.ocfl_item.specs.Internal.{HeadLines.{AreSidecars}, Lines.{Adds, HasLines}};
ghost use Rattle.ocfl_item.specs.Internal.Visiting.{IsInventoryAt};

use crate::digits::hex_of;
use crate::expected::Expected;
use crate::fault::Fault;
use crate::head_lines::{Sidecars, add_unless_any, sum_of};
use crate::lines::PlaceLines;
use crate::object::sidecars_among;
use crate::pending::Pending;
use crate::root::RootInventory;
use crate::visit::Visit;
use ocfl_digest::{Algorithm, Bounded};
use ocfl_inventory::Sum;
use ocfl_report::Code;
use ocfl_tree::{Entry, Place, Tree, is_text};
use std::alloc::{AllocError, Global};

/// Appends the digest that a sidecar names.
fn add_sum(expected: &mut Vec<Expected>, algorithm: Algorithm, sum: &Sum) -> Result<(), AllocError>
    ensures { OnOk result (Expects expected.old expected.new
        (expected_digest algorithm (Some (sum_view sum.now)))) }
{
    let digest = hex_of(*expected.allocator(), sum.bytes())?;
    expected.push(Expected {
        code: Code::E060,
        algorithm,
        digest,
    })?;
    Ok(())
}

/// Appends what a sidecar tells: the digest that it names, or the line of one that is not of the
/// form.
fn add_sidecar(
    lines: &mut PlaceLines,
    expected: &mut Vec<Expected>,
    algorithm: Algorithm,
    file: &Option<Bounded>,
) -> Result<(), AllocError>
    ensures lines { (root : StorageRoot) (d : ModelPlace)
        → IsFileAt root (d ++ sidecar_name algorithm ∷ []) side_limit file.now
        → OnOk result (Adds lines.old lines.new
        (form_notes algorithm (sidecar_at root d algorithm))) }
    ensures expected { (root : StorageRoot) (d : ModelPlace)
        → IsFileAt root (d ++ sidecar_name algorithm ∷ []) side_limit file.now
        → OnOk result (Expects expected.old expected.new
        (expected_beside algorithm (sidecar_at root d algorithm))) }
    ensures place { OnOk result (lines.new.place ≡ lines.old.place) }
{
    let Some(file) = file else {
        return Ok(());
    };
    match sum_of(algorithm, file) {
        Some(sum) => add_sum(expected, algorithm, &sum),
        None => {
            let detail = String::from_str(lines.alloc(), algorithm.name())?;
            lines.add(Code::E061, detail)
        }
    }
}

/// Whether a root inventory names a version as the newest.
fn names(root: &RootInventory, version: &str) -> bool
    ensures { result ≡ is_same_text version.now (root_view root.now).head }
{
    match &root.head {
        Some(head) => is_text(version, head.as_str()),
        None => false,
    }
}

/// Whether a root inventory names the version whose directory this is as the newest.
fn is_newest(root: &RootInventory, directory: &Place) -> bool
    ensures { (o : ModelPlace) (v : Text) → directory.now ≡ o ++ v ∷ []
        → result ≡ is_same_text v (root_view root.now).head }
{
    match directory.split_last() {
        Some((_, version)) => names(root, version),
        None => false,
    }
}

/// Appends the digest of the root inventory, if that names the version of a directory as the
/// newest.
fn add_by_root(
    expected: &mut Vec<Expected>,
    root: &Option<RootInventory>,
    directory: &Place,
) -> Result<(), AllocError>
    ensures { (o : ModelPlace) (v : Text) → directory.now ≡ o ++ v ∷ []
        → OnOk result (Expects expected.old expected.new
        (expected_by_root v (option_map root_view root.now))) }
{
    let Some(root) = root else {
        return Ok(());
    };
    if !is_newest(root, directory) {
        return Ok(());
    }
    expected.push(Expected {
        code: Code::E064,
        algorithm: root.algorithm,
        digest: root.digest.clone()?,
    })?;
    Ok(())
}

/// The item of an inventory with these lines for its sidecars: it is hashed if some digest is
/// expected of it.
fn item_of(lines: PlaceLines, expected: Vec<Expected>) -> Pending
    ensures place { result.place ≡ lines.place }
    ensures told { (root : StorageRoot) (o : ModelPlace) (v : Text)
        → IsInventoryAt root lines.place o v → HasLines lines (beside_notes root (o ++ v ∷ []))
        → map expected_view expected.items ≡ expected_of root o v
        → IsPending Inventories root result }
{
    if expected.is_empty() {
        return Pending::of_lines(lines);
    }
    Pending::of_file(lines, expected)
}

/// The item of an inventory, from what was read of the sidecars in its directory and what the root
/// inventory is.
fn inventory_item(
    alloc: Global,
    root: &Option<RootInventory>,
    place: Place,
    directory: &Place,
    sidecars: &Sidecars,
) -> Result<Pending, AllocError>
    ensures place { IfOk result (λ item. item.place ≡ place) }
    ensures told { (tree : StorageRoot) (o : ModelPlace) (v : Text) → IsInventoryAt tree place o v
        → directory.now ≡ o ++ v ∷ [] → option_map root_view root.now ≡ root_inventory tree o
        → AreSidecars tree directory.now sidecars.now
        → IfOk result (λ item. IsPending Inventories tree item) }
{
    let mut lines = PlaceLines::new(alloc, place);
    let mut expected = Vec::new(alloc);
    add_unless_any(&mut lines, sidecars)?;
    add_sidecar(
        &mut lines,
        &mut expected,
        Algorithm::Sha256,
        &sidecars.short,
    )?;
    add_sidecar(&mut lines, &mut expected, Algorithm::Sha512, &sidecars.long)?;
    add_by_root(&mut expected, root, directory)?;
    Ok(item_of(lines, expected))
}

/// The inventory in a version directory, by the entries that come after it there. Of files its
/// sidecars are opened alone.
pub(crate) fn visit_inventory<T: Tree>(
    alloc: Global,
    store: &mut T,
    root: &Option<RootInventory>,
    place: Place,
    behind: &[Entry],
) -> Result<Visit, Fault>
    ensures fair { IfOk result (λ v. IsFairVisit place v) }
    ensures told { IfTold T.told (T.state store.old) (λ tree.
        (o : ModelPlace) (v : Text) → IsInventoryAt tree place o v
        → option_map root_view root.now ≡ root_inventory tree o
        → TellOfSidecars tree (o ++ v ∷ []) behind.now
        → Visits Inventories tree (T.state store.old) (T.state store.new) place result) }
{
    let directory = place.first(place.depth().saturating_sub(1))?;
    let sidecars = sidecars_among(alloc, store, &directory, behind)?;
    let item = inventory_item(alloc, root, place, &directory, &sidecars)?;
    Ok(Visit::of_item(Some(item)))
}
