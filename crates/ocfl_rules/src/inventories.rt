//! The laws of what an audit checks further: the inventories of version directories.
ghost use Rattle.std.specs.Prelude.{◌≡◌, ◌≢◌, ◌↔◌, ◌++◌, [], ℕ, List, Option, Some, None, false};
ghost use Rattle.ocfl_tree.specs.{StorageRoot.{StorageRoot}, Place.{Place, Text}};
ghost use Rattle.ocfl_report.specs.declared.further.Further.{Further};
ghost use Rattle.ocfl_report.specs.declared.further.Further.TheVariants.{Nothing, Inventories};
ghost use Rattle.ocfl_inventory.specs.Note.{Note};
ghost use Rattle.ocfl_rules.specs.Zone.{zone};
ghost use Rattle.ocfl_rules.specs.Lines.{common_notes, common_cost};
ghost use Rattle.ocfl_rules.specs.Trail.{is_head, is_meta, is_common_meta};
ghost use Rattle.ocfl_rules.specs.Objects.{IsVersionInventory};
ghost use Rattle.ocfl_rules.specs.Inventories.{version_inventory, notes, cost};

/// If nothing further is checked, a place has the lines and the cost that it has in each audit, and
/// no sidecar in a version directory is metadata.
pub fn nothing_further_adds_nothing()
    ensures lines { (root : StorageRoot) (u : Option ℕ) (p : Place)
        → notes Nothing root u p ≡ common_notes root u p }
    ensures costs { (root : StorageRoot) (u : Option ℕ) (p : Place)
        → cost Nothing root u p ≡ common_cost root u p }
    ensures metadata { (root : StorageRoot) (p : Place)
        → is_meta Nothing root p ≡ is_common_meta root p }
{}

/// What is checked further adds lines and changes none: lines of an object's head, and of the
/// inventories in version directories. Each of these has one.
#[tactic(auto, using(crate::proofs::InventoryLaws::lines_added, crate::proofs::InventoryLaws::lines_elsewhere))]
pub fn lines_are_only_added()
    ensures added { (further : Further) (root : StorageRoot) (u : Option ℕ) (p : Place)
        → (more : List Note) × (notes further root u p ≡ common_notes root u p ++ more) }
    ensures elsewhere { (root : StorageRoot) (u : Option ℕ) (p : Place)
        → is_head (zone root p) ≡ false → version_inventory root p ≡ None
        → notes Inventories root u p ≡ common_notes root u p }
    ensures of_inventories { (root : StorageRoot) (u : Option ℕ) (p o : Place)
        (v bytes : Text) → IsVersionInventory root p o v bytes
        → notes Inventories root u p ≢ [] }
{}

/// The inventory of a version is the file `inventory.json` right in a directory of its object, if
/// that file is seen.
pub fn version_inventories_are_exact()
    ensures { (root : StorageRoot) (p o : Place) (v bytes : Text)
        → (version_inventory root p ≡ Some (o, v, bytes)) ↔ IsVersionInventory root p o v bytes }
{}
