//! The laws of sidecars, declarations and lines.
ghost use Rattle.std.specs.Prelude.{◌≡◌, ◌↔◌, Some, ℕ, List, IsPermutation};
ghost use Rattle.ocfl_tree.specs.{Ascending.{IsAmong}, Place.{Text, Place}};
ghost use Rattle.ocfl_tree.specs.declared.store.Entry.{Entry};
ghost use Rattle.ocfl_report.specs.Line.{Line};
ghost use Rattle.ocfl_digest.specs.declared.algorithm.Algorithm.{Algorithm};
ghost use Rattle.ocfl_inventory.specs.{Declaration.{declared}, Entries.{file_names}};
ghost use Rattle.ocfl_inventory.specs.{declared.declaration.Level.{Level}, Note.{Note, lines_at}};
ghost use Rattle.ocfl_inventory.specs.Sidecar.{IsSidecar, sidecar_of};

/// The computed digest of a sidecar is that of the grammar, and there is one exactly if the grammar
/// holds.
pub fn sidecar_meets_the_grammar()
    ensures { (b : Text) (a : Algorithm) (d : List ℕ)
        → (sidecar_of a b ≡ Some d) ↔ IsSidecar b a d }
{}

/// What entries declare depends on no order of theirs.
pub fn declarations_have_no_order()
    ensures { (level : Level) (entries others : List Entry) → IsPermutation entries others
        → declared level (file_names entries) ≡ declared level (file_names others) }
{}

/// Each line of an item has the item's place.
pub fn lines_stand_at_their_place()
    ensures { (p : Place) (ns : List Note) (l : Line) → IsAmong (lines_at p ns) l → l.place ≡ p }
{}
