//! The laws of what changed between two reports.
ghost use Rattle.std.specs.Prelude.{◌≡◌, ◌≢◌, ◌<◌, ◌↔◌, ℕ, Bool, List, [], ◌∷◌, Some, false, true, map};
ghost use Rattle.std.specs.List.{list_any};
ghost use Rattle.ocfl_tree.specs.{Ascending.{IsAmong}, Place.{Place, Text}};
ghost use Rattle.ocfl_compare.specs.Changes.{changes_at, comparison, finding_codes, has_code};
ghost use Rattle.ocfl_compare.specs.declared.change.Change.TheVariants.{FileGone, Found, Gone};
ghost use Rattle.ocfl_compare.specs.declared.change.Change.TheVariants.{Repaired, Undeclared};
ghost use Rattle.ocfl_compare.specs.declared.change.Change.TheVariants.{NewVersion, Rewritten};
ghost use Rattle.ocfl_compare.specs.declared.change.Change.TheVariants.{Unlooked, WentBack};
ghost use Rattle.ocfl_compare.specs.Versions.{inventory_changes, version_of};
ghost use Rattle.ocfl_codes.specs.Kinds.{hides, tells_file, tells_object};
ghost use Rattle.ocfl_report.specs.{Line.{Line}, declared.code.Code.{Code}};

/// Between a report and itself nothing changed.
#[tactic(auto, using(crate::proofs::ChangeLaws::nothing_changed))]
pub fn a_report_is_as_itself()
    ensures { (left : List Place) (lines : List Line) → comparison left lines lines ≡ [] }
{}

/// An object is gone from a place, or no longer declared, exactly if the report before has a line
/// of it there, and this one has none: gone if this one has no line below the place either. A
/// content file is gone exactly if the report before has a line of it at the place, this one has no
/// line there at all, and the place is not below an object that is shut; below one, nobody looked
/// for it.
#[tactic(auto, using(crate::proofs::ChangeLaws::gone_is, crate::proofs::ChangeLaws::undeclared_is, crate::proofs::ChangeLaws::file_gone_is, crate::proofs::ChangeLaws::unlooked_is))]
pub fn what_is_gone_is_the_difference()
    ensures objects { (shut has_lines : Bool) (before now : List Line)
        → IsAmong (changes_at shut has_lines before now) Gone ↔ (has_lines ≡ false)
        × ((list_any tells_object now ≡ false) × (list_any tells_object before ≡ true)) }
    ensures undeclared { (shut has_lines : Bool) (before now : List Line)
        → IsAmong (changes_at shut has_lines before now) Undeclared ↔ (has_lines ≡ true)
        × ((list_any tells_object now ≡ false) × (list_any tells_object before ≡ true)) }
    ensures files { (shut has_lines : Bool) (before now : List Line)
        → IsAmong (changes_at shut has_lines before now) FileGone ↔ (shut ≡ false)
        × ((now ≡ []) × (list_any tells_file before ≡ true)) }
    ensures unlooked { (shut has_lines : Bool) (before now : List Line)
        → IsAmong (changes_at shut has_lines before now) Unlooked ↔ (shut ≡ true)
        × ((now ≡ []) × (list_any tells_file before ≡ true)) }
{}

/// A code is repaired at a place exactly if it was found there before and is not found now, and the
/// place was looked at: it has lines, and none that may hide a finding.
#[tactic(auto, using(crate::proofs::ChangeLaws::repaired_is))]
pub fn what_is_repaired_was_looked_at()
    ensures { (shut has_lines : Bool) (before now : List Line) (c : Code)
        → IsAmong (changes_at shut has_lines before now) (Repaired c)
        ↔ ((now ≢ []) × (list_any hides now ≡ false))
        × (IsAmong (finding_codes before) c × (has_code (finding_codes now) c ≡ false)) }
{}

/// If the report before has no line, the findings of this one are new, and nothing else changed.
#[tactic(auto, using(crate::proofs::ChangeLaws::from_nothing))]
pub fn nothing_is_gone_from_nothing()
    ensures { (shut has_lines : Bool) (now : List Line)
        → changes_at shut has_lines [] now ≡ map Found (finding_codes now) }
{}

/// Of an inventory that is another one, the numbers of the versions that the notes of both reports
/// name say what became of it. One that is noted as before is the same.
#[tactic(auto, using(crate::proofs::Moves::newer, crate::proofs::Moves::older, crate::proofs::Moves::same_version, crate::proofs::Moves::unchanged))]
pub fn another_inventory_is_of_a_version()
    ensures newer { (before now : Text) (v w : ℕ) → before ≢ now → version_of before ≡ Some v
        → version_of now ≡ Some w → v < w
        → inventory_changes (Some before) (Some now) ≡ NewVersion ∷ [] }
    ensures older { (before now : Text) (v w : ℕ) → before ≢ now → version_of before ≡ Some v
        → version_of now ≡ Some w → w < v
        → inventory_changes (Some before) (Some now) ≡ WentBack ∷ [] }
    ensures same_version { (before now : Text) (v : ℕ) → before ≢ now → version_of before ≡ Some v
        → version_of now ≡ Some v → inventory_changes (Some before) (Some now) ≡ Rewritten ∷ [] }
    ensures unchanged { (note : Text) → inventory_changes (Some note) (Some note) ≡ [] }
{}
