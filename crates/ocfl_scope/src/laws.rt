//! The laws of parts by their numbers, and of the scope that is found.
ghost use Rattle.std.specs.Prelude.{◌≡◌, ◌⊎◌, ◌↔◌, ◌+◌, ◌≤◌, ℕ, List, [], Some, IsSome, length};
ghost use Rattle.std.specs.Prelude.{map};
ghost use Rattle.ocfl_tree.specs.Place.{Place, Text};
ghost use Rattle.ocfl_cursor.specs.declared.ends.PartEnds.{PartEnds};
ghost use Rattle.ocfl_rules.specs.Parts.{parts_of};
ghost use Rattle.ocfl_separators.specs.{Parts.{IsPartsText}, Separators.{end_of_part, start_of_part}};
ghost use Rattle.ocfl_scope.specs.Finding.{PartStops};
ghost use Rattle.ocfl_scope.specs.Numbered.{AreAllFrom, IsPartOf, part_between, part_numbered};
ghost use Rattle.ocfl_scope.specs.declared.stop.ScopeStop.{ScopeStop};
ghost use Rattle.ocfl_scope.specs.declared.stop.ScopeStop.TheVariants as stop;
ghost use Rattle.ocfl_separators.specs.declared.reading.PartsStop.TheVariants as parts;

/// The ends that `Separators::ends` gives by a number are those of the part with that number, of
/// all the parts that the separators make. There are just as many parts as it gives ends for.
#[tactic(auto, using(crate::proofs::NumberedLaws::ends_are, crate::proofs::NumberedLaws::numbers_are))]
pub fn ends_are_of_the_numbered_part()
    ensures ends { (separators : List Place) (number : ℕ) → 1 ≤ number
        → number ≤ length separators + 1 → part_numbered separators number
        ≡ Some (record {
          under = [];
          from = start_of_part separators number;
          below = end_of_part separators number;
        }) }
    ensures there { (separators : List Place) (number : ℕ)
        → IsSome (part_numbered separators number)
        ↔ (1 ≤ number) × (number ≤ length separators + 1) }
{}

/// A text of separators and a number determine the part.
pub fn a_number_determines_the_part()
    ensures { (b : Text) (number : ℕ) (e f : PartEnds)
        → IsPartOf b number e → IsPartOf b number f → e ≡ f }
{}

/// The ends of the numbers from 1 to the last are those of all parts that the separators make.
pub fn all_numbers_give_all_parts()
    ensures { (b : Text) (ends : List PartEnds) → AreAllFrom b 1 ends → (separators : List Place)
        × (IsPartsText b separators × (map part_between ends ≡ parts_of separators)) }
{}

/// A part that is there is not found only if the reader failed or memory was refused.
pub fn no_part_that_is_there_is_refused()
    ensures { (b : Text) (number : ℕ) (e : PartEnds) (why : ScopeStop) → IsPartOf b number e
        → PartStops (Some b) number why → (why ≡ stop.Memory)
        ⊎ ((why ≡ stop.Parts parts.Memory) ⊎ (why ≡ stop.Parts parts.Read)) }
{}
