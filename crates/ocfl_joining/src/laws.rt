//! The laws of parts that are joined.
ghost use Rattle.std.specs.Prelude.{◌≡◌, ℕ, List, None, Some, [], map, true};
ghost use Rattle.ocfl_tree.specs.{Ascending.{IsAscending}, Place.{Place, Text, place_cmp}};
ghost use Rattle.ocfl_tree.specs.StorageRoot.{StorageRoot};
ghost use Rattle.ocfl_report.specs.{Text.{text}, declared.further.Further.{Further}};
ghost use Rattle.ocfl_rules.specs.{Audit.{audit}, Parts.{parts_of, together}};
ghost use Rattle.ocfl_separators.specs.Separators.{end_of_part, start_of_part};
ghost use Rattle.ocfl_joining.specs.Audited.{AuditedPart, all_known, all_unread, report_of};
ghost use Rattle.ocfl_joining.specs.{Cycles.{hindering_in}, Joined.{all_parts, joined_text}};
ghost use Rattle.ocfl_joining.specs.Missing.{KnownPart, fault_of, further_of};
ghost use Rattle.ocfl_joining.specs.Reports.{Seen};

/// A part that has no fault is of this storage root and of this cycle, its audit checks this
/// further, and it has the ends of the part with this number; what its report has new and gone was
/// said, and it is whole.
#[tactic(auto, using(crate::proofs::Parts::part_right))]
pub fn a_part_without_fault_is_right()
    ensures { (separators : List Place) (root : Text) (further : Further)
        (cycle most number : ℕ) (part : KnownPart)
        → fault_of separators root further cycle most number (Some part) ≡ None
        → (part.root ≡ root) × ((part.from ≡ start_of_part separators number)
        × ((part.below ≡ end_of_part separators number) × ((part.further ≡ further)
        × ((part.cycle ≡ cycle) × ((part.has_said ≡ true) × (part.whole ≡ true)))))) }
{}

/// Suppose that the closed report of each part is what the audit has there that its checkpoint says
/// its nights make, with the files that its own runs could not read. If no part keeps them from
/// being joined, all parts check the same, and the joined report is the audit of the whole root
/// that checks that, in which just those files are called unreadable. So if every file could be
/// read, it is exactly the audit.
pub fn closed_reports_join_to_the_audit()
    ensures { (root : StorageRoot) (separators : List Place) (s : Seen) (cycle : ℕ)
        (parts : List AuditedPart) → IsAscending place_cmp separators
        → map (λ p. p.part) parts ≡ parts_of separators
        → hindering_in separators (all_known parts) cycle ≡ []
        → map s.bytes (all_parts separators) ≡ map (report_of root) parts
        → joined_text separators s
        ≡ text (audit (further_of (all_known parts)) root (together (all_unread parts))) }
{}
