//! The laws of findings by weight and in groups, and of lists of known findings.
ghost use Rattle.std.specs.{Prelude.{◌≡◌, ◌+◌, ◌^◌, ◌<◌, ◌≤◌, ℕ, All, List, false, length}, Str.{IsUtf8}};
ghost use Rattle.ocfl_tree.specs.{Name.{IsPlace}, Place.{Text, Place as ModelPlace}};
ghost use Rattle.ocfl_report.specs.Line.{Line as ModelLine};
ghost use Rattle.std.specs.List.Sorted.{IsPermutation};
ghost use Rattle.ocfl_messages.specs.{Finding.{Finding as ModelFinding, IsPlaced}, Known.{is_known}};
ghost use Rattle.ocfl_messages.specs.{Command.{path_text}, Quoted.{has_control, quoted}};
ghost use Rattle.ocfl_messages.specs.Grouped.{groups_text, line_count};
ghost use Rattle.ocfl_messages.specs.{Gravest.{findings, by_weight}, declared.night.Night.{Night}};
ghost use Rattle.ocfl_messages.specs.{Night.{IsNamed, most_night_lines, night_text}, declared.closing.Closing.{Closing}};
ghost use Rattle.ocfl_messages.specs.Closing.{IsMade, closing_text, is_unmoved};
ghost use Rattle.ocfl_messages.specs.Closing.{most_closing_lines, one_unless};
ghost use Rattle.ocfl_messages.specs.declared.known.KnownEntry.{KnownEntry as ModelEntry};

/// No finding is lost when they are ordered by weight.
#[tactic(auto, using(crate::proofs::Weights::all_weighed))]
pub fn all_findings_are_ordered()
    ensures { (fs : List ModelFinding) → length (by_weight fs) ≡ length (findings fs) }
{}

/// Which findings a list names does not depend on the order of its entries.
#[tactic(auto, using(crate::proofs::Knowns::known_in_any_order))]
pub fn order_of_entries_does_not_matter()
    ensures { (es fs : List ModelEntry) (l : ModelLine) → IsPermutation es fs
        → is_known es l ≡ is_known fs l }
{}

/// No path in a message has a character that is obeyed and not shown, whatever its names have.
#[tactic(auto, using(crate::proofs::Controls::path_has_none))]
pub fn paths_are_shown()
    ensures { (p : ModelPlace) → IsPlace p → has_control (path_text p) ≡ false }
{}

/// No word of a command that is pasted has one, whatever text it is of.
#[tactic(auto, using(crate::proofs::Controls::word_has_none))]
pub fn words_of_commands_are_shown()
    ensures { (text : Text) → IsUtf8 text → has_control (quoted text) ≡ false }
{}

/// Groups of findings have no more lines than there is room for, whatever the names in their
/// places.
pub fn groups_have_room()
    ensures { (root : Text) (room : ℕ) (fs : List ModelFinding) → length fs < 2 ^ 64
        → All IsPlaced fs → line_count (groups_text root room fs) ≤ room }
{}

/// The message of a night has at most 27 lines.
#[tactic(auto, using(crate::proofs::LineCounts::night_is_short))]
pub fn messages_of_nights_are_short()
    ensures { (n : Night) (fs : List ModelFinding) → IsNamed n → length (by_weight fs) < 2 ^ 64
        → All IsPlaced fs → line_count (night_text n fs) ≤ most_night_lines }
{}

/// What is said of a closed cycle has at most 13 lines, and one more if a root inventory is another
/// one, if no list has more than is counted.
#[tactic(auto, using(crate::proofs::ClosingLines::closing_is_short))]
pub fn closings_are_short()
    ensures { (c : Closing) (fs : List ModelFinding) → IsMade c → All IsPlaced fs
        → line_count (closing_text c fs) ≤ most_closing_lines + one_unless (is_unmoved c.moved) }
{}
