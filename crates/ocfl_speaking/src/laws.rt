//! What lines are passed.
ghost use Rattle.std.specs.Prelude.{◌≡◌, ◌≢◌, [], Some, true};
ghost use Rattle.ocfl_tree.specs.{Name.{IsPlace}, Place.{Place as ModelPlace, Text}};
ghost use Rattle.ocfl_report.specs.{Line.{Line as ModelLine}, Text.{IsLineText}};
ghost use Rattle.ocfl_speaking.specs.Sifting.{IsRightIn, is_passed};

/// A line that is passed without being read is that of a file that is right in the object whose
/// head came last, if it is a report's: what it is taken for is what reading it would have given.
pub fn lines_that_are_passed_are_right()
    ensures { (object : ModelPlace) (text : Text) (line : ModelLine) → IsPlace object → object ≢ []
        → is_passed (Some object) text ≡ true → IsLineText text line
        → IsRightIn (Some object) line }
{}
