//! The laws of a report's summary.
ghost use Rattle.std.specs.Prelude.{◌≡◌, ◌⊎◌, ◌≤◌, length, take};
ghost use Rattle.ocfl_state.specs.Content.{Bytes};
ghost use Rattle.ocfl_state.specs.Pieces.{summary_of, rest_of, tail_of, Collision};

/// Two reports with one summary are the same, or show two texts with one SHA-256. So a byte that
/// was lost, cut or changed is seen.
#[tactic(auto, using(crate::proofs::SummaryLaws::same_or_collision))]
pub fn a_summary_tells_reports_apart()
    ensures { (report other : Bytes) → summary_of report ≡ summary_of other
        → (report ≡ other) ⊎ Collision }
{}

/// Two reports with one tail have the same bytes after their whole pieces, or show two texts with
/// one SHA-256.
#[tactic(auto, using(crate::proofs::SummaryLaws::same_rest_or_collision))]
pub fn a_tail_tells_ends_apart()
    ensures { (report other : Bytes) → tail_of report ≡ tail_of other
        → (rest_of report ≡ rest_of other) ⊎ Collision }
{}
