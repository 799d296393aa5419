//! The report: what a checkpoint keeps of it, and changes, as far as a crash keeps its front.
ghost use Rattle.std.specs.Prelude.{◌≡◌, ◌↔◌, IfOk, IfSome, IsSome, IsTrue, None, OnOk, take};
ghost use Rattle.ocfl_state.specs.{Calls.{HasCause}, Content.{with_report}, Crash.{Passes, Same}};
ghost use Rattle.ocfl_state.specs.Pieces.{HasTail, summary_of};
ghost use Rattle.ocfl_night.specs.Steps.{BeginsAs, KeepsFront};

use ocfl_state::{FolderTrouble, FoundReport, ReportMark, StateFolder, find_report};

/// What there is of a report that is another one than a mark says, up to the length that it says:
/// bytes were lost or changed. `None` if it is as it says.
///
/// Less than 4 MiB are read if it is; else all of it up to that length.
pub(crate) fn find_lost<S: StateFolder>(
    folder: &mut S,
    mark: &ReportMark,
) -> Result<Option<ReportMark>, FolderTrouble>
    ensures kept { IsTrue S.told → BeginsAs mark.now (S.seen folder.old).report
        → IfOk result (λ lost. lost ≡ None) }
    ensures lost { IsTrue S.told → IfOk result (λ lost. IsSome lost
        ↔ (HasTail mark.now (S.seen folder.old).report → ⊥)) }
    ensures there { IsTrue S.told → IfOk result (λ lost. IfSome lost (λ there.
        there ≡ summary_of (take mark.now.bytes (S.seen folder.old).report))) }
    ensures seen { IsTrue S.told → S.seen folder.new ≡ S.seen folder.old }
    ensures crash { IsTrue S.told
        → Passes S.may_leave S.moment S.left_since Same folder.old folder.new }
    ensures cause { IsTrue S.told
        → HasCause (S.faults folder.old) (S.faults folder.new) result }
{
    match find_report(folder, mark)? {
        FoundReport::Whole(_) => Ok(None),
        FoundReport::Lost(digests) => Ok(Some(digests.summary())),
    }
}

/// Cuts the report to a length.
#[tactic(auto, using(crate::proofs::Moments::torn_less))]
pub(crate) fn cut_report<S: StateFolder>(folder: &mut S, most: u64) -> Result<(), FolderTrouble>
    ensures cut { IsTrue S.told → OnOk result (S.seen folder.new
        ≡ with_report (take most (S.seen folder.old).report) (S.seen folder.old)) }
    ensures crash { IsTrue S.told → Passes S.may_leave S.moment S.left_since
        (KeepsFront most) folder.old folder.new }
    ensures cause { IsTrue S.told
        → HasCause (S.faults folder.old) (S.faults folder.new) result }
{
    folder.cut(most)
}
