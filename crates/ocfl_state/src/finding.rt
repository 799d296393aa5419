//! The report as a night finds it, beside what the checkpoint keeps of it.
ghost use Rattle.std.specs.Prelude.{◌≡◌, ◌↔◌, IsTrue, IfOk, take};
ghost use Rattle.ocfl_state.specs.{Content.{Bytes}, Calls.{HasCause}, Crash.{Begins, Passes, Same}};
ghost use Rattle.ocfl_state.specs.Finding.{IfLost, IsWhole, IsWholeWith};
ghost use Rattle.ocfl_state.specs.Pieces.{Carries, HasTail, summary_of};

use crate::checkpoint_parts::ReportMark;
use crate::comparing::{digests_of_front, is_report_of, resume_digests};
use crate::folder::{FolderTrouble, StateFolder};
use crate::pieces::ReportDigests;

/// Whether the report is as a checkpoint says, with the digests of as much of it as that speaks of.
#[derive(Drop)]
pub enum FoundReport {
    /// It is as long as the checkpoint says or longer, with the same tail.
    Whole(ReportDigests),
    /// It is shorter, or its tail is another one: bytes of it were lost or changed.
    Lost(ReportDigests),
}

/// Looks whether the report is as a checkpoint says, up to the length that it says. Less than 4 MiB
/// are read if it is; else all of it up to that length.
#[tactic(auto, using(crate::proofs::Readings::passes_then))]
pub fn find_report<S: StateFolder>(
    folder: &mut S,
    mark: &ReportMark,
) -> Result<FoundReport, FolderTrouble>
    ensures whole { IsTrue S.told → IfOk result (λ found.
        IsWhole found ↔ HasTail mark.now (S.seen folder.old).report) }
    // If it begins with the report of which the checkpoint speaks, it is whole.
    ensures carried { IsTrue S.told → (text : Bytes) → mark.now ≡ summary_of text
        → Begins text (S.seen folder.old).report
        → IfOk result (λ found. IsWholeWith (λ digests. Carries digests text) found) }
    ensures lost { IsTrue S.told → IfOk result (λ found. IfLost (λ digests.
        Carries digests (take mark.now.bytes (S.seen folder.old).report)) found) }
    ensures seen { IsTrue S.told → S.seen folder.new ≡ S.seen folder.old }
    ensures crash { IsTrue S.told
        → Passes S.may_leave S.moment S.left_since Same folder.old folder.new }
    ensures cause { IsTrue S.told
        → HasCause (S.faults folder.old) (S.faults folder.new) result }
{
    match resume_digests(folder, mark)? {
        Some(digests) => Ok(FoundReport::Whole(digests)),
        None => Ok(FoundReport::Lost(digests_of_front(folder, mark.bytes)?)),
    }
}

/// Whether the report may be closed as whole: nothing of it was lost before, and it is the one that
/// a checkpoint says. If nothing was lost, it is read once.
#[tactic(auto, using(crate::proofs::Readings::passes_none))]
pub fn may_close_whole<S: StateFolder>(
    folder: &mut S,
    mark: &ReportMark,
    whole: bool,
) -> Result<bool, FolderTrouble>
    ensures value { IsTrue S.told → IfOk result (λ answer.
        IsTrue answer ↔ (IsTrue whole × (mark.now ≡ summary_of (S.seen folder.old).report))) }
    ensures seen { IsTrue S.told → S.seen folder.new ≡ S.seen folder.old }
    ensures crash { IsTrue S.told
        → Passes S.may_leave S.moment S.left_since Same folder.old folder.new }
    ensures cause { IsTrue S.told
        → HasCause (S.faults folder.old) (S.faults folder.new) result }
{
    if !whole {
        return Ok(false);
    }
    is_report_of(folder, mark)
}
