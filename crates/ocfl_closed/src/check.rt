//! By what a closed report is checked while it is read.
ghost use Rattle.std.specs.Prelude.{◌≡◌, ◌++◌, ◌<◌, ◌^◌, [], IsTrue, IfOk, IsOkUnless, Option};
ghost use Rattle.std.specs.Prelude.{Some, length};
ghost use Rattle.ocfl_tree.specs.Place.{Text};
ghost use Rattle.ocfl_accounts.specs.Causes.{HasCause};
ghost use Rattle.ocfl_state.specs.Checkpoint.{Checkpoint as ModelCheckpoint};
ghost use Rattle.ocfl_closed.specs.{Cut.{Still}, Files.{IsRead}, Unchanged.{is_unchanged_by}};
ghost use Rattle.ocfl_closed.specs.Internal.Checked.{HasTaken, is_met_by};

use crate::disk::ClosedDisk;
use crate::looking::checkpoint_of;
use ocfl_accounts::ClosingStop;
use ocfl_state::{Checkpoint, ReportCheck, ReportMark};
use std::alloc::Global;

/// Whether a closed report is as it was when it was closed, while it is read.
#[derive(Drop)]
pub(crate) enum ClosedCheck {
    /// It counts as it was: nothing was kept of its closing, or it is not to be checked.
    Unchecked,
    /// It does not: what was kept is no checkpoint any more.
    Broken,
    /// It is compared with the mark that the kept checkpoint has of it.
    Kept(ReportMark, ReportCheck),
}

impl ClosedCheck {
    /// By what was kept of the closing of a report: a checkpoint, or no checkpoint any more.
    fn by(kept: &Option<Checkpoint>) -> ClosedCheck
        ensures met { (bytes report : Text)
            → is_met_by result report ≡ is_unchanged_by (Some bytes) kept.now report }
        ensures begun { HasTaken result [] }
    {
        match kept {
            Some(checkpoint) => {
                let mark = checkpoint.report;
                ClosedCheck::Kept(mark, ReportCheck::new(&mark))
            }
            None => ClosedCheck::Broken,
        }
    }

    /// Takes the next bytes of the report.
    pub(crate) fn push(&mut self, bytes: &[u8])
        ensures met { (report : Text) → is_met_by self.new report ≡ is_met_by self.old report }
        ensures taken { (report : Text) → HasTaken self.old report
            → length (report ++ bytes.now) < 2 ^ 64 → HasTaken self.new (report ++ bytes.now) }
    {
        if let ClosedCheck::Kept(_, check) = self {
            check.push(bytes);
        }
    }

    /// Whether the report is as it was, after its last bytes.
    pub(crate) fn is_met(&self) -> bool
        ensures { (report : Text) → HasTaken self.now report
            → result ≡ is_met_by self.now report }
    {
        match self {
            ClosedCheck::Unchecked => true,
            ClosedCheck::Broken => false,
            ClosedCheck::Kept(_, check) => check.is_met(),
        }
    }
}

/// By what a report is checked of whose closing these bytes were kept.
fn check_by(alloc: Global, bytes: &[u8]) -> Result<ClosedCheck, ClosingStop>
    ensures met { IfOk result (λ check. (kept : Option ModelCheckpoint)
        → IsRead (Some bytes.now) kept → (report : Text)
        → is_met_by check report ≡ is_unchanged_by (Some bytes.now) kept report) }
    ensures begun { IfOk result (λ check. HasTaken check []) }
    ensures memory { IsOkUnless result ClosingStop.Memory }
{
    let kept = checkpoint_of(alloc, bytes)?;
    Ok(ClosedCheck::by(&kept))
}

/// By what the closed report of a cycle is checked.
pub(crate) fn check_of<D: ClosedDisk>(
    alloc: Global,
    disk: &mut D,
    cycle: u64,
) -> Result<ClosedCheck, ClosingStop>
    ensures met { IsTrue D.told → IfOk result (λ check. (report : Text) → is_met_by check report
        ≡ is_unchanged_by ((D.state disk.old).files.kept cycle)
        ((D.state disk.old).files.checkpoint cycle) report) }
    ensures begun { IfOk result (λ check. HasTaken check []) }
    ensures still { IsTrue D.told → Still (D.state disk.old) (D.state disk.new) }
    ensures cause { IsTrue D.told → HasCause (D.faults disk.old) (D.faults disk.new) result }
{
    match disk.kept_checkpoint(cycle)? {
        Some(bytes) => check_by(alloc, &bytes),
        None => Ok(ClosedCheck::Unchecked),
    }
}
