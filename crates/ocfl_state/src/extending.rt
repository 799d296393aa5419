//! Appending to a report of which a checkpoint keeps the length, the lines and the digests.
ghost use Rattle.std.specs.Prelude.{◌≡◌, ◌≢◌, ◌<◌, ◌↔◌, ◌^◌, ◌++◌, IsTrue, IfOk, OnOk, length};
ghost use Rattle.ocfl_state.specs.{Calls.{HasCauseOr}, Content.{with_report}};
ghost use Rattle.ocfl_state.specs.{Crash.{MayTear, Passes}, Pieces.{summary_of}};

use crate::checkpoint_parts::ReportMark;
use crate::comparing::resume_digests;
use crate::folder::{FolderTrouble, StateFolder};

/// Whether a report is as long as a mark says.
fn is_as_long(long: u64, mark: &ReportMark) -> bool
    ensures range { long < 2 ^ 64 }
    ensures value { IsTrue result ↔ (long ≡ mark.now.bytes) }
{
    long == mark.bytes
}

/// Appends bytes to the report, of which a checkpoint keeps a mark, and gives the mark of what it
/// is then. Less than 4 MiB of the report are read.
///
/// `Failed` if the report is not as the mark says, or another process appended to it meanwhile.
/// Until the next `sync` a crash leaves the bytes that were there, and any after these.
pub fn append_marked<S: StateFolder>(
    folder: &mut S,
    mark: &ReportMark,
    bytes: &[u8],
) -> Result<ReportMark, FolderTrouble>
    ensures marked { IsTrue S.told → mark.now ≡ summary_of (S.seen folder.old).report
        → IfOk result (λ next. next ≡ summary_of ((S.seen folder.old).report ++ bytes.now)) }
    ensures appended { IsTrue S.told → OnOk result (S.seen folder.new
        ≡ with_report ((S.seen folder.old).report ++ bytes.now) (S.seen folder.old)) }
    ensures crash { IsTrue S.told → Passes S.may_leave S.moment S.left_since
        (MayTear (length (S.seen folder.old).report)
        (length ((S.seen folder.old).report ++ bytes.now))) folder.old folder.new }
    ensures cause { IsTrue S.told → HasCauseOr (mark.now ≢ summary_of (S.seen folder.old).report)
        (S.faults folder.old) (S.faults folder.new) result }
{
    let Some(mut digests) = resume_digests(folder, mark)? else {
        return Err(FolderTrouble::Failed);
    };
    folder.append(bytes)?;
    digests.push(bytes);
    let next = digests.summary();
    if !is_as_long(folder.length()?, &next) {
        return Err(FolderTrouble::Failed);
    }
    Ok(next)
}
