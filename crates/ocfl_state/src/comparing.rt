//! Comparing the report of a state folder with what a checkpoint keeps of it.
ghost use Rattle.std.specs.Prelude.{◌≡◌, ◌≤◌, ◌↔◌, ◌-◌, ◌<◌, ◌^◌, [], IsTrue, IsSome, IfOk, IfSome, length, take, drop};
ghost use Rattle.ocfl_state.specs.{Content.{Bytes}, Calls.{HasCause, IsReadOf}};
ghost use Rattle.ocfl_state.specs.Crash.{Same, Passes};
ghost use Rattle.ocfl_state.specs.Pieces.{Carries, PushesPart, HasRead, summary_of, rest_of, HasTail};

use crate::checkpoint_parts::ReportMark;
use crate::folder::{FolderTrouble, StateFolder};
use crate::pieces::{PIECE_LEN, ReportDigests};

/// How many bytes of a report are read at once.
const READ_LEN: usize = 16_384;

/// Reads the report's bytes from an offset on into the front of the buffer, at most `room` of them,
/// and gives how many.
fn read_part<S: StateFolder>(
    folder: &mut S,
    start: u64,
    buffer: &mut [u8; READ_LEN],
    room: usize,
) -> Result<usize, FolderTrouble>
    requires { room ≤ 16384 }
    ensures bound { IfOk result (λ count. count ≤ room) }
    ensures value { IsTrue S.told → IfOk result (λ count.
        IsReadOf (S.seen folder.old).report start (take count buffer.new) room) }
    ensures seen { IsTrue S.told → S.seen folder.new ≡ S.seen folder.old }
    ensures crash { IsTrue S.told
        → Passes S.may_leave S.moment S.left_since Same folder.old folder.new }
    ensures cause { IsTrue S.told
        → HasCause (S.faults folder.old) (S.faults folder.new) result }
{
    folder.read(start, &mut buffer[..room])
}

/// Reads the next bytes of the report, before `end`, and pushes them. Gives how many: 0 only at its
/// end.
fn push_part<S: StateFolder>(
    folder: &mut S,
    start: u64,
    end: u64,
    buffer: &mut [u8; READ_LEN],
    digests: &mut ReportDigests,
) -> Result<usize, FolderTrouble>
    requires { start < end }
    ensures bound { IfOk result (λ count. count ≤ end - start) }
    ensures pushed { IsTrue S.told → IfOk result (λ count. PushesPart
        (take count (drop start (S.seen folder.old).report))
        count digests.old digests.new) }
    ensures end { IsTrue S.told → IfOk result (λ count.
        count ≡ 0 → drop start (S.seen folder.old).report ≡ []) }
    ensures seen { IsTrue S.told → S.seen folder.new ≡ S.seen folder.old }
    ensures crash { IsTrue S.told
        → Passes S.may_leave S.moment S.left_since Same folder.old folder.new }
    ensures cause { IsTrue S.told
        → HasCause (S.faults folder.old) (S.faults folder.new) result }
{
    let room = (end - start).min(READ_LEN as u64) as usize;
    let count = read_part(folder, start, buffer, room)?;
    digests.push_from(&buffer[..count]);
    Ok(count)
}

/// Reads the report's bytes from one offset up to another, or to its end, and pushes them. Gives
/// how many there are.
#[tactic(auto, using(crate::proofs::Readings::passes_none, crate::proofs::Readings::passes_then, crate::proofs::Readings::pushing_begins, crate::proofs::Readings::pushing_goes_on, crate::proofs::Readings::pushing_ends, crate::proofs::Readings::pushing_stops))]
fn push_report<S: StateFolder>(
    folder: &mut S,
    start: u64,
    end: u64,
    digests: &mut ReportDigests,
) -> Result<u64, FolderTrouble>
    ensures range { end < 2 ^ 64 }
    ensures pushed { IsTrue S.told → IfOk result (λ count. PushesPart
        (take (end - start) (drop start (S.seen folder.old).report))
        count digests.old digests.new) }
    ensures seen { IsTrue S.told → S.seen folder.new ≡ S.seen folder.old }
    ensures crash { IsTrue S.told
        → Passes S.may_leave S.moment S.left_since Same folder.old folder.new }
    ensures cause { IsTrue S.told
        → HasCause (S.faults folder.old) (S.faults folder.new) result }
{
    let mut buffer = [0; READ_LEN];
    let mut reached = start;
    while reached < end {
        let count = push_part(folder, reached, end, &mut buffer, digests)?;
        if count == 0 {
            return Ok(reached - start);
        }
        reached += count as u64;
    }
    Ok(reached - start)
}

/// The digests of the whole report, which is read once.
#[tactic(auto, using(crate::proofs::Readings::passes_then))]
pub fn digests_of_report<S: StateFolder>(folder: &mut S) -> Result<ReportDigests, FolderTrouble>
    ensures carried { IsTrue S.told → IfOk result (λ digests.
        Carries digests (S.seen folder.old).report) }
    ensures seen { IsTrue S.told → S.seen folder.new ≡ S.seen folder.old }
    ensures crash { IsTrue S.told
        → Passes S.may_leave S.moment S.left_since Same folder.old folder.new }
    ensures cause { IsTrue S.told
        → HasCause (S.faults folder.old) (S.faults folder.new) result }
{
    let end = folder.length()?;
    let mut digests = ReportDigests::up_to(end);
    push_report(folder, 0, end, &mut digests)?;
    Ok(digests)
}

/// The digests of the report's first bytes, at most `most` of them. These are read once.
pub fn digests_of_front<S: StateFolder>(
    folder: &mut S,
    most: u64,
) -> Result<ReportDigests, FolderTrouble>
    ensures carried { IsTrue S.told → IfOk result (λ digests.
        Carries digests (take most (S.seen folder.old).report)) }
    ensures seen { IsTrue S.told → S.seen folder.new ≡ S.seen folder.old }
    ensures crash { IsTrue S.told
        → Passes S.may_leave S.moment S.left_since Same folder.old folder.new }
    ensures cause { IsTrue S.told
        → HasCause (S.faults folder.old) (S.faults folder.new) result }
{
    let mut digests = ReportDigests::new();
    push_report(folder, 0, most, &mut digests)?;
    Ok(digests)
}

/// Whether the report has this summary: its length, its lines and both digests. It is read once.
pub fn is_report_of<S: StateFolder>(
    folder: &mut S,
    summary: &ReportMark,
) -> Result<bool, FolderTrouble>
    ensures value { IsTrue S.told → IfOk result (λ answer.
        IsTrue answer ↔ (summary.now ≡ summary_of (S.seen folder.old).report)) }
    ensures seen { IsTrue S.told → S.seen folder.new ≡ S.seen folder.old }
    ensures crash { IsTrue S.told
        → Passes S.may_leave S.moment S.left_since Same folder.old folder.new }
    ensures cause { IsTrue S.told
        → HasCause (S.faults folder.old) (S.faults folder.new) result }
{
    let digests = digests_of_report(folder)?;
    Ok(digests.summary() == *summary)
}

/// The digests of what follows the whole pieces, of which a summary has the chain.
fn digests_of_tail<S: StateFolder>(
    folder: &mut S,
    summary: &ReportMark,
) -> Result<ReportDigests, FolderTrouble>
    ensures carried { IsTrue S.told → IfOk result (λ digests.
        HasRead summary.now (S.seen folder.old).report digests) }
    ensures seen { IsTrue S.told → S.seen folder.new ≡ S.seen folder.old }
    ensures crash { IsTrue S.told
        → Passes S.may_leave S.moment S.left_since Same folder.old folder.new }
    ensures cause { IsTrue S.told
        → HasCause (S.faults folder.old) (S.faults folder.new) result }
{
    let count = summary.bytes / PIECE_LEN as u64;
    let start = PIECE_LEN as u64 * count;
    let mut digests = ReportDigests::after(count, &summary.pieces);
    push_report(folder, start, summary.bytes, &mut digests)?;
    Ok(digests)
}

/// The digests of the report as a summary has them, to be carried on. Only what follows the whole
/// pieces is read, less than 4 MiB. `None` if the report is shorter than the summary says, or
/// the digest of those bytes differs.
///
/// A longer report is looked at up to the summary's length.
pub fn resume_digests<S: StateFolder>(
    folder: &mut S,
    summary: &ReportMark,
) -> Result<Option<ReportDigests>, FolderTrouble>
    ensures found { IsTrue S.told → IfOk result (λ found.
        IsSome found ↔ HasTail summary.now (S.seen folder.old).report) }
    ensures carried { IsTrue S.told → IfOk result (λ found. IfSome found (λ digests.
        (text : Bytes) → summary.now ≡ summary_of text
        → rest_of text ≡ rest_of (take summary.now.bytes (S.seen folder.old).report)
        → Carries digests text)) }
    ensures seen { IsTrue S.told → S.seen folder.new ≡ S.seen folder.old }
    ensures crash { IsTrue S.told
        → Passes S.may_leave S.moment S.left_since Same folder.old folder.new }
    ensures cause { IsTrue S.told
        → HasCause (S.faults folder.old) (S.faults folder.new) result }
{
    if folder.length()? < summary.bytes {
        return Ok(None);
    }
    let digests = digests_of_tail(folder, summary)?;
    Ok(digests.resumed(summary))
}
