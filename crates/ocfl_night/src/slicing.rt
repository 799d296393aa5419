//! A slice: one run, whose lines are appended, come to the disk, and then count.
ghost use Rattle.std.specs.Prelude.{◌≡◌, ◌≢◌, ◌⊎◌, ◌++◌, IfErr, IfNone, IfOk, IsTrue, OnErr, OnOk, length, true, ⊤};
ghost use Rattle.ocfl_tree.specs.{Ascending.{IsAscending}, Place.{Text, place_cmp}, StorageRoot.{StorageRoot}, Store.{IfTold}};
ghost use Rattle.ocfl_item.specs.Judging.{HasShortFiles};
ghost use Rattle.ocfl_scrub.specs.{Keeping.{IsReady as IsWalkReady, met_at}, Running.{IsWorn, begun, place_in}};
ghost use Rattle.ocfl_scrub.specs.Starting.{part_of};
ghost use Rattle.ocfl_scrub.specs.declared.running.RunStatus.TheVariants as run;
ghost use Rattle.ocfl_scrub.specs.declared.stop.ReportStop.TheVariants.{Output};
ghost use Rattle.ocfl_state.specs.{Content.{with_report}, Crash.{LeavesOnly, MayTear, Only, Passes}};
ghost use Rattle.ocfl_state.specs.Pieces.{summary_of};
ghost use Rattle.ocfl_state.specs.declared.checkpoint_parts.ReportMark.{ReportMark as ModelMark};
ghost use Rattle.ocfl_state.specs.declared.checkpoint_parts.Phase.TheVariants.{Closing, Open};
ghost use Rattle.ocfl_night.specs.Asking.{AskedFrom, GaveAll, IsMetBy, IsRunAndLook, IsUntroubled, MayAskFrom, OrTroubled};
ghost use Rattle.ocfl_night.specs.Chain.{part_after};
ghost use Rattle.ocfl_night.specs.Looks.{Counts, IsOneOf, Look, Rounds, WithLook, look_between};
ghost use Rattle.ocfl_night.specs.Halting.{FailedMore, stopped_at, unread_at};
ghost use Rattle.ocfl_night.specs.Again.{TookOrBegan, OnlyGoesOn};
ghost use Rattle.ocfl_night.specs.Ending.{IsAway, IsMadeBy, IsNextBy, IsSlice, IsUnkept, KeepsTo, lost_by, place_or_pause, slice_end};
ghost use Rattle.ocfl_night.specs.Promises.{IfReady, IfReadyIn, IfThere, IfWalkAt, IsSafeIn, SameClosed, StopsNextOver};
ghost use Rattle.ocfl_night.specs.Reading.{AreBeyond, AreDeclarations, HasRead, content_since, reached};
ghost use Rattle.ocfl_night.specs.{Site.{IsStill}, Sound.{IsAt, IsReady, IsSoundAt}};
ghost use Rattle.ocfl_night.specs.Steps.{IsNext, IsRun, IsWalkAt};
ghost use Rattle.ocfl_night.specs.declared.looking.NotKept.TheVariants.{Troubled};
ghost use Rattle.ocfl_night.specs.Stopping.{ForExtend, ForKeep, ForSlice, IsRunStop, StopsFor};

use crate::checkpoint::{cursor_of, put_checkpoint, report_of};
use crate::leaving::part_past;
use crate::looking::{NotKept, look_again};
use ocfl_cursor::{Cursor, Limits};
use ocfl_digest::Block;
use ocfl_identity::Identity;
use ocfl_scrub::{KeptWalk, Part, ReportStop, RunEnd, RunStatus, run_on};
use ocfl_state::{Checkpoint, FolderTrouble, Phase, ReportMark, StateFolder, append_marked};
use ocfl_terms::{Made, SliceEnd, Stop};
use ocfl_tree::Tree;
use std::alloc::Global;

/// Why a run leaves nothing: its lines did not go out whole, or it was not made.
fn lost(end: &RunStatus) -> Option<Stop>
    ensures made { IfNone result (end.now ≢ run.Worn) }
    ensures whole { IfNone result (end.now ≢ run.Stopped Output) }
    ensures why { result ≡ lost_by end.now }
{
    match end {
        RunStatus::Stopped(ReportStop::Output) => Some(Stop::Folder(FolderTrouble::Memory)),
        RunStatus::Worn => Some(Stop::Worn),
        RunStatus::Ended | RunStatus::Spent | RunStatus::Stopped(_) => None,
    }
}

/// Makes a run with the walk of the one before it, and looks at the root after it. Gives its lines
/// too.
fn make_run<T: Tree>(
    alloc: Global,
    tree: &mut T,
    part: &Part,
    identity: &Identity,
    kept: &mut KeptWalk,
    cursor: Cursor,
    limits: Limits,
    block: &mut Block,
) -> Result<(RunEnd, Vec<u8>), NotKept>
    ensures run { IfTold T.told (T.state tree.old) (λ root. HasShortFiles root
        → IsWalkReady cursor.further root (part_of part.now) (place_in cursor.state) kept.old
        → IfOk result (λ r. IsRun (part_of part.now) cursor
        (look_between cursor.further root (T.state tree.old) (T.state tree.new)) r.1.items r.0)) }
    ensures counts { IfTold T.told (T.state tree.old) (λ root. HasShortFiles root
        → IsWalkReady cursor.further root (part_of part.now) (place_in cursor.state) kept.old
        → Counts (T.state tree.old) (T.state tree.new)) }
    ensures beyond { AreDeclarations identity.now → IfTold T.told (T.state tree.old) (λ root.
        HasShortFiles root → IsWalkReady cursor.further root (part_of part.now)
        (place_in cursor.state) kept.old
        → AreBeyond (begun cursor).state
        (content_since cursor.further root (T.state tree.old) (T.state tree.new))) }
    ensures read { AreDeclarations identity.now → IfTold T.told (T.state tree.old) (λ root.
        HasShortFiles root → IsWalkReady cursor.further root (part_of part.now)
        (place_in cursor.state) kept.old
        → IfOk result (λ r. HasRead (T.state tree.old) (T.state tree.new)
        (begun cursor).state r.0.cursor.state (place_or_pause (slice_end r.0.end))
        (content_since cursor.further root (T.state tree.old) (T.state tree.new)))) }
    ensures took { AreDeclarations identity.now → IfTold T.told (T.state tree.old) (λ root.
        HasShortFiles root → IsWalkReady cursor.further root (part_of part.now)
        (place_in cursor.state) kept.old
        → IfOk result (λ r. TookOrBegan r.0.cursor.state (slice_end r.0.end)
        (content_since cursor.further root (T.state tree.old) (T.state tree.new)))) }
    ensures once { AreDeclarations identity.now → IfTold T.told (T.state tree.old) (λ root.
        HasShortFiles root → IsWalkReady cursor.further root (part_of part.now)
        (place_in cursor.state) kept.old
        → IsAscending place_cmp (content_since cursor.further root (T.state tree.old)
        (T.state tree.new))) }
    ensures asks { IfTold T.told (T.state tree.old) (λ root. HasShortFiles root
        → IsWalkReady cursor.further root (part_of part.now) (place_in cursor.state) kept.old
        → IfOk result (λ r. IsRunAndLook root (part_of part.now) identity.now.declarations.items
        (met_at kept.old) cursor (λ ran. ran ≡ r.0) (T.state tree.old) (T.state tree.new))) }
    ensures unmade { IfTold T.told (T.state tree.old) (λ root. HasShortFiles root
        → IsWalkReady cursor.further root (part_of part.now) (place_in cursor.state) kept.old
        → IfErr result (λ why. OrTroubled why (T.state tree.new ≡ T.state tree.old)
        (IsRunAndLook root (part_of part.now) identity.now.declarations.items
        (met_at kept.old) cursor (λ ran. ⊤) (T.state tree.old) (T.state tree.new)))) }
    ensures met { IfOk result (λ r. IsMetBy (slice_end r.0.end) (met_at kept.new)) }
    ensures failed { IfTold T.told (T.state tree.old) (λ root. HasShortFiles root
        → IsWalkReady cursor.further root (part_of part.now) (place_in cursor.state) kept.old
        → IfOk result (λ r. FailedMore (T.state tree.old) (T.state tree.new)
        (stopped_at (slice_end r.0.end)))) }
    ensures unread { IfTold T.told (T.state tree.old) (λ root. HasShortFiles root
        → IsWalkReady cursor.further root (part_of part.now) (place_in cursor.state) kept.old
        → IfErr result (λ why. FailedMore (T.state tree.old) (T.state tree.new)
        (unread_at why))) }
    ensures walk { IfTold T.told (T.state tree.old) (λ root. HasShortFiles root
        → IsWalkReady cursor.further root (part_of part.now) (place_in cursor.state) kept.old
        → IfOk result (λ r. IsWalkReady r.0.cursor.further root (part_of part.now)
        (place_in r.0.cursor.state)
        kept.new)) }
    ensures root { IfTold T.told (T.state tree.old) (λ root. HasShortFiles root
        → IsWalkReady cursor.further root (part_of part.now) (place_in cursor.state) kept.old
        → (T.state tree.new).tree ≡ root) }
    ensures still { IsTrue T.told → OnOk result (IsStill identity.now (T.state tree.new).tree) }
    ensures keeps { IfOk result (λ r. KeepsTo cursor limits r.0) }
    ensures stop { IfErr result (IsRunStop (IsWorn cursor)) }
{
    let mut lines: Vec<u8> = Vec::new(alloc);
    let ran = run_on(alloc, tree, part, kept, cursor, limits, block, &mut lines);
    if let Some(why) = lost(&ran.end) {
        return Err(NotKept::Troubled(why));
    }
    look_again(alloc, tree, identity, block)?;
    Ok((ran, lines))
}

/// Appends the lines of a run to the report, of which a checkpoint keeps a mark, and brings them to
/// the disk. Gives the mark of what it is then.
fn extend<S: StateFolder>(
    folder: &mut S,
    mark: &ReportMark,
    lines: &[u8],
) -> Result<ReportMark, Stop>
    ensures grown { IsTrue S.told → OnOk result (S.seen folder.new
        ≡ with_report ((S.seen folder.old).report ++ lines.now) (S.seen folder.old)) }
    ensures mark { IsTrue S.told → mark.now ≡ summary_of (S.seen folder.old).report
        → IfOk result (λ next. next ≡ summary_of (S.seen folder.new).report) }
    ensures only { IsTrue S.told → OnOk result
        (Only (S.seen folder.new) (S.may_leave folder.new)) }
    ensures crash { IsTrue S.told → Passes S.may_leave S.moment S.left_since
        (MayTear (length (S.seen folder.old).report)
        (length ((S.seen folder.old).report ++ lines.now))) folder.old folder.new }
    ensures stop { StopsFor (IsTrue S.told)
        (ForExtend mark.now (S.seen folder.old))
        (S.faults folder.old) (S.faults folder.new) result }
{
    let next = append_marked(folder, mark, lines)?;
    folder.sync()?;
    Ok(next)
}

/// How a slice ended whose run is kept.
fn end_of(end: RunStatus) -> SliceEnd
    ensures { result ≡ slice_end end }
{
    match end {
        RunStatus::Ended => SliceEnd::Ended,
        RunStatus::Stopped(ReportStop::Fault(why)) => SliceEnd::Stopped(why),
        RunStatus::Stopped(ReportStop::Output) | RunStatus::Spent | RunStatus::Worn => {
            SliceEnd::Spent
        }
    }
}

/// The phase after a run that ended so. That of the run that ended the cycle is itself `Closing`.
fn phase_after(end: &RunStatus) -> Phase
    ensures ended { end.now ≡ run.Ended → result ≡ Closing }
    ensures goes_on { end.now ≢ run.Ended → result ≡ Open }
{
    match end {
        RunStatus::Ended => Phase::Closing,
        RunStatus::Spent | RunStatus::Stopped(_) | RunStatus::Worn => Phase::Open,
    }
}

/// The checkpoint after a run, of which it keeps the report so.
fn after_run(mut checkpoint: Checkpoint, ran: RunEnd, report: ReportMark) -> Made
    ensures next { IsNext checkpoint ran report result.checkpoint }
    ensures made { IsMadeBy ran result }
{
    let RunEnd {
        cursor,
        spent,
        files,
        found,
        end,
    } = ran;
    checkpoint.phase = phase_after(&end);
    checkpoint.report = report;
    checkpoint.cursor = cursor;
    Made {
        checkpoint,
        spent,
        files,
        found,
        end: end_of(end),
    }
}

/// A slice of whose run nothing is kept, and why: `Err` if something is troubled.
fn unkept(checkpoint: Checkpoint, why: NotKept) -> Result<Made, Stop>
    ensures unkept { IfOk result (IsUnkept checkpoint) }
    ensures at { IfOk result (λ made. stopped_at made.end ≡ unread_at why) }
    ensures untroubled { IfOk result (λ _. IsUntroubled why) }
    ensures stop { IfErr result (λ stop. why ≡ Troubled stop) }
{
    match why {
        NotKept::Troubled(why) => Err(why),
        NotKept::RootChanged => Ok(unmade(checkpoint, SliceEnd::RootChanged)),
        NotKept::Unread(place) => Ok(unmade(checkpoint, SliceEnd::Unread(place))),
    }
}

/// A slice of which nothing is kept, and that ended so.
fn unmade(checkpoint: Checkpoint, end: SliceEnd) -> Made
    ensures unkept { IsAway end → IsUnkept checkpoint result }
    ensures end { result.end ≡ end }
{
    Made {
        checkpoint,
        spent: 0,
        files: 0,
        found: false,
        end,
    }
}

/// Keeps the lines of a run that was made from a checkpoint's cursor, and puts the checkpoint after
/// it.
fn keep<S: StateFolder>(
    alloc: Global,
    folder: &mut S,
    checkpoint: Checkpoint,
    ran: RunEnd,
    lines: &[u8],
) -> Result<Made, Stop>
    requires { checkpoint.phase ≡ Open }
    ensures any_moment { IsTrue S.told → (rounds : Rounds) (look : Look)
        → IsOneOf rounds.known look
        → IsRun (part_after rounds.part checkpoint.left) checkpoint.cursor look lines.now ran
        → (t : Text) → IsReady S.StateFolder rounds t checkpoint folder.old
        → LeavesOnly S.moment S.left_since folder.old folder.new (IsSoundAt rounds t) }
    ensures ready { IsTrue S.told → (rounds : Rounds) (look : Look)
        → IsOneOf rounds.known look
        → IsRun (part_after rounds.part checkpoint.left) checkpoint.cursor look lines.now ran
        → (t : Text) → IsReady S.StateFolder rounds t checkpoint folder.old
        → IfOk result (λ made. IsReady S.StateFolder rounds t made.checkpoint folder.new) }
    ensures closed { IsTrue S.told → OnOk result (SameClosed S.StateFolder folder.old folder.new) }
    ensures next { IfOk result (λ made. (report : ModelMark)
        × IsNext checkpoint ran report made.checkpoint) }
    ensures made { IfOk result (IsMadeBy ran) }
    ensures crash { IsTrue S.told → IfReady S.StateFolder checkpoint folder.old (λ _ _.
        LeavesOnly S.moment S.left_since folder.old folder.new (λ c. IfThere c (λ k.
        (k ≡ checkpoint) ⊎ IsNextBy checkpoint ran k))) }
    ensures at { IsTrue S.told → IfOk result (λ made. IsAt made.checkpoint (S.seen folder.new)) }
    ensures stop { StopsFor (IsTrue S.told) (ForKeep (IsNextBy checkpoint ran) checkpoint
        (S.seen folder.old)) (S.faults folder.old) (S.faults folder.new) result }
{
    let mark = report_of(&checkpoint);
    let report = extend(folder, &mark, lines)?;
    let made = after_run(checkpoint, ran, report);
    put_checkpoint(alloc, folder, &made.checkpoint)?;
    Ok(made)
}

/// Makes one run from a checkpoint's cursor, past the branches that were left out, and the
/// checkpoint after it. The root is looked at after the run: if it is gone, or another one,
/// nothing of the run is kept.
///
/// The run goes on with the walk that the slice before it kept, if it was made from the
/// checkpoint that one gave; after a slice that the limits did not end, none is kept.
pub fn slice<S: StateFolder, T: Tree>(
    alloc: Global,
    folder: &mut S,
    tree: &mut T,
    part: &Part,
    identity: &Identity,
    kept: &mut KeptWalk,
    checkpoint: Checkpoint,
    limits: Limits,
    block: &mut Block,
) -> Result<Made, Stop>
    requires { checkpoint.phase ≡ Open }
    ensures any_moment { IsTrue S.told → IfWalkAt T.told (T.state tree.old)
        (part_of part.now) checkpoint kept.old (λ root. WithLook checkpoint.cursor.further
        (part_of part.now)
        (look_between checkpoint.cursor.further root (T.state tree.old) (T.state tree.new))
        (λ rounds. IsSafeIn S.StateFolder rounds checkpoint folder.old folder.new)) }
    ensures ready { IsTrue S.told → IfWalkAt T.told (T.state tree.old)
        (part_of part.now) checkpoint kept.old (λ root. WithLook checkpoint.cursor.further
        (part_of part.now)
        (look_between checkpoint.cursor.further root (T.state tree.old) (T.state tree.new))
        (λ rounds. IfReadyIn S.StateFolder rounds checkpoint folder.old (λ t. IfOk result
        (λ made. IsReady S.StateFolder rounds t made.checkpoint folder.new)))) }
    ensures closed { IsTrue S.told → OnOk result (SameClosed S.StateFolder folder.old folder.new) }
    ensures root { IfWalkAt T.told (T.state tree.old) (part_of part.now) checkpoint kept.old
        (λ root. (T.state tree.new).tree ≡ root) }
    ensures counts { IfWalkAt T.told (T.state tree.old) (part_of part.now) checkpoint kept.old
        (λ root. Counts (T.state tree.old) (T.state tree.new)) }

    // It opens no content file that the checkpoint has taken. If nothing fails, it opens each once,
    // in order, and the checkpoint after it has taken them.
    ensures beyond { AreDeclarations identity.now → IfWalkAt T.told (T.state tree.old)
        (part_of part.now) checkpoint kept.old (λ root. AreBeyond (reached checkpoint)
        (content_since checkpoint.cursor.further root (T.state tree.old) (T.state tree.new))) }
    ensures read { AreDeclarations identity.now → IfWalkAt T.told (T.state tree.old)
        (part_of part.now) checkpoint kept.old (λ root. IfOk result (λ made. HasRead
        (T.state tree.old) (T.state tree.new) (reached checkpoint) (reached made.checkpoint)
        (place_or_pause made.end) (content_since checkpoint.cursor.further root (T.state tree.old)
        (T.state tree.new)))) }

    // It opens each content file once, in order, however it ends. Of those it has taken all when it
    // ends, or all but one if it stopped. Whenever a crash comes, what had been taken still is.
    ensures once { AreDeclarations identity.now → IfWalkAt T.told (T.state tree.old)
        (part_of part.now) checkpoint kept.old (λ root.
        IsAscending place_cmp (content_since checkpoint.cursor.further root (T.state tree.old)
        (T.state tree.new))) }
    ensures took { AreDeclarations identity.now → IfWalkAt T.told (T.state tree.old)
        (part_of part.now) checkpoint kept.old (λ root. IfOk result (λ made.
        TookOrBegan (reached made.checkpoint) made.end
        (content_since checkpoint.cursor.further root (T.state tree.old) (T.state tree.new)))) }
    ensures crash { IsTrue S.told → AreDeclarations identity.now → IfWalkAt T.told
        (T.state tree.old) (part_of part.now) checkpoint kept.old (λ root.
        OnlyGoesOn S.StateFolder checkpoint folder.old folder.new) }

    // Its store is asked for what the run asks for, with the walk that is kept. Then nothing is
    // listed, and no file is opened but those that declare the root. If it makes nothing, maybe no
    // run is made.
    ensures asks { IfWalkAt T.told (T.state tree.old) (part_of part.now) checkpoint kept.old
        (λ root. IfOk result (λ made. AskedFrom root (part_of part.now)
        identity.now.declarations.items (met_at kept.old) checkpoint (GaveAll checkpoint made)
        (T.state tree.old) (T.state tree.new))) }
    ensures asks_no_more { IfWalkAt T.told (T.state tree.old) (part_of part.now) checkpoint
        kept.old (λ root. OnErr result (MayAskFrom root (part_of part.now)
        identity.now.declarations.items (met_at kept.old) checkpoint
        (T.state tree.old) (T.state tree.new))) }

    // The next slice may go on with the walk that is kept. It is kept exactly if the limits ended
    // the run.
    ensures met { IfOk result (λ made. IsMetBy made.end (met_at kept.new)) }
    ensures walk { IfWalkAt T.told (T.state tree.old) (part_of part.now) checkpoint kept.old
        (λ root. IfOk result (λ made. IsWalkAt root (part_of part.now) made.checkpoint kept.new)) }

    // If it stopped at a place, no item that is left is before the branch of that place.
    ensures stops { IfWalkAt T.told (T.state tree.old) (part_of part.now) checkpoint kept.old
        (λ root. IfOk result (StopsNextOver root (part_of part.now))) }

    // And the store failed there. So it did if the root could not be looked at after the run.
    ensures failed { IfWalkAt T.told (T.state tree.old) (part_of part.now) checkpoint kept.old
        (λ root. IfOk result (λ made. FailedMore (T.state tree.old) (T.state tree.new)
        (stopped_at made.end))) }

    // What it counts is what a run within the limits did, or nothing is kept of it.
    ensures slice { IfOk result (IsSlice checkpoint limits) }

    // Nothing is kept of a run after which the root is not the one of before.
    ensures still { IsTrue S.told → IsTrue T.told → (S.seen folder.new ≡ S.seen folder.old)
        ⊎ IsStill identity.now (T.state tree.new).tree }
    ensures at { IsTrue S.told → IsAt checkpoint (S.seen folder.old)
        → IfOk result (λ made. IsAt made.checkpoint (S.seen folder.new)) }
    ensures stop { StopsFor (IsTrue S.told) (ForSlice limits checkpoint (S.seen folder.old))
        (S.faults folder.old) (S.faults folder.new) result }
{
    let cursor = cursor_of(&checkpoint)?;
    let rest = part_past(alloc, part, checkpoint.left.as_slice())?;
    let (ran, lines) = match make_run(alloc, tree, &rest, identity, kept, cursor, limits, block) {
        Ok(made) => made,
        Err(why) => {
            kept.forget();
            return unkept(checkpoint, why);
        }
    };
    keep(alloc, folder, checkpoint, ran, &lines)
}
