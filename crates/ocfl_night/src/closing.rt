//! Closing the report of a cycle that has ended.
ghost use Rattle.std.specs.Prelude.{◌≡◌, ◌≢◌, ◌⊎◌, false, IfOk, IfSome, IsTrue, None, OnOk};
ghost use Rattle.ocfl_state.specs.{Content.{is_closed}, Crash.{Only, Passes}};
ghost use Rattle.ocfl_state.specs.Pieces.{summary_of};
ghost use Rattle.ocfl_state.specs.declared.checkpoint_parts.Phase.TheVariants.{Closing};
ghost use Rattle.ocfl_night.specs.Again.{OnlyGoesOn};
ghost use Rattle.ocfl_night.specs.{Beginning.{StandsAt, goes_on_at}, Ending.{cycle_ended}};
ghost use Rattle.ocfl_night.specs.{Promises.{IfReady, IsSafe, SameClosed}, Sound.{IsAllSaid, IsAt, IsOneMore, IsReady}};
ghost use Rattle.ocfl_night.specs.Steps.{IsClosedExactly, IsFinished, IsMoveDone, MayMoveAt, closes_whole};
ghost use Rattle.ocfl_night.specs.Stopping.{ForClose, ForNoOther, StopsFor};

use crate::checkpoint::{
    begun_anew, cycle_of, is_all_said, phase_of, put_checkpoint, report_of, whole_of,
};
use ocfl_state::{Checkpoint, Phase, StateFolder, may_close_whole};
use ocfl_terms::Stop;
use std::alloc::Global;

/// Closes the report as that of a cycle, unless one of that cycle is closed.
fn move_report<S: StateFolder>(folder: &mut S, cycle: u64, whole: bool) -> Result<(), Stop>
    ensures moved { IsTrue S.told → OnOk result
        (IsMoveDone cycle whole (S.seen folder.old) (S.seen folder.new)) }
    ensures durable { IsTrue S.told → OnOk result
        (Only (S.seen folder.old) (S.may_leave folder.old)
        → Only (S.seen folder.new) (S.may_leave folder.new)) }
    ensures crash { IsTrue S.told → Passes S.may_leave S.moment S.left_since
        (MayMoveAt cycle whole (S.seen folder.old)) folder.old folder.new }
    ensures stop { StopsFor (IsTrue S.told) ForNoOther
        (S.faults folder.old) (S.faults folder.new) result }
{
    if !folder.has_closed(cycle)? {
        folder.close(cycle, whole)?;
    }
    Ok(())
}

/// Closes the report as that of a checkpoint's cycle, unless one of that cycle is closed. It is
/// read once, and not closed as whole if it is another one than the checkpoint says.
fn move_as<S: StateFolder>(folder: &mut S, checkpoint: &Checkpoint) -> Result<(), Stop>
    ensures moved { IsTrue S.told → (IsTrue (is_closed (S.seen folder.old).closed
        checkpoint.now.cursor.cycle)
        ⊎ (checkpoint.now.report ≡ summary_of (S.seen folder.old).report))
        → OnOk result (IsMoveDone checkpoint.now.cursor.cycle
        (closes_whole checkpoint.now) (S.seen folder.old) (S.seen folder.new)) }
    ensures changed { IsTrue S.told → checkpoint.now.report ≢ summary_of (S.seen folder.old).report
        → OnOk result (IsMoveDone checkpoint.now.cursor.cycle
        false (S.seen folder.old) (S.seen folder.new)) }
    ensures closed { IsTrue S.told → OnOk result
        (IsClosedExactly checkpoint.now (S.seen folder.old) (S.seen folder.new)) }
    ensures durable { IsTrue S.told → OnOk result
        (Only (S.seen folder.old) (S.may_leave folder.old)
        → Only (S.seen folder.new) (S.may_leave folder.new)) }
    ensures crash { IsTrue S.told → (IsTrue (is_closed (S.seen folder.old).closed
        checkpoint.now.cursor.cycle)
        ⊎ (checkpoint.now.report ≡ summary_of (S.seen folder.old).report))
        → Passes S.may_leave S.moment S.left_since
        (MayMoveAt checkpoint.now.cursor.cycle (closes_whole checkpoint.now) (S.seen folder.old))
        folder.old folder.new }
    ensures stop { StopsFor (IsTrue S.told) ForNoOther
        (S.faults folder.old) (S.faults folder.new) result }
{
    let whole = may_close_whole(folder, &report_of(checkpoint), whole_of(checkpoint))?;
    move_report(folder, cycle_of(checkpoint), whole)
}

/// Closes the report of a cycle that has ended, and begins the next one. `Unsaid` if not all of
/// it was said.
fn close<S: StateFolder>(
    alloc: Global,
    folder: &mut S,
    checkpoint: Checkpoint,
) -> Result<Checkpoint, Stop>
    requires { checkpoint.phase ≡ Closing }
    ensures any_moment { IsTrue S.told → IsSafe S.StateFolder checkpoint folder.old folder.new }
    ensures ready { IsTrue S.told → IfReady S.StateFolder checkpoint folder.old
        (λ rounds t. IfOk result (λ next. IsReady S.StateFolder rounds t next folder.new)) }
    ensures closed { IsTrue S.told → IfReady S.StateFolder checkpoint folder.old
        (λ rounds _. OnOk result (IsOneMore rounds checkpoint.cursor.cycle
        (S.seen folder.old) (S.seen folder.new))) }
    ensures finished { IsTrue S.told → OnOk result
        (IsFinished checkpoint (S.seen folder.old) (S.seen folder.new)) }
    ensures crash { IsTrue S.told → OnlyGoesOn S.StateFolder checkpoint folder.old folder.new }
    ensures all { IfOk result (λ next. next.said ≡ next.report.bytes) }
    ensures stop { StopsFor (IsTrue S.told) (ForClose checkpoint)
        (S.faults folder.old) (S.faults folder.new) result }
{
    if !is_all_said(&checkpoint) {
        return Err(Stop::Unsaid);
    }
    move_as(folder, &checkpoint)?;
    let next = begun_anew(alloc, checkpoint);
    put_checkpoint(alloc, folder, &next)?;
    Ok(next)
}

/// Closes the report if the cycle has ended, and gives the number of that cycle.
pub fn finish<S: StateFolder>(
    alloc: Global,
    folder: &mut S,
    checkpoint: Checkpoint,
) -> Result<Option<u64>, Stop>
    ensures any_moment { IsTrue S.told → IsSafe S.StateFolder checkpoint folder.old folder.new }
    ensures closed { IsTrue S.told → IfReady S.StateFolder checkpoint folder.old
        (λ rounds _. IfOk result (λ ended. IfSome ended (λ cycle. IsOneMore rounds cycle
        (S.seen folder.old) (S.seen folder.new)))) }
    ensures goes_on { IsTrue S.told → IfOk result (λ ended. ended ≡ None
        → SameClosed S.StateFolder folder.old folder.new) }
    // The checkpoint is left where it stands, or at the beginning of the next cycle.
    ensures stands { IsTrue S.told → IsAt checkpoint (S.seen folder.old)
        → OnOk result (StandsAt (S.seen folder.new) (goes_on_at checkpoint)) }
    ensures said { IsTrue S.told → IfReady S.StateFolder checkpoint folder.old
        (λ _ _. checkpoint.said ≡ checkpoint.report.bytes
        → OnOk result (IsAllSaid (S.seen folder.new))) }
    // It is closed as whole exactly if nothing of it was lost, no branch was left out, and it is as
    // the checkpoint says. The next cycle begins as one of which nothing is lost or left out.
    ensures finished { IsTrue S.told → checkpoint.phase ≡ Closing → OnOk result
        (IsFinished checkpoint (S.seen folder.old) (S.seen folder.new)) }
    ensures crash { IsTrue S.told → OnlyGoesOn S.StateFolder checkpoint folder.old folder.new }
    ensures ended { IfOk result (λ ended. ended
        ≡ cycle_ended checkpoint.phase checkpoint.cursor.cycle) }
    ensures stop { StopsFor (IsTrue S.told) (ForClose checkpoint)
        (S.faults folder.old) (S.faults folder.new) result }
{
    match phase_of(&checkpoint) {
        Phase::Open => Ok(None),
        Phase::Closing => {
            let cycle = cycle_of(&checkpoint);
            close(alloc, folder, checkpoint)?;
            Ok(Some(cycle))
        }
    }
}
