//! Whether a checkpoint is older than the reports beside it.
ghost use Rattle.std.specs.Prelude.{◌≡◌, ◌+◌, ◌<◌, ◌^◌, ℕ, [], IfOk, IfSome, IsTrue, None, OnOk, false};
ghost use Rattle.ocfl_state.specs.{Content.{is_closed}, Crash.{Passes, Same}};
ghost use Rattle.ocfl_state.specs.declared.checkpoint_parts.Phase.TheVariants.{Closing};
ghost use Rattle.ocfl_night.specs.Older.{IsBesides, IsNumber, IsOlder, IsToCome};
ghost use Rattle.ocfl_night.specs.{Refusing.{IfRefused, IsOutdated}, Stopping.{ForNoOther, OpensFor, StopsFor}};

use crate::checkpoint::{cycle_of, open_cycle_of, phase_of};
use crate::not_opened::NotOpened;
use ocfl_state::{Checkpoint, Phase, StateFolder};
use ocfl_terms::{Refusal, Stop};

/// The cycle after one, if it has a number.
fn cycle_after(cycle: Option<u64>) -> Option<u64>
    ensures { (n : ℕ) → IsNumber cycle n → IsNumber result (n + 1) }
{
    match cycle {
        Some(cycle) => cycle.checked_add(1),
        None => None,
    }
}

/// The same cycle, if its report is closed.
fn closed_at<S: StateFolder>(folder: &mut S, cycle: Option<u64>) -> Result<Option<u64>, Stop>
    ensures closed { IsTrue S.told → (n : ℕ) → IsNumber cycle n → IfOk result (λ found.
        IfSome found (λ m. (m ≡ n) × IsTrue (is_closed (S.seen folder.old).closed m))) }
    ensures none { IsTrue S.told → (n : ℕ) → IsNumber cycle n → n < 2 ^ 64
        → IfOk result (λ found. found ≡ None
        → is_closed (S.seen folder.old).closed n ≡ false) }
    ensures seen { IsTrue S.told → S.seen folder.new ≡ S.seen folder.old }
    ensures crash { IsTrue S.told
        → Passes S.may_leave S.moment S.left_since Same folder.old folder.new }
    ensures stop { StopsFor (IsTrue S.told) ForNoOther
        (S.faults folder.old) (S.faults folder.new) result }
{
    let Some(number) = cycle else {
        return Ok(None);
    };
    if folder.has_closed(number)? {
        return Ok(Some(number));
    }
    Ok(None)
}

/// The first cycle that is to come by a checkpoint, and whose report is closed.
fn closed_to_come<S: StateFolder>(
    folder: &mut S,
    checkpoint: &Checkpoint,
) -> Result<Option<u64>, Stop>
    ensures closed { IsTrue S.told → IfOk result (λ found. IfSome found (λ n.
        IsToCome checkpoint.now n × IsTrue (is_closed (S.seen folder.old).closed n))) }
    ensures none { IsTrue S.told → IfOk result (λ found. found ≡ None → (n : ℕ) → n < 2 ^ 64
        → IsToCome checkpoint.now n → is_closed (S.seen folder.old).closed n ≡ false) }
    ensures seen { IsTrue S.told → S.seen folder.new ≡ S.seen folder.old }
    ensures crash { IsTrue S.told
        → Passes S.may_leave S.moment S.left_since Same folder.old folder.new }
    ensures stop { StopsFor (IsTrue S.told) ForNoOther
        (S.faults folder.old) (S.faults folder.new) result }
{
    let open = open_cycle_of(checkpoint);
    match closed_at(folder, open)? {
        Some(cycle) => Ok(Some(cycle)),
        None => closed_at(folder, cycle_after(open)),
    }
}

/// The cycle whose report is to be closed by a checkpoint, if it is closed and there is another
/// report besides.
fn closed_besides<S: StateFolder>(
    folder: &mut S,
    checkpoint: &Checkpoint,
) -> Result<Option<u64>, Stop>
    ensures closed { IsTrue S.told → IfOk result (λ found. IfSome found
        (IsBesides checkpoint.now (S.seen folder.old))) }
    ensures none { IsTrue S.told → IfOk result (λ found. found ≡ None → (n : ℕ) → n < 2 ^ 64
        → IsBesides checkpoint.now (S.seen folder.old) n → ⊥) }
    ensures seen { IsTrue S.told → S.seen folder.new ≡ S.seen folder.old }
    ensures crash { IsTrue S.told
        → Passes S.may_leave S.moment S.left_since Same folder.old folder.new }
    ensures stop { StopsFor (IsTrue S.told) ForNoOther
        (S.faults folder.old) (S.faults folder.new) result }
{
    match phase_of(checkpoint) {
        Phase::Open => Ok(None),
        Phase::Closing => {
            if folder.length()? == 0 {
                return Ok(None);
            }
            closed_at(folder, Some(cycle_of(checkpoint)))
        }
    }
}

/// Refuses a checkpoint that is older than the reports.
pub(crate) fn refuse_older<S: StateFolder>(
    folder: &mut S,
    checkpoint: &Checkpoint,
) -> Result<(), NotOpened>
    ensures newest { IsTrue S.told → OnOk result ((n : ℕ) → n < 2 ^ 64
        → IsOlder checkpoint.now (S.seen folder.old) n → ⊥) }
    ensures rightly { IsTrue S.told
        → IfRefused result (IsOutdated checkpoint.now (S.seen folder.old)) }
    ensures seen { IsTrue S.told → S.seen folder.new ≡ S.seen folder.old }
    ensures crash { IsTrue S.told
        → Passes S.may_leave S.moment S.left_since Same folder.old folder.new }
    ensures stop { OpensFor (IsTrue S.told) ForNoOther
        (S.faults folder.old) (S.faults folder.new) result }
{
    if let Some(cycle) = closed_to_come(folder, checkpoint)? {
        return Err(NotOpened::Refused(Refusal::Older(cycle)));
    }
    if let Some(cycle) = closed_besides(folder, checkpoint)? {
        return Err(NotOpened::Refused(Refusal::Older(cycle)));
    }
    Ok(())
}
