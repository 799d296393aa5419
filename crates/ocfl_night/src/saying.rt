//! Saying what was not said.
ghost use Rattle.std.specs.Prelude.{◌≡◌, ◌+◌, ◌-◌, ◌≤◌, IfOk, IsTrue, OnOk, take, drop};
ghost use Rattle.std.specs.Io.KnownBytes.{Appends};
ghost use Rattle.ocfl_state.specs.Crash.{LeavesOnly, Passes, Same};
ghost use Rattle.ocfl_night.specs.Again.{OnlyGoesOn};
ghost use Rattle.ocfl_terms.specs.Output.{Grows, HasCommitted};
ghost use Rattle.ocfl_night.specs.{Promises.{IfReady, SameClosed}, Sound.{IsAt, IsHeard, IsHeardReady}};
ghost use Rattle.ocfl_night.specs.Steps.{unsaid, with_all_said};
ghost use Rattle.ocfl_night.specs.Stopping.{ForSay, ForSpeak, StopsFor};

use crate::checkpoint::{
    bytes_of, is_all_said, put_checkpoint, said_of, tells_within, with_all_said,
};
use ocfl_state::{Checkpoint, StateFolder};
use ocfl_terms::{Output, Stop};
use std::alloc::Global;

// How many bytes are read at once.
const PIECE: usize = 8_192;

/// Gives the output a piece of the report that begins at an offset, and answers how many bytes that
/// were: 1 to the most that are asked for. `Short` if the report has no more.
fn say_piece<S: StateFolder, O: Output>(
    folder: &mut S,
    out: &mut O,
    start: u64,
    most: u64,
) -> Result<u64, Stop>
    requires { 1 ≤ most }
    ensures some { IfOk result (λ count. (1 ≤ count) × (count ≤ most)) }
    ensures said { IsTrue S.told → IfOk result (λ count. Appends (O.said out.old).given
        (O.said out.new).given (take count (drop start (S.seen folder.old).report))) }
    ensures grew { Grows (O.said out.old) (O.said out.new) }
    ensures seen { IsTrue S.told → S.seen folder.new ≡ S.seen folder.old }
    ensures crash { IsTrue S.told
        → Passes S.may_leave S.moment S.left_since Same folder.old folder.new }
    ensures stop { StopsFor (IsTrue S.told) (ForSay (S.seen folder.old) (start + most)
        (O.said out.old) (O.said out.new)) (S.faults folder.old) (S.faults folder.new) result }
{
    let mut piece = [0; PIECE];
    let count = folder.read(start, &mut piece)?;
    if count == 0 {
        return Err(Stop::Short);
    }
    let given = (count as u64).min(most);
    out.give(&piece[..given as usize])?;
    Ok(given)
}

/// Gives the output the report's bytes from one offset to another.
#[tactic(auto, using(crate::proofs::Heard::grows_none))]
fn say_between<S: StateFolder, O: Output>(
    folder: &mut S,
    out: &mut O,
    start: u64,
    end: u64,
) -> Result<(), Stop>
    requires { start ≤ end }
    ensures said { IsTrue S.told → OnOk result (Appends (O.said out.old).given
        (O.said out.new).given (take (end - start) (drop start (S.seen folder.old).report))) }
    ensures grew { Grows (O.said out.old) (O.said out.new) }
    ensures seen { IsTrue S.told → S.seen folder.new ≡ S.seen folder.old }
    ensures crash { IsTrue S.told
        → Passes S.may_leave S.moment S.left_since Same folder.old folder.new }
    ensures stop { StopsFor (IsTrue S.told) (ForSay (S.seen folder.old) end
        (O.said out.old) (O.said out.new)) (S.faults folder.old) (S.faults folder.new) result }
{
    let mut at = start;
    while at < end {
        at += say_piece(folder, out, at, end - at)?;
    }
    Ok(())
}

/// Says what was not said of the report: the output has committed it.
fn say_rest<S: StateFolder, O: Output>(
    folder: &mut S,
    out: &mut O,
    checkpoint: &Checkpoint,
) -> Result<(), Stop>
    requires { checkpoint.now.said ≤ checkpoint.now.report.bytes }
    ensures said { IsTrue S.told → OnOk result (HasCommitted
        (unsaid checkpoint.now (S.seen folder.old)) (O.said out.old) (O.said out.new)) }
    ensures grew { Grows (O.said out.old) (O.said out.new) }
    ensures seen { IsTrue S.told → S.seen folder.new ≡ S.seen folder.old }
    ensures crash { IsTrue S.told
        → Passes S.may_leave S.moment S.left_since Same folder.old folder.new }
    ensures stop { StopsFor (IsTrue S.told) (ForSay (S.seen folder.old)
        checkpoint.now.report.bytes (O.said out.old) (O.said out.new))
        (S.faults folder.old) (S.faults folder.new) result }
{
    say_between(folder, out, said_of(checkpoint), bytes_of(checkpoint))?;
    out.commit()?;
    Ok(())
}

/// Says what was not said of the report, and then puts a checkpoint that says so.
pub fn speak<S: StateFolder, O: Output>(
    alloc: Global,
    folder: &mut S,
    out: &mut O,
    checkpoint: Checkpoint,
) -> Result<Checkpoint, Stop>
    ensures heard { IsTrue S.told → IfReady S.StateFolder checkpoint folder.old
        (λ rounds t. LeavesOnly S.moment S.left_since folder.old folder.new
        (IsHeard rounds t (O.said out.old) (O.said out.new))) }
    ensures ready { IsTrue S.told → IfReady S.StateFolder checkpoint folder.old
        (λ rounds t. IfOk result (λ next. IsHeardReady S.StateFolder rounds t
        (O.said out.old) (O.said out.new) next folder.new)) }
    ensures all { IfOk result (λ next. next ≡ with_all_said checkpoint) }
    ensures crash { IsTrue S.told → OnlyGoesOn S.StateFolder checkpoint folder.old folder.new }
    ensures grew { Grows (O.said out.old) (O.said out.new) }
    ensures closed { IsTrue S.told → OnOk result (SameClosed S.StateFolder folder.old folder.new) }
    ensures at { IsTrue S.told → IsAt checkpoint (S.seen folder.old)
        → IfOk result (λ next. IsAt next (S.seen folder.new)) }
    ensures stop { StopsFor (IsTrue S.told) (ForSpeak checkpoint (S.seen folder.old)
        (O.said out.old) (O.said out.new)) (S.faults folder.old) (S.faults folder.new) result }
{
    if is_all_said(&checkpoint) {
        return Ok(checkpoint);
    }
    if !tells_within(&checkpoint) {
        return Err(Stop::Oversaid);
    }
    say_rest(folder, out, &checkpoint)?;
    let next = with_all_said(checkpoint);
    put_checkpoint(alloc, folder, &next)?;
    Ok(next)
}
