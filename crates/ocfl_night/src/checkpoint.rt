//! The checkpoint: reading it in the folder, putting it there, and what is made of one.
ghost use Rattle.std.specs.Prelude.{◌≡◌, ◌≤◌, ◌↔◌, [], IfErr, IfOk, OnOk, IsTrue, MatchOption, None};
ghost use Rattle.ocfl_tree.specs.Place.{Text};
ghost use Rattle.ocfl_state.specs.CheckpointRefusal.{RefusedRightly};
ghost use Rattle.ocfl_state.specs.{Checkpoint.{IsCheckpointText}, Crash.{Same, Only, Passes}};
ghost use Rattle.ocfl_night.specs.Older.{IsNumber, open_cycle};
ghost use Rattle.ocfl_night.specs.{Refusing.{HasUnread, IfRefused, IsUnread}, Site.{no_report}, Sound.{IsAt}};
ghost use Rattle.ocfl_night.specs.Stopping.{ForLook, ForPut, IsReadStop, IsTextStop, OpensFor, StopsFor};
ghost use Rattle.ocfl_terms.specs.declared.refusal.Refusal.{Refusal as ModelRefusal};
ghost use Rattle.ocfl_night.specs.Steps.{IsCheckpointPut, MayCheckpoint, begun_anew};
ghost use Rattle.ocfl_night.specs.Steps.{closes_whole, with_all_said};

use crate::not_opened::NotOpened;
use ocfl_cursor::{Cursor, Refused, State};
use ocfl_state::{
    Checkpoint, FolderTrouble, MOST_CHECKPOINT, Phase, ReportDigests, ReportMark, StateFolder,
    decode_checkpoint, encode_checkpoint, every_checkpoint_fits,
};
use ocfl_terms::{Refusal, Stop};
use std::alloc::{AllocError, Global};

// ---- what one says

pub(crate) fn phase_of(checkpoint: &Checkpoint) -> Phase
    ensures { result ≡ checkpoint.now.phase }
{
    checkpoint.phase
}

/// Whether its cycle is closed as whole: nothing of the report was lost, and no branch is left out.
pub(crate) fn whole_of(checkpoint: &Checkpoint) -> bool
    ensures { result ≡ closes_whole checkpoint.now }
{
    checkpoint.whole && checkpoint.left.is_empty()
}

pub(crate) fn bytes_of(checkpoint: &Checkpoint) -> u64
    ensures { result ≡ checkpoint.now.report.bytes }
{
    checkpoint.report.bytes
}

/// What it keeps of the report.
pub(crate) fn report_of(checkpoint: &Checkpoint) -> ReportMark
    ensures { result ≡ checkpoint.now.report }
{
    checkpoint.report
}

pub(crate) fn said_of(checkpoint: &Checkpoint) -> u64
    ensures { result ≡ checkpoint.now.said }
{
    checkpoint.said
}

pub(crate) fn cycle_of(checkpoint: &Checkpoint) -> u64
    ensures { result ≡ checkpoint.now.cursor.cycle }
{
    checkpoint.cursor.cycle()
}

/// The cycle that is open, or comes after one that has ended. `None` if it has no number.
pub(crate) fn open_cycle_of(checkpoint: &Checkpoint) -> Option<u64>
    ensures { IsNumber result (open_cycle checkpoint.now) }
{
    let cursor = &checkpoint.cursor;
    match cursor.state() {
        State::Start | State::After(_) => Some(cursor.cycle()),
        State::Ended => cursor.cycle().checked_add(1),
    }
}

/// Whether all of the report is said.
pub(crate) fn is_all_said(checkpoint: &Checkpoint) -> bool
    ensures { IsTrue result ↔ (checkpoint.now.said ≡ checkpoint.now.report.bytes) }
{
    checkpoint.said == checkpoint.report.bytes
}

/// Whether no more was said than the report has.
pub(crate) fn tells_within(checkpoint: &Checkpoint) -> bool
    ensures { IsTrue result ↔ (checkpoint.now.said ≤ checkpoint.now.report.bytes) }
{
    checkpoint.said <= checkpoint.report.bytes
}

/// The state of a cursor again.
fn state_again(state: &State) -> Result<State, AllocError>
    ensures { IfOk result (λ again. again ≡ state.now) }
{
    match state {
        State::Start => Ok(State::Start),
        State::After(place) => Ok(State::After(place.try_clone()?)),
        State::Ended => Ok(State::Ended),
    }
}

/// A copy of the cursor.
fn cursor_again(cursor: &Cursor) -> Result<Cursor, AllocError>
    ensures { IfOk result (λ again. again ≡ cursor.now) }
{
    let state = state_again(cursor.state())?;
    match Cursor::from_parts(
        cursor.cycle(),
        cursor.runs(),
        cursor.spent(),
        cursor.files(),
        cursor.further(),
        state,
    ) {
        Some(again) => Ok(again),
        None => unreachable!(),
    }
}

/// The cursor of a checkpoint, which keeps it.
pub(crate) fn cursor_of(checkpoint: &Checkpoint) -> Result<Cursor, AllocError>
    ensures { IfOk result (λ cursor. cursor ≡ checkpoint.now.cursor) }
{
    cursor_again(&checkpoint.cursor)
}

// ---- what is made of one

/// What a checkpoint keeps of an empty report.
pub(crate) fn no_report() -> ReportMark
    ensures { result ≡ no_report }
{
    let digests = ReportDigests::new();
    digests.summary()
}

/// The checkpoint once all of its report is said.
pub(crate) fn with_all_said(mut checkpoint: Checkpoint) -> Checkpoint
    ensures { result ≡ with_all_said checkpoint }
{
    checkpoint.said = checkpoint.report.bytes;
    checkpoint
}

/// The checkpoint of the next cycle, of whose report there is nothing yet.
pub(crate) fn begun_anew(alloc: Global, mut checkpoint: Checkpoint) -> Checkpoint
    ensures { result ≡ begun_anew checkpoint }
{
    let report = no_report();
    checkpoint.phase = Phase::Open;
    checkpoint.whole = true;
    checkpoint.report = report;
    checkpoint.said = 0;
    checkpoint.left = Vec::new(alloc);
    checkpoint
}

// ---- in the folder

/// The text of a checkpoint, which is read as that checkpoint. `Oversaid` if it counts more as
/// said than its report has.
fn text_of(alloc: Global, checkpoint: &Checkpoint) -> Result<Vec<u8>, Stop>
    ensures text { IfOk result (λ text. IsCheckpointText text.items checkpoint.now) }
    ensures stop { IfErr result (IsTextStop checkpoint.now) }
{
    if !tells_within(checkpoint) {
        return Err(Stop::Oversaid);
    }
    every_checkpoint_fits(checkpoint);
    Ok(encode_checkpoint(alloc, checkpoint)?)
}

/// Puts a checkpoint. After `Ok` it is on the disk.
///
/// `Oversaid` for a checkpoint that counts more as said than its report has: it would not be read
/// again.
/// `TooLong` for one whose text is longer than 1 MiB, with that text.
#[tactic(auto, using(crate::proofs::Lasting::put_at))]
pub fn put_checkpoint<S: StateFolder>(
    alloc: Global,
    folder: &mut S,
    checkpoint: &Checkpoint,
) -> Result<(), Stop>
    ensures put { IsTrue S.told → OnOk result
        (IsCheckpointPut checkpoint.now (S.seen folder.old) (S.seen folder.new)) }
    ensures durable { IsTrue S.told → OnOk result
        (Only (S.seen folder.old) (S.may_leave folder.old)
        → Only (S.seen folder.new) (S.may_leave folder.new)) }
    ensures crash { IsTrue S.told → Passes S.may_leave S.moment S.left_since
        (MayCheckpoint checkpoint.now) folder.old folder.new }
    ensures stop { StopsFor (IsTrue S.told) (ForPut (λ k. k ≡ checkpoint.now))
        (S.faults folder.old) (S.faults folder.new) result }
    ensures at { IsTrue S.told → OnOk result (IsAt checkpoint.now (S.seen folder.new)) }
{
    let text = text_of(alloc, checkpoint)?;
    if text.len() > MOST_CHECKPOINT {
        return Err(Stop::TooLong(text));
    }
    folder.put_checkpoint(&text)?;
    Ok(())
}

/// Why bytes are not taken for a checkpoint.
fn not_read(why: Refused) -> NotOpened
    ensures rightly { (bytes : Text) (refusal : ModelRefusal) → RefusedRightly bytes why
        → result ≡ NotOpened.Refused refusal → IsUnread bytes refusal }
    ensures stop { IsReadStop result }
{
    match why {
        Refused::Memory => NotOpened::Troubled(Stop::Folder(FolderTrouble::Memory)),
        Refused::NotA(_) | Refused::Version | Refused::Damaged | Refused::Malformed => {
            NotOpened::Refused(Refusal::Unread(why))
        }
    }
}

/// The checkpoint whose text these bytes are.
fn read_text(alloc: Global, text: &[u8]) -> Result<Checkpoint, NotOpened>
    ensures checkpoint { IfOk result (λ checkpoint. IsCheckpointText text.now checkpoint) }
    ensures rightly { IfRefused result (IsUnread text.now) }
    ensures stop { IfErr result IsReadStop }
{
    match decode_checkpoint(alloc, text) {
        Ok(checkpoint) => Ok(checkpoint),
        Err(why) => Err(not_read(why)),
    }
}

/// The checkpoint, if there is one. After `Ok` all that reads show is on the disk, also what a
/// killed process left.
///
/// `Unread` if other bytes are in its place.
pub fn look<S: StateFolder>(alloc: Global, folder: &mut S) -> Result<Option<Checkpoint>, NotOpened>
    ensures value { IsTrue S.told → IfOk result (λ found. MatchOption found
        ((S.seen folder.old).checkpoint ≡ None) (λ k. IsAt k (S.seen folder.old))) }
    ensures only { IsTrue S.told → OnOk result
        (Only (S.seen folder.new) (S.may_leave folder.new)) }
    ensures seen { IsTrue S.told → S.seen folder.new ≡ S.seen folder.old }
    ensures crash { IsTrue S.told
        → Passes S.may_leave S.moment S.left_since Same folder.old folder.new }
    ensures rightly { IsTrue S.told → IfRefused result (HasUnread (S.seen folder.old)) }
    ensures stop { OpensFor (IsTrue S.told) (ForLook (S.seen folder.old))
        (S.faults folder.old) (S.faults folder.new) result }
{
    folder.sync()?;
    match folder.checkpoint()? {
        None => Ok(None),
        Some(text) => Ok(Some(read_text(alloc, &text)?)),
    }
}
