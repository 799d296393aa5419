//! Copies of what a run made. The only error of each is that memory is refused.
ghost use Rattle.std.specs.Prelude.{◌≡◌, IfOk};

use ocfl_cursor::{Cursor, PartEnds, State};
use ocfl_item::Fault;
use ocfl_state::{Checkpoint, Left, RootIdentity};
use ocfl_terms::{Made, SliceEnd};
use ocfl_tree::Place;
use std::alloc::{AllocError, Global};

fn copy_place(place: &Option<Place>) -> Result<Option<Place>, AllocError>
    ensures { IfOk result (λ copy. copy ≡ place.now) }
{
    match place {
        Some(place) => Ok(Some(place.try_clone()?)),
        None => Ok(None),
    }
}

fn copy_ends(ends: &Option<PartEnds>) -> Result<Option<PartEnds>, AllocError>
    ensures { IfOk result (λ copy. copy ≡ ends.now) }
{
    let Some(ends) = ends else {
        return Ok(None);
    };
    let from = copy_place(&ends.from)?;
    let below = copy_place(&ends.below)?;
    Ok(Some(PartEnds { from, below }))
}

fn copy_state(state: &State) -> Result<State, AllocError>
    ensures { IfOk result (λ copy. copy ≡ state.now) }
{
    match state {
        State::Start => Ok(State::Start),
        State::After(place) => Ok(State::After(place.try_clone()?)),
        State::Ended => Ok(State::Ended),
    }
}

fn copy_cursor(cursor: &Cursor) -> Result<Cursor, AllocError>
    ensures { IfOk result (λ copy. copy ≡ cursor.now) }
{
    let state = copy_state(cursor.state())?;
    let (cycle, runs) = (cursor.cycle(), cursor.runs());
    let (spent, files) = (cursor.spent(), cursor.files());
    match Cursor::from_parts(cycle, runs, spent, files, cursor.further(), state) {
        Some(copy) => Ok(copy),
        None => unreachable!(),
    }
}

fn copy_left(alloc: Global, left: &[Left]) -> Result<Vec<Left>, AllocError>
    ensures { IfOk result (λ copy. copy.items ≡ left.now) }
{
    let mut copy = Vec::new(alloc);
    for branch in left {
        let place = branch.place.try_clone()?;
        let after = copy_place(&branch.after)?;
        copy.push(Left { place, after })?;
    }
    Ok(copy)
}

fn copy_checkpoint(alloc: Global, checkpoint: &Checkpoint) -> Result<Checkpoint, AllocError>
    ensures { IfOk result (λ copy. copy ≡ checkpoint.now) }
{
    let path = checkpoint.root.path.try_clone()?;
    let left = copy_left(alloc, &checkpoint.left)?;
    let part = copy_ends(&checkpoint.part)?;
    let cursor = copy_cursor(&checkpoint.cursor)?;
    Ok(Checkpoint {
        root: RootIdentity {
            path,
            declared: checkpoint.root.declared,
        },
        names: checkpoint.names,
        phase: checkpoint.phase,
        whole: checkpoint.whole,
        report: checkpoint.report,
        said: checkpoint.said,
        left,
        part,
        cursor,
    })
}

fn copy_fault(fault: &Fault) -> Result<Fault, AllocError>
    ensures { IfOk result (λ copy. copy ≡ fault.now) }
{
    match fault {
        Fault::Store(place) => Ok(Fault::Store(place.try_clone()?)),
        Fault::Memory => Ok(Fault::Memory),
    }
}

fn copy_end(end: &SliceEnd) -> Result<SliceEnd, AllocError>
    ensures { IfOk result (λ copy. copy ≡ end.now) }
{
    match end {
        SliceEnd::Ended => Ok(SliceEnd::Ended),
        SliceEnd::Spent => Ok(SliceEnd::Spent),
        SliceEnd::Stopped(fault) => Ok(SliceEnd::Stopped(copy_fault(fault)?)),
        SliceEnd::RootChanged => Ok(SliceEnd::RootChanged),
        SliceEnd::Unread(place) => Ok(SliceEnd::Unread(place.try_clone()?)),
    }
}

/// What a run made.
pub(crate) fn copy_made(alloc: Global, made: &Made) -> Result<Made, AllocError>
    ensures { IfOk result (λ copy. copy ≡ made.now) }
{
    let checkpoint = copy_checkpoint(alloc, &made.checkpoint)?;
    let end = copy_end(&made.end)?;
    Ok(Made {
        checkpoint,
        spent: made.spent,
        files: made.files,
        found: made.found,
        end,
    })
}
