//! Leaving out a branch that cannot be read.
ghost use Rattle.std.specs.Prelude.{◌≡◌, ◌-◌, ◌<◌, ◌≤◌, ◌++◌, ◌∷◌, [], IfErr, IfOk, IfSome, IsNone, IsSome, IsTrue, OnOk, length, take};
ghost use Rattle.ocfl_tree.specs.Name.{IsName};
ghost use Rattle.ocfl_rules.specs.Trail.{is_root_meta};
ghost use Rattle.ocfl_cursor.specs.State.{state_of};
ghost use Rattle.ocfl_scrub.specs.{Running.{place_in}, Starting.{part_of}};
ghost use Rattle.ocfl_state.specs.declared.checkpoint_parts.Phase.TheVariants.{Open};
ghost use Rattle.ocfl_night.specs.Again.{OnlyGoesOn};
ghost use Rattle.ocfl_night.specs.Chain.{from_after, part_after};
ghost use Rattle.ocfl_night.specs.Leaving.{branch_at, end_of, is_of_inventory, last_name, speaks_for_object};
ghost use Rattle.ocfl_night.specs.Promises.{IfReadyIn, IsBranchNext, IsSafeIn, SameClosed};
ghost use Rattle.ocfl_night.specs.{Looks.{Rounds}, Sound.{IsAt, IsReady}, Steps.{with_left}};
ghost use Rattle.ocfl_night.specs.Stopping.{ForPut, IsPastStop, StopsFor};

use crate::checkpoint::put_checkpoint;
use crate::site::end_again;
use ocfl_cursor::State;
use ocfl_inventory::{Level, is_declaration_name};
use ocfl_scrub::Part;
use ocfl_state::{Checkpoint, Left, StateFolder};
use ocfl_terms::Stop;
use ocfl_tree::{Name, NameStop, Place};
use ocfl_walk::End;
use std::alloc::{AllocError, Global};

/// The place with another last name.
fn renamed(place: &Place, name: Name) -> Result<Place, AllocError>
    ensures { IfOk result (λ other. other ≡ take (length place.now - 1) place.now ++ name ∷ []) }
{
    let mut other = place.first(place.depth().saturating_sub(1))?;
    other.push(name)?;
    Ok(other)
}

/// The name with the byte 1 after it. `None` if that is no name: it would have 256 bytes.
fn lengthened(alloc: Global, name: &str) -> Result<Option<Name>, AllocError>
    ensures named { IfOk result (λ found. IfSome found (λ longer. longer ≡ name.now ++ 1 ∷ [])) }
    ensures short { IfOk result (λ found. IsSome found → length name.now < 255) }
    ensures long { IsName name.now → IfOk result (λ found. IsNone found → 255 ≤ length name.now) }
{
    let mut longer = String::from_str(alloc, name)?;
    longer.push('\u{1}')?;
    match Name::new(alloc, longer.as_str()) {
        Ok(name) => Ok(Some(name)),
        Err(NameStop::Bad) => Ok(None),
        Err(NameStop::Memory) => Err(AllocError),
    }
}

/// The end of a branch: its place with the byte 1 after the last name, which comes after all that
/// the branch has. `None` for the storage root, and for a last name of 255 bytes.
pub(crate) fn end_of(alloc: Global, branch: &Place) -> Result<Option<Place>, AllocError>
    ensures { IfOk result (λ found. found ≡ end_of branch.now) }
{
    let Some((_, name)) = branch.split_last() else {
        return Ok(None);
    };
    let Some(longer) = lengthened(alloc, name)? else {
        return Ok(None);
    };
    let end = renamed(branch, longer)?;
    Ok(Some(end))
}

/// Where what comes after the last branch that was left out begins, and the place itself where none
/// was. `Endless` where that branch has no end.
#[tactic(auto, using(crate::proofs::Chains::from_last, crate::proofs::Chains::from_none, crate::proofs::Reasons::endless_last))]
fn from_past(alloc: Global, from: &Option<Place>, left: &[Left]) -> Result<Option<Place>, Stop>
    ensures next { IfOk result (λ next. next ≡ from_after from.now left.now) }
    ensures stop { IfErr result (IsPastStop left.now) }
{
    let Some(last) = left.last() else {
        return Ok(end_again(from)?);
    };
    match end_of(alloc, &last.place)? {
        Some(end) => Ok(Some(end)),
        None => Err(Stop::Endless),
    }
}

/// The part in which the next run is made: what comes after the last branch that was left out.
/// `Endless` where that branch has no end.
pub(crate) fn part_past(alloc: Global, part: &Part, left: &[Left]) -> Result<Part, Stop>
    ensures next { IfOk result (λ next. part_of next ≡ part_after (part_of part.now) left.now) }
    ensures stop { IfErr result (IsPastStop left.now) }
{
    let from = from_past(alloc, &part.from, left)?;
    let under = part.end.under.try_clone()?;
    let below = end_again(&part.end.below)?;
    Ok(Part {
        from,
        end: End { under, below },
    })
}

/// Whether a file of this name is an inventory, or a sidecar of one.
fn is_of_inventory(name: &str) -> bool
    ensures { result ≡ is_of_inventory name.now }
{
    name == "inventory.json" || name.as_bytes().starts_with(b"inventory.json.")
}

/// Whether a file of this name speaks for the object that it is in: as its declaration, its
/// inventory or a sidecar of that.
fn speaks_for_object(name: &str) -> bool
    ensures { result ≡ speaks_for_object name.now }
{
    is_of_inventory(name) || is_declaration_name(Level::Object, name)
}

/// The last name, and nothing for the storage root.
fn last_name(place: &Place) -> &str
    ensures { result.now ≡ last_name place.now }
{
    match place.split_last() {
        Some((_, name)) => name,
        None => "",
    }
}

/// Whether a place is that of a declaration of the storage root.
#[tactic(auto, using(crate::proofs::Branches::declares, crate::proofs::Branches::declares_not))]
fn declares_root(place: &Place) -> bool
    ensures { result ≡ is_root_meta place.now }
{
    if place.depth() != 1 {
        return false;
    }
    is_declaration_name(Level::Root, last_name(place))
}

/// The branch to leave out after a call at this place failed: that of the object if the place is
/// one of its declarations, inventories or sidecars, that of the storage root if it is a
/// declaration of that, else that of the place itself.
pub(crate) fn branch_at(place: &Place) -> Result<Place, AllocError>
    ensures { IfOk result (λ branch. branch ≡ branch_at place.now) }
{
    if declares_root(place) || speaks_for_object(last_name(place)) {
        place.first(place.depth().saturating_sub(1))
    } else {
        place.try_clone()
    }
}

/// The place that a cursor is after, or `None` if it is after none.
fn stood_at(state: &State) -> Result<Option<Place>, AllocError>
    ensures { IfOk result (λ stood. stood ≡ place_in (state_of state.now)) }
{
    match state {
        State::After(place) => Ok(Some(place.try_clone()?)),
        State::Start | State::Ended => Ok(None),
    }
}

/// The checkpoint that names one branch more as left out, where its cursor is.
fn with_left(mut checkpoint: Checkpoint, branch: Place) -> Result<Checkpoint, AllocError>
    ensures { IfOk result (λ next. next ≡ with_left branch checkpoint) }
{
    let after = stood_at(checkpoint.cursor.state())?;
    checkpoint.left.push(Left {
        place: branch,
        after,
    })?;
    Ok(checkpoint)
}

/// Leaves out a branch where the cursor is, and puts the checkpoint that names it. No item that is
/// left may be before the branch, or it would be lost with it unnamed.
pub fn leave_out<S: StateFolder>(
    alloc: Global,
    folder: &mut S,
    checkpoint: Checkpoint,
    branch: Place,
) -> Result<Checkpoint, Stop>
    requires { checkpoint.phase ≡ Open }
    ensures named { IfOk result (λ next. next ≡ with_left branch checkpoint) }
    ensures any_moment { IsTrue S.told → (rounds : Rounds) → IsBranchNext rounds checkpoint branch
        → IsSafeIn S.StateFolder rounds checkpoint folder.old folder.new }
    ensures ready { IsTrue S.told → (rounds : Rounds) → IsBranchNext rounds checkpoint branch
        → IfReadyIn S.StateFolder rounds checkpoint folder.old
        (λ t. IfOk result (λ next. IsReady S.StateFolder rounds t next folder.new)) }
    ensures closed { IsTrue S.told → OnOk result (SameClosed S.StateFolder folder.old folder.new) }
    ensures crash { IsTrue S.told → OnlyGoesOn S.StateFolder checkpoint folder.old folder.new }
    ensures at { IsTrue S.told → IfOk result (λ next. IsAt next (S.seen folder.new)) }
    ensures stop { StopsFor (IsTrue S.told) (ForPut (λ next. next ≡ with_left branch checkpoint))
        (S.faults folder.old) (S.faults folder.new) result }
{
    let next = with_left(checkpoint, branch)?;
    put_checkpoint(alloc, folder, &next)?;
    Ok(next)
}
