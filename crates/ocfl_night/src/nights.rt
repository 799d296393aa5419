//! A night.
ghost use Rattle.std.specs.Prelude.{◌≡◌, ◌≢◌, ◌⊎◌, ◌↔◌, ◌≤◌, ◌∷◌, [], IfOk, IfSome, IsErr, All, IsOk, IsSome, IsTrue, List, Err, Ok, OnErr, OnOk, Some, false, true, length, ℕ};
ghost use Rattle.ocfl_rules.specs.Parts.{Part as ModelPart};
ghost use Rattle.ocfl_tree.specs.{Place.{Text}, StorageRoot.{StorageRoot}, Store.{IfTold}};
ghost use Rattle.ocfl_scrub.specs.{Keeping.{met_at}, Starting.{part_of}};
ghost use Rattle.ocfl_state.specs.{Content.{Closed}, Crash.{LeavesOnly}};
ghost use Rattle.ocfl_state.specs.declared.checkpoint_parts.Phase.TheVariants.{Open};
ghost use Rattle.ocfl_night.specs.Leaving.{LeadsOn, MayHaveLeftAt, MayLeave, StillMayLeave, branch_at, done_by, has_end, remedy_at, with_remedy};
ghost use Rattle.ocfl_night.specs.Looks.{Counts, Rounds, WithLook, look_between, of_any};
ghost use Rattle.ocfl_terms.specs.Output.{Grows, HasFailed};
ghost use Rattle.ocfl_night.specs.Promises.{HasCome, HasLost, IfLost, IfReadyIn, IsBranchNext, IsSafeIn, IsAllThere, IsUncut, OnShort, OverShort, SameClosed, StopsNext};
ghost use Rattle.ocfl_night.specs.Older.{IfOlder};
ghost use Rattle.ocfl_terms.specs.declared.refusal.Refusal.TheVariants.{Older};
ghost use Rattle.ocfl_night.specs.Refusing.{IfForeign, IfRefused, IsBarred, IsFolderRefused, IsRefused, IsTurnedAway, OnRefused};
ghost use Rattle.ocfl_night.specs.{Site.{IsOfSite, IsOfStore, part_at}, Steps.{IsNotBegun, IsUntouched, IsWalkAt, closes_whole, with_left}};
ghost use Rattle.ocfl_night.specs.Reading.{AreBeyond, AreDeclarations, EndsInOrder, HaveRead, IsRead, IsReadTo, ReadsBeyond, content_since, reached};
ghost use Rattle.ocfl_night.specs.Sound.{IsAllSaid, IsAt, IsHeard, IsHeardSince, IsKept, IsOneMore, IsReady, IsReadySince, IsSound};
ghost use Rattle.ocfl_night.specs.{Beginning.{BeginsAt, StandsAt}, Pace.{is_before}, Done.{done_of}};
ghost use Rattle.ocfl_night.specs.Again.{IsLittleAgain, IsLittleSince, OnlyGoesOn};
ghost use Rattle.ocfl_night.specs.Asking.{HasLooked, IsDeclaredBy, IsMetBy, LooksOnly, declaring};
ghost use Rattle.ocfl_night.specs.Halting.{AreFailed};
ghost use Rattle.ocfl_night.specs.Runs.{AreMade, EndsBy, IsAllowed, IsEndedBy, IsNight, MayHaveLeft, StopsOpen, after_made, turn_of};
ghost use Rattle.ocfl_night.specs.Ending.{cycle_ended, cycle_of, ended_by, halt_after, halt_of, place_or_pause, unbegun_by};
ghost use Rattle.ocfl_night.specs.{Pace.{budget_at, files_at}, Sound.{IsSafeNight}};
ghost use Rattle.ocfl_night.specs.Stopping.{ForNight, ForPut, ForRuns, IsGiven, IsPassedBy, IsReason, IsUnlooked, OpensFor, StopsFor, TellsKept, course};
ghost use Rattle.ocfl_terms.specs.declared.stop.Stop.{Stop as ModelStop};
ghost use Rattle.ocfl_night.specs.declared.not_opened.NotOpened.TheVariants.{Refused};
ghost use Rattle.ocfl_terms.specs.declared.refusal.Refusal.{Refusal as ModelRefusal};
ghost use Rattle.ocfl_cursor.specs.Limits.{IsLimit};
ghost use Rattle.ocfl_terms.specs.declared.plan.Halt.TheVariants as halt;

use crate::checkpoint::phase_of;
use crate::closing::finish;
use crate::leaving::leave_out;
use crate::not_opened::NotOpened;
use crate::opening::open;
use crate::pace::paced;
use crate::pause::Pause;
use crate::saying::speak;
use crate::site::{Site, part_at};
use crate::slicing::slice;
use crate::tally::{Remedy, Tally};
use ocfl_cursor::{FileLimit, Limits};
use ocfl_digest::Block;
use ocfl_identity::{Identity, look_at_root};
use ocfl_scrub::{KeptWalk, Part};
use ocfl_state::{Checkpoint, Phase, StateFolder};
use ocfl_terms::{Clock, Halt, Made, NightEnd, Output, Plan, SliceEnd, Stop};
use ocfl_tree::{Place, Tree};
use ocfl_walk::Fault;
use std::alloc::Global;

/// Whether an end has not come.
fn is_before(now: u64, end: Option<u64>) -> bool
    ensures { result ≡ is_before now end }
{
    match end {
        Some(end) => now < end,
        None => true,
    }
}

/// How many files the next run may start.
fn files_left(plan: &Plan, tally: &Tally) -> u64
    ensures { result ≡ files_at plan.now (done_of tally.now) }
{
    match plan.files {
        Some(most) => most.saturating_sub(tally.files).min(plan.slice_files),
        None => plan.slice_files,
    }
}

/// The limits of a run that begins now. `None` if no further file may be started.
fn next_limits(plan: &Plan, tally: &Tally, now: u64) -> Option<Limits>
    ensures budget { IfSome result (λ limits.
        limits.budget ≡ budget_at plan.now (done_of tally.now) now) }
    ensures files { IfSome result (λ limits. limits.files ≡ files_at plan.now (done_of tally.now)) }
    ensures none { IsSome result ↔ IsLimit (files_at plan.now (done_of tally.now)) }
{
    let files = FileLimit::new(files_left(plan, tally))?;
    let began = tally.began.unwrap_or(now);
    Some(Limits {
        budget: paced(plan.slice_budget, tally.spent, began, now, plan.end),
        files,
    })
}

/// The limits of the next run, and the time at which it begins. Or why none is made.
fn allowed<C: Clock>(plan: &Plan, clock: &mut C, tally: &Tally) -> Result<(Limits, u64), Pause>
    ensures told { IsTrue (C.told clock.new) → IsTrue (C.told clock.old) }
    ensures allowed { IsTrue (C.told clock.new) → IsAllowed plan.now (done_of tally.now)
        (C.events clock.old) (C.events clock.new) result }
{
    if clock.is_stopped() {
        return Err(Pause::Asked);
    }
    let now = clock.now();
    if !is_before(now, plan.end) {
        return Err(Pause::TimeUp);
    }
    match next_limits(plan, tally, now) {
        Some(limits) => Ok((limits, now)),
        None => Err(Pause::Spent),
    }
}

/// The place at which a slice stopped. `Err` if it stopped at none: with what halts the night, or
/// with `None` if the night goes on.
fn place_or_pause(end: SliceEnd) -> Result<Place, Option<Pause>>
    ensures { result ≡ place_or_pause end }
{
    match end {
        SliceEnd::Stopped(Fault::Store(place)) => Ok(place),
        SliceEnd::Stopped(Fault::Memory) => Err(Some(Pause::Stopped(Fault::Memory))),
        SliceEnd::Unread(place) => Err(Some(Pause::Stopped(Fault::Store(place)))),
        SliceEnd::RootChanged => Err(Some(Pause::RootChanged)),
        SliceEnd::Ended | SliceEnd::Spent => Err(None),
    }
}

/// What ends a night whose cycle has not ended.
fn halt_of(pause: Pause) -> Halt
    ensures not_ended { (cycle : ℕ) → result ≢ halt.CycleEnded cycle }
    ensures unrefused { (why : ModelRefusal) → result ≢ halt.Refused why }
    ensures untroubled { (why : ModelStop) → result ≢ halt.Troubled why }
    ensures is { result ≡ halt_of pause }
{
    match pause {
        Pause::TimeUp => Halt::TimeUp,
        Pause::Spent | Pause::Closing => Halt::Spent,
        Pause::Asked => Halt::Asked,
        Pause::Stopped(why) => Halt::Stopped(why),
        Pause::RootChanged => Halt::RootChanged,
    }
}

/// What ends a night that has ended this cycle, or none.
fn halt_after(ended: Option<u64>, pause: Pause) -> Halt
    ensures ended { (cycle : ℕ) → result ≡ halt.CycleEnded cycle → ended ≡ Some cycle }
    ensures unrefused { (why : ModelRefusal) → result ≢ halt.Refused why }
    ensures untroubled { (why : ModelStop) → result ≢ halt.Troubled why }
    ensures is { result ≡ halt_after ended pause }
{
    match ended {
        Some(cycle) => Halt::CycleEnded(cycle),
        None => halt_of(pause),
    }
}

/// Goes on after a run that stopped at a place: it is tried once more. If the run stops there
/// again, the place's branch is left out. What halts the night if none can be, or is to be.
fn pass_by<S: StateFolder>(
    alloc: Global,
    folder: &mut S,
    checkpoint: Checkpoint,
    place: Place,
    plan: &Plan,
    tally: &mut Tally,
) -> Result<(Checkpoint, Option<Pause>), Stop>
    ensures any_moment { IsTrue S.told → (rounds : Rounds)
        → IsBranchNext rounds checkpoint (branch_at place)
        → IsSafeIn S.StateFolder rounds checkpoint folder.old folder.new }
    ensures ready { IsTrue S.told → (rounds : Rounds)
        → IsBranchNext rounds checkpoint (branch_at place)
        → IfReadyIn S.StateFolder rounds checkpoint folder.old
        (λ t. IfOk result (λ next. IsReady S.StateFolder rounds t next.0 folder.new)) }
    ensures closed { IsTrue S.told → OnOk result (SameClosed S.StateFolder folder.old folder.new) }
    ensures runs { tally.new.runs ≡ tally.old.runs }
    ensures crash { IsTrue S.told → OnlyGoesOn S.StateFolder checkpoint folder.old folder.new }

    // What is done is what the place, the branches left out before and the plan call for.
    ensures done { checkpoint.phase ≡ Open → IfOk result (λ next. next
        ≡ done_by checkpoint place
        (remedy_at plan.now.stop_at_faults (done_of tally.old) place)) }
    ensures tally { checkpoint.phase ≡ Open → OnOk result (done_of tally.new ≡ with_remedy place
        (remedy_at plan.now.stop_at_faults (done_of tally.old) place) (done_of tally.old)) }
    ensures broken { OnErr result (MayHaveLeftAt plan.now.stop_at_faults (done_of tally.old) place
        (done_of tally.new)) }
    ensures left { StillMayLeave plan.now.stop_at_faults tally.old tally.new }
    ensures at { IsTrue S.told → IsAt checkpoint (S.seen folder.old)
        → IfOk result (λ next. IsAt next.0 (S.seen folder.new)) }
    ensures stop { StopsFor (IsTrue S.told)
        (ForPut (λ next. next ≡ with_left (branch_at place) checkpoint))
        (S.faults folder.old) (S.faults folder.new) result }
{
    if phase_of(&checkpoint) != Phase::Open {
        return Ok((checkpoint, Some(Pause::Closing)));
    }
    let remedy = tally.remedy(alloc, &place, plan.stop_at_faults)?;
    match remedy {
        Remedy::TryAgain => Ok((checkpoint, None)),
        Remedy::LeaveOut(branch) => {
            let next = leave_out(alloc, folder, checkpoint, branch)?;
            Ok((next, None))
        }
        Remedy::Halt => Ok((checkpoint, Some(Pause::Stopped(Fault::Store(place))))),
    }
}

/// Goes on after a slice, or says what halts the night then.
fn go_on_after<S: StateFolder>(
    alloc: Global,
    folder: &mut S,
    kept: &mut KeptWalk,
    made: Made,
    plan: &Plan,
    tally: &mut Tally,
) -> Result<(Checkpoint, Option<Pause>), Stop>
    ensures any_moment { IsTrue S.told → (rounds : Rounds) → StopsNext rounds made
        → IsSafeIn S.StateFolder rounds made.checkpoint folder.old folder.new }
    ensures ready { IsTrue S.told → (rounds : Rounds) → StopsNext rounds made
        → IfReadyIn S.StateFolder rounds made.checkpoint folder.old
        (λ t. IfOk result (λ next. IsReady S.StateFolder rounds t next.0 folder.new)) }
    ensures closed { IsTrue S.told → OnOk result (SameClosed S.StateFolder folder.old folder.new) }
    ensures runs { tally.new.runs ≡ tally.old.runs }
    ensures crash { IsTrue S.told → OnlyGoesOn S.StateFolder
        made.checkpoint folder.old folder.new }
    ensures walk { (part : ModelPart) (root : StorageRoot)
        → IsWalkAt root part made.checkpoint kept.old
        → IfOk result (λ next. IsWalkAt root part next.0 kept.new) }
    ensures met { IsMetBy made.end (met_at kept.old) → IsMetBy made.end (met_at kept.new) }
    ensures left { StillMayLeave plan.now.stop_at_faults tally.old tally.new }
    ensures turn { StopsOpen made → IfOk result (λ next. turn_of (done_of tally.new) next
        ≡ after_made plan.now.stop_at_faults (done_of tally.old) made) }
    ensures broken { OnErr result (MayHaveLeft plan.now.stop_at_faults (done_of tally.old) made
        (done_of tally.new)) }
    ensures at { IsTrue S.told → IsAt made.checkpoint (S.seen folder.old)
        → IfOk result (λ next. IsAt next.0 (S.seen folder.new)) }
    ensures stop { StopsFor (IsTrue S.told) (ForPut (IsPassedBy made))
        (S.faults folder.old) (S.faults folder.new) result }
{
    let Made {
        checkpoint,
        end,
        ..
    } = made;
    match place_or_pause(end) {
        Ok(place) => {
            kept.forget();
            pass_by(alloc, folder, checkpoint, place, plan, tally)
        }
        Err(pause) => {
            tally.forget_try();
            Ok((checkpoint, pause))
        }
    }
}

/// Makes runs until the cycle has ended, or something halts the night.
fn runs<S: StateFolder, T: Tree, C: Clock>(
    alloc: Global,
    folder: &mut S,
    tree: &mut T,
    part: &Part,
    identity: &Identity,
    start: Checkpoint,
    plan: &Plan,
    clock: &mut C,
    tally: &mut Tally,
    block: &mut Block,
) -> Result<(Checkpoint, Pause), Stop>
    ensures any_moment { IsTrue S.told → OverShort T.told (T.state tree.old) (λ root.
        WithLook start.cursor.further (part_of part.now)
        (look_between start.cursor.further root (T.state tree.old) (T.state tree.new))
        (λ rounds. IsSafeIn S.StateFolder rounds start folder.old folder.new)) }
    ensures ready { IsTrue S.told → OverShort T.told (T.state tree.old) (λ root.
        WithLook start.cursor.further (part_of part.now)
        (look_between start.cursor.further root (T.state tree.old) (T.state tree.new))
        (λ rounds. IfReadyIn S.StateFolder rounds start folder.old (λ t. IfOk result
        (λ next. IsReady S.StateFolder rounds t next.0 folder.new)))) }
    ensures root { OverShort T.told (T.state tree.old) (λ root. (T.state tree.new).tree ≡ root) }
    ensures counts { OverShort T.told (T.state tree.old) (λ root.
        Counts (T.state tree.old) (T.state tree.new)) }
    ensures beyond { AreDeclarations identity.now → OverShort T.told (T.state tree.old) (λ root.
        AreBeyond (reached start) (content_since start.cursor.further root (T.state tree.old)
        (T.state tree.new))) }
    ensures read { AreDeclarations identity.now → OverShort T.told (T.state tree.old) (λ root.
        IfOk result (λ next. HaveRead (T.state tree.old) (T.state tree.new)
        (reached start) (reached next.0)
        (halt_after (cycle_ended next.0.phase next.0.cursor.cycle) next.1)
        (content_since start.cursor.further root (T.state tree.old) (T.state tree.new)))) }
    ensures again { IsTrue (C.told clock.new) → IsTrue S.told → AreDeclarations identity.now
        → OverShort T.told (T.state tree.old) (λ root. IsDeclaredBy root identity.now →
        IfReadyIn S.StateFolder (of_any start.cursor.further (part_of part.now)) start folder.old
        (λ _.
        IsLittleAgain root (part_of part.now) S.StateFolder (cycle_of start)
        (C.events clock.old) (C.events clock.new)
        (T.state tree.old) (T.state tree.new) folder.new)) }
    ensures closed { IsTrue S.told → OnOk result (SameClosed S.StateFolder folder.old folder.new) }
    ensures told { IsTrue (C.told clock.new) → AreMade plan.now
        (C.events clock.old) (C.events clock.new)
        (done_of tally.old) start
        (λ d k last. IsEndedBy plan.now d k last (done_of tally.new) result) }
    ensures failed { IsTrue (C.told clock.new) → OverShort T.told (T.state tree.old) (λ root.
        AreFailed (C.events clock.old) (C.events clock.new)
        (T.state tree.old) (T.state tree.new)) }
    ensures leads { IfOk result (λ next. LeadsOn start tally.old.left.items
        next.0 tally.new.left.items) }
    ensures cycle { IfOk result (λ next. cycle_of next.0 ≡ cycle_of start) }
    ensures left { StillMayLeave plan.now.stop_at_faults tally.old tally.new }
    ensures at { IsTrue S.told → IsAt start (S.seen folder.old)
        → IfOk result (λ next. IsAt next.0 (S.seen folder.new)) }
    ensures stop { MayLeave plan.now.stop_at_faults tally.old.left.items → StopsFor
        (IsGiven S.told T.told (T.state tree.old)
        ((t : Text) × IsReady S.StateFolder (of_any start.cursor.further
        (part_of part.now)) t start folder.old))
        (ForRuns ⊥ start tally.new.runs) (S.faults folder.old) (S.faults folder.new) result }
{
    let mut kept = KeptWalk::none();
    let mut checkpoint = start;
    for _run in 0..u64::MAX {
        if phase_of(&checkpoint) != Phase::Open {
            return Ok((checkpoint, Pause::Closing));
        }
        let (limits, now) = match allowed(plan, clock, tally) {
            Ok(allowed) => allowed,
            Err(pause) => return Ok((checkpoint, pause)),
        };
        tally.begin(now);
        let made = slice(
            alloc, folder, tree, part, identity, &mut kept, checkpoint, limits, block,
        )?;
        tally.count(&made);
        clock.hears(&made);
        let (next, pause) = go_on_after(alloc, folder, &mut kept, made, plan, tally)?;
        checkpoint = next;
        if let Some(pause) = pause {
            return Ok((checkpoint, pause));
        }
    }
    Err(Stop::Worn)
}

/// Takes up what the last night left, and says what it left unsaid.
fn catch_up<S: StateFolder, O: Output>(
    alloc: Global,
    folder: &mut S,
    site: &Site,
    identity: &Identity,
    plan: &Plan,
    out: &mut O,
    lost: &mut bool,
) -> Result<Checkpoint, NotOpened>
    ensures heard { IsTrue S.told → (rounds : Rounds) → rounds.further ≡ site.now.further
        → (kept : IsKept S.StateFolder rounds folder.old)
        → LeavesOnly S.moment S.left_since folder.old folder.new (IsHeardSince rounds
        (S.may_leave folder.old) kept (O.said out.old) (O.said out.new)) }
    ensures ready { IsTrue S.told → (rounds : Rounds) → rounds.further ≡ site.now.further
        → (kept : IsKept S.StateFolder rounds folder.old)
        → IfOk result (λ k. IsReadySince S.StateFolder rounds (S.may_leave folder.old) kept
        (O.said out.old) (O.said out.new) k folder.new) }
    ensures grew { Grows (O.said out.old) (O.said out.new) }
    ensures closed { IsTrue S.told → OnOk result (SameClosed S.StateFolder folder.old folder.new) }
    ensures refused { IsTrue S.told → OnRefused result (S.seen folder.new ≡ S.seen folder.old) }
    ensures rightly { IsTrue S.told → IfRefused result
        (IsFolderRefused site.now identity.now plan.now (S.seen folder.old)) }
    ensures foreign { IsTrue S.told → IfForeign site.now identity.now plan.now (S.seen folder.old)
        (IsTurnedAway result S.StateFolder folder.old folder.new) }
    ensures older { IsTrue S.told → IfOlder (S.seen folder.old)
        (IsTurnedAway result S.StateFolder folder.old folder.new) }
    ensures lost { IsTrue S.told → IfLost (S.seen folder.old) (OnOk result (IsTrue lost.new)) }
    ensures lost_only { IsTrue S.told → lost.old ≡ false → IsTrue lost.new
        → HasLost (S.seen folder.old) }
    ensures whole { IsTrue S.told → IfOk result (λ k. IsTrue (closes_whole k)
        ↔ ((lost.new ≡ false) × IsUncut (S.seen folder.old))) }
    ensures all { IfOk result (λ k. k.said ≡ k.report.bytes) }
    ensures begins { IsTrue S.told
        → IfOk result (BeginsAt site.now.further plan.now.create (S.seen folder.old)) }
    ensures own { IfOk result (IsOfSite site.now identity.now) }
    ensures at { IsTrue S.told → IfOk result (λ k. IsAt k (S.seen folder.new)) }
    ensures stop { OpensFor (TellsKept S.StateFolder site.now.further folder.old)
        (ForNight (λ _. ⊥) (IsOfSite site.now identity.now)
        (course site.now.further plan.now.create (S.seen folder.old) 0 (O.said out.old)
        (O.said out.new)))
        (S.faults folder.old) (S.faults folder.new) result }
{
    let opened = open(alloc, folder, site, identity, plan)?;
    *lost = opened.lost;
    Ok(speak(alloc, folder, out, opened.checkpoint)?)
}

/// Makes runs, says what they wrote, and closes the report if the cycle has ended.
fn make_runs<S: StateFolder, T: Tree, C: Clock, O: Output>(
    alloc: Global,
    folder: &mut S,
    tree: &mut T,
    part: &Part,
    identity: &Identity,
    checkpoint: Checkpoint,
    plan: &Plan,
    clock: &mut C,
    tally: &mut Tally,
    block: &mut Block,
    out: &mut O,
) -> Result<Halt, Stop>
    ensures heard { IsTrue S.told → OverShort T.told (T.state tree.old) (λ root.
        WithLook checkpoint.cursor.further (part_of part.now)
        (look_between checkpoint.cursor.further root (T.state tree.old) (T.state tree.new))
        (λ rounds. IfReadyIn S.StateFolder rounds checkpoint folder.old
        (λ t. LeavesOnly S.moment S.left_since folder.old folder.new
        (IsHeard rounds t (O.said out.old) (O.said out.new))))) }
    ensures root { OverShort T.told (T.state tree.old) (λ root. (T.state tree.new).tree ≡ root) }
    ensures counts { OverShort T.told (T.state tree.old) (λ root.
        Counts (T.state tree.old) (T.state tree.new)) }
    ensures beyond { AreDeclarations identity.now → OverShort T.told (T.state tree.old) (λ root.
        AreBeyond (reached checkpoint)
        (content_since checkpoint.cursor.further root (T.state tree.old) (T.state tree.new))) }
    ensures read { IsTrue S.told → AreDeclarations identity.now
        → OverShort T.told (T.state tree.old) (λ root.
        IfReadyIn S.StateFolder (of_any checkpoint.cursor.further
        (part_of part.now)) checkpoint folder.old
        (λ _. IfOk result (λ end. EndsInOrder end
        → IsReadTo (T.state tree.old) (T.state tree.new) (reached checkpoint) end
        (S.seen folder.new) (content_since checkpoint.cursor.further root (T.state tree.old)
        (T.state tree.new))))) }
    ensures again { IsTrue (C.told clock.new) → IsTrue S.told → AreDeclarations identity.now
        → OverShort T.told (T.state tree.old) (λ root. IsDeclaredBy root identity.now →
        IfReadyIn S.StateFolder (of_any checkpoint.cursor.further
        (part_of part.now)) checkpoint folder.old (λ _.
        IsLittleAgain root (part_of part.now) S.StateFolder (cycle_of checkpoint)
        (C.events clock.old) (C.events clock.new)
        (T.state tree.old) (T.state tree.new) folder.new)) }
    ensures grew { Grows (O.said out.old) (O.said out.new) }
    ensures ended { IsTrue S.told → OverShort T.told (T.state tree.old) (λ root.
        WithLook checkpoint.cursor.further (part_of part.now)
        (look_between checkpoint.cursor.further root (T.state tree.old) (T.state tree.new))
        (λ rounds. IfReadyIn S.StateFolder rounds checkpoint folder.old
        (λ _. (cycle : ℕ) → result ≡ Ok (halt.CycleEnded cycle) → IsOneMore rounds cycle
        (S.seen folder.old) (S.seen folder.new)))) }
    ensures goes_on { IsTrue S.told → IfOk result (λ end.
        ((cycle : ℕ) → end ≢ halt.CycleEnded cycle)
        → SameClosed S.StateFolder folder.old folder.new) }
    ensures told { IsTrue (C.told clock.new) → AreMade plan.now
        (C.events clock.old) (C.events clock.new)
        (done_of tally.old) checkpoint
        (EndsBy (λ p. IsTrue S.told → IsAt checkpoint (S.seen folder.old)
        → StandsAt (S.seen folder.new) p) plan.now (ended_by result) (done_of tally.new)) }
    ensures failed { IsTrue (C.told clock.new) → OverShort T.told (T.state tree.old) (λ root.
        AreFailed (C.events clock.old) (C.events clock.new)
        (T.state tree.old) (T.state tree.new)) }
    ensures left { StillMayLeave plan.now.stop_at_faults tally.old tally.new }
    ensures said { IsTrue S.told → OnShort T.told (T.state tree.old)
        (IfReadyIn S.StateFolder (of_any checkpoint.cursor.further
        (part_of part.now)) checkpoint folder.old
        (λ _. OnOk result (IsAllSaid (S.seen folder.new)))) }
    ensures whole { IsTrue S.told → OnShort T.told (T.state tree.old)
        (IfReadyIn S.StateFolder (of_any checkpoint.cursor.further
        (part_of part.now)) checkpoint folder.old
        (λ _. (cycle : ℕ) → result ≡ Ok (halt.CycleEnded cycle) → (d : Closed)
        → HasCome d (S.seen folder.old) (S.seen folder.new) → (IsTrue d.whole
        ↔ (IsTrue (closes_whole checkpoint)
        × (tally.new.left.items ≡ tally.old.left.items))))) }
    ensures unrefused { (why : ModelRefusal) → result ≢ Ok (halt.Refused why) }
    ensures stop { MayLeave plan.now.stop_at_faults tally.old.left.items → StopsFor
        (IsGiven S.told T.told (T.state tree.old)
        ((t : Text) × IsReady S.StateFolder (of_any checkpoint.cursor.further (part_of part.now)) t
        checkpoint folder.old))
        (ForRuns (HasFailed (O.said out.old).failures (O.said out.new).failures)
        checkpoint tally.new.runs) (S.faults folder.old) (S.faults folder.new) result }
    ensures untroubled { (why : ModelStop) → result ≢ Ok (halt.Troubled why) }
{
    let (last, pause) = runs(
        alloc, folder, tree, part, identity, checkpoint, plan, clock, tally, block,
    )?;
    let said = speak(alloc, folder, out, last)?;
    let ended = finish(alloc, folder, said)?;
    Ok(halt_after(ended, pause))
}

/// What a night has once it is begun.
#[derive(Drop)]
struct Begun {
    part: Part,
    identity: Identity,
    checkpoint: Checkpoint,
}

/// Looks at the root, takes up what the last night left, and says what it left unsaid.
fn set_out<S: StateFolder, T: Tree, O: Output>(
    alloc: Global,
    folder: &mut S,
    tree: &mut T,
    site: &Site,
    plan: &Plan,
    block: &mut Block,
    out: &mut O,
    lost: &mut bool,
) -> Result<Begun, NotOpened>
    ensures part { IfOk result (λ begun. part_of begun.part ≡ part_at site.now.ends) }
    ensures root { IsTrue T.told → (T.state tree.new).tree ≡ (T.state tree.old).tree }
    ensures counts { OverShort T.told (T.state tree.old) (λ root.
        Counts (T.state tree.old) (T.state tree.new)) }
    ensures content { OverShort T.told (T.state tree.old) (λ root.
        content_since site.now.further root (T.state tree.old) (T.state tree.new) ≡ []) }
    ensures looks { OverShort T.told (T.state tree.old) (λ root.
        LooksOnly (declaring root) ([] ∷ []) (T.state tree.old) (T.state tree.new)) }
    ensures declared { IfTold T.told (T.state tree.old) (λ root.
        IfOk result (λ begun. IsDeclaredBy root begun.identity)) }
    ensures declares { IfTold T.told (T.state tree.old) (λ root.
        IfOk result (λ begun. AreDeclarations begun.identity)) }
    ensures heard { IsTrue S.told → (rounds : Rounds) → rounds.further ≡ site.now.further
        → (kept : IsKept S.StateFolder rounds folder.old)
        → LeavesOnly S.moment S.left_since folder.old folder.new (IsHeardSince rounds
        (S.may_leave folder.old) kept (O.said out.old) (O.said out.new)) }
    ensures ready { IsTrue S.told → (rounds : Rounds) → rounds.further ≡ site.now.further
        → (kept : IsKept S.StateFolder rounds folder.old) → IfOk result (λ begun.
        IsReadySince S.StateFolder rounds (S.may_leave folder.old) kept
        (O.said out.old) (O.said out.new) begun.checkpoint folder.new) }
    ensures grew { Grows (O.said out.old) (O.said out.new) }
    ensures closed { IsTrue S.told → OnOk result (SameClosed S.StateFolder folder.old folder.new) }
    ensures refused { IsTrue S.told → OnRefused result (S.seen folder.new ≡ S.seen folder.old) }
    ensures rightly { IsTrue S.told → IfRefused result
        (IsRefused T.told (T.state tree.old) site.now plan.now (S.seen folder.old)) }
    ensures lost { IsTrue S.told → IfLost (S.seen folder.old) (OnOk result (IsTrue lost.new)) }
    ensures lost_only { IsTrue S.told → lost.old ≡ false → IsTrue lost.new
        → HasLost (S.seen folder.old) }
    ensures whole { IsTrue S.told → IfOk result (λ begun. IsTrue (closes_whole begun.checkpoint)
        ↔ ((lost.new ≡ false) × IsUncut (S.seen folder.old))) }
    ensures barred { IsTrue S.told
        → IsBarred T.told (T.state tree.old) site.now plan.now (S.seen folder.old)
        → IsTurnedAway result S.StateFolder folder.old folder.new }
    ensures begins { IsTrue S.told → IfOk result (λ begun.
        BeginsAt site.now.further plan.now.create (S.seen folder.old) begun.checkpoint) }
    ensures own { IfOk result (λ begun.
        IsOfStore T.told (T.state tree.old) site.now begun.checkpoint) }
    ensures at { IsTrue S.told
        → IfOk result (λ begun. IsAt begun.checkpoint (S.seen folder.new)) }
    ensures stop { OpensFor (TellsKept S.StateFolder site.now.further folder.old)
        (ForNight (IsUnlooked T.told (T.state tree.old) (T.state tree.new))
        (IsOfStore T.told (T.state tree.old) site.now)
        (course site.now.further plan.now.create (S.seen folder.old) 0 (O.said out.old)
        (O.said out.new)))
        (S.faults folder.old) (S.faults folder.new) result }
{
    let part = part_at(alloc, &site.ends)?;
    let identity = look_at_root(alloc, tree, block)?;
    let checkpoint = catch_up(alloc, folder, site, &identity, plan, out, lost)?;
    Ok(Begun {
        part,
        identity,
        checkpoint,
    })
}

/// A night: takes up what the last one left, ended, killed or crashed, says what it left unsaid,
/// makes runs until something ends it, says what they wrote, and closes the report if the cycle has
/// ended. A place that cannot be read twice costs its branch, which is left out of the cycle.
///
/// All clauses are of a folder and a store that are as they tell, over a root with no file of 2^62
/// bytes or more.
pub fn night<S: StateFolder, T: Tree, C: Clock, O: Output>(
    alloc: Global,
    folder: &mut S,
    tree: &mut T,
    site: &Site,
    plan: &Plan,
    clock: &mut C,
    block: &mut Block,
    out: &mut O,
) -> NightEnd
    // If each crash before it leaves a sound content, so does a crash at any moment of it.
    ensures any_moment { IsTrue S.told → OverShort T.told (T.state tree.old) (λ root.
        WithLook site.now.further (part_at site.now.ends)
        (look_between site.now.further root (T.state tree.old) (T.state tree.new))
        (λ rounds. IsKept S.StateFolder rounds folder.old
        → LeavesOnly S.moment S.left_since folder.old folder.new (IsSound rounds))) }
    ensures kept { IsTrue S.told → OverShort T.told (T.state tree.old) (λ root.
        WithLook site.now.further (part_at site.now.ends)
        (look_between site.now.further root (T.state tree.old) (T.state tree.new))
        (λ rounds. IsKept S.StateFolder rounds folder.old
        → IsKept S.StateFolder rounds folder.new)) }

    // Nothing more is said, at any moment, than was said before and the output has committed since.
    // All of it was written by runs over this root, which could not read more than this night could
    // not, or by those of before.
    ensures heard { IsTrue S.told → OverShort T.told (T.state tree.old) (λ root.
        IsSafeNight S.StateFolder site.now.further (part_at site.now.ends)
        (look_between site.now.further root (T.state tree.old) (T.state tree.new))
        folder.old folder.new (O.said out.old) (O.said out.new)) }

    // The root stays, and what its store was looked at for is known.
    ensures root { OverShort T.told (T.state tree.old) (λ root. (T.state tree.new).tree ≡ root) }
    ensures counts { OverShort T.told (T.state tree.old) (λ root.
        Counts (T.state tree.old) (T.state tree.new)) }

    // However it ends, it opens no content file that the checkpoint had taken with which it began.
    ensures beyond { IsTrue S.told → OverShort T.told (T.state tree.old) (λ root. ReadsBeyond
        (S.seen folder.old) (content_since site.now.further root (T.state tree.old)
        (T.state tree.new))) }

    // If no run of it stops, and no call of the store fails, it opens each content file once, in
    // order, and the checkpoint to which it led has taken them.
    ensures read { IsTrue S.told → OverShort T.told (T.state tree.old) (λ root.
        IsKept S.StateFolder (of_any site.now.further (part_at site.now.ends)) folder.old
        → EndsInOrder result.end
        → IsRead (T.state tree.old) (T.state tree.new) result.end
        (S.seen folder.old) (S.seen folder.new) (content_since site.now.further root
        (T.state tree.old) (T.state tree.new))) }

    // However it ends, it opens each content file at most once, but for one of each run that
    // stopped. Whenever a crash comes, the checkpoint that is left has taken what the runs before
    // had taken: what is opened again after it is what one run had opened, and those that stopped
    // had begun with.
    //
    // Its store is asked for what its runs ask for, one after the other. Each goes on with the walk
    // of the one before it, if its limits ended that one. Between two, before the first and after
    // the last no file is opened but those that declare the root, and nothing is listed but, when
    // the night begins, the top folder.
    ensures again { IsTrue (C.told clock.new) → IsTrue S.told
        → OverShort T.told (T.state tree.old) (λ root.
        IsKept S.StateFolder (of_any site.now.further (part_at site.now.ends)) folder.old
        → HasLooked site.now.further root (T.state tree.old) (T.state tree.new)
        ⊎ IsLittleSince site.now.further plan.now.create root (part_at site.now.ends) S.StateFolder
        (S.seen folder.old) (C.events clock.old) (C.events clock.new)
        (T.state tree.old) (T.state tree.new) folder.new) }

    // Unless it is refused or something is troubled, all of the report is said, also what earlier
    // nights left.
    ensures said { IsTrue S.told → OverShort T.told (T.state tree.old)
        (λ _. IsKept S.StateFolder (of_any site.now.further (part_at site.now.ends)) folder.old
        → ((why : ModelStop) → result.end ≢ halt.Troubled why)
        → ((why : ModelRefusal) → result.end ≢ halt.Refused why)
        → IsAllSaid (S.seen folder.new)) }

    // A night that is refused leaves the folder as it was, and its reason holds.
    ensures refused { IsTrue S.told → (why : ModelRefusal) → result.end ≡ halt.Refused why
        → S.seen folder.new ≡ S.seen folder.old }
    ensures rightly { IsTrue S.told → (why : ModelRefusal) → result.end ≡ halt.Refused why
        → IsRefused T.told (T.state tree.old) site.now plan.now (S.seen folder.old) why }

    // So does one in the folder of another root, part or audit, with a checkpoint that is older
    // than the reports, or over a root that is not as it was or declares nothing.
    ensures barred { IsTrue S.told
        → IsBarred T.told (T.state tree.old) site.now plan.now (S.seen folder.old)
        → IsNotBegun result.end × IsUntouched S.StateFolder folder.old folder.new }

    // No folder that nights have left, ended or crashed at any moment, is called older than its
    // reports.
    ensures newest { IsTrue S.told → (rounds : Rounds) → IsKept S.StateFolder rounds folder.old
        → (cycle : ℕ) → result.end ≢ halt.Refused (Older cycle) }

    // If bytes of the report were lost or changed, it says so, unless it is refused or something
    // is troubled. It says so in no other case.
    ensures lost { IsTrue S.told → IfLost (S.seen folder.old)
        (((why : ModelStop) → result.end ≢ halt.Troubled why)
        → ((why : ModelRefusal) → result.end ≢ halt.Refused why) → IsTrue result.lost) }
    ensures lost_only { IsTrue S.told → IsTrue result.lost → HasLost (S.seen folder.old) }

    // If a cycle has ended, its report is closed. It was not when the night began, unless a crash
    // had come right after it was closed. No other night closes one, unless something is troubled.
    ensures ended { IsTrue S.told → OverShort T.told (T.state tree.old) (λ root.
        WithLook site.now.further (part_at site.now.ends)
        (look_between site.now.further root (T.state tree.old) (T.state tree.new))
        (λ rounds. IsKept S.StateFolder rounds folder.old → (cycle : ℕ)
        → result.end ≡ halt.CycleEnded cycle → IsOneMore rounds cycle
        (S.seen folder.old) (S.seen folder.new))) }
    ensures goes_on { IsTrue S.told → ((why : ModelStop) → result.end ≢ halt.Troubled why)
        → ((cycle : ℕ) → result.end ≢ halt.CycleEnded cycle)
        → SameClosed S.StateFolder folder.old folder.new }

    // It is called whole exactly if nothing of it was lost, and no branch was left out, by this
    // night or before it.
    ensures whole { IsTrue S.told → OverShort T.told (T.state tree.old)
        (λ _. IsKept S.StateFolder (of_any site.now.further (part_at site.now.ends)) folder.old
        → (cycle : ℕ) → result.end ≡ halt.CycleEnded cycle → (d : Closed)
        → HasCome d (S.seen folder.old) (S.seen folder.new)
        → (IsTrue d.whole ↔ IsAllThere (S.seen folder.old) result)) }

    // If something is troubled, that is for a reason. It says that the folder failed only if it
    // did, or if what is there as a checkpoint is too long. It says that a checkpoint is too long
    // only of one that it was to put: of this root, part and audit, and of the cycle with which it
    // began or the next one. It says that the output failed only if it did, and never that a report
    // was closed already, that not all of one was said, or that checkpoint and report do not fit
    // each other.
    ensures troubled { (why : ModelStop) → result.end ≡ halt.Troubled why → IsReason
        (IsGiven S.told T.told (T.state tree.old)
        (IsKept S.StateFolder (of_any site.now.further (part_at site.now.ends)) folder.old))
        (ForNight (IsUnlooked T.told (T.state tree.old) (T.state tree.new))
        (IsOfStore T.told (T.state tree.old) site.now)
        (course site.now.further plan.now.create (S.seen folder.old) result.runs (O.said out.old)
        (O.said out.new)))
        (S.faults folder.old) (S.faults folder.new) why }

    // At most 16 branches are left out, none if the night is to stop at faults, and neither the
    // storage root nor one after which no place comes.
    ensures few { length result.left.items ≤ 16 }
    ensures none_left { IsTrue plan.now.stop_at_faults → result.left.items ≡ [] }
    ensures ends { All (λ branch. IsTrue (has_end branch)) result.left.items }

    // It is the list of its runs. The first was begun where the folder's checkpoint stood, and each
    // other one where the one before it led, after the clock answered that the night is not asked
    // to stop and that the end has not come, within the limits of the plan. By these it ended as it
    // says, unless troubled, and its figures are theirs. Where the last one led, the folder's
    // checkpoint stands then, or at the beginning of the next cycle if that one has ended.
    ensures told { IsTrue (C.told clock.new) → IsNight site.now.further plan.now S.told
        (S.seen folder.old)
        (S.seen folder.new) (C.events clock.old) (C.events clock.new) result }

    // At each place the store failed at least as often as runs stopped there.
    ensures failed { IsTrue (C.told clock.new) → OverShort T.told (T.state tree.old) (λ root.
        AreFailed (C.events clock.old) (C.events clock.new)
        (T.state tree.old) (T.state tree.new)) }
{
    let mut tally = Tally::none(alloc);
    let mut lost = false;
    let begun = match set_out(alloc, folder, tree, site, plan, block, out, &mut lost) {
        Ok(begun) => begun,
        Err(why) => return account(tally, lost, unbegun(why)),
    };
    let Begun {
        part,
        identity,
        checkpoint,
    } = begun;
    let through = make_runs(
        alloc, folder, tree, &part, &identity, checkpoint, plan, clock, &mut tally, block, out,
    );
    account(tally, lost, ended(through))
}

/// What ends a night that was not begun.
fn unbegun(why: NotOpened) -> Halt
    ensures not_begun { IsNotBegun result }
    ensures said { ((why : ModelStop) → result ≢ halt.Troubled why)
        → ((why : ModelRefusal) → result ≢ halt.Refused why) → ⊥ }
    ensures refused { (refusal : ModelRefusal) → result ≡ halt.Refused refusal
        → why ≡ Refused refusal }
    ensures is { result ≡ unbegun_by why }
{
    match why {
        NotOpened::Refused(why) => Halt::Refused(why),
        NotOpened::Troubled(why) => Halt::Troubled(why),
    }
}

/// What ends a night whose runs ended so.
fn ended(through: Result<Halt, Stop>) -> Halt
    ensures ended { (cycle : ℕ) → result ≡ halt.CycleEnded cycle
        → through ≡ Ok (halt.CycleEnded cycle) }
    ensures said { ((why : ModelStop) → result ≢ halt.Troubled why) → IsOk through }
    ensures refused { (why : ModelRefusal) → result ≡ halt.Refused why
        → through ≡ Ok (halt.Refused why) }
    ensures is { result ≡ ended_by through }
{
    match through {
        Ok(halt) => halt,
        Err(why) => Halt::Troubled(why),
    }
}

/// The account of a night that ended so.
fn account(tally: Tally, lost: bool, end: Halt) -> NightEnd
    ensures runs { result.runs ≡ tally.runs }
    ensures lost { result.lost ≡ lost }
    ensures left { result.left ≡ tally.left }
    ensures end { result.end ≡ end }
{
    NightEnd {
        runs: tally.runs,
        lost,
        left: tally.left,
        end,
    }
}
