//! Opening a night: what the last one left is taken up, if it is that of these nights.
ghost use Rattle.std.specs.Prelude.{◌≡◌, ◌↔◌, ◌<◌, ◌^◌, ℕ, [], IfOk, IfSome, IsSome, IsTrue, OnOk, None, false, true, is_some, length, take};
ghost use Rattle.ocfl_tree.specs.Place.{Text};
ghost use Rattle.ocfl_state.specs.Content.{is_closed, with_report};
ghost use Rattle.ocfl_state.specs.Crash.{LeavesOnly, Only, Passes, Same};
ghost use Rattle.ocfl_state.specs.declared.checkpoint_parts.Phase.TheVariants.{Closing};
ghost use Rattle.ocfl_night.specs.Beginning.{BeginsAt, first_position, position};
ghost use Rattle.ocfl_night.specs.{Looks.{Rounds}, Promises.{HasLost, IfLost, IfThere, IsUncut, SameClosed}};
ghost use Rattle.ocfl_night.specs.Older.{IfOlder, IsOlder};
ghost use Rattle.ocfl_night.specs.Refusing.{HasReport, IfForeign, IfRefused, IsFolderRefused, IsOutdated, IsTurnedAway, IsUnbegun, OnRefused};
ghost use Rattle.ocfl_night.specs.Sound.{IsAt, IsFound, IsFoundReady, IsKept, IsNew, IsReady, IsSettled, IsSoundAt};
ghost use Rattle.ocfl_night.specs.Steps.{IsLost, IsOpened, IsTakenUp, KeepsFront, closes_whole, first_opened, fitted, settled, shortened, what_is_left};
ghost use Rattle.ocfl_night.specs.{Site.{IsOfSite}, Stopping.{ForFirst, ForNoOther, ForOpen, ForPut, IsToOpen, OpensFor, StopsFor}};

use crate::checkpoint::{bytes_of, cycle_of, look, phase_of, put_checkpoint, report_of};
use crate::not_opened::NotOpened;
use crate::older::refuse_older;
use crate::owning::{first_checkpoint, own, with_root};
use crate::reports::{cut_report, find_lost};
use crate::site::Site;
use ocfl_identity::Identity;
use ocfl_state::{Checkpoint, Phase, ReportMark, StateFolder};
use ocfl_terms::{Plan, Refusal, Stop};
use std::alloc::Global;

/// What a night begins with.
#[derive(Drop)]
pub struct Opened {
    pub checkpoint: Checkpoint,
    /// Whether the report was shorter than the checkpoint said, or had another tail.
    pub lost: bool,
}

/// Cuts the report to a length, and brings that to the disk.
fn trim<S: StateFolder>(folder: &mut S, most: u64) -> Result<(), Stop>
    ensures cut { IsTrue S.told → OnOk result (S.seen folder.new
        ≡ with_report (take most (S.seen folder.old).report) (S.seen folder.old)) }
    ensures only { IsTrue S.told → OnOk result
        (Only (S.seen folder.new) (S.may_leave folder.new)) }
    ensures crash { IsTrue S.told → Passes S.may_leave S.moment S.left_since
        (KeepsFront most) folder.old folder.new }
    ensures stop { StopsFor (IsTrue S.told) ForNoOther
        (S.faults folder.old) (S.faults folder.new) result }
{
    cut_report(folder, most)?;
    folder.sync()?;
    Ok(())
}

/// Whether nothing is in a folder that has no checkpoint, as far as calls can show it.
#[tactic(auto, using(crate::proofs::Moments::only_same))]
fn is_new<S: StateFolder>(folder: &mut S) -> Result<bool, Stop>
    ensures empty { IsTrue S.told → IfOk result (λ new. IsTrue new
        → length (S.seen folder.old).report ≡ 0) }
    ensures unclosed { IsTrue S.told → IfOk result (λ new. IsTrue new
        → is_closed (S.seen folder.old).closed 1 ≡ false) }
    ensures reports { IsTrue S.told → IfOk result (λ new. new ≡ false
        → HasReport (S.seen folder.old)) }
    ensures seen { IsTrue S.told → S.seen folder.new ≡ S.seen folder.old }
    ensures only { IsTrue S.told → Only (S.seen folder.old) (S.may_leave folder.old)
        → Only (S.seen folder.new) (S.may_leave folder.new) }
    ensures crash { IsTrue S.told
        → Passes S.may_leave S.moment S.left_since Same folder.old folder.new }
    ensures stop { StopsFor (IsTrue S.told) ForNoOther
        (S.faults folder.old) (S.faults folder.new) result }
{
    if folder.length()? > 0 {
        return Ok(false);
    }
    Ok(!folder.has_closed(1)?)
}

/// Begins in a folder in which nothing is.
fn begin<S: StateFolder>(
    alloc: Global,
    folder: &mut S,
    site: &Site,
    identity: &Identity,
) -> Result<Opened, NotOpened>
    ensures empty { IsTrue S.told → OnOk result (length (S.seen folder.old).report ≡ 0) }
    ensures unclosed { IsTrue S.told
        → OnOk result (is_closed (S.seen folder.old).closed 1 ≡ false) }
    ensures stands { IfOk result (λ opened.
        position opened.checkpoint ≡ first_position site.now.further) }
    ensures any_moment { IsTrue S.told → (rounds : Rounds) → rounds.further ≡ site.now.further
        → Only (S.seen folder.old) (S.may_leave folder.old)
        → (S.seen folder.old).checkpoint ≡ None → IsNew [] (S.seen folder.old)
        → LeavesOnly S.moment S.left_since folder.old folder.new (IsSoundAt rounds []) }
    ensures ready { IsTrue S.told → (rounds : Rounds) → rounds.further ≡ site.now.further
        → Only (S.seen folder.old) (S.may_leave folder.old) → IsNew [] (S.seen folder.old)
        → IfOk result (λ opened. IsReady S.StateFolder rounds []
        opened.checkpoint folder.new) }
    ensures closed { IsTrue S.told → OnOk result (SameClosed S.StateFolder folder.old folder.new) }
    ensures first { IfOk result (λ opened. opened ≡ first_opened site.now identity.now) }
    ensures refused { IsTrue S.told → OnRefused result (S.seen folder.new ≡ S.seen folder.old) }
    ensures rightly { IsTrue S.told → IfRefused result (IsUnbegun true (S.seen folder.old)) }
    ensures at { IsTrue S.told
        → IfOk result (λ opened. IsAt opened.checkpoint (S.seen folder.new)) }
    ensures stop { OpensFor (IsTrue S.told) (ForFirst site.now identity.now (S.seen folder.old))
        (S.faults folder.old) (S.faults folder.new) result }
{
    if !is_new(folder)? {
        return Err(NotOpened::Refused(Refusal::HasReports));
    }
    let checkpoint = first_checkpoint(alloc, site, identity)?;
    put_checkpoint(alloc, folder, &checkpoint)?;
    Ok(Opened {
        checkpoint,
        lost: false,
    })
}

/// Whether the report of a cycle that has ended is still to be closed.
fn is_to_close<S: StateFolder>(folder: &mut S, checkpoint: &Checkpoint) -> Result<bool, Stop>
    ensures any_moment { IsTrue S.told → (rounds : Rounds) (t : Text)
        → IsSettled S.StateFolder rounds t checkpoint.now folder.old
        → LeavesOnly S.moment S.left_since folder.old folder.new (IsSoundAt rounds t) }
    ensures ready { IsTrue S.told → checkpoint.now.phase ≡ Closing → (rounds : Rounds) (t : Text)
        → IsSettled S.StateFolder rounds t checkpoint.now folder.old
        → OnOk result (IsReady S.StateFolder rounds t checkpoint.now folder.new) }
    ensures value { IsTrue S.told → IfOk result (λ there. IsTrue there
        ↔ (is_closed (S.seen folder.old).closed checkpoint.now.cursor.cycle ≡ false)) }
    ensures seen { IsTrue S.told → S.seen folder.new ≡ S.seen folder.old }
    ensures stop { StopsFor (IsTrue S.told) ForNoOther
        (S.faults folder.old) (S.faults folder.new) result }
{
    Ok(!folder.has_closed(cycle_of(checkpoint))?)
}

/// Cuts away what the checkpoint does not speak of. Gives whether what it speaks of is still to be
/// closed.
fn settle<S: StateFolder>(folder: &mut S, checkpoint: &Checkpoint) -> Result<bool, Stop>
    ensures any_moment { IsTrue S.told → (rounds : Rounds) (t : Text)
        → IsSettled S.StateFolder rounds t checkpoint.now folder.old
        → LeavesOnly S.moment S.left_since folder.old folder.new (IsSoundAt rounds t) }
    ensures ready { IsTrue S.told → (rounds : Rounds) (t : Text)
        → IsSettled S.StateFolder rounds t checkpoint.now folder.old
        → OnOk result (IsReady S.StateFolder rounds t checkpoint.now folder.new) }
    ensures there { IsTrue S.told → IfOk result (λ there. IsTrue there
        ↔ (checkpoint.now.phase ≡ Closing
        → is_closed (S.seen folder.old).closed checkpoint.now.cursor.cycle ≡ false)) }
    ensures settled { IsTrue S.told → OnOk result
        (S.seen folder.new ≡ settled checkpoint.now (S.seen folder.old)) }
    ensures stop { StopsFor (IsTrue S.told) ForNoOther
        (S.faults folder.old) (S.faults folder.new) result }
{
    match phase_of(checkpoint) {
        Phase::Open => {
            trim(folder, bytes_of(checkpoint))?;
            Ok(true)
        }
        Phase::Closing => is_to_close(folder, checkpoint),
    }
}

/// Takes up the report as far as the checkpoint speaks of it. Gives what there is of that, if bytes
/// of it were lost or changed.
fn take_up<S: StateFolder>(
    folder: &mut S,
    checkpoint: &Checkpoint,
) -> Result<Option<ReportMark>, Stop>
    ensures any_moment { IsTrue S.told → (rounds : Rounds) (t : Text)
        → IsSettled S.StateFolder rounds t checkpoint.now folder.old
        → LeavesOnly S.moment S.left_since folder.old folder.new (IsSoundAt rounds t) }
    ensures ready { IsTrue S.told → (rounds : Rounds) (t : Text)
        → IsSettled S.StateFolder rounds t checkpoint.now folder.old
        → IfOk result (λ lost. (lost ≡ None)
        × IsReady S.StateFolder rounds t checkpoint.now folder.new) }
    ensures lost { IsTrue S.told → IfOk result (λ lost. IsSome lost
        ↔ IsLost checkpoint.now (S.seen folder.old)) }
    ensures left { IsTrue S.told → IfOk result (λ lost. IfSome lost (λ there. there
        ≡ what_is_left checkpoint.now (S.seen folder.old))) }
    ensures closed { IsTrue S.told → OnOk result (SameClosed S.StateFolder folder.old folder.new) }
    ensures stop { StopsFor (IsTrue S.told) ForNoOther
        (S.faults folder.old) (S.faults folder.new) result }
{
    if !settle(folder, checkpoint)? {
        return Ok(None);
    }
    Ok(find_lost(folder, &report_of(checkpoint))?)
}

/// The checkpoint of a report that is another one than it says: it keeps what is there.
fn shortened(mut checkpoint: Checkpoint, report: ReportMark) -> Checkpoint
    ensures { result ≡ shortened report checkpoint }
{
    checkpoint.whole = false;
    checkpoint.said = checkpoint.said.min(report.bytes);
    checkpoint.report = report;
    checkpoint
}

/// What is opened with a checkpoint. If its report is another one than it says, it then speaks of
/// what is there.
fn fitted(checkpoint: Checkpoint, there: Option<ReportMark>) -> Opened
    ensures checkpoint { result.checkpoint ≡ fitted there checkpoint }
    ensures lost { result.lost ≡ is_some there }
{
    match there {
        None => Opened {
            checkpoint,
            lost: false,
        },
        Some(report) => Opened {
            checkpoint: shortened(checkpoint, report),
            lost: true,
        },
    }
}

/// Takes up what a checkpoint speaks of, and puts it with what the root has now.
fn resume<S: StateFolder>(
    alloc: Global,
    folder: &mut S,
    checkpoint: Checkpoint,
    identity: &Identity,
) -> Result<Opened, Stop>
    ensures any_moment { IsTrue S.told → (rounds : Rounds) (t : Text)
        → IsSettled S.StateFolder rounds t checkpoint folder.old
        → LeavesOnly S.moment S.left_since folder.old folder.new (IsSoundAt rounds t) }
    ensures ready { IsTrue S.told → (rounds : Rounds) (t : Text)
        → IsSettled S.StateFolder rounds t checkpoint folder.old
        → IfOk result (λ opened. IsReady S.StateFolder rounds t
        opened.checkpoint folder.new) }
    ensures closed { IsTrue S.told → OnOk result (SameClosed S.StateFolder folder.old folder.new) }
    ensures opened { IsTrue S.told
        → IfOk result (IsOpened identity.now checkpoint (S.seen folder.old)) }
    ensures taken { IfOk result (λ opened.
        IsTakenUp identity.now checkpoint opened.checkpoint) }
    ensures at { IsTrue S.told
        → IfOk result (λ opened. IsAt opened.checkpoint (S.seen folder.new)) }
    ensures stop { StopsFor (IsTrue S.told) (ForPut (IsTakenUp identity.now checkpoint))
        (S.faults folder.old) (S.faults folder.new) result }
{
    let there = take_up(folder, &checkpoint)?;
    let opened = fitted(checkpoint, there);
    let lost = opened.lost;
    let next = with_root(opened.checkpoint, identity);
    put_checkpoint(alloc, folder, &next)?;
    Ok(Opened {
        checkpoint: next,
        lost,
    })
}

/// Goes on from a checkpoint of this root, part and audit, if it is not older than the reports.
fn go_on<S: StateFolder>(
    alloc: Global,
    folder: &mut S,
    checkpoint: Checkpoint,
    identity: &Identity,
) -> Result<Opened, NotOpened>
    ensures any_moment { IsTrue S.told → (rounds : Rounds) (t : Text)
        → IsSettled S.StateFolder rounds t checkpoint folder.old
        → LeavesOnly S.moment S.left_since folder.old folder.new (IsSoundAt rounds t) }
    ensures ready { IsTrue S.told → (rounds : Rounds) (t : Text)
        → IsSettled S.StateFolder rounds t checkpoint folder.old
        → IfOk result (λ opened. IsReady S.StateFolder rounds t
        opened.checkpoint folder.new) }
    ensures closed { IsTrue S.told → OnOk result (SameClosed S.StateFolder folder.old folder.new) }
    ensures opened { IsTrue S.told
        → IfOk result (IsOpened identity.now checkpoint (S.seen folder.old)) }
    ensures refused { IsTrue S.told → OnRefused result (S.seen folder.new ≡ S.seen folder.old) }
    ensures rightly { IsTrue S.told
        → IfRefused result (IsOutdated checkpoint (S.seen folder.old)) }
    ensures older { IsTrue S.told → (cycle : ℕ) → cycle < 2 ^ 64
        → IsOlder checkpoint (S.seen folder.old) cycle
        → IsTurnedAway result S.StateFolder folder.old folder.new }
    ensures taken { IfOk result (λ opened.
        IsTakenUp identity.now checkpoint opened.checkpoint) }
    ensures at { IsTrue S.told
        → IfOk result (λ opened. IsAt opened.checkpoint (S.seen folder.new)) }
    ensures stop { OpensFor (IsTrue S.told) (ForPut (IsTakenUp identity.now checkpoint))
        (S.faults folder.old) (S.faults folder.new) result }
{
    refuse_older(folder, &checkpoint)?;
    Ok(resume(alloc, folder, checkpoint, identity)?)
}

/// Takes up what the last night left, however it ended, if it was one over this root and this part,
/// and checked the same.
pub fn open<S: StateFolder>(
    alloc: Global,
    folder: &mut S,
    site: &Site,
    identity: &Identity,
    plan: &Plan,
) -> Result<Opened, NotOpened>
    ensures any_moment { IsTrue S.told → (rounds : Rounds) → rounds.further ≡ site.now.further
        → (kept : IsKept S.StateFolder rounds folder.old)
        → LeavesOnly S.moment S.left_since folder.old folder.new
        (IsFound rounds (S.may_leave folder.old) kept) }
    ensures ready { IsTrue S.told → (rounds : Rounds) → rounds.further ≡ site.now.further
        → (kept : IsKept S.StateFolder rounds folder.old)
        → IfOk result (λ opened. IsFoundReady S.StateFolder rounds
        (S.may_leave folder.old) kept opened.checkpoint folder.new) }
    ensures closed { IsTrue S.told → OnOk result (SameClosed S.StateFolder folder.old folder.new) }
    // It begins where the checkpoint of the folder stands. In a folder without one it begins at the
    // first item, if it may, and if no report is there.
    ensures begins { IsTrue S.told → IfOk result (λ opened.
        BeginsAt site.now.further plan.now.create (S.seen folder.old) opened.checkpoint) }
    // A report without a checkpoint is never begun anew.
    ensures empty { IsTrue S.told → (S.seen folder.old).checkpoint ≡ None
        → OnOk result (length (S.seen folder.old).report ≡ 0) }
    // A report that is shorter than its checkpoint says, or has another tail, is not taken for
    // whole, and no other one is said to be lost.
    ensures lost { IsTrue S.told → IfLost (S.seen folder.old)
        (IfOk result (λ opened. IsTrue opened.lost × (opened.checkpoint.whole ≡ false))) }
    ensures lost_only { IsTrue S.told
        → IfOk result (λ opened. IsTrue opened.lost → HasLost (S.seen folder.old)) }
    // The checkpoint that is there stays but for what the root has now, and for what is lost.
    ensures opened { IsTrue S.told → IfThere (S.seen folder.old) (λ k.
        IfOk result (IsOpened identity.now k (S.seen folder.old))) }
    ensures whole { IsTrue S.told → IfOk result (λ opened.
        IsTrue (closes_whole opened.checkpoint)
        ↔ ((opened.lost ≡ false) × IsUncut (S.seen folder.old))) }
    ensures first { IsTrue S.told → (S.seen folder.old).checkpoint ≡ None
        → IfOk result (λ opened. opened ≡ first_opened site.now identity.now) }
    // If it is refused, the folder stays as it was, and the reason holds.
    ensures refused { IsTrue S.told → OnRefused result (S.seen folder.new ≡ S.seen folder.old) }
    ensures rightly { IsTrue S.told → IfRefused result
        (IsFolderRefused site.now identity.now plan.now (S.seen folder.old)) }
    // One of another root, part or audit, or of a root that is not as it was, is not opened, and
    // stays as it was.
    ensures foreign { IsTrue S.told → IfForeign site.now identity.now plan.now (S.seen folder.old)
        (IsTurnedAway result S.StateFolder folder.old folder.new) }
    // Nor is one whose reports show that its checkpoint is an older one.
    ensures older { IsTrue S.told → IfOlder (S.seen folder.old)
        (IsTurnedAway result S.StateFolder folder.old folder.new) }
    ensures at { IsTrue S.told
        → IfOk result (λ opened. IsAt opened.checkpoint (S.seen folder.new)) }
    // It is of this root and part, and checks the same.
    ensures own { IfOk result (λ opened. IsOfSite site.now identity.now opened.checkpoint) }
    // If something is troubled, the folder failed, or what is there as a checkpoint is too long, or
    // the one with which it was to begin.
    ensures stop { OpensFor (IsTrue S.told) (ForOpen (IsToOpen (IsTrue S.told) site.now
        identity.now plan.now.create (S.seen folder.old)) (S.seen folder.old))
        (S.faults folder.old) (S.faults folder.new) result }
{
    let Some(found) = look(alloc, folder)? else {
        if !plan.create {
            return Err(NotOpened::Refused(Refusal::NoCheckpoint));
        }
        return begin(alloc, folder, site, identity);
    };
    match own(found, site, identity, plan.force_root) {
        Ok(checkpoint) => go_on(alloc, folder, checkpoint, identity),
        Err(why) => Err(NotOpened::Refused(why)),
    }
}
