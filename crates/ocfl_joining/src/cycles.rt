//! Which cycles of parts are joined, from which one on, and in which order.
ghost use Rattle.std.specs.Prelude.{◌≡◌, ◌⊎◌, ◌≤◌, ◌&&◌, ◌++◌, ℕ, Bool, false, true, IsTrue};
ghost use Rattle.std.specs.Prelude.{IfErr, IfOk, OnErr};
ghost use Rattle.ocfl_tree.specs.Place.{Text};
ghost use Rattle.ocfl_joining.specs.Cycles.{AreJoined, ComesTo, IsBeside, IsHeard, MayCome};
ghost use Rattle.ocfl_joining.specs.Cycles.{SeenCycles, SaysStop};
ghost use Rattle.ocfl_joining.specs.Cycles.{end_of as end_by, end_text, have_all as have_all_of};
ghost use Rattle.ocfl_joining.specs.Cycles.{is_due as is_due_by, is_none as is_none_of};
ghost use Rattle.ocfl_joining.specs.Cycles.{is_there as is_there_by, look_at, made_of, no_cycles};
ghost use Rattle.ocfl_joining.specs.Cycles.{oldest, whole_of as whole_by, with_said};
ghost use Rattle.ocfl_joining.specs.Internal.Cycling.{AreTried, Joins, JoinsNone, TriesEarlier};
ghost use Rattle.ocfl_joining.specs.Internal.Cycling.{TriesLast};
ghost use Rattle.ocfl_joining.specs.{Missing.{part_count}, Stops.{IsCallStop, IsStopRight, IsUpTo}};

use crate::failing::{JoinEnd, both, without_stop};
use crate::joining::JoinStop;
use crate::status::{CycleEnd, join_status};

/// How many cycles back one is joined at most.
const MOST_BACK: u64 = 1_000;

/// What there is of the joined report of a cycle.
#[derive(Clone, Copy, Debug, PartialEq, Eq)]
pub enum JoinedLook {
    /// It is there.
    There {
        /// Whether it is whole.
        whole: bool,
    },
    /// It is there compressed.
    Packed,
    /// It is not there.
    Away,
}

/// The closed reports of all parts, and the joined ones that are made of them, cycle by cycle.
///
/// One that states none of these clauses is not told.
pub trait PartCycles {
    /// Whether the cycles are as the clauses say. Of those that are not told they say nothing.
    ghost told: { Bool } = { false };

    /// What calls show, and what was said.
    ghost seen: { Self → SeenCycles } = { λ _. no_cycles };

    /// What there is of the joined report of a cycle.
    fn look(&mut self, cycle: u64) -> Result<JoinedLook, JoinStop>
        ensures value { IsTrue told → IfOk result (λ look. look ≡ look_at (seen self.old) cycle) }
        ensures why { IsTrue told → IfErr result (IsCallStop (λ _. ⊥)) }
        ensures seen { IsTrue told → seen self.new ≡ seen self.old };

    /// Whether the part with this number, from 1, has a closed report of a cycle, and has said what
    /// that found.
    fn has_closed(&mut self, part: usize, cycle: u64) -> Result<bool, JoinStop>
        ensures value { IsTrue told → IfOk result (λ is. is ≡ (seen self.old).closed cycle part) }
        ensures why { IsTrue told → IfErr result (IsCallStop (λ at. at ≡ part)) }
        ensures seen { IsTrue told → seen self.new ≡ seen self.old };

    /// Makes the joined report of a cycle, or compares with the closed ones that which was `made`
    /// before, whole or not. The parts that keep it from being joined are named if `names` is set.
    /// Gives whether the joined report is whole, and `None` if parts keep it from being joined.
    fn join(
        &mut self,
        cycle: u64,
        made: Option<bool>,
        names: bool,
    ) -> Result<Option<bool>, JoinStop>
        ensures comes { IsTrue told → IfOk result (λ whole. ComesTo (seen self.old).separators
            ((seen self.old).parts cycle) cycle made (end_by names whole)
            ((seen self.old).reports cycle) ((seen self.new).reports cycle)) }
        ensures said { IsTrue told → IfOk result (λ whole. (seen self.new).noted
            ≡ (seen self.old).noted ++ end_text (seen self.old).separators
            ((seen self.old).parts cycle) cycle ((seen self.old).path cycle)
            (end_by names whole)) }
        ensures heard { IsTrue told → IfOk result (λ whole. IsHeard (seen self.old).separators
            ((seen self.old).word cycle) made (end_by names whole)
            ((seen self.old).reports cycle) (seen self.old).said (seen self.new).said) }
        ensures may { IsTrue told → OnErr result (MayCome (seen self.old).separators
            ((seen self.old).parts cycle) cycle ((seen self.old).word cycle)
            ((seen self.old).reports cycle) ((seen self.new).reports cycle)
            (seen self.old).said (seen self.new).said) }
        ensures why { IsTrue told → IfErr result (IsStopRight
            (part_count (seen self.old).separators ((seen self.old).parts cycle))
            (seen self.old).separators ((seen self.old).reports cycle)) }
        ensures silent { IsTrue told
            → OnErr result ((seen self.new).noted ≡ (seen self.old).noted) }
        ensures beside { IsTrue told → IsBeside cycle (seen self.old) (seen self.new) };

    /// Says why the joining of a cycle stopped. Gives the status, and whether that was said.
    fn fail(&mut self, cycle: u64, stop: &JoinStop) -> JoinEnd
        ensures says { IsTrue told → (text : Text) × (SaysStop cycle stop.now result text
            × (seen self.new ≡ with_said text (seen self.old))) };
}

/// Joins the reports of so many parts, of each cycle up to the last one that all of them have
/// closed, the oldest first. Gives the greatest status, and whether it was said of each cycle that
/// stopped why it did.
///
/// Of the 1,000 cycles before the last one each is joined that is not joined yet, and that all
/// parts have closed and said: no part is named then, since one that keeps a cycle from being
/// joined was named when that was the last. The last one is compared with its joined report if that
/// is there, else it is joined, or the parts are named that keep it from it. A call that fails, or
/// a report that is not right, stops its own cycle alone.
pub fn join_cycles<C: PartCycles>(cycles: &mut C, parts: usize, last: u64) -> JoinEnd
    ensures joined { IsTrue C.told
        → AreJoined (C.seen cycles.old) (C.seen cycles.new) parts last result }
{
    let earlier = join_earlier_ones(cycles, parts, last);
    let latest = join_last_or_fail(cycles, last);
    both(earlier, latest)
}

/// Joins the cycles before the last one. Gives the greatest status.
fn join_earlier_ones<C: PartCycles>(cycles: &mut C, parts: usize, last: u64) -> JoinEnd
    ensures tried { IsTrue C.told → (next : ℕ) × (((next ≤ last) ⊎ (next ≡ oldest last))
        × ((last ≤ next)
        × AreTried parts (oldest last) next (C.seen cycles.old) (C.seen cycles.new) result)) }
{
    let first = oldest_of(last);
    let mut all = without_stop(0);
    for cycle in first..last {
        all = both(all, join_or_fail(cycles, parts, cycle));
    }
    all
}

/// The first cycle that is looked at.
fn oldest_of(last: u64) -> u64
    ensures { result ≡ oldest last }
{
    last.saturating_sub(MOST_BACK).max(1)
}

/// Joins a cycle before the last one, if it is due, or says why that fails. Gives the status.
fn join_or_fail<C: PartCycles>(cycles: &mut C, parts: usize, cycle: u64) -> JoinEnd
    ensures tried { IsTrue C.told
        → TriesEarlier parts cycle (C.seen cycles.old) (C.seen cycles.new) result }
{
    match join_earlier(cycles, parts, cycle) {
        Ok(status) => without_stop(status),
        Err(stop) => cycles.fail(cycle, &stop),
    }
}

/// Joins a cycle before the last one, if it is due. Gives the status.
#[tactic(auto, using(crate::proofs::Cycling::passed_by, crate::proofs::Cycling::due_joined, crate::proofs::Cycling::none_joined, crate::proofs::Cycling::none_then))]
fn join_earlier<C: PartCycles>(cycles: &mut C, parts: usize, cycle: u64) -> Result<u8, JoinStop>
    ensures tried { IsTrue C.told → IfOk result (λ status. TriesEarlier parts cycle
        (C.seen cycles.old) (C.seen cycles.new) (record { status = status; said = true })) }
    ensures failed { IsTrue C.told
        → IfErr result (JoinsNone parts cycle (C.seen cycles.old) (C.seen cycles.new)) }
{
    if is_due(cycles, parts, cycle)? {
        join_over(cycles, cycle, None, false)
    } else {
        Ok(0)
    }
}

/// Whether a cycle is not joined, and each of so many parts has closed it and said so.
#[tactic(auto, using(crate::proofs::Stopping::at_none))]
fn is_due<C: PartCycles>(cycles: &mut C, parts: usize, cycle: u64) -> Result<bool, JoinStop>
    ensures value { IsTrue C.told
        → IfOk result (λ is. is ≡ is_due_by (C.seen cycles.old) parts cycle) }
    ensures why { IsTrue C.told → IfErr result (IsCallStop (IsUpTo parts)) }
    ensures seen { IsTrue C.told → C.seen cycles.new ≡ C.seen cycles.old }
{
    if is_there(cycles.look(cycle)?) {
        return Ok(false);
    }
    have_all(cycles, parts, cycle)
}

fn is_there(look: JoinedLook) -> bool
    ensures { result ≡ is_there_by look }
{
    match look {
        JoinedLook::There { .. } | JoinedLook::Packed => true,
        JoinedLook::Away => false,
    }
}

/// Whether each of so many parts has closed a cycle, and has said what that found.
#[tactic(auto, using(crate::proofs::Stopping::at_one))]
fn have_all<C: PartCycles>(cycles: &mut C, parts: usize, cycle: u64) -> Result<bool, JoinStop>
    ensures value { IsTrue C.told
        → IfOk result (λ have. have ≡ have_all_of (C.seen cycles.old).closed parts cycle) }
    ensures why { IsTrue C.told → IfErr result (IsCallStop (IsUpTo parts)) }
    ensures seen { IsTrue C.told → C.seen cycles.new ≡ C.seen cycles.old }
{
    let mut have = true;
    for index in 0..parts {
        have = has_too(cycles, have, index + 1, cycle)?;
    }
    Ok(have)
}

/// Whether the parts before this one have closed a cycle, and this one has.
fn has_too<C: PartCycles>(
    cycles: &mut C,
    have: bool,
    part: usize,
    cycle: u64,
) -> Result<bool, JoinStop>
    ensures value { IsTrue C.told
        → IfOk result (λ is. is ≡ (have && (C.seen cycles.old).closed cycle part)) }
    ensures why { IsTrue C.told → IfErr result (IsCallStop (λ at. at ≡ part)) }
    ensures seen { IsTrue C.told → C.seen cycles.new ≡ C.seen cycles.old }
{
    if have {
        cycles.has_closed(part, cycle)
    } else {
        Ok(false)
    }
}

/// Joins a cycle over what was made of it before. Gives the status.
#[tactic(auto, using(crate::proofs::Cycling::joins_of, crate::proofs::Cycling::none_of))]
fn join_over<C: PartCycles>(
    cycles: &mut C,
    cycle: u64,
    made: Option<bool>,
    names: bool,
) -> Result<u8, JoinStop>
    ensures joins { IsTrue C.told → IfOk result (λ status.
        Joins cycle made names (C.seen cycles.old) (C.seen cycles.new) status) }
    ensures failed { IsTrue C.told
        → IfErr result (JoinsNone 0 cycle (C.seen cycles.old) (C.seen cycles.new)) }
    ensures beside { IsTrue C.told → IsBeside cycle (C.seen cycles.old) (C.seen cycles.new) }
{
    let whole = cycles.join(cycle, made, names)?;
    Ok(join_status(end_of(names, whole)))
}

/// How a joining ended: the joined report is whole or not, or parts keep the cycle from being
/// joined, and were named or not.
pub fn end_of(names: bool, whole: Option<bool>) -> CycleEnd
    ensures { result ≡ end_by names whole }
{
    match whole {
        Some(whole) => CycleEnd::IsJoined { whole },
        None => CycleEnd::IsHindered { named: names },
    }
}

/// Joins the last cycle, or says why that fails. Gives the status.
#[tactic(auto, using(crate::proofs::Cycling::last_joined))]
fn join_last_or_fail<C: PartCycles>(cycles: &mut C, last: u64) -> JoinEnd
    ensures tried { IsTrue C.told
        → TriesLast last (C.seen cycles.old) (C.seen cycles.new) result }
{
    match join_last(cycles, last) {
        Ok(status) => without_stop(status),
        Err(stop) => cycles.fail(last, &stop),
    }
}

/// Compares the joined report of the last cycle, or joins it, and names the parts that keep it from
/// it. Gives the status.
#[tactic(auto, using(crate::proofs::Cycling::joins_then, crate::proofs::Cycling::none_looked, crate::proofs::Cycling::none_then, crate::proofs::Cycling::same_beside, crate::proofs::Cycling::all_beside))]
fn join_last<C: PartCycles>(cycles: &mut C, cycle: u64) -> Result<u8, JoinStop>
    ensures joins { IsTrue C.told → IfOk result (λ status.
        Joins cycle (made_of (C.seen cycles.old) cycle)
        (is_none_of (made_of (C.seen cycles.old) cycle))
        (C.seen cycles.old) (C.seen cycles.new) status) }
    ensures failed { IsTrue C.told
        → IfErr result (JoinsNone 0 cycle (C.seen cycles.old) (C.seen cycles.new)) }
    ensures beside { IsTrue C.told → IsBeside cycle (C.seen cycles.old) (C.seen cycles.new) }
{
    let made = find_made(cycles, cycle)?;
    join_over(cycles, cycle, made, is_none(made))
}

fn is_none(made: Option<bool>) -> bool
    ensures { result ≡ is_none_of made }
{
    match made {
        Some(_) => false,
        None => true,
    }
}

/// Whether the joined report of a cycle is whole, if there is one. Of cycle 0 there never is.
fn find_made<C: PartCycles>(cycles: &mut C, cycle: u64) -> Result<Option<bool>, JoinStop>
    ensures made { IsTrue C.told
        → IfOk result (λ made. made ≡ made_of (C.seen cycles.old) cycle) }
    ensures why { IsTrue C.told → IfErr result (IsCallStop (λ _. ⊥)) }
    ensures seen { IsTrue C.told → C.seen cycles.new ≡ C.seen cycles.old }
{
    if cycle == 0 {
        return Ok(None);
    }
    let look = cycles.look(cycle)?;
    Ok(whole_of(look))
}

fn whole_of(look: JoinedLook) -> Option<bool>
    ensures { result ≡ whole_by look }
{
    match look {
        JoinedLook::There { whole } => Some(whole),
        JoinedLook::Packed | JoinedLook::Away => None,
    }
}
