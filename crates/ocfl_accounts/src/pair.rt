//! A closed cycle, and what it is compared with.
ghost use Rattle.std.specs.Prelude.{◌≡◌, ◌++◌, IsTrue, IfOk, OnOk, []};
ghost use Rattle.ocfl_accounts.specs.{Causes.{HasCause}, Crash.{Passes, Same}, Cycle.{Cycle}};
ghost use Rattle.ocfl_accounts.specs.Pairs.{IsBefore, IsPair, IsWholeBefore, lacks, left_before};
ghost use Rattle.ocfl_accounts.specs.Pairs.{outside, status_of as status_by, waits};
ghost use Rattle.ocfl_compare.specs.Changes.{is_left as is_left_out};

use crate::closed::ClosedCycle;
use crate::closings::{ClosingStop, Closings};
use crate::earlier::{Earlier, find_earlier};
use ocfl_status::status_of as exit_status;
use ocfl_tree::Place;
use std::alloc::{AllocError, Global};

/// A closed cycle, and what it is compared with.
#[derive(Debug)]
pub struct Pair {
    pub closed: ClosedCycle,
    /// The last cycle before it that lost nothing, unless this one lost lines.
    pub before: Option<ClosedCycle>,
    /// The last cycle between the two whose report is not there, and which lost nothing.
    pub missing: Option<u64>,
    /// The places that the one before alone left out.
    pub again: Vec<Place>,
    /// The last whole cycle before that, for these places.
    pub whole: Option<ClosedCycle>,
    /// The last cycle between those whose report is not there, and which was whole.
    pub whole_missing: Option<u64>,
}

/// Written by hand, so that to let it go is one call wherever that happens.
impl Drop for Pair {
    fn drop(self) {
        let Pair {
            closed: _closed,
            before: _before,
            missing: _missing,
            again: _again,
            whole: _whole,
            whole_missing: _whole_missing,
        } = self;
    }
}

impl Pair {
    /// Whether a report is not there with which it is to be compared.
    pub fn lacks(&self) -> bool
        ensures { result ≡ lacks self.now }
    {
        self.missing.is_some() || self.whole_missing.is_some()
    }

    /// Whether nothing was compared, and it can be once a report is back.
    pub fn waits(&self) -> bool
        ensures { result ≡ waits self.now }
    {
        self.before.is_none() && self.missing.is_some()
    }
}

/// The status of a closing: 3 if its report is not whole, or a report is not there with which it is
/// to be compared; 1 if something is new or gone; else 0.
pub fn status_of(pair: &Pair, is_grave: bool) -> u8
    ensures { result ≡ status_by pair.now is_grave }
{
    exit_status(!pair.closed.is_whole() || pair.lacks(), is_grave)
}

/// Finds what a closed cycle is compared with.
#[tactic(auto, using(crate::proofs::Causes::cause_on, crate::proofs::Passing::two_same))]
pub fn find_pair<C: Closings>(
    alloc: Global,
    closings: &mut C,
    now: ClosedCycle,
) -> Result<Pair, ClosingStop>
    ensures value { IsTrue C.told → IfOk result (IsPair (C.seen closings.old).sights) }
    ensures closed { IfOk result (λ pair. pair.closed ≡ now) }
    ensures seen { IsTrue C.told → C.seen closings.new ≡ C.seen closings.old }
    ensures with { IsTrue C.told → C.with closings.new ≡ C.with closings.old }
    ensures crash { IsTrue C.told
        → Passes C.may_leave C.moment C.left_since Same closings.old closings.new }
    ensures cause { IsTrue C.told
        → HasCause (C.faults closings.old) (C.faults closings.new) result }
{
    let before = find_before(closings, &now)?;
    let again = match places_again(alloc, &now, &before.found) {
        Ok(again) => again,
        Err(_) => return Err(ClosingStop::Memory),
    };
    let whole = find_whole(closings, &before.found, again.as_slice())?;
    Ok(Pair {
        closed: now,
        before: before.found,
        missing: before.missing,
        again,
        whole: whole.found,
        whole_missing: whole.missing,
    })
}

/// Finds the last cycle before, unless lines of this one were lost.
#[tactic(auto, using(crate::proofs::Passing::nothing_passes))]
fn find_before<C: Closings>(closings: &mut C, now: &ClosedCycle) -> Result<Earlier, ClosingStop>
    ensures value { IsTrue C.told → IfOk result (λ it.
        IsBefore (C.seen closings.old).sights now.now it.found it.missing) }
    ensures seen { IsTrue C.told → C.seen closings.new ≡ C.seen closings.old }
    ensures with { IsTrue C.told → C.with closings.new ≡ C.with closings.old }
    ensures crash { IsTrue C.told
        → Passes C.may_leave C.moment C.left_since Same closings.old closings.new }
    ensures cause { IsTrue C.told
        → HasCause (C.faults closings.old) (C.faults closings.new) result }
{
    if now.is_lost() {
        return Ok(Earlier {
            found: None,
            missing: None,
        });
    }
    find_earlier(closings, now.cycle(), false)
}

/// The places that the cycle before alone left out.
fn places_again(
    alloc: Global,
    now: &ClosedCycle,
    before: &Option<ClosedCycle>,
) -> Result<Vec<Place>, AllocError>
    ensures { IfOk result (λ again. again.items ≡ left_before now.now before.now) }
{
    let mut again = Vec::new(alloc);
    if let Some(before) = before {
        put_outside(before.left(), now.left(), &mut again)?;
    }
    Ok(again)
}

/// Appends those of the places that are none of the others, and not below one of these.
fn put_outside(places: &[Place], others: &[Place], rest: &mut Vec<Place>) -> Result<(), AllocError>
    ensures { OnOk result (rest.new.items ≡ rest.old.items ++ outside places.now others.now) }
{
    for place in places {
        if !is_left(others, place) {
            rest.push(place.try_clone()?)?;
        }
    }
    Ok(())
}

/// Whether the place is one of those, or is below one.
pub(crate) fn is_left(left: &[Place], place: &Place) -> bool
    ensures { result ≡ is_left_out left.now place.now }
{
    left.iter().any(|branch| place.starts_with(branch))
}

/// Finds the last whole cycle, if the one before left out what this one did not.
#[tactic(auto, using(crate::proofs::Passing::nothing_passes))]
fn find_whole<C: Closings>(
    closings: &mut C,
    before: &Option<ClosedCycle>,
    again: &[Place],
) -> Result<Earlier, ClosingStop>
    ensures value { IsTrue C.told → IfOk result (λ it.
        IsWholeBefore (C.seen closings.old).sights before.now again.now it.found it.missing) }
    ensures seen { IsTrue C.told → C.seen closings.new ≡ C.seen closings.old }
    ensures with { IsTrue C.told → C.with closings.new ≡ C.with closings.old }
    ensures crash { IsTrue C.told
        → Passes C.may_leave C.moment C.left_since Same closings.old closings.new }
    ensures cause { IsTrue C.told
        → HasCause (C.faults closings.old) (C.faults closings.new) result }
{
    match before {
        Some(before) if !again.is_empty() => find_earlier(closings, before.cycle(), true),
        _ => Ok(Earlier {
            found: None,
            missing: None,
        }),
    }
}
