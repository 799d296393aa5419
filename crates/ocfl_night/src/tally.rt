//! What a night has done so far, and what it does about a run that stopped at a place.
ghost use Rattle.std.specs.Prelude.{◌≡◌, ◌++◌, Bool, IfOk, OnErr, false};
ghost use Rattle.ocfl_night.specs.Done.{done_of, nothing_done, with_begun, with_made, with_none_tried};
ghost use Rattle.ocfl_night.specs.Leaving.{MayLeave, branch_for, is_at, left_by, remedy_at, remedy_by, tried_by, with_remedy};

use crate::leaving::{branch_at, end_of};
use ocfl_terms::{Made, counted};
use ocfl_tree::Place;
use std::alloc::{AllocError, Global};

/// How many branches a night leaves out at most.
const MOST_LEFT: usize = 16;

/// How many runs of a night stop at a place at most, so that a store that fails now here and now
/// there ends it: two for each branch that is left out, and as many again.
const MOST_STOPS: u64 = 64;

/// What was done so far.
#[derive(Drop)]
pub(crate) struct Tally {
    pub(crate) runs: u64,
    /// When the first run began.
    pub(crate) began: Option<u64>,
    pub(crate) spent: u64,
    pub(crate) files: u64,
    /// How many runs stopped at a place.
    pub(crate) stops: u64,
    /// The place at which the last run stopped, if it is tried once more.
    pub(crate) tried: Option<Place>,
    /// The branches that were left out.
    pub(crate) left: Vec<Place>,
}

/// What a night does about a run that stopped at a place.
#[derive(Drop)]
pub enum Remedy {
    /// The place is tried once more.
    TryAgain,
    /// This branch is left out.
    LeaveOut(Place),
    /// Nothing can be done.
    Halt,
}

impl Tally {
    pub(crate) fn none(alloc: Global) -> Tally
        ensures nothing { done_of result ≡ nothing_done }
        ensures left { (strict : Bool) → MayLeave strict result.left.items }
    {
        Tally {
            runs: 0,
            began: None,
            spent: 0,
            files: 0,
            stops: 0,
            tried: None,
            left: Vec::new(alloc),
        }
    }

    /// A run is begun at this time.
    pub(crate) fn begin(&mut self, now: u64)
        ensures done { done_of self.new ≡ with_begun now (done_of self.old) }
    {
        self.runs = counted(self.runs, 1);
        self.began = Some(self.began.unwrap_or(now));
    }

    /// A run is made.
    pub(crate) fn count(&mut self, made: &Made)
        ensures done { done_of self.new ≡ with_made made.now (done_of self.old) }
    {
        self.spent = counted(self.spent, made.spent);
        self.files = counted(self.files, made.files);
    }

    /// The last run did not stop at a place.
    pub(crate) fn forget_try(&mut self)
        ensures done { done_of self.new ≡ with_none_tried (done_of self.old) }
    {
        self.tried = None;
    }

    /// The branch that can be left out for a place that cannot be read. `None` where none can be.
    fn branch_for(&self, alloc: Global, place: &Place) -> Result<Option<Place>, AllocError>
        ensures { IfOk result (λ found. found ≡ branch_for self.now.left.items place.now) }
    {
        if self.left.len() >= MOST_LEFT {
            return Ok(None);
        }
        let branch = branch_at(place)?;
        match end_of(alloc, &branch)? {
            Some(_) => Ok(Some(branch)),
            None => Ok(None),
        }
    }

    /// Leaves out the branch of a place, if that can be done.
    fn leave_out_at(&mut self, alloc: Global, place: &Place) -> Result<Remedy, AllocError>
        ensures is { IfOk result (λ remedy.
            remedy ≡ remedy_by (branch_for self.old.left.items place.now)) }
        ensures left { IfOk result (λ remedy.
            self.new.left.items ≡ self.old.left.items ++ left_by remedy) }
        ensures may_leave { MayLeave false self.old.left.items
            → MayLeave false self.new.left.items }
        ensures kept { OnErr result (self.new.left.items ≡ self.old.left.items) }
        ensures same { self.new ≡ record self.old { left = self.new.left } }
    {
        match self.branch_for(alloc, place)? {
            Some(branch) => {
                self.left.push(branch.try_clone()?)?;
                Ok(Remedy::LeaveOut(branch))
            }
            None => Ok(Remedy::Halt),
        }
    }

    /// What is done about a run that stopped at a place: with `strict`, nothing.
    pub(crate) fn remedy(
        &mut self,
        alloc: Global,
        place: &Place,
        strict: bool,
    ) -> Result<Remedy, AllocError>
        ensures is { IfOk result (λ remedy.
            remedy ≡ remedy_at strict (done_of self.old) place.now) }
        ensures done { IfOk result (λ remedy.
            done_of self.new ≡ with_remedy place.now remedy (done_of self.old)) }
        ensures kept { OnErr result (self.new.left.items ≡ self.old.left.items) }
        ensures runs { self.new.runs ≡ self.old.runs }
        ensures may_leave { MayLeave strict self.old.left.items
            → MayLeave strict self.new.left.items }
    {
        let tried = self.tried.take();
        self.stops = self.stops.saturating_add(1);
        if strict || self.stops > MOST_STOPS {
            return Ok(Remedy::Halt);
        }
        if !is_at(&tried, place) {
            self.tried = Some(place.try_clone()?);
            return Ok(Remedy::TryAgain);
        }
        self.leave_out_at(alloc, place)
    }
}

/// Whether there is a place, and it is this one.
fn is_at(tried: &Option<Place>, place: &Place) -> bool
    ensures { result ≡ is_at tried.now place.now }
{
    match tried {
        Some(tried) => tried == place,
        None => false,
    }
}
