//! The failures that are planned for a tree in memory.
ghost use Rattle.std.specs.Prelude.{◌≡◌, ◌<◌, ◌≤◌, ◌++◌, ◌∷◌, [], ◌&&◌, Some, OnOk, OnErr};
ghost use Rattle.ocfl_tree.specs.Place.{place_eq};
ghost use Rattle.ocfl_memory.specs.Faults.{no_faults, is_met, is_planned, is_struck, is_due, due_after, after_call, within_step};

use ocfl_tree::Place;
use std::alloc::{AllocError, Global};
use std::marker::Model;

/// Which calls at a place fail: listings, openings, or reads from an offset on, in bytes.
#[derive(Clone, Copy, Debug, PartialEq, Eq)]
pub enum Point {
    List,
    Open,
    Read(u64),
}

/// Whether a planned fault is one of a call.
fn is_met(planned: Point, call: Point) -> bool
    ensures { result ≡ is_met planned call }
{
    match planned {
        Point::List => matches!(&call, Point::List),
        Point::Open => matches!(&call, Point::Open),
        Point::Read(start) => match call {
            Point::Read(offset) => start <= offset,
            Point::List | Point::Open => false,
        },
    }
}

/// Whether one planned fault is a call's.
fn is_of(planned: &(Place, Point), place: &Place, call: Point) -> bool
    ensures { result ≡ (place_eq planned.now.0 place.now && is_met planned.now.1 call) }
{
    planned.0 == *place && is_met(planned.1, call)
}

fn is_planned(points: &[(Place, Point)], place: &Place, call: Point) -> bool
    ensures { result ≡ is_planned points.now place.now call }
{
    for planned in points {
        if is_of(planned, place, call) {
            return true;
        }
    }
    false
}

/// Counts a call, and reports whether it is the one that fails.
fn is_due(call: &mut Option<u64>) -> bool
    ensures due { result ≡ is_due call.old }
    ensures after { call.new ≡ due_after call.old }
{
    let due = *call == Some(1);
    *call = match *call {
        Some(count) if count > 1 => Some(count - 1),
        _ => None,
    };
    due
}

/// The calls that are made to fail, and how much a read gives at most.
#[derive(Debug, Drop)]
pub(crate) struct Plan {
    step: Option<usize>,
    call: Option<u64>,
    points: Vec<(Place, Point)>,
}

impl Model for Plan {
    ghost use Rattle.std.specs.{Prelude.{◌<◌}, Option.{ForSome}};
    ghost use Rattle.ocfl_memory.specs.Faults.{Faults};

    ghost Value = { Faults };

    ghost view = { λ a. record { step = a.step; call = a.call; points = a.points.items } };

    ghost invariant = { λ a. ForSome a.step (λ n. 0 < n) };
}

impl Plan {
    pub(crate) fn new(alloc: Global) -> Plan
        ensures { result ≡ no_faults }
    {
        Plan {
            step: None,
            call: None,
            points: Vec::new(alloc),
        }
    }

    pub(crate) fn set_step(&mut self, step: usize)
        requires { 0 < step }
        ensures { self.new ≡ record self.old { step = Some step } }
    {
        self.step = Some(step);
    }

    pub(crate) fn set_call(&mut self, call: u64)
        ensures { self.new ≡ record self.old { call = Some call } }
    {
        self.call = Some(call);
    }

    pub(crate) fn add(&mut self, place: &Place, point: Point) -> Result<(), AllocError>
        ensures ok { OnOk result (self.new ≡ record self.old {
          points = self.old.points
              ++ (place.now, point) ∷ [];
        }) }
        ensures err { OnErr result (self.new ≡ self.old) }
    {
        self.points.push((place.try_clone()?, point))?;
        Ok(())
    }

    /// Counts a call at a place, and reports whether it is made to fail.
    pub(crate) fn strikes(&mut self, place: &Place, call: Point) -> bool
        ensures struck { result ≡ is_struck self.old place.now call }
        ensures after { self.new ≡ after_call self.old }
    {
        let due = is_due(&mut self.call);
        due || is_planned(&self.points, place, call)
    }

    /// How many of these many bytes a read gives.
    pub(crate) fn within_step(&self, count: usize) -> usize
        ensures count { result ≡ within_step self.now.step count }
        ensures within { result ≤ count }
        ensures some { 0 < count → 0 < result }
    {
        match self.step {
            Some(step) => step.min(count),
            None => count,
        }
    }
}
