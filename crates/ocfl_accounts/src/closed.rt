//! Closed cycles.
ghost use Rattle.std.specs.Prelude.{◌≡◌};
ghost use Rattle.ocfl_accounts.specs.Cycle.{fits as fits_by, is_fit_cycle};

use ocfl_tree::Place;
use std::marker::Model;

/// A closed cycle whose report is there.
#[derive(Debug)]
pub struct ClosedCycle {
    cycle: u64,
    whole: bool,
    lost: bool,
    left: Vec<Place>,
}

/// Written by hand, so that to let it go is one call wherever that happens.
impl Drop for ClosedCycle {
    fn drop(self) {
        let ClosedCycle {
            cycle: _cycle,
            whole: _whole,
            lost: _lost,
            left: _left,
        } = self;
    }
}

impl Model for ClosedCycle {
    ghost use Rattle.ocfl_accounts.specs.Cycle.{Cycle};

    ghost Value = { Cycle };

    ghost view = { λ c. record {
      cycle = c.cycle;
      whole = c.whole;
      lost = c.lost;
      left = c.left.items;
    } };
}

impl ClosedCycle {
    /// A cycle by its number; whether its report is whole; whether lines of it were lost, or may
    /// have been; and the places that were left out of it.
    pub fn new(cycle: u64, whole: bool, lost: bool, left: Vec<Place>) -> ClosedCycle
        ensures cycle { result.cycle ≡ cycle }
        ensures whole { result.whole ≡ whole }
        ensures lost { result.lost ≡ lost }
        ensures left { result.left ≡ left.items }
    {
        ClosedCycle {
            cycle,
            whole,
            lost,
            left,
        }
    }

    /// Its number.
    pub fn cycle(&self) -> u64
        ensures { result ≡ self.now.cycle }
    {
        self.cycle
    }

    /// Whether its report is whole.
    pub fn is_whole(&self) -> bool
        ensures { result ≡ self.now.whole }
    {
        self.whole
    }

    /// Whether lines of its report were lost, or may have been.
    pub fn is_lost(&self) -> bool
        ensures { result ≡ self.now.lost }
    {
        self.lost
    }

    /// The places that were left out of it.
    pub fn left(&self) -> &[Place]
        ensures { result.now ≡ self.now.left }
    {
        self.left.as_slice()
    }

    /// Whether a cycle can be compared with it, with `only_whole` with a whole one alone.
    pub(crate) fn is_fit(&self, only_whole: bool) -> bool
        ensures { result ≡ is_fit_cycle only_whole self.now }
    {
        fits(only_whole, self.whole, self.lost)
    }
}

/// Whether a cycle can be compared with a report: that lost nothing and, with `only_whole`, is
/// whole.
pub(crate) fn fits(only_whole: bool, whole: bool, lost: bool) -> bool
    ensures { result ≡ fits_by only_whole whole lost }
{
    !lost && (whole || !only_whole)
}

/// What is there of a closed cycle.
#[derive(Debug, Drop)]
pub enum Look {
    /// Its report.
    There(ClosedCycle),
    /// No report.
    Away {
        /// Whether it was whole. It counts as whole where that is not known.
        whole: bool,
        /// Whether lines of it were lost before it was closed, as far as that is known.
        lost: bool,
    },
}
