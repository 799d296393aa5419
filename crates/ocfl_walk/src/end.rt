//! Where a walk ends.
ghost use Rattle.std.specs.Prelude.{◌≡◌, [], None};
ghost use Rattle.ocfl_walk.specs.Ends.{is_past};

use ocfl_tree::Place;
use std::alloc::Global;

/// Where a walk ends: at the first place that is above a branch, or is not less than a bound.
#[derive(Debug, Drop)]
pub struct End {
    /// The branch: this place and all that begin with it.
    pub under: Place,
    pub below: Option<Place>,
}

impl End {
    /// The end of the whole storage root.
    pub fn of_all(alloc: Global) -> End
        ensures under { result.under ≡ [] }
        ensures below { result.below ≡ None }
    {
        End {
            under: Place::root(alloc),
            below: None,
        }
    }

    /// Whether a place is past the end.
    pub fn is_past(&self, place: &Place) -> bool
        ensures { result ≡ is_past self.now place.now }
    {
        let above = self.under.cmp(place).is_lt();
        if above && !place.starts_with(&self.under) {
            return true;
        }
        match &self.below {
            None => false,
            Some(below) => !place.cmp(below).is_lt(),
        }
    }
}
