//! What nights read.
ghost use Rattle.std.specs.Prelude.{◌≡◌, IfOk};
ghost use Rattle.ocfl_scrub.specs.Starting.{part_of};
ghost use Rattle.ocfl_night.specs.Site.{part_at};

use ocfl_cursor::PartEnds;
use ocfl_report::Further;
use ocfl_scrub::Part;
use ocfl_tree::Place;
use std::alloc::{AllocError, Global};

/// What nights over one state folder read: a storage root, or a part of it.
#[derive(Drop)]
pub struct Site {
    /// The path of the storage root, as the system resolves it: the names on the way from `/`.
    pub path: Place,
    /// The ends of the part that is read; `None` for all of the root.
    pub ends: Option<PartEnds>,
    /// What the audit checks beside what every audit checks.
    pub further: Further,
}

/// A copy of the end.
pub(crate) fn end_again(end: &Option<Place>) -> Result<Option<Place>, AllocError>
    ensures { IfOk result (λ again. again ≡ end.now) }
{
    match end {
        Some(place) => Ok(Some(place.try_clone()?)),
        None => Ok(None),
    }
}

/// A copy of the ends.
pub(crate) fn ends_again(ends: &Option<PartEnds>) -> Result<Option<PartEnds>, AllocError>
    ensures { IfOk result (λ again. again ≡ ends.now) }
{
    match ends {
        Some(ends) => Ok(Some(PartEnds {
            from: end_again(&ends.from)?,
            below: end_again(&ends.below)?,
        })),
        None => Ok(None),
    }
}

/// The part with these ends, or all of the root.
pub(crate) fn part_at(alloc: Global, ends: &Option<PartEnds>) -> Result<Part, AllocError>
    ensures { IfOk result (λ part. part_of part ≡ part_at ends.now) }
{
    match ends {
        Some(ends) => {
            let from = end_again(&ends.from)?;
            let below = end_again(&ends.below)?;
            Ok(Part::between(alloc, from, below))
        }
        None => Ok(Part::whole(alloc)),
    }
}
