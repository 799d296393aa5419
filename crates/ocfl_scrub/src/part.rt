//! Parts of a storage root.
ghost use Rattle.std.specs.Prelude.{◌≡◌, ◌≢◌, [], None, Some, Option, option_map, IfErr, IfOk, MatchResult};
ghost use Rattle.ocfl_rules.specs.Parts.{branch, whole};
ghost use Rattle.ocfl_scope.specs.Numbered.{part_between};
ghost use Rattle.ocfl_walk.specs.{WalkCalls.{GoDownFails, GoesDown}, Walks.{Stands}};
ghost use Rattle.ocfl_scrub.specs.Scoping.{part_of_scope};
ghost use Rattle.ocfl_scrub.specs.Starting.{entry, first_place as first_of_part, part_of, stand, is_before as lies_before};
ghost use Rattle.ocfl_tree.specs.Store.{IfTold};

use ocfl_cursor::PartEnds;
use ocfl_report::Further;
use ocfl_scope::Scope;
use ocfl_tree::{Place, Tree};
use ocfl_walk::{End, Fault, Walk};
use std::alloc::{AllocError, Global};

/// A part of a storage root: the places of one branch, from a first place to before a last one.
#[derive(Drop)]
pub struct Part {
    /// The part has no place before this one. `None`: it begins with its branch.
    pub from: Option<Place>,
    /// The branch of the part, and the place before which the part ends.
    pub end: End,
}

impl Part {
    /// The whole storage root.
    pub fn whole(alloc: Global) -> Part
        ensures { part_of result ≡ whole }
    {
        Part {
            from: None,
            end: End::of_all(alloc),
        }
    }

    /// A place and all that is in it.
    pub fn branch(place: Place) -> Part
        ensures { part_of result ≡ branch place }
    {
        Part {
            from: None,
            end: End {
                under: place,
                below: None,
            },
        }
    }

    /// The places from one on, itself included, that come before another. `None`: no bound there.
    pub fn between(alloc: Global, from: Option<Place>, below: Option<Place>) -> Part
        ensures { part_of result ≡ record { under = []; from = from; below = below } }
    {
        Part {
            from,
            end: End {
                under: Place::root(alloc),
                below,
            },
        }
    }

    /// The place that the part begins with, unless that is the storage root's.
    fn first_place(&self) -> Option<&Place>
        ensures { option_map (λ p. p.now) result ≡ first_of_part (part_of self.now) }
    {
        let first = match &self.from {
            Some(from) if self.end.under < *from => from,
            _ => &self.end.under,
        };
        if first.depth() == 0 {
            None
        } else {
            Some(first)
        }
    }
}

/// The part that a scope has.
pub(crate) fn part_in(alloc: Global, scope: &Scope) -> Result<Part, AllocError>
    ensures part { IfOk result (λ part. part_of part ≡ part_of_scope scope.now) }
    ensures whole { IfErr result (λ why. scope.now ≢ Scope.Whole) }
{
    match scope {
        Scope::Whole => Ok(Part::whole(alloc)),
        Scope::Branch(place) => Ok(Part::branch(place.try_clone()?)),
        Scope::Part(ends) => part_between(alloc, ends),
    }
}

/// The part that has these ends.
pub(crate) fn part_between(alloc: Global, ends: &PartEnds) -> Result<Part, AllocError>
    ensures { IfOk result (λ part. part_of part ≡ part_between ends.now) }
{
    let from = end_again(&ends.from)?;
    let below = end_again(&ends.below)?;
    Ok(Part::between(alloc, from, below))
}

/// A copy of the end.
fn end_again(end: &Option<Place>) -> Result<Option<Place>, AllocError>
    ensures { IfOk result (λ again. again ≡ end.now) }
{
    match end {
        Some(place) => Ok(Some(place.try_clone()?)),
        None => Ok(None),
    }
}

/// Begins the walk over a part's items above a place, or over all of them if no place is given, for
/// an audit that checks this beside what every audit checks.
///
/// It goes down to that place. If the part begins later, it goes down to the directory of the
/// part's first place, so that the walk meets that place too.
pub(crate) fn set_out<T: Tree>(
    alloc: Global,
    store: &mut T,
    further: Further,
    part: &Part,
    above: Option<&Place>,
) -> Result<Walk, Fault>
    ensures told { IfTold T.told (T.state store.old) (λ root.
        let above = option_map (λ p. p.now) above.entry in MatchResult result
        (λ walk. GoesDown further root (T.state store.old) (T.state store.new)
        (entry (part_of part.now) above)
        × Stands further root walk (stand root (part_of part.now) above))
        (λ why. GoDownFails further root (T.state store.old) (T.state store.new)
        (entry (part_of part.now) above) why)) }
{
    let Some(first) = part.first_place() else {
        return Walk::start(alloc, store, further, above);
    };
    if is_before(above, first) {
        Walk::start_at(alloc, store, further, first)
    } else {
        Walk::start(alloc, store, further, above)
    }
}

/// Whether a place is less than another, or not given.
fn is_before(above: Option<&Place>, first: &Place) -> bool
    ensures { result ≡ lies_before (option_map (λ p. p.now) above.entry) first.now }
{
    match above {
        Some(place) => place < first,
        None => true,
    }
}
