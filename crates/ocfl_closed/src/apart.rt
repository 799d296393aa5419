//! Places without some of them.
ghost use Rattle.std.specs.Prelude.{◌≡◌, ◌≢◌, ◌∷◌, Bool, Decides, IfOk, IfSome, IsNone, List};
ghost use Rattle.std.specs.Prelude.{filter, not};
ghost use Rattle.ocfl_tree.specs.Place.{Place as ModelPlace};

use ocfl_tree::Place;
use std::alloc::{AllocError, Global};

/// Whether two places are the same.
fn is_same(place: &Place, other: &Place) -> bool
    ensures { Decides result (place.now ≡ other.now) }
{
    place == other
}

/// What follows a place, if that is the first of these.
fn after<'p>(places: &'p [Place], place: &Place) -> Option<&'p [Place]>
    ensures some { IfSome result (λ rest. places.now ≡ place.now ∷ rest.now) }
    ensures none { IsNone result → (rest : List ModelPlace) → places.now ≢ place.now ∷ rest }
{
    let (first, rest) = places.split_first()?;
    if is_same(first, place) {
        Some(rest)
    } else {
        None
    }
}

/// Those of the places that are none of the others, which are some of them, in the same order.
pub(crate) fn without(
    alloc: Global,
    places: Vec<Place>,
    others: &[Place],
) -> Result<Vec<Place>, AllocError>
    ensures { (is_other : ModelPlace → Bool) → others.now ≡ filter is_other places.items
        → IfOk result (λ rest. rest.items ≡ filter (λ p. not (is_other p)) places.items) }
{
    let mut rest = Vec::new(alloc);
    let mut others = others;
    for place in places {
        match after(others, &place) {
            Some(more) => others = more,
            None => rest.push(place)?,
        }
    }
    Ok(rest)
}
