//! Which of some places are in a part.
ghost use Rattle.std.specs.Prelude.{◌≡◌, ◌++◌, IfOk, OnOk};
ghost use Rattle.ocfl_rules.specs.Parts.{is_below as is_place_below, is_from as is_place_from};
ghost use Rattle.ocfl_joining.specs.Within.{is_within as is_place_within, place_if, places_within};

use ocfl_tree::Place;
use std::alloc::{AllocError, Global};

/// Whether a place is not less than where a part begins.
fn is_from(from: &Option<Place>, place: &Place) -> bool
    ensures { result ≡ is_place_from from.now place.now }
{
    match from {
        Some(from) => !place.cmp(from).is_lt(),
        None => true,
    }
}

/// Whether a place is less than where a part ends.
fn is_below(below: &Option<Place>, place: &Place) -> bool
    ensures { result ≡ is_place_below below.now place.now }
{
    match below {
        Some(below) => place.cmp(below).is_lt(),
        None => true,
    }
}

/// Whether a place is in the part with these ends.
fn is_within(from: &Option<Place>, below: &Option<Place>, place: &Place) -> bool
    ensures { result ≡ is_place_within from.now below.now place.now }
{
    is_from(from, place) && is_below(below, place)
}

/// Takes a place if that is asked for.
fn add_if(is: bool, place: &Place, places: &mut Vec<Place>) -> Result<(), AllocError>
    ensures { OnOk result (places.new.items ≡ places.old.items ++ place_if is place.now) }
{
    if is {
        places.push(place.try_clone()?)?;
    }
    Ok(())
}

/// Those of some places that are in the part with these ends, in their order: not less than `from`,
/// and less than `below`. The first part has no beginning, and the last one no end.
pub fn find_within(
    alloc: Global,
    from: &Option<Place>,
    below: &Option<Place>,
    places: &[Place],
) -> Result<Vec<Place>, AllocError>
    ensures { IfOk result
        (λ found. found.items ≡ places_within from.now below.now places.now) }
{
    let mut found = Vec::new(alloc);
    for place in places {
        add_if(is_within(from, below, place), place, &mut found)?;
    }
    Ok(found)
}
