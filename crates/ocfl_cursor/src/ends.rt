//! The two ends of a part of a storage root.
ghost use Rattle.std.specs.Prelude.{◌≡◌, ◌↔◌, IsTrue};
ghost use Rattle.ocfl_cursor.specs.Part.{AreEnds};

use ocfl_tree::Place;
use ocfl_tree::laws::every_place_has_names;

/// The ends of a part of a storage root: it begins at the one place, and stays below the other.
#[derive(Debug, Drop)]
pub struct PartEnds {
    /// The first place of the part. The first part has none, and begins with the root.
    pub from: Option<Place>,
    /// The place below which the part stays. The last part has none.
    pub below: Option<Place>,
}

/// The ends of every part are places of names.
pub fn every_part_has_ends(ends: &PartEnds)
    ensures { AreEnds ends.now }
{
    if let Some(place) = &ends.from {
        every_place_has_names(place);
    }
    if let Some(place) = &ends.below {
        every_place_has_names(place);
    }
}

/// Whether two parts have the same ends.
pub fn is_same_part(ends: &PartEnds, other: &PartEnds) -> bool
    ensures { IsTrue result ↔ (ends.now ≡ other.now) }
{
    is_same_end(&ends.from, &other.from) && is_same_end(&ends.below, &other.below)
}

fn is_same_end(end: &Option<Place>, other: &Option<Place>) -> bool
    ensures { IsTrue result ↔ (end.now ≡ other.now) }
{
    match (end, other) {
        (None, None) => true,
        (Some(place), Some(other)) => place == other,
        _ => false,
    }
}
