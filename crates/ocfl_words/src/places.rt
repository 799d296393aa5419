//! How many places a list has.

use ocfl_tree::Place;

/// How many objects a list has that is sorted: one that is there twice counts once.
pub fn count_places(places: &[Place]) -> u64 {
    let mut count: u64 = 0;
    let mut last: Option<&Place> = None;
    for place in places {
        if last != Some(place) {
            count = count.saturating_add(1);
        }
        last = Some(place);
    }
    count
}
