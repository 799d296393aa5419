//! Where a cursor is: at the start, after a place, or at the end.
ghost use Rattle.std.specs.Prelude.{◌↔◌, IsTrue};
ghost use Rattle.ocfl_cursor.specs.{Cursor.{IsShortPlace}, State.{state_of}};

use ocfl_tree::Place;
use ocfl_tree::laws::every_place_has_names;

/// How many names the place of a cursor has at most.
pub(crate) const MAX_NAMES: usize = 255;

/// Where the next run begins.
#[derive(Debug, Drop, PartialEq, Eq)]
pub enum State {
    /// At the first item.
    Start,
    /// After this place, whether or not an item is there.
    After(Place),
    /// With the first item of the next cycle.
    Ended,
}

/// Whether a cursor may be in this state: a place has at most 255 names.
pub(crate) fn is_short(state: &State) -> bool
    ensures { IsTrue result ↔ IsShortPlace (state_of state.now) }
{
    match state {
        State::After(place) => {
            every_place_has_names(place);
            place.depth() <= MAX_NAMES
        }
        State::Start | State::Ended => true,
    }
}
