//! Taking the changes of some places alone.
ghost use Rattle.std.specs.Prelude.{◌≡◌, refl};
ghost use Rattle.ocfl_compare.specs.Changes.{is_left};
ghost use Rattle.ocfl_closed.specs.Internal.Takes.{within, within_then};

use ocfl_compare::{Change, Side, TakeChange, TakeStop};
use ocfl_report::Line;
use ocfl_tree::Place;

/// Hands on the changes of these places and of what is below them, and no others.
#[derive(Drop)]
pub(crate) struct Within<T: TakeChange + Drop> {
    pub(crate) places: Vec<Place>,
    pub(crate) taker: T,
}

impl<T: TakeChange + Drop> TakeChange for Within<T> {
    ghost takes = { λ old seen new. (new.places.items ≡ old.places.items)
        × T.takes old.taker (within old.places.items seen) new.taker };

    fn see(&mut self, side: Side, line: &Line) -> Result<(), TakeStop> {
        self.taker.see(side, line)
    }

    fn take(&mut self, place: &Place, change: Change) -> Result<(), TakeStop> {
        if is_within(place, self.places.as_slice()) {
            return self.taker.take(place, change);
        }
        Ok(())
    }

    ghost nothing = { λ t. (refl, T.nothing t.taker) };

    ghost joined = { λ t u v first then p q. within_then T.takes T.joined
        t.places.items u.places.items v.places.items t.taker u.taker v.taker first then p q };
}

/// Whether a place is one of these or below one.
fn is_within(place: &Place, places: &[Place]) -> bool
    ensures { result ≡ is_left places.now place.now }
{
    places.iter().any(|branch| place.starts_with(branch))
}
