//! Separators: places in strictly ascending order.
ghost use Rattle.std.specs.Prelude.{◌≡◌, ◌↔◌, ◌+◌, ◌≤◌, ◌++◌, ◌∷◌, [], length, option_map, IsTrue};
ghost use Rattle.std.specs.Prelude.{IsSome, IfSome, OnOk, OnErr};
ghost use Rattle.ocfl_tree.specs.{Ascending.{IsAscending}, Place.{place_cmp}};
ghost use Rattle.ocfl_separators.specs.Separators.{AreSeparators, end_of_part, start_of_part};

use ocfl_tree::Place;
use ocfl_tree::laws::every_place_has_names;
use std::alloc::Global;
use std::marker::Model;

/// How many separators their text has at most, and a report is cut by at most.
pub(crate) const MAX_SEPARATORS: usize = 100_000;

/// Places in strictly ascending order, which cut a storage root into one part more than there are
/// places: each begins the part after it.
#[derive(Debug, Drop)]
pub struct Separators {
    places: Vec<Place>,
}

impl Model for Separators {
    ghost use Rattle.std.specs.Prelude.{List, ℕ};
    ghost use Rattle.ocfl_separators.specs.Separators.{AreSeparators};

    ghost Value = { List (List (List ℕ)) };

    ghost view = { λ a. a.places.items };

    ghost invariant = { λ a. ∥ AreSeparators a.places.items ∥₁ };
}

/// Why a place was not appended to separators.
#[derive(Clone, Copy, Debug, PartialEq, Eq)]
pub enum PushStop {
    /// It is not above the last of them.
    NotAbove,
    /// Memory was refused.
    Memory,
}

impl Separators {
    /// No separators: the whole root is one part.
    pub fn new(alloc: Global) -> Separators
        ensures { result ≡ [] }
    {
        Separators {
            places: Vec::new(alloc),
        }
    }

    /// Appends a place that is above the last. An error leaves the separators as they were.
    pub fn push(&mut self, place: Place) -> Result<(), PushStop>
        ensures ok { OnOk result (self.new ≡ self.old ++ place ∷ []) }
        ensures rule { OnOk result (AreSeparators self.new) }
        ensures err { OnErr result (self.new ≡ self.old) }
        ensures not_above { result ≡ Err PushStop.NotAbove
            → AreSeparators (self.old ++ place ∷ []) → ⊥ }
    {
        every_place_has_names(&place);
        if !is_above(self.places.as_slice(), &place) {
            return Err(PushStop::NotAbove);
        }
        if self.places.push(place).is_err() {
            return Err(PushStop::Memory);
        }
        Ok(())
    }

    /// The places, in their order.
    pub fn places(&self) -> &[Place]
        ensures places { result.now ≡ self.now }
        ensures rule { AreSeparators self.now }
    {
        self.places.as_slice()
    }

    /// Where the part with this number, from 1, begins, and below which place it stays. The first
    /// part has no beginning, and the last no end. `None` if there are fewer parts.
    pub fn ends(&self, number: usize) -> Option<(Option<&Place>, Option<&Place>)>
        ensures there { IsSome result ↔ (1 ≤ number) × (number ≤ length self.now + 1) }
        ensures start { IfSome result (λ ends.
            option_map (λ p. p.now) ends.0 ≡ start_of_part self.now number) }
        ensures end { IfSome result (λ ends.
            option_map (λ p. p.now) ends.1 ≡ end_of_part self.now number) }
    {
        if number == 0 || number - 1 > self.places.len() {
            return None;
        }
        let start = match number {
            1 => None,
            _ => self.places.get(number - 2),
        };
        Some((start, self.places.get(number - 1)))
    }

    /// How many there are.
    pub fn len(&self) -> usize
        ensures { result ≡ length self.now }
    {
        self.places.len()
    }

    /// Whether there are none.
    pub fn is_empty(&self) -> bool
        ensures { IsTrue result ↔ (self.now ≡ []) }
    {
        self.places.is_empty()
    }
}

/// Whether a place is above the last of ascending places.
fn is_above(places: &[Place], place: &Place) -> bool
    requires ascend { ∥ AreSeparators places.now ∥₁ }
    ensures { IsTrue result ↔ IsAscending place_cmp (places.now ++ place.now ∷ []) }
{
    match places.last() {
        Some(last) => last.cmp(place).is_lt(),
        None => true,
    }
}
