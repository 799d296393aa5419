//! The first of what is gone, and how much there is.
ghost use Rattle.std.specs.Prelude.{◌≡◌, ◌+◌, ◌++◌, ℕ, List, [], ◌∷◌, take, OnOk};
ghost use Rattle.ocfl_messages.specs.declared.closing.Gone.{Gone as ModelGone};
ghost use Rattle.ocfl_messages.specs.Tally.{IsCount};
ghost use Rattle.ocfl_words.specs.Counted.{gone_at, most_shown, rows_at};

use ocfl_messages::{Gone, GoneKind, SHOWN};
use ocfl_tree::Place;
use std::alloc::{AllocError, Global};

/// The first of what is gone, and how much there is.
#[derive(Drop)]
pub struct Missing {
    pub first: Vec<Gone>,
    pub count: u64,
}

/// The sum of two numbers, while it fits.
pub(crate) fn add_count(count: u64, more: u64) -> u64
    ensures { (m k : ℕ) → IsCount count m → IsCount more k → IsCount result (m + k) }
{
    count.saturating_add(more)
}

impl Missing {
    ghost use Rattle.ocfl_words.specs.Counted.{Many, IsMany, many_of, many_more};

    /// Nothing.
    pub(crate) fn new(alloc: Global) -> Missing
        ensures { IsMany result (many_of []) }
    {
        Missing {
            first: Vec::new(alloc),
            count: 0,
        }
    }

    /// Takes one more.
    fn add(&mut self, kind: GoneKind, place: &Place) -> Result<(), AllocError>
        ensures { OnOk result ((gs : List ModelGone) → IsMany self.old (many_of gs)
            → IsMany self.new (many_of (gs ++ gone_at place.now kind ∷ []))) }
    {
        put_first(&mut self.first, kind, place)?;
        self.count = add_count(self.count, 1);
        Ok(())
    }

    /// Takes one more, if it is of some kind.
    pub(crate) fn add_if(&mut self, kind: Option<GoneKind>, place: &Place) -> Result<(), AllocError>
        ensures { OnOk result ((gs : List ModelGone) → IsMany self.old (many_of gs)
            → IsMany self.new (many_of (gs ++ rows_at place.now kind))) }
    {
        match kind {
            Some(kind) => self.add(kind, place),
            None => Ok(()),
        }
    }

    /// Takes those of another one too.
    pub(crate) fn join(&mut self, other: &mut Missing) -> Result<(), AllocError>
        ensures { OnOk result ((m n : Many) → IsMany self.old m → IsMany other.old n
            → IsMany self.new (many_more m n)) }
    {
        self.count = add_count(self.count, other.count);
        self.first.append(&mut other.first)
    }
}

/// Appends to the first of what is gone, unless as many are there as are shown.
fn put_first(first: &mut Vec<Gone>, kind: GoneKind, place: &Place) -> Result<(), AllocError>
    ensures { OnOk result ((gs : List ModelGone) → first.old.items ≡ take most_shown gs
        → first.new.items ≡ take most_shown (gs ++ gone_at place.now kind ∷ [])) }
{
    if first.len() >= SHOWN {
        return Ok(());
    }
    let place = place.try_clone()?;
    first.push(Gone { kind, place })?;
    Ok(())
}
