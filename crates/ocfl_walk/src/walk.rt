//! The walk: items in order, from a stack of sorted listings and the table of one object.
ghost use Rattle.std.specs.Prelude.{◌≡◌, ◌≢◌, ◌∷◌, ◌++◌, [], Option, option_map, true, false, None};
ghost use Rattle.std.specs.Prelude.{Some, IfOk, IfErr, IfSome, MatchResult};
ghost use Rattle.ocfl_tree.specs.{Place.{Place as Spot}, Store.{IfTold}};
ghost use Rattle.ocfl_report.specs.declared.further.Further.{Further as ModelFurther};
ghost use Rattle.ocfl_walk.specs.{Before.{directory_of, place_before}, Ends.{is_past}};
ghost use Rattle.ocfl_walk.specs.WalkCalls.{FailsOut, GoDownFails, GoesDown, WalkFails};
ghost use Rattle.ocfl_walk.specs.Orderly.{is_orderly};

use crate::end::End;
use crate::entry::stand_at;
use crate::stand::{Stand, Step};
use arrayvec::ArrayVec;
use ocfl_item::{Fault, Pending};
use ocfl_report::Further;
use ocfl_tree::{Name, Place, Tree};
use std::alloc::{AllocError, Global};

/// The items of a storage root above a place, one after the other.
///
/// It holds what is left of the listings on the way to its last place, at most 128 of them, the
/// table of the object that holds that place, and at most two places; no file's bytes.
#[derive(Debug)]
pub struct Walk {
    alloc: Global,
    /// What is checked beside what each audit checks.
    further: Further,
    stand: Stand,
    /// The name that the walk begins at, in the directory at its last place, until it has begun.
    first: Option<Name>,
    ghost orderly: { is_orderly stand ≡ true },
}

/// Written by hand, so that to let it go is one call wherever that happens.
impl Drop for Walk {
    fn drop(self) {
        let Walk {
            alloc: _alloc,
            further: _further,
            stand: _stand,
            first: _first,
        } = self;
    }
}

impl Walk {
    ghost use Rattle.ocfl_walk.specs.Walks.{Gives, GivesOut, GoesOn};
    ghost use Rattle.ocfl_walk.specs.Walks.{OpensInventories, Stands, further_of, last_of};

    /// A walk over the items above a place, whether or not there is one at it, or over all of them.
    ///
    /// `further` is what the audit checks beside what each audit does. The walk lists the
    /// directories on the way to the place, as far as they lead, and reads at most the inventory of
    /// the object that holds it; without a place it makes no call. `Fault::Store` if the store did
    /// not answer, `Fault::Memory` if memory was refused.
    pub fn start<T: Tree>(
        alloc: Global,
        store: &mut T,
        further: Further,
        after: Option<&Place>,
    ) -> Result<Walk, Fault>
        ensures last { IfOk result (λ walk. last_of walk ≡ option_map (λ p. p.now) after.entry) }
        ensures untouched { after.entry ≡ None → store.new ≡ store.old }
        ensures ready { after.entry ≡ None → IfErr result (λ _. ⊥) }
        ensures inventories { IfTold T.told (T.state store.old) (λ root.
            OpensInventories root (T.state store.old) (T.state store.new)) }
        ensures told { IfTold T.told (T.state store.old) (λ root.
            let p = option_map (λ p. p.now) after.entry in MatchResult result
            (λ walk. GoesDown further root (T.state store.old) (T.state store.new) p
            × Stands further root walk p)
            (λ why. GoDownFails further root (T.state store.old) (T.state store.new) p why)) }
    {
        let Some(place) = after else {
            return Ok(Walk {
                alloc,
                further,
                stand: Stand {
                    listings: ArrayVec::new_in(alloc),
                    around: None,
                    last: None,
                },
                first: None,
            });
        };
        let stand = stand_at(alloc, store, further, place)?;
        Ok(Walk {
            alloc,
            further,
            stand,
            first: None,
        })
    }

    /// A walk over the items at a place and above it, whether or not there is one at it.
    ///
    /// `further` is what the audit checks beside what each audit does. The walk lists the
    /// directories above the place, as far as they lead to it, and reads at most the inventory of
    /// the object that holds its directory; at the storage root it makes no call. What is at the
    /// place is listed and read with its item. `Fault::Store` if the store did not answer,
    /// `Fault::Memory` if memory was refused.
    pub fn start_at<T: Tree>(
        alloc: Global,
        store: &mut T,
        further: Further,
        from: &Place,
    ) -> Result<Walk, Fault>
        ensures last { IfOk result (λ walk. last_of walk ≡ directory_of from.now) }
        ensures untouched { from.now ≡ [] → store.new ≡ store.old }
        ensures ready { from.now ≡ [] → IfErr result (λ _. ⊥) }
        ensures inventories { IfTold T.told (T.state store.old) (λ root.
            OpensInventories root (T.state store.old) (T.state store.new)) }
        ensures told { IfTold T.told (T.state store.old) (λ root.
            let d = directory_of from.now in MatchResult result
            (λ walk. GoesDown further root (T.state store.old) (T.state store.new) d
            × Stands further root walk (place_before root from.now))
            (λ why. GoDownFails further root (T.state store.old) (T.state store.new) d why)) }
    {
        if from.depth() == 0 {
            return Walk::start(alloc, store, further, None);
        }
        let (directory, name) = last_name(from)?;
        let stand = stand_at(alloc, store, further, &directory)?;
        Ok(Walk {
            alloc,
            further,
            stand,
            first: Some(name),
        })
    }

    /// What its audit checks beside what every audit checks.
    pub fn further(&self) -> Further
        ensures { result ≡ further_of self.now }
    {
        self.further
    }

    /// The walk after its next item, and that item; `None` if there are no more, then and at each
    /// further call.
    ///
    /// It lists the directories and reads the inventories of the objects between the last place and
    /// the item's, each once. If it checks the inventories of version directories, it reads their
    /// sidecars too. It opens no content file. `Fault::Store` if the store did not answer,
    /// `Fault::Memory` if memory was refused. A fault ends the walk: one from the last place goes
    /// on.
    pub fn next<T: Tree>(self, store: &mut T) -> Result<(Walk, Option<Pending>), Fault>
        ensures goes_on { IfOk result (λ o. GoesOn self o.0 o.1) }
        ensures told { IfTold T.told (T.state store.old) (λ root.
            (further : ModelFurther) (last : Option Spot) → Stands further root self last
            → MatchResult result
            (λ o. Gives further root (T.state store.old) (T.state store.new) last o.0 o.1)
            (λ why. WalkFails further root (T.state store.old) (T.state store.new) last why)) }
    {
        let end = End::of_all(self.alloc);
        self.next_within(store, &end)
    }

    /// The walk after its next item before an end, and that item; `None` if there are no more
    /// before it.
    ///
    /// It looks at no place past the end: none is listed there, and no inventory of an object there
    /// is read. If it answers `None` it stays where it was, and a further end leads it on.
    /// Otherwise as `next`.
    pub fn next_within<T: Tree>(
        self,
        store: &mut T,
        end: &End,
    ) -> Result<(Walk, Option<Pending>), Fault>
        ensures goes_on { IfOk result (λ o. GoesOn self o.0 o.1) }
        ensures before { IfOk result (λ o. IfSome o.1 (λ p. is_past end.now p.place ≡ false)) }
        ensures told { IfTold T.told (T.state store.old) (λ root.
            (further : ModelFurther) (last : Option Spot) → Stands further root self last
            → MatchResult result
            (λ o. GivesOut further root (T.state store.old) (T.state store.new) last end.now o.0
            o.1)
            (λ why. FailsOut further root (T.state store.old) (T.state store.new) last end.now
            why)) }
    {
        let mut walk = self;
        let item = walk.go_on(store, end)?;
        Ok((walk, item))
    }

    /// The next item before the end. After a fault the walk may be half of a step.
    fn go_on<T: Tree>(&mut self, store: &mut T, end: &End) -> Result<Option<Pending>, Fault>
        ensures goes_on { IfOk result (λ o. GoesOn self.old self.new o) }
        ensures before { IfOk result (λ o. IfSome o (λ p. is_past end.now p.place ≡ false)) }
        ensures told { IfTold T.told (T.state store.old) (λ root.
            let further = self.old.further in
            (last : Option Spot) → Stands further root self.old last → MatchResult result
            (λ o. GivesOut further root (T.state store.old) (T.state store.new) last end.now
            self.new o)
            (λ why. FailsOut further root (T.state store.old) (T.state store.new) last end.now
            why)) }
    {
        let Some(name) = self.first.take() else {
            return self.stand.next(self.alloc, store, self.further, end);
        };
        match self
            .stand
            .step_to(self.alloc, store, self.further, &name, end)?
        {
            Step::Item(item) => Ok(Some(item)),
            Step::Nothing => self.stand.next(self.alloc, store, self.further, end),
            Step::End => {
                self.first = Some(name);
                Ok(None)
            }
        }
    }
}

/// The directory and the last name of a place that is not the storage root's.
fn last_name(place: &Place) -> Result<(Place, Name), AllocError>
    requires { place.now ≢ [] }
    ensures { IfOk result (λ p. place.now ≡ p.0 ++ p.1 ∷ []) }
{
    let mut names = place.names()?;
    let Some(name) = names.pop() else {
        unreachable!();
    };
    Ok((place.first(names.len())?, name))
}
