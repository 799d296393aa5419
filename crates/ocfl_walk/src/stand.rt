//! Where a walk stands, and its steps.
ghost use Rattle.std.specs.Prelude.{◌≡◌, ◌≢◌, ◌<◌, ◌∷◌, ◌++◌, [], false, Option, Some, None, ◌↔◌};
ghost use Rattle.std.specs.Prelude.{IsTrue, IfOk, IfSome, MatchOption, MatchResult, ◌+◌};
ghost use Rattle.std.specs.Prelude.{length, take};
ghost use Rattle.std.specs.{Ordering.{is_lt}, declared.cmp.Ordering.TheVariants.{Less}};
ghost use Rattle.arrayvec.specs.ArrayVec.{array_vec_len};
ghost use Rattle.ocfl_tree.specs.{Place.{Place as Spot, place_cmp}, StorageRoot.{StorageRoot}};
ghost use Rattle.ocfl_tree.specs.Store.{Store, IfTold};
ghost use Rattle.ocfl_report.specs.declared.further.Further.{Further as ModelFurther};
ghost use Rattle.ocfl_rules.specs.{Walk.{seen_names}, Zone.{seen}};
ghost use Rattle.ocfl_item.specs.Around.{AreBehind, IsMet, IsNamedIn, IsTableAround};
ghost use Rattle.ocfl_item.specs.Meeting.{IsFairVisit, IsVisit, MeetFails, Meets};
ghost use Rattle.ocfl_walk.specs.Standing.{StandsAt, back, frames_of, levels, pile_of, piles_at};
ghost use Rattle.ocfl_walk.specs.Standing.{piles_in, stand_size};
ghost use Rattle.ocfl_walk.specs.Internal.Standing.{IsAroundIf, IsBelowNext, IsHeld};
ghost use Rattle.ocfl_walk.specs.Internal.Standing.{IsOrderlyStand, IsTaken, IsTurn, around_of};
ghost use Rattle.ocfl_walk.specs.Internal.Standing.{cut_top, next_of, path_from, popped, pushed};
ghost use Rattle.ocfl_walk.specs.Internal.Standing.{still, top_of, trimmed, turn_before, turn_of};
ghost use Rattle.ocfl_walk.specs.{Before.{place_before}, Ends.{is_past}};
ghost use Rattle.ocfl_walk.specs.Internal.Walking.{step_from, GoesOn, GoesTo, IsBefore, IsFairMet};
ghost use Rattle.ocfl_walk.specs.Internal.Walking.{GoesAt, IsMeeting, NextGoesOn, NextOutTo};
ghost use Rattle.ocfl_walk.specs.Internal.Walking.{StepsAtTo, StepsOutTo, StepsTo};

use crate::end::End;
use crate::listing::{keep_from, sorted_if};
use arrayvec::ArrayVec;
use ocfl_inventory::Table;
use ocfl_item::{
    Around, Fault, Folder, Pending, RootInventory, Visit, visit_base, visit_entry, visit_path,
};
use ocfl_report::Further;
use ocfl_tree::{Entry, Name, Place, Tree, is_text};
use std::alloc::{AllocError, Global};

/// The listings on the way to a place, of each what is left, the next entry last: the listing at an
/// index is that of as many names of the place.
pub(crate) type Listings = ArrayVec<Vec<Entry>, 128, Global>;

/// Where a walk stands: what is left of the listings on the way to its last place, and that place.
#[derive(Debug, Drop)]
pub(crate) struct Stand {
    pub(crate) listings: Listings,
    pub(crate) around: Option<Around>,
    pub(crate) last: Option<Place>,
}

/// Which place is next.
#[derive(Drop)]
pub(crate) enum Turn {
    /// The storage root.
    Base,
    /// An entry of the last listing that is left.
    Entry(Place),
    /// A path of the table.
    Path(Place),
    End,
}

/// What was met at an entry.
#[derive(Drop)]
pub(crate) struct Met {
    pub(crate) item: Option<Pending>,
    pub(crate) folder: Option<Folder>,
    /// The object that holds the entry, if its head does not stop.
    pub(crate) around: Option<Around>,
}

/// What a step came to.
#[derive(Drop)]
pub(crate) enum Step {
    Item(Pending),
    /// A place without lines.
    Nothing,
    End,
}

/// Lets go of the listings of which nothing is left, at the end.
fn drop_empty(listings: &mut Listings)
    ensures { (p : Spot) → piles_at p listings.new.items ≡ trimmed (piles_at p listings.old.items) }
{
    while listings.len() > 0 {
        let Some(entries) = listings.pop() else {
            return;
        };
        if !entries.is_empty() {
            listings.push(entries);
            return;
        }
    }
}

/// The next entry, and how many names lead to its directory.
fn next_listed(listings: &Listings) -> Option<(&Entry, usize)>
    ensures { (p : Spot) → MatchOption result (next_of (piles_at p listings.now.items) ≡ None)
        (λ next. next_of (piles_at p listings.now.items)
        ≡ Some (take next.1 p ++ next.0.now.name ∷ [])) }
{
    let Some((entries, above)) = listings.as_slice().split_last() else {
        return None;
    };
    let Some(entry) = entries.last() else {
        return None;
    };
    Some((entry, above.len()))
}

/// The place of the next entry.
fn next_entry(listings: &Listings, last: &Place) -> Result<Option<Place>, AllocError>
    ensures { IfOk result (λ o. o ≡ next_of (piles_at last.now listings.now.items)) }
{
    let Some((entry, names)) = next_listed(listings) else {
        return Ok(None);
    };
    let directory = last.first(names)?;
    Ok(Some(directory.child(&entry.name)?))
}

/// Whether the next entry is at a place.
fn is_next_entry(listings: &Listings, last: &Place, place: &Place) -> bool
    ensures { IsTrue result
        ↔ (next_of (piles_at last.now listings.now.items) ≡ Some place.now) }
{
    let Some((entry, names)) = next_listed(listings) else {
        return false;
    };
    let Some((directory, name)) = place.split_last() else {
        return false;
    };
    if !is_text(name, entry.name.as_str()) {
        return false;
    }
    if !last.starts_with_path(directory) {
        return false;
    }
    place.depth().saturating_sub(1) == last.depth().min(names)
}

/// The place of the table's next path.
fn next_path(around: &Option<Around>, last: &Place) -> Result<Option<Place>, AllocError>
    ensures { IfOk result (λ o. o ≡ path_from last.now around.now) }
{
    let Some(around) = around else {
        return Ok(None);
    };
    let inner = last.behind(around.place.depth())?;
    match around.table.next_after(Some(&inner)) {
        Some(path) => Ok(Some(around.place.join(path)?)),
        None => Ok(None),
    }
}

/// The lesser of an entry and a path, the entry if they are one.
fn lesser(entry: Option<Place>, path: Option<Place>) -> Turn
    ensures { result ≡ turn_of entry path }
{
    match (entry, path) {
        (None, None) => Turn::End,
        (Some(entry), None) => Turn::Entry(entry),
        (None, Some(path)) => Turn::Path(path),
        (Some(entry), Some(path)) => {
            if path.cmp(&entry).is_lt() {
                Turn::Path(path)
            } else {
                Turn::Entry(entry)
            }
        }
    }
}

/// Which place is next.
fn choose(
    listings: &Listings,
    around: &Option<Around>,
    last: &Option<Place>,
) -> Result<Turn, AllocError>
    ensures base { last.now ≡ None → IfOk result (λ turn. turn ≡ Turn.Base) }
    ensures next { (p : Spot) → last.now ≡ Some p
        → IfOk result (λ turn. turn ≡ turn_of (next_of (piles_in last.now listings.now.items))
        (path_from p around.now)) }
{
    let Some(last) = last else {
        return Ok(Turn::Base);
    };
    let Some(path) = next_path(around, last)? else {
        return Ok(lesser(next_entry(listings, last)?, None));
    };
    // Mostly the next entry is a file that the table names: its place is made once.
    if is_next_entry(listings, last, &path) {
        return Ok(Turn::Entry(path));
    }
    Ok(lesser(next_entry(listings, last)?, Some(path)))
}

/// The same turn, if it does not lead past the end.
fn unless_past(alloc: Global, turn: Turn, end: &End) -> Turn
    ensures { result ≡ turn_before end.now turn }
{
    let past = match &turn {
        Turn::Base => end.is_past(&Place::root(alloc)),
        Turn::Entry(place) => end.is_past(place),
        Turn::Path(place) => end.is_past(place),
        Turn::End => false,
    };
    if past { Turn::End } else { turn }
}

/// Takes the next entry off.
fn take_entry(listings: &mut Listings) -> Option<Entry>
    ensures taken { (p : Spot) → MatchOption result (next_of (piles_at p listings.old.items) ≡ None)
        (λ entry. IsTaken (piles_at p listings.old.items) (piles_at p listings.new.items) entry) }
    ensures count { length listings.new.items ≡ length listings.old.items }
{
    if listings.len() == 0 {
        return None;
    }
    let mut entries = listings.pop()?;
    let entry = entries.pop();
    listings.push(entries);
    entry
}

/// What is left of the last listing.
fn left_beside(listings: &Listings) -> &[Entry]
    ensures { (p : Spot) → back (λ e. e) result.now ≡ top_of (piles_at p listings.now.items) }
{
    match listings.as_slice().last() {
        Some(entries) => entries,
        None => &[],
    }
}

/// Drops the entries before a name from the listing of a directory at depth `names`, if that is the
/// last listing.
fn drop_before(listings: &mut Listings, names: usize, name: &Name)
    ensures { (p : Spot) → piles_at p listings.new.items
        ≡ cut_top names name.now (piles_at p listings.old.items) }
{
    if listings.len() <= names {
        return;
    }
    let Some(mut entries) = listings.pop() else {
        return;
    };
    keep_from(&mut entries, name);
    listings.push(entries);
}

/// Leaves what a walk takes that goes on with a name of a directory.
fn begin_at(listings: &mut Listings, directory: &Place, name: &Name)
    ensures { (p : Spot) → piles_at p listings.new.items
        ≡ trimmed (cut_top (length directory.now) name.now (piles_at p listings.old.items)) }
{
    drop_before(listings, directory.depth(), name);
    drop_empty(listings);
}

/// The next entry, unless it lies above a place.
fn unless_above(entry: Option<Place>, place: &Place) -> Option<Place>
    ensures { MatchOption result (IsBelowNext place.now entry)
        (λ e. (entry ≡ Some e) × (is_lt (place_cmp place.now e) ≡ false)) }
{
    match entry {
        Some(entry) => {
            if place.cmp(&entry).is_lt() {
                None
            } else {
                Some(entry)
            }
        }
        None => None,
    }
}

/// The object, if the place is in it.
fn still_around(around: Option<Around>, place: &Place) -> Option<Around>
    ensures { result ≡ still around place.now }
{
    match around {
        Some(around) if place.starts_with(&around.place) => Some(around),
        Some(_) | None => None,
    }
}

/// The object that a place is in, with the table that was met there if it is one.
fn around_at(
    around: Option<Around>,
    place: &Place,
    table: Option<Table>,
    root: Option<RootInventory>,
) -> Result<Option<Around>, AllocError>
    ensures { IfOk result (λ a. a ≡ around_of around place.now table root) }
{
    let Some(table) = table else {
        return Ok(around);
    };
    let place = place.try_clone()?;
    Ok(Some(Around { place, table, root }))
}

/// What was met by a visit, its listing in order, with the object that its place is in.
fn met_by(around: Option<Around>, place: &Place, visit: Visit) -> Result<Met, AllocError>
    ensures fair { IsFairVisit place.now visit
        → IsAroundIf place.now (around_of around place.now visit.table visit.root)
        → IfOk result (λ m. IsFairMet place.now m) }
    ensures told { (further : ModelFurther) (root : StorageRoot) → IsFairVisit place.now visit
        → IsVisit further root place.now visit
        → IsTableAround further root place.now (around_of around place.now visit.table visit.root)
        → IfOk result (λ m. IsMeeting further root place.now m) }
{
    let Visit {
        item,
        folder,
        table,
        root,
    } = visit;
    let around = around_at(around, place, table, root)?;
    let folder = sorted_if(folder);
    Ok(Met {
        item,
        folder,
        around,
    })
}

/// What is met at an entry after the last place.
fn meet<T: Tree>(
    alloc: Global,
    store: &mut T,
    further: Further,
    around: Option<Around>,
    place: &Place,
    entry: &Entry,
    behind: &[Entry],
) -> Result<Met, Fault>
    ensures fair { IsAroundIf place.now (still around place.now)
        → IfOk result (λ m. IsFairMet place.now m) }
    ensures told { IfTold T.told (T.state store.old) (λ root.
        (d : Spot) → IsMet further root d (still around place.now) entry.now place.now
        → AreBehind further root d entry.now behind.now → MatchResult result
        (λ m. Meets further root (T.state store.old) (T.state store.new) place.now
        × IsMeeting further root place.now m)
        (λ why. MeetFails further root (T.state store.old) (T.state store.new) place.now why)) }
{
    let around = still_around(around, place);
    let visit = visit_entry(
        alloc,
        store,
        further,
        &around,
        place.try_clone()?,
        entry,
        behind,
    )?;
    Ok(met_by(around, place, visit)?)
}

fn step_of(item: Option<Pending>) -> Step
    ensures { result ≡ step_from item }
{
    match item {
        Some(item) => Step::Item(item),
        None => Step::Nothing,
    }
}

/// Puts the listing of a directory on top, on the way to a place.
pub(crate) fn push(listings: &mut Listings, folder: Folder)
    requires { array_vec_len listings.old < levels }
    ensures count { length listings.new.items ≡ length listings.old.items + 1 }
    ensures piles { (p q : Spot) → p ≡ folder.place ++ q
        → length listings.old.items ≡ length folder.place
        → piles_at p listings.new.items ≡ pile_of folder ∷ piles_at p listings.old.items }
{
    listings.push(folder.entries);
}

/// Puts the listing of the last place on top, if there is one.
fn push_if(listings: &mut Listings, folder: Option<Folder>)
    requires { IfSome folder (λ _. array_vec_len listings.old < levels) }
    ensures { (p : Spot) → IfSome folder (λ f. (f.place ≡ p)
        × (length p ≡ length listings.old.items))
        → piles_at p listings.new.items ≡ pushed folder (piles_at p listings.old.items) }
{
    if let Some(folder) = folder {
        push(listings, folder);
    }
}

impl Stand {
    /// Takes the storage root.
    fn take_base<T: Tree>(&mut self, alloc: Global, store: &mut T) -> Result<Step, Fault>
        requires orderly { IsOrderlyStand self.old }
        requires first { self.old.last ≡ None }
        ensures orderly { IsOrderlyStand self.new }
        ensures goes_on { IfOk result (λ step. GoesOn self.old self.new step) }
        ensures there { IfOk result (λ step. GoesTo self.new [] step) }
        ensures told { IfTold T.told (T.state store.old) (λ root.
            (further : ModelFurther)
            → StepsTo further root (T.state store.old) (T.state store.new) None [] self.new
            result) }
    {
        let Visit { item, folder, .. } = visit_base(alloc, store)?;
        push_if(&mut self.listings, sorted_if(folder));
        self.last = Some(Place::root(alloc));
        Ok(step_of(item))
    }

    /// Takes the next entry, which is at this place.
    fn take_entry<T: Tree>(
        &mut self,
        alloc: Global,
        store: &mut T,
        further: Further,
        place: Place,
    ) -> Result<Step, Fault>
        requires orderly { IsOrderlyStand self.old }
        requires next { next_of (piles_in self.old.last self.old.listings.items) ≡ Some place }
        ensures orderly { IsOrderlyStand self.new }
        ensures goes_on { IfOk result (λ step. GoesOn self.old self.new step) }
        ensures there { IfOk result (λ step. GoesTo self.new place step) }
        ensures told { IfTold T.told (T.state store.old) (λ root.
            (stood last : Spot) → self.old.last ≡ Some stood
            → IsHeld further root stood (piles_in self.old.last self.old.listings.items)
            self.old.around
            → IsTurn further root last place ((place, seen_names root place)
            ∷ popped (piles_in self.old.last self.old.listings.items))
            → StepsTo further root (T.state store.old) (T.state store.new) (Some last) place
            self.new result) }
    {
        let Some(entry) = take_entry(&mut self.listings) else {
            return Ok(Step::End);
        };
        let around = self.around.take();
        let behind = left_beside(&self.listings);
        let Met {
            item,
            folder,
            around,
        } = meet(alloc, store, further, around, &place, &entry, behind)?;
        push_if(&mut self.listings, folder);
        self.around = around;
        self.last = Some(place);
        Ok(step_of(item))
    }

    /// Takes a place at which nothing is seen, before the next entry: a path of the table, or the
    /// place that the walk begins at.
    fn take_missing(&mut self, alloc: Global, place: Place) -> Result<Step, Fault>
        requires orderly { IsOrderlyStand self.old }
        requires next { IfSome self.old.last (λ last. (place_cmp last place ≡ Less)
            × IsAroundIf place self.old.around
            × IsBelowNext place (next_of (piles_in self.old.last self.old.listings.items))) }
        requires some { self.old.last ≢ None }
        requires trim { trimmed (piles_in self.old.last self.old.listings.items)
            ≡ piles_in self.old.last self.old.listings.items }
        ensures orderly { IsOrderlyStand self.new }
        ensures goes_on { IfOk result (λ step. GoesAt self.old self.new step) }
        ensures falls { IsNamedIn place self.old.around
            → IfOk result (λ _. stand_size self.new < stand_size self.old) }
        ensures there { IfOk result (λ step. GoesTo self.new place step) }
        ensures told { (further : ModelFurther) (s : Store) (root : StorageRoot) → s.tree ≡ root
            → (last : Spot)
            → IsHeld further root place (piles_in self.old.last self.old.listings.items)
            self.old.around → IsTurn further root last place
            (frames_of (piles_in self.old.last self.old.listings.items))
            → seen root place ≡ None → StepsTo further root s s (Some last) place self.new result }
    {
        let item = visit_path(alloc, &self.around, &place)?;
        self.last = Some(place);
        Ok(step_of(item))
    }

    /// Takes the place of a name in the directory at the last place, if it is not past the end.
    /// What is left before it is passed over.
    pub(crate) fn step_to<T: Tree>(
        &mut self,
        alloc: Global,
        store: &mut T,
        further: Further,
        name: &Name,
        end: &End,
    ) -> Result<Step, Fault>
        requires { IsOrderlyStand self.old }
        ensures orderly { IsOrderlyStand self.new }
        ensures goes_on { IfOk result (λ step. GoesAt self.old self.new step) }
        ensures before { IfOk result (λ step. IsBefore end.now self.new step) }
        ensures told { IfTold T.told (T.state store.old) (λ root.
            (d q : Spot) → StandsAt further root self.old (Some d)
            → place_before root (d ++ name.now ∷ []) ≡ Some q
            → StepsAtTo further root (T.state store.old) (T.state store.new) q end.now self.old
            self.new result) }
    {
        let Some(directory) = &self.last else {
            return Ok(Step::End);
        };
        let place = directory.child(name)?;
        if end.is_past(&place) {
            return Ok(Step::End);
        }
        begin_at(&mut self.listings, directory, name);
        let entry = next_entry(&self.listings, directory)?;
        match unless_above(entry, &place) {
            Some(entry) => self.take_entry(alloc, store, further, entry),
            None => self.take_missing(alloc, place),
        }
    }

    /// Takes the next place, if it is not past the end. No empty listing may be on top.
    fn step<T: Tree>(
        &mut self,
        alloc: Global,
        store: &mut T,
        further: Further,
        end: &End,
    ) -> Result<Step, Fault>
        requires orderly { IsOrderlyStand self.old }
        requires trim { trimmed (piles_in self.old.last self.old.listings.items)
            ≡ piles_in self.old.last self.old.listings.items }
        ensures orderly { IsOrderlyStand self.new }
        ensures goes_on { IfOk result (λ step. GoesOn self.old self.new step) }
        ensures before { IfOk result (λ step. IsBefore end.now self.new step) }
        ensures told { IfTold T.told (T.state store.old) (λ root.
            (last : Option Spot) → StandsAt further root self.old last
            → StepsOutTo further root (T.state store.old) (T.state store.new) last end.now self.new
            result) }
    {
        let turn = choose(&self.listings, &self.around, &self.last)?;
        match unless_past(alloc, turn, end) {
            Turn::Base => self.take_base(alloc, store),
            Turn::Entry(place) => self.take_entry(alloc, store, further, place),
            Turn::Path(place) => self.take_missing(alloc, place),
            Turn::End => Ok(Step::End),
        }
    }

    /// The next item before the end.
    pub(crate) fn next<T: Tree>(
        &mut self,
        alloc: Global,
        store: &mut T,
        further: Further,
        end: &End,
    ) -> Result<Option<Pending>, Fault>
        requires { IsOrderlyStand self.old }
        ensures orderly { IsOrderlyStand self.new }
        ensures goes_on { IfOk result (λ o. NextGoesOn self.old self.new o) }
        ensures before { IfOk result (λ o. IfSome o (λ p. is_past end.now p.place ≡ false)) }
        ensures told { IfTold T.told (T.state store.old) (λ root.
            (last : Option Spot) → StandsAt further root self.old last
            → NextOutTo further root (T.state store.old) (T.state store.new) last end.now self.new
            result) }
    {
        loop {
            drop_empty(&mut self.listings);
            match self.step(alloc, store, further, end)? {
                Step::Item(item) => return Ok(Some(item)),
                Step::End => return Ok(None),
                Step::Nothing => {}
            }
        }
    }
}
