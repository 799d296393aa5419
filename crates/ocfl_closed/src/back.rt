//! Objects that earlier accounts call gone, of which some may be back.
ghost use Rattle.std.specs.Prelude.{◌≡◌, ◌++◌, ◌∷◌, [], IsTrue, IfOk, IfSome, OnOk, List};
ghost use Rattle.std.specs.Prelude.{Some, take};
ghost use Rattle.std.specs.Option.{option_map};
ghost use Rattle.std.proofs.Common.{sym, append-nil};
ghost use Rattle.ocfl_tree.specs.Place.{Place as ModelPlace};
ghost use Rattle.ocfl_accounts.specs.Causes.{HasCause};
ghost use Rattle.ocfl_closed.specs.Back.{AreBackOf, AreBackSince, AreLost, AreLostLately, list_of};
ghost use Rattle.ocfl_closed.specs.Back.{most_objects};
ghost use Rattle.ocfl_closed.specs.{Cut.{Still}, Files.{kept_of}};
ghost use Rattle.ocfl_closed.specs.Internal.Backs.{AreLacking, missing_seen, missing_then};

use crate::apart::without;
use crate::disk::ClosedDisk;
use crate::finding::{copy_of, left_by_both};
use crate::opening::open_reader;
use crate::rows::{RowsStop, take_rows};
use ocfl_accounts::{ClosedCycle, ClosingStop, Pair};
use ocfl_compare::{Change, Side, TakeChange, TakeStop, find_expected};
use ocfl_report::Line;
use ocfl_tree::Place;
use std::alloc::{AllocError, Global};

/// In how many cycles before one its account is looked for.
const MOST_BACK: u64 = 999;

/// Takes changes, and keeps the places of objects that are missing.
#[derive(Drop)]
struct Places {
    places: Vec<Place>,
}

impl Places {
    /// Keeps a place.
    fn keep(&mut self, place: &Place) -> Result<(), AllocError>
        ensures { OnOk result (self.new.places.items ≡ self.old.places.items ++ place.now ∷ []) }
    {
        self.places.push(place.try_clone()?)?;
        Ok(())
    }
}

impl TakeChange for Places {
    ghost takes = { λ old seen new. new.places.items ≡ old.places.items ++ missing_seen seen };

    fn see(&mut self, _side: Side, _line: &Line) -> Result<(), TakeStop> {
        Ok(())
    }

    fn take(&mut self, place: &Place, change: Change) -> Result<(), TakeStop> {
        match change {
            Change::Missing => Ok(self.keep(place)?),
            Change::Gone
            | Change::Undeclared
            | Change::FileGone
            | Change::Unlooked
            | Change::Found(_)
            | Change::Repaired(_)
            | Change::Rewritten
            | Change::WentBack
            | Change::NewVersion => Ok(()),
        }
    }

    ghost nothing = { λ t. sym (append-nil t.places.items) };

    ghost joined = { λ t u v first then p q.
        missing_then t.places.items u.places.items v.places.items first then p q };
}

/// Takes the objects that the account of a cycle calls gone, if its list is there.
fn take_list<D: ClosedDisk>(
    alloc: Global,
    disk: &mut D,
    cycle: u64,
    gone: &mut Vec<Place>,
) -> Result<(), ClosingStop>
    ensures taken { IsTrue D.told → OnOk result ((more : List ModelPlace)
        × (AreLost ((D.state disk.old).files.lists cycle) more × ((all : List ModelPlace)
        → gone.old.items ≡ take most_objects all
        → gone.new.items ≡ take most_objects (all ++ more)))) }
    ensures still { IsTrue D.told → Still (D.state disk.old) (D.state disk.new) }
    ensures cause { IsTrue D.told → HasCause (D.faults disk.old) (D.faults disk.new) result }
{
    match disk.open_list(cycle)? {
        Some(list) => take_opened(alloc, disk, cycle, list, gone),
        None => Ok(()),
    }
}

/// Takes the objects that the opened list of a cycle calls gone. A list that cannot be read is
/// refused, and so is one that is no such list.
fn take_opened<D: ClosedDisk>(
    alloc: Global,
    disk: &mut D,
    cycle: u64,
    list: D::Rows,
    gone: &mut Vec<Place>,
) -> Result<(), ClosingStop>
    requires list { IsTrue D.told → Some (D.Rows.remaining list)
        ≡ option_map Some ((D.state disk.old).files.lists cycle) }
    ensures taken { OnOk result (IfSome (D.Rows.remaining list) (λ bytes.
        (more : List ModelPlace) × (AreLost (Some bytes) more × ((all : List ModelPlace)
        → gone.old.items ≡ take most_objects all
        → gone.new.items ≡ take most_objects (all ++ more))))) }
    ensures still { IsTrue D.told → Still (D.state disk.old) (D.state disk.new) }
    ensures cause { IsTrue D.told → HasCause (D.faults disk.old) (D.faults disk.new) result }
{
    let mut list = list;
    match take_rows(alloc, &mut list, gone) {
        Ok(()) => Ok(()),
        Err(RowsStop::Bad) => Err(disk.refuse_rows(cycle)),
        Err(RowsStop::Failed(error)) => Err(disk.refuse_list(cycle, error)),
    }
}

/// Takes the objects that the account of a cycle calls gone; none for the number 0.
fn take_before<D: ClosedDisk>(
    alloc: Global,
    disk: &mut D,
    cycle: u64,
    gone: &mut Vec<Place>,
) -> Result<(), ClosingStop>
    ensures taken { IsTrue D.told → OnOk result ((more : List ModelPlace)
        × (AreLost (list_of (D.state disk.old).files.lists cycle) more × ((all : List ModelPlace)
        → gone.old.items ≡ take most_objects all
        → gone.new.items ≡ take most_objects (all ++ more)))) }
    ensures still { IsTrue D.told → Still (D.state disk.old) (D.state disk.new) }
    ensures cause { IsTrue D.told → HasCause (D.faults disk.old) (D.faults disk.new) result }
{
    if cycle == 0 {
        return Ok(());
    }
    take_list(alloc, disk, cycle, gone)
}

/// The objects that the accounts before that of a cycle call gone, up to 1,000,000.
fn gone_before<D: ClosedDisk>(
    alloc: Global,
    disk: &mut D,
    cycle: u64,
) -> Result<Vec<Place>, ClosingStop>
    ensures lost { IsTrue D.told → IfOk result (λ places. (all : List ModelPlace)
        × (AreLostLately (D.state disk.old).files.lists cycle all
        × (places.items ≡ take most_objects all))) }
    ensures still { IsTrue D.told → Still (D.state disk.old) (D.state disk.new) }
    ensures cause { IsTrue D.told → HasCause (D.faults disk.old) (D.faults disk.new) result }
{
    let mut gone = Vec::new(alloc);
    for back in 0..MOST_BACK {
        take_before(alloc, disk, cycle.saturating_sub(back + 1), &mut gone)?;
    }
    Ok(gone)
}

/// Which of these objects have no line of an object in the report of a cycle, outside of these
/// places, in order and each once.
fn find_lacking<D: ClosedDisk>(
    alloc: Global,
    disk: &mut D,
    cycle: u64,
    objects: Vec<Place>,
    left: &[Place],
) -> Result<Vec<Place>, ClosingStop>
    ensures lacking { IsTrue D.told → IfOk result (λ lacking. AreLacking left.now objects.items
        ((kept_of (D.state disk.old).files).reports cycle) lacking.items) }
    ensures still { IsTrue D.told → Still (D.state disk.old) (D.state disk.new) }
    ensures cause { IsTrue D.told → HasCause (D.faults disk.old) (D.faults disk.new) result }
{
    let mut objects = objects;
    let mut lacking = Places {
        places: Vec::new(alloc),
    };
    let mut report = open_reader(alloc, disk, cycle)?;
    match find_expected(alloc, &mut objects, &mut report, left, &mut lacking) {
        Ok(()) => Ok(lacking.places),
        Err(stop) => {
            let error = report.get_ref().error();
            Err(disk.refuse_search(cycle, cycle, stop, error))
        }
    }
}

/// Those of these objects that the report of a cycle before has no line of, and this one has.
fn find_between<D: ClosedDisk>(
    alloc: Global,
    disk: &mut D,
    before: &ClosedCycle,
    now: &ClosedCycle,
    gone: Vec<Place>,
) -> Result<Vec<Place>, ClosingStop>
    ensures back { IsTrue D.told → IfOk result (λ back. AreBackOf
        (now.now.left ++ before.now.left) gone.items
        ((kept_of (D.state disk.old).files).reports before.now.cycle)
        ((kept_of (D.state disk.old).files).reports now.now.cycle) back.items) }
    ensures still { IsTrue D.told → Still (D.state disk.old) (D.state disk.new) }
    ensures cause { IsTrue D.told → HasCause (D.faults disk.old) (D.faults disk.new) result }
{
    let left = left_by_both(alloc, now, before)?;
    let lacking = find_lacking(alloc, disk, before.cycle(), gone, &left)?;
    if lacking.is_empty() {
        return Ok(lacking);
    }
    let copy = copy_of(alloc, &lacking)?;
    let still = find_lacking(alloc, disk, now.cycle(), copy, &left)?;
    match without(alloc, lacking, &still) {
        Ok(back) => Ok(back),
        Err(_) => Err(ClosingStop::Memory),
    }
}

/// Those of the objects that earlier accounts call gone which are back since the report before.
pub(crate) fn find_back<D: ClosedDisk>(
    alloc: Global,
    disk: &mut D,
    pair: &Pair,
) -> Result<Vec<Place>, ClosingStop>
    ensures back { IsTrue D.told → IfOk result (λ back. AreBackSince
        (kept_of (D.state disk.old).files) pair.now.closed pair.now.before back.items) }
    ensures still { IsTrue D.told → Still (D.state disk.old) (D.state disk.new) }
    ensures cause { IsTrue D.told → HasCause (D.faults disk.old) (D.faults disk.new) result }
{
    match &pair.before {
        Some(before) => find_since(alloc, disk, before, &pair.closed),
        None => Ok(Vec::new(alloc)),
    }
}

/// Those that are back since the report of this cycle before.
fn find_since<D: ClosedDisk>(
    alloc: Global,
    disk: &mut D,
    before: &ClosedCycle,
    now: &ClosedCycle,
) -> Result<Vec<Place>, ClosingStop>
    ensures back { IsTrue D.told → IfOk result (λ back. AreBackSince
        (kept_of (D.state disk.old).files) now.now (Some before.now) back.items) }
    ensures still { IsTrue D.told → Still (D.state disk.old) (D.state disk.new) }
    ensures cause { IsTrue D.told → HasCause (D.faults disk.old) (D.faults disk.new) result }
{
    let gone = gone_before(alloc, disk, now.cycle())?;
    if gone.is_empty() {
        return Ok(gone);
    }
    find_between(alloc, disk, before, now, gone)
}
