//! The openings and listings that a tree in memory notes.
ghost use Rattle.std.specs.Prelude.{◌≡◌, ◌+◌, ◌^◌, ◌<◌, List, [], ◌∷◌, ◌++◌, length, IsOk, OnOk, OnErr};
ghost use Rattle.ocfl_tree.specs.{Store.{failed_openings}, Calls.{opening, change_last, with_given, with_failure}};
ghost use Rattle.ocfl_folder.specs.Noted.{IsReading};
ghost use Rattle.ocfl_tree.specs.declared.store.Opening.{Opening};
ghost use Rattle.ocfl_memory.specs.Faults.{is_struck, after_call};

use crate::plan::{Plan, Point};
use ocfl_tree::{Opening, Place};
use std::alloc::AllocError;

/// Notes an opening.
pub(crate) fn note_opening(
    openings: &mut Vec<Opening>,
    place: &Place,
    failed: bool,
) -> Result<(), AllocError>
    ensures ok { OnOk result (openings.new.items
        ≡ openings.old.items ++ opening place.now 0 failed ∷ []) }
    ensures err { OnErr result (openings.new.items ≡ openings.old.items) }
{
    openings.push(Opening {
        place: place.try_clone()?,
        given: 0,
        failed,
    })?;
    Ok(())
}

/// Notes a listing.
pub(crate) fn note_listing(listings: &mut Vec<Place>, place: &Place) -> Result<(), AllocError>
    ensures ok { OnOk result (listings.new.items ≡ listings.old.items ++ place.now ∷ []) }
    ensures err { OnErr result (listings.new.items ≡ listings.old.items) }
{
    listings.push(place.try_clone()?)?;
    Ok(())
}

/// Notes a listing in which the device failed.
pub(crate) fn note_failed_listing(
    listings: &mut Vec<Place>,
    failed: &mut Vec<Place>,
    place: &Place,
) -> Result<(), AllocError>
    ensures listed { OnOk result (listings.new.items ≡ listings.old.items ++ place.now ∷ []) }
    ensures failed { OnOk result (failed.new.items ≡ failed.old.items ++ place.now ∷ []) }
    ensures unlisted { OnErr result (listings.new.items ≡ listings.old.items) }
    ensures unfailed { OnErr result (failed.new.items ≡ failed.old.items) }
{
    let noted = listings.len();
    note_listing(listings, place)?;
    if note_listing(failed, place).is_err() {
        listings.truncate(noted); // neither is noted
        return Err(AllocError);
    }
    Ok(())
}

/// Adds to what the last opening gave.
pub(crate) fn note_given(openings: &mut Vec<Opening>, count: usize)
    requires some { 0 < length openings.old.items }
    requires fits { (front : List Opening) (last : Opening)
        → openings.old.items ≡ front ++ last ∷ [] → last.given + count < 2 ^ 64 }
    ensures { (front : List Opening) (last : Opening) → openings.old.items ≡ front ++ last ∷ []
        → openings.new.items ≡ front ++ with_given count last ∷ [] }
{
    let last = openings.len() - 1;
    openings[last].given += count as u64;
}

/// Notes that the device failed in the last opening.
pub(crate) fn note_failure(openings: &mut Vec<Opening>)
    requires { 0 < length openings.old.items }
    ensures { (front : List Opening) (last : Opening) → openings.old.items ≡ front ++ last ∷ []
        → openings.new.items ≡ front ++ with_failure last ∷ [] }
{
    let last = openings.len() - 1;
    openings[last].failed = true;
}

/// Adds to what the last opening gave, unless that is too much to be counted.
pub(crate) fn add_given(openings: &mut Vec<Opening>, count: usize) -> Result<(), AllocError>
    ensures ok { OnOk result (openings.new.items
        ≡ change_last (with_given count) openings.old.items) }
    ensures err { OnErr result (openings.new.items ≡ openings.old.items) }
{
    let Some(last) = openings.last() else {
        return Ok(());
    };
    if last.given > u64::MAX - count as u64 {
        return Err(AllocError);
    }
    note_given(openings, count);
    Ok(())
}

/// Notes that the device failed in the last opening, unless that is noted, or none is there.
pub(crate) fn add_failure(openings: &mut Vec<Opening>) -> Result<(), AllocError>
    ensures ok { OnOk result (openings.new.items
        ≡ change_last with_failure openings.old.items) }
    ensures counted { OnOk result (failed_openings openings.new.items
        ≡ failed_openings openings.old.items + 1) }
    ensures err { OnErr result (openings.new.items ≡ openings.old.items) }
    ensures kept { IsReading openings.old.items → IsOk result }
{
    let Some(last) = openings.last() else {
        return Err(AllocError);
    };
    if last.failed {
        return Err(AllocError);
    }
    note_failure(openings);
    Ok(())
}

/// Counts a read of the file that was opened last, and reports whether it is made to fail.
pub(crate) fn strikes_read(plan: &mut Plan, openings: &[Opening]) -> bool
    requires { 0 < length openings.now }
    ensures struck { (front : List Opening) (last : Opening) → openings.now ≡ front ++ last ∷ []
        → result ≡ is_struck plan.old last.place (Point.Read last.given) }
    ensures after { plan.new ≡ after_call plan.old }
{
    let last = &openings[openings.len() - 1];
    plan.strikes(&last.place, Point::Read(last.given))
}
