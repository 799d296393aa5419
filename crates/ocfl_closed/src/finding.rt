//! What changed in a closed cycle, and the list of what is gone.
ghost use Rattle.std.specs.Prelude.{◌≡◌, ◌++◌, [], true, IsTrue, IfOk, IsOkUnless};
ghost use Rattle.std.specs.Prelude.{None, OnOk, Some};
ghost use Rattle.ocfl_tree.specs.Place.{Text};
ghost use Rattle.ocfl_compare.specs.{Compared.{IsCompared}, Expected.{IsSearched}};
ghost use Rattle.ocfl_accounts.specs.Causes.{HasCause, IsCause};
ghost use Rattle.ocfl_accounts.specs.Changes.{Finds};
ghost use Rattle.ocfl_words.specs.Counted.{AreCounted, Counted, counted, joined};
ghost use Rattle.ocfl_words.specs.{Held.{HasFound, AreHeld, none_held}, Kept.{kept_by, none_kept}};
ghost use Rattle.ocfl_closed.specs.{Back.{AreBack}, Cut.{Calm, Still}, Files.{kept_of}};
ghost use Rattle.ocfl_closed.specs.Taken.{HasTaken};
ghost use Rattle.ocfl_closed.specs.Unchanged.{AreAllUnchanged, AreUnchanged, IsBeforeUnchanged};
ghost use Rattle.ocfl_closed.specs.Unchanged.{IsUnchangedSince, IsWholeUnchanged};
ghost use Rattle.ocfl_closed.specs.Unchanged.{is_unchanged};
ghost use Rattle.ocfl_closed.specs.Words.{AreNewsOf, AreOf, AreParts, HasText, IsAccount};
ghost use Rattle.ocfl_closed.specs.Words.{IsAccountOf, News, beside_of, runs_in};
ghost use Rattle.ocfl_closed.specs.{Words.{said_beside}, Internal.{Took, AllTaken}};
ghost use Rattle.ocfl_closed.specs.Internal.SeenOf.{IsSeenMissing, IsSeenSince, IsSeenSinceWhole};
ghost use Rattle.ocfl_closed.specs.Internal.Stands.{stand_of};

use crate::account::{Account, compared, text_of};
use crate::accounting::account_of;
use crate::disk::ClosedDisk;
use crate::opening::{open_checked, open_now, open_reader};
use crate::reader::ReportReader;
use crate::taking::Taking;
use crate::within::Within;
use crate::words::{SaidWith, Words};
use ocfl_accounts::{ClosedCycle, ClosingStop, Found, Pair};
use ocfl_compare::{CompareStop, GoneList, TakeChange, compare, find_expected};
use ocfl_tree::Place;
use ocfl_words::count_places;
use std::alloc::{AllocError, Global};

/// What was found of a closed cycle, and its parts.
#[derive(Drop)]
pub struct ChangesFound {
    pub found: Found,
    pub account: Account,
}

/// Finds the changes of a closed cycle: since the report before, outside of what either left out;
/// in what that one alone left out since the last whole one; and which objects that must be there
/// are missing. Makes the list of what is gone by them, and says them, and which objects are back.
/// Of a cycle whose report lost lines it finds none. A report that was changed since it was closed
/// is not compared.
pub fn find_changes<D: ClosedDisk>(
    alloc: Global,
    disk: &mut D,
    with: &SaidWith<'_>,
    pair: &Pair,
) -> Result<ChangesFound, ClosingStop>
    ensures finds { IsTrue D.told → IfOk result (λ it.
        Finds (kept_of (D.state disk.old).files) pair.now
        (said_beside (beside_of with.now (runs_in (D.state disk.old).files pair.now)
        it.account.back.items)) it.found.text.items it.found.is_grave (D.state disk.new).beside) }
    ensures account { IsTrue D.told → IfOk result (λ it. IsAccountOf
        (beside_of with.now (runs_in (D.state disk.old).files pair.now) it.account.back.items)
        (D.state disk.old).files pair.now it.account) }
    ensures back { IsTrue D.told → IfOk result (λ it.
        AreBack (kept_of (D.state disk.old).files) pair.now it.account.back.items) }
    ensures unchanged { IsTrue D.told
        → OnOk result (AreUnchanged (D.state disk.old).files pair.now) }
    ensures calm { IsTrue D.told → Calm (D.state disk.old) (D.state disk.new) }
    ensures cause { IsTrue D.told → HasCause (D.faults disk.old) (D.faults disk.new) result }
{
    let list = disk.make_list(pair.closed.cycle())?;
    let taking = Taking {
        list: GoneList::new(alloc, list),
        words: Words::new(alloc, with),
        is_grave: false,
    };
    let taking = take_changes(alloc, disk, pair, taking)?;
    let found = end_changes(alloc, disk, with, pair, taking)?;
    Ok(found)
}

/// Ends the list of what is gone, and makes the text of the changes that were taken.
fn end_changes<D: ClosedDisk>(
    alloc: Global,
    disk: &mut D,
    with: &SaidWith<'_>,
    pair: &Pair,
    taking: Taking<'_, D::List>,
) -> Result<ChangesFound, ClosingStop>
    ensures list { IsTrue D.told → OnOk result ((bytes : Text)
        → D.List.contents taking.entry.list.out ≡ Some bytes → (D.state disk.new).beside ≡ bytes) }
    ensures text { IsTrue D.told → IfOk result (λ it. (v w x : Counted) (n : News)
        → AreCounted taking.entry.words.since.changes v → AreCounted taking.entry.words.noting.changes w
        → AreCounted taking.entry.words.whole.changes x
        → AreNewsOf taking.entry.words.since.found taking.entry.words.whole.found n → HasText
        (beside_of with.now (runs_in (D.state disk.old).files pair.now) it.account.back.items)
        pair.now (joined (joined v w) x) n it.found.text.items) }
    ensures account { IsTrue D.told → IfOk result (λ it. (v w x : Counted) (n : News)
        → AreCounted taking.entry.words.since.changes v
        → AreCounted taking.entry.words.noting.changes w
        → AreCounted taking.entry.words.whole.changes x
        → AreNewsOf taking.entry.words.since.found taking.entry.words.whole.found n → IsAccount
        (beside_of with.now (runs_in (D.state disk.old).files pair.now) it.account.back.items)
        (D.state disk.old).files pair.now (joined (joined v w) x) n it.account) }
    ensures back { IsTrue D.told → IfOk result (λ it.
        AreBack (kept_of (D.state disk.old).files) pair.now it.account.back.items) }
    ensures grave { IfOk result (λ it. it.found.is_grave ≡ taking.entry.is_grave) }
    ensures calm { IsTrue D.told → Calm (D.state disk.old) (D.state disk.new) }
    ensures cause { IsTrue D.told → HasCause (D.faults disk.old) (D.faults disk.new) result }
{
    let Taking {
        list,
        words,
        is_grave,
    } = taking;
    disk.end_list(&list.out)?;
    let account = account_of(alloc, disk, with, pair, words)?;
    match text_of(alloc, with, pair, &account) {
        Ok(text) => Ok(ChangesFound {
            found: Found { text, is_grave },
            account,
        }),
        Err(_) => Err(ClosingStop::Memory),
    }
}

/// Takes the changes of a closed cycle; none of one whose report lost lines.
fn take_changes<'n, D: ClosedDisk>(
    alloc: Global,
    disk: &mut D,
    pair: &Pair,
    taking: Taking<'n, D::List>,
) -> Result<Taking<'n, D::List>, ClosingStop>
    requires since { AreCounted taking.words.since.changes (counted []) }
    requires found { HasFound taking.words.since.found none_held }
    requires whole { AreCounted taking.words.whole.changes (counted []) }
    requires again { HasFound taking.words.whole.found none_held }
    requires noting { AreCounted taking.words.noting.changes (counted []) }
    requires lines { AreHeld taking.words.noting.lines none_held }
    requires kept { kept_by taking.words.noting ≡ none_kept }
    ensures taken { IsTrue D.told → IfOk result (λ after. AllTaken
        (AreParts taking.entry.words.noting.known.now (kept_of (D.state disk.old).files) pair.now)
        (stand_of (D.List.contents taking.entry.list.out) taking.entry.words taking.entry.is_grave)
        (stand_of (D.List.contents after.list.out) after.words after.is_grave)) }
    ensures unchanged { IsTrue D.told
        → OnOk result (AreUnchanged (D.state disk.old).files pair.now) }
    ensures still { IsTrue D.told → Still (D.state disk.old) (D.state disk.new) }
    ensures cause { IsTrue D.told → HasCause (D.faults disk.old) (D.faults disk.new) result }
{
    if pair.closed.is_lost() {
        return Ok(taking);
    }
    take_all(alloc, disk, pair, taking)
}

/// Takes all changes of a closed cycle whose report lost no lines.
fn take_all<'n, D: ClosedDisk>(
    alloc: Global,
    disk: &mut D,
    pair: &Pair,
    taking: Taking<'n, D::List>,
) -> Result<Taking<'n, D::List>, ClosingStop>
    requires again { HasFound taking.words.whole.found none_held }
    requires noting { AreCounted taking.words.noting.changes (counted []) }
    requires lines { AreHeld taking.words.noting.lines none_held }
    requires kept { kept_by taking.words.noting ≡ none_kept }
    ensures taken { IsTrue D.told → IfOk result (λ after. AllTaken
        (AreOf taking.entry.words.noting.known.now (kept_of (D.state disk.old).files) pair.now)
        (stand_of (D.List.contents taking.entry.list.out) taking.entry.words taking.entry.is_grave)
        (stand_of (D.List.contents after.list.out) after.words after.is_grave)) }
    ensures unchanged { IsTrue D.told
        → OnOk result (AreAllUnchanged (D.state disk.old).files pair.now) }
    ensures still { IsTrue D.told → Still (D.state disk.old) (D.state disk.new) }
    ensures cause { IsTrue D.told → HasCause (D.faults disk.old) (D.faults disk.new) result }
{
    let mut taking = take_since(alloc, disk, pair, taking)?;
    taking.words.end_since()?;
    let mut taking = take_since_whole(alloc, disk, pair, taking)?;
    taking.words.end_whole()?;
    take_missing(alloc, disk, pair, &mut taking)?;
    Ok(taking)
}

/// Takes the changes since the report before, outside of what either left out; without one, the
/// lines of the report alone.
fn take_since<D: ClosedDisk, T: TakeChange + Drop>(
    alloc: Global,
    disk: &mut D,
    pair: &Pair,
    taker: T,
) -> Result<T, ClosingStop>
    ensures taken { IsTrue D.told → IfOk result (λ after. Took
        (IsSeenSince (kept_of (D.state disk.old).files) pair.now.closed pair.now.before)
        (λ seen. T.takes taker seen after)) }
    ensures unchanged { IsTrue D.told
        → OnOk result (IsBeforeUnchanged (D.state disk.old).files pair.now) }
    ensures still { IsTrue D.told → Still (D.state disk.old) (D.state disk.new) }
    ensures cause { IsTrue D.told → HasCause (D.faults disk.old) (D.faults disk.new) result }
{
    match &pair.before {
        Some(before) => compare_before(alloc, disk, pair, before, taker),
        None => see_lines(alloc, disk, pair, taker),
    }
}

/// Takes the changes since this report before.
#[tactic(auto, using(crate::proofs::Findings::since_of))]
fn compare_before<D: ClosedDisk, T: TakeChange + Drop>(
    alloc: Global,
    disk: &mut D,
    pair: &Pair,
    before: &ClosedCycle,
    taker: T,
) -> Result<T, ClosingStop>
    ensures taken { IsTrue D.told → IfOk result (λ after. Took
        (IsSeenSince (kept_of (D.state disk.old).files) pair.now.closed (Some before.now))
        (λ seen. T.takes taker seen after)) }
    ensures unchanged { IsTrue D.told
        → OnOk result (IsUnchangedSince (D.state disk.old).files pair.now before.now.cycle) }
    ensures still { IsTrue D.told → Still (D.state disk.old) (D.state disk.new) }
    ensures cause { IsTrue D.told → HasCause (D.faults disk.old) (D.faults disk.new) result }
{
    let mut taker = taker;
    let left = left_by_both(alloc, &pair.closed, before)?;
    compare_with(alloc, disk, pair, before.cycle(), &left, &mut taker)?;
    Ok(taker)
}

/// Takes the lines of the report, which is compared with none: of no place is a change taken.
fn see_lines<D: ClosedDisk, T: TakeChange + Drop>(
    alloc: Global,
    disk: &mut D,
    pair: &Pair,
    taker: T,
) -> Result<T, ClosingStop>
    ensures taken { IsTrue D.told → IfOk result (λ after. Took
        (IsSeenSince (kept_of (D.state disk.old).files) pair.now.closed None)
        (λ seen. T.takes taker seen after)) }
    ensures still { IsTrue D.told → Still (D.state disk.old) (D.state disk.new) }
    ensures cause { IsTrue D.told → HasCause (D.faults disk.old) (D.faults disk.new) result }
{
    let mut within = Within {
        places: Vec::new(alloc),
        taker,
    };
    see_all(alloc, disk, pair, &mut within)?;
    let Within {
        places: _places,
        taker,
    } = within;
    Ok(taker)
}

/// Takes the lines of the report, with all of them as changes since an empty report.
fn see_all<D: ClosedDisk, T: TakeChange>(
    alloc: Global,
    disk: &mut D,
    pair: &Pair,
    taker: &mut T,
) -> Result<(), ClosingStop>
    ensures taken { IsTrue D.told → OnOk result (IsCompared pair.now.closed.left []
        ((kept_of (D.state disk.old).files).reports pair.now.closed.cycle)
        (λ seen. T.takes taker.old seen taker.new)) }
    ensures still { IsTrue D.told → Still (D.state disk.old) (D.state disk.new) }
    ensures cause { IsTrue D.told → HasCause (D.faults disk.old) (D.faults disk.new) result }
{
    let cycle = pair.closed.cycle();
    let mut none: &[u8] = &[];
    let mut report = open_reader(alloc, disk, cycle)?;
    match compare(alloc, &mut none, &mut report, pair.closed.left(), taker) {
        Ok(()) => Ok(()),
        Err(stop) => {
            let error = report.get_ref().error();
            Err(disk.refuse_lines(cycle, stop, error))
        }
    }
}

/// The places that two reports left out.
pub(crate) fn left_by_both(
    alloc: Global,
    now: &ClosedCycle,
    before: &ClosedCycle,
) -> Result<Vec<Place>, ClosingStop>
    ensures left { IfOk result (λ left. left.items ≡ now.now.left ++ before.now.left) }
    ensures memory { IsOkUnless result ClosingStop.Memory }
{
    match both(alloc, now.left(), before.left()) {
        Ok(left) => Ok(left),
        Err(_) => Err(ClosingStop::Memory),
    }
}

/// The same places.
pub(crate) fn copy_of(alloc: Global, places: &[Place]) -> Result<Vec<Place>, ClosingStop>
    ensures copy { IfOk result (λ copy. copy.items ≡ places.now) }
    ensures memory { IsOkUnless result ClosingStop.Memory }
{
    let mut copy = Vec::new(alloc);
    match put_places(places, &mut copy) {
        Ok(()) => Ok(copy),
        Err(_) => Err(ClosingStop::Memory),
    }
}

/// These places, and then others.
fn both(alloc: Global, places: &[Place], more: &[Place]) -> Result<Vec<Place>, AllocError>
    ensures { IfOk result (λ copy. copy.items ≡ places.now ++ more.now) }
{
    let mut copy = Vec::new(alloc);
    put_places(places, &mut copy)?;
    put_places(more, &mut copy)?;
    Ok(copy)
}

/// Appends places.
fn put_places(places: &[Place], copy: &mut Vec<Place>) -> Result<(), AllocError>
    ensures { OnOk result (copy.new.items ≡ copy.old.items ++ places.now) }
{
    for place in places {
        copy.push(place.try_clone()?)?;
    }
    Ok(())
}

/// Takes the changes since the last whole report, in what the one before alone left out.
fn take_since_whole<D: ClosedDisk, T: TakeChange + Drop>(
    alloc: Global,
    disk: &mut D,
    pair: &Pair,
    taker: T,
) -> Result<T, ClosingStop>
    ensures taken { IsTrue D.told → IfOk result (λ after. Took
        (IsSeenSinceWhole (kept_of (D.state disk.old).files) pair.now.closed pair.now.again.items
        pair.now.whole) (λ seen. T.takes taker seen after)) }
    ensures unchanged { IsTrue D.told
        → OnOk result (IsWholeUnchanged (D.state disk.old).files pair.now.whole) }
    ensures still { IsTrue D.told → Still (D.state disk.old) (D.state disk.new) }
    ensures cause { IsTrue D.told → HasCause (D.faults disk.old) (D.faults disk.new) result }
{
    match &pair.whole {
        Some(whole) => compare_whole(alloc, disk, pair, whole, taker),
        None => Ok(taker),
    }
}

/// Takes the changes since this whole report, in what the one before alone left out.
#[tactic(auto, using(crate::proofs::Findings::since_whole_of))]
fn compare_whole<D: ClosedDisk, T: TakeChange + Drop>(
    alloc: Global,
    disk: &mut D,
    pair: &Pair,
    whole: &ClosedCycle,
    taker: T,
) -> Result<T, ClosingStop>
    ensures taken { IsTrue D.told → IfOk result (λ after. Took
        (IsSeenSinceWhole (kept_of (D.state disk.old).files) pair.now.closed pair.now.again.items
        (Some whole.now)) (λ seen. T.takes taker seen after)) }
    ensures unchanged { IsTrue D.told → OnOk result
        (is_unchanged (D.state disk.old).files whole.now.cycle ≡ true) }
    ensures still { IsTrue D.told → Still (D.state disk.old) (D.state disk.new) }
    ensures cause { IsTrue D.told → HasCause (D.faults disk.old) (D.faults disk.new) result }
{
    let Ok(places) = both(alloc, pair.again.as_slice(), &[]) else {
        return Err(ClosingStop::Memory);
    };
    let mut within = Within { places, taker };
    let left = pair.closed.left();
    compare_with(alloc, disk, pair, whole.cycle(), left, &mut within)?;
    let Within {
        places: _places,
        taker,
    } = within;
    Ok(taker)
}

/// Takes which of the objects that must be there are missing.
#[tactic(auto, using(crate::proofs::Findings::some_listed))]
fn take_missing<D: ClosedDisk>(
    alloc: Global,
    disk: &mut D,
    pair: &Pair,
    taking: &mut Taking<'_, D::List>,
) -> Result<(), ClosingStop>
    ensures taken { IsTrue D.told → OnOk result (Took
        (IsSeenMissing (kept_of (D.state disk.old).files) pair.now.closed
        (D.state disk.old).files.listed) (λ seen. HasTaken
        (stand_of (D.List.contents taking.old.list.out) taking.old.words taking.old.is_grave)
        seen
        (stand_of (D.List.contents taking.new.list.out) taking.new.words taking.new.is_grave))) }
    ensures still { IsTrue D.told → Still (D.state disk.old) (D.state disk.new) }
    ensures cause { IsTrue D.told → HasCause (D.faults disk.old) (D.faults disk.new) result }
{
    match disk.read_listed()? {
        Some(listed) => take_missing_of(alloc, disk, pair, listed, taking),
        None => Ok(()),
    }
}

/// Takes which of these objects are missing.
#[tactic(auto, using(crate::proofs::Findings::missing_of))]
fn take_missing_of<D: ClosedDisk>(
    alloc: Global,
    disk: &mut D,
    pair: &Pair,
    listed: Vec<Place>,
    taking: &mut Taking<'_, D::List>,
) -> Result<(), ClosingStop>
    ensures taken { IsTrue D.told → OnOk result (Took
        (IsSeenMissing (kept_of (D.state disk.old).files) pair.now.closed (Some listed.items))
        (λ seen. HasTaken
        (stand_of (D.List.contents taking.old.list.out) taking.old.words taking.old.is_grave)
        seen
        (stand_of (D.List.contents taking.new.list.out) taking.new.words taking.new.is_grave))) }
    ensures still { IsTrue D.told → Still (D.state disk.old) (D.state disk.new) }
    ensures cause { IsTrue D.told → HasCause (D.faults disk.old) (D.faults disk.new) result }
{
    let mut listed = listed;
    search(alloc, disk, pair, &mut listed, taking)?;
    taking.words.listed = count_places(&listed);
    Ok(())
}

/// Takes which of these objects are missing in a report, and sorts them.
fn search<D: ClosedDisk, T: TakeChange>(
    alloc: Global,
    disk: &mut D,
    pair: &Pair,
    listed: &mut Vec<Place>,
    taker: &mut T,
) -> Result<(), ClosingStop>
    ensures taken { IsTrue D.told → OnOk result (IsSearched pair.now.closed.left listed.old.items
        ((kept_of (D.state disk.old).files).reports pair.now.closed.cycle)
        (λ seen. T.takes taker.old seen taker.new)) }
    ensures still { IsTrue D.told → Still (D.state disk.old) (D.state disk.new) }
    ensures cause { IsTrue D.told → HasCause (D.faults disk.old) (D.faults disk.new) result }
{
    let mut report = open_reader(alloc, disk, pair.closed.cycle())?;
    match find_expected(alloc, listed, &mut report, pair.closed.left(), taker) {
        Ok(()) => Ok(()),
        Err(stop) => {
            let error = report.get_ref().error();
            Err(disk.refuse_search(pair.closed.cycle(), compared(pair), stop, error))
        }
    }
}

/// Takes the changes since the report of a cycle, outside of these places. The report of the pair
/// is checked while it is read, but in the comparison with a whole report behind that with another
/// one.
fn compare_with<D: ClosedDisk, T: TakeChange>(
    alloc: Global,
    disk: &mut D,
    pair: &Pair,
    before: u64,
    left: &[Place],
    taker: &mut T,
) -> Result<(), ClosingStop>
    ensures taken { IsTrue D.told → OnOk result (IsCompared left.now
        ((kept_of (D.state disk.old).files).reports before)
        ((kept_of (D.state disk.old).files).reports pair.now.closed.cycle)
        (λ seen. T.takes taker.old seen taker.new)) }
    ensures unchanged { IsTrue D.told
        → OnOk result (IsUnchangedSince (D.state disk.old).files pair.now before) }
    ensures still { IsTrue D.told → Still (D.state disk.old) (D.state disk.new) }
    ensures cause { IsTrue D.told → HasCause (D.faults disk.old) (D.faults disk.new) result }
{
    let mut earlier = open_checked(alloc, disk, before)?;
    let mut later = open_now(alloc, disk, pair, before)?;
    match compare(alloc, &mut earlier, &mut later, left, taker) {
        Ok(()) => Ok(()),
        Err(stop) => {
            let (earlier, later) = (earlier.get_ref(), later.get_ref());
            Err(refuse(disk, pair, before, stop, earlier, later))
        }
    }
}

/// Keeps why two reports were not compared. That the first one was changed is known once it was
/// read to its end; else the disk looks for which of them was.
fn refuse<D: ClosedDisk>(
    disk: &mut D,
    pair: &Pair,
    before: u64,
    stop: CompareStop,
    earlier: &ReportReader<D::Report>,
    later: &ReportReader<D::Report>,
) -> ClosingStop
    ensures still { IsTrue D.told → Still (D.state disk.old) (D.state disk.new) }
    ensures cause { IsTrue D.told → IsCause (D.faults disk.old) (D.faults disk.new) result }
{
    if earlier.is_changed() {
        return disk.refuse_changed(pair, before);
    }
    let error = match stop {
        CompareStop::BeforeFailed => earlier.error(),
        _ => later.error(),
    };
    disk.refuse_reports(pair, before, stop, error)
}
