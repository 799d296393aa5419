//! Comparing two reports.
ghost use Rattle.std.specs.Prelude.{◌≡◌, ◌⊎◌, ℕ, List, Option, Some, None, IfOk, IfErr, IfSome, OnOk, []};
ghost use Rattle.ocfl_report.specs.Line.{Line as ModelLine};
ghost use Rattle.ocfl_compare.specs.Seen.{shown};
ghost use Rattle.ocfl_compare.specs.Compared.{IsAnswered, IsCompared};
ghost use Rattle.ocfl_compare.specs.{CompareStop.{StopsRightly}, Internal.Reading.{HasRead, IsNextPlace}};
ghost use Rattle.ocfl_compare.specs.Internal.Reading.{last_place};
ghost use Rattle.ocfl_compare.specs.Internal.Summing.{Summarizes};
ghost use Rattle.ocfl_compare.specs.Internal.Turns.{IfBothSome, IsSoFar, before_stop, leads_from};
ghost use Rattle.ocfl_compare.specs.Internal.Turns.{leads_to, now_stop, said_changes, shut_after};

use crate::question::Question;
use crate::reading::{ReadStop, Reading, next_place, read_next, take_place, unread};
use crate::saying::{Sides, give_said, is_shut};
use crate::side::Side;
use crate::stop::CompareStop;
use crate::taking::{TakeChange, TakeStop};
use ocfl_report::Line;
use ocfl_tree::Place;
use std::alloc::{AllocError, Global};
use std::io::BufRead;

/// How far both reports are read.
#[derive(Drop)]
struct Both {
    before: Reading,
    now: Reading,
    /// The outermost object whose files are not looked at now, and that may have more of them.
    shut: Option<Place>,
}

/// Compares two reports of a storage root, and gives what changed, place by place in their order.
/// [`Change`](crate::Change) says what that may be. Of a place the object or the file comes first,
/// then the codes that were found there and were not before, and then those that are repaired, each
/// code once; at last what became of an object's root inventory, if both reports note what it is. A
/// finding is repaired only at a place that was looked at: it has lines in this report,
/// and none behind which a finding may not be looked for, as where an object's head stops, or where
/// a file could not be read or is no longer named.
///
/// Nothing is said of the places in `left` and of what is below them. All bytes of both readers
/// are read as reports, and one line of each is in memory at a time. The taker sees each line once:
/// of each place those of the report before, then those of this one, and then it takes the changes.
pub fn compare<R: BufRead, S: BufRead, T: TakeChange>(
    alloc: Global,
    before: &mut R,
    now: &mut S,
    left: &[Place],
    taker: &mut T,
) -> Result<(), CompareStop>
    ensures compared { OnOk result
        (IfSome (R.remaining before.old) (λ before_bytes.
        IfSome (S.remaining now.old) (λ now_bytes.
        IsCompared left.now before_bytes now_bytes
        (λ seen. T.takes taker.old seen taker.new)))) }
    ensures refused { IfErr result (λ stop.
        IfSome (R.remaining before.old) (λ before_bytes.
        IfSome (S.remaining now.old) (λ now_bytes.
        StopsRightly before_bytes now_bytes stop))) }
{
    answer(alloc, Question::Changed, before, now, left, taker)
}

/// Gives the answers of all places, in their order.
pub(crate) fn answer<R: BufRead, S: BufRead, T: TakeChange>(
    alloc: Global,
    asked: Question,
    before: &mut R,
    now: &mut S,
    left: &[Place],
    taker: &mut T,
) -> Result<(), CompareStop>
    ensures answered { OnOk result (IfBothSome (R.remaining before.old) (S.remaining now.old)
        (λ b n. IsAnswered asked left.now b n (λ seen. T.takes taker.old seen taker.new))) }
    ensures refused { IfErr result (λ stop.
        IfBothSome (R.remaining before.old) (S.remaining now.old) (λ b n. StopsRightly b n stop)) }
{
    let mut text = Vec::new(alloc);
    let mut both = begin(alloc, before, now, &mut text)?;
    for _ in 0..u64::MAX {
        let place = match next_place(&both.before.next, &both.now.next) {
            Ok(Some(place)) => place,
            Ok(None) => return Ok(()),
            Err(_) => return Err(CompareStop::Memory),
        };
        both = turn(
            alloc, asked, left, &place, before, now, taker, &mut text, both,
        )?;
    }
    Err(CompareStop::NowFailed)
}

/// Reads the first line of both.
fn begin<R: BufRead, S: BufRead>(
    alloc: Global,
    before: &mut R,
    now: &mut S,
    text: &mut Vec<u8>,
) -> Result<Both, CompareStop>
    ensures before { IfOk result (λ both. HasRead (R.remaining before.old)
        (R.remaining before.new) [] both.before.next both.before.count) }
    ensures now { IfOk result (λ both. HasRead (S.remaining now.old)
        (S.remaining now.new) [] both.now.next both.now.count) }
    ensures open { IfOk result (λ both. both.shut ≡ None) }
    ensures refused { IfErr result (λ stop.
        IfBothSome (R.remaining before.old) (S.remaining now.old) (λ b n. StopsRightly b n stop)) }
{
    let first = match read_next(alloc, before, text, unread()) {
        Ok(reading) => reading,
        Err(stop) => return Err(of_before(stop)),
    };
    let second = match read_next(alloc, now, text, unread()) {
        Ok(reading) => reading,
        Err(stop) => return Err(of_now(stop)),
    };
    Ok(Both {
        before: first,
        now: second,
        shut: None,
    })
}

/// Takes the lines of a place from both, and gives what changed there.
fn turn<R: BufRead, S: BufRead, T: TakeChange>(
    alloc: Global,
    asked: Question,
    left: &[Place],
    place: &Place,
    before: &mut R,
    now: &mut S,
    taker: &mut T,
    text: &mut Vec<u8>,
    both: Both,
) -> Result<Both, CompareStop>
    requires next { IsNextPlace (Some place.now) both.before.next both.now.next }
    ensures ok { IfOk result (λ after. (b n : Option (List ℕ)) (start : T)
        → IsSoFar asked left.now b (R.remaining before.old) both.before.next both.before.count
        n (S.remaining now.old) both.now.next both.now.count both.shut
        (λ seen. T.takes start seen taker.old)
        → IsSoFar asked left.now b (R.remaining before.new) after.before.next after.before.count
        n (S.remaining now.new) after.now.next after.now.count after.shut
        (λ seen. T.takes start seen taker.new)) }
    ensures refused { IfErr result (λ stop. (b n : Option (List ℕ)) (start : T)
        → IsSoFar asked left.now b (R.remaining before.old) both.before.next both.before.count
        n (S.remaining now.old) both.now.next both.now.count both.shut
        (λ seen. T.takes start seen taker.old)
        → IfBothSome b n (λ before_bytes now_bytes. StopsRightly before_bytes now_bytes stop)) }
{
    let side = Side::Before;
    let was = match take_place(alloc, asked, side, place, before, taker, text, both.before) {
        Ok(taken) => taken,
        Err(stop) => return Err(of_before(stop)),
    };
    let is = match take_place(alloc, asked, Side::Now, place, now, taker, text, both.now) {
        Ok(taken) => taken,
        Err(stop) => return Err(of_now(stop)),
    };
    let sides = Sides {
        place,
        before: &was.summary,
        now: &is.summary,
        in_shut: is_led_from(&both.shut, place),
        has_lines: is_leading(place, &is.reading.next),
    };
    say(asked, left, sides, taker)?;
    let shut = match shut_by(both.shut, place, is_shut(&was.summary, &is.summary)) {
        Ok(shut) => shut,
        Err(_) => return Err(CompareStop::Memory),
    };
    Ok(Both {
        before: was.reading,
        now: is.reading,
        shut,
    })
}

/// Whether the place is that of the object that is shut, or below it.
fn is_led_from(shut: &Option<Place>, place: &Place) -> bool
    ensures { result ≡ leads_from shut.now place.now }
{
    match shut {
        Some(object) => place.starts_with(object),
        None => false,
    }
}

/// Whether the next line is below the place, if it has another one.
fn is_leading(place: &Place, next: &Option<Line>) -> bool
    ensures { result ≡ leads_to place.now (last_place next.now) }
{
    match next {
        Some(line) => line.place.starts_with(place),
        None => false,
    }
}

/// The object that is shut after the lines of a place.
fn shut_by(shut: Option<Place>, place: &Place, is: bool) -> Result<Option<Place>, AllocError>
    ensures { IfOk result (λ after. after ≡ shut_after shut place.now is) }
{
    if is_led_from(&shut, place) {
        return Ok(shut);
    }
    if is {
        return Ok(Some(place.try_clone()?));
    }
    Ok(None)
}

/// Gives what changed at a place, all of it or with an error.
fn say<T: TakeChange>(
    asked: Question,
    left: &[Place],
    sides: Sides<'_>,
    taker: &mut T,
) -> Result<(), CompareStop>
    ensures ok { OnOk result ((was : List ModelLine) (is : List ModelLine)
        → Summarizes sides.entry.before.now was → Summarizes sides.entry.now.now is
        → T.takes taker.old (shown sides.entry.place.now (said_changes asked left.now
        sides.entry.place.now sides.entry.in_shut sides.entry.has_lines was is)) taker.new) }
    ensures stop { IfErr result (λ stop.
        (stop ≡ CompareStop.Output) ⊎ (stop ≡ CompareStop.Memory)) }
{
    match give_said(asked, left, sides, taker) {
        Ok(()) => Ok(()),
        Err(TakeStop::Failed) => Err(CompareStop::Output),
        Err(TakeStop::Memory) => Err(CompareStop::Memory),
    }
}

fn of_before(stop: ReadStop) -> CompareStop
    ensures { result ≡ before_stop stop }
{
    match stop {
        ReadStop::Line(number) => CompareStop::Before(number),
        ReadStop::Failed => CompareStop::BeforeFailed,
        ReadStop::Output => CompareStop::Output,
        ReadStop::Memory => CompareStop::Memory,
    }
}

fn of_now(stop: ReadStop) -> CompareStop
    ensures { result ≡ now_stop stop }
{
    match stop {
        ReadStop::Line(number) => CompareStop::Now(number),
        ReadStop::Failed => CompareStop::NowFailed,
        ReadStop::Output => CompareStop::Output,
        ReadStop::Memory => CompareStop::Memory,
    }
}
