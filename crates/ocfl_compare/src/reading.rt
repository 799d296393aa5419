//! Reading a report line by line.
ghost use Rattle.std.specs.Prelude.{◌≡◌, ◌≢◌, ◌⊎◌, ◌+◌, List, [], ℕ, ◌++◌, Option, None};
ghost use Rattle.std.specs.Prelude.{false, IfOk, IfErr, IfSome, OnOk, option_map};
ghost use Rattle.std.specs.declared.cmp.Ordering.TheVariants.{Greater};
ghost use Rattle.ocfl_tree.specs.Place.{place_cmp};
ghost use Rattle.ocfl_report.specs.Line.{Line as ModelLine, line_of};
ghost use Rattle.ocfl_compare.specs.Internal.Reading.{GoesOn, HasRead, IsBelow, IsNotAbove};
ghost use Rattle.ocfl_compare.specs.Internal.Reading.{IsReading, IsNextLine, IsNextPlace, IsOpen};
ghost use Rattle.ocfl_compare.specs.Internal.Reading.{IsUnfit, ReadStopsRightly, is_after, listed};
ghost use Rattle.ocfl_compare.specs.Internal.Summing.{Summarizes, Sums, seen_by};
ghost use Rattle.ocfl_compare.specs.Internal.Turns.{AreTaken};
ghost use Rattle.ocfl_compare.specs.Seen.{line_seen, lines_seen};

use crate::question::Question;
use crate::side::Side;
use crate::summary::{Summary, nothing, with_line};
use crate::taking::{TakeChange, TakeStop};
use ocfl_report::{InputStop, Line, TextStop, read_line, read_next_line};
use ocfl_tree::Place;
use std::alloc::{AllocError, Global};
use std::cmp::Ordering;
use std::io::BufRead;

/// How far a report is read.
#[derive(Drop)]
pub(crate) struct Reading {
    /// The line that was read last and is not taken yet. None before the first, and at the end.
    pub(crate) next: Option<Line>,
    /// How many lines were read.
    pub(crate) count: u64,
}

/// Why a report was not read on.
#[derive(Clone, Copy, Debug, PartialEq, Eq)]
pub(crate) enum ReadStop {
    /// The first line, from 1, that is no report line, or whose place is less than the one before.
    Line(u64),
    /// The reader failed.
    Failed,
    /// The taker of changes failed.
    Output,
    /// Memory was refused.
    Memory,
}

/// A report of which nothing is read.
pub(crate) fn unread() -> Reading
    ensures next { result.next ≡ None }
    ensures count { result.count ≡ 0 }
{
    Reading {
        next: None,
        count: 0,
    }
}

/// Takes the line that was read last, and reads the next one.
pub(crate) fn read_next<R: BufRead>(
    alloc: Global,
    report: &mut R,
    text: &mut Vec<u8>,
    reading: Reading,
) -> Result<Reading, ReadStop>
    ensures ok { IfOk result (λ after. (all : Option (List ℕ)) (done : List ModelLine)
        → IsOpen done reading.next
        → IsReading all (R.remaining report.old) done reading.next reading.count
        → HasRead all (R.remaining report.new) (done ++ listed reading.next)
        after.next after.count) }
    ensures order { IfOk result (λ after. GoesOn reading.next after.next) }
    ensures refused { IfErr result (λ stop. (all : Option (List ℕ)) (done : List ModelLine)
        → IsOpen done reading.next
        → IsReading all (R.remaining report.old) done reading.next reading.count
        → IfSome all (λ bytes. ReadStopsRightly bytes stop)) }
{
    match read_next_line(report, text) {
        Ok(true) => take_text(alloc, text.as_slice(), reading),
        Ok(false) => Ok(Reading {
            next: None,
            count: reading.count,
        }),
        Err(InputStop::Failed) => Err(ReadStop::Failed),
        Err(InputStop::Memory) => Err(ReadStop::Memory),
    }
}

/// The line whose text this is, after the one that was read last.
fn take_text(alloc: Global, text: &[u8], reading: Reading) -> Result<Reading, ReadStop>
    ensures ok { IfOk result (λ after. IsNextLine text.now after.next
        × (GoesOn reading.next after.next × (after.count ≡ reading.count + 1))) }
    ensures bad { IfErr result (λ stop. (n : ℕ) → stop ≡ ReadStop.Line n
        → (n ≡ reading.count + 1) × IsUnfit text.now reading.next) }
{
    let Some(count) = reading.count.checked_add(1) else {
        return Err(ReadStop::Failed);
    };
    let line = match read_line(alloc, text) {
        Ok(line) => line,
        Err(TextStop::Bad) => return Err(ReadStop::Line(count)),
        Err(TextStop::Memory) => return Err(ReadStop::Memory),
    };
    if is_above(&reading.next, &line.place) {
        return Err(ReadStop::Line(count));
    }
    Ok(Reading {
        next: Some(line),
        count,
    })
}

/// Whether the line that was read last has a greater place.
fn is_above(last: &Option<Line>, place: &Place) -> bool
    ensures { result ≡ is_after last.now place.now }
{
    match last {
        Some(line) => line.place.cmp(place).is_gt(),
        None => false,
    }
}

/// What was taken of a report, and how far it is read then.
#[derive(Drop)]
pub(crate) struct Taken {
    pub(crate) summary: Summary,
    pub(crate) reading: Reading,
}

/// Takes all next lines that have the place, and shows them to a taker of changes.
pub(crate) fn take_place<R: BufRead, T: TakeChange>(
    alloc: Global,
    asked: Question,
    side: Side,
    place: &Place,
    report: &mut R,
    taker: &mut T,
    text: &mut Vec<u8>,
    first: Reading,
) -> Result<Taken, ReadStop>
    requires least { IsNotAbove place.now first.next }
    ensures taken { IfOk result (λ taken. (all : Option (List ℕ)) (done : List ModelLine)
        → HasRead all (R.remaining report.old) done first.next first.count
        → (own : List ModelLine) × Summarizes taken.summary own
        × AreTaken place.now all (R.remaining report.new) done own first.next
        taken.reading.next taken.reading.count
        × T.takes taker.old (lines_seen asked side own) taker.new) }
    ensures below { IfOk result (λ taken. IsBelow place.now taken.reading.next) }
    ensures refused { IfErr result (λ stop. (all : Option (List ℕ)) (done : List ModelLine)
        → HasRead all (R.remaining report.old) done first.next first.count
        → IfSome all (λ bytes. ReadStopsRightly bytes stop)) }
{
    let mut summary = nothing(alloc);
    let mut reading = first;
    for _ in 0..u64::MAX {
        match take_line(asked, side, place, summary, &reading.next, taker) {
            Ok(Summing::More(more)) => summary = more,
            Ok(Summing::Whole(summary)) => return Ok(Taken { summary, reading }),
            Err(TakeStop::Failed) => return Err(ReadStop::Output),
            Err(TakeStop::Memory) => return Err(ReadStop::Memory),
        }
        reading = read_next(alloc, report, text, reading)?;
    }
    Err(ReadStop::Failed)
}

/// The summary of the lines of a place so far: with one more, or of all of them.
#[derive(Drop)]
pub(crate) enum Summing {
    More(Summary),
    Whole(Summary),
}

/// Takes the next line, if it has the place, and shows it.
fn take_line<T: TakeChange>(
    asked: Question,
    side: Side,
    place: &Place,
    summary: Summary,
    next: &Option<Line>,
    taker: &mut T,
) -> Result<Summing, TakeStop>
    ensures sums { IfOk result (Sums place.now summary next.now) }
    ensures seen { IfOk result (λ summing.
        T.takes taker.old (seen_by asked side summing next.now) taker.new) }
{
    let Some(line) = next else {
        return Ok(Summing::Whole(summary));
    };
    match place.cmp(&line.place) {
        Ordering::Equal => {
            show(asked, side, line, taker)?;
            Ok(Summing::More(with_line(summary, line)?))
        }
        _ => Ok(Summing::Whole(summary)),
    }
}

/// Shows a line to a taker of changes, if it is asked what changed between two reports.
fn show<T: TakeChange>(
    asked: Question,
    side: Side,
    line: &Line,
    taker: &mut T,
) -> Result<(), TakeStop>
    ensures { OnOk result (T.takes taker.old (line_seen asked side (line_of line.now)) taker.new) }
{
    match asked {
        Question::Changed => taker.see(side, line),
        Question::Expected => Ok(()),
    }
}

/// The least place of two next lines. None at the end of both reports.
pub(crate) fn next_place(
    before: &Option<Line>,
    now: &Option<Line>,
) -> Result<Option<Place>, AllocError>
    ensures { IfOk result (λ place. IsNextPlace place before.now now.now) }
{
    match lesser(before, now) {
        Some(place) => Ok(Some(place.try_clone()?)),
        None => Ok(None),
    }
}

fn lesser<'a>(before: &'a Option<Line>, now: &'a Option<Line>) -> Option<&'a Place>
    ensures { IsNextPlace (option_map (λ p. p.now) result) before.now now.now }
{
    match (before, now) {
        (None, None) => None,
        (Some(line), None) => Some(&line.place),
        (None, Some(line)) => Some(&line.place),
        (Some(line), Some(other)) => Some(lesser_place(&line.place, &other.place)),
    }
}

fn lesser_place<'a>(place: &'a Place, other: &'a Place) -> &'a Place
    ensures which { (result.now ≡ place.now) ⊎ (result.now ≡ other.now) }
    ensures first { place_cmp result.now place.now ≢ Greater }
    ensures second { place_cmp result.now other.now ≢ Greater }
{
    if other.cmp(place).is_lt() {
        other
    } else {
        place
    }
}
