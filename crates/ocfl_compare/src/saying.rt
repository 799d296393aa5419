//! What changed at a place, change by change.
ghost use Rattle.std.specs.Prelude.{◌≡◌, ◌&&◌, ◌||◌, [], List, OnOk, flat_map, if◌then◌else◌, map, not};
ghost use Rattle.ocfl_tree.specs.Place.{Place as ModelPlace};
ghost use Rattle.ocfl_report.specs.Line.{Line as ModelLine};
ghost use Rattle.ocfl_compare.specs.Changes.{gone_file, gone_object, is_left as is_left_out};
ghost use Rattle.ocfl_compare.specs.{Changes.{when}, Seen.{shown}, Versions.{inventory_changes}};
ghost use Rattle.ocfl_compare.specs.declared.change.Change.TheVariants.{Repaired};
ghost use Rattle.ocfl_compare.specs.Internal.Summing.{Summarizes, new_at, repaired_at};
ghost use Rattle.ocfl_compare.specs.Internal.Summing.{summary_answer, summary_changes};
ghost use Rattle.ocfl_compare.specs.Internal.Summing.{summary_note, summary_repaired};
ghost use Rattle.ocfl_compare.specs.Internal.Turns.{said_changes};

use crate::change::Change;
use crate::question::Question;
use crate::summary::{Summary, has_code};
use crate::taking::{TakeChange, TakeStop};
use crate::versions::moved;
use ocfl_report::Code;
use ocfl_tree::{Place, is_text};

/// What two reports say of a place and of those around it.
#[derive(Clone, Copy)]
pub(crate) struct Sides<'a> {
    pub(crate) place: &'a Place,
    pub(crate) before: &'a Summary,
    pub(crate) now: &'a Summary,
    /// It is below an object whose files are not looked at now.
    pub(crate) in_shut: bool,
    /// This report has lines below it.
    pub(crate) has_lines: bool,
}

/// Gives the answer of a place, if it was not left out.
pub(crate) fn give_said<T: TakeChange>(
    asked: Question,
    left: &[Place],
    sides: Sides<'_>,
    taker: &mut T,
) -> Result<(), TakeStop>
    ensures { OnOk result ((was : List ModelLine) (is : List ModelLine)
        → Summarizes sides.entry.before.now was → Summarizes sides.entry.now.now is
        → T.takes taker.old (shown sides.entry.place.now (said_changes asked left.now
        sides.entry.place.now sides.entry.in_shut sides.entry.has_lines was is)) taker.new) }
{
    if is_left(left, sides.place) {
        return Ok(());
    }
    give_answer(asked, sides, taker)
}

/// Whether the place was left out, or is below one that was.
fn is_left(left: &[Place], place: &Place) -> bool
    ensures { result ≡ is_left_out left.now place.now }
{
    left.iter().any(|branch| place.starts_with(branch))
}

/// Gives the answer of a place.
fn give_answer<T: TakeChange>(
    asked: Question,
    sides: Sides<'_>,
    taker: &mut T,
) -> Result<(), TakeStop>
    ensures { OnOk result (T.takes taker.old (shown sides.entry.place.now
        (summary_answer asked sides.entry.in_shut sides.entry.has_lines
        sides.entry.before.now sides.entry.now.now)) taker.new) }
{
    let Sides {
        place,
        before,
        now,
        ..
    } = sides;
    match asked {
        Question::Changed => give_changes(sides, taker),
        Question::Expected => give_if(is_object_gone(before, now), place, Change::Missing, taker),
    }
}

/// Gives each change.
fn give_changes<T: TakeChange>(sides: Sides<'_>, taker: &mut T) -> Result<(), TakeStop>
    ensures { OnOk result (T.takes taker.old (shown sides.entry.place.now
        (summary_changes sides.entry.in_shut sides.entry.has_lines
        sides.entry.before.now sides.entry.now.now)) taker.new) }
{
    let Sides {
        place,
        before,
        now,
        in_shut,
        has_lines,
    } = sides;
    give_if(
        is_object_gone(before, now),
        place,
        object_change(has_lines),
        taker,
    )?;
    give_if(
        is_file_gone(before, now),
        place,
        file_change(in_shut),
        taker,
    )?;
    give_new(
        place,
        before.findings.as_slice(),
        now.findings.as_slice(),
        taker,
    )?;
    give_all_repaired(sides, taker)?;
    give_inventory_change(place, before, now, taker)
}

/// Whether a line of an object was there before and is not there now.
fn is_object_gone(before: &Summary, now: &Summary) -> bool
    ensures { result ≡ not now.now.object && before.now.object }
{
    !now.object && before.object
}

/// What a gone object is, where this report has lines below it or not.
fn object_change(has_lines: bool) -> Change
    ensures { result ≡ gone_object has_lines }
{
    if has_lines {
        Change::Undeclared
    } else {
        Change::Gone
    }
}

/// Whether there was a line of a content file, and there is no line at all now.
fn is_file_gone(before: &Summary, now: &Summary) -> bool
    ensures { result ≡ now.now.absent && before.now.file }
{
    now.absent && before.file
}

/// What a file without a line is, where its object is shut or not.
fn file_change(in_shut: bool) -> Change
    ensures { result ≡ gone_file in_shut }
{
    if in_shut {
        Change::Unlooked
    } else {
        Change::FileGone
    }
}

/// Whether the files of an object at the place are not looked at now.
pub(crate) fn is_shut(before: &Summary, now: &Summary) -> bool
    ensures { result ≡ now.now.stopped || (before.now.object && not now.now.object) }
{
    now.stopped || (before.object && !now.object)
}

/// Gives each code that is repaired, if the place was looked at.
fn give_all_repaired<T: TakeChange>(sides: Sides<'_>, taker: &mut T) -> Result<(), TakeStop>
    ensures { OnOk result (T.takes taker.old (shown sides.entry.place.now
        (map Repaired (summary_repaired sides.entry.before.now sides.entry.now.now))) taker.new) }
{
    let Sides {
        place,
        before,
        now,
        ..
    } = sides;
    if now.absent || now.hidden {
        return Ok(());
    }
    give_repaired(
        place,
        now.findings.as_slice(),
        before.findings.as_slice(),
        taker,
    )
}

/// Gives what became of the root inventory, if both reports note what it is, and differently.
fn give_inventory_change<T: TakeChange>(
    place: &Place,
    before: &Summary,
    now: &Summary,
    taker: &mut T,
) -> Result<(), TakeStop>
    ensures { OnOk result (T.takes taker.old (shown place.now
        (inventory_changes (summary_note before.now) (summary_note now.now))) taker.new) }
{
    let (Some(before), Some(now)) = (&before.note, &now.note) else {
        return Ok(());
    };
    if is_text(before, now) {
        return Ok(());
    }
    taker.take(place, moved(before, now))
}

/// Gives each code that was not there before.
fn give_new<T: TakeChange>(
    place: &Place,
    before: &[Code],
    now: &[Code],
    taker: &mut T,
) -> Result<(), TakeStop>
    ensures { OnOk result (T.takes taker.old
        (flat_map (new_at place.now before.now) now.now) taker.new) }
{
    for code in now {
        give_if(!has_code(before, *code), place, Change::Found(*code), taker)?;
    }
    Ok(())
}

/// Gives each code that is not there now.
fn give_repaired<T: TakeChange>(
    place: &Place,
    now: &[Code],
    before: &[Code],
    taker: &mut T,
) -> Result<(), TakeStop>
    ensures { OnOk result (T.takes taker.old
        (flat_map (repaired_at place.now now.now) before.now) taker.new) }
{
    for code in before {
        give_if(!has_code(now, *code), place, Change::Repaired(*code), taker)?;
    }
    Ok(())
}

/// Gives a change, or nothing.
fn give_if<T: TakeChange>(
    is: bool,
    place: &Place,
    change: Change,
    taker: &mut T,
) -> Result<(), TakeStop>
    ensures { OnOk result (T.takes taker.old (shown place.now (when is change)) taker.new) }
{
    if !is {
        return Ok(());
    }
    taker.take(place, change)
}
