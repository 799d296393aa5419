//! The findings of the last place with one, the first of each code.
ghost use Rattle.std.specs.Prelude.{◌≡◌, ◌&&◌, is_some, map, OnOk};
ghost use Rattle.std.specs.List.{find};
ghost use Rattle.std.specs.Option.{option_map};
ghost use Rattle.ocfl_report.specs.Line.{line_of};
ghost use Rattle.ocfl_compare.specs.Changes.{change_at, lines_at};
ghost use Rattle.ocfl_words.specs.Counted.{is_found as is_found_change};
ghost use Rattle.ocfl_words.specs.Noted.{first_at, is_finding_at as is_that_finding, is_named};
ghost use Rattle.ocfl_words.specs.Noted.{line_in};
ghost use Rattle.ocfl_words.specs.Kept.{kept_with, with_finding};

use crate::lines::{copy_of, is_code, is_place};
use ocfl_compare::Change;
use ocfl_messages::Known;
use ocfl_report::{Code, Line};
use ocfl_tree::Place;
use std::alloc::AllocError;

/// Whether a line is a finding of a code at a place.
fn is_finding_at(line: &Line, code: Code, place: &Place) -> bool
    ensures { result ≡ is_that_finding place.now code (line_of line.now) }
{
    is_place(place, &line.place) && line.is_finding() && is_code(code, line.code)
}

/// The first finding of a code at a place among these lines.
fn find_at<'l>(lines: &'l [Line], code: Code, place: &Place) -> Option<&'l Line>
    ensures { option_map (λ l. line_of l.now) result
        ≡ first_at place.now code (map line_of lines.now) }
{
    find_line(lines, code, place)
}

fn find_line<'l>(lines: &'l [Line], code: Code, place: &Place) -> Option<&'l Line>
    ensures { option_map (λ l. l.now) result
        ≡ find (λ l. is_that_finding place.now code (line_of l)) lines.now }
{
    lines.iter().find(|line| is_finding_at(line, code, place))
}

/// The line that a change is of: of what is new the line of this report, and of what is repaired
/// that of the report before.
pub(crate) fn line_of_change<'l>(
    before: &'l [Line],
    now: &'l [Line],
    place: &Place,
    change: Change,
) -> Option<&'l Line>
    ensures { option_map (λ l. line_of l.now) result
        ≡ line_in (map line_of before.now) (map line_of now.now) (change_at place.now change) }
{
    match change {
        Change::Found(code) => find_at(now, code, place),
        Change::Repaired(code) => find_at(before, code, place),
        Change::Gone
        | Change::Undeclared
        | Change::FileGone
        | Change::Unlooked
        | Change::Missing
        | Change::Rewritten
        | Change::WentBack
        | Change::NewVersion => None,
    }
}

fn is_found(change: Change) -> bool
    ensures { result ≡ is_found_change change }
{
    match change {
        Change::Found(_) => true,
        Change::Gone
        | Change::Undeclared
        | Change::FileGone
        | Change::Unlooked
        | Change::Repaired(_)
        | Change::Missing
        | Change::Rewritten
        | Change::WentBack
        | Change::NewVersion => false,
    }
}

/// Whether a change is a finding that is new and known, by the line that it is of.
pub(crate) fn knows(known: &Known, change: Change, line: Option<&Line>) -> bool
    ensures { result ≡ is_named known.now (option_map (λ l. line_of l.now) line.entry)
        && is_found_change change }
{
    match line {
        Some(line) => known.names(line) && is_found(change),
        None => false,
    }
}

/// Whether there is one.
fn has_at(lines: &[Line], code: Code, place: &Place) -> bool
    ensures { result ≡ is_some (first_at place.now code (map line_of lines.now)) }
{
    find_at(lines, code, place).is_some()
}

/// Keeps a line too, if it is a finding, and the first of its code at its place.
pub(crate) fn keep_first(lines: &mut Vec<Line>, line: &Line) -> Result<(), AllocError>
    ensures { OnOk result (map line_of lines.new.items
        ≡ kept_with (map line_of lines.old.items) (line_of line.now)) }
{
    if line.is_finding() {
        return keep_finding(lines, line);
    }
    Ok(())
}

/// Keeps a finding too, if it is the first of its code at its place.
fn keep_finding(lines: &mut Vec<Line>, line: &Line) -> Result<(), AllocError>
    ensures { OnOk result (map line_of lines.new.items
        ≡ with_finding (map line_of lines.old.items) (line_of line.now)) }
{
    if has_at(lines, line.code, &line.place) {
        return Ok(());
    }
    keep_place(lines, &line.place);
    lines.push(copy_of(line)?)?;
    Ok(())
}

/// Leaves the lines of a place.
fn keep_place(lines: &mut Vec<Line>, place: &Place)
    ensures { map line_of lines.new.items ≡ lines_at place.now (map line_of lines.old.items) }
{
    lines.retain(|line| is_place(place, &line.place));
}
