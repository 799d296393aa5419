//! The lines of findings that are repaired, as many as are shown.
ghost use Rattle.std.specs.Prelude.{◌≡◌, ◌≤◌, ◌++◌, List, [], ◌∷◌, drop, if◌then◌else◌};
ghost use Rattle.std.specs.Prelude.{length, map, nat_lt, take, OnOk};
ghost use Rattle.std.specs.Option.{option_map, option_to_list};
ghost use Rattle.ocfl_report.specs.Line.{Line as ModelLine, line_of};
ghost use Rattle.ocfl_words.specs.Counted.{most_shown};
ghost use Rattle.ocfl_words.specs.Shown.{in_order, insert_shown, is_shown_before, rank_of};

use crate::lines::copy_of;
use ocfl_codes::{Weight, weigh};
use ocfl_messages::SHOWN;
use ocfl_report::{Code, Line};
use std::alloc::AllocError;
use std::cmp::Ordering;

/// How serious a code is: the more, the lower.
fn rank(code: Code) -> u8
    ensures { result ≡ rank_of code }
{
    match weigh(code) {
        Some(Weight::Bytes) => 0,
        Some(Weight::Object) => 1,
        Some(Weight::Record) => 2,
        Some(Weight::Position) => 3,
        None => 4,
    }
}

fn is_graver(code: Code, other: Code) -> bool
    ensures { result ≡ nat_lt (rank_of code) (rank_of other) }
{
    rank(code) < rank(other)
}

/// Whether a line is shown before another one: by their places, and the most serious of a place
/// first.
fn is_before(line: &Line, other: &Line) -> bool
    ensures { result ≡ is_shown_before (line_of line.now) (line_of other.now) }
{
    match line.place.cmp(&other.place) {
        Ordering::Less => true,
        Ordering::Equal => is_graver(line.code, other.code),
        Ordering::Greater => false,
    }
}

/// Where a line comes among those that are shown.
fn index_for(shown: &[Line], line: &Line) -> usize
    ensures index { insert_shown (line_of line.now) (map line_of shown.now)
        ≡ map line_of (take result shown.now) ++ line_of line.now
        ∷ map line_of (drop result shown.now) }
    ensures bound { result ≤ length shown.now }
{
    for index in 0..shown.len() {
        if is_before(line, &shown[index]) {
            return index;
        }
    }
    shown.len()
}

/// Puts a line where it comes.
fn insert(shown: &mut Vec<Line>, line: &Line) -> Result<(), AllocError>
    ensures { OnOk result (map line_of shown.new.items
        ≡ insert_shown (line_of line.now) (map line_of shown.old.items)) }
{
    let index = index_for(shown, line);
    shown.insert(index, copy_of(line)?)?;
    Ok(())
}

/// Puts a line where it comes, unless as many are there as are shown.
fn put_shown(shown: &mut Vec<Line>, line: &Line) -> Result<(), AllocError>
    ensures { OnOk result ((ls : List ModelLine)
        → map line_of shown.old.items ≡ in_order (take most_shown ls)
        → map line_of shown.new.items ≡ in_order (take most_shown (ls ++ line_of line.now ∷ []))) }
{
    if shown.len() >= SHOWN {
        return Ok(());
    }
    insert(shown, line)
}

/// The same of a line, if there is one.
fn put_line(shown: &mut Vec<Line>, line: Option<&Line>) -> Result<(), AllocError>
    ensures { OnOk result ((ls : List ModelLine)
        → map line_of shown.old.items ≡ in_order (take most_shown ls)
        → map line_of shown.new.items ≡ in_order (take most_shown
        (ls ++ option_to_list (option_map (λ l. line_of l.now) line.entry)))) }
{
    match line {
        Some(line) => put_shown(shown, line),
        None => Ok(()),
    }
}

/// The same of the line of a change, if it is of a finding that is repaired.
pub(crate) fn keep_repaired(
    shown: &mut Vec<Line>,
    is_repaired: bool,
    line: Option<&Line>,
) -> Result<(), AllocError>
    ensures { OnOk result ((ls : List ModelLine)
        → map line_of shown.old.items ≡ in_order (take most_shown ls)
        → map line_of shown.new.items ≡ in_order (take most_shown (ls ++ (if is_repaired
        then option_to_list (option_map (λ l. line_of l.now) line.entry) else [])))) }
{
    if is_repaired {
        return put_line(shown, line);
    }
    Ok(())
}
