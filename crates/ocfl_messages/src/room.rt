//! How many lines of the message on a closed cycle each of its sections gets.
ghost use Rattle.std.specs.Prelude.{◌≡◌, ◌-◌};
ghost use Rattle.ocfl_messages.specs.Closing.{back_room as room_of_back};
ghost use Rattle.ocfl_messages.specs.Closing.{behind_gone as left_behind_gone};
ghost use Rattle.ocfl_messages.specs.Closing.{behind_new as left_behind_new};
ghost use Rattle.ocfl_messages.specs.Closing.{gone_room as room_of_gone, most_of};
ghost use Rattle.ocfl_messages.specs.Closing.{new_lines as lines_of_new, new_room as room_of_new};
ghost use Rattle.ocfl_messages.specs.Closing.{repaired_room as room_of_repaired};
ghost use Rattle.ocfl_messages.specs.Closing.{room_of_sections as all_room};
ghost use Rattle.ocfl_messages.specs.Closing.{section_lines as lines_of_section};
ghost use Rattle.ocfl_messages.specs.Closing.{two_unless as two_lines_unless};

use crate::closing::Closing;

/// How many lines the message has at most.
const MOST_LINES: usize = 13;

/// How many are shown of `count`: all if each has a line behind the first one, and else there is a
/// line for the number of the rest.
pub(crate) fn most(room: usize, count: u64) -> usize
    ensures { result ≡ most_of room count }
{
    if count < room as u64 {
        room - 1
    } else {
        room.saturating_sub(2)
    }
}

fn two_unless(is_none: bool) -> usize
    ensures { result ≡ two_lines_unless is_none }
{
    if is_none { 0 } else { 2 }
}

/// How many lines a section has of `count`.
fn section_lines(room: usize, count: u64) -> usize
    ensures { result ≡ lines_of_section room count }
{
    if count == 0 {
        0
    } else if count < room as u64 {
        count as usize + 1
    } else {
        room
    }
}

/// How many lines there are for sections.
fn room_of_sections(closing: &Closing<'_>) -> usize
    ensures { result ≡ all_room closing.now }
{
    let word = if closing.whole { 2 } else { 3 };
    let why = usize::from(!closing.uncompared.is_empty());
    MOST_LINES - word - why - usize::from(closing.unlooked != 0)
}

/// How many of the new findings are not said yet.
pub(crate) fn unsaid(closing: &Closing<'_>) -> u64
    ensures { result ≡ closing.now.appeared_count - closing.now.said }
{
    closing.appeared_count.saturating_sub(closing.said)
}

/// How many lines there are for what is gone.
pub(crate) fn gone_room(closing: &Closing<'_>) -> usize
    ensures { result ≡ room_of_gone closing.now }
{
    room_of_sections(closing)
        .saturating_sub(two_unless(closing.appeared_count == 0))
        .saturating_sub(two_unless(closing.repaired_count == 0))
        .saturating_sub(two_unless(closing.back_count == 0))
}

/// How many are left behind what is gone.
fn behind_gone(closing: &Closing<'_>) -> usize
    ensures { result ≡ left_behind_gone closing.now }
{
    let gone = section_lines(gone_room(closing), closing.gone_count);
    room_of_sections(closing).saturating_sub(gone)
}

/// How many lines there are for what is new.
pub(crate) fn new_room(closing: &Closing<'_>) -> usize
    ensures { result ≡ room_of_new closing.now }
{
    behind_gone(closing)
        .saturating_sub(two_unless(closing.repaired_count == 0))
        .saturating_sub(two_unless(closing.back_count == 0))
}

/// How many lines what is new has in so much room.
fn new_lines(room: usize, count: u64, unsaid: u64) -> usize
    ensures { result ≡ lines_of_new room count unsaid }
{
    if count == 0 {
        0
    } else if unsaid == 0 {
        1
    } else {
        room
    }
}

/// How many are left behind what is new.
fn behind_new(closing: &Closing<'_>) -> usize
    ensures { result ≡ left_behind_new closing.now }
{
    let new = new_lines(new_room(closing), closing.appeared_count, unsaid(closing));
    behind_gone(closing).saturating_sub(new)
}

/// How many lines there are for what is repaired.
pub(crate) fn repaired_room(closing: &Closing<'_>) -> usize
    ensures { result ≡ room_of_repaired closing.now }
{
    behind_new(closing).saturating_sub(two_unless(closing.back_count == 0))
}

/// How many lines there are for what is back.
pub(crate) fn back_room(closing: &Closing<'_>) -> usize
    ensures { result ≡ room_of_back closing.now }
{
    let repaired = section_lines(repaired_room(closing), closing.repaired_count);
    behind_new(closing).saturating_sub(repaired)
}
