//! Writing the text of a part's cursor, and the lines that are shown of it.
ghost use Rattle.std.specs.Prelude.{◌≡◌, ◌++◌, Some, IfOk, OnOk};
ghost use Rattle.ocfl_cursor.specs.Cursor.{IsCursor};
ghost use Rattle.ocfl_cursor.specs.Part.{AreEnds, end_text, end_line, ends_lines, part_first_line, part_lines, part_text};

use crate::cursor::Cursor;
use crate::encoding::cursor_lines;
use crate::ends::{PartEnds, every_part_has_ends};
use crate::form::{
    BELOW, DIGEST, END, FROM, NO_WORD, PART_FIRST_LINE_ONE, PART_FIRST_LINE_TWO, START,
};
use crate::seal::sealed_text;
use ocfl_report::{Further, put_place};
use ocfl_tree::{Place, is_bytes};
use std::alloc::{AllocError, Global};

/// The text of a cursor of this part: nine lines, the second and third of which name the part, and
/// the last of which seals the others by their SHA-256. There is one more if the audit checks the
/// inventories of versions.
///
/// An end that has no place is `start` or `end`. The place whose text is that word is written with
/// `./` before it, so that the text determines the part.
pub fn encode_part(alloc: Global, ends: &PartEnds, cursor: &Cursor) -> Result<Vec<u8>, AllocError>
    ensures text { IfOk result (λ text. text.items ≡ part_text ends.now cursor.now) }
    ensures keeps { IsCursor cursor.now }
    ensures ends { AreEnds ends.now }
{
    every_part_has_ends(ends);
    let lines = part_lines(alloc, ends, cursor)?;
    sealed_text(alloc, DIGEST, part_first_line(cursor.further()), &lines)
}

/// The first line of the text of such an audit's cursor of a part.
fn part_first_line(further: Further) -> &'static [u8]
    ensures { result.now ≡ part_first_line further }
{
    match further {
        Further::Nothing => PART_FIRST_LINE_ONE,
        Further::Inventories => PART_FIRST_LINE_TWO,
    }
}

/// The text of a part's cursor without its first line and its last: seven or eight lines, to be
/// shown.
pub fn part_lines(alloc: Global, ends: &PartEnds, cursor: &Cursor) -> Result<Vec<u8>, AllocError>
    ensures lines { IfOk result (λ lines. lines.items ≡ part_lines ends.now cursor.now) }
    ensures keeps { IsCursor cursor.now }
{
    let cursor = cursor_lines(alloc, cursor)?;
    let mut lines = Vec::new(alloc);
    put_ends(alloc, ends, &mut lines)?;
    lines.extend_from_slice(&cursor)?;
    Ok(lines)
}

/// Appends the lines of both ends.
fn put_ends(alloc: Global, ends: &PartEnds, text: &mut Vec<u8>) -> Result<(), AllocError>
    ensures { OnOk result (text.new.items ≡ text.old.items ++ ends_lines ends.now) }
{
    put_end(alloc, FROM, START, &ends.from, text)?;
    put_end(alloc, BELOW, END, &ends.below, text)
}

/// Appends the line of an end.
fn put_end(
    alloc: Global,
    front: &[u8],
    word: &[u8],
    end: &Option<Place>,
    text: &mut Vec<u8>,
) -> Result<(), AllocError>
    ensures { OnOk result
        (text.new.items ≡ text.old.items ++ end_line front.now word.now end.now) }
{
    text.extend_from_slice(front)?;
    match end {
        Some(place) => put_end_place(alloc, word, place, text)?,
        None => text.extend_from_slice(word)?,
    }
    text.push(b'\n')?;
    Ok(())
}

/// Appends the place of an end.
fn put_end_place(
    alloc: Global,
    word: &[u8],
    place: &Place,
    text: &mut Vec<u8>,
) -> Result<(), AllocError>
    ensures { OnOk result
        (text.new.items ≡ text.old.items ++ end_text word.now (Some place.now)) }
{
    let mut path = Vec::new(alloc);
    put_place(place, &mut path)?;
    if is_bytes(&path, word) {
        text.extend_from_slice(NO_WORD)?;
    }
    text.extend_from_slice(&path)
}
