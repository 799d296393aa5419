//! The lines of a stored cursor, without its first line and its last.
ghost use Rattle.std.specs.Prelude.{◌≡◌, Option, None, Err, IfOk, nat_eq, true, codes};
ghost use Rattle.std.specs.List.{starts_with};
ghost use Rattle.ocfl_cursor.specs.Cursor.{Cursor as ModelCursor, cursor_lines};
ghost use Rattle.ocfl_cursor.specs.Lines.{AreStoredLines, stored_lines};
ghost use Rattle.ocfl_cursor.specs.declared.ends.PartEnds.{PartEnds as ModelEnds};

use crate::cursor::Cursor;
use crate::decoding::{read_lines, version_of};
use crate::encoding::cursor_lines;
use crate::ends::PartEnds;
use crate::form::{CHECKS_INVENTORIES, FROM};
use crate::part_decoding::read_ends;
use crate::part_encoding::part_lines;
use ocfl_report::{Further, TextStop};
use std::alloc::{AllocError, Global};

/// The lines of a cursor, of this part if there is one: its stored text without the first line and
/// the last.
pub fn stored_lines(
    alloc: Global,
    part: &Option<PartEnds>,
    cursor: &Cursor,
) -> Result<Vec<u8>, AllocError>
    ensures { IfOk result (λ lines. lines.items ≡ stored_lines part.now cursor.now) }
{
    match part {
        Some(ends) => part_lines(alloc, ends, cursor),
        None => cursor_lines(alloc, cursor),
    }
}

/// The part, if they name one, and the cursor whose lines these are. Other lines are `Bad`, and if
/// memory is refused the answer is `Memory`.
pub fn read_stored_lines(
    alloc: Global,
    lines: &[u8],
) -> Result<(Option<PartEnds>, Cursor), TextStop>
    ensures lines { IfOk result (λ read. AreStoredLines read.0 lines.now read.1) }
    ensures bad { result ≡ Err TextStop.Bad
        → (part : Option ModelEnds) (c : ModelCursor) → AreStoredLines part lines.now c → ⊥ }
{
    if lines.starts_with(FROM) {
        return read_part_lines(alloc, lines);
    }
    Ok((None, read_cursor_lines(alloc, lines)?))
}

/// The part and its cursor whose lines these are.
fn read_part_lines(alloc: Global, lines: &[u8]) -> Result<(Option<PartEnds>, Cursor), TextStop>
    requires front { starts_with nat_eq lines.now (codes "from ") ≡ true }
    ensures lines { IfOk result (λ read. AreStoredLines read.0 lines.now read.1) }
    ensures bad { result ≡ Err TextStop.Bad
        → (part : Option ModelEnds) (c : ModelCursor) → AreStoredLines part lines.now c → ⊥ }
{
    let (ends, rest) = read_ends(alloc, lines)?;
    Ok((Some(ends), read_cursor_lines(alloc, rest)?))
}

/// The cursor of a whole root whose lines these are.
fn read_cursor_lines(alloc: Global, lines: &[u8]) -> Result<Cursor, TextStop>
    ensures lines { IfOk result (λ cursor. AreStoredLines None lines.now cursor) }
    ensures bad { result ≡ Err TextStop.Bad
        → (c : ModelCursor) → AreStoredLines None lines.now c → ⊥ }
{
    read_lines(alloc, version_of(further_told(lines)), lines)
}

/// What the audit checks further by the lines of its cursor.
fn further_told(lines: &[u8]) -> Further
    ensures { (c : ModelCursor) → lines.now ≡ cursor_lines c → result ≡ c.further }
{
    if lines.starts_with(CHECKS_INVENTORIES) {
        Further::Inventories
    } else {
        Further::Nothing
    }
}
