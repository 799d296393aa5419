//! Showing a stored cursor, whether of a whole root or of one part.
ghost use Rattle.std.specs.Prelude.{◌≤◌, length, IfOk, IfErr, IfSome};
ghost use Rattle.ocfl_cursor.specs.{PartRefusal.{AnyPartRefusedRightly}, Refusal.{RefusedRightly}};
ghost use Rattle.ocfl_cursor.specs.Shown.{AreShown, AreWholeLines, IsShownFrom, UnshownRightly};
ghost use Rattle.ocfl_cursor.specs.{Internal.Part.{ArePartTextLines}, Stop.{max_part_text}};

use crate::decoding::decode;
use crate::encoding::cursor_lines;
use crate::form::MAX_PART_TEXT;
use crate::part_decoding::{is_part_front, read_part_text};
use crate::part_encoding::part_lines;
use crate::reading::{CursorStop, cursor_stop};
use crate::refused::{Refused, TextKind};
use ocfl_report::read_limited;
use std::alloc::Global;
use std::io::Read;

/// Why nothing is shown of a stored cursor.
#[derive(Clone, Copy, Debug, PartialEq, Eq)]
pub enum ShowStop {
    /// The reader failed, memory was refused, or the bytes are refused as a whole root's cursor:
    /// their first line is not that of a part's cursor, or they are more than 67,108,864.
    Whole(CursorStop),
    /// The first line is that of a part's cursor, and the bytes are refused as one, or memory was.
    Part(Refused),
}

/// Reads a stored cursor, of a whole root or of any part, from all the bytes of a reader. Gives the
/// lines to be shown: its text without the first line and the last. So the lines of a part's cursor
/// begin with those of its ends. A whole root's cursor of version 1 is shown as version 2.
///
/// At most 67,108,865 bytes are read.
pub fn read_shown<R: Read>(alloc: Global, reader: &mut R) -> Result<Vec<u8>, ShowStop>
    ensures lines { IfOk result (λ lines. IsShownFrom (R.remaining reader.old) lines.items) }
    ensures refused { IfErr result
        (λ stop. IfSome (R.remaining reader.old) (λ bytes. UnshownRightly bytes stop)) }
{
    let bytes = match read_limited(alloc, reader, MAX_PART_TEXT as u64 + 1) {
        Ok(bytes) => bytes,
        Err(why) => return Err(ShowStop::Whole(cursor_stop(why))),
    };
    if bytes.len() > MAX_PART_TEXT {
        return Err(ShowStop::Whole(CursorStop::Refused(Refused::NotA(TextKind::Cursor))));
    }
    shown_lines(alloc, &bytes)
}

/// The lines that are shown of the cursor whose text the bytes are.
fn shown_lines(alloc: Global, text: &[u8]) -> Result<Vec<u8>, ShowStop>
    requires short { length text.now ≤ max_part_text }
    ensures lines { IfOk result (λ lines. AreShown text.now lines.items) }
    ensures refused { IfErr result (λ stop. UnshownRightly text.now stop) }
{
    if is_part_front(text) {
        match lines_of_part(alloc, text) {
            Ok(lines) => Ok(lines),
            Err(refused) => Err(ShowStop::Part(refused)),
        }
    } else {
        match lines_of_whole(alloc, text) {
            Ok(lines) => Ok(lines),
            Err(refused) => Err(ShowStop::Whole(CursorStop::Refused(refused))),
        }
    }
}

/// The lines of the whole root's cursor whose text the bytes are.
fn lines_of_whole(alloc: Global, text: &[u8]) -> Result<Vec<u8>, Refused>
    ensures lines { IfOk result (λ lines. AreWholeLines text.now lines.items) }
    ensures refused { IfErr result (λ refused. RefusedRightly text.now refused) }
{
    let cursor = decode(alloc, text)?;
    Ok(cursor_lines(alloc, &cursor)?)
}

/// The lines of the part's cursor whose text the bytes are.
fn lines_of_part(alloc: Global, text: &[u8]) -> Result<Vec<u8>, Refused>
    ensures lines { IfOk result (λ lines. ArePartTextLines text.now lines.items) }
    ensures refused { IfErr result (λ refused. AnyPartRefusedRightly text.now refused) }
{
    let (ends, cursor) = read_part_text(alloc, text)?;
    Ok(part_lines(alloc, &ends, &cursor)?)
}
