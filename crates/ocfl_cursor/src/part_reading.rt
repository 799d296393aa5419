//! Reading a part's stored cursor from a reader.
ghost use Rattle.std.specs.Prelude.{◌≡◌, ◌⊎◌, IfOk, IfErr, IfSome};
ghost use Rattle.ocfl_cursor.specs.{Part.{IsPartText}, Stop.{PartStopsRightly}};

use crate::cursor::Cursor;
use crate::ends::PartEnds;
use crate::form::MAX_PART_TEXT;
use crate::part_decoding::decode_part;
use crate::reading::{CursorStop, cursor_stop};
use crate::refused::{PartRefused, Refused, TextKind};
use ocfl_report::read_limited;
use std::alloc::Global;
use std::io::Read;

/// Why no cursor of a part was read.
#[derive(Clone, Copy, Debug, PartialEq, Eq)]
pub enum PartCursorStop {
    /// The reader failed.
    Read,
    /// The bytes are refused, or memory was: for the bytes, or for the cursor.
    Refused(PartRefused),
}

/// Reads the cursor of this part from all the bytes of a reader: to its end, or to 67,108,865
/// bytes. More than 67,108,864 are refused as no cursor.
pub fn read_part_cursor<R: Read>(
    alloc: Global,
    reader: &mut R,
    ends: &PartEnds,
) -> Result<Cursor, PartCursorStop>
    // If the reader's bytes are known, the answer is that of `decode_part` for all of them,
    // unless they are too many.
    ensures cursor { IfOk result
        (λ cursor. IfSome (R.remaining reader.old) (λ bytes. IsPartText ends.now bytes cursor)) }
    ensures refused { IfErr result
        (λ stop. IfSome (R.remaining reader.old) (λ bytes. PartStopsRightly ends.now bytes stop)) }
{
    let bytes = match read_limited(alloc, reader, MAX_PART_TEXT as u64 + 1) {
        Ok(bytes) => bytes,
        Err(why) => return Err(part_stop(cursor_stop(why))),
    };
    if bytes.len() > MAX_PART_TEXT {
        return Err(PartCursorStop::Refused(PartRefused::Text(Refused::NotA(TextKind::Cursor))));
    }
    match decode_part(alloc, &bytes, ends) {
        Ok(cursor) => Ok(cursor),
        Err(refused) => Err(PartCursorStop::Refused(refused)),
    }
}

/// Why the bytes of a reader could not be read: it failed, or memory was refused.
fn part_stop(why: CursorStop) -> PartCursorStop
    ensures { (result ≡ PartCursorStop.Read)
        ⊎ (result ≡ PartCursorStop.Refused (PartRefused.Text Refused.Memory)) }
{
    match why {
        CursorStop::Read => PartCursorStop::Read,
        CursorStop::Refused(_) => PartCursorStop::Refused(PartRefused::Text(Refused::Memory)),
    }
}
