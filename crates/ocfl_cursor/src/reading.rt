//! Reading a stored cursor from a reader.
ghost use Rattle.std.specs.Prelude.{◌≡◌, IfOk, IfErr, IfSome};
ghost use Rattle.ocfl_cursor.specs.{Refusal.{IsTextOf}, Stop.{StopsRightly, unread}};

use crate::cursor::Cursor;
use crate::decoding::decode;
use crate::form::MAX_TEXT;
use crate::refused::Refused;
use ocfl_report::{InputStop, read_limited};
use std::alloc::Global;
use std::io::Read;

/// Why no cursor was read.
#[derive(Clone, Copy, Debug, PartialEq, Eq)]
pub enum CursorStop {
    /// The reader failed.
    Read,
    /// The bytes are refused, or memory was: for the bytes, or for the cursor.
    Refused(Refused),
}

/// Reads a cursor from all the bytes of a reader: to its end, or one byte more than the text of a
/// cursor can have.
pub fn read_cursor<R: Read>(alloc: Global, reader: &mut R) -> Result<Cursor, CursorStop>
    // If the reader's bytes are known, the answer is that of `decode` for all of them.
    ensures cursor { IfOk result
        (λ cursor. IfSome (R.remaining reader.old) (λ bytes. IsTextOf bytes cursor)) }
    ensures refused { IfErr result
        (λ stop. IfSome (R.remaining reader.old) (λ bytes. StopsRightly bytes stop)) }
{
    let bytes = match read_limited(alloc, reader, MAX_TEXT as u64 + 1) {
        Ok(bytes) => bytes,
        Err(why) => return Err(cursor_stop(why)),
    };
    match decode(alloc, &bytes) {
        Ok(cursor) => Ok(cursor),
        Err(refused) => Err(CursorStop::Refused(refused)),
    }
}

/// Why the bytes of a reader could not be read: it failed, or memory was refused.
pub(crate) fn cursor_stop(why: InputStop) -> CursorStop
    ensures { result ≡ unread why }
{
    match why {
        InputStop::Failed => CursorStop::Read,
        InputStop::Memory => CursorStop::Refused(Refused::Memory),
    }
}
