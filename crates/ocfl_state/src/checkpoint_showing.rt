//! Showing a stored checkpoint, or a stored cursor.
ghost use Rattle.std.specs.Prelude.{IfOk, IfErr, IfSome};
ghost use Rattle.ocfl_cursor.specs.Shown.{AreShown as AreCursorLines, UnshownRightly};
ghost use Rattle.ocfl_state.specs.CheckpointShown.{AreShown, HiddenRightly, IsOfText};

use crate::checkpoint_decoding::decode_checkpoint;
use crate::checkpoint_encoding::checkpoint_lines;
use crate::checkpoint_form::FRONT;
use ocfl_cursor::{Refused, ShowStop, read_shown};
use ocfl_report::{InputStop, read_limited};
use std::alloc::Global;
use std::io::Read;

/// How many bytes are shown of at most, as of a cursor alone.
const MAX_SHOWN: usize = 67_108_864;

/// Why nothing is shown of a stored checkpoint or cursor.
#[derive(Clone, Copy, Debug, PartialEq, Eq)]
pub enum NotShown {
    /// The reader failed.
    Read,
    /// Memory was refused for the bytes of the reader.
    Memory,
    /// The bytes are more than 67,108,864.
    Long,
    /// The bytes begin as a checkpoint, and are refused as one, or memory was.
    Checkpoint(Refused),
    /// The bytes begin otherwise, and are refused as a cursor, or memory was.
    Cursor(ShowStop),
}

/// The lines that are shown of a stored checkpoint, or of a stored cursor of a whole root or of any
/// part: its text without the first line and the last.
pub fn show_stored(alloc: Global, text: &[u8]) -> Result<Vec<u8>, NotShown>
    ensures lines { IfOk result (λ lines. AreShown text.now lines.items) }
    ensures refused { IfErr result (λ why. HiddenRightly text.now why) }
    ensures of_text { IfErr result IsOfText }
{
    if !text.starts_with(FRONT) {
        return lines_of_cursor(alloc, text).map_err(NotShown::Cursor);
    }
    let checkpoint = match decode_checkpoint(alloc, text) {
        Ok(checkpoint) => checkpoint,
        Err(refused) => return Err(NotShown::Checkpoint(refused)),
    };
    match checkpoint_lines(alloc, &checkpoint) {
        Ok(lines) => Ok(lines),
        Err(_) => Err(NotShown::Checkpoint(Refused::Memory)),
    }
}

/// The lines of the cursor whose text the bytes are.
fn lines_of_cursor(alloc: Global, text: &[u8]) -> Result<Vec<u8>, ShowStop>
    ensures lines { IfOk result (λ lines. AreCursorLines text.now lines.items) }
    ensures refused { IfErr result (λ why. UnshownRightly text.now why) }
{
    let mut reader = text;
    read_shown(alloc, &mut reader)
}

/// Reads a stored checkpoint, or a stored cursor of a whole root or of any part, from all the bytes
/// of a reader. Gives the lines to be shown, as [`show_stored`] does.
///
/// At most 67,108,865 bytes are read.
pub fn read_stored<R: Read>(alloc: Global, reader: &mut R) -> Result<Vec<u8>, NotShown>
    // If the reader's bytes are known, the answer is that of `show_stored` for all of them.
    ensures lines { IfOk result (λ lines. IfSome (R.remaining reader.old)
        (λ all. AreShown all lines.items)) }
    ensures refused { IfErr result (λ why. IfSome (R.remaining reader.old)
        (λ all. HiddenRightly all why)) }
{
    let bytes = match read_limited(alloc, reader, MAX_SHOWN as u64 + 1) {
        Ok(bytes) => bytes,
        Err(InputStop::Failed) => return Err(NotShown::Read),
        Err(InputStop::Memory) => return Err(NotShown::Memory),
    };
    if bytes.len() > MAX_SHOWN {
        return Err(NotShown::Long);
    }
    show_stored(alloc, &bytes)
}
