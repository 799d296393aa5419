//! The object that the next line of a report may be in, by the lines before it.
ghost use Rattle.std.specs.Prelude.{◌≡◌, IsTrue, IfOk, IfSome, drop, take};
ghost use Rattle.ocfl_messages.specs.Found.{IsHeadIn};
ghost use Rattle.ocfl_speaking.specs.Heads.{IsHeadBefore, lines_from};

use ocfl_messages::Heads;
use ocfl_report::{TextStop, split_once};
use ocfl_state::{FolderTrouble, StateFolder};
use std::alloc::Global;

/// How many bytes of a report are looked at.
const LOOKED_AT: u64 = 65536;

/// The bytes of the report from an offset on, if there are so many.
fn read_bytes<F: StateFolder>(
    alloc: Global,
    folder: &mut F,
    start: u64,
    count: usize,
) -> Result<Option<Vec<u8>>, FolderTrouble>
    ensures { IsTrue F.told → IfOk result (λ found. IfSome found (λ bytes.
        bytes.items ≡ take count (drop start (F.seen folder.old).report))) }
{
    let mut bytes = Vec::new(alloc);
    bytes.resize(count, 0)?;
    let found = folder.read(start, &mut bytes)?;
    if found < count {
        return Ok(None);
    }
    Ok(Some(bytes))
}

/// The object of the last head among the lines of these bytes. The first of them is cut, unless the
/// report begins with it.
fn last_head(alloc: Global, bytes: &[u8], is_start: bool) -> Result<Heads, TextStop>
    ensures { IfOk result (λ heads. IsHeadIn heads (lines_from is_start bytes.now)) }
{
    if is_start {
        return Heads::within(alloc, bytes);
    }
    match split_once(bytes, b'\n') {
        Some((_, lines)) => Heads::within(alloc, lines),
        None => Ok(Heads::new()),
    }
}

/// The object whose head came last before an offset of the report: none if none came within the
/// 64 KiB before it. `None` if they cannot be read, or have a line that is no report line.
pub fn heads_before<F: StateFolder>(alloc: Global, folder: &mut F, end: u64) -> Option<Heads>
    ensures { IsTrue F.told → IfSome result (λ heads.
        IsHeadBefore (F.seen folder.old).report end heads) }
{
    if end == 0 {
        return Some(Heads::new());
    }
    let (start, count) = (end.saturating_sub(LOOKED_AT), end.min(LOOKED_AT));
    let bytes = read_bytes(alloc, folder, start, count as usize).ok()??;
    last_head(alloc, &bytes, start == 0).ok()
}
