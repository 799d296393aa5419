//! Reading separators from their text, and why other bytes are refused.
ghost use Rattle.std.specs.Prelude.{◌≡◌, ◌≢◌, ℕ, List, ◌++◌, ◌∷◌, [], ◌≤◌, length, IfOk};
ghost use Rattle.std.specs.Prelude.{IfErr, IfSome, OnOk, OnErr};
ghost use Rattle.ocfl_tree.specs.Place.{Place as ModelPlace};
ghost use Rattle.ocfl_separators.specs.Separators.{AreSeparators, part_line, parts_text};
ghost use Rattle.ocfl_separators.specs.Parts.{max_separators, IsPartsText};
ghost use Rattle.ocfl_separators.specs.Stop.{StopsRightly, LinesStop};

use crate::separators::{MAX_SEPARATORS, PushStop, Separators};
use ocfl_report::{InputStop, TextStop, read_limited, read_place, split_once};
use std::alloc::Global;
use std::io::Read;
use thiserror::Error;

/// How many bytes the text of separators has at most.
pub const MAX_BYTES: usize = 16_777_216;

/// Why no separators were read: too many bytes come first, and then the lines in their order.
#[derive(Clone, Copy, Debug, PartialEq, Eq, Error)]
pub enum PartsStop {
    /// The first line, from 1, that is no place with its line feed, or is not above the one before.
    #[error("bad parts: line {0}")]
    Line(usize),
    /// There are more than 16,777,216 bytes, or 100,000 lines are right and more follow.
    #[error("bad parts: too long")]
    Long,
    /// The reader failed.
    #[error("parts file failed")]
    Read,
    /// Memory was refused.
    #[error("out of memory")]
    Memory,
}

/// Reads separators from all the bytes of a reader: to its end, or one byte more than their text
/// can have. Their text has a line for each, its place as report lines write it, and no other
/// bytes; no bytes at all are no separators.
pub fn read_parts<R: Read>(alloc: Global, reader: &mut R) -> Result<Separators, PartsStop>
    ensures separators { IfOk result
        (λ separators. IfSome (R.remaining reader.old) (λ bytes. IsPartsText bytes separators)) }
    ensures refused { IfErr result
        (λ stop. IfSome (R.remaining reader.old) (λ bytes. StopsRightly bytes stop)) }
{
    match read_limited(alloc, reader, MAX_BYTES as u64 + 1) {
        Ok(bytes) => read_text(alloc, &bytes),
        Err(InputStop::Failed) => Err(PartsStop::Read),
        Err(InputStop::Memory) => Err(PartsStop::Memory),
    }
}

/// The separators whose text the bytes are.
fn read_text(alloc: Global, bytes: &[u8]) -> Result<Separators, PartsStop>
    ensures separators { IfOk result (λ separators. IsPartsText bytes.now separators) }
    ensures refused { IfErr result (λ stop. StopsRightly bytes.now stop) }
{
    if bytes.len() > MAX_BYTES {
        return Err(PartsStop::Long);
    }
    read_lines(alloc, bytes)
}

/// The separators of these lines.
fn read_lines(alloc: Global, bytes: &[u8]) -> Result<Separators, PartsStop>
    ensures text { IfOk result (λ separators. bytes.now ≡ parts_text separators) }
    ensures rule { IfOk result AreSeparators }
    ensures few { IfOk result (λ separators. length separators ≤ max_separators) }
    ensures refused { IfErr result (λ stop. LinesStop bytes.now stop) }
{
    let mut separators = Separators::new(alloc);
    let mut rest = bytes;
    while !rest.is_empty() {
        let count = separators.len();
        if count >= MAX_SEPARATORS {
            return Err(PartsStop::Long);
        }
        match read_line(alloc, &mut separators, rest) {
            Ok(left) => rest = left,
            Err(PushStop::NotAbove) => return Err(PartsStop::Line(count + 1)),
            Err(PushStop::Memory) => return Err(PartsStop::Memory),
        }
    }
    Ok(separators)
}

/// Appends the separator of the first line. Gives what follows the line.
fn read_line<'a>(
    alloc: Global,
    separators: &mut Separators,
    text: &'a [u8],
) -> Result<&'a [u8], PushStop>
    ensures ok { IfOk result (λ rest. (p : ModelPlace)
        × (separators.new ≡ separators.old ++ p ∷ []) × (text.now ≡ part_line p ++ rest.now)) }
    ensures rule { OnOk result (AreSeparators separators.new) }
    ensures err { OnErr result (separators.new ≡ separators.old) }
    ensures bad { result ≡ Err PushStop.NotAbove → (p : ModelPlace) (after : List ℕ)
        → AreSeparators (separators.old ++ p ∷ []) → text.now ≢ part_line p ++ after }
{
    let Some((path, rest)) = split_once(text, b'\n') else {
        return Err(PushStop::NotAbove);
    };
    let place = match read_place(alloc, path) {
        Ok(place) => place,
        Err(TextStop::Bad) => return Err(PushStop::NotAbove),
        Err(TextStop::Memory) => return Err(PushStop::Memory),
    };
    separators.push(place)?;
    Ok(rest)
}
