//! Reading the first bytes of a reader, or its next line.
ghost use Rattle.std.specs.Prelude.{◌≡◌, ◌≢◌, ◌↔◌, [], take, true, false, IfOk, IfSome, OnOk};
ghost use Rattle.std.specs.{Io.BufRead.{take_through}, Io.KnownBytes.{Consumes, IsAtEnd}};
ghost use Rattle.std.specs.{IoError.{error_kind}, declared.io.ErrorKind.TheVariants.{OutOfMemory}};
ghost use Rattle.ocfl_report.specs.declared.input.InputStop.TheVariants.{Memory};

use std::alloc::Global;
use std::io::{self, BufRead, ErrorKind, Read};

/// Why bytes were not read.
#[derive(Clone, Copy, Debug, PartialEq, Eq)]
pub enum InputStop {
    /// The reader failed.
    Failed,
    /// Memory was refused.
    Memory,
}

impl From<io::Error> for InputStop {
    ghost from_gives = { λ error stop. (stop ≡ Memory) ↔ (error_kind error ≡ OutOfMemory) };

    fn from(error: io::Error) -> InputStop {
        match error.kind() {
            ErrorKind::OutOfMemory => InputStop::Memory,
            _ => InputStop::Failed,
        }
    }
}

/// All the bytes of a reader, or the first of them, as many as the limit. [`InputStop::Memory`] if
/// memory is refused for them, and [`InputStop::Failed`] if the reader fails.
pub fn read_limited<R: Read>(
    alloc: Global,
    reader: &mut R,
    limit: u64,
) -> Result<Vec<u8>, InputStop>
    ensures bytes { IfOk result
        (λ bytes. IfSome (R.remaining reader.old) (λ all. bytes.items ≡ take limit all)) }
{
    let mut bytes = Vec::new(alloc);
    Read::take(reader, limit).read_to_end(&mut bytes)?;
    Ok(bytes)
}

/// Reads the next line with its line feed, or whatever is left, in place of what `text` had. Gives
/// false at the end. After an error `text` has what was read of the line. [`InputStop::Memory`] if
/// memory is refused for it, and [`InputStop::Failed`] if the reader fails.
pub fn read_next_line<R: BufRead>(reader: &mut R, text: &mut Vec<u8>) -> Result<bool, InputStop>
    ensures line { OnOk result
        (IfSome (R.remaining reader.old) (λ bytes. text.new.items ≡ take_through 10 bytes)) }
    ensures rest { Consumes (R.remaining reader.old) (R.remaining reader.new) text.new.items }
    ensures more { IfOk result (λ more. more ≡ true → text.new.items ≢ []) }
    ensures none { IfOk result (λ more. more ≡ false → text.new.items ≡ []) }
    ensures end { IfOk result (λ more. more ≡ false → IsAtEnd (R.remaining reader.old)) }
{
    text.clear();
    let count = reader.read_until(b'\n', text)?;
    Ok(count > 0)
}
