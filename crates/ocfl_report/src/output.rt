//! Writing all of some bytes, or saying how many went out.
ghost use Rattle.std.specs.{Prelude.{◌<◌, ◌≤◌, OnOk, IfErr, length, take}, Io.KnownBytes.{Appends}};

use std::io::{ErrorKind, Write};

/// How many interruptions in a row stop the output.
const MAX_INTERRUPTIONS: u32 = 1_000;

/// The output stopped before all of it went out.
#[derive(Clone, Copy, Debug, PartialEq, Eq)]
pub struct OutStop {
    /// How many of the bytes went out, from the first on. They are fewer than all.
    pub gone: usize,
}

/// Writes all of the bytes, by as many calls of `write` as the writer needs. It does not flush, and
/// never allocates.
///
/// An error of the writer stops the output, and so does its answer that it took none of the bytes
/// that are left. A call that was interrupted is made again; 1,000 interruptions in a row are a
/// stop.
pub fn write_all_of<W: Write>(out: &mut W, bytes: &[u8]) -> Result<(), OutStop>
    ensures ok { OnOk result (Appends (W.contents out.old) (W.contents out.new) bytes.now) }
    ensures fewer { IfErr result (λ stop. stop.gone < length bytes.now) }
    ensures stop { IfErr result
        (λ stop. Appends (W.contents out.old) (W.contents out.new) (take stop.gone bytes.now)) }
{
    let mut gone = 0;
    while gone < bytes.len() {
        match write_some(out, &bytes[gone..]) {
            0 => return Err(OutStop { gone }),
            count => gone += count,
        }
    }
    Ok(())
}

// Writes a beginning of the bytes and says how many went out: none where the writer stopped.
fn write_some<W: Write>(out: &mut W, bytes: &[u8]) -> usize
    ensures within { result ≤ length bytes.now }
    ensures sent { Appends (W.contents out.old) (W.contents out.new) (take result bytes.now) }
{
    for _ in 0..MAX_INTERRUPTIONS {
        match out.write(bytes) {
            Ok(count) => return count,
            Err(error) if error.kind() == ErrorKind::Interrupted => {}
            Err(_) => return 0,
        }
    }
    0
}
