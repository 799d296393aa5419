//! An open closed report in memory.
ghost use Rattle.std.specs.Prelude.{◌≡◌, ◌<◌, ◌^◌, true, IfOk, length, option_map};
ghost use Rattle.ocfl_state.specs.Calls.{bytes_of};

use crate::mem_disk::give_from;
use ocfl_closed::OpenReport;
use std::alloc::AllocError;
use std::io;

/// More bytes than the system's files may have: 2^63.
const NO_REPORT: u64 = 1 << 63;

/// An open closed report in memory.
#[derive(Drop)]
pub struct MemClosedReport {
    bytes: Vec<u8>,
    ghost short: { length bytes.items < 2 ^ 63 },
}

/// A report of these bytes, if there are any. They are refused as memory is if they are more than
/// the system's files may have.
pub(crate) fn opened(bytes: Option<Vec<u8>>) -> Result<Option<MemClosedReport>, AllocError>
    ensures { IfOk result (λ found. option_map (λ report. report.bytes.items) found
        ≡ option_map bytes_of bytes) }
{
    let Some(bytes) = bytes else {
        return Ok(None);
    };
    if bytes.len() as u64 >= NO_REPORT {
        return Err(AllocError);
    }
    Ok(Some(MemClosedReport { bytes }))
}

impl OpenReport for MemClosedReport {
    ghost told = { true };

    ghost bytes = { λ report. report.bytes.items };

    ghost short = { λ told report. report.short };

    fn read_at(&self, start: u64, buffer: &mut [u8]) -> io::Result<usize> {
        Ok(give_from(self.bytes.as_slice(), start, buffer))
    }
}
