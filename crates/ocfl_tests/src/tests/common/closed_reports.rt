//! A closed report in memory, and the checkpoint that was kept with one.
ghost use Rattle.std.proofs.lemmas.Bool.{false≢true};

use ocfl_closed::OpenReport;
use ocfl_cursor::{Cursor, State};
use ocfl_report::{Further, read_place};
use ocfl_state::{Checkpoint, Left, Phase, ReportMark, RootIdentity, TopNames, encode_checkpoint};
use sha2::{Digest, Sha256};
use std::alloc::Global;
use std::io;

/// An open report, which gives at most 5 bytes at once.
#[derive(Drop)]
pub struct MemReport {
    pub bytes: Vec<u8>,
}

impl OpenReport for MemReport {
    ghost short = { λ told report. absurd (false≢true told) };

    fn read_at(&self, start: u64, buffer: &mut [u8]) -> io::Result<usize> {
        let from = (start as usize).min(self.bytes.len());
        let count = (self.bytes.len() - from).min(5).min(buffer.len());
        buffer[..count].copy_from_slice(&self.bytes[from..from + count]);
        Ok(count)
    }
}

/// The mark of a report with these bytes, which are no whole piece.
pub fn mark_of(bytes: &[u8]) -> ReportMark {
    ReportMark {
        bytes: bytes.len() as u64,
        lines: bytes.iter().filter(|byte| **byte == b'\n').count() as u64,
        pieces: [0; 32],
        tail: Sha256::digest(bytes),
    }
}

/// The bytes of the checkpoint with which a report that has this mark was closed. `None` if there
/// is no memory for them.
pub fn closed_with(
    alloc: Global,
    report: ReportMark,
    whole: bool,
    left: Vec<Left>,
) -> Option<Vec<u8>> {
    let root = RootIdentity {
        path: read_place(alloc, b"srv/ocfl").ok()?,
        declared: [0x11; 32],
    };
    let names = TopNames {
        count: 3,
        digest: [0xAB; 32],
    };
    let checkpoint = Checkpoint {
        root,
        names,
        phase: Phase::Closing,
        whole,
        report,
        said: 0,
        left,
        part: None,
        cursor: Cursor::from_parts(1, 1, 4, 1, Further::Nothing, State::Ended)?,
    };
    encode_checkpoint(alloc, &checkpoint).ok()
}
