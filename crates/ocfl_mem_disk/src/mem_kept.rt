//! A checkpoint that was kept of the closing of a report.
ghost use Rattle.std.specs.Prelude.{◌≡◌, IfOk};
ghost use Rattle.ocfl_kept.specs.Keeping.{IsRead};
ghost use Rattle.ocfl_mem_disk.specs.KeptText.{IsRead-prop};

use ocfl_cursor::Refused;
use ocfl_state::{Checkpoint, decode_checkpoint};
use std::alloc::{AllocError, Global};

/// The bytes of the checkpoint with which the report of a cycle was closed, and the checkpoint that
/// these are. `None` if they are none any more.
#[derive(Drop)]
pub struct MemKept {
    pub(crate) cycle: u64,
    pub(crate) bytes: Vec<u8>,
    pub(crate) checkpoint: Option<Checkpoint>,
    pub ghost read: { IsRead bytes.items checkpoint } by { IsRead-prop bytes.items checkpoint },
}

impl MemKept {
    /// These bytes, kept of the closing of this cycle. The only error is running out of memory.
    pub fn new(alloc: Global, cycle: u64, bytes: Vec<u8>) -> Result<MemKept, AllocError>
        ensures { IfOk result (λ kept. (kept.cycle ≡ cycle) × (kept.bytes ≡ bytes)) }
    {
        let checkpoint = match decode_checkpoint(alloc, &bytes) {
            Ok(checkpoint) => Some(checkpoint),
            Err(Refused::Memory) => return Err(AllocError),
            Err(_) => None,
        };
        Ok(MemKept {
            cycle,
            bytes,
            checkpoint,
        })
    }
}
