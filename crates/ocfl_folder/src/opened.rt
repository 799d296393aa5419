//! An open file, and how much is left of it.
ghost use Rattle.std.specs.Prelude.{◌≡◌, ◌≤◌, ◌<◌, ◌↔◌, ◌-◌, IsNone, IfSome, IfOk, length};

use crate::node::Seen;
use std::fs::OpenFile;
use std::io::{self, Read};

/// An open file of the system.
#[derive(Drop)]
pub struct Opened<F: Drop> {
    file: F,
    /// How long it was when it was looked at, less what was read of it. `None` once a read met its
    /// end.
    left: Option<u64>,
}

/// The bytes left after a read of `count` into `room`; `None` if it reached the end, which a read
/// that leaves room shows.
fn left_after(left: u64, count: usize, room: usize) -> Option<u64>
    ensures end { IsNone result ↔ ((count ≡ left) × (count < room)) }
    ensures rest { IfSome result (λ rest. rest ≡ left - count) }
{
    if count as u64 == left && count < room {
        None
    } else {
        Some(left.saturating_sub(count as u64))
    }
}

impl<F: Read + OpenFile + Drop> Opened<F> {
    /// A file that was not looked at yet.
    pub(crate) fn new(file: F) -> Opened<F> {
        Opened {
            file,
            left: Some(u64::MAX),
        }
    }

    /// Looks at the file.
    pub(crate) fn look(&mut self) -> io::Result<Seen> {
        let metadata = self.file.metadata()?;
        self.left = Some(metadata.len());
        Ok(Seen::of(&metadata))
    }

    /// Reads the next bytes, and nothing more once a read met the end.
    pub(crate) fn read(&mut self, buffer: &mut [u8]) -> io::Result<usize>
        ensures { IfOk result (λ count. count ≤ length buffer.new) }
    {
        let Some(left) = self.left else {
            return Ok(0);
        };
        let count = self.file.read(buffer)?;
        self.left = left_after(left, count, buffer.len());
        Ok(count)
    }
}
