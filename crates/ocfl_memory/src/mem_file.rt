//! An open file of a system in memory.
ghost use Rattle.std.specs.Prelude.{◌≡◌, ◌<◌, ◌≤◌, ◌++◌, [], length, take};

use crate::nodes;
use ocfl_folder::Seen;
use std::marker::Model;

/// An open file of a system in memory. Its value in clauses: the bytes that are left.
#[derive(Debug, Drop)]
pub struct MemFile {
    bytes: Vec<u8>,
    offset: usize,
    seen: Seen,
}

impl Model for MemFile {
    ghost use Rattle.std.specs.Prelude.{List, ℕ, ◌≤◌, length, drop};

    ghost Value = { List ℕ };

    ghost view = { λ a. drop a.offset a.bytes.items };

    ghost invariant = { λ a. a.offset ≤ length a.bytes.items };
}

impl MemFile {
    /// The file with these bytes, which was seen so.
    pub(crate) fn new(bytes: Vec<u8>, seen: Seen) -> MemFile
        ensures { result ≡ bytes.items }
    {
        MemFile {
            bytes,
            offset: 0,
            seen,
        }
    }

    /// What was seen of it when it was opened.
    pub(crate) fn seen(&self) -> Seen {
        self.seen
    }

    /// Gives the next bytes to the front of the buffer, and how many.
    #[tactic(auto, using(crate::proofs::Systems::given_splits))]
    pub(crate) fn give(&mut self, buffer: &mut [u8]) -> usize
        ensures bound { result ≤ length buffer.new }
        ensures given { self.old ≡ take result buffer.new ++ self.new }
        ensures end { take result buffer.new ≡ [] → 0 < length buffer.new → self.new ≡ [] }
    {
        let left = &self.bytes[self.offset..];
        let count = left.len().min(buffer.len());
        nodes::give(left, count, buffer);
        self.offset += count;
        count
    }
}
