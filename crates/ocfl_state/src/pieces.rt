//! The digests of a report by whole pieces of 4 MiB, carried along while bytes are appended.
ghost use Rattle.std.specs.Prelude.{◌≡◌, ◌≤◌, ◌<◌, ◌+◌, ◌-◌, ◌%◌, ◌^◌, ◌++◌, ℕ, [], length, ◌↔◌, ◌*◌, IsSome, IfSome};
ghost use Rattle.sha2.specs.{Hashers.{Holds256}, Sha256.{sha256}};
ghost use Rattle.ocfl_state.specs.Content.{Bytes};
ghost use Rattle.ocfl_state.specs.Pieces.{piece_size, before_piece, lines_of, pieces_of, tail_of, summary_of, no_pieces, CarriedFrom, Carries, Feeds, IsTailed, Pushes, Turns};

use crate::checkpoint_parts::ReportMark;
use sha2::{Digest, Sha256};
use std::mem;

/// How many bytes a whole piece of a report has: 4 MiB.
pub const PIECE_LEN: usize = 4_194_304;

/// The length, the lines and the digests of a report, carried along while bytes are appended. It
/// keeps none of the bytes.
#[derive(Drop)]
pub struct ReportDigests {
    pub(crate) bytes: u64,
    pub(crate) lines: u64,
    pub(crate) pieces: [u8; 32],
    /// Holds the chain, a line feed, and what follows the whole pieces.
    begun: Sha256,
    /// Up to here no tail is kept, since these bytes will be in whole pieces.
    untailed: u64,
    /// Holds what follows the whole pieces, once there are those bytes.
    tail: Sha256,
}

/// How many line feeds there are.
pub(crate) fn count_lines(bytes: &[u8]) -> usize
    ensures bound { result ≤ length bytes.now }
    ensures value { result ≡ lines_of bytes.now }
{
    bytes.iter().filter(|byte| **byte == b'\n').count()
}

/// A hasher that holds what is before a piece.
fn piece_hasher(value: &[u8; 32]) -> Sha256
    ensures { Holds256 result (before_piece value.now) }
{
    let mut digits = [0; 64];
    hex::encode_to_slice(*value, &mut digits).unwrap();
    let mut hasher = Sha256::new();
    hasher.update(digits.as_slice());
    hasher.update(b"\n");
    hasher
}

/// The digest of what a hasher holds.
fn digest_of(hasher: &Sha256) -> [u8; 32]
    ensures { (text : Bytes) → Holds256 hasher.now text → result ≡ sha256 text }
{
    let copy = hasher.clone().unwrap();
    copy.finalize()
}

impl ReportDigests {
    /// Those of an empty report.
    pub fn new() -> ReportDigests
        ensures { Carries result [] }
    {
        ReportDigests::after(0, &[0; 32])
    }

    /// Those of the empty text after `count` whole pieces with this value. It counts lines from 0.
    #[tactic(auto, using(crate::proofs::PieceLaws::carried_after))]
    pub(crate) fn after(count: u64, value: &[u8; 32]) -> ReportDigests
        requires { count < 2 ^ 42 }
        ensures carried { CarriedFrom value.now count 0 result [] }
        ensures tailed { result.untailed ≡ 0 }
    {
        ReportDigests {
            bytes: PIECE_LEN as u64 * count,
            lines: 0,
            pieces: *value,
            begun: piece_hasher(value),
            untailed: 0,
            tail: Sha256::new(),
        }
    }

    /// Those of an empty report that will have this length. Until its whole pieces are there, each
    /// byte is hashed once.
    pub(crate) fn up_to(end: u64) -> ReportDigests
        ensures carried { CarriedFrom no_pieces 0 0 result [] }
        ensures tailed { result.untailed ≤ end }
    {
        let mut digests = ReportDigests::after(0, &[0; 32]);
        digests.untailed = end - end % PIECE_LEN as u64;
        digests
    }

    /// How many bytes are missing to the next whole piece.
    fn room(&self) -> usize
        ensures { result ≡ piece_size - self.now.bytes % piece_size }
    {
        PIECE_LEN - (self.bytes % PIECE_LEN as u64) as usize
    }

    /// Ends the piece that is begun, and begins the next.
    fn turn(&mut self)
        ensures { Turns self.old self.new }
    {
        let begun = mem::replace(&mut self.begun, Sha256::new());
        self.pieces = begun.finalize();
        self.begun = piece_hasher(&self.pieces);
        self.tail = Sha256::new();
    }

    /// Counts bytes, and gives them to both hashers, or to one if no tail is kept of them.
    fn feed(&mut self, bytes: &[u8])
        ensures { Feeds bytes.now self.old self.new }
    {
        self.begun.update(bytes);
        if self.bytes >= self.untailed {
            self.tail.update(bytes);
        }
        self.bytes = self.bytes.wrapping_add(bytes.len() as u64);
        self.lines = self.lines.wrapping_add(count_lines(bytes) as u64);
    }

    /// Appends bytes that end within the piece that is begun, or with it.
    fn push_within(&mut self, bytes: &[u8])
        requires { length bytes.now ≤ piece_size - self.old.bytes % piece_size }
        ensures { Pushes bytes.now self.old self.new }
    {
        let ends = bytes.len() == self.room();
        self.feed(bytes);
        if ends {
            self.turn();
        }
    }

    /// Appends bytes.
    #[tactic(auto, using(crate::proofs::PieceLaws::pushes_nothing))]
    pub(crate) fn push_from(&mut self, bytes: &[u8])
        ensures { Pushes bytes.now self.old self.new }
    {
        let mut done = 0;
        while done < bytes.len() {
            let end = done + self.room().min(bytes.len() - done);
            self.push_within(&bytes[done..end]);
            done = end;
        }
    }

    /// Appends bytes to the report, as long as it has less than 2^64 bytes.
    pub fn push(&mut self, bytes: &[u8])
        ensures { (report : Bytes) → Carries self.old report
            → length (report ++ bytes.now) < 2 ^ 64 → Carries self.new (report ++ bytes.now) }
    {
        self.push_from(bytes);
    }

    /// The digests with the lines of a summary, if what follows the whole pieces has the digest
    /// that it has of them.
    pub(crate) fn resumed(mut self, summary: &ReportMark) -> Option<ReportDigests>
        ensures found { (text : Bytes) → Holds256 self.tail text
            → (IsSome result ↔ (summary.now.tail ≡ sha256 text)) }
        ensures same { IfSome result (λ digests. digests
            ≡ record self { lines = summary.now.lines }) }
    {
        if digest_of(&self.tail) == summary.tail {
            self.lines = summary.lines;
            Some(self)
        } else {
            None
        }
    }

    /// The chain of the whole pieces.
    pub fn pieces(&self) -> [u8; 32]
        ensures { (report : Bytes) → Carries self.now report → result ≡ pieces_of report }
    {
        self.pieces
    }

    /// The digest of what follows the whole pieces.
    pub fn tail(&self) -> [u8; 32]
        ensures { (value : Bytes) (k lines : ℕ) (text : Bytes)
            → CarriedFrom value k lines self.now text → IsTailed self.now → result ≡ tail_of text }
    {
        let tail = &self.tail;
        digest_of(tail)
    }

    /// What a checkpoint keeps of the report.
    pub fn summary(&self) -> ReportMark
        ensures { (report : Bytes) → Carries self.now report → result ≡ summary_of report }
    {
        ReportMark {
            bytes: self.bytes,
            lines: self.lines,
            pieces: self.pieces,
            tail: digest_of(&self.tail),
        }
    }
}
