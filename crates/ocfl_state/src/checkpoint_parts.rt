//! The parts of a checkpoint.

use ocfl_tree::Place;

/// Which storage root a night reads. A root that was unmounted meanwhile, or is another one, has
/// another of these.
#[derive(Debug, Drop)]
pub struct RootIdentity {
    /// The names on the way from `/` to the root, as the system resolves it; none for `/` itself.
    pub path: Place,
    /// The SHA-256 over the names and bytes of the root's declaration files.
    pub declared: [u8; 32],
}

/// The names in the top folder of a storage root, at the start of a cycle.
#[derive(Clone, Copy, Debug)]
pub struct TopNames {
    /// How many there are.
    pub count: u64,
    /// The SHA-256 over them.
    pub digest: [u8; 32],
}

/// What a night does with the report.
#[derive(Clone, Copy, Debug, PartialEq, Eq)]
pub enum Phase {
    /// Runs append to it.
    Open,
    /// The cycle has ended, and its report is to be closed.
    Closing,
}

/// What a checkpoint keeps of a report, or of as much of it as belongs to the cursor.
///
/// The chain of its pieces begins with 32 zeros. After a piece it is the SHA-256 of the chain
/// before that piece, in 64 lower-case hexadecimal digits, a line feed, and the piece (FIPS 180-4,
/// section 6.2).
#[derive(Clone, Copy, Debug, PartialEq, Eq)]
pub struct ReportMark {
    /// Its length, in bytes.
    pub bytes: u64,
    /// How many lines it has.
    pub lines: u64,
    /// The digest that chains its whole pieces of 4 MiB.
    pub pieces: [u8; 32],
    /// The SHA-256 of what follows the last whole piece.
    pub tail: [u8; 32],
}

/// A branch that could not be read.
#[derive(Debug, Drop)]
pub struct Left {
    /// The place of the branch.
    pub place: Place,
    /// The place that the cursor was after; `None` if it was at the start.
    pub after: Option<Place>,
}
