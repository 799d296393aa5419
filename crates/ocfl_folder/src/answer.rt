//! What a folder answered, for a system that keeps it.

/// What became of a listing or of an opening.
#[derive(Clone, Copy, Debug, PartialEq, Eq)]
pub enum Answer {
    Listed,
    /// The device failed in a listing.
    NotListed,
    Opened,
    /// The device failed in an opening.
    NotOpened,
}

/// What became of a read.
#[derive(Clone, Copy, Debug, PartialEq, Eq)]
pub enum ReadAnswer {
    /// How many bytes were given.
    Gave(usize),
    /// The device failed.
    Failed,
    NoFile,
}
