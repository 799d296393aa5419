//! How a night and its state folder are called.

use ocfl_messages::Known;

/// How what a night speaks of is called.
#[derive(Clone, Copy)]
pub struct Names<'a> {
    /// The path of the storage root.
    pub root: &'a str,
    /// The number of the part, if only a part is read.
    pub part: Option<u64>,
    /// The path of the state folder.
    pub state: &'a str,
}

/// A night: what is noted, logged and said of it needs no more than this.
#[derive(Clone, Copy)]
pub struct About<'a> {
    pub names: Names<'a>,
    /// When the night began, in seconds since the epoch.
    pub began: u64,
    pub known: &'a Known,
    /// The SHA-256 of the program that makes it, in hexadecimal digits; empty if it is not known.
    pub program: &'a str,
}
