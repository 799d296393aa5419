//! What a command line asks for, as its texts and numbers.

use crate::night::{JoinAsked, NightAsked};
use ocfl_deed::Deed;

/// Which items of a storage root a deed takes.
#[derive(Debug, Drop, PartialEq, Eq)]
pub enum Chosen {
    /// All of them.
    All,
    /// Those of the branch of a place, as the command line gives it.
    Branch(String),
    /// Those of one part.
    Part {
        /// The file of the separators that cut the storage root into parts.
        parts: String,
        /// Which of the parts it is: 1 to 100,001.
        number: usize,
    },
}

/// A deed, and what it is done with.
#[derive(Drop)]
pub struct Task {
    /// What is to be done.
    pub deed: Deed,
    /// Which items it takes: all of them, unless it is `Audit` or `Run`.
    pub chosen: Chosen,
    /// The folder of the storage root, which only `Show` goes without.
    pub root: Option<String>,
    /// The file of the cursor, of `Run` and of `Show`.
    pub file: Option<String>,
    /// Whether no progress is to be shown.
    pub quiet: bool,
}

/// How a storage root is to be split into parts. They are the same whatever is checked further.
#[derive(Drop)]
pub enum Split {
    /// By the directories that it lists.
    Listing {
        /// The most parts: 1 to 100,000.
        count: usize,
        /// The folder of the storage root.
        root: String,
    },
    /// By what a report of all of it says that its items cost.
    Report {
        /// What each part costs at least, but for the last one: 1 to 2^62.
        budget: u64,
        /// The file of the report.
        report: String,
    },
}

/// What a command line asks for.
#[derive(Drop)]
pub enum Asked {
    /// A deed is to be done.
    Task(Task),
    /// The separators of parts are to be written.
    Split(Split),
    /// A night is to be made.
    Night(NightAsked),
    /// The closed reports of all parts are to be joined.
    Join(JoinAsked),
    /// The table of codes is to be written: as JSON, or as text.
    Codes {
        /// Whether as JSON.
        json: bool,
    },
}
