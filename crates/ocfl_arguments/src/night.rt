//! What a command line asks for of a night, as its texts and numbers.

use crate::task::Chosen;
use ocfl_cursor::Budget;
use ocfl_report::Further;

/// When a night begins no further run.
#[derive(Clone, Copy, Debug, PartialEq, Eq)]
pub enum Until {
    /// At no time.
    Never,
    /// This number of hours after it began: 1 to 24.
    Hours(u64),
    /// When the clock next shows this time of day.
    TimeOfDay {
        /// 0 to 23.
        hour: u8,
        /// 0 to 59.
        minute: u8,
    },
    /// At this time, in seconds since the Unix epoch.
    At(u64),
}

/// What a night may do, and until when.
#[derive(Clone, Copy)]
pub struct NightBounds {
    /// How much the night may spend, if that is said.
    pub budget: Option<Budget>,
    /// How many files it may start, if that is said: 1 to 2^62.
    pub files: Option<u64>,
    /// How much each of its runs may spend, if that is said.
    pub slice: Option<Budget>,
    /// When it begins no further run.
    pub until: Until,
    /// How many days after the end of the last cycle it may begin the next one, if that is said:
    /// 1 to 3650.
    pub every: Option<u64>,
}

/// A night, and what it is made with.
#[derive(Drop)]
pub struct NightAsked {
    /// The state folder.
    pub state: String,
    /// The folder of the storage root.
    pub root: String,
    /// What it may do, and until when.
    pub bounds: NightBounds,
    /// Which items it takes: all of them, or those of one part.
    pub chosen: Chosen,
    /// What its runs check beside what every audit checks.
    pub further: Further,
    /// The file of findings that are known, if it is given.
    pub known: Option<String>,
    /// The file of the objects that must be there, if it is given: of a part those that are in it
    /// count.
    pub expected: Option<String>,
    /// Whether a state folder without a checkpoint is begun in.
    pub create: bool,
    /// Whether it goes on though the root's declaration has changed or most of its names are gone.
    pub force_root: bool,
    /// Whether it ends at a place that cannot be read, and leaves no branch out.
    pub stop_at_faults: bool,
}

/// The joining of the closed reports of all parts.
#[derive(Drop)]
pub struct JoinAsked {
    /// The file of the separators that cut the storage root into the parts.
    pub parts: String,
    /// The folder that has the state folders of the parts.
    pub state: String,
}
