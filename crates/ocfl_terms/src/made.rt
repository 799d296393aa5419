//! What a slice, which is one run and what is done after it, made.

use ocfl_item::Fault;
use ocfl_state::Checkpoint;
use ocfl_tree::Place;

/// How a slice ended.
#[derive(Drop)]
pub enum SliceEnd {
    /// No item is left: the cycle has ended.
    Ended,
    /// The next item is a file that the limits do not allow to start.
    Spent,
    /// The run stopped; what went out whole is kept.
    Stopped(Fault),
    /// After the run the root is gone, or another one. Nothing of the run is kept.
    RootChanged,
    /// After the run the root could not be looked at. Nothing of the run is kept.
    Unread(Place),
}

/// What a slice made.
#[derive(Drop)]
pub struct Made {
    /// The checkpoint after it.
    pub checkpoint: Checkpoint,
    /// What its items cost.
    pub spent: u64,
    /// How many of them are files that were read.
    pub files: u64,
    /// Whether a line of one of them is a finding.
    pub found: bool,
    pub end: SliceEnd,
}
