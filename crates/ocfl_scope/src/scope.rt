//! Which items of a storage root a command takes.
use ocfl_cursor::PartEnds;
use ocfl_tree::Place;

/// Which items of a storage root a command takes. Only an audit heeds a branch, and only an audit
/// or a run heeds a part. Any other command takes the whole.
#[derive(Debug, Drop)]
pub enum Scope {
    /// All of them.
    Whole,
    /// Those at a place and below it.
    Branch(Place),
    /// Those of the part with these ends.
    Part(PartEnds),
}
