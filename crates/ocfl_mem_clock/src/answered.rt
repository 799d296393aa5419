//! What was answered.

use ocfl_terms::Made;

/// One answer of the calls, or a run that was made between two.
#[derive(Drop)]
pub enum Answered {
    /// The time, in seconds since the epoch; `None` if the clock could not be read.
    Seconds(Option<u64>),
    /// Whether something had the name of the file that asks the night to stop.
    HasStop(bool),
    /// What a run made.
    Ran(Made),
}
