//! Why a night makes no further run.

use ocfl_walk::Fault;

/// Why a night makes no further run.
#[derive(Drop)]
pub enum Pause {
    /// The end of the plan has come.
    TimeUp,
    /// As many files were started as the plan allows.
    Spent,
    /// The night was asked to stop.
    Asked,
    /// The last run stopped, or the root could not be looked at after it.
    Stopped(Fault),
    /// After the last run the root is gone, or another one.
    RootChanged,
    /// The cycle has ended.
    Closing,
}
