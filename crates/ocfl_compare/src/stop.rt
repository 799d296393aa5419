//! Why two reports are not compared.
use thiserror::Error;

/// Why two reports were not compared. What went out until then is not to be used.
#[derive(Clone, Copy, Debug, PartialEq, Eq, Error)]
pub enum CompareStop {
    /// The first line of the report before, from 1, that is no report line, or whose place is less
    /// than the one before it.
    #[error("bad report before: line {0}")]
    Before(u64),
    /// The same of this report.
    #[error("bad report: line {0}")]
    Now(u64),
    /// The reader of the report before failed.
    #[error("report before failed")]
    BeforeFailed,
    /// The reader of this report failed.
    #[error("report failed")]
    NowFailed,
    /// The output failed.
    #[error("output failed")]
    Output,
    /// Memory was refused.
    #[error("out of memory")]
    Memory,
}
