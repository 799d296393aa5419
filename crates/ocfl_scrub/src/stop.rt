//! Why a report stops.

use ocfl_walk::Fault;

/// Why a check, an audit, a run or a cycle stops.
#[derive(Drop)]
pub enum ReportStop {
    /// The store did not answer, or memory was refused.
    Fault(Fault),
    /// The output failed.
    Output,
}
