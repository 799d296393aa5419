//! Which report a line is of.

/// Which of two reports a line is of.
#[derive(Clone, Copy, Debug, PartialEq, Eq)]
pub enum Side {
    /// The report before.
    Before,
    /// This report.
    Now,
}
