//! What is asked of two reports.

/// What is asked of two reports.
#[derive(Clone, Copy, Debug, PartialEq, Eq)]
pub(crate) enum Question {
    /// What changed.
    Changed,
    /// Which objects of the first, a list, have no line in the second.
    Expected,
}
