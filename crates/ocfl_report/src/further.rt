//! What an audit checks beside what every audit checks.

/// What an audit checks beside what every audit checks.
#[derive(Clone, Copy, Debug, PartialEq, Eq)]
pub enum Further {
    /// Nothing.
    Nothing,
    /// The inventories in version directories, and what each root inventory is.
    Inventories,
}
