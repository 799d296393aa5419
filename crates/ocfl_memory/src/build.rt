//! Why a tree in memory was not changed.

/// Why a tree in memory is not changed.
#[derive(Clone, Copy, Debug, PartialEq, Eq)]
pub enum BuildStop {
    /// Something is at the place.
    Exists,
    /// No directory is right above the place.
    NoParent,
    /// That directory has 1,000,000 entries.
    Full,
    /// Nothing is at the place, or it is the root.
    Absent,
    /// Memory was refused.
    Memory,
}
