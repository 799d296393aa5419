//! Files in memory, by their paths.

/// A file in memory. A folder counts as one, too.
#[derive(Debug, Drop)]
pub struct MemFile {
    pub path: String,
    pub bytes: Vec<u8>,
}
