//! The calls on lists of what is gone that the log of a state folder in memory keeps.

/// A call that changes a list of what is gone, or what a power cut may leave of one.
#[derive(Debug, Drop)]
pub(crate) enum MemListCall {
    /// The list that was made last has these bytes.
    Write(Vec<u8>),
    /// Its bytes are brought to the disk.
    Sync,
    /// It becomes the list of this cycle.
    Put(u64),
    /// The names in the folder of the lists are brought to the disk.
    SyncFolder,
}
