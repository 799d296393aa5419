//! The calls of a disk in memory that its log keeps.

/// A call that changes what is on the disk, or what a power cut may leave of it. A file has the
/// number of its making, from 0.
#[derive(Debug, Drop)]
pub(crate) enum MemCall {
    /// To this file these bytes are appended.
    Append(usize, Vec<u8>),
    /// This file is cut to this length.
    Cut(usize, u64),
    /// A next checkpoint is made, which is empty.
    MakeNew,
    /// A report is made, which is empty.
    MakeReport,
    /// The next checkpoint loses its name.
    Remove,
    /// The next checkpoint takes the place of the checkpoint.
    Put,
    /// The report is closed, as that of a cycle, whole or not.
    Close(u64, bool),
    /// The bytes of this file are brought to the disk.
    Sync(usize),
    /// The names in the folder are brought to the disk.
    SyncFolder,
    /// The names in the folder of the closed reports are brought to the disk.
    SyncReports,
}
