//! Why a night is refused.

use ocfl_cursor::Refused;
use ocfl_report::Further;
use ocfl_tree::Place;

/// Why a night is refused: nothing was run, and nothing in the folder was changed.
#[derive(Drop)]
pub enum Refusal {
    /// There is no checkpoint, and none is to be made.
    NoCheckpoint,
    /// There is no checkpoint, and there is a report, open or closed.
    HasReports,
    /// What is in the checkpoint's place is not read as a checkpoint, for this reason, which is
    /// never `Memory`.
    Unread(Refused),
    /// The root's top folder does not declare a storage root.
    NoRoot,
    /// The folder belongs to the storage root with this path.
    OtherRoot(Place),
    /// The folder belongs to another part of the root, or to all of it.
    OtherPart,
    /// The nights of the folder are of an audit that checks this further, and not of the one that
    /// is asked for.
    OtherAudit(Further),
    /// The root's declaration is not the one of before.
    OtherDeclaration,
    /// The checkpoint is older than the reports: that of this cycle is closed already, which is the
    /// cycle that it says is open or the one after it. Or it is the cycle whose report it says is
    /// to be closed, and there is an open report besides.
    Older(u64),
    /// More than half of the names in the root's top folder are gone since the cycle began.
    NamesGone {
        /// How many are gone.
        gone: u64,
        /// How many there were.
        before: u64,
    },
}
