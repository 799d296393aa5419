//! The state folder of a fixity auditor in the file system, which is held for one process alone,
//! and its log.
#![tactic(auto)]

mod beside;
mod calls;
mod disk;
mod fs_log;
mod fs_state;
pub mod laws;
mod lock;
mod state_file;
mod system_disk;

pub use calls::Calls;
pub use disk::Disk;
pub use fs_log::FsLog;
pub use fs_state::{FsState, OpenReport};
pub use lock::StateStop;
pub use state_file::{Reason, StateFile};
pub use system_disk::SystemDisk;
