//! A disk in memory, which tells what it holds and what a power cut may leave of it, and can be
//! made to fail. The tests use it, and the program does not.
#![tactic(auto)]

mod gone_lists;
mod joined_path;
mod mem_call;
mod mem_closed_files;
mod mem_closed_report;
mod mem_closings;
mod mem_disk;
mod mem_faults;
mod mem_file;
mod mem_files;
mod mem_join;
mod mem_kept;
mod mem_list_call;
mod mem_note;
mod mem_parts;
mod shown;

pub use mem_closed_files::MemClosedFiles;
pub use mem_closed_report::MemClosedReport;
pub use mem_closings::MemClosingCalls;
pub use mem_disk::{MemDisk, MemHandle};
pub use mem_file::MemFile;
pub use mem_join::{MemClosed, MemJoinDisk};
pub use mem_kept::MemKept;
pub use mem_note::MemNote;
pub use mem_parts::MemParts;
