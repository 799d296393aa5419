//! What nights keep in a state folder, as the program reads it: its lock, its checkpoint and its
//! closed reports.
//!
//! # What is proved
//!
//! - Where nights stand is what their checkpoint says.
//! - The names of reports, lists and folders of parts, and the words on a folder that is refused,
//!   but for the system's.
//!
//! And if a folder is as the trait [`state_dir::Folder`] says:
//!
//! - A report is as it was closed if and only if it has the mark of the checkpoint with which it
//!   was; one that is not there counts so, and one of which no checkpoint was kept.
//! - The checkpoint that is read is the one that the bytes are, and the ends of a part are its own.
#![tactic(auto)]

mod digits;
pub mod kept;
pub mod names;
pub mod room;
pub mod stand;
pub mod state;
pub mod state_dir;
