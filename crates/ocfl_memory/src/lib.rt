//! A storage root in memory, which tells what was done to it and can be made to fail. The tests use
//! it, and the program does not.
//!
//! # What is proved
//!
//! - The tree in memory does and tells what the trait `Tree` says of each call (`MemTree`). Its
//!   contracts also say what is at every place after each change, which refusal applies first, and
//!   which call is made to fail.
//! - The calls of the system over such a tree meet each clause of the trait `System`, and tell the
//!   tree (`MemSystem`). What keeps the record of the calls is a parameter (`Watch`), for which
//!   there is one that keeps it until memory is refused (`MemWatch`). A folder over both tells that
//!   tree (`folder_over`).
#![tactic(auto)]

mod build;
pub mod laws;
mod mem_file;
mod mem_folder;
mod mem_names;
mod mem_system;
mod mem_tree;
mod mem_watch;
mod nodes;
mod openings;
mod plan;
mod watch;

pub use build::BuildStop;
pub use mem_file::MemFile;
pub use mem_folder::folder_over;
pub use mem_names::MemNames;
pub use mem_system::MemSystem;
pub use mem_tree::MemTree;
pub use mem_watch::MemWatch;
pub use plan::Point;
pub use watch::Watch;
