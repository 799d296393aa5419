//! An OCFL storage root in a folder of the file system.
//!
//! # What is proved
//!
//! - A folder tells its tree if the calls of the system that it makes tell it (`FsTree` over
//!   `System`): it lists just the names that they give, each with the kind that a look sees; opens
//!   a file only if a look sees one; follows no link; and answers `Absent` only if nothing
//!   is there.
//! - A listing has each name once, and at most 1,000,000 names.
//! - After any call that fails no file is open, and why it failed is kept.
#![tactic(auto)]

mod answer;
mod dir_names;
mod entering;
mod failure;
mod fault;
mod fs_tree;
mod going;
mod listed;
mod node;
mod opened;
mod reading;
mod stand;
mod system;
mod whole_paths;

pub use answer::{Answer, ReadAnswer};
pub use dir_names::DirNames;
pub use entering::Entering;
pub use fs_tree::FsTree;
pub use node::{Node, Seen};
pub use opened::Opened;
pub use system::System;
pub use whole_paths::WholePaths;
