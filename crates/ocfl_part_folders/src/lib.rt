//! Joining the closed reports in the state folders of parts.
//!
//! # What is proved
//!
//! - What is counted of a joined report is what its lines count, each read once and in order. A
//!   text that is no line stops that, unless it begins as the line of what is right.
//! - What is said of separators that were not read, of a call that failed and of a file that is not
//!   the joined report, but for the system's words; which trouble that is for a joining; and the
//!   exit status of each end.
//!
//! And if the calls of the system in the folder of all parts are as the trait [`PartCalls`] says,
//! each for the path that it is given:
//!
//! - What the checkpoints of the parts say is what their bytes say, part by part.
//! - The folders are such a disk as `ocfl_join_disk` asks for (`JoinDisk`): the reports that are
//!   opened, made, synced, named and looked for are those of the part and the cycle that are asked
//!   for, and a closed report has the mark with which it was closed. The word on a joined report
//!   has what its bytes count, and the runs of all parts.
//! - So `join_over` goes through the cycles up to the last one that all parts have closed, as
//!   `join_cycles` says: what each ends as, which joined reports are there then, and what was said
//!   on standard error. The output is given the word on each report that is made, and no other
//!   text. Folder and output are given back. If a checkpoint cannot be read, nothing is changed.
//!
//! `MemParts` of `ocfl_mem_disk` meets the trait.
#![tactic(auto)]

mod asking;
mod calls;
mod counting;
mod failing;
mod folder_disk;
pub mod joining;
mod opening;
mod part_facts;
mod paths;

pub use calls::{ClosedFile, PartCalls};
