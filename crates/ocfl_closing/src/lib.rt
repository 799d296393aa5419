//! What is said of closed reports.
//!
//! # What is proved
//!
//! If the calls that closings make in a state folder are as the trait [`ClosingCalls`] says, each
//! file beside the closed reports by its path:
//!
//! - The folder is such a disk as `ocfl_closed` asks for (`ClosedDisk`): the reports and lists that
//!   are opened, made, synced and named are those of the cycle that is asked for. The objects that
//!   must be there are those of the list that are in the part of the folder.
//! - So `say_closings` says each cycle that was not said, from the first of the last 1,000 on, as
//!   `say_cycles` does; what a crash may leave of that is told at each moment.
//! - The line on a closing in the log has the numbers of its account.
#![tactic(auto)]

mod asking;
mod calls;
pub mod closing;
mod comparing;
mod folder_calls;
mod logging;
mod naming;
mod report;
mod telling;

pub use calls::ClosingCalls;
