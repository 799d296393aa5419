//! What is seen of closed cycles in a state folder on a disk, and the lists of what is gone as
//! their accounts, over the calls of the system that are made.
#![tactic(auto)]

mod account;
mod accounting;
mod apart;
mod back;
mod check;
mod disk;
mod disk_closings;
mod finding;
pub mod laws;
mod looking;
mod marking;
mod opening;
mod reader;
mod rows;
mod taking;
mod within;
mod words;

pub use account::{Account, CycleMade, Paths, compared, compared_whole, count_of};
pub use disk::{ClosedDisk, OpenReport};
pub use disk_closings::DiskClosings;
pub use finding::{ChangesFound, find_changes};
pub use looking::look_at;
pub use words::SaidWith;
