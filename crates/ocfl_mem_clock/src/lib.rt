//! The calls in memory that the clock of a night makes, which tell what they answered. The tests
//! use them, and the program does not.
#![tactic(auto)]

mod answered;
mod copying;
mod mem_calls;

pub use answered::Answered;
pub use mem_calls::{Course, MemStopCalls};
