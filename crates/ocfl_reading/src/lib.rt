//! The lists that a night reads: of known findings, and of the objects that must be there.
#![tactic(auto)]

pub mod expected;
pub mod known;
mod refusing;
