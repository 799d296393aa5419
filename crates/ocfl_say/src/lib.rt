//! Outputs on which whole texts are said.
//!
//! # What is proved
//!
//! That an output says a text is that it was given all of it, and has committed all that it was
//! given ([`Say`]). [`MemOutput`] does so in memory, and [`Speaking`] over a writer, of which
//! nothing is known.
#![tactic(auto)]

mod memory;
mod say;
mod speaking;

pub use memory::MemOutput;
pub use say::{NotSaid, Say};
pub use speaking::Speaking;
