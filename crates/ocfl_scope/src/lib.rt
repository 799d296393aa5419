//! Which items of a storage root a command takes: the branch of a path, or the part with a number
//! of those that separators make.
//!
//! # What is proved
//!
//! - `find_part` answers a part only if the bytes of its reader are the text of separators. Its
//!   ends are those of the part with the number that was asked for, counted from 1 (`IsPartOf`).
//! - It reports that there is no such part only if the bytes are the text of separators that make
//!   fewer parts, or the number is 0 (`HasNoSuchPart`). It refuses bytes as `read_parts` does.
//! - `find_branch` answers the branch of a place only for the text of that place, and a bad path
//!   only for a text that is not that of any place.
//! - Each reason has its exit status (`ScopeStop::status`).
#![tactic(auto)]

mod finding;
pub mod laws;
mod scope;
mod stop;

pub use finding::{find_branch, find_part};
pub use scope::Scope;
pub use stop::ScopeStop;
