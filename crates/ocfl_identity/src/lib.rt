//! What tells one storage root from another: its declarations, and the names in its top folder.
#![tactic(auto)]

mod declared;
mod gathered;
mod identity;

pub use identity::{Identity, NoIdentity, is_still_declared, look_at_root};
