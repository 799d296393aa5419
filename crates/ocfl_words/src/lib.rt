//! What is counted and shown of the changes of a closed cycle, as they come.
#![tactic(auto)]

mod changes;
mod compared;
mod findings;
mod keeping;
mod lines;
mod marked;
mod missing;
mod noting;
mod places;
mod repaired;

pub use changes::Changes;
pub use findings::Findings;
pub use lines::error_of;
pub use missing::Missing;
pub use noting::{Noting, Part};
pub use places::count_places;
