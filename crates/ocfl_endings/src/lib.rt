//! How a night ended: what its runs came to, what is said of that, and the log of each run.
//!
//! # What is proved
//!
//! - `ending_text` gives exactly the line on each end (`ending_line`), and nothing of a night that
//!   ended as it may. A folder that belongs to another root names the path of that one. The
//!   system's words on the state folder and those on the storage root are not taken for each other.
//! - What is said and logged of a night, and its status, are by the end of its own runs.
//! - A run is logged as that of its checkpoint, its cost and its status, from the time that the
//!   clock showed last before it.
#![tactic(auto)]

mod ending;
mod run_log;
mod runs;

pub use ending::ending_text;
pub use run_log::RunLog;
pub use runs::Runs;
