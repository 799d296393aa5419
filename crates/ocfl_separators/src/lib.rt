//! Separators, which cut a storage root into parts, their text and the ends of each part; and the
//! separators that cut a report into parts of about one cost.
//!
//! # What is proved
//!
//! - Separators are places in strictly ascending order, by their type. `Separators::ends` gives the
//!   two ends of each part, and none exactly if there are fewer parts.
//! - `put_parts` writes a line for each. `read_parts` answers separators only for bytes that are
//!   their text. Otherwise it reports which line is the first bad one, or that there are too many.
//! - `split_by` answers the separators of a report by a budget exactly as the definition computes
//!   them (`IsSplit`). They are the first places of the runs by that budget, but for the first run;
//!   so the parts have the items of the runs. Each run but the last costs at least the budget, and
//!   passes it by less than its last file (`a_report_is_cut_into_runs` of `ocfl_split`). Otherwise
//!   it reports which line is the first bad one, or that there are too many separators.
#![tactic(auto)]

mod costs;
pub mod laws;
mod reading;
mod separators;
mod splitting;
mod writing;

pub use reading::{MAX_BYTES, PartsStop, read_parts};
pub use separators::{PushStop, Separators};
pub use splitting::{SplitStop, split_by};
pub use writing::put_parts;
