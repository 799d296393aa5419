//! A night beside its runs: what is noted of it and logged while it is under way, and what is said
//! and logged at its end.
//!
//! # What is proved
//!
//! - Each line of the log has the row of what it is of: a night that begins, a run, a place that is
//!   left out, and all of a night, after what is said of it if something is.
//! - What is said at the end are just these texts, in this order: why the night stopped, which
//!   branches earlier nights left out and which this one did, with why, and that some of the report
//!   was lost.
//! - A night has its own status once its lines went to the log. If one of them could not be written
//!   its status is 3 at least.
//!
//! And of a log that tells what it is asked for ([`NightLog`]):
//!
//! - Of the checkpoints that a night puts, the first one is logged as that which it took up, and
//!   then each that leaves out more than before is logged with the last branch that it leaves out.
//! - Why the last line was not appended that was not is kept.
#![tactic(auto)]

mod begun;
pub mod ending;
mod logging;
pub mod noting;

pub use logging::{Journal, NightLog, RunMade, SystemLog};
