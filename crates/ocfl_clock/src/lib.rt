//! When a clock next shows a time of day, in a time zone, and whether the next cycle may begin.
#![tactic(auto)]

mod every;
mod next;

pub use every::{may_begin, must_wait};
pub use next::next_time;
