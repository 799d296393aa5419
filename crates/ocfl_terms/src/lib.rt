//! The terms of a night: what it may do, and the clock and the output that it is lent; why it is
//! refused or stopped, what its runs made and how it ended, and the exit status after that.
//!
//! # What is proved
//!
//! - An output over a writer has committed what the writer took before the last flush that went
//!   well, and counts each call that failed (`Flushing`).
//! - The status of a program after a night is that of its end, and of what it lost and found
//!   (`status_of`, `status_found`).
#![tactic(auto)]

mod counting;
mod made;
mod output;
mod plan;
mod refusal;
mod status;
mod stop;

pub use counting::counted;
pub use made::{Made, SliceEnd};
pub use output::{Flushing, Output, OutputFailed};
pub use plan::{Clock, Halt, NightEnd, Plan};
pub use refusal::Refusal;
pub use status::{status_found, status_of};
pub use stop::Stop;
