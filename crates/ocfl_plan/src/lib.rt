//! From what is asked of a night to what it may do, and from what it did to its exit status; the
//! clock that asks it to stop once its budget is spent, and what hears of its runs.
#![tactic(auto)]

mod budgeted;
mod hearing;
mod laws;
mod plan;
mod status;
mod stopping;
mod telling;

pub use budgeted::Budgeted;
pub use hearing::{Hearing, Listener};
pub use laws::no_run_begins_once_the_budget_is_spent;
pub use plan::plan_of;
pub use status::{closed_by, is_kept, is_logged, night_status, run_status};
pub use stopping::{StopCalls, StopFile};
pub use telling::{Message, Telling};
