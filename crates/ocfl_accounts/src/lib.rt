//! Which closed cycles are said, in which order, what each is compared with, and when its account
//! is kept.
//!
//! # What is proved
//!
//! Of closed reports that are as the trait [`Closings`] says:
//!
//! - A cycle is compared with the last one before it whose report is there and lost nothing
//!   (`find_earlier`), outside of what either left out, and in what the one before alone left out
//!   with the last whole one (`find_pair`). A report that is not there is named if it is later than
//!   the one that was found, and would be found if it were there.
//! - What a cycle found is said once: only if its account is not there, and its account, which is
//!   that of the comparison, is put only after its text was committed. A crash leaves the accounts
//!   as they were, or with that one, once its text was said (`say_cycle`); over several cycles with
//!   those of some of them, in order (`say_cycles`).
//! - What texts are made with stays: each text of a call is made with what that began with.
//! - Whatever calls there were, each ended or crashed at any moment: each account that is there was
//!   there at first, or had its text said in one of them; a call whose status is not 3 has said
//!   each of its cycles that has a report and had no account; and what it has not said the next
//!   search finds (`laws`).
//! - Of the 1,000 cycles before one `find_unsaid` finds the first that was not said, though later
//!   ones were.
//! - That closed reports failed is answered only if a call of them did, and that the output failed
//!   only if it did.
//! - Its status is 3 if the report is not whole or a report is not there with which it is to be
//!   compared, 1 if something is new or gone, else 0.
//!
//! [`MemClosings`] does in memory what the trait says.
#![tactic(auto)]

mod closed;
mod closings;
mod earlier;
mod held;
pub mod laws;
mod memory;
mod pair;
mod telling;
mod unsaid;

pub use closed::{ClosedCycle, Look};
pub use closings::{ClosingStop, Closings, Found};
pub use earlier::{Earlier, find_earlier};
pub use held::{MemAccount, MemCycle};
pub use memory::MemClosings;
pub use pair::{Pair, find_pair, status_of};
pub use telling::{say_cycle, say_cycles};
pub use unsaid::find_unsaid;
