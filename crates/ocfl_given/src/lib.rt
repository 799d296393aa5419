//! What a night is made with, whether it may begin the next cycle, and when it ends by the time of
//! day.
//!
//! # What is proved
//!
//! - `find_given` answers the night that is asked for, over the part that is chosen, and ends it by
//!   the clock only if that is asked for, within a day then (`IsMadeWith`). Which zone's clock that
//!   is follows from what the system names (`IsInZone`).
//! - `find_wait` answers a wait that follows from the end of the cycle that it tells
//!   (`wait_after`), and none where nobody asked for one. What is said of it has its times
//!   (`IsWaitText`).
//! - `find_plan` answers the plan of what is asked for, and one that is over where the night has to
//!   wait (`IsPlanOf`).
//! - `overlap` says exactly whether one of two folders is the other, or lies in it, by their paths.
#![tactic(auto)]

pub mod apart;
mod ends;
pub mod given;
pub mod planning;
mod refusing;
pub mod waiting;
