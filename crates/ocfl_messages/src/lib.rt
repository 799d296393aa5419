//! What a night says and logs: the most serious of the findings that were not said before, by
//! object, why a night was refused or stopped, what a closed cycle found, and a line of the log for
//! each.
//!
//! Texts are made in memory, since each has at most a few dozen lines, and
//! `ocfl_report::write_all_of` writes them. Every name and path in them is escaped as in reports;
//! in a command that can be pasted they are quoted for a shell.
#![tactic(auto)]

mod appending;
mod closing;
mod command;
mod finding;
mod found;
mod gathering;
mod gravest;
mod grouped;
mod joined;
mod known;
pub mod laws;
mod list;
mod log;
mod many;
mod night;
mod quoted;
mod refusal;
mod respelt;
mod room;
mod shown;
mod stop;
mod tally;
mod wording;

pub use closing::{Closing, Gone, GoneKind, Moved, SHOWN, closing_text};
pub use finding::{FileCounts, Finding, Heads};
pub use found::Found;
pub use gathering::Gathering;
pub use gravest::{Gravest, Kept};
pub use joined::{Joined, joined_text};
pub use known::{Known, KnownEntry, Reach};
pub use list::{KnownStop, read_known};
pub use log::{
    BeganRow, ClosingRow, LeftRow, LogRow, NightRow, RefusalRow, SliceRow, Stands, log_line,
};
pub use night::{Night, find_shown, night_text};
pub use quoted::Quoted;
pub use refusal::{RefusalMessage, refusal_text};
pub use shown::Shown;
pub use stop::{StopMessage, stop_text};
pub use tally::{Counts, Tally};
