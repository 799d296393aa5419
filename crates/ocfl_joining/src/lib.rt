//! Joining the closed reports of all parts of a storage root.
//!
//! # What is proved
//!
//! Of the separators, and of what is known of the report that each part closed in a cycle:
//!
//! - `find_missing` names each part with whose report something is wrong, and what: that it is of
//!   another storage root, of another part or cycle, that it is not there, was not said, is of a
//!   part that saw far fewer names in the root than another one, or is not whole.
//! - `join` joins them if nothing but that keeps it from it; else it names each part that does, and
//!   opens no report.
//! - `find_within` gives the places of a list that are in a part.
//! - `join_cycles` joins the last cycle that all parts have closed, and of the 1,000 before it, the
//!   oldest first, each that all of them have closed and that is not joined; it has the greatest
//!   status. Of each that is joined there is a report then that has the closed reports of all
//!   parts, each right, and nothing is put of one that parts keep from it. The output is given the
//!   word on each report that is made, and nothing for one that is compared. That is so if the
//!   cycles are as the trait [`PartCycles`] says.
//! - `say_missing` and `say_lacking` are what is said of parts that keep a cycle from being joined,
//!   and of a joined report that is not whole. `say_stop` is what is said of a cycle whose joining
//!   stopped: a line for each part whose report is not as it was closed, or one for the part, or
//!   for the cycle, at which a call failed. Of each cycle that stopped `join_cycles` has said that,
//!   or answers that it could not.
//!
//! And if the reports are as the trait [`PartReports`] says:
//!
//! - What `join` puts is the bytes of all of them in their order, each once. Each is as it was
//!   closed, as far as that was kept, and has the lines of a report, in order, all in its part.
//!   Else just those parts are named of whose reports that is not so.
//! - Each is opened once, and read and checked while it is copied. Nothing is put before all of
//!   them were, and an error puts nothing but the joined report. A part that it names is one of
//!   them.
//! - It is put as one that is whole exactly if each report is, and else what was left out is given.
//! - The word on it is said and committed before it is put: if that fails, nothing is put. At any
//!   moment a crash leaves the joined reports as they were, or with all of this one, once its word
//!   was said, if the reports tell what a crash leaves. The reports of the parts stay as they are.
//!
//! If the report of each part is what the audit has there, what is joined is the audit
//! (`closed_reports_join_to_the_audit`). `MemoryReports` meets the trait.
#![tactic(auto)]

mod copying;
mod cycles;
mod facts;
mod failing;
mod joining;
pub mod laws;
mod memory;
mod missing;
mod part;
mod reports;
mod saying;
mod status;
mod within;

pub use cycles::{JoinedLook, PartCycles, end_of, join_cycles};
pub use facts::{
    Facts, FoundReport, RunCount, add_runs, facts_of, facts_with, is_emptied, known_part,
    last_of_all, mark_of, mark_with, read_facts,
};
pub use failing::{FailedCall, JoinEnd, failed_status};
pub use joining::{JoinStop, Joined, join};
pub use memory::{MemoryJoined, MemoryReport, MemoryReports};
pub use missing::{find_missing, find_most_names, find_root};
pub use part::{ClosedPart, MissingPart, PartFault};
pub use reports::{KeptMark, PartReports, ReportTrouble};
pub use saying::{say_lacking, say_missing, say_stop};
pub use status::{CycleEnd, join_status};
pub use within::find_within;
