//! The words of the program's command line and what they name: paths, the storage root and its
//! parts, splitting it, the version. Progress on a terminal.
//!
//! # What is proved
//!
//! - `read_asked` answers what words of a command line ask for, in which the program is named
//!   `ocfl-scrub`. All its paths lead from `/` on by one folder, and those of items are as reports
//!   write them (`IsGiven`).
//! - `read_scope` answers all items, the branch of the path that is chosen, or a part, and refuses
//!   nothing else. `find_ends` has the ends of that part alone.
//! - `say_no_scope` gives the status of the reason.
//! - `why_no_place` says why a path names no place, by the first of its names that is empty, `.` or
//!   `..` (`no_place_text`).
//! - Why a folder is not listed is said with a name only if one that is not UTF-8 was read there,
//!   and that is shown in printable ASCII (`IsWhy`).
#![tactic(auto)]

mod absolute;
pub mod cursors;
mod naming;
pub mod paths;
pub mod progress;
pub mod roots;
pub mod scope;
pub mod splits;
pub mod streams;
pub mod version;
pub mod words;
