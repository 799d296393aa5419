//! Doing a deed over a folder, with its cursor's file and its progress; showing what a file says,
//! and the table of codes.
//!
//! # What is proved
//!
//! - A deed is done with the cursor of its file, and when its report has gone out, just the cursor
//!   that it handed back is put in the place of that file (`HasDone`). Where that file could not be
//!   opened nothing is done (`HasNotBegun`).
//! - A task has the status and says the note of its deed, and 3 where its cursor's file failed; of
//!   that it is told apart that memory was refused. What is said at the end is `end_calls`.
//! - Progress is shown of an audit, a run and a cycle that is not to be quiet, where standard error
//!   goes to a terminal, and it shares that with the report only then (`shown_on`).
//! - What is shown of a checkpoint or of a cursor are its lines, and of the table of codes its
//!   rows. Bytes that are refused as a checkpoint have status 4, and what is not read has 3
//!   (`unshown_status`).
#![tactic(auto)]

mod calls;
mod doing;
mod showing;
mod tasks;

pub use calls::{Line, TaskCalls};
pub use doing::{TaskEnd, perform_and_store, say_end};
pub use showing::{show_codes, show_table};
pub use tasks::{do_task, reason_of};
