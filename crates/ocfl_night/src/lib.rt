//! A night as one call, and its steps: looking at the root, taking up what the last night left,
//! ended or crashed, one run and another look at the root, saying what was not said, and closing
//! the report of a cycle that has ended. What nights keep true of a state folder whenever they
//! crash.
//!
//! # What is proved
//!
//! - A night is one call, `night`: it looks at the root, takes up what the last one left, ended or
//!   crashed, says what was unsaid, makes runs, says what they wrote, and closes the report of a
//!   cycle that has ended.
//! - If each crash before it leaves a sound content, so does a crash at any moment of it. At no
//!   moment does a checkpoint count more as said than before and what the output has committed
//!   since.
//! - All that it keeps was written by runs over the root that its store tells. What follows of any
//!   nights, each ended or crashed at any moment, are the laws of `ocfl_night_laws`.
//! - At its end all of the report is said, also what earlier nights left, unless its end is
//!   `Refused` or `Troubled`.
//! - A folder whose checkpoint is of another root or part, or of an audit that checks something
//!   else, stays as it was, whenever a crash comes. So does one of a root that declares no storage
//!   root, has another declaration, or lost more than half of its names; with `force_root` the last
//!   two pass. A night that ends as `Refused` has changed nothing, and the reason that it gives
//!   holds.
//! - A folder whose checkpoint is older than its reports stays as it was too: the cycle that it
//!   says is open, or the one after it, is closed, or the report that it says is to be closed is,
//!   and there is another one. No folder that nights have left, ended or crashed at any moment, is
//!   refused so.
//! - The report has the lines of a run only if the files that declared the root were there, and the
//!   same, after it (`slice`).
//! - A checkpoint has the length, the lines and the digests of the report that it speaks of, and
//!   its text is always read again. A report that is shorter than it says, or has another tail
//!   after the last whole 4 MiB, is called so by the night that finds it, and is not closed as
//!   whole. Before a report is closed as whole all of it is compared, so one with any other byte is
//!   closed as incomplete.
//! - A branch is left out only by a checkpoint that names it, with the place that the cursor was
//!   after (`leave_out`). The next run is made past it (`slice`), and a cycle that left one out is
//!   not closed as whole.
//! - The closed reports after a cycle that it says has ended are those up to that cycle, but for
//!   those that were taken away before. Before there was one less, or as many if a crash came right
//!   after the last one was closed. No night with another end closes one, unless it is troubled.
//! - It begins where the checkpoint of its folder stands, and in a folder without one at the first
//!   item, if it may and no report is there, with a cursor that checks what the site says.
//! - It is the list of its runs. Each begins where the one before it led, after its clock answered
//!   that the night is not asked to stop and a time before the end. It keeps to the limits that the
//!   plan gives for that time and for what was done: no more than runs spend in a minute, or until
//!   the end, at the rate of those before. By this list the night ends for the reason that it
//!   gives, unless it is troubled, and it answers how many runs it began and what it left out.
//!   Unless it is troubled, the folder's checkpoint then stands where the last run led, or at the
//!   beginning of the next cycle if that one has ended, and there the next night begins.
//! - Whenever a crash comes in one of its runs, or in what is done after it, the checkpoint that is
//!   left has taken what the runs before had taken. So what the next night opens again is what one
//!   run had opened, and of each run that stopped one file at most. Else a night opens each content
//!   file once, however it ends.
//! - It says that it stopped at a place only if the store failed there, in its last run or in the
//!   look at the root after it, and if nothing could be done about that: twice, unless it is to
//!   stop at faults, 64 runs had stopped before, or the root could not be looked at.
//! - A night that is troubled says why. It says that the folder failed or is full only if the
//!   folder counted a failure in it, or if what is there as a checkpoint is too long; that a
//!   checkpoint is too long, only of one that it was to put; that the output failed, only if that
//!   counted a failure; and never that the folder holds a closed report already or, in one that
//!   nights left, that checkpoint and report do not fit each other. What memory refuses no count
//!   shows.
//! - All but the last holds of a state folder and a store that are as they tell, over a root with
//!   no file of 2^62 bytes or more; what is said of another root or part needs no store that tells.
//!   The last holds of a clock that tells what it answered and heard.
#![tactic(auto)]

mod checkpoint;
mod closing;
mod leaving;
mod looking;
mod nights;
mod not_opened;
mod older;
mod opening;
mod owning;
mod pace;
mod pause;
mod reports;
mod saying;
mod site;
mod slicing;
mod tally;

pub use checkpoint::{look, put_checkpoint};
pub use closing::finish;
pub use leaving::leave_out;
pub use nights::night;
pub use not_opened::NotOpened;
pub use opening::{Opened, open};
pub use pause::Pause;
pub use saying::speak;
pub use site::Site;
pub use slicing::slice;
pub use tally::Remedy;
