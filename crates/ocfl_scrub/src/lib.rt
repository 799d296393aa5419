//! The audit of a storage root or of a part of it, runs and cycles within limits, the check of one
//! place, and what a command does: its status, its note and the stored cursor.
//!
//! # Example
//!
//! ```
//! use ocfl_digest::Block;
//! use ocfl_folder::FsTree;
//! use ocfl_report::Further;
//! use ocfl_scrub::{Note, audited};
//! use std::fs;
//! use std::test::Fail;
//!
//! fn a_storage_root_on_disk_is_audited(rt: HostRuntime) -> Result<(), Fail> {
//!     fs::create_dir(&rt, "storage-root")?;
//!     fs::write(&rt, "storage-root/0=ocfl_1.1", b"ocfl_1.1\n")?;
//!     let mut store = FsTree::at(&rt, "storage-root")?;
//!     let mut block = Block::new(rt.alloc())?;
//!     let mut report = Vec::new(rt.alloc());
//!     let (status, note) = audited(
//!         rt.alloc(),
//!         &mut store,
//!         Further::Nothing,
//!         &mut block,
//!         &mut report,
//!     );
//!     assert!(rt; status == 0 && matches!(note, Note::Nothing));
//!     assert!(rt; report.as_slice() == b"ok\t.\t-\n".as_slice());
//!     fs::remove_dir_all(&rt, "storage-root")?;
//!     Ok(())
//! }
//! ```
//!
//! # What an audit checks
//!
//! Each audit, check and cycle is given a `Further`: what it checks beside what every audit checks.
//! A run has it from its cursor, and the cursor that it answers has the same. All that follows is
//! proved for each of them (`further` of `Call`): with `Further::Inventories` the inventories in
//! version directories are items, whose files are hashed, cut and counted as content is.
//!
//! # What is proved of a check
//!
//! - `check` writes exactly the text of the lines of the place, and opens no file twice. `item` and
//!   `found` say what was written; after a stop both are false.
//! - A stop at a place of the store comes only if more failures were counted than content files
//!   could not be read. It never comes at a content file.
//! - `checked` adds the status. For a path that is not the text of a place, however long, it makes
//!   no call of the store and writes nothing.
//! - On every store the status and the note of `checked` fit each other and what went out.
//!
//! # What is proved of an audit of the whole
//!
//! - `audit` writes the text of the whole audit, in which an unreadable content file has the lines
//!   of one (`AuditsWithin`).
//! - The content files opened are the hashed ones, in order, each once. The directories listed and
//!   the inventories read are those that an audit looks into and reads, in order, each once.
//! - If nothing failed, the text is that of the audit of the tree, and `found` says whether a line
//!   is a finding (`unfailing`).
//! - After a stop the items up to `last` went out whole, in order. Of the next item a proper
//!   beginning went out, which is empty unless the output failed (`AuditStopsWithin`).
//! - On every store, unless the output stops, the bytes that went out are lines, and `found` says
//!   whether one is a finding.
//! - `audited` adds the status and the note.
//!
//! # What is proved of a run
//!
//! These hold for every tree, every cursor that is not worn, whatever place it holds, and all
//! limits:
//!
//! - `run` writes the text of the greatest cut that the limits allow of the items above the
//!   cursor's place. What it spent, started and found is that of the cut (`RunsWithin`).
//! - The content files opened are the hashed ones of the cut, in order, each once.
//! - The run ends the cycle exactly if no item is left after the cut.
//! - The directories listed are the first ones on the way to the cursor's place, and those from
//!   there to the first item that is left, each once.
//! - The inventories read are at most that of the object that holds the cursor's place, and those
//!   from there on, each once.
//! - What it spent passes the budget by less than the last file's cost.
//! - After a stop the first items of the cut went out whole, in order. Of the next item a proper
//!   beginning went out, which is empty unless the output failed (`RunStopsWithin`).
//! - The cursor counts one run more, and is after the last item that went out whole
//!   (`RunsFromWithin`).
//! - If nothing failed, all of this is said of the audit of the tree (`unfailing`).
//!
//! These hold on every store:
//!
//! - What is spent is a sum of costs. Before each of them less than the budget was spent, and fewer
//!   files than their limit were started (`paid` of `any_store`). So it is at most 2^62 more than
//!   the budget (`overrun`).
//! - A cursor is worn exactly if a run cannot be counted (`worn`). Then no call is made, nothing is
//!   written and the cursor is returned unchanged.
//!
//! # What is proved of a cycle
//!
//! - `cycle` is a chain of runs (`CycleOfRunsWithin`): the first from a new cursor, one for each of
//!   the first limits, each from the cursor, the store and the output that the one before left. All
//!   but the last were ended by their limits. Count, cursor and `found` are theirs.
//! - So `cycle` writes what the runs of its limits take of the audit, one after the other, and
//!   returns the cursor of the last (`CyclesToWithin`, `CyclesWithin`, by the law
//!   `a_cycle_does_what_its_runs_do` of `ocfl_laws`). It ends the cycle exactly if that is the
//!   whole audit.
//! - What is listed and read is what each run lists and reads, and nothing between two runs.
//! - Each hashed file is opened once.
//! - Together the runs make at most as many openings of inventories as there are inventories, and
//!   one more for each run after the first.
//! - If each budget is at least B and each limit on files at least N, few runs are made: at most T
//!   / B plus F / N, each rounded down, plus one. T is the cost of the cycle and F its number of
//!   hashed files. That many limits are enough.
//! - Budgets that sum to the cost are enough, in as many runs as there are such budgets, if the
//!   limits on files fit as RULES says.
//! - After a stop the items of the runs before the last went out whole, and what was begun belongs
//!   to the last run (`CycleStopsWithin`). The number of runs returned is that of the runs made: no
//!   run lists the storage root twice (`each_run_of_a_cycle_looks_once` of `ocfl_laws`), so none
//!   that has begun may be left out; and the call that failed is the last of its run, so none is
//!   counted twice. It is at least 1 if there are limits (`made` of `any_store`).
//! - The law `a_cycle_keeps_the_headline` of `ocfl_laws` is the main promise, if nothing failed
//!   (`Headline`). Its `starts_below` says of each run which items it took, and that it started
//!   each file only while its limits allowed it.
//!
//! # What is proved of a part
//!
//! `audit`, `run` and `cycle` are `audit_part`, `run_part` and `cycle_part` with the whole. With a
//! part, each clause above has the items of the part (`within`) where it has those of the audit:
//!
//! - `audit_part` writes the text of the part's items (`AuditsWithin`). If none of them went out,
//!   `last` says so.
//! - `run_on` does what `run_part` does, and leaves its walk for the next run. If the limits ended
//!   the run before, the next one lists only directories of the part above the item that they did
//!   not allow to start, and reads only inventories above it (`LooksAbove`). A run that goes down
//!   first would write the same by the same calls from that item on (`GoesOnFrom`), so the laws
//!   of joining hold of it too (`each_run_that_goes_on_has_a_report` of `ocfl_laws`).
//! - `run_on` uses no walk of an audit with the other option (`other`).
//! - `run_part` takes the greatest cut that the limits allow of the part's items above the cursor's
//!   place (`RunsWithin`). It ends the cycle exactly if no item of the part is left after the cut.
//! - It begins with the part's first item if the cursor is at its start, has ended, or has a place
//!   that is less (`entry`, `stand`).
//! - The directories listed are the first ones on the way down to where the call begins, and those
//!   of the part that an audit looks into. A run lists these up to the first item that is left.
//!   Each is listed once.
//! - The inventories read are at most that of the object that holds the place where the call
//!   begins, and those of the part from there on, each once.
//! - Each file that is opened is right in a directory that the call listed, content files too, also
//!   if the call stops. So nothing of an object outside of the part is opened but of the one that
//!   holds the place where the call begins (`openings_lie_where_it_was_listed` of `ocfl_laws`).
//! - After a stop, what was listed and read is the first of these (`AuditStopsWithin`,
//!   `RunStopsWithin`). A run that stopped listed no directory above an item that it left (`ahead`
//!   of `RunStopsWithin`).
//! - `cycle_part` is a chain of runs of the part (`CycleOfRunsWithin`), so what it lists and reads
//!   is what these runs may. It makes few runs, by the part's own cost and files. That many limits
//!   are enough (`CyclesWithin`, `HeadlineOfPart`).
//!
//! The laws of `ocfl_laws` say what runs and parts did together, also if runs stopped and files
//! could not be read.
//!
//! # What is proved of a command
//!
//! `perform` does what a command asks for, and returns its status, its text and the cursor to be
//! stored. On every store (`any_store`, by its parts, and `said`):
//!
//! - The status and the text fit each other (`status`), and each command has its own texts
//!   (`said`).
//! - If the path or the cursor is refused, the cursor is worn, or its file failed, no call is made
//!   and nothing is written (`silent`). For an invalid path this holds whatever note is returned
//!   (`bad_path_silent`).
//! - No call is made for a cursor that is shown (`show_calls`). Showing one ends with status 0
//!   exactly if there is no text (`show_ends`).
//! - What goes out is whole lines, unless the output fails (`lines`). A check writes nothing unless
//!   it ends with an item. Of a run that has no memory for its cursor's text nothing is said: it
//!   says so even if the output failed before.
//! - A run hands back the text of a cursor after each summary, each stop at a place and each failed
//!   output, and never if no run was made (`kept`).
//! - After `out of memory` it may hand a text back or not, since no clause can say that memory for
//!   the text was refused. A trial shows that it hands one back whenever the text was made
//!   (`trials/refusals.py`).
//!
//! Over a reader that tells its bytes:
//!
//! - A cursor is refused only if those bytes are, for their reason (`refused`). One that is to be
//!   shown is refused by the kind that its first line names (`unshown`). What is shown are the
//!   lines of the cursor whose text they are, of the whole or of a part (`lines`).
//! - A run begins with the cursor whose text the bytes are, and without a reader with a new one. It
//!   hands back the text of the cursor that it answered. The run's summary has that cursor's cycle
//!   and runs, and the run's own cost (`handed_back`).
//! - A run refuses the cursor of an audit with the other option, and no other cursor for that
//!   (`OtherAudit` of `refused` and `told`).
//!
//! Over a store that tells its tree each command does exactly what `audited`, `checked`, `run` and
//! `cycle` say. Status and text are those of what they answered (`told`, `Performs`). A note is
//! shown as exactly its text (`note_text`), and a place in it as in a report line.
//!
//! `perform_part` does the same within a scope: the whole, a branch or a part. With the whole it is
//! `perform`. Everything above also holds for it. In addition:
//!
//! - The audit of a branch or of a part, and the run of a part, do exactly what `audit_part` and
//!   `run_part` say (`told`, `PerformsIn`).
//! - The audit of a branch in which no item went out, and which did not stop, ends with `no item`
//!   and status 2. Then nothing was written (`empty`).
//! - A run of a part begins with the cursor of that part whose text the bytes are, and without a
//!   reader with a new one. It hands back the text of its own cursor, which names the part
//!   (`handed_back`). What it hands back is the text of a cursor that keeps its rule, so the next
//!   run reads it (`keeps` of `HandedBack`).
//! - A cursor that is refused to a part is refused for the first reason that applies (`refused`).
//!   That it is of another part comes before that it is of an audit with the other option. No call
//!   of the store is made then, and nothing is written (`silent`).
#![tactic(auto)]

mod auditing;
mod checking;
mod command;
mod cycling;
mod kept;
mod note;
mod part;
mod part_performing;
pub mod parts;
mod performing;
mod running;
mod stop;
mod taking;

pub use auditing::{AuditEnd, audit, audit_part};
pub use checking::{AuditStatus, CheckEnd, check};
pub use command::{audited, checked};
pub use cycling::{CycleEnd, CycleStatus, cycle, cycle_part};
pub use kept::KeptWalk;
pub use note::Note;
pub use ocfl_scope::Scope;
pub use part::Part;
pub use part_performing::perform_part;
pub use performing::{Performed, perform};
pub use running::{RunEnd, RunStatus, run, run_on, run_part};
pub use stop::ReportStop;
