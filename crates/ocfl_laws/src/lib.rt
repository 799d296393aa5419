//! What follows from the contracts of `ocfl_scrub`: of an audit, a check, a run, a cycle, the parts
//! of a storage root and a command. It has laws, and no code; no program stands on it.
//!
//! # What is proved
//!
//! - The main promise: what a cycle keeps if nothing failed (`a_cycle_keeps_the_headline`).
//! - What the records of `told` say of bytes, listings and openings (module `records`), and what
//!   those of a command say of statuses, texts and stored cursors (`commands`, `scopes`).
//! - What runs and calls join to, whatever processes made them (`parts`, `handing`).
//!
//! Two laws say what runs and parts did together, if no failure was counted:
//!
//! - The reports of the runs of one cycle of a part, joined, are what the audit has there. The
//!   hashed files of the part were opened in order, each once, and the runs are few
//!   (`runs_of_a_part_join`).
//! - The reports of all parts that separators make, joined, are the audit, and each hashed file was
//!   opened once (`parts_join_to_the_audit`).
//!
//! Two more let runs in that stopped, and files that could not be read (`AreOneCycle`):
//!
//! - The report of a run is the lines of the items that it took whole. If the output failed, a
//!   beginning of the next item's lines may follow it, and belongs to no report
//!   (`each_run_has_a_report`).
//! - The reports of runs that each went on from the cursor of the one before, joined, are what the
//!   audit has there up to the last cursor (`runs_that_stop_join` of `ocfl_scrub`). Called
//!   unreadable are just the files that could not be read by the run that took them
//!   (`unread_together`). A file that failed in a run that stopped before its lines went out is
//!   opened again, and judged, by the next. If the last run ended the cycle, the reports are all of
//!   it.
//! - Of the runs that did not stop there are at most T / B plus F / N plus one, whether or not the
//!   cycle has ended.
//! - The reports of all parts whose cycles ended, joined, are the audit in which just these files
//!   are called unreadable (`parts_with_runs_that_stop_join`).
//!
//! Audits of parts, each with its own unreadable files, join in the same way (`parts_apart_join` of
//! `ocfl_rules`).
#![tactic(auto)]

pub mod commands;
pub mod handing;
pub mod headline;
pub mod parts;
pub mod records;
pub mod scopes;
