//! What follows of any nights over one state folder, of a night that was refused, and of one that
//! stopped at a place. It has laws, and no code; no program stands on it.
//!
//! # What is proved
//!
//! - Of any nights over one root, from an empty folder on, each ended or crashed at any moment:
//!   what is left is sound, and what was said was committed. A closed report that is called whole
//!   is the audit, in which only files are called unreadable that one of the nights could not read;
//!   any other is the audit around branches that were left out, if all was read. Between two nights
//!   closed reports may be taken away, but not that of a checkpoint's cycle while the checkpoint
//!   says that it is to be closed (module `nights`).
//! - No run of a night begins but where its clock has answered that the end has not come. The next
//!   night begins where the last run led. Nights of one cycle read nothing twice, and after a crash
//!   what is opened again is what one run had opened, and a file of each run that stopped
//!   (`nights`).
//! - A night is refused for a reason that holds of its folder and its root (`refusals`).
//! - A night stops at a place exactly where nothing helps, and there the store has failed
//!   (`stops`).
#![tactic(auto)]

pub mod nights;
pub mod refusals;
pub mod stops;
